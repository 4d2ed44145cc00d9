//! The services of the tests.
use crate::messages::{Count, Item};
use crate::polled::{Flows, Plainly, Talks};
use crate::streams::{Listing, Loading, Talking};
use futures::future::{Ready, ready};
use ttrpc::asynchronous::{
    ServerShared, ServerStream, ServerStreamOpening, ServerStreamReceiver, TtrpcContext,
};
use ttrpc::security_extension::Plain;
use ttrpc::{Error, Result};

type Line = ServerShared<Plain, Plain>;

/// The implementation of each rpc of the tests.
#[derive(Clone, Copy, Debug)]
pub struct Told {}

impl Talks for Told {
    type Same = Ready<Result<Item>>;

    type Size = Ready<Result<Count>>;

    type Fail = Ready<Result<Item>>;

    type List = Listing;

    type Watch = Ready<Result<()>>;

    type Load = Loading;

    type Talk = Talking;

    fn same(&self, _ctx: &TtrpcContext, request: Item) -> Ready<Result<Item>> {
        ready(Ok(request))
    }

    fn size(&self, _ctx: &TtrpcContext, request: Item) -> Ready<Result<Count>> {
        let count = request.content.len() as u64;
        ready(Ok(Count { count }))
    }

    fn fail(&self, _ctx: &TtrpcContext, _request: Item) -> Ready<Result<Item>> {
        ready(Err(Error::Eof))
    }

    fn list(&self, ctx: &TtrpcContext, stream: ServerStreamOpening<Count, Item, Line>) -> Listing {
        Listing::new(ctx.alloc(), stream)
    }

    fn watch(
        &self,
        _ctx: &TtrpcContext,
        _stream: ServerStreamOpening<Count, Item, Line>,
    ) -> Ready<Result<()>> {
        ready(Err(Error::Eof))
    }

    fn load(&self, _ctx: &TtrpcContext, receiver: ServerStreamReceiver<Item, Line>) -> Loading {
        let count = 0;
        Loading { receiver, count }
    }

    fn talk(&self, ctx: &TtrpcContext, stream: ServerStream<Item, Item, Line>) -> Talking {
        Talking::new(ctx.alloc(), stream)
    }
}

impl Plainly for Told {
    type Ask = Ready<Result<Count>>;

    fn ask(&self, _ctx: &TtrpcContext, request: Item) -> Ready<Result<Count>> {
        let count = request.name.len() as u64;
        ready(Ok(Count { count }))
    }
}

impl Flows for Told {
    type Flow = Ready<Result<()>>;

    fn flow(
        &self,
        _ctx: &TtrpcContext,
        _stream: ServerStream<Count, Item, Line>,
    ) -> Ready<Result<()>> {
        ready(Err(Error::RemoteClosed))
    }
}
