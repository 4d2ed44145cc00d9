//! The services of talks.proto for polled ends: for each a trait, the handlers of its methods and streams, and a client.
//! Written by tools/messages from talks.proto: change that, and run the tool.

ghost use Rattle.ttrpc_polled.specs.Streams.Handling.{AtCanPoll, EitherCanPoll};

use crate::messages::{Count, Item};
use futures::Future;
use futures::future::Either;
use std::alloc::Global;
use std::collections::BTreeMap;
use std::sync::Arc;
use ttrpc::asynchronous::{
    Client, ClientCall, ClientLine, ClientOpening, ClientStream, ClientStreamReceiver,
    ClientStreamSender, Closes, EndsBy, Handling, MethodHandler, NoMethods, NoStreams, Responds,
    ServerShared, ServerStream, ServerStreamOpening, ServerStreamReceiver, Service, StreamHandler,
    StreamInner, Timed, TtrpcContext, async_client_request, async_client_stream,
    async_client_stream_receive, async_client_stream_send, async_client_streamimg_handler,
    async_duplex_streamimg_handler, async_request_handler, async_server_streamimg_handler,
};
use ttrpc::context::Context;
use ttrpc::proto::WireMessage;
use ttrpc::security_extension::Plain;
use ttrpc::{Request, Result};

/// The connection of a server's streams.
type ServerLine = ServerShared<Plain, Plain>;

/// A call of a client.
type Calling<P> = ClientCall<Plain, Plain, P>;

/// A stream that a client opens.
type Opening<K, R> = ClientOpening<K, R, Plain, Plain>;

/// The connection of a client's streams.
type Line = ClientLine<Plain, Plain>;

/// A stream that a server fills.
type Filled<P, R> = ClientStreamReceiver<P, R, Plain, Plain>;

/// An rpc of each kind.
pub trait Talks: Drop {
    /// A call of `Same`.
    type Same: Future<Output = Result<Item>>;

    /// A call of `Size`.
    type Size: Future<Output = Result<Count>>;

    /// A call of `Fail`.
    type Fail: Future<Output = Result<Item>>;

    /// A call of `List`.
    type List: Future<Output = Result<()>>;

    /// A call of `Watch`.
    type Watch: Future<Output = Result<()>>;

    /// A call of `Load`.
    type Load: Future<Output = Result<Count>>;

    /// A call of `Talk`.
    type Talk: Future<Output = Result<()>>;

    /// Gives the item back.
    fn same(&self, ctx: &TtrpcContext, request: Item) -> Self::Same
        ensures { Self.Same.can_poll result };

    /// How many bytes the item's content has.
    fn size(&self, ctx: &TtrpcContext, request: Item) -> Self::Size
        ensures { Self.Size.can_poll result };

    /// Fails.
    fn fail(&self, ctx: &TtrpcContext, request: Item) -> Self::Fail
        ensures { Self.Fail.can_poll result };

    /// Gives an item of so many bytes.
    fn list(
        &self,
        ctx: &TtrpcContext,
        stream: ServerStreamOpening<Count, Item, ServerLine>,
    ) -> Self::List
        ensures { Self.List.can_poll result };

    /// Fails, with its request unread.
    fn watch(
        &self,
        ctx: &TtrpcContext,
        stream: ServerStreamOpening<Count, Item, ServerLine>,
    ) -> Self::Watch
        ensures { Self.Watch.can_poll result };

    /// How many bytes the contents of all items have.
    fn load(&self, ctx: &TtrpcContext, stream: ServerStreamReceiver<Item, ServerLine>) -> Self::Load
        ensures { Self.Load.can_poll result };

    /// Gives each item back.
    fn talk(&self, ctx: &TtrpcContext, stream: ServerStream<Item, Item, ServerLine>) -> Self::Talk
        ensures { Self.Talk.can_poll result };
}

/// Which method of `demo.Talks` is called.
#[derive(Clone, Copy)]
enum TalksCall {
    Same,
    Size,
    Fail,
}

/// The handler of a method of `demo.Talks`.
#[derive(Drop)]
pub struct TalksMethod<S: Drop> {
    service: Arc<S, Global>,
    call: TalksCall,
}

/// A request of `demo.Talks` that is handled.
pub type TalksAnswer<S> = Either<
    Either<
        Handling<<S as Talks>::Same, Responds<Item>>,
        Handling<<S as Talks>::Size, Responds<Count>>,
    >,
    Handling<<S as Talks>::Fail, Responds<Item>>,
>;

impl<S: Talks> MethodHandler for TalksMethod<S> {
    type Call = TalksAnswer<S>;

    fn handler(&self, ctx: TtrpcContext, req: Request) -> TalksAnswer<S> {
        match self.call {
            TalksCall::Same => {
                let call = async_request_handler!(self, ctx, req, Item, same);
                Either::Left(Either::Left(call))
            }
            TalksCall::Size => {
                let call = async_request_handler!(self, ctx, req, Item, size);
                Either::Left(Either::Right(call))
            }
            TalksCall::Fail => {
                let call = async_request_handler!(self, ctx, req, Item, fail);
                Either::Right(call)
            }
        }
    }
}

/// Which stream of `demo.Talks` is opened.
#[derive(Clone, Copy)]
enum TalksOpened {
    List,
    Watch,
    Load,
    Talk,
}

/// The handler of a stream of `demo.Talks`.
#[derive(Drop)]
pub struct TalksStream<S: Drop> {
    service: Arc<S, Global>,
    call: TalksOpened,
}

/// A stream of `demo.Talks` that is handled.
pub type TalksTalk<S> = Either<
    Either<Handling<<S as Talks>::List, Closes>, Handling<<S as Talks>::Watch, Closes>>,
    Either<Handling<<S as Talks>::Load, EndsBy<Count>>, Handling<<S as Talks>::Talk, Closes>>,
>;

impl<S: Talks> StreamHandler<ServerLine> for TalksStream<S> {
    type Call = TalksTalk<S>;

    fn handler(&self, ctx: TtrpcContext, inner: StreamInner<ServerLine>) -> TalksTalk<S>
        ensures { (EitherCanPoll (EitherCanPoll (λ call. AtCanPoll S.List.can_poll call.at) (λ call. AtCanPoll S.Watch.can_poll call.at)) (EitherCanPoll (λ call. AtCanPoll S.Load.can_poll call.at) (λ call. AtCanPoll S.Talk.can_poll call.at))) result }
    {
        match self.call {
            TalksOpened::List => {
                let call = async_server_streamimg_handler!(self, ctx, inner, Count, list);
                Either::Left(Either::Left(call))
            }
            TalksOpened::Watch => {
                let call = async_server_streamimg_handler!(self, ctx, inner, Count, watch);
                Either::Left(Either::Right(call))
            }
            TalksOpened::Load => {
                let call = async_client_streamimg_handler!(self, ctx, inner, load);
                Either::Right(Either::Left(call))
            }
            TalksOpened::Talk => {
                let call = async_duplex_streamimg_handler!(self, ctx, inner, talk);
                Either::Right(Either::Right(call))
            }
        }
    }
}

/// The name of each method of `demo.Talks`.
const TALKS_METHODS: &[(&str, TalksCall)] = &[
    ("Same", TalksCall::Same),
    ("Size", TalksCall::Size),
    ("Fail", TalksCall::Fail),
];

/// The name of each stream of `demo.Talks`.
const TALKS_STREAMS: &[(&str, TalksOpened)] = &[
    ("List", TalksOpened::List),
    ("Watch", TalksOpened::Watch),
    ("Load", TalksOpened::Load),
    ("Talk", TalksOpened::Talk),
];

/// The methods and streams of `demo.Talks`, for `Server::register_service`.
pub fn talks_service<S: Drop>(
    alloc: Global,
    service: S,
) -> Result<BTreeMap<String, Service<TalksMethod<S>, TalksStream<S>>>> {
    let whole = Arc::new(alloc, service)?;
    let mut named = Service::new(alloc);
    for (name, call) in TALKS_METHODS {
        let (service, call) = (Arc::try_clone(&whole)?, *call);
        let name = String::from_str(alloc, name)?;
        let method = TalksMethod { service, call };
        named.methods.insert(name, method)?;
    }
    for (name, call) in TALKS_STREAMS {
        let (service, call) = (Arc::try_clone(&whole)?, *call);
        let name = String::from_str(alloc, name)?;
        let stream = TalksStream { service, call };
        named.streams.insert(name, stream)?;
    }
    let mut services = BTreeMap::new(alloc);
    services.insert(String::from_str(alloc, "demo.Talks")?, named)?;
    Ok(services)
}

/// A client of `demo.Talks`.
#[derive(Drop)]
pub struct TalksClient<R: Timed> {
    pub client: Client<R, Plain, Plain>,
}

impl<R: Timed> TalksClient<R> {
    /// Calls `Same`.
    pub fn same(&self, ctx: Context, request: &Item) -> Calling<Item> {
        let reply = Item::new(self.client.alloc());
        async_client_request!(self, ctx, request, "demo.Talks", "Same", reply)
    }

    /// Calls `Size`.
    pub fn size(&self, ctx: Context, request: &Item) -> Calling<Count> {
        let reply = Count::new(self.client.alloc());
        async_client_request!(self, ctx, request, "demo.Talks", "Size", reply)
    }

    /// Calls `Fail`.
    pub fn fail(&self, ctx: Context, request: &Item) -> Calling<Item> {
        let reply = Item::new(self.client.alloc());
        async_client_request!(self, ctx, request, "demo.Talks", "Fail", reply)
    }

    /// Opens `List`.
    pub fn list(&self, ctx: Context, request: &Count) -> Opening<Filled<Item, R>, R> {
        async_client_stream_receive!(self, ctx, request, "demo.Talks", "List")
    }

    /// Opens `Watch`.
    pub fn watch(&self, ctx: Context, request: &Count) -> Opening<Filled<Item, R>, R> {
        async_client_stream_receive!(self, ctx, request, "demo.Talks", "Watch")
    }

    /// Opens `Load`.
    pub fn load(&self, ctx: Context) -> Opening<ClientStreamSender<Item, Count, Line>, R> {
        async_client_stream_send!(self, ctx, "demo.Talks", "Load")
    }

    /// Opens `Talk`.
    pub fn talk(&self, ctx: Context) -> Opening<ClientStream<Item, Item, Line>, R> {
        async_client_stream!(self, ctx, "demo.Talks", "Talk")
    }

    /// Another client of the same connection.
    pub fn try_clone(&self) -> Result<TalksClient<R>> {
        let client = self.client.try_clone()?;
        Ok(TalksClient { client })
    }
}

/// No stream.
pub trait Plainly: Drop {
    /// A call of `Ask`.
    type Ask: Future<Output = Result<Count>>;

    /// Answers `Ask`.
    fn ask(&self, ctx: &TtrpcContext, request: Item) -> Self::Ask
        ensures { Self.Ask.can_poll result };
}

/// Which method of `demo.Plainly` is called.
#[derive(Clone, Copy)]
enum PlainlyCall {
    Ask,
}

/// The handler of a method of `demo.Plainly`.
#[derive(Drop)]
pub struct PlainlyMethod<S: Drop> {
    service: Arc<S, Global>,
    call: PlainlyCall,
}

/// A request of `demo.Plainly` that is handled.
pub type PlainlyAnswer<S> = Handling<<S as Plainly>::Ask, Responds<Count>>;

impl<S: Plainly> MethodHandler for PlainlyMethod<S> {
    type Call = PlainlyAnswer<S>;

    fn handler(&self, ctx: TtrpcContext, req: Request) -> PlainlyAnswer<S> {
        match self.call {
            PlainlyCall::Ask => async_request_handler!(self, ctx, req, Item, ask),
        }
    }
}

/// The name of each method of `demo.Plainly`.
const PLAINLY_METHODS: &[(&str, PlainlyCall)] = &[("Ask", PlainlyCall::Ask)];

/// The methods and streams of `demo.Plainly`, for `Server::register_service`.
pub fn plainly_service<S: Drop>(
    alloc: Global,
    service: S,
) -> Result<BTreeMap<String, Service<PlainlyMethod<S>, NoStreams>>> {
    let whole = Arc::new(alloc, service)?;
    let mut named = Service::new(alloc);
    for (name, call) in PLAINLY_METHODS {
        let (service, call) = (Arc::try_clone(&whole)?, *call);
        let name = String::from_str(alloc, name)?;
        let method = PlainlyMethod { service, call };
        named.methods.insert(name, method)?;
    }
    let mut services = BTreeMap::new(alloc);
    services.insert(String::from_str(alloc, "demo.Plainly")?, named)?;
    Ok(services)
}

/// A client of `demo.Plainly`.
#[derive(Drop)]
pub struct PlainlyClient<R: Timed> {
    pub client: Client<R, Plain, Plain>,
}

impl<R: Timed> PlainlyClient<R> {
    /// Calls `Ask`.
    pub fn ask(&self, ctx: Context, request: &Item) -> Calling<Count> {
        let reply = Count::new(self.client.alloc());
        async_client_request!(self, ctx, request, "demo.Plainly", "Ask", reply)
    }

    /// Another client of the same connection.
    pub fn try_clone(&self) -> Result<PlainlyClient<R>> {
        let client = self.client.try_clone()?;
        Ok(PlainlyClient { client })
    }
}

/// No method.
pub trait Flows: Drop {
    /// A call of `Flow`.
    type Flow: Future<Output = Result<()>>;

    /// Answers `Flow`.
    fn flow(&self, ctx: &TtrpcContext, stream: ServerStream<Count, Item, ServerLine>) -> Self::Flow
        ensures { Self.Flow.can_poll result };
}

/// Which stream of `demo.Flows` is opened.
#[derive(Clone, Copy)]
enum FlowsOpened {
    Flow,
}

/// The handler of a stream of `demo.Flows`.
#[derive(Drop)]
pub struct FlowsStream<S: Drop> {
    service: Arc<S, Global>,
    call: FlowsOpened,
}

/// A stream of `demo.Flows` that is handled.
pub type FlowsTalk<S> = Handling<<S as Flows>::Flow, Closes>;

impl<S: Flows> StreamHandler<ServerLine> for FlowsStream<S> {
    type Call = FlowsTalk<S>;

    fn handler(&self, ctx: TtrpcContext, inner: StreamInner<ServerLine>) -> FlowsTalk<S>
        ensures { AtCanPoll S.Flow.can_poll result.at }
    {
        match self.call {
            FlowsOpened::Flow => async_duplex_streamimg_handler!(self, ctx, inner, flow),
        }
    }
}

/// The name of each stream of `demo.Flows`.
const FLOWS_STREAMS: &[(&str, FlowsOpened)] = &[("Flow", FlowsOpened::Flow)];

/// The methods and streams of `demo.Flows`, for `Server::register_service`.
pub fn flows_service<S: Drop>(
    alloc: Global,
    service: S,
) -> Result<BTreeMap<String, Service<NoMethods, FlowsStream<S>>>> {
    let whole = Arc::new(alloc, service)?;
    let mut named = Service::new(alloc);
    for (name, call) in FLOWS_STREAMS {
        let (service, call) = (Arc::try_clone(&whole)?, *call);
        let name = String::from_str(alloc, name)?;
        let stream = FlowsStream { service, call };
        named.streams.insert(name, stream)?;
    }
    let mut services = BTreeMap::new(alloc);
    services.insert(String::from_str(alloc, "demo.Flows")?, named)?;
    Ok(services)
}

/// A client of `demo.Flows`.
#[derive(Drop)]
pub struct FlowsClient<R: Timed> {
    pub client: Client<R, Plain, Plain>,
}

impl<R: Timed> FlowsClient<R> {
    /// Opens `Flow`.
    pub fn flow(&self, ctx: Context) -> Opening<ClientStream<Item, Count, Line>, R> {
        async_client_stream!(self, ctx, "demo.Flows", "Flow")
    }

    /// Another client of the same connection.
    pub fn try_clone(&self) -> Result<FlowsClient<R>> {
        let client = self.client.try_clone()?;
        Ok(FlowsClient { client })
    }
}
