//! A stream that is opened, as a future.
ghost use Rattle.std.specs.Prelude.{◌≡◌, None, Some};
ghost use Rattle.ttrpc_polled_client.specs.Opening.{GivesStream, IsNewStream};
ghost use Rattle.ttrpc_polled_client.specs.Steps.{Opens};

use crate::line::ClientLine;
use futures::Future;
use futures::task::{Context, Poll};
use std::alloc::Global;
use std::sync::Arc;
use ttrpc_client::{ClientCore, StreamId};
use ttrpc_polled::StreamInner;
use ttrpc_proto::{Error, Request, Result};
use ttrpc_secure::{InboundTransform, OutboundTransform};

/// The request that opens a stream, and whether the stream sends and receives items.
#[derive(Debug, Drop)]
pub struct Opening {
    pub request: Request,
    pub streaming_client: bool,
    pub streaming_server: bool,
}

impl Opening {
    /// Makes the one core call, `new_stream`, on a core that is lent.
    pub fn step<O: OutboundTransform + Drop, I: InboundTransform + Drop>(
        &self,
        alloc: Global,
        core: &mut ClientCore<O, I>,
    ) -> Result<StreamId>
        ensures { Opens O.OutboundTransform core.old self.now.request self.now.streaming_client
            self.now.streaming_server result core.new }
    {
        core.new_stream(
            alloc,
            &self.request,
            self.streaming_client,
            self.streaming_server,
        )
    }
}

/// The parts with which a stream is opened: its request, and a share of the line for each of its halves.
#[derive(Drop)]
pub(crate) struct Prepared<O: OutboundTransform + Drop, I: InboundTransform + Drop> {
    pub(crate) opening: Opening,
    pub(crate) sends: Arc<ClientLine<O, I>, Global>,
    pub(crate) receives: Arc<ClientLine<O, I>, Global>,
}

/// A stream that is opened when this future is first polled. The result is `LocalClosed` if the stream was opened before.
#[derive(Drop)]
pub struct ClientNewStream<O: OutboundTransform + Drop, I: InboundTransform + Drop> {
    alloc: Global,
    prepared: Option<Prepared<O, I>>,
    place: Option<u64>,
}

impl<O: OutboundTransform + Drop, I: InboundTransform + Drop> ClientNewStream<O, I> {
    /// Makes the future of a stream that is to be opened.
    pub(crate) fn new(alloc: Global, prepared: Prepared<O, I>) -> Self
        ensures { result.prepared ≡ Some prepared }
    {
        ClientNewStream {
            alloc,
            prepared: Some(prepared),
            place: None,
        }
    }

    /// Makes the one core call, `new_stream`, on a core that is lent, and returns the stream. The error is `LocalClosed` if the stream was
    /// opened before.
    pub fn step(&mut self, core: &mut ClientCore<O, I>) -> Result<StreamInner<ClientLine<O, I>>>
        ensures step { IsNewStream O.OutboundTransform core.old self.old.prepared result core.new }
        ensures over { self.new.prepared ≡ None }
    {
        let Some(prepared) = self.prepared.take() else {
            return Err(Error::LocalClosed);
        };
        let opened = prepared.opening.step(self.alloc, core);
        stream_of(self.alloc, prepared, opened)
    }
}

/// Makes the stream of this id, with its shares of the line, or returns the reason why it isn't open.
fn stream_of<O: OutboundTransform + Drop, I: InboundTransform + Drop>(
    alloc: Global,
    prepared: Prepared<O, I>,
    opened: Result<StreamId>,
) -> Result<StreamInner<ClientLine<O, I>>>
    ensures { GivesStream prepared opened result }
{
    let Prepared {
        opening: _,
        sends,
        receives,
    } = prepared;
    match opened {
        Ok(id) => StreamInner::new(alloc, sends, receives, id),
        Err(refusal) => Err(refusal),
    }
}

impl<O: OutboundTransform + Drop, I: InboundTransform + Drop> Future for ClientNewStream<O, I> {
    type Output = Result<StreamInner<ClientLine<O, I>>>;

    ghost use Rattle.ttrpc_polled_client.specs.Calling.{StreamGives};
    ghost use Rattle.ttrpc_polled_client.specs.Needs.{opening_needs};

    ghost needs = { λ f. opening_needs f.prepared };

    ghost gives = { λ f r. StreamGives f.prepared r };

    fn poll(&mut self, cx: &mut Context<'_>) -> Poll<Result<StreamInner<ClientLine<O, I>>>> {
        let Some(prepared) = self.prepared.take() else {
            return Poll::Ready(Err(Error::LocalClosed));
        };
        match prepared
            .sends
            .poll_open(&prepared.opening, &mut self.place, cx)
        {
            Poll::Pending => {
                self.prepared = Some(prepared);
                Poll::Pending
            }
            Poll::Ready(opened) => Poll::Ready(stream_of(self.alloc, prepared, opened)),
        }
    }
}
