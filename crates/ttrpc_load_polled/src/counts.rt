//! Streams on which a server sends items.
ghost use Rattle.futures.specs.Poll.{OnPending};
ghost use Rattle.futures.specs.Task.{Covers, Keeps};
ghost use Rattle.ttrpc_load_polled.specs.Needs.{CountNeeds};

use futures::task::{Context, Poll};
use futures::{Future, Stream};
use std::mem::replace;
use ttrpc_message::Context as CallContext;
use ttrpc_polled::Timed;
use ttrpc_polled_client::{Client, ClientOpening, ClientStreamReceiver, open_with};
use ttrpc_proto::Result;
use ttrpc_secure::Plain;
use ttrpc_wire::Blob;

/// A stream on which the server sends items.
type Filled<R> = ClientStreamReceiver<Blob, R, Plain, Plain>;

/// The state of a count.
#[derive(Drop)]
pub enum CountAt<R: Timed> {
    /// The stream is being opened.
    Opens(ClientOpening<Filled<R>, R, Plain, Plain>),
    /// The next item is awaited.
    Receives(Filled<R>),
    /// The count has ended.
    Done,
}

/// The items of `Count`.
#[derive(Drop)]
pub struct Counts<R: Timed> {
    at: CountAt<R>,
}

impl<R: Timed> Counts<R> {
    /// Returns a count of the items that the request asks for.
    pub fn new(client: &Client<R, Plain, Plain>, request: &Blob) -> Counts<R> {
        let context = CallContext::new(client.alloc());
        Counts {
            at: CountAt::Opens(open_with(client, "demo.Echo", "Count", context, request)),
        }
    }

    /// Polls the opening of the stream. Ready with false if the stream is open, since no item came, or with the error.
    fn poll_opening(
        &mut self,
        opening: ClientOpening<Filled<R>, R, Plain, Plain>,
        cx: &mut Context<'_>,
    ) -> Poll<Option<Result<bool>>>
        ensures registered { OnPending result (Covers cx.new (CountNeeds self.new.at)) }
        ensures kept { Keeps cx.old cx.new }
    {
        let mut opening = opening;
        match opening.poll(cx) {
            Poll::Pending => {
                self.at = CountAt::Opens(opening);
                Poll::Pending
            }
            Poll::Ready(Ok(stream)) => {
                self.at = CountAt::Receives(stream);
                Poll::Ready(Some(Ok(false)))
            }
            Poll::Ready(Err(error)) => Poll::Ready(Some(Err(error))),
        }
    }

    /// Polls for an item. Ready with true if an item came, with `None` if there are no more, or with the error.
    fn poll_item(&mut self, stream: Filled<R>, cx: &mut Context<'_>) -> Poll<Option<Result<bool>>>
        ensures registered { OnPending result (Covers cx.new (CountNeeds self.new.at)) }
        ensures kept { Keeps cx.old cx.new }
    {
        let mut stream = stream;
        match stream.poll_recv(cx) {
            Poll::Pending => {
                self.at = CountAt::Receives(stream);
                Poll::Pending
            }
            Poll::Ready(Ok(Some(_))) => {
                self.at = CountAt::Receives(stream);
                Poll::Ready(Some(Ok(true)))
            }
            Poll::Ready(Ok(None)) => Poll::Ready(None),
            Poll::Ready(Err(error)) => Poll::Ready(Some(Err(error))),
        }
    }
}

impl<R: Timed> Stream for Counts<R> {
    type Item = Result<bool>;

    ghost use Rattle.ttrpc_load_polled.specs.Needs.{CountNeeds};

    ghost needs = { λ c. CountNeeds c.at };

    fn poll_next(&mut self, cx: &mut Context<'_>) -> Poll<Option<Result<bool>>> {
        match replace(&mut self.at, CountAt::Done) {
            CountAt::Opens(opening) => self.poll_opening(opening, cx),
            CountAt::Receives(stream) => self.poll_item(stream, cx),
            CountAt::Done => Poll::Ready(None),
        }
    }
}
