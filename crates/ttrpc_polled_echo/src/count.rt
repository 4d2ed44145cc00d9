//! The stream `Count`, which sends the number of items that its request asks for.
ghost use Rattle.futures.specs.Poll.{OnPending};
ghost use Rattle.futures.specs.Task.{Covers, Keeps};
ghost use Rattle.ttrpc_polled_echo.specs.Needs.{CountingNeeds};

use futures::Future;
use futures::task::{Context, Poll};
use std::alloc::Global;
use std::mem::replace;
use ttrpc_polled::{Sending, ServerStreamOpening, ServerStreamSender, StreamLine};
use ttrpc_proto::{Error, Result};
use ttrpc_wire::Blob;

/// The number of turns of one poll, before other tasks run.
const TURNS: u32 = 64;

/// The state of a count.
#[derive(Drop)]
enum Counted<L: StreamLine> {
    /// The count waits for its request.
    Opens(ServerStreamOpening<Blob, Blob, L>),
    /// The count sends an item. After it, this number of items is still to be sent.
    Sends(ServerStreamSender<Blob, L>, Sending, u64),
    /// The count has ended.
    Done,
}

/// A running count.
#[derive(Drop)]
pub struct RunningCount<L: StreamLine> {
    alloc: Global,
    sent: u32,
    at: Counted<L>,
}

impl<L: StreamLine> RunningCount<L> {
    /// Begins a count on this stream.
    pub fn new(alloc: Global, opening: ServerStreamOpening<Blob, Blob, L>) -> RunningCount<L> {
        RunningCount {
            alloc,
            sent: 0,
            at: Counted::Opens(opening),
        }
    }

    /// Polls for the request. Ready with `None` if the request came and asks for an item, or with the result of the
    /// count.
    fn poll_request(
        &mut self,
        opening: ServerStreamOpening<Blob, Blob, L>,
        cx: &mut Context<'_>,
    ) -> Poll<Option<Result<()>>>
        ensures registered { OnPending result (Covers cx.new (CountingNeeds L.came self.new.at)) }
        ensures kept { Keeps cx.old cx.new }
    {
        let mut opening = opening;
        match opening.poll(cx) {
            Poll::Pending => {
                self.at = Counted::Opens(opening);
                Poll::Pending
            }
            Poll::Ready(Ok((request, sender))) => {
                let left = number_in(request.as_slice());
                Poll::Ready(self.send_next(sender, left))
            }
            Poll::Ready(Err(error)) => Poll::Ready(Some(Err(error))),
        }
    }

    /// Polls the sending of an item, after which `left` items are still to be sent. Ready with `None` if the item has
    /// left and another one follows, or with the result of the count.
    fn poll_sending(
        &mut self,
        sender: ServerStreamSender<Blob, L>,
        sending: Sending,
        left: u64,
        cx: &mut Context<'_>,
    ) -> Poll<Option<Result<()>>>
        ensures registered { OnPending result (Covers cx.new (CountingNeeds L.came self.new.at)) }
        ensures kept { Keeps cx.old cx.new }
    {
        let mut sending = sending;
        match sender.poll_sending(&mut sending, cx) {
            Poll::Pending => {
                self.at = Counted::Sends(sender, sending, left);
                Poll::Pending
            }
            Poll::Ready(Ok(())) => Poll::Ready(self.send_next(sender, left)),
            Poll::Ready(Err(error)) => Poll::Ready(Some(Err(error))),
        }
    }

    /// Goes on by one turn. Ready with `None` if the count goes on, or with its result.
    fn poll_turn(&mut self, cx: &mut Context<'_>) -> Poll<Option<Result<()>>>
        ensures registered { OnPending result (Covers cx.new (CountingNeeds L.came self.new.at)) }
        ensures kept { Keeps cx.old cx.new }
    {
        match replace(&mut self.at, Counted::Done) {
            Counted::Opens(opening) => self.poll_request(opening, cx),
            Counted::Sends(sender, sending, left) => self.poll_sending(sender, sending, left, cx),
            Counted::Done => Poll::Ready(Some(Err(Error::LocalClosed))),
        }
    }

    /// Begins to send the next item if `left` isn't 0. Otherwise returns the result of the count.
    fn send_next(&mut self, sender: ServerStreamSender<Blob, L>, left: u64) -> Option<Result<()>> {
        if left == 0 {
            return Some(Ok(()));
        }
        let item = match Blob::from_slice(self.alloc, &self.sent.to_be_bytes()) {
            Ok(item) => item,
            Err(refused) => return Some(Err(refused.into())),
        };
        self.sent = self.sent.wrapping_add(1);
        self.at = Counted::Sends(sender, Sending::Sends(item), left - 1);
        None
    }
}

impl<L: StreamLine> Future for RunningCount<L> {
    type Output = Result<()>;

    ghost use Rattle.ttrpc_polled_echo.specs.Needs.{CountingNeeds};

    ghost needs = { λ f. CountingNeeds L.came f.at };

    fn poll(&mut self, cx: &mut Context<'_>) -> Poll<Result<()>> {
        for _ in 0..TURNS {
            match self.poll_turn(cx) {
                Poll::Pending => return Poll::Pending,
                Poll::Ready(Some(ended)) => return Poll::Ready(ended),
                Poll::Ready(None) => {}
            }
        }
        cx.yield_now()
    }
}

/// Returns the number that these bytes are, in big-endian order. If there are more than eight bytes, the last eight
/// count.
fn number_in(bytes: &[u8]) -> u64 {
    let mut number: u64 = 0;
    for byte in bytes {
        number = number.wrapping_mul(256).wrapping_add(u64::from(*byte));
    }
    number
}
