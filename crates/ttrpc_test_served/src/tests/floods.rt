//! Connections with endless input. The tests advance the clock.
ghost use Rattle.std.specs.Prelude.{◌≡◌, ◌≤◌, ⊤, length, IsSome};
ghost use Rattle.tokio.specs.Io.Moved.{count_moved};

use crate::tests::gate::Gate;
use crate::tests::handlers::answer;
use futures::Future;
use futures::future::{Ready, ready};
use futures::task::{Context, Poll, Source, Waker};
use std::alloc::{AllocError, Global};
use std::cell::Cell;
use std::io;
use std::sync::Arc;
use std::sync::atomic::{AtomicU64, Ordering};
use std::time::{Clock, Duration};
use tokio::io::{AsyncRead, AsyncWrite};
use ttrpc_polled_server::{MethodHandler, TtrpcContext};
use ttrpc_proto::{Request, Response, Result};

/// A moment that a test advances.
pub type Moment = Arc<AtomicU64, Global>;

/// A clock that a test advances.
#[derive(Drop)]
pub struct TestClock {
    pub moment: Moment,
}

impl Clock for TestClock {
    fn monotonic(&self) -> io::Result<Duration> {
        Ok(Duration::from_nanos(self.moment.load(Ordering::SeqCst)))
    }

    fn since_1970(&self) -> io::Result<Duration> {
        self.monotonic()
    }
}

impl Clone for TestClock {
    fn clone(&self) -> std::result::Result<TestClock, AllocError> {
        Ok(TestClock {
            moment: Arc::try_clone(&self.moment)?,
        })
    }
}

/// A method with handlers that take `cost` nanoseconds each. It counts them.
#[derive(Drop)]
pub struct Costs {
    pub moment: Moment,
    pub cost: u64,
    pub begun: Arc<Cell<u32>, Global>,
}

impl MethodHandler for Costs {
    type Call = Ready<Result<Response>>;

    fn handler(&self, ctx: TtrpcContext, req: Request) -> Ready<Result<Response>>
        ensures { IsSome result.0 }
    {
        self.moment.fetch_add(self.cost, Ordering::SeqCst);
        self.begun.set(self.begun.get().saturating_add(1));
        ready(Ok(answer(ctx.alloc(), Some(req.payload))))
    }
}

/// A request of `Echo` with the payload 2a.
const ASKED: &[u8; 30] = b"\0\0\0\x14\0\0\0\x01\x01\0\x0a\x09demo.Echo\x12\x04Echo\x1a\x01\x2a";

/// A reader that gives endless requests, and counts them.
#[derive(Drop)]
pub struct Flood {
    pub given: Arc<Cell<u32>, Global>,
}

impl AsyncRead for Flood {
    ghost reads = { λ _ _ _. ⊤ };

    ghost is_at_end = { λ _. ⊤ };

    ghost reads_nothing = { λ _. tt };

    ghost reads_in_order = { λ _ _ _ _ _ _ _. tt };

    fn poll_read(&mut self, _cx: &mut Context<'_>, buf: &mut [u8]) -> Poll<io::Result<usize>> {
        let mut at = 0usize;
        for _ in 0..buf.len() {
            let Some(place) = buf.get_mut(at..at.saturating_add(ASKED.len())) else {
                break;
            };
            write_request(place, self.given.get());
            self.given.set(self.given.get().saturating_add(1));
            at = at.saturating_add(ASKED.len());
        }
        Poll::Ready(Ok(at.min(buf.len())))
    }
}

/// Writes the request with this number.
pub fn write_request(place: &mut [u8], number: u32) {
    let id = number.saturating_mul(2).saturating_add(1).to_be_bytes();
    for (to, from) in place.iter_mut().zip(ASKED.iter()) {
        *to = *from;
    }
    if let Some(bytes) = place.get_mut(4..8) {
        for (to, from) in bytes.iter_mut().zip(id.iter()) {
            *to = *from;
        }
    }
}

/// A frame of a stream that is not open.
const STRAY: &[u8; 11] = b"\0\0\0\x01\0\0\0\x07\x03\0\x7a";

/// The input after the first bytes of a reader.
#[derive(Clone, Copy, Debug, PartialEq, Eq)]
pub enum Behind {
    /// Endless stray frames, with a millisecond each.
    Strays,
    /// Nothing, and no end.
    Nothing,
    /// The end.
    End,
    /// A reset.
    Reset,
}

/// A reader that gives these bytes, and then the input `behind`.
#[derive(Drop)]
pub struct First {
    bytes: &'static [u8],
    is_given: bool,
    behind: Behind,
    moment: Moment,
    never: Source,
    slot: Option<Waker>,
}

impl First {
    /// Returns a reader of these bytes.
    pub fn new(bytes: &'static [u8], behind: Behind, moment: Moment) -> First {
        First {
            bytes,
            is_given: false,
            behind,
            moment,
            never: Source::new(),
            slot: None,
        }
    }

    /// Gives the input after the first bytes.
    fn give(&mut self, buf: &mut [u8]) -> io::Result<usize>
        ensures { count_moved (Poll.Ready result) ≤ length buf.new }
    {
        match self.behind {
            Behind::Strays => {
                self.moment.fetch_add(1_000_000, Ordering::SeqCst);
                for (to, from) in buf.iter_mut().zip(STRAY.iter()) {
                    *to = *from;
                }
                Ok(STRAY.len().min(buf.len()))
            }
            Behind::Nothing | Behind::End => Ok(0),
            Behind::Reset => Err(io::ErrorKind::ConnectionReset.into()),
        }
    }
}

impl AsyncRead for First {
    ghost needs = { λ f s. s ≡ f.never.id };

    ghost reads = { λ _ _ _. ⊤ };

    ghost is_at_end = { λ _. ⊤ };

    ghost reads_nothing = { λ _. tt };

    ghost reads_in_order = { λ _ _ _ _ _ _ _. tt };

    fn poll_read(&mut self, cx: &mut Context<'_>, buf: &mut [u8]) -> Poll<io::Result<usize>> {
        if self.is_given && self.behind == Behind::Nothing {
            return cx.register(&self.never, &mut self.slot);
        }
        if self.is_given {
            return Poll::Ready(self.give(buf));
        }
        self.is_given = true;
        for (to, from) in buf.iter_mut().zip(self.bytes.iter()) {
            *to = *from;
        }
        Poll::Ready(Ok(self.bytes.len().min(buf.len())))
    }
}

/// A writer that takes all bytes, and keeps the length of the longest offer.
#[derive(Drop)]
pub struct Taking {
    pub most: Arc<Cell<usize>, Global>,
}

impl AsyncWrite for Taking {
    ghost writes = { λ _ _ _. ⊤ };

    ghost writes_nothing = { λ _. tt };

    ghost writes_in_order = { λ _ _ _ _ _ _ _. tt };

    fn poll_write(&mut self, _cx: &mut Context<'_>, buf: &[u8]) -> Poll<io::Result<usize>> {
        self.most.set(self.most.get().max(buf.len()));
        Poll::Ready(Ok(buf.len()))
    }

    fn poll_flush(&mut self, _cx: &mut Context<'_>) -> Poll<io::Result<()>> {
        Poll::Ready(Ok(()))
    }

    fn poll_shutdown(&mut self, _cx: &mut Context<'_>) -> Poll<io::Result<()>> {
        Poll::Ready(Ok(()))
    }
}

/// A connection that is polled at most `left` times, with `step` nanoseconds after each poll. Ready with true if the
/// connection has ended.
#[derive(Drop)]
pub struct Polled<F> {
    pub connection: F,
    pub left: u32,
    pub moment: Moment,
    pub step: u64,
}

impl<F: Future<Output = ()>> Future for Polled<F> {
    type Output = bool;

    ghost can_poll = { λ p. F.can_poll p.connection };

    fn poll(&mut self, cx: &mut Context<'_>) -> Poll<bool> {
        if self.left == 0 {
            return Poll::Ready(false);
        }
        self.left -= 1;
        let polled = self.connection.poll(cx);
        self.moment.fetch_add(self.step, Ordering::SeqCst);
        match polled {
            Poll::Ready(()) => Poll::Ready(true),
            Poll::Pending => cx.yield_now(),
        }
    }
}

/// A connection that is polled, and a gate of its handlers. Ready with whether the connection has ended, and the number
/// of users of the gate before the connection is dropped.
#[derive(Drop)]
pub struct Seen<F> {
    pub polled: Polled<F>,
    pub gate: Arc<Gate, Global>,
}

impl<F: Future<Output = ()>> Future for Seen<F> {
    type Output = (bool, usize);

    ghost can_poll = { λ s. F.can_poll s.polled.connection };

    fn poll(&mut self, cx: &mut Context<'_>) -> Poll<(bool, usize)> {
        match self.polled.poll(cx) {
            Poll::Pending => Poll::Pending,
            Poll::Ready(is_over) => Poll::Ready((is_over, Arc::strong_count(&self.gate))),
        }
    }
}

/// A connection, and its server's end, which is polled once, after `left` polls.
#[derive(Drop)]
pub struct Told<F, D> {
    pub connection: F,
    pub end: Option<D>,
    pub left: u32,
}

impl<F: Future<Output = ()>, D: Future> Future for Told<F, D>
where
    D::Output: Drop,
{
    type Output = ();

    ghost use Rattle.std.specs.Prelude.{IfSome};

    ghost can_poll = { λ t. F.can_poll t.connection × IfSome t.end D.can_poll };

    fn poll(&mut self, cx: &mut Context<'_>) -> Poll<()> {
        if self.left > 0 {
            self.left -= 1;
            if self.left == 0 {
                if let Some(mut end) = self.end.take() {
                    if end.poll(cx).is_pending() {
                        self.end = Some(end);
                    }
                }
            }
        }
        self.connection.poll(cx)
    }
}
