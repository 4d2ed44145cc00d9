//! A reader and a writer with the manners that a test sets, and the runs of futures over them.
ghost use Rattle.std.specs.Prelude.{◌≡◌, ⊤};

use futures::Future;
use futures::task::{Context, Poll};
use std::alloc::AllocGlobal;
use std::io::{self, ErrorKind};
use std::net::Net;
use std::random::RandomSource;
use std::sync::Wait;
use std::test::Fail;
use std::time::Clock;
use tokio::io::{AsyncRead, AsyncWrite};
use tokio::runtime::LocalRuntime;
use ttrpc_wire::values::slices::{behind, front};

/// The parts of the system that the tests use.
pub trait System: AllocGlobal + Clock + Wait + Net + RandomSource {}

impl<R: AllocGlobal + Clock + Wait + Net + RandomSource> System for R {}

/// Runs a future, and returns its output.
pub fn come<R: System, F: Future>(rt: &R, future: F) -> Result<F::Output, Fail>
    requires { F.can_poll future }
{
    let mut runtime = LocalRuntime::new(rt)?;
    Ok(runtime.block_on(rt, future)?)
}

/// A reader that gives at most `at_once` bytes a read, and is pending at every second poll.
#[derive(Drop)]
pub struct Slow<'a> {
    pub rest: &'a [u8],
    pub at_once: usize,
    /// The end: that of the input, or this failure.
    pub end: Option<ErrorKind>,
    waits: bool,
}

impl<'a> Slow<'a> {
    /// Returns a reader of these bytes, with this end after them.
    pub fn new(rest: &'a [u8], at_once: usize, end: Option<ErrorKind>) -> Slow<'a> {
        Slow {
            rest,
            at_once,
            end,
            waits: false,
        }
    }
}

impl AsyncRead for Slow<'_> {
    ghost reads = { λ _ _ _. ⊤ };

    ghost is_at_end = { λ _. ⊤ };

    ghost reads_nothing = { λ _. tt };

    ghost reads_in_order = { λ _ _ _ _ _ _ _. tt };

    fn poll_read(&mut self, cx: &mut Context<'_>, buf: &mut [u8]) -> Poll<io::Result<usize>> {
        self.waits = !self.waits;
        if self.waits {
            return cx.yield_now();
        }
        let count = self.at_once.min(self.rest.len()).min(buf.len());
        if let (0, Some(kind)) = (count, self.end) {
            return Poll::Ready(Err(kind.into()));
        }
        buf[..count].copy_from_slice(front(self.rest, count));
        self.rest = behind(self.rest, count);
        Poll::Ready(Ok(count))
    }
}

/// A writer that takes at most `at_once` bytes a write, and is pending at every second poll.
#[derive(Drop)]
pub struct Narrow {
    pub took: Vec<u8>,
    pub at_once: usize,
    /// The number of bytes that it takes in all, and the failure after them. Without a failure it takes nothing then.
    pub room: usize,
    pub end: Option<ErrorKind>,
    /// The number of times that it took something, and the number of flushes.
    pub offers: u32,
    pub flushes: u32,
    waits: bool,
}

impl Narrow {
    /// Returns a writer that has taken nothing.
    pub fn new(took: Vec<u8>, at_once: usize, room: usize, end: Option<ErrorKind>) -> Narrow {
        Narrow {
            took,
            at_once,
            room,
            end,
            offers: 0,
            flushes: 0,
            waits: false,
        }
    }
}

impl AsyncWrite for Narrow {
    ghost writes = { λ _ _ _. ⊤ };

    ghost writes_nothing = { λ _. tt };

    ghost writes_in_order = { λ _ _ _ _ _ _ _. tt };

    fn poll_write(&mut self, cx: &mut Context<'_>, buf: &[u8]) -> Poll<io::Result<usize>> {
        self.waits = !self.waits;
        if self.waits {
            return cx.yield_now();
        }
        let left = self.room.saturating_sub(self.took.len());
        let count = self.at_once.min(left).min(buf.len());
        if let (0, Some(kind)) = (count, self.end) {
            return Poll::Ready(Err(kind.into()));
        }
        self.offers = self.offers.saturating_add(1);
        match self.took.extend_from_slice(front(buf, count)) {
            Ok(()) => Poll::Ready(Ok(count)),
            Err(refused) => Poll::Ready(Err(refused.into())),
        }
    }

    fn poll_flush(&mut self, _cx: &mut Context<'_>) -> Poll<io::Result<()>> {
        self.flushes = self.flushes.saturating_add(1);
        Poll::Ready(Ok(()))
    }

    fn poll_shutdown(&mut self, _cx: &mut Context<'_>) -> Poll<io::Result<()>> {
        Poll::Ready(Ok(()))
    }
}
