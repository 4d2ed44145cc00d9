//! The number of bytes that a connection keeps at most, and the number that it moves at once.
ghost use Rattle.std.specs.Prelude.{⊤};

use crate::tests::broken_tests::Silent;
use crate::tests::sites::{System, client_over, request};
use futures::future::{join, poll_immediate};
use futures::task::{Context, Poll, Waker};
use std::alloc::Global;
use std::cell::Cell;
use std::io::{self, ErrorKind};
use std::sync::Arc;
use std::test::Fail;
use tokio::io::{AsyncRead, AsyncWrite};
use tokio::runtime::LocalRuntime;
use ttrpc_bench::checks::check_named;
use ttrpc_polled::{PolledState, WRITE_BUFFER_LIMIT, WriteBuffer};
use ttrpc_polled_client::{Client, ClientConnection};
use ttrpc_secure::Plain;

/// The number of offers to a writer, and the number of bytes in all offers.
type Offered = Arc<Cell<(u32, usize)>, Global>;

/// A writer that takes all offered bytes.
#[derive(Drop)]
struct Taking {
    offered: Offered,
}

impl AsyncWrite for Taking {
    ghost writes = { λ _ _ _. ⊤ };

    ghost writes_nothing = { λ _. tt };

    ghost writes_in_order = { λ _ _ _ _ _ _ _. tt };

    fn poll_write(&mut self, _cx: &mut Context<'_>, buf: &[u8]) -> Poll<io::Result<usize>> {
        let (times, bytes) = self.offered.get();
        let bytes = bytes.saturating_add(buf.len());
        self.offered.set((times.saturating_add(1), bytes));
        Poll::Ready(Ok(buf.len()))
    }

    fn poll_flush(&mut self, _cx: &mut Context<'_>) -> Poll<io::Result<()>> {
        Poll::Ready(Ok(()))
    }

    fn poll_shutdown(&mut self, _cx: &mut Context<'_>) -> Poll<io::Result<()>> {
        Poll::Ready(Ok(()))
    }
}

/// Returns a count without offers.
fn nothing_offered(alloc: Global) -> Result<Offered, Fail> {
    Ok(Arc::new(alloc, Cell::new((0, 0)))?)
}

/// The length of each frame that waits.
const FRAME: usize = 4096;

/// Frames that wait to be lent.
#[derive(Drop)]
struct Frames {
    /// The number of bytes of all frames, and that of the first.
    left: usize,
    first: usize,
    driver: Option<Waker>,
}

impl PolledState for Frames {
    ghost use Rattle.std.specs.Prelude.{false, true};

    ghost takes = { λ _ _ _ _ _. ⊤ };

    ghost ends = { λ _ _. ⊤ };

    ghost breaks = { λ _ _ _. ⊤ };

    ghost lends = { λ _ _ _ _ _. ⊤ };

    ghost lendable = { λ held. held.first };

    ghost ticks = { λ _ _ _. ⊤ };

    ghost expires = { λ _ _. ⊤ };

    ghost failed = { λ _. false };

    ghost senders = { λ _. 0 };

    ghost wants = { λ _. true };

    fn take(&mut self, _alloc: Global, _piece: &[u8], _now: u64) -> Option<usize> {
        None
    }

    fn ended(&mut self) {}

    fn broke(&mut self, _kind: ErrorKind) {}

    fn lendable(&self) -> usize {
        self.first
    }

    fn lend(&mut self, buffer: &mut [u8]) -> usize {
        let count = self.first.min(buffer.len());
        self.left = self.left.saturating_sub(count);
        self.first = FRAME.min(self.left);
        count
    }

    fn tick(&mut self, _now: u64) {}

    fn next_deadline(&self) -> Option<u64> {
        None
    }

    fn has_failed(&self) -> bool {
        false
    }

    fn senders(&self) -> usize {
        0
    }

    fn wants_input(&self) -> bool {
        true
    }

    fn driver(&mut self) -> &mut Option<Waker> {
        &mut self.driver
    }
}

/// Returns the number of bytes that are kept, and the number left to be lent, after a write buffer has gathered from
/// `length` bytes.
fn gathered(alloc: Global, length: usize) -> Result<(usize, usize), Fail> {
    let offered = nothing_offered(alloc)?;
    let mut write_buffer = WriteBuffer::new(alloc, Taking { offered })?;
    let mut held = Frames {
        left: length,
        first: FRAME.min(length),
        driver: None,
    };
    write_buffer.gather(&mut held);
    Ok((write_buffer.kept.bytes().len(), held.left))
}

// Seen to fail if a write buffer gathers without a limit.
#[test]
fn a_write_buffer_keeps_no_frame_behind_its_limit(rt: HostRuntime) -> Result<(), Fail> {
    let (kept, left) = gathered(rt.alloc(), 409_600)?;
    let is_so = kept < WRITE_BUFFER_LIMIT + FRAME && kept.saturating_add(left) == 409_600;
    check_named("it keeps too much, or loses something", is_so)
}

/// A client that writes to a writer that takes all, and reads from a reader that gives nothing.
type Taken<R> = (
    Client<R, Plain, Plain>,
    ClientConnection<R, Silent, Taking, Plain, Plain>,
);

/// Polls a call of 100,000 bytes and its connection once each.
fn begin_long_call<R: System>(
    rt: &R,
    runtime: &mut LocalRuntime,
    taken: Taken<R>,
) -> Result<(), Fail> {
    let (client, connection) = taken;
    let long = vec![in rt.alloc(); 7; 100_000]?;
    let call = client.request(request(rt.alloc(), "Echo", long.as_slice(), 0)?)?;
    runtime.block_on(rt, poll_immediate(join(call, connection)))?;
    Ok(())
}

/// Returns the number of offers to a writer for such a call, and the number of bytes in all offers.
fn offers_of_a_long_call<R: System>(rt: &R) -> Result<(u32, usize), Fail> {
    let mut runtime = LocalRuntime::new(rt)?;
    let offered = nothing_offered(rt.alloc())?;
    let writer = Taking {
        offered: Arc::try_clone(&offered)?,
    };
    let taken = client_over(rt, runtime.handle(), Silent::new(), writer)?;
    begin_long_call(rt, &mut runtime, taken)?;
    Ok(offered.get())
}

/// The frame has a header of 10 bytes. Its request has 11 bytes for the service, 6 for the method, 4 before the
/// payload, and the payload.
// Seen to fail if a write buffer offers a frame in parts.
#[test]
fn a_long_frame_leaves_by_one_write(rt: HostRuntime) -> Result<(), Fail> {
    check_named(
        "it leaves by other writes",
        offers_of_a_long_call(&rt)? == (1, 100_031),
    )
}

/// A frame of a stream that the client hasn't opened.
const STRAY: &[u8; 11] = b"\0\0\0\x01\0\0\0\x07\x03\0\x7a";

/// A reader that gives one such frame a read, `left` in all, and then ends.
#[derive(Drop)]
struct Strays {
    left: Arc<Cell<u32>, Global>,
}

impl AsyncRead for Strays {
    ghost reads = { λ _ _ _. ⊤ };

    ghost is_at_end = { λ _. ⊤ };

    ghost reads_nothing = { λ _. tt };

    ghost reads_in_order = { λ _ _ _ _ _ _ _. tt };

    fn poll_read(&mut self, _cx: &mut Context<'_>, buf: &mut [u8]) -> Poll<io::Result<usize>> {
        let left = self.left.get();
        let Some(front) = buf.get_mut(..STRAY.len()) else {
            return Poll::Ready(Ok(0));
        };
        if left == 0 {
            return Poll::Ready(Ok(0));
        }
        front.copy_from_slice(STRAY);
        self.left.set(left - 1);
        Poll::Ready(Ok(STRAY.len()))
    }
}

/// Polls a connection once. Returns whether it is pending, and how many of `frames` frames its reader still has.
fn left_by_one_poll<R: System>(rt: &R, frames: u32) -> Result<(bool, u32), Fail> {
    let mut runtime = LocalRuntime::new(rt)?;
    let left = Arc::new(rt.alloc(), Cell::new(frames))?;
    let reader = Strays {
        left: Arc::try_clone(&left)?,
    };
    let writer = Taking {
        offered: nothing_offered(rt.alloc())?,
    };
    let (_client, connection) = client_over(rt, runtime.handle(), reader, writer)?;
    let polled = runtime.block_on(rt, poll_immediate(connection))?;
    Ok((polled.is_none(), left.get()))
}

// Seen to fail if one poll makes 64 turns, or any number of them.
#[test]
fn one_poll_leaves_frames_for_the_next(rt: HostRuntime) -> Result<(), Fail> {
    let (is_pending, left) = left_by_one_poll(&rt, 10_000)?;
    // One frame is passed on, and the next one is read.
    check_named("it reads other frames", is_pending && left == 9_998)
}
