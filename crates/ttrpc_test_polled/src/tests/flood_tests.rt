//! Connections with endless input, and one with a peer that never reads. The tests advance the clock.
ghost use Rattle.futures.specs.Task.{Keeps};
ghost use Rattle.std.specs.Prelude.{◌≡◌, ⊤};

use crate::tests::broken_tests::Silent;
use crate::tests::sites::{System, request};
use futures::Future;
use futures::future::{Either, select};
use futures::task::{Context, Poll, Source, Waker};
use std::alloc::{AllocError, Global};
use std::cell::Cell;
use std::io;
use std::sync::Arc;
use std::sync::atomic::{AtomicU64, Ordering};
use std::test::Fail;
use std::time::{Clock, Duration};
use tokio::io::{AsyncRead, AsyncWrite};
use tokio::runtime::LocalRuntime;
use ttrpc_bench::checks::check_named;
use ttrpc_bench_polled::acts::is_so;
use ttrpc_polled_client::{Client, ClientConnection, ClientRequest};
use ttrpc_secure::{HookOutput, Plain};

/// A moment that a test advances.
type Moment = Arc<AtomicU64, Global>;

/// The moment at which a test begins: a timer of the event loop that is set for a later moment doesn't ring.
const BEGIN: u64 = 1_000_000_000_000_000;

/// A clock that a test advances.
#[derive(Drop)]
struct TestClock {
    moment: Moment,
}

impl Clock for TestClock {
    fn monotonic(&self) -> io::Result<Duration> {
        Ok(Duration::from_nanos(self.moment.load(Ordering::SeqCst)))
    }

    fn since_1970(&self) -> io::Result<Duration> {
        self.monotonic()
    }
}

impl Clone for TestClock {
    fn clone(&self) -> std::result::Result<TestClock, AllocError> {
        Ok(TestClock {
            moment: Arc::try_clone(&self.moment)?,
        })
    }
}

/// The system of a test's client: a clock that a test advances, and memory.
type Late = (TestClock, Global);

/// Returns a clock that shows this moment.
fn late_of(alloc: Global, moment: &Moment) -> Result<Late, Fail> {
    let clock = TestClock {
        moment: Arc::try_clone(moment)?,
    };
    Ok((clock, alloc))
}

/// A frame of a stream that the client hasn't opened.
const STRAY: &[u8; 11] = b"\0\0\0\x01\0\0\0\x07\x03\0\x7a";

/// A reader that gives one such frame a read, with a millisecond each, `left` in all, and then ends.
#[derive(Drop)]
struct Strays {
    left: Arc<Cell<u32>, Global>,
    moment: Moment,
}

impl AsyncRead for Strays {
    ghost reads = { λ _ _ _. ⊤ };

    ghost is_at_end = { λ _. ⊤ };

    ghost reads_nothing = { λ _. tt };

    ghost reads_in_order = { λ _ _ _ _ _ _ _. tt };

    fn poll_read(&mut self, _cx: &mut Context<'_>, buf: &mut [u8]) -> Poll<io::Result<usize>> {
        let left = self.left.get();
        let Some(front) = buf.get_mut(..STRAY.len()) else {
            return Poll::Ready(Ok(0));
        };
        if left == 0 {
            return Poll::Ready(Ok(0));
        }
        front.copy_from_slice(STRAY);
        self.left.set(left - 1);
        self.moment.fetch_add(1_000_000, Ordering::SeqCst);
        Poll::Ready(Ok(STRAY.len()))
    }
}

/// A writer that takes nothing, or all.
#[derive(Drop)]
struct Takes {
    all: bool,
    never: Source,
    slot: Option<Waker>,
}

impl Takes {
    fn new(all: bool) -> Takes {
        Takes {
            all,
            never: Source::new(),
            slot: None,
        }
    }
}

impl AsyncWrite for Takes {
    ghost needs = { λ t s. s ≡ t.never.id };

    ghost writes = { λ _ _ _. ⊤ };

    ghost writes_nothing = { λ _. tt };

    ghost writes_in_order = { λ _ _ _ _ _ _ _. tt };

    fn poll_write(&mut self, cx: &mut Context<'_>, buf: &[u8]) -> Poll<io::Result<usize>> {
        if self.all {
            return Poll::Ready(Ok(buf.len()));
        }
        cx.register(&self.never, &mut self.slot)
    }

    fn poll_flush(&mut self, _cx: &mut Context<'_>) -> Poll<io::Result<()>> {
        Poll::Ready(Ok(()))
    }

    fn poll_shutdown(&mut self, _cx: &mut Context<'_>) -> Poll<io::Result<()>> {
        Poll::Ready(Ok(()))
    }
}

/// The number of frames that come at most.
const FRAMES: u32 = 10_000;

/// Makes a call with a timeout of 20 ms during a flood. Returns whether it expires before many frames have come.
fn expires_in_a_flood<R: System>(rt: &R) -> Result<bool, Fail> {
    let alloc = rt.alloc();
    let mut runtime = LocalRuntime::new(rt)?;
    let moment = Arc::new(alloc, AtomicU64::new(BEGIN))?;
    let left = Arc::new(alloc, Cell::new(FRAMES))?;
    let reader = Strays {
        left: Arc::try_clone(&left)?,
        moment: Arc::try_clone(&moment)?,
    };
    let output = HookOutput::of_halves(alloc, Plain {}, Plain {});
    let late = late_of(alloc, &moment)?;
    let (client, connection) = Client::over(
        late,
        runtime.handle(),
        reader,
        Takes::new(true),
        output,
    )?;
    let call = client.request(request(alloc, "Echo", b"1", 20_000_000)?)?;
    let Either::Left(first) = runtime.block_on(rt, select(call, connection))? else {
        return Ok(false);
    };
    let (given, _) = first;
    let told = match given {
        Ok(_) => false,
        Err(error) => is_so(
            alloc,
            Err(error),
            Err("ttrpc err: Request deadline elapsed"),
        ),
    };
    Ok(told && left.get() > FRAMES - 100)
}

// Seen to fail if no deadline is looked at while input keeps coming.
#[test]
fn a_call_expires_while_input_keeps_coming(rt: HostRuntime) -> Result<(), Fail> {
    check_named("it isn't told in time", expires_in_a_flood(&rt)?)
}

/// A client with a call that is polled once, and with a peer that never reads. Then both are dropped, and a second
/// passes after each poll of the connection. Ready with true if the connection ended.
#[derive(Drop)]
struct LastClient {
    client: Option<Client<Late, Plain, Plain>>,
    call: Option<ClientRequest<Plain, Plain>>,
    connection: ClientConnection<Late, Silent, Takes, Plain, Plain>,
    moment: Moment,
    left: u32,
}

impl LastClient {
    /// Polls the call, and then its connection.
    fn poll_both(&mut self, cx: &mut Context<'_>) -> Poll<()>
        ensures { Keeps cx.old cx.new }
    {
        if let Some(call) = &mut self.call {
            let _ = call.poll(cx);
        }
        self.connection.poll(cx)
    }
}

impl Future for LastClient {
    type Output = bool;

    fn poll(&mut self, cx: &mut Context<'_>) -> Poll<bool> {
        if self.left == 0 {
            return Poll::Ready(false);
        }
        self.left -= 1;
        if self.poll_both(cx).is_ready() {
            return Poll::Ready(true);
        }
        self.call = None;
        self.client = None;
        self.moment.fetch_add(1_000_000_000, Ordering::SeqCst);
        cx.yield_now()
    }
}

/// Returns whether the connection of a client with a peer that never reads ends within `seconds` seconds after the
/// client is dropped.
fn ends_within<R: System>(rt: &R, seconds: u32) -> Result<bool, Fail> {
    let alloc = rt.alloc();
    let mut runtime = LocalRuntime::new(rt)?;
    let moment = Arc::new(alloc, AtomicU64::new(BEGIN))?;
    let output = HookOutput::of_halves(alloc, Plain {}, Plain {});
    let late = late_of(alloc, &moment)?;
    let (client, connection) = Client::over(
        late,
        runtime.handle(),
        Silent::new(),
        Takes::new(false),
        output,
    )?;
    let call = client.request(request(alloc, "Echo", b"1", 0)?)?;
    let last = LastClient {
        client: Some(client),
        call: Some(call),
        connection,
        moment,
        left: seconds,
    };
    Ok(runtime.block_on(rt, last)?)
}

// Seen to fail if a peer that never reads is waited for.
#[test]
fn a_connection_ends_a_while_behind_its_last_client(rt: HostRuntime) -> Result<(), Fail> {
    let is_so = !ends_within(&rt, 4)? && ends_within(&rt, 10)?;
    check_named("it ends at another time", is_so)
}
