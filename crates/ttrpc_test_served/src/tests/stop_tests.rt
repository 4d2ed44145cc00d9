//! Connections that a server ends: with running jobs, at rest, with a handler that never ends, and with a peer that
//! doesn't read.
ghost use Rattle.futures.specs.Poll.{OnPending};
ghost use Rattle.futures.specs.Task.{IsArmed, Keeps};

use crate::tests::floods::{Behind, First, Taking};
use crate::tests::gate::Gate;
use crate::tests::runs::{
    Bench, System, client_of, make_bench, run_beside, run_beside_client, speaker,
};
use crate::tests::sites::{TestServer, make_server};
use futures::Future;
use futures::future::Either;
use futures::task::{Context, Poll};
use std::alloc::Global;
use std::cell::Cell;
use std::sync::Arc;
use std::sync::atomic::AtomicU64;
use std::test::Fail;
use std::time::Duration;
use tokio::io::DuplexStream;
use tokio::runtime::LocalRuntime;
use ttrpc_bench::checks::check_named;
use ttrpc_bench_polled::acts::{Act, Script};
use ttrpc_bench_polled::lines::{Line, Speaker};
use ttrpc_bench_polled::parts::{Fault, Parts};
use ttrpc_polled::Timed;
use ttrpc_polled_server::Disconnect;
use ttrpc_proto::{Error, Result as RpcResult};
use ttrpc_secure::{HookOutput, Plain};

/// The work before a server disconnects.
type Before<'a, R> = Either<Script<'a, R>, Speaker<'a, DuplexStream, DuplexStream>>;

/// The work before, then a server that disconnects, which opens a gate, and then other acts.
#[derive(Drop)]
struct Stopping<'a, R: Timed> {
    doer: Before<'a, R>,
    disconnect: Option<Disconnect>,
    gate: Arc<Gate, Global>,
    leaves_waiters: bool,
    after: &'a [Act],
}

impl<R: Timed> Stopping<'_, R> {
    /// Polls the server's disconnection, which opens the gate. Ready with whether connections are left as expected.
    fn poll_disconnect(&mut self, disconnect: Disconnect, cx: &mut Context<'_>) -> Poll<bool>
        ensures registered { OnPending result (IsArmed cx.new) }
        ensures kept { Keeps cx.old cx.new }
    {
        let mut disconnect = disconnect;
        match disconnect.poll(cx) {
            Poll::Pending => {
                self.gate.open();
                self.disconnect = Some(disconnect);
                Poll::Pending
            }
            Poll::Ready(ended) => Poll::Ready(has_left(&ended) == self.leaves_waiters),
        }
    }

    /// Polls the server's disconnection, and then the other acts. Ready with the first fault, or with `None`.
    fn poll_stop(&mut self, cx: &mut Context<'_>) -> Poll<Option<Fault>>
        ensures registered { OnPending result (IsArmed cx.new) }
        ensures kept { Keeps cx.old cx.new }
    {
        let Some(disconnect) = self.disconnect.take() else {
            return Poll::Ready(None);
        };
        match self.poll_disconnect(disconnect, cx) {
            Poll::Pending => Poll::Pending,
            Poll::Ready(false) => Poll::Ready(Some(Fault::Stop)),
            Poll::Ready(true) => self.poll_after(cx),
        }
    }

    /// Begins the other acts.
    fn poll_after(&mut self, cx: &mut Context<'_>) -> Poll<Option<Fault>>
        ensures registered { OnPending result (IsArmed cx.new) }
        ensures kept { Keeps cx.old cx.new }
    {
        if let Either::Left(script) = &mut self.doer {
            script.go_on(self.after);
        }
        self.doer.poll(cx)
    }
}

impl<R: Timed> Future for Stopping<'_, R> {
    type Output = Option<Fault>;

    fn poll(&mut self, cx: &mut Context<'_>) -> Poll<Option<Fault>> {
        match self.doer.poll(cx) {
            Poll::Pending => Poll::Pending,
            Poll::Ready(Some(fault)) => Poll::Ready(Some(fault)),
            Poll::Ready(None) => self.poll_stop(cx),
        }
    }
}

/// Returns whether connections are left.
fn has_left(ended: &RpcResult<()>) -> bool {
    match ended {
        Err(Error::Others(text)) => text.as_str() == "waiters are left",
        _ => false,
    }
}

/// Does these acts with a server, disconnects the server within this limit, and does the other acts.
fn stop<'a, R: System>(
    rt: &R,
    limit: Duration,
    before: &'a [Act],
    leaves_waiters: bool,
    after: &'a [Act],
) -> Result<Option<Fault>, Fail> {
    let gate = Arc::new(rt.alloc(), Gate::new(rt.alloc()))?;
    let Bench {
        mut runtime,
        server,
        near,
        far,
    } = make_bench(rt, &gate, 4096)?;
    let mut server = server.set_disconnect_limit(limit);
    let (client, connection) = client_of(rt, runtime.handle(), near)?;
    let stopping = Stopping {
        doer: Either::Left(Script::new(client, before)),
        disconnect: Some(server.disconnect()?),
        gate,
        leaves_waiters,
        after,
    };
    run_beside_client(rt, &mut runtime, &mut server, far, connection, stopping)
}

const GONE: &str = "socket err: socket disconnected";

const NOTHING: &[Act] = &[];

const ECHOED: &[Act] = &[Act::Calls("Echo", b"1", 0), Act::Ends(0, Ok(b"1"))];

const GONE_BEHIND: &[Act] = &[
    Act::Yields(100),
    Act::Calls("Echo", b"2", 0),
    Act::Ends(1, Err(GONE)),
];

const WAITS: &[Act] = &[
    Act::Calls("Waits", b"1", 0),
    Act::Begins(0),
    Act::Yields(100),
];

const NEVER_ENDS: &[Act] = &[
    Act::Calls("NeverEnds", b"1", 0),
    Act::Begins(0),
    Act::Yields(100),
];

const STREAMS: &[Act] = &[
    Act::Opens("Chat", b"", true, true),
    Act::Sends(0, b"1", None),
    Act::Receives(0, Ok(b"1")),
];

const ENDED: &[Act] = &[Act::Ends(0, Ok(b"1"))];

const GONE_CALL: &[Act] = &[Act::Ends(0, Err(GONE))];

const GONE_STREAM: &[Act] = &[Act::Receives(0, Err(GONE))];

/// A name, a limit in milliseconds, the acts before, whether connections are left, and the acts after.
type Stopped = (&'static str, u64, &'static [Act], bool, &'static [Act]);

/// Returns the end with this number, from 0.
fn end(number: u8) -> Option<Stopped> {
    Some(match number {
        0 => ("at rest", 400, ECHOED, false, GONE_BEHIND),
        1 => ("a job under way", 400, WAITS, false, ENDED),
        2 => ("never ends", 400, NEVER_ENDS, false, GONE_CALL),
        3 => ("never ends, short limit", 20, NEVER_ENDS, true, NOTHING),
        4 => ("a stream under way", 400, STREAMS, false, GONE_STREAM),
        _ => return None,
    })
}

// Seen to fail if a connection that is over keeps its waiter. Should fail if a disconnect is done, or has failed, at once; a connection that
// ends waits for its handlers forever.
#[test]
fn a_server_ends_its_connections(rt: HostRuntime) -> Result<(), Fail> {
    for number in 0..100 {
        if let Some((name, limit, before, leaves_waiters, after)) = end(number) {
            let limit = Duration::from_millis(limit);
            let fault = stop(&rt, limit, before, leaves_waiters, after)?;
            check_named(name, fault.is_none())?;
        }
    }
    Ok(())
}

/// Two requests of `Echo`. There is room for one of their answers.
const ASKED_OFTEN: &[Line<'static>] = &[Line::Up(
    b"\0\0\0\x14\0\0\0\x01\x01\0\x0a\x09demo.Echo\x12\x04Echo\x1a\x01\x2a\0\0\0\x14\0\0\0\x03\x01\0\x0a\x09demo.Echo\x12\x04Echo\x1a\x01\x2b",
)];

#[test]
fn a_server_ends_the_connection_of_a_peer_that_reads_nothing(rt: HostRuntime) -> Result<(), Fail> {
    let gate = Arc::new(rt.alloc(), Gate::new(rt.alloc()))?;
    let Bench {
        mut runtime,
        mut server,
        near,
        far,
    } = make_bench(&rt, &gate, 15)?;
    let doer: Before<'_, HostRuntime> = Either::Right(speaker(ASKED_OFTEN, near));
    let stopping = Stopping {
        doer,
        disconnect: Some(server.disconnect()?),
        gate,
        leaves_waiters: false,
        after: NOTHING,
    };
    let fault = run_beside(&rt, &mut runtime, &mut server, far, stopping)?;
    check_named("a line comes otherwise, or it doesn't end", fault.is_none())
}

/// A server's disconnection that counts its polls.
#[derive(Drop)]
struct Counted {
    disconnect: Disconnect,
    polls: Arc<Cell<u32>, Global>,
}

impl Future for Counted {
    type Output = Option<Fault>;

    fn poll(&mut self, cx: &mut Context<'_>) -> Poll<Option<Fault>> {
        self.polls.set(self.polls.get().saturating_add(1));
        match self.disconnect.poll(cx) {
            Poll::Pending => Poll::Pending,
            Poll::Ready(Ok(())) => Poll::Ready(None),
            Poll::Ready(Err(_)) => Poll::Ready(Some(Fault::Stop)),
        }
    }
}

/// Disconnects a server.
fn make_counted<R: System>(
    server: &mut TestServer<R>,
    polls: &Arc<Cell<u32>, Global>,
) -> Result<Counted, Fail> {
    Ok(Counted {
        disconnect: server.disconnect()?,
        polls: Arc::try_clone(polls)?,
    })
}

/// A request of a handler that never ends.
const UNLIMITED: &[u8] = b"\0\0\0\x16\0\0\0\x01\x01\0\x0a\x09demo.Echo\x12\x09NeverEnds";

/// Returns a peer that sends such a request, and sends no more.
fn asker(alloc: Global) -> Result<(First, Taking), Fail> {
    let reader = First::new(
        UNLIMITED,
        Behind::Nothing,
        Arc::new(alloc, AtomicU64::new(0))?,
    );
    let writer = Taking {
        most: Arc::new(alloc, Cell::new(0))?,
    };
    Ok((reader, writer))
}

/// Waits twice for the end of a connection with a handler that never ends. Returns how often both were polled, unless
/// one has failed.
fn wait_twice<R: System>(rt: &R) -> Result<Option<u32>, Fail> {
    let alloc = rt.alloc();
    let polls = Arc::new(alloc, Cell::new(0))?;
    let gate = Arc::new(alloc, Gate::new(alloc))?;
    let mut runtime = LocalRuntime::new(rt)?;
    let mut server = make_server(rt, runtime.handle(), &gate)?;
    let (reader, writer) = asker(alloc)?;
    let output = HookOutput::of_halves(alloc, Plain {}, Plain {});
    let connection = server.over(reader, writer, output)?;
    let (first, second) = (
        make_counted(&mut server, &polls)?,
        make_counted(&mut server, &polls)?,
    );
    let parts = Parts::both(alloc, first, second, connection)?;
    let fault = runtime.block_on(rt, parts)?;
    Ok(if fault.is_none() {
        Some(polls.get())
    } else {
        None
    })
}

// Should fail if two that wait for an end wake each other.
#[test]
fn two_who_wait_for_an_end_are_both_told(rt: HostRuntime) -> Result<(), Fail> {
    let polls = wait_twice(&rt)?;
    check_named(
        "they wake each other, or one isn't told",
        polls.is_some_and(|polls| polls < 20),
    )
}
