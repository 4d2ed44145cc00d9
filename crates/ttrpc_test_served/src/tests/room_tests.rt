//! Connections that are short of room for the bytes that they have to write.
ghost use Rattle.std.specs.Prelude.{◌≡◌, ⊤};

use crate::tests::floods::write_request;
use crate::tests::handlers::answer;
use crate::tests::runs::{Pipe, System, client_of, pipes, run_acts};
use crate::tests::sites::{Ends, Near};
use futures::future::join_all;
use futures::task::{Context, Poll, Source, Waker};
use futures::{Future, FutureExt};
use std::alloc::{AllocError, Global};
use std::cell::Cell;
use std::collections::BTreeMap;
use std::io;
use std::sync::Arc;
use std::test::Fail;
use tokio::io::{AsyncRead, AsyncWrite};
use tokio::runtime::LocalRuntime;
use tokio::task::LocalSet;
use ttrpc_bench::checks::{check_named, check_named_row};
use ttrpc_bench_polled::acts::Act::{self, *};
use ttrpc_bench_polled::acts::request;
use ttrpc_bench_polled::parts::{Fault, Parts};
use ttrpc_polled_client::{Client, ClientRequest};
use ttrpc_polled_server::{MethodHandler, NoStreams, Server, Service, TtrpcContext};
use ttrpc_proto::{Request, Response};
use ttrpc_secure::{HookOutput, Plain};
use ttrpc_wire::Blob;

/// The length of a payload. The connection holds one answer for its writer, and five in the queue leave too little room
/// for the longest answer. So six short requests are taken, and the seventh is read and waits.
const LONG: usize = 1_000_000;

/// A method with handlers that wait until `count` of them have begun, and then answer at length.
#[derive(Drop)]
struct Meeting {
    begun: Arc<Cell<u32>, Global>,
    count: u32,
}

impl MethodHandler for Meeting {
    type Call = Meets;

    fn handler(&self, ctx: TtrpcContext, _req: Request) -> Meets {
        self.begun.set(self.begun.get().saturating_add(1));
        Meets {
            alloc: ctx.alloc(),
            begun: Arc::try_clone(&self.begun).ok(),
            count: self.count,
        }
    }
}

/// A handler that waits until `count` handlers of its method have begun.
#[derive(Drop)]
struct Meets {
    alloc: Global,
    begun: Option<Arc<Cell<u32>, Global>>,
    count: u32,
}

impl Meets {
    /// Returns whether `count` handlers have begun.
    fn have_met(&self) -> bool {
        match &self.begun {
            Some(begun) => begun.get() >= self.count,
            None => true,
        }
    }
}

impl Future for Meets {
    type Output = ttrpc_proto::Result<Response>;

    fn poll(&mut self, cx: &mut Context<'_>) -> Poll<ttrpc_proto::Result<Response>> {
        if self.have_met() {
            return Poll::Ready(long_answer(self.alloc));
        }
        cx.yield_now()
    }
}

fn long_answer(alloc: Global) -> ttrpc_proto::Result<Response> {
    let payload = Vec::from_elem(alloc, 7u8, LONG)?;
    Ok(answer(alloc, Some(Blob::from_vec(payload))))
}

/// A reader that gives one request a read, and counts them.
#[derive(Drop)]
struct Drip {
    given: Arc<Cell<u32>, Global>,
}

impl AsyncRead for Drip {
    ghost reads = { λ _ _ _. ⊤ };

    ghost is_at_end = { λ _. ⊤ };

    ghost reads_nothing = { λ _. tt };

    ghost reads_in_order = { λ _ _ _ _ _ _ _. tt };

    fn poll_read(&mut self, _cx: &mut Context<'_>, buf: &mut [u8]) -> Poll<io::Result<usize>> {
        let Some(place) = buf.get_mut(..30) else {
            return Poll::Ready(Ok(0));
        };
        write_request(place, self.given.get());
        self.given.set(self.given.get().saturating_add(1));
        Poll::Ready(Ok(30))
    }
}

/// A writer that takes nothing.
#[derive(Drop)]
struct Stuck {
    never: Source,
    slot: Option<Waker>,
}

impl AsyncWrite for Stuck {
    ghost needs = { λ w s. s ≡ w.never.id };

    ghost writes = { λ _ _ _. ⊤ };

    ghost writes_nothing = { λ _. tt };

    ghost writes_in_order = { λ _ _ _ _ _ _ _. tt };

    fn poll_write(&mut self, cx: &mut Context<'_>, _buf: &[u8]) -> Poll<io::Result<usize>> {
        cx.register(&self.never, &mut self.slot)
    }

    fn poll_flush(&mut self, _cx: &mut Context<'_>) -> Poll<io::Result<()>> {
        Poll::Ready(Ok(()))
    }

    fn poll_shutdown(&mut self, _cx: &mut Context<'_>) -> Poll<io::Result<()>> {
        Poll::Ready(Ok(()))
    }
}

fn make_stuck() -> Stuck {
    Stuck {
        never: Source::new(),
        slot: None,
    }
}

/// A connection that counts its polls.
#[derive(Drop)]
struct Counted<F> {
    connection: F,
    polls: Arc<Cell<u32>, Global>,
}

impl<F: Future<Output = ()>> Future for Counted<F> {
    type Output = ();

    ghost can_poll = { λ c. F.can_poll c.connection };

    ghost needs = { λ c. F.needs c.connection };

    fn poll(&mut self, cx: &mut Context<'_>) -> Poll<()> {
        self.polls.set(self.polls.get().saturating_add(1));
        self.connection.poll(cx)
    }
}

/// Rounds of the event loop, with `left` more to come.
#[derive(Drop)]
struct Rounds {
    left: u32,
}

impl Future for Rounds {
    type Output = ();

    fn poll(&mut self, cx: &mut Context<'_>) -> Poll<()> {
        if self.left == 0 {
            return Poll::Ready(());
        }
        self.left -= 1;
        cx.yield_now()
    }
}

/// An event loop, and a server with handlers that answer at length.
#[derive(Drop)]
struct LongBench<R: System> {
    runtime: LocalRuntime,
    server: Server<R, Meeting, NoStreams>,
}

/// Returns a server of `Echo`, with handlers that wait until `count` of them have begun.
fn make_long_bench<R: System>(rt: &R, count: u32) -> Result<LongBench<R>, Fail> {
    let services = make_meeting(rt.alloc(), count)?;
    let runtime = LocalRuntime::new(rt)?;
    let server = Server::new(rt.clone()?, runtime.handle())?.register_service(services)?;
    Ok(LongBench { runtime, server })
}

fn make_meeting(
    alloc: Global,
    count: u32,
) -> Result<BTreeMap<String, Service<Meeting, NoStreams>>, AllocError> {
    let begun = Arc::new(alloc, Cell::new(0))?;
    let mut service = Service::new(alloc);
    let name = String::from_str(alloc, "Echo")?;
    service.methods.insert(name, Meeting { begun, count })?;
    let mut services = BTreeMap::new(alloc);
    services.insert(String::from_str(alloc, "demo.Echo")?, service)?;
    Ok(services)
}

/// The number of polls of a connection, and the number of requests that were read.
#[derive(Drop)]
struct Counts {
    polls: Arc<Cell<u32>, Global>,
    given: Arc<Cell<u32>, Global>,
}

impl Counts {
    /// Returns the reader that counts its requests.
    fn reader(&self) -> Result<Drip, AllocError> {
        Ok(Drip {
            given: Arc::try_clone(&self.given)?,
        })
    }
}

fn no_counts(alloc: Global) -> Result<Counts, AllocError> {
    let polls = Arc::new(alloc, Cell::new(0))?;
    let given = Arc::new(alloc, Cell::new(0))?;
    Ok(Counts { polls, given })
}

/// Polls a connection for a thousand rounds, each time that it was woken.
fn poll_in_rounds<R: System, F: Future<Output = ()> + 'static>(
    rt: &R,
    runtime: &mut LocalRuntime,
    connection: Counted<F>,
) -> Result<(), Fail>
    requires { F.can_poll connection.connection }
{
    let tasks = LocalSet::new(rt.alloc())?;
    let _handle = tasks.spawn_local(connection)?;
    Ok(tasks.block_on_local(rt, runtime, Rounds { left: 1000 })?)
}

/// Counts the polls of a connection with a writer that takes nothing, and the requests that are read.
fn count_at_rest<R: System + 'static>(rt: &R, counts: &Counts) -> Result<(), Fail> {
    let LongBench {
        mut runtime,
        mut server,
    } = make_long_bench(rt, 1)?;
    let (reader, polls) = (counts.reader()?, Arc::try_clone(&counts.polls)?);
    let output = HookOutput::of_halves(rt.alloc(), Plain {}, Plain {});
    let connection = server.over(reader, make_stuck(), output)?;
    poll_in_rounds(rt, &mut runtime, Counted { connection, polls })
}

// Seen to fail if a connection without room spins.
#[test]
fn a_connection_without_room_rests(rt: HostRuntime) -> Result<(), Fail> {
    let counts = no_counts(rt.alloc())?;
    count_at_rest(&rt, &counts)?;
    check_named(
        "it is polled in vain, or reads more",
        counts.polls.get() <= 20 && counts.given.get() == 7,
    )
}

/// The number of calls that are made at the same time. Neither end's queue has room for all of them.
const CALLS: u32 = 12;

/// Makes the long calls of this client.
fn long_calls<R: System>(
    alloc: Global,
    client: &Client<R, Plain, Plain>,
) -> Result<Vec<ClientRequest<Plain, Plain>>, Fail> {
    let payload = Vec::from_elem(alloc, 7u8, LONG)?;
    let mut calls = Vec::new(alloc);
    for _ in 0..CALLS {
        calls.push(client.request(request(alloc, "Echo", payload.as_slice(), 0)?)?)?;
    }
    Ok(calls)
}

/// Returns whether a call was answered at length.
fn is_answered(outcome: &ttrpc_proto::Result<Response>) -> bool {
    match outcome {
        Ok(response) => response.payload.as_slice().len() == LONG,
        Err(_) => false,
    }
}

/// Returns a fault, unless all calls were answered at length.
fn fault_of(outcomes: Result<Vec<ttrpc_proto::Result<Response>>, AllocError>) -> Option<Fault> {
    match outcomes {
        Ok(outcomes) if outcomes.len() == CALLS as usize && outcomes.iter().all(is_answered) => {
            None
        }
        _ => Some(Fault::Act(0)),
    }
}

/// Makes these calls and polls both ends of their connection.
fn make_calls<R: System>(
    rt: &R,
    bench: LongBench<R>,
    pipe: Pipe,
    near: Near<R>,
    calls: Vec<ClientRequest<Plain, Plain>>,
) -> Result<Option<Fault>, Fail> {
    let LongBench {
        mut runtime,
        mut server,
    } = bench;
    let all = join_all(rt.alloc(), calls)?.map(fault_of);
    let Pipe { reader, writer } = pipe;
    let output = HookOutput::of_halves(rt.alloc(), Plain {}, Plain {});
    let far = server.over(reader, writer, output)?;
    let parts = Parts::beside(rt.alloc(), all, Ends::new(near, far))?;
    Ok(runtime.block_on(rt, parts)?)
}

/// Makes long calls of one client at the same time. Their handlers answer at the same time.
fn call_at_length<R: System>(rt: &R) -> Result<Option<Fault>, Fail> {
    let bench = make_long_bench(rt, CALLS)?;
    let (near, far) = pipes(rt.alloc(), 65536)?;
    let (client, connection) = client_of(rt, bench.runtime.handle(), near)?;
    let calls = long_calls(rt.alloc(), &client)?;
    make_calls(rt, bench, far, connection, calls)
}

/// Calls wait for room at the client, and the answers of their handlers wait for room at the server.
// Seen to fail if a report wakes nobody; a handler's end without room is dropped.
#[test]
fn calls_wait_for_room_at_both_ends(rt: HostRuntime) -> Result<(), Fail> {
    check_named("a call has another answer", call_at_length(&rt)?.is_none())
}

/// An item of 500 bytes.
const ITEM: &[u8] = &[7; 500];

/// The answer of `Sum` to one item of that length.
const SUM_OF_ITEM: &[u8] = b"\0\0\0\0\0\0\0\x01\0\0\0\0\0\0\x01\xf4";

/// Calls leave room for 507 bytes, and the frame of an item needs 510 bytes.
const AN_ITEM_WAITS: &[Act] = &[
    Opens("Sum", b"", true, false),
    CallsLong(4_000_000),
    CallsLong(4_000_000),
    CallsLong(388_000),
    Begins(0),
    Begins(1),
    Begins(2),
    Sends(0, ITEM, None),
    Closes(0, None),
    Receives(0, Ok(SUM_OF_ITEM)),
    EndsLong(0, 4_000_000),
    EndsLong(1, 4_000_000),
    EndsLong(2, 388_000),
];

/// Calls leave room for 23 bytes, and the frame that opens a stream needs 26 bytes.
const AN_OPENING_WAITS: &[Act] = &[
    CallsLong(4_000_000),
    CallsLong(4_000_000),
    CallsLong(388_510),
    Begins(0),
    Begins(1),
    Begins(2),
    Opens("Sum", b"", true, false),
    Sends(0, ITEM, None),
    Closes(0, None),
    Receives(0, Ok(SUM_OF_ITEM)),
    EndsLong(2, 388_510),
];

const WAITING: &[(&str, &[Act])] = &[("an item", AN_ITEM_WAITS), ("an opening", AN_OPENING_WAITS)];

#[test]
fn what_is_sent_on_a_stream_waits_for_room(rt: HostRuntime) -> Result<(), Fail> {
    for &(name, acts) in WAITING {
        let fault = run_acts(&rt, 65536, acts)?;
        check_named_row(name, 65536, fault.is_none())?;
    }
    Ok(())
}
