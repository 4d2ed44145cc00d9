//! The parts of a job that are left after its handler has ended, and the end of the input, as handlers see it.
ghost use Rattle.std.specs.Prelude.{⊤};

use crate::tests::floods::{Behind, First, Taking};
use crate::tests::gate::Gate;
use crate::tests::handlers::Shared;
use crate::tests::runs::{System, run_lines};
use futures::Future;
use futures::spin::lock;
use futures::task::{Context, Poll, Source};
use std::alloc::Global;
use std::cell::Cell;
use std::collections::BTreeMap;
use std::sync::atomic::AtomicU64;
use std::sync::{Arc, Mutex};
use std::test::Fail;
use std::time::Duration;
use tokio::runtime::LocalRuntime;
use ttrpc_bench::checks::check_named;
use ttrpc_bench_polled::acts::is_so;
use ttrpc_bench_polled::lines::Line::{self, *};
use ttrpc_bench_polled::parts::{Fault, Parts};
use ttrpc_bench_polled::registry::registry;
use ttrpc_polled::{PolledState, StreamInner, StreamReceiver};
use ttrpc_polled_server::{
    Ended, InputEnd, NoMethods, PolledServerState, Server, Service, Settings, StreamHandler,
    TtrpcContext,
};
use ttrpc_proto::{Response, Result as RpcResult};
use ttrpc_secure::{ConnectionContext, HookOutput, Plain};
use ttrpc_server::{Rules, ServerCore};

/// A place for the receiver of a stream.
type Shelf = Arc<Mutex<Option<StreamReceiver<Shared>>>, Global>;

/// Streams with handlers that put their receivers there.
#[derive(Drop)]
struct Shelving {
    shelf: Shelf,
}

/// The handler of such a stream, which ends after it was polled a few times.
#[derive(Drop)]
struct ShelvingCall {
    shelf: Option<Shelf>,
    stream: Option<StreamInner<Shared>>,
    left: u32,
}

impl StreamHandler<Shared> for Shelving {
    type Call = ShelvingCall;

    fn handler(&self, _ctx: TtrpcContext, stream: StreamInner<Shared>) -> ShelvingCall
        ensures { ⊤ }
    {
        ShelvingCall {
            shelf: Arc::try_clone(&self.shelf).ok(),
            stream: Some(stream),
            left: 20,
        }
    }
}

impl ShelvingCall {
    /// Puts the receiver onto the shelf.
    fn put(&self, receiver: StreamReceiver<Shared>) {
        if let Some(shelf) = &self.shelf {
            if let Some(mut guard) = lock(shelf) {
                *guard = Some(receiver);
            }
        }
    }
}

impl Future for ShelvingCall {
    type Output = RpcResult<Option<Response>>;

    fn poll(&mut self, cx: &mut Context<'_>) -> Poll<RpcResult<Option<Response>>> {
        if let Some(stream) = self.stream.take() {
            let (_sender, receiver) = stream.split();
            self.put(receiver);
        }
        if self.left == 0 {
            return Poll::Ready(Ok(None));
        }
        self.left -= 1;
        cx.yield_now()
    }
}

/// A future that takes a receiver from the shelf, and receives.
#[derive(Drop)]
struct Waits {
    alloc: Global,
    shelf: Shelf,
    receiver: Option<StreamReceiver<Shared>>,
}

impl Waits {
    fn take(&mut self) {
        if let Some(mut guard) = lock(&self.shelf) {
            self.receiver = guard.take();
        }
    }
}

impl Future for Waits {
    type Output = Option<Fault>;

    fn poll(&mut self, cx: &mut Context<'_>) -> Poll<Option<Fault>> {
        if self.receiver.is_none() {
            self.take();
        }
        let Some(receiver) = &mut self.receiver else {
            return cx.yield_now();
        };
        let told = "ttrpc err: Receive packet from Receiver error";
        match receiver.poll_recv(cx) {
            Poll::Pending => Poll::Pending,
            Poll::Ready(given) => Poll::Ready(fault_unless(is_so(self.alloc, given, Err(told)))),
        }
    }
}

fn fault_unless(holds: bool) -> Option<Fault> {
    if holds { None } else { Some(Fault::Act(0)) }
}

/// A request of a stream.
const OPENS: &[u8] = b"\0\0\0\x11\0\0\0\x01\x01\x06\x0a\x09demo.Echo\x12\x04Chat";

/// Returns the service of such streams.
fn make_shelving(
    alloc: Global,
    shelf: &Shelf,
) -> Result<BTreeMap<String, Service<NoMethods, Shelving>>, Fail> {
    let mut service = Service::new(alloc);
    let stream = Shelving {
        shelf: Arc::try_clone(shelf)?,
    };
    service
        .streams
        .insert(String::from_str(alloc, "Chat")?, stream)?;
    let mut services = BTreeMap::new(alloc);
    services.insert(String::from_str(alloc, "demo.Echo")?, service)?;
    Ok(services)
}

/// Returns a peer that opens a stream and sends no more.
fn opener(alloc: Global) -> Result<(First, Taking), Fail> {
    let moment = Arc::new(alloc, AtomicU64::new(0))?;
    let reader = First::new(OPENS, Behind::Nothing, moment);
    let writer = Taking {
        most: Arc::new(alloc, Cell::new(0))?,
    };
    Ok((reader, writer))
}

/// Waits at a receiver outside of its handler. Returns whether that ended within half a second.
fn wait_outside<R: System>(rt: &R) -> Result<bool, Fail> {
    let alloc = rt.alloc();
    let mut runtime = LocalRuntime::new(rt)?;
    let shelf: Shelf = Arc::new(alloc, Mutex::new(None))?;
    let server = Server::new(rt.clone()?, runtime.handle())?;
    let mut server = server.register_service(make_shelving(alloc, &shelf)?)?;
    let (reader, writer) = opener(alloc)?;
    let output = HookOutput::of_halves(alloc, Plain {}, Plain {});
    let connection = server.over(reader, writer, output)?;
    let waits = Waits {
        alloc,
        shelf,
        receiver: None,
    };
    let parts = Parts::beside(alloc, waits, connection)?;
    let limit = Duration::from_millis(500);
    let timed = runtime.handle().time().timeout(rt, limit, parts)?;
    match runtime.block_on(rt, timed)? {
        Ok(fault) => Ok(fault.is_none()),
        Err(_) => Ok(false),
    }
}

// Should fail if an ended job wakes nobody.
#[test]
fn who_receives_outside_a_handler_is_told_of_its_end(rt: HostRuntime) -> Result<(), Fail> {
    check_named("nobody is told", wait_outside(&rt)?)
}

/// A job that was taken and that a task waits for, and then its end.
#[derive(Drop)]
struct Waited {
    held: PolledServerState<Plain, Plain>,
    came: Source,
}

impl Future for Waited {
    type Output = (usize, usize);

    fn poll(&mut self, cx: &mut Context<'_>) -> Poll<(usize, usize)> {
        let _ = self.held.poll_dropped(1, &self.came, cx);
        let before = self.held.waiting();
        self.held.end(1, &Ended::Dropped);
        Poll::Ready((before, self.held.waiting()))
    }
}

/// A request of `Echo`.
const ASKED: &[u8] = b"\0\0\0\x14\0\0\0\x01\x01\0\x0a\x09demo.Echo\x12\x04Echo\x1a\x01\x2a";

/// Returns the part of a connection under its lock, with a job that was taken.
fn taken(alloc: Global) -> Result<PolledServerState<Plain, Plain>, Fail> {
    let context = ConnectionContext::of_halves(alloc, Plain {}, Plain {});
    let core = ServerCore::new(alloc, Rules::Async, registry(alloc)?, context)?;
    let input_end = Arc::new(alloc, InputEnd::new(alloc))?;
    let mut held = PolledServerState::new(alloc, core, Settings::new(), input_end);
    let _ = held.take(alloc, ASKED, 0);
    let _ = held.take_job();
    Ok(held)
}

// Should fail if an ended job leaves its waker.
#[test]
fn nothing_is_kept_of_a_job_that_has_ended(rt: HostRuntime) -> Result<(), Fail> {
    let mut runtime = LocalRuntime::new(&rt)?;
    let waited = Waited {
        held: taken(rt.alloc())?,
        came: Source::new(),
    };
    let kept = runtime.block_on(&rt, waited)?;
    check_named("a waker is kept, or none was there", kept == (1, 0))
}

/// A request of a handler that waits for the end of its input, and its answer.
const AT_END: &[u8] = b"\0\0\0\x15\0\0\0\x01\x01\0\x0a\x09demo.Echo\x12\x05AtEnd\x1a\x01\x2a";

const ECHOED: &[u8] = b"\0\0\0\x05\0\0\0\x01\x02\0\x0a\0\x12\x01\x2a";

const ENDS: &[Line<'static>] = &[Up(AT_END), UpEnds, Down(ECHOED), DownEnds];

#[test]
fn a_handler_sees_the_end_of_its_input(rt: HostRuntime) -> Result<(), Fail> {
    let gate = Arc::new(rt.alloc(), Gate::new(rt.alloc()))?;
    let fault = run_lines(&rt, &gate, 4096, false, ENDS)?;
    check_named("it doesn't see it", fault.is_none())
}

/// A stream with a handler that sends while it receives, and the frames that it sends after the end of the input.
const BEATS: &[u8] = b"\0\0\0\x12\0\0\0\x01\x01\x06\x0a\x09demo.Echo\x12\x05Beats";

const BEATEN: &[u8] = b"\
    \0\0\0\x01\0\0\0\x01\x03\0b\
    \0\0\0\x01\0\0\0\x01\x03\0b\
    \0\0\0\x01\0\0\0\x01\x03\0b\
    \0\0\0\0\0\0\0\x01\x03\x05";

const HALF_CLOSED: &[Line<'static>] = &[Up(BEATS), UpEnds, Down(BEATEN), DownEnds];

// Should fail if a handler that sends is cut off at the end of input.
#[test]
fn a_handler_that_sends_goes_on_behind_a_half_close(rt: HostRuntime) -> Result<(), Fail> {
    let gate = Arc::new(rt.alloc(), Gate::new(rt.alloc()))?;
    let fault = run_lines(&rt, &gate, 4096, false, HALF_CLOSED)?;
    check_named("it ends, or sends something else", fault.is_none())
}
