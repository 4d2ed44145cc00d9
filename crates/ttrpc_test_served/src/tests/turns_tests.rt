//! The length of one poll of a server's connection, and the order of its work, while input keeps coming.
use crate::tests::floods::{
    Behind, Costs, First, Flood, Moment, Polled, Seen, Taking, TestClock, Told,
};
use crate::tests::gate::Gate;
use crate::tests::runs::System;
use crate::tests::sites::{TestServer, make_server};
use std::alloc::Global;
use std::cell::Cell;
use std::collections::BTreeMap;
use std::sync::Arc;
use std::sync::atomic::AtomicU64;
use std::test::Fail;
use std::time::Duration;
use tokio::runtime::{Handle, LocalRuntime};
use ttrpc_bench::checks::{check_named, check_named_row};
use ttrpc_polled_server::{NoStreams, Server, Service};
use ttrpc_secure::{HookOutput, Plain};

/// The system of a test's server: a clock that a test advances, and memory.
type Late = (TestClock, Global);

/// A server with a method that costs time.
type CostlyServer = Server<Late, Costs, NoStreams>;

/// The results of a flood: the numbers of handlers that were begun, of requests that were read, and of bytes that were
/// written at once at most, and whether the connection has ended.
#[derive(Clone, Copy, Debug)]
struct Came {
    begun: u32,
    given: u32,
    most: usize,
    is_over: bool,
}

/// The moment at which a test begins: a timer of the event loop that is set for a later moment doesn't ring.
const BEGIN: u64 = 1_000_000_000_000_000;

/// The counters of a flood.
#[derive(Drop)]
struct Counters {
    moment: Moment,
    begun: Arc<Cell<u32>, Global>,
    given: Arc<Cell<u32>, Global>,
    most: Arc<Cell<usize>, Global>,
}

impl Counters {
    fn new(alloc: Global) -> Result<Counters, Fail> {
        Ok(Counters {
            moment: Arc::new(alloc, AtomicU64::new(BEGIN))?,
            begun: Arc::new(alloc, Cell::new(0))?,
            given: Arc::new(alloc, Cell::new(0))?,
            most: Arc::new(alloc, Cell::new(0))?,
        })
    }

    fn came(&self, is_over: bool) -> Came {
        Came {
            begun: self.begun.get(),
            given: self.given.get(),
            most: self.most.get(),
            is_over,
        }
    }
}

/// Returns a clock that shows this moment.
fn late_of(alloc: Global, moment: &Moment) -> Result<Late, Fail> {
    let clock = TestClock {
        moment: Arc::try_clone(moment)?,
    };
    Ok((clock, alloc))
}

/// Returns a server of `Echo`. Each of its calls costs `cost` nanoseconds.
fn costly(alloc: Global, handle: &Handle, of: &Counters, cost: u64) -> Result<CostlyServer, Fail> {
    let method = Costs {
        moment: Arc::try_clone(&of.moment)?,
        cost,
        begun: Arc::try_clone(&of.begun)?,
    };
    let mut service = Service::new(alloc);
    service
        .methods
        .insert(String::from_str(alloc, "Echo")?, method)?;
    let mut services = BTreeMap::new(alloc);
    services.insert(String::from_str(alloc, "demo.Echo")?, service)?;
    Ok(Server::new(late_of(alloc, &of.moment)?, handle)?.register_service(services)?)
}

/// Returns both sides of a connection with a flood as its input.
fn sides(of: &Counters) -> Result<(Flood, Taking), Fail> {
    let reader = Flood {
        given: Arc::try_clone(&of.given)?,
    };
    let writer = Taking {
        most: Arc::try_clone(&of.most)?,
    };
    Ok((reader, writer))
}

/// Polls a connection `polls` times with a flood of calls as its input. Each call costs `cost` nanoseconds, and at most
/// `waiting` calls wait.
fn flood<R: System>(rt: &R, polls: u32, cost: u64, waiting: u64) -> Result<Came, Fail> {
    let mut runtime = LocalRuntime::new(rt)?;
    let of = Counters::new(rt.alloc())?;
    let server = costly(rt.alloc(), runtime.handle(), &of, cost)?;
    let mut server = server.set_waiting_jobs(Some(waiting));
    let (reader, writer) = sides(&of)?;
    let output = HookOutput::of_halves(rt.alloc(), Plain {}, Plain {});
    let polled = Polled {
        connection: server.over(reader, writer, output)?,
        left: polls,
        moment: Arc::try_clone(&of.moment)?,
        step: 0,
    };
    let is_over = runtime.block_on(rt, polled)?;
    Ok(of.came(is_over))
}

/// The number of requests in the largest piece.
const PIECE: u32 = 65_536 / 30;

// Should fail if one poll works at 64 jobs.
#[test]
fn a_poll_works_at_few_jobs(rt: HostRuntime) -> Result<(), Fail> {
    let came = flood(&rt, 1, 0, 4096)?;
    check_named("it works at none, or at many", came.begun == 16)
}

// Should fail if one poll works at 64 jobs.
#[test]
fn a_poll_ends_behind_a_job_that_takes_long(rt: HostRuntime) -> Result<(), Fail> {
    let came = flood(&rt, 1, 1_000_000, 4096)?;
    check_named("it goes on", came.begun == 1)
}

// Should fail if ready answers wait for many others.
#[test]
fn ready_answers_wait_for_few_others(rt: HostRuntime) -> Result<(), Fail> {
    let (fast, slow) = (
        flood(&rt, 1000, 0, 4096)?,
        flood(&rt, 100, 1_000_000, 4096)?,
    );
    let leave_soon = fast.most <= 16 * 15 && slow.most == 15;
    check_named("they wait", leave_soon && fast.begun == 16_000)
}

// Should fail if input has no bound.
#[test]
fn a_connection_of_which_many_jobs_wait_is_not_read(rt: HostRuntime) -> Result<(), Fail> {
    for waiting in [10, 4096] {
        let came = flood(&rt, 300, 1_000_000, waiting)?;
        let most = u32::try_from(waiting).unwrap_or(0) + 3 * PIECE;
        let is_so = came.begun == 300 && came.given.saturating_sub(came.begun) <= most;
        check_named_row("it is read with so many", came.given as usize, is_so)?;
    }
    Ok(())
}

/// Polls such a connection. Meanwhile its server disconnects.
fn tell_in_a_flood<R: System>(rt: &R) -> Result<Came, Fail> {
    let mut runtime = LocalRuntime::new(rt)?;
    let of = Counters::new(rt.alloc())?;
    let mut server = costly(rt.alloc(), runtime.handle(), &of, 1_000_000_000)?;
    let (reader, writer) = sides(&of)?;
    let output = HookOutput::of_halves(rt.alloc(), Plain {}, Plain {});
    let told = Told {
        connection: server.over(reader, writer, output)?,
        end: Some(server.disconnect()?),
        left: 10,
    };
    let polled = Polled {
        connection: told,
        left: 100,
        moment: Arc::try_clone(&of.moment)?,
        step: 0,
    };
    let is_over = runtime.block_on(rt, polled)?;
    Ok(of.came(is_over))
}

// Should fail if no end is looked at while input keeps coming.
#[test]
fn a_server_ends_a_connection_whose_input_keeps_coming(rt: HostRuntime) -> Result<(), Fail> {
    let came = tell_in_a_flood(&rt)?;
    check_named("it goes on", came.is_over && came.begun <= 17)
}

/// A request of a handler that never ends, with a timeout of 20 ms, and one without a timeout.
const LIMITED: &[u8] = b"\
    \0\0\0\x1b\0\0\0\x01\x01\0\x0a\x09demo.Echo\x12\x09NeverEnds\x20\x80\xda\xc4\x09";

const UNLIMITED: &[u8] = b"\0\0\0\x16\0\0\0\x01\x01\0\x0a\x09demo.Echo\x12\x09NeverEnds";

/// The results with a handler that never ends: whether its connection has ended, and the number of handlers that are
/// left.
#[derive(Clone, Copy, Debug, PartialEq, Eq)]
struct Left {
    is_over: bool,
    handlers: usize,
}

/// Returns a server that waits for an hour for its handlers when it ends, and for `half_close` after the end of an
/// input.
fn patient(
    late: &Late,
    handle: &Handle,
    gate: &Arc<Gate, Global>,
    half_close: Option<Duration>,
) -> Result<TestServer<Late>, Fail> {
    Ok(
        make_server(late, handle, gate)?
            .set_connection_limit(Duration::from_secs(3600))
            .set_half_close_limit(half_close),
    )
}

/// Polls a connection `polls` times, with `step` nanoseconds after each poll. Its input is this request, and then the
/// given input.
fn leave<R: System>(
    rt: &R,
    polls: u32,
    step: u64,
    first: (&'static [u8], Behind),
    half_close: Option<Duration>,
) -> Result<Left, Fail> {
    let mut runtime = LocalRuntime::new(rt)?;
    let gate = Arc::new(rt.alloc(), Gate::new(rt.alloc()))?;
    let of = Counters::new(rt.alloc())?;
    let late = late_of(rt.alloc(), &of.moment)?;
    let mut server = patient(&late, runtime.handle(), &gate, half_close)?;
    let at_rest = Arc::strong_count(&gate);
    let (bytes, behind) = first;
    let reader = First::new(bytes, behind, Arc::try_clone(&of.moment)?);
    let writer = Taking {
        most: Arc::try_clone(&of.most)?,
    };
    let output = HookOutput::of_halves(rt.alloc(), Plain {}, Plain {});
    let polled = Polled {
        connection: server.over(reader, writer, output)?,
        left: polls,
        moment: Arc::try_clone(&of.moment)?,
        step,
    };
    let seen = Seen {
        polled,
        gate: Arc::try_clone(&gate)?,
    };
    let at_rest = at_rest.saturating_add(1);
    let (is_over, users) = runtime.block_on(rt, seen)?;
    Ok(Left {
        is_over,
        handlers: users.saturating_sub(at_rest),
    })
}

fn five_seconds() -> Option<Duration> {
    Some(Duration::from_secs(5))
}

/// An expired handler is gone, and the connection goes on.
const GONE: Left = Left {
    is_over: false,
    handlers: 0,
};

/// The handler goes on.
const GOES_ON: Left = Left {
    is_over: false,
    handlers: 1,
};

// Should fail if no job expires while input keeps coming.
#[test]
fn a_job_expires_while_input_keeps_coming(rt: HostRuntime) -> Result<(), Fail> {
    let (early, late) = (
        leave(&rt, 10, 0, (LIMITED, Behind::Strays), None)?,
        leave(&rt, 60, 0, (LIMITED, Behind::Strays), None)?,
    );
    check_named("it isn't told in time", early == GOES_ON && late == GONE)
}

// Should fail if a handler outlives its connection.
#[test]
fn a_handler_goes_with_its_connection(rt: HostRuntime) -> Result<(), Fail> {
    let left = leave(&rt, 50, 0, (UNLIMITED, Behind::Reset), None)?;
    check_named("it stays", left.is_over)
}

// Should fail if a handler may take any time after the end of input.
#[test]
fn a_handler_has_a_limited_time_behind_the_end_of_input(rt: HostRuntime) -> Result<(), Fail> {
    let second = 1_000_000_000;
    let (early, late, unlimited) = (
        leave(&rt, 4, second, (UNLIMITED, Behind::End), five_seconds())?,
        leave(&rt, 20, second, (UNLIMITED, Behind::End), five_seconds())?,
        leave(&rt, 50, second, (UNLIMITED, Behind::End), None)?,
    );
    let is_so = early == GOES_ON && late.is_over && unlimited == GOES_ON;
    check_named("it has another time", is_so)
}

/// The front of a request.
const HALF: &[u8] = b"\0\0\0\x16\0\0";

/// Polls a connection of a server with this limit. Its peer pauses inside a frame.
fn pause<R: System>(rt: &R, limit: Option<Duration>) -> Result<bool, Fail> {
    let mut runtime = LocalRuntime::new(rt)?;
    let of = Counters::new(rt.alloc())?;
    let server = costly(rt.alloc(), runtime.handle(), &of, 0)?;
    let mut server = server.set_frame_limit(limit);
    let reader = First::new(HALF, Behind::Nothing, Arc::try_clone(&of.moment)?);
    let writer = Taking {
        most: Arc::try_clone(&of.most)?,
    };
    let output = HookOutput::of_halves(rt.alloc(), Plain {}, Plain {});
    let polled = Polled {
        connection: server.over(reader, writer, output)?,
        left: 20,
        moment: Arc::try_clone(&of.moment)?,
        step: 1_000_000_000,
    };
    Ok(runtime.block_on(rt, polled)?)
}

#[test]
fn a_pause_inside_a_frame_has_a_limit(rt: HostRuntime) -> Result<(), Fail> {
    let is_so = pause(&rt, five_seconds())? && !pause(&rt, None)?;
    check_named("it has another limit", is_so)
}
