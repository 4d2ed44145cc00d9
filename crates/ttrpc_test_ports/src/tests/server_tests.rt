//! A server's ports in one thread.
ghost use Rattle.std.specs.Prelude.{⊤};

use crate::tests::ends::{
    Server, Tested, echo, is_socket, limited_server, server, server_failure, written,
};
use std::alloc::Global;
use std::io::{self, ErrorKind};
use std::sync::{Arc, Wait};
use std::test::Fail;
use ttrpc_proto::Error;
use ttrpc_secure::plain_context;
use ttrpc_server::{Job, Rules, ServerCore};
use ttrpc_sync::{
    ConnectionLock, Gate, Handler, LockedState, Next, PoolCore, ReadPort, read_loop, work_loop,
};
use ttrpc_sync_server::{AtTurn, Backlog, ServerHeld, ServerJobs, ServerRead, ServerReadTurn};
use ttrpc_test_cores::server::{ASKED, ECHOED, NO_METHOD, NO_METHOD_ANSWER, registry};
use ttrpc_wire::values::slices::front;

/// A handler that responds with the payload 2a, or fails.
#[derive(Drop)]
pub struct Echo<X: Wait + Drop> {
    rt: X,
    alloc: Global,
    server: Server,
    fails: bool,
}

impl<X: Wait + Drop> Handler for Echo<X> {
    type Request = Job;

    type Outcome = Result<(), Error>;

    ghost gives = { λ _ _ _. ⊤ };

    fn handle(&self, job: Job) -> Result<(), Error> {
        if self.fails {
            return Err(Error::Eof);
        }
        let response = echo(self.alloc)?;
        self.server
            .held()
            .lock(&self.rt)
            .core
            .respond(self.alloc, job.header.stream_id, &response)
    }
}

/// A gate that lets a worker in once.
#[derive(Drop)]
struct Once {
    was_entered: bool,
    is_shut: bool,
}

impl Gate for Once {
    ghost is_shut = { λ g. g.is_shut };

    fn enter(&mut self) -> bool {
        self.is_shut = self.was_entered;
        self.was_entered = true;
        !self.is_shut
    }

    fn leave(&mut self) {}
}

/// Feeds these bytes to the server.
pub fn feed<X: Wait>(rt: &X, alloc: Global, server: &Server, bytes: &[u8]) -> Option<usize> {
    let mut port = ServerRead::new(rt, alloc, &**server);
    port.begin();
    if bytes.is_empty() {
        return None;
    }
    port.take(bytes)
}

/// Lets a worker handle one job.
fn work<X: Wait + Copy + Drop>(rt: X, alloc: Global, server: &Server, fails: bool) -> Tested {
    let mut port = ServerJobs::new(&rt, alloc, &**server);
    let handler = Echo {
        rt,
        alloc,
        server: Arc::try_clone(server)?,
        fails,
    };
    let mut gate = Once {
        was_entered: false,
        is_shut: false,
    };
    work_loop(&rt, &mut port, &handler, &mut gate);
    Ok(())
}

/// A job goes to a handler, which responds, and the job ends.
#[test]
fn a_job_is_handled(rt: HostRuntime) -> Tested {
    let shared = server(rt.alloc())?;
    let count = feed(&rt, rt.alloc(), &shared, ASKED);
    work(rt, rt.alloc(), &shared, false)?;
    let taken = shared.held().lock(&rt).core.jobs_taken();
    let bytes = written(&rt, rt.alloc(), &*shared);
    assert!(rt; count == Some(30) && taken == 0 && bytes.as_slice() == ECHOED);
    Ok(())
}

/// A handler that fails fails the connection, and then no job is handed out.
#[test]
fn a_failed_handler_fails_the_server(rt: HostRuntime) -> Tested {
    let shared = server(rt.alloc())?;
    feed(&rt, rt.alloc(), &shared, ASKED);
    work(rt, rt.alloc(), &shared, true)?;
    let failure = server_failure(&rt, rt.alloc(), &shared);
    work(rt, rt.alloc(), &shared, false)?;
    let is_told = is_socket(&failure, "connection closed after a handler error");
    assert!(rt; is_told && written(&rt, rt.alloc(), &*shared).is_empty());
    Ok(())
}

/// Returns whether a reader of one request handles it itself, while the other reader waits for the turn or doesn't.
fn keeps<X: Wait>(rt: &X, alloc: Global, waits: bool) -> Result<bool, Fail> {
    let shared = server(alloc)?;
    shared.held().lock(rt).read_turn.wants(0, None);
    if waits {
        shared.held().lock(rt).read_turn.wants(1, None);
    }
    let mut port = ServerRead::new(rt, alloc, &*shared);
    port.begin();
    port.take(ASKED);
    Ok(!port.has_turn())
}

/// A reader handles a job itself only while the other reader waits for the turn.
#[test]
fn a_reader_keeps_a_job_beside_one_that_waits(rt: HostRuntime) -> Tested {
    assert!(rt; keeps(&rt, rt.alloc(), true)? && !keeps(&rt, rt.alloc(), false)?);
    Ok(())
}

/// Returns whether the second reader sleeps while the first has the turn, and is woken for the first round of jobs. It
/// must look again while rounds begin, and sleep again when none has begun.
fn looks_while_rounds_begin(read_turn: &mut ServerReadTurn) -> bool {
    read_turn.wants(0, None) == AtTurn::Reads
        && read_turn.wants(1, None) == AtTurn::Sleeps
        && read_turn.begin_round()
        && read_turn.wants(1, None) == AtTurn::LooksAgain(1)
        && !read_turn.begin_round()
        && read_turn.wants(1, Some(1)) == AtTurn::LooksAgain(2)
        && read_turn.wants(0, None) == AtTurn::Reads
        && read_turn.wants(1, Some(1)) == AtTurn::LooksAgain(2)
        && read_turn.wants(1, Some(2)) == AtTurn::Sleeps
}

/// Returns whether the second reader takes the turn from the first, which handles jobs of the round that the second
/// saw.
fn takes_the_turn(read_turn: &mut ServerReadTurn) -> bool {
    read_turn.begin_round()
        && read_turn.wants(1, None) == AtTurn::LooksAgain(3)
        && read_turn.wants(1, Some(3)) == AtTurn::Reads
        && !read_turn.has_turn(0)
        && read_turn.wants(0, None) == AtTurn::Sleeps
        && read_turn.wants(1, None) == AtTurn::Reads
}

/// A reader takes the turn from one that still handles jobs of the round that it saw.
#[test]
fn a_reader_takes_the_turn_from_one_that_handles_jobs(rt: HostRuntime) -> Tested {
    let mut read_turn = ServerReadTurn::new();
    assert!(rt; looks_while_rounds_begin(&mut read_turn) && takes_the_turn(&mut read_turn));
    Ok(())
}

/// The number of jobs and bytes that may wait, the number of requests of thirty bytes that come, each as a piece, and
/// whether the reader of the last one reads on.
const BACKLOGS: &[(Option<u64>, Option<u64>, u32, bool)] = &[
    (Some(2), None, 2, true),
    (Some(2), None, 3, false),
    (Some(0), None, 1, false),
    (None, Some(60), 2, true),
    (None, Some(60), 3, false),
    (Some(3), Some(59), 2, false),
    (None, None, 100, true),
];

/// Returns whether the reader of the last of these requests reads on.
fn reads_on<X: Wait>(rt: &X, alloc: Global, server: &Server, requests: u32) -> bool {
    let mut port = ServerRead::new(rt, alloc, &**server);
    for _ in 0..requests {
        port.begin();
        port.take(ASKED);
    }
    port.has_turn()
}

/// A reader reads on until more jobs or bytes wait than may.
#[test]
fn a_reader_stops_where_too_much_waits(rt: HostRuntime) -> Tested {
    for &(max_jobs, max_bytes, requests, expected) in BACKLOGS {
        let shared = limited_server(rt.alloc(), max_jobs, max_bytes)?;
        assert!(rt; reads_on(&rt, rt.alloc(), &shared, requests) == expected);
    }
    Ok(())
}

/// Returns `count` requests, one after the other.
fn many_requests(alloc: Global, count: u32) -> Result<Vec<u8>, Fail> {
    let mut bytes = Vec::new(alloc);
    for _ in 0..count {
        bytes.extend_from_slice(ASKED)?;
    }
    Ok(bytes)
}

/// No more of an endless input is read than may wait, except for the rest of a piece.
#[test]
fn an_input_waits_where_too_much_does(rt: HostRuntime) -> Tested {
    let shared = limited_server(rt.alloc(), Some(1000), None)?;
    let input = many_requests(rt.alloc(), 3000)?;
    read_all(&rt, rt.alloc(), &shared, input.as_slice());
    let waiting = shared.held().lock(&rt).core.jobs_waiting();
    assert!(rt; waiting > 1000 && waiting <= 1137);
    Ok(())
}

/// An answer that the core gives itself is written.
#[test]
fn an_unknown_method_is_answered(rt: HostRuntime) -> Tested {
    let shared = server(rt.alloc())?;
    feed(&rt, rt.alloc(), &shared, NO_METHOD);
    let bytes = written(&rt, rt.alloc(), &*shared);
    assert!(rt; bytes.as_slice() == NO_METHOD_ANSWER);
    Ok(())
}

/// Reads these bytes at the server, and then the end of its input.
fn read_all<X: Wait>(rt: &X, alloc: Global, server: &Server, bytes: &[u8]) {
    let mut port = ServerRead::new(rt, alloc, &**server);
    let mut reader = bytes;
    read_loop(rt, &mut reader, &mut port);
}

/// Returns whether nothing is left to be written, and the connection has failed with a socket's error with this text.
fn is_over<X: Wait>(rt: &X, alloc: Global, server: &Server, text: &str) -> bool {
    let next = server.held().lock(rt).next(false);
    next == Next::Leaves && is_socket(&server_failure(rt, alloc, server), text)
}

/// Returns whether the connection fails with this text at the end of `length` bytes of input, and not before all is
/// written.
fn ends_behind<X: Wait>(rt: &X, alloc: Global, length: usize, text: &str) -> Result<bool, Fail> {
    let shared = server(alloc)?;
    read_all(rt, alloc, &shared, front(NO_METHOD, length));
    let lives = server_failure(rt, alloc, &shared).is_none();
    let _ = written(rt, alloc, &*shared);
    Ok(lives && is_over(rt, alloc, &shared, text))
}

/// At the end of its input the connection fails, between two frames and inside one, after all is written.
#[test]
fn a_reader_ends(rt: HostRuntime) -> Tested {
    for (length, text) in [
        (27, "socket disconnected"),
        (26, "socket disconnected inside a frame"),
    ] {
        assert!(rt; ends_behind(&rt, rt.alloc(), length, text)?);
    }
    Ok(())
}

/// Returns whether the answer is written by the thread that takes the turn, while the writer thread sleeps.
fn is_answered<X: Wait>(rt: &X, alloc: Global, server: &Server) -> bool {
    let took = server.held().lock(rt).turn.take();
    let next = server.held().lock(rt).next(false);
    took && next == Next::Sleeps && written(rt, alloc, &**server).as_slice() == ECHOED
}

/// A job that was read before the input ended is handled, and its answer is written, before the connection fails.
#[test]
fn an_end_of_input_waits_for_jobs(rt: HostRuntime) -> Tested {
    let shared = server(rt.alloc())?;
    read_all(&rt, rt.alloc(), &shared, ASKED);
    let next = shared.held().lock(&rt).next(false);
    work(rt, rt.alloc(), &shared, false)?;
    let lives = server_failure(&rt, rt.alloc(), &shared).is_none();
    let is_answered = is_answered(&rt, rt.alloc(), &shared);
    let is_over = is_over(&rt, rt.alloc(), &shared, "socket disconnected");
    assert!(rt; next == Next::Sleeps && lives && is_answered && is_over);
    Ok(())
}

/// Workers that were started and haven't entered are not started again.
#[test]
fn workers_are_started_once(rt: HostRuntime) -> Tested {
    let registry = registry(rt.alloc())?;
    let core = ServerCore::new(rt.alloc(), Rules::Sync, registry, plain_context(rt.alloc()))?;
    let mut held = ServerHeld::new(core, PoolCore::new(3, 1, 5), Backlog::new(None, None));
    let at_first = held.to_start();
    held.add_starting(3);
    let then = held.to_start();
    let passes = held.enter(true) && held.leave();
    assert!(rt; (at_first, then, passes, held.to_start()) == (3, 0, true, 1));
    Ok(())
}

#[test]
fn a_broken_reader_fails_the_server(rt: HostRuntime) -> Tested {
    let shared = server(rt.alloc())?;
    let mut port = ServerRead::new(&rt, rt.alloc(), &*shared);
    port.begin();
    port.broke(io::Error::from(ErrorKind::ConnectionReset));
    let failure = server_failure(&rt, rt.alloc(), &shared);
    assert!(rt; is_socket(&failure, "connection reset"));
    Ok(())
}
