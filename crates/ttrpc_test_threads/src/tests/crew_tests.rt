//! The threads of a connection: their number, the jobs that they take, and the server's settings for them.
use crate::tests::Tested;
use std::alloc::Global;
use std::io::ErrorKind;
use std::net::TcpListener;
use std::rt::Files;
use std::sync::atomic::{AtomicBool, AtomicU64, Ordering};
use std::sync::{Arc, Wait};
use std::test::Fail;
use std::time::{Clock, Duration, Instant};
use std::{fs, thread};
use ttrpc_bench_threads::fakes::Failing;
use ttrpc_bench_threads::handlers::{Board, comes};
use ttrpc_bench_threads::peers::{next_id, read_frame, requests, write_all};
use ttrpc_bench_threads::sites::{
    Machine, PlainClient, Site, a_while, answered_client, answers, answers_often, client,
    connection, hooked_at_once, serving, serving_one, started, unbound,
};
use ttrpc_proto::Result as Answered;
use ttrpc_secure::{AcceptHook, HookError, HookOutput, Plain};
use ttrpc_sync::{ConnectionLock, Host, moment};
use ttrpc_sync_server::accept::{StopSignal, next_connection};
use ttrpc_sync_server::{NoHook, NoWatch};
use ttrpc_transport::{PipeConnection, PipeListener};
use ttrpc_wire::values::slices::behind;

/// Returns the number of threads of this process.
fn threads<R: Files + Host>(rt: &R) -> Option<usize> {
    let mut count: usize = 0;
    for _ in fs::read_dir(rt, "/proc/self/task").ok()? {
        count = count.saturating_add(1);
    }
    Some(count)
}

/// Waits until there are `more` more threads than before. Returns whether that happened in time.
fn has_more_threads<R: Machine>(rt: &R, before: usize, more: usize) -> bool {
    let count = before.saturating_add(more);
    comes(rt, || threads(rt) == Some(count))
}

/// Makes a call that waits at the gate.
fn gated<R: Host>(rt: &R, client: &PlainClient<R>) -> Answered<()> {
    answers(rt, client, "Gate", b"", b"open")
}

/// Opens the gate when `count` handlers wait at it. Returns whether they came in time.
pub fn opens_behind<C: Clock>(rt: &C, board: &Board, count: u64) -> bool {
    let came = comes(rt, || board.gated.load(Ordering::SeqCst) == count);
    board.is_open.store(true, Ordering::SeqCst);
    came
}

/// Four slow calls of one connection run at the same time, though it begins with three workers.
// Seen to fail if no worker is started again. Should fail if a handler that leaves a gate isn't counted out.
#[test]
fn more_workers_are_started(rt: HostRuntime) -> Tested {
    let (site, client) = serving_one(&rt)?;
    let (two, (other, came)) = thread::join(
        &rt,
        || thread::join(&rt, || gated(&rt, &client), || gated(&rt, &client)),
        || {
            thread::join(
                &rt,
                || thread::join(&rt, || gated(&rt, &client), || gated(&rt, &client)),
                || opens_behind(&rt, &*site.board, 4),
            )
        },
    );
    assert!(rt; came);
    two.0?;
    two.1?;
    other.0?;
    other.1?;
    site.server.shutdown();
    Ok(())
}

/// Returns the bytes of a request of `Gate` with the id 1, and of one of `Echo` with the id 3.
fn gate_and_echo(alloc: Global) -> Answered<Vec<u8>> {
    let mut asked = requests(alloc, "Gate", 1)?;
    let both = requests(alloc, "Echo", 2)?;
    asked.extend_from_slice(behind(both.as_slice(), both.len() / 2))?;
    Ok(asked)
}

/// Opens a bare connection, and after a while writes both requests in one piece.
fn asking_both<R: Machine>(rt: &R, address: &str) -> Answered<PipeConnection> {
    let bare = connection(rt, address)?;
    let asked = gate_and_echo(rt.alloc())?;
    a_while(rt);
    write_all(&bare, asked.as_slice())?;
    Ok(bare)
}

/// Returns the ids of the frame that comes before the gate is opened, and of the one after it.
fn ids_around_the_gate(
    alloc: Global,
    bare: &PipeConnection,
    board: &Board,
) -> Answered<(u32, u32)> {
    let first = next_id(alloc, bare)?;
    board.is_open.store(true, Ordering::SeqCst);
    Ok((first, next_id(alloc, bare)?))
}

/// Two requests come in one piece. The second is answered while the first one's handler waits.
// Seen to fail if a worker that takes a job wakes no other; a reader that waits for its turn never looks, or wakes no worker as it takes
// the turn.
#[test]
fn each_job_of_a_piece_has_a_worker(rt: HostRuntime) -> Tested {
    let site = serving(&rt)?;
    let bare = asking_both(&rt, site.address.as_str())?;
    let ids = ids_around_the_gate(rt.alloc(), &bare, &*site.board)?;
    assert!(rt; ids == (3, 1));
    site.server.shutdown();
    Ok(())
}

/// The number of jobs that may wait, and whether two requests come in one piece.
const PAIRS: &[(Option<u64>, bool)] = &[
    (Some(4096), false),
    (Some(4096), true),
    (Some(0), false),
    (Some(0), true),
    (None, true),
];

/// Starts a server with these limits for the waiting jobs and bytes of a connection.
fn limited<R: Machine + 'static>(
    rt: &R,
    jobs: Option<u64>,
    bytes: Option<u64>,
) -> Answered<Site<R, NoHook>> {
    let board = Arc::new(rt.alloc(), Board::new(rt.alloc()))?;
    let server = unbound(rt, &board)?
        .set_waiting_jobs(jobs)
        .set_waiting_bytes(bytes)
        .bind("tcp://127.0.0.1:0", true)?;
    started(rt, server, board)
}

/// Writes a request with a handler that waits at the gate, and one with a handler that opens it, in one piece or with a
/// while between.
fn ask_for_both(
    alloc: Global,
    clock: &impl Clock,
    bare: &PipeConnection,
    at_once: bool,
) -> Answered<()> {
    let gate = requests(alloc, "Gate", 1)?;
    let opens = requests(alloc, "Opens", 1)?;
    if at_once {
        let mut both = gate;
        both.extend_from_slice(opens.as_slice())?;
        return write_all(bare, both.as_slice());
    }
    write_all(bare, gate.as_slice())?;
    a_while(clock);
    write_all(bare, opens.as_slice())
}

/// Returns whether the next two answers came, and one of them is that the gate was opened.
fn gate_was_opened(alloc: Global, bare: &PipeConnection) -> Answered<bool> {
    let mut reader = bare;
    let first = read_frame(alloc, &mut reader)?;
    let second = read_frame(alloc, &mut reader)?;
    Ok(is_open(first.payload.as_slice()) || is_open(second.payload.as_slice()))
}

/// Returns whether an answer ends with `open`.
fn is_open(payload: &[u8]) -> bool {
    payload.ends_with(b"open")
}

/// A handler that blocks until a later request of its connection was handled is answered, and so is that request. It
/// doesn't matter how they come, and how few jobs may wait.
#[test]
fn a_handler_may_wait_for_a_later_call(rt: HostRuntime) -> Tested {
    for &(jobs, at_once) in PAIRS {
        let site = limited(&rt, jobs, None)?;
        let bare = connection(&rt, site.address.as_str())?;
        ask_for_both(rt.alloc(), &rt, &bare, at_once)?;
        assert!(rt; gate_was_opened(rt.alloc(), &bare)?);
        site.server.shutdown();
    }
    Ok(())
}

/// The number of jobs and bytes that may wait while a client makes calls without pause.
const LIMITS: &[(Option<u64>, Option<u64>)] = &[
    (Some(0), None),
    (Some(10), None),
    (None, Some(1000)),
    (Some(4096), Some(8388608)),
];

/// Writes `count` requests.
fn asks_without_pause(alloc: Global, bare: &PipeConnection, count: u32) -> Answered<()> {
    let asked = requests(alloc, "Opens", count)?;
    write_all(bare, asked.as_slice())
}

/// Returns whether `count` calls without pause are all answered.
fn all_are_answered<R: Machine>(rt: &R, address: &str, count: u32) -> Answered<bool> {
    let bare = connection(rt, address)?;
    let (asked, answered) = thread::join(
        rt,
        || asks_without_pause(rt.alloc(), &bare, count),
        || frames_until(rt.alloc(), &bare, count),
    );
    asked?;
    Ok(answered == count)
}

/// Counts the frames that come, up to this count.
pub fn frames_until(alloc: Global, bare: &PipeConnection, count: u32) -> u32 {
    let mut reader = bare;
    let mut came: u32 = 0;
    for _ in 0..count {
        if read_frame(alloc, &mut reader).is_err() {
            break;
        }
        came = came.saturating_add(1);
    }
    came
}

/// A client that makes calls without pause gets each answer, however few jobs may wait.
#[test]
fn calls_without_pause_are_answered(rt: HostRuntime) -> Tested {
    for &(jobs, bytes) in LIMITS {
        let site = limited(&rt, jobs, bytes)?;
        assert!(rt; all_are_answered(&rt, site.address.as_str(), 5000)?);
        site.server.shutdown();
    }
    Ok(())
}

/// The time for which a bare client makes calls, in nanoseconds. After it a reader that waits for its turn looks as
/// rarely as it ever does.
const BUSY: u64 = 400000000;

/// Opens a bare connection, and makes calls on it for that time, one after the other.
fn busy<R: Machine>(rt: &R, address: &str) -> Answered<PipeConnection> {
    let bare = connection(rt, address)?;
    let asked = requests(rt.alloc(), "Echo", 1)?;
    let start = moment(rt)?;
    for _ in 0..1000000 {
        if moment(rt)?.saturating_sub(start) > BUSY {
            break;
        }
        write_all(&bare, asked.as_slice())?;
        next_id(rt.alloc(), &bare)?;
    }
    Ok(bare)
}

/// Returns whether the second of two calls that come in one piece is answered first, within 0.2 seconds, while the
/// first one's handler waits.
fn second_is_soon<R: Machine>(rt: &R, bare: &PipeConnection) -> Answered<bool> {
    let asked = gate_and_echo(rt.alloc())?;
    let start = moment(rt)?;
    write_all(bare, asked.as_slice())?;
    let first = next_id(rt.alloc(), bare)?;
    Ok(first == 3 && moment(rt)?.saturating_sub(start) < 200000000)
}

/// A job waits for another's handler for some milliseconds at most, even on a connection that was busy until then.
// Seen to fail if a reader that waits for its turn looks only after 1.6 seconds.
#[test]
fn a_job_waits_a_moment_behind_another(rt: HostRuntime) -> Tested {
    let site = serving(&rt)?;
    let bare = busy(&rt, site.address.as_str())?;
    assert!(rt; second_is_soon(&rt, &bare)?);
    site.board.is_open.store(true, Ordering::SeqCst);
    site.server.shutdown();
    Ok(())
}

/// A client that is dropped at rest leaves no threads.
// Seen to fail if a client at rest is dropped without `abandon`.
#[test]
fn a_client_at_rest_leaves_no_threads(rt: HostRuntime) -> Tested {
    let site = serving(&rt)?;
    let before = threads(&rt).ok_or("no threads")?;
    let client = client(&rt, site.address.as_str())?;
    answers_often(&rt, &client, 20)?;
    drop(client);
    assert!(rt; has_more_threads(&rt, before, 0));
    site.server.shutdown();
    Ok(())
}

/// Starts a server with these counts of workers for a connection: default, least and greatest.
fn crowded<R: Machine + 'static>(
    rt: &R,
    counts: (usize, usize, usize),
) -> Answered<Site<R, NoHook>> {
    let board = Arc::new(rt.alloc(), Board::new(rt.alloc()))?;
    let server = unbound(rt, &board)?
        .set_thread_count_default(counts.0)
        .set_thread_count_min(counts.1)
        .set_thread_count_max(counts.2)
        .bind("tcp://127.0.0.1:0", true)?;
    started(rt, server, board)
}

/// Does the same, and opens one connection.
fn crowd<R: Machine + 'static>(
    rt: &R,
    counts: (usize, usize, usize),
) -> Answered<(Site<R, NoHook>, PipeConnection)> {
    let site = crowded(rt, counts)?;
    let bare = connection(rt, site.address.as_str())?;
    Ok((site, bare))
}

/// Returns whether there are eleven more threads, even after a while, and one more after the connection is closed.
fn has_a_crew<R: Machine>(rt: &R, before: usize, bare: PipeConnection) -> Answered<bool> {
    let at_first = has_more_threads(rt, before, 11);
    a_while(rt);
    a_while(rt);
    let later = has_more_threads(rt, before, 11);
    bare.close()?;
    Ok(at_first && later && has_more_threads(rt, before, 1))
}

/// Besides its workers a connection has a thread that keeps it, two that read and one that writes. The server has one
/// that accepts.
// Should fail if a connection begins with another count of workers.
#[test]
fn a_connection_begins_with_its_workers(rt: HostRuntime) -> Tested {
    let before = threads(&rt).ok_or("no threads")?;
    let (site, bare) = crowd(&rt, (6, 2, 9))?;
    assert!(rt; has_a_crew(&rt, before, bare)?);
    site.server.shutdown();
    Ok(())
}

/// Returns a listener at a free port that never waits.
fn hasty_listener<R: Machine>(rt: &R) -> Result<PipeListener, Fail> {
    let listener = TcpListener::bind(rt, "127.0.0.1:0")?;
    listener.set_nonblocking(true)?;
    Ok(PipeListener::from_tcp(listener)?)
}

/// Starts a server that looks at such a listener every five milliseconds.
fn hasty<R: Machine + 'static>(rt: &R) -> Result<Site<R, NoHook>, Fail> {
    let board = Arc::new(rt.alloc(), Board::new(rt.alloc()))?;
    let server = unbound(rt, &board)?
        .set_accept_retry_interval(Duration::from_millis(5))
        .add_listener(hasty_listener(rt)?)?;
    Ok(started(rt, server, board)?)
}

/// Returns whether a client of the server at this address is answered within five seconds.
fn is_soon_answered<R: Machine + 'static>(rt: &R, address: &str) -> Result<bool, Fail> {
    let start = Instant::now(rt)?;
    let _client = answered_client(rt, address)?;
    Ok(start.elapsed(rt)? < Duration::from_secs(5))
}

/// If the system has no connection to accept, the server looks again after its own interval, and not only after 10
/// seconds.
// Seen to fail if the interval to accept again is an hour.
#[test]
fn the_interval_of_a_server_is_its_own(rt: HostRuntime) -> Tested {
    let site = hasty(&rt)?;
    a_while(&rt);
    assert!(rt; is_soon_answered(&rt, site.address.as_str())?);
    site.server.shutdown();
    Ok(())
}

/// A hook that keeps whether the last connection's writes go out at once.
#[derive(Drop)]
struct SeesNodelay {
    nodelay: Arc<AtomicBool, Global>,
}

impl AcceptHook<PipeConnection> for SeesNodelay {
    type Outbound = Plain;

    type Inbound = Plain;

    fn on_accept(
        &self,
        alloc: Global,
        stream: &PipeConnection,
    ) -> Result<HookOutput<Plain, Plain>, HookError> {
        let nodelay = matches!(stream.nodelay(), Ok(true));
        self.nodelay.store(nodelay, Ordering::SeqCst);
        Ok(HookOutput::of_halves(alloc, Plain {}, Plain {}))
    }
}

/// Starts a server with this setting and with a hook that keeps the setting of its connections. Returns the place where
/// the hook keeps it, too.
fn seeing<R: Machine + 'static>(
    rt: &R,
    nodelay: bool,
) -> Answered<(Site<R, SeesNodelay>, Arc<AtomicBool, Global>)> {
    let seen = Arc::new(rt.alloc(), AtomicBool::new(!nodelay))?;
    let hook = SeesNodelay {
        nodelay: Arc::try_clone(&seen)?,
    };
    let site = hooked_at_once(rt, hook, nodelay)?;
    Ok((site, seen))
}

/// Each connection's writes go out at once if the server was bound so, and not otherwise.
// Seen to fail if a server's connections have TCP's delay, whatever its setting.
#[test]
fn nodelay_is_handed_on(rt: HostRuntime) -> Tested {
    for nodelay in [true, false] {
        let (site, seen) = seeing(&rt, nodelay)?;
        let _client = answered_client(&rt, site.address.as_str())?;
        assert!(rt; seen.load(Ordering::SeqCst) == nodelay);
        site.server.shutdown();
    }
    Ok(())
}

/// Reports that a connection of the server has ended, after a while.
fn ends_later<X: Wait + Clock>(rt: &X, stop: &StopSignal) {
    a_while(rt);
    stop.note_end(rt);
}

/// A server that waits to accept again looks as soon as one of its connections has ended.
// Seen to fail if the end of a connection isn't counted.
#[test]
fn an_end_lets_a_server_accept_again(rt: HostRuntime) -> Tested {
    let failing = Failing {
        kind: ErrorKind::Other,
        left: AtomicU64::new(1),
    };
    let stop = StopSignal::new();
    let start = Instant::now(&rt)?;
    let (accepted, _) = thread::join(
        &rt,
        || next_connection(&rt, &failing, &stop, &NoWatch {}, Duration::from_secs(3600)),
        || ends_later(&rt, &stop),
    );
    let passed = start.elapsed(&rt)?;
    assert!(rt; accepted.is_none() && passed < Duration::from_secs(5));
    Ok(())
}
