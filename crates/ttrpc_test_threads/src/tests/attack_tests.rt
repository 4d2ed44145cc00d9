//! Hostile peers, and peers that do one thing after the other: no caller is held up by what another one waits for.
use crate::tests::Tested;
use std::alloc::Global;
use std::io::Read;
use std::net::{Shutdown, SocketAddr, TcpListener, TcpStream};
use std::sync::atomic::{AtomicBool, Ordering};
use std::test::Fail;
use std::time::{Clock, Duration, Instant};
use std::{fs, thread};
use ttrpc_bench_threads::handlers::comes;
use ttrpc_bench_threads::peers::{answer, frames_until_the_end, next_id, requests, write_all};
use ttrpc_bench_threads::sites::{
    Machine, PlainClient, Site, a_while, call, check, client, is_told, listening, request, serving,
};
use ttrpc_proto::{Error, Result as Answered};
use ttrpc_sync::{Host, moment};
use ttrpc_sync_server::NoHook;
use ttrpc_transport::{PipeConnection, PipeListener, Stream};

/// Accepts the next connection of a listener.
pub fn accepted(listener: &PipeListener) -> Answered<PipeConnection> {
    match listener.accept() {
        Ok(Some(connection)) => Ok(connection),
        Ok(None) => Err(Error::LocalClosed),
        Err(error) => Err(Error::Nix(error.kind())),
    }
}

/// Answers the first call after a while, and reads no more. It goes away after the caller has returned.
fn answers_one_and_stalls<R: Clock + AllocGlobal>(rt: &R, listener: &PipeListener) -> Answered<()> {
    let connection = accepted(listener)?;
    let asked = next_id(rt.alloc(), &connection)?;
    a_while(rt);
    a_while(rt);
    a_while(rt);
    let mut stream = &connection;
    answer(rt.alloc(), &mut stream, asked, 1)?;
    thread::sleep(rt, Duration::from_millis(700));
    connection.close()
}

/// Makes a call, and returns the time that it took, in nanoseconds.
fn timed<R: Host>(rt: &R, client: &PlainClient<R>) -> Answered<u64> {
    let start = moment(rt)?;
    call(rt, client, "Echo", b"2")?;
    Ok(moment(rt)?.saturating_sub(start))
}

/// Queues four megabytes, after a while. Returns whether that call fails.
fn queues_much<R: Host>(rt: &R, client: &PlainClient<R>) -> Answered<bool> {
    a_while(rt);
    let much = Vec::from_elem(rt.alloc(), 7u8, 4000000)?;
    Ok(call(rt, client, "Echo", much.as_slice()).is_err())
}

/// Queues four megabytes to a peer that answers one call and reads no more. Returns whether the call of four megabytes
/// fails.
fn queues_to_a_stalled_peer<R: Machine>(
    rt: &R,
    client: &PlainClient<R>,
    listener: &PipeListener,
) -> Answered<bool> {
    let (queued, stalled) = thread::join(
        rt,
        || queues_much(rt, client),
        || answers_one_and_stalls(rt, listener),
    );
    stalled?;
    queued
}

/// Returns whether the call of the first client takes less than half a second meanwhile, and that of the second one
/// fails.
fn is_soon_beside<R: Machine>(
    rt: &R,
    first: &PlainClient<R>,
    second: &PlainClient<R>,
    listener: &PipeListener,
) -> Answered<bool> {
    let (passed, queued) = thread::join(
        rt,
        || timed(rt, first),
        || queues_to_a_stalled_peer(rt, second, listener),
    );
    Ok(queued? && passed? < 500000000)
}

/// A caller gets its answer and returns at once while four megabytes of another's call are queued, and the peer reads
/// no more.
#[test]
fn a_caller_returns_with_its_answer(rt: HostRuntime) -> Tested {
    let (listener, address) = listening(&rt)?;
    let first = client(&rt, address.as_str())?;
    let second = first.try_clone()?;
    assert!(rt; is_soon_beside(&rt, &first, &second, &listener)?);
    Ok(())
}

/// The progress of the callers of a client with a peer that reads nothing.
#[derive(Drop)]
struct Stall {
    /// True if the last call of the first caller begins.
    sends: AtomicBool,
    /// True if the call of the second caller was refused.
    is_refused: AtomicBool,
}

/// Makes calls to a peer that reads nothing. `limited` calls have a timeout, which passes, and their requests keep
/// their room. The last call has none.
fn sends_until_it_stalls<R: Host>(
    rt: &R,
    client: &PlainClient<R>,
    limited: u32,
    stall: &Stall,
) -> Answered<()> {
    let much = Vec::from_elem(rt.alloc(), 7u8, 4000000)?;
    for _ in 0..limited {
        let late = client.request(request(rt.alloc(), "Echo", much.as_slice(), 50000000)?);
        is_told(rt, late, "ttrpc err: Request deadline elapsed")?;
    }
    stall.sends.store(true, Ordering::SeqCst);
    let failed = call(rt, client, "Echo", much.as_slice()).is_err();
    check(rt.alloc(), failed, "a stalled call is answered")
}

/// Makes a call with one byte more than a message may have, when the first caller stalls.
fn asks_for_too_much<R: Host>(rt: &R, client: &PlainClient<R>, stall: &Stall) -> Answered<()> {
    let too_much = Vec::from_elem(rt.alloc(), 7u8, 4194283)?;
    comes(rt, || stall.sends.load(Ordering::SeqCst));
    thread::sleep(rt, Duration::from_millis(100));
    is_told(
        rt,
        call(rt, client, "Echo", too_much.as_slice()),
        "ttrpc err: message length 4194305 exceed maximum message size of 4194304",
    )?;
    stall.is_refused.store(true, Ordering::SeqCst);
    Ok(())
}

/// Accepts, and reads nothing. It goes away after the second caller was refused, or if that takes too long, and returns
/// whether it was refused.
fn never_reads<R: Clock>(rt: &R, listener: &PipeListener, stall: &Stall) -> Answered<bool> {
    let connection = accepted(listener)?;
    let is_refused = comes(rt, || stall.is_refused.load(Ordering::SeqCst));
    connection.close()?;
    Ok(is_refused)
}

/// The second caller makes a call that is too long, to a peer that reads nothing. Returns whether it is refused in
/// time.
fn is_refused_at_a_stalled_peer<R: Machine>(
    rt: &R,
    client: &PlainClient<R>,
    listener: &PipeListener,
    stall: &Stall,
) -> Answered<bool> {
    let (asked, is_refused) = thread::join(
        rt,
        || asks_for_too_much(rt, client, stall),
        || never_reads(rt, listener, stall),
    );
    asked?;
    is_refused
}

/// Returns whether it is refused while the first caller stalls, after `limited` calls with a timeout.
fn is_refused_beside<R: Machine>(
    rt: &R,
    clients: (&PlainClient<R>, &PlainClient<R>),
    listener: &PipeListener,
    limited: u32,
) -> Answered<bool> {
    let stall = Stall {
        sends: AtomicBool::new(false),
        is_refused: AtomicBool::new(false),
    };
    let (sent, is_refused) = thread::join(
        rt,
        || sends_until_it_stalls(rt, clients.0, limited, &stall),
        || is_refused_at_a_stalled_peer(rt, clients.1, listener, &stall),
    );
    sent?;
    is_refused
}

/// Does the same over a path. Its socket has room for a part of one call.
fn is_refused_over_a_path<R: Machine + 'static>(rt: &R, limited: u32) -> Answered<bool> {
    let _ = fs::remove_file(rt, "stall.sock");
    let listener = PipeListener::new(rt, rt.alloc(), "unix://stall.sock", true)?;
    let first = client(rt, "unix://stall.sock")?;
    let second = first.try_clone()?;
    is_refused_beside(rt, (&first, &second), &listener, limited)
}

/// Nobody waits for the lock while a caller writes to a peer that reads nothing, or waits for room there: another
/// caller's call that is too long is refused. After two calls of four megabytes there is no room for a third.
// Seen to fail if a writer keeps the lock until the bytes that it was lent are written; a call keeps the lock while it waits for room.
#[test]
fn a_stalled_peer_holds_up_no_refusal(rt: HostRuntime) -> Tested {
    // The borrow check covers a call over sockets only if this function names their types, too.
    let _sockets: Option<(TcpListener, TcpStream)> = None;
    for limited in [0, 2] {
        assert!(rt; is_refused_over_a_path(&rt, limited)?);
    }
    Ok(fs::remove_file(&rt, "stall.sock")?)
}

/// Accepts, reads `count` bytes, and goes away.
fn reads_a_part(listener: &PipeListener, count: usize) -> Answered<()> {
    let connection = accepted(listener)?;
    let mut reader = &connection;
    let mut byte = [0u8];
    for _ in 0..count {
        reader.read(&mut byte)?;
    }
    connection.close()
}

/// Returns whether a call with a frame of 34 bytes fails with a socket's error, and each later one, too.
fn fails_by_the_socket<R: Host>(rt: &R, client: &PlainClient<R>) -> bool {
    for _ in 0..3 {
        if !matches!(call(rt, client, "Echo", b"12345"), Err(Error::Socket(_))) {
            return false;
        }
    }
    true
}

/// Returns whether it does so if the peer goes away after `count` of its bytes.
fn fails_behind<R: Machine>(
    rt: &R,
    client: &PlainClient<R>,
    listener: &PipeListener,
    count: usize,
) -> Answered<bool> {
    let (fails, read) = thread::join(
        rt,
        || fails_by_the_socket(rt, client),
        || reads_a_part(listener, count),
    );
    read?;
    Ok(fails)
}

/// A call fails with a socket's error whatever part of its request the peer reads before it goes away.
#[test]
fn a_peer_may_go_away_inside_a_request(rt: HostRuntime) -> Tested {
    let (listener, address) = listening(&rt)?;
    for count in 0..34 {
        let client = client(&rt, address.as_str())?;
        assert!(rt; fails_behind(&rt, &client, &listener, count)?);
    }
    Ok(())
}

/// The number of calls that are alone, so that only callers read.
const LONE_CALLS: usize = 20;

/// Reads a call, and answers it with one byte.
fn answer_next(alloc: Global, connection: &PipeConnection) -> Answered<()> {
    let asked = next_id(alloc, connection)?;
    let mut stream = connection;
    answer(alloc, &mut stream, asked, 1)
}

/// Reads and answers one call at a time. The first call, which has expired, is answered late, and at length, before the
/// next read.
fn one_after_the_other<R: Clock + AllocGlobal>(rt: &R, listener: &PipeListener) -> Answered<()> {
    let connection = accepted(listener)?;
    let expired = next_id(rt.alloc(), &connection)?;
    for _ in 0..LONE_CALLS {
        answer_next(rt.alloc(), &connection)?;
    }
    thread::sleep(rt, Duration::from_millis(300));
    let mut stream = &connection;
    answer(rt.alloc(), &mut stream, expired, 600000)?;
    answer_next(rt.alloc(), &connection)
}

/// Makes calls that are alone, and then a long call.
fn sends_much<R: Host>(rt: &R, client: &PlainClient<R>) -> Answered<()> {
    for _ in 0..LONE_CALLS {
        call(rt, client, "Echo", b"2")?;
    }
    let much = Vec::from_elem(rt.alloc(), 7u8, 4000000)?;
    call(rt, client, "Echo", much.as_slice())?;
    Ok(())
}

/// Lets a call expire, makes calls that are alone, and then a long call. Returns whether the first call expired.
fn expires_and_sends_much<R: Host>(rt: &R, client: &PlainClient<R>) -> Answered<bool> {
    let late = client.request(request(rt.alloc(), "Echo", b"", 500000000)?);
    sends_much(rt, client)?;
    Ok(matches!(late, Err(Error::Others(_))))
}

/// Returns whether the client does so, while its peer does one thing after the other.
fn both_go_on<R: Machine>(
    rt: &R,
    client: &PlainClient<R>,
    listener: &PipeListener,
) -> Answered<bool> {
    let (called, served) = thread::join(
        rt,
        || expires_and_sends_much(rt, client),
        || one_after_the_other(rt, listener),
    );
    served?;
    called
}

/// A peer with one thread writes before it reads, while the client writes: both go on.
// Seen to fail if the reader thread is woken only after the write of a long frame.
#[test]
fn a_peer_may_write_before_it_reads(rt: HostRuntime) -> Tested {
    let _ = fs::remove_file(&rt, "late.sock");
    let listener = PipeListener::new(&rt, rt.alloc(), "unix://late.sock", true)?;
    let client = client(&rt, "unix://late.sock")?;
    assert!(rt; both_go_on(&rt, &client, &listener)?);
    Ok(fs::remove_file(&rt, "late.sock")?)
}

/// Connects a bare stream to the server at this address.
fn stream<R: Machine>(rt: &R, address: &str) -> Result<TcpStream, Fail> {
    let place = address.strip_prefix("tcp://").ok_or("no scheme")?;
    match place.parse::<SocketAddr>() {
        Ok(place) => Ok(TcpStream::connect(rt, place)?),
        Err(_) => Err("no address".into()),
    }
}

/// Writes all bytes to a bare stream.
fn write_bare(bare: &TcpStream, bytes: &[u8]) -> Tested {
    let connection = PipeConnection::new(Stream::Tcp(bare.try_clone()?));
    Ok(write_all(&connection, bytes)?)
}

/// Connects a bare stream to the server at this address, and writes `count` requests of this method.
fn asking<R: Machine>(rt: &R, address: &str, method: &str, count: u32) -> Result<TcpStream, Fail> {
    let bare = stream(rt, address)?;
    let asked = requests(rt.alloc(), method, count)?;
    write_bare(&bare, asked.as_slice())?;
    Ok(bare)
}

/// The numbers of requests of clients that then close their half, on one connection after the other.
const ASKED: &[u32] = &[
    200, 1, 1, 1, 1, 1, 1, 1, 1, 1, 1, 1, 1, 1, 1, 1, 1, 1, 1, 1, 1, 2, 3, 4, 5,
];

/// Returns whether a client that makes `count` requests and then closes its half gets `count` answers.
fn each_is_answered_once<R: Machine>(rt: &R, address: &str, count: u32) -> Result<bool, Fail> {
    let bare = asking(rt, address, "Echo", count)?;
    bare.shutdown(Shutdown::Write)?;
    let mut reader = &bare;
    Ok(frames_until_the_end(rt.alloc(), &mut reader) == count as usize)
}

/// A client that makes requests and then closes its half gets each answer once.
#[test]
fn a_half_closed_client_is_answered(rt: HostRuntime) -> Tested {
    let site = serving(&rt)?;
    for &count in ASKED {
        assert!(rt; each_is_answered_once(&rt, site.address.as_str(), count)?);
    }
    assert!(rt; comes(&rt, || site.server.connection_count() == 0));
    site.server.shutdown();
    Ok(())
}

/// Returns whether the connection ends within five seconds after the client has closed its half.
fn ends_with_its_client<R: Machine>(
    rt: &R,
    site: &Site<R, NoHook>,
    bare: &TcpStream,
) -> Result<bool, Fail> {
    let start = Instant::now(rt)?;
    bare.shutdown(Shutdown::Write)?;
    let has_ended = comes(rt, || site.server.connection_count() == 0);
    Ok(has_ended && start.elapsed(rt)? < Duration::from_secs(5))
}

/// Returns whether a handler waits for the end of its connection, sees it, and the connection ends.
fn sees_the_end<R: Machine>(
    rt: &R,
    site: &Site<R, NoHook>,
    bare: &TcpStream,
) -> Result<bool, Fail> {
    Ok(
        comes(rt, || site.board.waiting.load(Ordering::SeqCst) == 1)
            && ends_with_its_client(rt, site, bare)?
            && site.board.cancelled.load(Ordering::SeqCst) == 1,
    )
}

/// A handler that ends only after its connection has ended sees that as soon as the client closes its half.
// Seen to fail if `cancelled` is never set.
#[test]
fn a_handler_sees_the_end_of_its_client(rt: HostRuntime) -> Tested {
    let site = serving(&rt)?;
    let bare = asking(&rt, site.address.as_str(), "Waits", 1)?;
    assert!(rt; sees_the_end(&rt, &site, &bare)?);
    site.server.shutdown();
    Ok(())
}
