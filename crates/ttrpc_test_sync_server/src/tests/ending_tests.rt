//! Connections that end, or stall, and their effect on others.
use crate::tests::Tested;
use std::alloc::Global;
use std::sync::Arc;
use std::sync::atomic::{AtomicBool, Ordering};
use std::test::Fail;
use std::time::{Duration, Instant};
use std::{fs, thread};
use ttrpc_bench_threads::handlers::comes;
use ttrpc_bench_threads::peers::{frames_until_the_end, requests, requests_with, write_all};
use ttrpc_bench_threads::sites::{
    Machine, PlainClient, Site, a_while, address_in, answered_client, answers, answers_often, call,
    check, client, connection, is_told, listening, new_board, serving, serving_one, started,
    unbound,
};
use ttrpc_proto::{Response, Result as Answered};
use ttrpc_sync::Host;
use ttrpc_sync_server::NoHook;
use ttrpc_transport::{PipeConnection, PipeListener};
use ttrpc_wire::values::slices::front;

/// A request of `Echo` of `demo.Echo` with the id 1 and the payload `2a`.
const ASKED: &[u8] = b"\0\0\0\x14\0\0\0\x01\x01\0\x0a\x09demo.Echo\x12\x04Echo\x1a\x01\x2a";

/// A response with the id 1, without its last byte.
const CUT_ANSWER: &[u8] = b"\0\0\0\x05\0\0\0\x01\x02\0\x0a\0\x12\x01";

/// Waits until the server has `count` connections.
fn has_connections<R: Machine>(rt: &R, site: &Site<R, NoHook>, count: usize) -> Answered<()> {
    let came = comes(rt, || site.server.connection_count() == count);
    check(rt.alloc(), came, "another count of connections")
}

/// Returns a request of `Echo` with a megabyte.
fn much(alloc: Global) -> Answered<Vec<u8>> {
    let mut request = Vec::from_slice(alloc, b"\0\x10\0\x15\0\0\0\x01\x01\0")?;
    request.extend_from_slice(b"\x0a\x09demo.Echo\x12\x04Echo\x1a\x80\x80\x40")?;
    request.resize(1048607, 7)?;
    Ok(request)
}

/// Writes sixteen such requests, unless the connection is closed before.
fn asks_much(alloc: Global, connection: &PipeConnection) {
    let Ok(request) = much(alloc) else {
        return;
    };
    for _ in 0..16 {
        if write_all(connection, request.as_slice()).is_err() {
            return;
        }
    }
}

/// Connects a client to a server that has another connection, and makes a hundred calls that are answered.
fn served_beside<R: Machine + 'static>(rt: &R, site: &Site<R, NoHook>) -> Answered<PlainClient<R>> {
    let client = client(rt, site.address.as_str())?;
    answers_often(rt, &client, 100)?;
    has_connections(rt, site, 2)?;
    Ok(client)
}

/// A peer that reads no answers keeps no other connection from being served, and its connection ends when it is closed.
#[test]
fn a_stalled_peer_is_alone_with_that(rt: HostRuntime) -> Tested {
    let site = serving(&rt)?;
    let alloc = rt.alloc();
    let stalled = Arc::new(alloc, connection(&rt, site.address.as_str())?)?;
    let asking = Arc::try_clone(&stalled)?;
    let thread = thread::Builder::new().spawn(&rt, move || asks_much(alloc, &asking))?;
    let _client = served_beside(&rt, &site)?;
    stalled.close()?;
    thread.join(&rt);
    has_connections(&rt, &site, 1)?;
    site.server.shutdown();
    Ok(())
}

/// Returns whether the `wait` of a server returns after the stop of another thread, and not before.
fn waits_for_its_stop<R: Machine>(rt: &R, site: &Site<R, NoHook>) -> Result<bool, Fail> {
    let stopper = site.server.stopper()?;
    let has_waited = AtomicBool::new(false);
    let (early, ()) = thread::join(
        rt,
        || {
            a_while(rt);
            let early = has_waited.load(Ordering::SeqCst);
            stopper.stop();
            early
        },
        || {
            site.server.wait();
            has_waited.store(true, Ordering::SeqCst);
        },
    );
    Ok(!early)
}

/// The `wait` of a server returns after its stopper asks, and not before. It serves until it is shut down.
// Seen to fail if `wait` returns at once. Should fail if a stopper is another server's.
#[test]
fn a_server_waits_for_its_stop(rt: HostRuntime) -> Tested {
    let (site, client) = serving_one(&rt)?;
    assert!(rt; waits_for_its_stop(&rt, &site)?);
    site.server.wait();
    answers(&rt, &client, "Echo", b"2", b"2")?;
    site.server.shutdown();
    Ok(())
}

/// Goes away inside an answer, as a server.
fn dies_inside_an_answer(listener: &PipeListener) -> Tested {
    let accepted = listener.accept()?.ok_or("closed")?;
    let mut buffer = [0; 64];
    let _ = accepted.read(&mut buffer)?;
    write_all(&accepted, CUT_ANSWER)?;
    Ok(accepted.close()?)
}

/// Returns the result of a call if its server goes away inside the answer.
fn cut_call<R: Machine>(
    rt: &R,
    client: &PlainClient<R>,
    listener: &PipeListener,
) -> Result<Answered<Response>, Fail> {
    let (cut, died) = thread::join(
        rt,
        || call(rt, client, "Echo", b"2"),
        || dies_inside_an_answer(listener),
    );
    died?;
    Ok(cut)
}

/// The error of such a call.
const INSIDE: &str = "socket err: socket disconnected inside a frame";

/// Each later call gets the same error.
#[test]
fn a_client_whose_server_dies_inside_an_answer_is_told(rt: HostRuntime) -> Tested {
    let (listener, address) = listening(&rt)?;
    let client = client(&rt, address.as_str())?;
    is_told(&rt, cut_call(&rt, &client, &listener)?, INSIDE)?;
    Ok(is_told(&rt, call(&rt, &client, "Echo", b"2"), INSIDE)?)
}

/// Returns whether two calls fail, one after the other.
fn fails_twice<R: Host>(rt: &R, client: &PlainClient<R>) -> bool {
    call(rt, client, "Echo", b"2").is_err() && call(rt, client, "Echo", b"2").is_err()
}

/// If a connection ended while nobody read it, the next call fails.
#[test]
fn a_server_that_goes_away_unseen_is_told(rt: HostRuntime) -> Tested {
    let (site, client) = serving_one(&rt)?;
    answers_often(&rt, &client, 20)?;
    site.server.shutdown();
    assert!(rt; fails_twice(&rt, &client));
    Ok(())
}

/// Opens a second connection, goes away inside a request, and waits until the server has closed that connection.
fn dies_inside_a_request<R: Machine>(rt: &R, site: &Site<R, NoHook>) -> Answered<()> {
    let dying = connection(rt, site.address.as_str())?;
    write_all(&dying, ASKED.split_at(12).0)?;
    has_connections(rt, site, 2)?;
    dying.close()?;
    has_connections(rt, site, 1)
}

/// A client that goes away inside a request ends its connection, and no other.
#[test]
fn a_client_that_dies_inside_a_request_is_let_go(rt: HostRuntime) -> Tested {
    let (site, client) = serving_one(&rt)?;
    dies_inside_a_request(&rt, &site)?;
    answers(&rt, &client, "Echo", b"2", b"2")?;
    site.server.shutdown();
    Ok(())
}

/// A handler's error ends the connection.
#[test]
fn an_error_of_a_handler_ends_its_connection(rt: HostRuntime) -> Tested {
    let (site, client) = serving_one(&rt)?;
    let ended = call(&rt, &client, "Fails", b"");
    is_told(&rt, ended, "socket err: socket disconnected")?;
    has_connections(&rt, &site, 0)?;
    site.server.shutdown();
    Ok(())
}

/// Returns a server that listens no more, and the client that it still serves. No other client can connect.
fn stopped<R: Machine + 'static>(rt: &R) -> Answered<(Site<R, NoHook>, PlainClient<R>)> {
    let Site {
        server,
        address,
        board,
    } = serving(rt)?;
    let kept = answered_client(rt, address.as_str())?;
    let server = server.stop_listen();
    answers(rt, &kept, "Echo", b"2", b"2")?;
    check(
        rt.alloc(),
        connection(rt, address.as_str()).is_err(),
        "still listening",
    )?;
    let site = Site {
        server,
        address,
        board,
    };
    Ok((site, kept))
}

/// Listens again with the server.
fn listen_again<R: Machine + 'static>(rt: &R, site: Site<R, NoHook>) -> Answered<Site<R, NoHook>> {
    let Site { server, board, .. } = site;
    let mut server = server.bind("tcp://127.0.0.1:0", true)?;
    server.start_listen()?;
    let address = address_in(rt.alloc(), server.local_addr()?)?;
    Ok(Site {
        server,
        address,
        board,
    })
}

/// A server that listens no more serves its connections, and accepts others after it listens again.
#[test]
fn stop_listen_keeps_connections(rt: HostRuntime) -> Tested {
    let (site, _kept) = stopped(&rt)?;
    let site = listen_again(&rt, site)?;
    let _other = answered_client(&rt, site.address.as_str())?;
    assert!(rt; site.server.connection_count() == 2);
    site.server.shutdown();
    Ok(())
}

/// The number of calls in flight when a server is shut down.
const IN_FLIGHT: u32 = 10;

/// Opens a bare connection with `IN_FLIGHT` running handlers. Each answers 0.4 seconds after it sees the end.
fn in_flight<R: Machine>(rt: &R, site: &Site<R, NoHook>) -> Answered<PipeConnection> {
    let bare = connection(rt, site.address.as_str())?;
    let asked = requests(rt.alloc(), "Lasts", IN_FLIGHT)?;
    write_all(&bare, asked.as_slice())?;
    let waiting = &site.board.waiting;
    let have_begun = comes(
        rt,
        || waiting.load(Ordering::SeqCst) == u64::from(IN_FLIGHT),
    );
    check(rt.alloc(), have_begun, "a handler hasn't begun")?;
    Ok(bare)
}

/// Shuts the server down. Returns whether no handler runs then, and no connection is accepted.
fn is_shut_down<R: Machine + 'static>(rt: &R, site: Site<R, NoHook>) -> bool {
    let Site {
        server,
        address,
        board,
    } = site;
    server.shutdown();
    board.waiting.load(Ordering::SeqCst) == 0 && connection(rt, address.as_str()).is_err()
}

/// A shutdown with calls in flight cancels their handlers, and each call is answered.
// Seen to fail if a shutdown closes each socket at once. Should fail if a shutdown ends no connection.
#[test]
fn a_shutdown_answers_calls_in_flight(rt: HostRuntime) -> Tested {
    let site = serving(&rt)?;
    let bare = in_flight(&rt, &site)?;
    assert!(rt; is_shut_down(&rt, site));
    let answered = frames_until_the_end(rt.alloc(), &mut &bare);
    assert!(rt; answered == IN_FLIGHT as usize);
    Ok(())
}

/// The lengths of payloads, and the numbers of calls of a peer that reads no answer: one handler that writes its answer
/// itself, and several with queued answers.
const UNREAD: &[(usize, u32)] = &[(500000, 1), (100000, 16)];

/// The address of a server with sockets that keep less than half a megabyte.
const STALLED: &str = "unix://stalled.sock";

/// Starts a server with connections that stay open for 0.2 seconds after their last answer.
fn closing_soon<R: Machine + 'static>(rt: &R) -> Answered<Site<R, NoHook>> {
    let _ = fs::remove_file(rt, "stalled.sock");
    let board = new_board(rt)?;
    let mut server = unbound(rt, &board)?
        .set_close_limit(Some(Duration::from_millis(200)))
        .bind(STALLED, true)?;
    server.start()?;
    Ok(Site {
        server,
        address: String::from_str(rt.alloc(), STALLED)?,
        board,
    })
}

/// Opens a connection that makes these calls, waits until each has begun, and reads no answer.
fn unread<R: Machine>(
    rt: &R,
    site: &Site<R, NoHook>,
    calls: (usize, u32),
) -> Answered<PipeConnection> {
    let (length, count) = calls;
    let stalled = connection(rt, site.address.as_str())?;
    let payload = Vec::from_elem(rt.alloc(), 7u8, length)?;
    let asked = requests_with(rt.alloc(), "Echo", payload.as_slice(), count)?;
    write_all(&stalled, asked.as_slice())?;
    let have_begun = comes(rt, || site.board.seen.lock(rt).len() == count as usize);
    check(rt.alloc(), have_begun, "a handler hasn't begun")?;
    a_while(rt);
    Ok(stalled)
}

/// Returns whether a server is shut down within twenty seconds.
fn is_soon_shut_down<R: Machine + 'static>(rt: &R, site: Site<R, NoHook>) -> Result<bool, Fail> {
    let start = Instant::now(rt)?;
    site.server.shutdown();
    Ok(start.elapsed(rt)? < Duration::from_secs(20))
}

/// A peer that reads no answer holds a shutdown no longer than the close limit.
// Seen to fail if a shutdown waits for a peer that reads nothing.
#[test]
fn a_shutdown_waits_for_no_stalled_peer(rt: HostRuntime) -> Tested {
    for &calls in UNREAD {
        let site = closing_soon(&rt)?;
        let _stalled = unread(&rt, &site, calls)?;
        assert!(rt; is_soon_shut_down(&rt, site)?);
    }
    Ok(fs::remove_file(&rt, "stalled.sock")?)
}

/// The number of bytes of a request that come, the length of the pieces, which come every 60 milliseconds, and whether
/// the connection lives after that. The peer may pause inside a frame for 200 milliseconds.
const PAUSES: &[(usize, usize, bool)] = &[
    (0, 30, true),
    (5, 30, false),
    (10, 30, false),
    (29, 30, false),
    (30, 30, true),
    (30, 2, true),
    (29, 2, false),
];

/// Starts a server with peers that may pause inside a frame for 0.2 seconds.
fn impatient<R: Machine + 'static>(rt: &R) -> Answered<Site<R, NoHook>> {
    let board = new_board(rt)?;
    let server = unbound(rt, &board)?
        .set_frame_limit(Some(Duration::from_millis(200)))
        .bind("tcp://127.0.0.1:0", true)?;
    started(rt, server, board)
}

/// Writes a beginning of a request in pieces of this length.
fn asks_slowly<R: Machine>(
    rt: &R,
    bare: &PipeConnection,
    length: usize,
    size: usize,
) -> Answered<()> {
    for piece in front(ASKED, length).chunks(size.max(1)) {
        thread::sleep(rt, Duration::from_millis(60));
        write_all(bare, piece)?;
    }
    Ok(())
}

/// Returns whether the connection of such a peer is still there a second later.
fn lives_behind<R: Machine>(
    rt: &R,
    site: &Site<R, NoHook>,
    length: usize,
    size: usize,
) -> Answered<bool> {
    let bare = connection(rt, site.address.as_str())?;
    has_connections(rt, site, 1)?;
    asks_slowly(rt, &bare, length, size)?;
    thread::sleep(rt, Duration::from_secs(1));
    Ok(site.server.connection_count() == 1)
}

/// The connection of a peer that pauses inside a frame for too long is closed, and no other is.
// Seen to fail if no pause is ever measured.
#[test]
fn a_peer_may_pause_between_frames(rt: HostRuntime) -> Tested {
    for &(length, size, lives) in PAUSES {
        let site = impatient(&rt)?;
        assert!(rt; lives_behind(&rt, &site, length, size)? == lives);
        site.server.shutdown();
    }
    Ok(())
}

/// Connects `count` clients to the server at this address.
fn many_clients<R: Machine + 'static>(
    rt: &R,
    address: &str,
    count: u32,
) -> Answered<Vec<PlainClient<R>>> {
    let mut clients = Vec::new(rt.alloc());
    for _ in 0..count {
        clients.push(client(rt, address)?)?;
    }
    Ok(clients)
}

/// Checks that each of these clients is answered.
fn each_is_answered<R: Host>(rt: &R, clients: &[PlainClient<R>]) -> Answered<()> {
    for client in clients {
        answers(rt, client, "Echo", b"2", b"2")?;
    }
    Ok(())
}

/// Two hundred connections are open at the same time, each with a call. When their clients are dropped, all are closed.
// Should fail if connections aren't counted; the last client closes no socket.
#[test]
fn many_connections_are_open_at_once(rt: HostRuntime) -> Tested {
    let site = serving(&rt)?;
    let clients = many_clients(&rt, site.address.as_str(), 200)?;
    each_is_answered(&rt, clients.as_slice())?;
    assert!(rt; site.server.connection_count() == 200);
    drop(clients);
    has_connections(&rt, &site, 0)?;
    a_while(&rt);
    site.server.shutdown();
    Ok(())
}
