//! Calls over sockets: of threads that share a client, of a client with a timeout, of any size, and at a path.
use crate::tests::Tested;
use std::sync::Wait;
use std::sync::atomic::Ordering;
use std::test::Fail;
use std::time::{Duration, Instant};
use std::{fs, thread};
use ttrpc_bench_threads::handlers::{Board, Method};
use ttrpc_bench_threads::sites::{
    Machine, PlainClient, answered_client, answers, call, check, is_told, new_board, request,
    serving, serving_one, serving_two, unbound,
};
use ttrpc_proto::Result as Answered;
use ttrpc_secure::{InboundTransform, OutboundTransform};
use ttrpc_sync::Host;
use ttrpc_sync_client::Client;
use ttrpc_sync_server::{NoHook, Server};

/// The number of calls that each of two threads makes.
const CALLS: u8 = 100;

/// Makes a hundred calls, each with its own payload, and checks that each response has it.
fn calls_by<R, O, I>(rt: &R, client: &Client<R, O, I>, caller: u8) -> Answered<()>
where
    R: Host,
    O: OutboundTransform + Drop,
    I: InboundTransform + Drop,
{
    for number in 0..CALLS {
        answers(rt, client, "Echo", &[caller, number], &[caller, number])?;
    }
    Ok(())
}

/// Returns how often this payload was seen.
fn times_seen(seen: &[(u32, Vec<u8>)], sent: &[u8]) -> usize {
    seen.iter()
        .filter(|(_, payload)| payload.as_slice() == sent)
        .count()
}

/// Returns how often a request was seen with this id.
fn times_named(seen: &[(u32, Vec<u8>)], named: u32) -> usize {
    seen.iter().filter(|(id, _)| *id == named).count()
}

/// Returns whether each payload of this caller was seen once.
fn payloads_are_seen(seen: &[(u32, Vec<u8>)], caller: u8) -> bool {
    for number in 0..CALLS {
        if times_seen(seen, &[caller, number]) != 1 {
            return false;
        }
    }
    true
}

/// Returns whether each odd id up to 399 was seen once.
fn ids_are_seen(seen: &[(u32, Vec<u8>)]) -> bool {
    for index in 0..200 {
        if times_named(seen, 2 * index + 1) != 1 {
            return false;
        }
    }
    true
}

/// Returns whether the board has each payload once, with the odd ids up to 399.
fn all_are_seen<R: Wait>(rt: &R, board: &Board) -> bool {
    let locked = board.seen.lock(rt);
    let seen = locked.as_slice();
    seen.len() == 200
        && payloads_are_seen(seen, 0)
        && payloads_are_seen(seen, 1)
        && ids_are_seen(seen)
}

/// Makes a hundred calls in each of two threads with these numbers, over one connection.
fn calls_by_both<R: Machine>(
    rt: &R,
    first: &PlainClient<R>,
    second: &PlainClient<R>,
    callers: (u8, u8),
) -> Answered<()> {
    let (one, other) = thread::join(
        rt,
        || calls_by(rt, first, callers.0),
        || calls_by(rt, second, callers.1),
    );
    one?;
    other
}

// Should fail if a socket, loop, worker, handler or call does nothing, or fails; a caller waits at another call's place.
#[test]
fn two_threads_share_a_client(rt: HostRuntime) -> Tested {
    let (site, first, second) = serving_two(&rt)?;
    calls_by_both(&rt, &first, &second, (0, 1))?;
    assert!(rt; all_are_seen(&rt, &*site.board));
    site.server.shutdown();
    Ok(())
}

/// Makes a call with a timeout, and checks that it is answered.
fn limited_is_answered<R: Host>(rt: &R, client: &PlainClient<R>) -> Answered<()> {
    let limited = client.request(request(rt.alloc(), "Echo", b"2", 5000000000)?)?;
    check(
        rt.alloc(),
        limited.payload.as_slice() == b"2".as_slice(),
        "another answer",
    )
}

/// Makes calls that are alone, then one with a timeout, and then calls at the same time, and checks that they are
/// answered.
fn each_is_answered<R: Machine>(
    rt: &R,
    first: &PlainClient<R>,
    second: &PlainClient<R>,
) -> Answered<()> {
    calls_by(rt, first, 0)?;
    limited_is_answered(rt, first)?;
    calls_by_both(rt, first, second, (1, 2))
}

/// Callers read for themselves while each is alone. For a call with a timeout, and for callers that aren't alone, the
/// client's thread reads, and then rests again.
// Should fail if a caller waits at the writer thread's place.
#[test]
fn calls_alone_and_together_are_answered(rt: HostRuntime) -> Tested {
    let (site, first, second) = serving_two(&rt)?;
    for _ in 0..3 {
        each_is_answered(&rt, &first, &second)?;
    }
    site.server.shutdown();
    Ok(())
}

/// Makes a call, and opens the gate that the other call waits at.
fn opens<R, O, I>(rt: &R, client: &Client<R, O, I>, board: &Board) -> Answered<()>
where
    R: Host,
    O: OutboundTransform + Drop,
    I: InboundTransform + Drop,
{
    ttrpc_bench_threads::sites::a_while(rt);
    answers(rt, client, "Echo", b"2", b"2")?;
    board.is_open.store(true, Ordering::SeqCst);
    Ok(())
}

/// A call is answered while an earlier call of the same connection is running.
#[test]
fn calls_run_at_the_same_time(rt: HostRuntime) -> Tested {
    let (site, first, second) = serving_two(&rt)?;
    let (gated, opened) = thread::join(
        &rt,
        || answers(&rt, &first, "Gate", b"", b"open"),
        || opens(&rt, &second, &*site.board),
    );
    gated?;
    opened?;
    site.server.shutdown();
    Ok(())
}

/// Returns whether a call with a timeout of 50 milliseconds expires then and not later.
fn is_late<R: Machine>(rt: &R, client: &PlainClient<R>) -> Result<bool, Fail> {
    let start = Instant::now(rt)?;
    let late = client.request(request(rt.alloc(), "Waits", b"", 50000000)?);
    let passed = start.elapsed(rt)?;
    is_told(rt, late, "ttrpc err: Request deadline elapsed")?;
    Ok(passed >= Duration::from_millis(50) && passed < Duration::from_millis(500))
}

/// A call ends when its timeout passes, though its handler goes on. The connection serves more calls.
// Should fail if the clock never advances; `stop_listen` leaves the listener open.
#[test]
fn a_deadline_is_met(rt: HostRuntime) -> Tested {
    let (site, client) = serving_one(&rt)?;
    assert!(rt; is_late(&rt, &client)?);
    answers(&rt, &client, "Echo", b"2", b"2")?;
    site.server.shutdown();
    Ok(())
}

/// Lengths of payloads around the sizes of buffers, and one near the limit.
const LENGTHS: &[usize] = &[0, 1, 4085, 4086, 65536, 4000000];

/// Checks that a payload of `length` bytes is answered.
fn size_passes<R: Host>(rt: &R, client: &PlainClient<R>, length: usize) -> Answered<()> {
    let payload = Vec::from_elem(rt.alloc(), 7u8, length)?;
    answers(rt, client, "Echo", payload.as_slice(), payload.as_slice())
}

/// Checks that a payload above the limit is refused.
fn too_much_is_refused<R: Host>(rt: &R, client: &PlainClient<R>) -> Answered<()> {
    let payload = Vec::from_elem(rt.alloc(), 7u8, 4194304)?;
    is_told(
        rt,
        call(rt, client, "Echo", payload.as_slice()),
        "ttrpc err: message length 4194326 exceed maximum message size of 4194304",
    )
}

/// Checks that payloads of any size are answered, whether writes go out at once or not, and that one above the limit is
/// refused.
fn sizes_pass<R: Machine + 'static>(rt: &R, address: &str, nodelay: bool) -> Answered<()> {
    let client = Client::connect(rt.clone()?, address, nodelay)?;
    for &length in LENGTHS {
        size_passes(rt, &client, length)?;
    }
    too_much_is_refused(rt, &client)?;
    answers(rt, &client, "Echo", b"2", b"2")
}

#[test]
fn payloads_have_any_size(rt: HostRuntime) -> Tested {
    let site = serving(&rt)?;
    for nodelay in [true, false] {
        sizes_pass(&rt, site.address.as_str(), nodelay)?;
    }
    site.server.shutdown();
    Ok(())
}

/// A call of an unknown method is refused with its path, and a status with another code than 0 is an error.
#[test]
fn an_unknown_method_is_refused(rt: HostRuntime) -> Tested {
    let (site, client) = serving_one(&rt)?;
    is_told(
        &rt,
        call(&rt, &client, "Nope", b""),
        "rpc status: 3 /demo.Echo/Nope does not exist",
    )?;
    site.server.shutdown();
    Ok(())
}

/// A handler may answer with an error, and the caller gets the error's text.
// Should fail if `response_error_to_channel` does nothing.
#[test]
fn an_error_is_an_answer(rt: HostRuntime) -> Tested {
    let (site, client) = serving_one(&rt)?;
    let told = call(&rt, &client, "Tells", b"");
    is_told(&rt, told, "rpc status: 2 eof")?;
    site.server.shutdown();
    Ok(())
}

/// Starts a server that listens at this path.
fn serving_at<R: Machine + 'static>(
    rt: &R,
    address: &str,
) -> Answered<Server<R, Method<R>, NoHook>> {
    let mut server = unbound(rt, &new_board(rt)?)?.bind(address, false)?;
    server.start()?;
    Ok(server)
}

#[test]
fn a_path_is_an_address(rt: HostRuntime) -> Tested {
    let _ = fs::remove_file(&rt, "calls.sock");
    let server = serving_at(&rt, "unix://calls.sock")?;
    assert!(rt; server.local_addr()?.is_none());
    let _client = answered_client(&rt, "unix://calls.sock")?;
    server.shutdown();
    Ok(fs::remove_file(&rt, "calls.sock")?)
}
