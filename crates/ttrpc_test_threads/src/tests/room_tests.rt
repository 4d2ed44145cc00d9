//! Callers and handlers with messages that have no room.
use crate::tests::Tested;
use crate::tests::attack_tests::accepted;
use crate::tests::crew_tests::{frames_until, opens_behind};
use std::alloc::Global;
use std::thread;
use ttrpc_bench_threads::handlers::LONG;
use ttrpc_bench_threads::peers::{answer, read_frame, requests, write_all};
use ttrpc_bench_threads::sites::{
    Machine, PlainClient, Site, a_while, call, client, connection, listening, request, serving,
};
use ttrpc_proto::{Error, Result as Answered};
use ttrpc_sync::Host;
use ttrpc_sync_server::NoHook;
use ttrpc_transport::{PipeConnection, PipeListener};

/// The number of bytes that are sent with a call that expires. A peer knows the call by its length.
const LATE: usize = LONG - 1000;

fn long_payload(alloc: Global, length: usize) -> Answered<Vec<u8>> {
    Ok(Vec::from_elem(alloc, 7u8, length)?)
}

/// Makes a long call without a timeout.
fn calls_at_length<R: Host>(rt: &R, client: &PlainClient<R>) -> Answered<()> {
    let payload = long_payload(rt.alloc(), LONG)?;
    call(rt, client, "Echo", payload.as_slice())?;
    Ok(())
}

/// Makes a long call with a timeout of 0.3 seconds. Returns whether it expired.
fn expires<R: Host>(rt: &R, client: &PlainClient<R>) -> Answered<bool> {
    let payload = long_payload(rt.alloc(), LATE)?;
    let late = client.request(request(rt.alloc(), "Echo", payload.as_slice(), 300000000)?);
    Ok(matches!(late, Err(Error::Others(_))))
}

/// Reads until four calls that don't expire are answered. On a busy machine the call that expires may have found room
/// before them, and comes, too.
fn answer_four(alloc: Global, connection: &PipeConnection) -> Answered<()> {
    let mut stream = connection;
    let mut answered: u32 = 0;
    for _ in 0..5 {
        if answered < 4 {
            let asked = read_frame(alloc, &mut stream)?.header;
            if asked.length as usize > LONG {
                answer(alloc, &mut stream, asked.stream_id, 1)?;
                answered += 1;
            }
        }
    }
    Ok(())
}

/// Has one more call expire while nothing is read, and then answers four calls. Returns whether the call expired.
fn answers_four_late<R: Machine>(
    rt: &R,
    client: &PlainClient<R>,
    listener: &PipeListener,
) -> Answered<bool> {
    let connection = accepted(listener)?;
    a_while(rt);
    a_while(rt);
    a_while(rt);
    let has_expired = expires(rt, client)?;
    answer_four(rt.alloc(), &connection)?;
    Ok(has_expired)
}

/// Four callers send more than there is room for, to a peer that reads nothing at first. Each waits, and is answered. A
/// call expires if its timeout passes before there is room for it.
// Seen to fail if a report wakes no caller that waits for room.
#[test]
fn callers_wait_for_room(rt: HostRuntime) -> Tested {
    let (listener, address) = listening(&rt)?;
    let client = client(&rt, address.as_str())?;
    let (first, (second, expired)) = thread::join(
        &rt,
        || {
            thread::join(
                &rt,
                || calls_at_length(&rt, &client),
                || calls_at_length(&rt, &client),
            )
        },
        || {
            thread::join(
                &rt,
                || {
                    thread::join(
                        &rt,
                        || calls_at_length(&rt, &client),
                        || calls_at_length(&rt, &client),
                    )
                },
                || answers_four_late(&rt, &client, &listener),
            )
        },
    );
    assert!(rt; expired?);
    first.0?;
    first.1?;
    second.0?;
    second.1?;
    Ok(())
}

/// The number of handlers that answer at the same time, each at length. A server's queue has room for two such answers,
/// and the system keeps less than two more.
const HANDLERS: u32 = 5;

/// Has the handlers wait for each other, and answer to a peer that reads nothing at first. Returns whether each answer
/// comes.
fn answers_come_late<R: Machine>(rt: &R, site: &Site<R, NoHook>) -> Answered<bool> {
    let bare = connection(rt, site.address.as_str())?;
    let asked = requests(rt.alloc(), "GateAtLength", HANDLERS)?;
    write_all(&bare, asked.as_slice())?;
    let came = opens_behind(rt, &*site.board, HANDLERS as u64);
    a_while(rt);
    Ok(came && frames_until(rt.alloc(), &bare, HANDLERS) == HANDLERS)
}

/// A handler waits for room if its answer has none, and no answer is lost.
// Seen to fail if a worker drops its answer if there is no room.
#[test]
fn answers_wait_for_room(rt: HostRuntime) -> Tested {
    let site = serving(&rt)?;
    assert!(rt; answers_come_late(&rt, &site)?);
    site.server.shutdown();
    Ok(())
}
