use crate::tests::sites::{System, Wired, make_wired};
use futures::future::Either;
use std::test::Fail;
use tokio::runtime::LocalRuntime;
use ttrpc_bench::checks::{check_named, check_named_row};
use ttrpc_bench_polled::acts::{Act, Script};
use ttrpc_bench_polled::lines::{Line, Side, Speaker};
use ttrpc_bench_polled::parts::{Fault, Parts};
use ttrpc_bench_polled::recorded::{Conversation, client_beside_go, client_beside_rust};

/// The number of bytes that may be under way in each direction.
const ROOMS: [usize; 3] = [1, 11, 4096];

/// Runs a client that does these acts with a server that sends its part of these lines.
pub fn speak<R: System>(
    rt: &R,
    room: usize,
    acts: &[Act],
    lines: &[Line<'_>],
) -> Result<Option<Fault>, Fail> {
    let mut runtime = LocalRuntime::new(rt)?;
    let Wired {
        client,
        connection,
        reader,
        writer,
    } = make_wired(rt, runtime.handle(), room)?;
    let script = Either::Left(Script::new(client, acts));
    let speaker = Either::Right(Speaker::new(Side::Server, lines, reader, writer));
    let parts = Parts::both(rt.alloc(), script, speaker, connection)?;
    Ok(runtime.block_on(rt, parts)?)
}

/// Fails unless this conversation goes as expected, for each number of bytes under way.
fn understand<R: System>(rt: &R, conversation: Conversation) -> Result<(), Fail> {
    let (name, acts, lines) = conversation;
    for room in ROOMS {
        let fault = speak(rt, room, acts, lines)?;
        check_named_row(name, room, fault.is_none())?;
    }
    Ok(())
}

#[test]
fn recorded_servers_are_understood(rt: HostRuntime) -> Result<(), Fail> {
    for number in 0..100 {
        if let Some(conversation) = client_beside_go(number) {
            understand(&rt, conversation)?;
        }
        if let Some(conversation) = client_beside_rust(number) {
            understand(&rt, conversation)?;
        }
    }
    Ok(())
}

/// A call that is dropped before its frame is written, and another one after it.
const FORGOTTEN: &[Act] = &[
    Act::Calls("Echo", b"1", 0),
    Act::Begins(0),
    Act::Forgets(0),
    Act::Calls("Echo", b"2", 0),
    Act::Ends(1, Ok(b"2")),
];

/// Only the second call's request, with its own id, and its response.
const REMEMBERED: &[Line<'static>] = &[
    Line::Up(b"\0\0\0\x14\0\0\0\x03\x01\0\x0a\x09demo.Echo\x12\x04Echo\x1a\x01\x32"),
    Line::Down(b"\0\0\0\x05\0\0\0\x03\x02\0\x0a\0\x12\x01\x32"),
];

// Seen to fail if a call that is dropped before it is written leaves its frame.
#[test]
fn a_dropped_call_leaves_no_frame(rt: HostRuntime) -> Result<(), Fail> {
    let fault = speak(&rt, 4096, FORGOTTEN, REMEMBERED)?;
    check_named("an act or a line comes otherwise", fault.is_none())
}
