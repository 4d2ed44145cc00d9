//! The acts of a client with a server.
use crate::tests::runs::run_acts;
use std::test::Fail;
use ttrpc_bench::checks::{check_named, check_named_row};
use ttrpc_bench_polled::acts::Act::{self, *};

pub const SENT_BACK: &[Act] = &[Calls("Echo", b"\x2a", 0), Ends(0, Ok(b"\x2a"))];

/// The failure of a handler is reported as a status.
const FAILS: &[Act] = &[
    Calls("Ends", b"", 0),
    Ends(0, Err("rpc status: 2 eof")),
    Calls("Fail", b"\x05gone", 0),
    Ends(1, Err("rpc status: 5 gone")),
    Calls("Nope", b"", 0),
    Ends(2, Err("rpc status: 12 Nope method")),
];

/// A handler gets its own request: id, timeout, number of keys, method.
const HANDED: &[Act] = &[
    Calls("Tells", b"", 0),
    Calls("Tells", b"", 5_000_000_000),
    Begins(0),
    Begins(1),
    Ends(1, Ok(b"3 5000000000 0 Tells")),
    Ends(0, Ok(b"1 0 0 Tells")),
];

/// A handler waits until another call was answered, and then is let go on.
const ONE_BESIDE_ANOTHER: &[Act] = &[
    Calls("Waits", b"1", 10_000_000_000),
    Calls("Echo", b"2", 0),
    Begins(0),
    Begins(1),
    Ends(1, Ok(b"2")),
    Calls("Opens", b"3", 0),
    Ends(2, Ok(b"3")),
    Ends(0, Ok(b"1")),
];

/// A call with a handler that never ends expires, while another call of that kind and others go on.
const EXPIRES: &[Act] = &[
    Calls("NeverEnds", b"1", 0),
    Calls("NeverEnds", b"2", 50_000_000),
    Begins(0),
    Begins(1),
    Ends(1, Err("ttrpc err: Request deadline elapsed")),
    Calls("Echo", b"3", 0),
    Ends(2, Ok(b"3")),
];

/// Calls that are dropped before they are written, in the middle of writing, and after they are answered.
const FORGOTTEN: &[Act] = &[
    Calls("NeverEnds", b"1", 0),
    Begins(0),
    Forgets(0),
    Calls("NeverEnds", b"2", 0),
    Begins(1),
    Yields(2),
    Forgets(1),
    Calls("Echo", b"3", 0),
    Begins(2),
    Yields(200),
    Forgets(2),
    Calls("Tells", b"", 0),
    Ends(3, Ok(b"7 0 0 Tells")),
];

/// Items come back in order, one of them empty, and then the end.
pub const CHAT: &[Act] = &[
    Opens("Chat", b"", true, true),
    Asks(0),
    Sends(0, b"a", None),
    Sends(0, b"", None),
    Sends(0, b"b", None),
    Closes(0, None),
    Sends(0, b"c", Some("ttrpc err: local stream closed")),
    Receives(0, Ok(b"a")),
    Receives(0, Ok(b"")),
    Receives(0, Ok(b"b")),
    Receives(0, Err("eof")),
    Receives(0, Err("ttrpc err: remote stream closed")),
];

/// A server receives items in order, one of them empty, then the end, and then the error that there is nothing more.
pub const HEARD: &[Act] = &[
    Opens("Hears", b"", true, true),
    Sends(0, b"a", None),
    Sends(0, b"", None),
    Sends(0, b"b", None),
    Closes(0, None),
    Receives(0, Ok(b"a")),
    Receives(0, Ok(b"")),
    Receives(0, Ok(b"b")),
    Receives(0, Ok(b"eof")),
    Receives(0, Err("rpc status: 2 ttrpc err: remote stream closed")),
    Receives(0, Err("ttrpc err: remote stream closed")),
];

/// A stream is polled for an item in vain, and dropped, while another one goes on.
const LEFT: &[Act] = &[
    Opens("Chat", b"", true, true),
    Opens("Chat", b"", true, true),
    Asks(0),
    Leaves(0),
    Sends(1, b"a", None),
    Asks(1),
    Receives(1, Ok(b"a")),
    Leaves(1),
    Calls("Echo", b"b", 0),
    Ends(0, Ok(b"b")),
];

/// A stream with items of the client, and one with items of the server.
const ONE_SIDED: &[Act] = &[
    Opens("Sum", b"", true, false),
    Sends(0, b"1", None),
    Sends(0, b"23", None),
    Closes(0, None),
    Receives(0, Ok(b"\0\0\0\0\0\0\0\x02\0\0\0\0\0\0\0\x03")),
    Opens("Count", b"\x02", false, true),
    Sends(1, b"", Some("ttrpc err: stream is not sendable")),
    Receives(1, Ok(b"\0\0\0\0")),
    Receives(1, Ok(b"\0\0\0\x01")),
    Receives(1, Err("eof")),
];

/// A call with many bytes, after one that is polled once and never again.
const LONG: &[Act] = &[
    Calls("Echo", b"1", 0),
    Begins(0),
    CallsLong(100000),
    EndsLong(1, 100000),
];

/// Returns the script with this number, from 0, with its name.
fn script(number: u8) -> Option<(&'static str, &'static [Act])> {
    Some(match number {
        0 => ("sent back", SENT_BACK),
        1 => ("fails", FAILS),
        2 => ("handed", HANDED),
        3 => ("one beside another", ONE_BESIDE_ANOTHER),
        4 => ("expires", EXPIRES),
        5 => ("forgotten", FORGOTTEN),
        6 => ("chat", CHAT),
        7 => ("left", LEFT),
        8 => ("one-sided", ONE_SIDED),
        9 => ("long", LONG),
        10 => ("heard", HEARD),
        _ => return None,
    })
}

// Seen to fail if a handler begins only after the one before it has ended; two jobs begin under each other's number; a caller isn't
// woken when its call ends. Should fail if a call, an opening, a send or a receipt is ready at once with an error; an item is asked for
// twice; a connection is over at once, or makes turns and moves nothing, or is asked to end at once; a handler that may expire is
// reported as expired at once.
#[test]
fn scripts_come_to_what_they_state(rt: HostRuntime) -> Result<(), Fail> {
    for number in 0..100 {
        if let Some((name, acts)) = script(number) {
            for room in [1, 7, 4096] {
                let fault = run_acts(&rt, room, acts)?;
                check_named_row(name, room, fault.is_none())?;
            }
        }
    }
    Ok(())
}

#[test]
fn a_thousand_calls_pass_one_that_never_ends(rt: HostRuntime) -> Result<(), Fail> {
    let mut acts = Vec::new(rt.alloc());
    acts.push(Calls("NeverEnds", b"", 0))?;
    acts.push(Begins(0))?;
    for number in 1..1001usize {
        acts.push(Calls("Echo", b"\x2a", 0))?;
        acts.push(Begins(number))?;
    }
    for number in 1..1001usize {
        acts.push(Ends(number, Ok(b"\x2a")))?;
    }
    let fault = run_acts(&rt, 4096, acts.as_slice())?;
    check_named("an act comes to something else", fault.is_none())
}
