use crate::tests::stepped::{Bench, Step};
use std::alloc::Global;
use std::test::Fail;
use ttrpc_bench::checks::check_named_row;

/// The request of a stream that a client opens to send and receive, the stream's items and its close.
const OPENS: &[u8] = b"\0\0\0\x11\0\0\0\x01\x01\x06\x0a\x09demo.Echo\x12\x04Chat";

const ITEMS_AND_CLOSE: &[u8] =
    b"\0\0\0\x01\0\0\0\x01\x03\0a\0\0\0\0\0\0\0\x01\x03\0\0\0\0\x01\0\0\0\x01\x03\0b\0\0\0\0\0\0\0\x01\x03\x05";

const CLOSE: &[u8] = b"\0\0\0\0\0\0\0\x01\x03\x05";
/// An item that is flagged as the last one.
const LAST: &[u8] = b"\0\0\0\x01\0\0\0\x01\x03\x01\x7a";
/// A status with the code 5 and the message `gone`.
const GONE: &[u8] = b"\0\0\0\x0a\0\0\0\x01\x02\0\x0a\x08\x08\x05\x12\x04gone";
/// The request of a stream on which only the server sends, without a payload.
const OPENS_FOR_SERVER: &[u8] = b"\0\0\0\x11\0\0\0\x01\x01\x01\x0a\x09demo.Echo\x12\x04Chat";
/// Two calls, and the answers to both, the second first.
const TWO_CALLS: &[u8] =
    b"\0\0\0\x14\0\0\0\x01\x01\0\x0a\x09demo.Echo\x12\x04Echo\x1a\x01\x31\0\0\0\x14\0\0\0\x03\x01\0\x0a\x09demo.Echo\x12\x04Echo\x1a\x01\x32";

const TWO_ANSWERS: &[u8] =
    b"\0\0\0\x05\0\0\0\x03\x02\0\x0a\0\x12\x01\x32\0\0\0\x05\0\0\0\x01\x02\0\x0a\0\x12\x01\x31";

const REMOTE_CLOSED: &str = "ttrpc err: remote stream closed";

const LOCAL_CLOSED: &str = "ttrpc err: local stream closed";

/// Items in order, one of them empty, and the end. Each send is done after its frame has left.
const ITEMS: &[Step] = &[
    Step::Opens("Chat", b"", true, true),
    Step::Up(OPENS, 1),
    Step::Takes(true),
    Step::Hears(0, None),
    Step::Sends(0, b"a"),
    Step::Stepped(0, None),
    Step::Stepped(0, None),
    Step::Sends(0, b""),
    Step::Sends(0, b"b"),
    Step::Closes(0),
    Step::Stepped(1, None),
    Step::Stepped(2, None),
    Step::Stepped(3, None),
    Step::Up(ITEMS_AND_CLOSE, 1),
    Step::Stepped(0, Some(Ok(()))),
    Step::Stepped(1, Some(Ok(()))),
    Step::Stepped(2, Some(Ok(()))),
    Step::Stepped(3, Some(Ok(()))),
    Step::Stepped(3, Some(Err(LOCAL_CLOSED))),
    Step::Hears(0, Some(Ok(b"a"))),
    Step::Hears(0, Some(Ok(b""))),
    Step::Hears(0, Some(Ok(b"b"))),
    Step::Hears(0, Some(Err("eof"))),
    Step::Hears(0, Some(Err(REMOTE_CLOSED))),
    Step::Sends(0, b"c"),
    Step::Stepped(4, Some(Err(LOCAL_CLOSED))),
    Step::Receives(0, None),
];

/// A stream on which only the server sends begins with an empty item, as its request has no payload.
const FOR_SERVER: &[Step] = &[
    Step::Opens("Chat", b"", false, true),
    Step::Up(OPENS_FOR_SERVER, 5),
    Step::Takes(true),
    Step::Hears(0, Some(Ok(b""))),
    Step::Hears(0, Some(Err(REMOTE_CLOSED))),
    Step::Sends(0, b"c"),
    Step::Stepped(0, Some(Err("ttrpc err: stream is not sendable"))),
];

/// An item that is the last one.
const LAST_ITEM: &[Step] = &[
    Step::Opens("Chat", b"", true, true),
    Step::Up(OPENS, 100),
    Step::Comes(LAST),
    Step::Receives(0, Some(Ok(b"z"))),
    Step::Receives(0, Some(Err(REMOTE_CLOSED))),
];

/// A server that closes, and can then do nothing more with the stream.
const SERVER_CLOSES: &[Step] = &[
    Step::Opens("Chat", b"", true, true),
    Step::Up(OPENS, 100),
    Step::Takes(true),
    Step::Finishes(0, None, None),
    Step::Down(CLOSE, 3),
    Step::Says(0, b"x", Some(LOCAL_CLOSED)),
    Step::Finishes(0, None, Some("ttrpc err: unknown job")),
    Step::Receives(0, Some(Err("eof"))),
    Step::Receives(0, Some(Err(REMOTE_CLOSED))),
];

/// A server that ends with a status.
const SERVER_FAILS: &[Step] = &[
    Step::Opens("Chat", b"", true, true),
    Step::Up(OPENS, 100),
    Step::Takes(true),
    Step::Finishes(0, Some((5, "gone")), None),
    Step::Down(GONE, 100),
    Step::Receives(0, Some(Err("rpc status: 5 gone"))),
    Step::Receives(0, Some(Err(REMOTE_CLOSED))),
];

/// Two calls that are answered in the other order. Each gets its own answer once.
const CALLS: &[Step] = &[
    Step::Asks("Echo", b"1"),
    Step::Asks("Echo", b"2"),
    Step::Steps(0, None),
    Step::Steps(1, None),
    Step::Up(TWO_CALLS, 7),
    Step::Takes(true),
    Step::Takes(true),
    Step::Takes(false),
    Step::Answers(1, b"2"),
    Step::Answers(0, b"1"),
    Step::Steps(0, None),
    Step::Down(TWO_ANSWERS, 1),
    Step::Steps(0, Some(Ok(b"1"))),
    Step::Steps(1, Some(Ok(b"2"))),
    Step::Steps(1, Some(Err(LOCAL_CLOSED))),
];

/// An item of a stream that isn't there, and its answer.
const STRAY: &[u8] = b"\0\0\0\x01\0\0\0\x03\x03\0\x7a";

const NOT_ACTIVE: &[u8] =
    b"\0\0\0\x20\0\0\0\x03\x02\0\x0a\x1e\x08\x03\x12\x1aStream is no longer active";

/// A server that refuses an item without a stream.
const SERVER_REFUSES: &[Step] = &[
    Step::Strays(STRAY),
    Step::Takes(false),
    Step::Down(NOT_ACTIVE, 5),
];

const STEPS: &[(&str, &[Step])] = &[
    ("items", ITEMS),
    ("for the server", FOR_SERVER),
    ("last item", LAST_ITEM),
    ("server closes", SERVER_CLOSES),
    ("server fails", SERVER_FAILS),
    ("server refuses", SERVER_REFUSES),
    ("calls", CALLS),
];

/// Does these steps, and fails at the first with another result than expected.
fn take_all(alloc: Global, name: &'static str, steps: &[Step]) -> Result<(), Fail> {
    let mut bench = Bench::new(alloc)?;
    for (number, step) in steps.iter().enumerate() {
        check_named_row(name, number, bench.take(*step)?)?;
    }
    Ok(())
}

// Seen to fail if a receipt loses an item when it is stepped.
#[test]
fn steps_come_to_what_they_state(rt: HostRuntime) -> Result<(), Fail> {
    for (name, steps) in STEPS {
        take_all(rt.alloc(), name, steps)?;
    }
    Ok(())
}
