//! Each row of the server's table for streams, the table of a receiver's results, each refusal in its order, tickets,
//! and streams that end or have a dropped receiver. All bytes are written by hand. The bare request is as a client
//! written in Go sends it.
use crate::server::{ASKED, ECHOED, NO_STREAM_ANSWER};
use crate::tests::client::{CLOSE, CLOSE_WITH_DATA, DATA};
use crate::tests::kinds::{
    ASYNC_RULES, PlainServer, SYNC_RULES, SealedServer, StampedServer, SwellingServer,
};
use crate::tests::script::Step::*;
use crate::tests::script::{Cuts, FRESH, Row, Start};
use crate::tests::servers::{ANSWERS_FIRST, EOF_ANSWER, LONG_ANSWER, TAKES_FIRST};
use crate::tests::streams::{
    FLAGGED_ITEM, GONE, IN_USE, INACTIVE, LAST_ITEM, NOT_ABOVE, OPENED, OPENED_AND_SENT,
    OPENED_THIRD, THREE_OF_THIRD, TWO_ITEMS,
};
use crate::tests::told::{OTHER_RULES, SEALED_UP, UNKNOWN, UNKNOWN_JOB};
use crate::tests::under_test::{Table, Tested, hold, hold_stamped};
use ttrpc_bench::vectors::Told::{self, Eof, LocalClosed, Others, RemoteClosed, Socket};
use ttrpc_bench::vectors::{DISCONNECTED, LONG, PAST};
use ttrpc_server::Rules;

const OPENINGS: &[Table<Rules>] = &[(ASYNC_RULES, OPEN_ROWS)];

const ITEMS: &[Table<Rules>] = &[(ASYNC_RULES, ITEM_ROWS), (ASYNC_RULES, HEARD_ROWS)];

const DROPS: &[Table<Rules>] = &[
    (ASYNC_RULES, DROP_ROWS),
    (ASYNC_RULES, FAILURE_ROWS),
    (SYNC_RULES, SYNC_ROWS),
];

const ENDS: &[Table<Rules>] = &[(ASYNC_RULES, END_ROWS)];

const SENDS: &[Table<Rules>] = &[
    (ASYNC_RULES, PART_ROWS),
    (ASYNC_RULES, TICKET_ROWS),
    (ASYNC_RULES, TIME_ROWS),
];

const OVERLONG: &[Table<Rules>] = &[(ASYNC_RULES, LONG_ROWS)];

const GREATEST_ITEMS: &[Table<Rules>] = &[(ASYNC_RULES, GREATEST_ROWS)];

const STAMPS: &[Table<Rules>] = &[(ASYNC_RULES, STAMP_ROWS)];

const SWELLING: &[Table<Rules>] = &[(ASYNC_RULES, SWELLING_ROWS)];

const SEALED: &[Table<Rules>] = &[(ASYNC_RULES, SEALED_ROWS)];

// ---- frames to a server with the first id, besides those to a client

/// A request without flags, with the payload 2a.
const PLAIN_ITEM: &[u8] = b"\0\0\0\x14\0\0\0\x01\x01\0\x0a\x09demo.Echo\x12\x04Chat\x1a\x01\x2a";
/// A request without flags and payload.
const PLAIN: &[u8] = b"\0\0\0\x11\0\0\0\x01\x01\0\x0a\x09demo.Echo\x12\x04Chat";
/// A request with the flag of the last item, and the payload 2a.
const ONLY_ITEM: &[u8] = b"\0\0\0\x14\0\0\0\x01\x01\x01\x0a\x09demo.Echo\x12\x04Chat\x1a\x01\x2a";
/// The same without a payload.
const ONLY: &[u8] = b"\0\0\0\x11\0\0\0\x01\x01\x01\x0a\x09demo.Echo\x12\x04Chat";
/// A request with the flag that it is no item, but with a payload.
const NO_ITEM: &[u8] = b"\0\0\0\x14\0\0\0\x01\x01\x04\x0a\x09demo.Echo\x12\x04Chat\x1a\x01\x2a";
/// A request with the flags of a close.
const CLOSED: &[u8] = b"\0\0\0\x11\0\0\0\x01\x01\x05\x0a\x09demo.Echo\x12\x04Chat";
/// The same with a payload.
const CLOSED_WITH_ITEM: &[u8] = b"\
    \0\0\0\x14\0\0\0\x01\x01\x05\x0a\x09demo.Echo\x12\x04Chat\x1a\x01\x2a";
/// A request with the flag that other items follow and no other flag, and without a payload.
const BARE: &[u8] = b"\0\0\0\x11\0\0\0\x01\x01\x02\x0a\x09demo.Echo\x12\x04Chat";
/// The same with the flag of the last item, too.
const BARE_ONLY: &[u8] = b"\0\0\0\x11\0\0\0\x01\x01\x03\x0a\x09demo.Echo\x12\x04Chat";
/// The same as `BARE`, with the payload 2a.
const BARE_ITEM: &[u8] = b"\0\0\0\x14\0\0\0\x01\x01\x02\x0a\x09demo.Echo\x12\x04Chat\x1a\x01\x2a";
/// A request with a timeout of ten nanoseconds.
const TIMED: &[u8] = b"\0\0\0\x13\0\0\0\x01\x01\x06\x0a\x09demo.Echo\x12\x04Chat\x20\x0a";
/// The header of data that is one byte too long.
const OVERSIZED_DATA: &[u8] = b"\0\x40\0\x01\0\0\0\x01\x03\0";
/// A response and a frame of an unknown type with the first id.
const OTHER_TYPES: &[u8] = b"\0\0\0\x02\0\0\0\x01\x02\0\x0a\0\0\0\0\0\0\0\0\x01\0\0";

// ---- frames of a server

// ---- errors

const CLOSE_HAS_DATA: Told = Others("stream 1: close message cannot include data");

#[rattlefmt::skip]
const OPEN_ROWS: &[Row] = &[
    Row { name: "items are received in order, and their end behind them", steps: &[Feed(OPENED_AND_SENT), TakesStream(1, 1), TakesNone, Receives(1, b"a"), Receives(1, b""), Receives(1, b"b"), ReceivesError(1, Eof), ReceivesError(1, RemoteClosed), ReceivesError(1, RemoteClosed), Writes(b"")], ..FRESH },
    Row { name: "a stream receives before its job is handed out", steps: &[Feed(OPENED), Feed(DATA), Receives(1, b"z"), ReceivesNone(1), TakesStream(1, 1)], ..FRESH },
    Row { name: "a request's payload is the first item", steps: &[Feed(PLAIN_ITEM), TakesStream(1, 1), Receives(1, b"\x2a"), ReceivesNone(1)], ..FRESH },
    Row { name: "an empty payload is an item", steps: &[Feed(PLAIN), Receives(1, b""), ReceivesNone(1)], ..FRESH },
    Row { name: "with its flag the payload is the only item", steps: &[Feed(ONLY_ITEM), TakesStream(1, 1), Receives(1, b"\x2a"), ReceivesError(1, RemoteClosed)], ..FRESH },
    Row { name: "an empty one, too", steps: &[Feed(ONLY), Receives(1, b""), ReceivesError(1, RemoteClosed)], ..FRESH },
    Row { name: "with its flag there is no first item", steps: &[Feed(NO_ITEM), TakesStream(1, 1), ReceivesNone(1), Feed(DATA), Receives(1, b"z")], ..FRESH },
    Row { name: "a request may close", steps: &[Feed(CLOSED), TakesStream(1, 1), ReceivesError(1, Eof), ReceivesError(1, RemoteClosed)], ..FRESH },
    Row { name: "and then has no item, whatever its payload", steps: &[Feed(CLOSED_WITH_ITEM), TakesStream(1, 1), ReceivesError(1, Eof), ReceivesError(1, RemoteClosed)], ..FRESH },
    Row { name: "a bare request begins with an empty item", steps: &[Feed(BARE), Receives(1, b""), ReceivesNone(1)], ..FRESH },
    Row { name: "where it may be bare, it begins with none", start: Start::BareOpenings, steps: &[Feed(BARE), TakesStream(1, 1), ReceivesNone(1), Feed(DATA), Receives(1, b"z")], ..FRESH },
    Row { name: "with a payload it isn't bare", start: Start::BareOpenings, steps: &[Feed(BARE_ITEM), Receives(1, b"\x2a"), ReceivesNone(1)], ..FRESH },
    Row { name: "nor with the flag of the last item", start: Start::BareOpenings, steps: &[Feed(BARE_ONLY), Receives(1, b""), ReceivesError(1, RemoteClosed)], ..FRESH },
    Row { name: "nor without flags", start: Start::BareOpenings, steps: &[Feed(PLAIN), Receives(1, b""), ReceivesNone(1)], ..FRESH },
];

#[rattlefmt::skip]
const ITEM_ROWS: &[Row] = &[
    Row { name: "the last item ends the stream", steps: &[Feed(OPENED), Feed(LAST_ITEM), Receives(1, b"z"), ReceivesError(1, RemoteClosed)], ..FRESH },
    Row { name: "an item without an end is one, whatever its other flags", steps: &[Feed(OPENED), Feed(FLAGGED_ITEM), Receives(1, b"z"), ReceivesNone(1)], ..FRESH },
    Row { name: "a close has no item", steps: &[Feed(OPENED), Feed(CLOSE_WITH_DATA), ReceivesError(1, CLOSE_HAS_DATA), ReceivesError(1, RemoteClosed)], ..FRESH },
    Row { name: "data behind the end are dropped", steps: &[Feed(OPENED), Feed(LAST_ITEM), Feed(DATA), Feed(CLOSE), Receives(1, b"z"), ReceivesError(1, RemoteClosed), Feed(DATA), ReceivesError(1, RemoteClosed), Writes(b"")], ..FRESH },
    Row { name: "data behind a request that ends are dropped", steps: &[Feed(ONLY_ITEM), Feed(DATA), Receives(1, b"\x2a"), ReceivesError(1, RemoteClosed), Writes(b"")], ..FRESH },
    Row { name: "other types do nothing", steps: &[Feed(OPENED), Feed(OTHER_TYPES), ReceivesNone(1), Writes(b""), IsAlive], ..FRESH },
    Row { name: "the id of a stream is in use until it has ended, and is old then", steps: &[Feed(OPENED), Feed(OPENED), Writes(IN_USE), TakesStream(1, 1), Feed(ASKED), Writes(IN_USE), TakesNone, Feed(LAST_ITEM), Feed(OPENED), Writes(IN_USE), EndsStream(1), Writes(CLOSE), Feed(OPENED), Writes(NOT_ABOVE), TakesNone], ..FRESH },
    Row { name: "data of an ended stream are answered", steps: &[Feed(OPENED), TakesStream(1, 1), EndsStream(1), Writes(CLOSE), Feed(DATA), Writes(INACTIVE), ReceivesError(1, PAST)], ..FRESH },
    Row { name: "a name that is a method's and a stream's is a method's", steps: &[Feed(ASKED), TAKES_FIRST, ANSWERS_FIRST, Writes(ECHOED)], ..FRESH },
];

#[rattlefmt::skip]
const DROP_ROWS: &[Row] = &[
    Row { name: "without a receiver data are answered, and not kept", steps: &[Feed(OPENED), TakesStream(1, 1), Feed(DATA), DropsReceiver(1), ReceivesError(1, PAST), NextHeard(None), Feed(DATA), Writes(INACTIVE), NextHeard(None), ReceivesError(1, PAST), Sends(1, b"a", 1), EndsStream(1), IsAlive], ..FRESH },
    Row { name: "without a receiver data behind the end are dropped", steps: &[Feed(OPENED), Feed(LAST_ITEM), DropsReceiver(1), Feed(DATA), ReceivesError(1, PAST), Writes(b"")], ..FRESH },
    Row { name: "a receiver of no stream is dropped without a word", steps: &[DropsReceiver(1), Feed(ASKED), DropsReceiver(1), DropsReceiver(0), TAKES_FIRST, ANSWERS_FIRST, DropsReceiver(1), Writes(ECHOED)], ..FRESH },
];

const HEARD_ROWS: &[Row] = &[Row {
    name: "streams for which something came are told of once",
    steps: &[
        Feed(OPENED),
        Feed(OPENED_THIRD),
        NextHeard(None),
        Feed(THREE_OF_THIRD),
        Feed(DATA),
        NextHeard(Some(1)),
        NextHeard(Some(2)),
        NextHeard(None),
        Feed(DATA),
        Feed(THREE_OF_THIRD),
        TakesStream(1, 1),
        EndsStream(1),
        NextHeard(Some(2)),
        NextHeard(None),
    ],
    ..FRESH
}];

#[rattlefmt::skip]
const FAILURE_ROWS: &[Row] = &[
    Row { name: "a failure comes behind all items, once", steps: &[Feed(OPENED), Feed(OPENED_THIRD), TakesStream(1, 1), Feed(DATA), FailsBy("first"), EndsInput, Receives(1, b"z"), ReceivesError(1, Socket("first")), ReceivesError(1, PAST), ReceivesError(2, Socket("first")), ReceivesError(2, PAST), RefusesItem(1, Socket("first")), RefusesItem(3, Socket("first")), RefusesEnd(1, Socket("first")), RefusesEnd(3, Socket("first")), HasFailed("first")], ..FRESH },
    Row { name: "a stream that the client ended has no failure", steps: &[Feed(OPENED), Feed(LAST_ITEM), EndsInput, Receives(1, b"z"), ReceivesError(1, RemoteClosed)], ..FRESH },
    Row { name: "after a failure receivers are dropped, and what has ended is told before it", steps: &[Feed(OPENED), Feed(OPENED_THIRD), TakesStream(1, 1), EndsStream(1), EndsInput, ReceivesError(1, PAST), ReceivesError(3, UNKNOWN), DropsReceiver(2), ReceivesError(2, PAST)], ..FRESH },
];

const PART_ROWS: &[Row] = &[Row {
    name: "the input ends inside a frame",
    cuts: Cuts::Inside(11),
    steps: &[
        Feed(OPENED),
        FeedToCut(DATA),
        EndsInput,
        ReceivesError(1, Socket("socket disconnected inside a frame")),
        ReceivesError(1, PAST),
    ],
    ..FRESH
}];

#[rattlefmt::skip]
const END_ROWS: &[Row] = &[
    Row { name: "a stream that has ended sends no more", steps: &[Feed(OPENED), TakesStream(1, 1), EndsStream(1), RefusesItem(1, LocalClosed), RefusesSevensOn(1, 4194305, LocalClosed), RefusesEnd(1, UNKNOWN_JOB), RefusesAnswer(1, UNKNOWN_JOB), ReceivesError(1, PAST), StreamOf(1, None), Jobs(0, 0), Writes(CLOSE)], ..FRESH },
    Row { name: "a stream is ended by a response", steps: &[Feed(OPENED), TakesStream(1, 1), EndsWith(1, b"\x2a"), Writes(ECHOED)], ..FRESH },
    Row { name: "by a status", steps: &[Feed(OPENED), TakesStream(1, 1), EndsBy(1, 5, "gone"), Writes(GONE)], ..FRESH },
    Row { name: "and by an error's text", steps: &[Feed(OPENED), TakesStream(1, 1), EndsByError(1), Writes(EOF_ANSWER), IsAlive], ..FRESH },
    Row { name: "a response that is longer than a message may be is replaced", steps: &[Feed(OPENED), TakesStream(1, 1), EndsWithSevens(1, 4194298), Writes(LONG_ANSWER)], ..FRESH },
    Row { name: "a stream's job is answered by no response alone, and ended once it was taken", steps: &[Feed(OPENED), RefusesEnd(1, UNKNOWN_JOB), RefusesAnswer(1, UNKNOWN_JOB), TakesStream(1, 1), RefusesAnswer(1, UNKNOWN_JOB), StreamOf(1, Some(1)), RefusesEnd(0, UNKNOWN_JOB), RefusesEnd(2, UNKNOWN_JOB), EndsStream(1), Writes(CLOSE)], ..FRESH },
    Row { name: "a job of one response is no stream", steps: &[Feed(ASKED), RefusesItem(1, UNKNOWN), RefusesSevensOn(1, 4194305, UNKNOWN), ReceivesError(1, UNKNOWN), TAKES_FIRST, RefusesItem(1, UNKNOWN), ReceivesError(1, UNKNOWN), RefusesEnd(1, UNKNOWN_JOB), RefusesItem(0, UNKNOWN), RefusesItem(2, UNKNOWN), ReceivesError(0, UNKNOWN), ReceivesError(2, UNKNOWN), ANSWERS_FIRST, RefusesItem(1, LocalClosed), ReceivesError(1, PAST), Writes(ECHOED)], ..FRESH },
];

const GREATEST_ROWS: &[Row] = &[Row {
    name: "the greatest item is sent, and a refused one uses no ticket",
    steps: &[
        Feed(OPENED),
        RefusesSevensOn(1, 4194305, LONG),
        SendsSevens(1, 4194304, 1),
        Sends(1, b"", 2),
    ],
    ..FRESH
}];

#[rattlefmt::skip]
const TICKET_ROWS: &[Row] = &[
    Row { name: "a frame is sent once it was reported whole", steps: &[Feed(OPENED), IsUnsent(0), IsUnsent(1), Sends(1, b"a", 1), Sends(1, b"", 2), Leaves(TWO_ITEMS, 0, 10), IsUnsent(1), Leaves(TWO_ITEMS, 10, 11), IsSent(1), IsUnsent(2), Leaves(TWO_ITEMS, 11, 21), IsSent(2), IsSent(1), IsUnsent(3)], ..FRESH },
    Row { name: "a ticket outlives its stream", steps: &[Feed(OPENED), TakesStream(1, 1), Sends(1, b"a", 1), EndsStream(1), IsUnsent(1), Leaves(TWO_ITEMS, 0, 11), IsSent(1), Writes(CLOSE)], ..FRESH },
    Row { name: "what wasn't sent before a failure never is", steps: &[Feed(OPENED), Sends(1, b"a", 1), Sends(1, b"", 2), Leaves(TWO_ITEMS, 0, 11), Leaves(TWO_ITEMS, 11, 20), FailsBy("first"), IsSent(1), IsNeverSent(2, Socket("first")), IsNeverSent(0, Socket("first")), IsNeverSent(3, Socket("first"))], ..FRESH },
];

#[rattlefmt::skip]
const TIME_ROWS: &[Row] = &[
    Row { name: "a stream has no deadline", steps: &[FeedAt(TIMED, 5), TakesStream(1, 1), NextDeadline(None), Ticks(1000), NextExpired(None), Feed(DATA), Receives(1, b"z"), EndsStream(1), Writes(CLOSE)], ..FRESH },
    Row { name: "a server that drains leaves streams at work, and takes nothing for them", steps: &[Feed(OPENED), TakesStream(1, 1), Feed(DATA), Drains, TakesNothing(DATA), Receives(1, b"z"), ReceivesNone(1), Sends(1, b"a", 1), Leaves(TWO_ITEMS, 0, 11), EndsStream(1), Writes(CLOSE), IsAlive], ..FRESH },
];

#[rattlefmt::skip]
const SYNC_ROWS: &[Row] = &[
    Row { name: "sync rules have no streams", steps: &[RefusesItem(1, OTHER_RULES), RefusesSevensOn(1, 4194305, OTHER_RULES), RefusesEnd(1, OTHER_RULES), ReceivesError(1, OTHER_RULES), DropsReceiver(1), IsUnsent(1), NextHeard(None), Feed(OPENED), Writes(NO_STREAM_ANSWER), Feed(DATA), Feed(CLOSE), Writes(b""), TakesNone, EndsInput, RefusesItem(1, DISCONNECTED), RefusesEnd(1, DISCONNECTED), ReceivesError(1, OTHER_RULES)], ..FRESH },
    Row { name: "whatever a name is of, sync rules have its method", steps: &[Feed(ASKED), TAKES_FIRST, RefusesItem(1, OTHER_RULES), ReceivesError(1, OTHER_RULES), DropsReceiver(1), ANSWERS_FIRST, Writes(ECHOED)], ..FRESH },
];

const LONG_ROWS: &[Row] = &[Row {
    name: "an oversized frame is answered, and its stream goes on",
    steps: &[
        Feed(OPENED),
        Feed(OVERSIZED_DATA),
        FeedSevens(4194305),
        Writes(LONG_ANSWER),
        Feed(DATA),
        Receives(1, b"z"),
        ReceivesNone(1),
    ],
    ..FRESH
}];

// ---- over other halves

/// A stamped request, an item, an item with a bad stamp, and one with the next stamp.
const STAMPED_ITEMS: &[u8] = b"\
    \0\0\0\x12\0\0\0\x01\x01\x06\x0a\x09demo.Echo\x12\x04Chat\0\
    \0\0\0\x02\0\0\0\x01\x03\0a\x01\
    \0\0\0\x02\0\0\0\x01\x03\0b\x07\
    \0\0\0\x02\0\0\0\x01\x03\0c\x02";
/// The item `a` and a close, with their stamps.
const STAMPED_SENT: &[u8] = b"\0\0\0\x02\0\0\0\x01\x03\0a\0\0\0\0\x01\0\0\0\x01\x03\x05\x01";

const ITEM_ABOVE_LIMIT: Told = Others(
    "payload 4194304 bytes exceeds safe limit 4194303 bytes (MESSAGE_LENGTH_MAX - transform overhead); reduce payload size",
);

#[rattlefmt::skip]
const STAMP_ROWS: &[Row] = &[
    Row { name: "a bad stamp is dropped, and its stream goes on", steps: &[Feed(STAMPED_ITEMS), TakesStream(1, 1), Receives(1, b"a"), Receives(1, b"c"), ReceivesNone(1), Sends(1, b"a", 1), EndsStream(1), Writes(STAMPED_SENT), IsSent(1)], ..FRESH },
    Row { name: "that an item is too long is told before that it leaves no room for its stamp", steps: &[Feed(STAMPED_ITEMS), RefusesSevensOn(1, 4194305, LONG), RefusesSevensOn(1, 4194304, ITEM_ABOVE_LIMIT), SendsSevens(1, 4194303, 1)], ..FRESH },
];

const SWELLING_ROWS: &[Row] = &[Row {
    name: "a payload that opens too long is dropped",
    steps: &[Feed(OPENED), TakesNone, Writes(b""), IsAlive],
    ..FRESH
}];

const SHORT_ITEM_ABOVE_LIMIT: Told = Others(
    "payload 2 bytes exceeds safe limit 1 bytes (MESSAGE_LENGTH_MAX - transform overhead); reduce payload size",
);

#[rattlefmt::skip]
const SEALED_ROWS: &[Row] = &[
    Row { name: "what is not sealed is refused for the half's reason, and the stream goes on", start: Start::Room(4194304), steps: &[Feed(OPENED), TakesStream(1, 1), RefusesItem(1, SEALED_UP), RefusesEnd(1, SEALED_UP), StreamOf(1, Some(1)), Feed(DATA), Receives(1, b"z")], ..FRESH },
    Row { name: "an item above the safe limit is refused before it is sealed", start: Start::Room(1), steps: &[Feed(OPENED), RefusesSevensOn(1, 2, SHORT_ITEM_ABOVE_LIMIT), RefusesItem(1, SEALED_UP)], ..FRESH },
];

// ---- tables that hold over halves that stamp, too

#[test]
fn streams_are_opened(rt: HostRuntime) -> Tested {
    hold::<PlainServer>(&rt, rt.alloc(), OPENINGS)
}

#[test]
fn stamped_streams_are_opened(rt: HostRuntime) -> Tested {
    hold_stamped::<StampedServer>(&rt, rt.alloc(), OPENINGS)
}

#[test]
fn streams_receive(rt: HostRuntime) -> Tested {
    hold::<PlainServer>(&rt, rt.alloc(), ITEMS)
}

#[test]
fn stamped_streams_receive(rt: HostRuntime) -> Tested {
    hold_stamped::<StampedServer>(&rt, rt.alloc(), ITEMS)
}

#[test]
fn streams_are_dropped_and_fail(rt: HostRuntime) -> Tested {
    hold::<PlainServer>(&rt, rt.alloc(), DROPS)
}

#[test]
fn stamped_streams_are_dropped_and_fail(rt: HostRuntime) -> Tested {
    hold_stamped::<StampedServer>(&rt, rt.alloc(), DROPS)
}

#[test]
fn streams_end(rt: HostRuntime) -> Tested {
    hold::<PlainServer>(&rt, rt.alloc(), ENDS)
}

#[test]
fn stamped_streams_end(rt: HostRuntime) -> Tested {
    hold_stamped::<StampedServer>(&rt, rt.alloc(), ENDS)
}

#[test]
fn streams_send(rt: HostRuntime) -> Tested {
    hold::<PlainServer>(&rt, rt.alloc(), SENDS)
}

#[test]
fn stamped_streams_send(rt: HostRuntime) -> Tested {
    hold_stamped::<StampedServer>(&rt, rt.alloc(), SENDS)
}

#[test]
fn oversized_frames_leave_their_streams(rt: HostRuntime) -> Tested {
    hold::<PlainServer>(&rt, rt.alloc(), OVERLONG)
}

#[test]
fn stamped_oversized_frames_leave_their_streams(rt: HostRuntime) -> Tested {
    hold_stamped::<StampedServer>(&rt, rt.alloc(), OVERLONG)
}

// ---- tables that hold over one kind of halves

#[test]
fn streams_send_what_is_greatest(rt: HostRuntime) -> Tested {
    hold::<PlainServer>(&rt, rt.alloc(), GREATEST_ITEMS)
}

#[test]
fn stamped_streams_send_and_receive(rt: HostRuntime) -> Tested {
    hold::<StampedServer>(&rt, rt.alloc(), STAMPS)
}

#[test]
fn payloads_that_open_too_long_open_no_stream(rt: HostRuntime) -> Tested {
    hold::<SwellingServer>(&rt, rt.alloc(), SWELLING)
}

#[test]
fn what_is_not_sealed_is_refused(rt: HostRuntime) -> Tested {
    hold::<SealedServer>(&rt, rt.alloc(), SEALED)
}
