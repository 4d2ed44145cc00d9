//! Unary calls of a client, beyond the vectors of its table. Over plain halves: each refusal, and calls that expire or
//! are dropped. Over halves that stamp, too: the results of frames. All bytes are written by hand.
use crate::tests::client::*;
use crate::tests::clients::{CALLS_FIRST, CALLS_FIRST_IN_TIME, CALLS_SECOND, CALLS_SECOND_IN_TIME};
use crate::tests::kinds::{ASYNC_KIND, BOTH_KINDS, PlainClient, SYNC_KIND, StampedClient};
use crate::tests::script::Step::*;
use crate::tests::script::{Cuts, FRESH, Row, Start};
use crate::tests::told::USED_UP;
use crate::tests::under_test::{Table, Tested, hold, hold_stamped};
use ttrpc_bench::vectors::Told::{self, Others, Socket, Status};
use ttrpc_bench::vectors::{DISCONNECTED, LONG, LONG_TEXT};
use ttrpc_client::ClientKind;

const REQUESTS: &[Table<ClientKind>] = &[
    (BOTH_KINDS, REQUEST_ROWS),
    (SYNC_KIND, REFUSAL_ROWS),
    (ASYNC_KIND, ORDER_ROWS),
];

const FRAMES: &[Table<ClientKind>] = &[
    (BOTH_KINDS, FRAME_ROWS),
    (SYNC_KIND, SYNC_FRAME_ROWS),
    (ASYNC_KIND, ASYNC_FRAME_ROWS),
];

const DEADLINES: &[Table<ClientKind>] = &[
    (BOTH_KINDS, EXPIRY_ROWS),
    (SYNC_KIND, SYNC_EXPIRY_ROWS),
    (ASYNC_KIND, ASYNC_EXPIRY_ROWS),
];

const ENDS: &[Table<ClientKind>] = &[
    (ASYNC_KIND, DROP_ROWS),
    (BOTH_KINDS, FAILURE_ROWS),
    (SYNC_KIND, END_ROWS),
];

const OVERLONG: &[Table<ClientKind>] = &[(ASYNC_KIND, LONG_ROWS)];

/// The usual request with the id of the second call.
const ASKED_NEXT: &[u8] = b"\
    \0\0\0\x18\0\0\0\x03\x01\0\x0a\x09demo.Echo\x12\x04Echo\x1a\x03\x01\x02\x03\x20\x0a";
/// The first request and the second, one after the other.
const ASKED_BOTH: &[u8] = b"\
    \0\0\0\x18\0\0\0\x01\x01\0\x0a\x09demo.Echo\x12\x04Echo\x1a\x03\x01\x02\x03\x20\x0a\
    \0\0\0\x18\0\0\0\x03\x01\0\x0a\x09demo.Echo\x12\x04Echo\x1a\x03\x01\x02\x03\x20\x0a";
/// The usual request with the last id.
const ASKED_LAST: &[u8] = b"\
    \0\0\0\x18\xff\xff\xff\xff\x01\0\x0a\x09demo.Echo\x12\x04Echo\x1a\x03\x01\x02\x03\x20\x0a";
/// A response to the second call, with an empty status and the payload 2b.
const ANSWERED_NEXT: &[u8] = b"\0\0\0\x05\0\0\0\x03\x02\0\x0a\0\x12\x01\x2b";
/// A response with no status.
const ANSWERED_BARE: &[u8] = b"\0\0\0\x03\0\0\0\x01\x02\0\x12\x01\x2a";
/// A response with a status with the code -1.
const REFUSED_BELOW_ZERO: &[u8] = b"\
    \0\0\0\x0d\0\0\0\x01\x02\0\x0a\x0b\x08\xff\xff\xff\xff\xff\xff\xff\xff\xff\x01";

const ELAPSED: Told = Others("Request deadline elapsed");

const ELAPSED_DURING_WRITE: &str =
    "connection closed after a request deadline elapsed during write";

const CANCELLED_DURING_WRITE: &str = "connection closed after a request was cancelled during write";

#[rattlefmt::skip]
const REQUEST_ROWS: &[Row] = &[
    Row { name: "a request leaves as its frame", steps: &[CALLS_FIRST_IN_TIME, Waits(1), Lent(0), Lends(0, ASKED, 0, 0), Lends(8, ASKED, 0, 8), Lent(8), Reports, WritesBehind(ASKED, 8), Writes(b"")], ..FRESH },
    Row { name: "ids end at the last", start: Start::AtLastId, steps: &[Calls(10, 0, 4294967295), RefusesCall(USED_UP), DropsCall(1), RefusesCall(USED_UP), IsAlive, Waits(4294967295), Writes(ASKED_LAST)], ..FRESH },
    Row { name: "ids that no call has change nothing", steps: &[CALLS_FIRST_IN_TIME, Waits(0), Waits(2), Waits(3), Waits(4294967295), DropsCall(0), DropsCall(2), DropsCall(3), DropsCall(4294967295), IsAlive, NextDeadline(Some(10)), NextEnded(None), Writes(ASKED), Feed(ANSWERED), Gives(1, true, b"\x2a"), Waits(1), DropsCall(1), IsAlive, CALLS_SECOND_IN_TIME, Writes(ASKED_NEXT)], ..FRESH },
];

#[rattlefmt::skip]
const REFUSAL_ROWS: &[Row] = &[
    // With eleven bytes around it, a payload of 4194293 bytes is the greatest.
    Row { name: "requests above the greatest length are refused", steps: &[CallsSevens(4194293, 1), RefusesSevens(4194294, LONG), CALLS_SECOND, Waits(3)], ..FRESH },
];

#[rattlefmt::skip]
const ORDER_ROWS: &[Row] = &[
    Row { name: "ids are odd and rise", steps: &[CALLS_FIRST_IN_TIME, CALLS_SECOND_IN_TIME, DropsCall(3), Calls(10, 0, 5)], ..FRESH },
    Row { name: "that a request is too long is told before that no id is left, and a failure before both", start: Start::AtLastId, steps: &[Calls(0, 0, 4294967295), RefusesSevens(4194294, LONG), EndsInput, RefusesSevens(4194294, DISCONNECTED), RefusesCall(DISCONNECTED)], ..FRESH },
];

#[rattlefmt::skip]
const FRAME_ROWS: &[Row] = &[
    Row { name: "flags of a response mean nothing", steps: &[CALLS_FIRST, Feed(ANSWERED_FLAGGED), Gives(1, true, b"\x2a"), IsGone], ..FRESH },
    Row { name: "a response with no status is the answer", steps: &[CALLS_FIRST, Feed(ANSWERED_BARE), Gives(1, false, b"\x2a"), IsGone], ..FRESH },
    Row { name: "a code below zero is a refusal", steps: &[CALLS_FIRST, Feed(REFUSED_BELOW_ZERO), Ends(1, Status(-1, "")), IsGone], ..FRESH },
    Row { name: "frames that find no call do nothing", steps: &[CALLS_FIRST, Feed(FOREIGN), Waits(0), Waits(1), Waits(2), Waits(3), Waits(5), Waits(4294967295), IsAlive, DropsCall(1), DropsCall(7), IsGone, CALLS_SECOND], ..FRESH },
];

#[rattlefmt::skip]
const SYNC_FRAME_ROWS: &[Row] = &[
    Row { name: "the first frame decides, and its outcome is kept until it is taken", steps: &[CALLS_FIRST, Feed(ANSWERED), Feed(REFUSED), Ticks(18446744073709551615), EndsInput, Gives(1, true, b"\x2a"), Waits(1)], ..FRESH },
];

#[rattlefmt::skip]
const ASYNC_FRAME_ROWS: &[Row] = &[
    Row { name: "answers are given by their ids", steps: &[CALLS_FIRST, CALLS_SECOND, Feed(ANSWERED_NEXT), Waits(1), Feed(ANSWERED), Gives(1, true, b"\x2a"), Gives(3, true, b"\x2b"), Waits(3)], ..FRESH },
    Row { name: "calls are told of in the order in which they ended", steps: &[NextEnded(None), CALLS_FIRST, CALLS_SECOND_IN_TIME, Calls(0, 0, 5), NextEnded(None), Feed(ANSWERED), Ticks(10), NextEnded(Some(1)), NextEnded(Some(3)), NextEnded(None), Gives(1, true, b"\x2a"), Ends(3, ELAPSED), Waits(3), NextEnded(None)], ..FRESH },
];

#[rattlefmt::skip]
const EXPIRY_ROWS: &[Row] = &[
    Row { name: "a request that left may expire", steps: &[CALLS_FIRST_IN_TIME, Leaves(ASKED, 0, 34), Ticks(10), Ends(1, ELAPSED), Waits(1), Feed(ANSWERED), Waits(1), CALLS_SECOND_IN_TIME, Writes(ASKED_NEXT)], ..FRESH },
    Row { name: "the next deadline is the least of those that wait", steps: &[NextDeadline(None), CALLS_FIRST, NextDeadline(None), CALLS_SECOND_IN_TIME, NextDeadline(Some(10)), Calls(3, 4, 5), NextDeadline(Some(7)), Ticks(7), NextDeadline(Some(10)), DropsCall(3), NextDeadline(None), NextEnded(Some(5)), NextEnded(None), Ends(5, ELAPSED), Waits(5)], ..FRESH },
    Row { name: "a moment that never comes is no deadline", steps: &[Calls(-1, 1, 1), NextDeadline(None), Calls(-1, 0, 3), NextDeadline(Some(18446744073709551615))], ..FRESH },
    Row { name: "after a failure there is no deadline", steps: &[CALLS_FIRST_IN_TIME, NextDeadline(Some(10)), FailsBy("first"), NextDeadline(None), Ends(1, Socket("first")), NextEnded(None)], ..FRESH },
];

#[rattlefmt::skip]
const SYNC_EXPIRY_ROWS: &[Row] = &[
    // A client of kind `Sync` writes a begun request in full, even if its call has ended.
    Row { name: "a begun request is written in full", steps: &[CALLS_FIRST_IN_TIME, Leaves(ASKED, 0, 12), Ticks(10), Ends(1, ELAPSED), Waits(1), WritesBehind(ASKED, 12), CALLS_SECOND_IN_TIME, Leaves(ASKED_NEXT, 0, 12), DropsCall(3), WritesBehind(ASKED_NEXT, 12), IsAlive], ..FRESH },
    Row { name: "a timeout of 0 is no deadline, and a negative one is a long one", steps: &[CALLS_FIRST, Calls(-1, 0, 3), Calls(-1, 1, 5), Calls(1, 18446744073709551615, 7), Ticks(18446744073709551614), Waits(3), Ticks(18446744073709551615), Ends(3, ELAPSED), Waits(3), Waits(1), Waits(5), Waits(7)], ..FRESH },
];

#[rattlefmt::skip]
const ASYNC_EXPIRY_ROWS: &[Row] = &[
    Row { name: "a deadline in a request breaks the connection", steps: &[CALLS_FIRST_IN_TIME, Leaves(ASKED, 0, 12), Ticks(9), Waits(1), IsAlive, Ticks(10), Ends(1, ELAPSED), Waits(1), HasFailed(ELAPSED_DURING_WRITE)], ..FRESH },
    Row { name: "a request has begun once a byte was lent, also where none was reported", steps: &[CALLS_FIRST_IN_TIME, Lends(12, ASKED, 0, 12), Lent(12), Ticks(10), Ends(1, ELAPSED), Waits(1), HasFailed(ELAPSED_DURING_WRITE), Lent(0)], ..FRESH },
    Row { name: "all that are due expire before the connection fails, and the other call has the failure", steps: &[CALLS_FIRST_IN_TIME, Calls(7, 0, 3), Calls(20, 0, 5), Leaves(ASKED, 0, 1), Ticks(12), Ends(3, ELAPSED), Waits(3), Ends(1, ELAPSED), Waits(1), Ends(5, Socket(ELAPSED_DURING_WRITE)), Waits(5), HasFailed(ELAPSED_DURING_WRITE)], ..FRESH },
    Row { name: "a request that has not begun is thrown away, and the other leaves", steps: &[Calls(10, 7, 1), Calls(9, 7, 3), Ticks(16), Ends(3, ELAPSED), Waits(3), Waits(1), Writes(ASKED), IsAlive], ..FRESH },
];

#[rattlefmt::skip]
const DROP_ROWS: &[Row] = &[
    Row { name: "a dropped request is thrown away", steps: &[CALLS_FIRST_IN_TIME, DropsCall(1), CALLS_SECOND_IN_TIME, Ticks(5), Writes(ASKED_NEXT), IsGone], ..FRESH },
    Row { name: "a drop in a request breaks the connection", steps: &[CALLS_FIRST_IN_TIME, Leaves(ASKED, 0, 12), DropsCall(1), Waits(1), HasFailed(CANCELLED_DURING_WRITE)], ..FRESH },
    Row { name: "a call that ended leaves its request when it is dropped", steps: &[CALLS_FIRST_IN_TIME, CALLS_SECOND_IN_TIME, Leaves(ASKED, 0, 12), Feed(ANSWERED), Feed(ANSWERED_NEXT), DropsCall(1), DropsCall(3), Ticks(10), IsAlive, WritesBehind(ASKED_BOTH, 12)], ..FRESH },
    Row { name: "a drop after a failure changes nothing else", steps: &[CALLS_FIRST_IN_TIME, Leaves(ASKED, 0, 12), EndsInput, DropsCall(1), Waits(1), HasFailed("socket disconnected")], ..FRESH },
];

const FAILURE_ROWS: &[Row] = &[Row {
    name: "a failure is the outcome of what waits, once, and a tick changes nothing any more",
    steps: &[
        CALLS_FIRST_IN_TIME,
        CALLS_SECOND_IN_TIME,
        Calls(5, 0, 5),
        Ticks(5),
        Feed(ANSWERED_NEXT),
        FailsBy("first"),
        FailsBy("second"),
        EndsInput,
        Ticks(10),
        Ends(1, Socket("first")),
        Waits(1),
        Gives(3, true, b"\x2b"),
        Ends(5, ELAPSED),
        Waits(5),
        HasFailed("first"),
    ],
    ..FRESH
}];

#[rattlefmt::skip]
const END_ROWS: &[Row] = &[
    Row { name: "the input ends before a frame", steps: &[EndsInput, HasFailed("socket disconnected")], ..FRESH },
    Row { name: "the input ends behind a frame", steps: &[Feed(ANSWERED), EndsInput, HasFailed("socket disconnected")], ..FRESH },
    Row { name: "a boundary is where no frame has begun", cuts: Cuts::Inside(15), steps: &[AtBoundary(true), CALLS_FIRST_IN_TIME, FeedToCut(ANSWERED), AtBoundary(false), FeedFromCut(ANSWERED), AtBoundary(true), Gives(1, true, b"\x2a")], ..FRESH },
    Row { name: "the input ends inside a frame", cuts: Cuts::Inside(15), steps: &[FeedToCut(ANSWERED), EndsInput, HasFailed("socket disconnected inside a frame")], ..FRESH },
];

const LONG_ROWS: &[Row] = &[Row {
    name: "oversized frames are told with their last byte, and the next frame is read",
    steps: &[
        CALLS_FIRST,
        Feed(OVERSIZED),
        CALLS_SECOND,
        FeedSevens(4194304),
        Waits(1),
        FeedSevens(1),
        Feed(ANSWERED_NEXT),
        Ends(1, Status(3, LONG_TEXT)),
        IsGone,
        Gives(3, true, b"\x2b"),
    ],
    ..FRESH
}];

/// Each runs once, by its cut, since each of its bytes comes alone anyway.
const SINGLE_ROWS: &[Row] = &[Row {
    name: "an oversized frame may come byte by byte",
    cuts: Cuts::Inside(2),
    steps: &[
        CALLS_FIRST,
        Feed(OVERSIZED),
        FeedSingly(4194304),
        Waits(1),
        FeedSingly(1),
        Ends(1, Status(3, LONG_TEXT)),
    ],
    ..FRESH
}];

// ---- tables that hold over halves that stamp, too

#[test]
fn frames_give_outcomes(rt: HostRuntime) -> Tested {
    hold::<PlainClient>(&rt, rt.alloc(), FRAMES)
}

#[test]
fn stamped_frames_give_outcomes(rt: HostRuntime) -> Tested {
    hold_stamped::<StampedClient>(&rt, rt.alloc(), FRAMES)
}

// ---- tables that hold over one kind of halves

#[test]
fn requests_are_numbered_queued_and_refused(rt: HostRuntime) -> Tested {
    hold::<PlainClient>(&rt, rt.alloc(), REQUESTS)
}

#[test]
fn calls_expire(rt: HostRuntime) -> Tested {
    hold::<PlainClient>(&rt, rt.alloc(), DEADLINES)
}

#[test]
fn calls_are_dropped_and_connections_fail(rt: HostRuntime) -> Tested {
    hold::<PlainClient>(&rt, rt.alloc(), ENDS)
}

#[test]
fn oversized_responses_are_told(rt: HostRuntime) -> Tested {
    hold::<PlainClient>(&rt, rt.alloc(), OVERLONG)
}

#[test]
fn a_sync_client_takes_an_oversized_frame_byte_by_byte(rt: HostRuntime) -> Tested {
    hold::<PlainClient>(&rt, rt.alloc(), &[(SYNC_KIND, SINGLE_ROWS)])
}

#[test]
fn an_async_client_takes_an_oversized_frame_byte_by_byte(rt: HostRuntime) -> Tested {
    hold::<PlainClient>(&rt, rt.alloc(), &[(ASYNC_KIND, SINGLE_ROWS)])
}
