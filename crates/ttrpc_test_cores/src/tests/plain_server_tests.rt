//! Each row of the server's table under sync rules, and each refusal, over plain halves. All bytes are written by hand.
use crate::server::*;
use crate::tests::kinds::{PlainServer, SYNC_RULES, StampedServer};
use crate::tests::script::Step::*;
use crate::tests::script::{Cuts, FRESH, Row};
use crate::tests::servers::{
    ANSWERS_FIRST, GREATEST_IS_SENT, KNOWN_ROWS, LONG_ROWS, SINGLE_ROWS, TAKES_FIRST,
    UNREADABLE_ROWS,
};
use crate::tests::told::UNKNOWN_JOB;
use crate::tests::under_test::{Table, Tested, hold, hold_stamped};
use ttrpc_bench::vectors::Told::{self, Others, Socket};
use ttrpc_server::Rules;

const TABLES: &[Table<Rules>] = &[
    (SYNC_RULES, KNOWN_ROWS),
    (SYNC_RULES, ANSWERED_ROWS),
    (SYNC_RULES, JOB_ROWS),
];

const PARTS: &[Table<Rules>] = &[
    (SYNC_RULES, UNREADABLE_ROWS),
    (SYNC_RULES, LENT_ROWS),
    (SYNC_RULES, FAILURE_ROWS),
    (SYNC_RULES, FRONT_ROWS),
];

const OVERLONG: &[Table<Rules>] = &[(SYNC_RULES, LONG_ROWS)];

const INSIDE: &str = "socket disconnected inside a frame";

/// The first seven bytes of the usual request.
const SEVEN_OF_ASKED: &[u8] = b"\0\0\0\x14\0\0\0";
/// A request without a payload, with the id 0.
const EVEN: &[u8] = b"\0\0\0\x11\0\0\0\0\x01\0\x0a\x09demo.Echo\x12\x04Echo";
/// The answer to `EVEN`.
const EVEN_ECHOED: &[u8] = b"\0\0\0\x02\0\0\0\0\x02\0\x0a\0";
/// The answers to two requests with one id.
const TWICE_ECHOED: &[u8] = b"\
    \0\0\0\x05\0\0\0\x01\x02\0\x0a\0\x12\x01\x2a\
    \0\0\0\x05\0\0\0\x01\x02\0\x0a\0\x12\x01\x2b";
/// A request to the name of a stream, which sync rules don't look for.
const NO_STREAM: &[u8] = b"\0\0\0\x11\0\0\0\x01\x01\0\x0a\x09demo.Echo\x12\x04Chat";
/// Data, a close of a stream, a response, and frames of unknown types.
const SKIPPED: &[u8] = b"\
    \0\0\0\x01\0\0\0\x01\x03\0z\
    \0\0\0\0\0\0\0\x01\x03\x05\
    \0\0\0\x02\0\0\0\x01\x02\0\x0a\0\
    \0\0\0\0\0\0\0\x01\0\0\
    \0\0\0\0\0\0\0\x02\xff\0";
/// The replacement of a response that is a byte longer than the greatest.
const REPLACED: &[u8] = b"\
    \0\0\0\x60\0\0\0\x01\x02\0\
    \x0a\x5e\x08\x03\x12\x5aresponse payload 4194305 bytes exceeds safe limit 4194304 bytes (after transform overhead)";

#[rattlefmt::skip]
const ANSWERED_ROWS: &[Row] = &[
    Row { name: "a request may have no payload", steps: &[Serves(EMPTY, EMPTY_ECHOED)], ..FRESH },
    Row { name: "even ids are served", steps: &[Serves(EVEN, EVEN_ECHOED)], ..FRESH },
    Row { name: "one id may have two requests", steps: &[Serves(TWICE, TWICE_ECHOED)], ..FRESH },
    Row { name: "unknown services are answered", steps: &[Serves(NO_SERVICE, NO_SERVICE_ANSWER)], ..FRESH },
    Row { name: "unknown methods are answered", steps: &[Serves(NO_METHOD, NO_METHOD_ANSWER)], ..FRESH },
    Row { name: "names of streams are no methods", steps: &[Serves(NO_STREAM, NO_STREAM_ANSWER)], ..FRESH },
    Row { name: "other frames are skipped", steps: &[Serves(SKIPPED, b"")], ..FRESH },
];

#[rattlefmt::skip]
const JOB_ROWS: &[Row] = &[
    Row { name: "a job that was taken has a stream until it is answered", steps: &[StreamOf(1, None), Feed(ASKED), StreamOf(1, None), TAKES_FIRST, StreamOf(1, Some(1)), StreamOf(2, None), ANSWERS_FIRST, StreamOf(1, None)], ..FRESH },
    Row { name: "responses end no job, and a job that ends sends nothing", steps: &[RefusesFinish(1, UNKNOWN_JOB), Feed(ASKED), RefusesFinish(1, UNKNOWN_JOB), TAKES_FIRST, RefusesFinish(2, UNKNOWN_JOB), Responds(1, b"\x2a"), Responds(1, b"\x2b"), Jobs(0, 1), StreamOf(1, Some(1)), Finishes(1), Jobs(0, 0), StreamOf(1, None), RefusesFinish(1, UNKNOWN_JOB), RefusesAnswer(1, UNKNOWN_JOB), Writes(TWICE_ECHOED), HasUnsent(false), IsAlive], ..FRESH },
    Row { name: "a job is answered after a response, too", steps: &[Feed(ASKED), TAKES_FIRST, Responds(1, b"\x2a"), Answers(1, b"\x2b"), RefusesFinish(1, UNKNOWN_JOB), Writes(TWICE_ECHOED)], ..FRESH },
    Row { name: "a response needs no job", steps: &[Responds(1, b"\x2a"), Writes(ECHOED)], ..FRESH },
    Row { name: "an answer that was refused is given again", steps: &[Feed(ASKED), TAKES_FIRST, AnswersAgain(2, UNKNOWN_JOB, 1, b"\x2a"), Writes(ECHOED)], ..FRESH },
    Row { name: "jobs and what is unsent are counted", steps: &[Jobs(0, 0), HasUnsent(false), Feed(TWICE), Jobs(2, 0), TAKES_FIRST, Jobs(1, 1), Takes(2, 1, b"\x2b"), Jobs(0, 2), HasUnsent(false), ANSWERS_FIRST, Jobs(0, 1), HasUnsent(true), Answers(2, b"\x2b"), Jobs(0, 0), Writes(TWICE_ECHOED), HasUnsent(false)], ..FRESH },
];

#[rattlefmt::skip]
const LENT_ROWS: &[Row] = &[
    Row { name: "a job is handed out and answered once, and its answer is lent in parts", steps: &[TakesNone, Feed(ASKED), RefusesAnswer(1, UNKNOWN_JOB), TAKES_FIRST, TakesNone, RefusesAnswer(2, UNKNOWN_JOB), ANSWERS_FIRST, RefusesAnswer(1, UNKNOWN_JOB), IsAlive, Lent(0), Lends(0, ECHOED, 0, 0), Lends(8, ECHOED, 0, 8), Lent(8), Reports, Lends(8, ECHOED, 8, 15), Reports, Lends(8, ECHOED, 15, 15)], ..FRESH },
    GREATEST_IS_SENT,
    // One byte more is too many.
    Row { name: "answers above the limit are replaced", steps: &[Feed(ASKED), TAKES_FIRST, AnswersSevens(1, 4194298), Writes(REPLACED)], ..FRESH },
];

#[rattlefmt::skip]
const FAILURE_ROWS: &[Row] = &[
    // The answer of the other job stays in the queue, and isn't lent.
    Row { name: "a handler's error closes the connection", steps: &[Feed(ASKED), Feed(ASKED), TAKES_FIRST, Takes(2, 1, b"\x2a"), Answers(1, b""), Breaks(2), HasFailed("connection closed after a handler error")], ..FRESH },
    Row { name: "nothing is responded to or ended after a failure", steps: &[Feed(ASKED), TAKES_FIRST, FailsBy("first"), RefusesResponse(1, Socket("first")), RefusesFinish(1, Socket("first")), RefusesFinish(2, Socket("first")), Jobs(0, 1)], ..FRESH },
    Row { name: "the first failure is kept", steps: &[FailsBy("first"), FailsBy("second"), EndsInput, HasFailed("first")], ..FRESH },
    Row { name: "nothing is lent any more after a failure", steps: &[Feed(ASKED), TAKES_FIRST, ANSWERS_FIRST, Lends(8, ECHOED, 0, 8), Lent(8), FailsBy("first"), HasFailed("first"), Lent(0), HasUnsent(true)], ..FRESH },
    Row { name: "the input ends between two frames", steps: &[Feed(ASKED), EndsInput, HasFailed("socket disconnected")], ..FRESH },
    Row { name: "the input ends inside a frame", cuts: Cuts::Inside(30), steps: &[FeedToCut(ASKED), EndsInput, HasFailed(INSIDE)], ..FRESH },
];

#[rattlefmt::skip]
const FRONT_ROWS: &[Row] = &[
    // The second request becomes a job only after the first is answered, so the answers are in the order of the frames.
    Row { name: "fronts of two requests end behind their frames", steps: &[Frame(TWICE, 0, 30), TAKES_FIRST, ANSWERS_FIRST, TakesNone, Frame(TWICE, 30, 30), Takes(2, 1, b"\x2b"), Answers(2, b"\x2b"), TakesNone, Writes(TWICE_ECHOED)], ..FRESH },
    Row { name: "fronts of a piece that ends inside a frame are all of it", cuts: Cuts::Inside(30), steps: &[FrameToCut(ASKED), AtBoundary(false), TakesNone, FrameFromCut(ASKED), TAKES_FIRST, ANSWERS_FIRST, TakesNone], ..FRESH },
    Row { name: "a front of an empty piece has no bytes", steps: &[Front(b"", 0), AtBoundary(true), TakesNone], ..FRESH },
    Row { name: "a boundary is where no frame has begun", cuts: Cuts::Inside(30), steps: &[AtBoundary(true), FeedToCut(ASKED), AtBoundary(false), FeedFromCut(ASKED), AtBoundary(true), FeedToCut(ASKED), AtBoundary(false), FeedFromCut(ASKED), AtBoundary(true)], ..FRESH },
    Row { name: "a core that has failed takes no front that begins a frame", steps: &[FailsBy("first"), RefusesFront(ASKED, 7, Socket("first")), AtBoundary(true), HasFailed("first")], ..FRESH },
    Row { name: "a core that has failed takes no front that ends a frame", steps: &[Feed(SEVEN_OF_ASKED), FailsBy("first"), RefusesFront(ASKED, 7, Socket("first")), AtBoundary(false), HasFailed("first")], ..FRESH },
];

// ---- tables that hold over halves that stamp, too

#[test]
fn a_server_keeps_its_table(rt: HostRuntime) -> Tested {
    hold::<PlainServer>(&rt, rt.alloc(), TABLES)
}

#[test]
fn a_server_keeps_its_table_over_stamps(rt: HostRuntime) -> Tested {
    hold_stamped::<StampedServer>(&rt, rt.alloc(), TABLES)
}

#[test]
fn oversized_requests_are_answered(rt: HostRuntime) -> Tested {
    hold::<PlainServer>(&rt, rt.alloc(), OVERLONG)
}

#[test]
fn a_sync_server_takes_an_oversized_frame_byte_by_byte(rt: HostRuntime) -> Tested {
    hold::<PlainServer>(&rt, rt.alloc(), &[(SYNC_RULES, SINGLE_ROWS)])
}

#[test]
fn stamped_oversized_requests_are_answered(rt: HostRuntime) -> Tested {
    hold_stamped::<StampedServer>(&rt, rt.alloc(), OVERLONG)
}

// ---- tables that hold over one kind of halves

#[test]
fn a_server_takes_parts_and_fails(rt: HostRuntime) -> Tested {
    hold::<PlainServer>(&rt, rt.alloc(), PARTS)
}
