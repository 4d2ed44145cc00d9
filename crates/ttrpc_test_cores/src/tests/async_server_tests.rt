//! Each row of the server's table under async rules, for unary jobs, and each refusal. All bytes are written by hand.
use crate::server::*;
use crate::tests::kinds::{
    ASYNC_RULES, BOTH_RULES, PlainServer, SYNC_RULES, SealedServer, StampedServer, SwellingServer,
};
use crate::tests::script::Step::*;
use crate::tests::script::{Cuts, FRESH, Row, Start};
use crate::tests::servers::{
    ABOVE_LIMIT_ROWS, ANSWERS_FIRST, BAD_STAMP_FIRST, EOF_ANSWER, GREATEST_IS_SENT, KNOWN_ROWS,
    LONG_ANSWER, LONG_ROWS, SINGLE_ROWS, STAMPED_ECHOED, TAKES_FIRST, UNREADABLE_ROWS,
};
use crate::tests::streams::{IN_USE, INACTIVE, NOT_ABOVE};
use crate::tests::told::{OTHER_RULES, SEALED_UP, UNKNOWN_JOB};
use crate::tests::under_test::{Table, Tested, hold, hold_stamped};
use ttrpc_bench::vectors::Told::{self, Others, Socket};
use ttrpc_server::Rules;

const TIMED_TABLES: &[Table<Rules>] = &[
    (ASYNC_RULES, DEADLINE_ROWS),
    (ASYNC_RULES, EXPIRY_ROWS),
    (SYNC_RULES, UNTIMED_ROWS),
];

const DRAINS: &[Table<Rules>] = &[(BOTH_RULES, DRAINING_ROWS)];

const TABLES: &[Table<Rules>] = &[
    (ASYNC_RULES, KNOWN_ROWS),
    (ASYNC_RULES, ANSWERED_ROWS),
    (ASYNC_RULES, RISING_ROWS),
    (ASYNC_RULES, JOB_ROWS),
];

const OVERLONG: &[Table<Rules>] = &[(ASYNC_RULES, LONG_ROWS), (ASYNC_RULES, LONG_ABOVE_ROWS)];

const STAMPS: &[Table<Rules>] = &[(ASYNC_RULES, STAMP_ROWS), (ASYNC_RULES, ABOVE_LIMIT_ROWS)];

const ANSWERS: &[Table<Rules>] = &[
    (ASYNC_RULES, UNREADABLE_ROWS),
    (ASYNC_RULES, UNREAD_ROWS),
    (ASYNC_RULES, GREATEST_ROWS),
];

const SWELLING: &[Table<Rules>] = &[(ASYNC_RULES, SWELLING_ROWS)];

const SEALED: &[Table<Rules>] = &[(ASYNC_RULES, SEALED_ROWS)];

const UNSEALED: &[Table<Rules>] = &[(ASYNC_RULES, UNSEALED_ROWS)];

/// Two frames with even ids: a request to `x`, `y`, and a frame of an unknown type.
const EVEN_IDS: &[u8] = b"\0\0\0\x06\0\0\0\x02\x01\0\x0a\x01x\x12\x01y\0\0\0\0\0\0\0\x02\x09\0";
/// The answers to `EVEN_IDS`.
const EVEN_IDS_ANSWER: &[u8] = b"\
    \0\0\0\x1b\0\0\0\x02\x02\0\x0a\x19\x08\x03\x12\x15stream id must be odd\
    \0\0\0\x1b\0\0\0\x02\x02\0\x0a\x19\x08\x03\x12\x15stream id must be odd";
/// Frames of unknown types, and a response, all with an odd id.
const OTHER_TYPES: &[u8] = b"\
    \0\0\0\0\0\0\0\x01\x09\0\
    \0\0\0\x02\0\0\0\x01\x02\0\x0a\0\
    \0\0\0\0\0\0\0\x01\0\0";
/// Data with the id of no job.
const DATA: &[u8] = b"\0\0\0\x01\0\0\0\x03\x03\0z";
/// The answer to `DATA`.
const DATA_ANSWER: &[u8] = b"\
    \0\0\0\x20\0\0\0\x03\x02\0\x0a\x1e\x08\x03\x12\x1aStream is no longer active";
/// A request of stream 1, and data with its id.
const ASKED_AND_DATA: &[u8] = b"\
    \0\0\0\x14\0\0\0\x01\x01\0\x0a\x09demo.Echo\x12\x04Echo\x1a\x01\x2a\
    \0\0\0\x01\0\0\0\x01\x03\0z";
/// The answer to that data.
const OWN_DATA_ANSWER: &[u8] = b"\
    \0\0\0\x20\0\0\0\x01\x02\0\x0a\x1e\x08\x03\x12\x1aStream is no longer active";
/// A request of stream 3.
const ASKED_BEHIND: &[u8] = b"\0\0\0\x14\0\0\0\x03\x01\0\x0a\x09demo.Echo\x12\x04Echo\x1a\x01\x2b";
/// The echo of `ASKED_BEHIND`.
const ECHOED_BEHIND: &[u8] = b"\0\0\0\x05\0\0\0\x03\x02\0\x0a\0\x12\x01\x2b";
/// A request, and an unreadable request with the id of that active job.
const ASKED_AND_UNREADABLE: &[u8] = b"\
    \0\0\0\x14\0\0\0\x01\x01\0\x0a\x09demo.Echo\x12\x04Echo\x1a\x01\x2a\
    \0\0\0\x03\0\0\0\x01\x01\0\x0a\x05a";
/// A request to an unknown service.
const OTHER_SERVICE: &[u8] = b"\0\0\0\x06\0\0\0\x01\x01\0\x0a\x01x\x12\x01y";
/// The answer to `OTHER_SERVICE`.
const OTHER_SERVICE_ANSWER: &[u8] = b"\
    \0\0\0\x1e\0\0\0\x01\x02\0\x0a\x1c\x08\x03\x12\x18x service does not exist";
/// A request to `y` of a service that has no methods.
const EMPTY_SERVICE: &[u8] = b"\0\0\0\x0e\0\0\0\x01\x01\0\x0a\x09demo.None\x12\x01y";
/// The answer to `EMPTY_SERVICE`.
const EMPTY_SERVICE_ANSWER: &[u8] = b"\0\0\0\x0e\0\0\0\x01\x02\0\x0a\x0c\x08\x0c\x12\x08y method";
/// The answer to a request of an unknown method.
const NOPE: &[u8] = b"\0\0\0\x11\0\0\0\x01\x02\0\x0a\x0f\x08\x0c\x12\x0bNope method";
/// The answer after a handler's error that is a status with the code 5 and the message `gone`.
const STATUS_ANSWER: &[u8] = b"\
    \0\0\0\x18\0\0\0\x01\x02\0\x0a\x16\x08\x02\x12\x12rpc status: 5 gone";

#[rattlefmt::skip]
const ANSWERED_ROWS: &[Row] = &[
    Row { name: "even ids are refused, whatever the type", steps: &[Serves(EVEN_IDS, EVEN_IDS_ANSWER)], ..FRESH },
    Row { name: "other types are ignored", steps: &[Serves(OTHER_TYPES, b""), IsAlive], ..FRESH },
    Row { name: "data find no stream", steps: &[Serves(DATA, DATA_ANSWER)], ..FRESH },
    Row { name: "data find no stream under the id of a job, which goes on", steps: &[Feed(ASKED_AND_DATA), Writes(OWN_DATA_ANSWER), TAKES_FIRST, ANSWERS_FIRST, Writes(ECHOED)], ..FRESH },
    Row { name: "an id with an active job is in use, and old behind its answer", steps: &[Feed(TWICE), Writes(IN_USE), TAKES_FIRST, TakesNone, Feed(ASKED), Writes(IN_USE), ANSWERS_FIRST, Writes(ECHOED), Feed(ASKED), Writes(NOT_ABOVE), TakesNone], ..FRESH },
    Row { name: "an id in use is told before the request is read", steps: &[Feed(ASKED_AND_UNREADABLE), Writes(IN_USE)], ..FRESH },
    Row { name: "unknown services are answered", steps: &[Serves(OTHER_SERVICE, OTHER_SERVICE_ANSWER)], ..FRESH },
    Row { name: "unknown methods are answered", steps: &[Serves(NO_METHOD, NOPE)], ..FRESH },
    Row { name: "those of a service without methods, too", steps: &[Serves(EMPTY_SERVICE, EMPTY_SERVICE_ANSWER)], ..FRESH },
];

// ---- ids that rise

/// A request of stream 3 to `Echo` with the payload 2a.
const ASKED_THIRD: &[u8] = b"\0\0\0\x14\0\0\0\x03\x01\0\x0a\x09demo.Echo\x12\x04Echo\x1a\x01\x2a";
/// The answer to `ASKED_THIRD`.
const ECHOED_THIRD: &[u8] = b"\0\0\0\x05\0\0\0\x03\x02\0\x0a\0\x12\x01\x2a";
/// The answer to a request of stream 1 after one of stream 3.
const BELOW_THIRD: &[u8] = b"\
    \0\0\0\x20\0\0\0\x01\x02\0\x0a\x1e\x08\x03\x12\x1astream id 1 is not above 3";
/// A request of stream 5 to an unknown service.
const OTHER_SERVICE_FIFTH: &[u8] = b"\0\0\0\x06\0\0\0\x05\x01\0\x0a\x01x\x12\x01y";
/// The answer to `OTHER_SERVICE_FIFTH`.
const OTHER_SERVICE_FIFTH_ANSWER: &[u8] = b"\
    \0\0\0\x1e\0\0\0\x05\x02\0\x0a\x1c\x08\x03\x12\x18x service does not exist";
/// The answer to a request of stream 3 after one of stream 5.
const BELOW_FIFTH: &[u8] = b"\
    \0\0\0\x20\0\0\0\x03\x02\0\x0a\x1e\x08\x03\x12\x1astream id 3 is not above 5";
/// A request that opens a stream of `Chat` with the id 7.
const OPENED_SEVENTH: &[u8] = b"\0\0\0\x11\0\0\0\x07\x01\x06\x0a\x09demo.Echo\x12\x04Chat";
/// The close of stream 7.
const CLOSED_SEVENTH: &[u8] = b"\0\0\0\0\0\0\0\x07\x03\x05";
/// A request of stream 7 to `Echo` with the payload 2a.
const ASKED_SEVENTH: &[u8] = b"\0\0\0\x14\0\0\0\x07\x01\0\x0a\x09demo.Echo\x12\x04Echo\x1a\x01\x2a";
/// The answer to `ASKED_SEVENTH` after another request of that stream.
const AT_SEVENTH: &[u8] = b"\
    \0\0\0\x20\0\0\0\x07\x02\0\x0a\x1e\x08\x03\x12\x1astream id 7 is not above 7";
/// Data of stream 1.
const DATA_FIRST: &[u8] = b"\0\0\0\x01\0\0\0\x01\x03\0z";
/// The header of a frame of stream 9 that is one byte too long.
const OVERSIZED_NINTH: &[u8] = b"\0\x40\0\x01\0\0\0\x09\x01\0";
/// The answer to `OVERSIZED_NINTH`.
const LONG_NINTH: &[u8] = b"\
    \0\0\0\x43\0\0\0\x09\x02\0\
    \x0a\x41\x08\x03\x12\x3dmessage length 4194305 exceed maximum message size of 4194304";

#[rattlefmt::skip]
const RISING_ROWS: &[Row] = &[
    Row { name: "an id below the newest is refused, and makes no job", steps: &[Feed(ASKED_THIRD), Takes(1, 3, b"\x2a"), Answers(1, b"\x2a"), Writes(ECHOED_THIRD), Feed(ASKED), Writes(BELOW_THIRD), TakesNone], ..FRESH },
    Row { name: "an id that was answered isn't above itself", steps: &[Feed(ASKED), TAKES_FIRST, ANSWERS_FIRST, Writes(ECHOED), Feed(ASKED), Writes(NOT_ABOVE), TakesNone], ..FRESH },
    Row { name: "a request that can't be read is the newest all the same", steps: &[Feed(UNREADABLE), HasUnsent(true), Feed(ASKED), TakesNone], ..FRESH },
    Row { name: "so is one that makes no job", steps: &[Feed(OTHER_SERVICE_FIFTH), Writes(OTHER_SERVICE_FIFTH_ANSWER), Feed(ASKED_THIRD), Writes(BELOW_FIFTH), TakesNone], ..FRESH },
    Row { name: "and one that opens a stream, which then ends", steps: &[Feed(OPENED_SEVENTH), TakesStream(1, 7), EndsStream(1), Writes(CLOSED_SEVENTH), Feed(ASKED_SEVENTH), Writes(AT_SEVENTH), TakesNone], ..FRESH },
    Row { name: "a refused id isn't the newest", steps: &[Feed(ASKED_THIRD), Takes(1, 3, b"\x2a"), Feed(ASKED), Writes(BELOW_THIRD), Feed(OTHER_SERVICE_FIFTH), Writes(OTHER_SERVICE_FIFTH_ANSWER), Feed(ASKED_SEVENTH), Takes(2, 7, b"\x2a")], ..FRESH },
    Row { name: "data below the newest id find no stream", steps: &[Feed(ASKED_THIRD), Feed(DATA_FIRST), Writes(INACTIVE), Takes(1, 3, b"\x2a")], ..FRESH },
];

// The text of the first answer isn't specified.
const UNREAD_ROWS: &[Row] = &[Row {
    name: "an id of a request that can't be read isn't above itself",
    steps: &[
        Feed(UNREADABLE),
        WritesStatus(3, ""),
        Feed(ASKED),
        Writes(NOT_ABOVE),
        TakesNone,
    ],
    ..FRESH
}];

const LONG_ABOVE_ROWS: &[Row] = &[Row {
    name: "the id of an oversized frame isn't the newest",
    steps: &[
        Feed(OVERSIZED_NINTH),
        FeedSevens(4194305),
        Writes(LONG_NINTH),
        Feed(ASKED_SEVENTH),
        Takes(1, 7, b"\x2a"),
    ],
    ..FRESH
}];

#[rattlefmt::skip]
const JOB_ROWS: &[Row] = &[
    Row { name: "a job is handed out and answered once", steps: &[TakesNone, Feed(ASKED), RefusesAnswer(1, UNKNOWN_JOB), TAKES_FIRST, TakesNone, ANSWERS_FIRST, RefusesAnswer(1, UNKNOWN_JOB), Writes(ECHOED)], ..FRESH },
    Row { name: "responses and ends without one are calls of other rules", steps: &[RefusesResponse(1, OTHER_RULES), RefusesFinish(1, OTHER_RULES), Feed(ASKED), TAKES_FIRST, RefusesResponse(1, OTHER_RULES), RefusesFinish(1, OTHER_RULES), StreamOf(1, Some(1)), FailsBy("first"), RefusesResponse(1, Socket("first")), RefusesFinish(1, Socket("first"))], ..FRESH },
    Row { name: "a handler's error is answered by its text", steps: &[Feed(ASKED), TAKES_FIRST, Breaks(1), Writes(EOF_ANSWER), RefusesAnswer(1, UNKNOWN_JOB), IsAlive], ..FRESH },
    Row { name: "also where that is a status", steps: &[Feed(ASKED), TAKES_FIRST, BreaksBy(1, 5, "gone"), Writes(STATUS_ANSWER), IsAlive], ..FRESH },
];

#[rattlefmt::skip]
const GREATEST_ROWS: &[Row] = &[
    GREATEST_IS_SENT,
    Row { name: "answers longer than a message may be are replaced", steps: &[Feed(ASKED), TAKES_FIRST, AnswersSevens(1, 4194298), Writes(LONG_ANSWER)], ..FRESH },
];

// These rows hold under either rules.
#[rattlefmt::skip]
const DRAINING_ROWS: &[Row] = &[
    Row { name: "a server that drains takes nothing, and gives and answers the jobs that it has", steps: &[Feed(ASKED), Feed(ASKED_BEHIND), TAKES_FIRST, Drains, TakesNothing(ASKED), Jobs(1, 1), ANSWERS_FIRST, Writes(ECHOED), Takes(2, 3, b"\x2b"), Answers(2, b"\x2b"), Writes(ECHOED_BEHIND), TakesNothing(ASKED), TakesNone, IsAlive], ..FRESH },
    Row { name: "a server that drains inside a frame takes no more of it", steps: &[FeedToCut(ASKED), Drains, TakesNothing(ASKED), AtBoundary(false), Jobs(0, 0), EndsInput, HasFailed("socket disconnected inside a frame")], cuts: Cuts::Inside(30), ..FRESH },
    Row { name: "a server that drains tells its failure", steps: &[Drains, FailsBy("first"), HasFailed("first")], ..FRESH },
];

const STAMP_ROWS: &[Row] = &[Row {
    name: "a bad stamp is dropped, and uses no stamp up",
    steps: &[
        Feed(BAD_STAMP_FIRST),
        HasUnsent(false),
        TAKES_FIRST,
        ANSWERS_FIRST,
        Writes(STAMPED_ECHOED),
    ],
    ..FRESH
}];

const SWELLING_ROWS: &[Row] = &[Row {
    name: "a payload that opens too long is dropped",
    steps: &[Serves(ASKED, b""), TakesNone, IsAlive],
    ..FRESH
}];

const ABOVE_LIMIT: &str =
    "payload 84 bytes exceeds safe limit 1 bytes (MESSAGE_LENGTH_MAX - transform overhead); reduce payload size";

#[rattlefmt::skip]
const SEALED_ROWS: &[Row] = &[
    Row { name: "an answer that is not sealed is refused for the half's reason, and its job awaits another", start: Start::Room(4194304), steps: &[Feed(ASKED), TAKES_FIRST, RefusesAnswer(1, SEALED_UP), StreamOf(1, Some(1))], ..FRESH },
    Row { name: "an answer above the limit is refused with advice where what replaces it is, too", start: Start::Room(1), steps: &[Feed(ASKED), TAKES_FIRST, RefusesAnswer(1, Others(ABOVE_LIMIT)), StreamOf(1, Some(1))], ..FRESH },
];

// ---- jobs that expire

/// A request of stream 1 with a timeout of ten nanoseconds.
const TIMED: &[u8] = b"\0\0\0\x16\0\0\0\x01\x01\0\x0a\x09demo.Echo\x12\x04Echo\x1a\x01\x2a\x20\x0a";
/// The same with the id 9.
const TIMED_NINTH: &[u8] =
    b"\0\0\0\x16\0\0\0\x09\x01\0\x0a\x09demo.Echo\x12\x04Echo\x1a\x01\x2a\x20\x0a";
/// The answer to `TIMED` after it has expired.
const TIMEOUT: &[u8] = b"\0\0\0\x0d\0\0\0\x01\x02\0\x0a\x0b\x08\x04\x12\x07timeout";
/// A timeout of -1, which is read as 2^64 - 1.
const NEGATIVE: &[u8] = b"\
    \0\0\0\x1f\0\0\0\x01\x01\0\
    \x0a\x09demo.Echo\x12\x04Echo\x1a\x01\x2a\x20\xff\xff\xff\xff\xff\xff\xff\xff\xff\x01";
/// Requests of streams 1, 3, 5 and 7, with timeouts of 30, 10, 20 and 99 nanoseconds.
const FOUR_TIMED: &[u8] = b"\
    \0\0\0\x16\0\0\0\x01\x01\0\x0a\x09demo.Echo\x12\x04Echo\x1a\x01\x2a\x20\x1e\
    \0\0\0\x16\0\0\0\x03\x01\0\x0a\x09demo.Echo\x12\x04Echo\x1a\x01\x2b\x20\x0a\
    \0\0\0\x16\0\0\0\x05\x01\0\x0a\x09demo.Echo\x12\x04Echo\x1a\x01\x2c\x20\x14\
    \0\0\0\x16\0\0\0\x07\x01\0\x0a\x09demo.Echo\x12\x04Echo\x1a\x01\x2d\x20\x63";
/// The answers to the first three after they have expired.
const THREE_TIMEOUTS: &[u8] = b"\
    \0\0\0\x0d\0\0\0\x01\x02\0\x0a\x0b\x08\x04\x12\x07timeout\
    \0\0\0\x0d\0\0\0\x03\x02\0\x0a\x0b\x08\x04\x12\x07timeout\
    \0\0\0\x0d\0\0\0\x05\x02\0\x0a\x0b\x08\x04\x12\x07timeout";
/// The answers to the second and the third.
const TWO_TIMEOUTS: &[u8] = b"\
    \0\0\0\x0d\0\0\0\x03\x02\0\x0a\x0b\x08\x04\x12\x07timeout\
    \0\0\0\x0d\0\0\0\x05\x02\0\x0a\x0b\x08\x04\x12\x07timeout";

#[rattlefmt::skip]
const DEADLINE_ROWS: &[Row] = &[
    Row { name: "an answer before the tick of its deadline is sent, and nothing expires", steps: &[NextDeadline(None), FeedAt(TIMED, 5), NextDeadline(Some(15)), TAKES_FIRST, Ticks(14), HasUnsent(false), ANSWERS_FIRST, NextDeadline(None), Ticks(15), Writes(ECHOED), NextExpired(None)], ..FRESH },
    Row { name: "an answer behind that tick is refused, and the next request is answered", steps: &[FeedAt(TIMED, 5), TAKES_FIRST, Ticks(15), RefusesAnswer(1, UNKNOWN_JOB), StreamOf(1, None), Writes(TIMEOUT), NextDeadline(None), NextExpired(Some(1)), NextExpired(None), IsAlive, Feed(ASKED_BEHIND), Takes(2, 3, b"\x2b"), RefusesAnswer(1, UNKNOWN_JOB), Answers(2, b"\x2b"), Writes(ECHOED_BEHIND)], ..FRESH },
    Row { name: "a negative timeout is a long one", steps: &[FeedAt(NEGATIVE, 0), NextDeadline(Some(18446744073709551615)), Ticks(18446744073709551614), HasUnsent(false), Ticks(18446744073709551615), Writes(TIMEOUT), TakesNone], ..FRESH },
    Row { name: "no tick reaches a deadline above the greatest moment", steps: &[FeedAt(NEGATIVE, 1), NextDeadline(None), Ticks(18446744073709551615), HasUnsent(false), TAKES_FIRST], ..FRESH },
    Row { name: "a request without a timeout has no deadline", steps: &[FeedAt(ASKED, 0), NextDeadline(None), Ticks(18446744073709551615), HasUnsent(false), TAKES_FIRST], ..FRESH },
];

#[rattlefmt::skip]
const EXPIRY_ROWS: &[Row] = &[
    Row { name: "jobs expire by rising id, whatever the order of their deadlines", steps: &[FeedAt(FOUR_TIMED, 0), NextDeadline(Some(10)), TAKES_FIRST, Ticks(30), Writes(THREE_TIMEOUTS), Jobs(1, 0), NextDeadline(Some(99)), Takes(4, 7, b"\x2d"), NextExpired(Some(1)), NextExpired(None)], ..FRESH },
    Row { name: "taken and waiting jobs expire, and those that were taken are told of", steps: &[FeedAt(FOUR_TIMED, 0), TAKES_FIRST, Takes(2, 3, b"\x2b"), Ticks(20), Writes(TWO_TIMEOUTS), Jobs(1, 1), NextDeadline(Some(30)), Takes(4, 7, b"\x2d"), TakesNone, Ticks(99), Jobs(0, 0), NextExpired(Some(2)), NextExpired(Some(1)), NextExpired(Some(4)), NextExpired(None)], ..FRESH },
    Row { name: "those that expired are let go where a job is made and none was left", steps: &[FeedAt(TIMED, 0), TAKES_FIRST, Ticks(10), FeedAt(TIMED_NINTH, 10), NextExpired(None), Takes(2, 9, b"\x2a"), Ticks(20), NextExpired(Some(2))], ..FRESH },
    Row { name: "and kept where one was left", steps: &[FeedAt(FOUR_TIMED, 0), TAKES_FIRST, Ticks(30), FeedAt(TIMED_NINTH, 30), NextExpired(Some(1))], ..FRESH },
    Row { name: "nothing expires after a failure", steps: &[FeedAt(TIMED, 0), TAKES_FIRST, FailsBy("first"), NextDeadline(None), Ticks(10), StreamOf(1, Some(1)), NextExpired(None), HasUnsent(false)], ..FRESH },
];

const UNTIMED_ROWS: &[Row] = &[Row {
    name: "nothing expires under sync rules",
    steps: &[
        FeedAt(TIMED, 0),
        NextDeadline(None),
        TAKES_FIRST,
        Ticks(18446744073709551615),
        NextExpired(None),
        HasUnsent(false),
        ANSWERS_FIRST,
        Writes(ECHOED),
    ],
    ..FRESH
}];

const UNSEALED_ROWS: &[Row] = &[Row {
    name: "a job whose answer is not sealed expires without one",
    start: Start::Room(4194304),
    steps: &[
        FeedAt(TIMED, 0),
        TAKES_FIRST,
        Ticks(10),
        Jobs(0, 0),
        HasUnsent(false),
        NextExpired(Some(1)),
        IsAlive,
    ],
    ..FRESH
}];

// ---- tables that hold over halves that stamp, too

#[test]
fn a_server_that_drains_takes_nothing(rt: HostRuntime) -> Tested {
    hold::<PlainServer>(&rt, rt.alloc(), DRAINS)
}

#[test]
fn a_stamped_server_that_drains_takes_nothing(rt: HostRuntime) -> Tested {
    hold_stamped::<StampedServer>(&rt, rt.alloc(), DRAINS)
}

#[test]
fn a_polled_server_keeps_its_table(rt: HostRuntime) -> Tested {
    hold::<PlainServer>(&rt, rt.alloc(), TABLES)
}

#[test]
fn a_polled_server_keeps_its_table_over_stamps(rt: HostRuntime) -> Tested {
    hold_stamped::<StampedServer>(&rt, rt.alloc(), TABLES)
}

#[test]
fn a_polled_server_answers_oversized_requests(rt: HostRuntime) -> Tested {
    hold::<PlainServer>(&rt, rt.alloc(), OVERLONG)
}

#[test]
fn an_async_server_takes_an_oversized_frame_byte_by_byte(rt: HostRuntime) -> Tested {
    hold::<PlainServer>(&rt, rt.alloc(), &[(ASYNC_RULES, SINGLE_ROWS)])
}

#[test]
fn a_polled_server_answers_oversized_requests_over_stamps(rt: HostRuntime) -> Tested {
    hold_stamped::<StampedServer>(&rt, rt.alloc(), OVERLONG)
}

#[test]
fn jobs_expire(rt: HostRuntime) -> Tested {
    hold::<PlainServer>(&rt, rt.alloc(), TIMED_TABLES)
}

#[test]
fn stamped_jobs_expire(rt: HostRuntime) -> Tested {
    hold_stamped::<StampedServer>(&rt, rt.alloc(), TIMED_TABLES)
}

// ---- tables that hold over one kind of halves

#[test]
fn a_polled_server_answers_by_open_text_and_at_length(rt: HostRuntime) -> Tested {
    hold::<PlainServer>(&rt, rt.alloc(), ANSWERS)
}

#[test]
fn a_polled_server_looks_at_stamps(rt: HostRuntime) -> Tested {
    hold::<StampedServer>(&rt, rt.alloc(), STAMPS)
}

#[test]
fn a_polled_server_drops_payloads_that_open_too_long(rt: HostRuntime) -> Tested {
    hold::<SwellingServer>(&rt, rt.alloc(), SWELLING)
}

#[test]
fn a_polled_server_refuses_answers_that_are_not_sealed(rt: HostRuntime) -> Tested {
    hold::<SealedServer>(&rt, rt.alloc(), SEALED)
}

#[test]
fn jobs_expire_without_an_answer(rt: HostRuntime) -> Tested {
    hold::<SealedServer>(&rt, rt.alloc(), UNSEALED)
}
