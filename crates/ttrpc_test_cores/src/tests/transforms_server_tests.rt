//! The server core over halves that stamp, that refuse, and that open to more than a message may have.
use crate::server::{ASKED, NO_SERVICE};
use crate::tests::kinds::{SYNC_RULES, SealedServer, StampedServer, SwellingServer};
use crate::tests::script::Step::*;
use crate::tests::script::{FRESH, Row, Start};
use crate::tests::servers::{
    ABOVE_LIMIT_ROWS, BAD_STAMP_FIRST, LONG_ANSWER, STAMPED, STAMPED_ECHOED, TAKES_FIRST,
};
use crate::tests::told::SEALED_UP;
use crate::tests::under_test::{Table, Tested, hold};
use ttrpc_bench::vectors::Told::Others;
use ttrpc_server::Rules;

const STAMPS: &[Table<Rules>] = &[(SYNC_RULES, STAMP_ROWS), (SYNC_RULES, ABOVE_LIMIT_ROWS)];

const SWELLING: &[Table<Rules>] = &[(SYNC_RULES, SWELLING_ROWS)];

const SEALED: &[Table<Rules>] = &[(SYNC_RULES, SEALED_ROWS)];

/// A request of stream 2 to an unknown service.
const STAMPED_UNKNOWN: &[u8] = b"\0\0\0\x07\0\0\0\x02\x01\0\x0a\x01x\x12\x01y\0";

const STAMPED_ANSWER: &[u8] = b"\
    \0\0\0\x1a\0\0\0\x02\x02\0\x0a\x17\x08\x03\x12\x13/x/y does not exist\0";
/// A frame of data, and the request after it: both pass the inbound half.
const STAMPED_BEHIND_DATA: &[u8] = b"\
    \0\0\0\x02\0\0\0\x01\x03\0z\0\
    \0\0\0\x15\0\0\0\x01\x01\0\x0a\x09demo.Echo\x12\x04Echo\x1a\x01\x2a\x01";
/// The answer to the request with a bad stamp, and the answer to the one with the right stamp.
const BAD_STAMP_ANSWERS: &[u8] = b"\
    \0\0\0\x35\0\0\0\x01\x02\0\
    \x0a\x32\x08\x02\x12\x2ettrpc err: transform_inbound failed: bad stamp\0\
    \0\0\0\x06\0\0\0\x01\x02\0\x0a\0\x12\x01\x2a\x01";

#[rattlefmt::skip]
const STAMP_ROWS: &[Row] = &[
    Row { name: "a stamped request is answered with a stamp", steps: &[Serves(STAMPED, STAMPED_ECHOED)], ..FRESH },
    Row { name: "the core's own answer has a stamp, too", steps: &[Serves(STAMPED_UNKNOWN, STAMPED_ANSWER)], ..FRESH },
    Row { name: "a frame of data passes the inbound half, too, and counts", steps: &[Serves(STAMPED_BEHIND_DATA, STAMPED_ECHOED)], ..FRESH },
    Row { name: "a bad stamp is answered, and uses no stamp up", steps: &[Serves(BAD_STAMP_FIRST, BAD_STAMP_ANSWERS)], ..FRESH },
];

const SWELLING_ROWS: &[Row] = &[Row {
    name: "a payload that opens too long is answered",
    steps: &[Serves(ASKED, LONG_ANSWER)],
    ..FRESH
}];

const ABOVE_LIMIT: &str =
    "payload 84 bytes exceeds safe limit 1 bytes (MESSAGE_LENGTH_MAX - transform overhead)";

#[rattlefmt::skip]
const SEALED_ROWS: &[Row] = &[
    Row { name: "an answer that is not sealed is refused for the half's reason, and its job awaits another", start: Start::Room(4194304), steps: &[Feed(ASKED), TAKES_FIRST, RefusesAnswer(1, SEALED_UP), RefusesResponse(1, SEALED_UP), StreamOf(1, Some(1))], ..FRESH },
    Row { name: "an answer above the limit is refused where what replaces it is, too", start: Start::Room(1), steps: &[Feed(ASKED), TAKES_FIRST, RefusesAnswer(1, Others(ABOVE_LIMIT)), RefusesResponse(1, Others(ABOVE_LIMIT)), StreamOf(1, Some(1))], ..FRESH },
    // The connection lives.
    Row { name: "the core's own answer that is not sealed is left out", start: Start::Room(4194304), steps: &[Serves(NO_SERVICE, b""), IsAlive, HasUnsent(false), Feed(ASKED), TAKES_FIRST], ..FRESH },
];

#[test]
fn stamps_are_looked_at_and_given(rt: HostRuntime) -> Tested {
    hold::<StampedServer>(&rt, rt.alloc(), STAMPS)
}

#[test]
fn payloads_that_open_too_long_are_answered(rt: HostRuntime) -> Tested {
    hold::<SwellingServer>(&rt, rt.alloc(), SWELLING)
}

#[test]
fn answers_that_are_not_sealed_are_refused(rt: HostRuntime) -> Tested {
    hold::<SealedServer>(&rt, rt.alloc(), SEALED)
}
