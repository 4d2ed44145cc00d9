//! The client core over halves that stamp, that refuse, and that open to more than a message may have.
use crate::tests::client::ANSWERED;
use crate::tests::clients::{CALLS_FIRST, CALLS_FIRST_IN_TIME, CALLS_SECOND, CALLS_SECOND_IN_TIME};
use crate::tests::halves::OpensOnly;
use crate::tests::kinds::{
    ASYNC_KIND, BOTH_KINDS, SYNC_KIND, SealedClient, StampedClient, SwellingClient,
};
use crate::tests::script::Step::{self, *};
use crate::tests::script::{FRESH, Row, Start};
use crate::tests::told::SEALED_UP;
use crate::tests::under_test::{Table, Tested, hold};
use ttrpc_bench::vectors::LONG;
use ttrpc_bench::vectors::Told::{self, Others};
use ttrpc_client::{ClientCore, ClientKind};
use ttrpc_secure::Plain;

const STAMPS: &[Table<ClientKind>] = &[(BOTH_KINDS, STAMP_ROWS), (ASYNC_KIND, ASYNC_STAMP_ROWS)];

const SEALED: &[Table<ClientKind>] = &[
    (SYNC_KIND, SYNC_SEALED_ROWS),
    (ASYNC_KIND, ASYNC_SEALED_ROWS),
];

const SWELLING: &[Table<ClientKind>] = &[(SYNC_KIND, SWELLING_ROWS)];

/// The first request to `Echo` of `demo.Echo`, with the payload 01 02 03, a timeout of 10 and its stamp.
const STAMPED: &[u8] = b"\
    \0\0\0\x19\0\0\0\x01\x01\0\x0a\x09demo.Echo\x12\x04Echo\x1a\x03\x01\x02\x03\x20\x0a\0";

/// The second request, in the same way.
const STAMPED_NEXT: &[u8] = b"\
    \0\0\0\x19\0\0\0\x03\x01\0\x0a\x09demo.Echo\x12\x04Echo\x1a\x03\x01\x02\x03\x20\x0a\x01";

/// Data with an id that no call has, and then a response to the first call.
const ANSWERED_BEHIND_DATA: &[u8] = b"\
    \0\0\0\x02\0\0\0\x09\x03\0z\0\
    \0\0\0\x06\0\0\0\x01\x02\0\x0a\0\x12\x01\x2a\x01";
/// A response with a bad stamp, and then one to the second call with the right stamp.
const BAD_STAMP_FIRST: &[u8] = b"\
    \0\0\0\x06\0\0\0\x01\x02\0\x0a\0\x12\x01\x2a\x07\
    \0\0\0\x06\0\0\0\x03\x02\0\x0a\0\x12\x01\x2b\0";

const NO_ROOM_FOR_STAMP: &str =
    "payload 4194304 bytes exceeds safe limit 4194303 bytes (MESSAGE_LENGTH_MAX - transform overhead); reduce payload size";

#[rattlefmt::skip]
const STAMP_ROWS: &[Row] = &[
    Row { name: "a sealed request is written in full: begun or not, expired or dropped", steps: &[CALLS_FIRST_IN_TIME, CALLS_SECOND_IN_TIME, Leaves(STAMPED, 0, 12), Ticks(10), Ends(1, Others("Request deadline elapsed")), DropsCall(3), Leaves(STAMPED, 12, 35), Leaves(STAMPED_NEXT, 0, 35), Lends(8, b"", 0, 0), IsAlive, Calls(10, 0, 5)], ..FRESH },
    Row { name: "each frame passes the inbound half once, also one that finds no call", steps: &[CALLS_FIRST, Feed(ANSWERED_BEHIND_DATA), Gives(1, true, b"\x2a")], ..FRESH },
    Row { name: "a bad stamp ends its call, and uses no stamp up", steps: &[CALLS_FIRST, CALLS_SECOND, Feed(BAD_STAMP_FIRST), Ends(1, Others("transform_inbound failed: bad stamp")), Gives(3, true, b"\x2b")], ..FRESH },
];

// With eleven bytes around it, a payload of 4194293 bytes makes a request of 4194304.
const ASYNC_STAMP_ROWS: &[Row] = &[Row {
    name: "the greatest request leaves no room for its stamp",
    steps: &[
        RefusesSevens(4194293, Others(NO_ROOM_FOR_STAMP)),
        CALLS_FIRST_IN_TIME,
        Leaves(STAMPED, 0, 35),
    ],
    ..FRESH
}];

const SWELLING_ROWS: &[Row] = &[Row {
    name: "a payload that opens too long ends its call",
    steps: &[CALLS_FIRST, Feed(ANSWERED), Ends(1, LONG)],
    ..FRESH
}];

const ABOVE_LIMIT: Told = Others(
    "payload 24 bytes exceeds safe limit 23 bytes (MESSAGE_LENGTH_MAX - transform overhead)",
);

const ABOVE_LIMIT_ADVICE: Told = Others(
    "payload 24 bytes exceeds safe limit 23 bytes (MESSAGE_LENGTH_MAX - transform overhead); reduce payload size",
);

const SYNC_SEALED_ROWS: &[Row] = &[Row {
    name: "a request above the safe limit is refused",
    start: Start::Room(23),
    steps: &[RefusesFirstCall(ABOVE_LIMIT)],
    ..FRESH
}];

#[rattlefmt::skip]
const ASYNC_SEALED_ROWS: &[Row] = &[
    Row { name: "a request above the safe limit is refused with an advice", start: Start::Room(23), steps: &[RefusesFirstCall(ABOVE_LIMIT_ADVICE)], ..FRESH },
    Row { name: "a request that is not sealed is refused for the half's reason", start: Start::Room(4194304), steps: &[RefusesFirstCall(SEALED_UP)], ..FRESH },
];

const TAKEN_BACK: &[Table<ClientKind>] = &[(BOTH_KINDS, TAKEN_BACK_ROWS)];

/// A call with nine bytes 7: its request has the length that the half seals. A request with eight is shorter.
const CALLS_SHORT: Step = CallsSevens(9, 1);

/// Responses to the first three calls, the last first, with the payloads 2c, 2b and 2a.
const THREE_ANSWERED: &[u8] = b"\
    \0\0\0\x05\0\0\0\x05\x02\0\x0a\0\x12\x01\x2c\
    \0\0\0\x05\0\0\0\x03\x02\0\x0a\0\x12\x01\x2b\
    \0\0\0\x05\0\0\0\x01\x02\0\x0a\0\x12\x01\x2a";

#[rattlefmt::skip]
const TAKEN_BACK_ROWS: &[Row] = &[
    Row { name: "a call that is taken back is made again, and has the same id and its own outcome", steps: &[RefusesSevens(8, SEALED_UP), CALLS_SHORT, RefusesSevens(8, SEALED_UP), CallsSevens(9, 3), CallsSevens(9, 5), Feed(THREE_ANSWERED), Gives(3, true, b"\x2b"), Gives(1, true, b"\x2a"), Gives(5, true, b"\x2c"), IsAlive], ..FRESH },
    Row { name: "so it has behind calls that are dropped", steps: &[CALLS_SHORT, CallsSevens(9, 3), DropsCall(1), RefusesSevens(8, SEALED_UP), CallsSevens(9, 5), DropsCall(5), RefusesSevens(8, SEALED_UP), CallsSevens(9, 7), Feed(THREE_ANSWERED), Gives(3, true, b"\x2b"), Waits(1), Waits(5), Waits(7), IsAlive], ..FRESH },
];

#[test]
fn stamps_are_given_and_looked_at(rt: HostRuntime) -> Tested {
    hold::<StampedClient>(&rt, rt.alloc(), STAMPS)
}

#[test]
fn payloads_that_open_too_long_end_their_calls(rt: HostRuntime) -> Tested {
    hold::<SwellingClient>(&rt, rt.alloc(), SWELLING)
}

#[test]
fn requests_that_are_not_sealed_are_refused(rt: HostRuntime) -> Tested {
    hold::<SealedClient>(&rt, rt.alloc(), SEALED)
}

#[test]
fn calls_that_are_taken_back_are_made_again(rt: HostRuntime) -> Tested {
    hold::<ClientCore<OpensOnly, Plain>>(&rt, rt.alloc(), TAKEN_BACK)
}
