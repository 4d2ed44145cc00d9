//! A core that is short of room for its output: two frames of the greatest length have room, and no byte more.
use crate::server::{ASKED, ECHOED};
use crate::tests::kinds::{
    ASYNC_KIND, ASYNC_RULES, PlainClient, PlainServer, SYNC_KIND, SYNC_RULES, StampedClient,
    StampedServer,
};
use crate::tests::script::Step::*;
use crate::tests::script::{Cuts, FRESH, Row};
use crate::tests::servers::{ANSWERS_FIRST, TAKES_FIRST};
use crate::tests::under_test::{Table, Tested, hold, hold_stamped};
use ttrpc_bench::vectors::Told::NoRoom;
use ttrpc_client::ClientKind;
use ttrpc_server::Rules;

/// The payload of a request of the greatest length: eleven bytes are around it.
const LONGEST: usize = 4194293;
/// The payload of a response of the greatest length: seven bytes are around it.
const LONGEST_ANSWER: usize = 4194297;
/// The header of a request of the greatest length with the first id.
const LONG_REQUEST: &[u8] = b"\0\x40\0\0\0\0\0\x01\x01\0";
/// The header of a response of the greatest length to `LONG_REQUEST`.
const LONG_RESPONSE: &[u8] = b"\0\x40\0\0\0\0\0\x01\x02\0";
/// Three requests with the ids 1, 3 and 5. The last has a timeout of ten nanoseconds.
const THREE_ASKED: &[u8] = b"\
    \0\0\0\x14\0\0\0\x01\x01\0\x0a\x09demo.Echo\x12\x04Echo\x1a\x01\x2a\
    \0\0\0\x14\0\0\0\x03\x01\0\x0a\x09demo.Echo\x12\x04Echo\x1a\x01\x2b\
    \0\0\0\x16\0\0\0\x05\x01\0\x0a\x09demo.Echo\x12\x04Echo\x1a\x01\x2c\x20\x0a";

/// A row with long pieces, which are not cut.
const ROOM: Row = Row {
    cuts: Cuts::Whole,
    ..FRESH
};

const CALLS: &[Table<ClientKind>] = &[(ASYNC_KIND, CALL_ROWS)];

const DROPS: &[Table<ClientKind>] = &[(ASYNC_KIND, THROW_ROWS), (SYNC_KIND, KEEP_ROWS)];

const STAMPED_CALLS: &[Table<ClientKind>] = &[(ASYNC_KIND, STAMPED_CALL_ROWS)];

const ANSWERS: &[Table<Rules>] = &[(SYNC_RULES, ANSWER_ROWS)];

const EXPIRIES: &[Table<Rules>] = &[(ASYNC_RULES, EXPIRY_ROWS)];

const STAMPED_ANSWERS: &[Table<Rules>] = &[(SYNC_RULES, STAMPED_ANSWER_ROWS)];

#[rattlefmt::skip]
const CALL_ROWS: &[Row] = &[
    Row { name: "a call finds room as soon as ten bytes were reported", steps: &[CallsSevens(LONGEST, 1), CallsSevens(LONGEST, 3), RefusesBare(NoRoom), Lends(9, LONG_REQUEST, 0, 9), RefusesBare(NoRoom), Reports, RefusesBare(NoRoom), Lends(1, LONG_REQUEST, 9, 10), Reports, CallsBare(5), RefusesBare(NoRoom), IsAlive], ..ROOM },
    Row { name: "a client takes what comes, whatever its room", steps: &[CallsSevens(LONGEST, 1), CallsSevens(LONGEST, 3), Feed(ECHOED), Gives(1, true, b"\x2a"), RefusesBare(NoRoom)], ..ROOM },
    Row { name: "a stream finds no room, either", steps: &[CallsSevens(LONGEST, 1), CallsSevens(LONGEST, 3), RefusesStream(false, b"", NoRoom), Departs(100), Opens(true, true, b"", 5)], ..ROOM },
    Row { name: "an item and a close find no room", steps: &[Opens(true, true, b"", 1), CallsSevens(LONGEST, 3), SendsSevens(1, 4194277, 1), RefusesItem(1, NoRoom), Departs(27), Closes(1, 2)], ..ROOM },
];

#[rattlefmt::skip]
const THROW_ROWS: &[Row] = &[
    Row { name: "a request that was thrown away keeps its bytes until the one before it has left", steps: &[CallsSevens(LONGEST, 1), Departs(10), CallsSevens(LONGEST, 3), DropsCall(3), RefusesSevens(LONGEST, NoRoom), Departs(4194303), RefusesSevens(LONGEST, NoRoom), Departs(1), CallsSevens(LONGEST, 5), CallsSevens(LONGEST, 7), RefusesBare(NoRoom)], ..ROOM },
    Row { name: "a request that was thrown away at the front is gone at once", steps: &[CallsSevens(LONGEST, 1), CallsSevens(LONGEST, 3), DropsCall(1), CallsSevens(LONGEST, 5), RefusesBare(NoRoom)], ..ROOM },
];

#[rattlefmt::skip]
const KEEP_ROWS: &[Row] = &[
    Row { name: "a request that isn't thrown away keeps its bytes", steps: &[CallsSevens(LONGEST, 1), CallsSevens(LONGEST, 3), DropsCall(1), RefusesBare(NoRoom)], ..ROOM },
];

#[rattlefmt::skip]
const STAMPED_CALL_ROWS: &[Row] = &[
    Row { name: "a stamped call finds room as soon as eleven bytes were reported", steps: &[CallsSevens(LONGEST - 1, 1), CallsSevens(LONGEST - 1, 3), RefusesBare(NoRoom), Lends(10, LONG_REQUEST, 0, 10), Reports, RefusesBare(NoRoom), Departs(1), CallsBare(5), RefusesBare(NoRoom), IsAlive], ..ROOM },
];

#[rattlefmt::skip]
const ANSWER_ROWS: &[Row] = &[
    Row { name: "a server with room for the longest answer takes a request", steps: &[RespondsSevens(1, LONGEST_ANSWER), Feed(ASKED), TAKES_FIRST], ..ROOM },
    Row { name: "a server takes nothing until there is room for the longest answer again", steps: &[RespondsSevens(1, LONGEST_ANSWER), RespondsBare(1), TakesNothing(ASKED), Lends(10, LONG_RESPONSE, 0, 10), TakesNothing(ASKED), Reports, Feed(ASKED), TAKES_FIRST, ANSWERS_FIRST, TakesNothing(ASKED), IsAlive], ..ROOM },
    Row { name: "a response and an answer find no room", steps: &[Feed(ASKED), TAKES_FIRST, RespondsSevens(1, LONGEST_ANSWER), RespondsSevens(1, LONGEST_ANSWER), RefusesResponse(1, NoRoom), RefusesAnswer(1, NoRoom), Departs(15), ANSWERS_FIRST, IsAlive], ..ROOM },
];

#[rattlefmt::skip]
const STAMPED_ANSWER_ROWS: &[Row] = &[
    Row { name: "a server over stamps takes nothing until there is room for the longest answer again", steps: &[RespondsSevens(1, LONGEST_ANSWER - 1), RespondsBare(1), TakesNothing(ASKED), Departs(10), TakesNothing(ASKED), Departs(1), Feed(ASKED), TAKES_FIRST], ..ROOM },
];

#[rattlefmt::skip]
const EXPIRY_ROWS: &[Row] = &[
    Row { name: "a job that is due expires once there is room to say so", steps: &[FeedAt(THREE_ASKED, 0), NextDeadline(Some(10)), TAKES_FIRST, Takes(2, 3, b"\x2b"), Takes(3, 5, b"\x2c"), AnswersSevens(1, LONGEST_ANSWER), AnswersSevens(2, LONGEST_ANSWER), NextDeadline(None), Ticks(10), Jobs(0, 1), NextExpired(None), Departs(22), NextDeadline(None), Ticks(10), Jobs(0, 1), Departs(1), NextDeadline(Some(10)), Ticks(10), Jobs(0, 0), NextExpired(Some(3)), IsAlive], ..ROOM },
    Row { name: "a job that is due is answered as long as there is no room to let it expire", steps: &[FeedAt(THREE_ASKED, 0), TAKES_FIRST, Takes(2, 3, b"\x2b"), Takes(3, 5, b"\x2c"), AnswersSevens(1, LONGEST_ANSWER), AnswersSevens(2, LONGEST_ANSWER), Ticks(10), RefusesAnswer(3, NoRoom), Departs(15), Ticks(11), Answers(3, b"\x2c"), Jobs(0, 0), Departs(4194299), Departs(4194314), Writes(b"\0\0\0\x05\0\0\0\x05\x02\0\x0a\0\x12\x01\x2c"), NextExpired(None), IsAlive], ..ROOM },
];

#[test]
fn a_client_refuses_what_finds_no_room(rt: HostRuntime) -> Tested {
    hold::<PlainClient>(&rt, rt.alloc(), CALLS)
}

#[test]
fn a_request_that_was_thrown_away_holds_its_bytes(rt: HostRuntime) -> Tested {
    hold::<PlainClient>(&rt, rt.alloc(), DROPS)
}

#[test]
fn a_client_with_stamps_refuses_what_finds_no_room(rt: HostRuntime) -> Tested {
    hold_stamped::<StampedClient>(&rt, rt.alloc(), STAMPED_CALLS)
}

#[test]
fn a_server_that_is_short_of_room_waits(rt: HostRuntime) -> Tested {
    hold::<PlainServer>(&rt, rt.alloc(), ANSWERS)
}

#[test]
fn a_job_expires_once_there_is_room(rt: HostRuntime) -> Tested {
    hold::<PlainServer>(&rt, rt.alloc(), EXPIRIES)
}

#[test]
fn a_server_with_stamps_that_is_short_of_room_waits(rt: HostRuntime) -> Tested {
    hold_stamped::<StampedServer>(&rt, rt.alloc(), STAMPED_ANSWERS)
}
