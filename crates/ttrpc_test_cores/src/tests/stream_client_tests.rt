//! Each row of the client's table for streams, the table of a receiver's results, each refusal in its order, tickets,
//! and streams with dropped halves. All bytes are written by hand.
use crate::tests::client::*;
use crate::tests::clients::{CALLS_FIRST_IN_TIME, OPENS_FIRST, OPENS_SECOND};
use crate::tests::halves::OpensOnly;
use crate::tests::kinds::{
    ASYNC_KIND, BOTH_KINDS, PlainClient, SYNC_KIND, SealedClient, StampedClient, SwellingClient,
};
use crate::tests::script::Step::*;
use crate::tests::script::{Cuts, FRESH, Row, Start};
use crate::tests::streams::{
    FLAGGED_ITEM, GONE, LAST_ITEM, OPENED, OPENED_AND_SENT, THREE_OF_THIRD,
};
use crate::tests::told::{SEALED_UP, UNKNOWN, USED_UP};
use crate::tests::under_test::{Table, Tested, hold, hold_stamped};
use ttrpc_bench::vectors::Told::{
    self, Begins, Eof, LocalClosed, Others, RemoteClosed, Socket, Status,
};
use ttrpc_bench::vectors::{DISCONNECTED, LONG, LONG_TEXT, PAST};
use ttrpc_client::{ClientCore, ClientKind};
use ttrpc_secure::Plain;

const OPENINGS: &[Table<ClientKind>] = &[(BOTH_KINDS, OPEN_ROWS), (BOTH_KINDS, HEARD_ROWS)];

const ITEMS: &[Table<ClientKind>] = &[(BOTH_KINDS, ITEM_ROWS)];

const ENDS: &[Table<ClientKind>] = &[
    (BOTH_KINDS, DROP_ROWS),
    (BOTH_KINDS, FAILURE_ROWS),
    (BOTH_KINDS, SENDING_ROWS),
];

const SENDS: &[Table<ClientKind>] = &[(BOTH_KINDS, TICKET_ROWS), (BOTH_KINDS, PART_ROWS)];

const STAMPED: &[Table<ClientKind>] = &[
    (BOTH_KINDS, STAMP_ROWS),
    (SYNC_KIND, SYNC_STAMP_ROWS),
    (ASYNC_KIND, ASYNC_STAMP_ROWS),
];

const OVERLONG: &[Table<ClientKind>] = &[(BOTH_KINDS, LONG_ROWS)];

const GREATEST_ITEMS: &[Table<ClientKind>] = &[
    (BOTH_KINDS, GREATEST_ROWS),
    (BOTH_KINDS, LENT_ROWS),
];

const SWELLING: &[Table<ClientKind>] = &[(BOTH_KINDS, SWELLING_ROWS)];

const SEALED: &[Table<ClientKind>] = &[(SYNC_KIND, SEALED_ROWS)];

const SEALED_ITEMS: &[Table<ClientKind>] = &[(SYNC_KIND, SEALED_ITEM_ROWS)];

// ---- frames of a client

/// The request that opens the first stream, to send no items.
const OPENED_CLOSED: &[u8] = b"\0\0\0\x11\0\0\0\x01\x01\x01\x0a\x09demo.Echo\x12\x04Chat";
/// The same with the payload 2a, to send no other item.
const OPENED_WITH_ITEM: &[u8] = b"\
    \0\0\0\x14\0\0\0\x01\x01\x01\x0a\x09demo.Echo\x12\x04Chat\x1a\x01\x2a";
/// The request of a stream that sends, and the first item.
const OPENED_AND_FIRST: &[u8] = b"\
    \0\0\0\x11\0\0\0\x01\x01\x06\x0a\x09demo.Echo\x12\x04Chat\
    \0\0\0\x01\0\0\0\x01\x03\0a";
/// The same with stamps, and a close.
const STAMPED_AND_SENT: &[u8] = b"\
    \0\0\0\x12\0\0\0\x01\x01\x06\x0a\x09demo.Echo\x12\x04Chat\0\
    \0\0\0\x02\0\0\0\x01\x03\0a\x01\
    \0\0\0\x01\0\0\0\x01\x03\x05\x02";

// ---- frames to a client with the first id, besides those of a call

/// The item `a`, an empty item, the item `b`, and a close.
const ITEMS_AND_CLOSE: &[u8] = b"\
    \0\0\0\x01\0\0\0\x01\x03\0a\
    \0\0\0\0\0\0\0\x01\x03\0\
    \0\0\0\x01\0\0\0\x01\x03\0b\
    \0\0\0\0\0\0\0\x01\x03\x05";
/// A frame of an unknown type.
const NO_TYPE: &[u8] = b"\0\0\0\0\0\0\0\x01\0\0";
/// The item `y` with the third id.
const ITEM_OF_THIRD: &[u8] = b"\0\0\0\x01\0\0\0\x03\x03\0y";

// ---- errors

const NOT_SENDABLE: Told = Others("stream is not sendable");

const LONG_STATUS: Told = Status(3, LONG_TEXT);

const WITH_PAYLOAD: Told = Status(
    3,
    "Creating a ClientStream and sending payload at the same time is not allowed",
);

#[rattlefmt::skip]
const OPEN_ROWS: &[Row] = &[
    Row { name: "a stream that sends is opened", steps: &[OPENS_FIRST, ReceivesNone(1), Writes(OPENED)], ..FRESH },
    Row { name: "a stream that sends none is opened closed", steps: &[Opens(false, true, b"", 1), Writes(OPENED_CLOSED), RefusesSending(1, NOT_SENDABLE)], ..FRESH },
    Row { name: "its request may carry its one item", steps: &[Opens(false, true, b"\x2a", 1), Writes(OPENED_WITH_ITEM)], ..FRESH },
    Row { name: "a stream that sends items is refused with a payload, and uses no id", steps: &[RefusesStream(true, b"\x01", WITH_PAYLOAD), Writes(b""), CALLS_FIRST_IN_TIME, Writes(ASKED)], ..FRESH },
    Row { name: "calls and streams have ids of one row", steps: &[CALLS_FIRST_IN_TIME, OPENS_SECOND, Calls(10, 0, 5), Opens(false, false, b"", 7), Waits(3), DropsCall(3), ReceivesNone(3), ReceivesError(1, UNKNOWN), RefusesSending(1, UNKNOWN), DropsReceiver(1), DropsSender(1), Feed(ITEM_OF_THIRD), Receives(3, b"y"), Waits(1), Feed(ANSWERED), Gives(1, true, b"\x2a"), IsAlive], ..FRESH },
    Row { name: "the last id may be a stream's", start: Start::AtLastId, steps: &[Opens(true, true, b"", 4294967295), RefusesStream(true, b"\x01", WITH_PAYLOAD), RefusesStream(true, b"", USED_UP), RefusesCall(USED_UP), ReceivesNone(4294967295)], ..FRESH },
    Row { name: "that a request is too long is told before that it has a payload, and a failure before both", steps: &[RefusesStreamOfSevens(4194294, LONG), EndsInput, RefusesStreamOfSevens(4194294, DISCONNECTED), RefusesStream(true, b"\x01", DISCONNECTED)], ..FRESH },
];

#[rattlefmt::skip]
const ITEM_ROWS: &[Row] = &[
    Row { name: "items go and come in order, and an end behind them", steps: &[OPENS_FIRST, Sends(1, b"a", 1), Sends(1, b"", 2), Sends(1, b"b", 3), Closes(1, 4), Writes(OPENED_AND_SENT), Feed(ITEMS_AND_CLOSE), Receives(1, b"a"), Receives(1, b""), Receives(1, b"b"), ReceivesError(1, Eof), ReceivesError(1, RemoteClosed), ReceivesError(1, RemoteClosed), IsAlive], ..FRESH },
    Row { name: "an item may be the last", steps: &[OPENS_FIRST, Feed(LAST_ITEM), Feed(DATA), Receives(1, b"z"), ReceivesError(1, RemoteClosed)], ..FRESH },
    Row { name: "the flag for no item means nothing without a close", steps: &[OPENS_FIRST, Feed(FLAGGED_ITEM), Feed(DATA), Receives(1, b"z"), Receives(1, b"z"), ReceivesNone(1)], ..FRESH },
    Row { name: "a close has no data", steps: &[OPENS_FIRST, Feed(CLOSE_WITH_DATA), ReceivesError(1, Others("stream 1: close message cannot include data")), ReceivesError(1, RemoteClosed)], ..FRESH },
    Row { name: "a stream that was opened to receive none gets no data", steps: &[Opens(true, false, b"", 1), Feed(DATA), Feed(ANSWERED), ReceivesError(1, Others("received data from non-streaming server.")), ReceivesError(1, RemoteClosed), Opens(true, false, b"", 3), Feed(b"\0\0\0\0\0\0\0\x03\x03\x05"), ReceivesError(3, Others("received data from non-streaming server.")), ReceivesError(3, RemoteClosed)], ..FRESH },
    Row { name: "an OK response is the last item", steps: &[Opens(true, false, b"", 1), Feed(ANSWERED_FLAGGED), Feed(REFUSED), Receives(1, b"\x2a"), ReceivesError(1, RemoteClosed)], ..FRESH },
    Row { name: "a response with another code ends the stream", steps: &[OPENS_FIRST, Feed(DATA), Feed(GONE), Feed(DATA), Receives(1, b"z"), ReceivesError(1, Status(5, "gone")), ReceivesError(1, RemoteClosed)], ..FRESH },
    Row { name: "an unreadable response ends it", steps: &[OPENS_FIRST, Feed(UNREADABLE), ReceivesError(1, Begins("Decode message failed.")), ReceivesError(1, RemoteClosed)], ..FRESH },
    Row { name: "a frame of another type breaks it", steps: &[OPENS_FIRST, Feed(NO_TYPE), Feed(DATA), ReceivesError(1, Others("Receiver got malformed packet: type 0, flags 0, stream 1")), ReceivesError(1, PAST), ReceivesError(1, PAST)], ..FRESH },
    Row { name: "a request under it breaks it", steps: &[OPENS_FIRST, Feed(DATA), Feed(REQUEST), Receives(1, b"z"), ReceivesError(1, Others("Receiver got malformed packet: type 1, flags 0, stream 1")), ReceivesError(1, PAST)], ..FRESH },
    Row { name: "frames that find no stream do nothing", steps: &[OPENS_FIRST, Feed(FOREIGN), Feed(ITEM_OF_THIRD), ReceivesNone(1), ReceivesError(0, UNKNOWN), ReceivesError(2, UNKNOWN), ReceivesError(3, UNKNOWN), IsAlive, NextHeard(None)], ..FRESH },
];

const HEARD_ROWS: &[Row] = &[Row {
    name: "streams for which something came are told of once",
    steps: &[
        NextHeard(None),
        OPENS_FIRST,
        OPENS_SECOND,
        NextHeard(None),
        Feed(THREE_OF_THIRD),
        Feed(DATA),
        NextHeard(Some(1)),
        NextHeard(Some(3)),
        NextHeard(None),
        Feed(DATA),
        Feed(ITEM_OF_THIRD),
        DropsReceiver(1),
        Feed(DATA),
        NextHeard(Some(3)),
        NextHeard(None),
    ],
    ..FRESH
}];

#[rattlefmt::skip]
const SENDING_ROWS: &[Row] = &[
    Row { name: "a failure is told before an unknown stream", steps: &[RefusesSending(1, UNKNOWN), EndsInput, RefusesSending(1, DISCONNECTED), ReceivesError(1, UNKNOWN)], ..FRESH },
    Row { name: "a stream that sends none is told before that its sender was dropped", steps: &[Opens(false, true, b"", 1), RefusesSending(1, NOT_SENDABLE), DropsSender(1), RefusesSending(1, NOT_SENDABLE), RefusesSevensOn(1, 4194305, NOT_SENDABLE)], ..FRESH },
    Row { name: "that the sender has closed is told before that an item is too long", steps: &[OPENS_FIRST, RefusesSevensOn(1, 4194305, LONG), Closes(1, 1), RefusesSending(1, LocalClosed), RefusesSevensOn(1, 4194305, LocalClosed), OPENS_SECOND, DropsSender(3), RefusesSending(3, LocalClosed), RefusesSevensOn(3, 4194305, LocalClosed)], ..FRESH },
];

const GREATEST_ROWS: &[Row] = &[Row {
    name: "the greatest item is sent, and a refused one uses no ticket",
    steps: &[
        OPENS_FIRST,
        RefusesSevensOn(1, 4194305, LONG),
        SendsSevens(1, 4194304, 1),
        Closes(1, 2),
    ],
    ..FRESH
}];

#[rattlefmt::skip]
const TICKET_ROWS: &[Row] = &[
    Row { name: "a frame is sent once it was reported whole", steps: &[OPENS_FIRST, IsUnsent(0), IsUnsent(1), Sends(1, b"a", 1), Sends(1, b"", 2), Leaves(OPENED_AND_SENT, 0, 27), IsUnsent(1), Leaves(OPENED_AND_SENT, 27, 37), IsUnsent(1), Leaves(OPENED_AND_SENT, 37, 38), IsSent(1), IsUnsent(2), Leaves(OPENED_AND_SENT, 38, 48), IsSent(2), IsSent(1), IsUnsent(0), IsUnsent(3)], ..FRESH },
    Row { name: "what wasn't sent before a failure never is", steps: &[OPENS_FIRST, Sends(1, b"a", 1), Sends(1, b"", 2), Leaves(OPENED_AND_SENT, 0, 27), Leaves(OPENED_AND_SENT, 27, 38), Leaves(OPENED_AND_SENT, 38, 47), FailsBy("first"), IsSent(1), IsNeverSent(2, Socket("first")), IsNeverSent(0, Socket("first")), IsNeverSent(3, Socket("first")), HasFailed("first")], ..FRESH },
];

#[rattlefmt::skip]
const DROP_ROWS: &[Row] = &[
    Row { name: "with both halves dropped a stream is unknown", steps: &[OPENS_FIRST, Feed(DATA), DropsReceiver(1), ReceivesError(1, PAST), Feed(DATA), ReceivesError(1, PAST), Sends(1, b"a", 1), DropsSender(1), ReceivesError(1, UNKNOWN), RefusesSending(1, UNKNOWN), DropsReceiver(1), DropsSender(1), Feed(DATA), ReceivesError(1, UNKNOWN), IsAlive, Writes(OPENED_AND_FIRST), IsSent(1), OPENS_SECOND], ..FRESH },
    Row { name: "whose sender is dropped still receives", steps: &[OPENS_FIRST, DropsSender(1), Feed(DATA), Feed(CLOSE), Receives(1, b"z"), ReceivesError(1, Eof), ReceivesError(1, RemoteClosed), DropsReceiver(1), ReceivesError(1, UNKNOWN)], ..FRESH },
    Row { name: "a receiver may go before anything comes", steps: &[OPENS_FIRST, Closes(1, 1), DropsReceiver(1), Feed(ANSWERED), ReceivesError(1, PAST), RefusesSending(1, LocalClosed), DropsSender(1), RefusesSending(1, UNKNOWN)], ..FRESH },
];

#[rattlefmt::skip]
const FAILURE_ROWS: &[Row] = &[
    Row { name: "a failure comes behind all items, once", steps: &[OPENS_FIRST, OPENS_SECOND, Feed(DATA), FailsBy("first"), EndsInput, Receives(1, b"z"), ReceivesError(1, Socket("first")), ReceivesError(1, PAST), ReceivesError(3, Socket("first")), ReceivesError(3, PAST), NextHeard(Some(1)), NextHeard(None), HasFailed("first")], ..FRESH },
    Row { name: "an ended stream has no failure", steps: &[OPENS_FIRST, Feed(LAST_ITEM), EndsInput, Receives(1, b"z"), ReceivesError(1, RemoteClosed)], ..FRESH },
    Row { name: "after a failure halves can be dropped", steps: &[OPENS_FIRST, OPENS_SECOND, Opens(true, true, b"", 5), EndsInput, DropsReceiver(1), ReceivesError(1, PAST), DropsSender(1), ReceivesError(1, UNKNOWN), DropsSender(3), ReceivesError(3, DISCONNECTED), ReceivesError(3, PAST), ReceivesError(5, DISCONNECTED)], ..FRESH },
];

const PART_ROWS: &[Row] = &[Row {
    name: "the input ends inside a frame",
    cuts: Cuts::Inside(11),
    steps: &[
        OPENS_FIRST,
        FeedToCut(DATA),
        EndsInput,
        ReceivesError(1, Socket("socket disconnected inside a frame")),
        ReceivesError(1, PAST),
    ],
    ..FRESH
}];

const LENT_ROWS: &[Row] = &[Row {
    name: "nothing is reported, and items come all the same",
    steps: &[
        OPENS_FIRST,
        Sends(1, b"a", 1),
        Lends(5, OPENED, 0, 5),
        Feed(ITEMS_AND_CLOSE),
        Receives(1, b"a"),
        Receives(1, b""),
        Receives(1, b"b"),
        ReceivesError(1, Eof),
        IsUnsent(1),
    ],
    ..FRESH
}];

const LONG_ROWS: &[Row] = &[Row {
    name: "an oversized frame breaks its stream, and the next frame is read",
    steps: &[
        OPENS_FIRST,
        OPENS_SECOND,
        Feed(DATA),
        Feed(OVERSIZED),
        FeedSevens(4194305),
        Feed(DATA),
        Feed(ITEM_OF_THIRD),
        Receives(1, b"z"),
        ReceivesError(1, LONG_STATUS),
        ReceivesError(1, PAST),
        Receives(3, b"y"),
    ],
    ..FRESH
}];

// ---- over other halves

/// A stamped item, an item with a bad stamp, and an item of the third stream with the next stamp.
const STAMPED_ITEMS: &[u8] = b"\
    \0\0\0\x02\0\0\0\x01\x03\0a\0\
    \0\0\0\x02\0\0\0\x01\x03\0b\x07\
    \0\0\0\x02\0\0\0\x03\x03\0c\x01";

const ITEM_ABOVE_LIMIT: Told = Others(
    "payload 4194304 bytes exceeds safe limit 4194303 bytes (MESSAGE_LENGTH_MAX - transform overhead)",
);

const ITEM_ABOVE_LIMIT_ADVICE: Told = Others(
    "payload 4194304 bytes exceeds safe limit 4194303 bytes (MESSAGE_LENGTH_MAX - transform overhead); reduce payload size",
);

const SYNC_STAMP_ROWS: &[Row] = &[Row {
    name: "that an item is too long is told before that it leaves no room for its stamp",
    steps: &[
        OPENS_FIRST,
        RefusesSevensOn(1, 4194305, LONG),
        RefusesSevensOn(1, 4194304, ITEM_ABOVE_LIMIT),
        SendsSevens(1, 4194303, 1),
    ],
    ..FRESH
}];

const ASYNC_STAMP_ROWS: &[Row] = &[Row {
    name: "an item that leaves no room for its stamp is refused with an advice",
    steps: &[
        OPENS_FIRST,
        RefusesSevensOn(1, 4194304, ITEM_ABOVE_LIMIT_ADVICE),
    ],
    ..FRESH
}];

#[rattlefmt::skip]
const STAMP_ROWS: &[Row] = &[
    Row { name: "each frame of a stream is sealed, a close too, and none is thrown away", steps: &[OPENS_FIRST, Sends(1, b"a", 1), Closes(1, 2), DropsReceiver(1), DropsSender(1), Writes(STAMPED_AND_SENT), IsSent(2)], ..FRESH },
    Row { name: "a bad stamp breaks its stream, and uses no stamp up", steps: &[OPENS_FIRST, OPENS_SECOND, Feed(STAMPED_ITEMS), Receives(1, b"a"), ReceivesError(1, Others("transform_inbound failed: bad stamp")), ReceivesError(1, PAST), Receives(3, b"c")], ..FRESH },
];

const SWELLING_ROWS: &[Row] = &[Row {
    name: "a payload that opens too long breaks its stream",
    steps: &[
        OPENS_FIRST,
        Feed(DATA),
        Feed(DATA),
        ReceivesError(1, LONG),
        ReceivesError(1, PAST),
    ],
    ..FRESH
}];

const ABOVE_LIMIT: Told = Others(
    "payload 17 bytes exceeds safe limit 16 bytes (MESSAGE_LENGTH_MAX - transform overhead)",
);

#[rattlefmt::skip]
const SEALED_ROWS: &[Row] = &[
    Row { name: "a stream's request above the safe limit is refused", start: Start::Room(16), steps: &[RefusesStream(true, b"", ABOVE_LIMIT), RefusesStream(true, b"\x01", WITH_PAYLOAD), ReceivesError(1, UNKNOWN), Writes(b"")], ..FRESH },
    Row { name: "a stream's request that isn't sealed is refused for the half's reason", start: Start::Room(17), steps: &[RefusesStream(true, b"", SEALED_UP), ReceivesError(1, UNKNOWN), Writes(b""), IsAlive], ..FRESH },
];

const LONG_ITEM: Told = Others(
    "payload 18 bytes exceeds safe limit 17 bytes (MESSAGE_LENGTH_MAX - transform overhead)",
);

const SEALED_ITEM_ROWS: &[Row] = &[Row {
    name: "that an item is above the safe limit is told before that the half refuses it, and neither uses a ticket",
    steps: &[
        OPENS_FIRST,
        RefusesSevensOn(1, 18, LONG_ITEM),
        RefusesSending(1, SEALED_UP),
        SendsSevens(1, 17, 1),
    ],
    ..FRESH
}];

// ---- tables that hold over halves that stamp, too

#[test]
fn streams_are_opened(rt: HostRuntime) -> Tested {
    hold::<PlainClient>(&rt, rt.alloc(), OPENINGS)
}

#[test]
fn stamped_streams_are_opened(rt: HostRuntime) -> Tested {
    hold_stamped::<StampedClient>(&rt, rt.alloc(), OPENINGS)
}

#[test]
fn streams_receive(rt: HostRuntime) -> Tested {
    hold::<PlainClient>(&rt, rt.alloc(), ITEMS)
}

#[test]
fn stamped_streams_receive(rt: HostRuntime) -> Tested {
    hold_stamped::<StampedClient>(&rt, rt.alloc(), ITEMS)
}

#[test]
fn streams_end_and_are_refused(rt: HostRuntime) -> Tested {
    hold::<PlainClient>(&rt, rt.alloc(), ENDS)
}

#[test]
fn stamped_streams_end_and_are_refused(rt: HostRuntime) -> Tested {
    hold_stamped::<StampedClient>(&rt, rt.alloc(), ENDS)
}

#[test]
fn streams_send(rt: HostRuntime) -> Tested {
    hold::<PlainClient>(&rt, rt.alloc(), SENDS)
}

#[test]
fn stamped_streams_send(rt: HostRuntime) -> Tested {
    hold_stamped::<StampedClient>(&rt, rt.alloc(), SENDS)
}

#[test]
fn oversized_frames_break_their_streams(rt: HostRuntime) -> Tested {
    hold::<PlainClient>(&rt, rt.alloc(), OVERLONG)
}

#[test]
fn stamped_oversized_frames_break_their_streams(rt: HostRuntime) -> Tested {
    hold_stamped::<StampedClient>(&rt, rt.alloc(), OVERLONG)
}

// ---- tables that hold over one kind of halves

#[test]
fn streams_send_what_is_greatest_and_in_parts(rt: HostRuntime) -> Tested {
    hold::<PlainClient>(&rt, rt.alloc(), GREATEST_ITEMS)
}

#[test]
fn stamped_streams_send_and_receive(rt: HostRuntime) -> Tested {
    hold::<StampedClient>(&rt, rt.alloc(), STAMPED)
}

#[test]
fn payloads_that_open_too_long_break_their_streams(rt: HostRuntime) -> Tested {
    hold::<SwellingClient>(&rt, rt.alloc(), SWELLING)
}

#[test]
fn streams_that_are_not_sealed_are_refused(rt: HostRuntime) -> Tested {
    hold::<SealedClient>(&rt, rt.alloc(), SEALED)
}

#[test]
fn items_that_are_not_sealed_are_refused(rt: HostRuntime) -> Tested {
    hold::<ClientCore<OpensOnly, Plain>>(&rt, rt.alloc(), SEALED_ITEMS)
}
