//! Scripts of streams with their replies, over plain halves and over halves that stamp.
use crate::tests::rows_tests::{ASYNC, SYNC, Script, Table, Tested, are_told, is_told_so};
use crate::tests::script::Act::*;
use crate::tests::script::Said::*;
use crate::tests::script::{Over, Rows};

/// The error of a receiver after an error.
const PAST: &str = "Receive packet from Receiver error";

/// The frame that opens a stream both ways has 27 bytes. The client sends two items and an empty one between them, and
/// closes. The server receives them, and their end.
const ITEMS_UP: Rows = &[
    (Open("Chat"), Named(1)),
    (Send(1, b"a"), Ticket(1)),
    (Send(1, b""), Ticket(2)),
    (Send(1, b"b"), Ticket(3)),
    (Close(1), Ticket(4)),
    (Send(1, b"c"), LocalClosed),
    (CarryUp(64), Count(27)),
    (CarryUp(64), Count(11)),
    (CarryUp(64), Count(10)),
    (CarryUp(64), Count(11)),
    (CarryUp(64), Count(10)),
    (DeliverUp(1), Count(1)),
    (DeliverUp(40), Count(40)),
    (RecvUp(1), Payload(b"a")),
    (RecvUp(1), Waits),
    (DeliverUp(64), Count(28)),
    (RecvUp(1), Payload(b"")),
    (RecvUp(1), Payload(b"b")),
    (RecvUp(1), Eof),
    (RecvUp(1), RemoteClosed),
    (Take, StreamJob(1, 1)),
    (End(1), Done),
    (RecvUp(1), Others(PAST)),
    (SendDown(1, b"a"), LocalClosed),
];

/// A server sends two items of 11 bytes each, and one arrives.
const CUT_BETWEEN: Rows = &[
    (Open("Chat"), Named(1)),
    (CarryUp(64), Count(27)),
    (DeliverUp(64), Count(27)),
    (Take, StreamJob(1, 1)),
    (SendDown(1, b"a"), Ticket(1)),
    (SendDown(1, b"b"), Ticket(2)),
    (CarryDown(64), Count(11)),
    (CarryDown(64), Count(11)),
    (CutDown(11), Done),
    (DeliverDown(64), Count(11)),
    (Recv(1), Payload(b"a")),
    (Recv(1), Socket("socket disconnected")),
    (Recv(1), Others(PAST)),
];

/// One item arrives, and a part of the other.
const CUT_INSIDE: Rows = &[
    (Open("Chat"), Named(1)),
    (CarryUp(64), Count(27)),
    (DeliverUp(64), Count(27)),
    (Take, StreamJob(1, 1)),
    (SendDown(1, b"a"), Ticket(1)),
    (SendDown(1, b"b"), Ticket(2)),
    (CarryDown(64), Count(11)),
    (CarryDown(64), Count(11)),
    (CutDown(15), Done),
    (DeliverDown(64), Count(15)),
    (Recv(1), Payload(b"a")),
    (Recv(1), Socket("socket disconnected inside a frame")),
    (Recv(1), Others(PAST)),
];

/// A call that meets a stream: its payload is the first item, and no end follows. Data that come back are no outcome.
#[rattlefmt::skip]
const CALL_GETS_DATA: Rows = &[
    (CallOf("Chat", b"\x2a"), Named(1)),
    (CarryUp(64), Count(30)),
    (DeliverUp(64), Count(30)),
    (Take, StreamJob(1, 1)),
    (RecvUp(1), Payload(b"\x2a")),
    (RecvUp(1), Waits),
    (Answer(1, b"\x2b"), Others("unknown job")),
    (SendDown(1, b"a"), Ticket(1)),
    (EndWith(1, b"\x2b"), Done),
    (CarryDown(64), Count(11)),
    (CarryDown(64), Count(15)),
    (DeliverDown(64), Count(26)),
    (Outcome(1), Others("Receiver got malformed packet: type 3, flags 0, stream 1")),
    (Outcome(1), Waits),
];

/// If a response alone comes back, that response is the outcome.
const CALL_GETS_RESPONSE: Rows = &[
    (CallOf("Chat", b"\x2a"), Named(1)),
    (CarryUp(64), Count(30)),
    (DeliverUp(64), Count(30)),
    (Take, StreamJob(1, 1)),
    (EndWith(1, b"\x2b"), Done),
    (EndWith(1, b"\x2b"), NoStep),
    (CarryDown(64), Count(15)),
    (DeliverDown(64), Count(15)),
    (Outcome(1), Payload(b"\x2b")),
];

/// A close is no good outcome, and neither is a handler's error.
#[rattlefmt::skip]
const CALL_GETS_CLOSE: Rows = &[
    (CallOf("Chat", b"\x2a"), Named(1)),
    (CallOf("Chat", b"\x2a"), Named(3)),
    (CarryUp(64), Count(30)),
    (CarryUp(64), Count(30)),
    (DeliverUp(64), Count(60)),
    (Take, StreamJob(1, 1)),
    (Take, StreamJob(2, 3)),
    (End(1), Done),
    (EndBroken(2), Done),
    (CarryDown(64), Count(10)),
    (CarryDown(64), Count(19)),
    (DeliverDown(64), Count(29)),
    (Outcome(1), Others("Receiver got malformed packet: type 3, flags 5, stream 1")),
    (Outcome(3), Status(2, "eof")),
];

/// A stream that meets a method: its items are refused, the first refusal ends it, and the answer comes too late.
const STREAM_MEETS_METHOD: Rows = &[
    (Open("Echo"), Named(1)),
    (Send(1, b"a"), Ticket(1)),
    (CarryUp(64), Count(27)),
    (CarryUp(64), Count(11)),
    (DeliverUp(64), Count(38)),
    (Take, Job(1, 1, b"")),
    (RecvUp(1), Others("unknown stream")),
    (SendDown(1, b"b"), Others("unknown stream")),
    (End(1), Others("unknown job")),
    (Answer(1, b"\x2b"), Done),
    (CarryDown(64), Count(42)),
    (CarryDown(64), Count(15)),
    (DeliverDown(64), Count(57)),
    (Recv(1), Status(3, "Stream is no longer active")),
    (Recv(1), RemoteClosed),
    (Outcome(1), Waits),
];

/// A stream under sync rules: it meets a method, its items are skipped, and the answer is its one item.
const STREAM_UNDER_SYNC: Rows = &[
    (Open("Echo"), Named(1)),
    (Send(1, b"a"), Ticket(1)),
    (Open("Chat"), Named(3)),
    (CarryUp(64), Count(27)),
    (CarryUp(64), Count(11)),
    (CarryUp(64), Count(27)),
    (DeliverUp(128), Count(65)),
    (Take, Job(1, 1, b"")),
    (Take, NoJob),
    (Answer(1, b"\x2b"), Done),
    (CarryDown(64), Count(46)),
    (CarryDown(64), Count(15)),
    (DeliverDown(128), Count(61)),
    (Recv(1), Payload(b"\x2b")),
    (Recv(1), RemoteClosed),
    (Recv(3), Status(3, "/demo.Echo/Chat does not exist")),
];

/// A server sends on the stream of a job that waits, and receives from it.
const JOB_THAT_WAITS: Rows = &[
    (Ask("Chat", b"\x2a"), Named(1)),
    (Send(1, b"a"), Others("stream is not sendable")),
    (SendDown(1, b"a"), Others("unknown stream")),
    (RecvUp(1), Others("unknown stream")),
    (CarryUp(64), Count(30)),
    (DeliverUp(64), Count(30)),
    (SendDown(1, b"a"), Ticket(1)),
    (RecvUp(1), Payload(b"\x2a")),
    (RecvUp(1), RemoteClosed),
    (CarryDown(64), Count(11)),
    (DeliverDown(64), Count(11)),
    (Recv(1), Payload(b"a")),
    (Recv(1), Waits),
    (End(1), NoStep),
    (Take, StreamJob(1, 1)),
    (End(1), Done),
    (CarryDown(64), Count(10)),
    (DeliverDown(64), Count(10)),
    (Recv(1), Eof),
];

/// Halves of a stream are dropped. Items for a dropped receiver are refused at the server, and lost at the client.
const DROPPED: Rows = &[
    (Open("Chat"), Named(1)),
    (Open("Chat"), Named(3)),
    (CarryUp(64), Count(27)),
    (CarryUp(64), Count(27)),
    (DeliverUp(64), Count(54)),
    (DropReceiverUp(1), Done),
    (RecvUp(1), Others(PAST)),
    (RecvUp(2), Waits),
    (Send(1, b"a"), Ticket(1)),
    (DropSender(1), Done),
    (Send(1, b"a"), LocalClosed),
    (CarryUp(64), Count(11)),
    (DeliverUp(64), Count(11)),
    (DropReceiver(3), Done),
    (Recv(3), Others(PAST)),
    (CarryDown(64), Count(42)),
    (DeliverDown(64), Count(42)),
    (Recv(1), Status(3, "Stream is no longer active")),
    (DropReceiver(1), Done),
    (Recv(1), Others("unknown stream")),
    (Close(3), Ticket(2)),
];

/// A stream that is opened with an empty item has that item, and nothing after it. With stamps the frame has one byte
/// more.
const EMPTY_ITEM: Rows = &[
    (Ask("Chat", b""), Named(1)),
    (CarryUp(64), Count(27)),
    (DeliverUp(64), Count(27)),
    (RecvUp(1), Payload(b"")),
    (RecvUp(1), RemoteClosed),
];

const STAMPED_EMPTY_ITEM: Rows = &[
    (Ask("Chat", b""), Named(1)),
    (CarryUp(64), Count(28)),
    (DeliverUp(64), Count(28)),
    (RecvUp(1), Payload(b"")),
    (RecvUp(1), RemoteClosed),
];

/// The same with stamps: an item and an empty one go up, and an item and a response come down.
const STAMPED_ITEMS: Rows = &[
    (Open("Chat"), Named(1)),
    (Send(1, b"a"), Ticket(1)),
    (Send(1, b""), Ticket(2)),
    (Close(1), Ticket(3)),
    (CarryUp(64), Count(28)),
    (CarryUp(64), Count(12)),
    (CarryUp(64), Count(11)),
    (CarryUp(64), Count(11)),
    (DeliverUp(64), Count(62)),
    (Take, StreamJob(1, 1)),
    (RecvUp(1), Payload(b"a")),
    (RecvUp(1), Payload(b"")),
    (RecvUp(1), Eof),
    (RecvUp(1), RemoteClosed),
    (SendDown(1, b"b"), Ticket(1)),
    (EndWith(1, b"\x2b"), Done),
    (CarryDown(64), Count(12)),
    (CarryDown(64), Count(16)),
    (DeliverDown(64), Count(28)),
    (Recv(1), Payload(b"b")),
    (Recv(1), Payload(b"\x2b")),
    (Recv(1), RemoteClosed),
];

/// A stream is opened, and two items, an empty one between them and the close are queued.
pub const QUEUED: Rows = &[
    (Open("Chat"), Named(1)),
    (Send(1, b"a"), Ticket(1)),
    (Send(1, b""), Ticket(2)),
    (Send(1, b"b"), Ticket(3)),
    (Close(1), Ticket(4)),
];

/// The queued frames are moved byte by byte, and there are no more bytes.
pub const MOVED: Rows = &[(BytesUp(69), Count(1)), (CarryUp(1), Count(0))];

/// The same with stamps.
pub const STAMPED_MOVED: Rows = &[(BytesUp(74), Count(1)), (CarryUp(1), Count(0))];

/// The items are received.
pub const RECEIVED: Rows = &[
    (RecvUp(1), Payload(b"a")),
    (RecvUp(1), Payload(b"")),
    (RecvUp(1), Payload(b"b")),
    (RecvUp(1), Eof),
    (RecvUp(1), RemoteClosed),
];

/// The frames of two streams alternate: two items of each, and its close.
const ALTERNATE_UP: Rows = &[
    (Open("Chat"), Named(1)),
    (Open("Chat"), Named(3)),
    (Send(1, b"a"), Ticket(1)),
    (Send(3, b"b"), Ticket(2)),
    (Send(1, b"c"), Ticket(3)),
    (Send(3, b"d"), Ticket(4)),
    (Close(1), Ticket(5)),
    (Close(3), Ticket(6)),
];

/// Each receiver gets its own items, and then the frames back alternate.
const ALTERNATE_DOWN: Rows = &[
    (RecvUp(2), Payload(b"b")),
    (RecvUp(1), Payload(b"a")),
    (RecvUp(1), Payload(b"c")),
    (RecvUp(1), Eof),
    (RecvUp(2), Payload(b"d")),
    (RecvUp(2), Eof),
    (Take, StreamJob(1, 1)),
    (Take, StreamJob(2, 3)),
    (SendDown(2, b"e"), Ticket(1)),
    (SendDown(1, b"f"), Ticket(2)),
    (SendDown(2, b"g"), Ticket(3)),
    (EndWith(1, b"h"), Done),
    (End(2), Done),
];

/// The client receives them.
const ALTERNATE_BACK: Rows = &[
    (Recv(1), Payload(b"f")),
    (Recv(1), Payload(b"h")),
    (Recv(1), RemoteClosed),
    (Recv(3), Payload(b"e")),
    (Recv(3), Payload(b"g")),
    (Recv(3), Eof),
];

/// The bytes of both streams go up, one by one, and down.
#[rattlefmt::skip]
const ALTERNATING: &[Script] = &[
    (Over::Plain, &[ALTERNATE_UP, &[(BytesUp(118), Count(1)), (CarryUp(1), Count(0))], ALTERNATE_DOWN, &[(BytesDown(58), Count(1)), (CarryDown(1), Count(0))], ALTERNATE_BACK]),
    (Over::Stamps, &[ALTERNATE_UP, &[(BytesUp(126), Count(1)), (CarryUp(1), Count(0))], ALTERNATE_DOWN, &[(BytesDown(63), Count(1)), (CarryDown(1), Count(0))], ALTERNATE_BACK]),
];

#[test]
fn frames_of_two_streams_alternate(rt: HostRuntime) -> Tested {
    are_told(&rt, rt.alloc(), &[(&ASYNC, ALTERNATING)])
}

const EMPTY_ITEMS: &[Script] = &[
    (Over::Plain, &[EMPTY_ITEM]),
    (Over::Stamps, &[STAMPED_EMPTY_ITEM]),
];

#[test]
fn a_stream_is_opened_by_an_empty_item(rt: HostRuntime) -> Tested {
    are_told(&rt, rt.alloc(), &[(&ASYNC, EMPTY_ITEMS)])
}

const BYTE_BY_BYTE: &[Script] = &[
    (Over::Plain, &[QUEUED, MOVED, RECEIVED]),
    (Over::Stamps, &[QUEUED, STAMPED_MOVED, RECEIVED]),
];

#[test]
fn items_go_byte_by_byte(rt: HostRuntime) -> Tested {
    are_told(&rt, rt.alloc(), &[(&ASYNC, BYTE_BY_BYTE)])
}

const BOTH_WAYS: &[Script] = &[(Over::Plain, &[ITEMS_UP]), (Over::Stamps, &[STAMPED_ITEMS])];

#[test]
fn items_go_both_ways(rt: HostRuntime) -> Tested {
    are_told(&rt, rt.alloc(), &[(&ASYNC, BOTH_WAYS)])
}

const CUTS: &[Script] = &[(Over::Plain, &[CUT_BETWEEN]), (Over::Plain, &[CUT_INSIDE])];

#[test]
fn a_pipe_is_cut_under_a_stream(rt: HostRuntime) -> Tested {
    are_told(&rt, rt.alloc(), &[(&ASYNC, CUTS)])
}

const CALLS: &[Script] = &[
    (Over::Plain, &[CALL_GETS_DATA]),
    (Over::Plain, &[CALL_GETS_RESPONSE]),
    (Over::Plain, &[CALL_GETS_CLOSE]),
];

#[test]
fn a_call_meets_a_stream(rt: HostRuntime) -> Tested {
    are_told(&rt, rt.alloc(), &[(&ASYNC, CALLS)])
}

const MEETINGS: &[Table] = &[
    (&ASYNC, &[(Over::Plain, &[STREAM_MEETS_METHOD])]),
    (&SYNC, &[(Over::Plain, &[STREAM_UNDER_SYNC])]),
];

#[test]
fn a_stream_meets_a_method(rt: HostRuntime) -> Tested {
    are_told(&rt, rt.alloc(), MEETINGS)
}

const WAITING: &[Script] = &[(Over::Plain, &[JOB_THAT_WAITS])];

#[test]
fn a_job_that_waits_has_a_stream(rt: HostRuntime) -> Tested {
    are_told(&rt, rt.alloc(), &[(&ASYNC, WAITING)])
}

const DROPS: &[Script] = &[(Over::Plain, &[DROPPED])];

#[test]
fn halves_are_dropped(rt: HostRuntime) -> Tested {
    are_told(&rt, rt.alloc(), &[(&ASYNC, DROPS)])
}

/// The same for a stream.
#[test]
fn refused_memory_is_named_by_a_stream(rt: HostRuntime) -> Tested {
    is_told_so(&rt, rt.alloc(), ASYNC[0], &BYTE_BY_BYTE[0])
}
