//! The server's table, under either rules. Its rows are tested from top to bottom, and the first that fits counts.
//!
//! The server has the services `demo.Echo` and `demo.None`. `demo.Echo` has the method `Ping`, the stream `Chat`, and
//! `Echo`, which is both a method and a stream. `demo.None` has neither methods nor streams.
use crate::vectors::Given::{self, Nothing, Payload, Refusal};
use crate::vectors::Halves::{self, *};
use crate::vectors::Told::RemoteClosed;

/// A row of the table.
#[derive(Clone, Copy, Debug, PartialEq, Eq)]
pub enum ServerRow {
    /// A frame that is longer than a message may be.
    Oversized,
    /// A frame with a payload that the inbound half refuses.
    Unopened,
    /// A frame with a payload that opens to more than a message may have.
    OpenedTooLong,
    /// A frame with an even id, which sync rules don't test.
    EvenId,
    /// A frame that is neither a request nor data.
    OtherType,
    /// Data for a stream that takes items.
    OpenMailbox,
    /// Data for a stream that its client has closed.
    EndMark,
    /// Data for a stream that isn't there.
    NoMailbox,
    /// A request with the id of an active job, which sync rules don't test.
    IdInUse,
    /// A request with an id that isn't above the newest, which sync rules don't test either.
    IdNotAbove,
    /// A request that can't be read.
    Unreadable,
    /// A request to an unknown service.
    UnknownService,
    /// A request to an unknown method.
    UnknownMethod,
    /// A request to a method.
    Method,
    /// A request to a stream. Sync rules have no streams.
    Stream,
    /// A request to a name that is both a method's and a stream's.
    MethodAndStream,
}

use ServerRow::*;

/// Each row, from top to bottom.
#[rattlefmt::skip]
pub const SERVER_ROWS: &[ServerRow] = &[
    Oversized, Unopened, OpenedTooLong, EvenId, OtherType, OpenMailbox, EndMark, NoMailbox, IdInUse, IdNotAbove,
    Unreadable, UnknownService, UnknownMethod, Method, Stream, MethodAndStream,
];

/// Neighbouring rows that one frame can fit under async rules: the upper row, and the lower one.
#[rattlefmt::skip]
pub const ASYNC_PAIRS: &[(ServerRow, ServerRow)] = &[
    (Oversized, Unopened), (Oversized, OpenedTooLong), (Unopened, EvenId), (OpenedTooLong, EvenId), (EvenId, OtherType),
    (IdInUse, IdNotAbove), (IdNotAbove, Unreadable), (Unreadable, UnknownService), (UnknownService, UnknownMethod),
];

/// The same under sync rules. The rows that sync rules don't test are in no pair.
#[rattlefmt::skip]
pub const SYNC_PAIRS: &[(ServerRow, ServerRow)] = &[
    (Oversized, Unopened), (Oversized, OpenedTooLong), (Unopened, OtherType), (OpenedTooLong, OtherType),
    (Unreadable, UnknownService), (UnknownService, UnknownMethod),
];

/// The state of a server when a vector comes. Its jobs and streams have the id 1, unless another is named.
#[derive(Clone, Copy, Debug, PartialEq, Eq)]
pub enum Has {
    /// Nothing has come.
    Fresh,
    /// A job of `Echo` waits.
    WaitingJob,
    /// A job of `Echo` was taken.
    TakenJob,
    /// A job of `Echo` was answered.
    AnsweredJob,
    /// A job with the id 3 was taken.
    NewerJob,
    /// A stream of `Chat` takes items.
    OpenStream,
    /// The client of a stream has closed it, and the receiver has received that.
    ClosedStream,
    /// The receiver of a stream was dropped.
    UnheardStream,
    /// The receiver of a stream was dropped after the client had closed the stream.
    UnheardClosedStream,
    /// A stream has ended.
    EndedStream,
}

use Has::*;

/// An effect of a vector at a server.
#[derive(Clone, Copy)]
pub enum Does {
    /// The server writes these bytes, and no others.
    Writes(&'static [u8]),
    /// The server writes one response, with the id 1 and this code. Its message begins with this text, and its rest
    /// isn't specified.
    Answers(i32, &'static str),
    /// The server hands out a method's job with this number, id and payload.
    HandsOut(u64, u32, &'static [u8]),
    /// The server hands out a stream's job with this number and id.
    HandsOutStream(u64, u32),
    /// The receiver of the stream of job 1 gets this result.
    Gives(Given),
}

use Does::*;

/// A vector, and its effects at a server. After them the server writes nothing, hands out no job, and goes on.
#[derive(Clone, Copy)]
pub struct ServerVector {
    /// The row that counts.
    pub row: ServerRow,
    /// A lower row that fits, too.
    pub lower: Option<ServerRow>,
    pub has: Has,
    pub halves: Halves,
    pub bytes: &'static [u8],
    /// The number of bytes 7 that follow and belong to the frame.
    pub body: usize,
    pub does: &'static [Does],
}

/// The defaults of a vector: the server is fresh and does nothing.
const FRESH: ServerVector = ServerVector {
    row: OtherType,
    lower: None,
    has: Fresh,
    halves: Usual,
    bytes: b"",
    body: 0,
    does: &[],
};

/// One byte more than a message may have.
const LONG_BODY: usize = 4194305;

// ---- requests

/// To `Echo`, with the payload 2a.
const ASKED: &[u8] = b"\0\0\0\x14\0\0\0\x01\x01\0\x0a\x09demo.Echo\x12\x04Echo\x1a\x01\x2a";
/// The same, with the payload 2b.
const ASKED_AGAIN: &[u8] = b"\0\0\0\x14\0\0\0\x01\x01\0\x0a\x09demo.Echo\x12\x04Echo\x1a\x01\x2b";
/// `ASKED`, with the id 2.
const ASKED_SECOND: &[u8] = b"\0\0\0\x14\0\0\0\x02\x01\0\x0a\x09demo.Echo\x12\x04Echo\x1a\x01\x2a";
/// `ASKED`, with a wrong stamp.
const BADLY_STAMPED: &[u8] =
    b"\0\0\0\x15\0\0\0\x01\x01\0\x0a\x09demo.Echo\x12\x04Echo\x1a\x01\x2a\x07";
/// To `Ping`.
const PINGED: &[u8] = b"\0\0\0\x14\0\0\0\x01\x01\0\x0a\x09demo.Echo\x12\x04Ping\x1a\x01\x2a";
/// To `Chat`, with the flags that items follow and that the request has no item.
const OPENED: &[u8] = b"\0\0\0\x11\0\0\0\x01\x01\x06\x0a\x09demo.Echo\x12\x04Chat";
/// To an unknown method.
const NO_METHOD: &[u8] = b"\0\0\0\x11\0\0\0\x01\x01\0\x0a\x09demo.Echo\x12\x04Nope";

// ---- answers

/// To a frame of 4194305 bytes with the id 1.
const LONG_FIRST: &[u8] = b"\
    \0\0\0\x43\0\0\0\x01\x02\0\
    \x0a\x41\x08\x03\x12\x3dmessage length 4194305 exceed maximum message size of 4194304";
/// The same for the id 2.
const LONG_SECOND: &[u8] = b"\
    \0\0\0\x43\0\0\0\x02\x02\0\
    \x0a\x41\x08\x03\x12\x3dmessage length 4194305 exceed maximum message size of 4194304";
/// The same for the id 5.
const LONG_FIFTH: &[u8] = b"\
    \0\0\0\x43\0\0\0\x05\x02\0\
    \x0a\x41\x08\x03\x12\x3dmessage length 4194305 exceed maximum message size of 4194304";
/// To a frame with a wrong stamp.
const BAD_STAMP_FIRST: &[u8] = b"\
    \0\0\0\x34\0\0\0\x01\x02\0\x0a\x32\x08\x02\x12\x2ettrpc err: transform_inbound failed: bad stamp";
/// The same for the id 2.
const BAD_STAMP_SECOND: &[u8] = b"\
    \0\0\0\x34\0\0\0\x02\x02\0\x0a\x32\x08\x02\x12\x2ettrpc err: transform_inbound failed: bad stamp";
/// To a frame with an even id.
const ODD_SECOND: &[u8] =
    b"\0\0\0\x1b\0\0\0\x02\x02\0\x0a\x19\x08\x03\x12\x15stream id must be odd";
/// The same for the id 0.
const ODD_ZERO: &[u8] = b"\0\0\0\x1b\0\0\0\0\x02\0\x0a\x19\x08\x03\x12\x15stream id must be odd";
/// To data for a stream that isn't there.
const INACTIVE: &[u8] =
    b"\0\0\0\x20\0\0\0\x01\x02\0\x0a\x1e\x08\x03\x12\x1aStream is no longer active";
/// The same for the id 3.
const INACTIVE_THIRD: &[u8] =
    b"\0\0\0\x20\0\0\0\x03\x02\0\x0a\x1e\x08\x03\x12\x1aStream is no longer active";
/// To a request with the id of an active job.
const IN_USE: &[u8] = b"\0\0\0\x1b\0\0\0\x01\x02\0\x0a\x19\x08\x03\x12\x15stream id 1 is in use";
/// To a request with the id 1 when 1 was the newest.
const NOT_ABOVE: &[u8] =
    b"\0\0\0\x20\0\0\0\x01\x02\0\x0a\x1e\x08\x03\x12\x1astream id 1 is not above 1";
/// The same when 3 was the newest.
const BELOW_THIRD: &[u8] =
    b"\0\0\0\x20\0\0\0\x01\x02\0\x0a\x1e\x08\x03\x12\x1astream id 1 is not above 3";
/// To an unknown service, under async rules.
const NO_SERVICE: &[u8] =
    b"\0\0\0\x1e\0\0\0\x01\x02\0\x0a\x1c\x08\x03\x12\x18x service does not exist";
/// The same under sync rules.
const NO_PATH: &[u8] = b"\0\0\0\x19\0\0\0\x01\x02\0\x0a\x17\x08\x03\x12\x13/x/y does not exist";
/// To an unknown method, under async rules.
const NOPE: &[u8] = b"\0\0\0\x11\0\0\0\x01\x02\0\x0a\x0f\x08\x0c\x12\x0bNope method";
/// The same for a service without methods.
const NO_Y: &[u8] = b"\0\0\0\x0e\0\0\0\x01\x02\0\x0a\x0c\x08\x0c\x12\x08y method";
/// The same under sync rules, for `demo.Echo`.
const NO_NOPE: &[u8] =
    b"\0\0\0\x24\0\0\0\x01\x02\0\x0a\x22\x08\x03\x12\x1e/demo.Echo/Nope does not exist";
/// To a stream, under sync rules.
const NO_CHAT: &[u8] =
    b"\0\0\0\x24\0\0\0\x01\x02\0\x0a\x22\x08\x03\x12\x1e/demo.Echo/Chat does not exist";

/// The beginning of the answer to an unreadable request.
const UNREAD: &[Does] = &[Answers(3, "Unpack request error ")];

/// The vectors under async rules: at least one for each row, and for each pair of neighbours.
#[rattlefmt::skip]
pub const ASYNC_VECTORS: &[ServerVector] = &[
    ServerVector { row: Oversized, bytes: b"\0\x40\0\x01\0\0\0\x05\x01\0", body: LONG_BODY, does: &[Writes(LONG_FIFTH)], ..FRESH },
    ServerVector { row: Oversized, has: OpenStream, bytes: b"\0\x40\0\x01\0\0\0\x01\x03\x01", body: LONG_BODY, does: &[Writes(LONG_FIRST), Gives(Nothing)], ..FRESH },
    ServerVector { row: Oversized, lower: Some(Unopened), halves: BadStamp, bytes: b"\0\x40\0\x01\0\0\0\x05\x01\0", body: LONG_BODY, does: &[Writes(LONG_FIFTH)], ..FRESH },
    ServerVector { row: Oversized, lower: Some(OpenedTooLong), halves: Swelling, bytes: b"\0\x40\0\x01\0\0\0\x05\x01\0", body: LONG_BODY, does: &[Writes(LONG_FIFTH)], ..FRESH },
    ServerVector { row: Oversized, lower: Some(EvenId), bytes: b"\0\x40\0\x01\0\0\0\x02\x01\0", body: LONG_BODY, does: &[Writes(LONG_SECOND)], ..FRESH },

    ServerVector { row: Unopened, halves: BadStamp, bytes: BADLY_STAMPED, ..FRESH },
    ServerVector { row: Unopened, has: OpenStream, halves: BadStamp, bytes: b"\0\0\0\x02\0\0\0\x01\x03\x01z\x07", does: &[Gives(Nothing)], ..FRESH },
    ServerVector { row: Unopened, lower: Some(EvenId), halves: BadStamp, bytes: b"\0\0\0\x02\0\0\0\x02\x03\0z\x07", ..FRESH },

    ServerVector { row: OpenedTooLong, halves: Swelling, bytes: ASKED, ..FRESH },
    ServerVector { row: OpenedTooLong, lower: Some(EvenId), halves: Swelling, bytes: ASKED_SECOND, ..FRESH },

    ServerVector { row: EvenId, bytes: ASKED_SECOND, does: &[Writes(ODD_SECOND)], ..FRESH },
    ServerVector { row: EvenId, bytes: b"\0\0\0\x03\0\0\0\0\x01\0\x0a\x05a", does: &[Writes(ODD_ZERO)], ..FRESH },
    ServerVector { row: EvenId, lower: Some(OtherType), bytes: b"\0\0\0\0\0\0\0\x02\x09\0", does: &[Writes(ODD_SECOND)], ..FRESH },
    ServerVector { row: EvenId, lower: Some(NoMailbox), bytes: b"\0\0\0\x01\0\0\0\x02\x03\0z", does: &[Writes(ODD_SECOND)], ..FRESH },

    ServerVector { row: OtherType, bytes: b"\0\0\0\0\0\0\0\x01\x09\0", ..FRESH },
    ServerVector { row: OtherType, bytes: b"\0\0\0\x02\0\0\0\x01\x02\0\x0a\0", ..FRESH },
    ServerVector { row: OtherType, has: TakenJob, bytes: b"\0\0\0\0\0\0\0\x01\0\0", ..FRESH },
    ServerVector { row: OtherType, has: OpenStream, bytes: b"\0\0\0\x01\0\0\0\x01\xff\x01z", does: &[Gives(Nothing)], ..FRESH },

    ServerVector { row: OpenMailbox, has: OpenStream, bytes: b"\0\0\0\x01\0\0\0\x01\x03\0z", does: &[Gives(Payload(b"z")), Gives(Nothing)], ..FRESH },
    ServerVector { row: OpenMailbox, has: OpenStream, bytes: b"\0\0\0\x01\0\0\0\x01\x03\x01z", does: &[Gives(Payload(b"z")), Gives(Refusal(RemoteClosed))], ..FRESH },

    ServerVector { row: EndMark, has: ClosedStream, bytes: b"\0\0\0\x01\0\0\0\x01\x03\0z", does: &[Gives(Refusal(RemoteClosed))], ..FRESH },
    ServerVector { row: EndMark, has: UnheardClosedStream, bytes: b"\0\0\0\0\0\0\0\x01\x03\x05", ..FRESH },

    ServerVector { row: NoMailbox, bytes: b"\0\0\0\x01\0\0\0\x03\x03\0z", does: &[Writes(INACTIVE_THIRD)], ..FRESH },
    ServerVector { row: NoMailbox, has: WaitingJob, bytes: b"\0\0\0\x01\0\0\0\x01\x03\0z", does: &[Writes(INACTIVE), HandsOut(1, 1, b"\x2a")], ..FRESH },
    ServerVector { row: NoMailbox, has: TakenJob, bytes: b"\0\0\0\x01\0\0\0\x01\x03\0z", does: &[Writes(INACTIVE)], ..FRESH },
    ServerVector { row: NoMailbox, has: AnsweredJob, bytes: b"\0\0\0\0\0\0\0\x01\x03\x05", does: &[Writes(INACTIVE)], ..FRESH },
    ServerVector { row: NoMailbox, has: NewerJob, bytes: b"\0\0\0\x01\0\0\0\x01\x03\0z", does: &[Writes(INACTIVE)], ..FRESH },
    ServerVector { row: NoMailbox, has: UnheardStream, bytes: b"\0\0\0\x01\0\0\0\x01\x03\0z", does: &[Writes(INACTIVE)], ..FRESH },
    ServerVector { row: NoMailbox, has: EndedStream, bytes: b"\0\0\0\0\0\0\0\x01\x03\x05", does: &[Writes(INACTIVE)], ..FRESH },

    ServerVector { row: IdInUse, has: WaitingJob, bytes: ASKED_AGAIN, does: &[Writes(IN_USE), HandsOut(1, 1, b"\x2a")], ..FRESH },
    ServerVector { row: IdInUse, has: OpenStream, bytes: OPENED, does: &[Writes(IN_USE), Gives(Nothing)], ..FRESH },
    ServerVector { row: IdInUse, has: ClosedStream, bytes: OPENED, does: &[Writes(IN_USE), Gives(Refusal(RemoteClosed))], ..FRESH },
    ServerVector { row: IdInUse, lower: Some(IdNotAbove), has: TakenJob, bytes: ASKED_AGAIN, does: &[Writes(IN_USE)], ..FRESH },
    ServerVector { row: IdInUse, lower: Some(Unreadable), has: TakenJob, bytes: b"\0\0\0\x03\0\0\0\x01\x01\0\x0a\x05a", does: &[Writes(IN_USE)], ..FRESH },

    ServerVector { row: IdNotAbove, has: AnsweredJob, bytes: ASKED, does: &[Writes(NOT_ABOVE)], ..FRESH },
    ServerVector { row: IdNotAbove, has: EndedStream, bytes: OPENED, does: &[Writes(NOT_ABOVE)], ..FRESH },
    ServerVector { row: IdNotAbove, has: NewerJob, bytes: ASKED, does: &[Writes(BELOW_THIRD)], ..FRESH },
    ServerVector { row: IdNotAbove, lower: Some(Unreadable), has: NewerJob, bytes: b"\0\0\0\x03\0\0\0\x01\x01\0\x0a\x05a", does: &[Writes(BELOW_THIRD)], ..FRESH },
    ServerVector { row: IdNotAbove, lower: Some(UnknownService), has: NewerJob, bytes: b"\0\0\0\x06\0\0\0\x01\x01\0\x0a\x01x\x12\x01y", does: &[Writes(BELOW_THIRD)], ..FRESH },

    ServerVector { row: Unreadable, bytes: b"\0\0\0\x03\0\0\0\x01\x01\0\x0a\x05a", does: UNREAD, ..FRESH },
    ServerVector { row: Unreadable, lower: Some(UnknownService), bytes: b"\0\0\0\x06\0\0\0\x01\x01\0\x0a\x01x\x12\x05y", does: UNREAD, ..FRESH },

    ServerVector { row: UnknownService, lower: Some(UnknownMethod), bytes: b"\0\0\0\x06\0\0\0\x01\x01\0\x0a\x01x\x12\x01y", does: &[Writes(NO_SERVICE)], ..FRESH },

    ServerVector { row: UnknownMethod, bytes: NO_METHOD, does: &[Writes(NOPE)], ..FRESH },
    ServerVector { row: UnknownMethod, bytes: b"\0\0\0\x0e\0\0\0\x01\x01\0\x0a\x09demo.None\x12\x01y", does: &[Writes(NO_Y)], ..FRESH },

    ServerVector { row: Method, bytes: PINGED, does: &[HandsOut(1, 1, b"\x2a")], ..FRESH },
    ServerVector { row: Stream, bytes: OPENED, does: &[HandsOutStream(1, 1), Gives(Nothing)], ..FRESH },
    ServerVector { row: MethodAndStream, bytes: ASKED, does: &[HandsOut(1, 1, b"\x2a")], ..FRESH },
];

/// The same under sync rules.
#[rattlefmt::skip]
pub const SYNC_VECTORS: &[ServerVector] = &[
    ServerVector { row: Oversized, bytes: b"\0\x40\0\x01\0\0\0\x05\x01\0", body: LONG_BODY, does: &[Writes(LONG_FIFTH)], ..FRESH },
    ServerVector { row: Oversized, has: TakenJob, bytes: b"\0\x40\0\x01\0\0\0\x01\x03\0", body: LONG_BODY, does: &[Writes(LONG_FIRST)], ..FRESH },
    ServerVector { row: Oversized, lower: Some(Unopened), halves: BadStamp, bytes: b"\0\x40\0\x01\0\0\0\x05\x01\0", body: LONG_BODY, does: &[Writes(LONG_FIFTH)], ..FRESH },
    ServerVector { row: Oversized, lower: Some(OpenedTooLong), halves: Swelling, bytes: b"\0\x40\0\x01\0\0\0\x05\x01\0", body: LONG_BODY, does: &[Writes(LONG_FIFTH)], ..FRESH },
    ServerVector { row: Oversized, lower: Some(EvenId), bytes: b"\0\x40\0\x01\0\0\0\x02\x09\0", body: LONG_BODY, does: &[Writes(LONG_SECOND)], ..FRESH },

    ServerVector { row: Unopened, halves: BadStamp, bytes: BADLY_STAMPED, does: &[Writes(BAD_STAMP_FIRST)], ..FRESH },
    ServerVector { row: Unopened, lower: Some(EvenId), halves: BadStamp, bytes: b"\0\0\0\x04\0\0\0\x02\x01\0\x0a\x01x\x07", does: &[Writes(BAD_STAMP_SECOND)], ..FRESH },
    ServerVector { row: Unopened, lower: Some(OtherType), halves: BadStamp, bytes: b"\0\0\0\0\0\0\0\x02\x09\0", does: &[Writes(BAD_STAMP_SECOND)], ..FRESH },
    ServerVector { row: Unopened, lower: Some(NoMailbox), halves: BadStamp, bytes: b"\0\0\0\x02\0\0\0\x01\x03\0z\x07", does: &[Writes(BAD_STAMP_FIRST)], ..FRESH },

    ServerVector { row: OpenedTooLong, halves: Swelling, bytes: ASKED, does: &[Writes(LONG_FIRST)], ..FRESH },
    ServerVector { row: OpenedTooLong, lower: Some(EvenId), halves: Swelling, bytes: ASKED_SECOND, does: &[Writes(LONG_SECOND)], ..FRESH },
    ServerVector { row: OpenedTooLong, lower: Some(OtherType), halves: Swelling, bytes: b"\0\0\0\0\0\0\0\x02\x09\0", does: &[Writes(LONG_SECOND)], ..FRESH },

    // Sync rules don't test this: the request is served.
    ServerVector { row: EvenId, bytes: ASKED_SECOND, does: &[HandsOut(1, 2, b"\x2a")], ..FRESH },
    ServerVector { row: EvenId, bytes: b"\0\0\0\x14\0\0\0\0\x01\0\x0a\x09demo.Echo\x12\x04Echo\x1a\x01\x2a", does: &[HandsOut(1, 0, b"\x2a")], ..FRESH },

    ServerVector { row: OtherType, bytes: b"\0\0\0\0\0\0\0\x01\x09\0", ..FRESH },
    ServerVector { row: OtherType, bytes: b"\0\0\0\0\0\0\0\x02\xff\0", ..FRESH },
    ServerVector { row: OtherType, bytes: b"\0\0\0\x02\0\0\0\x01\x02\0\x0a\0", ..FRESH },
    ServerVector { row: OtherType, has: TakenJob, bytes: b"\0\0\0\0\0\0\0\x01\0\0", ..FRESH },

    // There are no streams: data and closes are skipped, even with the id of a job.
    ServerVector { row: OpenMailbox, has: WaitingJob, bytes: b"\0\0\0\x01\0\0\0\x01\x03\0z", does: &[HandsOut(1, 1, b"\x2a")], ..FRESH },
    ServerVector { row: OpenMailbox, has: TakenJob, bytes: b"\0\0\0\x01\0\0\0\x01\x03\x01z", ..FRESH },
    ServerVector { row: EndMark, has: TakenJob, bytes: b"\0\0\0\0\0\0\0\x01\x03\x05\0\0\0\x01\0\0\0\x01\x03\0z", ..FRESH },
    ServerVector { row: NoMailbox, bytes: b"\0\0\0\x01\0\0\0\x03\x03\0z", ..FRESH },
    ServerVector { row: NoMailbox, bytes: b"\0\0\0\x01\0\0\0\x02\x03\0z", ..FRESH },
    ServerVector { row: NoMailbox, has: AnsweredJob, bytes: b"\0\0\0\0\0\0\0\x01\x03\x05", ..FRESH },

    // Sync rules don't test this: both requests are served.
    ServerVector { row: IdInUse, has: WaitingJob, bytes: ASKED_AGAIN, does: &[HandsOut(1, 1, b"\x2a"), HandsOut(2, 1, b"\x2b")], ..FRESH },
    ServerVector { row: IdInUse, has: TakenJob, bytes: ASKED_AGAIN, does: &[HandsOut(2, 1, b"\x2b")], ..FRESH },
    ServerVector { row: IdNotAbove, has: AnsweredJob, bytes: ASKED_AGAIN, does: &[HandsOut(2, 1, b"\x2b")], ..FRESH },
    ServerVector { row: IdNotAbove, has: NewerJob, bytes: ASKED_AGAIN, does: &[HandsOut(2, 1, b"\x2b")], ..FRESH },

    ServerVector { row: Unreadable, bytes: b"\0\0\0\x03\0\0\0\x01\x01\0\x0a\x05a", does: UNREAD, ..FRESH },
    ServerVector { row: Unreadable, lower: Some(UnknownService), bytes: b"\0\0\0\x06\0\0\0\x01\x01\0\x0a\x01x\x12\x05y", does: UNREAD, ..FRESH },

    ServerVector { row: UnknownService, lower: Some(UnknownMethod), bytes: b"\0\0\0\x06\0\0\0\x01\x01\0\x0a\x01x\x12\x01y", does: &[Writes(NO_PATH)], ..FRESH },

    ServerVector { row: UnknownMethod, bytes: NO_METHOD, does: &[Writes(NO_NOPE)], ..FRESH },

    ServerVector { row: Method, bytes: PINGED, does: &[HandsOut(1, 1, b"\x2a")], ..FRESH },
    ServerVector { row: Stream, bytes: OPENED, does: &[Writes(NO_CHAT)], ..FRESH },
    ServerVector { row: MethodAndStream, bytes: ASKED, does: &[HandsOut(1, 1, b"\x2a")], ..FRESH },
];
