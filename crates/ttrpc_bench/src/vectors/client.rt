//! The client's table. Its columns are the states of a frame's stream id at a client, and its rows are the kinds of
//! frames.
//!
//! Each vector comes to a client of either kind that has a call, a stream and a call that has ended. In the column of
//! streams the stream has the id 1 and the call has the id 3. In all other columns the call has the id 1 and the stream
//! has the id 3. The ended call has the id 5, so that the next id is 7.
use crate::vectors::Given::{self, *};
use crate::vectors::Halves::{self, *};
use crate::vectors::Told::{self, *};
use crate::vectors::{BAD_STAMP, LONG, LONG_STATUS, PAST};

/// The state of a frame's id at a client.
#[derive(Clone, Copy, Debug, PartialEq, Eq)]
pub enum IdState {
    /// The id of a call that waits.
    Call,
    /// The id of an open stream.
    Stream,
    /// The next id, which was never opened.
    NeverOpened,
    /// The id of a call that has ended.
    Ended,
    /// An even id.
    Even,
    /// The id 0.
    Zero,
    /// An id above the next one.
    AboveNext,
}

use FrameKind::*;
use IdState::*;

/// Each column.
pub const ID_STATES: &[IdState] = &[Call, Stream, NeverOpened, Ended, Even, Zero, AboveNext];

/// The kind of a frame.
#[derive(Clone, Copy, Debug, PartialEq, Eq)]
pub enum FrameKind {
    /// A frame that is longer than a message may be.
    Oversized,
    /// A frame with a payload that the inbound half refuses.
    Unopened,
    /// A frame with a payload that opens to more than a message may have.
    OpenedTooLong,
    /// A response with an OK status.
    OkResponse,
    /// A response with another status.
    RefusedResponse,
    /// A response that can't be read.
    UnreadableResponse,
    /// Data without the flag of the last item.
    Data,
    /// Data with the flag of the last item.
    LastData,
    /// Neither a response nor data.
    OtherType,
}

/// Each row.
#[rattlefmt::skip]
pub const FRAME_KINDS: &[FrameKind] = &[
    Oversized, Unopened, OpenedTooLong, OkResponse, RefusedResponse, UnreadableResponse, Data, LastData, OtherType,
];

/// A frame, and its effect.
#[derive(Clone, Copy)]
pub struct ClientVector {
    pub frame: FrameKind,
    pub id: IdState,
    pub halves: Halves,
    pub bytes: &'static [u8],
    /// The number of bytes 7 that follow and belong to the frame.
    pub body: usize,
    /// The results that the call or the stream of the id gets, in turn. If there is neither, the frame has no effect.
    pub gives: &'static [Given],
}

/// The defaults of a vector: a client has neither a call nor a stream with its id.
const NONE: ClientVector = ClientVector {
    frame: OtherType,
    id: NeverOpened,
    halves: Usual,
    bytes: b"",
    body: 0,
    gives: &[],
};

/// One byte more than a message may have.
const LONG_BODY: usize = 4194305;

const CLOSE_HAS_DATA: Told = Others("stream 1: close message cannot include data");

/// The cells, row by row. Each has at least one vector.
#[rattlefmt::skip]
pub const CLIENT_VECTORS: &[ClientVector] = &[
    ClientVector { frame: Oversized, id: Call, bytes: b"\0\x40\0\x01\0\0\0\x01\x02\0", body: LONG_BODY, gives: &[Refusal(LONG_STATUS)], ..NONE },
    ClientVector { frame: Oversized, id: Stream, bytes: b"\0\x40\0\x01\0\0\0\x01\x03\0", body: LONG_BODY, gives: &[Refusal(LONG_STATUS), Refusal(PAST)], ..NONE },
    ClientVector { frame: Oversized, id: NeverOpened, bytes: b"\0\x40\0\x01\0\0\0\x07\x02\0", body: LONG_BODY, ..NONE },
    ClientVector { frame: Oversized, id: Ended, bytes: b"\0\x40\0\x01\0\0\0\x05\x02\0", body: LONG_BODY, ..NONE },
    ClientVector { frame: Oversized, id: Even, bytes: b"\0\x40\0\x01\0\0\0\x02\x03\0", body: LONG_BODY, ..NONE },
    ClientVector { frame: Oversized, id: Zero, bytes: b"\0\x40\0\x01\0\0\0\0\x09\0", body: LONG_BODY, ..NONE },
    ClientVector { frame: Oversized, id: AboveNext, bytes: b"\0\x40\0\x01\0\0\0\x09\x02\0", body: LONG_BODY, ..NONE },

    ClientVector { frame: Unopened, id: Call, halves: BadStamp, bytes: b"\0\0\0\x06\0\0\0\x01\x02\0\x0a\0\x12\x01\x2a\x07", gives: &[Refusal(BAD_STAMP)], ..NONE },
    ClientVector { frame: Unopened, id: Call, halves: BadStamp, bytes: b"\0\0\0\0\0\0\0\x01\x03\x05", gives: &[Refusal(BAD_STAMP)], ..NONE },
    ClientVector { frame: Unopened, id: Stream, halves: BadStamp, bytes: b"\0\0\0\x02\0\0\0\x01\x03\0z\x07", gives: &[Refusal(BAD_STAMP), Refusal(PAST)], ..NONE },
    ClientVector { frame: Unopened, id: Stream, halves: BadStamp, bytes: b"\0\0\0\0\0\0\0\x01\x03\x05", gives: &[Refusal(BAD_STAMP), Refusal(PAST)], ..NONE },
    ClientVector { frame: Unopened, id: NeverOpened, halves: BadStamp, bytes: b"\0\0\0\x06\0\0\0\x07\x02\0\x0a\0\x12\x01\x2a\x07", ..NONE },
    ClientVector { frame: Unopened, id: Ended, halves: BadStamp, bytes: b"\0\0\0\x06\0\0\0\x05\x02\0\x0a\0\x12\x01\x2a\x07", ..NONE },
    ClientVector { frame: Unopened, id: Even, halves: BadStamp, bytes: b"\0\0\0\x02\0\0\0\x02\x03\0z\x07", ..NONE },
    ClientVector { frame: Unopened, id: Zero, halves: BadStamp, bytes: b"\0\0\0\x01\0\0\0\0\x09\0\x07", ..NONE },
    ClientVector { frame: Unopened, id: AboveNext, halves: BadStamp, bytes: b"\0\0\0\x06\0\0\0\x09\x02\0\x0a\0\x12\x01\x2a\x07", ..NONE },

    ClientVector { frame: OpenedTooLong, id: Call, halves: Swelling, bytes: b"\0\0\0\x05\0\0\0\x01\x02\0\x0a\0\x12\x01\x2a", gives: &[Refusal(LONG)], ..NONE },
    ClientVector { frame: OpenedTooLong, id: Stream, halves: Swelling, bytes: b"\0\0\0\x01\0\0\0\x01\x03\0z", gives: &[Refusal(LONG), Refusal(PAST)], ..NONE },
    ClientVector { frame: OpenedTooLong, id: NeverOpened, halves: Swelling, bytes: b"\0\0\0\x05\0\0\0\x07\x02\0\x0a\0\x12\x01\x2a", ..NONE },
    ClientVector { frame: OpenedTooLong, id: Ended, halves: Swelling, bytes: b"\0\0\0\x05\0\0\0\x05\x02\0\x0a\0\x12\x01\x2a", ..NONE },
    ClientVector { frame: OpenedTooLong, id: Even, halves: Swelling, bytes: b"\0\0\0\x01\0\0\0\x02\x03\0z", ..NONE },
    ClientVector { frame: OpenedTooLong, id: Zero, halves: Swelling, bytes: b"\0\0\0\0\0\0\0\0\x09\0", ..NONE },
    ClientVector { frame: OpenedTooLong, id: AboveNext, halves: Swelling, bytes: b"\0\0\0\x05\0\0\0\x09\x02\0\x0a\0\x12\x01\x2a", ..NONE },

    ClientVector { frame: OkResponse, id: Call, bytes: b"\0\0\0\x05\0\0\0\x01\x02\0\x0a\0\x12\x01\x2a", gives: &[Payload(b"\x2a")], ..NONE },
    // The flags of a response have no meaning.
    ClientVector { frame: OkResponse, id: Call, bytes: b"\0\0\0\x02\0\0\0\x01\x02\xff\x0a\0", gives: &[Payload(b"")], ..NONE },
    ClientVector { frame: OkResponse, id: Stream, bytes: b"\0\0\0\x05\0\0\0\x01\x02\xff\x0a\0\x12\x01\x2a", gives: &[Payload(b"\x2a"), Refusal(RemoteClosed)], ..NONE },
    ClientVector { frame: OkResponse, id: NeverOpened, bytes: b"\0\0\0\x05\0\0\0\x07\x02\0\x0a\0\x12\x01\x2b", ..NONE },
    ClientVector { frame: OkResponse, id: Ended, bytes: b"\0\0\0\x05\0\0\0\x05\x02\0\x0a\0\x12\x01\x2b", ..NONE },
    ClientVector { frame: OkResponse, id: Even, bytes: b"\0\0\0\x05\0\0\0\x02\x02\0\x0a\0\x12\x01\x2b", ..NONE },
    ClientVector { frame: OkResponse, id: Zero, bytes: b"\0\0\0\x05\0\0\0\0\x02\0\x0a\0\x12\x01\x2b", ..NONE },
    ClientVector { frame: OkResponse, id: AboveNext, bytes: b"\0\0\0\x05\0\0\0\x09\x02\0\x0a\0\x12\x01\x2b", ..NONE },

    ClientVector { frame: RefusedResponse, id: Call, bytes: b"\0\0\0\x09\0\0\0\x01\x02\0\x0a\x02\x08\x03\x0a\x03\x12\x01x", gives: &[Refusal(Status(3, "x"))], ..NONE },
    ClientVector { frame: RefusedResponse, id: Stream, bytes: b"\0\0\0\x0a\0\0\0\x01\x02\0\x0a\x08\x08\x05\x12\x04gone", gives: &[Refusal(Status(5, "gone")), Refusal(RemoteClosed)], ..NONE },
    ClientVector { frame: RefusedResponse, id: NeverOpened, bytes: b"\0\0\0\x0a\0\0\0\x07\x02\0\x0a\x08\x08\x05\x12\x04gone", ..NONE },
    ClientVector { frame: RefusedResponse, id: Ended, bytes: b"\0\0\0\x0a\0\0\0\x05\x02\0\x0a\x08\x08\x05\x12\x04gone", ..NONE },
    ClientVector { frame: RefusedResponse, id: Even, bytes: b"\0\0\0\x0a\0\0\0\x02\x02\0\x0a\x08\x08\x05\x12\x04gone", ..NONE },
    ClientVector { frame: RefusedResponse, id: Zero, bytes: b"\0\0\0\x0a\0\0\0\0\x02\0\x0a\x08\x08\x05\x12\x04gone", ..NONE },
    ClientVector { frame: RefusedResponse, id: AboveNext, bytes: b"\0\0\0\x0a\0\0\0\x09\x02\0\x0a\x08\x08\x05\x12\x04gone", ..NONE },

    // Only the beginning of the text is specified.
    ClientVector { frame: UnreadableResponse, id: Call, bytes: b"\0\0\0\x03\0\0\0\x01\x02\0\x0a\x05a", gives: &[Refusal(Begins("Unpack response error "))], ..NONE },
    ClientVector { frame: UnreadableResponse, id: Stream, bytes: b"\0\0\0\x03\0\0\0\x01\x02\0\x0a\x05a", gives: &[Refusal(Begins("Decode message failed.")), Refusal(RemoteClosed)], ..NONE },
    ClientVector { frame: UnreadableResponse, id: NeverOpened, bytes: b"\0\0\0\x03\0\0\0\x07\x02\0\x0a\x05a", ..NONE },
    ClientVector { frame: UnreadableResponse, id: Ended, bytes: b"\0\0\0\x03\0\0\0\x05\x02\0\x0a\x05a", ..NONE },
    ClientVector { frame: UnreadableResponse, id: Even, bytes: b"\0\0\0\x03\0\0\0\x02\x02\0\x0a\x05a", ..NONE },
    ClientVector { frame: UnreadableResponse, id: Zero, bytes: b"\0\0\0\x03\0\0\0\0\x02\0\x0a\x05a", ..NONE },
    ClientVector { frame: UnreadableResponse, id: AboveNext, bytes: b"\0\0\0\x03\0\0\0\x09\x02\0\x0a\x05a", ..NONE },

    ClientVector { frame: Data, id: Call, bytes: b"\0\0\0\x01\0\0\0\x01\x03\0z", gives: &[Refusal(Others("Receiver got malformed packet: type 3, flags 0, stream 1"))], ..NONE },
    ClientVector { frame: Data, id: Call, bytes: b"\0\0\0\0\0\0\0\x01\x03\x04", gives: &[Refusal(Others("Receiver got malformed packet: type 3, flags 4, stream 1"))], ..NONE },
    ClientVector { frame: Data, id: Stream, bytes: b"\0\0\0\x01\0\0\0\x01\x03\0a", gives: &[Payload(b"a"), Nothing], ..NONE },
    ClientVector { frame: Data, id: Stream, bytes: b"\0\0\0\x01\0\0\0\x01\x03\x04\x7a", gives: &[Payload(b"z"), Nothing], ..NONE },
    ClientVector { frame: Data, id: NeverOpened, bytes: b"\0\0\0\x01\0\0\0\x07\x03\0z", ..NONE },
    ClientVector { frame: Data, id: Ended, bytes: b"\0\0\0\x01\0\0\0\x05\x03\0z", ..NONE },
    ClientVector { frame: Data, id: Even, bytes: b"\0\0\0\x01\0\0\0\x02\x03\0z", ..NONE },
    ClientVector { frame: Data, id: Zero, bytes: b"\0\0\0\x01\0\0\0\0\x03\0z", ..NONE },
    ClientVector { frame: Data, id: AboveNext, bytes: b"\0\0\0\x01\0\0\0\x09\x03\0z", ..NONE },

    ClientVector { frame: LastData, id: Call, bytes: b"\0\0\0\x01\0\0\0\x01\x03\x01z", gives: &[Refusal(Others("Receiver got malformed packet: type 3, flags 1, stream 1"))], ..NONE },
    ClientVector { frame: LastData, id: Call, bytes: b"\0\0\0\0\0\0\0\x01\x03\x05", gives: &[Refusal(Others("Receiver got malformed packet: type 3, flags 5, stream 1"))], ..NONE },
    ClientVector { frame: LastData, id: Call, bytes: b"\0\0\0\x01\0\0\0\x01\x03\x05z", gives: &[Refusal(Others("Receiver got malformed packet: type 3, flags 5, stream 1"))], ..NONE },
    ClientVector { frame: LastData, id: Stream, bytes: b"\0\0\0\x01\0\0\0\x01\x03\x01z", gives: &[Payload(b"z"), Refusal(RemoteClosed)], ..NONE },
    ClientVector { frame: LastData, id: Stream, bytes: b"\0\0\0\0\0\0\0\x01\x03\x05", gives: &[Refusal(Eof), Refusal(RemoteClosed)], ..NONE },
    ClientVector { frame: LastData, id: Stream, bytes: b"\0\0\0\x01\0\0\0\x01\x03\x05z", gives: &[Refusal(CLOSE_HAS_DATA), Refusal(RemoteClosed)], ..NONE },
    ClientVector { frame: LastData, id: NeverOpened, bytes: b"\0\0\0\0\0\0\0\x07\x03\x05", ..NONE },
    ClientVector { frame: LastData, id: Ended, bytes: b"\0\0\0\0\0\0\0\x05\x03\x05", ..NONE },
    ClientVector { frame: LastData, id: Even, bytes: b"\0\0\0\0\0\0\0\x02\x03\x05", ..NONE },
    ClientVector { frame: LastData, id: Zero, bytes: b"\0\0\0\0\0\0\0\0\x03\x05", ..NONE },
    ClientVector { frame: LastData, id: AboveNext, bytes: b"\0\0\0\x01\0\0\0\x09\x03\x01z", ..NONE },

    ClientVector { frame: OtherType, id: Call, bytes: b"\0\0\0\0\0\0\0\x01\0\0", gives: &[Refusal(Others("Receiver got malformed packet: type 0, flags 0, stream 1"))], ..NONE },
    ClientVector { frame: OtherType, id: Call, bytes: b"\0\0\0\0\0\0\0\x01\x01\0", gives: &[Refusal(Others("Receiver got malformed packet: type 1, flags 0, stream 1"))], ..NONE },
    ClientVector { frame: OtherType, id: Call, bytes: b"\0\0\0\x02\0\0\0\x01\x09\x02ab", gives: &[Refusal(Others("Receiver got malformed packet: type 9, flags 2, stream 1"))], ..NONE },
    ClientVector { frame: OtherType, id: Stream, bytes: b"\0\0\0\0\0\0\0\x01\0\0", gives: &[Refusal(Others("Receiver got malformed packet: type 0, flags 0, stream 1")), Refusal(PAST)], ..NONE },
    ClientVector { frame: OtherType, id: Stream, bytes: b"\0\0\0\0\0\0\0\x01\x01\0", gives: &[Refusal(Others("Receiver got malformed packet: type 1, flags 0, stream 1")), Refusal(PAST)], ..NONE },
    ClientVector { frame: OtherType, id: Stream, bytes: b"\0\0\0\x02\0\0\0\x01\xff\xffab", gives: &[Refusal(Others("Receiver got malformed packet: type 255, flags 255, stream 1")), Refusal(PAST)], ..NONE },
    ClientVector { frame: OtherType, id: NeverOpened, bytes: b"\0\0\0\0\0\0\0\x07\x09\0", ..NONE },
    ClientVector { frame: OtherType, id: Ended, bytes: b"\0\0\0\0\0\0\0\x05\x01\0", ..NONE },
    ClientVector { frame: OtherType, id: Even, bytes: b"\0\0\0\0\0\0\0\x02\x09\0", ..NONE },
    ClientVector { frame: OtherType, id: Zero, bytes: b"\0\0\0\0\0\0\0\0\0\0", ..NONE },
    ClientVector { frame: OtherType, id: AboveNext, bytes: b"\0\0\0\x02\0\0\0\x09\x01\0ab", ..NONE },
];
