//! The bytes that are read, with the result of each reader. The layout of a frame is that of PROTOCOL.md of ttrpc.
use ttrpc_bench::{AT_ONCE, Manner};
use ttrpc_proto::MessageHeader;

/// How the bytes that are read come, and how the bytes that are written are taken.
pub const MANNERS: &[Manner] = &[
    AT_ONCE,
    Manner { step: 7, ..AT_ONCE },
    Manner { step: 1, ..AT_ONCE },
    Manner {
        step: 1,
        interrupts: true,
        ..AT_ONCE
    },
];

/// The result of `read_message`.
#[derive(Clone, Copy)]
pub enum Parts {
    /// `Socket` with this text.
    Gone(&'static str),
    /// A status INVALID_ARGUMENT with this text.
    Refused(&'static str),
    /// `Socket` with any text.
    Broken,
    /// The header, and a status INVALID_ARGUMENT with this text in place of the payload.
    TooLong(&'static str),
    /// The header and the payload.
    Whole,
}

/// The result of reading a message or a value.
#[derive(Clone, Copy, PartialEq, Eq)]
pub enum Reads {
    /// A socket's error.
    Broken,
    /// The message is too long. A message reader returns that error with the header, and a value has no bytes.
    TooLong,
    /// A message and a value.
    Whole,
    /// A message, and no value.
    Unreadable,
}

/// Bytes, then zeros, and then other bytes; the results of reading them, and the number of bytes that aren't read.
#[derive(Clone, Copy)]
pub struct Row {
    pub name: &'static str,
    pub head: &'static [u8],
    pub zeros: usize,
    pub tail: &'static [u8],
    pub header: MessageHeader,
    pub payload: &'static [u8],
    pub parts: Parts,
    pub reads: Reads,
    pub left: usize,
}

const NO_HEADER: MessageHeader = MessageHeader {
    length: 0,
    stream_id: 0,
    type_: 0,
    flags: 0,
};

/// A request of twenty bytes.
pub const REQUEST: &[u8] = b"\0\0\0\x14\0\0\0\x01\x01\0\x0a\x09demo.Echo\x12\x04Echo\x1a\x01\x2a";

pub const REQUEST_HEADER: MessageHeader = MessageHeader {
    length: 20,
    stream_id: 1,
    type_: 1,
    flags: 0,
};

pub const REQUEST_PAYLOAD: &[u8] = b"\x0a\x09demo.Echo\x12\x04Echo\x1a\x01\x2a";

const CUT: Row = Row {
    name: "no byte",
    head: b"",
    zeros: 0,
    tail: b"",
    header: NO_HEADER,
    payload: b"",
    parts: Parts::Gone("socket disconnected"),
    reads: Reads::Broken,
    left: 0,
};

const FIVE: &[u8] = b"\0\0\0\x05\0\0\0\x01\x01\0";

/// A header that states 4194305 bytes, one more than a message may have.
const LONG: &[u8] = b"\0\x40\0\x01\0\0\0\x05\x01\0";

const TOO_LONG: Row = Row {
    name: "a message that is too long, and a frame that closes a stream",
    head: LONG,
    zeros: 4194305,
    tail: b"\0\0\0\0\0\0\0\x01\x03\x05",
    header: MessageHeader {
        length: 4194305,
        stream_id: 5,
        type_: 1,
        flags: 0,
    },
    payload: b"",
    parts: Parts::TooLong("message length 4194305 exceed maximum message size of 4194304"),
    reads: Reads::TooLong,
    left: 10,
};

pub const ROWS: &[Row] = &[
    CUT,
    Row {
        name: "one byte of a header",
        head: b"\0",
        parts: Parts::Refused("Message header length 1 is too small"),
        ..CUT
    },
    Row {
        name: "three bytes of a header",
        head: b"\0\0\0",
        parts: Parts::Refused("Message header length 3 is too small"),
        ..CUT
    },
    Row {
        name: "nine bytes of a header",
        head: b"\0\0\0\0\0\0\0\x01\x03",
        parts: Parts::Refused("Message header length 9 is too small"),
        ..CUT
    },
    Row {
        name: "a header without its body",
        head: FIVE,
        ..CUT
    },
    Row {
        name: "two bytes of five",
        head: FIVE,
        tail: b"\x0a\x09",
        parts: Parts::Refused("Message length 2 is not 5"),
        ..CUT
    },
    Row {
        name: "all bytes but one of a greatest message",
        head: b"\0\x40\0\0\0\0\0\x05\x01\0",
        zeros: 4194303,
        parts: Parts::Refused("Message length 4194303 is not 4194304"),
        ..CUT
    },
    Row {
        name: "a request, and more",
        head: REQUEST,
        tail: b"\0\0\0",
        header: REQUEST_HEADER,
        payload: REQUEST_PAYLOAD,
        parts: Parts::Whole,
        reads: Reads::Whole,
        left: 3,
        ..CUT
    },
    Row {
        name: "a frame that closes a stream, and a request",
        head: b"\0\0\0\0\0\0\0\x01\x03\x05",
        tail: REQUEST,
        header: MessageHeader {
            length: 0,
            stream_id: 1,
            type_: 3,
            flags: 5,
        },
        parts: Parts::Whole,
        reads: Reads::Whole,
        left: 30,
        ..CUT
    },
    Row {
        name: "a payload that means nothing",
        head: b"\0\0\0\x01\0\0\0\x02\x03\0\x0a",
        tail: b"\0",
        header: MessageHeader {
            length: 1,
            stream_id: 2,
            type_: 3,
            flags: 0,
        },
        payload: b"\x0a",
        parts: Parts::Whole,
        reads: Reads::Unreadable,
        left: 1,
        ..CUT
    },
    TOO_LONG,
    Row {
        name: "a message that is too long, cut behind its header",
        zeros: 0,
        tail: b"",
        reads: Reads::Broken,
        left: 0,
        ..TOO_LONG
    },
    Row {
        name: "a message that is too long, cut before its last byte",
        zeros: 4194304,
        tail: b"",
        reads: Reads::Broken,
        left: 0,
        ..TOO_LONG
    },
];
