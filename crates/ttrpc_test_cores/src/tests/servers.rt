//! The shared parts of the rows of servers: bytes, all written by hand, steps, and the rows that hold under either
//! rules.
use crate::server::{
    ASKED, ECHOED, EMPTY_ECHOED, FLAGGED, GREATEST, OVERSIZED, OVERSIZED_ANSWER, UNREADABLE,
};
use crate::tests::script::Step::{self, *};
use crate::tests::script::{Cuts, FRESH, Row};

// ---- frames

/// The answer after a handler's error.
pub const EOF_ANSWER: &[u8] = b"\0\0\0\x09\0\0\0\x01\x02\0\x0a\x07\x08\x02\x12\x03eof";
/// The answer to a frame of 4194305 bytes, which also replaces a response of that length.
pub const LONG_ANSWER: &[u8] = b"\
    \0\0\0\x43\0\0\0\x01\x02\0\
    \x0a\x41\x08\x03\x12\x3dmessage length 4194305 exceed maximum message size of 4194304";
/// The request with its stamp.
pub const STAMPED: &[u8] = b"\0\0\0\x15\0\0\0\x01\x01\0\x0a\x09demo.Echo\x12\x04Echo\x1a\x01\x2a\0";
/// The answer to `STAMPED`.
pub const STAMPED_ECHOED: &[u8] = b"\0\0\0\x06\0\0\0\x01\x02\0\x0a\0\x12\x01\x2a\0";
/// The request with a bad stamp, and with the right one.
pub const BAD_STAMP_FIRST: &[u8] = b"\
    \0\0\0\x15\0\0\0\x01\x01\0\x0a\x09demo.Echo\x12\x04Echo\x1a\x01\x2a\x07\
    \0\0\0\x15\0\0\0\x01\x01\0\x0a\x09demo.Echo\x12\x04Echo\x1a\x01\x2a\0";
/// The replacement of a response of 4194304 bytes.
const STAMPED_REPLACED: &[u8] = b"\
    \0\0\0\x61\0\0\0\x01\x02\0\
    \x0a\x5e\x08\x03\x12\x5aresponse payload 4194304 bytes exceeds safe limit 4194303 bytes (after transform overhead)\0";

// ---- the first job

/// The usual request of stream 1 is handed out.
pub const TAKES_FIRST: Step = Takes(1, 1, b"\x2a");

/// The job is answered with its own payload.
pub const ANSWERS_FIRST: Step = Answers(1, b"\x2a");

// ---- rows that hold under either rules

#[rattlefmt::skip]
pub const KNOWN_ROWS: &[Row] = &[
    Row { name: "known requests are run", steps: &[Serves(ASKED, ECHOED)], ..FRESH },
    Row { name: "flags of a request mean nothing", steps: &[Serves(FLAGGED, EMPTY_ECHOED)], ..FRESH },
];

// Only the beginning of the text is specified.
pub const UNREADABLE_ROWS: &[Row] = &[Row {
    name: "unreadable requests are answered",
    steps: &[
        Feed(UNREADABLE),
        TakesNone,
        WritesStatus(3, "Unpack request error "),
    ],
    ..FRESH
}];

pub const LONG_ROWS: &[Row] = &[Row {
    name: "oversized frames are answered, and the request behind them",
    steps: &[
        Feed(OVERSIZED),
        FeedSevens(4194305),
        Serves(ASKED, OVERSIZED_ANSWER),
    ],
    ..FRESH
}];

/// Each runs once, by its cut, since each of its bytes comes alone anyway.
pub const SINGLE_ROWS: &[Row] = &[Row {
    name: "an oversized frame may come byte by byte",
    cuts: Cuts::Inside(2),
    steps: &[
        Feed(OVERSIZED),
        FeedSingly(4194305),
        Serves(ASKED, OVERSIZED_ANSWER),
    ],
    ..FRESH
}];

/// With six bytes of status and field around it, a payload of 4194297 bytes is the greatest.
pub const GREATEST_IS_SENT: Row = Row {
    name: "answers of the greatest length are sent",
    steps: &[
        Feed(ASKED),
        TAKES_FIRST,
        AnswersSevens(1, 4194297),
        Lends(16, GREATEST, 0, 16),
    ],
    ..FRESH
};

/// Without its stamp, a response has at most 4194303 bytes.
pub const ABOVE_LIMIT_ROWS: &[Row] = &[Row {
    name: "an answer above the safe limit is replaced",
    steps: &[
        Feed(STAMPED),
        TAKES_FIRST,
        AnswersSevens(1, 4194297),
        Writes(STAMPED_REPLACED),
    ],
    ..FRESH
}];
