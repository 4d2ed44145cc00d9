//! Frames that were recorded between peers in Go (ttrpc 1.2.7) and of the Rust crate (0.10.0), and what the ends of
//! this project do with them. The frames of clients, and those that servers send to a client of this project, are the
//! recorded ones. A server of this project sends the same frames as the Rust crate's, in the order of their causes.
use crate::acts::Act;
use crate::lines::Line;

/// A name, the acts of a client, and the lines of the connection.
pub type Conversation = (&'static str, &'static [Act], &'static [Line<'static>]);

/// A name, and the lines of the connection.
pub type Said = (&'static str, &'static [Line<'static>]);

const ANSWERS_00000000000000000000000000000000: &[u8] = b"\
    \0\0\0\x12\0\0\0\x01\x02\0\x12\x10\0\0\0\0\0\0\0\0\0\0\0\0\0\0\0\0";

const ANSWERS_00000000000000020000000000000003: &[u8] = b"\
    \0\0\0\x12\0\0\0\x01\x02\0\x12\x10\0\0\0\0\0\0\0\x02\0\0\0\0\0\0\0\x03";

const ANSWERS_2A: &[u8] = b"\0\0\0\x03\0\0\0\x01\x02\0\x12\x01*";

const ANSWERS_NOTHING: &[u8] = b"\0\0\0\0\0\0\0\x01\x02\0";

const ANSWERS_OK: &[u8] = b"\0\0\0\x02\0\0\0\x01\x02\0\x0a\0";

const ANSWERS_OK_00000000000000000000000000000000: &[u8] = b"\
    \0\0\0\x14\0\0\0\x01\x02\0\x0a\0\x12\x10\0\0\0\0\0\0\0\0\0\0\0\0\0\0\0\0";

const ANSWERS_OK_00000000000000010000000000000000: &[u8] = b"\
    \0\0\0\x14\0\0\0\x01\x02\0\x0a\0\x12\x10\0\0\0\0\0\0\0\x01\0\0\0\0\0\0\0\0";

const ANSWERS_OK_00000000000000020000000000000003: &[u8] = b"\
    \0\0\0\x14\0\0\0\x01\x02\0\x0a\0\x12\x10\0\0\0\0\0\0\0\x02\0\0\0\0\0\0\0\x03";

const ANSWERS_OK_00000000000000030000000000000003: &[u8] = b"\
    \0\0\0\x14\0\0\0\x01\x02\0\x0a\0\x12\x10\0\0\0\0\0\0\0\x03\0\0\0\0\0\0\0\x03";

const ANSWERS_OK_2A: &[u8] = b"\0\0\0\x05\0\0\0\x01\x02\0\x0a\0\x12\x01*";

const ANSWERS_OK_FF: &[u8] = b"\0\0\0\x05\0\0\0\x01\x02\0\x0a\0\x12\x01\xff";

const ASKS_CHAT_01_LIMITED: &[u8] = b"\
    \0\0\0\x1a\0\0\0\x01\x01\0\x0a\x09demo.Echo\x12\x04Chat\x1a\x01\x01 \x80\xa8\xd6\xb9\x07";

const ASKS_CHAT_01_LIMITED_2: &[u8] = b"\
    \0\0\0\x1a\0\0\0\x01\x01\0\x0a\x09demo.Echo\x12\x04Chat\x1a\x01\x01 \xb2\xc5\xd5\xb9\x07";

const ASKS_COUNT_02_LIMITED: &[u8] = b"\
    \0\0\0\x1b\0\0\0\x01\x01\0\x0a\x09demo.Echo\x12\x05Count\x1a\x01\x02 \x80\xa8\xd6\xb9\x07";

const ASKS_COUNT_02_LIMITED_2: &[u8] = b"\
    \0\0\0\x1b\0\0\0\x01\x01\0\x0a\x09demo.Echo\x12\x05Count\x1a\x01\x02 \xf8\xc6\xd5\xb9\x07";

const ASKS_ECHO_2A: &[u8] = b"\0\0\0\x14\0\0\0\x01\x01\0\x0a\x09demo.Echo\x12\x04Echo\x1a\x01*";

const ASKS_ECHO_EMPTY: &[u8] = b"\0\0\0\x11\0\0\0\x01\x01\0\x0a\x09demo.Echo\x12\x04Echo";

const ASKS_FAIL_0567: &[u8] = b"\
    \0\0\0\x15\0\0\0\x01\x01\0\x0a\x09demo.Echo\x12\x04Fail\x1a\x02\x05g";

const CLOSES: &[u8] = b"\0\0\0\0\0\0\0\x01\x03\x05";

const FAILS_12_METHOD_NOPE: &[u8] = b"\
    \0\0\0\x11\0\0\0\x01\x02\0\x0a\x0f\x08\x0c\x12\x0bmethod Nope";

const FAILS_12_NOPE_METHOD: &[u8] = b"\
    \0\0\0\x11\0\0\0\x01\x02\0\x0a\x0f\x08\x0c\x12\x0bNope method";

const FAILS_2_PLAIN_ERROR: &[u8] = b"\0\0\0\x11\0\0\0\x01\x02\0\x0a\x0f\x08\x02\x12\x0bplain error";

const FAILS_2_TTRPC_ERR__PLAIN_ERROR: &[u8] = b"\
    \0\0\0\x1c\0\0\0\x01\x02\0\x0a\x1a\x08\x02\x12\x16ttrpc err: plain error";

const FAILS_3_STREAMID_IS_NO_LONGER_ACTIVE: &[u8] = b"\
    \0\0\0\"\0\0\0\x01\x02\0\x0a \x08\x03\x12\x1cStreamID is no longer active";

const FAILS_3_STREAM_IS_NO_LONGER_ACTIVE: &[u8] = b"\
    \0\0\0 \0\0\0\x01\x02\0\x0a\x1e\x08\x03\x12\x1aStream is no longer active";

const FAILS_5_G: &[u8] = b"\0\0\0\x07\0\0\0\x01\x02\0\x0a\x05\x08\x05\x12\x01g";

const FAILS_5_GONE: &[u8] = b"\0\0\0\x0a\0\0\0\x01\x02\0\x0a\x08\x08\x05\x12\x04gone";

const ITEM_00000000: &[u8] = b"\0\0\0\x04\0\0\0\x01\x03\0\0\0\0\0";

const ITEM_00000001: &[u8] = b"\0\0\0\x04\0\0\0\x01\x03\0\0\0\0\x01";

const ITEM_00000002: &[u8] = b"\0\0\0\x04\0\0\0\x01\x03\0\0\0\0\x02";

const ITEM_01: &[u8] = b"\0\0\0\x01\0\0\0\x01\x03\0\x01";

const ITEM_02: &[u8] = b"\0\0\0\x01\0\0\0\x01\x03\0\x02";

const ITEM_0203: &[u8] = b"\0\0\0\x02\0\0\0\x01\x03\0\x02\x03";

const ITEM_03: &[u8] = b"\0\0\0\x01\0\0\0\x01\x03\0\x03";

const ITEM_05676F6E65: &[u8] = b"\0\0\0\x05\0\0\0\x01\x03\0\x05gone";

const ITEM_EMPTY: &[u8] = b"\0\0\0\0\0\0\0\x01\x03\0";

const LAST_FF: &[u8] = b"\0\0\0\x01\0\0\0\x01\x03\x01\xff";

const OPENS_BARE_CHAT: &[u8] = b"\0\0\0\x11\0\0\0\x01\x01\x02\x0a\x09demo.Echo\x12\x04Chat";

const OPENS_BARE_CHAT_FAIL: &[u8] = b"\
    \0\0\0\x15\0\0\0\x01\x01\x02\x0a\x09demo.Echo\x12\x08ChatFail";

const OPENS_BARE_EARLY: &[u8] = b"\0\0\0\x12\0\0\0\x01\x01\x02\x0a\x09demo.Echo\x12\x05Early";

const OPENS_BARE_ECHO: &[u8] = b"\0\0\0\x11\0\0\0\x01\x01\x02\x0a\x09demo.Echo\x12\x04Echo";

const OPENS_BARE_LAST: &[u8] = b"\0\0\0\x11\0\0\0\x01\x01\x02\x0a\x09demo.Echo\x12\x04Last";

const OPENS_BARE_NOPE: &[u8] = b"\0\0\0\x11\0\0\0\x01\x01\x02\x0a\x09demo.Echo\x12\x04Nope";

const OPENS_BARE_SUM: &[u8] = b"\0\0\0\x10\0\0\0\x01\x01\x02\x0a\x09demo.Echo\x12\x03Sum";

const OPENS_BARE_SUM_FAIL: &[u8] = b"\0\0\0\x14\0\0\0\x01\x01\x02\x0a\x09demo.Echo\x12\x07SumFail";

const OPENS_CHAT: &[u8] = b"\0\0\0\x11\0\0\0\x01\x01\x06\x0a\x09demo.Echo\x12\x04Chat";

const OPENS_CHAT_FAIL: &[u8] = b"\0\0\0\x15\0\0\0\x01\x01\x06\x0a\x09demo.Echo\x12\x08ChatFail";

const OPENS_EARLY: &[u8] = b"\0\0\0\x12\0\0\0\x01\x01\x06\x0a\x09demo.Echo\x12\x05Early";

const OPENS_ECHO: &[u8] = b"\0\0\0\x11\0\0\0\x01\x01\x06\x0a\x09demo.Echo\x12\x04Echo";

const OPENS_LAST: &[u8] = b"\0\0\0\x11\0\0\0\x01\x01\x06\x0a\x09demo.Echo\x12\x04Last";

const OPENS_NOPE: &[u8] = b"\0\0\0\x11\0\0\0\x01\x01\x06\x0a\x09demo.Echo\x12\x04Nope";

const OPENS_SUM: &[u8] = b"\0\0\0\x10\0\0\0\x01\x01\x06\x0a\x09demo.Echo\x12\x03Sum";

const OPENS_SUM_FAIL: &[u8] = b"\0\0\0\x14\0\0\0\x01\x01\x06\x0a\x09demo.Echo\x12\x07SumFail";

const OPENS_WITH_COUNT: &[u8] = b"\0\0\0\x12\0\0\0\x01\x01\x01\x0a\x09demo.Echo\x12\x05Count";

const OPENS_WITH_COUNT_03: &[u8] = b"\
    \0\0\0\x15\0\0\0\x01\x01\x01\x0a\x09demo.Echo\x12\x05Count\x1a\x01\x03";

const OPENS_WITH_NOPE_03: &[u8] = b"\
    \0\0\0\x14\0\0\0\x01\x01\x01\x0a\x09demo.Echo\x12\x04Nope\x1a\x01\x03";

const GO_UNARY_ACTS: &[Act] = &[Act::Calls("Echo", b"*", 0), Act::Ends(0, Ok(b"*"))];

const GO_UNARY_LINES: &[Line<'static>] = &[
    Line::Up(ASKS_ECHO_2A),
    Line::Down(ANSWERS_2A),
    Line::UpEnds,
    Line::DownEnds,
];

const GO_UNARY_ERROR_ACTS: &[Act] = &[
    Act::Calls("Fail", b"\x05g", 0),
    Act::Ends(0, Err("rpc status: 5 g")),
];

const GO_UNARY_ERROR_LINES: &[Line<'static>] = &[
    Line::Up(ASKS_FAIL_0567),
    Line::Down(FAILS_5_G),
    Line::UpEnds,
    Line::DownEnds,
];

const GO_UNARY_EMPTY_ACTS: &[Act] = &[Act::Calls("Echo", b"", 0), Act::Ends(0, Ok(b""))];

const GO_UNARY_EMPTY_LINES: &[Line<'static>] = &[
    Line::Up(ASKS_ECHO_EMPTY),
    Line::Down(ANSWERS_NOTHING),
    Line::UpEnds,
    Line::DownEnds,
];

const GO_BOTH_WAYS_ITEMS_IN_TURN_ONE_EMPTY_ACTS: &[Act] = &[
    Act::Opens("Chat", b"", true, true),
    Act::Sends(0, b"\x01", None),
    Act::Receives(0, Ok(b"\x01")),
    Act::Sends(0, b"", None),
    Act::Receives(0, Ok(b"")),
    Act::Sends(0, b"\x02", None),
    Act::Receives(0, Ok(b"\x02")),
    Act::Closes(0, None),
    Act::Receives(0, Err("eof")),
    Act::Receives(0, Err("ttrpc err: remote stream closed")),
];

const GO_BOTH_WAYS_ITEMS_IN_TURN_ONE_EMPTY_LINES: &[Line<'static>] = &[
    Line::Up(OPENS_CHAT),
    Line::Up(ITEM_01),
    Line::Down(ITEM_01),
    Line::Up(ITEM_EMPTY),
    Line::Down(ITEM_EMPTY),
    Line::Up(ITEM_02),
    Line::Down(ITEM_02),
    Line::Up(CLOSES),
    Line::Down(CLOSES),
    Line::UpEnds,
    Line::DownEnds,
];

const GO_BOTH_WAYS_ALL_SENT_FIRST_ACTS: &[Act] = &[
    Act::Opens("Chat", b"", true, true),
    Act::Sends(0, b"\x01", None),
    Act::Sends(0, b"\x02", None),
    Act::Sends(0, b"\x03", None),
    Act::Closes(0, None),
    Act::Receives(0, Ok(b"\x01")),
    Act::Receives(0, Ok(b"\x02")),
    Act::Receives(0, Ok(b"\x03")),
    Act::Receives(0, Err("eof")),
    Act::Receives(0, Err("ttrpc err: remote stream closed")),
];

const GO_BOTH_WAYS_ALL_SENT_FIRST_LINES: &[Line<'static>] = &[
    Line::Up(OPENS_CHAT),
    Line::Up(ITEM_01),
    Line::Up(ITEM_02),
    Line::Up(ITEM_03),
    Line::Up(CLOSES),
    Line::Down(ITEM_01),
    Line::Down(ITEM_02),
    Line::Down(ITEM_03),
    Line::Down(CLOSES),
    Line::UpEnds,
    Line::DownEnds,
];

const GO_BOTH_WAYS_ENDED_BY_A_LAST_MESSAGE_ACTS: &[Act] = &[
    Act::Opens("Last", b"", true, true),
    Act::Sends(0, b"\x01", None),
    Act::Closes(0, None),
    Act::Receives(0, Ok(b"\x01")),
    Act::Receives(0, Ok(b"\xff")),
    Act::Receives(0, Err("ttrpc err: remote stream closed")),
];

const GO_BOTH_WAYS_ENDED_BY_A_LAST_MESSAGE_LINES: &[Line<'static>] = &[
    Line::Up(OPENS_LAST),
    Line::Up(ITEM_01),
    Line::Up(CLOSES),
    Line::Down(ITEM_01),
    Line::Down(LAST_FF),
    Line::UpEnds,
    Line::DownEnds,
];

const GO_BOTH_WAYS_NO_ITEM_ACTS: &[Act] = &[
    Act::Opens("Chat", b"", true, true),
    Act::Closes(0, None),
    Act::Receives(0, Err("eof")),
    Act::Receives(0, Err("ttrpc err: remote stream closed")),
];

const GO_BOTH_WAYS_NO_ITEM_LINES: &[Line<'static>] = &[
    Line::Up(OPENS_CHAT),
    Line::Up(CLOSES),
    Line::Down(CLOSES),
    Line::UpEnds,
    Line::DownEnds,
];

const GO_CLIENT_S_STREAM_ACTS: &[Act] = &[
    Act::Opens("Sum", b"", true, false),
    Act::Sends(0, b"\x01", None),
    Act::Sends(0, b"\x02\x03", None),
    Act::Closes(0, None),
    Act::Receives(0, Ok(b"\0\0\0\0\0\0\0\x02\0\0\0\0\0\0\0\x03")),
    Act::Receives(0, Err("ttrpc err: remote stream closed")),
];

const GO_CLIENT_S_STREAM_LINES: &[Line<'static>] = &[
    Line::Up(OPENS_SUM),
    Line::Up(ITEM_01),
    Line::Up(ITEM_0203),
    Line::Up(CLOSES),
    Line::Down(ANSWERS_00000000000000020000000000000003),
    Line::UpEnds,
    Line::DownEnds,
];

const GO_CLIENT_S_STREAM_NO_ITEM_ACTS: &[Act] = &[
    Act::Opens("Sum", b"", true, false),
    Act::Closes(0, None),
    Act::Receives(0, Ok(b"\0\0\0\0\0\0\0\0\0\0\0\0\0\0\0\0")),
    Act::Receives(0, Err("ttrpc err: remote stream closed")),
];

const GO_CLIENT_S_STREAM_NO_ITEM_LINES: &[Line<'static>] = &[
    Line::Up(OPENS_SUM),
    Line::Up(CLOSES),
    Line::Down(ANSWERS_00000000000000000000000000000000),
    Line::UpEnds,
    Line::DownEnds,
];

const GO_SERVER_S_STREAM_ACTS: &[Act] = &[
    Act::Opens("Count", b"\x03", false, true),
    Act::Receives(0, Ok(b"\0\0\0\0")),
    Act::Receives(0, Ok(b"\0\0\0\x01")),
    Act::Receives(0, Ok(b"\0\0\0\x02")),
    Act::Receives(0, Err("eof")),
    Act::Receives(0, Err("ttrpc err: remote stream closed")),
];

const GO_SERVER_S_STREAM_LINES: &[Line<'static>] = &[
    Line::Up(OPENS_WITH_COUNT_03),
    Line::Down(ITEM_00000000),
    Line::Down(ITEM_00000001),
    Line::Down(ITEM_00000002),
    Line::Down(CLOSES),
    Line::UpEnds,
    Line::DownEnds,
];

const GO_SERVER_S_STREAM_EMPTY_REQUEST_ACTS: &[Act] = &[
    Act::Opens("Count", b"", false, true),
    Act::Receives(0, Err("eof")),
    Act::Receives(0, Err("ttrpc err: remote stream closed")),
];

const GO_SERVER_S_STREAM_EMPTY_REQUEST_LINES: &[Line<'static>] = &[
    Line::Up(OPENS_WITH_COUNT),
    Line::Down(CLOSES),
    Line::UpEnds,
    Line::DownEnds,
];

const GO_BOTH_WAYS_STATUS_ERROR_ACTS: &[Act] = &[
    Act::Opens("ChatFail", b"", true, true),
    Act::Sends(0, b"\x05gone", None),
    Act::Receives(0, Err("rpc status: 5 gone")),
    Act::Receives(0, Err("ttrpc err: remote stream closed")),
];

const GO_BOTH_WAYS_STATUS_ERROR_LINES: &[Line<'static>] = &[
    Line::Up(OPENS_CHAT_FAIL),
    Line::Up(ITEM_05676F6E65),
    Line::Down(FAILS_5_GONE),
    Line::UpEnds,
    Line::DownEnds,
];

const GO_BOTH_WAYS_PLAIN_ERROR_ACTS: &[Act] = &[
    Act::Opens("ChatFail", b"", true, true),
    Act::Sends(0, b"", None),
    Act::Receives(0, Err("rpc status: 2 plain error")),
    Act::Receives(0, Err("ttrpc err: remote stream closed")),
];

const GO_BOTH_WAYS_PLAIN_ERROR_LINES: &[Line<'static>] = &[
    Line::Up(OPENS_CHAT_FAIL),
    Line::Up(ITEM_EMPTY),
    Line::Down(FAILS_2_PLAIN_ERROR),
    Line::UpEnds,
    Line::DownEnds,
];

const GO_CLIENT_S_STREAM_STATUS_ERROR_ACTS: &[Act] = &[
    Act::Opens("SumFail", b"", true, false),
    Act::Sends(0, b"\x05gone", None),
    Act::Closes(0, None),
    Act::Receives(0, Err("rpc status: 5 gone")),
    Act::Receives(0, Err("ttrpc err: remote stream closed")),
];

const GO_CLIENT_S_STREAM_STATUS_ERROR_LINES: &[Line<'static>] = &[
    Line::Up(OPENS_SUM_FAIL),
    Line::Up(ITEM_05676F6E65),
    Line::Up(CLOSES),
    Line::Down(FAILS_5_GONE),
    Line::UpEnds,
    Line::DownEnds,
];

const GO_BOTH_WAYS_SERVER_ENDS_EARLY_ACTS: &[Act] = &[
    Act::Opens("Early", b"", true, true),
    Act::Sends(0, b"\x01", None),
    Act::Receives(0, Err("eof")),
    Act::Receives(0, Err("ttrpc err: remote stream closed")),
];

const GO_BOTH_WAYS_SERVER_ENDS_EARLY_LINES: &[Line<'static>] = &[
    Line::Up(OPENS_EARLY),
    Line::Up(ITEM_01),
    Line::Down(CLOSES),
    Line::UpEnds,
    Line::DownEnds,
];

const GO_SERVER_S_STREAM_UNKNOWN_METHOD_ACTS: &[Act] = &[
    Act::Opens("Nope", b"\x03", false, true),
    Act::Receives(0, Err("rpc status: 12 method Nope")),
    Act::Receives(0, Err("ttrpc err: remote stream closed")),
];

const GO_SERVER_S_STREAM_UNKNOWN_METHOD_LINES: &[Line<'static>] = &[
    Line::Up(OPENS_WITH_NOPE_03),
    Line::Down(FAILS_12_METHOD_NOPE),
    Line::UpEnds,
    Line::DownEnds,
];

const GO_BOTH_WAYS_UNKNOWN_METHOD_ACTS: &[Act] = &[
    Act::Opens("Nope", b"", true, true),
    Act::Sends(0, b"\x01", None),
    Act::Receives(0, Err("rpc status: 12 method Nope")),
    Act::Receives(0, Err("ttrpc err: remote stream closed")),
    Act::Yields(500),
];

const GO_BOTH_WAYS_UNKNOWN_METHOD_LINES: &[Line<'static>] = &[
    Line::Up(OPENS_NOPE),
    Line::Up(ITEM_01),
    Line::Down(FAILS_12_METHOD_NOPE),
    Line::Down(FAILS_3_STREAMID_IS_NO_LONGER_ACTIVE),
    Line::UpEnds,
    Line::DownEnds,
];

const GO_UNARY_METHOD_AS_A_STREAM_ACTS: &[Act] = &[
    Act::Opens("Echo", b"", true, true),
    Act::Sends(0, b"\x01", None),
    Act::Receives(0, Err("socket err: socket disconnected")),
    Act::Receives(0, Err("ttrpc err: Receive packet from Receiver error")),
];

const GO_UNARY_METHOD_AS_A_STREAM_LINES: &[Line<'static>] = &[
    Line::Up(OPENS_ECHO),
    Line::Up(ITEM_01),
    Line::DownEnds,
    Line::UpEnds,
];

const GO_STREAM_METHOD_AS_A_UNARY_CALL_ACTS: &[Act] = &[
    Act::Calls("Chat", b"\x01", 2000000000),
    Act::Ends(
        0,
        Err("ttrpc err: Receiver got malformed packet: type 3, flags 0, stream 1"),
    ),
];

const GO_STREAM_METHOD_AS_A_UNARY_CALL_LINES: &[Line<'static>] = &[
    Line::Up(ASKS_CHAT_01_LIMITED),
    Line::Down(ITEM_01),
    Line::UpEnds,
    Line::DownEnds,
];

const GO_SERVER_S_STREAM_AS_A_UNARY_CALL_ACTS: &[Act] = &[
    Act::Calls("Count", b"\x02", 2000000000),
    Act::Ends(
        0,
        Err("ttrpc err: Receiver got malformed packet: type 3, flags 0, stream 1"),
    ),
    Act::Yields(500),
];

const GO_SERVER_S_STREAM_AS_A_UNARY_CALL_LINES: &[Line<'static>] = &[
    Line::Up(ASKS_COUNT_02_LIMITED),
    Line::Down(ITEM_00000000),
    Line::Down(ITEM_00000001),
    Line::Down(CLOSES),
    Line::UpEnds,
    Line::DownEnds,
];

const GO_CLIENT_DROPS_WITHOUT_A_CLOSE_ACTS: &[Act] = &[
    Act::Opens("Chat", b"", true, true),
    Act::Sends(0, b"\x01", None),
    Act::Receives(0, Ok(b"\x01")),
];

const GO_CLIENT_DROPS_WITHOUT_A_CLOSE_LINES: &[Line<'static>] = &[
    Line::Up(OPENS_CHAT),
    Line::Up(ITEM_01),
    Line::Down(ITEM_01),
    Line::UpEnds,
    Line::DownEnds,
];

const RUST_UNARY_LINES: &[Line<'static>] = &[
    Line::Up(ASKS_ECHO_2A),
    Line::Down(ANSWERS_OK_2A),
    Line::UpEnds,
    Line::DownEnds,
];

const RUST_UNARY_EMPTY_LINES: &[Line<'static>] = &[
    Line::Up(ASKS_ECHO_EMPTY),
    Line::Down(ANSWERS_OK),
    Line::UpEnds,
    Line::DownEnds,
];

const RUST_BOTH_WAYS_ENDED_BY_A_LAST_MESSAGE_LINES: &[Line<'static>] = &[
    Line::Up(OPENS_LAST),
    Line::Up(ITEM_01),
    Line::Up(CLOSES),
    Line::Down(ITEM_01),
    Line::Down(ANSWERS_OK_FF),
    Line::UpEnds,
    Line::DownEnds,
];

const RUST_CLIENT_S_STREAM_LINES: &[Line<'static>] = &[
    Line::Up(OPENS_SUM),
    Line::Up(ITEM_01),
    Line::Up(ITEM_0203),
    Line::Up(CLOSES),
    Line::Down(ANSWERS_OK_00000000000000020000000000000003),
    Line::UpEnds,
    Line::DownEnds,
];

const RUST_CLIENT_S_STREAM_NO_ITEM_LINES: &[Line<'static>] = &[
    Line::Up(OPENS_SUM),
    Line::Up(CLOSES),
    Line::Down(ANSWERS_OK_00000000000000000000000000000000),
    Line::UpEnds,
    Line::DownEnds,
];

const RUST_BOTH_WAYS_PLAIN_ERROR_ACTS: &[Act] = &[
    Act::Opens("ChatFail", b"", true, true),
    Act::Sends(0, b"", None),
    Act::Receives(0, Err("rpc status: 2 ttrpc err: plain error")),
    Act::Receives(0, Err("ttrpc err: remote stream closed")),
];

const RUST_BOTH_WAYS_PLAIN_ERROR_LINES: &[Line<'static>] = &[
    Line::Up(OPENS_CHAT_FAIL),
    Line::Up(ITEM_EMPTY),
    Line::Down(FAILS_2_TTRPC_ERR__PLAIN_ERROR),
    Line::UpEnds,
    Line::DownEnds,
];

const RUST_CLIENT_S_STREAM_STATUS_ERROR_ACTS: &[Act] = &[
    Act::Opens("SumFail", b"", true, false),
    Act::Sends(0, b"\x05gone", None),
    Act::Closes(0, None),
    Act::Receives(0, Err("rpc status: 5 gone")),
    Act::Receives(0, Err("ttrpc err: remote stream closed")),
    Act::Yields(500),
];

const RUST_CLIENT_S_STREAM_STATUS_ERROR_LINES: &[Line<'static>] = &[
    Line::Up(OPENS_SUM_FAIL),
    Line::Up(ITEM_05676F6E65),
    Line::Up(CLOSES),
    Line::Down(FAILS_5_GONE),
    Line::Down(FAILS_3_STREAM_IS_NO_LONGER_ACTIVE),
    Line::UpEnds,
    Line::DownEnds,
];

const RUST_BOTH_WAYS_SERVER_ENDS_EARLY_ACTS: &[Act] = &[
    Act::Opens("Early", b"", true, true),
    Act::Sends(0, b"\x01", None),
    Act::Receives(0, Err("eof")),
    Act::Receives(0, Err("ttrpc err: remote stream closed")),
    Act::Yields(500),
];

const RUST_BOTH_WAYS_SERVER_ENDS_EARLY_LINES: &[Line<'static>] = &[
    Line::Up(OPENS_EARLY),
    Line::Up(ITEM_01),
    Line::Down(CLOSES),
    Line::Down(FAILS_3_STREAM_IS_NO_LONGER_ACTIVE),
    Line::UpEnds,
    Line::DownEnds,
];

const RUST_SERVER_S_STREAM_UNKNOWN_METHOD_ACTS: &[Act] = &[
    Act::Opens("Nope", b"\x03", false, true),
    Act::Receives(0, Err("rpc status: 12 Nope method")),
    Act::Receives(0, Err("ttrpc err: remote stream closed")),
];

const RUST_SERVER_S_STREAM_UNKNOWN_METHOD_LINES: &[Line<'static>] = &[
    Line::Up(OPENS_WITH_NOPE_03),
    Line::Down(FAILS_12_NOPE_METHOD),
    Line::UpEnds,
    Line::DownEnds,
];

const RUST_BOTH_WAYS_UNKNOWN_METHOD_ACTS: &[Act] = &[
    Act::Opens("Nope", b"", true, true),
    Act::Sends(0, b"\x01", None),
    Act::Receives(0, Err("rpc status: 12 Nope method")),
    Act::Receives(0, Err("ttrpc err: remote stream closed")),
    Act::Yields(500),
];

const RUST_BOTH_WAYS_UNKNOWN_METHOD_LINES: &[Line<'static>] = &[
    Line::Up(OPENS_NOPE),
    Line::Up(ITEM_01),
    Line::Down(FAILS_12_NOPE_METHOD),
    Line::Down(FAILS_3_STREAM_IS_NO_LONGER_ACTIVE),
    Line::UpEnds,
    Line::DownEnds,
];

const RUST_UNARY_METHOD_AS_A_STREAM_ACTS: &[Act] = &[
    Act::Opens("Echo", b"", true, true),
    Act::Sends(0, b"\x01", None),
    Act::Receives(0, Ok(b"")),
    Act::Closes(0, None),
    Act::Receives(0, Err("ttrpc err: remote stream closed")),
    Act::Yields(500),
];

const RUST_UNARY_METHOD_AS_A_STREAM_LINES: &[Line<'static>] = &[
    Line::Up(OPENS_ECHO),
    Line::Up(ITEM_01),
    Line::Down(ANSWERS_OK),
    Line::Down(FAILS_3_STREAM_IS_NO_LONGER_ACTIVE),
    Line::Up(CLOSES),
    Line::Down(FAILS_3_STREAM_IS_NO_LONGER_ACTIVE),
    Line::UpEnds,
    Line::DownEnds,
];

const TO_RUST_CLIENT_S_STREAM_STATUS_ERROR_LINES: &[Line<'static>] = &[
    Line::Up(OPENS_SUM_FAIL),
    Line::Up(ITEM_05676F6E65),
    Line::Down(FAILS_5_GONE),
    Line::Up(CLOSES),
    Line::Down(FAILS_3_STREAM_IS_NO_LONGER_ACTIVE),
    Line::UpEnds,
    Line::DownEnds,
];

const TO_RUST_BOTH_WAYS_SERVER_ENDS_EARLY_LINES: &[Line<'static>] = &[
    Line::Up(OPENS_EARLY),
    Line::Down(CLOSES),
    Line::Up(ITEM_01),
    Line::Down(FAILS_3_STREAM_IS_NO_LONGER_ACTIVE),
    Line::UpEnds,
    Line::DownEnds,
];

const TO_RUST_BOTH_WAYS_UNKNOWN_METHOD_LINES: &[Line<'static>] = &[
    Line::Up(OPENS_NOPE),
    Line::Down(FAILS_12_NOPE_METHOD),
    Line::Up(ITEM_01),
    Line::Down(FAILS_3_STREAM_IS_NO_LONGER_ACTIVE),
    Line::UpEnds,
    Line::DownEnds,
];

const TO_RUST_UNARY_METHOD_AS_A_STREAM_LINES: &[Line<'static>] = &[
    Line::Up(OPENS_ECHO),
    Line::Down(ANSWERS_OK),
    Line::Up(ITEM_01),
    Line::Down(FAILS_3_STREAM_IS_NO_LONGER_ACTIVE),
    Line::Up(CLOSES),
    Line::Down(FAILS_3_STREAM_IS_NO_LONGER_ACTIVE),
    Line::UpEnds,
    Line::DownEnds,
];

const TO_GO_BOTH_WAYS_ITEMS_IN_TURN_ONE_EMPTY_LINES: &[Line<'static>] = &[
    Line::Up(OPENS_BARE_CHAT),
    Line::Up(ITEM_01),
    Line::Down(ITEM_EMPTY),
    Line::Down(ITEM_01),
    Line::Up(ITEM_EMPTY),
    Line::Up(ITEM_02),
    Line::Down(ITEM_EMPTY),
    Line::Down(ITEM_02),
    Line::Up(CLOSES),
    Line::Down(CLOSES),
    Line::UpEnds,
    Line::DownEnds,
];

const TO_GO_BOTH_WAYS_ALL_SENT_FIRST_LINES: &[Line<'static>] = &[
    Line::Up(OPENS_BARE_CHAT),
    Line::Up(ITEM_01),
    Line::Up(ITEM_02),
    Line::Up(ITEM_03),
    Line::Up(CLOSES),
    Line::Down(ITEM_EMPTY),
    Line::Down(ITEM_01),
    Line::Down(ITEM_02),
    Line::Down(ITEM_03),
    Line::Down(CLOSES),
    Line::UpEnds,
    Line::DownEnds,
];

const TO_GO_BOTH_WAYS_ENDED_BY_A_LAST_MESSAGE_LINES: &[Line<'static>] = &[
    Line::Up(OPENS_BARE_LAST),
    Line::Up(ITEM_01),
    Line::Up(CLOSES),
    Line::Down(ITEM_EMPTY),
    Line::Down(ITEM_01),
    Line::Down(ANSWERS_OK_FF),
    Line::UpEnds,
    Line::DownEnds,
];

const TO_GO_BOTH_WAYS_NO_ITEM_LINES: &[Line<'static>] = &[
    Line::Up(OPENS_BARE_CHAT),
    Line::Up(CLOSES),
    Line::Down(ITEM_EMPTY),
    Line::Down(CLOSES),
    Line::UpEnds,
    Line::DownEnds,
];

const TO_GO_CLIENT_S_STREAM_LINES: &[Line<'static>] = &[
    Line::Up(OPENS_BARE_SUM),
    Line::Up(ITEM_01),
    Line::Up(ITEM_0203),
    Line::Up(CLOSES),
    Line::Down(ANSWERS_OK_00000000000000030000000000000003),
    Line::UpEnds,
    Line::DownEnds,
];

const TO_GO_CLIENT_S_STREAM_NO_ITEM_LINES: &[Line<'static>] = &[
    Line::Up(OPENS_BARE_SUM),
    Line::Up(CLOSES),
    Line::Down(ANSWERS_OK_00000000000000010000000000000000),
    Line::UpEnds,
    Line::DownEnds,
];

const TO_GO_BOTH_WAYS_STATUS_ERROR_LINES: &[Line<'static>] = &[
    Line::Up(OPENS_BARE_CHAT_FAIL),
    Line::Down(FAILS_2_TTRPC_ERR__PLAIN_ERROR),
    Line::Up(ITEM_05676F6E65),
    Line::Down(FAILS_3_STREAM_IS_NO_LONGER_ACTIVE),
    Line::UpEnds,
    Line::DownEnds,
];

const TO_GO_BOTH_WAYS_PLAIN_ERROR_LINES: &[Line<'static>] = &[
    Line::Up(OPENS_BARE_CHAT_FAIL),
    Line::Down(FAILS_2_TTRPC_ERR__PLAIN_ERROR),
    Line::Up(ITEM_EMPTY),
    Line::Down(FAILS_3_STREAM_IS_NO_LONGER_ACTIVE),
    Line::UpEnds,
    Line::DownEnds,
];

const TO_GO_CLIENT_S_STREAM_STATUS_ERROR_LINES: &[Line<'static>] = &[
    Line::Up(OPENS_BARE_SUM_FAIL),
    Line::Down(FAILS_2_TTRPC_ERR__PLAIN_ERROR),
    Line::Up(ITEM_05676F6E65),
    Line::Down(FAILS_3_STREAM_IS_NO_LONGER_ACTIVE),
    Line::Up(CLOSES),
    Line::Down(FAILS_3_STREAM_IS_NO_LONGER_ACTIVE),
    Line::UpEnds,
    Line::DownEnds,
];

const TO_GO_BOTH_WAYS_SERVER_ENDS_EARLY_LINES: &[Line<'static>] = &[
    Line::Up(OPENS_BARE_EARLY),
    Line::Down(CLOSES),
    Line::Up(ITEM_01),
    Line::Down(FAILS_3_STREAM_IS_NO_LONGER_ACTIVE),
    Line::UpEnds,
    Line::DownEnds,
];

const TO_GO_BOTH_WAYS_UNKNOWN_METHOD_LINES: &[Line<'static>] = &[
    Line::Up(OPENS_BARE_NOPE),
    Line::Down(FAILS_12_NOPE_METHOD),
    Line::Up(ITEM_01),
    Line::Down(FAILS_3_STREAM_IS_NO_LONGER_ACTIVE),
    Line::UpEnds,
    Line::DownEnds,
];

const TO_GO_UNARY_METHOD_AS_A_STREAM_LINES: &[Line<'static>] = &[
    Line::Up(OPENS_BARE_ECHO),
    Line::Down(ANSWERS_OK),
    Line::Up(ITEM_01),
    Line::Down(FAILS_3_STREAM_IS_NO_LONGER_ACTIVE),
    Line::Up(CLOSES),
    Line::Down(FAILS_3_STREAM_IS_NO_LONGER_ACTIVE),
    Line::UpEnds,
    Line::DownEnds,
];

const TO_GO_STREAM_METHOD_AS_A_UNARY_CALL_LINES: &[Line<'static>] = &[
    Line::Up(ASKS_CHAT_01_LIMITED_2),
    Line::Down(ITEM_01),
    Line::UpEnds,
    Line::DownEnds,
];

const TO_GO_SERVER_S_STREAM_AS_A_UNARY_CALL_LINES: &[Line<'static>] = &[
    Line::Up(ASKS_COUNT_02_LIMITED_2),
    Line::Down(ITEM_00000000),
    Line::Down(ITEM_00000001),
    Line::Down(CLOSES),
    Line::UpEnds,
    Line::DownEnds,
];

const TO_GO_CLIENT_DROPS_WITHOUT_A_CLOSE_LINES: &[Line<'static>] = &[
    Line::Up(OPENS_BARE_CHAT),
    Line::Up(ITEM_01),
    Line::Down(ITEM_EMPTY),
    Line::Down(ITEM_01),
    Line::UpEnds,
    Line::DownEnds,
];

const TO_GO_BARE_BOTH_WAYS_ITEMS_IN_TURN_ONE_EMPTY_LINES: &[Line<'static>] = &[
    Line::Up(OPENS_BARE_CHAT),
    Line::Up(ITEM_01),
    Line::Down(ITEM_01),
    Line::Up(ITEM_EMPTY),
    Line::Down(ITEM_EMPTY),
    Line::Up(ITEM_02),
    Line::Down(ITEM_02),
    Line::Up(CLOSES),
    Line::Down(CLOSES),
    Line::UpEnds,
    Line::DownEnds,
];

const TO_GO_BARE_BOTH_WAYS_ALL_SENT_FIRST_LINES: &[Line<'static>] = &[
    Line::Up(OPENS_BARE_CHAT),
    Line::Up(ITEM_01),
    Line::Up(ITEM_02),
    Line::Up(ITEM_03),
    Line::Up(CLOSES),
    Line::Down(ITEM_01),
    Line::Down(ITEM_02),
    Line::Down(ITEM_03),
    Line::Down(CLOSES),
    Line::UpEnds,
    Line::DownEnds,
];

const TO_GO_BARE_BOTH_WAYS_ENDED_BY_A_LAST_MESSAGE_LINES: &[Line<'static>] = &[
    Line::Up(OPENS_BARE_LAST),
    Line::Up(ITEM_01),
    Line::Up(CLOSES),
    Line::Down(ITEM_01),
    Line::Down(ANSWERS_OK_FF),
    Line::UpEnds,
    Line::DownEnds,
];

const TO_GO_BARE_BOTH_WAYS_NO_ITEM_LINES: &[Line<'static>] = &[
    Line::Up(OPENS_BARE_CHAT),
    Line::Up(CLOSES),
    Line::Down(CLOSES),
    Line::UpEnds,
    Line::DownEnds,
];

const TO_GO_BARE_CLIENT_S_STREAM_LINES: &[Line<'static>] = &[
    Line::Up(OPENS_BARE_SUM),
    Line::Up(ITEM_01),
    Line::Up(ITEM_0203),
    Line::Up(CLOSES),
    Line::Down(ANSWERS_OK_00000000000000020000000000000003),
    Line::UpEnds,
    Line::DownEnds,
];

const TO_GO_BARE_CLIENT_S_STREAM_NO_ITEM_LINES: &[Line<'static>] = &[
    Line::Up(OPENS_BARE_SUM),
    Line::Up(CLOSES),
    Line::Down(ANSWERS_OK_00000000000000000000000000000000),
    Line::UpEnds,
    Line::DownEnds,
];

const TO_GO_BARE_BOTH_WAYS_STATUS_ERROR_LINES: &[Line<'static>] = &[
    Line::Up(OPENS_BARE_CHAT_FAIL),
    Line::Up(ITEM_05676F6E65),
    Line::Down(FAILS_5_GONE),
    Line::UpEnds,
    Line::DownEnds,
];

const TO_GO_BARE_BOTH_WAYS_PLAIN_ERROR_LINES: &[Line<'static>] = &[
    Line::Up(OPENS_BARE_CHAT_FAIL),
    Line::Up(ITEM_EMPTY),
    Line::Down(FAILS_2_TTRPC_ERR__PLAIN_ERROR),
    Line::UpEnds,
    Line::DownEnds,
];

const TO_GO_BARE_CLIENT_S_STREAM_STATUS_ERROR_LINES: &[Line<'static>] = &[
    Line::Up(OPENS_BARE_SUM_FAIL),
    Line::Up(ITEM_05676F6E65),
    Line::Down(FAILS_5_GONE),
    Line::Up(CLOSES),
    Line::Down(FAILS_3_STREAM_IS_NO_LONGER_ACTIVE),
    Line::UpEnds,
    Line::DownEnds,
];

const TO_GO_BARE_CLIENT_DROPS_WITHOUT_A_CLOSE_LINES: &[Line<'static>] = &[
    Line::Up(OPENS_BARE_CHAT),
    Line::Up(ITEM_01),
    Line::Down(ITEM_01),
    Line::UpEnds,
    Line::DownEnds,
];

/// Returns the conversation with this number, from 0, of a client of this project and a server written in Go.
pub fn client_beside_go(number: usize) -> Option<Conversation> {
    Some(match number {
        0 => ("unary", GO_UNARY_ACTS, GO_UNARY_LINES),
        1 => ("unary error", GO_UNARY_ERROR_ACTS, GO_UNARY_ERROR_LINES),
        2 => ("unary, empty", GO_UNARY_EMPTY_ACTS, GO_UNARY_EMPTY_LINES),
        3 => (
            "both ways, items in turn, one empty",
            GO_BOTH_WAYS_ITEMS_IN_TURN_ONE_EMPTY_ACTS,
            GO_BOTH_WAYS_ITEMS_IN_TURN_ONE_EMPTY_LINES,
        ),
        4 => (
            "both ways, all sent first",
            GO_BOTH_WAYS_ALL_SENT_FIRST_ACTS,
            GO_BOTH_WAYS_ALL_SENT_FIRST_LINES,
        ),
        5 => (
            "both ways, ended by a last message",
            GO_BOTH_WAYS_ENDED_BY_A_LAST_MESSAGE_ACTS,
            GO_BOTH_WAYS_ENDED_BY_A_LAST_MESSAGE_LINES,
        ),
        6 => (
            "both ways, no item",
            GO_BOTH_WAYS_NO_ITEM_ACTS,
            GO_BOTH_WAYS_NO_ITEM_LINES,
        ),
        7 => (
            "client's stream",
            GO_CLIENT_S_STREAM_ACTS,
            GO_CLIENT_S_STREAM_LINES,
        ),
        8 => (
            "client's stream, no item",
            GO_CLIENT_S_STREAM_NO_ITEM_ACTS,
            GO_CLIENT_S_STREAM_NO_ITEM_LINES,
        ),
        9 => (
            "server's stream",
            GO_SERVER_S_STREAM_ACTS,
            GO_SERVER_S_STREAM_LINES,
        ),
        10 => (
            "server's stream, empty request",
            GO_SERVER_S_STREAM_EMPTY_REQUEST_ACTS,
            GO_SERVER_S_STREAM_EMPTY_REQUEST_LINES,
        ),
        11 => (
            "both ways, status error",
            GO_BOTH_WAYS_STATUS_ERROR_ACTS,
            GO_BOTH_WAYS_STATUS_ERROR_LINES,
        ),
        12 => (
            "both ways, plain error",
            GO_BOTH_WAYS_PLAIN_ERROR_ACTS,
            GO_BOTH_WAYS_PLAIN_ERROR_LINES,
        ),
        13 => (
            "client's stream, status error",
            GO_CLIENT_S_STREAM_STATUS_ERROR_ACTS,
            GO_CLIENT_S_STREAM_STATUS_ERROR_LINES,
        ),
        14 => (
            "both ways, server ends early",
            GO_BOTH_WAYS_SERVER_ENDS_EARLY_ACTS,
            GO_BOTH_WAYS_SERVER_ENDS_EARLY_LINES,
        ),
        15 => (
            "server's stream, unknown method",
            GO_SERVER_S_STREAM_UNKNOWN_METHOD_ACTS,
            GO_SERVER_S_STREAM_UNKNOWN_METHOD_LINES,
        ),
        16 => (
            "both ways, unknown method",
            GO_BOTH_WAYS_UNKNOWN_METHOD_ACTS,
            GO_BOTH_WAYS_UNKNOWN_METHOD_LINES,
        ),
        17 => (
            "unary method as a stream",
            GO_UNARY_METHOD_AS_A_STREAM_ACTS,
            GO_UNARY_METHOD_AS_A_STREAM_LINES,
        ),
        18 => (
            "stream method as a unary call",
            GO_STREAM_METHOD_AS_A_UNARY_CALL_ACTS,
            GO_STREAM_METHOD_AS_A_UNARY_CALL_LINES,
        ),
        19 => (
            "server's stream as a unary call",
            GO_SERVER_S_STREAM_AS_A_UNARY_CALL_ACTS,
            GO_SERVER_S_STREAM_AS_A_UNARY_CALL_LINES,
        ),
        20 => (
            "client drops without a close",
            GO_CLIENT_DROPS_WITHOUT_A_CLOSE_ACTS,
            GO_CLIENT_DROPS_WITHOUT_A_CLOSE_LINES,
        ),
        _ => return None,
    })
}

/// Returns the conversation with this number, from 0, of a client of this project and a server of the Rust crate.
pub fn client_beside_rust(number: usize) -> Option<Conversation> {
    Some(match number {
        0 => ("unary", GO_UNARY_ACTS, RUST_UNARY_LINES),
        1 => ("unary error", GO_UNARY_ERROR_ACTS, GO_UNARY_ERROR_LINES),
        2 => ("unary, empty", GO_UNARY_EMPTY_ACTS, RUST_UNARY_EMPTY_LINES),
        3 => (
            "both ways, items in turn, one empty",
            GO_BOTH_WAYS_ITEMS_IN_TURN_ONE_EMPTY_ACTS,
            GO_BOTH_WAYS_ITEMS_IN_TURN_ONE_EMPTY_LINES,
        ),
        4 => (
            "both ways, all sent first",
            GO_BOTH_WAYS_ALL_SENT_FIRST_ACTS,
            GO_BOTH_WAYS_ALL_SENT_FIRST_LINES,
        ),
        5 => (
            "both ways, ended by a last message",
            GO_BOTH_WAYS_ENDED_BY_A_LAST_MESSAGE_ACTS,
            RUST_BOTH_WAYS_ENDED_BY_A_LAST_MESSAGE_LINES,
        ),
        6 => (
            "both ways, no item",
            GO_BOTH_WAYS_NO_ITEM_ACTS,
            GO_BOTH_WAYS_NO_ITEM_LINES,
        ),
        7 => (
            "client's stream",
            GO_CLIENT_S_STREAM_ACTS,
            RUST_CLIENT_S_STREAM_LINES,
        ),
        8 => (
            "client's stream, no item",
            GO_CLIENT_S_STREAM_NO_ITEM_ACTS,
            RUST_CLIENT_S_STREAM_NO_ITEM_LINES,
        ),
        9 => (
            "server's stream",
            GO_SERVER_S_STREAM_ACTS,
            GO_SERVER_S_STREAM_LINES,
        ),
        10 => (
            "server's stream, empty request",
            GO_SERVER_S_STREAM_EMPTY_REQUEST_ACTS,
            GO_SERVER_S_STREAM_EMPTY_REQUEST_LINES,
        ),
        11 => (
            "both ways, status error",
            GO_BOTH_WAYS_STATUS_ERROR_ACTS,
            GO_BOTH_WAYS_STATUS_ERROR_LINES,
        ),
        12 => (
            "both ways, plain error",
            RUST_BOTH_WAYS_PLAIN_ERROR_ACTS,
            RUST_BOTH_WAYS_PLAIN_ERROR_LINES,
        ),
        13 => (
            "client's stream, status error",
            RUST_CLIENT_S_STREAM_STATUS_ERROR_ACTS,
            RUST_CLIENT_S_STREAM_STATUS_ERROR_LINES,
        ),
        14 => (
            "both ways, server ends early",
            RUST_BOTH_WAYS_SERVER_ENDS_EARLY_ACTS,
            RUST_BOTH_WAYS_SERVER_ENDS_EARLY_LINES,
        ),
        15 => (
            "server's stream, unknown method",
            RUST_SERVER_S_STREAM_UNKNOWN_METHOD_ACTS,
            RUST_SERVER_S_STREAM_UNKNOWN_METHOD_LINES,
        ),
        16 => (
            "both ways, unknown method",
            RUST_BOTH_WAYS_UNKNOWN_METHOD_ACTS,
            RUST_BOTH_WAYS_UNKNOWN_METHOD_LINES,
        ),
        17 => (
            "unary method as a stream",
            RUST_UNARY_METHOD_AS_A_STREAM_ACTS,
            RUST_UNARY_METHOD_AS_A_STREAM_LINES,
        ),
        18 => (
            "stream method as a unary call",
            GO_STREAM_METHOD_AS_A_UNARY_CALL_ACTS,
            GO_STREAM_METHOD_AS_A_UNARY_CALL_LINES,
        ),
        19 => (
            "server's stream as a unary call",
            GO_SERVER_S_STREAM_AS_A_UNARY_CALL_ACTS,
            GO_SERVER_S_STREAM_AS_A_UNARY_CALL_LINES,
        ),
        20 => (
            "client drops without a close",
            GO_CLIENT_DROPS_WITHOUT_A_CLOSE_ACTS,
            GO_CLIENT_DROPS_WITHOUT_A_CLOSE_LINES,
        ),
        _ => return None,
    })
}

/// Returns the lines with this number, from 0, of a client of the Rust crate and a server of this project.
pub fn served_to_rust(number: usize) -> Option<Said> {
    Some(match number {
        0 => ("unary", RUST_UNARY_LINES),
        1 => ("unary error", GO_UNARY_ERROR_LINES),
        2 => ("unary, empty", RUST_UNARY_EMPTY_LINES),
        3 => (
            "both ways, items in turn, one empty",
            GO_BOTH_WAYS_ITEMS_IN_TURN_ONE_EMPTY_LINES,
        ),
        4 => (
            "both ways, all sent first",
            GO_BOTH_WAYS_ALL_SENT_FIRST_LINES,
        ),
        5 => (
            "both ways, ended by a last message",
            RUST_BOTH_WAYS_ENDED_BY_A_LAST_MESSAGE_LINES,
        ),
        6 => ("both ways, no item", GO_BOTH_WAYS_NO_ITEM_LINES),
        7 => ("client's stream", RUST_CLIENT_S_STREAM_LINES),
        8 => (
            "client's stream, no item",
            RUST_CLIENT_S_STREAM_NO_ITEM_LINES,
        ),
        9 => ("server's stream", GO_SERVER_S_STREAM_LINES),
        10 => (
            "server's stream, empty request",
            GO_SERVER_S_STREAM_EMPTY_REQUEST_LINES,
        ),
        11 => ("both ways, status error", GO_BOTH_WAYS_STATUS_ERROR_LINES),
        12 => ("both ways, plain error", RUST_BOTH_WAYS_PLAIN_ERROR_LINES),
        13 => (
            "client's stream, status error",
            TO_RUST_CLIENT_S_STREAM_STATUS_ERROR_LINES,
        ),
        14 => (
            "both ways, server ends early",
            TO_RUST_BOTH_WAYS_SERVER_ENDS_EARLY_LINES,
        ),
        15 => (
            "server's stream, unknown method",
            RUST_SERVER_S_STREAM_UNKNOWN_METHOD_LINES,
        ),
        16 => (
            "both ways, unknown method",
            TO_RUST_BOTH_WAYS_UNKNOWN_METHOD_LINES,
        ),
        17 => (
            "unary method as a stream",
            TO_RUST_UNARY_METHOD_AS_A_STREAM_LINES,
        ),
        18 => (
            "stream method as a unary call",
            GO_STREAM_METHOD_AS_A_UNARY_CALL_LINES,
        ),
        19 => (
            "server's stream as a unary call",
            GO_SERVER_S_STREAM_AS_A_UNARY_CALL_LINES,
        ),
        20 => (
            "client drops without a close",
            GO_CLIENT_DROPS_WITHOUT_A_CLOSE_LINES,
        ),
        _ => return None,
    })
}

/// Returns the lines with this number, from 0, of a client written in Go and a server of this project. Each stream
/// begins with an item that the client didn't send.
pub fn served_to_go(number: usize) -> Option<Said> {
    Some(match number {
        0 => ("unary", RUST_UNARY_LINES),
        1 => ("unary error", GO_UNARY_ERROR_LINES),
        2 => ("unary, empty", RUST_UNARY_EMPTY_LINES),
        3 => (
            "both ways, items in turn, one empty",
            TO_GO_BOTH_WAYS_ITEMS_IN_TURN_ONE_EMPTY_LINES,
        ),
        4 => (
            "both ways, all sent first",
            TO_GO_BOTH_WAYS_ALL_SENT_FIRST_LINES,
        ),
        5 => (
            "both ways, ended by a last message",
            TO_GO_BOTH_WAYS_ENDED_BY_A_LAST_MESSAGE_LINES,
        ),
        6 => ("both ways, no item", TO_GO_BOTH_WAYS_NO_ITEM_LINES),
        7 => ("client's stream", TO_GO_CLIENT_S_STREAM_LINES),
        8 => (
            "client's stream, no item",
            TO_GO_CLIENT_S_STREAM_NO_ITEM_LINES,
        ),
        9 => ("server's stream", GO_SERVER_S_STREAM_LINES),
        10 => (
            "server's stream, empty request",
            GO_SERVER_S_STREAM_EMPTY_REQUEST_LINES,
        ),
        11 => (
            "both ways, status error",
            TO_GO_BOTH_WAYS_STATUS_ERROR_LINES,
        ),
        12 => ("both ways, plain error", TO_GO_BOTH_WAYS_PLAIN_ERROR_LINES),
        13 => (
            "client's stream, status error",
            TO_GO_CLIENT_S_STREAM_STATUS_ERROR_LINES,
        ),
        14 => (
            "both ways, server ends early",
            TO_GO_BOTH_WAYS_SERVER_ENDS_EARLY_LINES,
        ),
        15 => (
            "server's stream, unknown method",
            RUST_SERVER_S_STREAM_UNKNOWN_METHOD_LINES,
        ),
        16 => (
            "both ways, unknown method",
            TO_GO_BOTH_WAYS_UNKNOWN_METHOD_LINES,
        ),
        17 => (
            "unary method as a stream",
            TO_GO_UNARY_METHOD_AS_A_STREAM_LINES,
        ),
        18 => (
            "stream method as a unary call",
            TO_GO_STREAM_METHOD_AS_A_UNARY_CALL_LINES,
        ),
        19 => (
            "server's stream as a unary call",
            TO_GO_SERVER_S_STREAM_AS_A_UNARY_CALL_LINES,
        ),
        20 => (
            "client drops without a close",
            TO_GO_CLIENT_DROPS_WITHOUT_A_CLOSE_LINES,
        ),
        _ => return None,
    })
}

/// Returns the same, for a server with streams that begin without an item if they are opened without a payload.
pub fn served_to_go_bare(number: usize) -> Option<Said> {
    Some(match number {
        0 => ("unary", RUST_UNARY_LINES),
        1 => ("unary error", GO_UNARY_ERROR_LINES),
        2 => ("unary, empty", RUST_UNARY_EMPTY_LINES),
        3 => (
            "both ways, items in turn, one empty",
            TO_GO_BARE_BOTH_WAYS_ITEMS_IN_TURN_ONE_EMPTY_LINES,
        ),
        4 => (
            "both ways, all sent first",
            TO_GO_BARE_BOTH_WAYS_ALL_SENT_FIRST_LINES,
        ),
        5 => (
            "both ways, ended by a last message",
            TO_GO_BARE_BOTH_WAYS_ENDED_BY_A_LAST_MESSAGE_LINES,
        ),
        6 => ("both ways, no item", TO_GO_BARE_BOTH_WAYS_NO_ITEM_LINES),
        7 => ("client's stream", TO_GO_BARE_CLIENT_S_STREAM_LINES),
        8 => (
            "client's stream, no item",
            TO_GO_BARE_CLIENT_S_STREAM_NO_ITEM_LINES,
        ),
        9 => ("server's stream", GO_SERVER_S_STREAM_LINES),
        10 => (
            "server's stream, empty request",
            GO_SERVER_S_STREAM_EMPTY_REQUEST_LINES,
        ),
        11 => (
            "both ways, status error",
            TO_GO_BARE_BOTH_WAYS_STATUS_ERROR_LINES,
        ),
        12 => (
            "both ways, plain error",
            TO_GO_BARE_BOTH_WAYS_PLAIN_ERROR_LINES,
        ),
        13 => (
            "client's stream, status error",
            TO_GO_BARE_CLIENT_S_STREAM_STATUS_ERROR_LINES,
        ),
        14 => (
            "both ways, server ends early",
            TO_GO_BOTH_WAYS_SERVER_ENDS_EARLY_LINES,
        ),
        15 => (
            "server's stream, unknown method",
            RUST_SERVER_S_STREAM_UNKNOWN_METHOD_LINES,
        ),
        16 => (
            "both ways, unknown method",
            TO_GO_BOTH_WAYS_UNKNOWN_METHOD_LINES,
        ),
        17 => (
            "unary method as a stream",
            TO_GO_UNARY_METHOD_AS_A_STREAM_LINES,
        ),
        18 => (
            "stream method as a unary call",
            TO_GO_STREAM_METHOD_AS_A_UNARY_CALL_LINES,
        ),
        19 => (
            "server's stream as a unary call",
            TO_GO_SERVER_S_STREAM_AS_A_UNARY_CALL_LINES,
        ),
        20 => (
            "client drops without a close",
            TO_GO_BARE_CLIENT_DROPS_WITHOUT_A_CLOSE_LINES,
        ),
        _ => return None,
    })
}
