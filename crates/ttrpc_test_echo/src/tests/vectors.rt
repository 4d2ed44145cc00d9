//! Requests and answers, written by hand. Each has a name, so that a proof needn't read its bytes.

pub use ttrpc_test_cores::server::{
    ASKED, ECHOED, EMPTY, EMPTY_ECHOED, NO_METHOD, NO_METHOD_ANSWER, NO_SERVICE, NO_SERVICE_ANSWER,
    OVERSIZED,
};

/// The front of the first request.
pub const CUT: &[u8] = b"\0\0\0\x14\0\0\0\x01\x01\0\x0a\x09";

/// The answer to a frame that is too long.
pub const OVERSIZED_ANSWER: &[u8] = b"\
    \0\0\0\x43\0\0\0\x05\x02\0\
    \x0a\x41\x08\x03\x12\x3dmessage length 4194305 exceed maximum message size of 4194304";

/// A request of 30 bytes, data that is skipped, an unknown service, and another request: their ends are at 30, 41, 57
/// and 87.
pub const MIXED: &[u8] = b"\
    \0\0\0\x14\0\0\0\x01\x01\0\x0a\x09demo.Echo\x12\x04Echo\x1a\x01\x2a\
    \0\0\0\x01\0\0\0\x01\x03\0z\
    \0\0\0\x06\0\0\0\x02\x01\0\x0a\x01x\x12\x01y\
    \0\0\0\x14\0\0\0\x03\x01\0\x0a\x09demo.Echo\x12\x04Echo\x1a\x01\x2b";

/// The answers to `MIXED`: their ends are at 15, 50 and 65.
pub const MIXED_ANSWERS: &[u8] = b"\
    \0\0\0\x05\0\0\0\x01\x02\0\x0a\0\x12\x01\x2a\
    \0\0\0\x19\0\0\0\x02\x02\0\x0a\x17\x08\x03\x12\x13/x/y does not exist\
    \0\0\0\x05\0\0\0\x03\x02\0\x0a\0\x12\x01\x2b";

pub const INSIDE_TEXT: &[u8] = b"ttrpc-demo: socket err: socket disconnected inside a frame\n";

pub const NO_MEMORY_TEXT: &[u8] = b"ttrpc-demo: out of memory\n";

pub const USAGE_TEXT: &[u8] =
    b"usage: ttrpc-demo answer | serve ADDR | call ADDR SERVICE METHOD HEX TIMEOUT | loop HEX\n";

/// The output of `loop` for the byte 2a, for no bytes, and for four.
pub const LOOPED: &[u8] = b"ok 2a\n";

pub const LOOPED_EMPTY: &[u8] = b"ok\n";

pub const LOOPED_FOUR: &[u8] = b"ok 00ffab09\n";
/// The front of its output for bytes 77.
pub const LOOPED_SEVENS: &[u8] = b"ok 77";
/// Its output for a payload that is too long, and if memory was refused.
pub const LOOPED_TOO_LONG: &[u8] =
    b"error: ttrpc err: message length 4194305 exceed maximum message size of 4194304\n";

pub const NO_MEMORY_LINE: &[u8] = b"error: out of memory\n";

/// The errors about addresses that name no place.
pub const VSOCK_TEXT: &[u8] = b"ttrpc-demo: ttrpc err: vsock is not supported\n";

pub const ABSTRACT_TEXT: &[u8] = b"ttrpc-demo: ttrpc err: abstract unix names are not supported\n";

pub const SCHEME_TEXT: &[u8] = b"ttrpc-demo: ttrpc err: Scheme \"127.0.0.1:0\" is not supported\n";
