//! The frames that a client writes and those that it gets, written by hand. Each has a name, so that a proof needn't
//! read its bytes.

/// The first request to `Echo` of `demo.Echo`, with the payload 01 02 03 and a timeout of 10.
pub const ASKED: &[u8] = b"\
    \0\0\0\x18\0\0\0\x01\x01\0\x0a\x09demo.Echo\x12\x04Echo\x1a\x03\x01\x02\x03\x20\x0a";

/// A response with an empty status and the payload 2a.
pub const ANSWERED: &[u8] = b"\0\0\0\x05\0\0\0\x01\x02\0\x0a\0\x12\x01\x2a";
/// The same with many flags.
pub const ANSWERED_FLAGGED: &[u8] = b"\0\0\0\x05\0\0\0\x01\x02\xef\x0a\0\x12\x01\x2a";
/// A response with a status with the code 3 and the message `x`, in two parts.
pub const REFUSED: &[u8] = b"\0\0\0\x09\0\0\0\x01\x02\0\x0a\x02\x08\x03\x0a\x03\x12\x01x";
/// A response with a length that runs past its end.
pub const UNREADABLE: &[u8] = b"\0\0\0\x03\0\0\0\x01\x02\0\x0a\x05a";

/// Data with the id 1.
pub const DATA: &[u8] = b"\0\0\0\x01\0\0\0\x01\x03\0z";
/// A close of a stream with the id 1.
pub const CLOSE: &[u8] = b"\0\0\0\0\0\0\0\x01\x03\x05";
/// A close that has data.
pub const CLOSE_WITH_DATA: &[u8] = b"\0\0\0\x01\0\0\0\x01\x03\x05z";
/// A request with the id 1.
pub const REQUEST: &[u8] = b"\0\0\0\0\0\0\0\x01\x01\0";

/// Frames with ids that no call has: an even one, 0, one that isn't given yet, and the last.
pub const FOREIGN: &[u8] = b"\
    \0\0\0\x05\0\0\0\x02\x02\0\x0a\0\x12\x01\x2a\
    \0\0\0\0\0\0\0\0\x02\0\
    \0\0\0\x05\0\0\0\x05\x02\0\x0a\0\x12\x01\x2a\
    \0\0\0\x03\xff\xff\xff\xff\x02\0\x0a\x05a";

/// The header of a frame with the id 1 that is one byte too long.
pub const OVERSIZED: &[u8] = b"\0\x40\0\x01\0\0\0\x01\x02\0";
