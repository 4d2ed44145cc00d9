//! The frames of streams, written by hand. Each has a name, so that a proof needn't read its bytes.

// ---- frames of a client

/// The request that opens the first stream to `Chat` of `demo.Echo`, with the flags that other items follow and that it
/// is no item.
pub const OPENED: &[u8] = b"\0\0\0\x11\0\0\0\x01\x01\x06\x0a\x09demo.Echo\x12\x04Chat";
/// The same for the second stream.
pub const OPENED_THIRD: &[u8] = b"\0\0\0\x11\0\0\0\x03\x01\x06\x0a\x09demo.Echo\x12\x04Chat";
/// `OPENED`, the item `a`, an empty item, the item `b`, and a close.
pub const OPENED_AND_SENT: &[u8] = b"\
    \0\0\0\x11\0\0\0\x01\x01\x06\x0a\x09demo.Echo\x12\x04Chat\
    \0\0\0\x01\0\0\0\x01\x03\0a\
    \0\0\0\0\0\0\0\x01\x03\0\
    \0\0\0\x01\0\0\0\x01\x03\0b\
    \0\0\0\0\0\0\0\x01\x03\x05";

// ---- frames of either side

/// The item `a`, and an empty item.
pub const TWO_ITEMS: &[u8] = b"\0\0\0\x01\0\0\0\x01\x03\0a\0\0\0\0\0\0\0\x01\x03\0";
/// The item `z`, which also closes the sender's side.
pub const LAST_ITEM: &[u8] = b"\0\0\0\x01\0\0\0\x01\x03\x01z";
/// The item `z`, with the flag that it is no item, but no close.
pub const FLAGGED_ITEM: &[u8] = b"\0\0\0\x01\0\0\0\x01\x03\x04z";
/// Three items with the third id.
pub const THREE_OF_THIRD: &[u8] = b"\
    \0\0\0\x01\0\0\0\x03\x03\0x\
    \0\0\0\x01\0\0\0\x03\x03\0y\
    \0\0\0\x01\0\0\0\x03\x03\0z";

// ---- frames of a server

/// A response with the code 5 and the message `gone`.
pub const GONE: &[u8] = b"\0\0\0\x0a\0\0\0\x01\x02\0\x0a\x08\x08\x05\x12\x04gone";
/// The answer to data without a stream.
pub const INACTIVE: &[u8] = b"\
    \0\0\0\x20\0\0\0\x01\x02\0\x0a\x1e\x08\x03\x12\x1aStream is no longer active";
/// The answer to a request with the first id, if 1 was the newest.
pub const NOT_ABOVE: &[u8] = b"\
    \0\0\0\x20\0\0\0\x01\x02\0\x0a\x1e\x08\x03\x12\x1astream id 1 is not above 1";
/// The answer to a request with the id of an active job.
pub const IN_USE: &[u8] = b"\
    \0\0\0\x1b\0\0\0\x01\x02\0\x0a\x19\x08\x03\x12\x15stream id 1 is in use";
