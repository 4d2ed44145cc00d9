//! The errors that the tables of vectors and the scripts of tests expect.

/// An expected error.
#[derive(Clone, Copy)]
pub enum Told {
    /// `Error::Others` with this text.
    Others(&'static str),
    /// `Error::Others` with a text that begins like this.
    Begins(&'static str),
    /// `Error::Socket` with this text.
    Socket(&'static str),
    /// `Error::RpcStatus` with this code and message.
    Status(i32, &'static str),
    /// `Error::LocalClosed`.
    LocalClosed,
    /// `Error::RemoteClosed`.
    RemoteClosed,
    /// `Error::Eof`.
    Eof,
    /// `Error::NoRoom`.
    NoRoom,
}

/// The text about a frame of 4194305 bytes.
pub const LONG_TEXT: &str = "message length 4194305 exceed maximum message size of 4194304";

/// The error about a payload that opens to 4194305 bytes.
pub const LONG: Told = Told::Others(LONG_TEXT);

/// The error that a call and a stream get for a frame of 4194305 bytes.
pub const LONG_STATUS: Told = Told::Status(3, LONG_TEXT);

/// The error about a wrong stamp.
pub const BAD_STAMP: Told = Told::Others("transform_inbound failed: bad stamp");

/// The error that a receiver gets after an error.
pub const PAST: Told = Told::Others("Receive packet from Receiver error");

/// The error that a receiver gets after the input has ended between two frames.
pub const DISCONNECTED: Told = Told::Socket("socket disconnected");
