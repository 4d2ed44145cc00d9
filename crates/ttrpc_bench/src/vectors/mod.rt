//! Frames that a peer may send, hostile or not, and their effects. There is a vector for each cell of the client's
//! table and of the server's, and for each event that a receiver may get. All bytes are written by hand, and the
//! expected results are those of the tables.
mod client;
mod mailbox;
mod server;
mod told;

pub use client::{CLIENT_VECTORS, ClientVector, FRAME_KINDS, FrameKind, ID_STATES, IdState};
pub use mailbox::{
    CLIENT_MAILBOX, CLIENT_THINGS, MailboxVector, Opening, SERVER_MAILBOX, SERVER_THINGS, Thing,
};
pub use server::{
    ASYNC_PAIRS, ASYNC_VECTORS, Does, Has, SERVER_ROWS, SYNC_PAIRS, SYNC_VECTORS, ServerRow,
    ServerVector,
};
pub use told::{BAD_STAMP, DISCONNECTED, LONG, LONG_STATUS, LONG_TEXT, PAST, Told};

/// The halves that a vector is run with.
#[derive(Clone, Copy, Debug, PartialEq, Eq)]
pub enum Halves {
    /// Plain halves, and also halves that stamp, for which the vector's frames get their stamps.
    Usual,
    /// Halves that stamp. The last byte of the vector is a wrong stamp.
    BadStamp,
    /// An inbound half that opens each payload to one byte more than a message may have.
    Swelling,
}

/// The result that a call or a receiver gets when it asks.
#[derive(Clone, Copy)]
pub enum Given {
    /// Nothing yet.
    Nothing,
    /// A response with an OK status and this payload, or this item.
    Payload(&'static [u8]),
    /// This error.
    Refusal(Told),
}
