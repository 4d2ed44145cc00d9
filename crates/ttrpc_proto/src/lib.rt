//! Envelopes and frames. The five messages of an envelope: the meaning of their bytes, and how they are made. `error`
//! has the reasons why a call failed, with the statuses, responses and texts that are made of them. `framing` reads
//! frames from a stream of bytes and queues the frames that are still to be written.
#![tactic(auto)]

pub mod error;
pub mod framing;
pub mod laws;
mod messages;
mod request_init;
mod response_init;

pub use error::{Error, Result, get_rpc_status, get_status, sock_error_msg};
pub use framing::{
    DEFAULT_PAGE_SIZE, FLAG_NO_DATA, FLAG_REMOTE_CLOSED, FLAG_REMOTE_OPEN, FrameDecoder,
    GenMessage, GenMessageError, Incoming, MESSAGE_HEADER_LENGTH, MESSAGE_LENGTH_MAX,
    MESSAGE_TYPE_DATA, MESSAGE_TYPE_REQUEST, MESSAGE_TYPE_RESPONSE, MessageHeader,
    OUTGOING_LENGTH_MAX, Outgoing, Passing, Queued, Sink, Source, fill, read_again, write_again,
    write_both, write_part,
};
pub use messages::{Any, KeyValue, Request, Response, Status};
pub use request_init::RequestInit;
pub use response_init::ResponseInit;
pub use ttrpc_wire::{Blob, Text};

// Members of messages have the types `Blob` and `Text`. A crate with no other use for `ttrpc_wire` imports them from
// here.
