//! Messages from a reader and to a writer: as bytes, and as values by a codec. The module `context` has the metadata
//! and the time limit of a request. The module `calls` has the functions that the macros of services and of their
//! clients call.
#![tactic(auto)]

pub mod calls;
mod codec_cause;
pub mod context;
mod frames;
mod message;

pub use calls::{decode_request, merge_reply, request_of, response_of};
pub use codec_cause::codec_error_of;
pub use context::{Context, from_pb, to_pb, with_duration, with_metadata, with_timeout};
pub use frames::{parts_of, read_message, write_error, write_message};
pub use message::{Message, encoded, value_of};
