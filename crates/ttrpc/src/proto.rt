//! The messages of an envelope, their header, and what a value is that travels in a payload.
pub use ttrpc_message::Message;
pub use ttrpc_proto::{
    Any, DEFAULT_PAGE_SIZE, FLAG_NO_DATA, FLAG_REMOTE_CLOSED, FLAG_REMOTE_OPEN, GenMessage,
    GenMessageError, KeyValue, MESSAGE_HEADER_LENGTH, MESSAGE_LENGTH_MAX, MESSAGE_TYPE_DATA,
    MESSAGE_TYPE_REQUEST, MESSAGE_TYPE_RESPONSE, MessageHeader, Request, RequestInit, Response,
    ResponseInit, Status,
};
pub use ttrpc_wire::codec::members;
pub use ttrpc_wire::codec::message::WireMessage;
pub use ttrpc_wire::values::codec_error::CodecFailure;
pub use ttrpc_wire::{Blob, Code, Codec, Sequence, Text, TryClone};
