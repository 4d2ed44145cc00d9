//! The functions that the macros of services and of their clients call. For a service they take a value out of a
//! request, and put one into a response. For a client they put a value into a request, and take one out of a response.
//! Others convert the items of streams.

mod client;
mod item;
mod service;

pub use self::client::{merge_reply, request_of};
pub use self::item::{decode_item, decode_item_or_end, encode_item};
pub use self::service::{checked_request, decode_request, response_of};
