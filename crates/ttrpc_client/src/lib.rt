//! The core of a client, with no socket, clock or thread. Calls and bytes go in, and bytes and outcomes come out.
#![tactic(auto)]

pub mod call;
mod client;
pub mod errors;
mod kind;
mod landing;
pub mod laws;
mod pending;
pub mod state;
mod stream_core;
mod streaming;
mod streams;

pub use call::CallId;
pub use client::ClientCore;
pub use kind::ClientKind;
pub use pending::{Looks, Pending, PendingId};
pub use streams::{Sender, StreamId, StreamState, Streams};
pub use ttrpc_connection::Ticket;
