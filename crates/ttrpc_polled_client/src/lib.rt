//! The client with polled calls and streams.
#![tactic(auto)]

mod asked;
mod calls;
mod client;
mod connect;
mod connection;
mod held;
mod line;
mod macros;
mod opening;
mod request;
mod shared;

pub use asked::Asked;
pub use calls::{
    ClientCall, ClientOpening, ClientStreamReceiver, OfStream, call_of, open_of, open_with,
};
pub use client::Client;
pub use connect::{ClientConnect, Spawns};
pub use connection::{ClientConnection, TcpConnection};
pub use held::PolledClientState;
pub use line::ClientLine;
pub use opening::{ClientNewStream, Opening};
pub use request::ClientRequest;
pub use shared::ClientShared;
