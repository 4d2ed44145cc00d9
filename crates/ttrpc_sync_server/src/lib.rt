//! The server with threads: its listener, and the connections that it has open. The module `settings` has its settings,
//! and the calls that it refuses by them. The module `connection` has one connection and its threads.
#![tactic(auto)]

pub mod accept;
pub mod connection;
mod connections;
mod hook;
mod server;
mod service;
pub mod settings;
mod stopper;

pub use connection::{
    AtTurn, Backlog, Conn, MethodHandler, ServerHeld, ServerJobs, ServerLock, ServerRead,
    ServerReadTurn, ServerWrite, SharedHandler, SharedWatch, ThreadCount, TtrpcContext,
    WatchedHandlers, response_error_to_channel, run_connection, send_response,
};
pub use hook::SharedHook;
pub use server::Server;
pub use settings::{Refusal, Settings};
pub use stopper::Stopper;
pub use ttrpc_secure::NoHook;
pub use ttrpc_transport::{NoWatch, Watch};
