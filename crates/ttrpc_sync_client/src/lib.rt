//! The client with threads: one connection that any number of callers share, a thread that reads it, and one that
//! writes when no caller does. The module `ports` has the state under the connection's lock.
#![tactic(auto)]

mod client;
mod connection;
pub mod ports;

pub use client::Client;
pub use ports::{
    CALLS_TO_REST, CallShape, ClientHeld, ClientLock, ClientRead, ClientWrite, CurrentReader,
    LONE_FRAME, ReadTurn, ReaderNext,
};
