//! The commands of the program `ttrpc-chat`, over the polled client and server: it serves the service `demo.Echo` with
//! its streams, and calls one.
#![tactic(auto)]

mod beside;
mod calls;
mod chat;
mod count;
mod echo;
mod echo_client;
mod never;
mod program;
mod service;
mod serving;
mod sum;
mod system;
mod telling;
mod words;

pub use calls::Site;
pub use echo_client::EchoClient;
pub use program::{ChatServer, run, server_at};
pub use service::{EchoMethod, EchoStream, services};
pub use system::{ChatSystem, nix};
