//! Servers with threads for tests: their methods, their clients, and peers that read and write frame by frame.
#![tactic(auto)]

pub mod fakes;
pub mod handlers;
pub mod peers;
pub mod sites;
