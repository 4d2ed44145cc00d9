//! Requests and their answers, byte by byte and written by hand, and the tests of both cores as scripts.
#![tactic(auto)]

pub mod server;
#[cfg(test)]
mod tests;
