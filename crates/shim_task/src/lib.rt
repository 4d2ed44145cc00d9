//! The services of shim.proto.
#![tactic(auto)]

pub mod polled;
pub mod service;
