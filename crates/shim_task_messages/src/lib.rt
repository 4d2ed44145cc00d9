//! The messages of shim.proto.
#![tactic(auto)]

pub mod messages;
