//! The messages and services of events.proto.
#![tactic(auto)]

pub mod messages;
pub mod polled;
pub mod service;
