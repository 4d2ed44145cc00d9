//! The messages and services of event.proto.
#![tactic(auto)]

pub mod messages;
