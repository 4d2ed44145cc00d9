//! The messages and services of task.proto.
#![tactic(auto)]

pub mod messages;
