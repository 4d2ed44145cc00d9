//! The messages and services of mount.proto.
#![tactic(auto)]

pub mod messages;
