//! The messages by Google that many files use, a message inside an `Any`, and conversions of times from and to those of
//! std.
#![tactic(auto)]

pub mod any;
pub mod messages;
pub mod times;
