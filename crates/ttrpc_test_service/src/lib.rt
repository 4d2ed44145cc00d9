//! Tests of the code that `tools/messages` writes for polled ends: an rpc of each kind reaches its method, and has the
//! result of its kind. All modules except the messages belong to the tests, so that each is proved once.
#![tactic(auto)]

pub mod messages;
#[cfg(test)]
mod polled;
#[cfg(test)]
mod streams;
#[cfg(test)]
mod tests;
#[cfg(test)]
mod told;
