//! Messages with members of every kind, as `tools/messages` writes them, and their tests: values as another implementation
//! writes them, and messages that contain themselves.
#![tactic(auto)]

pub mod messages;
#[cfg(test)]
mod tests;
