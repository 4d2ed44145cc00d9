//! The record of a gate of the tests.

/// The way that a worker passed the gate.
#[derive(Clone, Copy, Debug, PartialEq, Eq)]
pub enum Pass {
    Entered,
    Left,
    Refused,
}
