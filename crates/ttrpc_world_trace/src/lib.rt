//! The events of one client and one server over two byte pipes, their replies, and the properties of a trace of them for each
//! call and stream. Laws of the frames between the two are in `flight`. The state of one call and its possible changes are in
//! definitions and lemmas only.
#![tactic(auto)]

mod events;
pub mod flight;
pub mod laws;

pub use events::{Entry, Event, Reply, Side, StreamEnd, Trace};
