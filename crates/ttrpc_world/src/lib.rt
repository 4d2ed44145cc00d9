//! One client and one server over two byte pipes, and the run of any list of events on them. The laws of every run are in
//! `headline`.
#![tactic(auto)]

pub mod headline;
mod world;

pub use ttrpc_pair::{ClientCore, Pair, ServerCore};
pub use ttrpc_world_trace::{Entry, Event, Reply, Side, StreamEnd, Trace};
pub use world::World;
