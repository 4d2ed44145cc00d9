//! Parts for tests of polled ends: the acts of a client, the lines of a peer and the recorded ones among them, parts
//! that run side by side, a stream without a connection, and faults.
#![tactic(auto)]

pub mod acts;
pub mod lines;
pub mod lone;
pub mod parts;
pub mod recorded;
pub mod registry;
