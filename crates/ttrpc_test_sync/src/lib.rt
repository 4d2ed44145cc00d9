//! The tests of the loops and of the pool of `ttrpc_sync`: readers, writers, handlers, gates and ports in memory, and
//! rows with their results. In the crate of the loops they would be proved together with it.
#![tactic(auto)]

pub mod passes;
#[cfg(test)]
mod tests;
