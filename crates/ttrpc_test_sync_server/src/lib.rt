//! Tests of the server with threads, over sockets of this machine: its settings, its hooks, the reports of its faults,
//! and the ends of its connections.
#![tactic(auto)]

#[cfg(test)]
mod tests;
