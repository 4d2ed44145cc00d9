//! Tests of addresses, and of the sockets at them: rows that few functions run, and pairs of sockets of this machine.
#![tactic(auto)]

#[cfg(test)]
mod tests;
