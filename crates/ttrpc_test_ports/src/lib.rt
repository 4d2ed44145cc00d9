//! Tests of the ports of a client's and a server's connection, over cores in memory.
#![tactic(auto)]

#[cfg(test)]
mod tests;
