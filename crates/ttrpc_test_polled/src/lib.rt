//! Tests of the polled client over bytes in memory, with a peer that echoes with a server's core, and with a peer that
//! sends line by line. There are tests of polled sockets, too.
#![tactic(auto)]

#[cfg(test)]
mod tests;
