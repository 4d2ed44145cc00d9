//! Tests of the polled server over bytes in memory, with the polled client and with a peer that sends line by line,
//! with the handlers of the server.
#![tactic(auto)]

#[cfg(test)]
mod tests;
