//! Tests of the client and the server with threads, over sockets of this machine: calls, hostile peers, and the threads of a
//! connection.
#![tactic(auto)]

#[cfg(test)]
mod tests;
