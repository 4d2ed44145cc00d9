//! Tests of the states of polled ends without a connection. A client's calls and streams are stepped by hand with a
//! server's core. Either core runs with recorded frames. Frames are read and written by polls.
#![tactic(auto)]

#[cfg(test)]
mod tests;
