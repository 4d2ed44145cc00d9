//! The polled server over loopback, and clients and servers with threads together with polled ones, through the
//! commands of their programs.
#![tactic(auto)]

#[cfg(test)]
mod tests;
