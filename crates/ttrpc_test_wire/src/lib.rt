//! Tests of the small types, the wire format, the header, the messages, the errors and contexts: rows of bytes and
//! their meaning, which few functions run.
#![tactic(auto)]

#[cfg(test)]
mod tests;
