//! Tests of the frames, of their readers and writers, and of the halves that seal and open them. They have bytes cut in
//! all ways, scripts for the queue, and rows of bytes that are read and written, which few functions run. `secure` has
//! the tests of hooks and contexts.
#![tactic(auto)]

#[cfg(test)]
mod tests;
