//! Tests of the program's words, its engine and its calls: runs as rows of words, input, status and output, and readers
//! and writers that fail at each place.
#![tactic(auto)]

#[cfg(test)]
mod tests;
