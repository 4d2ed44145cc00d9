//! Trials of the world: the headline, read from a trace by a plain program, scripts with their replies, and random
//! lists of events.
#![tactic(auto)]

#[cfg(test)]
mod tests;
