//! Tests of the facade: the macros, the functions that they call, and the paths of all items in `ttrpc`.
#![tactic(auto)]

#[cfg(test)]
mod tests;
