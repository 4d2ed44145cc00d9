//! Members of messages, of every kind: each is read, measured and written by calls that are proved once.
#![tactic(auto)]

pub mod choice;
pub mod coding;
pub mod enclosed;
pub mod entries;
pub mod item;
pub mod kind;
pub mod laws;
pub mod map;
pub mod named;
pub mod nesting;
pub mod several;
