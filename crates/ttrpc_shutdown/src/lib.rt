//! A shutdown that threads share: a flag that a notifier sets, and a count of the waiters that are left. The flag and the count are two
//! words of a table, and each notifier and waiter has a seat at it. The table's rule relates the words and the seats between any two steps,
//! in whatever order the threads take them.
#![tactic(auto)]

pub mod laws;
mod notifier;
mod post;
pub mod rule;
#[cfg(test)]
mod tests;
mod waiter;

pub use notifier::{Notifier, new, with_timeout};
pub use waiter::Waiter;
