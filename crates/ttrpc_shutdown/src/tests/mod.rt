//! The tests of the shutdown counters: counting, gathering and learning of a shutdown in one thread, and threads that
//! inform one another.

mod checks;
mod counting;
mod gathering;
mod telling;
mod waiting;
