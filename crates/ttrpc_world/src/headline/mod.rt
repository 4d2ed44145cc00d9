//! The laws of every run of one client and one server over two byte pipes.

pub mod laws;
pub mod whole;
