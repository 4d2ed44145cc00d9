//! The service `demo.Health`, which gives the statuses of services by a table. The crate has its messages, its answers,
//! handlers and a client for polled ends, and a run of one client and one server. The callers of the run are proved to
//! receive the table's statuses.
#![tactic(auto)]

mod answers;
mod client;
pub mod messages;
mod report;
mod service;
mod table;
#[cfg(test)]
mod tests;
mod trace;

pub use answers::check;
pub use client::HealthClient;
pub use report::{Statuses, run_health};
pub use service::{HealthHandler, Watching, health_services};
pub use table::HealthTable;
