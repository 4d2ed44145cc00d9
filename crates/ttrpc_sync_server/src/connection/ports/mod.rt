//! The ports of a server's connection: the state that its threads share, how its readers take turns, how much input may wait, and how jobs
//! are taken.

mod backlog;
mod jobs;
mod read_turn;
mod server;

pub use self::backlog::Backlog;
pub use self::jobs::ServerJobs;
pub(crate) use self::jobs::{report, waiting_job};
pub use self::read_turn::{AtTurn, ServerReadTurn};
pub use self::server::{ServerHeld, ServerLock, ServerRead, ServerWrite};
