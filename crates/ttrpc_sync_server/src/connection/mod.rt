//! One connection of a server with threads. Two threads read it in turn, and one writes when no other thread does.
//! Workers run the handlers when no reader handles a job itself. The module `ports` has the state under the
//! connection's lock.

mod conn;
mod context;
mod keeper;
mod pause;
pub mod ports;
mod reader;
mod serving;
mod shared;
mod thread_count;
mod watch;
mod worker;

pub use self::conn::Conn;
pub use self::context::{MethodHandler, TtrpcContext, response_error_to_channel, send_response};
pub use self::keeper::run_connection;
pub use self::ports::{
    AtTurn, Backlog, ServerHeld, ServerJobs, ServerLock, ServerRead, ServerReadTurn, ServerWrite,
};
pub use self::serving::WatchedHandlers;
pub use self::shared::SharedHandler;
pub use self::thread_count::ThreadCount;
pub use self::watch::SharedWatch;
