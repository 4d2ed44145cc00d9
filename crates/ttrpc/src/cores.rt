//! The cores: what clients and servers do, with no socket, clock or thread.

/// The core of a client.
pub mod client {
    pub use ttrpc_client::{
        CallId, ClientCore, ClientKind, Looks, Pending, PendingId, StreamId, Ticket,
    };
}

/// The core of a server.
pub mod server {
    pub use ttrpc_client::Ticket;
    pub use ttrpc_server::{Job, JobId, Registry, Rules, ServerCore};
}

/// The workers of a connection that wait for a job.
pub mod pool {
    pub use ttrpc_sync::PoolCore;
}

/// One client and one server over two pipes.
pub mod world {
    pub use ttrpc_world::{Entry, Event, Reply, Side, StreamEnd, Trace, World};
}
