//! The sockets of the clients and servers with threads: a listener, the connections that it accepts, and a client's connection, by TCP or
//! at a path. The module `address` has their addresses, as texts. `moment` reads the clock of all ends, and `Watch` receives the faults of
//! all servers.
#![tactic(auto)]

pub mod address;
mod client;
mod clock;
mod connection;
mod listener;
mod stream;
mod watch;

pub use address::{Domain, Place, nodelay_from, parse_sockaddr, parse_vsock, socket_of};
pub use client::ClientConnection;
pub use clock::moment;
pub use connection::PipeConnection;
pub use listener::PipeListener;
pub use stream::Stream;
pub use watch::{NoWatch, Watch};
