//! Addresses, and the sockets at them.
pub use ttrpc_transport::{
    ClientConnection, Domain, PipeConnection, PipeListener, Stream, nodelay_from, parse_sockaddr,
    parse_vsock,
};
