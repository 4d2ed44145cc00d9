//! Addresses of sockets, as texts: `unix://PATH`, `tcp://IP:PORT` and `vsock://CID:PORT`, and how a bind or a connect
//! reads them. This module makes no calls of the system.

mod domain;
mod nodelay;
mod place;
mod refusal;
mod vsock;

pub use self::domain::{Domain, parse_sockaddr};
pub use self::nodelay::nodelay_from;
pub use self::place::{Place, socket_of};
pub use self::vsock::parse_vsock;
