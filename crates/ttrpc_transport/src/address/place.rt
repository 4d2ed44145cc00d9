//! The place at which a socket is bound or connected.
ghost use Rattle.std.specs.Prelude.{IfOk, IfErr};
ghost use Rattle.std.specs.Net.Grammar.{IsSocketText};
ghost use Rattle.ttrpc_transport.specs.Address.Places.{IsPlace, IsNoPlace, IsNoSocketAddr};

use crate::address::domain::{Domain, parse_sockaddr};
use crate::address::refusal::refusal;
use std::alloc::Global;
use std::net::SocketAddr;
use ttrpc_proto::Result;
use ttrpc_proto::error::causes::others_of;

/// The place at which a socket is bound or connected.
#[derive(Clone, Copy, Debug, PartialEq)]
pub enum Place<'a> {
    /// An IP address and a port.
    Tcp(SocketAddr),
    /// A path.
    Unix(&'a str),
}

/// Returns the place that the address names. These addresses are refused as `Others`: one that `parse_sockaddr` refuses, one of vsock, an
/// abstract Unix name, and a part of TCP that std doesn't read as a `SocketAddr`, such as a host's name. A Unix name is abstract if it
/// begins with `@`, or if it is empty, since the system picks an abstract name then.
pub fn socket_of(alloc: Global, addr: &str) -> Result<Place<'_>>
    ensures ok { IfOk result (IsPlace addr.now) }
    ensures err { IfErr result (IsNoPlace addr.now) }
{
    let (domain, part) = parse_sockaddr(alloc, addr)?;
    match domain {
        Domain::Tcp => Ok(Place::Tcp(socket_addr_of(alloc, part)?)),
        Domain::Unix if part.is_empty() || part.starts_with('@') => Err(refusal(String::from_str(
            alloc,
            "abstract unix names are not supported",
        ))),
        Domain::Unix => Ok(Place::Unix(part)),
        Domain::Vsock => Err(refusal(String::from_str(alloc, "vsock is not supported"))),
    }
}

// Returns the IP address and port that the part of a TCP address names.
fn socket_addr_of(alloc: Global, part: &str) -> Result<SocketAddr>
    ensures ok { IfOk result (IsSocketText part.now) }
    ensures err { IfErr result (IsNoSocketAddr part.now) }
{
    match part.parse::<SocketAddr>() {
        Ok(address) => Ok(address),
        Err(error) => {
            // Nothing is known of the text that the error prints, so it is printed by itself, after the known text.
            let prefix = format!(in alloc; "Failed to parse TCP address '{part}': ")?;
            Err(others_of(alloc, prefix.as_str(), &error))
        }
    }
}
