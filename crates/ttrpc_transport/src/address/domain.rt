//! The domain of an address.
ghost use Rattle.std.specs.Prelude.{◌≡◌, ◌≢◌, ℕ, List, IfOk, IfErr};
ghost use Rattle.ttrpc_transport.specs.Address.Addresses.{IsAddress, IsRefusal, IsUnknown, unknown_text};

use crate::address::refusal::refusal;
use std::alloc::Global;
use ttrpc_proto::Result;

/// The kind of socket that an address names.
#[derive(Clone, Copy, Debug, PartialEq, Eq)]
pub enum Domain {
    Unix,
    Tcp,
    Vsock,
}

/// Returns the domain that the address names by its prefix, and the part after the prefix, as it is. An address with none of the prefixes
/// `unix://`, `tcp://` and `vsock://` is refused as `Others`: `Scheme "A" is not supported`, in which A is the address.
pub fn parse_sockaddr(alloc: Global, addr: &str) -> Result<(Domain, &str)>
    ensures ok { IfOk result (λ parsed. IsAddress addr.now parsed.0 parsed.1.now) }
    ensures err { IfErr result (λ e. IsUnknown addr.now × IsRefusal (unknown_text addr.now) e) }
{
    if let Some(part) = addr.strip_prefix("unix://") {
        return Ok((Domain::Unix, part));
    }
    if let Some(part) = addr.strip_prefix("vsock://") {
        return Ok((Domain::Vsock, part));
    }
    if let Some(part) = addr.strip_prefix("tcp://") {
        return Ok((Domain::Tcp, part));
    }
    Err(refusal(format!(in alloc; "Scheme \"{addr}\" is not supported")))
}
