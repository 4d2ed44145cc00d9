//! The part of a vsock address.
ghost use Rattle.std.specs.Prelude.{◌≡◌, ℕ, List, Option, IfOk, IfErr, MatchOption};
ghost use Rattle.std.specs.Str.Parse.{ParsesUnsigned};
ghost use Rattle.ttrpc_transport.specs.Address.Addresses.{IsRefusal};
ghost use Rattle.ttrpc_transport.specs.Address.Vsock.{IsCidText, IsNumberText, IsTwoParts, IsVsockText, IsNotVsock};

use crate::address::refusal::refusal;
use std::alloc::Global;
use ttrpc_proto::Result;

/// The cid that means any cid.
const ANY_CID: u32 = u32::MAX;

/// Returns the cid and the port of the part `CID:PORT` of a vsock address. The cid `-1`, which may have white space around it, is
/// 4294967295, which means any cid. Anything else is refused as `Others`, and the cid is read first.
pub fn parse_vsock(alloc: Global, addr: &str) -> Result<(u32, u32)>
    ensures ok { IfOk result (λ parsed. IsVsockText addr.now parsed.0 parsed.1) }
    ensures err { IfErr result
        (λ e. (text : List ℕ) × IsNotVsock addr.now text × IsRefusal text e) }
{
    let Some((cid_text, port_text)) = two_parts(addr) else {
        return Err(refusal(format!(in alloc; "sockaddr {addr} is not right for vsock")));
    };
    let Some(cid) = cid_of(cid_text) else {
        return Err(refusal(format!(in alloc; "failed to parse cid from \"{cid_text}\"")));
    };
    let Some(port) = number_of(port_text) else {
        return Err(refusal(format!(in alloc; "failed to parse port from \"{port_text}\"")));
    };
    Ok((cid, port))
}

// Returns the texts before and after the colon; `None` unless there is exactly one colon.
fn two_parts(text: &str) -> Option<(&str, &str)>
    ensures { MatchOption result ((first second : List ℕ) → ¬ (IsTwoParts text.now first second))
        (λ parts. IsTwoParts text.now parts.0.now parts.1.now) }
{
    let (first, second) = text.split_once(':')?;
    if second.contains(':') {
        return None;
    }
    Some((first, second))
}

fn cid_of(text: &str) -> Option<u32>
    ensures { MatchOption result ((cid : ℕ) → ¬ (IsCidText text.now cid)) (IsCidText text.now) }
{
    if text.trim() == "-1" {
        return Some(ANY_CID);
    }
    number_of(text)
}

fn number_of(text: &str) -> Option<u32>
    ensures { MatchOption result ((n : ℕ) → ¬ (IsNumberText text.now n)) (IsNumberText text.now) }
{
    text.parse::<u32>().ok()
}
