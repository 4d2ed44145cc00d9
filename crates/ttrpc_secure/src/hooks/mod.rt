//! Hooks, which inspect a connection before it is used, and return the data that are known of it.

mod admission;
mod datum;
mod facts;
mod hook_error;
mod kinds;

ghost use Rattle.std.specs.Prelude.{◌≡◌, ◌+◌, ◌<◌, ◌≤◌, []};

pub use self::admission::{NoHook, admit};
pub use self::datum::{ConnectionData, ConnectionDataExt, Datum};
pub use self::facts::ConnectionFacts;
pub use self::hook_error::HookError;
pub use self::kinds::Kind;
use crate::{InboundTransform, OutboundTransform};
use std::alloc::Global;
use std::collections::BTreeMap;

/// A hook's result for a connection that it accepts: the data that are known of the connection, and its two halves.
#[derive(Drop)]
pub struct HookOutput<O, I> {
    pub connection_data: ConnectionData,
    pub outbound: O,
    pub inbound: I,
}

impl<O, I> HookOutput<O, I> {
    /// Returns an output with these two halves and no data about the connection. Takes no memory.
    pub fn of_halves(alloc: Global, outbound: O, inbound: I) -> HookOutput<O, I>
        ensures unknown { result.connection_data.entries ≡ [] }
        ensures outbound { result.outbound ≡ outbound }
        ensures inbound { result.inbound ≡ inbound }
    {
        HookOutput {
            connection_data: BTreeMap::new(alloc),
            outbound,
            inbound,
        }
    }
}

/// Inspects a connection that a server has accepted, before anything else is read from it. The hook borrows the stream,
/// so that it can exchange bytes with the other side first.
pub trait AcceptHook<S> {
    ghost use Rattle.std.specs.Prelude.{⊤, Result};
    ghost use Rattle.ttrpc_secure.specs.declared.hooks.hook_error.HookError.{HookError};
    ghost use Rattle.ttrpc_secure.specs.declared.hooks.HookOutput.{HookOutput};

    /// The half that seals the payloads which the connection sends.
    type Outbound: OutboundTransform + Drop;
    /// The half that opens the payloads which the connection receives.
    type Inbound: InboundTransform + Drop;

    // Holds if the hook may return this result for a stream. The default holds always.
    ghost gives: { Self → S → Result (HookOutput Self.Outbound Self.Inbound) HookError
        → Type 0 } = { λ _ _ _. ⊤ };

    /// Inspects the connection, and returns the data that are known of it and its two halves, or the reason to close
    /// it.
    fn on_accept(
        &self,
        alloc: Global,
        stream: &S,
    ) -> Result<HookOutput<Self::Outbound, Self::Inbound>, HookError>
        ensures { gives self.now stream.now result };
}

/// Inspects a connection that a client has opened, before anything else is written to it. The hook borrows the stream,
/// so that it can exchange bytes with the other side first.
pub trait ConnectHook<S> {
    ghost use Rattle.std.specs.Prelude.{⊤, Result};
    ghost use Rattle.ttrpc_secure.specs.declared.hooks.hook_error.HookError.{HookError};
    ghost use Rattle.ttrpc_secure.specs.declared.hooks.HookOutput.{HookOutput};

    /// The half that seals the payloads which the connection sends.
    type Outbound: OutboundTransform + Drop;
    /// The half that opens the payloads which the connection receives.
    type Inbound: InboundTransform + Drop;

    // Holds if the hook may return this result for a stream. The default holds always.
    ghost gives: { Self → S → Result (HookOutput Self.Outbound Self.Inbound) HookError
        → Type 0 } = { λ _ _ _. ⊤ };

    /// Inspects the connection, and returns the data that are known of it and its two halves, or the reason not to use
    /// it.
    fn on_connect(
        &self,
        alloc: Global,
        stream: &S,
    ) -> Result<HookOutput<Self::Outbound, Self::Inbound>, HookError>
        ensures { gives self.now stream.now result };
}

/// The time that a hook has for a connection which a server has accepted, in nanoseconds: 30 seconds.
pub const ACCEPT_HOOK_TIMEOUT: u64 = 30_000_000_000;

/// Returns a hook's result, or `Timeout` if the hook took 30 seconds or more. The hook started at the first moment and
/// ended at the second, both in nanoseconds.
pub fn hook_result<O: Drop, I: Drop>(
    started: u64,
    now: u64,
    hooked: Result<HookOutput<O, I>, HookError>,
) -> Result<HookOutput<O, I>, HookError>
    ensures in_time { now < started + 30000000000 → result ≡ hooked }
    ensures late { started + 30000000000 ≤ now → result ≡ Err HookError.Timeout }
{
    if now as u128 >= started as u128 + ACCEPT_HOOK_TIMEOUT as u128 {
        return Err(HookError::Timeout);
    }
    hooked
}
