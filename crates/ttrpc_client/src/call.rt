//! The state that a client keeps of a call.
ghost use Rattle.std.specs.Prelude.{◌≡◌};
ghost use Rattle.ttrpc_client.specs.State.{is_due};
ghost use Rattle.ttrpc_client.specs.Kept.{deadline_in};

use ttrpc_proto::{Error, Response};

/// The id of a call, which is also its stream id. Ids are odd, and rise from call to call.
pub type CallId = u32;

/// The state that is kept of a call until its outcome is taken.
#[derive(Debug, Drop)]
pub enum CallState {
    /// The call waits for its response, until this deadline if there is one.
    Waiting(Option<u128>),
    /// The call's deadline has passed.
    Expired,
    /// A frame ended the call with this outcome.
    Ended(Result<Response, Error>),
}

impl CallState {
    /// Returns whether the call waits and its deadline is at or before this moment.
    pub fn is_due(&self, now: u64) -> bool
        ensures { result ≡ is_due now self.now }
    {
        matches!(self, CallState::Waiting(Some(deadline)) if *deadline <= u128::from(now))
    }
}

/// Returns the deadline of a call, if the call waits and has one.
pub fn waits_until(call: &Option<CallState>) -> Option<u128>
    ensures { result ≡ deadline_in call.now }
{
    match call {
        Some(CallState::Waiting(deadline)) => *deadline,
        None | Some(CallState::Expired | CallState::Ended(_)) => None,
    }
}
