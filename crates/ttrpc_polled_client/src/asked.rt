//! The state of a call, between its steps.
ghost use Rattle.std.specs.Prelude.{◌≡◌};
ghost use Rattle.ttrpc_polled_client.specs.Steps.{IsAsked, IsStep, expiry_of, id_of, is_new, place_of, stalled};

use std::alloc::Global;
use std::mem::replace;
use ttrpc_client::{CallId, ClientCore};
use ttrpc_connection::deadlines::deadline_of;
use ttrpc_proto::{Error, Request, Response, Result};
use ttrpc_secure::{InboundTransform, OutboundTransform};

/// The state of a call. Each step makes the one core call that the state names.
#[derive(Debug, Drop)]
pub enum Asked {
    /// The call is to be made, as of this moment in nanoseconds: `request`.
    Asks(Request, u64),
    /// There was no room. The call waits at this place, to be made as of this moment in nanoseconds.
    Stalls(u64, Request, u64),
    /// The call waits for its outcome: `take_outcome`.
    Waits(CallId),
    /// The call was refused before any core was asked.
    Refused(Error),
    /// The outcome was returned.
    Done,
}

impl Asked {
    /// Makes the one core call. Returns `None` if there is no outcome yet. A call that has returned its outcome is `LocalClosed`.
    pub fn step<O: OutboundTransform + Drop, I: InboundTransform + Drop>(
        &mut self,
        alloc: Global,
        core: &mut ClientCore<O, I>,
    ) -> Option<Result<Response>>
        ensures { IsStep O.OutboundTransform core.old self.old result self.new core.new }
    {
        match self {
            Asked::Asks(request, now) => {
                let asked = core.request(alloc, request, *now);
                self.asked(asked)
            }
            Asked::Stalls(_place, request, now) => {
                let asked = core.request(alloc, request, *now);
                self.asked(asked)
            }
            Asked::Waits(id) => {
                let outcome = core.take_outcome(alloc, *id);
                if outcome.is_some() {
                    *self = Asked::Done;
                }
                outcome
            }
            Asked::Refused(_) | Asked::Done => match replace(self, Asked::Done) {
                Asked::Refused(error) => Some(Err(error)),
                _ => Some(Err(Error::LocalClosed)),
            },
        }
    }

    /// Sets the state after the call was to be made: it waits under its id, stays as it was if there was no room, or is over.
    fn asked(&mut self, asked: Result<CallId>) -> Option<Result<Response>>
        ensures { IsAsked asked self.old result self.new }
    {
        match asked {
            Ok(id) => {
                *self = Asked::Waits(id);
                None
            }
            Err(Error::NoRoom) => None,
            Err(refusal) => {
                *self = Asked::Done;
                Some(Err(refusal))
            }
        }
    }

    /// Sets the place at which the call waits for room, if it is still to be made.
    pub(crate) fn stall(&mut self, place: u64)
        ensures { self.new ≡ stalled place self.old }
    {
        match replace(self, Asked::Done) {
            Asked::Asks(request, now) => *self = Asked::Stalls(place, request, now),
            Asked::Stalls(_, request, now) => *self = Asked::Stalls(place, request, now),
            other => *self = other,
        }
    }

    /// Returns the place at which the call waits for room.
    pub(crate) fn place(&self) -> Option<u64>
        ensures { result ≡ place_of self.now }
    {
        match self {
            Asked::Stalls(place, _, _) => Some(*place),
            _ => None,
        }
    }

    /// Returns the moment at which the call expires, in nanoseconds, if the call is still to be made and the moment is one of the clock.
    pub(crate) fn expiry(&self) -> Option<u64>
        ensures { result ≡ expiry_of self.now }
    {
        match self {
            Asked::Asks(request, now) | Asked::Stalls(_, request, now) => {
                let at = deadline_of(*now, request.timeout_nano)?;
                u64::try_from(at).ok()
            }
            _ => None,
        }
    }

    /// Returns the id under which the call waits.
    pub fn id(&self) -> Option<CallId>
        ensures { result ≡ id_of self.now }
    {
        match self {
            Asked::Waits(id) => Some(*id),
            _ => None,
        }
    }

    /// Returns whether the call is still to be made.
    pub fn is_new(&self) -> bool
        ensures { result ≡ is_new self.now }
    {
        match self {
            Asked::Asks(_, _) | Asked::Stalls(_, _, _) => true,
            Asked::Waits(_) | Asked::Refused(_) | Asked::Done => false,
        }
    }
}
