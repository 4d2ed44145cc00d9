//! The state of a call that sends on a stream.
ghost use Rattle.std.specs.Prelude.{◌≡◌};
ghost use Rattle.ttrpc_polled.specs.Streams.Steps.{Asked, IsStep, is_new, place_of, stalled, ticket_of};

use std::alloc::Global;
use std::mem::replace;
use ttrpc_connection::{StreamCore, Ticket};
use ttrpc_proto::{Error, Result};
use ttrpc_wire::Blob;

/// The state of a call that sends an item, or that says there are no more. Each step makes the one core call that the state names.
#[derive(Debug, Drop)]
pub enum Sending {
    /// The item is to be sent: `send`.
    Sends(Blob),
    /// The call is to say that there are no more items: `close_send`.
    Closes,
    /// There was no room. The call waits at this place, to send this item or to say that there are no more.
    Stalls(u64, Option<Blob>),
    /// The call waits until the frame of this ticket has left the core: `sent`.
    Waits(Ticket),
    /// The call was refused before any core was asked.
    Refused(Error),
    /// The answer was returned.
    Done,
}

impl Sending {
    /// Makes the one core call. Returns `None` if there is no answer yet. A call that has returned its answer is `LocalClosed`.
    pub fn step<C: StreamCore>(
        &mut self,
        alloc: Global,
        core: &mut C,
        id: C::Id,
    ) -> Option<Result<()>>
        ensures { IsStep C.sends C.refuses C.closes C.refuses_close C.tells_sent id core.old
            self.old result self.new core.new }
    {
        match replace(self, Sending::Done) {
            Sending::Sends(item) => {
                let asked = core.send_item(alloc, id, item.as_slice());
                self.asked(asked, Sending::Sends(item))
            }
            Sending::Closes => {
                let asked = core.close_items(alloc, id);
                self.asked(asked, Sending::Closes)
            }
            Sending::Stalls(place, Some(item)) => {
                let asked = core.send_item(alloc, id, item.as_slice());
                self.asked(asked, Sending::Stalls(place, Some(item)))
            }
            Sending::Stalls(place, None) => {
                let asked = core.close_items(alloc, id);
                self.asked(asked, Sending::Stalls(place, None))
            }
            Sending::Waits(ticket) => {
                let told = core.item_sent(alloc, ticket);
                if told.is_none() {
                    *self = Sending::Waits(ticket);
                }
                told
            }
            Sending::Refused(error) => Some(Err(error)),
            Sending::Done => Some(Err(Error::LocalClosed)),
        }
    }

    /// Sets the state after the call's frame was asked for. The call waits for the frame's ticket, stays as it was if there was no room, or
    /// is over.
    fn asked(&mut self, asked: Result<Ticket>, call: Sending) -> Option<Result<()>>
        requires { self.old ≡ Sending.Done }
        ensures { Asked asked call result self.new }
    {
        match asked {
            Ok(ticket) => {
                *self = Sending::Waits(ticket);
                None
            }
            Err(Error::NoRoom) => {
                *self = call;
                None
            }
            Err(refusal) => Some(Err(refusal)),
        }
    }

    /// Sets the place at which the call waits for room, if its frame is still to be asked for.
    pub(crate) fn stall(&mut self, place: u64)
        ensures { self.new ≡ stalled place self.old }
    {
        match replace(self, Sending::Done) {
            Sending::Sends(item) => *self = Sending::Stalls(place, Some(item)),
            Sending::Closes => *self = Sending::Stalls(place, None),
            Sending::Stalls(_, item) => *self = Sending::Stalls(place, item),
            other => *self = other,
        }
    }

    /// Returns the place at which the call waits for room.
    pub(crate) fn place(&self) -> Option<u64>
        ensures { result ≡ place_of self.now }
    {
        match self {
            Sending::Stalls(place, _) => Some(*place),
            _ => None,
        }
    }

    /// Returns the ticket for which the call waits.
    pub fn ticket(&self) -> Option<Ticket>
        ensures { result ≡ ticket_of self.now }
    {
        match self {
            Sending::Waits(ticket) => Some(*ticket),
            _ => None,
        }
    }

    /// Returns whether the call's frame is still to be asked for.
    pub fn is_new(&self) -> bool
        ensures { result ≡ is_new self.now }
    {
        match self {
            Sending::Sends(_) | Sending::Closes | Sending::Stalls(_, _) => true,
            Sending::Waits(_) | Sending::Refused(_) | Sending::Done => false,
        }
    }
}
