//! The trait that a connection needs of the core that uses it.
ghost use Rattle.std.specs.Prelude.{◌≡◌, ◌≤◌, ◌⊎◌, ℕ, Bool, List, IfErr, OnOk, OnErr};
ghost use Rattle.ttrpc_proto.specs.Framing.Queue.{free};
ghost use Rattle.ttrpc_connection.specs.declared.arrived.Arrived.{Arrived as AFrame};
ghost use Rattle.ttrpc_connection.specs.declared.failure.Failure.{Failure as AFailure};
ghost use Rattle.ttrpc_connection.specs.Frames.{Sent, SendsAll};

use crate::arrived::Arrived;
use crate::failure::Failure;
use crate::outbox::Outbox;
use std::alloc::Global;
use ttrpc_secure::OutboundTransform;

/// A core's state, without its connection, which acts on whole frames.
pub trait Reacts<O: OutboundTransform> {
    // The effect of a frame on the state, and the frames that are sent then. The half that seals is an argument for its limit.
    ghost reacts: { Self → O → AFrame → List Sent → Self → Type 0 };

    // The failures with which the connection may have to fail at a frame, besides `NoMemory`.
    ghost fails: { Self → AFrame → AFailure → Type 0 };

    // Returns whether the core still takes input.
    ghost takes: { Self → Bool };

    /// The number of bytes that must be free in the queue before a frame acts.
    const ROOM: usize;

    ghost ROOM: { ℕ };

    /// Returns whether the core still takes input. Takes no memory.
    fn takes(&self) -> bool
        ensures { result ≡ takes self.now };

    /// Acts on a whole frame. An `Err` is the reason why the connection is to fail, and changes nothing.
    fn react(
        &mut self,
        alloc: Global,
        outbox: &mut Outbox<O>,
        arrived: Arrived,
    ) -> Result<(), Failure>
        // The queue has the room that a frame needs to act.
        requires { ROOM ≤ free outbox.old.queue }
        // At an `Ok` the frame has acted, and the frames that it causes are sent.
        ensures ok { OnOk result
            ((sent : List Sent) × reacts self.old outbox.old.half arrived sent self.new
            × SendsAll O.OutboundTransform outbox.old sent outbox.new) }
        // The core takes input after the frame exactly if it did before.
        ensures kept { takes self.new ≡ takes self.old }
        // An error is `NoMemory` or a failure that this frame may cause, and changes nothing.
        ensures fails { IfErr result
            (λ failure. (failure ≡ Failure.NoMemory) ⊎ fails self.old arrived failure) }
        ensures err { OnErr result ((self.new ≡ self.old) × (outbox.new ≡ outbox.old)) };
}
