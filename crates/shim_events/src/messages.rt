//! The messages of events.proto.
//! Written by tools/messages --each -I ../../tools/trees/containerd/src -I ../../tools/trees/containerd/gogo from ../../tools/trees/containerd/src/github.com/containerd/containerd/api/services/ttrpc/events/v1/events.proto: change that, and run the tool.

use containerd_types_event::messages::Envelope;
use std::alloc::{AllocError, Global};
use ttrpc_members::item::Nested;
use ttrpc_members::kind::{MemberKind, Optional};
use ttrpc_members::named::Named;
use ttrpc_wire::codec::message::WireMessage;
use ttrpc_wire::{CodecError, Field, FieldNumber, TryClone};

/// The message `containerd.services.events.ttrpc.v1.ForwardRequest`.
#[derive(Drop)]
pub struct ForwardRequest {
    /// Field 1.
    pub envelope: Option<Envelope>,
}

const FORWARD_REQUEST_ENVELOPE: FieldNumber = FieldNumber { value: 1 };

impl TryClone for ForwardRequest {
    fn try_clone(&self) -> Result<ForwardRequest, AllocError> {
        let envelope = Optional::<Nested<Envelope>>::try_clone(&self.envelope)?;
        Ok(ForwardRequest { envelope })
    }
}

impl WireMessage for ForwardRequest {
    ghost use Rattle.shim_events.specs.Messages.{forward_request};

    ghost is_value = { forward_request.part.is_value };

    ghost empty = { forward_request.part.empty };

    ghost step = { forward_request.part.step };

    ghost fields = { forward_request.part.fields };

    fn new(alloc: Global) -> ForwardRequest {
        ForwardRequest {
            envelope: Optional::<Nested<Envelope>>::empty(alloc),
        }
    }

    fn put(&mut self, alloc: Global, field: Field<'_>) -> Result<(), CodecError> {
        match field.number.value {
            1 => Optional::<Nested<Envelope>>::take(&mut self.envelope, alloc, field.value),
            _ => Ok(()),
        }
    }

    #[tactic(auto, using(ttrpc_members::proofs::Groups::flat_measured))]
    fn length(&self) -> u64 {
        let len: u64 = 0;
        len.saturating_add(Optional::<Nested<Envelope>>::length(
            &self.envelope,
            FORWARD_REQUEST_ENVELOPE,
        ))
    }

    #[tactic(auto, using(ttrpc_members::proofs::Groups::flat_written, ttrpc_members::proofs::Groups::flat_len))]
    fn write(&self, out: &mut Vec<u8>) -> Result<(), CodecError> {
        Optional::<Nested<Envelope>>::write(&self.envelope, FORWARD_REQUEST_ENVELOPE, out)
    }

    fn lemma_is_value(&self) {
        Optional::<Nested<Envelope>>::lemma_is_value(&self.envelope);
    }

    ghost again = { forward_request.laws.again forward_request.valid };

    ghost fits = { forward_request.laws.fits forward_request.valid };
}

impl Named for ForwardRequest {
    ghost use Rattle.std.specs.Prelude.{codes};

    ghost full_name = { codes "containerd.services.events.ttrpc.v1.ForwardRequest" };

    fn full_name() -> &'static str {
        "containerd.services.events.ttrpc.v1.ForwardRequest"
    }
}
