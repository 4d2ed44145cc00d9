//! The messages of event.proto.
//! Written by tools/messages --each -I ../../tools/trees/containerd/src -I ../../tools/trees/containerd/gogo from ../../tools/trees/containerd/src/github.com/containerd/containerd/api/types/event.proto: change that, and run the tool.

use std::alloc::{AllocError, Global};
use ttrpc_members::item::{Nested, Utf8};
use ttrpc_members::kind::{MemberKind, Optional, Single};
use ttrpc_members::named::Named;
use ttrpc_members::several::{clone_four, write_four};
use ttrpc_well_known::messages::{Any, Timestamp};
use ttrpc_wire::codec::message::WireMessage;
use ttrpc_wire::{CodecError, Field, FieldNumber, Text, TryClone};

/// The message `containerd.types.Envelope`.
#[derive(Drop)]
pub struct Envelope {
    /// Field 1.
    pub timestamp: Option<Timestamp>,
    /// Field 2.
    pub namespace: Text,
    /// Field 3.
    pub topic: Text,
    /// Field 4.
    pub event: Option<Any>,
}

const ENVELOPE_TIMESTAMP: FieldNumber = FieldNumber { value: 1 };

const ENVELOPE_NAMESPACE: FieldNumber = FieldNumber { value: 2 };

const ENVELOPE_TOPIC: FieldNumber = FieldNumber { value: 3 };

const ENVELOPE_EVENT: FieldNumber = FieldNumber { value: 4 };

impl TryClone for Envelope {
    fn try_clone(&self) -> Result<Envelope, AllocError> {
        let (timestamp, namespace, topic, event) = clone_four::<
            Optional<Nested<Timestamp>>,
            Single<Utf8>,
            Single<Utf8>,
            Optional<Nested<Any>>,
        >(&self.timestamp, &self.namespace, &self.topic, &self.event)?;
        Ok(Envelope {
            timestamp,
            namespace,
            topic,
            event,
        })
    }
}

impl WireMessage for Envelope {
    ghost use Rattle.containerd_types_event.specs.Messages.{envelope};

    ghost is_value = { envelope.part.is_value };

    ghost empty = { envelope.part.empty };

    ghost step = { envelope.part.step };

    ghost fields = { envelope.part.fields };

    fn new(alloc: Global) -> Envelope {
        Envelope {
            timestamp: Optional::<Nested<Timestamp>>::empty(alloc),
            namespace: Single::<Utf8>::empty(alloc),
            topic: Single::<Utf8>::empty(alloc),
            event: Optional::<Nested<Any>>::empty(alloc),
        }
    }

    fn put(&mut self, alloc: Global, field: Field<'_>) -> Result<(), CodecError> {
        match field.number.value {
            1 => Optional::<Nested<Timestamp>>::take(&mut self.timestamp, alloc, field.value),
            2 => Single::<Utf8>::take(&mut self.namespace, alloc, field.value),
            3 => Single::<Utf8>::take(&mut self.topic, alloc, field.value),
            4 => Optional::<Nested<Any>>::take(&mut self.event, alloc, field.value),
            _ => Ok(()),
        }
    }

    #[tactic(auto, using(ttrpc_members::proofs::Groups::flat_measured))]
    fn length(&self) -> u64 {
        let len: u64 = 0;
        let len = len.saturating_add(Optional::<Nested<Timestamp>>::length(
            &self.timestamp,
            ENVELOPE_TIMESTAMP,
        ));
        let len = len.saturating_add(Single::<Utf8>::length(&self.namespace, ENVELOPE_NAMESPACE));
        let len = len.saturating_add(Single::<Utf8>::length(&self.topic, ENVELOPE_TOPIC));
        len.saturating_add(Optional::<Nested<Any>>::length(&self.event, ENVELOPE_EVENT))
    }

    #[tactic(auto, using(ttrpc_members::proofs::Groups::flat_written, ttrpc_members::proofs::Groups::flat_len))]
    fn write(&self, out: &mut Vec<u8>) -> Result<(), CodecError> {
        write_four::<
            Optional<Nested<Timestamp>>,
            Single<Utf8>,
            Single<Utf8>,
            Optional<Nested<Any>>,
        >(
            (&self.timestamp, ENVELOPE_TIMESTAMP),
            (&self.namespace, ENVELOPE_NAMESPACE),
            (&self.topic, ENVELOPE_TOPIC),
            (&self.event, ENVELOPE_EVENT),
            out,
        )
    }

    fn lemma_is_value(&self) {
        Optional::<Nested<Timestamp>>::lemma_is_value(&self.timestamp);
        Single::<Utf8>::lemma_is_value(&self.namespace);
        Single::<Utf8>::lemma_is_value(&self.topic);
        Optional::<Nested<Any>>::lemma_is_value(&self.event);
    }

    ghost again = { envelope.laws.again envelope.valid };

    ghost fits = { envelope.laws.fits envelope.valid };
}

impl Named for Envelope {
    ghost use Rattle.std.specs.Prelude.{codes};

    ghost full_name = { codes "containerd.types.Envelope" };

    fn full_name() -> &'static str {
        "containerd.types.Envelope"
    }
}
