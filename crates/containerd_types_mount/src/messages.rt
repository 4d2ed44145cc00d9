//! The messages of mount.proto.
//! Written by tools/messages --each -I ../../tools/trees/containerd/src -I ../../tools/trees/containerd/gogo from ../../tools/trees/containerd/src/github.com/containerd/containerd/api/types/mount.proto: change that, and run the tool.

use std::alloc::{AllocError, Global};
use ttrpc_members::item::Utf8;
use ttrpc_members::kind::{MemberKind, Repeated, Single};
use ttrpc_members::named::Named;
use ttrpc_members::several::{clone_four, write_four};
use ttrpc_wire::codec::message::WireMessage;
use ttrpc_wire::{CodecError, Field, FieldNumber, Sequence, Text, TryClone};

/// The message `containerd.types.Mount`.
#[derive(Drop)]
pub struct Mount {
    /// Field 1.
    pub type_: Text,
    /// Field 2.
    pub source: Text,
    /// Field 3.
    pub target: Text,
    /// Field 4.
    pub options: Sequence<Text>,
}

const MOUNT_TYPE: FieldNumber = FieldNumber { value: 1 };

const MOUNT_SOURCE: FieldNumber = FieldNumber { value: 2 };

const MOUNT_TARGET: FieldNumber = FieldNumber { value: 3 };

const MOUNT_OPTIONS: FieldNumber = FieldNumber { value: 4 };

impl TryClone for Mount {
    fn try_clone(&self) -> Result<Mount, AllocError> {
        let (type_, source, target, options) = clone_four::<
            Single<Utf8>,
            Single<Utf8>,
            Single<Utf8>,
            Repeated<Utf8>,
        >(&self.type_, &self.source, &self.target, &self.options)?;
        Ok(Mount {
            type_,
            source,
            target,
            options,
        })
    }
}

impl WireMessage for Mount {
    ghost use Rattle.containerd_types_mount.specs.Messages.{mount};

    ghost is_value = { mount.part.is_value };

    ghost empty = { mount.part.empty };

    ghost step = { mount.part.step };

    ghost fields = { mount.part.fields };

    fn new(alloc: Global) -> Mount {
        Mount {
            type_: Single::<Utf8>::empty(alloc),
            source: Single::<Utf8>::empty(alloc),
            target: Single::<Utf8>::empty(alloc),
            options: Repeated::<Utf8>::empty(alloc),
        }
    }

    fn put(&mut self, alloc: Global, field: Field<'_>) -> Result<(), CodecError> {
        match field.number.value {
            1 => Single::<Utf8>::take(&mut self.type_, alloc, field.value),
            2 => Single::<Utf8>::take(&mut self.source, alloc, field.value),
            3 => Single::<Utf8>::take(&mut self.target, alloc, field.value),
            4 => Repeated::<Utf8>::take(&mut self.options, alloc, field.value),
            _ => Ok(()),
        }
    }

    #[tactic(auto, using(ttrpc_members::proofs::Groups::flat_measured))]
    fn length(&self) -> u64 {
        let len: u64 = 0;
        let len = len.saturating_add(Single::<Utf8>::length(&self.type_, MOUNT_TYPE));
        let len = len.saturating_add(Single::<Utf8>::length(&self.source, MOUNT_SOURCE));
        let len = len.saturating_add(Single::<Utf8>::length(&self.target, MOUNT_TARGET));
        len.saturating_add(Repeated::<Utf8>::length(&self.options, MOUNT_OPTIONS))
    }

    #[tactic(auto, using(ttrpc_members::proofs::Groups::flat_written, ttrpc_members::proofs::Groups::flat_len))]
    fn write(&self, out: &mut Vec<u8>) -> Result<(), CodecError> {
        write_four::<Single<Utf8>, Single<Utf8>, Single<Utf8>, Repeated<Utf8>>(
            (&self.type_, MOUNT_TYPE),
            (&self.source, MOUNT_SOURCE),
            (&self.target, MOUNT_TARGET),
            (&self.options, MOUNT_OPTIONS),
            out,
        )
    }

    fn lemma_is_value(&self) {
        Single::<Utf8>::lemma_is_value(&self.type_);
        Single::<Utf8>::lemma_is_value(&self.source);
        Single::<Utf8>::lemma_is_value(&self.target);
        Repeated::<Utf8>::lemma_is_value(&self.options);
    }

    ghost again = { mount.laws.again mount.valid };

    ghost fits = { mount.laws.fits mount.valid };
}

impl Named for Mount {
    ghost use Rattle.std.specs.Prelude.{codes};

    ghost full_name = { codes "containerd.types.Mount" };

    fn full_name() -> &'static str {
        "containerd.types.Mount"
    }
}
