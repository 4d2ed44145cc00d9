//! The messages of talks.proto.
//! Written by tools/messages from talks.proto: change that, and run the tool.

use std::alloc::{AllocError, Global};
use ttrpc_members::item::{Bytes, Uint64, Utf8};
use ttrpc_members::kind::{MemberKind, Single};
use ttrpc_members::named::Named;
use ttrpc_wire::codec::message::WireMessage;
use ttrpc_wire::{Blob, CodecError, Field, FieldNumber, Text, TryClone};

/// The message `demo.Item`.
#[derive(Drop)]
pub struct Item {
    /// Field 1.
    pub name: Text,
    /// Field 2.
    pub content: Blob,
}

const ITEM_NAME: FieldNumber = FieldNumber { value: 1 };

const ITEM_CONTENT: FieldNumber = FieldNumber { value: 2 };

impl TryClone for Item {
    fn try_clone(&self) -> Result<Item, AllocError> {
        let name = Single::<Utf8>::try_clone(&self.name)?;
        let content = Single::<Bytes>::try_clone(&self.content)?;
        Ok(Item { name, content })
    }
}

impl WireMessage for Item {
    ghost use Rattle.ttrpc_test_service.specs.Messages.{item};

    ghost is_value = { item.part.is_value };

    ghost empty = { item.part.empty };

    ghost step = { item.part.step };

    ghost fields = { item.part.fields };

    fn new(alloc: Global) -> Item {
        Item {
            name: Single::<Utf8>::empty(alloc),
            content: Single::<Bytes>::empty(alloc),
        }
    }

    fn put(&mut self, alloc: Global, field: Field<'_>) -> Result<(), CodecError> {
        match field.number.value {
            1 => Single::<Utf8>::take(&mut self.name, alloc, field.value),
            2 => Single::<Bytes>::take(&mut self.content, alloc, field.value),
            _ => Ok(()),
        }
    }

    #[tactic(auto, using(ttrpc_members::proofs::Groups::flat_measured))]
    fn length(&self) -> u64 {
        let len: u64 = 0;
        let len = len.saturating_add(Single::<Utf8>::length(&self.name, ITEM_NAME));
        len.saturating_add(Single::<Bytes>::length(&self.content, ITEM_CONTENT))
    }

    #[tactic(auto, using(ttrpc_members::proofs::Groups::flat_written, ttrpc_members::proofs::Groups::flat_len))]
    fn write(&self, out: &mut Vec<u8>) -> Result<(), CodecError> {
        Single::<Utf8>::write(&self.name, ITEM_NAME, out)?;
        Single::<Bytes>::write(&self.content, ITEM_CONTENT, out)
    }

    fn lemma_is_value(&self) {
        Single::<Utf8>::lemma_is_value(&self.name);
        Single::<Bytes>::lemma_is_value(&self.content);
    }

    ghost again = { item.laws.again item.valid };

    ghost fits = { item.laws.fits item.valid };
}

impl Named for Item {
    ghost use Rattle.std.specs.Prelude.{codes};

    ghost full_name = { codes "demo.Item" };

    fn full_name() -> &'static str {
        "demo.Item"
    }
}

/// The message `demo.Count`.
#[derive(Drop)]
pub struct Count {
    /// Field 1.
    pub count: u64,
}

const COUNT_COUNT: FieldNumber = FieldNumber { value: 1 };

impl TryClone for Count {
    fn try_clone(&self) -> Result<Count, AllocError> {
        Ok(Count { count: self.count })
    }
}

impl WireMessage for Count {
    ghost use Rattle.ttrpc_test_service.specs.Messages.{count};

    ghost is_value = { count.part.is_value };

    ghost empty = { count.part.empty };

    ghost step = { count.part.step };

    ghost fields = { count.part.fields };

    fn new(alloc: Global) -> Count {
        Count {
            count: Single::<Uint64>::empty(alloc),
        }
    }

    fn put(&mut self, alloc: Global, field: Field<'_>) -> Result<(), CodecError> {
        match field.number.value {
            1 => Single::<Uint64>::take(&mut self.count, alloc, field.value),
            _ => Ok(()),
        }
    }

    #[tactic(auto, using(ttrpc_members::proofs::Groups::flat_measured))]
    fn length(&self) -> u64 {
        let len: u64 = 0;
        len.saturating_add(Single::<Uint64>::length(&self.count, COUNT_COUNT))
    }

    #[tactic(auto, using(ttrpc_members::proofs::Groups::flat_written, ttrpc_members::proofs::Groups::flat_len))]
    fn write(&self, out: &mut Vec<u8>) -> Result<(), CodecError> {
        Single::<Uint64>::write(&self.count, COUNT_COUNT, out)
    }

    fn lemma_is_value(&self) {
        Single::<Uint64>::lemma_is_value(&self.count);
    }

    ghost again = { count.laws.again count.valid };

    ghost fits = { count.laws.fits count.valid };
}

impl Named for Count {
    ghost use Rattle.std.specs.Prelude.{codes};

    ghost full_name = { codes "demo.Count" };

    fn full_name() -> &'static str {
        "demo.Count"
    }
}
