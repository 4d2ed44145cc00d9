//! Items: one value of a member.
ghost use Rattle.std.specs.Prelude.{◌≡◌, ◌≢◌, ℕ, ◌+◌, ◌-◌, ◌*◌, ◌<◌, ◌≤◌, ◌^◌, ◌++◌, length, Option, Some, None, IfOk, OnOk, IfErr, min, true, false, if◌then◌else◌};
ghost use Rattle.ttrpc_wire.specs.declared.field.WireType.{WireType};
ghost use Rattle.ttrpc_wire.specs.Field.{LengthDelimited, value_bytes, wire_type_of};
ghost use Rattle.ttrpc_wire.specs.Seen.{seen_value};
ghost use Rattle.ttrpc_wire.specs.Fold.{Gives};
ghost use Rattle.ttrpc_members.specs.Items.{Item};

use crate::coding::{self, Coding32, Coding64};
use std::alloc::{AllocError, Global};
use std::marker::PhantomData;
use ttrpc_wire::codec::members::text_from;
use ttrpc_wire::codec::message::{WireMessage, read_into};
use ttrpc_wire::{Blob, CodecError, Text, TryClone, Value, WireType, put_varint, varint_len};

/// A kind of item. The type that implements it represents the kind; the items are values of `Item`.
pub trait ItemKind {
    type Item: Drop;

    /// How items are written and read.
    ghost form: { Item Self.Item };

    /// Returns the item that an absent field means. Takes no memory.
    fn first(alloc: Global) -> Self::Item
        ensures { result ≡ form.first };

    /// Returns whether the item is the one that an absent field means.
    fn is_first(item: &Self::Item) -> bool
        ensures { result ≡ Self.form.is_first item.now };

    /// Reads a field's value into the item, and returns whether the value had the item's wire type. If it hadn't, nothing has
    /// changed. After an error the item is some item.
    fn read(item: &mut Self::Item, alloc: Global, value: Value<'_>) -> Result<bool, CodecError>
        ensures taken { Gives (λ taken. if taken then Some item.new else None) result
            (Self.form.read item.old (seen_value value.entry)) }
        ensures kept { IfOk result (λ taken. taken ≡ false → item.new ≡ item.old) };

    /// Returns the wire type of the values that are written.
    fn wire_type() -> WireType
        ensures { result ≡ form.wire_type };

    /// Returns the length of the item's value; at most the greatest `u64`.
    fn value_len(item: &Self::Item) -> u64
        ensures { result ≡ min (length (value_bytes (Self.form.value item.now))) (2 ^ 64 - 1) };

    /// Writes the item's value. The error is `TooLong` if the value is 2^32 bytes or longer. After an error a part of it may have been
    /// written.
    fn write_value(item: &Self::Item, out: &mut Vec<u8>) -> Result<(), CodecError>
        ensures ok { OnOk result
            (out.new.items ≡ out.old.items ++ value_bytes (Self.form.value item.now)) }
        ensures too_long { IfErr result (λ e. e ≢ CodecError.NoMemory → (e ≡ CodecError.TooLong)
            × (2 ^ 32 ≤ length (value_bytes (Self.form.value item.now)))) };

    /// Makes a copy.
    fn try_clone(item: &Self::Item) -> Result<Self::Item, AllocError>
        ensures { IfOk result (λ copy. copy ≡ item.now) };

    /// A lemma, which does nothing when it runs: the item is a value of its kind.
    fn lemma_is_value(item: &Self::Item)
        ensures { Self.form.is_value item.now };

    /// A value that is written has the item's wire type.
    ghost typed: { (x : Self.Item) → wire_type_of (Self.form.value x) ≡ Self.form.wire_type };
}

/// Returns the length of a length and as many bytes.
pub(crate) fn delimited_len(bytes: &[u8]) -> u64
    ensures { result ≡ min (length (value_bytes (LengthDelimited bytes.now))) (2 ^ 64 - 1) }
{
    (varint_len(bytes.len() as u64) as u64).saturating_add(bytes.len() as u64)
}

/// Writes a length and as many bytes.
pub(crate) fn put_delimited(out: &mut Vec<u8>, bytes: &[u8]) -> Result<(), AllocError>
    ensures { OnOk result
        (out.new.items ≡ out.old.items ++ value_bytes (LengthDelimited bytes.now)) }
{
    put_varint(out, bytes.len() as u64)?;
    out.extend_from_slice(bytes)
}

/// A text.
pub struct Utf8 {}

impl ItemKind for Utf8 {
    ghost use Rattle.std.specs.Prelude.{refl};
    ghost use Rattle.ttrpc_members.specs.Items.{text};

    type Item = Text;

    ghost form = { text };

    fn first(alloc: Global) -> Text {
        Text::new(alloc)
    }

    fn is_first(item: &Text) -> bool {
        item.is_empty()
    }

    fn read(item: &mut Text, alloc: Global, value: Value<'_>) -> Result<bool, CodecError> {
        let Value::LengthDelimited(bytes) = value else {
            return Ok(false);
        };
        *item = text_from(alloc, bytes)?;
        Ok(true)
    }

    fn wire_type() -> WireType {
        WireType::LengthDelimited
    }

    fn value_len(item: &Text) -> u64 {
        delimited_len(item.as_bytes())
    }

    fn write_value(item: &Text, out: &mut Vec<u8>) -> Result<(), CodecError> {
        put_delimited(out, item.as_bytes())?;
        Ok(())
    }

    fn lemma_is_value(item: &Text) {
        let _ = item.as_bytes();
    }

    fn try_clone(item: &Text) -> Result<Text, AllocError> {
        item.try_clone()
    }

    ghost typed = { λ _. refl };
}

/// Bytes.
pub struct Bytes {}

impl ItemKind for Bytes {
    ghost use Rattle.std.specs.Prelude.{refl};
    ghost use Rattle.ttrpc_members.specs.Items.{bytes};

    type Item = Blob;

    ghost form = { bytes };

    fn first(alloc: Global) -> Blob {
        Blob::new(alloc)
    }

    fn is_first(item: &Blob) -> bool {
        item.is_empty()
    }

    fn read(item: &mut Blob, alloc: Global, value: Value<'_>) -> Result<bool, CodecError> {
        let Value::LengthDelimited(bytes) = value else {
            return Ok(false);
        };
        *item = Blob::from_slice(alloc, bytes)?;
        Ok(true)
    }

    fn wire_type() -> WireType {
        WireType::LengthDelimited
    }

    fn value_len(item: &Blob) -> u64 {
        delimited_len(item.as_slice())
    }

    fn write_value(item: &Blob, out: &mut Vec<u8>) -> Result<(), CodecError> {
        put_delimited(out, item.as_slice())?;
        Ok(())
    }

    fn try_clone(item: &Blob) -> Result<Blob, AllocError> {
        item.try_clone()
    }

    fn lemma_is_value(_item: &Blob) {}

    ghost typed = { λ _. refl };
}

/// A message.
pub struct Nested<M> {
    of: PhantomData<M>,
}

impl<M: WireMessage> ItemKind for Nested<M> {
    ghost use Rattle.std.specs.Prelude.{refl};
    ghost use Rattle.ttrpc_members.specs.Items.{nested};

    type Item = M;

    ghost form = { nested M.is_value M.empty M.step M.fields };

    fn first(alloc: Global) -> M {
        M::new(alloc)
    }

    fn is_first(_item: &M) -> bool {
        false
    }

    fn read(item: &mut M, alloc: Global, value: Value<'_>) -> Result<bool, CodecError> {
        let Value::LengthDelimited(bytes) = value else {
            return Ok(false);
        };
        read_into(alloc, item, bytes)?;
        Ok(true)
    }

    fn wire_type() -> WireType {
        WireType::LengthDelimited
    }

    fn value_len(item: &M) -> u64 {
        let len = item.length();
        (varint_len(len) as u64).saturating_add(len)
    }

    fn write_value(item: &M, out: &mut Vec<u8>) -> Result<(), CodecError> {
        let len = item.length();
        if len > u32::MAX as u64 {
            return Err(CodecError::TooLong);
        }
        put_varint(out, len)?;
        item.write(out)
    }

    fn try_clone(item: &M) -> Result<M, AllocError> {
        item.try_clone()
    }

    fn lemma_is_value(item: &M) {
        item.lemma_is_value();
    }

    ghost typed = { λ _. refl };
}

/// A number that is written as a varint.
pub struct Varint<C> {
    of: PhantomData<C>,
}

impl<C: Coding64> ItemKind for Varint<C> {
    ghost use Rattle.std.specs.Prelude.{refl};
    ghost use Rattle.ttrpc_members.specs.Items.{as_varint};

    type Item = C::Value;

    ghost form = { as_varint C.coding };

    fn first(_alloc: Global) -> C::Value {
        C::decode(0)
    }

    fn is_first(item: &C::Value) -> bool {
        C::code(*item) == 0
    }

    fn read(item: &mut C::Value, _alloc: Global, value: Value<'_>) -> Result<bool, CodecError> {
        let Value::Varint(n) = value else {
            return Ok(false);
        };
        *item = C::decode(n);
        Ok(true)
    }

    fn wire_type() -> WireType {
        WireType::Varint
    }

    fn value_len(item: &C::Value) -> u64 {
        varint_len(C::code(*item)) as u64
    }

    fn write_value(item: &C::Value, out: &mut Vec<u8>) -> Result<(), CodecError> {
        put_varint(out, C::code(*item))?;
        Ok(())
    }

    fn try_clone(item: &C::Value) -> Result<C::Value, AllocError> {
        Ok(*item)
    }

    fn lemma_is_value(item: &C::Value) {
        C::lemma_is_value(item);
    }

    ghost typed = { λ _. refl };
}

/// A number that is written as eight bytes.
pub struct Fixed64<C> {
    of: PhantomData<C>,
}

impl<C: Coding64> ItemKind for Fixed64<C> {
    ghost use Rattle.std.specs.Prelude.{refl};
    ghost use Rattle.ttrpc_members.specs.Items.{as_fixed64};

    type Item = C::Value;

    ghost form = { as_fixed64 C.coding };

    fn first(_alloc: Global) -> C::Value {
        C::decode(0)
    }

    fn is_first(item: &C::Value) -> bool {
        C::code(*item) == 0
    }

    fn read(item: &mut C::Value, _alloc: Global, value: Value<'_>) -> Result<bool, CodecError> {
        let Value::Fixed64(n) = value else {
            return Ok(false);
        };
        *item = C::decode(n);
        Ok(true)
    }

    fn wire_type() -> WireType {
        WireType::Fixed64
    }

    #[tactic(auto, unfolding(ttrpc_wire::specs::Field::fixed64))]
    fn value_len(item: &C::Value) -> u64 {
        8
    }

    #[tactic(auto, unfolding(ttrpc_wire::specs::Field::fixed64))]
    fn write_value(item: &C::Value, out: &mut Vec<u8>) -> Result<(), CodecError> {
        out.extend_from_slice(&C::code(*item).to_le_bytes())?;
        Ok(())
    }

    fn try_clone(item: &C::Value) -> Result<C::Value, AllocError> {
        Ok(*item)
    }

    fn lemma_is_value(item: &C::Value) {
        C::lemma_is_value(item);
    }

    ghost typed = { λ _. refl };
}

/// A number that is written as four bytes.
pub struct Fixed32<C> {
    of: PhantomData<C>,
}

impl<C: Coding32> ItemKind for Fixed32<C> {
    ghost use Rattle.std.specs.Prelude.{refl};
    ghost use Rattle.ttrpc_members.specs.Items.{as_fixed32};

    type Item = C::Value;

    ghost form = { as_fixed32 C.coding };

    fn first(_alloc: Global) -> C::Value {
        C::decode(0)
    }

    fn is_first(item: &C::Value) -> bool {
        C::code(*item) == 0
    }

    fn read(item: &mut C::Value, _alloc: Global, value: Value<'_>) -> Result<bool, CodecError> {
        let Value::Fixed32(n) = value else {
            return Ok(false);
        };
        *item = C::decode(n);
        Ok(true)
    }

    fn wire_type() -> WireType {
        WireType::Fixed32
    }

    #[tactic(auto, unfolding(ttrpc_wire::specs::Field::fixed32))]
    fn value_len(item: &C::Value) -> u64 {
        4
    }

    #[tactic(auto, unfolding(ttrpc_wire::specs::Field::fixed32))]
    fn write_value(item: &C::Value, out: &mut Vec<u8>) -> Result<(), CodecError> {
        out.extend_from_slice(&C::code(*item).to_le_bytes())?;
        Ok(())
    }

    fn try_clone(item: &C::Value) -> Result<C::Value, AllocError> {
        Ok(*item)
    }

    fn lemma_is_value(item: &C::Value) {
        C::lemma_is_value(item);
    }

    ghost typed = { λ _. refl };
}

/// `int32`, and the number of an enum.
pub type Int32 = Varint<coding::Int32Coding>;

/// `int64`.
pub type Int64 = Varint<coding::Int64Coding>;

/// `uint32`.
pub type Uint32 = Varint<coding::Uint32Coding>;

/// `uint64`.
pub type Uint64 = Varint<coding::Uint64Coding>;

/// `sint32`.
pub type Sint32 = Varint<coding::Sint32Coding>;

/// `sint64`.
pub type Sint64 = Varint<coding::Sint64Coding>;

/// `bool`.
pub type Boolean = Varint<coding::BooleanCoding>;

/// `fixed32`, and the bits of a `float`.
pub type Bits32 = Fixed32<coding::Bits32Coding>;

/// `fixed64`, and the bits of a `double`.
pub type Bits64 = Fixed64<coding::Uint64Coding>;

/// `sfixed32`.
pub type Signed32 = Fixed32<coding::Signed32Coding>;

/// `sfixed64`.
pub type Signed64 = Fixed64<coding::Int64Coding>;
