//! Kinds of members: how many items a member has, and which of them are written.
ghost use Rattle.std.specs.Prelude.{◌≡◌, ◌≢◌, ℕ, ◌+◌, ◌-◌, ◌*◌, ◌<◌, ◌≤◌, ◌^◌, ◌++◌, length, Option, Some, None, IfOk, OnOk, IfErr, min, true, false, if◌then◌else◌};
ghost use Rattle.ttrpc_wire.specs.Field.{LengthDelimited, field_bytes, fields_bytes};
ghost use Rattle.ttrpc_wire.specs.Seen.{seen_value};
ghost use Rattle.ttrpc_wire.specs.Fold.{Gives};
ghost use Rattle.ttrpc_members.specs.Kinds.{Kind, repeated_take, repeated_values, packed_from, packed_bytes};
ghost use Rattle.std.specs.List.{AllByRecursion};
ghost use Rattle.ttrpc_members.specs.Schema.{fields_at};

use crate::item::ItemKind;
use std::alloc::{AllocError, Global};
use std::marker::PhantomData;
use ttrpc_wire::codec::members::part_len;
use ttrpc_wire::{
    CodecError, FieldNumber, Reader, Sequence, Tag, TryClone, Value, WireType, put_tag, put_varint,
    tag_len,
};

/// A kind of member. The type that implements it represents the kind; the members are values of `Member`.
pub trait MemberKind {
    type Member: Drop;

    /// How a member is written and read.
    ghost kind: { Kind Self.Member };

    /// Returns the member before any field. Takes no memory.
    fn empty(alloc: Global) -> Self::Member
        ensures { result ≡ kind.empty };

    /// Reads the value of one of the member's fields. After an error the member is some member.
    fn take(member: &mut Self::Member, alloc: Global, value: Value<'_>) -> Result<(), CodecError>
        ensures { Gives (λ _. member.new) result (kind.take member.old (seen_value value.entry)) };

    /// Returns the length of the member's fields; at most the greatest `u64`.
    fn length(member: &Self::Member, number: FieldNumber) -> u64
        ensures { result
            ≡ min (length (fields_bytes (fields_at number.value (kind.values member.now))))
            (2 ^ 64 - 1) };

    /// Writes the member's fields. The error is `TooLong` if they are 2^32 bytes or longer. After an error some of them may have been
    /// written.
    fn write(
        member: &Self::Member,
        number: FieldNumber,
        out: &mut Vec<u8>,
    ) -> Result<(), CodecError>
        ensures ok { OnOk result (out.new.items
            ≡ out.old.items ++ fields_bytes (fields_at number.value (kind.values member.now))) }
        ensures too_long { IfErr result (λ e. e ≢ CodecError.NoMemory → (e ≡ CodecError.TooLong)
            × (2 ^ 32 ≤ length (fields_bytes (fields_at number.value (kind.values member.now))))) };

    /// Makes a copy.
    fn try_clone(member: &Self::Member) -> Result<Self::Member, AllocError>
        ensures { IfOk result (λ copy. copy ≡ member.now) };

    /// A lemma, which does nothing when it runs: the member is a value of its kind.
    fn lemma_is_value(member: &Self::Member)
        ensures { kind.is_value member.now };
}

/// Returns the length of the field of an item; at most the greatest `u64`.
pub fn item_len<I: ItemKind>(item: &I::Item, number: FieldNumber) -> u64
    ensures { result ≡ min (length (field_bytes
        (record { number = number.value; value = I.form.value item.now }))) (2 ^ 64 - 1) }
{
    let wire_type = I::wire_type();
    (tag_len(Tag { number, wire_type }) as u64).saturating_add(I::value_len(item))
}

/// Writes the field of an item.
pub fn put_item<I: ItemKind>(
    item: &I::Item,
    number: FieldNumber,
    out: &mut Vec<u8>,
) -> Result<(), CodecError>
    ensures ok { OnOk result (out.new.items ≡ out.old.items
        ++ field_bytes (record { number = number.value; value = I.form.value item.now })) }
    ensures too_long { IfErr result (λ e. e ≢ CodecError.NoMemory
        → (e ≡ CodecError.TooLong) × (2 ^ 32
        ≤ length (field_bytes (record { number = number.value; value = I.form.value item.now })))) }
{
    let wire_type = I::wire_type();
    put_tag(out, Tag { number, wire_type })?;
    I::write_value(item, out)
}

/// One item. The last value wins, and the item that an absent field means is not written.
pub struct Single<I> {
    of: PhantomData<I>,
}

impl<I: ItemKind> MemberKind for Single<I> {
    ghost use Rattle.ttrpc_members.specs.Kinds.{single};

    type Member = I::Item;

    ghost kind = { single I.form };

    fn empty(alloc: Global) -> I::Item {
        I::first(alloc)
    }

    #[tactic(auto, unfolding(crate::specs::Kinds::single_take))]
    fn take(member: &mut I::Item, alloc: Global, value: Value<'_>) -> Result<(), CodecError> {
        I::read(member, alloc, value)?;
        Ok(())
    }

    #[tactic(auto, unfolding(crate::specs::Kinds::single_values))]
    fn length(member: &I::Item, number: FieldNumber) -> u64 {
        if I::is_first(member) {
            return 0;
        }
        item_len::<I>(member, number)
    }

    #[tactic(auto, unfolding(crate::specs::Kinds::single_values))]
    fn write(member: &I::Item, number: FieldNumber, out: &mut Vec<u8>) -> Result<(), CodecError> {
        if I::is_first(member) {
            return Ok(());
        }
        put_item::<I>(member, number, out)
    }

    fn try_clone(member: &I::Item) -> Result<I::Item, AllocError> {
        I::try_clone(member)
    }

    fn lemma_is_value(member: &I::Item) {
        I::lemma_is_value(member);
    }
}

/// One item that may be absent. It is written even if it is the item that an absent field means.
pub struct Optional<I> {
    of: PhantomData<I>,
}

impl<I: ItemKind> MemberKind for Optional<I> {
    ghost use Rattle.ttrpc_members.specs.Kinds.{optional};

    type Member = Option<I::Item>;

    ghost kind = { optional I.form };

    fn empty(_alloc: Global) -> Option<I::Item> {
        None
    }

    #[tactic(auto, unfolding(crate::specs::Kinds::optional_take))]
    fn take(
        member: &mut Option<I::Item>,
        alloc: Global,
        value: Value<'_>,
    ) -> Result<(), CodecError> {
        if let Some(item) = member {
            I::read(item, alloc, value)?;
            return Ok(());
        }
        let mut item = I::first(alloc);
        if I::read(&mut item, alloc, value)? {
            *member = Some(item);
        }
        Ok(())
    }

    #[tactic(auto, unfolding(crate::specs::Kinds::optional_values))]
    fn length(member: &Option<I::Item>, number: FieldNumber) -> u64 {
        match member {
            None => 0,
            Some(item) => item_len::<I>(item, number),
        }
    }

    #[tactic(auto, unfolding(crate::specs::Kinds::optional_values))]
    fn write(
        member: &Option<I::Item>,
        number: FieldNumber,
        out: &mut Vec<u8>,
    ) -> Result<(), CodecError> {
        match member {
            None => Ok(()),
            Some(item) => put_item::<I>(item, number, out),
        }
    }

    fn try_clone(member: &Option<I::Item>) -> Result<Option<I::Item>, AllocError> {
        match member {
            None => Ok(None),
            Some(item) => Ok(Some(I::try_clone(item)?)),
        }
    }

    fn lemma_is_value(member: &Option<I::Item>) {
        if let Some(item) = member {
            I::lemma_is_value(item);
        }
    }
}

/// Items of a list, one by one.
pub struct Repeated<I> {
    of: PhantomData<I>,
}

impl<I: ItemKind> MemberKind for Repeated<I>
where
    I::Item: TryClone,
{
    ghost use Rattle.ttrpc_members.specs.Kinds.{repeated};

    type Member = Sequence<I::Item>;

    ghost kind = { repeated I.form };

    fn empty(alloc: Global) -> Sequence<I::Item> {
        Sequence::new(alloc)
    }

    fn take(
        member: &mut Sequence<I::Item>,
        alloc: Global,
        value: Value<'_>,
    ) -> Result<(), CodecError> {
        take_one::<I>(member, alloc, value)
    }

    fn length(member: &Sequence<I::Item>, number: FieldNumber) -> u64 {
        items_len::<I>(member.as_slice(), number)
    }

    fn write(
        member: &Sequence<I::Item>,
        number: FieldNumber,
        out: &mut Vec<u8>,
    ) -> Result<(), CodecError> {
        put_items::<I>(member.as_slice(), number, out)
    }

    fn try_clone(member: &Sequence<I::Item>) -> Result<Sequence<I::Item>, AllocError> {
        member.try_clone()
    }

    fn lemma_is_value(member: &Sequence<I::Item>) {
        lemma_are_values::<I>(member.as_slice());
    }
}

/// Adds one more item, if the value is one.
#[tactic(auto, unfolding(crate::specs::Kinds::repeated_take))]
fn take_one<I: ItemKind>(
    member: &mut Sequence<I::Item>,
    alloc: Global,
    value: Value<'_>,
) -> Result<(), CodecError>
    ensures { Gives (λ _. member.new) result
        (repeated_take I.form member.old (seen_value value.entry)) }
{
    let mut item = I::first(alloc);
    if I::read(&mut item, alloc, value)? {
        member.push(item)?;
    }
    Ok(())
}

/// Returns the length of the items' fields; at most the greatest `u64`.
#[tactic(auto, using(crate::proofs::Lists::one_more_field), unfolding(crate::specs::Kinds::repeated_values))]
fn items_len<I: ItemKind>(items: &[I::Item], number: FieldNumber) -> u64
    ensures { result
        ≡ min (length (fields_bytes (fields_at number.value (repeated_values I.form items.now))))
        (2 ^ 64 - 1) }
{
    let mut len: u64 = 0;
    for item in items {
        len = len.saturating_add(item_len::<I>(item, number));
    }
    len
}

/// Writes the fields of the items, in order.
#[tactic(auto, using(crate::proofs::Lists::one_more_field, crate::proofs::Lists::field_shorter), unfolding(crate::specs::Kinds::repeated_values))]
fn put_items<I: ItemKind>(
    items: &[I::Item],
    number: FieldNumber,
    out: &mut Vec<u8>,
) -> Result<(), CodecError>
    ensures ok { OnOk result (out.new.items ≡ out.old.items
        ++ fields_bytes (fields_at number.value (repeated_values I.form items.now))) }
    ensures too_long { IfErr result (λ e. e ≢ CodecError.NoMemory
        → (e ≡ CodecError.TooLong) × (2 ^ 32
        ≤ length (fields_bytes (fields_at number.value (repeated_values I.form items.now))))) }
{
    for item in items {
        put_item::<I>(item, number, out)?;
    }
    Ok(())
}

/// A lemma, which does nothing when it runs: each item is a value of its kind.
fn lemma_are_values<I: ItemKind>(items: &[I::Item])
    ensures { AllByRecursion I.form.is_value items.now }
{
    for item in items {
        I::lemma_is_value(item);
    }
}

/// Numbers of a list, in one value. Numbers that come one by one are read, too.
pub struct Packed<I> {
    of: PhantomData<I>,
}

impl<I: ItemKind> MemberKind for Packed<I>
where
    I::Item: Copy + TryClone,
{
    ghost use Rattle.ttrpc_members.specs.Kinds.{packed};

    type Member = Sequence<I::Item>;

    ghost kind = { packed I.form };

    fn empty(alloc: Global) -> Sequence<I::Item> {
        Sequence::new(alloc)
    }

    #[tactic(auto, unfolding(crate::specs::Kinds::packed_take))]
    fn take(
        member: &mut Sequence<I::Item>,
        alloc: Global,
        value: Value<'_>,
    ) -> Result<(), CodecError> {
        match value {
            Value::LengthDelimited(bytes) => take_packed::<I>(member, alloc, bytes),
            _ => take_number::<I>(member, alloc, value),
        }
    }

    #[tactic(auto, unfolding(crate::specs::Kinds::packed_values))]
    fn length(member: &Sequence<I::Item>, number: FieldNumber) -> u64 {
        if member.is_empty() {
            return 0;
        }
        part_len(number, packed_len::<I>(member.as_slice()))
    }

    #[tactic(auto, unfolding(crate::specs::Kinds::packed_values))]
    fn write(
        member: &Sequence<I::Item>,
        number: FieldNumber,
        out: &mut Vec<u8>,
    ) -> Result<(), CodecError> {
        if member.is_empty() {
            return Ok(());
        }
        put_packed::<I>(member.as_slice(), number, out)
    }

    fn try_clone(member: &Sequence<I::Item>) -> Result<Sequence<I::Item>, AllocError> {
        member.try_clone()
    }

    fn lemma_is_value(member: &Sequence<I::Item>) {
        lemma_are_values::<I>(member.as_slice());
    }
}

/// Adds one more number, if the value is one.
#[tactic(auto, unfolding(crate::specs::Kinds::repeated_take))]
fn take_number<I: ItemKind>(
    member: &mut Sequence<I::Item>,
    alloc: Global,
    value: Value<'_>,
) -> Result<(), CodecError>
    ensures { Gives (λ _. member.new) result
        (repeated_take I.form member.old (seen_value value.entry)) }
{
    let mut item = I::first(alloc);
    if I::read(&mut item, alloc, value)? {
        member.push(item)?;
    }
    Ok(())
}

/// Adds the numbers that the bytes are, one after the other.
fn take_packed<I: ItemKind>(
    member: &mut Sequence<I::Item>,
    alloc: Global,
    bytes: &[u8],
) -> Result<(), CodecError>
    ensures { Gives (λ _. member.new) result (packed_from I.form member.old bytes.now) }
{
    let mut reader = Reader::new(bytes);
    while !reader.is_empty() {
        let value = reader.value(I::wire_type())?;
        take_number::<I>(member, alloc, value)?;
    }
    Ok(())
}

/// Returns the length of the numbers, one after the other; at most the greatest `u64`.
#[tactic(auto, using(crate::proofs::PackedLaws::one_more_packed), unfolding(crate::specs::Kinds::packed_bytes))]
fn packed_len<I: ItemKind>(items: &[I::Item]) -> u64
    ensures { result ≡ min (length (packed_bytes I.form items.now)) (2 ^ 64 - 1) }
{
    let mut len: u64 = 0;
    for item in items {
        len = len.saturating_add(I::value_len(item));
    }
    len
}

/// Writes the field of the numbers.
fn put_packed<I: ItemKind>(
    items: &[I::Item],
    number: FieldNumber,
    out: &mut Vec<u8>,
) -> Result<(), CodecError>
    ensures ok { OnOk result (out.new.items ≡ out.old.items ++ field_bytes
        (record { number = number.value; value = LengthDelimited (packed_bytes I.form items.now) })) }
    ensures too_long { IfErr result (λ e. e ≢ CodecError.NoMemory
        → (e ≡ CodecError.TooLong) × (2 ^ 32 ≤ length (packed_bytes I.form items.now))) }
{
    let len = packed_len::<I>(items);
    if len > u32::MAX as u64 {
        return Err(CodecError::TooLong);
    }
    let wire_type = WireType::LengthDelimited;
    put_tag(out, Tag { number, wire_type })?;
    put_varint(out, len)?;
    put_numbers::<I>(items, out)
}

/// Writes the numbers, one after the other.
#[tactic(auto, using(crate::proofs::PackedLaws::one_more_packed, crate::proofs::PackedLaws::number_shorter), unfolding(crate::specs::Kinds::packed_bytes))]
fn put_numbers<I: ItemKind>(items: &[I::Item], out: &mut Vec<u8>) -> Result<(), CodecError>
    ensures ok { OnOk result (out.new.items ≡ out.old.items ++ packed_bytes I.form items.now) }
    ensures too_long { IfErr result (λ e. e ≢ CodecError.NoMemory
        → (e ≡ CodecError.TooLong) × (2 ^ 32 ≤ length (packed_bytes I.form items.now))) }
{
    for item in items {
        I::write_value(item, out)?;
    }
    Ok(())
}
