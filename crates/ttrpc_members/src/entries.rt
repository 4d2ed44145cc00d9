//! Maps as members: their entries, each a message of a key and a value.
ghost use Rattle.std.specs.Prelude.{◌≡◌, ◌≢◌, ℕ, [], ◌+◌, ◌-◌, ◌*◌, ◌<◌, ◌≤◌, ◌^◌, ◌++◌, length, IfOk, OnOk, IfErr, min};
ghost use Rattle.std.specs.List.{AllByRecursion};
ghost use Rattle.ttrpc_wire.specs.declared.field.WireType.TheVariants.{LengthDelimited};
ghost use Rattle.ttrpc_wire.specs.Varint.{varint};
ghost use Rattle.ttrpc_wire.specs.Field.{field_bytes, fields_bytes, tag_bytes};
ghost use Rattle.ttrpc_wire.specs.Seen.{seen};
ghost use Rattle.ttrpc_wire.specs.Fold.{Gives, read_from};
ghost use Rattle.ttrpc_members.specs.Kinds.{repeated_values};
ghost use Rattle.ttrpc_members.specs.Maps.{AreEntries, entry, entry_item, rebuilt};
ghost use Rattle.ttrpc_members.specs.Schema.{fields_at};

use crate::item::ItemKind;
use crate::kind::{MemberKind, item_len, put_item};
use crate::map::Map;
use std::alloc::{AllocError, Global};
use std::collections::BTreeMap;
use std::marker::PhantomData;
use ttrpc_wire::codec::members::part_len;
use ttrpc_wire::{
    CodecError, Field, FieldNumber, Reader, Tag, Value, WireType, put_tag, put_varint,
};

const KEY: FieldNumber = FieldNumber { value: 1 };

const VALUE: FieldNumber = FieldNumber { value: 2 };

/// Reads a field of an entry. After an error the key and the value are some items.
#[tactic(auto, unfolding(crate::specs::Kinds::single_take))]
fn take_part<K: ItemKind, V: ItemKind>(
    key: &mut K::Item,
    value: &mut V::Item,
    alloc: Global,
    field: Field<'_>,
) -> Result<(), CodecError>
    ensures { Gives (λ _. (key.new, value.new)) result
        ((entry K.form V.form).step (key.old, value.old) (seen field.entry)) }
{
    match field.number.value {
        1 => {
            K::read(key, alloc, field.value)?;
        }
        2 => {
            V::read(value, alloc, field.value)?;
        }
        _ => {}
    }
    Ok(())
}

/// Reads the entry that the bytes are.
fn read_entry<K: ItemKind, V: ItemKind>(
    alloc: Global,
    bytes: &[u8],
) -> Result<(K::Item, V::Item), CodecError>
    ensures { Gives (λ e. e) result
        (read_from (entry K.form V.form).step (entry K.form V.form).empty bytes.now) }
{
    let mut key = K::first(alloc);
    let mut value = V::first(alloc);
    let mut reader = Reader::new(bytes);
    while !reader.is_empty() {
        let field = reader.field()?;
        take_part::<K, V>(&mut key, &mut value, alloc, field)?;
    }
    Ok((key, value))
}

/// Returns the length of an entry's fields; at most the greatest `u64`.
#[tactic(auto, using(crate::proofs::Groups::two_len))]
fn parts_len<K: ItemKind, V: ItemKind>(key: &K::Item, value: &V::Item) -> u64
    ensures { result ≡ min
        (length (fields_bytes ((entry K.form V.form).fields (key.now, value.now)))) (2 ^ 64 - 1) }
{
    item_len::<K>(key, KEY).saturating_add(item_len::<V>(value, VALUE))
}

/// Returns the length of the field of an entry; at most the greatest `u64`.
fn entry_len<K: ItemKind, V: ItemKind>(key: &K::Item, value: &V::Item, number: FieldNumber) -> u64
    ensures { result ≡ min (length (field_bytes
        (record { number = number.value; value = (entry_item K.form V.form).value (key.now, value.now) })))
        (2 ^ 64 - 1) }
{
    part_len(number, parts_len::<K, V>(key, value))
}

/// Writes the field of an entry.
fn put_entry<K: ItemKind, V: ItemKind>(
    key: &K::Item,
    value: &V::Item,
    number: FieldNumber,
    out: &mut Vec<u8>,
) -> Result<(), CodecError>
    ensures ok { OnOk result (out.new.items ≡ out.old.items ++ field_bytes
        (record { number = number.value; value = (entry_item K.form V.form).value (key.now, value.now) })) }
    ensures too_long { IfErr result (λ e. e ≢ CodecError.NoMemory
        → (e ≡ CodecError.TooLong) × (2 ^ 32 ≤ length (field_bytes
        (record { number = number.value; value = (entry_item K.form V.form).value (key.now, value.now) })))) }
{
    let len = parts_len::<K, V>(key, value);
    if len > u32::MAX as u64 {
        return Err(CodecError::TooLong);
    }
    put_head(number, len, out)?;
    put_parts::<K, V>(key, value, out)
}

/// Writes a tag, and a length.
fn put_head(number: FieldNumber, len: u64, out: &mut Vec<u8>) -> Result<(), AllocError>
    ensures { OnOk result
        (out.new.items ≡ out.old.items ++ (tag_bytes number.value LengthDelimited ++ varint len)) }
{
    let wire_type = WireType::LengthDelimited;
    put_tag(out, Tag { number, wire_type })?;
    put_varint(out, len)
}

/// Writes the fields of an entry.
#[tactic(auto, using(crate::proofs::Groups::two_written, crate::proofs::Groups::two_len))]
fn put_parts<K: ItemKind, V: ItemKind>(
    key: &K::Item,
    value: &V::Item,
    out: &mut Vec<u8>,
) -> Result<(), CodecError>
    ensures ok { OnOk result (out.new.items
        ≡ out.old.items ++ fields_bytes ((entry K.form V.form).fields (key.now, value.now))) }
    ensures too_long { IfErr result (λ e. e ≢ CodecError.NoMemory → (e ≡ CodecError.TooLong)
        × (2 ^ 32 ≤ length (fields_bytes ((entry K.form V.form).fields (key.now, value.now))))) }
{
    put_item::<K>(key, KEY, out)?;
    put_item::<V>(value, VALUE, out)?;
    Ok(())
}

/// A map. The last of several entries with one key wins, and entries are written by rising key.
pub struct MapOf<K, V> {
    of: PhantomData<(K, V)>,
}

impl<K: ItemKind, V: ItemKind> MemberKind for MapOf<K, V>
where
    K::Item: Ord,
{
    ghost use Rattle.ttrpc_members.specs.Maps.{entry_item, map_of};

    type Member = Map<K::Item, V::Item>;

    ghost kind = { map_of K.Item.cmp (entry_item K.form V.form) };

    fn empty(alloc: Global) -> Map<K::Item, V::Item> {
        Map::new(alloc)
    }

    #[tactic(auto, unfolding(crate::specs::Maps::map_take))]
    fn take(
        member: &mut Map<K::Item, V::Item>,
        alloc: Global,
        value: Value<'_>,
    ) -> Result<(), CodecError> {
        let Value::LengthDelimited(bytes) = value else {
            return Ok(());
        };
        let (key, value) = read_entry::<K, V>(alloc, bytes)?;
        member.insert(key, value)?;
        Ok(())
    }

    fn length(member: &Map<K::Item, V::Item>, number: FieldNumber) -> u64 {
        entries_len::<K, V>(member.as_map(), number)
    }

    fn write(
        member: &Map<K::Item, V::Item>,
        number: FieldNumber,
        out: &mut Vec<u8>,
    ) -> Result<(), CodecError> {
        put_entries::<K, V>(member.as_map(), number, out)
    }

    fn try_clone(member: &Map<K::Item, V::Item>) -> Result<Map<K::Item, V::Item>, AllocError> {
        let mut copies = Map::new(member.allocator());
        copy_entries::<K, V>(member.as_map(), &mut copies)?;
        Ok(copies)
    }

    fn lemma_is_value(member: &Map<K::Item, V::Item>) {
        lemma_are_entries::<K, V>(member.as_map());
    }
}

/// Returns the length of the entries' fields; at most the greatest `u64`.
#[tactic(auto, using(crate::proofs::MapLaws::first_measured, crate::proofs::MapLaws::none_written))]
fn entries_len<K: ItemKind, V: ItemKind>(
    entries: &BTreeMap<K::Item, V::Item>,
    number: FieldNumber,
) -> u64
where
    K::Item: Ord,
    ensures { result ≡ min (length (fields_bytes (fields_at number.value
        (repeated_values (entry_item K.form V.form) entries.now.entries)))) (2 ^ 64 - 1) }
{
    let mut len: u64 = 0;
    for (key, value) in entries {
        len = len.saturating_add(entry_len::<K, V>(key, value, number));
    }
    len
}

/// Writes the fields of the entries, by rising key.
#[tactic(auto, using(crate::proofs::MapLaws::first_written, crate::proofs::MapLaws::first_measured, crate::proofs::MapLaws::none_written))]
fn put_entries<K: ItemKind, V: ItemKind>(
    entries: &BTreeMap<K::Item, V::Item>,
    number: FieldNumber,
    out: &mut Vec<u8>,
) -> Result<(), CodecError>
where
    K::Item: Ord,
    ensures ok { OnOk result (out.new.items ≡ out.old.items ++ fields_bytes (fields_at number.value
        (repeated_values (entry_item K.form V.form) entries.now.entries))) }
    ensures too_long { IfErr result (λ e. e ≢ CodecError.NoMemory
        → (e ≡ CodecError.TooLong) × (2 ^ 32 ≤ length (fields_bytes (fields_at number.value
        (repeated_values (entry_item K.form V.form) entries.now.entries))))) }
{
    for (key, value) in entries {
        put_entry::<K, V>(key, value, number, out)?;
    }
    Ok(())
}

/// Puts copies of the entries into a map that has none.
#[tactic(auto, using(crate::proofs::MapLaws::rebuilt_on, crate::proofs::MapLaws::rebuilt_end, crate::proofs::MapLaws::sorted_rebuilt))]
fn copy_entries<K: ItemKind, V: ItemKind>(
    entries: &BTreeMap<K::Item, V::Item>,
    copies: &mut Map<K::Item, V::Item>,
) -> Result<(), AllocError>
where
    K::Item: Ord,
    requires { copies.old ≡ [] }
    ensures { OnOk result (copies.new ≡ entries.now.entries) }
{
    for (key, value) in entries {
        copies.insert(K::try_clone(key)?, V::try_clone(value)?)?;
    }
    Ok(())
}

/// A lemma, which does nothing when it runs: the entries are a map's.
#[tactic(auto, using(crate::proofs::MapLaws::sorted_rebuilt))]
fn lemma_are_entries<K: ItemKind, V: ItemKind>(entries: &BTreeMap<K::Item, V::Item>)
where
    K::Item: Ord,
    ensures { AreEntries K.Item.cmp (entry_item K.form V.form).is_value entries.now.entries }
{
    let _len = entries.len();
    for (key, value) in entries {
        K::lemma_is_value(key);
        V::lemma_is_value(value);
    }
}
