//! Writing at the end of a vector, and measuring the written form.
//!
//! Each call appends all of its bytes or none. A call is refused memory only if the vector had no room for the bytes.
ghost use Rattle.std.specs.Prelude.{◌≡◌, ◌+◌, ◌*◌, ◌<◌, ◌≤◌, ◌^◌, ◌++◌, length, take, vec_len, vec_capacity, is_ok, if◌then◌else◌, OnOk, OnErr};
ghost use Rattle.ttrpc_wire.specs.Varint.{varint};
ghost use Rattle.ttrpc_wire.specs.Field.{code_of, tag_bytes, field_bytes, value_bytes};
ghost use Rattle.ttrpc_wire.specs.Seen.{seen, seen_value};

use crate::field::{Field, Tag, Value, WireType};
use std::alloc::AllocError;

/// Returns the number of bytes in a number's varint.
pub fn varint_len(n: u64) -> usize
    ensures value { result ≡ length (varint n) }
    ensures at_most { result ≤ 10 }
{
    let mut rest = n;
    for i in 0..9usize {
        if rest < 128 {
            return i + 1;
        }
        rest /= 128;
    }
    10
}

/// Writes a number's varint, in its shortest encoding.
#[inline]
#[tactic(auto, using(crate::proofs::Digits::varint_small))]
pub fn put_varint(out: &mut Vec<u8>, n: u64) -> Result<(), AllocError>
    ensures items { out.new.items
        ≡ (if is_ok result then out.old.items ++ varint n else out.old.items) }
    ensures full { OnErr result (vec_capacity out.old < vec_len out.old + length (varint n)) }
    ensures capacity { vec_capacity out.old ≤ vec_capacity out.new }
{
    if n < 128 {
        out.push(n as u8)?;
        return Ok(());
    }
    let (bytes, len) = spelling_of(n);
    out.extend_from_slice(&bytes[..len])
}

/// Returns a number's varint at the front of an array, and the length of the varint.
fn spelling_of(n: u64) -> ([u8; 10], usize)
    ensures len { result.1 ≤ 10 }
    ensures front { take result.1 result.0 ≡ varint n }
{
    let mut bytes = [0u8; 10];
    let mut rest = n;
    for i in 0..9usize {
        if rest < 128 {
            bytes[i] = rest as u8;
            return (bytes, i + 1);
        }
        bytes[i] = (128 + rest % 128) as u8;
        rest /= 128;
    }
    bytes[9] = rest as u8;
    (bytes, 10)
}

/// Returns the number of bytes in a tag.
pub fn tag_len(tag: Tag) -> usize
    ensures value { result ≡ length (tag_bytes tag.number.value tag.wire_type) }
    ensures at_most { result ≤ 10 }
{
    varint_len(tag_number(tag))
}

/// Writes a tag.
#[inline]
pub fn put_tag(out: &mut Vec<u8>, tag: Tag) -> Result<(), AllocError>
    ensures items { let bytes = tag_bytes tag.number.value tag.wire_type in
        out.new.items ≡ (if is_ok result then out.old.items ++ bytes else out.old.items) }
    ensures full { let bytes = tag_bytes tag.number.value tag.wire_type in
        OnErr result (vec_capacity out.old < vec_len out.old + length bytes) }
    ensures capacity { vec_capacity out.old ≤ vec_capacity out.new }
{
    put_varint(out, tag_number(tag))
}

/// Returns the number that a tag's varint encodes.
#[inline]
fn tag_number(tag: Tag) -> u64
    ensures { result ≡ tag.number.value * 8 + code_of tag.wire_type }
{
    tag.number.value as u64 * 8 + wire_code(tag.wire_type)
}

#[inline]
fn wire_code(wire_type: WireType) -> u64
    ensures value { result ≡ code_of wire_type }
    ensures small { result < 8 }
{
    match wire_type {
        WireType::Varint => 0,
        WireType::Fixed64 => 1,
        WireType::LengthDelimited => 2,
        WireType::Fixed32 => 5,
    }
}

/// Returns the number of bytes in a field, its tag included.
pub fn field_len(field: Field<'_>) -> usize
    ensures { result ≡ length (field_bytes (seen field.entry)) }
{
    tag_len(field.tag()) + value_len(field.value)
}

#[tactic(auto, unfolding(crate::specs::Field::fixed64, crate::specs::Field::fixed32))]
fn value_len(value: Value<'_>) -> usize
    ensures value { result ≡ length (value_bytes (seen_value value.entry)) }
    ensures at_most { result < 2 ^ 63 + 10 }
{
    match value {
        Value::Varint(n) => varint_len(n),
        Value::Fixed64(_) => 8,
        Value::LengthDelimited(bytes) => delimited_len(bytes),
        Value::Fixed32(_) => 4,
    }
}

fn delimited_len(bytes: &[u8]) -> usize
    ensures value { result ≡ length (varint (length bytes.now)) + length bytes.now }
    ensures at_most { result < 2 ^ 63 + 10 }
{
    varint_len(bytes.len() as u64) + bytes.len()
}

/// Writes a field: its tag and its value.
pub fn put_field(out: &mut Vec<u8>, field: Field<'_>) -> Result<(), AllocError>
    ensures items { out.new.items
        ≡ (if is_ok result
        then out.old.items ++ field_bytes (seen field.entry) else out.old.items) }
    ensures full { OnErr result
        (vec_capacity out.old < vec_len out.old + length (field_bytes (seen field.entry))) }
    ensures capacity { vec_capacity out.old ≤ vec_capacity out.new }
{
    out.reserve(field_len(field))?;
    put_tag(out, field.tag())?;
    put_value(out, field.value)
}

#[tactic(auto, unfolding(crate::specs::Field::fixed64, crate::specs::Field::fixed32))]
fn put_value(out: &mut Vec<u8>, value: Value<'_>) -> Result<(), AllocError>
    ensures ok { OnOk result
        (out.new.items ≡ out.old.items ++ value_bytes (seen_value value.entry)) }
    ensures full { OnErr result
        (vec_capacity out.old < vec_len out.old + length (value_bytes (seen_value value.entry))) }
    ensures capacity { vec_capacity out.old ≤ vec_capacity out.new }
{
    match value {
        Value::Varint(n) => put_varint(out, n),
        Value::Fixed64(n) => out.extend_from_slice(&n.to_le_bytes()),
        Value::LengthDelimited(bytes) => {
            put_varint(out, bytes.len() as u64)?;
            out.extend_from_slice(bytes)
        }
        Value::Fixed32(n) => out.extend_from_slice(&n.to_le_bytes()),
    }
}
