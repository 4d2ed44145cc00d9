//! Reading from the front of a slice. No call takes memory.
ghost use Rattle.std.specs.Prelude.{◌≡◌, List, [], ℕ, length, Some, None, IfOk, OnOk, IfErr, ◌<◌, IsTrue, ◌↔◌};
ghost use Rattle.ttrpc_wire.specs.Varint.{IsVarint};
ghost use Rattle.ttrpc_wire.specs.Field.{IsFixed64, IsFixed32, IsLengthDelimited, IsValueOf, IsField, fixed64_of, fixed32_of};
ghost use Rattle.ttrpc_wire.specs.Front.{Begins, BeginsSome, Refuses};
ghost use Rattle.ttrpc_wire.specs.Reading.{Reads, bytes_at, wire_type_at, tag_at, fixed64_at, fixed32_at, length_delimited_at, value_at, field_at};
ghost use Rattle.ttrpc_wire.specs.Seen.{SpellsTag, seen, seen_value};

use crate::field::{Field, FieldNumber, Tag, Value, WireType};
use crate::values::CodecError;
use crate::varint::varint_of;
use std::marker::Model;

#[inline]
#[tactic(auto, unfolding(crate::specs::Reading::bytes_at))]
fn bytes_of(bytes: &[u8], count: u64) -> Result<(&[u8], &[u8]), CodecError>
    ensures { Reads (λ x. (x.0.now, x.1.now)) result (bytes_at count bytes.now) }
{
    if (bytes.len() as u64) < count {
        return Err(CodecError::Truncated);
    }
    Ok(bytes.split_at(count as usize))
}

#[inline]
#[tactic(auto, unfolding(crate::specs::Reading::wire_type_at))]
fn wire_type_of(code: u64) -> Option<WireType>
    ensures { result ≡ wire_type_at code }
{
    match code {
        0 => Some(WireType::Varint),
        1 => Some(WireType::Fixed64),
        2 => Some(WireType::LengthDelimited),
        5 => Some(WireType::Fixed32),
        _ => None,
    }
}

#[inline]
#[tactic(auto, unfolding(crate::specs::Reading::tag_at))]
fn tag_of(bytes: &[u8]) -> Result<(Tag, &[u8]), CodecError>
    ensures { Reads (λ x. ((x.0.number.value, x.0.wire_type), x.1.now)) result (tag_at bytes.now) }
{
    let (tag, rest) = varint_of(bytes)?;
    if tag < 8 || tag > u32::MAX as u64 {
        return Err(CodecError::BadTag);
    }
    let Some(wire_type) = wire_type_of(tag % 8) else {
        return Err(CodecError::BadWireType);
    };
    let number = FieldNumber {
        value: (tag / 8) as u32,
    };
    Ok((Tag { number, wire_type }, rest))
}

#[inline]
fn length_delimited_of(bytes: &[u8]) -> Result<(&[u8], &[u8]), CodecError>
    ensures { Reads (λ x. (x.0.now, x.1.now)) result (length_delimited_at bytes.now) }
{
    let (count, rest) = varint_of(bytes)?;
    bytes_of(rest, count)
}

#[tactic(auto, unfolding(crate::specs::Reading::value_at))]
fn value_of(wire_type: WireType, bytes: &[u8]) -> Result<(Value<'_>, &[u8]), CodecError>
    ensures { Reads (λ x. (seen_value x.0, x.1.now)) result (value_at wire_type bytes.now) }
{
    match wire_type {
        WireType::Varint => {
            let (n, rest) = varint_of(bytes)?;
            Ok((Value::Varint(n), rest))
        }
        WireType::Fixed64 => {
            let (n, rest) = fixed64_front(bytes)?;
            Ok((Value::Fixed64(n), rest))
        }
        WireType::LengthDelimited => {
            let (delimited, rest) = length_delimited_of(bytes)?;
            Ok((Value::LengthDelimited(delimited), rest))
        }
        WireType::Fixed32 => {
            let (n, rest) = fixed32_front(bytes)?;
            Ok((Value::Fixed32(n), rest))
        }
    }
}

#[inline]
#[tactic(auto, unfolding(crate::specs::Reading::bytes_at, crate::specs::Field::fixed64_of))]
fn fixed64_front(bytes: &[u8]) -> Result<(u64, &[u8]), CodecError>
    ensures { Reads (λ x. (x.0, x.1.now)) result (fixed64_at bytes.now) }
{
    match bytes.split_first_chunk::<8>() {
        Some((eight, rest)) => Ok((u64::from_le_bytes(*eight), rest)),
        None => Err(CodecError::Truncated),
    }
}

#[inline]
#[tactic(auto, unfolding(crate::specs::Reading::bytes_at, crate::specs::Field::fixed32_of))]
fn fixed32_front(bytes: &[u8]) -> Result<(u32, &[u8]), CodecError>
    ensures { Reads (λ x. (x.0, x.1.now)) result (fixed32_at bytes.now) }
{
    match bytes.split_first_chunk::<4>() {
        Some((four, rest)) => Ok((u32::from_le_bytes(*four), rest)),
        None => Err(CodecError::Truncated),
    }
}

#[tactic(auto, unfolding(crate::specs::Reading::field_at))]
fn field_of(bytes: &[u8]) -> Result<(Field<'_>, &[u8]), CodecError>
    ensures { Reads (λ x. (seen x.0, x.1.now)) result (field_at bytes.now) }
{
    let (tag, rest) = tag_of(bytes)?;
    let (value, rest) = value_of(tag.wire_type, rest)?;
    let number = tag.number;
    Ok((Field { number, value }, rest))
}

/// A reader of a message's fields, from the front of its bytes.
///
/// Each call takes exactly the bytes of the value that it returns or skips. An error leaves the reader unchanged.
#[derive(Debug, Drop)]
pub struct Reader<'a> {
    rest: &'a [u8],
}

impl<'a> Model for Reader<'a> {
    ghost Value = { List ℕ };

    ghost view = { λ reader. reader.rest.now };
}

impl<'a> Reader<'a> {
    /// Returns a reader of all these bytes.
    pub fn new(bytes: &'a [u8]) -> Reader<'a>
        ensures { result ≡ bytes.now }
    {
        Reader { rest: bytes }
    }

    /// Returns the bytes that are left.
    pub fn rest(&self) -> &'a [u8]
        ensures { result.now ≡ self.now }
    {
        self.rest
    }

    /// Returns true if no bytes are left.
    pub fn is_empty(&self) -> bool
        ensures { IsTrue result ↔ (self.now ≡ []) }
    {
        self.rest.is_empty()
    }

    /// Reads a varint, in any of its encodings, and returns its number.
    pub fn varint(&mut self) -> Result<u64, CodecError>
        ensures ok { IfOk result (λ n. Begins IsVarint self.old n self.new) }
        ensures shorter { OnOk result (length self.new < length self.old) }
        ensures err { IfErr result (Refuses IsVarint self.old self.new) }
    {
        let (n, rest) = varint_of(self.rest)?;
        self.rest = rest;
        Ok(n)
    }

    /// Reads a tag.
    pub fn tag(&mut self) -> Result<Tag, CodecError>
        ensures ok { IfOk result (λ tag. Begins SpellsTag self.old tag self.new) }
        ensures shorter { OnOk result (length self.new < length self.old) }
        ensures err { IfErr result (Refuses SpellsTag self.old self.new) }
    {
        let (tag, rest) = tag_of(self.rest)?;
        self.rest = rest;
        Ok(tag)
    }

    /// Reads eight bytes, and returns the number that they are with the lowest byte first.
    pub fn fixed64(&mut self) -> Result<u64, CodecError>
        ensures ok { IfOk result (λ n. Begins IsFixed64 self.old n self.new) }
        ensures shorter { OnOk result (length self.new < length self.old) }
        ensures err { IfErr result (Refuses IsFixed64 self.old self.new) }
    {
        let (n, rest) = fixed64_front(self.rest)?;
        self.rest = rest;
        Ok(n)
    }

    /// Reads four bytes, and returns the number that they are with the lowest byte first.
    pub fn fixed32(&mut self) -> Result<u32, CodecError>
        ensures ok { IfOk result (λ n. Begins IsFixed32 self.old n self.new) }
        ensures shorter { OnOk result (length self.new < length self.old) }
        ensures err { IfErr result (Refuses IsFixed32 self.old self.new) }
    {
        let (n, rest) = fixed32_front(self.rest)?;
        self.rest = rest;
        Ok(n)
    }

    /// Reads a varint and this many bytes after it, and returns the bytes.
    pub fn length_delimited(&mut self) -> Result<&'a [u8], CodecError>
        ensures ok { IfOk result (λ bytes. Begins IsLengthDelimited self.old bytes.now self.new) }
        ensures shorter { OnOk result (length self.new < length self.old) }
        ensures err { IfErr result (Refuses IsLengthDelimited self.old self.new) }
    {
        let (bytes, rest) = length_delimited_of(self.rest)?;
        self.rest = rest;
        Ok(bytes)
    }

    /// Reads a value of this wire type.
    pub fn value(&mut self, wire_type: WireType) -> Result<Value<'a>, CodecError>
        ensures ok { IfOk result
            (λ value. Begins (IsValueOf wire_type) self.old (seen_value value) self.new) }
        ensures shorter { OnOk result (length self.new < length self.old) }
        ensures err { IfErr result (Refuses (IsValueOf wire_type) self.old self.new) }
    {
        let (value, rest) = value_of(wire_type, self.rest)?;
        self.rest = rest;
        Ok(value)
    }

    /// Skips a value of this wire type.
    pub fn skip(&mut self, wire_type: WireType) -> Result<(), CodecError>
        ensures ok { OnOk result (BeginsSome (IsValueOf wire_type) self.old self.new) }
        ensures shorter { OnOk result (length self.new < length self.old) }
        ensures err { IfErr result (Refuses (IsValueOf wire_type) self.old self.new) }
    {
        self.value(wire_type)?;
        Ok(())
    }

    /// Reads a field: a tag, and a value of the tag's wire type.
    pub fn field(&mut self) -> Result<Field<'a>, CodecError>
        ensures ok { IfOk result (λ field. Begins IsField self.old (seen field) self.new) }
        ensures shorter { OnOk result (length self.new < length self.old) }
        ensures err { IfErr result (Refuses IsField self.old self.new) }
    {
        let (field, rest) = field_of(self.rest)?;
        self.rest = rest;
        Ok(field)
    }
}
