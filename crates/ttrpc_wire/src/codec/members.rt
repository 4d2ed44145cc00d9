//! The members of messages: the lengths of a member's fields, and how they are written.
ghost use Rattle.std.specs.Prelude.{◌≡◌, ◌≢◌, ℕ, ◌+◌, ◌-◌, ◌*◌, ◌<◌, ◌≤◌, ◌^◌, ◌++◌, length, OnOk, IfErr, min};
ghost use Rattle.std.specs.List.{AllByRecursion};
ghost use Rattle.ttrpc_wire.specs.Varint.{varint};
ghost use Rattle.ttrpc_wire.specs.Field.{Varint, tag_bytes, field_bytes, fields_bytes};
ghost use Rattle.ttrpc_wire.specs.Seen.{seen};
ghost use Rattle.ttrpc_wire.specs.Fold.{Gives};
ghost use Rattle.ttrpc_wire.specs.Codec.InPlace.{payload_head};
ghost use Rattle.ttrpc_wire.specs.Codec.Members.{text_of, delimited_field, delimited_fields, number_fields, part_fields};

use crate::codec::message::WireMessage;
use crate::{
    CodecError, Field, FieldNumber, Tag, Text, Value, WireType, field_len, put_tag, put_varint,
    tag_len, varint_len,
};
use std::alloc::{AllocError, Global};

/// Returns a copy of the bytes as a text. The error is `BadUtf8` if they aren't UTF-8.
pub fn text_from(alloc: Global, bytes: &[u8]) -> Result<Text, CodecError>
    ensures { Gives (λ text. text) result (text_of bytes.now) }
{
    Text::from_utf8(alloc, bytes)
}

/// Returns the field of a text or of bytes.
fn delimited(number: FieldNumber, bytes: &[u8]) -> Field<'_>
    ensures { seen result ≡ delimited_field number.value bytes.now }
{
    let value = Value::LengthDelimited(bytes);
    Field { number, value }
}

/// Returns the field of a number.
fn numeric<'a>(number: FieldNumber, n: u64) -> Field<'a>
    ensures { seen result ≡ record { number = number.value; value = Varint n } }
{
    let value = Value::Varint(n);
    Field { number, value }
}

/// Returns the length of the field of a text or of bytes, or 0 if they are empty. An empty value isn't written.
pub fn delimited_len(number: FieldNumber, bytes: &[u8]) -> u64
    ensures { result ≡ length (fields_bytes (delimited_fields number.value bytes.now)) }
{
    if bytes.is_empty() {
        return 0;
    }
    field_len(delimited(number, bytes)) as u64
}

/// Writes the field of a text or of bytes, or nothing if they are empty.
pub fn put_delimited(out: &mut Vec<u8>, number: FieldNumber, bytes: &[u8]) -> Result<(), AllocError>
    ensures { OnOk result
        (out.new.items ≡ out.old.items ++ fields_bytes (delimited_fields number.value bytes.now)) }
{
    if bytes.is_empty() {
        return Ok(());
    }
    put_head(out, number, WireType::LengthDelimited, bytes.len() as u64)?;
    out.extend_from_slice(bytes)
}

/// Writes the tag and the length before a payload in its field, or nothing if the payload is empty.
pub fn put_payload_head(
    out: &mut Vec<u8>,
    number: FieldNumber,
    payload: &[u8],
) -> Result<(), AllocError>
    ensures { OnOk result (out.new.items ≡ out.old.items ++ payload_head number.value payload.now) }
{
    if payload.is_empty() {
        return Ok(());
    }
    put_head(out, number, WireType::LengthDelimited, payload.len() as u64)
}

/// Writes a tag, and a varint after it.
fn put_head(
    out: &mut Vec<u8>,
    number: FieldNumber,
    wire_type: WireType,
    n: u64,
) -> Result<(), AllocError>
    ensures { OnOk result
        (out.new.items ≡ out.old.items ++ (tag_bytes number.value wire_type ++ varint n)) }
{
    put_tag(out, Tag { number, wire_type })?;
    put_varint(out, n)
}

/// Returns the length of the field of a number, or 0 if the number is 0. The number 0 isn't written.
pub fn number_len(number: FieldNumber, n: u64) -> u64
    ensures { result ≡ length (fields_bytes (number_fields number.value n)) }
{
    if n == 0 {
        return 0;
    }
    field_len(numeric(number, n)) as u64
}

/// Writes the field of a number, or nothing if the number is 0.
pub fn put_number(out: &mut Vec<u8>, number: FieldNumber, n: u64) -> Result<(), AllocError>
    ensures { OnOk result
        (out.new.items ≡ out.old.items ++ fields_bytes (number_fields number.value n)) }
{
    if n == 0 {
        return Ok(());
    }
    put_head(out, number, WireType::Varint, n)
}

/// Returns the length of the field of a message that has this length, or the greatest `u64` if the field is longer.
pub fn part_len(number: FieldNumber, len: u64) -> u64
    ensures { result ≡ min (length (tag_bytes number.value WireType.LengthDelimited)
        + length (varint len) + len) (2 ^ 64 - 1) }
{
    let wire_type = WireType::LengthDelimited;
    let head = tag_len(Tag { number, wire_type }) + varint_len(len);
    (head as u64).saturating_add(len)
}

/// Writes the field of a message, even if the message is empty. The error is `TooLong` if the message has 2^32 bytes or
/// more.
pub fn put_part<M: WireMessage>(
    out: &mut Vec<u8>,
    number: FieldNumber,
    part: &M,
) -> Result<(), CodecError>
    ensures ok { OnOk result (out.new.items ≡ out.old.items
        ++ field_bytes (delimited_field number.value (fields_bytes (M.fields part.now)))) }
    ensures too_long { IfErr result (λ e. e ≢ CodecError.NoMemory
        → (e ≡ CodecError.TooLong) × (2 ^ 32 ≤ length (fields_bytes (M.fields part.now)))) }
{
    let len = part.length();
    if len > u32::MAX as u64 {
        return Err(CodecError::TooLong);
    }
    put_head(out, number, WireType::LengthDelimited, len)?;
    part.write(out)
}

/// Returns the length of the fields of these messages, or the greatest `u64` if they are longer.
pub fn parts_len<M: WireMessage>(number: FieldNumber, parts: &[M]) -> u64
    ensures { result
        ≡ min (length (fields_bytes (part_fields number.value M.fields parts.now))) (2 ^ 64 - 1) }
{
    let mut len: u64 = 0;
    for part in parts {
        len = len.saturating_add(part_len(number, part.length()));
    }
    len
}

/// Writes a field for each of the messages, in order. The error is `TooLong` if one of the messages has 2^32 bytes or
/// more.
pub fn put_parts<M: WireMessage>(
    out: &mut Vec<u8>,
    number: FieldNumber,
    parts: &[M],
) -> Result<(), CodecError>
    ensures ok { OnOk result (out.new.items ≡ out.old.items
        ++ fields_bytes (part_fields number.value M.fields parts.now)) }
    ensures too_long { IfErr result (λ e. e ≢ CodecError.NoMemory → (e ≡ CodecError.TooLong)
        × (2 ^ 32 ≤ length (fields_bytes (part_fields number.value M.fields parts.now)))) }
{
    for part in parts {
        put_part(out, number, part)?;
    }
    Ok(())
}

/// States that each message is a value of its type. This lemma does nothing when it runs.
pub fn lemma_are_values<M: WireMessage>(parts: &[M])
    ensures { AllByRecursion M.is_value parts.now }
{
    for part in parts {
        part.lemma_is_value();
    }
}
