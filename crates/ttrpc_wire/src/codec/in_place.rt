//! Decoding a message without moving its payload, and writing a message without its payload.
ghost use Rattle.std.specs.Prelude.{◌≡◌, ◌≢◌, ℕ, List, ◌≤◌, ◌^◌, ◌++◌, length, IfSome, IfNone, IfOk, IfErr, OnOk, None, take, drop};
ghost use Rattle.ttrpc_wire.specs.Seen.{seen};
ghost use Rattle.ttrpc_wire.specs.Field.{fields_bytes};
ghost use Rattle.ttrpc_wire.specs.Fold.{Gives, read_from};
ghost use Rattle.ttrpc_wire.specs.Codec.InPlace.{HasPayload, payload_in};
ghost use Rattle.ttrpc_wire.specs.Codec.Members.{delimited_field};

use crate::codec::message::WireMessage;
use crate::{Blob, CodecError, Field, Reader, Value};
use std::alloc::Global;
use std::marker::Model;

/// A message with one member of bytes, its payload, which may be long.
pub trait CarriesPayload: WireMessage {
    /// The number of the payload's field.
    ghost payload_field: { ℕ };

    /// The message with these bytes for its payload.
    ghost with_payload: { Self → List ℕ → Self };

    /// Returns the number of the payload's field.
    fn payload_number() -> u32
        ensures { result ≡ payload_field };

    /// Replaces the payload with these bytes. Takes no memory.
    fn replace_payload(&mut self, payload: Blob)
        ensures { self.new ≡ with_payload self.old payload };

    /// The written form before the payload.
    ghost before: { Self → List ℕ };

    /// The payload.
    ghost payload_of: { Self → List ℕ };

    /// The written form after the payload.
    ghost after: { Self → List ℕ };

    /// Returns the payload. Takes no memory.
    fn payload(&self) -> &[u8]
        ensures { result.now ≡ payload_of self.now };

    /// Writes the bytes before the payload. After an error some of them may have been written.
    fn write_before(&self, out: &mut Vec<u8>) -> Result<(), CodecError>
        ensures ok { OnOk result (out.new.items ≡ out.old.items ++ before self.now) }
        ensures too_long { IfErr result (λ e. e ≢ CodecError.NoMemory
            → (e ≡ CodecError.TooLong) × (2 ^ 32 ≤ length (before self.now))) };

    /// Writes the bytes after the payload. After an error some of them may have been written.
    fn write_after(&self, out: &mut Vec<u8>) -> Result<(), CodecError>
        ensures ok { OnOk result (out.new.items ≡ out.old.items ++ after self.now) }
        ensures too_long { IfErr result (λ e. e ≢ CodecError.NoMemory
            → (e ≡ CodecError.TooLong) × (2 ^ 32 ≤ length (after self.now))) };

    /// The three parts together are the written form.
    ghost parts: { (m : Self)
        → fields_bytes (Self.fields m) ≡ before m ++ (payload_of m ++ after m) };

    /// A length-delimited field with the payload's number replaces the payload, and no other field reads or changes it.
    ghost carries: { HasPayload Self.step Self.empty payload_field with_payload };
}

/// A written form without its payload. The bytes before and after the payload are kept in one vector.
#[derive(Debug, Drop)]
pub struct Around {
    bytes: Vec<u8>,
    // The payload's place in the bytes.
    place: usize,
}

impl Model for Around {
    ghost use Rattle.std.specs.Prelude.{◌≤◌, length, take, drop};
    ghost use Rattle.ttrpc_wire.specs.Codec.InPlace.{Around as Parts};

    ghost Value = { Parts };

    ghost view = { λ a.
        record { before = take a.place a.bytes.items; after = drop a.place a.bytes.items } };

    ghost invariant = { λ a. a.place ≤ length a.bytes.items };
}

impl Around {
    /// Returns the bytes before the payload.
    pub fn before(&self) -> &[u8]
        ensures { result.now ≡ self.now.before }
    {
        &self.bytes[..self.place]
    }

    /// Returns the bytes after the payload.
    pub fn after(&self) -> &[u8]
        ensures { result.now ≡ self.now.after }
    {
        &self.bytes[self.place..]
    }
}

/// Writes a message without its payload, into a vector with this much room at first. The error is `TooLong` only if the
/// written form of the message has 2^32 bytes or more.
pub fn encode_around<M: CarriesPayload>(
    alloc: Global,
    message: &M,
    room: usize,
) -> Result<Around, CodecError>
    ensures ok { IfOk result (λ around. around ≡ record {
      before = M.before message.now;
      after = M.after message.now;
    }) }
    ensures too_long { IfErr result (λ e. e ≢ CodecError.NoMemory
        → (e ≡ CodecError.TooLong) × (2 ^ 32 ≤ length (fields_bytes (M.fields message.now)))) }
{
    let mut bytes = Vec::with_capacity(alloc, room)?;
    message.write_before(&mut bytes)?;
    let place = bytes.len();
    message.write_after(&mut bytes)?;
    Ok(Around { bytes, place })
}

/// Returns the message that the bytes mean, as `decode` does, but doesn't copy the payload: the message takes the
/// vector over.
pub fn decode_in_place<M: CarriesPayload>(alloc: Global, bytes: Vec<u8>) -> Result<M, CodecError>
    ensures { Gives (λ m. m) result (read_from M.step M.empty bytes.items) }
{
    let mut message = M::new(alloc);
    let (start, count) = read_around(alloc, &mut message, bytes.as_slice())?;
    message.replace_payload(Blob::from_part(bytes, start, count));
    Ok(message)
}

/// Takes in the fields of the bytes without the payload's, and returns the place and the length of the last payload.
/// Returns zeros if there is no payload.
fn read_around<M: CarriesPayload>(
    alloc: Global,
    message: &mut M,
    bytes: &[u8],
) -> Result<(usize, usize), CodecError>
    requires { message.old ≡ M.empty }
    ensures { Gives (λ place. M.with_payload message.new (take place.1 (drop place.0 bytes.now)))
        result (read_from M.step M.empty bytes.now) }
{
    let mut reader = Reader::new(bytes);
    let mut place = (0, 0);
    while !reader.is_empty() {
        let field = reader.field()?;
        match payload_of(M::payload_number(), field) {
            Some(payload) => {
                let start = bytes.len() - reader.rest().len() - payload.len();
                place = (start, payload.len());
            }
            None => message.put(alloc, field)?,
        }
    }
    Ok(place)
}

/// Returns the payload in a field, if the field has this number and is length-delimited.
fn payload_of<'a>(number: u32, field: Field<'a>) -> Option<&'a [u8]>
    ensures some { IfSome result
        (λ payload. seen field.entry ≡ delimited_field number payload.now) }
    ensures none { IfNone result (payload_in number (seen field.entry) ≡ None) }
{
    match field.value {
        Value::LengthDelimited(payload) if field.number.value == number => Some(payload),
        _ => None,
    }
}
