//! Messages of fields, and the calls that read, measure, write and merge them.
ghost use Rattle.std.specs.Prelude.{◌≡◌, ◌≢◌, ℕ, List, ◌<◌, ◌≤◌, ◌^◌, ◌++◌, ◌-◌, length, Option, Some, IfOk, OnOk, IfErr, OnErr, min, None, ◌⊎◌};
ghost use Rattle.std.specs.List.{AllByRecursion};
ghost use Rattle.ttrpc_wire.specs.Field.{Field, Fits, fields_bytes};
ghost use Rattle.ttrpc_wire.specs.Seen.{seen};
ghost use Rattle.ttrpc_wire.specs.Fold.{folded, read_from, Gives};

use crate::{CodecError, Reader, TryClone};
use std::alloc::{AllocError, Global};

/// A message of fields: what it means, and how its fields are read and written.
///
/// The calls of this module read, measure, write and merge each type that implements this trait. Each call is proved
/// once.
pub trait WireMessage: TryClone {
    /// Holds for each value of the type.
    ghost is_value: { Self → Type 0 };

    /// The message of no fields.
    ghost empty: { Self };

    /// The message after one more field, or `None` if the field is refused.
    ghost step: { Self → Field → Option Self };

    /// The fields that are written, in order.
    ghost fields: { Self → List Field };

    /// Returns the message of no fields. Takes no memory.
    fn new(alloc: Global) -> Self
        ensures { result ≡ empty };

    /// Takes in one more field. After an error the message may be any message.
    fn put(&mut self, alloc: Global, field: crate::Field<'_>) -> Result<(), CodecError>
        ensures { Gives (λ _. self.new) result (step self.old (seen field.entry)) };

    /// Returns the length of the written form, or the greatest `u64` if the written form is longer.
    fn length(&self) -> u64
        ensures { result ≡ min (length (fields_bytes (fields self.now))) (2 ^ 64 - 1) };

    /// Writes the fields. After an error some of them may have been written.
    fn write(&self, out: &mut Vec<u8>) -> Result<(), CodecError>
        ensures ok { OnOk result (out.new.items ≡ out.old.items ++ fields_bytes (fields self.now)) }
        ensures too_long { IfErr result (λ e. e ≢ CodecError.NoMemory
            → (e ≡ CodecError.TooLong) × (2 ^ 32 ≤ length (fields_bytes (fields self.now)))) };

    /// States that a value of the type satisfies `is_value`. This lemma does nothing when it runs. The body reads each
    /// member.
    fn lemma_is_value(&self)
        ensures { is_value self.now };

    /// The written fields mean the message, if their written form is shorter than 2^64 - 1 bytes.
    ghost again: { (m : Self) → is_value m → length (fields_bytes (fields m)) < 2 ^ 64 - 1
        → folded step empty (fields m) ≡ Some m };

    /// Under the same condition each of the fields has a written form.
    ghost fits: { (m : Self) → is_value m → length (fields_bytes (fields m)) < 2 ^ 64 - 1
        → AllByRecursion Fits (fields m) };
}

/// Takes in the fields of the bytes. After an error the message may be any message.
pub fn read_into<M: WireMessage>(
    alloc: Global,
    message: &mut M,
    bytes: &[u8],
) -> Result<(), CodecError>
    ensures { Gives (λ _. message.new) result (read_from M.step message.old bytes.now) }
{
    let mut reader = Reader::new(bytes);
    while !reader.is_empty() {
        let field = reader.field()?;
        message.put(alloc, field)?;
    }
    Ok(())
}

/// Returns the message that the bytes mean.
pub fn decode<M: WireMessage>(alloc: Global, bytes: &[u8]) -> Result<M, CodecError>
    ensures { Gives (λ m. m) result (read_from M.step M.empty bytes.now) }
{
    let mut message = M::new(alloc);
    read_into(alloc, &mut message, bytes)?;
    Ok(message)
}

/// Returns the length of the written form, or 4294967295 if the written form is longer. Takes no memory.
pub fn size<M: WireMessage>(message: &M) -> u32
    ensures { result ≡ min (length (fields_bytes (M.fields message.now))) (2 ^ 32 - 1) }
{
    saturated(message.length())
}

/// Returns a length, or 4294967295 if the length is greater.
pub(crate) fn saturated(length: u64) -> u32
    ensures { result ≡ min length (2 ^ 32 - 1) }
{
    length.min(u32::MAX as u64) as u32
}

/// Returns the written form. The error is `TooLong` if the written form has 2^32 bytes or more.
pub fn encode<M: WireMessage>(alloc: Global, message: &M) -> Result<Vec<u8>, CodecError>
    ensures ok { IfOk result (λ v. v.items ≡ fields_bytes (M.fields message.now)) }
    ensures again { IfOk result (λ v. read_from M.step M.empty v.items ≡ Some message.now) }
    ensures too_long { IfErr result (λ e. e ≢ CodecError.NoMemory
        → (e ≡ CodecError.TooLong) × (2 ^ 32 ≤ length (fields_bytes (M.fields message.now)))) }
    ensures short { IfOk result (λ v. length v.items < 2 ^ 32) }
{
    message.lemma_is_value();
    let length = message.length();
    if length > u32::MAX as u64 {
        return Err(CodecError::TooLong);
    }
    let mut out = Vec::with_capacity(alloc, length as usize)?;
    message.write(&mut out)?;
    Ok(out)
}

/// Takes in more fields, as if they followed the message's own fields. An error changes nothing. The error is `TooLong`
/// if the message's own written form has 2^64 - 1 bytes or more, which no machine's memory holds.
pub fn merge<M: WireMessage>(alloc: Global, message: &mut M, bytes: &[u8]) -> Result<(), CodecError>
    ensures ok { OnOk result (read_from M.step M.empty
        (fields_bytes (M.fields message.old) ++ bytes.now) ≡ Some message.new) }
    ensures refused { IfErr result (λ e. e ≢ CodecError.NoMemory
        → ((e ≡ CodecError.TooLong) × (2 ^ 64 - 1 ≤ length (fields_bytes (M.fields message.old))))
        ⊎ (read_from M.step M.empty (fields_bytes (M.fields message.old) ++ bytes.now) ≡ None)) }
    ensures err { OnErr result (message.new ≡ message.old) }
{
    message.lemma_is_value();
    if message.length() == u64::MAX {
        return Err(CodecError::TooLong);
    }
    let mut whole = message.try_clone()?;
    read_into(alloc, &mut whole, bytes)?;
    *message = whole;
    Ok(())
}
