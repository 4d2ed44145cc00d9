//! Values with a written form, and messages of fields. Reading, measuring, writing and merging a message are proved
//! once, over the trait `WireMessage`.

pub mod in_place;
pub mod members;
pub mod message;

ghost use Rattle.std.specs.Prelude.{◌≡◌, ℕ, List, ◌<◌, ◌≤◌, ◌^◌, ◌-◌, ◌++◌, length, Option, Some, None, IfOk, OnOk, IfErr, OnErr, min, ◌⊎◌};

use crate::codec::message::{WireMessage, decode, encode, merge, saturated, size};
use crate::values::codec_error::CodecFailure;
use crate::{Blob, CodecError};
use std::alloc::Global;

/// A value with a written form, and a meaning of bytes as such a value.
///
/// A type that implements `WireMessage` implements it by the calls of the module `message`. A `Blob` is its own written
/// form. A type of any other format may implement it too.
pub trait Codec: Sized + Drop {
    type E: CodecFailure;

    /// The written form.
    ghost written: { Self → List ℕ };

    /// The value that bytes mean, if they mean one.
    ghost meaning: { List ℕ → Option Self };

    /// Returns the length of the written form, or 4294967295 if the written form is longer. Takes no memory.
    fn size(&self) -> u32
        ensures { result ≡ min (length (written self.now)) (2 ^ 32 - 1) };

    /// Returns the written form, which means the value. An error reports refused memory, or a written form that is too
    /// long. The second error comes only if the written form has 2^32 bytes or more.
    fn encode(&self, alloc: Global) -> Result<Vec<u8>, Self::E>
        ensures ok { IfOk result (λ v. v.items ≡ written self.now) }
        ensures again { IfOk result (λ v. meaning v.items ≡ Some self.now) }
        ensures short { IfOk result (λ v. length v.items < 2 ^ 32) }
        ensures too_long { IfErr result (λ e. ¬ (Self.E.is_no_memory e)
            → Self.E.is_too_long e × (2 ^ 32 ≤ length (written self.now))) };

    /// Returns the value that the bytes mean. An error that doesn't report refused memory comes only if the bytes mean
    /// no value.
    fn decode(alloc: Global, bytes: &[u8]) -> Result<Self, Self::E>
        ensures ok { IfOk result (λ v. meaning bytes.now ≡ Some v) }
        ensures refused { IfErr result
            (λ e. ¬ (Self.E.is_no_memory e) → meaning bytes.now ≡ None) };

    /// Replaces the value with the meaning of its written form and these bytes after it. An error changes nothing. An
    /// error that doesn't report refused memory comes only if all these bytes together mean no value, or it reports
    /// that the written form has 2^64 - 1 bytes or more.
    fn merge(&mut self, alloc: Global, bytes: &[u8]) -> Result<(), Self::E>
        ensures ok { OnOk result (meaning (written self.old ++ bytes.now) ≡ Some self.new) }
        ensures refused { IfErr result (λ e. ¬ (Self.E.is_no_memory e)
            → (Self.E.is_too_long e × (2 ^ 64 - 1 ≤ length (written self.old)))
            ⊎ (meaning (written self.old ++ bytes.now) ≡ None)) }
        ensures err { OnErr result (self.new ≡ self.old) };
}

impl<M: WireMessage> Codec for M {
    type E = CodecError;

    ghost use Rattle.ttrpc_wire.specs.Field.{fields_bytes};
    ghost use Rattle.ttrpc_wire.specs.Fold.{read_from};

    ghost written = { λ m. fields_bytes (M.fields m) };

    ghost meaning = { read_from M.step M.empty };

    fn size(&self) -> u32 {
        size(self)
    }

    fn encode(&self, alloc: Global) -> Result<Vec<u8>, CodecError> {
        encode(alloc, self)
    }

    fn decode(alloc: Global, bytes: &[u8]) -> Result<M, CodecError> {
        decode(alloc, bytes)
    }

    fn merge(&mut self, alloc: Global, bytes: &[u8]) -> Result<(), CodecError> {
        merge(alloc, self, bytes)
    }
}

/// Bytes as their own written form, so that a call which takes or returns bytes needs no message. Any bytes mean
/// themselves. A call fails only if memory is refused or, for `encode`, if there are 2^32 bytes or more.
impl Codec for Blob {
    type E = CodecError;

    ghost use Rattle.std.specs.Prelude.{Some};

    ghost written = { λ blob. blob };

    ghost meaning = { λ bytes. Some bytes };

    fn size(&self) -> u32 {
        saturated(self.len() as u64)
    }

    fn encode(&self, alloc: Global) -> Result<Vec<u8>, CodecError> {
        if self.len() > u32::MAX as usize {
            return Err(CodecError::TooLong);
        }
        Ok(Vec::from_slice(alloc, self.as_slice())?)
    }

    fn decode(alloc: Global, bytes: &[u8]) -> Result<Blob, CodecError> {
        Ok(Blob::from_slice(alloc, bytes)?)
    }

    fn merge(&mut self, alloc: Global, bytes: &[u8]) -> Result<(), CodecError> {
        let mut whole = Vec::from_slice(alloc, self.as_slice())?;
        whole.extend_from_slice(bytes)?;
        *self = Blob::from_vec(whole);
        Ok(())
    }
}
