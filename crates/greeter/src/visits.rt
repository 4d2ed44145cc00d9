//! The messages of the method `Visits`: a request without fields, and a reply with bytes, a number and a list of
//! messages.

use std::alloc::{AllocError, Global};
use ttrpc::proto::members::{
    delimited_len, lemma_are_values, number_len, parts_len, put_delimited, put_number, put_parts,
};
use ttrpc::proto::{Blob, Codec, KeyValue, Sequence, TryClone, WireMessage};
use ttrpc::wire::{CodecError, Field, FieldNumber, Value, int64_to_varint, varint_to_int64};

/// Asks for the greetings so far.
#[derive(Drop)]
pub struct VisitsRequest {}

impl TryClone for VisitsRequest {
    fn try_clone(&self) -> Result<VisitsRequest, AllocError> {
        Ok(VisitsRequest {})
    }
}

impl WireMessage for VisitsRequest {
    ghost use Rattle.std.specs.Prelude.{[], Some, refl};

    ghost is_value = { λ _. Unit {0} };

    ghost empty = { record {} };

    ghost step = { λ request _. Some request };

    ghost fields = { λ _. [] };

    fn new(_alloc: Global) -> VisitsRequest {
        VisitsRequest {}
    }

    fn put(&mut self, _alloc: Global, _field: Field<'_>) -> Result<(), CodecError> {
        Ok(())
    }

    fn length(&self) -> u64 {
        0
    }

    fn write(&self, _out: &mut Vec<u8>) -> Result<(), CodecError> {
        Ok(())
    }

    fn lemma_is_value(&self) {}

    ghost again = { λ _ _ _. refl };

    ghost fits = { λ _ _ _. tt };
}

/// The greetings so far.
#[derive(Drop)]
pub struct VisitsReply {
    /// Changes with each greeting.
    pub token: Blob,
    /// The number of greetings.
    pub count: i64,
    /// Each greeted name, with its language.
    pub languages: Sequence<KeyValue>,
}

const TOKEN: FieldNumber = FieldNumber { value: 1 };

const COUNT: FieldNumber = FieldNumber { value: 2 };

const LANGUAGES: FieldNumber = FieldNumber { value: 3 };

impl TryClone for VisitsReply {
    fn try_clone(&self) -> Result<VisitsReply, AllocError> {
        Ok(VisitsReply {
            token: self.token.try_clone()?,
            count: self.count,
            languages: self.languages.try_clone()?,
        })
    }
}

impl WireMessage for VisitsReply {
    ghost use Rattle.greeter.specs.Visits.{IsVisits, empty_visits, visits_step, visits_fields, visits_again, visits_fits};

    ghost is_value = { IsVisits };

    ghost empty = { empty_visits };

    ghost step = { visits_step };

    ghost fields = { visits_fields };

    fn new(alloc: Global) -> VisitsReply {
        VisitsReply {
            token: Blob::new(alloc),
            count: 0,
            languages: Sequence::new(alloc),
        }
    }

    fn put(&mut self, alloc: Global, field: Field<'_>) -> Result<(), CodecError> {
        match (field.number.value, field.value) {
            (1, Value::LengthDelimited(bytes)) => self.token = Blob::from_slice(alloc, bytes)?,
            (2, Value::Varint(n)) => self.count = varint_to_int64(n),
            (3, Value::LengthDelimited(bytes)) => {
                self.languages.push(KeyValue::decode(alloc, bytes)?)?
            }
            _ => {}
        }
        Ok(())
    }

    #[tactic(auto, using(ttrpc_wire::proofs::Written::fields_len))]
    fn length(&self) -> u64 {
        delimited_len(TOKEN, self.token.as_slice())
            .saturating_add(number_len(COUNT, int64_to_varint(self.count)))
            .saturating_add(parts_len(LANGUAGES, self.languages.as_slice()))
    }

    #[tactic(auto, using(ttrpc_wire::proofs::Written::fields_then, ttrpc_wire::proofs::Written::fields_len))]
    fn write(&self, out: &mut Vec<u8>) -> Result<(), CodecError> {
        put_delimited(out, TOKEN, self.token.as_slice())?;
        put_number(out, COUNT, int64_to_varint(self.count))?;
        put_parts(out, LANGUAGES, self.languages.as_slice())
    }

    fn lemma_is_value(&self) {
        let _count = self.count;
        lemma_are_values(self.languages.as_slice());
    }

    ghost again = { visits_again };

    ghost fits = { visits_fits };
}
