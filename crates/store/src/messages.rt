//! The messages of store.proto.
//! Written by tools/messages from store.proto: change that, and run the tool.

use std::alloc::{AllocError, Global};
use ttrpc_members::item::{Bytes, Int64, Nested, Utf8};
use ttrpc_members::kind::{MemberKind, Optional, Single};
use ttrpc_members::named::Named;
use ttrpc_wire::codec::message::WireMessage;
use ttrpc_wire::{Blob, CodecError, Field, FieldNumber, Text, TryClone};

/// A value under a key.
#[derive(Drop)]
pub struct Entry {
    /// Field 1.
    pub key: Text,
    /// Field 2.
    pub value: Blob,
    /// How often the key was given a value.
    pub version: i64,
}

const ENTRY_KEY: FieldNumber = FieldNumber { value: 1 };

const ENTRY_VALUE: FieldNumber = FieldNumber { value: 2 };

const ENTRY_VERSION: FieldNumber = FieldNumber { value: 3 };

impl TryClone for Entry {
    fn try_clone(&self) -> Result<Entry, AllocError> {
        let key = Single::<Utf8>::try_clone(&self.key)?;
        let value = Single::<Bytes>::try_clone(&self.value)?;
        Ok(Entry {
            key,
            value,
            version: self.version,
        })
    }
}

impl WireMessage for Entry {
    ghost use Rattle.store.specs.Messages.{entry};

    ghost is_value = { entry.part.is_value };

    ghost empty = { entry.part.empty };

    ghost step = { entry.part.step };

    ghost fields = { entry.part.fields };

    fn new(alloc: Global) -> Entry {
        Entry {
            key: Single::<Utf8>::empty(alloc),
            value: Single::<Bytes>::empty(alloc),
            version: Single::<Int64>::empty(alloc),
        }
    }

    fn put(&mut self, alloc: Global, field: Field<'_>) -> Result<(), CodecError> {
        match field.number.value {
            1 => Single::<Utf8>::take(&mut self.key, alloc, field.value),
            2 => Single::<Bytes>::take(&mut self.value, alloc, field.value),
            3 => Single::<Int64>::take(&mut self.version, alloc, field.value),
            _ => Ok(()),
        }
    }

    #[tactic(auto, using(ttrpc_members::proofs::Groups::flat_measured))]
    fn length(&self) -> u64 {
        let len: u64 = 0;
        let len = len.saturating_add(Single::<Utf8>::length(&self.key, ENTRY_KEY));
        let len = len.saturating_add(Single::<Bytes>::length(&self.value, ENTRY_VALUE));
        len.saturating_add(Single::<Int64>::length(&self.version, ENTRY_VERSION))
    }

    #[tactic(auto, using(ttrpc_members::proofs::Groups::flat_written, ttrpc_members::proofs::Groups::flat_len))]
    fn write(&self, out: &mut Vec<u8>) -> Result<(), CodecError> {
        Single::<Utf8>::write(&self.key, ENTRY_KEY, out)?;
        Single::<Bytes>::write(&self.value, ENTRY_VALUE, out)?;
        Single::<Int64>::write(&self.version, ENTRY_VERSION, out)
    }

    fn lemma_is_value(&self) {
        Single::<Utf8>::lemma_is_value(&self.key);
        Single::<Bytes>::lemma_is_value(&self.value);
        Single::<Int64>::lemma_is_value(&self.version);
    }

    ghost again = { entry.laws.again entry.valid };

    ghost fits = { entry.laws.fits entry.valid };
}

impl Named for Entry {
    ghost use Rattle.std.specs.Prelude.{codes};

    ghost full_name = { codes "example.Entry" };

    fn full_name() -> &'static str {
        "example.Entry"
    }
}

/// The message `example.GetRequest`.
#[derive(Drop)]
pub struct GetRequest {
    /// Field 1.
    pub key: Text,
}

const GET_REQUEST_KEY: FieldNumber = FieldNumber { value: 1 };

impl TryClone for GetRequest {
    fn try_clone(&self) -> Result<GetRequest, AllocError> {
        let key = Single::<Utf8>::try_clone(&self.key)?;
        Ok(GetRequest { key })
    }
}

impl WireMessage for GetRequest {
    ghost use Rattle.store.specs.Messages.{get_request};

    ghost is_value = { get_request.part.is_value };

    ghost empty = { get_request.part.empty };

    ghost step = { get_request.part.step };

    ghost fields = { get_request.part.fields };

    fn new(alloc: Global) -> GetRequest {
        GetRequest {
            key: Single::<Utf8>::empty(alloc),
        }
    }

    fn put(&mut self, alloc: Global, field: Field<'_>) -> Result<(), CodecError> {
        match field.number.value {
            1 => Single::<Utf8>::take(&mut self.key, alloc, field.value),
            _ => Ok(()),
        }
    }

    #[tactic(auto, using(ttrpc_members::proofs::Groups::flat_measured))]
    fn length(&self) -> u64 {
        let len: u64 = 0;
        len.saturating_add(Single::<Utf8>::length(&self.key, GET_REQUEST_KEY))
    }

    #[tactic(auto, using(ttrpc_members::proofs::Groups::flat_written, ttrpc_members::proofs::Groups::flat_len))]
    fn write(&self, out: &mut Vec<u8>) -> Result<(), CodecError> {
        Single::<Utf8>::write(&self.key, GET_REQUEST_KEY, out)
    }

    fn lemma_is_value(&self) {
        Single::<Utf8>::lemma_is_value(&self.key);
    }

    ghost again = { get_request.laws.again get_request.valid };

    ghost fits = { get_request.laws.fits get_request.valid };
}

impl Named for GetRequest {
    ghost use Rattle.std.specs.Prelude.{codes};

    ghost full_name = { codes "example.GetRequest" };

    fn full_name() -> &'static str {
        "example.GetRequest"
    }
}

/// The message `example.GetResponse`.
#[derive(Drop)]
pub struct GetResponse {
    /// None where the key has no value.
    pub entry: Option<Entry>,
}

const GET_RESPONSE_ENTRY: FieldNumber = FieldNumber { value: 1 };

impl TryClone for GetResponse {
    fn try_clone(&self) -> Result<GetResponse, AllocError> {
        let entry = Optional::<Nested<Entry>>::try_clone(&self.entry)?;
        Ok(GetResponse { entry })
    }
}

impl WireMessage for GetResponse {
    ghost use Rattle.store.specs.Messages.{get_response};

    ghost is_value = { get_response.part.is_value };

    ghost empty = { get_response.part.empty };

    ghost step = { get_response.part.step };

    ghost fields = { get_response.part.fields };

    fn new(alloc: Global) -> GetResponse {
        GetResponse {
            entry: Optional::<Nested<Entry>>::empty(alloc),
        }
    }

    fn put(&mut self, alloc: Global, field: Field<'_>) -> Result<(), CodecError> {
        match field.number.value {
            1 => Optional::<Nested<Entry>>::take(&mut self.entry, alloc, field.value),
            _ => Ok(()),
        }
    }

    #[tactic(auto, using(ttrpc_members::proofs::Groups::flat_measured))]
    fn length(&self) -> u64 {
        let len: u64 = 0;
        len.saturating_add(Optional::<Nested<Entry>>::length(&self.entry, GET_RESPONSE_ENTRY))
    }

    #[tactic(auto, using(ttrpc_members::proofs::Groups::flat_written, ttrpc_members::proofs::Groups::flat_len))]
    fn write(&self, out: &mut Vec<u8>) -> Result<(), CodecError> {
        Optional::<Nested<Entry>>::write(&self.entry, GET_RESPONSE_ENTRY, out)
    }

    fn lemma_is_value(&self) {
        Optional::<Nested<Entry>>::lemma_is_value(&self.entry);
    }

    ghost again = { get_response.laws.again get_response.valid };

    ghost fits = { get_response.laws.fits get_response.valid };
}

impl Named for GetResponse {
    ghost use Rattle.std.specs.Prelude.{codes};

    ghost full_name = { codes "example.GetResponse" };

    fn full_name() -> &'static str {
        "example.GetResponse"
    }
}

/// The message `example.PutResponse`.
#[derive(Drop)]
pub struct PutResponse {
    /// Field 1.
    pub version: i64,
}

const PUT_RESPONSE_VERSION: FieldNumber = FieldNumber { value: 1 };

impl TryClone for PutResponse {
    fn try_clone(&self) -> Result<PutResponse, AllocError> {
        Ok(PutResponse {
            version: self.version,
        })
    }
}

impl WireMessage for PutResponse {
    ghost use Rattle.store.specs.Messages.{put_response};

    ghost is_value = { put_response.part.is_value };

    ghost empty = { put_response.part.empty };

    ghost step = { put_response.part.step };

    ghost fields = { put_response.part.fields };

    fn new(alloc: Global) -> PutResponse {
        PutResponse {
            version: Single::<Int64>::empty(alloc),
        }
    }

    fn put(&mut self, alloc: Global, field: Field<'_>) -> Result<(), CodecError> {
        match field.number.value {
            1 => Single::<Int64>::take(&mut self.version, alloc, field.value),
            _ => Ok(()),
        }
    }

    #[tactic(auto, using(ttrpc_members::proofs::Groups::flat_measured))]
    fn length(&self) -> u64 {
        let len: u64 = 0;
        len.saturating_add(Single::<Int64>::length(&self.version, PUT_RESPONSE_VERSION))
    }

    #[tactic(auto, using(ttrpc_members::proofs::Groups::flat_written, ttrpc_members::proofs::Groups::flat_len))]
    fn write(&self, out: &mut Vec<u8>) -> Result<(), CodecError> {
        Single::<Int64>::write(&self.version, PUT_RESPONSE_VERSION, out)
    }

    fn lemma_is_value(&self) {
        Single::<Int64>::lemma_is_value(&self.version);
    }

    ghost again = { put_response.laws.again put_response.valid };

    ghost fits = { put_response.laws.fits put_response.valid };
}

impl Named for PutResponse {
    ghost use Rattle.std.specs.Prelude.{codes};

    ghost full_name = { codes "example.PutResponse" };

    fn full_name() -> &'static str {
        "example.PutResponse"
    }
}
