//! Packs a message in an `Any`, and unpacks it.
ghost use Rattle.std.specs.Prelude.{◌≡◌, ◌≢◌, ◌≤◌, ◌^◌, ◌++◌, ◌↔◌, length, List, ℕ, Option, Some, None, IfOk, IfErr, IsTrue};
ghost use Rattle.ttrpc_wire.specs.Field.{fields_bytes};
ghost use Rattle.ttrpc_wire.specs.Fold.{read_from};
ghost use Rattle.ttrpc_well_known.specs.Any.{Names, googles};

use crate::messages::Any;
use std::alloc::Global;
use ttrpc_members::named::Named;
use ttrpc_wire::codec::Codec;
use ttrpc_wire::{Blob, CodecError, Text};

/// The text before a message's name in an address.
const GOOGLES: &str = "type.googleapis.com/";

impl Any {
    /// Packs a message under its full name. Returns `TooLong` if its written form is 2^32 bytes or longer. The only
    /// other error is that memory was refused.
    pub fn pack<M: Named>(alloc: Global, message: &M) -> Result<Any, CodecError>
        ensures ok { IfOk result (λ any. (any.type_url ≡ googles ++ M.full_name)
            × (any.value ≡ fields_bytes (M.fields message.now))) }
        ensures refused { IfErr result (λ e. e ≢ CodecError.NoMemory
            → (e ≡ CodecError.TooLong) × (2 ^ 32 ≤ length (fields_bytes (M.fields message.now)))) }
    {
        let value = Blob::from_vec(message.encode(alloc)?);
        let mut url = String::from_str(alloc, GOOGLES)?;
        url.push_str(M::full_name())?;
        let type_url = Text::from_string(url);
        Ok(Any { type_url, value })
    }

    /// Returns whether the packed message is of this type, by its name.
    pub fn is<M: Named>(&self) -> bool
        ensures { IsTrue result ↔ Names self.now.type_url M.full_name }
    {
        names(self.type_url.as_bytes(), M::full_name().as_bytes())
    }

    /// Returns the packed message, or `None` if it is of another type. Returns an error only if memory is refused or if
    /// the bytes are no such message.
    pub fn unpack<M: Named>(&self, alloc: Global) -> Result<Option<M>, CodecError>
        ensures some { IfOk result (λ found. (m : M) → found ≡ Some m
            → Names self.now.type_url M.full_name
            × (read_from M.step M.empty self.now.value ≡ Some m)) }
        ensures none { IfOk result
            (λ found. found ≡ None → ¬ (Names self.now.type_url M.full_name)) }
        ensures refused { IfErr result (λ e. e ≢ CodecError.NoMemory
            → Names self.now.type_url M.full_name
            × (read_from M.step M.empty self.now.value ≡ None)) }
    {
        if !self.is::<M>() {
            return Ok(None);
        }
        Ok(Some(M::decode(alloc, self.value.as_slice())?))
    }
}

/// Returns whether an address names a message: it ends in a slash and the full name.
fn names(url: &[u8], name: &[u8]) -> bool
    ensures { IsTrue result ↔ Names url.now name.now }
{
    match url.strip_suffix(name) {
        Some(before) => before.ends_with(b"/"),
        None => false,
    }
}
