//! The data that are known of a connection, under names.
ghost use Rattle.std.specs.Prelude.{◌≡◌, ℕ, List, Option};
ghost use Rattle.std.specs.Option.{option_and_then, option_copied};

use crate::hooks::kinds::Kind;
use std::collections::BTreeMap;

/// A value that is known of a connection: a text, a whole number, a truth value, or bytes.
#[derive(Debug, Drop, PartialEq)]
pub enum Datum {
    Text(String),
    Bool(bool),
    I8(i8),
    I16(i16),
    I32(i32),
    I64(i64),
    I128(i128),
    Isize(isize),
    U8(u8),
    U16(u16),
    U32(u32),
    U64(u64),
    U128(u128),
    Usize(usize),
    Bytes(Vec<u8>),
}

/// The data that are known of a connection, under names.
pub type ConnectionData = BTreeMap<String, Datum>;

/// Reading of the data that are known of a connection, by name and kind.
pub trait ConnectionDataExt {
    ghost use Rattle.ttrpc_secure.specs.declared.hooks.datum.Datum.{Datum};

    // The value that is known under a name, if there is one.
    ghost known: { Self → List ℕ → Option Datum };

    /// Returns the value under a name, or `None` if there is no value of this kind under the name.
    fn get_typed<T: Kind>(&self, key: &str) -> Option<&T>
        ensures { option_copied result ≡ option_and_then T.of (known self.now key.now) };
}

impl ConnectionDataExt for ConnectionData {
    ghost use Rattle.std.specs.BTreeMap.{get_by_text};

    ghost known = { get_by_text };

    fn get_typed<T: Kind>(&self, key: &str) -> Option<&T> {
        T::of_datum(self.get(key)?)
    }
}
