//! The kinds of values that may be known of a connection.
ghost use Rattle.std.specs.Prelude.{◌≡◌, Option};
ghost use Rattle.std.specs.Option.{option_copied};

use crate::hooks::datum::Datum;

/// A type of values that a datum may hold.
pub trait Kind: Sized {
    ghost use Rattle.ttrpc_secure.specs.declared.hooks.datum.Datum.{Datum};

    // The value of a datum, if the datum is of this kind.
    ghost of: { Datum → Option Self };

    /// Returns the value of a datum, or `None` if the datum is of another kind.
    fn of_datum(datum: &Datum) -> Option<&Self>
        ensures { option_copied result ≡ of datum.now };
}

impl Kind for String {
    ghost use Rattle.ttrpc_secure.specs.Hooks.Kinds.{text_of};

    ghost of = { text_of };

    fn of_datum(datum: &Datum) -> Option<&String> {
        match datum {
            Datum::Text(text) => Some(text),
            _ => None,
        }
    }
}

impl Kind for bool {
    ghost use Rattle.ttrpc_secure.specs.Hooks.Kinds.{bool_of};

    ghost of = { bool_of };

    fn of_datum(datum: &Datum) -> Option<&bool> {
        match datum {
            Datum::Bool(value) => Some(value),
            _ => None,
        }
    }
}

impl Kind for i8 {
    ghost use Rattle.ttrpc_secure.specs.Hooks.Kinds.{i8_of};

    ghost of = { i8_of };

    fn of_datum(datum: &Datum) -> Option<&i8> {
        match datum {
            Datum::I8(number) => Some(number),
            _ => None,
        }
    }
}

impl Kind for i16 {
    ghost use Rattle.ttrpc_secure.specs.Hooks.Kinds.{i16_of};

    ghost of = { i16_of };

    fn of_datum(datum: &Datum) -> Option<&i16> {
        match datum {
            Datum::I16(number) => Some(number),
            _ => None,
        }
    }
}

impl Kind for i32 {
    ghost use Rattle.ttrpc_secure.specs.Hooks.Kinds.{i32_of};

    ghost of = { i32_of };

    fn of_datum(datum: &Datum) -> Option<&i32> {
        match datum {
            Datum::I32(number) => Some(number),
            _ => None,
        }
    }
}

impl Kind for i64 {
    ghost use Rattle.ttrpc_secure.specs.Hooks.Kinds.{i64_of};

    ghost of = { i64_of };

    fn of_datum(datum: &Datum) -> Option<&i64> {
        match datum {
            Datum::I64(number) => Some(number),
            _ => None,
        }
    }
}

impl Kind for i128 {
    ghost use Rattle.ttrpc_secure.specs.Hooks.Kinds.{i128_of};

    ghost of = { i128_of };

    fn of_datum(datum: &Datum) -> Option<&i128> {
        match datum {
            Datum::I128(number) => Some(number),
            _ => None,
        }
    }
}

impl Kind for isize {
    ghost use Rattle.ttrpc_secure.specs.Hooks.Kinds.{isize_of};

    ghost of = { isize_of };

    fn of_datum(datum: &Datum) -> Option<&isize> {
        match datum {
            Datum::Isize(number) => Some(number),
            _ => None,
        }
    }
}

impl Kind for u8 {
    ghost use Rattle.ttrpc_secure.specs.Hooks.Kinds.{u8_of};

    ghost of = { u8_of };

    fn of_datum(datum: &Datum) -> Option<&u8> {
        match datum {
            Datum::U8(number) => Some(number),
            _ => None,
        }
    }
}

impl Kind for u16 {
    ghost use Rattle.ttrpc_secure.specs.Hooks.Kinds.{u16_of};

    ghost of = { u16_of };

    fn of_datum(datum: &Datum) -> Option<&u16> {
        match datum {
            Datum::U16(number) => Some(number),
            _ => None,
        }
    }
}

impl Kind for u32 {
    ghost use Rattle.ttrpc_secure.specs.Hooks.Kinds.{u32_of};

    ghost of = { u32_of };

    fn of_datum(datum: &Datum) -> Option<&u32> {
        match datum {
            Datum::U32(number) => Some(number),
            _ => None,
        }
    }
}

impl Kind for u64 {
    ghost use Rattle.ttrpc_secure.specs.Hooks.Kinds.{u64_of};

    ghost of = { u64_of };

    fn of_datum(datum: &Datum) -> Option<&u64> {
        match datum {
            Datum::U64(number) => Some(number),
            _ => None,
        }
    }
}

impl Kind for u128 {
    ghost use Rattle.ttrpc_secure.specs.Hooks.Kinds.{u128_of};

    ghost of = { u128_of };

    fn of_datum(datum: &Datum) -> Option<&u128> {
        match datum {
            Datum::U128(number) => Some(number),
            _ => None,
        }
    }
}

impl Kind for usize {
    ghost use Rattle.ttrpc_secure.specs.Hooks.Kinds.{usize_of};

    ghost of = { usize_of };

    fn of_datum(datum: &Datum) -> Option<&usize> {
        match datum {
            Datum::Usize(number) => Some(number),
            _ => None,
        }
    }
}

impl Kind for Vec<u8> {
    ghost use Rattle.ttrpc_secure.specs.Hooks.Kinds.{bytes_of};

    ghost of = { bytes_of };

    fn of_datum(datum: &Datum) -> Option<&Vec<u8>> {
        match datum {
            Datum::Bytes(bytes) => Some(bytes),
            _ => None,
        }
    }
}
