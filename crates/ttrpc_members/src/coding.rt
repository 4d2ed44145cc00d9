//! The codings of members' numbers: the number that is written for a value, and the value that a number means.
ghost use Rattle.std.specs.Prelude.{◌≡◌, ℕ, ◌*◌, ◌^◌};
ghost use Rattle.ttrpc_members.specs.Items.{Coding, zigzag as zigzag_of, unzigzag as unzigzag_of};

use ttrpc_wire::{int32_to_varint, int64_to_varint, varint_to_int32, varint_to_int64};

/// A coding of 64 bits. The type that implements it represents the coding; the numbers are values of `Value`.
pub trait Coding64 {
    type Value: Copy + Drop;

    /// How a value is written and read.
    ghost coding: { Coding Self.Value };

    /// Returns the number that is written for a value.
    fn code(value: Self::Value) -> u64
        ensures { result ≡ coding.code value };

    /// Returns the value that a number means.
    fn decode(n: u64) -> Self::Value
        ensures { result ≡ coding.decode n };

    /// A lemma, which does nothing when it runs: the number is a value of its kind.
    fn lemma_is_value(value: &Self::Value)
        ensures { coding.is_value value.now };
}

/// A coding of 32 bits, otherwise like `Coding64`.
pub trait Coding32 {
    type Value: Copy + Drop;

    /// How a value is written and read.
    ghost coding: { Coding Self.Value };

    /// Returns the number that is written for a value.
    fn code(value: Self::Value) -> u32
        ensures { result ≡ coding.code value };

    /// Returns the value that a number means.
    fn decode(n: u32) -> Self::Value
        ensures { result ≡ coding.decode n };

    /// A lemma, which does nothing when it runs: the number is a value of its kind.
    fn lemma_is_value(value: &Self::Value)
        ensures { coding.is_value value.now };
}

/// `int32`, and the number of an enum, which is open.
pub struct Int32Coding {}

impl Coding64 for Int32Coding {
    ghost use Rattle.ttrpc_members.specs.Items.{int32};

    type Value = i32;

    ghost coding = { int32 };

    fn code(value: i32) -> u64 {
        int32_to_varint(value)
    }

    fn decode(n: u64) -> i32 {
        varint_to_int32(n)
    }

    fn lemma_is_value(value: &i32) {
        let _value = *value;
    }
}

/// `int64` and `sfixed64`.
pub struct Int64Coding {}

impl Coding64 for Int64Coding {
    ghost use Rattle.ttrpc_members.specs.Items.{int64};

    type Value = i64;

    ghost coding = { int64 };

    fn code(value: i64) -> u64 {
        int64_to_varint(value)
    }

    fn decode(n: u64) -> i64 {
        varint_to_int64(n)
    }

    fn lemma_is_value(value: &i64) {
        let _value = *value;
    }
}

/// `uint32`.
pub struct Uint32Coding {}

impl Coding64 for Uint32Coding {
    ghost use Rattle.ttrpc_members.specs.Items.{uint32};

    type Value = u32;

    ghost coding = { uint32 };

    fn code(value: u32) -> u64 {
        value as u64
    }

    fn decode(n: u64) -> u32 {
        (n % 4294967296) as u32
    }

    fn lemma_is_value(value: &u32) {
        let _value = *value;
    }
}

/// `uint64` and `fixed64`, and the bits of a `double`.
pub struct Uint64Coding {}

impl Coding64 for Uint64Coding {
    ghost use Rattle.ttrpc_members.specs.Items.{uint64};

    type Value = u64;

    ghost coding = { uint64 };

    fn code(value: u64) -> u64 {
        value
    }

    fn decode(n: u64) -> u64 {
        n
    }

    fn lemma_is_value(value: &u64) {
        let _value = *value;
    }
}

/// `sint32`: zigzag, by the low 32 bits.
pub struct Sint32Coding {}

impl Coding64 for Sint32Coding {
    ghost use Rattle.ttrpc_members.specs.Items.{sint32};

    type Value = i32;

    ghost coding = { sint32 };

    fn code(value: i32) -> u64 {
        zigzag(value as i64)
    }

    fn decode(n: u64) -> i32 {
        unzigzag(n % 4294967296) as i32
    }

    fn lemma_is_value(value: &i32) {
        let _value = *value;
    }
}

/// `sint64`: zigzag.
pub struct Sint64Coding {}

impl Coding64 for Sint64Coding {
    ghost use Rattle.ttrpc_members.specs.Items.{sint64};

    type Value = i64;

    ghost coding = { sint64 };

    fn code(value: i64) -> u64 {
        zigzag(value)
    }

    fn decode(n: u64) -> i64 {
        unzigzag(n)
    }

    fn lemma_is_value(value: &i64) {
        let _value = *value;
    }
}

/// `bool`: any number but 0 is true.
pub struct BooleanCoding {}

impl Coding64 for BooleanCoding {
    ghost use Rattle.ttrpc_members.specs.Items.{boolean};

    type Value = bool;

    ghost coding = { boolean };

    fn code(value: bool) -> u64 {
        u64::from(value)
    }

    fn decode(n: u64) -> bool {
        n != 0
    }

    fn lemma_is_value(value: &bool) {
        let _value = *value;
    }
}

/// `fixed32`, and the bits of a `float`.
pub struct Bits32Coding {}

impl Coding32 for Bits32Coding {
    ghost use Rattle.ttrpc_members.specs.Items.{uint32};

    type Value = u32;

    ghost coding = { uint32 };

    fn code(value: u32) -> u32 {
        value
    }

    fn decode(n: u32) -> u32 {
        n
    }

    fn lemma_is_value(value: &u32) {
        let _value = *value;
    }
}

/// `sfixed32`.
pub struct Signed32Coding {}

impl Coding32 for Signed32Coding {
    ghost use Rattle.ttrpc_members.specs.Items.{sfixed32};

    type Value = i32;

    ghost coding = { sfixed32 };

    fn code(value: i32) -> u32 {
        value.cast_unsigned()
    }

    fn decode(n: u32) -> i32 {
        n.cast_signed()
    }

    fn lemma_is_value(value: &i32) {
        let _value = *value;
    }
}

/// Returns the number that is written for a signed value: an even number for a value from 0 on, and an odd number for a
/// value below.
fn zigzag(value: i64) -> u64
    ensures { result ≡ zigzag_of value }
{
    if value < 0 {
        (-(value + 1)) as u64 * 2 + 1
    } else {
        value as u64 * 2
    }
}

/// Returns the signed value that a number means.
fn unzigzag(n: u64) -> i64
    ensures { result ≡ unzigzag_of n }
{
    let half = (n / 2) as i64;
    if n % 2 == 0 { half } else { -half - 1 }
}
