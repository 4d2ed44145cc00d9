//! Signed numbers as the numbers of varints: 64-bit two's complement.
ghost use Rattle.std.specs.Prelude.{◌≡◌};
ghost use Rattle.ttrpc_wire.specs.Number.{number_of, int64_of, int32_of};

/// Returns the number that is written for an `int64`.
pub fn int64_to_varint(n: i64) -> u64
    ensures { result ≡ number_of n }
{
    n.cast_unsigned()
}

/// Returns the number that is written for an `int32`, which is the number of the equal `int64`.
pub fn int32_to_varint(n: i32) -> u64
    ensures { result ≡ number_of n }
{
    i64::from(n).cast_unsigned()
}

/// Returns the `int64` that is written as this number.
pub fn varint_to_int64(n: u64) -> i64
    ensures { result ≡ int64_of n }
{
    n.cast_signed()
}

/// Returns the `int32` in the low 32 bits of a number.
pub fn varint_to_int32(n: u64) -> i32
    ensures { result ≡ int32_of n }
{
    ((n % 4294967296) as u32).cast_signed()
}
