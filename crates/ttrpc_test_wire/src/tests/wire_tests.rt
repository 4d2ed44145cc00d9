//! The encoding guide's examples, edge cases, and each refusal.
use std::alloc::Global;
use std::test::Fail;
use ttrpc_bench::checks::{Tested, check, check_row};
use ttrpc_wire::{
    CodecError, Field, FieldNumber, Reader, Value, WireType, field_len, int32_to_varint,
    int64_to_varint, put_field, put_tag, put_varint, tag_len, varint_len, varint_to_int32,
    varint_to_int64,
};

/// Numbers, each with the varint that is written for it.
const WRITTEN: [(u64, &[u8]); 8] = [
    (0, &[0x00]),
    (1, &[0x01]),
    (127, &[0x7f]),
    (128, &[0x80, 0x01]),
    (150, &[0x96, 0x01]),
    (4294967295, &[0xff, 0xff, 0xff, 0xff, 0x0f]),
    (
        9223372036854775808,
        &[0x80, 0x80, 0x80, 0x80, 0x80, 0x80, 0x80, 0x80, 0x80, 0x01],
    ),
    (
        18446744073709551615,
        &[0xff, 0xff, 0xff, 0xff, 0xff, 0xff, 0xff, 0xff, 0xff, 0x01],
    ),
];

/// Returns whether the number is read from these bytes, and only the byte 7 is left after them.
fn leads(bytes: &[u8], n: u64) -> bool {
    let mut reader = Reader::new(bytes);
    reader.varint() == Ok(n) && reader.rest() == [7].as_slice()
}

/// Returns whether the number is written after other bytes with the right length, and read before other bytes.
fn varint_travels(alloc: Global, n: u64, bytes: &[u8]) -> Result<bool, Fail> {
    let mut out = Vec::from_slice(alloc, &[0xaa])?;
    put_varint(&mut out, n)?;
    let is_written = varint_len(n) == bytes.len() && out[0] == 0xaa && &out[1..] == bytes;
    put_varint(&mut out, 7)?;
    Ok(is_written && leads(&out[1..], n))
}

#[test]
fn varints_are_written_and_read(rt: HostRuntime) -> Tested {
    for (at, (n, bytes)) in WRITTEN.iter().enumerate() {
        check_row(at, varint_travels(rt.alloc(), *n, bytes)?)?;
    }
    Ok(())
}

/// Longer spellings of numbers.
const SPELLINGS: [(&[u8], u64); 4] = [
    (&[0x80, 0x00], 0),
    (
        &[0x80, 0x80, 0x80, 0x80, 0x80, 0x80, 0x80, 0x80, 0x80, 0x00],
        0,
    ),
    (&[0x96, 0x81, 0x00], 150),
    (
        &[0x81, 0x80, 0x80, 0x80, 0x80, 0x80, 0x80, 0x80, 0x80, 0x01],
        9223372036854775809,
    ),
];

/// Returns whether the bytes are read as this number, to their end.
fn is_spelled(bytes: &[u8], n: u64) -> bool {
    let mut reader = Reader::new(bytes);
    reader.varint() == Ok(n) && reader.is_empty()
}

#[test]
fn longer_spellings_are_read() -> Tested {
    for (at, (bytes, n)) in SPELLINGS.iter().enumerate() {
        check_row(at, is_spelled(bytes, *n))?;
    }
    Ok(())
}

/// No bytes, a cut spelling, an eleventh byte, and a tenth byte above 1.
const NO_VARINTS: [(&[u8], CodecError); 5] = [
    (&[], CodecError::Truncated),
    (&[0x80], CodecError::Truncated),
    (
        &[0xff, 0xff, 0xff, 0xff, 0xff, 0xff, 0xff, 0xff, 0xff],
        CodecError::Truncated,
    ),
    (
        &[
            0x80, 0x80, 0x80, 0x80, 0x80, 0x80, 0x80, 0x80, 0x80, 0x80, 0x00,
        ],
        CodecError::BadVarint,
    ),
    (
        &[0xff, 0xff, 0xff, 0xff, 0xff, 0xff, 0xff, 0xff, 0xff, 0x02],
        CodecError::BadVarint,
    ),
];

/// Returns whether the bytes are refused as a varint, and the reader is unchanged.
fn is_no_varint(bytes: &[u8], error: CodecError) -> bool {
    let mut reader = Reader::new(bytes);
    reader.varint() == Err(error) && reader.rest() == bytes
}

#[test]
fn what_is_no_varint_is_refused() -> Tested {
    for (at, (bytes, error)) in NO_VARINTS.iter().enumerate() {
        check_row(at, is_no_varint(bytes, *error))?;
    }
    Ok(())
}

/// Numbers 0 and 2^29, and wire types 3, 4, 6 and 7.
const NO_TAGS: [(&[u8], CodecError); 7] = [
    (&[0x00, 0x01], CodecError::BadTag),
    (&[0x02, 0x00], CodecError::BadTag),
    (&[0x80, 0x80, 0x80, 0x80, 0x10, 0x01], CodecError::BadTag),
    (&[0x0b], CodecError::BadWireType),
    (&[0x0c], CodecError::BadWireType),
    (&[0x0e], CodecError::BadWireType),
    (&[0x0f], CodecError::BadWireType),
];

/// Returns whether the bytes are refused as a tag and as a field, and the reader is unchanged.
fn is_no_tag(bytes: &[u8], error: CodecError) -> bool {
    let mut reader = Reader::new(bytes);
    reader.tag() == Err(error) && reader.field() == Err(error) && reader.rest() == bytes
}

#[test]
fn what_is_no_tag_is_refused() -> Tested {
    for (at, (bytes, error)) in NO_TAGS.iter().enumerate() {
        check_row(at, is_no_tag(bytes, *error))?;
    }
    Ok(())
}

/// Fields of each wire type, and their bytes. The first two are the guide's.
const FIELDS: [(u32, Value<'static>, &[u8]); 6] = [
    (1, Value::Varint(150), &[0x08, 0x96, 0x01]),
    (2, Value::LengthDelimited(b"testing"), b"\x12\x07testing"),
    (
        1,
        Value::Fixed64(0x0807060504030201),
        &[0x09, 1, 2, 3, 4, 5, 6, 7, 8],
    ),
    (3, Value::Fixed32(0x04030201), &[0x1d, 1, 2, 3, 4]),
    (16, Value::LengthDelimited(b""), &[0x82, 0x01, 0x00]),
    (
        536870911,
        Value::Varint(0),
        &[0xf8, 0xff, 0xff, 0xff, 0x0f, 0x00],
    ),
];

/// Returns whether the field is written as these bytes with the right length, and read before other bytes.
fn field_travels(alloc: Global, field: Field<'_>, bytes: &[u8]) -> Result<bool, Fail> {
    let mut out = Vec::new(alloc);
    put_field(&mut out, field)?;
    let is_written = out.as_slice() == bytes && field_len(field) == bytes.len();
    put_field(&mut out, field)?;
    Ok(is_written && is_read(out.as_slice(), field, bytes))
}

/// Returns whether the field is read before these bytes, which are then skipped as a field.
fn is_read(twice: &[u8], field: Field<'_>, bytes: &[u8]) -> bool {
    let mut reader = Reader::new(twice);
    reader.field() == Ok(field)
        && reader.rest() == bytes
        && reader.tag().is_ok()
        && reader.skip(field.value.wire_type()).is_ok()
        && reader.is_empty()
}

/// Returns whether the field's tag is written with the right length, and is at the front of the field's bytes.
fn tag_travels(alloc: Global, field: Field<'_>, bytes: &[u8]) -> Result<bool, Fail> {
    let mut out = Vec::new(alloc);
    put_tag(&mut out, field.tag())?;
    Ok(
        out.len() == tag_len(field.tag())
            && bytes.starts_with(out.as_slice())
            && Reader::new(bytes).tag() == Ok(field.tag()),
    )
}

#[test]
fn fields_are_written_and_read(rt: HostRuntime) -> Tested {
    for (at, (number, value, bytes)) in FIELDS.iter().enumerate() {
        let number = FieldNumber::new(*number).ok_or("it is a field's number")?;
        let value = *value;
        let field = Field { number, value };
        let travels = field_travels(rt.alloc(), field, bytes)?;
        check_row(at, travels && tag_travels(rt.alloc(), field, bytes)?)?;
    }
    Ok(())
}

/// Returns whether the bytes are refused as a field that is cut, and the reader is unchanged.
fn is_cut(bytes: &[u8]) -> bool {
    let mut reader = Reader::new(bytes);
    reader.field() == Err(CodecError::Truncated) && reader.rest() == bytes
}

/// Returns whether each front of the bytes is refused as a field that is cut.
fn is_cut_anywhere(bytes: &[u8]) -> bool {
    let mut all = true;
    for end in 0..bytes.len() {
        all = all && is_cut(&bytes[..end]);
    }
    all
}

#[test]
fn cut_fields_are_refused() -> Tested {
    for (at, (_, _, bytes)) in FIELDS.iter().enumerate() {
        check_row(at, is_cut_anywhere(bytes))?;
    }
    Ok(())
}

#[test]
fn values_are_read_by_their_wire_type() -> Tested {
    let bytes = b"\x01\x02\x03\x04\x05\x06\x07\x08\x01\x02\x03\x04\x02hi\x07";
    let mut reader = Reader::new(bytes);
    check(
        reader.fixed64() == Ok(0x0807060504030201)
            && reader.fixed32() == Ok(0x04030201)
            && reader.length_delimited() == Ok(b"hi".as_slice())
            && reader.value(WireType::Varint) == Ok(Value::Varint(7))
            && reader.value(WireType::Varint) == Err(CodecError::Truncated),
    )
}

#[test]
fn values_that_are_cut_are_refused() -> Tested {
    let mut reader = Reader::new(b"\x07");
    check(
        reader.fixed32() == Err(CodecError::Truncated)
            && reader.fixed64() == Err(CodecError::Truncated)
            && reader.length_delimited() == Err(CodecError::Truncated)
            && reader.rest() == b"\x07".as_slice(),
    )
}

/// A length of 2^64 - 1 with one byte is refused.
#[test]
fn a_length_past_the_end_is_refused() -> Tested {
    let bytes = [
        0x12, 0xff, 0xff, 0xff, 0xff, 0xff, 0xff, 0xff, 0xff, 0xff, 0x01, 0x61,
    ];
    check(is_cut(&bytes))
}

/// The guide's -2.
const MINUS_TWO: &[u8] = &[0xfe, 0xff, 0xff, 0xff, 0xff, 0xff, 0xff, 0xff, 0xff, 0x01];

/// Returns whether each of these numbers comes back.
fn come_back(longs: &[i64], shorts: &[i32]) -> bool {
    longs
        .iter()
        .all(|n| varint_to_int64(int64_to_varint(*n)) == *n)
        && shorts
            .iter()
            .all(|n| varint_to_int32(int32_to_varint(*n)) == *n)
}

/// Returns whether bits above the low 32 are ignored if 32 are asked for.
fn are_cut_to_32_bits() -> bool {
    varint_to_int32(4294967301) == 5
        && varint_to_int32(4294967295) == -1
        && varint_to_int64(4294967295) == 4294967295
}

/// The guide's -2, the ends of both ranges, and bits above the low 32.
#[test]
fn signed_numbers(rt: HostRuntime) -> Tested {
    let mut out = Vec::new(rt.alloc());
    put_varint(&mut out, int64_to_varint(-2))?;
    check(
        out.as_slice() == MINUS_TWO
            && int32_to_varint(-2) == int64_to_varint(-2)
            && come_back(
                &[0, 1, -1, i64::MAX, i64::MIN],
                &[0, 1, -1, i32::MAX, i32::MIN],
            )
            && are_cut_to_32_bits(),
    )
}

/// Numbers, and whether each is a field's.
const NUMBERS: [(u32, bool); 4] = [(0, false), (1, true), (536870911, true), (536870912, false)];

#[test]
fn field_numbers() -> Tested {
    for (at, (number, valid)) in NUMBERS.iter().enumerate() {
        check_row(at, FieldNumber::new(*number).is_some() == *valid)?;
    }
    Ok(())
}
