//! Generated lists of fields, on which the decoder agrees with a plain reading of the definitions.
use std::alloc::Global;
use std::test::Fail;
use ttrpc_bench::checks::{Tested, check};
use ttrpc_proto::{KeyValue, Request};
use ttrpc_wire::{Codec, CodecError, Field, FieldNumber, Value, put_field};

/// Returns the last length-delimited value with this number, or an empty one.
fn last_delimited<'a>(fields: &[Field<'a>], number: u32) -> &'a [u8] {
    let mut last: &[u8] = b"";
    for field in fields {
        if let Value::LengthDelimited(bytes) = field.value
            && field.number.value == number
        {
            last = bytes;
        }
    }
    last
}

/// Returns the last varint with this number, or 0.
fn last_varint(fields: &[Field<'_>], number: u32) -> u64 {
    let mut last = 0;
    for field in fields {
        if let Value::Varint(n) = field.value
            && field.number.value == number
        {
            last = n;
        }
    }
    last
}

fn is_pair(alloc: Global, bytes: &[u8]) -> Result<bool, Fail> {
    match KeyValue::decode(alloc, bytes) {
        Ok(_) => Ok(true),
        Err(CodecError::NoMemory) => Err(Fail::from(CodecError::NoMemory)),
        Err(_) => Ok(false),
    }
}

/// Returns whether all service and method names are UTF-8, and all values of the metadata are pairs.
fn has_meaning(alloc: Global, fields: &[Field<'_>]) -> Result<bool, Fail> {
    let mut all = true;
    for field in fields {
        if let Value::LengthDelimited(bytes) = field.value {
            all = all
                && match field.number.value {
                    1 | 2 => std::str::from_utf8(bytes).is_ok(),
                    5 => is_pair(alloc, bytes)?,
                    _ => true,
                };
        }
    }
    Ok(all)
}

const PIECES: [&[u8]; 6] = [
    b"",
    b"name",
    b"\xff",
    b"\x0a\x01k",
    b"\x0a\x05",
    b"\x12\x01\xfe",
];

/// Returns the next number of a pseudorandom sequence.
fn next(seed: u64) -> u64 {
    seed.wrapping_mul(6364136223846793005)
        .wrapping_add(1442695040888963407)
}

/// Returns a field that the seed picks.
fn field_of(seed: u64) -> Result<Field<'static>, Fail> {
    let number = FieldNumber::new((seed >> 33) as u32 % 6 + 1).ok_or("a field's number")?;
    let value = match (seed >> 40) % 8 {
        0 => Value::Fixed64(seed),
        1 => Value::Fixed32(7),
        2 | 3 => Value::Varint(seed >> 20),
        k => Value::LengthDelimited(PIECES[(seed >> 50) as usize % (k as usize - 2)]),
    };
    Ok(Field { number, value })
}

/// Returns whether the request has the members of a plain reading.
fn is_read(request: &Request, fields: &[Field<'_>]) -> bool {
    request.service.as_bytes() == last_delimited(fields, 1)
        && request.method.as_bytes() == last_delimited(fields, 2)
        && request.payload.as_slice() == last_delimited(fields, 3)
        && request.timeout_nano.cast_unsigned() == last_varint(fields, 4)
}

/// Returns whether the bytes of the fields were read.
fn are_read(alloc: Global, fields: &[Field<'_>]) -> Result<bool, Fail> {
    let mut bytes = Vec::new(alloc);
    for field in fields {
        put_field(&mut bytes, *field)?;
    }
    match Request::decode(alloc, bytes.as_slice()) {
        Ok(request) => Ok(is_read(&request, fields)),
        Err(CodecError::NoMemory) => Err(CodecError::NoMemory.into()),
        Err(_) => Ok(false),
    }
}

/// Returns `count` fields from the seed on, and the next seed.
fn fields_from(alloc: Global, seed: u64, count: u64) -> Result<(Vec<Field<'static>>, u64), Fail> {
    let mut seed = seed;
    let mut fields = Vec::new(alloc);
    for _ in 0..count {
        seed = next(seed);
        fields.push(field_of(seed)?)?;
    }
    Ok((fields, seed))
}

#[test]
fn decoder_agrees_with_a_plain_reading(rt: HostRuntime) -> Tested {
    let mut seed: u64 = 1;
    let mut readable: u32 = 0;
    let mut agrees = true;
    for _ in 0..300 {
        let (fields, last) = fields_from(rt.alloc(), seed, seed % 7)?;
        seed = next(last) >> 1;
        let read = are_read(rt.alloc(), fields.as_slice())?;
        agrees = agrees && read == has_meaning(rt.alloc(), fields.as_slice())?;
        readable = readable.saturating_add(read as u32);
    }
    check(agrees && readable > 50 && readable < 290)
}
