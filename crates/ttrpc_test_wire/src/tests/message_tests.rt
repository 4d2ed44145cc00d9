//! The envelope's messages as bytes, and the meaning of those bytes.
use crate::tests::rows::{
    RequestRow, ResponseRow, Row, StatusRow, any_of, key_value_of, request_of, response_of,
    status_of,
};
use std::alloc::Global;
use std::test::Fail;
use ttrpc_bench::checks::{Tested, check, check_row};
use ttrpc_message::decode_request;
use ttrpc_proto::{Any, KeyValue, Request, Response, Status};
use ttrpc_wire::codec::in_place::{CarriesPayload, decode_in_place};
use ttrpc_wire::{Blob, Codec, CodecError, TryClone};

/// The result of a condition, if memory isn't refused.
type Found = Result<bool, Fail>;

/// A request without members.
const NOTHING_ASKED: RequestRow = RequestRow {
    service: "",
    method: "",
    payload: b"",
    timeout_nano: 0,
    metadata: &[],
};

/// Messages, each with its written form.
const WRITTEN: &[(Row, &[u8])] = &[
    // a request with all of its members
    (
        Row::Request(RequestRow {
            service: "grpc.TestServices",
            method: "Test",
            payload: &[1, 2, 3, 4, 5, 6, 7, 8, 9],
            timeout_nano: 20000000,
            metadata: &[("test_key1", "test_value1")],
        }),
        b"\x0a\x11grpc.TestServices\x12\x04Test\x1a\x09\x01\x02\x03\x04\x05\x06\x07\x08\x09\x20\x80\xda\xc4\x09\x2a\x18\x0a\x09test_key1\x12\x0btest_value1",
    ),
    // the defaults
    (Row::Request(NOTHING_ASKED), b""),
    (Row::Response((None, b"")), b""),
    (Row::Status((0, "", &[])), b""),
    (Row::KeyValue("", ""), b""),
    (Row::Any("", b""), b""),
    // a status that is present and empty is written
    (Row::Response((Some((0, "", &[])), b"")), b"\x0a\x00"),
    (
        Row::Response((Some((3, "x", &[])), b"\x2a")),
        b"\x0a\x05\x08\x03\x12\x01x\x12\x01\x2a",
    ),
    // negative and extreme numbers
    (
        Row::Status((-1, "", &[])),
        b"\x08\xff\xff\xff\xff\xff\xff\xff\xff\xff\x01",
    ),
    (
        Row::Status((-2147483648, "", &[])),
        b"\x08\x80\x80\x80\x80\xf8\xff\xff\xff\xff\x01",
    ),
    (
        Row::Request(RequestRow {
            timeout_nano: 9223372036854775807,
            ..NOTHING_ASKED
        }),
        b"\x20\xff\xff\xff\xff\xff\xff\xff\xff\x7f",
    ),
    (
        Row::Request(RequestRow {
            timeout_nano: -9223372036854775808,
            ..NOTHING_ASKED
        }),
        b"\x20\x80\x80\x80\x80\x80\x80\x80\x80\x80\x01",
    ),
    // details, one of them empty
    (Row::Any("a", &[1]), b"\x0a\x01a\x12\x01\x01"),
    (
        Row::Status((2147483647, "m", &[("", b""), ("a", &[1])])),
        b"\x08\xff\xff\xff\xff\x07\x12\x01m\x1a\x00\x1a\x06\x0a\x01a\x12\x01\x01",
    ),
];

/// Other bytes, and the message that they mean.
const READ: &[(&[u8], Row)] = &[
    // a status in two parts
    (
        b"\x0a\x02\x08\x03\x0a\x03\x12\x01x",
        Row::Response((Some((3, "x", &[])), b"")),
    ),
    // several parts are one message: the last code, all details
    (
        b"\x0a\x04\x08\x03\x1a\x00\x0a\x03\x12\x01x\x0a\x04\x08\x05\x1a\x00",
        Row::Response((Some((5, "x", &[("", b""), ("", b"")])), b"")),
    ),
    // the last scalar wins, longer varints are read, and an int32 is the low 32 bits
    (
        b"\x08\x01\x12\x01a\x08\x82\x80\x80\x80\x10\x12\x01b\x08\x83\x00",
        Row::Status((3, "b", &[])),
    ),
    (b"\x08\x85\x80\x80\x80\x10", Row::Status((5, "", &[]))),
    // unknown numbers and other wire types are ignored
    (
        b"\x0a\x01k\x08\x07\x0d\x01\x02\x03\x04\x09\x01\x02\x03\x04\x05\x06\x07\x08\x12\x01v\x1a\x01x\xf8\x01\x05",
        Row::KeyValue("k", "v"),
    ),
    (b"\x0a\x01a\x10\x05", Row::Status((0, "", &[]))),
    // the last payload wins, wherever it is, and a number with its field number is none
    (
        b"\x1a\x01\x07\x0a\x01s\x1a\x02\x05\x06\x18\x09\x12\x01m",
        Row::Request(RequestRow {
            service: "s",
            method: "m",
            payload: &[5, 6],
            ..NOTHING_ASKED
        }),
    ),
    (
        b"\x12\x02\x05\x06\x0a\x00\x12\x00",
        Row::Response((Some((0, "", &[])), b"")),
    ),
    (
        b"\x12\x00\x10\x01\x12\x01\x08\x20\x02",
        Row::Response((None, b"\x08")),
    ),
];

/// Bytes that mean no message of the type of the row with them.
const REFUSED: &[(&[u8], Row, CodecError)] = &[
    // a text that isn't UTF-8, even if a later one follows
    (
        b"\x0a\x01\xff\x0a\x01k",
        Row::KeyValue("", ""),
        CodecError::BadUtf8,
    ),
    (
        b"\x12\x02\xc3\x28",
        Row::Request(NOTHING_ASKED),
        CodecError::BadUtf8,
    ),
    // a part that doesn't read by itself
    (
        b"\x2a\x02\x0a\x05",
        Row::Request(NOTHING_ASKED),
        CodecError::Truncated,
    ),
    (
        b"\x0a\x01\x08\x0a\x01\x03",
        Row::Response((None, b"")),
        CodecError::Truncated,
    ),
    (b"\x0b", Row::Response((None, b"")), CodecError::BadWireType),
    (b"\x00\x00", Row::Any("", b""), CodecError::BadTag),
    (
        b"\x08\xff\xff\xff\xff\xff\xff\xff\xff\xff\x02",
        Row::Status((0, "", &[])),
        CodecError::BadVarint,
    ),
];

/// Returns whether the bytes mean the value. Only the calls of the bound are used.
fn reads<C: Codec<E = CodecError> + PartialEq>(alloc: Global, bytes: &[u8], value: &C) -> Found {
    let read = C::decode(alloc, bytes)?;
    Ok(read == *value)
}

/// Returns whether the value's copy is equal to it, even after no bytes are merged into it.
fn is_copied<C: Codec<E = CodecError> + PartialEq + TryClone>(alloc: Global, value: &C) -> Found {
    let mut copy = value.try_clone()?;
    copy.merge(alloc, &[])?;
    Ok(copy == *value)
}

/// Returns whether the value has this size and this written form, and the written form means the value. Merging no more
/// bytes must not change it.
fn travels<C: Codec<E = CodecError> + PartialEq + TryClone>(
    alloc: Global,
    value: &C,
    written: &[u8],
) -> Found {
    let bytes = value.encode(alloc)?;
    let is_written = bytes.as_slice() == written && value.size() as usize == written.len();
    Ok(is_written && reads(alloc, written, value)? && is_copied(alloc, value)?)
}

/// Returns whether the outcome is this error. If memory was refused, the test ends with that error.
fn is_error<C: Drop>(outcome: Result<C, CodecError>, expected: CodecError) -> Found {
    match outcome {
        Ok(_) => Ok(false),
        Err(CodecError::NoMemory) => Err(CodecError::NoMemory.into()),
        Err(error) => Ok(error == expected),
    }
}

/// Returns whether the bytes mean no such value.
fn refuses<C: Codec<E = CodecError>>(alloc: Global, bytes: &[u8], expected: CodecError) -> Found {
    is_error(C::decode(alloc, bytes), expected)
}

/// Returns whether the bytes mean no such value, whether they are read in place or not.
fn refuses_in_place<C: CarriesPayload>(alloc: Global, bytes: &[u8], expected: CodecError) -> Found {
    let is_refused = refuses::<C>(alloc, bytes, expected)?;
    let outcome = decode_in_place::<C>(alloc, Vec::from_slice(alloc, bytes)?);
    Ok(is_refused && is_error(outcome, expected)?)
}

/// The check of a row: its written form, or other bytes with the same meaning.
#[derive(Clone, Copy)]
enum Asked {
    Travels(&'static [u8]),
    IsReadFrom(&'static [u8]),
}

fn is_so<C: Codec<E = CodecError> + PartialEq + TryClone>(
    alloc: Global,
    value: &C,
    asked: Asked,
) -> Found {
    match asked {
        Asked::Travels(written) => travels(alloc, value, written),
        Asked::IsReadFrom(bytes) => reads(alloc, bytes, value),
    }
}

fn pair_is_so(alloc: Global, key: &str, value: &str, asked: Asked) -> Found {
    let pair = key_value_of(alloc, key, value)?;
    is_so(alloc, &pair, asked)
}

fn any_is_so(alloc: Global, url: &str, value: &[u8], asked: Asked) -> Found {
    let any = any_of(alloc, url, value)?;
    is_so(alloc, &any, asked)
}

fn status_is_so(alloc: Global, row: &StatusRow, asked: Asked) -> Found {
    let status = status_of(alloc, row)?;
    is_so(alloc, &status, asked)
}

/// Returns whether the row holds, and a payload that is read in place is the same payload.
fn is_so_in_place<C: CarriesPayload + PartialEq>(alloc: Global, value: &C, asked: Asked) -> Found {
    let is_so = is_so(alloc, value, asked)?;
    let (Asked::Travels(bytes) | Asked::IsReadFrom(bytes)) = asked;
    let read: C = decode_in_place(alloc, Vec::from_slice(alloc, bytes)?)?;
    Ok(is_so && read == *value)
}

fn request_is_so(alloc: Global, row: &RequestRow, asked: Asked) -> Found {
    let request = request_of(alloc, row)?;
    is_so_in_place(alloc, &request, asked)
}

fn response_is_so(alloc: Global, row: &ResponseRow, asked: Asked) -> Found {
    let response = response_of(alloc, row)?;
    is_so_in_place(alloc, &response, asked)
}

fn row_is_so(alloc: Global, row: &Row, asked: Asked) -> Found {
    match row {
        Row::KeyValue(key, value) => pair_is_so(alloc, key, value, asked),
        Row::Any(url, value) => any_is_so(alloc, url, value, asked),
        Row::Status(row) => status_is_so(alloc, row, asked),
        Row::Request(row) => request_is_so(alloc, row, asked),
        Row::Response(row) => response_is_so(alloc, row, asked),
    }
}

#[test]
fn messages_are_written(rt: HostRuntime) -> Tested {
    for (at, (row, written)) in WRITTEN.iter().enumerate() {
        check_row(at, row_is_so(rt.alloc(), row, Asked::Travels(written))?)?;
    }
    Ok(())
}

#[test]
fn bytes_mean_messages(rt: HostRuntime) -> Tested {
    for (at, (bytes, row)) in READ.iter().enumerate() {
        check_row(at, row_is_so(rt.alloc(), row, Asked::IsReadFrom(bytes))?)?;
    }
    Ok(())
}

/// Returns whether the bytes mean no message of the type of the row.
fn row_is_refused(alloc: Global, bytes: &[u8], row: &Row, error: CodecError) -> Found {
    match row {
        Row::KeyValue(_, _) => refuses::<KeyValue>(alloc, bytes, error),
        Row::Any(_, _) => refuses::<Any>(alloc, bytes, error),
        Row::Status(_) => refuses::<Status>(alloc, bytes, error),
        Row::Request(_) => refuses_in_place::<Request>(alloc, bytes, error),
        Row::Response(_) => refuses_in_place::<Response>(alloc, bytes, error),
    }
}

#[test]
fn bytes_without_a_meaning_are_refused(rt: HostRuntime) -> Tested {
    for (at, (bytes, row, error)) in REFUSED.iter().enumerate() {
        check_row(at, row_is_refused(rt.alloc(), bytes, row, *error)?)?;
    }
    Ok(())
}

/// Bytes are sent as they are, without a message of their own.
#[test]
fn raw_bytes_travel(rt: HostRuntime) -> Tested {
    let alloc = rt.alloc();
    let mut raw = decode_request::<Blob>(alloc, b"\xff\x00")?;
    let is_read = raw.is_equal(b"\xff\x00") && raw.size() == 2;
    let response = ttrpc_message::response_of(alloc, Ok(raw.try_clone()?))?;
    let is_answered = response.payload == raw;
    raw.merge(alloc, b"\x2a")?;
    let written = raw.encode(alloc)?;
    check(is_read && is_answered && written.as_slice() == b"\xff\x00\x2a".as_slice())
}

/// A refused merge changes nothing.
#[test]
fn merged_status(rt: HostRuntime) -> Tested {
    let alloc = rt.alloc();
    let mut response = response_of(alloc, &(None, b"\x2a"))?;
    response.merge(alloc, b"\x0a\x02\x08\x03\x0a\x03\x12\x01x")?;
    let merged = response_of(alloc, &(Some((3, "x", &[])), b"\x2a"))?;
    let is_merged = response == merged;
    let refused = response.merge(alloc, b"\x0a\x01");
    check(is_merged && is_error(refused, CodecError::Truncated)? && response == merged)
}
