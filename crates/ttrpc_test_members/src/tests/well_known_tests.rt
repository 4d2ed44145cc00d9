//! Google's own messages: as its implementation writes them, in an `Any`, and as times of std.
use crate::tests::members_tests::check_pairs;
use crate::tests::well_known_vectors::{
    ANY, BOOL_VALUE, BYTES_VALUE, DOUBLE_VALUE, DURATION, EMPTY, FIELD_MASK, FLOAT_VALUE,
    INT32_VALUE, INT64_VALUE, LIST_VALUE, PACKED, STRING_VALUE, STRUCT, TIMESTAMP, UINT32_VALUE,
    UINT64_VALUE, VALUE,
};
use std::alloc::Global;
use std::test::Fail;
use ttrpc_bench::checks::{Tested, check_row};
use ttrpc_well_known::messages::{
    Any, BoolValue, BytesValue, DoubleValue, Duration, Empty, FieldMask, FloatValue, Int32Value,
    Int64Value, ListValue, StringValue, Struct, Timestamp, UInt32Value, UInt64Value, ValueMessage,
};
use ttrpc_wire::{Blob, Codec, Text};

#[test]
fn googles_messages_are_read_in_either_spelling(rt: HostRuntime) -> Tested {
    let alloc = rt.alloc();
    check_pairs::<Any>(alloc, ANY)?;
    check_pairs::<Empty>(alloc, EMPTY)?;
    check_pairs::<Timestamp>(alloc, TIMESTAMP)?;
    check_pairs::<Duration>(alloc, DURATION)?;
    check_pairs::<FieldMask>(alloc, FIELD_MASK)
}

#[test]
fn values_of_json_are_read_in_either_spelling(rt: HostRuntime) -> Tested {
    let alloc = rt.alloc();
    check_pairs::<Struct>(alloc, STRUCT)?;
    check_pairs::<ValueMessage>(alloc, VALUE)?;
    check_pairs::<ListValue>(alloc, LIST_VALUE)
}

#[test]
fn wrappers_are_read_in_either_spelling(rt: HostRuntime) -> Tested {
    let alloc = rt.alloc();
    check_pairs::<DoubleValue>(alloc, DOUBLE_VALUE)?;
    check_pairs::<FloatValue>(alloc, FLOAT_VALUE)?;
    check_pairs::<Int64Value>(alloc, INT64_VALUE)?;
    check_pairs::<UInt64Value>(alloc, UINT64_VALUE)?;
    check_pairs::<Int32Value>(alloc, INT32_VALUE)?;
    check_pairs::<UInt32Value>(alloc, UINT32_VALUE)?;
    check_pairs::<BoolValue>(alloc, BOOL_VALUE)?;
    check_pairs::<StringValue>(alloc, STRING_VALUE)?;
    check_pairs::<BytesValue>(alloc, BYTES_VALUE)
}

/// Returns whether a text is packed as the other implementation packs it, and unpacked from that.
fn is_packed(alloc: Global) -> Result<bool, Fail> {
    let value = Text::from_str(alloc, "a")?;
    let any = Any::pack(alloc, &StringValue { value })?;
    let bytes = any.encode(alloc)?;
    let back: Option<StringValue> = Any::decode(alloc, PACKED)?.unpack(alloc)?;
    Ok(bytes.as_slice() == PACKED && back.is_some_and(|back| back.value.as_str() == "a"))
}

#[test]
fn a_message_goes_into_an_any_and_out_of_it(rt: HostRuntime) -> Tested {
    check_row(0, is_packed(rt.alloc())?)
}

/// Addresses, and whether they name a `StringValue`.
const ADDRESSES: &[(&str, bool)] = &[
    ("type.googleapis.com/google.protobuf.StringValue", true),
    ("/google.protobuf.StringValue", true),
    ("a/b/google.protobuf.StringValue", true),
    ("", false),
    ("/", false),
    ("google.protobuf.StringValue", false),
    ("type.googleapis.com/google.protobuf.BytesValue", false),
    (
        "type.googleapis.com/other.google.protobuf.StringValue",
        false,
    ),
    ("type.googleapis.com/google.protobuf.StringValue/", false),
];

/// Returns whether an `Any` with this address and without bytes has a `StringValue` exactly if it should.
fn is_told(alloc: Global, address: &str, wanted: bool) -> Result<bool, Fail> {
    let type_url = Text::from_str(alloc, address)?;
    let value = Blob::new(alloc);
    let any = Any { type_url, value };
    let found: Option<StringValue> = any.unpack(alloc)?;
    Ok(any.is::<StringValue>() == wanted && found.is_some() == wanted)
}

#[test]
fn an_address_names_one_message(rt: HostRuntime) -> Tested {
    for (at, (address, wanted)) in ADDRESSES.iter().enumerate() {
        check_row(at, is_told(rt.alloc(), address, *wanted)?)?;
    }
    Ok(())
}

/// Seconds and nanoseconds, and whether they are a moment and a span of std.
const TIMES: &[(i64, i32, bool, bool)] = &[
    (0, 0, true, true),
    (5, 999_999_999, true, true),
    (253_402_300_799, 999_999_999, true, true),
    (253_402_300_800, 0, false, true),
    (315_576_000_000, 999_999_999, false, true),
    (315_576_000_001, 0, false, false),
    (9_223_372_036_854_775_807, 0, false, false),
    (0, 1_000_000_000, false, false),
    (0, -1, false, false),
    (-1, 0, false, false),
    (-9_223_372_036_854_775_808, 0, false, false),
];

/// Returns whether a moment is accepted exactly if it should be, and then comes back.
fn is_moment(seconds: i64, nanos: i32, wanted: bool) -> bool {
    match (Timestamp { seconds, nanos }).to_system_time() {
        Ok(time) => match Timestamp::from_system_time(time) {
            Ok(back) => wanted && back.seconds == seconds && back.nanos == nanos,
            Err(_) => false,
        },
        Err(_) => !wanted,
    }
}

/// Returns whether a span is accepted exactly if it should be, and then comes back.
fn is_span(seconds: i64, nanos: i32, wanted: bool) -> bool {
    match (Duration { seconds, nanos }).to_std() {
        Ok(span) => match Duration::from_std(span) {
            Ok(back) => wanted && back.seconds == seconds && back.nanos == nanos,
            Err(_) => false,
        },
        Err(_) => !wanted,
    }
}

#[test]
fn times_are_those_of_std_in_their_range() -> Tested {
    for (at, (seconds, nanos, moment, span)) in TIMES.iter().enumerate() {
        let as_moment = is_moment(*seconds, *nanos, *moment);
        check_row(at, as_moment && is_span(*seconds, *nanos, *span))?;
    }
    Ok(())
}
