//! Messages as bytes, and the meaning of those bytes.
use crate::messages::{All, Choices, Figures, Labelled, Lists, Options, Tables};
use crate::tests::vectors::{ALL, CHOICES, FIGURES, LABELLED, LISTS, OPTIONS, TABLES};
use std::alloc::Global;
use std::test::Fail;
use ttrpc_bench::checks::{Tested, check, check_row};
use ttrpc_members::map::Map;
use ttrpc_wire::codec::message::WireMessage;
use ttrpc_wire::{Codec, CodecError, Text};

/// Returns whether the numbers are equal.
fn are_equal(a: &Figures, b: &Figures) -> bool {
    let varints = a.a == b.a && a.b == b.b && a.c == b.c && a.d == b.d && a.g == b.g && a.n == b.n;
    let zigzags = a.e == b.e && a.f == b.f;
    let fixed = a.h == b.h && a.i == b.i && a.j == b.j && a.k == b.k && a.l == b.l && a.m == b.m;
    varints && zigzags && fixed
}

/// Returns whether the bytes mean a value that is written as `written`.
pub fn is_written<M: WireMessage>(
    alloc: Global,
    bytes: &[u8],
    written: &[u8],
) -> Result<bool, Fail> {
    let message = M::decode(alloc, bytes)?;
    let encoded = message.encode(alloc)?;
    Ok(encoded.as_slice() == written)
}

/// Checks that both byte strings of each pair mean the same value. The first is its written form.
pub fn check_pairs<M: WireMessage>(alloc: Global, rows: &[(&[u8], &[u8])]) -> Tested {
    for (at, (canonical, other)) in rows.iter().enumerate() {
        check_row(at, is_written::<M>(alloc, canonical, canonical)?)?;
        check_row(at, is_written::<M>(alloc, other, canonical)?)?;
    }
    Ok(())
}

/// Returns whether the bytes mean these numbers, and are their written form.
fn are_figures(alloc: Global, bytes: &[u8], figures: &Figures) -> Result<bool, Fail> {
    let read = Figures::decode(alloc, bytes)?;
    let written = figures.encode(alloc)?;
    Ok(are_equal(&read, figures) && written.as_slice() == bytes)
}

#[test]
fn numbers_are_those_of_the_other_implementation(rt: HostRuntime) -> Tested {
    for (at, (bytes, figures)) in FIGURES.iter().enumerate() {
        check_row(at, are_figures(rt.alloc(), bytes, figures)?)?;
    }
    Ok(())
}

#[test]
fn lists_are_read_in_either_spelling(rt: HostRuntime) -> Tested {
    check_pairs::<Lists>(rt.alloc(), LISTS)
}

#[test]
fn presence_is_kept(rt: HostRuntime) -> Tested {
    check_pairs::<Options>(rt.alloc(), OPTIONS)
}

#[test]
fn maps_are_written_by_rising_key(rt: HostRuntime) -> Tested {
    check_pairs::<Tables>(rt.alloc(), TABLES)
}

#[test]
fn the_last_of_several_wins(rt: HostRuntime) -> Tested {
    check_pairs::<Choices>(rt.alloc(), CHOICES)?;
    check_pairs::<Choices>(rt.alloc(), MERGED)
}

#[test]
fn one_of_several_stands_before_a_map(rt: HostRuntime) -> Tested {
    check_pairs::<Labelled>(rt.alloc(), LABELLED)
}

#[test]
fn nested_messages_are_one_value(rt: HostRuntime) -> Tested {
    check_pairs::<All>(rt.alloc(), ALL)
}

/// Bytes that mean none of the messages, and their errors.
const REFUSED: &[(&[u8], CodecError)] = &[
    // a packed list ends inside a varint, and inside a number of eight bytes
    (b"\x0a\x02\x01\x80", CodecError::Truncated),
    (b"\x1a\x09\0\0\0\0\0\0\0\0\x01", CodecError::Truncated),
    // a packed varint goes past 64 bits
    (
        b"\x0a\x0a\xff\xff\xff\xff\xff\xff\xff\xff\xff\x02",
        CodecError::BadVarint,
    ),
    // a text of a list, and one of a message in a list
    (b"\x2a\x01\xff", CodecError::BadUtf8),
    (b"\x42\x03\x0a\x01\xff", CodecError::BadUtf8),
    // a message of a list ends inside a field, and has a field without a number
    (b"\x42\x02\x0a\x05", CodecError::Truncated),
    (b"\x42\x02\x00\x00", CodecError::BadTag),
    (b"\x42\x01\x0b", CodecError::BadWireType),
];

/// Bytes that mean no map, and their errors.
const NO_TABLES: &[(&[u8], CodecError)] = &[
    (b"\x0a\x03\x0a\x01\xff", CodecError::BadUtf8),
    (b"\x0a\x03\x12\x01\xff", CodecError::BadUtf8),
    (b"\x0a\x02\x0a\x01", CodecError::Truncated),
    (b"\x12\x04\x08\x01\x12\x01", CodecError::Truncated),
];

/// Other spellings of maps: entries without a key or a value, with more fields, and two of one key.
const SPELLED: &[(&[u8], &[u8])] = &[
    (b"\x0a\x04\x0a\0\x12\0", b"\x0a\0"),
    (b"\x0a\x05\x0a\x01k\x12\0", b"\x0a\x03\x0a\x01k"),
    (b"\x0a\x05\x0a\0\x12\x01v", b"\x0a\x05\x12\x01v\x18\x07"),
    (
        b"\x0a\x06\x0a\x01k\x12\x01w",
        b"\x0a\x06\x0a\x01k\x12\x01v\x0a\x06\x12\x01w\x0a\x01k",
    ),
    // a value in two parts is one message, but only within one entry
    (
        b"\x12\x0a\x08\0\x12\x06\x0a\x01a\x12\x01b",
        b"\x12\x0a\x12\x03\x0a\x01a\x12\x03\x12\x01b",
    ),
    (
        b"\x12\x07\x08\0\x12\x03\x12\x01b",
        b"\x12\x05\x12\x03\x0a\x01a\x12\x05\x12\x03\x12\x01b",
    ),
];

/// Other spellings of one of several members: a message in two parts, a message after another member, and values of
/// another wire type.
const MERGED: &[(&[u8], &[u8])] = &[
    (
        b"\x1a\x06\x0a\x01a\x12\x01b",
        b"\x1a\x03\x0a\x01a\x1a\x03\x12\x01b",
    ),
    (
        b"\x1a\x03\x12\x01b",
        b"\x1a\x03\x0a\x01a\x20\x01\x1a\x03\x12\x01b",
    ),
    (b"\x08\0", b"\x12\x01a\x08\0\x12\0\x08\0"),
    (b"\x12\x01a", b"\x12\x01a\x0a\x01b\x25\0\0\0\0"),
];

/// Returns whether the bytes are refused with this error.
pub fn is_refused<M: WireMessage>(alloc: Global, bytes: &[u8], error: CodecError) -> bool {
    match M::decode(alloc, bytes) {
        Ok(_message) => false,
        Err(told) => told == error,
    }
}

/// Checks that each of the byte strings is refused with its error.
pub fn check_refusals<M: WireMessage>(alloc: Global, rows: &[(&[u8], CodecError)]) -> Tested {
    for (at, (bytes, error)) in rows.iter().enumerate() {
        check_row(at, is_refused::<M>(alloc, bytes, *error))?;
    }
    Ok(())
}

#[test]
fn bad_lists_are_refused(rt: HostRuntime) -> Tested {
    check_refusals::<Lists>(rt.alloc(), REFUSED)
}

#[test]
fn bad_maps_are_refused(rt: HostRuntime) -> Tested {
    check_refusals::<Tables>(rt.alloc(), NO_TABLES)
}

#[test]
fn entries_are_read_in_any_spelling(rt: HostRuntime) -> Tested {
    check_pairs::<Tables>(rt.alloc(), SPELLED)
}

/// Returns two labels.
fn two_labels(alloc: Global) -> Result<Map<Text, Text>, Fail> {
    let mut labels = Map::new(alloc);
    labels.insert(Text::from_str(alloc, "a")?, Text::from_str(alloc, "b")?)?;
    labels.insert(Text::from_str(alloc, "c")?, Text::from_str(alloc, "d")?)?;
    Ok(labels)
}

/// Returns whether a label is changed, and is then taken out.
fn is_changed(alloc: Global) -> Result<bool, Fail> {
    let mut labels = two_labels(alloc)?;
    let key = Text::from_str(alloc, "a")?;
    let new = Text::from_str(alloc, "e")?;
    if let Some(value) = labels.get_mut(&key) {
        *value = new;
    }
    let is_new = labels
        .remove(&key)
        .is_some_and(|value| value.as_str() == "e");
    Ok(is_new && labels.len() == 1 && labels.remove(&key).is_none())
}

#[test]
fn a_label_is_changed_and_taken_out(rt: HostRuntime) -> Tested {
    check(is_changed(rt.alloc())?)
}

#[test]
fn a_map_goes_to_std_and_back(rt: HostRuntime) -> Tested {
    let alloc = rt.alloc();
    let mut labels = Map::from_map(alloc, two_labels(alloc)?.into_map());
    let count = labels.len();
    labels.clear();
    check(count == 2 && labels.is_empty())
}
