//! Texts, bytes and lists, and the error of refused memory.
use std::alloc::Global;
use std::cmp::Ordering;
use std::test::Fail;
use ttrpc_bench::checks::{Tested, check, check_row};
use ttrpc_wire::values::codec_error::CodecFailure;
use ttrpc_wire::{Blob, CodecError, Sequence, Text, TryClone};

/// Returns whether the text has these bytes.
fn has_bytes(text: &Text, expected: &str) -> bool {
    text.as_str() == expected
        && text.as_bytes() == expected.as_bytes()
        && text.len() == expected.len()
}

/// Returns whether the text reads as std's does, and is equal to no other text.
fn reads_as_text(text: &Text, expected: &str) -> bool {
    text.is_equal(expected)
        && !text.is_equal("green")
        && !text.is_empty()
        && text.starts_with("gr")
        && text.iter().nth(1) == expected.chars().nth(1)
}

/// Returns whether the text is equal to its copy and not to an empty one.
fn is_copied(alloc: Global, text: &Text) -> Result<bool, Fail> {
    let copy = text.try_clone()?;
    let empty = Text::new(alloc);
    Ok(copy == *text && empty != *text && empty.is_empty())
}

/// Returns whether the text has these bytes, and is equal to its copy and to no other text. It must stay the same
/// through a `String`.
fn is_kept(alloc: Global, text: Text, expected: &str) -> Result<bool, Fail> {
    let is_text = has_bytes(&text, expected) && reads_as_text(&text, expected);
    let is_shown = text.to_string(alloc)?.as_str() == expected;
    let is_copied = is_copied(alloc, &text)?;
    let back = Text::from_string(text.into_string());
    Ok(is_text && is_shown && is_copied && back.as_str() == expected)
}

#[test]
fn texts(rt: HostRuntime) -> Tested {
    let alloc = rt.alloc();
    let green = "gr\u{fc}n";
    let from_bytes = is_kept(alloc, Text::from_utf8(alloc, b"gr\xc3\xbcn")?, green)?;
    let from_text = is_kept(alloc, Text::from_str(alloc, green)?, green)?;
    check(from_bytes && from_text)
}

/// Returns whether the first text has this order to the second.
fn is_ordered(alloc: Global, low: &str, high: &str, expected: Ordering) -> Result<bool, Fail> {
    let low = Text::from_str(alloc, low)?;
    let high = Text::from_str(alloc, high)?;
    Ok(low.cmp(&high) == expected)
}

/// Texts have the order of their bytes, whatever their letters are.
#[test]
fn texts_have_an_order(rt: HostRuntime) -> Tested {
    let rising = ["", "Z", "a", "aa", "b", "gr\u{fc}n"];
    for (i, low) in rising.iter().enumerate() {
        for (j, high) in rising.iter().enumerate() {
            check_row(i, is_ordered(rt.alloc(), low, high, i.cmp(&j))?)?;
        }
    }
    Ok(())
}

/// Bytes that are no text.
const NO_TEXTS: &[&[u8]] = &[b"\xff", b"a\xc3", b"\xc0\x80", b"\xed\xa0\x80"];

#[test]
fn what_is_no_text_is_refused(rt: HostRuntime) -> Tested {
    for (at, bytes) in NO_TEXTS.iter().enumerate() {
        let refused = Text::from_utf8(rt.alloc(), bytes);
        check_row(at, refused == Err(CodecError::BadUtf8))?;
    }
    check(Text::new(rt.alloc()).as_str().is_empty())
}

/// Returns whether the blob has these bytes, with 255 as the first and the greatest, and reads as a slice does.
fn reads_as_slice(blob: &Blob, bytes: &[u8]) -> bool {
    blob.as_slice() == bytes
        && blob.is_equal(bytes)
        && !blob.is_equal(b"\xff")
        && blob.iter().copied().max() == Some(255)
        && blob.first() == Some(&255)
        && !blob.is_empty()
}

/// Returns whether the blob is equal to its copy and not to an empty one.
fn is_blob_copied(alloc: Global, blob: &Blob) -> Result<bool, Fail> {
    let copy = blob.try_clone()?;
    let empty = Blob::new(alloc);
    Ok(copy == *blob && empty != *blob && empty.is_empty())
}

#[test]
fn blobs(rt: HostRuntime) -> Tested {
    let bytes = b"\xff\x00".as_slice();
    let blob = Blob::from_slice(rt.alloc(), bytes)?;
    let is_blob = reads_as_slice(&blob, bytes) && is_blob_copied(rt.alloc(), &blob)?;
    let back = Blob::from_vec(blob.into_vec());
    check(is_blob && back.as_slice() == bytes)
}

/// Parts of the bytes 1 to 5, by their beginning and the number of bytes that is asked for.
const PARTS: &[(usize, usize, &[u8])] = &[
    (0, 5, &[1, 2, 3, 4, 5]),
    (0, 2, &[1, 2]),
    (3, 1, &[4]),
    (3, 9, &[4, 5]),
    (5, 1, &[]),
    (9, 1, &[]),
    (usize::MAX, usize::MAX, &[]),
];

/// Returns whether a blob of this part of the bytes 1 to 5 has these bytes, and its vector has them, too.
fn is_part(alloc: Global, start: usize, count: usize, part: &[u8]) -> Result<bool, Fail> {
    let blob = Blob::from_part(Vec::from_slice(alloc, &[1, 2, 3, 4, 5])?, start, count);
    let copy = blob.try_clone()?;
    let is_part = blob.as_slice() == part && blob.len() == part.len();
    let is_copied = copy == Blob::from_slice(alloc, part)?;
    let back = blob.into_vec();
    Ok(is_part && is_copied && back.as_slice() == part)
}

#[test]
fn parts_of_a_vector_are_blobs(rt: HostRuntime) -> Tested {
    for (at, (start, count, part)) in PARTS.iter().enumerate() {
        check_row(at, is_part(rt.alloc(), *start, *count, part)?)?;
    }
    Ok(())
}

/// Returns a list of these texts.
fn listed(alloc: Global, texts: &[&str]) -> Result<Sequence<Text>, Fail> {
    let mut list = Sequence::new(alloc);
    for text in texts {
        list.push(Text::from_str(alloc, text)?)?;
    }
    Ok(list)
}

/// Returns whether the list has the texts `a` and `b`.
fn are_two(texts: &Sequence<Text>) -> bool {
    texts.len() == 2
        && !texts.is_empty()
        && texts.iter().all(|text| text.len() == 1)
        && texts.as_slice()[1].is_equal("b")
        && texts.last().is_some_and(|text| text.is_equal("b"))
        && texts.is_equal(texts.as_slice())
        && !texts.is_equal(&[])
}

#[test]
fn sequences(rt: HostRuntime) -> Tested {
    let texts = listed(rt.alloc(), &["a", "b"])?;
    check(are_two(&texts))
}

/// Returns whether a list of these texts is equal to this one.
fn is_list(alloc: Global, list: &Sequence<Text>, texts: &[&str]) -> Result<bool, Fail> {
    let other = listed(alloc, texts)?;
    Ok(other == *list)
}

/// Returns whether a list of these texts differs from this one.
fn differs(alloc: Global, list: &Sequence<Text>, texts: &[&str]) -> Result<bool, Fail> {
    let other = listed(alloc, texts)?;
    Ok(other != *list)
}

#[test]
fn sequences_are_compared(rt: HostRuntime) -> Tested {
    let texts = listed(rt.alloc(), &["a", "b"])?;
    let is_copied = texts.try_clone()? == texts;
    let has_others = differs(rt.alloc(), &texts, &[])?
        && differs(rt.alloc(), &texts, &["a", "b", ""])?;
    let back = Sequence::from_vec(texts.into_vec());
    check(is_copied && has_others && is_list(rt.alloc(), &back, &["a", "b"])?)
}

/// Returns whether numbers and truth values are copied.
fn are_copied() -> Result<bool, Fail> {
    Ok(
        true.try_clone()?
            && 7_u64.try_clone()? == 7
            && (-7_i64).try_clone()? == -7
            && 7_u32.try_clone()? == 7,
    )
}

/// Lists of numbers are copied and compared as other lists are.
#[test]
fn sequences_of_numbers(rt: HostRuntime) -> Tested {
    let mut numbers: Sequence<i32> = Sequence::new(rt.alloc());
    numbers.push(-1)?;
    numbers.push(i32::MAX)?;
    let is_copied = numbers.try_clone()? == numbers;
    check(is_copied && numbers.is_equal(&[-1, i32::MAX]) && are_copied()?)
}

/// Returns the result of a caller that asks for memory with `?`.
fn reserved(alloc: Global, room: usize) -> Result<Vec<u8>, CodecError> {
    let mut out = Vec::new(alloc);
    out.reserve(room)?;
    Ok(out)
}

#[test]
fn refused_memory_has_its_name(rt: HostRuntime) -> Tested {
    let is_refused = reserved(rt.alloc(), usize::MAX).err() == Some(CodecError::NoMemory);
    let is_empty = reserved(rt.alloc(), 1)?.is_empty();
    let text = CodecError::NoMemory.to_string(rt.alloc())?;
    let has_name = CodecError::NoMemory.is_no_memory() && !CodecError::TooLong.is_no_memory();
    check(is_refused && is_empty && has_name && text.as_str() == "out of memory")
}
