//! Contexts: the timeout of a request, its metadata, and the pairs of the envelope that encode the metadata.
use std::alloc::Global;
use std::collections::BTreeMap;
use std::test::Fail;
use std::time::Duration;
use ttrpc_bench::checks::{Tested, check, check_row};
use ttrpc_message::{Context, from_pb, to_pb, with_duration, with_metadata, with_timeout};
use ttrpc_proto::{Error, KeyValue};
use ttrpc_wire::{Text, TryClone};

/// A step on a context.
enum Step {
    Add(&'static str, &'static str),
    Set(&'static str, &'static [&'static str]),
}

/// Steps from a context without metadata on, and the resulting texts of each key.
const STEPS: &[(&[Step], &[(&str, &[&str])])] = &[
    (&[], &[]),
    (
        &[Step::Add("Key", "a"), Step::Add("Key", "b")],
        &[("key", &["a", "b"])],
    ),
    (
        &[
            Step::Add("Key", "a"),
            Step::Add("Key", "b"),
            Step::Set("KEY", &[]),
        ],
        &[],
    ),
    (&[Step::Set("K", &["a"])], &[("k", &["a"])]),
    (
        &[
            Step::Add("b", "1"),
            Step::Add("a", "2"),
            Step::Set("B", &["3", "4"]),
            Step::Add("A", ""),
        ],
        &[("a", &["2", ""]), ("b", &["3", "4"])],
    ),
    // only ASCII capitals are turned into small letters
    (
        &[Step::Add("\u{c4}Z[", "1"), Step::Set("gone", &[])],
        &[("\u{c4}z[", &["1"])],
    ),
];

fn string(alloc: Global, text: &str) -> Result<String, Fail> {
    Ok(Text::from_str(alloc, text)?.into_string())
}

fn strings(alloc: Global, texts: &[&str]) -> Result<Vec<String>, Fail> {
    let mut strings = Vec::new(alloc);
    for text in texts {
        strings.push(string(alloc, text)?)?;
    }
    Ok(strings)
}

fn take(alloc: Global, context: &mut Context, step: &Step) -> Tested {
    match step {
        Step::Add(key, value) => context.add(alloc, string(alloc, key)?, string(alloc, value)?)?,
        Step::Set(key, values) => context.set(string(alloc, key)?, strings(alloc, values)?)?,
    }
    Ok(())
}

/// Returns whether the strings are these texts.
fn are_texts(found: &[String], texts: &[&str]) -> bool {
    let mut all = found.len() == texts.len();
    for (text, wanted) in found.iter().zip(texts) {
        all = all && text.as_str() == *wanted;
    }
    all
}

/// Returns whether the map has these keys with these texts, and no other key.
fn has(metadata: &BTreeMap<String, Vec<String>>, expected: &[(&str, &[&str])]) -> bool {
    let mut all = metadata.len() == expected.len();
    for &(key, texts) in expected {
        all = all
            && match metadata.get(key) {
                Some(found) => are_texts(found.as_slice(), texts),
                None => false,
            };
    }
    all
}

/// Returns whether the context has these texts and this timeout.
fn carries(context: &Context, expected: &[(&str, &[&str])], timeout_nano: i64) -> bool {
    has(&context.metadata, expected) && context.timeout_nano == timeout_nano
}

/// Returns whether these steps lead to a context with these texts. Its copy must have them, too, and so must a context
/// with its metadata.
fn leads_to(alloc: Global, steps: &[Step], expected: &[(&str, &[&str])]) -> Result<bool, Fail> {
    let mut context = with_timeout(alloc, 5);
    for step in steps {
        take(alloc, &mut context, step)?;
    }
    let copy = context.try_clone()?;
    let is_made = carries(&context, expected, 5) && carries(&copy, expected, 5);
    let same = with_metadata(context.metadata);
    Ok(is_made && carries(&same, expected, 0))
}

#[test]
fn keys_have_their_texts(rt: HostRuntime) -> Tested {
    for (at, (steps, expected)) in STEPS.iter().enumerate() {
        check_row(at, leads_to(rt.alloc(), steps, expected)?)?;
    }
    Ok(())
}

#[test]
fn contexts_print_what_they_carry(rt: HostRuntime) -> Tested {
    let mut context = with_timeout(rt.alloc(), 5);
    take(rt.alloc(), &mut context, &Step::Add("Key", "a"))?;
    let printed = format!(in rt.alloc(); "{context:?}")?;
    let expected = r#"Context { metadata: {"key": ["a"]}, timeout_nano: 5 }"#;
    check(printed.as_str() == expected)
}

/// Durations in seconds and nanoseconds, and the number of nanoseconds if it fits in an `i64`.
const DURATIONS: &[(u64, u32, Option<i64>)] = &[
    (0, 0, Some(0)),
    (1, 5, Some(1000000005)),
    (9223372036, 854775807, Some(9223372036854775807)),
    (9223372036, 854775808, None),
    (18446744073709551615, 999999999, None),
];

/// Returns whether the duration is this number of nanoseconds, or is refused if no number is given.
fn is_as_long(alloc: Global, duration: Duration, expected: Option<i64>) -> Result<bool, Fail> {
    match (with_duration(alloc, duration), expected) {
        (Ok(context), Some(wanted)) => Ok(context.timeout_nano == wanted),
        (Err(Error::NoMemory), _) => Err(Error::NoMemory.into()),
        (Err(Error::Others(text)), None) => Ok(text.is_equal("timeout does not fit")),
        _ => Ok(false),
    }
}

#[test]
fn durations_fit_or_are_refused(rt: HostRuntime) -> Tested {
    for (at, &(seconds, nanoseconds, expected)) in DURATIONS.iter().enumerate() {
        let duration = Duration::new(seconds, nanoseconds);
        check_row(at, is_as_long(rt.alloc(), duration, expected)?)?;
    }
    Ok(())
}

/// Pairs, the metadata that they encode, with the texts of each key, and the pairs that encode this metadata again.
const PAIRS: &[(&[(&str, &str)], &[(&str, &[&str])], &[(&str, &str)])] = &[
    (&[], &[], &[]),
    (
        &[("test_key1", "test_value1")],
        &[("test_key1", &["test_value1"])],
        &[("test_key1", "test_value1")],
    ),
    // keys in the order of their bytes, and each with its values in their order
    (
        &[("b", "1"), ("a", "2"), ("b", "0"), ("B", "3"), ("", "4")],
        &[
            ("", &["4"]),
            ("B", &["3"]),
            ("a", &["2"]),
            ("b", &["1", "0"]),
        ],
        &[("", "4"), ("B", "3"), ("a", "2"), ("b", "1"), ("b", "0")],
    ),
];

fn pairs_of(alloc: Global, rows: &[(&str, &str)]) -> Result<Vec<KeyValue>, Fail> {
    let mut pairs = Vec::new(alloc);
    for (key, value) in rows {
        let key = Text::from_str(alloc, key)?;
        let value = Text::from_str(alloc, value)?;
        pairs.push(KeyValue { key, value })?;
    }
    Ok(pairs)
}

/// Returns whether the pairs encode metadata with these texts, and the metadata is encoded as the pairs `again`.
fn are_metadata(
    alloc: Global,
    rows: &[(&str, &str)],
    expected: &[(&str, &[&str])],
    again: &[(&str, &str)],
) -> Result<bool, Fail> {
    let given = pairs_of(alloc, rows)?;
    let metadata = from_pb(alloc, given.as_slice())?;
    let is_read = has(&metadata, expected);
    let pairs = to_pb(alloc, metadata)?;
    Ok(is_read && pairs == pairs_of(alloc, again)?)
}

#[test]
fn pairs_are_metadata(rt: HostRuntime) -> Tested {
    for (at, (rows, expected, again)) in PAIRS.iter().enumerate() {
        check_row(at, are_metadata(rt.alloc(), rows, expected, again)?)?;
    }
    Ok(())
}

/// A key with an empty list has no pair.
#[test]
fn no_texts_are_no_pairs(rt: HostRuntime) -> Tested {
    let alloc = rt.alloc();
    let mut metadata = BTreeMap::new(alloc);
    metadata.insert(string(alloc, "none")?, Vec::new(alloc))?;
    metadata.insert(string(alloc, "one")?, strings(alloc, &["1"])?)?;
    check(to_pb(alloc, metadata)? == pairs_of(alloc, &[("one", "1")])?)
}
