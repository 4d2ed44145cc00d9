//! Runs of the program: its words and its input, and then its status, its output and its reports of errors.
use crate::tests::runs::{ROOM, Ran, Sockets, Tester, run_words, words_of};
use crate::tests::vectors::*;
use crate::tests::{Holds, Tested};
use std::test::Fail;
use ttrpc_bench::{AT_ONCE, Manner, StdReader};
use ttrpc_echo::DemoSystem;
use ttrpc_wire::values::slices::front;

/// A run: the words, the input, whether it is read to its end or not at all, the status, the output and the errors.
type Run = (
    &'static [&'static str],
    &'static [u8],
    bool,
    u8,
    &'static [u8],
    &'static [u8],
);

const RUNS: &[Run] = &[
    // requests and their answers
    (&["answer"], b"", true, 0, b"", b""),
    (&["answer"], ASKED, true, 0, ECHOED, b""),
    (&["answer"], EMPTY, true, 0, EMPTY_ECHOED, b""),
    (&["answer"], NO_METHOD, true, 0, NO_METHOD_ANSWER, b""),
    (&["answer"], NO_SERVICE, true, 0, NO_SERVICE_ANSWER, b""),
    (&["answer"], MIXED, true, 0, MIXED_ANSWERS, b""),
    // an input that ends inside a frame
    (&["answer"], CUT, true, 1, b"", INSIDE_TEXT),
    // calls of its own server
    (&["loop", "2A"], ASKED, false, 0, LOOPED, b""),
    (&["loop", "2a"], ASKED, false, 0, LOOPED, b""),
    (&["loop", ""], ASKED, false, 0, LOOPED_EMPTY, b""),
    (&["loop", "00fFAb09"], ASKED, false, 0, LOOPED_FOUR, b""),
];

/// Wrong words: the input isn't read, and the usage is written.
const WRONG_WORDS: &[&[&str]] = &[
    &[],
    &["answers"],
    &["Answer"],
    &[""],
    &["answer", ""],
    &["answer", "answer"],
    &["loop"],
    &["loop", "2a", "2a"],
    &["Loop", "2a"],
    &["serve"],
    &["Serve", "unix://@a"],
    &["serve", "unix://@a", ""],
    &["call", "unix://@a", "x", "y", "2a"],
    &["Call", "unix://@a", "x", "y", "2a", "0"],
    // a timeout that is no number of 64 bits with a sign; it and the digits are read before the address
    &["call", "unix://@a", "x", "y", "2a", ""],
    &["call", "unix://@a", "x", "y", "2a", "1s"],
    &["call", "unix://@a", "x", "y", "2a", "9223372036854775808"],
    &["call", "unix://@a", "x", "y", "2", "0"],
    // digits that encode no bytes
    &["loop", "2"],
    &["loop", "2a3"],
    &["loop", "2g"],
    &["loop", "g2"],
    &["loop", " 2a"],
    &["loop", "0x2a"],
    &["loop", "2a "],
    &["loop", "\u{ff12}a"],
];

/// Words with an address that names no place, and the error: the input isn't read.
const NO_PLACES: &[(&[&str], &[u8])] = &[
    (&["serve", "vsock://3:1024"], VSOCK_TEXT),
    (&["serve", "unix://@a"], ABSTRACT_TEXT),
    (&["serve", "127.0.0.1:0"], SCHEME_TEXT),
    (&["call", "vsock://3:1024", "x", "y", "2a", "0"], VSOCK_TEXT),
    (
        &["call", "unix://@a", "x", "y", "2A", "-9223372036854775808"],
        ABSTRACT_TEXT,
    ),
    (&["call", "127.0.0.1:0", "x", "y", "", "+7"], SCHEME_TEXT),
];

/// Returns whether the run ended with this status, this output and these errors.
fn left(ran: &Ran, row: &Run) -> bool {
    let (_, _, _, status, output, errors) = row;
    ran.status == *status && ran.output.as_slice() == *output && ran.errors.as_slice() == *errors
}

/// Returns whether the row holds with all of the input at hand, which is read to its end, or not at all.
fn runs_at_once<S: Tester + 'static>(rt: &S, row: &Run) -> Holds {
    let (words, bytes, reads, _, _, _) = row;
    let given = words_of(rt.alloc(), words)?;
    let mut input = *bytes;
    let ran = run_words(rt, given.as_slice(), &mut input, ROOM)?;
    let unread = if *reads { 0 } else { bytes.len() };
    Ok(left(&ran, row) && input.len() == unread)
}

/// Returns whether the row holds with an input that comes one byte at a time.
fn runs_by_bytes<S: Tester + 'static>(rt: &S, row: &Run) -> Holds {
    let (words, bytes, _, _, _, _) = row;
    let given = words_of(rt.alloc(), words)?;
    let mut input = StdReader::new(bytes, Manner { step: 1, ..AT_ONCE });
    let ran = run_words(rt, given.as_slice(), &mut input, ROOM)?;
    Ok(left(&ran, row))
}

fn runs<S: Tester + 'static>(rt: &S, row: &Run) -> Holds {
    Ok(runs_at_once(rt, row)? && runs_by_bytes(rt, row)?)
}

#[test]
fn runs_of_the_program(rt: HostRuntime) -> Tested {
    let _sockets: Sockets = None;
    for row in RUNS {
        assert!(rt; runs(&rt, row)?);
    }
    for words in WRONG_WORDS {
        let row: Run = (*words, ASKED, false, 2, b"", USAGE_TEXT);
        assert!(rt; runs(&rt, &row)?);
    }
    for (words, told) in NO_PLACES {
        let row: Run = (*words, ASKED, false, 1, b"", *told);
        assert!(rt; runs(&rt, &row)?);
    }
    Ok(())
}

#[test]
fn a_frame_that_is_too_long_is_answered_behind_it(rt: HostRuntime) -> Tested {
    let _sockets: Sockets = None;
    let mut frame = Vec::from_slice(rt.alloc(), OVERSIZED)?;
    frame.resize(10 + 4194305, 0)?;
    let words = words_of(rt.alloc(), &["answer"])?;
    let in_pages = Manner {
        step: 4096,
        ..AT_ONCE
    };
    let mut input = StdReader::new(frame.as_slice(), in_pages);
    let ran = run_words(&rt, words.as_slice(), &mut input, ROOM)?;
    assert!(rt; ran.status == 0 && ran.output.as_slice() == OVERSIZED_ANSWER);
    Ok(())
}

/// Runs a call of the program's own server with `count` bytes 77.
fn sevens<S: DemoSystem + 'static>(rt: &S, count: usize, room: usize) -> Result<Ran, Fail> {
    let alloc = rt.alloc();
    let digits = vec![in alloc; b'7'; count.saturating_mul(2)]?;
    let digits = String::from_utf8(digits).map_err(|_| Fail::from("not UTF-8"))?;
    let words = words_of(alloc, &["loop", digits.as_str()])?;
    let mut input = ASKED;
    run_words(rt, words.as_slice(), &mut input, room)
}

/// With 22 bytes of the request around it, a payload of 4194282 bytes is the greatest.
#[test]
fn the_greatest_payload_is_echoed(rt: HostRuntime) -> Tested {
    let _sockets: Sockets = None;
    let ran = sevens(&rt, 4194282, 8388568)?;
    let output = ran.output.as_slice();
    assert!(rt; ran.status == 0 && output.len() == 8388568 && front(output, 5) == LOOPED_SEVENS);
    Ok(())
}

#[test]
fn a_payload_above_the_greatest_is_refused(rt: HostRuntime) -> Tested {
    let _sockets: Sockets = None;
    let ran = sevens(&rt, 4194283, ROOM)?;
    assert!(rt; ran.status == 1 && ran.output.as_slice() == LOOPED_TOO_LONG);
    Ok(())
}
