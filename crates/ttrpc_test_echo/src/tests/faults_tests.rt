//! Readers and writers that fail at each place, move one byte a call or are interrupted.
use crate::tests::runs::{ROOM, Ran, Sockets, Tester, run_words, words_of};
use crate::tests::vectors::*;
use crate::tests::{Holds, Tested};
use std::alloc::Global;
use std::io::ErrorKind;
use std::test::Fail;
use ttrpc_bench::{AT_ONCE, Manner, StdReader, StdWriter};
use ttrpc_echo::{answer, run};
use ttrpc_proto::Error;
use ttrpc_wire::values::slices::front;

/// One byte a call.
const BYTEWISE: Manner = Manner { step: 1, ..AT_ONCE };

/// A read after the bytes fails.
const BROKEN: Manner = Manner {
    behind: Some(ErrorKind::ConnectionReset),
    ..AT_ONCE
};

/// Returns the number of bytes that answer the frames that are whole in the first `count` bytes of `MIXED`.
fn answered_with(count: usize) -> usize {
    if count >= 87 {
        65
    } else if count >= 57 {
        50
    } else if count >= 30 {
        15
    } else {
        0
    }
}

/// Returns whether the reader or the writer failed with this text. Another failure is returned as the error.
fn is_told_as(ended: Result<(), Error>, expected: &str) -> Holds {
    match ended {
        Err(Error::Socket(text)) => Ok(text.as_str() == expected),
        Err(error) => Err(error.into()),
        Ok(()) => Ok(false),
    }
}

/// Returns whether the requests in `count` bytes are answered, if the reader fails after them.
fn reading_fails_at(alloc: Global, count: usize, step: usize) -> Holds {
    let mut output = Vec::with_capacity(alloc, ROOM)?;
    let manner = Manner { step, ..BROKEN };
    let mut input = StdReader::new(front(MIXED, count), manner);
    let ended = answer(alloc, &mut input, &mut output);
    let is_answered = output.as_slice() == front(MIXED_ANSWERS, answered_with(count));
    Ok(is_told_as(ended, "connection reset")? && is_answered)
}

#[test]
fn what_came_before_a_failing_read_is_answered(rt: HostRuntime) -> Tested {
    for count in 0..88 {
        let at_once = reading_fails_at(rt.alloc(), count, 4096)?;
        assert!(rt; at_once && reading_fails_at(rt.alloc(), count, 1)?);
    }
    Ok(())
}

/// Returns whether `count` bytes are written, if the writer fails or takes no more after them.
fn writing_fails_at(alloc: Global, count: usize, step: usize, behind: Option<ErrorKind>) -> Holds {
    let manner = Manner { step, ..AT_ONCE };
    let mut output = StdWriter::new(alloc, manner.ending(count, behind))?;
    let ended = answer(alloc, &mut StdReader::new(MIXED, AT_ONCE), &mut output);
    let is_written = output.receiver.taken.as_slice() == front(MIXED_ANSWERS, count);
    let told = match behind {
        Some(_) => "broken pipe",
        None => "write zero",
    };
    Ok(is_told_as(ended, told)? && is_written)
}

#[test]
fn a_beginning_is_written_where_writing_fails(rt: HostRuntime) -> Tested {
    for count in 0..65 {
        for step in [4096, 1] {
            let broken = writing_fails_at(rt.alloc(), count, step, Some(ErrorKind::BrokenPipe))?;
            assert!(rt; broken && writing_fails_at(rt.alloc(), count, step, None)?);
        }
    }
    Ok(())
}

/// Runs the program with these words and this writer. Returns its status, and the errors that it reports.
fn run_into<S: Tester + 'static>(
    rt: &S,
    words: &[String],
    output: &mut StdWriter,
) -> Result<(u8, Vec<u8>), Fail> {
    let mut errors = Vec::with_capacity(rt.alloc(), ROOM)?;
    let mut input = ASKED;
    let status = run(rt.clone()?, words, true, &mut input, output, &mut errors);
    if errors.as_slice() == NO_MEMORY_TEXT {
        return Err(Error::NoMemory.into());
    }
    Ok((status, errors))
}

/// Returns whether a front of the line is written if the writer fails, and the program ends with status 1.
fn telling_fails_at<S: Tester + 'static>(rt: &S, count: usize) -> Holds {
    let words = words_of(rt.alloc(), &["loop", "2a"])?;
    let manner = BYTEWISE.ending(count, Some(ErrorKind::BrokenPipe));
    let mut output = StdWriter::new(rt.alloc(), manner)?;
    let (status, errors) = run_into(rt, words.as_slice(), &mut output)?;
    let is_written = output.receiver.taken.as_slice() == front(LOOPED, count);
    let is_told = errors.as_slice().starts_with(b"ttrpc-demo: socket err: ");
    Ok(status == 1 && is_written && is_told)
}

#[test]
fn a_failing_writer_ends_a_call(rt: HostRuntime) -> Tested {
    let _sockets: Sockets = None;
    for count in 0..6 {
        assert!(rt; telling_fails_at(&rt, count)?);
    }
    Ok(())
}

/// Returns whether the run ended with status 1, a whole answer, and a line about the socket.
fn is_broken_behind_an_answer(ran: &Ran) -> bool {
    let errors = ran.errors.as_slice();
    ran.status == 1
        && ran.output.as_slice() == ECHOED
        && errors.starts_with(b"ttrpc-demo: socket err: ")
        && errors.ends_with(b"\n")
}

#[test]
fn a_failing_reader_ends_the_program_with_its_text(rt: HostRuntime) -> Tested {
    let _sockets: Sockets = None;
    let words = words_of(rt.alloc(), &["answer"])?;
    let mut input = StdReader::new(ASKED, BROKEN);
    let ran = run_words(&rt, words.as_slice(), &mut input, ROOM)?;
    assert!(rt; is_broken_behind_an_answer(&ran));
    Ok(())
}

#[test]
fn a_writer_may_take_one_byte_a_call(rt: HostRuntime) -> Tested {
    let mut output = StdWriter::new(rt.alloc(), BYTEWISE)?;
    answer(
        rt.alloc(),
        &mut StdReader::new(MIXED, BYTEWISE),
        &mut output,
    )?;
    let receiver = &output.receiver;
    assert!(rt; receiver.taken.as_slice() == MIXED_ANSWERS && receiver.flushed == 65);
    Ok(())
}

#[test]
fn interruptions_lose_nothing(rt: HostRuntime) -> Tested {
    let interrupted = Manner {
        interrupts: true,
        ..AT_ONCE
    };
    let in_sevens = Manner {
        step: 7,
        ..interrupted
    };
    let in_elevens = Manner {
        step: 11,
        ..interrupted
    };
    let mut output = StdWriter::new(rt.alloc(), in_sevens)?;
    let mut input = StdReader::new(MIXED, in_elevens);
    answer(rt.alloc(), &mut input, &mut output)?;
    assert!(rt; output.receiver.taken.as_slice() == MIXED_ANSWERS);
    Ok(())
}

/// Returns whether the first request is answered. The error of refused memory is returned.
fn is_echoed(alloc: Global) -> Result<bool, Error> {
    let mut output = Vec::with_capacity(alloc, ROOM)?;
    let mut input = ASKED;
    answer(alloc, &mut input, &mut output)?;
    Ok(output.as_slice() == ECHOED)
}

/// `tools/refuse-memory --named` refuses each allocation of this test.
#[test]
fn refused_memory_is_named_by_answer(rt: HostRuntime) -> Tested {
    assert!(rt; is_echoed(rt.alloc())?);
    Ok(())
}
