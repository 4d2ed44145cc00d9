//! The results of whole frames and of cut input, which are those of the blocking forms. All bytes are written by hand.
use crate::tests::frames::ends::{Slow, System, come};
use std::alloc::{AllocError, Global};
use std::io::ErrorKind;
use std::test::Fail;
use ttrpc_bench::checks::{check_named, check_named_row};
use ttrpc_message::Message;
use ttrpc_polled_frames::{AsMessage, AsParts, AsValue, PollRead, ReadHeader, Tells};
use ttrpc_proto::{Error, GenMessage, GenMessageError, MessageHeader, Request, Result};

/// A header with the type 1 and the flags 239, a request of 67 bytes, and two bytes of another frame.
const ASKED: &[u8] =
    b"\0\0\0\x43\0\x12\x34\x56\x01\xef\x0a\x11grpc.TestServices\x12\x04Test\x1a\x09\x01\x02\x03\x04\x05\x06\x07\x08\x09\x20\x80\xda\xc4\x09\x2a\x18\x0a\x09test_key1\x12\x0btest_value1\0\0";

/// Three bytes of a header. A header that states five bytes, without any of them. The same with two of them.
const SHORT: &[u8] = b"\0\0\0";

const BARE: &[u8] = b"\0\0\0\x05\0\0\0\x01\x01\0";

const CUT: &[u8] = b"\0\0\0\x05\0\0\0\x01\x01\0ab";

/// A header that states one byte too many, and two of its bytes.
const LONG: &[u8] = b"\0\x40\0\x01\0\0\0\x05\x01\0ab";

/// An empty message, and one that isn't a request.
const EMPTY: &[u8] = b"\0\0\0\0\0\0\0\x03\x03\x05";

const UNREADABLE: &[u8] = b"\0\0\0\x02\0\0\0\x01\x01\0\x1a\x05";

const GONE: &str = "socket err: socket disconnected";

const TOO_LONG: &str =
    "rpc status: 3 message length 4194305 exceed maximum message size of 4194304";

/// Some input, and its texts: as a header and its bytes, as a message, and as a request. If a text isn't specified in
/// full, only its beginning is given.
type Row = (&'static [u8], &'static str, &'static str, &'static str);

/// Returns the row with this number, from 0.
fn row(number: u8) -> Option<Row> {
    Some(match number {
        0 => (
            ASKED,
            "1193046 1 239 67",
            "1193046 1 239 67",
            "1193046 Test 20000000",
        ),
        1 => (b"", GONE, "internal socket err: ", "socket err: "),
        2 => (
            SHORT,
            "rpc status: 3 Message header length 3 is too small",
            "internal socket err: ",
            "socket err: ",
        ),
        3 => (BARE, GONE, "internal socket err: ", "socket err: "),
        4 => (
            CUT,
            "rpc status: 3 Message length 2 is not 5",
            "internal socket err: ",
            "socket err: ",
        ),
        5 => (LONG, TOO_LONG, "internal socket err: ", "socket err: "),
        6 => (EMPTY, "3 3 5 0", "3 3 5 0", "3  0"),
        7 => (
            UNREADABLE,
            "1 1 0 2",
            "1 1 0 2",
            "ttrpc err: Decode payload failed.",
        ),
        _ => return None,
    })
}

/// Returns the text `before` and then the error's text. Returns an error if memory was refused.
fn error_text(
    alloc: Global,
    before: &str,
    error: Error,
) -> std::result::Result<String, AllocError> {
    match error {
        Error::NoMemory => Err(AllocError),
        error => format!(in alloc; "{before}{error}"),
    }
}

/// The output as a text.
trait Told: Tells {
    fn told(alloc: Global, told: Self::Output) -> std::result::Result<String, AllocError>;
}

fn header_text(
    alloc: Global,
    header: MessageHeader,
    length: usize,
) -> std::result::Result<String, AllocError> {
    let MessageHeader {
        length: _,
        stream_id,
        type_,
        flags,
    } = header;
    format!(in alloc; "{stream_id} {type_} {flags} {length}")
}

impl Told for AsParts {
    fn told(
        alloc: Global,
        told: Result<(MessageHeader, Result<Vec<u8>>)>,
    ) -> std::result::Result<String, AllocError> {
        match told {
            Ok((header, Ok(bytes))) => header_text(alloc, header, bytes.len()),
            Ok((_, Err(error))) => error_text(alloc, "", error),
            Err(error) => error_text(alloc, "", error),
        }
    }
}

impl Told for AsMessage {
    fn told(
        alloc: Global,
        told: std::result::Result<GenMessage, GenMessageError>,
    ) -> std::result::Result<String, AllocError> {
        match told {
            Ok(message) => header_text(alloc, message.header, message.payload.len()),
            Err(GenMessageError::ReturnError(_, error)) => error_text(alloc, "return ", error),
            Err(GenMessageError::InternalError(error)) => error_text(alloc, "internal ", error),
        }
    }
}

impl Told for AsValue<Request> {
    fn told(
        alloc: Global,
        told: Result<Message<Request>>,
    ) -> std::result::Result<String, AllocError> {
        match told {
            Ok(Message { header, payload }) => {
                format!(in alloc;
                    "{} {} {}",
                    header.stream_id, payload.method, payload.timeout_nano
                )
            }
            Err(error) => error_text(alloc, "", error),
        }
    }
}

/// Returns whether the output for these bytes, with `at_once` bytes a read, has this text, and the bytes after the
/// frame aren't read.
fn holds<R: System, T: Told>(
    rt: &R,
    input: &[u8],
    at_once: usize,
    expected: &str,
) -> std::result::Result<bool, Fail> {
    let mut reader = Slow::new(input, at_once, None);
    let reading: PollRead<_, T> = PollRead::new(rt.alloc(), &mut reader);
    let told = T::told(rt.alloc(), come(rt, reading)?)?;
    Ok(told.as_str().starts_with(expected) && reader.rest.len() == left_of(input))
}

/// Returns the number of bytes after a first frame.
fn left_of(input: &[u8]) -> usize {
    match MessageHeader::try_from_slice(input) {
        Some(header) => input
            .len()
            .saturating_sub(10)
            .saturating_sub(header.length as usize),
        None => 0,
    }
}

/// Returns whether input that comes with `at_once` bytes a read has the texts of its row, in each form.
fn is_told<R: System>(rt: &R, row: Row, at_once: usize) -> std::result::Result<bool, Fail> {
    let (input, parts, message, value) = row;
    Ok(
        holds::<_, AsParts>(rt, input, at_once, parts)?
            && holds::<_, AsMessage>(rt, input, at_once, message)?
            && holds::<_, AsValue<Request>>(rt, input, at_once, value)?,
    )
}

#[test]
fn input_is_told_as_it_is(rt: HostRuntime) -> std::result::Result<(), Fail> {
    for number in 0..100u8 {
        if let Some(row) = row(number) {
            for at_once in [1, 7, 4096] {
                check_named_row("a row", usize::from(number), is_told(&rt, row, at_once)?)?;
            }
        }
    }
    Ok(())
}

/// Returns a header that states 4194305 bytes, and `count` bytes.
fn oversized(alloc: Global, count: usize) -> std::result::Result<Vec<u8>, Fail> {
    let mut input = Vec::from_slice(alloc, b"\0\x40\0\x01\0\0\0\x05\x01\0")?;
    input.resize(count.saturating_add(10), 7)?;
    Ok(input)
}

/// Returns whether a frame that is too long is reported as such, in each form, and read to its end.
fn is_too_long<R: System>(rt: &R, input: &[u8]) -> std::result::Result<bool, Fail> {
    let returned = "return rpc status: 3 message length 4194305";
    Ok(
        holds::<_, AsParts>(rt, input, 4096, TOO_LONG)?
            && holds::<_, AsMessage>(rt, input, 4096, returned)?
            && holds::<_, AsValue<Request>>(rt, input, 4096, "5  0")?,
    )
}

#[test]
fn a_frame_that_is_too_long_is_read_to_its_end(rt: HostRuntime) -> std::result::Result<(), Fail> {
    let input = oversized(rt.alloc(), 4194306)?;
    check_named("it is told otherwise", is_too_long(&rt, input.as_slice())?)
}

/// Returns whether a reader's failure after this input is reported, and not as an end.
fn is_told_of_failure<R: System>(rt: &R, input: &[u8]) -> std::result::Result<bool, Fail> {
    let reader = Slow::new(input, 3, Some(ErrorKind::ConnectionReset));
    let reading: PollRead<_, AsParts> = PollRead::new(rt.alloc(), reader);
    let told = AsParts::told(rt.alloc(), come(rt, reading)?)?;
    Ok(told.as_str().starts_with("socket err: ") && told.as_str() != GONE)
}

// Should fail if a read or write of a frame yields forever, or tries again after each failure.
#[test]
fn a_readers_failure_is_told(rt: HostRuntime) -> std::result::Result<(), Fail> {
    for input in [b"" as &[u8], SHORT, BARE, CUT, LONG] {
        check_named_row(
            "behind so many bytes",
            input.len(),
            is_told_of_failure(&rt, input)?,
        )?;
    }
    Ok(())
}

const READ: MessageHeader = MessageHeader {
    length: 67,
    stream_id: 1193046,
    type_: 1,
    flags: 239,
};

/// Returns whether a header is read, and no byte after it.
fn is_read_alone<R: System>(rt: &R, at_once: usize) -> std::result::Result<bool, Fail> {
    let mut reader = Slow::new(ASKED, at_once, None);
    let header = come(rt, ReadHeader::new(&mut reader))??;
    Ok(header == READ && reader.rest.len() == 69)
}

/// Returns the error of a header that is cut, by its end or by this failure.
fn told_of_cut<R: System>(
    rt: &R,
    end: Option<ErrorKind>,
) -> std::result::Result<Option<ErrorKind>, Fail> {
    let cut = come(rt, ReadHeader::new(Slow::new(SHORT, 2, end)))?;
    Ok(cut.err().map(|error| error.kind()))
}

#[test]
fn headers_are_read_alone(rt: HostRuntime) -> std::result::Result<(), Fail> {
    for at_once in [1, 4, 4096] {
        check_named_row(
            "so many bytes a read",
            at_once,
            is_read_alone(&rt, at_once)?,
        )?;
    }
    let reset = ErrorKind::ConnectionReset;
    let is_so = told_of_cut(&rt, None)? == Some(ErrorKind::UnexpectedEof)
        && told_of_cut(&rt, Some(reset))? == Some(reset);
    check_named("a cut is told otherwise", is_so)
}
