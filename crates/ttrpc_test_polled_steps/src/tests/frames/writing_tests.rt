//! The bytes of frames that a writer takes, and the errors if it takes no more.
use crate::tests::frames::ends::{Narrow, System, come};
use std::alloc::Global;
use std::io::{self, ErrorKind};
use std::test::Fail;
use ttrpc_bench::checks::{check_named, check_named_row};
use ttrpc_message::Message;
use ttrpc_polled_frames::{AsValue, PollRead, PollWrite, WriteHeader, WriteMessage};
use ttrpc_proto::{GenMessage, MessageHeader, Request, Result};
use ttrpc_wire::Blob;

/// A header that states another length than its payload has, and the payload. The header is written as it is.
const FRAME: &[u8] = b"\0\0\0\x09\0\0\0\x03\x03\x05abc";

const HEADER: MessageHeader = MessageHeader {
    length: 9,
    stream_id: 3,
    type_: 3,
    flags: 5,
};

fn message_of(alloc: Global) -> std::result::Result<GenMessage, Fail> {
    Ok(GenMessage {
        header: HEADER,
        payload: Blob::from_slice(alloc, b"abc")?,
    })
}

/// Returns the result as a text.
fn told(alloc: Global, ended: Result<()>) -> std::result::Result<String, Fail> {
    Ok(match ended {
        Ok(()) => String::from_str(alloc, "ok")?,
        Err(error) => format!(in alloc; "{error}")?,
    })
}

/// Writes the frame with a flush.
fn write_message<R: System>(rt: &R, writer: &mut Narrow) -> std::result::Result<Result<()>, Fail> {
    let message = message_of(rt.alloc())?;
    come(rt, WriteMessage::of_gen(rt.alloc(), writer, &message)?)
}

/// Writes the frame's header and payload, without a flush.
fn write_parts<R: System>(rt: &R, writer: &mut Narrow) -> std::result::Result<Result<()>, Fail> {
    let payload: &[u8] = b"abc";
    come(rt, PollWrite::new(rt.alloc(), writer, &HEADER, payload)?)
}

/// Writes the frame to a writer with this room. Returns the result as a text, and the writer.
fn write<R: System>(
    rt: &R,
    flushes: bool,
    at_once: usize,
    room: usize,
    end: Option<ErrorKind>,
) -> std::result::Result<(String, Narrow), Fail> {
    let mut writer = Narrow::new(Vec::new(rt.alloc()), at_once, room, end);
    let ended = if flushes {
        write_message(rt, &mut writer)?
    } else {
        write_parts(rt, &mut writer)?
    };
    Ok((told(rt.alloc(), ended)?, writer))
}

/// Returns whether a writer took these bytes, and was flushed this number of times.
fn has_taken(writer: &Narrow, took: &[u8], flushes: u32) -> bool {
    writer.took.as_slice() == took && writer.flushes == flushes
}

// Should fail if `PollWrite` flushes; a message is flushed twice.
#[test]
fn frames_are_written_whole(rt: HostRuntime) -> std::result::Result<(), Fail> {
    for flushes in [false, true] {
        for at_once in [1, 4, 4096] {
            let (told, writer) = write(&rt, flushes, at_once, 4096, None)?;
            let is_so = told.as_str() == "ok" && has_taken(&writer, FRAME, u32::from(flushes));
            check_named_row("so many bytes a write", at_once, is_so)?;
        }
    }
    Ok(())
}

#[test]
fn a_front_is_written_where_a_writer_fails(rt: HostRuntime) -> std::result::Result<(), Fail> {
    for flushes in [false, true] {
        for room in 0..13 {
            let (told, writer) = write(&rt, flushes, 2, room, Some(ErrorKind::BrokenPipe))?;
            let is_told = told.as_str().starts_with("socket err: ");
            let is_so = is_told && has_taken(&writer, &FRAME[..room], 0);
            check_named_row("with so much room", room, is_so)?;
        }
    }
    Ok(())
}

/// Returns the result as a text if a writer takes 11 bytes of a frame, and then nothing.
fn told_of_full<R: System>(rt: &R, flushes: bool) -> std::result::Result<String, Fail> {
    let (told, _) = write(rt, flushes, 4, 11, None)?;
    Ok(told)
}

#[test]
fn a_writer_that_takes_nothing_is_told(rt: HostRuntime) -> std::result::Result<(), Fail> {
    let zero = told_of_full(&rt, false)?;
    let open = told_of_full(&rt, true)?;
    let is_so = zero.as_str() == "socket err: failed to write ttrpc frame: write zero"
        && open.as_str().starts_with("socket err: ");
    check_named("it is told otherwise", is_so)
}

/// A header with the type 1 and the flags 239, and a request of 67 bytes.
const ASKED: &[u8] =
    b"\0\0\0\x43\0\x12\x34\x56\x01\xef\x0a\x11grpc.TestServices\x12\x04Test\x1a\x09\x01\x02\x03\x04\x05\x06\x07\x08\x09\x20\x80\xda\xc4\x09\x2a\x18\x0a\x09test_key1\x12\x0btest_value1";

fn read_request<R: System>(rt: &R) -> std::result::Result<Message<Request>, Fail> {
    let reading: PollRead<_, AsValue<Request>> = PollRead::new(rt.alloc(), ASKED);
    Ok(come(rt, reading)??)
}

/// Writes this request, and returns the writer.
fn write_request<R: System>(
    rt: &R,
    message: &Message<Request>,
) -> std::result::Result<Narrow, Fail> {
    let mut writer = Narrow::new(Vec::new(rt.alloc()), 3, 4096, None);
    come(
        rt,
        WriteMessage::of_value(rt.alloc(), &mut writer, message)?,
    )??;
    Ok(writer)
}

#[test]
fn a_value_is_read_and_written_again(rt: HostRuntime) -> std::result::Result<(), Fail> {
    let message = read_request(&rt)?;
    let writer = write_request(&rt, &message)?;
    let is_so = writer.took.as_slice() == ASKED && writer.flushes == 1;
    check_named("other bytes are written", is_so)
}

/// Writes a header to a writer with this room. Returns the result and the writer.
fn write_header<R: System>(
    rt: &R,
    room: usize,
) -> std::result::Result<(io::Result<()>, Narrow), Fail> {
    let mut writer = Narrow::new(Vec::new(rt.alloc()), 3, room, None);
    let ended = come(rt, WriteHeader::new(rt.alloc(), &mut writer, &HEADER))?;
    Ok((ended, writer))
}

/// Returns whether a header is written, and flushed.
fn is_header_written<R: System>(rt: &R) -> std::result::Result<bool, Fail> {
    let (written, writer) = write_header(rt, 4096)?;
    Ok(written.is_ok() && writer.took.as_slice() == &FRAME[..10] && writer.flushes == 1)
}

/// Returns whether a writer that takes four bytes, and then nothing, gives the right error.
fn is_header_refused<R: System>(rt: &R) -> std::result::Result<bool, Fail> {
    let (refused, _) = write_header(rt, 4)?;
    let told = refused.err().map(|error| error.kind());
    Ok(told == Some(ErrorKind::WriteZero))
}

// Should fail if a header is flushed twice.
#[test]
fn headers_are_written_alone(rt: HostRuntime) -> std::result::Result<(), Fail> {
    let is_so = is_header_written(&rt)? && is_header_refused(&rt)?;
    check_named("it is told otherwise", is_so)
}

/// Returns the number of bytes that a writer takes of the frame of a payload with `length` bytes, and the number of
/// writes.
fn offers_of<R: System>(rt: &R, length: usize) -> std::result::Result<(usize, u32), Fail> {
    let alloc = rt.alloc();
    let payload = vec![in alloc; 7u8; length]?;
    let mut writer = Narrow::new(Vec::new(alloc), 8192, 8192, None);
    come(rt, PollWrite::new(alloc, &mut writer, &HEADER, payload)?)??;
    Ok((writer.took.len(), writer.offers))
}

/// Frames that fit in a page, and one with a byte more: the number of writes.
// Should fail if less than a page is offered first.
#[test]
fn a_page_has_the_first_offer(rt: HostRuntime) -> std::result::Result<(), Fail> {
    for (length, offers) in [(4085, 1), (4086, 1), (4087, 2)] {
        let is_so = offers_of(&rt, length)? == (length + 10, offers);
        check_named_row("a payload of so many bytes", length, is_so)?;
    }
    Ok(())
}
