//! Each writer writes messages to a sink that takes them at once, byte by byte, with interruptions, or only in part.
use crate::tests::streams::recorder::{Kept, Recorder};
use crate::tests::streams::rows::{MANNERS, REQUEST, REQUEST_HEADER, REQUEST_PAYLOAD};
use std::alloc::Global;
use std::io::ErrorKind;
use std::test::Fail;
use ttrpc_bench::checks::{Tested, check, check_row};
use ttrpc_bench::{AT_ONCE, Manner, Receiver, StdWriter};
use ttrpc_message::{Message, write_message};
use ttrpc_proto::{Error, GenMessage, MessageHeader, Request, Result as Answer};
use ttrpc_wire::Blob;

/// The three writers of messages.
#[derive(Clone, Copy, PartialEq, Eq)]
enum Writer {
    Parts,
    Message,
    Value,
}

const WRITERS: &[Writer] = &[Writer::Parts, Writer::Message, Writer::Value];

/// Writes the request by one of them.
fn write_by(alloc: Global, writer: Writer, receiver: &mut Receiver) -> Result<Answer<()>, Fail> {
    let message = GenMessage {
        header: REQUEST_HEADER,
        payload: Blob::from_slice(alloc, REQUEST_PAYLOAD)?,
    };
    Ok(match writer {
        Writer::Parts => {
            let mut prefix = Vec::new(alloc);
            write_message(
                alloc,
                receiver,
                REQUEST_HEADER,
                REQUEST_PAYLOAD,
                &mut prefix,
            )
        }
        Writer::Message => message.write_to(alloc, receiver),
        Writer::Value => Message::<Request>::from_gen(alloc, message)?.write_to(alloc, receiver),
    })
}

/// Returns whether the receiver got these bytes, and this number of flushes.
fn got(receiver: &Receiver, bytes: &[u8], flushes: usize) -> bool {
    receiver.taken.as_slice() == bytes && receiver.flushes == flushes
}

/// Returns whether the writer writes the request whole, and flushes as it should.
fn writes_whole(alloc: Global, writer: Writer, manner: Manner) -> Result<bool, Fail> {
    let mut receiver = Receiver::new(alloc, manner)?;
    write_by(alloc, writer, &mut receiver)??;
    let flushes = if writer == Writer::Parts { 0 } else { 1 };
    Ok(got(&receiver, REQUEST, flushes))
}

#[test]
fn a_request_is_written(rt: HostRuntime) -> Tested {
    for writer in WRITERS {
        for (at, manner) in MANNERS.iter().enumerate() {
            check_row(at, writes_whole(rt.alloc(), *writer, *manner)?)?;
        }
    }
    Ok(())
}

/// Returns whether the answer is a socket's error. If a write took nothing, the writer of parts must give the right text.
fn is_broken(writer: Writer, behind: Option<ErrorKind>, answer: Answer<()>) -> Result<bool, Fail> {
    match answer {
        Err(Error::Socket(text)) => Ok(
            writer != Writer::Parts
                || behind.is_some()
                || text.as_str() == "failed to write ttrpc frame: write zero",
        ),
        Err(error) => Err(error.into()),
        Ok(()) => Ok(false),
    }
}

/// Returns whether a writer that fails or takes nothing after `count` bytes has got those, and nothing after them.
fn breaks_behind(
    alloc: Global,
    writer: Writer,
    count: usize,
    behind: Option<ErrorKind>,
) -> Result<bool, Fail> {
    let mut receiver = Receiver::new(alloc, AT_ONCE.ending(count, behind))?;
    let answer = write_by(alloc, writer, &mut receiver)?;
    Ok(is_broken(writer, behind, answer)? && got(&receiver, &REQUEST[..count.min(30)], 0))
}

#[test]
fn a_writer_breaks_at_each_place(rt: HostRuntime) -> Tested {
    let broken = Some(ErrorKind::BrokenPipe);
    for writer in WRITERS {
        for count in 0..30 {
            check_row(count, breaks_behind(rt.alloc(), *writer, count, broken)?)?;
            check_row(count, breaks_behind(rt.alloc(), *writer, count, None)?)?;
        }
    }
    Ok(())
}

/// Each flush fails.
const UNFLUSHED: Manner = Manner {
    flushes: 0,
    behind: Some(ErrorKind::BrokenPipe),
    ..AT_ONCE
};

/// Returns whether a failed flush is an error of the writers that flush.
fn is_unflushed(alloc: Global, writer: Writer) -> Result<bool, Fail> {
    let mut receiver = Receiver::new(alloc, UNFLUSHED)?;
    let answer = write_by(alloc, writer, &mut receiver)?;
    if let Err(Error::NoMemory) = answer {
        return Err(Error::NoMemory.into());
    }
    let fails = writer != Writer::Parts;
    Ok(answer.is_err() == fails && receiver.taken.as_slice() == REQUEST)
}

#[test]
fn a_failed_flush_is_an_error(rt: HostRuntime) -> Tested {
    for (at, writer) in WRITERS.iter().enumerate() {
        check_row(at, is_unflushed(rt.alloc(), *writer)?)?;
    }
    Ok(())
}

/// Returns whether a writer that takes all bytes gets these offers for a payload of `count` bytes.
fn is_offered(alloc: Global, count: usize, offers: &[usize]) -> Result<bool, Fail> {
    let mut payload = Vec::new(alloc);
    payload.resize(count, 7)?;
    let mut prefix = Vec::new(alloc);
    let mut receiver = Receiver::new(alloc, AT_ONCE)?;
    let header = MessageHeader::new_data(3, 0);
    write_message(
        alloc,
        &mut receiver,
        header,
        payload.as_slice(),
        &mut prefix,
    )?;
    let is_whole = receiver.taken.len() == count.saturating_add(10);
    Ok(is_whole && receiver.offers.as_slice() == offers)
}

/// Lengths of payloads, and the offers that are made of each.
const OFFERS: &[(usize, &[usize])] = &[
    (0, &[10]),
    (4085, &[4095]),
    (4086, &[4096]),
    (4087, &[4096, 1]),
];

/// A page has the header and 4086 bytes. The header is written as it was passed in.
#[test]
fn a_page_is_offered_first(rt: HostRuntime) -> Tested {
    for (at, (count, offers)) in OFFERS.iter().enumerate() {
        check_row(at, is_offered(rt.alloc(), *count, offers)?)?;
    }
    Ok(())
}

/// Returns the lengths of the offers that a recorder kept, with 0 for a flush.
fn lengths(alloc: Global, kept: &[Kept]) -> Result<Vec<usize>, Fail> {
    let mut lengths = Vec::new(alloc);
    for (offered, _) in kept {
        lengths.push(offered.as_ref().map_or(0, |bytes| bytes.as_slice().len()))?;
    }
    Ok(lengths)
}

/// A message of 5000 bytes is flushed once, after both offers.
#[test]
fn a_flush_comes_last(rt: HostRuntime) -> Tested {
    let alloc = rt.alloc();
    let mut payload = Vec::new(alloc);
    payload.resize(5000, 7)?;
    let message = GenMessage {
        header: MessageHeader::new_data(3, 5000),
        payload: Blob::from_vec(payload),
    };
    let mut recorder = Recorder {
        rt: &rt,
        alloc,
        receiver: Receiver::new(alloc, AT_ONCE)?,
        kept: Vec::new(alloc),
    };
    message.write_to(alloc, &mut recorder)?;
    let offers = lengths(alloc, recorder.kept.as_slice())?;
    check(offers.as_slice() == [4096, 914, 0].as_slice())
}

/// Returns whether a header is offered and written alone, and then flushed.
fn writes_header(alloc: Global, manner: Manner) -> Result<bool, Fail> {
    let mut receiver = Receiver::new(alloc, manner)?;
    REQUEST_HEADER.write_to(&mut receiver)?;
    let offered = receiver.offers.as_slice().first().copied();
    Ok(offered == Some(10) && got(&receiver, &REQUEST[..10], 1))
}

/// Returns whether a failed flush after a header is an error.
fn fails_to_flush(alloc: Global) -> Result<bool, Fail> {
    let mut failing = Receiver::new(alloc, UNFLUSHED)?;
    match REQUEST_HEADER.write_to(&mut failing) {
        Err(error) => Ok(error.kind() == ErrorKind::BrokenPipe),
        Ok(()) => Ok(false),
    }
}

#[test]
fn a_header_is_written_alone(rt: HostRuntime) -> Tested {
    for (at, manner) in MANNERS.iter().enumerate() {
        check_row(at, writes_header(rt.alloc(), *manner)?)?;
    }
    check(fails_to_flush(rt.alloc())?)
}

/// The flush of a writer of std is passed on.
#[test]
fn a_writer_of_std_is_flushed(rt: HostRuntime) -> Tested {
    let mut writer = StdWriter::new(rt.alloc(), AT_ONCE)?;
    REQUEST_HEADER.write_to(&mut writer)?;
    let mut failing = StdWriter::new(rt.alloc(), UNFLUSHED)?;
    let is_refused = REQUEST_HEADER.write_to(&mut failing).is_err();
    check(is_refused && got(&writer.receiver, &REQUEST[..10], 1))
}
