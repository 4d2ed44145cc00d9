//! Each row is read by each reader, from a source that gives it at once, byte by byte, or with interruptions.
use crate::tests::streams::rows::{MANNERS, Parts, REQUEST, REQUEST_HEADER, ROWS, Reads, Row};
use std::alloc::Global;
use std::io::ErrorKind;
use std::test::Fail;
use ttrpc_bench::checks::{Tested, check, check_named, check_row};
use ttrpc_bench::{AT_ONCE, Giver, Manner};
use ttrpc_message::{Message, read_message};
use ttrpc_proto::{Error, GenMessage, GenMessageError, MessageHeader, Request};

/// Returns a reader of the row. A long row comes in at most about a thousand steps.
fn giver_of(row: &Row, manner: Manner) -> Giver<'static> {
    let step = manner.step.max(row.zeros / 1000);
    Giver::with_zeros(row.head, row.zeros, row.tail, Manner { step, ..manner })
}

/// Returns whether the error is a status INVALID_ARGUMENT with this text.
fn refuses(error: &Error, text: &str) -> bool {
    matches!(error, Error::RpcStatus(status) if status.code == 3 && status.message.as_str() == text)
}

fn is_gone(error: &Error, text: &str) -> bool {
    matches!(error, Error::Socket(told) if told.as_str() == text)
}

/// Returns whether the parts that were read are those of the row.
fn are_parts(
    row: &Row,
    read: &ttrpc_proto::Result<(MessageHeader, ttrpc_proto::Result<Vec<u8>>)>,
) -> bool {
    match (row.parts, read) {
        (Parts::Gone(text), Err(error)) => is_gone(error, text),
        (Parts::Refused(text), Err(error)) => refuses(error, text),
        (Parts::Broken, Err(Error::Socket(_))) => true,
        (Parts::TooLong(text), Ok((header, Err(error)))) => {
            *header == row.header && refuses(error, text)
        }
        (Parts::Whole, Ok((header, Ok(payload)))) => {
            *header == row.header && payload.as_slice() == row.payload
        }
        _ => false,
    }
}

/// Returns whether memory was refused, for the message or for the text that is returned with its header.
fn is_refused(read: &Result<GenMessage, GenMessageError>) -> bool {
    matches!(
        read,
        Err(
            GenMessageError::InternalError(Error::NoMemory)
                | GenMessageError::ReturnError(_, Error::NoMemory)
        )
    )
}

/// Returns whether the message that was read is that of the row.
fn is_message(row: &Row, read: &Result<GenMessage, GenMessageError>) -> bool {
    match (row.reads, read) {
        (Reads::Broken, Err(GenMessageError::InternalError(Error::Socket(_)))) => true,
        (Reads::TooLong, Err(GenMessageError::ReturnError(header, error))) => {
            let text = "message length 4194305 exceed maximum message size of 4194304";
            *header == row.header && refuses(error, text)
        }
        (Reads::Whole | Reads::Unreadable, Ok(message)) => {
            message.header == row.header && message.payload.as_slice() == row.payload
        }
        _ => false,
    }
}

/// Returns whether the value that was read is that of the row: its written form is the row's.
fn is_value(
    alloc: Global,
    row: &Row,
    read: ttrpc_proto::Result<Message<Request>>,
) -> Result<bool, Fail> {
    match (row.reads, read) {
        (Reads::Broken, Err(Error::Socket(_))) => Ok(true),
        (Reads::Unreadable, Err(Error::Others(text))) => {
            Ok(text.as_str().starts_with("Decode payload failed."))
        }
        (Reads::Whole | Reads::TooLong, Ok(message)) => {
            let written = message.into_gen(alloc)?;
            Ok(written.header == row.header && written.payload.as_slice() == row.payload)
        }
        _ => Ok(false),
    }
}

/// Returns whether the row is read as parts.
fn reads_parts(alloc: Global, row: &Row, manner: Manner) -> Result<bool, Fail> {
    let mut giver = giver_of(row, manner);
    let read = read_message(alloc, &mut giver);
    if let Err(Error::NoMemory) | Ok((_, Err(Error::NoMemory))) = read {
        return Err(Error::NoMemory.into());
    }
    Ok(are_parts(row, &read) && giver.left() == row.left)
}

/// Returns whether the row is read as a message.
fn reads_message(alloc: Global, row: &Row, manner: Manner) -> Result<bool, Fail> {
    let mut giver = giver_of(row, manner);
    let read = GenMessage::read_from(alloc, &mut giver);
    if is_refused(&read) {
        return Err(Error::NoMemory.into());
    }
    Ok(is_message(row, &read) && giver.left() == row.left)
}

/// Returns whether the row is read as a value.
fn reads_value(alloc: Global, row: &Row, manner: Manner) -> Result<bool, Fail> {
    let mut giver = giver_of(row, manner);
    let read = Message::<Request>::read_from(alloc, &mut giver);
    if let Err(Error::NoMemory) = read {
        return Err(Error::NoMemory.into());
    }
    Ok(is_value(alloc, row, read)? && giver.left() == row.left)
}

/// Returns whether the row is read in each way.
fn reads(alloc: Global, row: &Row, manner: Manner) -> Result<bool, Fail> {
    Ok(
        reads_parts(alloc, row, manner)?
            && reads_message(alloc, row, manner)?
            && reads_value(alloc, row, manner)?,
    )
}

#[test]
fn rows_are_read_as_parts_messages_and_values(rt: HostRuntime) -> Tested {
    for row in ROWS {
        for manner in MANNERS {
            check_named(row.name, reads(rt.alloc(), row, *manner)?)?;
        }
    }
    Ok(())
}

fn broken_behind(count: usize) -> Manner {
    AT_ONCE.ending(count, Some(ErrorKind::ConnectionReset))
}

/// Returns a row of a request with a reader that fails after `count` bytes.
fn failing_behind(count: usize) -> Row {
    Row {
        name: "a reader that fails",
        head: REQUEST,
        zeros: 0,
        tail: b"",
        header: REQUEST_HEADER,
        payload: b"",
        parts: Parts::Broken,
        reads: Reads::Broken,
        left: REQUEST.len().saturating_sub(count),
    }
}

#[test]
fn a_reader_fails_at_each_place(rt: HostRuntime) -> Tested {
    for count in 0..30 {
        let row = failing_behind(count);
        check_row(count, reads(rt.alloc(), &row, broken_behind(count))?)?;
    }
    Ok(())
}

/// A reader fails inside the body of a message that is too long.
#[test]
fn a_reader_fails_in_what_is_thrown_away(rt: HostRuntime) -> Tested {
    let row = Row {
        name: "a reader that fails in a message that is too long",
        head: b"\0\x40\0\x01\0\0\0\x05\x01\0",
        zeros: 4194305,
        left: 4184315,
        ..failing_behind(0)
    };
    check(reads(rt.alloc(), &row, broken_behind(10000))?)
}

/// Returns the kind of a header reader's error in this manner.
fn kind_of(manner: Manner) -> ErrorKind {
    if manner.behind.is_some() {
        ErrorKind::ConnectionReset
    } else {
        ErrorKind::UnexpectedEof
    }
}

/// Returns whether the first `count` bytes of a request are read as its header, or fail as expected.
fn reads_header(count: usize, manner: Manner) -> bool {
    let mut giver = Giver::new(&REQUEST[..count.min(30)], manner);
    let read = MessageHeader::read_from(&mut giver);
    let left = giver.left();
    match read {
        Ok(header) => {
            header == REQUEST_HEADER && count >= 10 && left == count.saturating_sub(10)
        }
        Err(error) => { error.kind() == kind_of(manner) && (count < 10 || manner.behind.is_some()) }
    }
}

#[test]
fn headers_are_read_alone() -> Tested {
    for count in 0..31 {
        for manner in MANNERS {
            check_row(count, reads_header(count, *manner))?;
        }
    }
    for behind in 0..10 {
        check_row(behind, reads_header(30, broken_behind(behind)))?;
    }
    Ok(())
}
