//! Messages as bytes.
ghost use Rattle.std.specs.Prelude.{◌≡◌, ◌++◌, OnErr, OnOk, codes};
ghost use Rattle.std.specs.Io.KnownBytes.{Appends};
ghost use Rattle.ttrpc_proto.specs.Framing.Header.{header_bytes};
ghost use Rattle.ttrpc_proto.specs.Framing.Streams.{AppendsFront};
ghost use Rattle.ttrpc_proto.specs.Framing.Streaming.{Reads, Sends, TellsFailure, WritesFrame};
ghost use Rattle.ttrpc_message.specs.Messages.{ArePartsOf, IsErrorOf, IsSentMessage, TellsZero, body_cut_text, cut_error, header_cut_text};

use std::alloc::Global;
use std::io::ErrorKind;
use ttrpc_proto::framing::failure::StreamFailure;
use ttrpc_proto::framing::reading::{Found, oversize_error, take_frame};
use ttrpc_proto::framing::writing::write_frame;
use ttrpc_proto::{Error, Incoming, MessageHeader, Result, Sink, Source, sock_error_msg};
use ttrpc_wire::Text;

/// Reads the header and the payload of the next frame, and nothing that follows it. If the payload is too long, returns
/// in its place the error to report to its sender. After an `Err` the connection can't go on.
pub fn read_message<R: Source>(
    alloc: Global,
    reader: &mut R,
) -> Result<(MessageHeader, Result<Vec<u8>>)>
    ensures { Reads (R.remaining reader.old) (R.remaining reader.new) (R.last reader.new)
        (ArePartsOf result) }
{
    parts_of(alloc, take_frame(alloc, reader))
}

/// Converts the result of reading a frame to a header and its bytes.
pub fn parts_of(
    alloc: Global,
    took: std::result::Result<Found, StreamFailure>,
) -> Result<(MessageHeader, Result<Vec<u8>>)>
    ensures { ArePartsOf result took }
{
    match took {
        Ok(Found::Whole(Incoming::Frame(message))) => {
            Ok((message.header, Ok(message.payload.into_vec())))
        }
        Ok(Found::Whole(Incoming::Oversize(header))) => {
            Ok((header, Err(oversize_error(alloc, header))))
        }
        Ok(Found::OversizeCut(header)) => Ok((header, Err(oversize_error(alloc, header)))),
        Ok(Found::HeaderCut(count)) => Err(header_cut(alloc, count)),
        Ok(Found::BodyCut(header, count)) => Err(body_cut(alloc, count, header.length)),
        Err(failure) => Err(failure.into_error(alloc)),
    }
}

// Makes the error for a header that was cut after `count` bytes.
fn header_cut(alloc: Global, count: usize) -> Error
    ensures { IsErrorOf (cut_error count (header_cut_text count)) result }
{
    match format!(in alloc; "Message header length {count} is too small") {
        Ok(text) => sock_error_msg(count, text),
        Err(_) => Error::NoMemory,
    }
}

// Makes the error for a body that was cut after `count` bytes.
fn body_cut(alloc: Global, count: usize, stated: u32) -> Error
    ensures { IsErrorOf (cut_error count (body_cut_text count stated)) result }
{
    match format!(in alloc; "Message length {count} is not {stated}") {
        Ok(text) => sock_error_msg(count, text),
        Err(_) => Error::NoMemory,
    }
}

/// Writes the header as it is, and the payload. `prefix` is room for the first offer, which has both. Doesn't flush the
/// writer.
pub fn write_message<W: Sink>(
    alloc: Global,
    writer: &mut W,
    header: MessageHeader,
    payload: &[u8],
    prefix: &mut Vec<u8>,
) -> Result<()>
    ensures ok { OnOk result (Appends (W.contents writer.old) (W.contents writer.new)
        (header_bytes header ++ payload.now)) }
    ensures err { OnErr result (AppendsFront (W.contents writer.old) (W.contents writer.new)
        (header_bytes header ++ payload.now)) }
    ensures calls { Sends (W.calls writer.old) (W.calls writer.new) (WritesFrame header payload.now)
        (IsSentMessage result) }
{
    match write_frame(writer, &header, payload, prefix) {
        Ok(()) => Ok(()),
        Err(failure) => Err(write_error(alloc, failure)),
    }
}

/// Converts the failure to write a message to an error.
pub fn write_error(alloc: Global, failure: StreamFailure) -> Error
    ensures told { TellsFailure failure result }
    ensures zero { TellsZero failure result }
{
    match failure {
        StreamFailure::Io(error) if error.kind() == ErrorKind::WriteZero => write_zero(alloc),
        other => other.into_error(alloc),
    }
}

// Makes the error for a writer that took nothing.
fn write_zero(alloc: Global) -> Error
    ensures { IsErrorOf (Error.Socket (codes "failed to write ttrpc frame: write zero")) result }
{
    match Text::from_str(alloc, "failed to write ttrpc frame: write zero") {
        Ok(text) => Error::Socket(text),
        Err(_) => Error::NoMemory,
    }
}
