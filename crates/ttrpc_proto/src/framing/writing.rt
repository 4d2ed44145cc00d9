//! Writing frames to a writer.
ghost use Rattle.std.specs.Prelude.{◌≡◌, ◌≤◌, ◌++◌, length, OnErr, OnOk};
ghost use Rattle.std.specs.Io.KnownBytes.{Appends};
ghost use Rattle.ttrpc_proto.specs.Framing.Header.{header_bytes};
ghost use Rattle.ttrpc_proto.specs.Framing.Streams.{AppendsFront, Flushes, Makes, Then};
ghost use Rattle.ttrpc_proto.specs.Framing.Streaming.{IsSent, Sends, Went, WritesFrame};

use crate::Result;
use crate::framing::failure::StreamFailure;
use crate::framing::gen_message::GenMessage;
use crate::framing::header::{MESSAGE_HEADER_LENGTH, MessageHeader};
use crate::framing::streams::{Sink, write_both};
use std::alloc::{AllocError, Global};
use std::result;
use ttrpc_wire::values::slices::{behind, front};

/// The number of a payload's bytes that are offered together with the header. A page has room for both.
pub const PREFIX_PAYLOAD: usize = 4086;

/// Writes a frame: the header with the first bytes of the payload, and then the other bytes of the payload. `prefix` is
/// room for the bytes that are offered first, and holds them at the end. The header is written unchanged.
pub fn write_frame<W: Sink>(
    writer: &mut W,
    header: &MessageHeader,
    payload: &[u8],
    prefix: &mut Vec<u8>,
) -> result::Result<(), StreamFailure>
    ensures ok { OnOk result (Appends (W.contents writer.old) (W.contents writer.new)
        (header_bytes header.now ++ payload.now)) }
    ensures err { OnErr result (AppendsFront (W.contents writer.old) (W.contents writer.new)
        (header_bytes header.now ++ payload.now)) }
    ensures calls { Makes (W.calls writer.old) (W.calls writer.new)
        (λ calls. Went (WritesFrame header.now payload.now) calls result) }
{
    if let Err(_) = begin(prefix, header, front(payload, PREFIX_PAYLOAD)) {
        return Err(StreamFailure::NoMemory);
    }
    match write_both(writer, prefix.as_slice(), behind(payload, PREFIX_PAYLOAD)) {
        Ok(()) => Ok(()),
        Err(error) => Err(StreamFailure::Io(error)),
    }
}

/// Writes a frame as `write_frame` does, and then flushes once.
pub fn write_flushed<W: Sink>(
    writer: &mut W,
    header: &MessageHeader,
    payload: &[u8],
    prefix: &mut Vec<u8>,
) -> result::Result<(), StreamFailure>
    ensures ok { OnOk result (Appends (W.contents writer.old) (W.contents writer.new)
        (header_bytes header.now ++ payload.now)) }
    ensures err { OnErr result (AppendsFront (W.contents writer.old) (W.contents writer.new)
        (header_bytes header.now ++ payload.now)) }
    ensures calls { Makes (W.calls writer.old) (W.calls writer.new)
        (λ calls. Went (Then (WritesFrame header.now payload.now) Flushes) calls result) }
{
    if let Err(failure) = write_frame(writer, header, payload, prefix) {
        return Err(failure);
    }
    match writer.flush() {
        Ok(()) => Ok(()),
        Err(error) => Err(StreamFailure::Io(error)),
    }
}

// Replaces the vector's bytes by the header and the first bytes of a payload.
fn begin(
    prefix: &mut Vec<u8>,
    header: &MessageHeader,
    payload: &[u8],
) -> result::Result<(), AllocError>
    requires { length payload.now ≤ PREFIX_PAYLOAD }
    ensures { OnOk result (prefix.new.items ≡ header_bytes header.now ++ payload.now) }
{
    prefix.clear();
    prefix.reserve_exact(MESSAGE_HEADER_LENGTH + payload.len())?;
    prefix.extend_from_slice(&header.to_bytes())?;
    prefix.extend_from_slice(payload)
}

impl GenMessage {
    /// Writes the message as a frame, and flushes once.
    pub fn write_to<W: Sink>(&self, alloc: Global, writer: &mut W) -> Result<()>
        ensures ok { OnOk result (Appends (W.contents writer.old) (W.contents writer.new)
            (header_bytes self.now.header ++ self.now.payload)) }
        ensures err { OnErr result (AppendsFront (W.contents writer.old) (W.contents writer.new)
            (header_bytes self.now.header ++ self.now.payload)) }
        ensures calls { Sends (W.calls writer.old) (W.calls writer.new)
            (Then (WritesFrame self.now.header self.now.payload) Flushes) (IsSent result) }
    {
        let mut prefix = Vec::new(alloc);
        match write_flushed(writer, &self.header, self.payload.as_slice(), &mut prefix) {
            Ok(()) => Ok(()),
            Err(failure) => Err(failure.into_error(alloc)),
        }
    }
}
