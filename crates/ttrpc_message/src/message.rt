//! Messages as values.
ghost use Rattle.std.specs.Prelude.{◌≡◌, ◌≢◌, ◌<◌, ◌≤◌, ◌++◌, ◌↔◌, ◌⊎◌, ◌^◌, ◌-◌, [], false, length, min, None, Some, IfErr, IfOk, IsOk, MatchResult, OnErr, OnOk};
ghost use Rattle.std.specs.Io.KnownBytes.{Appends};
ghost use Rattle.ttrpc_proto.specs.Framing.Header.{header_bytes};
ghost use Rattle.ttrpc_proto.specs.Framing.Streams.{AppendsFront, Flushes, Makes, Then};
ghost use Rattle.ttrpc_proto.specs.Framing.Header.Oversize.{oversize_error};
ghost use Rattle.ttrpc_proto.specs.Framing.Streaming.{IsSent, Reads, Sends, WritesFrame};
ghost use Rattle.ttrpc_message.specs.Messages.{Decodes, Fails, IsErrorOf, IsUnwritten, IsValueOf};

use crate::codec_cause::codec_error_of;
use std::alloc::{AllocError, Global};
use std::fmt::Display;
use ttrpc_proto::framing::failure::StreamFailure;
use ttrpc_proto::framing::header::oversize::check_oversize;
use ttrpc_proto::framing::reading::{Found, cut_error, take_frame};
use ttrpc_proto::framing::writing::write_flushed;
use ttrpc_proto::{
    Error, GenMessage, Incoming, MESSAGE_LENGTH_MAX, MESSAGE_TYPE_REQUEST, MessageHeader, Result,
    Sink, Source,
};
use ttrpc_wire::{Blob, Codec, TryClone};

/// A header, and the value of its message.
#[derive(Debug, Default, Drop, PartialEq, Eq)]
pub struct Message<C> {
    pub header: MessageHeader,
    pub payload: C,
}

impl<C: TryClone> TryClone for Message<C> {
    fn try_clone(&self) -> std::result::Result<Message<C>, AllocError> {
        Ok(Message {
            header: self.header,
            payload: self.payload.try_clone()?,
        })
    }
}

impl<C: Codec> Message<C>
where
    C::E: Display + Drop,
{
    /// Makes a request under this id, with the payload's length in its header. Refuses a payload that is longer than a message may be.
    pub fn new_request(alloc: Global, stream_id: u32, payload: C) -> Result<Message<C>>
        ensures ok { IsOk result ↔ (length (C.written payload) ≤ MESSAGE_LENGTH_MAX) }
        ensures header { IfOk result (λ m. m.header ≡ record {
          length = length (C.written payload);
          stream_id = stream_id;
          type_ = MESSAGE_TYPE_REQUEST;
          flags = 0;
        }) }
        ensures payload { IfOk result (λ m. m.payload ≡ payload) }
        ensures err { IfErr result
            (IsErrorOf (oversize_error false (min (length (C.written payload)) (2 ^ 32 - 1)))) }
    {
        let size = payload.size();
        match check_oversize(alloc, size as usize, false) {
            Ok(()) => Ok(Message {
                header: MessageHeader::new_request(stream_id, size),
                payload,
            }),
            Err(error) => Err(error),
        }
    }

    /// Reads the message of the next frame, and nothing that follows it. If the message is too long, its bytes are thrown away, and its
    /// header is returned with the value that an empty payload means.
    pub fn read_from<R: Source>(alloc: Global, reader: &mut R) -> Result<Message<C>>
        ensures { Reads (R.remaining reader.old) (R.remaining reader.new) (R.last reader.new)
            (IsValueOf C.meaning C.E.is_no_memory C.E.output result) }
    {
        value_of(alloc, take_frame(alloc, reader))
    }

    /// Writes the message as a frame under its header as it is, and flushes once.
    pub fn write_to<W: Sink>(&self, alloc: Global, writer: &mut W) -> Result<()>
        ensures ok { OnOk result (Appends (W.contents writer.old) (W.contents writer.new)
            (header_bytes self.now.header ++ C.written self.now.payload)) }
        ensures err { OnErr result (AppendsFront (W.contents writer.old) (W.contents writer.new)
            (header_bytes self.now.header ++ C.written self.now.payload)) }
        ensures calls { (Makes (W.calls writer.old) (W.calls writer.new) (λ calls. calls ≡ [])
            × Fails result (IsUnwritten C.E.is_no_memory C.E.output (C.written self.now.payload)))
            ⊎ Sends (W.calls writer.old) (W.calls writer.new)
            (Then (WritesFrame self.now.header (C.written self.now.payload)) Flushes)
            (IsSent result) }
    {
        let content = match encoded(alloc, &self.payload) {
            Ok(content) => content,
            Err(error) => return Err(error),
        };
        let mut prefix = Vec::new(alloc);
        match write_flushed(writer, &self.header, content.as_slice(), &mut prefix) {
            Ok(()) => Ok(()),
            Err(failure) => Err(failure.into_error(alloc)),
        }
    }

    /// Decodes the payload of a message.
    pub fn from_gen(alloc: Global, message: GenMessage) -> Result<Message<C>>
        ensures { Decodes C.meaning C.E.is_no_memory C.E.output result
            message.header message.payload }
    {
        decoded(alloc, message.header, message.payload.as_slice())
    }

    /// Encodes the payload of the message.
    pub fn into_gen(self, alloc: Global) -> Result<GenMessage>
        ensures ok { IfOk result
            (λ m. (m.header ≡ self.header) × (m.payload ≡ C.written self.payload)) }
        ensures again { IfOk result (λ m. C.meaning m.payload ≡ Some self.payload) }
        ensures err { IfErr result
            (IsUnwritten C.E.is_no_memory C.E.output (C.written self.payload)) }
    {
        let Message { header, payload } = self;
        match encoded(alloc, &payload) {
            Ok(bytes) => Ok(GenMessage {
                header,
                payload: Blob::from_vec(bytes),
            }),
            Err(error) => Err(error),
        }
    }
}

/// Converts the result of reading a frame to a value.
pub fn value_of<C: Codec>(
    alloc: Global,
    took: std::result::Result<Found, StreamFailure>,
) -> Result<Message<C>>
where
    C::E: Display + Drop,
    ensures { IsValueOf C.meaning C.E.is_no_memory C.E.output result took }
{
    match took {
        Ok(Found::Whole(Incoming::Frame(frame))) => {
            decoded(alloc, frame.header, frame.payload.as_slice())
        }
        Ok(Found::Whole(Incoming::Oversize(header))) => decoded(alloc, header, &[]),
        Ok(_) => Err(cut_error(alloc)),
        Err(failure) => Err(failure.into_error(alloc)),
    }
}

fn decoded<C: Codec>(alloc: Global, header: MessageHeader, bytes: &[u8]) -> Result<Message<C>>
where
    C::E: Display + Drop,
    ensures { Decodes C.meaning C.E.is_no_memory C.E.output result header bytes.now }
{
    match C::decode(alloc, bytes) {
        Ok(payload) => Ok(Message { header, payload }),
        Err(error) => Err(codec_error_of(alloc, "Decode payload failed.", error)),
    }
}

/// Encodes a value, or returns the reason why it can't be encoded.
pub fn encoded<C: Codec>(alloc: Global, payload: &C) -> Result<Vec<u8>>
where
    C::E: Display + Drop,
    ensures ok { IfOk result (λ v. v.items ≡ C.written payload.now) }
    ensures again { IfOk result (λ v. C.meaning v.items ≡ Some payload.now) }
    ensures err { IfErr result (IsUnwritten C.E.is_no_memory C.E.output (C.written payload.now)) }
{
    match payload.encode(alloc) {
        Ok(bytes) => Ok(bytes),
        Err(error) => Err(codec_error_of(alloc, "Encode payload failed.", error)),
    }
}
