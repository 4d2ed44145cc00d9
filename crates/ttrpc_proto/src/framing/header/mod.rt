//! The ten bytes before each message, and the numbers in them.

pub mod laws;
pub mod oversize;

ghost use Rattle.std.specs.Prelude.{◌≡◌, ◌<◌, ◌↔◌, length, IsNone, IfSome, IfOk, IfErr, OnErr, OnOk, bit_or};
ghost use Rattle.std.specs.Io.KnownBytes.{Appends};
ghost use Rattle.std.specs.IoError.{error_kind};
ghost use Rattle.ttrpc_proto.specs.Framing.Streams.{AppendsFront, ConsumesBelow, FillFails, Flushes, Makes, Then, Writes, failure};

use crate::framing::streams::{Sink, Source, fill, write_part};
use crate::{Error, Result};
use byteorder::{BigEndian, ByteOrder};
use std::alloc::Global;
use std::io::{self, ErrorKind};

/// The number of bytes in a header.
pub const MESSAGE_HEADER_LENGTH: usize = 10;

/// The greatest number of bytes in a message, without its header.
pub const MESSAGE_LENGTH_MAX: usize = 4194304;

/// The default number of bytes in a page.
pub const DEFAULT_PAGE_SIZE: usize = 4096;

/// The type of a request.
pub const MESSAGE_TYPE_REQUEST: u8 = 1;

/// The type of a response.
pub const MESSAGE_TYPE_RESPONSE: u8 = 2;

/// The type of a data message, which carries data of a stream.
pub const MESSAGE_TYPE_DATA: u8 = 3;

/// The flag of a sender that writes no more on the stream.
pub const FLAG_REMOTE_CLOSED: u8 = 1;

/// The flag of a sender that goes on writing on the stream.
pub const FLAG_REMOTE_OPEN: u8 = 2;

/// The flag of a data message that has no data.
pub const FLAG_NO_DATA: u8 = 4;

/// The header before a message: its length, its stream, its type and its flags.
#[derive(Default, Debug, Clone, Copy, PartialEq, Eq)]
pub struct MessageHeader {
    /// The number of bytes in the message, without its header.
    pub length: u32,
    /// The stream id, odd if the client opened the stream.
    pub stream_id: u32,
    /// The type: a request, a response or data.
    pub type_: u8,
    /// The flags of the message or its stream.
    pub flags: u8,
}

impl From<&[u8; 10]> for MessageHeader {
    ghost use Rattle.ttrpc_proto.specs.Framing.Header.{header_of};

    ghost from_gives = { λ bytes header. header ≡ header_of bytes.now };

    fn from(bytes: &[u8; 10]) -> MessageHeader {
        MessageHeader {
            length: BigEndian::read_u32(bytes),
            stream_id: BigEndian::read_u32(&bytes[4..]),
            type_: bytes[8],
            flags: bytes[9],
        }
    }
}

impl MessageHeader {
    ghost use Rattle.ttrpc_proto.specs.Framing.Header.{ConsumesHeader, header_bytes, header_of};

    /// Returns the header in the first ten bytes, or `None` if there are fewer.
    pub fn try_from_slice(bytes: &[u8]) -> Option<MessageHeader>
        ensures short { IsNone result ↔ (length bytes.now < MESSAGE_HEADER_LENGTH) }
        ensures header { IfSome result (λ header. header ≡ header_of bytes.now) }
    {
        let (ten, _rest) = bytes.split_first_chunk::<10>()?;
        Some(MessageHeader::from(ten))
    }

    /// Returns the header's ten bytes.
    pub fn to_bytes(&self) -> [u8; 10]
        ensures { result ≡ header_bytes self.now }
    {
        let mut bytes = [0u8; 10];
        BigEndian::write_u32(&mut bytes, self.length);
        BigEndian::write_u32(&mut bytes[4..], self.stream_id);
        bytes[8] = self.type_;
        bytes[9] = self.flags;
        bytes
    }

    /// Returns the header's ten bytes in a vector.
    pub fn to_vec(&self, alloc: Global) -> Result<Vec<u8>>
        ensures ok { IfOk result (λ bytes. bytes.items ≡ header_bytes self.now) }
        ensures only_memory { IfErr result (λ e. e ≡ Error.NoMemory) }
    {
        Ok(Vec::from_slice(alloc, &self.to_bytes())?)
    }

    /// Reads a header's ten bytes, and no bytes after them. The error is `UnexpectedEof` if the reader ends before the
    /// tenth.
    pub fn read_from<R: Source>(reader: &mut R) -> io::Result<MessageHeader>
        ensures ok { IfOk result
            (ConsumesHeader (R.remaining reader.old) (R.remaining reader.new)) }
        ensures cut { OnErr result (ConsumesBelow (R.remaining reader.old) (R.remaining reader.new)
            MESSAGE_HEADER_LENGTH) }
        ensures err { IfErr result
            (λ e. FillFails (R.remaining reader.new) (R.last reader.new) (error_kind e)) }
    {
        let mut bytes = [0u8; 10];
        let (count, filled) = fill(reader, &mut bytes);
        filled?;
        if count < MESSAGE_HEADER_LENGTH {
            return Err(ErrorKind::UnexpectedEof.into());
        }
        Ok(MessageHeader::from(&bytes))
    }

    /// Writes the ten bytes alone, and then flushes the writer.
    pub fn write_to<W: Sink>(&self, writer: &mut W) -> io::Result<()>
        ensures ok { OnOk result
            (Appends (W.contents writer.old) (W.contents writer.new) (header_bytes self.now)) }
        ensures err { OnErr result
            (AppendsFront (W.contents writer.old) (W.contents writer.new) (header_bytes self.now)) }
        ensures calls { Makes (W.calls writer.old) (W.calls writer.new)
            (λ calls. Then (Writes (header_bytes self.now)) Flushes calls (failure result)) }
    {
        write_part(writer, &self.to_bytes())?;
        writer.flush()
    }

    /// Returns the header of a request with this length.
    pub fn new_request(stream_id: u32, len: u32) -> MessageHeader
        ensures { result ≡ record {
          length = len;
          stream_id = stream_id;
          type_ = MESSAGE_TYPE_REQUEST;
          flags = 0;
        } }
    {
        MessageHeader {
            length: len,
            stream_id,
            type_: MESSAGE_TYPE_REQUEST,
            flags: 0,
        }
    }

    /// Returns the header of a response with this length.
    pub fn new_response(stream_id: u32, len: u32) -> MessageHeader
        ensures { result ≡ record {
          length = len;
          stream_id = stream_id;
          type_ = MESSAGE_TYPE_RESPONSE;
          flags = 0;
        } }
    {
        MessageHeader {
            length: len,
            stream_id,
            type_: MESSAGE_TYPE_RESPONSE,
            flags: 0,
        }
    }

    /// Returns the header of a data message with this length.
    pub fn new_data(stream_id: u32, len: u32) -> MessageHeader
        ensures { result ≡ record {
          length = len;
          stream_id = stream_id;
          type_ = MESSAGE_TYPE_DATA;
          flags = 0;
        } }
    {
        MessageHeader {
            length: len,
            stream_id,
            type_: MESSAGE_TYPE_DATA,
            flags: 0,
        }
    }

    /// Replaces the stream id.
    pub fn set_stream_id(&mut self, stream_id: u32)
        ensures { self.new ≡ record self.old { stream_id = stream_id } }
    {
        self.stream_id = stream_id;
    }

    /// Replaces the flags.
    pub fn set_flags(&mut self, flags: u8)
        ensures { self.new ≡ record self.old { flags = flags } }
    {
        self.flags = flags;
    }

    /// Adds these flags to the others.
    pub fn add_flags(&mut self, flags: u8)
        ensures { self.new ≡ record self.old { flags = bit_or self.old.flags flags } }
    {
        self.flags |= flags;
    }
}
