//! Reading one frame from a reader, or the part of one that is there.
ghost use Rattle.std.specs.Prelude.{◌≡◌, ◌<◌, ◌≤◌, ◌*◌, ◌+◌, ◌++◌, ℕ, List, [], length, take, min, max, vec_capacity, IfErr, IfOk, OnErr, OnOk};
ghost use Rattle.std.specs.Io.KnownBytes.{Consumes};
ghost use Rattle.std.specs.IoError.{error_kind};
ghost use Rattle.ttrpc_proto.specs.Framing.Streams.{ConsumesBelow, IsFailure, IsOver};
ghost use Rattle.ttrpc_proto.specs.ErrorText.{IsSocket};
ghost use Rattle.ttrpc_proto.specs.declared.framing.reading.Found.{Found as AFound};
ghost use Rattle.ttrpc_proto.specs.Framing.Streaming.{IsMessageOf, Reads, StandsAt, TellsOversize, Took};
ghost use Rattle.ttrpc_proto.specs.Framing.Inside.{IsAllOr, IsBodyCause, Passed, TookBody};

use crate::error::causes::socket_of;
use crate::framing::failure::StreamFailure;
use crate::framing::frame::Incoming;
use crate::framing::gen_message::{GenMessage, GenMessageError};
use crate::framing::header::oversize::oversize_message;
use crate::framing::header::{
    DEFAULT_PAGE_SIZE, MESSAGE_HEADER_LENGTH, MESSAGE_LENGTH_MAX, MessageHeader,
};
use crate::framing::streams::{Source, fill};
use crate::{Error, get_rpc_status};
use std::alloc::{AllocError, Global};
use std::io::{self, ErrorKind};
use ttrpc_wire::{Blob, Code};

/// The frame that was at the front of a reader's bytes, or the part of one.
#[derive(Debug, Drop, PartialEq, Eq)]
pub enum Found {
    /// A whole frame, or the header of a frame that is too long. The body of the latter is gone.
    Whole(Incoming),
    /// The input ended after this many bytes of a header, which may be none.
    HeaderCut(usize),
    /// The input ended after the header and this many bytes of the body.
    BodyCut(MessageHeader, usize),
    /// The input ended after the header of a frame that is too long, and before the end of its body.
    OversizeCut(MessageHeader),
}

/// Reads a frame, and nothing after it. Room for a body grows as its bytes come, and the body of a frame that is too
/// long is thrown away.
pub fn take_frame<R: Source>(alloc: Global, reader: &mut R) -> Result<Found, StreamFailure>
    ensures { Took (R.remaining reader.old) (R.remaining reader.new) (R.last reader.new) result }
{
    let mut head = [0u8; 10];
    let (count, filled) = fill(reader, &mut head);
    filled?;
    if count < MESSAGE_HEADER_LENGTH {
        return Ok(Found::HeaderCut(count));
    }
    let header = MessageHeader::from(&head);
    if header.length as usize <= MESSAGE_LENGTH_MAX {
        return take_body(alloc, reader, header);
    }
    match pass(reader, header.length as usize) {
        Ok(true) => Ok(Found::Whole(Incoming::Oversize(header))),
        Ok(false) => Ok(Found::OversizeCut(header)),
        Err(error) => Err(StreamFailure::Io(error)),
    }
}

// Reads the body of a frame. The header has come, and the body is kept.
fn take_body<R: Source>(
    alloc: Global,
    reader: &mut R,
    header: MessageHeader,
) -> Result<Found, StreamFailure>
    requires { header.length ≤ MESSAGE_LENGTH_MAX }
    ensures { TookBody header (R.remaining reader.old) (R.remaining reader.new)
        (R.last reader.new) result }
{
    let mut body = Vec::new(alloc);
    read_body(reader, &mut body, header.length as usize)?;
    if body.len() < header.length as usize {
        return Ok(Found::BodyCut(header, body.len()));
    }
    let payload = Blob::from_vec(body);
    Ok(Found::Whole(Incoming::Frame(GenMessage { header, payload })))
}

// Reads as many bytes as a header states, or fewer if the reader ends.
fn read_body<R: Source>(
    reader: &mut R,
    body: &mut Vec<u8>,
    stated: usize,
) -> Result<(), StreamFailure>
    // The body is what was read, and is no longer than stated.
    requires { body.old.items ≡ [] }
    ensures read { Consumes (R.remaining reader.old) (R.remaining reader.new) body.new.items }
    ensures fits { length body.new.items ≤ stated }
    // If the body is shorter, the reader is at its end, or failed.
    ensures end { OnOk result
        (length body.new.items < stated → IsOver (R.remaining reader.new) (R.last reader.new)) }
    ensures err { IfErr result
        (λ e. (length body.new.items < stated) × IsBodyCause e (R.last reader.new)) }
{
    while body.len() < stated {
        let room = make_room(body, stated)?;
        if !grow(reader, body, room)? {
            return Ok(());
        }
    }
    Ok(())
}

// Reserves room for more of a body, and returns the length that the body may have then. The room doubles, so that each
// byte is moved a bounded number of times. The room is at least a page, and at most what the header states. So a header
// alone takes a page at most.
fn make_room(body: &mut Vec<u8>, stated: usize) -> Result<usize, AllocError>
    // The bytes are unchanged.
    requires { length body.old.items < stated }
    ensures items { body.new.items ≡ body.old.items }
    // There is room for more, and never for more than is stated, nor for more than a page or twice the bytes there
    // were.
    ensures more { IfOk result (λ room. (length body.old.items < room)
        × (room ≤ min stated (max DEFAULT_PAGE_SIZE (2 * length body.old.items)))) }
    ensures there { IfOk result (λ room. room ≤ vec_capacity body.new) }
    ensures capacity { vec_capacity body.new ≤ max (vec_capacity body.old)
        (min stated (max DEFAULT_PAGE_SIZE (2 * length body.old.items))) }
{
    let held = body.len();
    let room = held.saturating_mul(2).max(DEFAULT_PAGE_SIZE).min(stated);
    body.reserve_exact(room - held)?;
    Ok(room)
}

// Reads until there are `size` bytes. Returns false if the reader ended before.
fn grow<R: Source>(reader: &mut R, bytes: &mut Vec<u8>, size: usize) -> Result<bool, StreamFailure>
    // There is room for this many bytes.
    requires more { length bytes.old.items < size }
    requires room { size ≤ vec_capacity bytes.old }
    // The bytes that were read follow the others.
    ensures read { (more : List ℕ) × Consumes (R.remaining reader.old) (R.remaining reader.new) more
        × (bytes.new.items ≡ bytes.old.items ++ more) }
    // If there are fewer bytes than asked for, the reader is at its end, or failed.
    ensures ok { IfOk result (λ all. IsAllOr all (length bytes.new.items) size
        (IsOver (R.remaining reader.new) (R.last reader.new))) }
    ensures err { IfErr result
        (λ e. (length bytes.new.items < size) × IsBodyCause e (R.last reader.new)) }
{
    let held = bytes.len();
    bytes.resize(size, 0)?;
    read_behind(reader, bytes, held)?;
    Ok(bytes.len() == size)
}

// Replaces the bytes after the first `held` by bytes of the reader, as many as it gives.
fn read_behind<R: Source>(reader: &mut R, bytes: &mut Vec<u8>, held: usize) -> io::Result<()>
    // The bytes that were read follow the first bytes.
    requires { held ≤ length bytes.old.items }
    ensures read { (more : List ℕ) × Consumes (R.remaining reader.old) (R.remaining reader.new) more
        × (bytes.new.items ≡ take held bytes.old.items ++ more) }
    ensures fits { length bytes.new.items ≤ length bytes.old.items }
    // If there are fewer bytes than before, the reader is at its end, or failed.
    ensures end { OnOk result (length bytes.new.items < length bytes.old.items
        → IsOver (R.remaining reader.new) (R.last reader.new)) }
    ensures err { IfErr result (λ e. (length bytes.new.items < length bytes.old.items)
        × IsFailure (R.last reader.new) (error_kind e)) }
{
    let (came, filled) = fill(reader, &mut bytes[held..]);
    bytes.truncate(held + came);
    filled
}

// Reads this many bytes and throws them away, a page at a time. Returns false if the reader ended before.
fn pass<R: Source>(reader: &mut R, count: usize) -> io::Result<bool>
    ensures ok { IfOk result
        (Passed (R.remaining reader.old) (R.remaining reader.new) (R.last reader.new) count) }
    ensures cut { OnErr result
        (ConsumesBelow (R.remaining reader.old) (R.remaining reader.new) count) }
    ensures err { IfErr result (λ e. IsFailure (R.last reader.new) (error_kind e)) }
{
    let mut page = [0u8; DEFAULT_PAGE_SIZE];
    let mut left = count;
    while left > 0 {
        let wanted = left.min(DEFAULT_PAGE_SIZE);
        let (came, filled) = fill(reader, &mut page[..wanted]);
        if let Err(error) = filled {
            return Err(error);
        }
        if came < wanted {
            return Ok(false);
        }
        left -= wanted;
    }
    Ok(true)
}

impl GenMessage {
    /// Reads the message in the next frame, and nothing after it. For a frame that is too long the error is
    /// `ReturnError`, which its sender is to get. After anything else but a whole frame the connection can't go on.
    pub fn read_from<R: Source>(
        alloc: Global,
        reader: &mut R,
    ) -> std::result::Result<GenMessage, GenMessageError>
        ensures { Reads (R.remaining reader.old) (R.remaining reader.new) (R.last reader.new)
            (IsMessageOf result) }
    {
        message_of(alloc, take_frame(alloc, reader))
    }
}

/// Returns the message of a whole frame that was read, or the error for any other result of reading.
pub fn message_of(
    alloc: Global,
    took: std::result::Result<Found, StreamFailure>,
) -> std::result::Result<GenMessage, GenMessageError>
    ensures { IsMessageOf result took }
{
    match took {
        Ok(Found::Whole(Incoming::Frame(message))) => Ok(message),
        Ok(Found::Whole(Incoming::Oversize(header))) => Err(GenMessageError::ReturnError(
            header,
            oversize_error(alloc, header),
        )),
        Ok(_) => Err(cut_error(alloc).into()),
        Err(failure) => Err(failure.into_error(alloc).into()),
    }
}

/// Returns the error for a message that is longer than a message may be, or `NoMemory` if memory for its text was
/// refused.
pub fn oversize_error(alloc: Global, header: MessageHeader) -> Error
    ensures { TellsOversize header result }
{
    match oversize_message(alloc, header.length as usize) {
        Ok(text) => get_rpc_status(Code::INVALID_ARGUMENT, text),
        Err(_) => Error::NoMemory,
    }
}

/// Returns the error for a stream that ended before a whole frame, or `NoMemory` if memory for its text was refused.
pub fn cut_error(alloc: Global) -> Error
    ensures { IsSocket None result }
{
    socket_of(alloc, &io::Error::from(ErrorKind::UnexpectedEof))
}

/// States that exactly one `Found` is at the front of each list of bytes. So a reader's find is a function of its
/// bytes.
pub fn bytes_have_one_front()
    ensures some { (bytes : List ℕ)
        → (found : AFound) × (front : List ℕ) × (rest : List ℕ) × StandsAt bytes found front rest }
    ensures one { (bytes : List ℕ) (f g : AFound) (a b c d : List ℕ)
        → StandsAt bytes f a b → StandsAt bytes g c d → (f ≡ g) × (a ≡ c) }
{}
