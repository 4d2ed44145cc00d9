//! Sealing data and queuing the frame in one call.
ghost use Rattle.std.specs.Prelude.{◌≡◌, ◌≢◌, ◌⊎◌, ◌<◌, ◌≤◌, ◌+◌, ◌-◌, ◌^◌, ◌↔◌, ◌++◌, [], length, min, Ok, Err, IfOk, IfErr, OnOk, OnErr, MatchResult};
ghost use Rattle.ttrpc_proto.specs.Framing.Queue.{IsQueue, free, with_frame, filled, withdrawn};
ghost use Rattle.ttrpc_proto.specs.declared.framing.header.TheConstants.{MESSAGE_HEADER_LENGTH};
ghost use Rattle.ttrpc_secure.specs.declared.transform.TransformError.{TransformError as AnError};
ghost use Rattle.ttrpc_secure.specs.Halves.{MayFail};
ghost use Rattle.ttrpc_secure.specs.Sends.{Sends, SendsUnder, associated, emptied, joined, needed, safe_limit};

use crate::transform::{OutboundTransform, TransformError};
use std::alloc::{AllocError, Global};
use ttrpc_proto::{Blob, Error, MESSAGE_LENGTH_MAX, MessageHeader, Outgoing, Queued};

/// The reason why nothing was sent.
#[derive(Debug, Drop, PartialEq, Eq)]
pub enum SendError {
    /// The data may become longer than a message may be.
    TooLong,
    /// The queue has fewer free bytes than the frame may need.
    NoRoom,
    /// The half refused the data, or the allocator refused memory.
    Failed(TransformError),
}

impl From<TransformError> for SendError {
    ghost use Rattle.ttrpc_secure.specs.declared.sending.SendError.TheVariants.{Failed};

    ghost from_gives = { λ t e. e ≡ Failed t };

    fn from(error: TransformError) -> SendError {
        SendError::Failed(error)
    }
}

/// Returns the associated bytes of a header, which its payload is bound to: the stream id, the type and the flags.
/// Takes no memory.
pub fn associated_bytes(header: &MessageHeader) -> [u8; 6]
    ensures { result ≡ associated header.now }
{
    let [_, _, _, _, a, b, c, d, type_, flags] = header.to_bytes();
    [a, b, c, d, type_, flags]
}

/// Returns the length of the longest data that are sure to fit into a message after sealing. Takes no memory.
pub fn limit_of<O: OutboundTransform>(half: &O) -> usize
    ensures { result ≡ safe_limit O.OutboundTransform half.now }
{
    MESSAGE_LENGTH_MAX - half.max_overhead()
}

/// Returns an error if data of this length may become longer than a message may be.
fn check_limit<O: OutboundTransform>(half: &O, length: usize) -> Result<(), SendError>
    ensures ok { OnOk result (length + O.overhead half.now ≤ MESSAGE_LENGTH_MAX) }
    ensures err { IfErr result
        (λ e. (e ≡ SendError.TooLong) × (MESSAGE_LENGTH_MAX < length + O.overhead half.now)) }
{
    if length > limit_of(half) {
        return Err(SendError::TooLong);
    }
    Ok(())
}

/// Data in three parts, one after the other.
#[derive(Debug, Clone, Copy)]
pub struct DataParts<'a> {
    pub before: &'a [u8],
    pub payload: &'a [u8],
    pub after: &'a [u8],
}

impl<'a> DataParts<'a> {
    /// Returns data in one part.
    pub fn whole(payload: &'a [u8]) -> DataParts<'a>
        ensures { joined result ≡ payload.now }
    {
        DataParts {
            before: &[],
            payload,
            after: &[],
        }
    }

    /// Returns the number of bytes, or the greatest `usize` if there are more.
    fn len(&self) -> usize
        ensures { result ≡ min (length (joined self.now)) (2 ^ 64 - 1) }
    {
        self.before
            .len()
            .saturating_add(self.payload.len())
            .saturating_add(self.after.len())
    }

    /// Copies the data into one vector.
    fn to_vec(&self, alloc: Global) -> Result<Vec<u8>, AllocError>
        ensures { IfOk result (λ v. v.items ≡ joined self.now) }
    {
        let mut data = Vec::with_capacity(alloc, self.len())?;
        data.extend_from_slice(self.before)?;
        data.extend_from_slice(self.payload)?;
        data.extend_from_slice(self.after)?;
        Ok(data)
    }
}

/// Seals the data, and queues the frame with the sealed data as its payload. A half that leaves data as they are isn't
/// called, and the data are copied into the queue at once. Any other half gets the data in one vector. Room for the
/// frame is found before the half is called. So all sealed data are queued, and in the order of sealing. An error
/// changes nothing: `TooLong` comes first, and then `NoRoom`.
pub fn send<O: OutboundTransform>(
    alloc: Global,
    half: &mut O,
    outgoing: &mut Outgoing,
    frame: Queued,
    parts: DataParts<'_>,
) -> Result<(), SendError>
    // At an `Ok` the half sealed the data, and the frame with them is queued.
    ensures ok { OnOk result (Sends O.OutboundTransform half.old outgoing.old frame
        (joined parts.entry) half.new outgoing.new) }
    // `TooLong` comes exactly if sealing may make the data too long, and `NoRoom` exactly if it may not, but room is missing.
    ensures too_long { (result ≡ Err SendError.TooLong)
        ↔ (MESSAGE_LENGTH_MAX < length (joined parts.entry) + O.overhead half.old) }
    ensures no_room { (result ≡ Err SendError.NoRoom)
        ↔ ((length (joined parts.entry) + O.overhead half.old ≤ MESSAGE_LENGTH_MAX)
        × (free outgoing.old < needed O.OutboundTransform half.old (joined parts.entry))) }
    // A failure is one that the half may return, and any error changes nothing.
    ensures refused { (t : AnError) → result ≡ Err (SendError.Failed t)
        → MayFail O.refuses half.old (joined parts.entry) (associated frame.message.header) t }
    ensures err { OnErr result ((half.new ≡ half.old) × (outgoing.new ≡ outgoing.old)) }
{
    check_limit(half, parts.len())?;
    let associated = associated_bytes(&frame.message.header);
    make_room(alloc, outgoing, frame, parts.len() + half.max_overhead())?;
    if half.leaves_as_is() {
        outgoing.fill(parts.before, parts.payload, parts.after);
        return Ok(());
    }
    let sealed = seal_parts(alloc, half, &parts, &associated);
    settle(outgoing, sealed)
}

/// Seals the data in a vector of their own.
fn seal_parts<O: OutboundTransform>(
    alloc: Global,
    half: &mut O,
    parts: &DataParts<'_>,
    aad: &[u8],
) -> Result<Vec<u8>, TransformError>
    ensures ok { IfOk result
        (λ sealed. O.seals half.old (joined parts.now) aad.now sealed.items half.new) }
    ensures refused { IfErr result (MayFail O.refuses half.old (joined parts.now) aad.now) }
    ensures err { OnErr result (half.new ≡ half.old) }
{
    let data = parts.to_vec(alloc)?;
    half.transform_outbound_vec(alloc, data, aad)
}

/// Seals borrowed data under these associated bytes, and returns the sealed data. An error changes nothing.
pub fn seal<O: OutboundTransform>(
    alloc: Global,
    half: &mut O,
    data: &[u8],
    aad: &[u8],
) -> Result<Vec<u8>, SendError>
    // The sealed data are no longer than a message may be.
    ensures ok { IfOk result (λ sealed. O.seals half.old «data».now aad.now sealed.items half.new) }
    ensures fits { IfOk result (λ sealed. length sealed.items ≤ MESSAGE_LENGTH_MAX) }
    // Or they may become longer, or the half fails, and nothing changed.
    ensures too_long { (result ≡ Err SendError.TooLong)
        ↔ (MESSAGE_LENGTH_MAX < length «data».now + O.overhead half.old) }
    ensures queues_nothing { result ≢ Err SendError.NoRoom }
    ensures refused { (t : AnError) → result ≡ Err (SendError.Failed t)
        → MayFail O.refuses half.old «data».now aad.now t }
    ensures err { OnErr result (half.new ≡ half.old) }
{
    check_limit(half, data.len())?;
    let sealed = half.transform_outbound(alloc, data, aad)?;
    Ok(sealed)
}

/// Seals borrowed data under these associated bytes, and queues the frame with the sealed data as its payload. Room is
/// found before the half is called, as by `send`. An error changes nothing: `TooLong` comes first, and then `NoRoom`.
pub fn send_copy<O: OutboundTransform>(
    alloc: Global,
    half: &mut O,
    outgoing: &mut Outgoing,
    frame: Queued,
    data: &[u8],
    aad: &[u8],
) -> Result<(), SendError>
    // At an `Ok` the half sealed the data, and the frame with them is queued.
    ensures ok { OnOk result (SendsUnder O.OutboundTransform half.old outgoing.old frame «data».now
        aad.now half.new outgoing.new) }
    // `TooLong` comes exactly if sealing may make the data too long, and `NoRoom` exactly if it may not, but room is missing.
    ensures too_long { (result ≡ Err SendError.TooLong)
        ↔ (MESSAGE_LENGTH_MAX < length «data».now + O.overhead half.old) }
    ensures no_room { (result ≡ Err SendError.NoRoom)
        ↔ ((length «data».now + O.overhead half.old ≤ MESSAGE_LENGTH_MAX)
        × (free outgoing.old < needed O.OutboundTransform half.old «data».now)) }
    // A failure is one that the half may return, and any error changes nothing.
    ensures refused { (t : AnError) → result ≡ Err (SendError.Failed t)
        → MayFail O.refuses half.old «data».now aad.now t }
    ensures err { OnErr result ((half.new ≡ half.old) × (outgoing.new ≡ outgoing.old)) }
{
    check_limit(half, data.len())?;
    make_room(alloc, outgoing, frame, data.len() + half.max_overhead())?;
    let sealed = half.transform_outbound(alloc, data, aad);
    settle(outgoing, sealed)
}

/// Queues the frame without its payload, if there is room for the header and this many bytes. The payload is added
/// later. An error changes nothing.
fn make_room(
    alloc: Global,
    outgoing: &mut Outgoing,
    mut frame: Queued,
    room: usize,
) -> Result<(), SendError>
    ensures ok { OnOk result (outgoing.new ≡ with_frame outgoing.old (emptied frame)) }
    ensures room { OnOk result (MESSAGE_HEADER_LENGTH + room ≤ free outgoing.old) }
    ensures no_room { (result ≡ Err SendError.NoRoom)
        ↔ (free outgoing.old < MESSAGE_HEADER_LENGTH + room) }
    ensures err { OnErr result (outgoing.new ≡ outgoing.old) }
    ensures only { IfErr result
        (λ e. (e ≡ SendError.Failed AnError.NoMemory) ⊎ (e ≡ SendError.NoRoom)) }

    // The conditions of `placed_filled` and `placed_withdrawn`, for a caller that settles the frame.
    ensures was { IsQueue outgoing.old }
    ensures valid { IsQueue outgoing.new }
{
    frame.message.payload = Blob::new(alloc);
    match outgoing.place(frame, room) {
        Ok(()) => Ok(()),
        Err(Error::NoRoom) => Err(SendError::NoRoom),
        Err(_) => Err(SendError::Failed(TransformError::NoMemory)),
    }
}

/// Adds the payload to the last frame, or removes the frame if there is no payload, and returns the error.
fn settle(outgoing: &mut Outgoing, sealed: Result<Vec<u8>, TransformError>) -> Result<(), SendError>
    ensures { MatchResult sealed
        (λ payload. (result ≡ Ok tt) × (outgoing.new ≡ filled outgoing.old payload.items))
        (λ error. (result ≡ Err (SendError.Failed error))
        × (outgoing.new ≡ withdrawn outgoing.old)) }
{
    match sealed {
        Ok(payload) => {
            outgoing.fill(&[], payload.as_slice(), &[]);
            Ok(())
        }
        Err(error) => {
            outgoing.withdraw();
            Err(error.into())
        }
    }
}
