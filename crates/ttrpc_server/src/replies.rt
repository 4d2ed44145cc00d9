//! Sending a response, fitted to the limit, in a frame of its own, and the reasons why it isn't sent.
ghost use Rattle.std.specs.Prelude.{◌≡◌, ◌≤◌, ◌+◌, ◌++◌, unwrap_or, IfOk, IfErr, OnOk};
ghost use Rattle.ttrpc_connection.specs.Frames.{safe_limit};
ghost use Rattle.ttrpc_server.specs.Protocol.{advice, fit_to_limit, fitted, IsResponseFrame, SendsOwnAnswer, Responds, response_bytes, response_size};
ghost use Rattle.ttrpc_server.specs.Inside.{HasRoom, IsUnfit, IsUnsentFor, SendsAnswer, SendsSome, TellsUnsent};
ghost use Rattle.ttrpc_proto.specs.declared.framing.header.TheConstants.{MESSAGE_HEADER_LENGTH};
ghost use Rattle.ttrpc_proto.specs.Framing.Queue.{free};

use crate::responses::{limit_response, oversize_response};
use crate::rules::Rules;
use std::alloc::{AllocError, Global};
use ttrpc_connection::parts::parts_of;
use ttrpc_connection::{Failure, Outbox};
use ttrpc_proto::{Error, GenMessage, MESSAGE_LENGTH_MAX, MessageHeader, Queued, Response};
use ttrpc_secure::context::errors::{unsafe_payload_error, unsealed_error};
use ttrpc_secure::sending::SendError;
use ttrpc_secure::{OutboundTransform, TransformError};
use ttrpc_wire::codec::in_place::{Around, encode_around};
use ttrpc_wire::{Blob, Codec, CodecError, Text};

/// Why a response wasn't sent.
#[derive(Debug, Drop)]
pub(crate) enum Unsent {
    /// The response has this many bytes, which are more than fit with the half's overhead.
    AboveLimit(usize),
    /// The queue hasn't as many free bytes as the response's frame may need.
    NoRoom,
    /// The half refused the response, for this reason.
    Unsealed(Text),
    /// The allocator refused memory.
    NoMemory,
}

impl From<AllocError> for Unsent {
    ghost use Rattle.std.specs.Prelude.{◌≡◌};
    ghost use Rattle.ttrpc_server.specs.declared.replies.Unsent.TheVariants.{NoMemory};

    ghost from_gives = { λ _ e. e ≡ NoMemory };

    fn from(_refused: AllocError) -> Unsent {
        Unsent::NoMemory
    }
}

impl Unsent {
    /// Returns the error for this reason, with this limit for payloads.
    pub(crate) fn error(self, alloc: Global, rules: Rules, limit: usize) -> Error
        ensures { TellsUnsent rules limit self result }
    {
        match self {
            Unsent::AboveLimit(size) => { unsafe_payload_error(alloc, size, limit, advice(rules)) }
            Unsent::NoRoom => Error::NoRoom,
            Unsent::Unsealed(why) => unsealed_error(alloc, &why),
            Unsent::NoMemory => Error::NoMemory,
        }
    }
}

/// Returns the advice that a server adds to the text about the safe limit.
pub(crate) fn advice(rules: Rules) -> &'static str
    ensures { result.now ≡ advice rules }
{
    match rules {
        Rules::Sync => "",
        Rules::Async => "; reduce payload size",
    }
}

/// Returns the response to send in place of this one, or none if this one isn't too long.
fn stand_in(
    alloc: Global,
    rules: Rules,
    limit: usize,
    response: &Response,
) -> Result<Option<Response>, Unsent>
    requires { limit ≤ MESSAGE_LENGTH_MAX }
    ensures ok { IfOk result
        (λ instead. (unwrap_or instead response.now ≡ fitted rules limit response.now)
        × (response_size (fitted rules limit response.now) ≤ limit)) }
    ensures err { IfErr result (IsUnfit rules limit response.now) }
{
    match rules {
        Rules::Sync => limited(alloc, limit, response),
        Rules::Async => shortened(alloc, limit, response),
    }
}

/// Returns the response to send in place of this one under async rules, or none. A response that is longer than a message may be is first
/// replaced by one that states this.
fn shortened(alloc: Global, limit: usize, response: &Response) -> Result<Option<Response>, Unsent>
    requires { limit ≤ MESSAGE_LENGTH_MAX }
    ensures ok { IfOk result
        (λ instead. (unwrap_or instead response.now ≡ fitted Rules.Async limit response.now)
        × (response_size (fitted Rules.Async limit response.now) ≤ limit)) }
    ensures err { IfErr result (IsUnfit Rules.Async limit response.now) }
{
    let size = response.size() as usize;
    if size <= MESSAGE_LENGTH_MAX {
        return limited(alloc, limit, response);
    }
    let instead = oversize_response(alloc, size)?;
    let other = limited(alloc, limit, &instead)?;
    Ok(Some(other.unwrap_or(instead)))
}

/// Returns the response to send in place of this one for the limit alone, or none. A response with more bytes than the limit is replaced by
/// one that states this.
fn limited(alloc: Global, limit: usize, response: &Response) -> Result<Option<Response>, Unsent>
    requires { limit ≤ MESSAGE_LENGTH_MAX }
    ensures ok { IfOk result
        (λ instead. (unwrap_or instead response.now ≡ fit_to_limit limit response.now)
        × (response_size (fit_to_limit limit response.now) ≤ limit)) }
    ensures err { IfErr result (IsUnfit Rules.Sync limit response.now) }
{
    let size = response.size() as usize;
    if size <= limit {
        return Ok(None);
    }
    let instead = limit_response(alloc, size, limit)?;
    let size = instead.size() as usize;
    if size > limit {
        return Err(Unsent::AboveLimit(size));
    }
    Ok(Some(instead))
}

/// Returns the replacement of a response, or the response if there is none.
fn either<'a>(instead: &'a Option<Response>, response: &'a Response) -> &'a Response
    ensures { result.now ≡ unwrap_or instead.now response.now }
{
    match instead {
        Some(instead) => instead,
        None => response,
    }
}

/// Writes a response, which is no longer than a message may be, without its payload.
fn written_around(alloc: Global, response: &Response) -> Result<Around, Unsent>
    requires { response_size response.now ≤ MESSAGE_LENGTH_MAX }
    ensures ok { IfOk result (λ around. around.before ++ (response.now.payload ++ around.after)
        ≡ response_bytes response.now) }
    ensures err { IfErr result (λ unsent. unsent ≡ Unsent.NoMemory) }
{
    let room = (response.size() as usize).saturating_sub(response.payload.len());
    match encode_around(alloc, response, room) {
        Ok(around) => Ok(around),
        Err(CodecError::NoMemory) => Err(Unsent::NoMemory),
        Err(_) => unreachable!(),
    }
}

/// Returns the frame for a response, without its payload. The frame has no owner, since responses aren't thrown away.
pub(crate) fn response_frame(alloc: Global, stream_id: u32) -> Queued
    ensures { IsResponseFrame stream_id result }
{
    Queued {
        message: GenMessage {
            header: MessageHeader::new_response(stream_id, 0),
            payload: Blob::new(alloc),
        },
        ticket: None,
        is_unary_request: false,
        owner: 0,
    }
}

/// Sends a response, or its replacement if it is too long. An `Err` changes nothing.
pub(crate) fn send_response<O: OutboundTransform + Drop>(
    alloc: Global,
    outbox: &mut Outbox<O>,
    rules: Rules,
    stream_id: u32,
    response: &Response,
) -> Result<(), Unsent>
    ensures ok { OnOk result (SendsSome O.OutboundTransform outbox.old (Responds rules
        (safe_limit O.OutboundTransform outbox.old.half) stream_id response.now) outbox.new) }
    ensures err { IfErr result (λ unsent. (outbox.new ≡ outbox.old)
        × IsUnsentFor rules O.OutboundTransform outbox.old stream_id response.now unsent) }
{
    let instead = stand_in(alloc, rules, outbox.limit(), response)?;
    let fitted = either(&instead, response);
    let around = written_around(alloc, fitted)?;
    let frame = response_frame(alloc, stream_id);
    match outbox.send(alloc, frame, parts_of(fitted, &around)) {
        Ok(()) => Ok(()),
        Err(SendError::Failed(TransformError::Refused(why))) => Err(Unsent::Unsealed(why)),
        Err(SendError::Failed(TransformError::NoMemory)) => Err(Unsent::NoMemory),
        Err(SendError::NoRoom) => Err(Unsent::NoRoom),
        Err(SendError::TooLong) => unreachable!(),
    }
}

/// Sends an answer of the core itself, for which there is room, or leaves it out if it can't be sent. An `Err` changes nothing.
pub(crate) fn send_own_answer<O: OutboundTransform + Drop>(
    alloc: Global,
    outbox: &mut Outbox<O>,
    rules: Rules,
    stream_id: u32,
    response: &Response,
) -> Result<(), Failure>
    requires { HasRoom rules O.OutboundTransform outbox.old response.now }
    ensures ok { OnOk result (SendsSome O.OutboundTransform outbox.old (SendsOwnAnswer rules
        O.OutboundTransform outbox.old.half stream_id response.now) outbox.new) }
    ensures err { IfErr result
        (λ failure. (outbox.new ≡ outbox.old) × (failure ≡ Failure.NoMemory)) }
{
    match send_response(alloc, outbox, rules, stream_id, response) {
        Ok(()) => Ok(()),
        Err(Unsent::NoMemory) => Err(Failure::NoMemory),
        Err(Unsent::AboveLimit(_)) => Ok(()),
        Err(Unsent::Unsealed(_)) => Ok(()),
        Err(Unsent::NoRoom) => unreachable!(),
    }
}

/// Sends an answer of the core itself, if there is one, with room for the longest answer. An `Err` changes nothing.
pub(crate) fn send_answer<O: OutboundTransform + Drop>(
    alloc: Global,
    outbox: &mut Outbox<O>,
    rules: Rules,
    stream_id: u32,
    answer: &Option<Response>,
) -> Result<(), Failure>
    requires { MESSAGE_HEADER_LENGTH + MESSAGE_LENGTH_MAX ≤ free outbox.old.queue }
    ensures ok { OnOk result (SendsSome O.OutboundTransform outbox.old
        (SendsAnswer rules O.OutboundTransform outbox.old.half stream_id answer.now) outbox.new) }
    ensures err { IfErr result
        (λ failure. (outbox.new ≡ outbox.old) × (failure ≡ Failure.NoMemory)) }
{
    match answer {
        None => Ok(()),
        Some(response) => send_own_answer(alloc, outbox, rules, stream_id, response),
    }
}
