//! The outcome that a frame gives a call that waits, and the thing that it brings a stream.
ghost use Rattle.std.specs.Prelude.{◌≡◌, IfOk, Some, None, true};
ghost use Rattle.ttrpc_wire.specs.Fold.{read_from};
ghost use Rattle.ttrpc_proto.specs.Messages.{empty_response, response_step};
ghost use Rattle.ttrpc_client.specs.Protocol.{IsCallResult, IsDelivery, by_status, data_delivery, call_result_of, delivery_of, response_delivery};

use crate::errors::{malformed_error, undecoded_error, unexpected_error, unreadable_error};
use std::alloc::{AllocError, Global};
use ttrpc_connection::thing::{closes, of_data};
use ttrpc_connection::{InboundResult, MailboxEntry};
use ttrpc_proto::framing::header::oversize::oversize_error;
use ttrpc_proto::{
    Error, MESSAGE_LENGTH_MAX, MESSAGE_TYPE_DATA, MESSAGE_TYPE_RESPONSE, MessageHeader, Response,
};
use ttrpc_secure::context::errors::unopened_error;
use ttrpc_wire::codec::in_place::decode_in_place;
use ttrpc_wire::{Blob, CodecError};

/// The outcome of a call.
pub type CallOutcome = Result<Response, Error>;

/// Returns the outcome that a frame of this header gives, by the result of the inbound half.
pub fn outcome_of(
    alloc: Global,
    header: &MessageHeader,
    opening: InboundResult,
) -> Result<CallOutcome, AllocError>
    ensures { IfOk result (IsCallResult (call_result_of header.now opening)) }
{
    match opening {
        InboundResult::TooLong => Ok(Err(oversize_error(alloc, header.length as usize, true)?)),
        InboundResult::Refused(why) => Ok(Err(unopened_error(alloc, &why)?)),
        InboundResult::Opened(plain) => opened_outcome(alloc, header, plain),
    }
}

/// Returns the outcome that a frame of this header gives, with a payload that was opened.
fn opened_outcome(
    alloc: Global,
    header: &MessageHeader,
    plain: Blob,
) -> Result<CallOutcome, AllocError>
    ensures { IfOk result (IsCallResult (call_result_of header.now (InboundResult.Opened plain))) }
{
    if plain.len() > MESSAGE_LENGTH_MAX {
        return Ok(Err(oversize_error(alloc, plain.len(), false)?));
    }
    if header.type_ != MESSAGE_TYPE_RESPONSE {
        return Ok(Err(malformed_error(alloc, header)?));
    }
    match decode_in_place(alloc, plain.into_vec()) {
        Ok(response) => Ok(answered(response)),
        Err(CodecError::NoMemory) => Err(AllocError),
        Err(error) => Ok(Err(unreadable_error(alloc, &error)?)),
    }
}

/// Returns the outcome that a response gives: its status as an error if the code isn't OK, or else the response.
fn answered(response: Response) -> CallOutcome
    ensures { result ≡ by_status response.status response }
{
    let Response { status, payload } = response;
    match status {
        Some(status) if status.code != 0 => Err(Error::RpcStatus(status)),
        status => Ok(Response { status, payload }),
    }
}

/// The thing that a frame brings a stream, and whether it ends the stream.
#[derive(Drop)]
pub struct StreamDelivery {
    pub thing: MailboxEntry,
    pub ends: bool,
}

impl StreamDelivery {
    /// Returns the delivery of an error after which nothing is received.
    fn breaking(error: Error) -> StreamDelivery
        ensures { result ≡ record { thing = MailboxEntry.Breaking error; ends = true } }
    {
        StreamDelivery {
            thing: MailboxEntry::Breaking(error),
            ends: true,
        }
    }
}

/// Returns the delivery that a frame of this header brings a stream, by the result of the inbound half, and by whether the stream was opened to
/// receive items.
pub fn delivery_of(
    alloc: Global,
    header: &MessageHeader,
    opening: InboundResult,
    streaming_server: bool,
) -> Result<StreamDelivery, AllocError>
    ensures { IfOk result
        (λ delivery. IsDelivery (delivery_of streaming_server header.now opening) delivery.thing delivery.ends) }
{
    match opening {
        InboundResult::TooLong => {
            let error = oversize_error(alloc, header.length as usize, true)?;
            Ok(StreamDelivery::breaking(error))
        }
        InboundResult::Refused(why) => Ok(StreamDelivery::breaking(unopened_error(alloc, &why)?)),
        InboundResult::Opened(plain) => opened_delivery(alloc, header, plain, streaming_server),
    }
}

/// Returns the delivery that a frame of this header brings, with a payload that was opened.
fn opened_delivery(
    alloc: Global,
    header: &MessageHeader,
    plain: Blob,
    streaming_server: bool,
) -> Result<StreamDelivery, AllocError>
    ensures { IfOk result (λ delivery.
        IsDelivery (delivery_of streaming_server header.now (InboundResult.Opened plain)) delivery.thing delivery.ends) }
{
    if plain.len() > MESSAGE_LENGTH_MAX {
        let error = oversize_error(alloc, plain.len(), false)?;
        return Ok(StreamDelivery::breaking(error));
    }
    match header.type_ {
        MESSAGE_TYPE_RESPONSE => response_delivery(alloc, plain),
        MESSAGE_TYPE_DATA => data_delivery(alloc, header, plain, streaming_server),
        _ => Ok(StreamDelivery::breaking(malformed_error(alloc, header)?)),
    }
}

/// Returns the delivery that a response of these bytes brings, which ends the stream.
fn response_delivery(alloc: Global, bytes: Blob) -> Result<StreamDelivery, AllocError>
    ensures { IfOk result (λ delivery. IsDelivery
        (response_delivery (read_from response_step empty_response bytes)) delivery.thing delivery.ends) }
{
    let thing = match decode_in_place(alloc, bytes.into_vec()) {
        Ok(response) => match answered(response) {
            Ok(response) => MailboxEntry::Last(response.payload),
            Err(error) => MailboxEntry::Closing(error),
        },
        Err(CodecError::NoMemory) => return Err(AllocError),
        Err(error) => MailboxEntry::Closing(undecoded_error(alloc, &error)?),
    };
    Ok(StreamDelivery { thing, ends: true })
}

/// Returns the delivery that data bring: an item or an end, or an error if the stream was opened to receive none.
fn data_delivery(
    alloc: Global,
    header: &MessageHeader,
    plain: Blob,
    streaming_server: bool,
) -> Result<StreamDelivery, AllocError>
    ensures { IfOk result
        (λ delivery. IsDelivery (data_delivery streaming_server header.now plain) delivery.thing delivery.ends) }
{
    let thing = if streaming_server {
        of_data(alloc, header.stream_id, header.flags, plain)?
    } else {
        MailboxEntry::Closing(unexpected_error(alloc)?)
    };
    Ok(StreamDelivery {
        thing,
        ends: closes(header.flags),
    })
}
