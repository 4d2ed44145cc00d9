//! Sending data of a stream, on either side.
ghost use Rattle.std.specs.Prelude.{◌≡◌, [], false, codes, IfOk, IfErr, OnErr};
ghost use Rattle.ttrpc_connection.specs.Failure.{IsTold};
ghost use Rattle.ttrpc_connection.specs.Inside.{IsUnsentBy};
ghost use Rattle.ttrpc_connection.specs.Items.{IsDataFrame, RefusesData, SendsData};
ghost use Rattle.ttrpc_proto.specs.declared.error.Error.{Error as AnError};

use crate::outbox::Outbox;
use std::alloc::Global;
use ttrpc_proto::framing::header::oversize::oversize_error;
use ttrpc_proto::{
    Error, FLAG_NO_DATA, FLAG_REMOTE_CLOSED, GenMessage, MESSAGE_LENGTH_MAX, MESSAGE_TYPE_DATA,
    MessageHeader, Queued,
};
use ttrpc_secure::context::errors::{
    or_no_memory, others_error, unsafe_payload_error, unsealed_error,
};
use ttrpc_secure::sending::{DataParts, SendError};
use ttrpc_secure::{OutboundTransform, TransformError};
use ttrpc_wire::Blob;

/// The number of a frame that was sent on a stream. The first ticket is 1, and each ticket is one above the last. `sent` reports on a frame
/// by its ticket.
pub type Ticket = u64;

/// The flags of a frame that closes a stream without an item.
pub const CLOSE_FLAGS: u8 = FLAG_REMOTE_CLOSED | FLAG_NO_DATA;

/// Seals data of a stream and queues them in a frame of these flags, and returns the frame's ticket. The text that refuses data above the
/// safe limit has the advice in it. A refusal changes nothing, and it is `NoRoom` if the queue lacks room for the data.
pub fn send_data<O: OutboundTransform + Drop>(
    alloc: Global,
    outbox: &mut Outbox<O>,
    advice: &str,
    stream_id: u32,
    flags: u8,
    plain: &[u8],
) -> Result<Ticket, Error>
    ensures ok { IfOk result (λ ticket. SendsData O.OutboundTransform outbox.old stream_id flags
        plain.now ticket outbox.new) }
    ensures refused { IfErr result
        (RefusesData O.OutboundTransform advice.now outbox.old stream_id flags plain.now) }
    ensures err { OnErr result (outbox.new ≡ outbox.old) }
{
    if plain.len() > MESSAGE_LENGTH_MAX {
        return Err(or_no_memory(oversize_error(alloc, plain.len(), false)));
    }
    let Some(ticket) = outbox.next_ticket() else {
        return Err(tickets_error(alloc));
    };
    let limit = outbox.limit();
    if plain.len() > limit {
        return Err(unsafe_payload_error(alloc, plain.len(), limit, advice));
    }
    if !outbox.has_room(plain.len()) {
        return Err(Error::NoRoom);
    }
    let frame = data_frame(alloc, stream_id, flags, ticket);
    match outbox.send(alloc, frame, DataParts::whole(plain)) {
        Ok(()) => Ok(ticket),
        Err(SendError::Failed(refused)) => Err(unsent_error(alloc, &refused)),
        Err(SendError::TooLong | SendError::NoRoom) => unreachable!(),
    }
}

/// Returns a data frame of a stream, without its payload.
fn data_frame(alloc: Global, stream_id: u32, flags: u8, ticket: Ticket) -> Queued
    ensures { IsDataFrame stream_id flags ticket result }
{
    stream_frame(alloc, stream_id, MESSAGE_TYPE_DATA, flags, Some(ticket))
}

/// Returns a frame of a stream, without its payload.
pub fn stream_frame(
    alloc: Global,
    stream_id: u32,
    type_: u8,
    flags: u8,
    ticket: Option<Ticket>,
) -> Queued
    ensures { result ≡ record {
      message =
          record { header = record { length = 0; stream_id = stream_id; type_ = type_; flags = flags }; payload = [] };
      ticket = ticket;
      is_unary_request = false;
      owner = stream_id;
    } }
{
    Queued {
        message: GenMessage {
            header: MessageHeader {
                length: 0,
                stream_id,
                type_,
                flags,
            },
            payload: Blob::new(alloc),
        },
        ticket,
        is_unary_request: false,
        owner: u64::from(stream_id),
    }
}

/// Returns the error for a frame that can get no ticket, or `NoMemory` if memory for its text was refused.
fn tickets_error(alloc: Global) -> Error
    ensures { IsTold (AnError.Others (codes "tickets are used up")) result }
{
    others_error(String::from_str(alloc, "tickets are used up"))
}

/// Returns the error for data that the outbound half didn't seal, or `NoMemory` if memory was refused.
pub fn unsent_error(alloc: Global, refused: &TransformError) -> Error
    ensures { IsUnsentBy refused.now result }
{
    match refused {
        TransformError::Refused(why) => unsealed_error(alloc, why),
        TransformError::NoMemory => Error::NoMemory,
    }
}
