//! The errors that a client core makes by itself.
ghost use Rattle.std.specs.Prelude.{◌≡◌, ◌++◌, ℕ, List, codes, IfOk};
ghost use Rattle.ttrpc_proto.specs.ErrorText.{status_of};
ghost use Rattle.ttrpc_connection.specs.Failure.{IsTold};
ghost use Rattle.ttrpc_client.specs.Protocol.{advice, malformed_text, expired_error};
ghost use Rattle.ttrpc_client.specs.Streaming.{unknown_error, unsendable_error};
ghost use Rattle.ttrpc_secure.specs.Context.Texts.{unsafe_payload_text};

use crate::kind::ClientKind;
use std::alloc::{AllocError, Global};
use ttrpc_proto::error::get_rpc_status;
use ttrpc_proto::{Error, MessageHeader};
use ttrpc_secure::context::errors::{others_error, unsafe_payload_error};
use ttrpc_wire::{Code, CodecError, Text};

/// Returns the outcome of a call with a response that can't be read. The clause leaves the end of the text open, as it leaves the texts of
/// `CodecError`.
pub fn unreadable_error(alloc: Global, error: &CodecError) -> Result<Error, AllocError>
    ensures { IfOk result
        (λ made. (rest : List ℕ) × (made ≡ Error.Others (codes "Unpack response error " ++ rest))) }
{
    let cause = format!(in alloc; "{error}")?;
    let text = format!(in alloc; "Unpack response error {}", cause.as_str())?;
    Ok(Error::Others(Text::from_string(text)))
}

/// Returns the outcome of a call with a frame that is no response.
pub fn malformed_error(alloc: Global, header: &MessageHeader) -> Result<Error, AllocError>
    ensures { IfOk result (λ error. error ≡ Error.Others (malformed_text header.now)) }
{
    let text = format!(in alloc;
        "Receiver got malformed packet: type {}, flags {}, stream {}",
        header.type_, header.flags, header.stream_id
    )?;
    Ok(Error::Others(Text::from_string(text)))
}

/// Returns the error for a request that may become longer than a message may be, or `NoMemory` if memory for its text was refused.
pub fn above_limit_error(alloc: Global, kind: ClientKind, length: usize, limit: usize) -> Error
    ensures { IsTold (Error.Others (unsafe_payload_text length limit (advice kind))) result }
{
    unsafe_payload_error(alloc, length, limit, advice(kind))
}

/// Returns the advice that a client of this kind adds to the text about the safe limit.
pub fn advice(kind: ClientKind) -> &'static str
    ensures { result.now ≡ advice kind }
{
    match kind {
        ClientKind::Sync => "",
        ClientKind::Async => "; reduce payload size",
    }
}

/// Returns the error for a request for which no id is left, or `NoMemory` if memory for its text was refused.
pub fn used_up_error(alloc: Global) -> Error
    ensures { IsTold (Error.Others (codes "stream ids are used up")) result }
{
    others_error(String::from_str(alloc, "stream ids are used up"))
}

/// Returns the outcome of a call with a deadline that has passed, or `NoMemory` if memory for its text was refused.
pub fn deadline_error(alloc: Global) -> Error
    ensures { IsTold expired_error result }
{
    others_error(String::from_str(alloc, "Request deadline elapsed"))
}

/// Returns the error that a response that can't be read brings a stream. The clause leaves the end of the text open, as it leaves the texts
/// of `CodecError`.
pub fn undecoded_error(alloc: Global, error: &CodecError) -> Result<Error, AllocError>
    ensures { IfOk result (λ made. (rest : List ℕ)
        × (made ≡ Error.Others (codes "Decode message failed. " ++ rest))) }
{
    let cause = format!(in alloc; "{error}")?;
    let text = format!(in alloc; "Decode message failed. {}", cause.as_str())?;
    Ok(Error::Others(Text::from_string(text)))
}

/// Returns the error that data bring a stream that was opened to receive none.
pub fn unexpected_error(alloc: Global) -> Result<Error, AllocError>
    ensures { IfOk result
        (λ error. error ≡ Error.Others (codes "received data from non-streaming server.")) }
{
    Ok(Error::Others(Text::from_str(alloc, "received data from non-streaming server.")?))
}

/// Returns the error for a stream that is to send items, but is opened by a request with a payload, or `NoMemory` if memory for its text
/// was refused.
pub fn payload_error(alloc: Global) -> Error
    ensures { IsTold (Error.RpcStatus (status_of Code.INVALID_ARGUMENT
        (codes "Creating a ClientStream and sending payload at the same time is not allowed")))
        result }
{
    let text = "Creating a ClientStream and sending payload at the same time is not allowed";
    match String::from_str(alloc, text) {
        Ok(text) => get_rpc_status(Code::INVALID_ARGUMENT, text),
        Err(refused) => refused.into(),
    }
}

/// Returns the error for a call on a stream that isn't there, or `NoMemory` if memory for its text was refused.
pub fn unknown_error(alloc: Global) -> Error
    ensures { IsTold unknown_error result }
{
    others_error(String::from_str(alloc, "unknown stream"))
}

/// Returns the error for sending on a stream that was opened to send no items, or `NoMemory` if memory for its text was refused.
pub fn unsendable_error(alloc: Global) -> Error
    ensures { IsTold unsendable_error result }
{
    others_error(String::from_str(alloc, "stream is not sendable"))
}
