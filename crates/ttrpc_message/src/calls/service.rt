//! A service's side of a call.
ghost use Rattle.std.specs.Prelude.{◌≡◌, ◌≢◌, codes, IfErr, IfOk, None, Some};
ghost use Rattle.ttrpc_message.specs.Calls.{AnswersWith, IsUnanswered, RefusesCause, TellsCause};

use crate::codec_error_of;
use std::alloc::Global;
use std::fmt::Display;
use ttrpc_proto::{Error, Response, ResponseInit, Result, get_rpc_status, get_status};
use ttrpc_wire::{Code, Codec};

/// Decodes the payload of a request. The error is `NoMemory`, or, if the payload means no value, `Others` of `Unpack request error ` and
/// the text that the codec's error prints.
pub fn decode_request<M: Codec>(alloc: Global, payload: &[u8]) -> Result<M>
where
    M::E: Display + Drop,
    ensures ok { IfOk result (λ message. M.meaning payload.now ≡ Some message) }
    ensures refused { IfErr result (λ e. e ≢ Error.NoMemory → M.meaning payload.now ≡ None) }
    ensures told { IfErr result
        (TellsCause (codes "Unpack request error ") M.E.is_no_memory M.E.output) }
{
    match M::decode(alloc, payload) {
        Ok(message) => Ok(message),
        Err(error) => Err(codec_error_of(alloc, "Unpack request error ", error)),
    }
}

/// Decodes a payload as `decode_request` does, for a service that answers a payload which means no value. The error is `NoMemory`, or the
/// status of code INVALID_ARGUMENT (`RpcStatus`) with that text as its message.
pub fn checked_request<M: Codec>(alloc: Global, payload: &[u8]) -> Result<M>
where
    M::E: Display + Drop,
    ensures ok { IfOk result (λ message. M.meaning payload.now ≡ Some message) }
    ensures refused { IfErr result (λ e. e ≢ Error.NoMemory → M.meaning payload.now ≡ None) }
    ensures told { IfErr result
        (RefusesCause (codes "Unpack request error ") M.E.is_no_memory M.E.output) }
{
    match decode_request(alloc, payload) {
        Ok(message) => Ok(message),
        Err(Error::Others(text)) => Err(get_rpc_status(Code::INVALID_ARGUMENT, text.into_string())),
        Err(_) => Err(Error::NoMemory),
    }
}

/// Makes the response for a service's answer: a value with an OK status, or the status that the error carries or that is made of it. The
/// error is `NoMemory`, or, if the value is too long to be written, `Others` of `Encoding response ` and the text that the codec's error
/// prints.
pub fn response_of<M: Codec>(alloc: Global, answer: Result<M>) -> Result<Response>
where
    M::E: Display + Drop,
    ensures ok { IfOk result (AnswersWith M.written M.meaning answer) }
    ensures err { IfErr result (IsUnanswered M.written M.E.is_no_memory M.E.output answer) }
{
    match answer {
        Ok(message) => ok_response(alloc, &message),
        Err(error) => Ok(error.try_into_response(alloc)?),
    }
}

/// Makes a response with an OK status that carries this value.
fn ok_response<M: Codec>(alloc: Global, message: &M) -> Result<Response>
where
    M::E: Display + Drop,
    ensures ok { IfOk result
        (λ response. AnswersWith M.written M.meaning (Ok message.now) response) }
    ensures err { IfErr result
        (IsUnanswered M.written M.E.is_no_memory M.E.output (Ok message.now)) }
{
    match message.encode(alloc) {
        Ok(payload) => {
            let mut response = Response::init_status(
                alloc,
                get_status(Code::OK, String::new(alloc)),
            );
            response.set_payload(payload);
            Ok(response)
        }
        Err(error) => Err(codec_error_of(alloc, "Encoding response ", error)),
    }
}
