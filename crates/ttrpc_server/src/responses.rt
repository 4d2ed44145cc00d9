//! The answers that a core gives by itself, and the errors of its calls.
ghost use Rattle.std.specs.Prelude.{◌≡◌, codes, string_bytes, IfOk};
ghost use Rattle.ttrpc_proto.specs.Framing.Header.Oversize.{oversize_text};
ghost use Rattle.ttrpc_connection.specs.Failure.{IsTold};
ghost use Rattle.ttrpc_server.specs.Protocol.{IsErrorResponse, IsStatusResponse, limit_text, timeout_response};
ghost use Rattle.ttrpc_server.specs.Table.{even_id_text, in_use_text, inactive_text, method_text, not_above_text, path_text, service_text, status_response, unopened_response_text};

use std::alloc::{AllocError, Global};
use ttrpc_proto::framing::header::oversize::oversize_message;
use ttrpc_proto::{Error, Response, ResponseInit, get_status};
use ttrpc_secure::context::errors::others_error;
use ttrpc_wire::{Code, CodecError, Text};

/// Returns the answer to a message that is longer than a message may be.
pub fn oversize_response(alloc: Global, length: usize) -> Result<Response, AllocError>
    ensures { IfOk result (λ response.
        response ≡ status_response Code.INVALID_ARGUMENT (oversize_text length)) }
{
    let text = oversize_message(alloc, length)?;
    Ok(response_of(alloc, Code::INVALID_ARGUMENT, text))
}

/// Returns the answer to a request with a path that has no handler.
pub fn path_response(alloc: Global, service: &Text, method: &Text) -> Result<Response, AllocError>
    ensures { IfOk result (λ response.
        response ≡ status_response Code.INVALID_ARGUMENT (path_text service.now method.now)) }
{
    let text = format!(in alloc; "/{}/{} does not exist", service.as_str(), method.as_str())?;
    Ok(response_of(alloc, Code::INVALID_ARGUMENT, text))
}

/// Returns the answer to a request for a service that isn't there.
pub fn service_response(alloc: Global, service: &Text) -> Result<Response, AllocError>
    ensures { IfOk result (λ response.
        response ≡ status_response Code.INVALID_ARGUMENT (service_text service.now)) }
{
    let text = format!(in alloc; "{} service does not exist", service.as_str())?;
    Ok(response_of(alloc, Code::INVALID_ARGUMENT, text))
}

/// Returns the answer to a request for a method that its service lacks.
pub fn method_response(alloc: Global, method: &Text) -> Result<Response, AllocError>
    ensures { IfOk result (λ response.
        response ≡ status_response Code.UNIMPLEMENTED (method_text method.now)) }
{
    let text = format!(in alloc; "{} method", method.as_str())?;
    Ok(response_of(alloc, Code::UNIMPLEMENTED, text))
}

/// Returns the answer to a frame under an even id.
pub fn even_id_response(alloc: Global) -> Result<Response, AllocError>
    ensures { IfOk result
        (λ response. response ≡ status_response Code.INVALID_ARGUMENT even_id_text) }
{
    let text = String::from_str(alloc, "stream id must be odd")?;
    Ok(response_of(alloc, Code::INVALID_ARGUMENT, text))
}

/// Returns the answer to data that no active stream takes.
pub fn inactive_response(alloc: Global) -> Result<Response, AllocError>
    ensures { IfOk result
        (λ response. response ≡ status_response Code.INVALID_ARGUMENT inactive_text) }
{
    let text = String::from_str(alloc, "Stream is no longer active")?;
    Ok(response_of(alloc, Code::INVALID_ARGUMENT, text))
}

/// Returns the answer to a request under an id that has an active job.
pub fn in_use_response(alloc: Global, stream_id: u32) -> Result<Response, AllocError>
    ensures { IfOk result (λ response.
        response ≡ status_response Code.INVALID_ARGUMENT (in_use_text stream_id)) }
{
    let text = format!(in alloc; "stream id {stream_id} is in use")?;
    Ok(response_of(alloc, Code::INVALID_ARGUMENT, text))
}

/// Returns the answer to a request under an id that isn't above that of the newest request.
pub fn not_above_response(
    alloc: Global,
    stream_id: u32,
    newest: u32,
) -> Result<Response, AllocError>
    ensures { IfOk result (λ response.
        response ≡ status_response Code.INVALID_ARGUMENT (not_above_text stream_id newest)) }
{
    let text = format!(in alloc; "stream id {stream_id} is not above {newest}")?;
    Ok(response_of(alloc, Code::INVALID_ARGUMENT, text))
}

/// Returns the answer to a request if its job expired.
pub fn timeout_response(alloc: Global) -> Result<Response, AllocError>
    ensures { IfOk result (λ response. response ≡ timeout_response) }
{
    let text = String::from_str(alloc, "timeout")?;
    Ok(response_of(alloc, Code::DEADLINE_EXCEEDED, text))
}

/// Returns the answer to a request if its handler returned an error. The answer always has the error's text.
pub fn error_response(alloc: Global, error: &Error) -> Result<Response, AllocError>
    ensures { IfOk result (IsErrorResponse error.now) }
{
    let text = error.text(alloc)?;
    Ok(response_of(alloc, Code::UNKNOWN, text))
}

/// Returns the answer to a request that the inbound half didn't open, for this reason.
pub fn unopened_response(alloc: Global, why: &Text) -> Result<Response, AllocError>
    ensures { IfOk result (λ response.
        response ≡ status_response Code.UNKNOWN (unopened_response_text why.now)) }
{
    let text = format!(in alloc; "ttrpc err: transform_inbound failed: {}", why.as_str())?;
    Ok(response_of(alloc, Code::UNKNOWN, text))
}

/// Returns the answer to a payload that can't be read as a request. The clause leaves the text open, as it leaves those of `CodecError`.
pub fn unreadable_response(alloc: Global, error: &CodecError) -> Result<Response, AllocError>
    ensures { IfOk result (IsStatusResponse Code.INVALID_ARGUMENT) }
{
    let text = format!(in alloc; "Unpack request error {error}")?;
    Ok(response_of(alloc, Code::INVALID_ARGUMENT, text))
}

/// Returns the answer in place of one that may become longer than a message may be.
pub fn limit_response(alloc: Global, length: usize, limit: usize) -> Result<Response, AllocError>
    ensures { IfOk result (λ response.
        response ≡ status_response Code.INVALID_ARGUMENT (limit_text length limit)) }
{
    let text = format!(in alloc;
        "response payload {length} bytes exceeds safe limit {limit} bytes (after transform overhead)"
    )?;
    Ok(response_of(alloc, Code::INVALID_ARGUMENT, text))
}

/// Returns the error for an answer to a job that isn't there, or `NoMemory` if memory for its text was refused.
pub fn unknown_job_error(alloc: Global) -> Error
    ensures { IsTold (Error.Others (codes "unknown job")) result }
{
    others_error(String::from_str(alloc, "unknown job"))
}

/// Returns the error for a call on the stream of a job that has none, or `NoMemory` if memory for its text was refused.
pub fn unknown_stream_error(alloc: Global) -> Error
    ensures { IsTold (Error.Others (codes "unknown stream")) result }
{
    others_error(String::from_str(alloc, "unknown stream"))
}

/// Returns the error for a call that the server's rules don't have, or `NoMemory` if memory for its text was refused.
pub fn other_rules_error(alloc: Global) -> Error
    ensures { IsTold (Error.Others (codes "wrong rules for this call")) result }
{
    others_error(String::from_str(alloc, "wrong rules for this call"))
}

fn response_of(alloc: Global, code: Code, text: String) -> Response
    ensures { result ≡ status_response code (string_bytes text) }
{
    Response::init_status(alloc, get_status(code, text))
}
