//! The answers of the service to a request for a status.
ghost use Rattle.std.specs.Prelude.{◌≡◌, ◌⊎◌, ℤ, IfErr, IfOk, Some, Ok, Err};
ghost use Rattle.ttrpc_proto.specs.declared.error.Error.{Error as AnError};
ghost use Rattle.ttrpc_proto.specs.declared.messages.Status.{Status as AStatus};
ghost use Rattle.health_stub.specs.Health.{check_of, request_in, response_in, status_asked, telling, watch_of};

use crate::messages::{HealthCheckRequest, HealthCheckResponse};
use crate::table::HealthTable;
use std::alloc::Global;
use ttrpc::error::get_rpc_status;
use ttrpc::proto::{Blob, Codec, WireMessage};
use ttrpc::wire::CodecError;
use ttrpc::{Code, Error, Request, Response, Result, Status};

/// Returns the response of `Check` to a request. Its status is present and empty, and its payload is the last status of
/// the name. The status is NOT_FOUND instead if the name isn't there, and UNKNOWN if the payload is no request. The
/// only error is `NoMemory`.
pub fn check(table: &HealthTable, request: &Request) -> Result<Response>
    ensures ok { IfOk result (λ response. response ≡ check_of table.now request.now) }
    // The payload means the status again.
    ensures again { IfOk result (λ response. (status : ℤ)
        → status_asked table.now request.now ≡ Some status
        → response_in response.payload ≡ Some (record { status = status })) }
    ensures refused { IfErr result (λ error. error ≡ AnError.NoMemory) }
{
    match watch(table, request.payload.as_slice()) {
        Ok(list) => telling(table.alloc, list.last().copied().unwrap_or(0)),
        Err(Error::RpcStatus(status)) => Ok(Response {
            status: Some(status),
            payload: Blob::new(table.alloc),
        }),
        Err(error) => Err(error),
    }
}

/// Returns the statuses of the name that a request of these bytes asks for, in order. Refuses a name that isn't there by NOT_FOUND,
/// and bytes that mean no request by UNKNOWN; the only other error is `NoMemory`.
#[tactic(auto, unfolding(crate::specs::Health::request_in))]
pub fn watch<'a>(table: &'a HealthTable, bytes: &[u8]) -> Result<&'a [i32]>
    ensures ok { IfOk result (λ list. watch_of table.now bytes.now ≡ Ok list.now) }
    ensures refused { IfErr result (λ error. (error ≡ AnError.NoMemory)
        ⊎ ((status : AStatus) × (watch_of table.now bytes.now ≡ Err status)
        × (error ≡ AnError.RpcStatus status))) }
{
    let alloc = table.alloc;
    let asked = match HealthCheckRequest::decode(alloc, bytes) {
        Ok(asked) => asked,
        Err(CodecError::NoMemory) => return Err(Error::NoMemory),
        Err(_) => {
            let text = String::from_str(alloc, "unreadable request")?;
            return Err(get_rpc_status(Code::UNKNOWN, text));
        }
    };
    let name = asked.service.as_str();
    let Some(list) = table.statuses(name) else {
        let text = format!(in alloc; "service {name} is unknown")?;
        return Err(get_rpc_status(Code::NOT_FOUND, text));
    };
    Ok(list)
}

/// Returns the response with a status as its payload, which decodes to that status again. No payload is too long, so
/// the only error is `NoMemory`.
#[tactic(auto, unfolding(crate::specs::Health::response_bytes, crate::specs::Health::response_in))]
fn telling(alloc: Global, status: i32) -> Result<Response>
    ensures ok { IfOk result (λ response. response ≡ telling status) }
    ensures again { IfOk result
        (λ response. response_in response.payload ≡ Some (record { status = status })) }
    ensures refused { IfErr result (λ error. error ≡ AnError.NoMemory) }
{
    let response = HealthCheckResponse { status };
    let bytes = response.encode(alloc).map_err(|_| Error::NoMemory)?;
    let (status, payload) = (Some(Status::new(alloc)), Blob::from_vec(bytes));
    Ok(Response { status, payload })
}

/// Reads a response. Bytes that are no response give `NoMemory`, too, but `check` never returns such bytes.
#[tactic(auto, unfolding(crate::specs::Health::response_in))]
pub fn response_in(alloc: Global, bytes: &[u8]) -> Result<HealthCheckResponse>
    ensures ok { IfOk result (λ response. response_in bytes.now ≡ Some response) }
    ensures refused { IfErr result (λ error. error ≡ AnError.NoMemory) }
{
    HealthCheckResponse::decode(alloc, bytes).map_err(|_| Error::NoMemory)
}
