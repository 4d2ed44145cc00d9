//! Requests and responses that generic code makes: the clauses give a caller their values at its own types.
ghost use Rattle.std.specs.Prelude.{◌≡◌, string_bytes, IfOk, Some};
ghost use Rattle.ttrpc_proto.specs.Messages.{non_ok_of};

use crate::tests::rows::{RequestRow, request_of, response_of, status_of};
use std::alloc::{AllocError, Global};
use std::test::Fail;
use ttrpc_bench::checks::{Tested, check, check_row};
use ttrpc_proto::{KeyValue, Request, RequestInit, Response, ResponseInit, Status};

/// Returns the request that is made of these parts.
fn asked<R: RequestInit>(
    alloc: Global,
    names: (String, String),
    timeout_nano: i64,
    metadata: Vec<KeyValue>,
    payload: Vec<u8>,
) -> R
    ensures { result ≡ R.with_payload (R.made (string_bytes names.0)
        (string_bytes names.1) timeout_nano metadata.items) payload.items }
{
    let mut request = R::init_request(alloc, names.0, names.1, timeout_nano, metadata);
    request.set_payload(payload);
    request
}

/// Returns the same as a `Request`. Its clauses give each member.
fn asked_request(
    alloc: Global,
    names: (String, String),
    timeout_nano: i64,
    metadata: Vec<KeyValue>,
    payload: Vec<u8>,
) -> Request
    ensures { result ≡ record {
      service = string_bytes names.0;
      method = string_bytes names.1;
      payload = payload.items;
      timeout_nano = timeout_nano;
      metadata = metadata.items;
    } }
{
    asked(alloc, names, timeout_nano, metadata, payload)
}

/// Returns the response that is made with a first status, and then gets a payload and a second status.
fn answered<R: ResponseInit>(alloc: Global, first: Status, second: Status, payload: Vec<u8>) -> R
    ensures { result ≡ R.with_status (R.with_payload (R.made first) payload.items) second }
{
    let mut response = R::init_status(alloc, first);
    response.set_payload(payload);
    response.set_status(second);
    response
}

/// Returns why the call failed, if it did.
fn refused<R: ResponseInit>(response: &R) -> Result<Option<Status>, AllocError>
    ensures { IfOk result (λ status. status ≡ R.refusal response.now) }
{
    response.non_ok()
}

/// Returns the same as a `Response`. Its clauses give each member.
fn answered_response(
    alloc: Global,
    first: Status,
    second: Status,
    payload: Vec<u8>,
) -> Result<(Response, Option<Status>), AllocError>
    ensures made { IfOk result
        (λ r. r.0 ≡ record { status = Some second; payload = payload.items }) }
    ensures refused { IfOk result (λ r. r.1 ≡ non_ok_of (Some second)) }
{
    let response: Response = answered(alloc, first, second, payload);
    let status = refused(&response)?;
    Ok((response, status))
}

/// Returns the request that is made of these parts.
fn made(alloc: Global, row: &RequestRow) -> Result<Request, Fail> {
    let service = String::from_str(alloc, row.service)?;
    let method = String::from_str(alloc, row.method)?;
    let metadata = request_of(alloc, row)?.metadata.into_vec();
    let payload = Vec::from_slice(alloc, row.payload)?;
    Ok(asked_request(
        alloc,
        (service, method),
        row.timeout_nano,
        metadata,
        payload,
    ))
}

#[test]
fn a_request_is_made(rt: HostRuntime) -> Tested {
    let row = RequestRow {
        service: "s",
        method: "m",
        payload: &[7],
        timeout_nano: -1,
        metadata: &[("k", "v")],
    };
    check(made(rt.alloc(), &row)? == request_of(rt.alloc(), &row)?)
}

/// Returns whether the code of a second status alone decides whether the call failed.
fn is_answered(alloc: Global, code: i32) -> Result<bool, Fail> {
    let first = status_of(alloc, &(5, "first", &[]))?;
    let second = status_of(alloc, &(code, "x", &[]))?;
    let payload = Vec::from_slice(alloc, &[0x2a])?;
    let (response, refusal) = answered_response(alloc, first, second, payload)?;
    let is_refusal = match refusal {
        Some(status) => status == status_of(alloc, &(code, "x", &[]))?,
        None => false,
    };
    let expected = response_of(alloc, &(Some((code, "x", &[])), &[0x2a]))?;
    Ok(response == expected && is_refusal == (code != 0))
}

/// The codes of second statuses.
const CODES: &[i32] = &[0, 3, -7];

#[test]
fn a_response_is_made(rt: HostRuntime) -> Tested {
    for (at, code) in CODES.iter().enumerate() {
        check_row(at, is_answered(rt.alloc(), *code)?)?;
    }
    check(response_of(rt.alloc(), &(None, b""))?.non_ok()?.is_none())
}
