//! The steps of a client.
use crate::tests::client::{ANSWERED, CLOSE};
use crate::tests::client_numbers::{calls_expire_at_once, calls_half_dropped, calls_last_first};
use crate::tests::script::Step;
use crate::tests::steps::{feeds, lends, tells};
use crate::tests::stream_steps::stream_step;
use crate::tests::under_test::{Client, Met, Streaming};
use std::alloc::Global;
use std::test::Fail;
use ttrpc_bench::vectors::Told;
use ttrpc_client::CallId;
use ttrpc_proto::{Error, Request, Response};
use ttrpc_wire::codec::message::WireMessage;
use ttrpc_wire::{Blob, Text};

/// Does a step that only a client has. Returns whether it is met.
pub fn client_step<C: Streaming>(alloc: Global, core: &mut C, step: &Step) -> Met {
    match *step {
        Step::Calls(timeout, now, id) => calls(alloc, core, timeout, now, id),
        Step::CallsSevens(length, id) => calls_sevens(alloc, core, length, id),
        Step::CallsBare(id) => Ok(core.request(alloc, &Request::new(alloc), 0)? == id),
        Step::RefusesBare(why) => refuses(alloc, core, &Request::new(alloc), why),
        Step::RefusesCall(why) => refuses_call(alloc, core, why),
        Step::RefusesSevens(length, why) => refuses_sevens(alloc, core, length, why),
        Step::RefusesFirstCall(why) => refuses_first_call(alloc, core, why),
        Step::Waits(id) => Ok(core.take_outcome(alloc, id).is_none()),
        Step::IsGone => is_gone(alloc, core),
        Step::Gives(id, has_status, payload) => gives(alloc, core, id, has_status, payload),
        Step::Ends(id, why) => ends(alloc, core, id, why),
        Step::NextEnded(id) => Ok(core.next_ended() == id),
        Step::NextDeadline(at) => Ok(core.next_deadline() == at),
        Step::CallsLastFirst(count) => calls_last_first(alloc, core, count),
        Step::CallsHalfDropped(count) => calls_half_dropped(alloc, core, count),
        Step::CallsExpireAtOnce(count) => calls_expire_at_once(alloc, core, count),
        Step::DropsCall(id) => {
            core.drop_call(id);
            Ok(true)
        }
        Step::Ticks(now) => {
            core.tick(now);
            Ok(true)
        }
        _ => stream_step(alloc, core, step),
    }
}

/// Returns the error with which a client refuses a call, or `None` if it doesn't.
pub fn client_refusal<C: Client>(alloc: Global, core: &mut C) -> Result<Option<Error>, Fail> {
    let request = usual_request(alloc, 10)?;
    Ok(core.request(alloc, &request, 0).err())
}

// ---- requests

/// Returns a request to `Echo` of `demo.Echo` with the payload 01 02 03.
pub fn usual_request(alloc: Global, timeout_nano: i64) -> Result<Request, Fail> {
    let mut request = Request::new(alloc);
    address(alloc, &mut request, "demo.Echo", "Echo")?;
    pay(&mut request, Blob::from_slice(alloc, &[1, 2, 3])?);
    request.timeout_nano = timeout_nano;
    Ok(request)
}

/// Returns a request to `Chat` of `demo.Echo` with this payload.
pub fn stream_request(alloc: Global, payload: &[u8]) -> Result<Request, Fail> {
    let mut request = Request::new(alloc);
    address(alloc, &mut request, "demo.Echo", "Chat")?;
    pay(&mut request, Blob::from_slice(alloc, payload)?);
    Ok(request)
}

/// Returns a request to `m` of `s` with a payload of `length` bytes.
pub fn request_of_sevens(alloc: Global, length: usize) -> Result<Request, Fail> {
    let mut request = Request::new(alloc);
    address(alloc, &mut request, "s", "m")?;
    pay(&mut request, Blob::from_vec(vec![in alloc; 7; length]?));
    Ok(request)
}

/// Sets the service and the method of the request.
fn address(alloc: Global, request: &mut Request, service: &str, method: &str) -> Result<(), Fail> {
    request.service = Text::from_str(alloc, service)?;
    request.method = Text::from_str(alloc, method)?;
    Ok(())
}

/// Sets the payload of the request.
fn pay(request: &mut Request, payload: Blob) {
    request.payload = payload;
}

fn calls<C: Client>(alloc: Global, core: &mut C, timeout_nano: i64, now: u64, id: CallId) -> Met {
    let request = usual_request(alloc, timeout_nano)?;
    Ok(core.request(alloc, &request, now)? == id)
}

fn calls_sevens<C: Client>(alloc: Global, core: &mut C, length: usize, id: CallId) -> Met {
    let request = request_of_sevens(alloc, length)?;
    Ok(core.request(alloc, &request, 0)? == id)
}

/// Returns whether the request is refused with this error, twice.
fn refuses<C: Client>(alloc: Global, core: &mut C, request: &Request, why: Told) -> Met {
    Ok(
        tells(core.request(alloc, request, 0).err(), why)?
            && tells(core.request(alloc, request, 0).err(), why)?,
    )
}

fn refuses_call<C: Client>(alloc: Global, core: &mut C, why: Told) -> Met {
    let request = usual_request(alloc, 10)?;
    refuses(alloc, core, &request, why)
}

/// Returns whether the first call is refused, uses no id and queues nothing.
fn refuses_first_call<C: Client>(alloc: Global, core: &mut C, why: Told) -> Met {
    Ok(
        refuses_call(alloc, core, why)?
            && core.take_outcome(alloc, 1).is_none()
            && lends(core, 8, &[])
            && core.failure(alloc).is_none(),
    )
}

fn refuses_sevens<C: Client>(alloc: Global, core: &mut C, length: usize, why: Told) -> Met {
    let request = request_of_sevens(alloc, length)?;
    refuses(alloc, core, &request, why)
}

// ---- outcomes

fn is_answer(response: &Response, has_status: bool, payload: &[u8]) -> bool {
    let is_ok = match &response.status {
        Some(status) => has_status && status.code == 0,
        None => !has_status,
    };
    is_ok && response.payload.as_slice() == payload
}

/// Returns whether the outcome of the call is this response. If memory was refused, returns that as the test's error.
pub fn gives<C: Client>(
    alloc: Global,
    core: &mut C,
    id: CallId,
    has_status: bool,
    payload: &[u8],
) -> Met {
    match core.take_outcome(alloc, id) {
        None => Ok(false),
        Some(Ok(response)) => Ok(is_answer(&response, has_status, payload)),
        Some(Err(error)) => Err(error.into()),
    }
}

/// Returns whether the outcome of the call is this error.
pub fn ends<C: Client>(alloc: Global, core: &mut C, id: CallId, why: Told) -> Met {
    match core.take_outcome(alloc, id) {
        None | Some(Ok(_)) => Ok(false),
        Some(Err(error)) => tells(Some(error), why),
    }
}

/// Returns whether the first call has no outcome any more, and no frame finds it again.
fn is_gone<C: Client>(alloc: Global, core: &mut C) -> Met {
    Ok(
        core.take_outcome(alloc, 1).is_none()
            && feeds(alloc, core, ANSWERED, 4)?
            && feeds(alloc, core, CLOSE, 4)?
            && core.take_outcome(alloc, 1).is_none()
            && core.failure(alloc).is_none(),
    )
}
