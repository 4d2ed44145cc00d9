//! The table: the case of each frame, the action of a request that was read, and the answer to each.
ghost use Rattle.std.specs.Prelude.{◌≡◌, IfOk};
ghost use Rattle.ttrpc_server.specs.Table.{request_kind_answer, request_kind_of, async_case, case_answer, case_of, data_case, id_state_case, newer_case, opened_case, sync_case};

use crate::registry::Registry;
use crate::responses::{
    even_id_response, in_use_response, inactive_response, method_response, not_above_response,
    oversize_response, path_response, service_response, unopened_response,
};
use crate::rules::Rules;
use std::alloc::{AllocError, Global};
use ttrpc_connection::InboundResult;
use ttrpc_proto::{
    MESSAGE_LENGTH_MAX, MESSAGE_TYPE_DATA, MESSAGE_TYPE_REQUEST, MessageHeader, Request, Response,
};
use ttrpc_wire::{Blob, Text};

/// The state of a stream id for a frame under it.
#[derive(Clone, Copy, Debug, PartialEq, Eq)]
pub enum StreamIdState {
    /// The id has no active job.
    Absent,
    /// An active job that takes no data.
    Busy,
    /// The job of a stream, which takes data.
    Taking,
    /// The job of a stream after its end came: later data are ignored.
    Full,
}

/// The case of a frame in the table, before its request is read.
#[derive(Debug, Drop)]
pub enum Case {
    /// The frame does nothing.
    Skipped,
    /// A message of this length is too long.
    Oversize(usize),
    /// The inbound half didn't open the payload, for this reason.
    Unopened(Text),
    /// The frame's id is even.
    EvenId,
    /// Data that no active stream takes.
    Inactive,
    /// The frame's id has an active job.
    InUse,
    /// The frame's id isn't above this one, that of the newest request.
    NotAbove(u32),
    /// This payload is to be read as a request.
    Asks(Blob),
    /// These data are put into the mailbox of the stream of their id.
    PutsIn(Blob),
}

/// The kind of a request that was read, which decides its action.
#[derive(Clone, Copy, Debug, PartialEq, Eq)]
pub enum RequestKind {
    /// A unary job is made of the request.
    Call,
    /// A stream's job is made of the request.
    Stream,
    /// The answer is that there is no such path.
    NoPath,
    /// The answer is that there is no such service.
    NoService,
    /// The answer is that the service has no such method.
    NoMethod,
}

/// Returns the case of a frame, by the result of the inbound half, the newest request and the state of the frame's id. The first test that
/// fits counts.
pub fn case_of(
    rules: Rules,
    header: &MessageHeader,
    opening: InboundResult,
    newest: Option<u32>,
    id_state: StreamIdState,
) -> Case
    ensures { result ≡ case_of rules header.now opening newest id_state }
{
    match opening {
        InboundResult::TooLong => Case::Oversize(header.length as usize),
        InboundResult::Refused(why) => match rules {
            Rules::Sync => Case::Unopened(why),
            Rules::Async => Case::Skipped,
        },
        InboundResult::Opened(plain) => opened_case(rules, header, plain, newest, id_state),
    }
}

// Returns the case of a frame with a payload that was opened.
fn opened_case(
    rules: Rules,
    header: &MessageHeader,
    plain: Blob,
    newest: Option<u32>,
    id_state: StreamIdState,
) -> Case
    ensures { result ≡ opened_case rules header.now plain newest id_state }
{
    match rules {
        Rules::Sync => sync_case(header, plain),
        Rules::Async => async_case(header, plain, newest, id_state),
    }
}

fn sync_case(header: &MessageHeader, plain: Blob) -> Case
    ensures { result ≡ sync_case header.now plain }
{
    if plain.len() > MESSAGE_LENGTH_MAX {
        return Case::Oversize(plain.len());
    }
    if header.type_ == MESSAGE_TYPE_REQUEST {
        return Case::Asks(plain);
    }
    Case::Skipped
}

fn async_case(
    header: &MessageHeader,
    plain: Blob,
    newest: Option<u32>,
    id_state: StreamIdState,
) -> Case
    ensures { result ≡ async_case header.now plain newest id_state }
{
    if plain.len() > MESSAGE_LENGTH_MAX {
        return Case::Skipped;
    }
    if header.stream_id % 2 == 0 {
        return Case::EvenId;
    }
    if header.type_ == MESSAGE_TYPE_REQUEST {
        return id_state_case(header.stream_id, newest, plain, id_state);
    }
    if header.type_ == MESSAGE_TYPE_DATA {
        return data_case(plain, id_state);
    }
    Case::Skipped
}

// Returns the case of data, by the state of their id.
fn data_case(plain: Blob, id_state: StreamIdState) -> Case
    ensures { result ≡ data_case plain id_state }
{
    match id_state {
        StreamIdState::Absent | StreamIdState::Busy => Case::Inactive,
        StreamIdState::Taking => Case::PutsIn(plain),
        StreamIdState::Full => Case::Skipped,
    }
}

// Returns the case of a request, by the state of its id.
fn id_state_case(stream_id: u32, newest: Option<u32>, plain: Blob, id_state: StreamIdState) -> Case
    ensures { result ≡ id_state_case stream_id newest plain id_state }
{
    match id_state {
        StreamIdState::Absent => newer_case(stream_id, newest, plain),
        StreamIdState::Busy | StreamIdState::Taking | StreamIdState::Full => Case::InUse,
    }
}

// Returns the case of a request under an id without a job, by the newest request.
fn newer_case(stream_id: u32, newest: Option<u32>, plain: Blob) -> Case
    ensures { result ≡ newer_case stream_id newest plain }
{
    match newest {
        Some(newest) if newest >= stream_id => Case::NotAbove(newest),
        _ => Case::Asks(plain),
    }
}

/// Returns the answer to a frame of this case, if there is one.
pub fn case_response(
    alloc: Global,
    header: &MessageHeader,
    case: &Case,
) -> Result<Option<Response>, AllocError>
    ensures { IfOk result (λ told. told ≡ case_answer header.now case.now) }
{
    match case {
        Case::Skipped | Case::Asks(_) | Case::PutsIn(_) => Ok(None),
        Case::Oversize(length) => Ok(Some(oversize_response(alloc, *length)?)),
        Case::Unopened(why) => Ok(Some(unopened_response(alloc, why)?)),
        Case::EvenId => Ok(Some(even_id_response(alloc)?)),
        Case::Inactive => Ok(Some(inactive_response(alloc)?)),
        Case::InUse => Ok(Some(in_use_response(alloc, header.stream_id)?)),
        Case::NotAbove(newest) => {
            Ok(Some(not_above_response(alloc, header.stream_id, *newest)?))
        }
    }
}

/// Returns the action of a request, by the methods and streams that the server has.
pub fn request_kind_of(rules: Rules, registry: &Registry, request: &Request) -> RequestKind
    ensures { result ≡ request_kind_of rules registry.now request.now }
{
    if registry.has_method(&request.service, &request.method) {
        return RequestKind::Call;
    }
    match rules {
        Rules::Sync => RequestKind::NoPath,
        Rules::Async if registry.has_stream(&request.service, &request.method) =>
            RequestKind::Stream,
        Rules::Async if registry.has_service(&request.service) => RequestKind::NoMethod,
        Rules::Async => RequestKind::NoService,
    }
}

/// Returns the answer to a request that was read, if there is one.
pub fn request_kind_response(
    alloc: Global,
    request: &Request,
    asked: RequestKind,
) -> Result<Option<Response>, AllocError>
    ensures { IfOk result (λ told. told ≡ request_kind_answer request.now asked) }
{
    match asked {
        RequestKind::Call | RequestKind::Stream => Ok(None),
        RequestKind::NoPath => Ok(Some(path_response(alloc, &request.service, &request.method)?)),
        RequestKind::NoService => Ok(Some(service_response(alloc, &request.service)?)),
        RequestKind::NoMethod => Ok(Some(method_response(alloc, &request.method)?)),
    }
}
