//! Events in a short form, and expected replies.
use std::alloc::{AllocError, Global};
use std::mem;
use std::test::Fail;
use ttrpc_bench::stamps;
use ttrpc_client::{ClientCore, ClientKind};
use ttrpc_proto::{Error, Request, Response, Status};
use ttrpc_secure::plain::plain_is_paired;
use ttrpc_secure::{ConnectionContext, plain_context};
use ttrpc_server::{Rules, ServerCore};
use ttrpc_test_cores::server::registry;
use ttrpc_wire::codec::message::WireMessage;
use ttrpc_wire::{Blob, Sequence, Text};
use ttrpc_world::{Entry, Event, Reply, Side, StreamEnd, Trace, World};

/// One event of a script. Its calls and streams are those of the service `demo.Echo`.
#[derive(Clone, Copy)]
pub enum Act {
    /// A call of the method `Echo` with this payload and timeout.
    Call(&'static [u8], i64),
    /// A call of this name with this payload.
    CallOf(&'static str, &'static [u8]),
    /// A stream of this name is opened, both ways.
    Open(&'static str),
    /// A stream of this name is opened with this payload, to receive items.
    Ask(&'static str, &'static [u8]),
    Outcome(u32),
    DropCall(u32),
    /// The client receives from a stream.
    Recv(u32),
    /// The client sends an item on a stream.
    Send(u32, &'static [u8]),
    Close(u32),
    DropReceiver(u32),
    DropSender(u32),
    Take,
    /// An answer with this payload.
    Answer(u64, &'static [u8]),
    /// An answer with this number of bytes 7.
    AnswerSevens(u64, usize),
    /// A handler's error.
    Break(u64),
    /// A response with this payload.
    Respond(u64, &'static [u8]),
    Finish(u64),
    /// The server receives from a job's stream.
    RecvUp(u64),
    /// The server sends an item on a job's stream.
    SendDown(u64, &'static [u8]),
    DropReceiverUp(u64),
    /// A stream's job ends, without a response.
    End(u64),
    /// A stream's job ends with a response with this payload.
    EndWith(u64, &'static [u8]),
    /// A stream's job ends with a handler's error.
    EndBroken(u64),
    Drain,
    Tick(u64),
    CarryUp(usize),
    CarryDown(usize),
    DeliverUp(usize),
    DeliverDown(usize),
    CutUp(usize),
    CutDown(usize),
    /// This number of bytes is carried up and delivered, one by one: two events each.
    BytesUp(usize),
    /// The same downwards.
    BytesDown(usize),
    FailClient,
    FailServer,
}

/// An expected reply.
#[derive(Clone, Copy)]
pub enum Said {
    Named(u32),
    Ticket(u64),
    /// An outcome that is `Ok`, or an item, with this payload.
    Payload(&'static [u8]),
    /// An outcome that is `Ok`, with this number of bytes 7.
    Sevens(usize),
    /// An outcome, an item or a refusal that is `Others` with this text.
    Others(&'static str),
    Socket(&'static str),
    /// The same with a status with this code and text.
    Status(i32, &'static str),
    /// The same with an end of items, and with the errors after it.
    Eof,
    RemoteClosed,
    LocalClosed,
    NoRoom,
    /// No outcome yet, or no item.
    Waits,
    /// This call's job, with this stream id and this payload.
    Job(u64, u32, &'static [u8]),
    /// This stream's job, with this stream id. It has no payload.
    StreamJob(u64, u32),
    /// The same with a payload that is still in it.
    FullStreamJob(u64, u32, &'static [u8]),
    NoJob,
    Done,
    Count(usize),
    /// Some bytes were moved.
    Moved,
    NoStep,
}

/// Acts, each with its expected reply.
pub type Rows = &'static [(Act, Said)];

/// Returns a request of this name.
pub fn request_of(
    alloc: Global,
    method: &str,
    payload: &[u8],
    timeout_nano: i64,
) -> Result<Request, AllocError> {
    let service = Text::from_str(alloc, "demo.Echo")?;
    let method = Text::from_str(alloc, method)?;
    let payload = Blob::from_slice(alloc, payload)?;
    Ok(Request {
        service,
        method,
        payload,
        timeout_nano,
        metadata: Sequence::new(alloc),
    })
}

/// Returns a response with a status that is present and empty, and this payload.
pub fn response_of(alloc: Global, payload: &[u8]) -> Result<Response, AllocError> {
    let payload = Blob::from_slice(alloc, payload)?;
    Ok(Response {
        status: Some(Status::new(alloc)),
        payload,
    })
}

// ---- events, each made by its own function, which owns nothing when it may fail

pub fn call(
    alloc: Global,
    method: &str,
    payload: &[u8],
    timeout_nano: i64,
) -> Result<Event, AllocError> {
    let request = request_of(alloc, method, payload, timeout_nano)?;
    Ok(Event::Call(request))
}

/// Returns a stream. The flags say whether the client sends on it, and whether the server does.
pub fn open(
    alloc: Global,
    method: &str,
    payload: &[u8],
    up: bool,
    down: bool,
) -> Result<Event, AllocError> {
    let request = request_of(alloc, method, payload, 0)?;
    Ok(Event::Open(request, up, down))
}

pub fn send(alloc: Global, end: StreamEnd, item: &[u8]) -> Result<Event, AllocError> {
    let item = Blob::from_slice(alloc, item)?;
    Ok(Event::Send(end, item))
}

pub fn answer(alloc: Global, id: u64, payload: &[u8]) -> Result<Event, AllocError> {
    let response = response_of(alloc, payload)?;
    Ok(Event::Answer(id, Ok(response)))
}

fn answer_sevens(alloc: Global, id: u64, count: usize) -> Result<Event, AllocError> {
    let payload = vec![in alloc; 7u8; count]?;
    answer(alloc, id, payload.as_slice())
}

pub fn respond(alloc: Global, id: u64, payload: &[u8]) -> Result<Event, AllocError> {
    let response = response_of(alloc, payload)?;
    Ok(Event::Respond(id, response))
}

pub fn end_with(alloc: Global, id: u64, payload: &[u8]) -> Result<Event, AllocError> {
    let response = response_of(alloc, payload)?;
    Ok(Event::EndStream(id, Ok(Some(response))))
}

/// Returns the event of an act that is one event.
pub fn event_of(alloc: Global, act: Act) -> Result<Event, AllocError> {
    match act {
        Act::Call(payload, timeout) => call(alloc, "Echo", payload, timeout),
        Act::CallOf(method, payload) => call(alloc, method, payload, 0),
        Act::Open(method) => open(alloc, method, b"", true, true),
        Act::Ask(method, payload) => open(alloc, method, payload, false, true),
        Act::Send(id, item) => send(alloc, StreamEnd::Client(id), item),
        Act::SendDown(id, item) => send(alloc, StreamEnd::Server(id), item),
        Act::Answer(id, payload) => answer(alloc, id, payload),
        Act::AnswerSevens(id, count) => answer_sevens(alloc, id, count),
        Act::Respond(id, payload) => respond(alloc, id, payload),
        Act::EndWith(id, payload) => end_with(alloc, id, payload),
        _ => Ok(plain_event(act)),
    }
}

/// Returns the same for an event that takes no memory.
pub fn plain_event(act: Act) -> Event {
    match act {
        Act::Outcome(id) => Event::Outcome(id),
        Act::DropCall(id) => Event::DropCall(id),
        Act::Take => Event::Take,
        Act::Break(id) => Event::Answer(id, Err(Error::Eof)),
        Act::Finish(id) => Event::Finish(id),
        Act::End(id) => Event::EndStream(id, Ok(None)),
        Act::EndBroken(id) => Event::EndStream(id, Err(Error::Eof)),
        Act::Recv(id) => Event::Recv(StreamEnd::Client(id)),
        Act::RecvUp(id) => Event::Recv(StreamEnd::Server(id)),
        Act::Close(id) => Event::Close(id),
        Act::DropReceiver(id) => Event::DropReceiver(StreamEnd::Client(id)),
        Act::DropReceiverUp(id) => Event::DropReceiver(StreamEnd::Server(id)),
        Act::DropSender(id) => Event::DropSender(id),
        _ => side_event(act),
    }
}

/// Returns the same for events of a pipe or a side.
fn side_event(act: Act) -> Event {
    match act {
        Act::Tick(now) => Event::Tick(now),
        Act::CarryUp(n) => Event::Carry(Side::Client, n),
        Act::CarryDown(n) => Event::Carry(Side::Server, n),
        Act::DeliverUp(n) => Event::Deliver(Side::Server, n),
        Act::DeliverDown(n) => Event::Deliver(Side::Client, n),
        Act::CutUp(keep) => Event::Cut(Side::Server, keep),
        Act::CutDown(keep) => Event::Cut(Side::Client, keep),
        Act::FailClient => Event::Fail(Side::Client),
        Act::FailServer => Event::Fail(Side::Server),
        _ => Event::Drain,
    }
}

// ---- lists of events

/// Events that are put together. Adding an event can't fail: the list remembers if memory was refused.
#[derive(Drop)]
pub struct Events {
    list: Vec<Event>,
    refused: bool,
}

impl Events {
    pub fn new(alloc: Global) -> Events {
        Events {
            list: Vec::new(alloc),
            refused: false,
        }
    }

    /// Returns the events, if memory was never refused.
    pub fn list(self) -> Result<Vec<Event>, Error> {
        if self.refused {
            return Err(Error::NoMemory);
        }
        Ok(self.list)
    }
}

/// Adds an event, and returns whether there was room. This is a function of its own, since a value that isn't taken is
/// dropped here.
fn is_put(events: &mut Vec<Event>, event: Event) -> bool {
    match events.push(event) {
        Ok(()) => true,
        Err(error) => {
            mem::drop(error);
            false
        }
    }
}

/// Adds an event.
pub fn put(events: &mut Events, event: Event) {
    if !is_put(&mut events.list, event) {
        events.refused = true;
    }
}

/// Adds an event, if there was memory for it.
pub fn put_made(events: &mut Events, event: Result<Event, AllocError>) {
    match event {
        Ok(event) => put(events, event),
        Err(AllocError) => events.refused = true,
    }
}

/// Adds the event of this act, which takes no memory, `count` times.
pub fn put_times(events: &mut Events, act: Act, count: usize) {
    for _ in 0..count {
        put(events, plain_event(act));
    }
}

/// Adds `count` bytes that are carried by the one act and delivered by the other, one by one.
fn put_bytes(events: &mut Events, carry: Act, deliver: Act, count: usize) {
    for _ in 0..count {
        put(events, plain_event(carry));
        put(events, plain_event(deliver));
    }
}

/// Adds the events of an act.
fn put_act(alloc: Global, events: &mut Events, act: Act) {
    match act {
        Act::BytesUp(count) => put_bytes(events, Act::CarryUp(1), Act::DeliverUp(1), count),
        Act::BytesDown(count) => put_bytes(events, Act::CarryDown(1), Act::DeliverDown(1), count),
        _ => put_made(events, event_of(alloc, act)),
    }
}

fn put_rows(alloc: Global, events: &mut Events, rows: Rows) {
    for (act, _) in rows {
        put_act(alloc, events, *act);
    }
}

/// Returns the events of a script.
pub fn events_of(alloc: Global, script: &[Rows]) -> Result<Vec<Event>, Error> {
    let mut events = Events::new(alloc);
    for rows in script {
        put_rows(alloc, &mut events, rows);
    }
    events.list()
}

// ---- replies

/// Returns whether the error is a status with this code and text.
fn is_status(error: &Error, code: i32, told: &str) -> bool {
    match error {
        Error::RpcStatus(status) => status.code == code && status.message.as_str() == told,
        _ => false,
    }
}

/// Returns whether the error is one of this kind and with this text.
fn is_error(error: &Error, said: Said) -> bool {
    match said {
        Said::Others(told) => matches!(error, Error::Others(text) if text.as_str() == told),
        Said::Socket(told) => matches!(error, Error::Socket(text) if text.as_str() == told),
        Said::Status(code, told) => is_status(error, code, told),
        Said::Eof => matches!(error, Error::Eof),
        Said::RemoteClosed => matches!(error, Error::RemoteClosed),
        Said::LocalClosed => matches!(error, Error::LocalClosed),
        Said::NoRoom => matches!(error, Error::NoRoom),
        _ => false,
    }
}

/// Returns whether the outcome is `Ok` with this payload, or the item is this.
fn has_payload(reply: &Reply, payload: &[u8]) -> bool {
    match reply {
        Reply::Outcome(Some(Ok(response))) => response.payload.as_slice() == payload,
        Reply::Item(Some(Ok(item))) => item.as_slice() == payload,
        _ => false,
    }
}

/// Returns whether the outcome is `Ok` with `count` bytes 7.
fn has_sevens(reply: &Reply, count: usize) -> bool {
    match reply {
        Reply::Outcome(Some(Ok(response))) => {
            response.payload.len() == count
                && response.payload.as_slice().iter().all(|byte| *byte == 7)
        }
        _ => false,
    }
}

/// Returns whether the outcome, the item or the refusal is this error.
fn has_error(reply: &Reply, said: Said) -> bool {
    match reply {
        Reply::Outcome(Some(Err(error))) => is_error(error, said),
        Reply::Item(Some(Err(error))) => is_error(error, said),
        Reply::Refused(error) => is_error(error, said),
        _ => false,
    }
}

fn has_job(reply: &Reply, id: u64, stream_id: u32, stream: bool, payload: &[u8]) -> bool {
    match reply {
        Reply::Handed(Some(job)) => {
            job.id == id
                && job.header.stream_id == stream_id
                && job.stream == stream
                && job.request.payload.as_slice() == payload
        }
        _ => false,
    }
}

pub fn is_said(reply: &Reply, said: Said) -> bool {
    match said {
        Said::Named(id) => matches!(reply, Reply::Named(told) if *told == id),
        Said::Ticket(ticket) => matches!(reply, Reply::Ticket(told) if *told == ticket),
        Said::Payload(payload) => has_payload(reply, payload),
        Said::Sevens(count) => has_sevens(reply, count),
        Said::Waits => matches!(reply, Reply::Outcome(None) | Reply::Item(None)),
        Said::Job(id, stream_id, payload) => has_job(reply, id, stream_id, false, payload),
        Said::StreamJob(id, stream_id) => has_job(reply, id, stream_id, true, b""),
        Said::FullStreamJob(id, stream_id, payload) => {
            has_job(reply, id, stream_id, true, payload)
        }
        Said::NoJob => matches!(reply, Reply::Handed(None)),
        Said::Done => matches!(reply, Reply::Done),
        Said::Count(n) => matches!(reply, Reply::Count(told) if *told == n),
        Said::Moved => matches!(reply, Reply::Count(told) if *told > 0),
        Said::NoStep => matches!(reply, Reply::NoStep),
        _ => has_error(reply, said),
    }
}

/// Returns whether the reply is that memory was refused.
fn is_want_of_memory(reply: &Reply) -> bool {
    match reply {
        Reply::NoMemory => true,
        Reply::Refused(error) => matches!(error, Error::NoMemory),
        Reply::Outcome(Some(Err(error))) => matches!(error, Error::NoMemory),
        Reply::Item(Some(Err(error))) => matches!(error, Error::NoMemory),
        _ => false,
    }
}

/// Returns an error if a reply is that memory was refused: the rest of the test would be another story.
pub fn had_memory(trace: &[Entry]) -> Result<(), Fail> {
    for entry in trace {
        if is_want_of_memory(&entry.reply) {
            return Err(Error::NoMemory.into());
        }
    }
    Ok(())
}

/// Returns whether the reply at this place is the expected one.
fn is_said_at(trace: &[Entry], at: usize, said: Said) -> bool {
    match trace.get(at) {
        Some(entry) => is_said(&entry.reply, said),
        None => false,
    }
}

/// Returns the number of events of an act.
fn events_in(act: Act) -> usize {
    match act {
        Act::BytesUp(count) | Act::BytesDown(count) => count.saturating_mul(2),
        _ => 1,
    }
}

/// Returns the place after the replies to an act that begin here. If one of them isn't the expected one, returns its
/// place as an error.
fn place_behind(trace: &[Entry], begin: usize, act: Act, said: Said) -> Result<usize, usize> {
    let mut at = begin;
    for _ in 0..events_in(act) {
        if !is_said_at(trace, at, said) {
            return Err(at);
        }
        at = at.saturating_add(1);
    }
    Ok(at)
}

/// Returns the same for rows.
fn place_behind_rows(trace: &[Entry], begin: usize, rows: Rows) -> Result<usize, usize> {
    let mut at = begin;
    for (act, said) in rows {
        at = place_behind(trace, at, *act, *said)?;
    }
    Ok(at)
}

/// Returns the place of the first reply that isn't the one in the script, or `None` if all are.
pub fn first_fault(trace: &[Entry], script: &[Rows]) -> Option<usize> {
    let mut at = 0usize;
    for rows in script {
        match place_behind_rows(trace, at, rows) {
            Ok(next) => at = next,
            Err(fault) => return Some(fault),
        }
    }
    if at < trace.len() { Some(at) } else { None }
}

// ---- worlds

/// The kind of a world's client, and the rules of its server.
#[derive(Clone, Copy)]
pub struct Ways {
    pub kind: ClientKind,
    pub rules: Rules,
}

/// The halves that a script runs over.
#[derive(Clone, Copy)]
pub enum Over {
    Plain,
    /// Halves that stamp.
    Stamps,
}

/// Runs events over plain halves.
pub fn over_plain(alloc: Global, ways: Ways, events: Vec<Event>) -> Result<Trace, Error> {
    plain_is_paired();
    let registry = registry(alloc)?;
    let client = ClientCore::new(alloc, ways.kind, plain_context(alloc))?;
    let server = ServerCore::new(alloc, ways.rules, registry, plain_context(alloc))?;
    World::new(alloc, client, server).run(alloc, events)
}

/// Runs events over halves that stamp.
pub fn over_stamps(alloc: Global, ways: Ways, events: Vec<Event>) -> Result<Trace, Error> {
    let registry = registry(alloc)?;
    let (up_out, up_in) = stamps();
    let (down_out, down_in) = stamps();
    let up = ConnectionContext::of_halves(alloc, up_out, down_in);
    let down = ConnectionContext::of_halves(alloc, down_out, up_in);
    let client = ClientCore::new(alloc, ways.kind, up)?;
    let server = ServerCore::new(alloc, ways.rules, registry, down)?;
    World::new(alloc, client, server).run(alloc, events)
}

/// Runs events over these halves.
pub fn run_over(alloc: Global, over: Over, ways: Ways, events: Vec<Event>) -> Result<Trace, Error> {
    match over {
        Over::Plain => over_plain(alloc, ways, events),
        Over::Stamps => over_stamps(alloc, ways, events),
    }
}

/// Runs a script over these halves.
pub fn run_script(alloc: Global, over: Over, ways: Ways, script: &[Rows]) -> Result<Trace, Error> {
    run_over(alloc, over, ways, events_of(alloc, script)?)
}
