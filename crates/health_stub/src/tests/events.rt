//! Events in a short form.
use crate::check;
use crate::messages::HealthCheckRequest;
use crate::table::HealthTable;
use std::alloc::Global;
use std::mem;
use std::test::Fail;
use ttrpc::cores::world::{Event, Side};
use ttrpc::proto::{Blob, Codec, Sequence, Text, WireMessage};
use ttrpc::{Error, Request, Response, Status};

/// One event, or the two that move bytes from one side to the other.
#[derive(Clone, Copy)]
pub enum Act {
    /// A call of `Check` for this name, with this timeout in nanoseconds.
    Check(&'static str, i64),
    /// A call of `Other` for this name.
    Other(&'static str),
    Take,
    /// An answer to this job, as the table gives it to a request for this name.
    Answer(u64, &'static str),
    /// An answer to this job with this payload.
    AnswerStatus(u64, &'static [u8]),
    Outcome(u32),
    Tick(u64),
    CarryUp(usize),
    CarryDown(usize),
    DeliverUp(usize),
    DeliverDown(usize),
}

/// Makes a request of this method for this name.
fn request_of(alloc: Global, method: &str, name: &str, timeout_nano: i64) -> Result<Request, Fail> {
    let mut asked = HealthCheckRequest::new(alloc);
    asked.service = Text::from_str(alloc, name)?;
    let payload = asked.encode(alloc)?;
    Ok(Request {
        service: Text::from_str(alloc, "demo.Health")?,
        method: Text::from_str(alloc, method)?,
        payload: Blob::from_vec(payload),
        timeout_nano,
        metadata: Sequence::new(alloc),
    })
}

/// Makes a response with this payload.
fn response_of(alloc: Global, payload: &[u8]) -> Result<Response, Fail> {
    Ok(Response {
        status: Some(Status::new(alloc)),
        payload: Blob::from_slice(alloc, payload)?,
    })
}

fn call(alloc: Global, method: &str, name: &str, timeout_nano: i64) -> Result<Event, Fail> {
    Ok(Event::Call(request_of(alloc, method, name, timeout_nano)?))
}

fn answer(alloc: Global, table: &HealthTable, job: u64, name: &str) -> Result<Event, Fail> {
    let request = request_of(alloc, "Check", name, 0)?;
    Ok(Event::Answer(job, Ok(check(table, &request)?)))
}

fn answer_status(alloc: Global, job: u64, payload: &[u8]) -> Result<Event, Fail> {
    Ok(Event::Answer(job, Ok(response_of(alloc, payload)?)))
}

/// Returns the event of an act that takes no memory.
fn plain_event(act: Act) -> Event {
    match act {
        Act::Outcome(id) => Event::Outcome(id),
        Act::Tick(now) => Event::Tick(now),
        Act::CarryUp(n) => Event::Carry(Side::Client, n),
        Act::CarryDown(n) => Event::Carry(Side::Server, n),
        Act::DeliverUp(n) => Event::Deliver(Side::Server, n),
        Act::DeliverDown(n) => Event::Deliver(Side::Client, n),
        _ => Event::Take,
    }
}

fn event_of(alloc: Global, table: &HealthTable, act: Act) -> Result<Event, Fail> {
    match act {
        Act::Check(name, timeout) => call(alloc, "Check", name, timeout),
        Act::Other(name) => call(alloc, "Other", name, 0),
        Act::Answer(job, name) => answer(alloc, table, job, name),
        Act::AnswerStatus(job, payload) => answer_status(alloc, job, payload),
        _ => Ok(plain_event(act)),
    }
}

/// Adds an event, and returns whether there was room. This is a function of its own, since a value that isn't taken is
/// dropped here.
fn push(events: &mut Vec<Event>, event: Event) -> bool {
    match events.push(event) {
        Ok(()) => true,
        Err(error) => {
            mem::drop(error);
            false
        }
    }
}

/// Returns the events of these acts, with answers by this table.
pub fn events_of(alloc: Global, table: &HealthTable, acts: &[Act]) -> Result<Vec<Event>, Fail> {
    let mut events = Vec::new(alloc);
    for act in acts {
        if !push(&mut events, event_of(alloc, table, *act)?) {
            return Err(Error::NoMemory.into());
        }
    }
    Ok(events)
}
