//! Reads from a trace whether a run is clean, whether it is quiet, and whether it is whole then. The program is slow,
//! and written from these sentences alone.

use crate::tests::lists::{Way, all_given, stream_of, was_ended};
use crate::tests::plainly::{answers_of, has_request, is_answered, outcomes_of};
use crate::tests::told::{Terms, tells};
use std::alloc::Global;
use std::test::Fail;
use ttrpc_client::CallId;
use ttrpc_proto::{Error, Request, Response};
use ttrpc_server::{JobId, Rules};
use ttrpc_world::{Entry, Event, Reply, Side, StreamEnd};

/// The result of reading a trace.
#[derive(Clone, Copy, PartialEq, Eq)]
pub enum Rest {
    /// The trace isn't clean, or not quiet: nothing is said about it.
    Unsaid,
    /// The trace is clean, quiet and whole: this number of calls and this number of receivers got everything.
    Whole(usize, usize),
    /// A call is not whole, though its outcome was requested.
    BrokenCall,
    /// A receiver did not get everything, though it was read to its end.
    BrokenStream,
}

// ---- clean

fn is_clean_event(event: &Event) -> bool {
    !matches!(
        event,
        Event::DropCall(_)
            | Event::DropReceiver(_)
            | Event::DropSender(_)
            | Event::Drain
            | Event::Cut(_, _)
            | Event::Fail(_)
    )
}

/// Returns whether the reply refuses nothing, and is no other error of a receiver than an end.
fn is_clean_reply(reply: &Reply) -> bool {
    match reply {
        Reply::Refused(_) | Reply::NoMemory => false,
        Reply::Item(Some(Err(error))) => matches!(error, Error::Eof | Error::RemoteClosed),
        _ => true,
    }
}

/// Returns whether the entry is clean under these rules: under sync rules no answer is an error.
fn is_clean_answer(rules: Rules, entry: &Entry) -> bool {
    match (&entry.event, &entry.reply) {
        (Event::Answer(_, Err(_)) | Event::EndStream(_, Err(_)), Reply::Done) => {
            matches!(rules, Rules::Async)
        }
        _ => true,
    }
}

/// Returns whether the moment `now` reaches a deadline that began at an earlier moment. A timeout of 0 sets none, and a
/// negative timeout is the `u64` with the same bits.
fn is_due(began: u64, timeout_nano: i64, now: u64) -> bool {
    timeout_nano != 0
        && u128::from(began) + u128::from(timeout_nano.cast_unsigned()) <= u128::from(now)
}

fn moment_after(moment: u64, entry: &Entry) -> u64 {
    match (&entry.event, &entry.reply) {
        (Event::Tick(now), Reply::Done) => *now,
        _ => moment,
    }
}

/// Returns whether a job of this stream was answered.
fn has_answer(trace: &[Entry], id: CallId) -> bool {
    for entry in trace {
        if let Reply::Handed(Some(job)) = &entry.reply {
            if job.header.stream_id == id && answers_of(trace, job.id) > 0 {
                return true;
            }
        }
    }
    false
}

/// Returns whether the moment `now` reaches the deadline of the call or stream that began here, if that has no outcome
/// or answer before.
fn is_reached(front: &[Entry], entry: &Entry, began: u64, now: u64) -> bool {
    let (request, open) = match (&entry.event, &entry.reply) {
        (Event::Call(request), Reply::Named(id)) => (request, outcomes_of(front, *id) == 0),
        (Event::Open(request, _, _), Reply::Named(id)) => (request, !has_answer(front, *id)),
        _ => return false,
    };
    open && is_due(began, request.timeout_nano, now)
}

/// Returns whether a moment reaches a deadline of one of the entries before it.
fn reaches_one(front: &[Entry], now: u64) -> bool {
    let mut moment = 0u64;
    for entry in front {
        if is_reached(front, entry, moment, now) {
            return true;
        }
        moment = moment_after(moment, entry);
    }
    false
}

/// Returns whether nothing was refused, lost or late.
pub fn is_clean(rules: Rules, trace: &[Entry]) -> bool {
    for (at, entry) in trace.iter().enumerate() {
        if !is_clean_event(&entry.event)
            || !is_clean_reply(&entry.reply)
            || !is_clean_answer(rules, entry)
        {
            return false;
        }
        if let (Event::Tick(now), Reply::Done) = (&entry.event, &entry.reply) {
            if reaches_one(&trace[..at], *now) {
                return false;
            }
        }
    }
    true
}

// ---- quiet

/// Returns the side from which the entry carried no bytes, though it offered room.
fn carried_nothing(entry: &Entry) -> Option<Side> {
    match (&entry.event, &entry.reply) {
        (Event::Carry(side, n), Reply::Count(0)) if *n > 0 => Some(*side),
        _ => None,
    }
}

/// Returns the same for a delivery.
fn delivered_nothing(entry: &Entry) -> Option<Side> {
    match (&entry.event, &entry.reply) {
        (Event::Deliver(side, n), Reply::Count(0)) if *n > 0 => Some(*side),
        _ => None,
    }
}

/// Returns whether these are both sides.
fn are_both(one: Option<Side>, other: Option<Side>) -> bool {
    matches!(
        (one, other),
        (Some(Side::Client), Some(Side::Server)) | (Some(Side::Server), Some(Side::Client))
    )
}

/// Returns whether the last four events are a carry from each side and a delivery to each, which moved nothing.
fn is_drained(trace: &[Entry]) -> bool {
    let n = trace.len();
    if n < 4 {
        return false;
    }
    are_both(
        carried_nothing(&trace[n - 4]),
        carried_nothing(&trace[n - 3]),
    ) && are_both(
        delivered_nothing(&trace[n - 2]),
        delivered_nothing(&trace[n - 1]),
    )
}

/// Returns whether a side took bytes here.
fn takes_bytes(entry: &Entry, side: Side) -> bool {
    match (&entry.event, &entry.reply) {
        (Event::Deliver(to, _), Reply::Count(count)) => {
            *count > 0 && are_both(Some(*to), Some(other(side)))
        }
        _ => false,
    }
}

fn other(side: Side) -> Side {
    match side {
        Side::Client => Side::Server,
        Side::Server => Side::Client,
    }
}

/// Returns the place after the last bytes that a side took, or 0 if it took none.
fn behind_bytes(trace: &[Entry], side: Side) -> usize {
    let mut begin = 0usize;
    for (at, entry) in trace.iter().enumerate() {
        if takes_bytes(entry, side) {
            begin = at.saturating_add(1);
        }
    }
    begin
}

/// Returns whether no job waited after the last bytes that the server took, if it took any.
fn is_taken(trace: &[Entry]) -> bool {
    let begin = behind_bytes(trace, Side::Server);
    if begin == 0 {
        return true;
    }
    for entry in trace.iter().skip(begin) {
        if matches!(&entry.reply, Reply::Handed(None)) {
            return true;
        }
    }
    false
}

/// Returns whether each job that was handed out was answered.
fn are_answered(trace: &[Entry]) -> bool {
    for entry in trace {
        if let Reply::Handed(Some(job)) = &entry.reply {
            if answers_of(trace, job.id) == 0 {
                return false;
            }
        }
    }
    true
}

/// Returns whether nothing is left to be moved, run or answered.
pub fn is_quiet(trace: &[Entry]) -> bool {
    is_drained(trace) && are_answered(trace) && is_taken(trace)
}

// ---- whole

/// Returns whether the outcome of a call was given, or requested after the last bytes that the client took.
fn is_asked_for(trace: &[Entry], id: CallId) -> bool {
    if outcomes_of(trace, id) > 0 {
        return true;
    }
    for entry in trace.iter().skip(behind_bytes(trace, Side::Client)) {
        if matches!(&entry.event, Event::Outcome(asked) if *asked == id) {
            return true;
        }
    }
    false
}

/// The result of reading a call so far.
#[derive(Clone, Copy)]
enum Read {
    Nothing,
    Called,
    Ran(JobId),
    /// The answer is at this place.
    Answered(JobId, usize),
    /// The answer is at the first place, and the outcome at the second.
    Given(JobId, usize, usize),
    Broken,
}

/// Returns whether a job of this call was answered here.
fn answers(entry: &Entry, read: Read) -> bool {
    match read {
        Read::Ran(job) | Read::Answered(job, _) | Read::Given(job, _, _) => is_answered(entry, job),
        _ => false,
    }
}

/// Returns the result with one more entry.
fn read_on(trace: &[Entry], at: usize, id: CallId, request: &Request, read: Read) -> Read {
    let Some(entry) = trace.get(at) else {
        return read;
    };
    match (&entry.event, &entry.reply, read) {
        (Event::Call(_) | Event::Open(_, _, _), Reply::Named(named), _) if *named == id => {
            match read {
                Read::Nothing => Read::Called,
                _ => Read::Broken,
            }
        }
        (_, Reply::Handed(Some(job)), _) if job.header.stream_id == id => match read {
            Read::Called if !job.stream && has_request(job, request) => Read::Ran(job.id),
            _ => Read::Broken,
        },
        (Event::Outcome(asked), Reply::Outcome(Some(_)), _) if *asked == id => match read {
            Read::Answered(job, answer) => Read::Given(job, answer, at),
            _ => Read::Broken,
        },
        _ if answers(entry, read) => match read {
            Read::Ran(job) => Read::Answered(job, at),
            _ => Read::Broken,
        },
        _ => read,
    }
}

/// Returns whether a call was made, run, answered, and got the outcome for that answer, in this order and once each.
fn is_whole_call(
    alloc: Global,
    terms: Terms,
    trace: &[Entry],
    id: CallId,
    request: &Request,
) -> Result<bool, Fail> {
    let mut read = Read::Nothing;
    for at in 0..trace.len() {
        read = read_on(trace, at, id, request, read);
    }
    let Read::Given(_, answer, outcome) = read else {
        return Ok(false);
    };
    match (trace.get(answer), trace.get(outcome)) {
        (Some(answer), Some(outcome)) => match &outcome.reply {
            Reply::Outcome(Some(given)) => tells(alloc, terms, &answer.event, given),
            _ => Ok(false),
        },
        _ => Ok(false),
    }
}

/// Returns whether a request names the method that exists.
fn names_method(request: &Request) -> bool {
    request.service.as_str() == "demo.Echo" && request.method.as_str() == "Echo"
}

/// Returns whether a receiver had nothing yet here.
fn finds_nothing(trace: &[Entry], entry: &Entry, way: Way) -> bool {
    match (&entry.event, &entry.reply, way) {
        (Event::Recv(StreamEnd::Server(job)), Reply::Item(None), Way::Up(id)) => {
            stream_of(trace, *job) == Some(id)
        }
        (Event::Recv(StreamEnd::Client(asked)), Reply::Item(None), Way::Down(id)) => *asked == id,
        _ => false,
    }
}

/// Returns whether a receiver got an end, or had nothing yet after the last bytes that its side took.
fn is_asked_out(trace: &[Entry], way: Way) -> bool {
    if was_ended(trace, way) {
        return true;
    }
    let side = match way {
        Way::Up(_) => Side::Server,
        Way::Down(_) => Side::Client,
    };
    for entry in trace.iter().skip(behind_bytes(trace, side)) {
        if finds_nothing(trace, entry, way) {
            return true;
        }
    }
    false
}

/// Returns the number of whole receivers of one way of an id. The number is 0 if the receiver wasn't read to its end.
fn way_is_whole(trace: &[Entry], way: Way) -> Option<usize> {
    if !is_asked_out(trace, way) {
        return Some(0);
    }
    if all_given(trace, way) { Some(1) } else { None }
}

/// Returns the number of whole receivers of both ways of an id.
fn ways_are_whole(trace: &[Entry], id: CallId) -> Option<usize> {
    match (
        way_is_whole(trace, Way::Up(id)),
        way_is_whole(trace, Way::Down(id)),
    ) {
        (Some(up), Some(down)) => Some(up.saturating_add(down)),
        _ => None,
    }
}

/// Returns the number of whole calls of an id. The number is 0 if it is no call of a method, or if its outcome wasn't
/// requested.
fn call_is_whole(
    alloc: Global,
    terms: Terms,
    trace: &[Entry],
    id: CallId,
    event: &Event,
) -> Result<Option<usize>, Fail> {
    let Event::Call(request) = event else {
        return Ok(Some(0));
    };
    if !names_method(request) || !is_asked_for(trace, id) {
        return Ok(Some(0));
    }
    Ok(if is_whole_call(alloc, terms, trace, id, request)? {
        Some(1)
    } else {
        None
    })
}

/// Reads a trace. If it is clean and quiet, returns whether each call and each receiver with a requested result is
/// whole.
pub fn read_rest(alloc: Global, terms: Terms, trace: &[Entry]) -> Result<Rest, Fail> {
    if !is_clean(terms.rules, trace) || !is_quiet(trace) {
        return Ok(Rest::Unsaid);
    }
    let mut calls = 0usize;
    let mut receivers = 0usize;
    for entry in trace {
        let Reply::Named(id) = &entry.reply else {
            continue;
        };
        match call_is_whole(alloc, terms, trace, *id, &entry.event)? {
            Some(more) => calls = calls.saturating_add(more),
            None => return Ok(Rest::BrokenCall),
        }
        match ways_are_whole(trace, *id) {
            Some(more) => receivers = receivers.saturating_add(more),
            None => return Ok(Rest::BrokenStream),
        }
    }
    Ok(Rest::Whole(calls, receivers))
}
