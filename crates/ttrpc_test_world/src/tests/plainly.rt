//! The headline, computed from a trace: ids are distinct, a call has at most one outcome, and an `Ok` is the answer of
//! its one run. The program is slow, and written from this sentence alone.

use ttrpc_client::CallId;
use ttrpc_proto::{Error, Request, Response};
use ttrpc_server::{Job, JobId};
use ttrpc_world::{Entry, Event, Reply};

/// The result of reading a trace so far: its fault, or the number of outcomes that were `Ok`.
#[derive(Clone, Copy, PartialEq, Eq)]
pub enum Finding {
    /// Nothing is wrong, and this number of outcomes was `Ok`.
    Whole(usize),
    /// A call was accepted, or a stream opened, with an id that was used.
    IdUsedTwice,
    /// A job was handed out for an id that no call or stream has, or for the second time.
    RunOutOfPlace,
    /// An answer, a response or an end of a job was accepted for the second time.
    AnsweredTwice,
    /// An outcome was given for an id that no call has, or for the second time.
    OutcomeOutOfPlace,
    /// An outcome is `Ok`, but not the answer of the one run of its request.
    OtherAnswer,
}

/// Returns whether the entry accepts a call or opens a stream with this id.
fn is_named(entry: &Entry, id: CallId) -> bool {
    match (&entry.event, &entry.reply) {
        (Event::Call(_) | Event::Open(_, _, _), Reply::Named(named)) => *named == id,
        _ => false,
    }
}

/// Returns the number of calls that were accepted and of streams that were opened with this id.
fn names_of(trace: &[Entry], id: CallId) -> usize {
    let mut count = 0usize;
    for entry in trace {
        if is_named(entry, id) {
            count = count.saturating_add(1);
        }
    }
    count
}

/// Returns the first request of a call that was accepted with this id.
fn call_of(trace: &[Entry], id: CallId) -> Option<&Request> {
    for entry in trace {
        if let (Event::Call(request), Reply::Named(named)) = (&entry.event, &entry.reply) {
            if *named == id {
                return Some(request);
            }
        }
    }
    None
}

/// Returns the number of jobs that were handed out for this id.
fn runs_of(trace: &[Entry], id: CallId) -> usize {
    let mut count = 0usize;
    for entry in trace {
        if let Reply::Handed(Some(job)) = &entry.reply {
            if job.header.stream_id == id {
                count = count.saturating_add(1);
            }
        }
    }
    count
}

/// Returns the first job that was handed out for this id.
fn run_of(trace: &[Entry], id: CallId) -> Option<&Job> {
    for entry in trace {
        if let Reply::Handed(Some(job)) = &entry.reply {
            if job.header.stream_id == id {
                return Some(job);
            }
        }
    }
    None
}

/// Returns whether a job has exactly this request. A stream's job has it without its payload.
pub fn has_request(job: &Job, request: &Request) -> bool {
    if !job.stream {
        return job.request == *request;
    }
    job.request.service == request.service
        && job.request.method == request.method
        && job.request.payload.is_empty()
        && job.request.timeout_nano == request.timeout_nano
        && job.request.metadata == request.metadata
}

/// Returns whether the entry accepts an answer, a response or an end of this job.
pub fn is_answered(entry: &Entry, job: JobId) -> bool {
    match (&entry.event, &entry.reply) {
        (Event::Answer(id, _) | Event::Respond(id, _) | Event::EndStream(id, _), Reply::Done) => {
            *id == job
        }
        _ => false,
    }
}

/// Returns the number of answers, responses and ends of this job that were accepted.
pub fn answers_of(trace: &[Entry], job: JobId) -> usize {
    let mut count = 0usize;
    for entry in trace {
        if is_answered(entry, job) {
            count = count.saturating_add(1);
        }
    }
    count
}

/// Returns the first response that was accepted for this job, even as an answer or an end.
fn answer_of(trace: &[Entry], job: JobId) -> Option<&Response> {
    for entry in trace {
        if is_answered(entry, job) {
            return match &entry.event {
                Event::Answer(_, Ok(response)) | Event::Respond(_, response) => Some(response),
                Event::EndStream(_, Ok(Some(response))) => Some(response),
                _ => None,
            };
        }
    }
    None
}

/// Returns the number of outcomes that were given for this id.
pub fn outcomes_of(trace: &[Entry], id: CallId) -> usize {
    let mut count = 0usize;
    for entry in trace {
        if let (Event::Outcome(asked), Reply::Outcome(Some(_))) = (&entry.event, &entry.reply) {
            if *asked == id {
                count = count.saturating_add(1);
            }
        }
    }
    count
}

/// Returns whether the status of a response is OK, or missing.
pub fn is_ok(response: &Response) -> bool {
    match &response.status {
        None => true,
        Some(status) => status.code == 0,
    }
}

/// Returns whether the trace before an outcome makes it the answer of the one run, for exactly the request of its call.
fn is_answer(before: &[Entry], id: CallId, response: &Response) -> bool {
    let (Some(request), Some(job)) = (call_of(before, id), run_of(before, id)) else {
        return false;
    };
    let Some(answer) = answer_of(before, job.id) else {
        return false;
    };
    runs_of(before, id) == 1
        && answers_of(before, job.id) == 1
        && has_request(job, request)
        && answer == response
        && is_ok(response)
}

/// Returns the effect of one entry after others.
fn step(before: &[Entry], entry: &Entry) -> Finding {
    match (&entry.event, &entry.reply) {
        (Event::Call(_) | Event::Open(_, _, _), Reply::Named(id)) if names_of(before, *id) > 0 => {
            Finding::IdUsedTwice
        }
        (Event::Take, Reply::Handed(Some(job)))
            if names_of(before, job.header.stream_id) == 0
                || runs_of(before, job.header.stream_id) > 0 => { Finding::RunOutOfPlace }
        (Event::Answer(job, _) | Event::Respond(job, _) | Event::EndStream(job, _), Reply::Done)
            if answers_of(before, *job) > 0 => { Finding::AnsweredTwice }
        (Event::Outcome(id), Reply::Outcome(Some(outcome))) => outcome_step(before, *id, outcome),
        _ => Finding::Whole(0),
    }
}

/// Returns the effect of an outcome.
fn outcome_step(before: &[Entry], id: CallId, outcome: &Result<Response, Error>) -> Finding {
    if call_of(before, id).is_none() || outcomes_of(before, id) > 0 {
        return Finding::OutcomeOutOfPlace;
    }
    match outcome {
        Ok(response) if !is_answer(before, id, response) => Finding::OtherAnswer,
        Ok(_) => Finding::Whole(1),
        Err(_) => Finding::Whole(0),
    }
}

/// Returns whether each of the headline's sentences on calls holds for a trace, or else the first fault.
pub fn read_headline(trace: &[Entry]) -> Finding {
    let mut good = 0usize;
    for (at, entry) in trace.iter().enumerate() {
        match step(&trace[..at], entry) {
            Finding::Whole(more) => good = good.saturating_add(more),
            fault => return fault,
        }
    }
    Finding::Whole(good)
}
