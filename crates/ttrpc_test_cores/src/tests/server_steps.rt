//! The steps of a server.
use crate::tests::script::Step;
use crate::tests::server_numbers::{jobs_expire_at_once, jobs_expire_in_turn, serves_last_first};
use crate::tests::steps::{drained, tells};
use crate::tests::stream_job_steps::stream_job_step;
use crate::tests::under_test::{Met, Server};
use std::alloc::Global;
use std::test::Fail;
use ttrpc_bench::vectors::Told;
use ttrpc_proto::{Error, Response, Status};
use ttrpc_server::{Job, JobId};
use ttrpc_wire::codec::message::WireMessage;
use ttrpc_wire::values::slices::{behind, front};
use ttrpc_wire::{Blob, Text};

/// Does a step that only a server has. Returns whether it is met.
pub fn server_step<S: Server>(alloc: Global, core: &mut S, step: &Step, cut: usize) -> Met {
    match *step {
        Step::Takes(id, stream, payload) => Ok(takes(core, id, stream, payload)),
        Step::TakesNone => Ok(core.take_job().is_none()),
        Step::Answers(id, payload) => answers(alloc, core, id, payload),
        Step::AnswersSevens(id, length) => answers_sevens(alloc, core, id, length),
        Step::AnswersAgain(id, why, other, payload) => answers_again(
            alloc, core, id, why, other, payload,
        ),
        Step::RefusesAnswer(id, why) => refuses_answer(alloc, core, id, why),
        Step::Breaks(id) => breaks(alloc, core, id),
        Step::BreaksBy(id, code, message) => breaks_by(alloc, core, id, code, message),
        Step::StreamOf(id, stream) => Ok(core.stream_of(id) == stream),
        Step::Jobs(waiting, taken) => {
            Ok(core.jobs_waiting() == waiting && core.jobs_taken() == taken)
        }
        Step::HasUnsent(unsent) => Ok(core.has_unsent() == unsent),
        Step::Drains => Ok(drains(core)),
        Step::TakesNothing(bytes) => takes_nothing(alloc, core, bytes),
        Step::Serves(bytes, expected) => serves(alloc, core, bytes, cut, expected),
        Step::ServesLastFirst(count) => serves_last_first(alloc, core, count),
        Step::Responds(stream, payload) => responds(alloc, core, stream, payload),
        Step::RespondsSevens(stream, length) => responds_sevens(alloc, core, stream, length),
        Step::RespondsBare(stream) => {
            core.respond(alloc, stream, &Response::new(alloc))?;
            Ok(true)
        }
        Step::RefusesResponse(stream, why) => refuses_response(alloc, core, stream, why),
        Step::Finishes(id) => finishes(alloc, core, id),
        Step::RefusesFinish(id, why) => refuses_finish(alloc, core, id, why),
        _ => moment_step(alloc, core, step, cut),
    }
}

/// Returns the error with which a server refuses an answer, or `None` if it doesn't. No job may be handed out.
pub fn server_refusal<S: Server>(alloc: Global, core: &mut S) -> Option<Error> {
    if core.take_job().is_some() {
        return None;
    }
    let answer = Ok(ok_response(alloc, Blob::new(alloc)));
    core.answer(alloc, 1, &answer).err()
}

/// Does a step that needs the moment. Returns whether it is met.
fn moment_step<S: Server>(alloc: Global, core: &mut S, step: &Step, cut: usize) -> Met {
    match *step {
        Step::FeedAt(bytes, now) => feeds_at(alloc, core, bytes, now, cut),
        Step::NextDeadline(at) => Ok(core.next_deadline() == at),
        Step::NextExpired(id) => Ok(core.next_expired() == id),
        Step::JobsExpireAtOnce(count) => jobs_expire_at_once(alloc, core, count),
        Step::JobsExpireInTurn(count) => jobs_expire_in_turn(alloc, core, count),
        Step::Ticks(now) => ticks(alloc, core, now),
        _ => front_step(alloc, core, step, cut),
    }
}

/// Moves the clock to this moment. If memory for an answer was refused, returns that as the test's error.
pub fn ticks<S: Server>(alloc: Global, core: &mut S, now: u64) -> Met {
    core.tick(alloc, now);
    match core.failure(alloc) {
        Some(Error::NoMemory) => Err(Error::NoMemory.into()),
        _ => Ok(true),
    }
}

/// Returns whether the bytes are taken whole at this moment, in pieces of this size.
pub fn feeds_at<S: Server>(
    alloc: Global,
    core: &mut S,
    bytes: &[u8],
    now: u64,
    size: usize,
) -> Met {
    for piece in bytes.chunks(size.max(1)) {
        if core.feed_at(alloc, piece, now)? != piece.len() {
            return Ok(false);
        }
    }
    Ok(true)
}

/// Does a step that takes fronts of a piece. Returns whether it is met.
fn front_step<S: Server>(alloc: Global, core: &mut S, step: &Step, cut: usize) -> Met {
    match *step {
        Step::Front(bytes, count) => Ok(core.feed_front(alloc, bytes)? == count),
        Step::Frame(bytes, from, count) => {
            Ok(frame_taken(alloc, core, behind(bytes, from))? == count)
        }
        Step::FrameToCut(bytes) => takes_all(alloc, core, front(bytes, cut)),
        Step::FrameFromCut(bytes) => takes_all(alloc, core, behind(bytes, cut)),
        Step::RefusesFront(bytes, from, why) => {
            tells(core.feed_front(alloc, behind(bytes, from)).err(), why)
        }
        _ => stream_job_step(alloc, core, step),
    }
}

// ---- responses of a server

/// Returns a response with an OK status and this payload.
pub fn ok_response(alloc: Global, payload: Blob) -> Response {
    Response {
        status: Some(Status::new(alloc)),
        payload,
    }
}

/// Returns a status with this code and message.
pub fn status_of(alloc: Global, code: i32, message: &str) -> Result<Status, Fail> {
    let mut status = Status::new(alloc);
    status.code = code;
    status.message = Text::from_str(alloc, message)?;
    Ok(status)
}

// ---- fronts

/// Takes fronts of a piece until one ends a frame, and returns the number of bytes that were taken.
fn frame_taken<S: Server>(alloc: Global, core: &mut S, piece: &[u8]) -> Result<usize, Fail> {
    let mut taken: usize = 0;
    for _ in 0..piece.len() {
        let count = core.feed_front(alloc, behind(piece, taken))?;
        taken = taken.saturating_add(count);
        if core.at_boundary() {
            break;
        }
    }
    Ok(taken)
}

fn takes_all<S: Server>(alloc: Global, core: &mut S, piece: &[u8]) -> Met {
    Ok(frame_taken(alloc, core, piece)? == piece.len())
}

// ---- the end of taking

fn drains<S: Server>(core: &mut S) -> bool {
    core.drain();
    true
}

fn takes_nothing<S: Server>(alloc: Global, core: &mut S, bytes: &[u8]) -> Met {
    Ok(core.feed(alloc, bytes)? == 0 && core.feed_front(alloc, bytes)? == 0)
}

// ---- jobs

fn is_job(job: &Job, id: JobId, stream: u32, payload: &[u8]) -> bool {
    job.id == id
        && job.header.stream_id == stream
        && !job.stream
        && job.request.payload.as_slice() == payload
}

fn takes<S: Server>(core: &mut S, id: JobId, stream: u32, payload: &[u8]) -> bool {
    match core.take_job() {
        Some(job) => is_job(&job, id, stream, payload),
        None => false,
    }
}

/// Answers the job with these bytes.
pub fn answers<S: Server>(alloc: Global, core: &mut S, id: JobId, payload: &[u8]) -> Met {
    let payload = Blob::from_slice(alloc, payload)?;
    gives(alloc, core, id, &Ok(ok_response(alloc, payload)))
}

fn answers_sevens<S: Server>(alloc: Global, core: &mut S, id: JobId, length: usize) -> Met {
    let payload = Blob::from_vec(vec![in alloc; 7; length]?);
    gives(alloc, core, id, &Ok(ok_response(alloc, payload)))
}

fn breaks<S: Server>(alloc: Global, core: &mut S, id: JobId) -> Met {
    gives(alloc, core, id, &Err(Error::Eof))
}

fn breaks_by<S: Server>(alloc: Global, core: &mut S, id: JobId, code: i32, message: &str) -> Met {
    let status = status_of(alloc, code, message)?;
    gives(alloc, core, id, &Err(Error::RpcStatus(status)))
}

/// Gives the answer.
fn gives<S: Server>(
    alloc: Global,
    core: &mut S,
    id: JobId,
    answer: &Result<Response, Error>,
) -> Met {
    core.answer(alloc, id, answer)?;
    Ok(true)
}

/// Returns whether the answer is refused with this error, twice.
fn refuses_twice<S: Server>(
    alloc: Global,
    core: &mut S,
    id: JobId,
    answer: &Result<Response, Error>,
    why: Told,
) -> Met {
    Ok(
        tells(core.answer(alloc, id, answer).err(), why)?
            && tells(core.answer(alloc, id, answer).err(), why)?,
    )
}

fn refuses_answer<S: Server>(alloc: Global, core: &mut S, id: JobId, why: Told) -> Met {
    refuses_twice(
        alloc,
        core,
        id,
        &Ok(ok_response(alloc, Blob::new(alloc))),
        why,
    )
}

/// Returns whether an answer that was refused can be given to another job: it is still the caller's.
fn answers_again<S: Server>(
    alloc: Global,
    core: &mut S,
    id: JobId,
    why: Told,
    other: JobId,
    payload: &[u8],
) -> Met {
    let payload = Blob::from_slice(alloc, payload)?;
    refused_and_given(
        alloc,
        core,
        id,
        why,
        other,
        &Ok(ok_response(alloc, payload)),
    )
}

fn refused_and_given<S: Server>(
    alloc: Global,
    core: &mut S,
    id: JobId,
    why: Told,
    other: JobId,
    answer: &Result<Response, Error>,
) -> Met {
    Ok(refuses_twice(alloc, core, id, answer, why)? && gives(alloc, core, other, answer)?)
}

// ---- responses, and jobs that end without one

fn responds<S: Server>(alloc: Global, core: &mut S, stream: u32, payload: &[u8]) -> Met {
    let response = ok_response(alloc, Blob::from_slice(alloc, payload)?);
    core.respond(alloc, stream, &response)?;
    Ok(true)
}

fn responds_sevens<S: Server>(alloc: Global, core: &mut S, stream: u32, length: usize) -> Met {
    let response = ok_response(alloc, Blob::from_vec(vec![in alloc; 7; length]?));
    core.respond(alloc, stream, &response)?;
    Ok(true)
}

/// Returns whether the response is refused with this error, twice.
fn refuses_response<S: Server>(alloc: Global, core: &mut S, stream: u32, why: Told) -> Met {
    let response = ok_response(alloc, Blob::new(alloc));
    Ok(
        tells(core.respond(alloc, stream, &response).err(), why)?
            && tells(core.respond(alloc, stream, &response).err(), why)?,
    )
}

fn finishes<S: Server>(alloc: Global, core: &mut S, id: JobId) -> Met {
    core.finish(alloc, id)?;
    Ok(true)
}

fn refuses_finish<S: Server>(alloc: Global, core: &mut S, id: JobId, why: Told) -> Met {
    Ok(tells(core.finish(alloc, id).err(), why)? && tells(core.finish(alloc, id).err(), why)?)
}

// ---- whole services

/// Answers the job that is handed out with its own payload. Returns whether there was one.
fn echoes<S: Server>(alloc: Global, core: &mut S) -> Met {
    match core.take_job() {
        None => Ok(false),
        Some(job) => answers(alloc, core, job.id, job.request.payload.as_slice()),
    }
}

/// Answers each job that waits, but at most `at_most` of them, with its own payload.
fn echoes_all<S: Server>(alloc: Global, core: &mut S, at_most: usize) -> Met {
    for _ in 0..at_most {
        if !echoes(alloc, core)? {
            break;
        }
    }
    Ok(true)
}

/// Takes the bytes in pieces of this size. After each piece each job is answered with its own payload. Returns whether
/// the expected bytes are written then.
pub fn serves<S: Server>(
    alloc: Global,
    core: &mut S,
    bytes: &[u8],
    size: usize,
    expected: &[u8],
) -> Met {
    let mut rest = expected;
    for piece in bytes.chunks(size.max(1)) {
        core.feed(alloc, piece)?;
        echoes_all(alloc, core, piece.len())?;
        match drained(core, rest) {
            Some(left) => rest = left,
            None => return Ok(false),
        }
    }
    Ok(rest.is_empty())
}
