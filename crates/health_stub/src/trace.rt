//! The jobs and the calls of `Check` in an entry of a trace, or in all of its entries.
ghost use Rattle.std.specs.Prelude.{◌≡◌, ◌≢◌, ◌↔◌, ℕ, Option, None, Some, Ok, IfErr, IfNone, IfOk, IfSome, IsTrue};
ghost use Rattle.std.specs.Bool.{OnFalse, OnTrue};
ghost use Rattle.std.specs.Option.{option_copied, option_map};
ghost use Rattle.ttrpc_wire.specs.Field.{fields_bytes};
ghost use Rattle.ttrpc_wire.specs.Fold.{read_from};
ghost use Rattle.ttrpc_proto.specs.Messages.{empty_response, response_fields, response_step};
ghost use Rattle.ttrpc_proto.specs.declared.error.Error.{Error as AnError};
ghost use Rattle.ttrpc_proto.specs.declared.messages.Request.{Request as ARequest};
ghost use Rattle.ttrpc_proto.specs.declared.messages.Response.{Response as AResponse};
ghost use Rattle.ttrpc_server.specs.declared.job.Job.{Job as AJob};
ghost use Rattle.ttrpc_world_trace.specs.declared.events.Event.TheVariants.{Call, Outcome, Take};
ghost use Rattle.ttrpc_world_trace.specs.declared.events.Reply.TheVariants.{Outcome as Given, Handed, Named};
ghost use Rattle.health_stub.specs.Report.{AnswersWith, IsCheck, answered};

use std::alloc::Global;
use ttrpc::cores::client::CallId;
use ttrpc::cores::server::{Job, JobId};
use ttrpc::cores::world::{Entry, Event, Reply};
use ttrpc::proto::{Blob, Codec};
use ttrpc::{Error, Request, Response, Result};

/// Returns whether a request names `Check` of `demo.Health`.
fn is_check(request: &Request) -> bool
    ensures { IsTrue result ↔ IsCheck request.now }
{
    request.service.is_equal("demo.Health") && request.method.is_equal("Check")
}

/// Returns the job of `Check` that was handed out, if one was.
pub fn check_job(entry: &Entry) -> Option<&Job>
    ensures some { IfSome (option_copied result) (λ job.
        (entry.now ≡ record { event = Take; reply = Handed (Some job) }) × IsCheck job.request) }
    ensures none { IfNone result ((job : AJob)
        → entry.now ≡ record { event = Take; reply = Handed (Some job) }
        → ¬ (IsCheck job.request)) }
{
    match (&entry.event, &entry.reply) {
        (Event::Take, Reply::Handed(Some(job))) if is_check(&job.request) => Some(job),
        _ => None,
    }
}

/// Returns the job that was answered, if an answer was accepted, and the response, if the answer is Ok of one.
fn answer_in(entry: &Entry) -> Option<(JobId, Option<&Response>)>
    ensures { option_map (λ answer. (answer.0, option_copied answer.1)) result
        ≡ answered entry.now.event entry.now.reply }
{
    match (&entry.event, &entry.reply) {
        (Event::Answer(job, given), Reply::Done) => Some((*job, given.as_ref().ok())),
        (Event::Respond(job, response), Reply::Done) => Some((*job, Some(response))),
        (Event::EndStream(job, Ok(last)), Reply::Done) => Some((*job, last.as_ref())),
        (Event::EndStream(job, Err(_)), Reply::Done) => Some((*job, None)),
        _ => None,
    }
}

/// Returns whether an accepted answer to this job isn't Ok of the expected response. The only error is `NoMemory`.
pub fn is_other(alloc: Global, entry: &Entry, job: JobId, expected: &Response) -> Result<bool>
    ensures yes { IfOk result (λ other. OnTrue other ((response : Option AResponse)
        × AnswersWith job response entry.now × (response ≢ Some expected.now))) }
    ensures no { IfOk result (λ other. OnFalse other ((response : Option AResponse)
        → AnswersWith job response entry.now → response ≡ Some expected.now)) }
    ensures refused { IfErr result (λ error. error ≡ AnError.NoMemory) }
{
    match answer_in(entry) {
        Some((id, Some(response))) if id == job => Ok(!is_same(alloc, response, expected)?),
        Some((id, None)) => Ok(id == job),
        _ => Ok(false),
    }
}

/// Returns whether two responses are the same, which they are if their written forms are. The only error is `NoMemory`.
fn is_same(alloc: Global, one: &Response, other: &Response) -> Result<bool>
    ensures same { IfOk result (λ same. IsTrue same ↔ (one.now ≡ other.now)) }
    ensures refused { IfErr result (λ error. error ≡ AnError.NoMemory) }
{
    let one = written(alloc, one)?;
    Ok(one.is_equal(written(alloc, other)?.as_slice()))
}

/// Returns the written form of a response, which decodes to the response again. A response that is too long to have one
/// gives `NoMemory`, too.
fn written(alloc: Global, response: &Response) -> Result<Blob>
    ensures ok { IfOk result (λ bytes. bytes ≡ fields_bytes (response_fields response.now)) }
    ensures again { IfOk result
        (λ bytes. read_from response_step empty_response bytes ≡ Some response.now) }
    ensures refused { IfErr result (λ error. error ≡ AnError.NoMemory) }
{
    let bytes = response.encode(alloc).map_err(|_| Error::NoMemory)?;
    Ok(Blob::from_vec(bytes))
}

/// Returns the call with an Ok outcome, and the response, if one was given.
pub fn told_in(entry: &Entry) -> Option<(CallId, &Response)>
    ensures some { IfSome result (λ told. entry.now
        ≡ record { event = Outcome told.0; reply = Given (Some (Ok told.1.now)) }) }
    ensures none { IfNone result ((id : ℕ) (response : AResponse)
        → entry.now ≢ record { event = Outcome id; reply = Given (Some (Ok response)) }) }
{
    match (&entry.event, &entry.reply) {
        (Event::Outcome(id), Reply::Outcome(Some(Ok(response)))) => Some((*id, response)),
        _ => None,
    }
}

/// Returns whether this is the call of `Check` with this id.
pub fn calls_check(entry: &Entry, id: CallId) -> bool
    ensures yes { OnTrue result ((request : ARequest)
        × (entry.now ≡ record { event = Call request; reply = Named id }) × IsCheck request) }
    ensures no { OnFalse result ((request : ARequest)
        → entry.now ≡ record { event = Call request; reply = Named id } → ¬ (IsCheck request)) }
{
    match (&entry.event, &entry.reply) {
        (Event::Call(request), Reply::Named(named)) if *named == id && is_check(request) => true,
        _ => false,
    }
}
