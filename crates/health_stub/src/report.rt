//! A run of one client and one server, and the statuses of a table that its callers received.
ghost use Rattle.std.specs.Prelude.{◌≡◌, ◌≢◌, List, Any, Option, Some, codes, map, true, IfErr, IfOk};
ghost use Rattle.std.specs.Option.{option_map};
ghost use Rattle.std.specs.Bool.{OnFalse, OnTrue};
ghost use Rattle.std.specs.BTreeMap.{IsOrdered};
ghost use Rattle.std.specs.Ordering.{nat_cmp};
ghost use Rattle.ttrpc_proto.specs.declared.error.Error.{Error as AnError};
ghost use Rattle.ttrpc_proto.specs.declared.messages.Request.{Request as ARequest};
ghost use Rattle.ttrpc_proto.specs.declared.messages.Response.{Response as AResponse};
ghost use Rattle.ttrpc_server.specs.State.{has_method};
ghost use Rattle.ttrpc_world_trace.specs.declared.events.Entry.{Entry as AnEntry};
ghost use Rattle.ttrpc_pair.specs.Net.{IsFresh, Net, halves};
ghost use Rattle.ttrpc_pair.specs.Steps.{Runs};
ghost use Rattle.health_stub.specs.Health.{check_of};
ghost use Rattle.health_stub.specs.Report.{AnswersWith, IsAnsweredOtherwise, IsCheckCall, IsReported};
ghost use Rattle.health_stub.specs.Scan.{AreAnsweredSo, AreTold, IsAnsweredSo, IsFound};

use crate::answers::{check, response_in};
use crate::messages::HealthCheckResponse;
use crate::table::HealthTable;
use crate::trace::{calls_check, check_job, is_other, told_in};
use std::alloc::Global;
use std::collections::BTreeMap;
use ttrpc::Result;
use ttrpc::cores::client::CallId;
use ttrpc::cores::server::Job;
use ttrpc::cores::world::{Entry, Event, World};
use ttrpc::security_extension::{InboundTransform, OutboundTransform};

/// Calls, by rising id, each with the status that its caller received.
pub type Statuses = Vec<(CallId, HealthCheckResponse)>;

/// Lets these events happen to a client and a server, and returns the statuses that the callers of `Check` received, by
/// rising id. `Check` of `demo.Health` is a method of the server. Returns `None` if an accepted answer to a job of
/// `Check` isn't Ok of the response that `check` gives to the job's request. The only error is `NoMemory`.
pub fn run_health<CO, CI, SO, SI>(
    alloc: Global,
    world: World<CO, CI, SO, SI>,
    events: Vec<Event>,
    table: &HealthTable,
) -> Result<Option<Statuses>>
where
    CO: OutboundTransform + Drop,
    CI: InboundTransform + Drop,
    SO: OutboundTransform + Drop,
    SI: InboundTransform + Drop,
    // The premises of the headline.
    requires fresh { IsFresh
        (halves CO.OutboundTransform CI.InboundTransform)
        (halves SO.OutboundTransform SI.InboundTransform) world }
    requires is_method { has_method world.server.state.services (codes "demo.Health")
        (codes "Check") ≡ true }
    // There is a trace, which is a run of this world with these events. The result is `None` exactly if a job of
    // `Check` was answered otherwise than by the table. Else it has, by rising id, each call of `Check` with an Ok
    // outcome, and no other. Each call has the decoded payload of its outcome, with the table's last status for the
    // name in that call's own request.
    ensures report { IfOk result (λ answer. (trace : List AnEntry) × (last : Net _ _ _ _)
        × (map AnEntry.event trace ≡ events.items)
        × Runs
        (halves CO.OutboundTransform CI.InboundTransform)
        (halves SO.OutboundTransform SI.InboundTransform) CO.SEALS
        world trace last
        × IsReported table.now trace (option_map (λ list. list.items) answer)) }
    ensures refused { IfErr result (λ error. error ≡ AnError.NoMemory) }
{
    let trace = world.run(alloc, events)?;
    report(alloc, table, trace.as_slice())
}

/// Returns the statuses that the callers of `Check` received, by rising id. Returns `None` if a job of `Check` was
/// answered otherwise than by the table. The only error is `NoMemory`.
fn report(alloc: Global, table: &HealthTable, trace: &[Entry]) -> Result<Option<Statuses>>
    ensures found { IfOk result
        (λ report. IsFound table.now trace.now (option_map (λ list. list.items) report)) }
    ensures refused { IfErr result (λ error. error ≡ AnError.NoMemory) }
{
    if is_answered_otherwise(table, trace)? {
        return Ok(None);
    }
    let told = statuses_told(alloc, trace)?;
    Ok(Some(told.into_iter().collect(alloc)?))
}

/// Returns whether an accepted answer to a job of `Check` isn't Ok of the table's response. The only error is `NoMemory`.
fn is_answered_otherwise(table: &HealthTable, trace: &[Entry]) -> Result<bool>
    ensures yes { IfOk result
        (λ otherwise. OnTrue otherwise (IsAnsweredOtherwise table.now trace.now)) }
    ensures no { IfOk result (λ otherwise. OnFalse otherwise (AreAnsweredSo table.now trace.now)) }
    ensures refused { IfErr result (λ error. error ≡ AnError.NoMemory) }
{
    for entry in trace {
        if let Some(job) = check_job(entry) {
            if has_other_answer(table, trace, job)? {
                return Ok(true);
            }
        }
    }
    Ok(false)
}

/// Returns whether an accepted answer to this job isn't Ok of the table's response. The only error is `NoMemory`.
fn has_other_answer(table: &HealthTable, trace: &[Entry], job: &Job) -> Result<bool>
    ensures yes { IfOk result (λ other. OnTrue other
        ((response : Option AResponse) × Any (AnswersWith job.now.id response) trace.now
        × (response ≢ Some (check_of table.now job.now.request)))) }
    ensures no { IfOk result (λ other. OnFalse other (IsAnsweredSo table.now trace.now job.now)) }
    ensures refused { IfErr result (λ error. error ≡ AnError.NoMemory) }
{
    let expected = check(table, &job.request)?;
    for entry in trace {
        if is_other(table.alloc, entry, job.id, &expected)? {
            return Ok(true);
        }
    }
    Ok(false)
}

/// Returns the statuses of the calls of `Check` with an Ok outcome, each by the id of its call. The only error is
/// `NoMemory`.
fn statuses_told(alloc: Global, trace: &[Entry]) -> Result<BTreeMap<CallId, HealthCheckResponse>>
    ensures ordered { IfOk result (λ told. IsOrdered nat_cmp told) }
    ensures told { IfOk result (λ told. AreTold trace.now told.entries) }
    ensures refused { IfErr result (λ error. error ≡ AnError.NoMemory) }
{
    let mut told = BTreeMap::new(alloc);
    for entry in trace {
        if let Some((id, response)) = told_in(entry) {
            if is_check_call(trace, id) {
                told.insert(id, response_in(alloc, response.payload.as_slice())?)?;
            }
        }
    }
    Ok(told)
}

/// Returns whether a call of `Check` was made with this id.
fn is_check_call(trace: &[Entry], id: CallId) -> bool
    ensures yes { OnTrue result ((request : ARequest) × IsCheckCall trace.now id request) }
    ensures no { OnFalse result ((request : ARequest) → ¬ (IsCheckCall trace.now id request)) }
{
    trace.iter().any(|entry| calls_check(entry, id))
}
