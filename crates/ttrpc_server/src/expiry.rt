//! Jobs that expire, and the expired jobs that are still to be reported.
ghost use Rattle.std.specs.Prelude.{◌≡◌, ◌<◌, ◌≤◌, ◌↔◌, true, ◌+◌, ◌++◌, [], ◌∷◌, if◌then◌else◌, length, slice_get, option_to_list, IfErr, IfNone, Some, IsPermutation, OnOk, OnErr};
ghost use Rattle.std.specs.List.Sorted.{IsNonDecreasing};
ghost use Rattle.ttrpc_connection.specs.Deadlines.{due_ids};
ghost use Rattle.ttrpc_server.specs.declared.job.ActiveJob.{ActiveJob as AJob};
ghost use Rattle.ttrpc_proto.specs.Framing.Queue.{free};
ghost use Rattle.ttrpc_server.specs.Inside.{ExpiresAt, IsStop, SendsSome};
ghost use Rattle.ttrpc_server.specs.Protocol.{SendsOwnAnswer, timeout_response, timeout_room};
ghost use Rattle.ttrpc_server.specs.State.{IsJob};

use crate::index::Index;
use crate::job::JobId;
use crate::jobs::Jobs;
use crate::replies::send_own_answer;
use crate::responses::timeout_response;
use crate::rules::Rules;
use std::alloc::{AllocError, Global};
use std::collections::VecDeque;
use std::marker::Model;
use ttrpc_connection::Outbox;
use ttrpc_connection::deadlines::Deadlines;
use ttrpc_secure::OutboundTransform;

/// The jobs that are due, while they expire, and those that expired and weren't reported yet.
#[derive(Drop)]
pub(crate) struct Expiry {
    due: Vec<JobId>,
    expired: VecDeque<JobId>,
}

impl Model for Expiry {
    ghost use Rattle.std.specs.Prelude.{◌-◌, min, vec_capacity};
    ghost use Rattle.std.specs.VecDeque.{deque_capacity, deque_len};
    ghost use Rattle.ttrpc_server.specs.Kept.{Expiring};

    ghost Value = { Expiring };

    ghost view = { λ a. record {
      due = a.due.items;
      expired = a.expired.items;
      room = min (vec_capacity a.due) (deque_capacity a.expired - deque_len a.expired);
    } };
}

impl Expiry {
    /// Returns an `Expiry` with no jobs. Takes no memory.
    pub(crate) fn new(alloc: Global) -> Self
        ensures due { result.due ≡ [] }
        ensures expired { result.expired ≡ [] }
    {
        Expiry {
            due: Vec::new(alloc),
            expired: VecDeque::new(alloc),
        }
    }

    /// Makes room for this many jobs to expire. An `Err` takes no room away.
    pub(crate) fn reserve(&mut self, jobs: usize) -> Result<(), AllocError>
        ensures ok { OnOk result (jobs ≤ self.new.room) }
        ensures room { self.old.room ≤ self.new.room }
        ensures expired { self.new.expired ≡ self.old.expired }
    {
        self.due.clear();
        self.due.reserve(jobs)?;
        self.expired.reserve(jobs)
    }

    /// Lists the jobs with deadlines at or before this moment, by rising id. Takes no memory.
    pub(crate) fn list_due(&mut self, deadlines: &Deadlines, now: u64)
        // There is room for the ids of the jobs that are due.
        requires { length (due_ids now deadlines.now) ≤ self.old.room }
        // The list has these ids, by rising id.
        ensures are { IsPermutation (due_ids now deadlines.now) self.new.due }
        ensures rise { IsNonDecreasing self.new.due }
        // The jobs that expired are as they were, and there is no less room.
        ensures expired { self.new.expired ≡ self.old.expired }
        ensures room { self.old.room ≤ self.new.room }
    {
        deadlines.due(now, &mut self.due);
        self.due.sort_unstable();
    }

    /// Returns how many jobs are due. Takes no memory.
    pub(crate) fn count_due(&self) -> usize
        ensures { result ≡ length self.now.due }
    {
        self.due.len()
    }

    /// Returns the due job at this place of the list. Takes no memory.
    pub(crate) fn due_at(&self, place: usize) -> JobId
        requires { place < length self.now.due }
        ensures { slice_get self.now.due place ≡ Some result }
    {
        self.due[place]
    }

    /// Lists an expired job to be reported, unless it waited to be handed out. Takes no memory.
    fn tell(&mut self, id: JobId, waited: bool)
        requires { 0 < self.old.room }
        ensures expired { self.new.expired
            ≡ (if waited then self.old.expired else self.old.expired ++ id ∷ []) }
        ensures due { self.new.due ≡ self.old.due }
        ensures room { self.old.room ≤ self.new.room + 1 }
    {
        if waited {
            return;
        }
        if self.expired.push_back(id).is_err() {
            unreachable!();
        }
    }

    /// Takes the first of the jobs that expired and weren't reported yet. Takes no memory.
    pub(crate) fn next_expired(&mut self) -> Option<JobId>
        ensures first { self.old.expired ≡ option_to_list result ++ self.new.expired }
        ensures none { IfNone result (self.old.expired ≡ []) }
        ensures room { self.old.room ≤ self.new.room }
    {
        self.expired.pop_front()
    }

    /// Forgets the expired jobs that weren't reported yet. Takes no memory.
    pub(crate) fn forget(&mut self)
        ensures expired { self.new.expired ≡ [] }
        ensures room { self.old.room ≤ self.new.room }
    {
        self.expired.clear();
    }
}

/// Why no more of the due jobs expire.
#[derive(Clone, Copy, Debug, PartialEq, Eq)]
pub(crate) enum StopReason {
    /// The queue hasn't as many free bytes as the answer may need.
    NoRoom,
    /// The allocator refused memory.
    NoMemory,
}

/// The length of the answer to a job that expires.
const TIMEOUT_LENGTH: usize = 13;

/// Returns whether there is room for the answer to a job that expires.
pub(crate) fn has_room<O: OutboundTransform + Drop>(outbox: &Outbox<O>) -> bool
    ensures { (result ≡ true)
        ↔ (timeout_room O.OutboundTransform outbox.now.half ≤ free outbox.now.queue) }
{
    outbox.has_room(TIMEOUT_LENGTH)
}

/// Expires a job that is due: it ends, and is answered by a status that states this. An `Err` changes nothing.
pub(crate) fn expire_job<O: OutboundTransform + Drop>(
    alloc: Global,
    outbox: &mut Outbox<O>,
    jobs: &mut Jobs,
    index: &mut Index,
    expiry: &mut Expiry,
    id: JobId,
) -> Result<(), StopReason>
    requires job { (job : AJob) × IsJob jobs.old.list id job }
    requires room { 0 < expiry.old.room }
    ensures ok { (job : AJob) → (at : IsJob jobs.old.list id job)
        → OnOk result (ExpiresAt O.OutboundTransform
        jobs.old index.old expiry.old outbox.old job at jobs.new index.new expiry.new outbox.new) }
    ensures err { IfErr result (λ stop. IsStop O.OutboundTransform outbox.old stop
        × (jobs.new ≡ jobs.old) × (index.new ≡ index.old)
        × (expiry.new ≡ expiry.old) × (outbox.new ≡ outbox.old)) }
{
    let Some((stream_id, deadline)) = jobs.place_of(id) else {
        unreachable!();
    };
    if !has_room(outbox) {
        return Err(StopReason::NoRoom);
    }
    answer_timeout(alloc, outbox, stream_id)?;
    expiry.tell(id, jobs.waits(id));
    jobs.end(id);
    index.take_away(stream_id, id, deadline);
    Ok(())
}

/// Sends the answer to a job that expires, for which there is room. An `Err` changes nothing.
fn answer_timeout<O: OutboundTransform + Drop>(
    alloc: Global,
    outbox: &mut Outbox<O>,
    stream_id: u32,
) -> Result<(), StopReason>
    requires { timeout_room O.OutboundTransform outbox.old.half ≤ free outbox.old.queue }
    ensures ok { OnOk result (SendsSome O.OutboundTransform outbox.old (SendsOwnAnswer Rules.Async
        O.OutboundTransform outbox.old.half stream_id timeout_response) outbox.new) }
    ensures err { IfErr result (λ stop. (stop ≡ StopReason.NoMemory) × (outbox.new ≡ outbox.old)) }
{
    let Ok(response) = timeout_response(alloc) else {
        return Err(StopReason::NoMemory);
    };
    match send_own_answer(alloc, outbox, Rules::Async, stream_id, &response) {
        Ok(()) => Ok(()),
        Err(_) => Err(StopReason::NoMemory),
    }
}
