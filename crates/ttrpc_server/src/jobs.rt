//! The jobs of a server that weren't answered, found by their ids. Of the functions here only `make` takes memory.
ghost use Rattle.std.specs.Prelude.{◌≡◌, ◌<◌, ◌-◌, ◌+◌, ◌^◌, ◌++◌, IfErr, IfSome, IfNone, OnOk, Some, filter, length};
ghost use Rattle.ttrpc_server.specs.declared.job.ActiveJob.{ActiveJob as AJob};
ghost use Rattle.ttrpc_server.specs.State.{HandsOne, deadline_in, IsJob, IsTaken, IsUnknown, NoneWaits, Rising, no_jobs, waits, with_job};
ghost use Rattle.ttrpc_server.specs.Inside.{FailsToMake};

mod mailboxes;

use crate::job::{ActiveJob, Body, Job, JobId};
use std::alloc::Global;
use std::marker::Model;
use ttrpc_connection::Failure;
use ttrpc_proto::{MessageHeader, Request};
use ttrpc_table::Table;

/// The jobs of a server that weren't answered, by rising id, and the ids of those that wait to be handed out.
#[derive(Drop)]
pub(crate) struct Jobs {
    jobs: Table<ActiveJob>,
    waiting: Table<()>,
    // The id of the last job that was made.
    last: JobId,
    // The stream id of the newest request, if async rules saw one.
    newest: Option<u32>,
}

impl Model for Jobs {
    ghost use Rattle.std.specs.Map.{keys_of, values_of};
    ghost use Rattle.ttrpc_server.specs.State.{JobList};
    ghost use Rattle.ttrpc_server.specs.Inside.{AreJobs};

    ghost Value = { JobList };

    ghost view = { λ a. record { last = a.last; list = values_of a.jobs; newest = a.newest } };

    ghost invariant = { λ a. AreJobs a.last a.jobs (keys_of a.waiting) };
}

impl Jobs {
    /// Returns an empty list of jobs.
    pub(crate) fn new(alloc: Global) -> Self
        ensures { result ≡ no_jobs }
    {
        Jobs {
            jobs: Table::new(alloc),
            waiting: Table::new(alloc),
            last: 0,
            newest: None,
        }
    }

    /// Returns the stream id of the newest request, if there is one.
    pub(crate) fn newest(&self) -> Option<u32>
        ensures { result ≡ self.now.newest }
    {
        self.newest
    }

    /// Sets the stream id of the newest request.
    pub(crate) fn note_newest(&mut self, newest: Option<u32>)
        ensures { self.new ≡ record self.old { newest = newest } }
    {
        self.newest = newest;
    }

    /// Returns the id for the next job, if one is left.
    pub(crate) fn next_id(&self) -> Option<JobId>
        ensures some { IfSome result (λ id. id ≡ self.now.last + 1) }
        ensures none { IfNone result (self.now.last ≡ 2 ^ 64 - 1) }
        ensures rise { Rising 0 self.now.list self.now.last }
    {
        self.last.checked_add(1)
    }

    /// Makes a job that waits to be handed out. An `Err` changes nothing: no id is left, or memory was refused.
    pub(crate) fn make(
        &mut self,
        header: MessageHeader,
        request: Request,
        body: Body,
    ) -> Result<(), Failure>
        ensures ok { OnOk result (self.new ≡ with_job self.old header request body) }
        ensures err { IfErr result
            (λ failure. (self.new ≡ self.old) × FailsToMake self.old failure) }
    {
        if self.last == u64::MAX {
            return Err(Failure::JobIdsUsedUp);
        }
        let id = self.last + 1;
        let job = ActiveJob {
            id,
            header,
            request: Some(request),
            body,
        };
        if self.jobs.insert(id, job).is_err() {
            return Err(Failure::NoMemory);
        }
        if self.waiting.insert(id, ()).is_err() {
            let _ = self.jobs.remove(id);
            return Err(Failure::NoMemory);
        }
        self.last = id;
        Ok(())
    }

    /// Hands out the first job that waits, if there is one.
    pub(crate) fn hand_out(&mut self) -> Option<Job>
        ensures given { IfSome result (λ job. HandsOne self.old.list job self.new.list) }
        ensures none { IfNone result ((self.new ≡ self.old) × NoneWaits self.old.list) }
        ensures last { self.new.last ≡ self.old.last }
        ensures newest { self.new.newest ≡ self.old.newest }
    {
        let Some((id, ())) = self.waiting.pop_first() else {
            return None;
        };
        match self.jobs.get_mut(id) {
            Some(job) => {
                let header = job.header;
                let stream = job.body.is_stream();
                let request = job.request.take();
                match request {
                    Some(request) => Some(Job {
                        id,
                        header,
                        stream,
                        request,
                    }),
                    None => unreachable!(),
                }
            }
            None => unreachable!(),
        }
    }

    /// Returns the stream id and the deadline of the job of this id, whether it was taken or waits.
    pub(crate) fn place_of(&self, id: JobId) -> Option<(u32, Option<u128>)>
        ensures { (job : AJob) → IsJob self.now.list id job
            → result ≡ Some (job.header.stream_id, deadline_in job.body) }
    {
        match self.jobs.get(id) {
            Some(job) => Some((job.header.stream_id, job.body.deadline())),
            None => None,
        }
    }

    /// Returns whether the job of this id waits to be handed out.
    pub(crate) fn waits(&self, id: JobId) -> bool
        ensures { (job : AJob) → IsJob self.now.list id job → result ≡ waits job }
    {
        match self.jobs.get(id) {
            Some(job) => job.request.is_some(),
            None => false,
        }
    }

    /// Forgets the job of this id, whether it was taken or waits.
    pub(crate) fn end(&mut self, id: JobId)
        // There is a job of this id.
        requires { (job : AJob) × IsJob self.old.list id job }
        // The job is gone, and the others are as they were.
        ensures ended { (job : AJob) → (at : IsJob self.old.list id job)
            → self.new.list ≡ at.front ++ at.back }
        // The last id and the newest request are as they were. The ids were rising, up to the last one.
        ensures last { self.new.last ≡ self.old.last }
        ensures newest { self.new.newest ≡ self.old.newest }
        ensures rise { Rising 0 self.old.list self.old.last }
    {
        let _ = self.waiting.remove(id);
        let _ = self.jobs.remove(id);
    }

    /// Returns how many jobs weren't answered.
    pub(crate) fn len(&self) -> usize
        ensures count { result ≡ length self.now.list }
        ensures small { result < 2 ^ 63 }
    {
        self.jobs.len()
    }

    /// States that the ids of jobs rise, and none is above the last that was made. A lemma, which does nothing when it runs.
    pub(crate) fn lemma_rise(&self)
        ensures { Rising 0 self.now.list self.now.last }
    {
        let _last = self.last;
    }

    /// Returns how many jobs wait to be handed out.
    pub(crate) fn waiting(&self) -> u64
        ensures count { result ≡ length (filter waits self.now.list) }

        // The ids of jobs rise, and none is above the last that was made.
        ensures rise { Rising 0 self.now.list self.now.last }
    {
        self.waiting.len() as u64
    }

    /// Returns how many jobs were taken and not answered yet.
    pub(crate) fn taken(&self) -> u64
        ensures { result ≡ length self.now.list - length (filter waits self.now.list) }
    {
        self.jobs.len() as u64 - self.waiting()
    }
}
