//! The mailboxes of streams' jobs. Of the functions here only `put` and `recv` take memory.
ghost use Rattle.std.specs.Prelude.{◌≡◌, IfNone, IfSome, OnOk, OnErr};
ghost use Rattle.std.specs.Option.{option_map};
ghost use Rattle.ttrpc_connection.specs.Mail.{with_thing, without_receiver};
ghost use Rattle.ttrpc_server.specs.State.{IsTaken, IsUnknown, is_stream, job_at, on_mail};
ghost use Rattle.ttrpc_server.specs.declared.job.ActiveJob.{ActiveJob as AJob};
ghost use Rattle.ttrpc_server.specs.Mailboxes.{ReceivesFrom};
ghost use Rattle.ttrpc_server.specs.Streaming.{was_made};
ghost use Rattle.ttrpc_server.specs.Table.{id_state_in};

use crate::job::JobId;
use crate::jobs::Jobs;
use crate::rows::StreamIdState;
use std::alloc::{AllocError, Global};
use ttrpc_connection::{Failure, MailboxEntry};
use ttrpc_proto::Error;
use ttrpc_wire::Blob;

impl Jobs {
    /// Returns how the job of this id takes a frame under its stream id, if there is such a job.
    pub(crate) fn id_state(&self, id: JobId) -> Option<StreamIdState>
        ensures { result ≡ option_map (λ j. id_state_in j.body) (job_at self.now.list id) }
    {
        match self.jobs.get(id) {
            Some(job) => Some(job.body.id_state()),
            None => None,
        }
    }

    /// Returns the stream id of the job of this id, and whether the job is a stream's, if there is such a job.
    pub(crate) fn stream_at(&self, id: JobId) -> Option<(u32, bool)>
        ensures { result
            ≡ option_map (λ j. (j.header.stream_id, is_stream j.body)) (job_at self.now.list id) }
    {
        match self.jobs.get(id) {
            Some(job) => Some((job.header.stream_id, job.body.is_stream())),
            None => None,
        }
    }

    /// Returns the stream id of the job of this id, and whether the job is a stream's, if it was taken.
    pub(crate) fn taken_at(&self, id: JobId) -> Option<(u32, bool)>
        ensures some { IfSome result (λ p. (job : AJob) × IsTaken self.now.list id job
            × (p ≡ (job.header.stream_id, is_stream job.body))) }
        ensures none { IfNone result (IsUnknown self.now.list id) }
    {
        match self.jobs.get(id) {
            Some(job) if job.request.is_none() => {
                Some((job.header.stream_id, job.body.is_stream()))
            }
            _ => None,
        }
    }

    /// Returns whether a job of this id was made.
    pub(crate) fn was_made(&self, id: JobId) -> bool
        ensures { result ≡ was_made self.now id }
    {
        0 < id && id <= self.last
    }

    /// Puts a thing into the mailbox of this job, if it is a stream's. If `ends` is true the thing is the last. An `Err` changes nothing.
    pub(crate) fn put(
        &mut self,
        id: JobId,
        thing: MailboxEntry,
        ends: bool,
    ) -> Result<(), AllocError>
        ensures ok { OnOk result (self.new
            ≡ record self.old { list = on_mail id (λ m. with_thing m thing ends) self.old.list }) }
        ensures err { OnErr result (self.new ≡ self.old) }
    {
        let Some(job) = self.jobs.get_mut(id) else {
            return Ok(());
        };
        job.body.put(thing, ends)
    }

    /// Drops the receiver of this job, if it is a stream's.
    pub(crate) fn drop_receiver(&mut self, id: JobId)
        ensures { self.new ≡ record self.old { list = on_mail id without_receiver self.old.list } }
    {
        let Some(job) = self.jobs.get_mut(id) else {
            return;
        };
        job.body.drop_receiver();
    }

    /// Takes the next item of this job, or returns why there is none. Returns `None` if there is no stream's job of this id.
    pub(crate) fn recv(
        &mut self,
        alloc: Global,
        id: JobId,
        failure: &Option<Failure>,
    ) -> Option<Option<Result<Blob, Error>>>
        ensures answer { ReceivesFrom failure.now self.old.list id result self.new.list }
        ensures last { self.new.last ≡ self.old.last }
        ensures newest { self.new.newest ≡ self.old.newest }
    {
        let Some(job) = self.jobs.get_mut(id) else {
            return None;
        };
        job.body.recv(alloc, failure)
    }
}
