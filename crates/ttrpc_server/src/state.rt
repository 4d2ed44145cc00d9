//! The state of a server core, without its connection, and its reactions to whole frames. A function without an `alloc` argument takes no
//! memory, except `deliver`, `make` and `make_job`.
ghost use Rattle.std.specs.Prelude.{◌≡◌, ◌≤◌, ◌+◌, ◌⊎◌, [], true, false, IfErr, IfOk, IfSome, IfNone, OnErr, OnOk, None, Some, ◌<◌, ◌^◌, ◌++◌, ℕ, option_to_list};
ghost use Rattle.ttrpc_proto.specs.Framing.Queue.{free};
ghost use Rattle.ttrpc_proto.specs.Messages.{empty_request, request_step};
ghost use Rattle.ttrpc_wire.specs.Fold.{read_from};
ghost use Rattle.ttrpc_server.specs.declared.job.ActiveJob.{ActiveJob as AJob};
ghost use Rattle.ttrpc_server.specs.declared.job.Body.{Body as ABody};
ghost use Rattle.ttrpc_server.specs.Protocol.{Does, ExpireAll, IsDeadline, due_jobs};
ghost use Rattle.ttrpc_server.specs.Kept.{AreSingle, AreUnary};
ghost use Rattle.ttrpc_server.specs.Inside.{FailsOn, FailsToMake, SendsSome, StopsExpiring};
ghost use Rattle.ttrpc_server.specs.State.{EndsOne, HandsOne, IsNoUnary, IsTaken, NoneWaits, Rising, is_stream, job_at, jobs_at, new_server, on_mail, put_in, stream_body, unary_body, with_job, with_list, with_made, with_newest, without_payload};
ghost use Rattle.ttrpc_server.specs.declared.rows.Case.{Case as ACase};
ghost use Rattle.ttrpc_server.specs.declared.rows.StreamIdState.{StreamIdState as AStreamIdState};
ghost use Rattle.ttrpc_connection.specs.declared.failure.Failure.{Failure as AFailure};
ghost use Rattle.ttrpc_server.specs.Table.{id_state_of, newest_after, request_row};
ghost use Rattle.ttrpc_server.specs.Mailboxes.{mail_at};
ghost use Rattle.ttrpc_server.specs.Streaming.{HasNoStreams, ReceivesBy, unreceivable, unsendable};
ghost use Rattle.ttrpc_connection.specs.Failure.{IsTold};
ghost use Rattle.ttrpc_connection.specs.Mail.{with_thing, without_receiver};
ghost use Rattle.std.specs.BTreeSet.{insert_key};
ghost use Rattle.ttrpc_proto.specs.declared.error.Error.{Error as AnError};
ghost use Rattle.std.specs.BTreeMap.{is_at};
ghost use Rattle.std.specs.Ordering.{nat_cmp};
ghost use Rattle.std.specs.Set.{remove_key};

use crate::expiry::{Expiry, StopReason, expire_job};
use crate::index::Index;
use crate::job::{Body, Job, JobId};
use crate::jobs::Jobs;
use crate::registry::Registry;
use crate::replies::{send_answer, send_own_answer};
use crate::responses::{other_rules_error, unknown_stream_error, unreadable_response};
use crate::rows::{
    Case, RequestKind, StreamIdState, case_of, case_response, request_kind_of,
    request_kind_response,
};
use crate::rules::Rules;
use std::alloc::{AllocError, Global};
use std::collections::BTreeSet;
use std::marker::Model;
use ttrpc_connection::deadlines::deadline_of;
use ttrpc_connection::mailbox::past_error;
use ttrpc_connection::thing::{closes, of_data, of_opening};
use ttrpc_connection::{Arrived, Failure, Mailbox, MailboxEntry, Outbox, Reacts};
use ttrpc_proto::{Error, MESSAGE_HEADER_LENGTH, MESSAGE_LENGTH_MAX, MessageHeader, Request};
use ttrpc_secure::OutboundTransform;
use ttrpc_wire::codec::in_place::decode_in_place;
use ttrpc_wire::{Blob, CodecError};

/// The jobs of a server, and the parts that decide which frames become jobs.
#[derive(Drop)]
pub struct ServerState {
    rules: Rules,
    registry: Registry,
    jobs: Jobs,
    // Under sync rules the index is empty.
    index: Index,
    // The streams' jobs for which something came, and that weren't reported since.
    heard: BTreeSet<JobId>,
    // Under async rules this has room for each job.
    expiry: Expiry,
    draining: bool,
}

impl Model for ServerState {
    ghost use Rattle.ttrpc_server.specs.Kept.{HasRoom, IsKept};
    ghost use Rattle.ttrpc_server.specs.State.{Server};

    ghost Value = { Server };

    ghost view = { λ a.
        record { rules = a.rules; services = a.registry; jobs = a.jobs; heard = a.heard.keys; expired = a.expiry.expired; draining = a.draining } };

    ghost invariant = { λ a. IsKept a.rules a.jobs.list a.index
        × HasRoom a.rules a.jobs.list a.expiry };
}

impl ServerState {
    /// States the properties of every server's jobs. A lemma, which does nothing when it runs.
    pub(crate) fn lemma_is_server(&self)
        ensures single { self.now.rules ≡ Rules.Async → AreSingle self.now.jobs.list }
        ensures unary { self.now.rules ≡ Rules.Sync → AreUnary self.now.jobs.list }
        ensures rise { Rising 0 self.now.jobs.list self.now.jobs.last }
    {
        self.jobs.lemma_rise();
    }

    /// Returns a state without jobs. Takes no memory.
    pub(crate) fn new(alloc: Global, rules: Rules, registry: Registry) -> Self
        ensures { result ≡ new_server rules registry }
    {
        ServerState {
            rules,
            registry,
            jobs: Jobs::new(alloc),
            index: Index::new(alloc),
            heard: BTreeSet::new(alloc),
            expiry: Expiry::new(alloc),
            draining: false,
        }
    }

    /// Returns the rules that the server follows.
    pub(crate) fn rules(&self) -> Rules
        ensures { result ≡ self.now.rules }
    {
        self.rules
    }

    /// Stops taking input.
    pub(crate) fn drain(&mut self)
        ensures { self.new ≡ record self.old { draining = true } }
    {
        self.draining = true;
    }

    /// Returns the jobs that weren't answered.
    pub(crate) fn jobs(&self) -> &Jobs
        ensures { result.now ≡ self.now.jobs }
    {
        &self.jobs
    }

    /// Hands out the first job that waits, if there is one.
    pub(crate) fn hand_out(&mut self) -> Option<Job>
        ensures given { IfSome result (λ job. HandsOne self.old.jobs.list job self.new.jobs.list) }
        ensures none { IfNone result ((self.new ≡ self.old) × NoneWaits self.old.jobs.list) }
        ensures same { self.new ≡ with_list self.old self.new.jobs.list }
    {
        self.jobs.hand_out()
    }

    /// Forgets the job of this id, which was taken.
    pub(crate) fn end(&mut self, id: JobId)
        requires { (job : AJob) × IsTaken self.old.jobs.list id job }
        ensures ended { (job : AJob) → IsTaken self.old.jobs.list id job
            → EndsOne self.old.jobs.list id job self.new.jobs.list }
        ensures same { self.new ≡ with_list self.old self.new.jobs.list }
    {
        let Some((stream_id, deadline)) = self.jobs.place_of(id) else {
            unreachable!();
        };
        self.jobs.end(id);
        self.index.take_away(stream_id, id, deadline);
    }

    /// Returns the stream id of the unary job of this id, if there is one and it was taken.
    pub(crate) fn unary_at(&self, id: JobId) -> Option<u32>
        ensures some { IfSome result (λ k. (job : AJob) × IsTaken self.now.jobs.list id job
            × (is_stream job.body ≡ false) × (k ≡ job.header.stream_id)) }
        ensures none { IfNone result (IsNoUnary self.now.rules self.now.jobs.list id) }
    {
        match self.jobs.taken_at(id) {
            Some((stream_id, false)) => Some(stream_id),
            _ => None,
        }
    }

    /// Returns the state of a stream id for a frame under it, as async rules need it.
    fn id_state(&self, stream_id: u32) -> StreamIdState
        ensures { self.now.rules ≡ Rules.Async
            → result ≡ id_state_of (jobs_at self.now.jobs.list stream_id) }
    {
        let Some(id) = self.index.job_of(stream_id) else {
            return StreamIdState::Absent;
        };
        self.jobs.lemma_rise();
        self.jobs.id_state(id).unwrap_or(StreamIdState::Absent)
    }

    /// Reads a payload as a request, which is the newest one under async rules, and acts on it. An `Err` changes nothing.
    fn see<O: OutboundTransform + Drop>(
        &mut self,
        alloc: Global,
        outbox: &mut Outbox<O>,
        header: MessageHeader,
        plain: Blob,
        now: u64,
    ) -> Result<(), Failure>
        requires unused { self.old.rules ≡ Rules.Async
            → jobs_at self.old.jobs.list header.stream_id ≡ [] }
        requires room { MESSAGE_HEADER_LENGTH + MESSAGE_LENGTH_MAX ≤ free outbox.old.queue }
        ensures does { OnOk result (SendsSome O.OutboundTransform outbox.old
            (λ sent. Does O.OutboundTransform (request_row self.old.rules self.old.services
            (read_from request_step empty_request plain)) (with_newest self.old
            (newest_after self.old.rules header.stream_id (ACase.Asks plain) self.old.jobs.newest))
            outbox.old.half header now sent self.new) outbox.new) }
        ensures err { IfErr result (λ failure. (self.new ≡ self.old) × (outbox.new ≡ outbox.old)
            × FailsOn (request_row self.old.rules self.old.services
            (read_from request_step empty_request plain)) self.old failure) }
    {
        let newest = self.jobs.newest();
        if let Rules::Async = self.rules {
            self.jobs.note_newest(Some(header.stream_id));
        }
        let asked = self.ask(alloc, outbox, header, plain, now);
        if asked.is_err() {
            self.jobs.note_newest(newest);
        }
        asked
    }

    /// Reads a payload as a request, and acts on it. An `Err` changes nothing.
    fn ask<O: OutboundTransform + Drop>(
        &mut self,
        alloc: Global,
        outbox: &mut Outbox<O>,
        header: MessageHeader,
        plain: Blob,
        now: u64,
    ) -> Result<(), Failure>
        requires unused { self.old.rules ≡ Rules.Async
            → jobs_at self.old.jobs.list header.stream_id ≡ [] }
        requires room { MESSAGE_HEADER_LENGTH + MESSAGE_LENGTH_MAX ≤ free outbox.old.queue }
        ensures does { OnOk result (SendsSome O.OutboundTransform outbox.old
            (λ sent. Does O.OutboundTransform (request_row self.old.rules self.old.services
            (read_from request_step empty_request plain))
            self.old outbox.old.half header now sent self.new) outbox.new) }
        ensures err { IfErr result (λ failure. (self.new ≡ self.old) × (outbox.new ≡ outbox.old)
            × FailsOn (request_row self.old.rules self.old.services
            (read_from request_step empty_request plain)) self.old failure) }
    {
        let rules = self.rules;
        match decode_in_place(alloc, plain.into_vec()) {
            Ok(request) => self.begin(alloc, outbox, header, request, now),
            Err(CodecError::NoMemory) => Err(Failure::NoMemory),
            Err(error) => {
                let response = unreadable_response(alloc, &error)?;
                send_own_answer(alloc, outbox, rules, header.stream_id, &response)
            }
        }
    }

    /// Makes a job of a request, if there is a method or a stream of its name, or answers that there is none. An `Err` changes nothing.
    fn begin<O: OutboundTransform + Drop>(
        &mut self,
        alloc: Global,
        outbox: &mut Outbox<O>,
        header: MessageHeader,
        request: Request,
        now: u64,
    ) -> Result<(), Failure>
        requires unused { self.old.rules ≡ Rules.Async
            → jobs_at self.old.jobs.list header.stream_id ≡ [] }
        requires room { MESSAGE_HEADER_LENGTH + MESSAGE_LENGTH_MAX ≤ free outbox.old.queue }
        ensures does { OnOk result (SendsSome O.OutboundTransform outbox.old (λ sent.
            Does O.OutboundTransform (request_row self.old.rules self.old.services (Some request))
            self.old outbox.old.half header now sent self.new) outbox.new) }
        ensures err { IfErr result (λ failure. (self.new ≡ self.old) × (outbox.new ≡ outbox.old)
            × FailsOn (request_row self.old.rules self.old.services (Some request))
            self.old failure) }
    {
        match request_kind_of(self.rules, &self.registry, &request) {
            RequestKind::Call => {
                let body = unary_body(self.rules, now, &request);
                self.make(header, request, body)
            }
            RequestKind::Stream => self.open(alloc, header, request),
            asked => {
                let answer = request_kind_response(alloc, &request, asked)?;
                send_answer(alloc, outbox, self.rules, header.stream_id, &answer)
            }
        }
    }

    /// Makes a stream's job of a request. The request's payload is the first thing that came for the stream. An `Err` changes nothing.
    fn open(
        &mut self,
        alloc: Global,
        header: MessageHeader,
        request: Request,
    ) -> Result<(), Failure>
        requires none { self.old.rules ≡ Rules.Async
            → jobs_at self.old.jobs.list header.stream_id ≡ [] }
        requires rules { self.old.rules ≡ Rules.Async }
        ensures ok { OnOk result (self.new ≡ with_made self.old header (without_payload request)
            (stream_body self.old.services.bare_openings header.flags request.payload)) }
        ensures err { IfErr result
            (λ failure. (self.new ≡ self.old) × FailsToMake self.old.jobs failure) }
    {
        let Request {
            service,
            method,
            payload,
            timeout_nano,
            metadata,
        } = request;
        let first = of_opening(self.registry.has_bare_openings(), header.flags, payload);
        let mailbox = Mailbox::with_first(alloc, first, closes(header.flags))?;
        let request = Request {
            service,
            method,
            payload: Blob::new(alloc),
            timeout_nano,
            metadata,
        };
        self.make(header, request, Body::Stream(mailbox))
    }

    /// Puts data into the mailbox of the stream of their id. An `Err` changes nothing.
    fn put(&mut self, alloc: Global, header: &MessageHeader, plain: Blob) -> Result<(), Failure>
        requires rules { self.old.rules ≡ Rules.Async }
        requires takes { id_state_of
            (jobs_at self.old.jobs.list header.now.stream_id) ≡ AStreamIdState.Taking }
        ensures ok { OnOk result (self.new ≡ put_in self.old header.now plain) }
        ensures err { IfErr result
            (λ failure. (self.new ≡ self.old) × (failure ≡ AFailure.NoMemory)) }
    {
        let Some(id) = self.index.job_of(header.stream_id) else {
            unreachable!();
        };
        let thing = of_data(alloc, header.stream_id, header.flags, plain)?;
        self.jobs.lemma_rise();
        match self.deliver(id, thing, closes(header.flags)) {
            Ok(()) => Ok(()),
            Err(refused) => Err(refused.into()),
        }
    }

    /// Puts a thing into the mailbox of a stream's job, and lists the job as one for which something came. An `Err` changes nothing.
    fn deliver(&mut self, id: JobId, thing: MailboxEntry, ends: bool) -> Result<(), AllocError>
        ensures ok { OnOk result (self.new ≡ record self.old {
          jobs = record self.old.jobs { list = on_mail id (λ m. with_thing m thing ends) self.old.jobs.list };
          heard = insert_key nat_cmp self.old.heard id;
        }) }
        ensures err { OnErr result (self.new ≡ self.old) }
    {
        let is_new = self.heard.insert(id)?;
        let put = self.jobs.put(id, thing, ends);
        if put.is_err() && is_new {
            self.heard.remove(&id);
        }
        put
    }

    /// Makes a job of a request. If there was no other job, the expired jobs that weren't reported are forgotten. An `Err` changes nothing:
    /// no id is left, or memory was refused.
    fn make(&mut self, header: MessageHeader, request: Request, body: Body) -> Result<(), Failure>
        requires none { self.old.rules ≡ Rules.Async
            → jobs_at self.old.jobs.list header.stream_id ≡ [] }
        requires plain { self.old.rules ≡ Rules.Sync → body ≡ ABody.Unary None }
        ensures ok { OnOk result (self.new ≡ with_made self.old header request body) }
        ensures err { IfErr result
            (λ failure. (self.new ≡ self.old) × FailsToMake self.old.jobs failure) }
    {
        let was_idle = self.jobs.len() == 0;
        self.make_job(header, request, body)?;
        if was_idle {
            self.expiry.forget();
        }
        Ok(())
    }

    /// Makes a job, and room for it to expire. An `Err` changes nothing.
    fn make_job(
        &mut self,
        header: MessageHeader,
        request: Request,
        body: Body,
    ) -> Result<(), Failure>
        requires none { self.old.rules ≡ Rules.Async
            → jobs_at self.old.jobs.list header.stream_id ≡ [] }
        requires plain { self.old.rules ≡ Rules.Sync → body ≡ ABody.Unary None }
        ensures ok { OnOk result
            (self.new ≡ record self.old { jobs = with_job self.old.jobs header request body }) }
        ensures err { IfErr result
            (λ failure. (self.new ≡ self.old) × FailsToMake self.old.jobs failure) }
    {
        match self.rules {
            Rules::Sync => self.jobs.make(header, request, body),
            Rules::Async => {
                let deadline = body.deadline();
                let Some(id) = self.jobs.next_id() else {
                    return Err(Failure::JobIdsUsedUp);
                };
                if self.expiry.reserve(self.jobs.len() + 1).is_err() {
                    return Err(Failure::NoMemory);
                }
                if self.index.add(header.stream_id, id, deadline).is_err() {
                    return Err(Failure::NoMemory);
                }
                let made = self.jobs.make(header, request, body);
                if made.is_err() {
                    self.index.take_away(header.stream_id, id, deadline);
                }
                made
            }
        }
    }
}

/// The calls on streams.
impl ServerState {
    /// Returns the stream id of the job of this id, if items may be sent on its stream, or the error why not.
    pub(crate) fn sendable(&self, alloc: Global, id: JobId) -> Result<u32, Error>
        ensures ok { IfOk result (λ k. (self.now.rules ≡ Rules.Async)
            × ((job : AJob) × (job_at self.now.jobs.list id ≡ Some job)
            × (is_stream job.body ≡ true) × (k ≡ job.header.stream_id))) }
        ensures err { IfErr result (λ told. HasNoStreams self.now told
            ⊎ ((self.now.rules ≡ Rules.Async) × ((error : AnError)
            × (unsendable self.now.jobs id ≡ Some error) × IsTold error told))) }
    {
        self.check_streams(alloc)?;
        match self.jobs.stream_at(id) {
            Some((stream_id, true)) => Ok(stream_id),
            None if self.jobs.was_made(id) => Err(Error::LocalClosed),
            _ => Err(unknown_stream_error(alloc)),
        }
    }

    /// Takes the next item of the stream of a job, or returns why there is none.
    pub(crate) fn recv(
        &mut self,
        alloc: Global,
        id: JobId,
        failure: &Option<Failure>,
    ) -> Option<Result<Blob, Error>>
        ensures own { ReceivesBy self.old.rules failure.now self.old id result self.new.jobs.list }
        ensures same { self.new ≡ with_list self.old self.new.jobs.list }
    {
        if let Err(error) = self.check_streams(alloc) {
            return Some(Err(error));
        }
        match self.jobs.recv(alloc, id, failure) {
            Some(given) => given,
            None => Some(Err(self.no_stream_error(alloc, id))),
        }
    }

    /// Returns the error why nothing is received for a job without a stream.
    fn no_stream_error(&self, alloc: Global, id: JobId) -> Error
        requires { mail_at self.now.jobs.list id ≡ None }
        ensures { (error : AnError)
            × (unreceivable self.now.jobs id ≡ Some error) × IsTold error result }
    {
        match self.jobs.stream_at(id) {
            None if self.jobs.was_made(id) => past_error(alloc),
            _ => unknown_stream_error(alloc),
        }
    }

    /// Drops the receiver of the stream of a job.
    pub(crate) fn drop_receiver(&mut self, id: JobId)
        ensures { self.new ≡ record self.old {
          jobs = record self.old.jobs { list = on_mail id without_receiver self.old.jobs.list };
          heard = remove_key (is_at (nat_cmp id)) self.old.heard;
        } }
    {
        self.jobs.drop_receiver(id);
        self.heard.remove(&id);
    }

    /// Takes the first of the streams' jobs for which something came, and that weren't reported since.
    pub(crate) fn next_heard(&mut self) -> Option<JobId>
        ensures first { self.old.heard ≡ option_to_list result ++ self.new.heard }
        ensures none { IfNone result (self.old.heard ≡ []) }
        ensures same { self.new ≡ record self.old { heard = self.new.heard } }
    {
        self.heard.pop_first()
    }

    /// Forgets the stream's job of this id, which was taken.
    pub(crate) fn end_stream(&mut self, id: JobId)
        requires { (job : AJob) × IsTaken self.old.jobs.list id job }
        ensures ended { (job : AJob) → IsTaken self.old.jobs.list id job
            → EndsOne self.old.jobs.list id job self.new.jobs.list }
        ensures same { self.new ≡ record (with_list self.old
            self.new.jobs.list) { heard = remove_key (is_at (nat_cmp id)) self.old.heard } }
    {
        self.end(id);
        self.heard.remove(&id);
    }

    /// Returns `Ok` if the rules have streams, or else the error.
    pub(crate) fn check_streams(&self, alloc: Global) -> Result<(), Error>
        ensures ok { OnOk result (self.now.rules ≡ Rules.Async) }
        ensures err { IfErr result (HasNoStreams self.now) }
    {
        match self.rules {
            Rules::Sync => Err(other_rules_error(alloc)),
            Rules::Async => Ok(()),
        }
    }
}

/// The calls for jobs that expire.
impl ServerState {
    /// Expires the jobs that are due at this moment, by rising id. An `Err` is the reason why no more of them expire: there is no room for
    /// an answer, or memory for one was refused. The jobs before have expired.
    pub(crate) fn expire<O: OutboundTransform + Drop>(
        &mut self,
        alloc: Global,
        outbox: &mut Outbox<O>,
        now: u64,
    ) -> Result<(), StopReason>
        requires { self.old.rules ≡ Rules.Async }
        ensures ok { OnOk result (ExpireAll O.OutboundTransform self.old outbox.old
            (due_jobs now self.old.jobs.list) self.new outbox.new) }
        ensures err { IfErr result (λ stop. StopsExpiring O.OutboundTransform self.old outbox.old
            now stop self.new outbox.new) }
    {
        self.jobs.lemma_rise();
        let deadlines = self.index.deadlines();
        deadlines.lemma_ordered();
        self.expiry.list_due(deadlines, now);
        for place in 0..self.expiry.count_due() {
            let id = self.expiry.due_at(place);
            expire_job(
                alloc,
                outbox,
                &mut self.jobs,
                &mut self.index,
                &mut self.expiry,
                id,
            )?;
        }
        Ok(())
    }

    /// Returns the least moment at which a job expires, if there is one.
    pub(crate) fn next_deadline(&self) -> Option<u64>
        ensures some { IfSome result (IsDeadline self.now.jobs.list) }
        ensures none { IfNone result
            ((now : ℕ) → now < 2 ^ 64 → due_jobs now self.now.jobs.list ≡ []) }
    {
        let (deadline, _) = self.index.deadlines().first()?;
        u64::try_from(deadline).ok()
    }

    /// Takes the first of the jobs that were taken and expired, and weren't reported yet.
    pub(crate) fn next_expired(&mut self) -> Option<JobId>
        ensures first { self.old.expired ≡ option_to_list result ++ self.new.expired }
        ensures none { IfNone result (self.old.expired ≡ []) }
        ensures same { self.new ≡ record self.old { expired = self.new.expired } }
    {
        self.expiry.next_expired()
    }
}

impl<O: OutboundTransform + Drop> Reacts<O> for ServerState {
    ghost use Rattle.std.specs.Prelude.{◌+◌};
    ghost use Rattle.ttrpc_proto.specs.declared.framing.header.TheConstants.{MESSAGE_HEADER_LENGTH, MESSAGE_LENGTH_MAX};
    ghost use Rattle.ttrpc_server.specs.Protocol.{serves, stops_serving};
    ghost use Rattle.ttrpc_server.specs.State.{takes_on};

    ghost reacts = { serves O.OutboundTransform };

    ghost fails = { stops_serving };

    ghost takes = { takes_on };

    // The answer to a frame is at most as long as a message may be.
    const ROOM: usize = MESSAGE_HEADER_LENGTH + MESSAGE_LENGTH_MAX;

    ghost ROOM = { MESSAGE_HEADER_LENGTH + MESSAGE_LENGTH_MAX };

    fn takes(&self) -> bool {
        !self.draining
    }

    fn react(
        &mut self,
        alloc: Global,
        outbox: &mut Outbox<O>,
        arrived: Arrived,
    ) -> Result<(), Failure> {
        let header = arrived.header;
        let newest = self.jobs.newest();
        let id_state = self.id_state(header.stream_id);
        match case_of(self.rules, &header, arrived.opening, newest, id_state) {
            Case::Asks(plain) => self.see(alloc, outbox, header, plain, arrived.now),
            Case::PutsIn(plain) => self.put(alloc, &header, plain),
            case => {
                let answer = case_response(alloc, &header, &case)?;
                send_answer(alloc, outbox, self.rules, header.stream_id, &answer)
            }
        }
    }
}

/// Returns the body of a unary job that is made of this request at this moment.
fn unary_body(rules: Rules, now: u64, request: &Request) -> Body
    ensures { result ≡ unary_body rules now request.now }
{
    match rules {
        Rules::Sync => Body::Unary(None),
        Rules::Async => Body::Unary(deadline_of(now, request.timeout_nano)),
    }
}
