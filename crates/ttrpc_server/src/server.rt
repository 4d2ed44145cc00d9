//! The core of a server: frames go in, and jobs and responses come out. A call without an `alloc` argument takes no memory.
ghost use Rattle.std.specs.Prelude.{◌≡◌, ◌≢◌, ◌⊎◌, ◌<◌, ◌≤◌, ◌-◌, ◌^◌, ◌++◌, ◌↔◌, ℕ, List, [], filter, true, false, length, is_some, option_to_list, IfOk, IfErr, OnOk, OnErr, IfSome, IfNone, Ok, Err, Some, None};
ghost use Rattle.ttrpc_proto.specs.declared.error.Error.{Error as AnError};
ghost use Rattle.ttrpc_proto.specs.declared.messages.Response.{Response as AResponse};
ghost use Rattle.ttrpc_proto.specs.Framing.Frames.{Holds, nothing};
ghost use Rattle.ttrpc_proto.specs.Framing.Queue.{IsQueue, free, unsent};
ghost use Rattle.ttrpc_secure.specs.Hooks.Facts.{facts_of};
ghost use Rattle.ttrpc_connection.specs.Feeds.{IsFailed};
ghost use Rattle.ttrpc_connection.specs.OneEnd.{Ends, Lends, TakesFrontOrDrains, TakesOrDrains, failing, lendable, lending, reporting};
ghost use Rattle.ttrpc_server.specs.Kept.{AreSingle, AreUnary};
ghost use Rattle.ttrpc_server.specs.declared.job.ActiveJob.{ActiveJob as AJob};
ghost use Rattle.ttrpc_server.specs.Protocol.{Answers, AnswersError, Finishes, Hands, HasNoJob, HasOtherRules, HasUnsent, HasUnsentResponse, QueuesResponse, drained, new_core, serving, RefusesAnswer, RefusesFinish, RefusesResponse, IsDeadline, Passes, due_jobs, timeout_room};
ghost use Rattle.ttrpc_server.specs.State.{IsTaken, IsUnknown, NoneWaits, Rising, is_stream, waits};

use crate::expiry::{StopReason, has_room};
use crate::job::{Job, JobId};
use crate::registry::Registry;
use crate::replies::send_response;
use crate::responses::{error_response, other_rules_error, unknown_job_error};
use crate::rules::Rules;
use crate::state::ServerState;
use std::alloc::Global;
use std::io::ErrorKind;
use ttrpc_connection::{Connection, Failure};
use ttrpc_proto::{Error, Response};
use ttrpc_secure::{ConnectionContext, ConnectionData, InboundTransform, OutboundTransform};
use ttrpc_wire::codec::message::WireMessage;

/// The core of a server, over its connection's two halves.
pub struct ServerCore<O, I> {
    pub(crate) state: ServerState,
    pub(crate) connection: Connection<O, I>,
}

/// The method is written out, so that a crate above proves nothing about the parts that are dropped here.
impl<O: Drop, I: Drop> Drop for ServerCore<O, I> {
    fn drop(self) {
        let ServerCore {
            state: _,
            connection: _,
        } = self;
    }
}

impl<O: OutboundTransform + Drop, I: InboundTransform + Drop> ServerCore<O, I> {
    /// Returns a core without jobs, over a connection of this context. Returns `NoMemory` if the memory for the frames that are to wait was
    /// refused.
    pub fn new(
        alloc: Global,
        rules: Rules,
        registry: Registry,
        context: ConnectionContext<O, I>,
    ) -> Result<Self, Error>
        ensures ok { IfOk result (λ core. core ≡ new_core rules registry
            (facts_of context.connection_data.entries) context.outbound context.inbound) }
        ensures only_memory { IfErr result (λ e. e ≡ AnError.NoMemory) }
    {
        let connection = Connection::new(alloc, context)?;
        Ok(ServerCore {
            state: ServerState::new(alloc, rules, registry),
            connection,
        })
    }

    /// Returns the facts known about the connection, as its context had them.
    pub fn connection_data(&self) -> &ConnectionData
        ensures { facts_of result.now.entries ≡ self.now.connection.known }
    {
        self.connection.connection_data()
    }

    /// Returns the rules that the server follows.
    pub fn rules(&self) -> Rules
        ensures { result ≡ self.now.state.rules }
    {
        self.state.rules()
    }

    /// States that under async rules a stream id has at most one active job, and under sync rules no job is a stream's. Job ids rise, and
    /// the queue has the properties of every queue. A lemma, which has no effect when it runs.
    pub fn lemma_is_server(&self)
        ensures single { self.now.state.rules ≡ Rules.Async → AreSingle self.now.state.jobs.list }
        ensures unary { self.now.state.rules ≡ Rules.Sync → AreUnary self.now.state.jobs.list }
        ensures rise { Rising 0 self.now.state.jobs.list self.now.state.jobs.last }
        ensures queue { IsQueue self.now.connection.outbox.queue }
    {
        self.state.lemma_is_server();
        self.connection.outbox.lemma_is_queue();
    }

    /// Takes a piece of input, and returns the number of bytes taken. The core takes all bytes, or those up to the end of a frame after
    /// which fewer than 4194314 bytes are free in the queue. While fewer are free, or after `drain`, it takes none and changes nothing.
    /// Each frame that is whole with the piece acts, in order. The connection fails if memory for a frame is refused or job ids are used
    /// up. Then and from then on the call returns that failure. Under sync rules the moment `now`, in nanoseconds, has no effect.
    pub fn feed(&mut self, alloc: Global, piece: &[u8], now: u64) -> Result<usize, Error>
        ensures { TakesOrDrains (serving O.OutboundTransform I.InboundTransform) self.old.state
            self.old.connection piece.now now result self.new.state self.new.connection }
    {
        self.connection.feed(alloc, &mut self.state, piece, now)
    }

    /// Takes the first bytes of the piece, and returns how many. The number is at least 1 if the piece isn't empty, and no byte after the
    /// end of the first whole frame is taken. The frame acts. Otherwise the call does the same as `feed`.
    pub fn feed_front(&mut self, alloc: Global, piece: &[u8], now: u64) -> Result<usize, Error>
        ensures { TakesFrontOrDrains (serving O.OutboundTransform I.InboundTransform) self.old.state
            self.old.connection piece.now now result self.new.state self.new.connection }
    {
        self.connection
            .feed_front(alloc, &mut self.state, piece, now)
    }

    /// Returns whether the input so far ends with a whole frame, or is empty.
    pub fn at_boundary(&self) -> bool
        ensures nothing { (result ≡ true) ↔ (self.now.connection.decoder ≡ nothing) }
        ensures held { (rest : List ℕ) × Holds self.now.connection.decoder rest }
    {
        self.connection.at_boundary()
    }

    /// Hands out the waiting job with the least id, or none if none waits or the connection has failed.
    pub fn take_job(&mut self) -> Option<Job>
        ensures handed { IfSome result (λ job. Hands self.old job self.new) }
        ensures none { IfNone result ((self.new ≡ self.old)
            × (self.old.connection.failure ≡ None → NoneWaits self.old.state.jobs.list)) }
    {
        if self.connection.has_failed() {
            return None;
        }
        self.state.hand_out()
    }

    /// Answers a unary job that was taken: its response is queued, and the job ends. If the response is too long, a status that states this
    /// is queued instead. A handler's error ends the job, too. Under sync rules it fails the connection, and under async rules a status
    /// with its text is queued. A refusal changes nothing, and the caller still has the response.
    pub fn answer(
        &mut self,
        alloc: Global,
        id: JobId,
        response: &Result<Response, Error>,
    ) -> Result<(), Error>
        ensures answered { (r : AResponse) → response.now ≡ Ok r
            → OnOk result (Answers O.OutboundTransform self.old id r self.new) }
        ensures handler_failed { (e : AnError) → response.now ≡ Err e
            → OnOk result
            (AnswersError O.OutboundTransform self.old.state.rules self.old id e self.new) }
        ensures refused { IfErr result
            (RefusesAnswer O.OutboundTransform self.old id response.now) }
        ensures err { OnErr result (self.new ≡ self.old) }
    {
        let stream_id = self.active(alloc, id)?;
        match response {
            Ok(response) => self.answer_with(alloc, id, stream_id, response),
            Err(error) => self.answer_error(alloc, id, stream_id, error),
        }
    }

    /// Queues a response under a stream id, and ends no job, which `finish` does. Only sync rules have this call. If the response is too
    /// long, a status that states this is queued instead. A refusal changes nothing, and the caller still has the response.
    pub fn respond(
        &mut self,
        alloc: Global,
        stream_id: u32,
        response: &Response,
    ) -> Result<(), Error>
        ensures queued { OnOk result
            (QueuesResponse O.OutboundTransform self.old stream_id response.now self.new) }
        ensures rules { OnOk result (self.old.state.rules ≡ Rules.Sync) }
        ensures refused { IfErr result
            (RefusesResponse O.OutboundTransform self.old stream_id response.now) }
        ensures err { OnErr result (self.new ≡ self.old) }
    {
        self.check_rules(alloc)?;
        self.queue(alloc, stream_id, response)
    }

    /// Ends a unary job that was taken, and queues nothing. Only sync rules have this call. The call is refused only under async rules, for
    /// a job that wasn't taken or has ended, or after the connection has failed. Only the text of a refusal takes memory. A refusal changes
    /// nothing.
    pub fn finish(&mut self, alloc: Global, id: JobId) -> Result<(), Error>
        ensures finished { OnOk result (Finishes self.old id self.new) }
        ensures rules { OnOk result (self.old.state.rules ≡ Rules.Sync) }
        ensures refused { IfErr result (RefusesFinish self.old id) }
        ensures err { OnErr result (self.new ≡ self.old) }
    {
        self.check_rules(alloc)?;
        self.active(alloc, id)?;
        self.state.end(id);
        Ok(())
    }

    /// Reports that this moment, in nanoseconds, has come. The unary jobs with a deadline at or before it expire, by rising id, whether
    /// they were taken or not. Each such job ends, and is answered by a status that states this. The status is left out if it is above the
    /// limit, or if the outbound half refuses it. If the queue lacks room for an answer, that job and the later ones don't expire. If
    /// memory for an answer is refused the connection fails, and only the jobs before have expired. Under sync rules jobs have no
    /// deadlines.
    pub fn tick(&mut self, alloc: Global, now: u64)
        ensures { Passes O.OutboundTransform self.old.state.rules
            self.old.connection.failure self.old now self.new }
    {
        if !self.may_expire() {
            return;
        }
        match self.state.expire(alloc, &mut self.connection.outbox, now) {
            Ok(()) | Err(StopReason::NoRoom) => {}
            Err(StopReason::NoMemory) => self.connection.fail(Failure::NoMemory),
        }
    }

    /// Returns the least moment at which `tick` would expire a job, or none if it never would. The answer is none, too, while the queue
    /// lacks room for the answer to an expired job.
    pub fn next_deadline(&self) -> Option<u64>
        ensures some { IfSome result
            (λ at. (self.now.connection.failure ≡ None) × (self.now.state.rules ≡ Rules.Async)
            × (timeout_room O.OutboundTransform self.now.connection.outbox.half
            ≤ free self.now.connection.outbox.queue) × IsDeadline self.now.state.jobs.list at) }
        ensures none { IfNone result (self.now.connection.failure ≡ None
            → self.now.state.rules ≡ Rules.Async
            → timeout_room O.OutboundTransform self.now.connection.outbox.half
            ≤ free self.now.connection.outbox.queue
            → (now : ℕ) → now < 2 ^ 64 → due_jobs now self.now.state.jobs.list ≡ []) }
    {
        if !self.may_expire() || !has_room(&self.connection.outbox) {
            return None;
        }
        self.state.next_deadline()
    }

    /// Takes the first of the jobs that were taken and expired, and weren't reported by this call yet. The job's handler may be dropped.
    /// The id of each such job is kept until this call returns it, or until a job is made while there is no other. So a caller asks after
    /// each tick. If it never asks while there is always a job, ever more ids are kept.
    pub fn next_expired(&mut self) -> Option<JobId>
        ensures first { self.old.state.expired ≡ option_to_list result ++ self.new.state.expired }
        ensures none { IfNone result (self.old.state.expired ≡ []) }
        ensures same { self.new ≡
            record self.old { state = record self.old.state { expired = self.new.state.expired } } }
    {
        self.state.next_expired()
    }

    /// Returns the stream id of the job of this id, if the job was taken and hasn't ended.
    pub fn stream_of(&self, id: JobId) -> Option<u32>
        ensures some { IfSome result (λ k. (job : AJob) × IsTaken self.now.state.jobs.list id job
            × (k ≡ job.header.stream_id)) }
        ensures none { IfNone result (IsUnknown self.now.state.jobs.list id) }
    {
        let (stream_id, _) = self.state.jobs().taken_at(id)?;
        Some(stream_id)
    }

    /// Returns how many jobs wait to be handed out.
    pub fn jobs_waiting(&self) -> u64
        ensures count { result ≡ length (filter waits self.now.state.jobs.list) }
        ensures rise { Rising 0 self.now.state.jobs.list self.now.state.jobs.last }
    {
        self.state.jobs().waiting()
    }

    /// Returns how many jobs were taken and not answered yet.
    pub fn jobs_taken(&self) -> u64
        ensures { result
            ≡ length self.now.state.jobs.list - length (filter waits self.now.state.jobs.list) }
    {
        self.state.jobs().taken()
    }

    /// Stops taking input: from now on `feed` and `feed_front` return 0, or the failure. Jobs are handed out and answered as before.
    pub fn drain(&mut self)
        ensures { self.new ≡ drained self.old }
    {
        self.state.drain();
    }

    /// Reports that the input ended. The connection fails, if it hasn't failed.
    pub fn end_of_input(&mut self)
        ensures ends { Ends self.old.connection self.new.connection }
        ensures same { self.new ≡ record self.old { connection = self.new.connection } }
    {
        self.connection.end_of_input();
    }

    /// Fails the connection with this error, if it hasn't failed.
    pub fn fail(&mut self, error: Error)
        ensures { self.new
            ≡ record self.old { connection = failing self.old.connection (Failure.Told error) } }
    {
        self.connection.fail(Failure::Told(error));
    }

    /// Fails the connection, if it hasn't failed, because its reader or writer broke with an error of this kind. The failure is reported as
    /// `Socket` with the text of the kind, which is made when it is reported.
    pub fn broke(&mut self, kind: ErrorKind)
        ensures { self.new
            ≡ record self.old { connection = failing self.old.connection (Failure.Broke kind) } }
    {
        self.connection.fail(Failure::Broke(kind));
    }

    /// Returns whether the connection has failed.
    pub fn has_failed(&self) -> bool
        ensures { result ≡ is_some self.now.connection.failure }
    {
        self.connection.has_failed()
    }

    /// Returns the error of the failure, if the connection has failed, or `NoMemory` if memory for its text was refused.
    pub fn failure(&self, alloc: Global) -> Option<Error>
        ensures none { IfNone result (self.now.connection.failure ≡ None) }
        ensures told { IfSome result (IsFailed self.now.connection.failure) }
    {
        self.connection.failure(alloc)
    }

    /// Copies the first bytes of the rest of the first unfinished frame, as many as fit, and returns how many. Returns 0 only if none fit,
    /// nothing is left to be written, or the connection has failed.
    pub fn lend(&mut self, buffer: &mut [u8]) -> usize
        ensures lends { Lends self.old.connection buffer.old result buffer.new }
        ensures lent { self.new
            ≡ record self.old { connection = lending self.old.connection result } }
    {
        self.connection.lend(buffer)
    }

    /// Reports this many of the lent bytes as written.
    pub fn wrote(&mut self, n: usize)
        requires { n ≤ self.old.connection.outbox.queue.lent }
        ensures { self.new ≡ record self.old { connection = reporting self.old.connection n } }
    {
        self.connection.wrote(n)
    }

    /// Returns how many bytes a `lend` copies if all fit.
    pub fn lendable(&self) -> usize
        ensures { result ≡ lendable self.now.connection }
    {
        self.connection.lendable()
    }

    /// Returns whether anything is left to be written. After a failure the rest is never lent.
    pub fn has_unsent(&self) -> bool
        ensures { (result ≡ true) ↔ (unsent self.now.connection.outbox.queue ≢ []) }
    {
        self.connection.has_unsent()
    }

    /// Returns how many bytes the last `lend` since the last report gave.
    pub fn lent(&self) -> usize
        ensures { result ≡ self.now.connection.outbox.queue.lent }
    {
        self.connection.lent()
    }

    /// Returns whether jobs may expire: the connection hasn't failed, and the rules have deadlines.
    fn may_expire(&self) -> bool
        ensures { (result ≡ true)
            ↔ ((self.now.connection.failure ≡ None) × (self.now.state.rules ≡ Rules.Async)) }
    {
        !self.connection.has_failed() && self.state.rules() == Rules::Async
    }

    /// Returns the stream id of a unary job that was taken, or the error why there is none.
    fn active(&self, alloc: Global, id: JobId) -> Result<u32, Error>
        ensures ok { IfOk result (λ k. (self.now.connection.failure ≡ None)
            × ((job : AJob) × IsTaken self.now.state.jobs.list id job × (is_stream job.body ≡ false)
            × (k ≡ job.header.stream_id))) }
        ensures err { IfErr result
            (λ told. IsFailed self.now.connection.failure told ⊎ HasNoJob self.now id told) }
    {
        self.connection.check_alive(alloc)?;
        match self.state.unary_at(id) {
            Some(stream_id) => Ok(stream_id),
            None => Err(unknown_job_error(alloc)),
        }
    }

    /// Returns `Ok` if the rules are sync and the connection hasn't failed, or else the error.
    fn check_rules(&self, alloc: Global) -> Result<(), Error>
        ensures ok { OnOk result
            ((self.now.connection.failure ≡ None) × (self.now.state.rules ≡ Rules.Sync)) }
        ensures err { IfErr result
            (λ told. IsFailed self.now.connection.failure told ⊎ HasOtherRules self.now told) }
    {
        self.connection.check_alive(alloc)?;
        match self.state.rules() {
            Rules::Sync => Ok(()),
            Rules::Async => Err(other_rules_error(alloc)),
        }
    }

    /// Queues a response under a stream id. An `Err` changes nothing.
    fn queue(&mut self, alloc: Global, stream_id: u32, response: &Response) -> Result<(), Error>
        ensures queued { OnOk result
            (QueuesResponse O.OutboundTransform self.old stream_id response.now self.new) }
        ensures refused { IfErr result (λ told. IsFailed self.old.connection.failure told
            ⊎ HasUnsentResponse O.OutboundTransform self.old stream_id response.now told) }
        ensures err { OnErr result (self.new ≡ self.old) }
    {
        let rules = self.state.rules();
        let connection = &mut self.connection;
        connection.check_alive(alloc)?;
        match send_response(alloc, &mut connection.outbox, rules, stream_id, response) {
            Ok(()) => Ok(()),
            Err(unsent) => Err(unsent.error(alloc, rules, connection.outbox.limit())),
        }
    }

    /// Queues the response to a job that was taken, and ends the job. An `Err` changes nothing.
    fn answer_with(
        &mut self,
        alloc: Global,
        id: JobId,
        stream_id: u32,
        response: &Response,
    ) -> Result<(), Error>
        requires { (job : AJob) × IsTaken self.old.state.jobs.list id job
            × (is_stream job.body ≡ false) × (stream_id ≡ job.header.stream_id) }
        ensures answered { OnOk result
            (Answers O.OutboundTransform self.old id response.now self.new) }
        ensures refused { IfErr result (λ told. IsFailed self.old.connection.failure told
            ⊎ HasUnsent O.OutboundTransform self.old id (Ok response.now) told) }
        ensures err { OnErr result (self.new ≡ self.old) }
    {
        self.queue(alloc, stream_id, response)?;
        self.state.end(id);
        Ok(())
    }

    /// Ends a job that was taken with its handler's error. An `Err` changes nothing.
    fn answer_error(
        &mut self,
        alloc: Global,
        id: JobId,
        stream_id: u32,
        error: &Error,
    ) -> Result<(), Error>
        // The connection hasn't failed. The job is unary, was taken and has this stream id.
        requires alive { self.old.connection.failure ≡ None }
        requires taken { (job : AJob) × IsTaken self.old.state.jobs.list id job
            × (is_stream job.body ≡ false) × (stream_id ≡ job.header.stream_id) }
        // At an `Ok` the handler's error was answered.
        ensures answered { OnOk result
            (AnswersError O.OutboundTransform self.old.state.rules self.old id error.now self.new) }
        // An error reports that the connection has failed or that the answer can't be sent, and changes nothing.
        ensures refused { IfErr result (λ told. IsFailed self.old.connection.failure told
            ⊎ HasUnsent O.OutboundTransform self.old id (Err error.now) told) }
        ensures err { OnErr result (self.new ≡ self.old) }
    {
        match self.state.rules() {
            Rules::Sync => {
                self.state.end(id);
                self.connection.fail(Failure::HandlerError);
                Ok(())
            }
            Rules::Async => {
                let response = error_response(alloc, error)?;
                response.lemma_is_value();
                self.answer_with(alloc, id, stream_id, &response)
            }
        }
    }
}
