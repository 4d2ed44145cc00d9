//! The future of a server's connection.
ghost use Rattle.std.specs.Prelude.{◌≡◌, ◌≢◌, ◌<◌, ◌⊎◌, [], true, false, IfErr, IfOk, IfSome, None};
ghost use Rattle.std.specs.Arc.{arc_value};
ghost use Rattle.futures.specs.Queued.{set_len};
ghost use Rattle.futures.specs.Task.{Covers, Hears, Keeps};
ghost use Rattle.ttrpc_proto.specs.declared.error.Error.{Error as AnError};
ghost use Rattle.ttrpc_polled_server.specs.Handling.{HandledCanPoll};
ghost use Rattle.ttrpc_polled.specs.Needs.{LinkNeeds};
ghost use Rattle.ttrpc_polled_server.specs.Needs.{CanPoll, ConnectionNeeds, EndNeeds, HasAsked, IsSameBeside, asked_source};

use crate::answer_batch::AnswerBatch;
use crate::ended::Ended;
use crate::handler::{MethodHandler, StreamHandler, TtrpcContext};
use crate::input_end::InputEnd;
use crate::running::{Finishing, Handled, Running};
use crate::services::Services;
use crate::shared::ServerShared;
use crate::stop::ConnectionSlot;
use futures::spin::lock;
use futures::stream::FuturesUnordered;
use futures::task::{Context, Poll};
use futures::{Future, Stream};
use std::alloc::Global;
use std::sync::Arc;
use std::time::{Clock, Duration};
use tokio::io::{AsyncRead, AsyncWrite};
use ttrpc_polled::{Alarm, ConnectionDriver, Share, Step, StreamInner, Timed, moment};
use ttrpc_proto::{Error, MessageHeader, Request, Result};
use ttrpc_secure::{ConnectionData, InboundTransform, OutboundTransform};
use ttrpc_server::{Job, JobId};

/// The most turns of one poll, before it lets other tasks run.
const TURNS: u8 = 64;

/// The future of a server's connection. While it is polled, requests are read, their handlers run, and their answers are written.
/// It is ready when the connection is over. After the connection has failed, or the server disconnects, it waits a limited time for
/// the handlers that still run.
///
/// A poll first looks whether the server disconnects, whether a time limit has passed, and whether a job has expired. It ends after
/// one piece of at most 64 KiB, after 16 jobs that it began or ended, or after some 100 microseconds, whichever comes first, and lets
/// other tasks run. The first 4 ready answers leave together, then the next 8, and from then on 16 at a time; the answers that are
/// ready when a poll ends leave at its end.
pub struct ServerConnection<
    R: Timed,
    M: MethodHandler,
    T: StreamHandler<ServerShared<O, I>>,
    S: AsyncRead,
    W: AsyncWrite,
    O: OutboundTransform + Drop,
    I: InboundTransform + Drop,
> {
    rt: R,
    link: ConnectionDriver<R, S, W, ServerShared<O, I>>,
    shared: Arc<ServerShared<O, I>, Global>,
    services: Arc<Services<M, T>, Global>,
    connection_data: Arc<ConnectionData, Global>,
    connection_slot: ConnectionSlot,
    jobs: FuturesUnordered<Finishing<M::Call, T::Call, O, I>>,
    // The end of a job that couldn't begin, while there is no room to report it.
    untold: Option<(JobId, Ended)>,
    answer_batch: AnswerBatch,
    is_over: bool,
    is_ending: bool,
    is_leaving: bool,
    grace: Alarm,
    limit: Duration,
    half_close: Option<Duration>,
    input_end: Arc<InputEnd, Global>,
}

/// The parts of a connection beside its two ends.
#[derive(Drop)]
pub(crate) struct ConnectionParts<M: Drop, T: Drop, O, I> {
    pub(crate) shared: Arc<ServerShared<O, I>, Global>,
    pub(crate) services: Arc<Services<M, T>, Global>,
    pub(crate) connection_data: Arc<ConnectionData, Global>,
    pub(crate) connection_slot: ConnectionSlot,
    pub(crate) grace: Alarm,
    pub(crate) limit: Duration,
    pub(crate) half_close: Option<Duration>,
    pub(crate) input_end: Arc<InputEnd, Global>,
}

impl<R, M, T, S, W, O, I> ServerConnection<R, M, T, S, W, O, I>
where
    R: Timed,
    O: OutboundTransform + Drop,
    I: InboundTransform + Drop,
    M: MethodHandler,
    T: StreamHandler<ServerShared<O, I>>,
    S: AsyncRead,
    W: AsyncWrite,
{
    /// Makes the future over this link, of these parts. No handler runs yet.
    pub(crate) fn new(
        rt: R,
        link: ConnectionDriver<R, S, W, ServerShared<O, I>>,
        parts: ConnectionParts<M, T, O, I>,
    ) -> Result<Self>
        ensures can { IfOk result (CanPoll M.Call.Future.can_poll T.Call.Future.can_poll) }
        ensures made { IfOk result (λ c. (c.link ≡ link) × (c.shared ≡ parts.shared)
            × (c.services ≡ parts.services) × (c.connection_data ≡ parts.connection_data)
            × (c.connection_slot ≡ parts.connection_slot) × (c.limit ≡ parts.limit) × (c.half_close ≡ parts.half_close)
            × (c.is_over ≡ false) × (c.is_ending ≡ false) × (c.is_leaving ≡ false)) }
        ensures err { IfErr result (λ e. e ≡ AnError.NoMemory) }
    {
        let ConnectionParts {
            shared,
            services,
            connection_data,
            connection_slot,
            grace,
            limit,
            half_close,
            input_end,
        } = parts;
        Ok(ServerConnection {
            jobs: FuturesUnordered::new(rt.alloc())?,
            untold: None,
            rt,
            link,
            shared,
            services,
            connection_data,
            connection_slot,
            answer_batch: AnswerBatch::new(),
            is_over: false,
            is_ending: false,
            is_leaving: false,
            grace,
            limit,
            half_close,
            input_end,
        })
    }

    /// Begins a poll: looks whether the connection is to end and whether a time limit has passed, and reports the moment to the core.
    /// Returns `None` if the time for the connection's end has passed.
    fn look(&mut self, cx: &mut Context<'_>) -> Option<Share>
        ensures asked { HasAsked self.new cx.new }
        ensures due { IfSome result (λ share. self.new.is_ending ≡ true → self.old.is_ending ≡ true
            → IfSome self.new.grace.set_for (λ at. share.moment < at)) }
        ensures jobs { self.new.jobs ≡ self.old.jobs }
        ensures kept { Keeps cx.old cx.new }
    {
        let share = self.link.look();
        let is_due = self.grace.is_due(share.now());
        if self.is_ending {
            return if is_due { None } else { Some(share) };
        }
        if self.is_to_end(cx) {
            self.begin_end();
        } else if is_due {
            self.let_calls_go();
        }
        Some(share)
    }

    /// Returns whether the connection is to end: its link is over, or the server disconnects. If not, the task is woken when the server
    /// does.
    fn is_to_end(&mut self, cx: &mut Context<'_>) -> bool
        ensures asked { result ≡ false
            → Covers cx.new (λ s. s ≡ (arc_value self.new.connection_slot.stop).told.id) }
        ensures rest { (self.new ≡ record self.old { connection_slot = self.new.connection_slot })
            × (self.new.connection_slot.stop ≡ self.old.connection_slot.stop) }
        ensures kept { Keeps cx.old cx.new }
    {
        if self.is_over {
            return true;
        }
        self.connection_slot.is_told(cx)
    }

    /// Begins or ends a job; if there is none, moves bytes and looks whether the connection may end.
    fn turn(&mut self, share: &mut Share, cx: &mut Context<'_>) -> Step
        // The handlers may be polled. The poll has asked to be woken when the connection is to end, unless it ends already.
        requires can { CanPoll M.Call.Future.can_poll T.Call.Future.can_poll self.old }
        requires asked { HasAsked self.old cx.old }
        // Both hold again.
        ensures can { CanPoll M.Call.Future.can_poll T.Call.Future.can_poll self.new }
        ensures asked { HasAsked self.new cx.new }
        // After `Waits` the poll has registered with all that the connection waits for. Earlier registrations are kept.
        ensures waits { result ≡ Step.Waits
            → Covers cx.new (ConnectionNeeds S.AsyncRead.needs W.AsyncWrite.needs self.new) }
        ensures kept { Keeps cx.old cx.new }
    {
        if self.works(cx) {
            share.worked(&self.rt);
            if self.answer_batch.leaves() {
                self.flush(share, cx);
            }
            return Step::Moved;
        }
        self.answer_batch = AnswerBatch::new();
        match self.poll_link(share, cx) {
            Step::Waits => self.poll_end(cx),
            step => step,
        }
    }

    /// Polls the running handlers, or begins a waiting job. Returns whether a handler has ended or a job was begun.
    fn works(&mut self, cx: &mut Context<'_>) -> bool
        // The handlers may be polled, before and after.
        requires { CanPoll M.Call.Future.can_poll T.Call.Future.can_poll self.old }
        ensures can { CanPoll M.Call.Future.can_poll T.Call.Future.can_poll self.new }
        // At false the poll has registered with the handlers, if some run.
        ensures waits { result ≡ false → 0 < set_len self.new.jobs
            → Hears cx.new self.new.jobs.tasks.source.id }
        // Only the handlers, the pace and the end that isn't reported yet changed. Earlier registrations are kept.
        ensures rest { IsSameBeside self.old self.new }
        ensures kept { Keeps cx.old cx.new }
    {
        if self.handles(cx) {
            return true;
        }
        if !self.tells_untold() {
            return false;
        }
        let Some(job) = self.next_job() else {
            return false;
        };
        self.begin(job, cx);
        true
    }

    /// Polls the running handlers. Returns whether one has ended.
    fn handles(&mut self, cx: &mut Context<'_>) -> bool
        // The handlers may be polled, before and after.
        requires { CanPoll M.Call.Future.can_poll T.Call.Future.can_poll self.old }
        ensures can { CanPoll M.Call.Future.can_poll T.Call.Future.can_poll self.new }
        // At false the poll has registered with the handlers, if some run.
        ensures waits { result ≡ false → 0 < set_len self.new.jobs
            → Hears cx.new self.new.jobs.tasks.source.id }
        // Only the handlers, the pace and the end that isn't reported yet changed. Earlier registrations are kept.
        ensures rest { IsSameBeside self.old self.new }
        ensures kept { Keeps cx.old cx.new }
    {
        if self.jobs.is_empty() {
            return false;
        }
        let Poll::Ready(given) = self.jobs.poll_next(cx) else {
            return false;
        };
        if given.is_some() {
            self.answer_batch.one_more();
        }
        true
    }

    /// Reports to the core how a job ended that couldn't begin, if there is such a job. Returns whether none is left.
    fn tells_untold(&mut self) -> bool
        ensures rest { self.new ≡ record self.old { untold = self.new.untold } }
    {
        let Some(untold) = &self.untold else {
            return true;
        };
        let is_told = self.tells(untold.0, &untold.1);
        if is_told {
            self.untold = None;
        }
        is_told
    }

    /// Ends a poll: lets the ready answers leave.
    fn end_poll(&mut self, share: &mut Share, cx: &mut Context<'_>)
        ensures jobs { self.new.jobs ≡ self.old.jobs }
        ensures kept { Keeps cx.old cx.new }
    {
        if self.answer_batch.ends() {
            self.flush(share, cx);
        }
    }

    /// Lets ready answers leave, unless the link is over.
    fn flush(&mut self, share: &mut Share, cx: &mut Context<'_>)
        ensures rest { (self.new.jobs ≡ self.old.jobs) × (self.new.connection_slot ≡ self.old.connection_slot)
            × (self.new.grace ≡ self.old.grace) × (self.new.is_ending ≡ self.old.is_ending) }
        ensures kept { Keeps cx.old cx.new }
    {
        if !self.is_over && self.link.flush(share, cx) {
            self.is_over = true;
        }
    }

    /// Moves bytes, unless the link is over. If the link is over, the result is `Waits`, too.
    fn poll_link(&mut self, share: &mut Share, cx: &mut Context<'_>) -> Step
        ensures waits { result ≡ Step.Waits → (self.new.is_over ≡ true) ⊎ Covers cx.new
            (LinkNeeds S.AsyncRead.needs W.AsyncWrite.needs asked_source self.new.link) }
        ensures rest { (self.new.jobs ≡ self.old.jobs) × (self.new.connection_slot ≡ self.old.connection_slot)
            × (self.new.grace ≡ self.old.grace) × (self.new.is_ending ≡ self.old.is_ending) }
        ensures kept { Keeps cx.old cx.new }
    {
        if self.is_over {
            return Step::Waits;
        }
        match self.link.turn(share, cx) {
            Step::Waits => Step::Waits,
            Step::Moved | Step::Gathered => Step::Moved,
            Step::Over => {
                self.is_over = true;
                Step::Moved
            }
        }
    }

    /// Returns the next job that waits.
    fn next_job(&self) -> Option<Job> {
        let mut guard = lock(&self.shared.held)?;
        (&mut *guard).take_job()
    }

    /// Begins a job. If it can't begin, its client gets the reason.
    fn begin(&mut self, job: Job, cx: &mut Context<'_>)
        requires { CanPoll M.Call.Future.can_poll T.Call.Future.can_poll self.old }
        ensures can { CanPoll M.Call.Future.can_poll T.Call.Future.can_poll self.new }
        ensures rest { IsSameBeside self.old self.new }
        ensures kept { Keeps cx.old cx.new }
    {
        let id = job.id;
        if job.stream {
            let begun = self.stream_call(job);
            if let Err(refused) = self.run(begun) {
                self.end(id, Ended::Ends(Err(refused)));
            }
        } else {
            let begun = self.method_call(job);
            if let Err(refused) = self.run_at_once(begun, cx) {
                self.end(id, Ended::Answers(Err(refused)));
            }
        }
    }

    /// Adds a handler that begins to those that run.
    fn run(&mut self, begun: Result<Running<M::Call, T::Call, O, I>>) -> Result<()>
        requires run { CanPoll M.Call.Future.can_poll T.Call.Future.can_poll self.old }
        requires begun { IfOk begun (λ running. HandledCanPoll M.Call.Future.can_poll
            T.Call.Future.can_poll running.handled) }
        ensures can { CanPoll M.Call.Future.can_poll T.Call.Future.can_poll self.new }
        ensures rest { IsSameBeside self.old self.new }
    {
        self.keep(Finishing::new(begun?))
    }

    /// Adds this handler to those that run.
    fn keep(&mut self, finishing: Finishing<M::Call, T::Call, O, I>) -> Result<()>
        requires run { CanPoll M.Call.Future.can_poll T.Call.Future.can_poll self.old }
        requires kept { finishing.ended ≡ None
            → HandledCanPoll M.Call.Future.can_poll
            T.Call.Future.can_poll finishing.running.handled }
        ensures can { CanPoll M.Call.Future.can_poll T.Call.Future.can_poll self.new }
        ensures rest { IsSameBeside self.old self.new }
    {
        match self.jobs.push(finishing) {
            Ok(()) => Ok(()),
            Err(_) => Err(Error::NoMemory),
        }
    }

    /// Polls a handler that begins, and adds it to those that run if it hasn't ended. Most handlers answer at once, and so take no place.
    fn run_at_once(
        &mut self,
        begun: Result<Running<M::Call, T::Call, O, I>>,
        cx: &mut Context<'_>,
    ) -> Result<()>
        // The handlers that run may be polled, and so may the one that begins.
        requires run { CanPoll M.Call.Future.can_poll T.Call.Future.can_poll self.old }
        requires begun { IfOk begun (λ running. HandledCanPoll M.Call.Future.can_poll
            T.Call.Future.can_poll running.handled) }
        // The handlers that run may be polled again.
        ensures can { CanPoll M.Call.Future.can_poll T.Call.Future.can_poll self.new }
        // Only the handlers, the pace and the end that isn't reported yet changed. Earlier registrations are kept.
        ensures rest { IsSameBeside self.old self.new }
        ensures kept { Keeps cx.old cx.new }
    {
        let mut finishing = Finishing::new(begun?);
        match finishing.poll(cx) {
            Poll::Pending => self.keep(finishing),
            Poll::Ready(()) => {
                self.answer_batch.one_more();
                Ok(())
            }
        }
    }

    /// Begins the handler of a method.
    fn method_call(&self, job: Job) -> Result<Running<M::Call, T::Call, O, I>>
        ensures can { IfOk result (λ running. HandledCanPoll M.Call.Future.can_poll
            T.Call.Future.can_poll running.handled) }
        ensures own { IfOk result (λ running. (running.id ≡ job.id)
            × (arc_value running.shared ≡ arc_value self.now.shared)) }
        ensures dropped { IfOk result (λ running. running.may_be_dropped ≡ true) }
    {
        let Job {
            id,
            header,
            stream: _,
            request,
        } = job;
        let shared = Arc::try_clone(&self.shared)?;
        let context = self.context(header, &request)?;
        let Some(handler) = self
            .services
            .method(request.service.as_str(), request.method.as_str())
        else {
            return Err(Error::LocalClosed);
        };
        Ok(Running {
            shared,
            id,
            may_be_dropped: true,
            handled: Handled::Method(handler.handler(context, request)),
        })
    }

    /// Begins the handler of a stream.
    fn stream_call(&self, job: Job) -> Result<Running<M::Call, T::Call, O, I>>
        ensures can { IfOk result (λ running. HandledCanPoll M.Call.Future.can_poll
            T.Call.Future.can_poll running.handled) }
        ensures own { IfOk result (λ running. (running.id ≡ job.id)
            × (arc_value running.shared ≡ arc_value self.now.shared)) }
        ensures kept { IfOk result (λ running. running.may_be_dropped ≡ false) }
    {
        let Job {
            id,
            header,
            stream: _,
            request,
        } = job;
        let shared = Arc::try_clone(&self.shared)?;
        let context = self.context(header, &request)?;
        let Some(handler) = self
            .services
            .stream(request.service.as_str(), request.method.as_str())
        else {
            return Err(Error::LocalClosed);
        };
        let sends = Arc::try_clone(&self.shared)?;
        let receives = Arc::try_clone(&self.shared)?;
        let stream = StreamInner::new(self.rt.alloc(), sends, receives, id)?;
        Ok(Running {
            shared,
            id,
            may_be_dropped: false,
            handled: Handled::Stream(handler.handler(context, stream)),
        })
    }

    /// Makes the context of a request with this header.
    fn context(&self, header: MessageHeader, request: &Request) -> Result<TtrpcContext> {
        TtrpcContext::new(
            self.rt.alloc(),
            header,
            request,
            &self.connection_data,
            &self.input_end,
        )
    }

    /// Reports to the core how a job ended that couldn't begin, or keeps the end until there is room.
    fn end(&mut self, id: JobId, ended: Ended)
        ensures jobs { self.new.jobs ≡ self.old.jobs }
        ensures rest { IsSameBeside self.old self.new }
    {
        if !self.tells(id, &ended) {
            self.untold = Some((id, ended));
        }
        self.answer_batch.one_more();
    }

    /// Reports to the core how a job ended. Returns whether there was room for the report.
    fn tells(&self, id: JobId, ended: &Ended) -> bool {
        match lock(&self.shared.held) {
            Some(mut guard) => (&mut *guard).end(id, ended),
            None => false,
        }
    }

    /// Looks whether the connection may end. The poll has looked before whether it is to end.
    fn poll_end(&mut self, cx: &mut Context<'_>) -> Step
        // The poll has asked to be woken when the connection is to end, unless it ends already, before and after.
        requires asked { HasAsked self.old cx.old }
        ensures asked { HasAsked self.new cx.new }
        // After `Waits` the poll has registered with all that the connection's end waits for.
        ensures waits { result ≡ Step.Waits → Covers cx.new (EndNeeds self.new) }
        // The handlers and the link are as they were, and so is `is_over`. Earlier registrations are kept.
        ensures rest { (self.new.jobs ≡ self.old.jobs) × (self.new.link ≡ self.old.link)
            × (self.new.is_over ≡ self.old.is_over) }
        ensures kept { Keeps cx.old cx.new }
    {
        if self.is_ending {
            return self.poll_grace(cx);
        }
        if self.is_over {
            self.begin_end();
            return Step::Moved;
        }
        if self.link.keeps_nothing() && self.finish_input() {
            return Step::Moved;
        }
        self.poll_half_close(cx)
    }

    /// Takes no more input, and limits the time of the handlers that run.
    fn begin_end(&mut self)
        ensures rest { (self.new.jobs ≡ self.old.jobs) × (self.new.link ≡ self.old.link)
            × (self.new.is_over ≡ self.old.is_over) × (self.new.connection_slot ≡ self.old.connection_slot) }
        ensures ends { self.new.is_ending ≡ true }
    {
        self.is_ending = true;
        if let Some(mut guard) = lock(&self.shared.held) {
            (&mut *guard).drain();
        }
        self.grace.unset();
        self.set_grace(self.limit);
    }

    /// Sets the alarm to ring after this time.
    fn set_grace(&mut self, limit: Duration)
        ensures { self.new ≡ record self.old { grace = self.new.grace } }
    {
        let limit = u64::try_from(limit.as_nanos()).unwrap_or(u64::MAX);
        let now = moment(&self.rt).unwrap_or(0);
        self.grace.set(&self.rt, now.saturating_add(limit));
    }

    /// Sets the alarm for the handlers of requests, when the input has ended.
    fn begin_half_close(&mut self)
        ensures { self.new
            ≡ record self.old { is_leaving = self.new.is_leaving; grace = self.new.grace } }
    {
        if self.is_leaving || self.link.is_reading() {
            return;
        }
        self.is_leaving = true;
        if let Some(limit) = self.half_close {
            self.set_grace(limit);
        }
    }

    /// After the input has ended, lets the handlers of requests go on for a limited time.
    fn poll_half_close(&mut self, cx: &mut Context<'_>) -> Step
        // The connection isn't ending. The poll has asked to be woken when it is to end.
        requires going { self.old.is_ending ≡ false }
        requires asked { HasAsked self.old cx.old }
        // The poll still has, unless the connection ends now. After `Waits` it has registered with all that this end waits for.
        ensures asked { HasAsked self.new cx.new }
        ensures waits { result ≡ Step.Waits → Covers cx.new (EndNeeds self.new) }
        // The handlers and the link are as they were, and so is `is_over`. Earlier registrations are kept.
        ensures rest { (self.new.jobs ≡ self.old.jobs) × (self.new.link ≡ self.old.link)
            × (self.new.is_over ≡ self.old.is_over) }
        ensures kept { Keeps cx.old cx.new }
    {
        self.begin_half_close();
        if self.grace.set_for.is_none() {
            return Step::Waits;
        }
        if self.grace.poll_ring(&self.rt, cx).is_pending() {
            return Step::Waits;
        }
        self.let_calls_go();
        Step::Moved
    }

    /// Drops the handlers of requests: the input ended too long ago.
    fn let_calls_go(&mut self)
        ensures { self.new ≡ record self.old { grace = record self.old.grace { set_for = None } } }
    {
        self.grace.unset();
        if let Some(mut guard) = lock(&self.shared.held) {
            (&mut *guard).let_calls_go();
        }
    }

    /// Reports the end of the input to the core, once nothing more comes of the input. Returns whether it was reported now.
    fn finish_input(&self) -> bool {
        let Some(mut guard) = lock(&self.shared.held) else {
            return false;
        };
        let held = &mut *guard;
        let is_working = !self.jobs.is_empty() || self.untold.is_some();
        if is_working || !held.is_answered() || held.core.has_failed() {
            return false;
        }
        held.finish_input();
        true
    }

    /// Ends the connection once no handler runs and all is written, or once the time for that is up.
    fn poll_grace(&mut self, cx: &mut Context<'_>) -> Step
        // The connection is ending, before and after.
        requires { self.old.is_ending ≡ true }
        ensures ending { self.new.is_ending ≡ true }
        // After `Waits` the poll has registered with all that the connection's end waits for.
        ensures waits { result ≡ Step.Waits → Covers cx.new (EndNeeds self.new) }
        // The handlers and the link are as they were, and so is `is_over`. Earlier registrations are kept.
        ensures rest { (self.new.jobs ≡ self.old.jobs) × (self.new.link ≡ self.old.link)
            × (self.new.is_over ≡ self.old.is_over) }
        ensures kept { Keeps cx.old cx.new }
    {
        let is_working = !self.jobs.is_empty() || self.untold.is_some();
        if !is_working && (self.is_over || self.link.keeps_nothing()) {
            return Step::Over;
        }
        match self.grace.poll_ring(&self.rt, cx) {
            Poll::Pending => Step::Waits,
            Poll::Ready(_) => Step::Over,
        }
    }
}

impl<R, M, T, S, W, O, I> Future for ServerConnection<R, M, T, S, W, O, I>
where
    R: Timed,
    O: OutboundTransform + Drop,
    I: InboundTransform + Drop,
    M: MethodHandler,
    T: StreamHandler<ServerShared<O, I>>,
    S: AsyncRead,
    W: AsyncWrite,
{
    type Output = ();

    ghost use Rattle.ttrpc_polled_server.specs.Needs.{CanPoll, ConnectionNeeds};

    ghost can_poll = { CanPoll M.Call.Future.can_poll T.Call.Future.can_poll };

    ghost needs = { ConnectionNeeds S.AsyncRead.needs W.AsyncWrite.needs };

    fn poll(&mut self, cx: &mut Context<'_>) -> Poll<()> {
        let Some(mut share) = self.look(cx) else {
            return Poll::Ready(());
        };
        for _ in 0..TURNS {
            match self.turn(&mut share, cx) {
                Step::Moved | Step::Gathered => {
                    if share.is_over() {
                        break;
                    }
                }
                Step::Waits => return Poll::Pending,
                Step::Over => return Poll::Ready(()),
            }
        }
        self.end_poll(&mut share, cx);
        cx.yield_now()
    }
}

impl<R, M, T, S, W, O, I> Drop for ServerConnection<R, M, T, S, W, O, I>
where
    R: Timed,
    O: OutboundTransform + Drop,
    I: InboundTransform + Drop,
    M: MethodHandler,
    T: StreamHandler<ServerShared<O, I>>,
    S: AsyncRead,
    W: AsyncWrite,
{
    fn drop(self) {
        let Self {
            rt: _,
            link,
            shared,
            services: _,
            connection_data: _,
            connection_slot,
            jobs,
            untold: _,
            answer_batch: _,
            is_over: _,
            is_ending: _,
            is_leaving: _,
            grace: _,
            limit: _,
            half_close: _,
            input_end: _,
        } = self;
        if let Some(mut guard) = lock(&shared.held) {
            (&mut *guard).abandon();
        }
        drop(jobs);
        drop(link);
        drop(connection_slot);
    }
}
