//! The state under the lock of a server's connection.
ghost use Rattle.std.specs.Prelude.{◌≡◌, ◌≢◌, ◌⊎◌, [], length, None, IfNone, IfSome, IsSome, true, false};
ghost use Rattle.ttrpc_server.specs.Protocol.{Hands, drained};
ghost use Rattle.futures.specs.Poll.{IfReady, OnPending};
ghost use Rattle.futures.specs.Task.{Covers, Keeps};
ghost use Rattle.ttrpc_proto.specs.declared.error.Error.{Error as AnError};
ghost use Rattle.ttrpc_connection.specs.OneEnd.{Ends, failing};
ghost use Rattle.ttrpc_proto.specs.Framing.Queue.{unsent};
ghost use Rattle.ttrpc_connection.specs.declared.failure.Failure.{Failure as AFailure};
ghost use Rattle.ttrpc_server.specs.State.{IsTaken, IsUnknown, NoneWaits};
ghost use Rattle.ttrpc_server.specs.declared.job.ActiveJob.{ActiveJob as AJob};
ghost use Rattle.ttrpc_server.specs.Streaming.{ReceivesOne, unheard};
ghost use Rattle.ttrpc_polled.specs.Streams.Polling.{Polls, answer_of};
ghost use Rattle.ttrpc_polled.specs.Streams.Steps.{WaitsForRoom, is_new as is_unsent};
ghost use Rattle.ttrpc_polled.specs.Streams.Waiting.{nobody};
ghost use Rattle.ttrpc_polled_server.specs.Built.{pause_end};
ghost use Rattle.ttrpc_polled_server.specs.Held.{IsLate, IsLeft, ReceivesLast, TellsEnd, TicksAndTells};
ghost use Rattle.ttrpc_polled_server.specs.Steps.{EndsJob, IsSending, LacksRoomFor, PassesOn};

use crate::ended::Ended;
use crate::input_end::InputEnd;
use crate::settings::Settings;
use futures::task::{Context, Poll, Source, Waker};
use std::alloc::Global;
use std::io::ErrorKind;
use std::sync::Arc;
use ttrpc_connection::{Failure, StreamCore};
use ttrpc_polled::{PolledState, RoomWakers, Sending, StreamWakers, Wakers, sooner};
use ttrpc_proto::{Error, Result};
use ttrpc_secure::{InboundTransform, OutboundTransform};
use ttrpc_server::{Job, JobId, ServerCore};
use ttrpc_wire::Blob;

/// The core of a server, and the wakers of the tasks that wait for it.
#[derive(Drop)]
pub struct PolledServerState<O, I> {
    pub core: ServerCore<O, I>,
    alloc: Global,
    running: Wakers,
    streams: StreamWakers,
    room: RoomWakers,
    settings: Settings,
    input_end: Arc<InputEnd, Global>,
    pub input_ended: bool,
    pub is_gone: bool,
    drains: bool,
    unbegun: u64,
    pause: Option<u64>,
    pub driver: Option<Waker>,
}

impl<O: OutboundTransform + Drop, I: InboundTransform + Drop> PolledServerState<O, I> {
    /// Makes the state of this core, for which no task waits, with these settings. `input_end` learns when the input has ended.
    pub fn new(
        alloc: Global,
        core: ServerCore<O, I>,
        settings: Settings,
        input_end: Arc<InputEnd, Global>,
    ) -> Self
        ensures { (result.core ≡ core) × (result.settings ≡ settings) × (result.input_ended ≡ false)
            × (result.is_gone ≡ false) × (result.drains ≡ false) × (result.pause ≡ None) }
    {
        PolledServerState {
            core,
            alloc,
            running: Wakers::new(alloc),
            streams: StreamWakers::new(alloc),
            room: RoomWakers::new(alloc),
            settings,
            input_end,
            input_ended: false,
            is_gone: false,
            drains: false,
            unbegun: 0,
            pause: None,
            driver: None,
        }
    }

    /// Returns the job that has waited longest, to be begun.
    pub fn take_job(&mut self) -> Option<Job>
        ensures handed { IfSome result (λ job. Hands self.old.core job self.new.core) }
        ensures none { IfNone result ((self.new.core ≡ self.old.core)
            × (self.old.core.connection.failure ≡ None → NoneWaits self.old.core.state.jobs.list)) }
    {
        let job = self.core.take_job()?;
        if self.core.jobs_waiting() == 0 {
            self.unbegun = 0;
        } else {
            let length = job.request.payload.len() as u64;
            self.unbegun = self.unbegun.saturating_sub(length);
        }
        Some(job)
    }

    /// Reports to the core how the handler of a job ended, or waits for room for the report, at a place that `place` then has. If the
    /// answer can't be sent, the client gets a status with the reason. If the status can't be sent either, the connection fails, so that
    /// the client doesn't wait forever. A stream's handler that ends with the error that it got at the end of the input isn't answered.
    /// Wakes the tasks that wait for the job or receive from its stream.
    pub fn poll_end(
        &mut self,
        id: JobId,
        ended: &Ended,
        place: &mut Option<u64>,
        came: &Source,
        cx: &mut Context<'_>,
    ) -> Poll<()>
        ensures told { IfReady result
            (λ _. EndsJob O.OutboundTransform self.old.core id ended.now self.new.core
            ⊎ PassesOn self.old.input_ended self.old.core ended.now self.new.core) }
        ensures waits { OnPending result ((self.new.core ≡ self.old.core)
            × LacksRoomFor O.OutboundTransform self.old.core id ended.now) }
        ensures registered { OnPending result (Covers cx.new (λ s. s ≡ came.now.id)) }
        ensures kept { Keeps cx.old cx.new }
    {
        if self.end(id, ended) {
            return Poll::Ready(());
        }
        let number = self.room.place(*place);
        *place = Some(number);
        self.room.wait(number, came, cx)
    }

    /// Reports to the core how the handler of a job ended. Returns whether there was room for the report.
    pub fn end(&mut self, id: JobId, ended: &Ended) -> bool
        // At true the core got the report, unless the handler's error is a disconnect after the end of the input.
        ensures ends { result ≡ true
            → EndsJob O.OutboundTransform self.old.core id ended.now self.new.core
            ⊎ PassesOn self.old.input_ended self.old.core ended.now self.new.core }
        ensures told { result ≡ true
            → ¬ (PassesOn self.old.input_ended self.old.core ended.now self.old.core)
            → EndsJob O.OutboundTransform self.old.core id ended.now self.new.core }
        // At true the job's handler and its receiver wait no longer, and at most those of other jobs still do.
        ensures running { result ≡ true → IsLeft id self.old.running self.new.running }
        ensures receivers { result ≡ true
            → IsLeft id self.old.streams.receivers self.new.streams.receivers }
        // At false there is no room for the report, and nothing changed.
        ensures waits { result ≡ false
            → (self.new ≡ self.old) × LacksRoomFor O.OutboundTransform self.old.core id ended.now }
    {
        if !self.passes_on(ended) && !self.tell_end(id, ended) {
            return false;
        }
        self.running.wake(id);
        self.streams.wake_receiver(id);
        true
    }

    /// Returns whether a handler ended by the end of the input, so that nothing is reported.
    fn passes_on(&self, ended: &Ended) -> bool
        ensures yes { result ≡ true
            → PassesOn self.now.input_ended self.now.core ended.now self.now.core }
        ensures no { result ≡ false
            → ¬ (PassesOn self.now.input_ended self.now.core ended.now self.now.core) }
    {
        self.input_ended && ended.is_disconnect()
    }

    /// Reports to the core how the handler of a job ended, and wakes all tasks if the connection fails by that. Returns whether there was
    /// room for the report.
    fn tell_end(&mut self, id: JobId, ended: &Ended) -> bool
        ensures ends { result ≡ true
            → EndsJob O.OutboundTransform self.old.core id ended.now self.new.core }
        ensures running { (self.new.running ≡ self.old.running) ⊎ (self.new.running ≡ []) }
        ensures streams { (self.new.streams ≡ self.old.streams) ⊎ (self.new.streams ≡ nobody) }
        ensures waits { result ≡ false
            → (self.new ≡ self.old) × LacksRoomFor O.OutboundTransform self.old.core id ended.now }
    {
        let refusal = match ended.step(self.alloc, &mut self.core, id) {
            Ok(()) => return true,
            Err(Error::NoRoom) => return false,
            Err(refusal) => refusal,
        };
        // A job that has expired is no longer to be answered.
        if self.core.stream_of(id).is_none() {
            return true;
        }
        match ended.failed(refusal).step(self.alloc, &mut self.core, id) {
            Ok(()) => {}
            Err(Error::NoRoom) => return false,
            Err(refusal) => {
                self.core.fail(refusal);
                self.wake_all();
            }
        }
        true
    }

    /// Waits until the handler of this job is to be dropped: the job has expired, the connection has failed, or the input ended too
    /// long ago.
    pub fn poll_dropped(&mut self, id: JobId, came: &Source, cx: &mut Context<'_>) -> Poll<()>
        // If the poll is ready, the connection is gone or has failed, or there is no such job.
        ensures over { IfReady result (λ _. (self.old.is_gone ≡ true)
            ⊎ IsSome self.old.core.connection.failure
            ⊎ IsUnknown self.old.core.state.jobs.list id) }
        // If the poll is pending, the job was taken, and the connection isn't gone and hasn't failed.
        ensures runs { OnPending result
            ((job : AJob) × IsTaken self.old.core.state.jobs.list id job) }
        ensures lives { OnPending result
            ((self.old.is_gone ≡ false) × (self.old.core.connection.failure ≡ None)) }
        // The core is as it was. A pending poll has registered with `came`, and earlier registrations are kept.
        ensures same { self.new.core ≡ self.old.core }
        ensures registered { OnPending result (Covers cx.new (λ s. s ≡ came.now.id)) }
        ensures kept { Keeps cx.old cx.new }
    {
        if self.is_dropped(id) {
            return Poll::Ready(());
        }
        self.running.wait(id, came, cx)
    }

    /// Returns whether the handler of this job is to be dropped.
    fn is_dropped(&self, id: JobId) -> bool
        ensures yes { result ≡ true
            → (self.now.is_gone ≡ true) ⊎ IsSome self.now.core.connection.failure
            ⊎ IsUnknown self.now.core.state.jobs.list id }
        ensures no { result ≡ false
            → (self.now.is_gone ≡ false) × (self.now.core.connection.failure ≡ None)
            × ((job : AJob) × IsTaken self.now.core.state.jobs.list id job) }
    {
        self.is_gone || self.core.has_failed() || self.core.stream_of(id).is_none()
    }

    /// Steps a call that sends on a stream.
    pub fn poll_sending(
        &mut self,
        id: JobId,
        sending: &mut Sending,
        came: &Source,
        cx: &mut Context<'_>,
    ) -> Poll<Result<()>>
        ensures polls { Polls is_unsent WaitsForRoom (IsSending O.OutboundTransform id)
            self.old.core sending.old result sending.new self.new.core }
        ensures registered { OnPending result (Covers cx.new (λ s. s ≡ came.now.id)) }
        ensures kept { Keeps cx.old cx.new }
    {
        let (alloc, core, room) = (self.alloc, &mut self.core, &mut self.room);
        self.streams
            .poll_sending_on(alloc, core, id, room, sending, came, cx)
    }

    /// Receives from a stream. After the input has ended no task waits: a receiver gets the items that came, and then once the error that
    /// the other side is gone.
    pub fn poll_receiving(
        &mut self,
        id: JobId,
        came: &Source,
        cx: &mut Context<'_>,
    ) -> Poll<Result<Blob>>
        ensures receives { self.old.input_ended ≡ false
            → ReceivesOne self.old.core id (answer_of result) self.new.core }
        ensures ended { self.old.input_ended ≡ true
            → ReceivesLast self.old.core id result self.new.core }
        ensures registered { OnPending result (Covers cx.new (λ s. s ≡ came.now.id)) }
        ensures kept { Keeps cx.old cx.new }
    {
        if self.input_ended {
            return Poll::Ready(self.receive_last(id));
        }
        let (alloc, core) = (self.alloc, &mut self.core);
        self.streams.poll_receiving_on(alloc, core, id, came, cx)
    }

    /// Receives from a stream after the input has ended.
    fn receive_last(&mut self, id: JobId) -> Result<Blob>
        ensures { ReceivesLast self.old.core id (Poll.Ready result) self.new.core }
    {
        if let Some(received) = self.core.recv_item(self.alloc, id) {
            return received;
        }
        let error = self.end_error();
        self.core.drop_receiver(id);
        Err(error)
    }

    /// Returns the error of the end of the input.
    fn end_error(&self) -> Error
        ensures { TellsEnd self.now.core result }
    {
        let failure = if self.core.at_boundary() {
            Failure::Disconnected
        } else {
            Failure::DisconnectedInside
        };
        failure.error(self.alloc)
    }

    /// Returns how many handlers wait to be dropped.
    pub fn waiting(&self) -> usize
        ensures { result ≡ length self.now.running }
    {
        self.running.len()
    }

    /// Reports that no task receives from a stream any more.
    pub fn drop_receiver(&mut self, id: JobId)
        ensures { self.new.core ≡ unheard self.old.core id }
    {
        self.core.drop_receiver(id);
        self.streams.wake_receiver(id);
    }

    /// Returns whether the input has ended and everything was written. If no handler runs either, nothing more comes of the input.
    pub fn is_answered(&self) -> bool
        ensures yes { result ≡ true
            → (self.now.input_ended ≡ true) × (unsent self.now.core.connection.outbox.queue ≡ []) }
        ensures no { result ≡ false
            → (self.now.input_ended ≡ false) ⊎ (unsent self.now.core.connection.outbox.queue ≢ []) }
    {
        self.input_ended && !self.core.has_unsent()
    }

    /// Lets the handlers of requests be dropped from now on: the input ended too long ago. Wakes each of them.
    pub fn let_calls_go(&mut self)
        ensures { self.new ≡ record self.old { running = []; is_gone = true } }
    {
        self.is_gone = true;
        self.running.wake_all();
    }

    /// Reports the end of the input to the core, once nothing more comes of the input.
    pub fn finish_input(&mut self)
        ensures ends { Ends self.old.core.connection self.new.core.connection }
        ensures same { self.new.core
            ≡ record self.old.core { connection = self.new.core.connection } }
    {
        self.core.end_of_input();
        self.wake_all();
    }

    /// Takes no more input.
    pub fn drain(&mut self)
        ensures { self.new ≡ record self.old { core = drained self.old.core; drains = true } }
    {
        self.core.drain();
        self.drains = true;
    }

    /// Fails the connection, if it hasn't failed: no task is left that would read and write.
    pub fn abandon(&mut self)
        ensures { self.new.core
            ≡ record self.old.core { connection = failing self.old.core.connection (AFailure.Told AnError.LocalClosed) } }
    {
        self.core.fail(Error::LocalClosed);
        self.wake_all();
    }

    /// Wakes all tasks, if the connection has failed.
    fn wake_if_failed(&mut self)
        ensures { self.new.core ≡ self.old.core }
    {
        if self.core.has_failed() {
            self.wake_all();
        }
    }

    /// Wakes all tasks: the connection has failed.
    fn wake_all(&mut self)
        ensures { self.new
            ≡ record self.old { running = []; streams = nobody; room = record self.old.room { waiting = []; soonest = None } } }
    {
        self.running.wake_all();
        self.streams.wake_all();
        self.room.wake_all();
        self.input_end.come();
    }

    /// Notes that `count` bytes were taken at this moment: counts the bytes of waiting jobs, and sets until when the rest of a frame is
    /// awaited.
    fn note_taken(&mut self, count: usize, now: u64)
        ensures core { self.new.core ≡ self.old.core }
        ensures pause { (self.new.pause ≡ None)
            ⊎ (self.new.pause ≡ pause_end self.old.settings.frame_limit now) }
    {
        self.unbegun = if self.core.jobs_waiting() == 0 {
            0
        } else {
            self.unbegun.saturating_add(count as u64)
        };
        self.pause = if self.core.at_boundary() {
            None
        } else {
            pause_at(&self.settings, now)
        };
    }

    /// Returns whether a pause inside a frame is over at this moment.
    fn is_late(&self, now: u64) -> bool
        ensures yes { result ≡ true → IsLate self.now.pause now }
        ensures no { result ≡ false → ¬ (IsLate self.now.pause now) }
    {
        match self.pause {
            Some(at) => at <= now,
            None => false,
        }
    }

    /// Reports the moment to the core, and wakes the tasks of jobs that have expired by then.
    fn tick_core(&mut self, now: u64)
        ensures { TicksAndTells O.OutboundTransform self.old.core now self.new.core }
    {
        self.core.tick(self.alloc, now);
        self.wake_expired();
        self.wake_if_failed();
    }

    /// Wakes the tasks of jobs that have expired.
    fn wake_expired(&mut self)
        ensures { self.new.core
            ≡ record self.old.core { state = record self.old.core.state { expired = [] } } }
    {
        while let Some(id) = self.core.next_expired() {
            self.running.wake(id);
        }
    }

    /// Wakes the tasks that receive from streams for which something came.
    fn wake_heard(&mut self)
        ensures { self.new.core
            ≡ record self.old.core { state = record self.old.core.state { heard = [] } } }
    {
        while let Some(id) = self.core.next_heard() {
            self.streams.wake_receiver(id);
        }
    }
}

impl<O: OutboundTransform + Drop, I: InboundTransform + Drop> PolledState
    for PolledServerState<O, I> {
    ghost use Rattle.std.specs.Prelude.{◌≡◌, ℕ, Option, None, filter, length, true, is_some};
    ghost use Rattle.std.specs.declared.io.ErrorKind.TheVariants.{TimedOut};
    ghost use Rattle.ttrpc_server.specs.State.{waits};
    ghost use Rattle.ttrpc_polled.specs.Streams.Waiting.{nobody};
    ghost use Rattle.ttrpc_polled_server.specs.Built.{has_room};
    ghost use Rattle.ttrpc_connection.specs.OneEnd.{lendable};
    ghost use Rattle.ttrpc_polled.specs.Waiting.{sooner};
    ghost use Rattle.ttrpc_polled_server.specs.Held.{ExpiresAt, LendsAndReports, TakesPiece, TicksAndTells, TicksOrBreaks, broken};

    ghost takes = { λ old piece now count new. TakesPiece O.OutboundTransform I.InboundTransform
        old.core piece now old.drains count new.core };

    // The core doesn't learn of the end yet, so the requests that came are still answered. No task waits to receive any more.
    ghost ends = { λ old new. new
        ≡ record old { input_ended = true; streams = nobody; pause = None } };

    ghost breaks = { λ old kind new. new.core ≡ broken old.core kind };

    ghost lends = { λ old before count after new. LendsAndReports old.core
        before count after new.core };

    ghost lendable = { λ held. lendable held.core.connection };

    // The connection fails after a pause inside a frame that is above its limit.
    ghost ticks = { λ old now new. TicksOrBreaks old.pause now
        (TicksAndTells O.OutboundTransform old.core now new.core)
        (new.core ≡ broken old.core TimedOut) };

    ghost expires = { λ held at. (soonest : Option ℕ)
        × ExpiresAt O.OutboundTransform held.core soonest × (at ≡ sooner soonest held.pause) };

    ghost failed = { λ held. is_some held.core.connection.failure };

    ghost senders = { λ held. length held.streams.senders };

    ghost wants = { λ held. has_room held.settings
        (length (filter waits held.core.state.jobs.list)) held.unbegun };

    fn take(&mut self, alloc: Global, piece: &[u8], now: u64) -> Option<usize> {
        let drains = self.drains;
        let Ok(count) = self.core.feed(alloc, piece, now) else {
            self.wake_all();
            return None;
        };
        self.wake_heard();
        self.note_taken(count, now);
        if drains { None } else { Some(count) }
    }

    fn ended(&mut self) {
        self.input_ended = true;
        self.pause = None;
        self.streams.wake_all();
        self.input_end.come();
    }

    fn broke(&mut self, kind: ErrorKind) {
        self.core.broke(kind);
        self.wake_all();
    }

    fn lendable(&self) -> usize {
        self.core.lendable()
    }

    fn lend(&mut self, buffer: &mut [u8]) -> usize {
        let count = self.core.lend(buffer);
        self.core.wrote(count);
        self.streams.wake_sent(self.alloc, &self.core);
        if count > 0 {
            self.room.wake_all();
        }
        count
    }

    fn tick(&mut self, now: u64) {
        if self.is_late(now) {
            self.pause = None;
            self.broke(ErrorKind::TimedOut);
        } else {
            self.tick_core(now);
        }
    }

    fn next_deadline(&self) -> Option<u64> {
        sooner(self.core.next_deadline(), self.pause)
    }

    fn has_failed(&self) -> bool {
        self.core.has_failed()
    }

    fn senders(&self) -> usize {
        self.streams.senders()
    }

    fn wants_input(&self) -> bool {
        self.settings
            .has_room(self.core.jobs_waiting(), self.unbegun)
    }

    fn driver(&mut self) -> &mut Option<Waker> {
        &mut self.driver
    }
}

/// Returns until when a peer may pause, if its pause inside a frame begins at this moment.
fn pause_at(settings: &Settings, now: u64) -> Option<u64>
    ensures { result ≡ pause_end settings.now.frame_limit now }
{
    match settings.frame_limit {
        Some(limit) => {
            let limit = u64::try_from(limit.as_nanos()).unwrap_or(u64::MAX);
            Some(now.saturating_add(limit))
        }
        None => None,
    }
}
