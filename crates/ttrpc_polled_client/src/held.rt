//! The state under the lock of a client's connection.
ghost use Rattle.std.specs.Prelude.{◌≡◌, ◌⊎◌, [], Err};
ghost use Rattle.futures.specs.Poll.{IfReady, OnPending};
ghost use Rattle.futures.specs.Task.{Covers, Keeps};
ghost use Rattle.ttrpc_proto.specs.declared.error.Error.{Error as AnError};
ghost use Rattle.ttrpc_connection.specs.Failure.{IsTold};
ghost use Rattle.ttrpc_connection.specs.OneEnd.{failing};
ghost use Rattle.ttrpc_connection.specs.declared.failure.Failure.{Failure as AFailure};
ghost use Rattle.ttrpc_client.specs.Protocol.{Forgets, expired_error};
ghost use Rattle.ttrpc_client.specs.Streaming.{DropsReceiver, DropsSender, ReceivesOne};
ghost use Rattle.ttrpc_polled.specs.Streams.Polling.{Polls, answer_of};
ghost use Rattle.ttrpc_polled.specs.Streams.Steps.{WaitsForRoom as StallsSending, is_new as is_unsent};
ghost use Rattle.ttrpc_polled_client.specs.Steps.{IsOverdue, IsSending, IsStep, Opens, WaitsForRoom, is_new};

use crate::asked::Asked;
use crate::opening::Opening;
use futures::task::{Context, Poll, Source, Waker};
use std::alloc::Global;
use std::io::ErrorKind;
use ttrpc_client::errors::deadline_error;
use ttrpc_client::{CallId, ClientCore, StreamId};
use ttrpc_polled::{PolledState, RoomWakers, Sending, StreamWakers, Wakers, sooner};
use ttrpc_proto::error::causes::socket_of;
use ttrpc_proto::{Error, Response, Result};
use ttrpc_secure::{InboundTransform, OutboundTransform};
use ttrpc_wire::Blob;

/// The core of a client, and the wakers of the tasks that wait for it.
#[derive(Drop)]
pub struct PolledClientState<O, I> {
    pub core: ClientCore<O, I>,
    alloc: Global,
    callers: Wakers,
    streams: StreamWakers,
    room: RoomWakers,
    moment: u64,
    pub driver: Option<Waker>,
}

impl<O: OutboundTransform + Drop, I: InboundTransform + Drop> PolledClientState<O, I> {
    /// Makes the state of this core, for which no task waits.
    pub fn new(alloc: Global, core: ClientCore<O, I>) -> Self
        ensures { result.core ≡ core }
    {
        PolledClientState {
            core,
            alloc,
            callers: Wakers::new(alloc),
            streams: StreamWakers::new(alloc),
            room: RoomWakers::new(alloc),
            moment: 0,
            driver: None,
        }
    }

    /// Steps a call. If there is no room for its request, or no outcome yet, the call waits at this source.
    pub fn poll_call(
        &mut self,
        asked: &mut Asked,
        came: &Source,
        cx: &mut Context<'_>,
    ) -> Poll<Result<Response>>
        ensures polls { Polls is_new WaitsForRoom
            (IsStep O.OutboundTransform) self.old.core asked.old result asked.new self.new.core
            ⊎ IsOverdue O.OutboundTransform self.old.core asked.old result asked.new self.new.core }
        ensures registered { OnPending result (Covers cx.new (λ s. s ≡ came.now.id)) }
        ensures kept { Keeps cx.old cx.new }
    {
        if asked.is_new() {
            if let Some(refusal) = asked.step(self.alloc, &mut self.core) {
                return Poll::Ready(refusal);
            }
            if asked.is_new() {
                return self.wait_for_room(asked, came, cx);
            }
        }
        if let Some(outcome) = asked.step(self.alloc, &mut self.core) {
            return Poll::Ready(outcome);
        }
        match asked.id() {
            Some(id) => self.callers.wait(u64::from(id), came, cx),
            None => cx.yield_now(),
        }
    }

    /// Makes a call that found no room wait for some, unless its deadline has passed.
    fn wait_for_room(
        &mut self,
        asked: &mut Asked,
        came: &Source,
        cx: &mut Context<'_>,
    ) -> Poll<Result<Response>>
        // A pending call waits for room. A ready one is done, with the error of a passed deadline, or with `NoMemory` in its place.
        ensures waits { OnPending result (WaitsForRoom asked.old asked.new) }
        ensures expired { IfReady result (λ given. (asked.new ≡ Asked.Done)
            × ((e : AnError) × (given ≡ Err e) × IsTold expired_error e)) }
        // The core is as it was. A pending poll has registered with `came`, and earlier registrations are kept.
        ensures same { self.new.core ≡ self.old.core }
        ensures registered { OnPending result (Covers cx.new (λ s. s ≡ came.now.id)) }
        ensures kept { Keeps cx.old cx.new }
    {
        let expiry = asked.expiry();
        if expiry.is_some_and(|at| at <= self.moment) {
            *asked = Asked::Done;
            return Poll::Ready(Err(deadline_error(self.alloc)));
        }
        let place = self.room.place(asked.place());
        asked.stall(place);
        self.room.awaits(expiry);
        self.room.wait(place, came, cx)
    }

    /// Opens a stream. If there is no room for its request, the caller waits at this source, at a place that `place` then has.
    pub fn poll_open(
        &mut self,
        opening: &Opening,
        place: &mut Option<u64>,
        came: &Source,
        cx: &mut Context<'_>,
    ) -> Poll<Result<StreamId>>
        ensures opened { IfReady result
            (λ opened. Opens O.OutboundTransform self.old.core opening.now.request
            opening.now.streaming_client opening.now.streaming_server opened self.new.core) }
        ensures waits { OnPending result (Opens O.OutboundTransform self.old.core
            opening.now.request opening.now.streaming_client opening.now.streaming_server
            (Err AnError.NoRoom) self.new.core) }
        ensures registered { OnPending result (Covers cx.new (λ s. s ≡ came.now.id)) }
        ensures kept { Keeps cx.old cx.new }
    {
        match opening.step(self.alloc, &mut self.core) {
            Err(Error::NoRoom) => {
                let number = self.room.place(*place);
                *place = Some(number);
                self.room.wait(number, came, cx)
            }
            opened => Poll::Ready(opened),
        }
    }

    /// Steps a call that sends on a stream.
    pub fn poll_sending(
        &mut self,
        id: StreamId,
        sending: &mut Sending,
        came: &Source,
        cx: &mut Context<'_>,
    ) -> Poll<Result<()>>
        ensures polls { Polls is_unsent StallsSending (IsSending O.OutboundTransform id)
            self.old.core sending.old result sending.new self.new.core }
        ensures registered { OnPending result (Covers cx.new (λ s. s ≡ came.now.id)) }
        ensures kept { Keeps cx.old cx.new }
    {
        let (alloc, core, room) = (self.alloc, &mut self.core, &mut self.room);
        self.streams
            .poll_sending_on(alloc, core, id, room, sending, came, cx)
    }

    /// Receives from a stream.
    pub fn poll_receiving(
        &mut self,
        id: StreamId,
        came: &Source,
        cx: &mut Context<'_>,
    ) -> Poll<Result<Blob>>
        ensures receives { ReceivesOne self.old.core id (answer_of result) self.new.core }
        ensures registered { OnPending result (Covers cx.new (λ s. s ≡ came.now.id)) }
        ensures kept { Keeps cx.old cx.new }
    {
        let (alloc, core) = (self.alloc, &mut self.core);
        self.streams.poll_receiving_on(alloc, core, id, came, cx)
    }

    /// Forgets a call after its future was dropped.
    pub fn drop_call(&mut self, id: CallId)
        ensures { Forgets O.SEALS self.old.core id self.new.core }
    {
        self.core.drop_call(id);
        self.callers.wake(u64::from(id));
        self.wake_if_failed();
    }

    /// Reports that no task receives from a stream any more.
    pub fn drop_receiver(&mut self, id: StreamId)
        ensures { DropsReceiver self.old.core id self.new.core }
    {
        self.core.drop_receiver(id);
        self.streams.wake_receiver(u64::from(id));
    }

    /// Reports that no task sends on a stream any more.
    pub fn drop_sender(&mut self, id: StreamId)
        ensures { DropsSender self.old.core id self.new.core }
    {
        self.core.drop_sender(id);
    }

    /// Fails the connection, if it hasn't failed: no task is left that would call, or none that would answer.
    pub fn abandon(&mut self)
        ensures { self.new.core
            ≡ record self.old.core { connection = failing self.old.core.connection (AFailure.Told AnError.LocalClosed) } }
    {
        self.core.fail(Error::LocalClosed);
        self.wake_all();
    }

    /// Wakes all tasks, if the connection has failed.
    fn wake_if_failed(&mut self)
        ensures { self.new.core ≡ self.old.core }
    {
        if self.core.has_failed() {
            self.wake_all();
        }
    }

    fn wake_all(&mut self)
        ensures { self.new.core ≡ self.old.core }
    {
        self.callers.wake_all();
        self.streams.wake_all();
        self.room.wake_all();
    }

    /// Notes that a moment has come. If the deadline of a caller that waits for room has passed, wakes all callers that wait for room.
    fn wake_overdue(&mut self, now: u64)
        ensures { self.new.core ≡ self.old.core }
    {
        self.moment = now;
        if self.room.next_deadline().is_some_and(|at| at <= now) {
            self.room.wake_all();
        }
    }

    /// Wakes the callers of all calls that have ended.
    fn wake_ended(&mut self)
        ensures { self.new.core
            ≡ record self.old.core { state = record self.old.core.state { ended = [] } } }
    {
        while let Some(id) = self.core.next_ended() {
            self.callers.wake(u64::from(id));
        }
    }

    /// Wakes the tasks that receive from streams for which something came.
    fn wake_heard(&mut self)
        ensures { self.new.core
            ≡ record self.old.core { state = record self.old.core.state { heard = [] } } }
    {
        while let Some(id) = self.core.next_heard() {
            self.streams.wake_receiver(u64::from(id));
        }
    }
}

impl<O: OutboundTransform + Drop, I: InboundTransform + Drop> PolledState
    for PolledClientState<O, I> {
    ghost use Rattle.std.specs.Prelude.{◌≡◌, ℕ, Option, length, is_some, true};
    ghost use Rattle.ttrpc_connection.specs.OneEnd.{lendable};
    ghost use Rattle.ttrpc_polled.specs.Waiting.{sooner};
    ghost use Rattle.ttrpc_polled_client.specs.Held.{Breaks, EndsInput, ExpiresAt, LendsAndReports, TakesPiece, TicksAndTells};

    ghost takes = { λ old piece _ count new. TakesPiece O.OutboundTransform I.InboundTransform
        old.core piece count new.core };

    ghost ends = { λ old new. EndsInput old.core new.core };

    ghost breaks = { λ old _ new. Breaks old.core new.core };

    ghost lends = { λ old before count after new. LendsAndReports old.core
        before count after new.core };

    ghost lendable = { λ held. lendable held.core.connection };

    ghost ticks = { λ old now new. TicksAndTells O.SEALS old.core now new.core };

    ghost expires = { λ held at. (soonest : Option ℕ) × ExpiresAt held.core soonest
        × (at ≡ sooner soonest held.room.soonest) };

    ghost failed = { λ held. is_some held.core.connection.failure };

    ghost senders = { λ held. length held.streams.senders };

    ghost wants = { λ _. true };

    fn take(&mut self, alloc: Global, piece: &[u8], _now: u64) -> Option<usize> {
        let Ok(count) = self.core.feed(alloc, piece) else {
            self.wake_all();
            return None;
        };
        self.wake_ended();
        self.wake_heard();
        Some(count)
    }

    fn ended(&mut self) {
        self.core.end_of_input();
        self.wake_all();
    }

    fn broke(&mut self, kind: ErrorKind) {
        self.core.fail(socket_of(self.alloc, &kind));
        self.wake_all();
    }

    fn lendable(&self) -> usize {
        self.core.lendable()
    }

    fn lend(&mut self, buffer: &mut [u8]) -> usize {
        let count = self.core.lend(buffer);
        self.core.wrote(count);
        self.streams.wake_sent(self.alloc, &self.core);
        if count > 0 {
            self.room.wake_all();
        }
        count
    }

    fn tick(&mut self, now: u64) {
        self.core.tick(now);
        self.wake_overdue(now);
        self.wake_ended();
        self.wake_if_failed();
    }

    fn next_deadline(&self) -> Option<u64> {
        sooner(self.core.next_deadline(), self.room.next_deadline())
    }

    fn has_failed(&self) -> bool {
        self.core.has_failed()
    }

    fn senders(&self) -> usize {
        self.streams.senders()
    }

    fn wants_input(&self) -> bool {
        true
    }

    fn driver(&mut self) -> &mut Option<Waker> {
        &mut self.driver
    }
}
