//! The state that the streams of a connection share with its future.
ghost use Rattle.std.specs.Prelude.{◌≡◌, ◌++◌, ℕ, List, [], None, length};
ghost use Rattle.std.specs.BTreeMap.{is_at};
ghost use Rattle.std.specs.Ordering.{nat_cmp};
ghost use Rattle.std.specs.Set.{remove_key};
ghost use Rattle.futures.specs.Poll.{OnPending};
ghost use Rattle.futures.specs.Task.{Covers, Keeps};
ghost use Rattle.ttrpc_polled.specs.Streams.Polling.{Polls, answer_of};
ghost use Rattle.ttrpc_polled.specs.Streams.Steps.{IsStep, WaitsForRoom, is_new};
ghost use Rattle.ttrpc_polled.specs.Streams.Waiting.{IfUnsent, nobody};

use crate::streams::sending::Sending;
use crate::{RoomWakers, Wakers};
use futures::task::{Context, Poll, Source};
use std::alloc::Global;
use std::marker::Model;
use ttrpc_connection::StreamCore;
use ttrpc_proto::Result;
use ttrpc_wire::Blob;

/// The end of a connection to which a stream belongs.
#[derive(Clone, Copy, Debug, PartialEq, Eq)]
pub enum Kind {
    /// The client's end.
    Client,
    /// The server's end.
    Server,
}

/// The state that the streams of a connection share: under its lock a core, and the wakers of waiting tasks. Each call takes the lock, and
/// makes the steps of the given call on the core.
pub trait StreamLine: Drop {
    ghost use Rattle.std.specs.Prelude.{ℕ};

    /// The name of a stream.
    type Id: Ord + Copy + Drop;

    // The source at which the users of the streams wait.
    ghost came: { Self → ℕ };

    /// Returns which end of the connection this is.
    fn kind(&self) -> Kind;

    /// Steps a call that sends on this stream. If pending, the caller is woken once there is an answer.
    fn poll_sending(
        &self,
        alloc: Global,
        id: Self::Id,
        sending: &mut Sending,
        cx: &mut Context<'_>,
    ) -> Poll<Result<()>>
        ensures registered { OnPending result (Covers cx.new (λ s. s ≡ came self.now)) }
        ensures kept { Keeps cx.old cx.new };

    /// Receives from this stream. If pending, the caller is woken once something came.
    fn poll_receiving(
        &self,
        alloc: Global,
        id: Self::Id,
        cx: &mut Context<'_>,
    ) -> Poll<Result<Blob>>
        ensures registered { OnPending result (Covers cx.new (λ s. s ≡ came self.now)) }
        ensures kept { Keeps cx.old cx.new };

    /// Reports that no task receives from this stream any more.
    fn drop_receiver(&self, id: Self::Id);

    /// Reports that no task sends on this stream any more.
    fn drop_sender(&self, id: Self::Id);
}

/// The wakers of the users of a connection's streams. Contracts see them as the things that these users wait for.
#[derive(Drop)]
pub struct StreamWakers {
    senders: Wakers,
    receivers: Wakers,
}

impl Model for StreamWakers {
    ghost use Rattle.ttrpc_polled.specs.Streams.Waiting.{Waiting};

    ghost Value = { Waiting };

    ghost view = { λ w. record { senders = w.senders; receivers = w.receivers } };
}

impl StreamWakers {
    /// Makes an empty collection of wakers.
    pub fn new(alloc: Global) -> StreamWakers
        ensures { result ≡ nobody }
    {
        StreamWakers {
            senders: Wakers::new(alloc),
            receivers: Wakers::new(alloc),
        }
    }

    /// Returns how many tasks wait for frames to be sent.
    pub fn senders(&self) -> usize
        ensures { result ≡ length self.now.senders }
    {
        self.senders.len()
    }

    /// Returns how many tasks wait to receive.
    pub fn receivers(&self) -> usize
        ensures { result ≡ length self.now.receivers }
    {
        self.receivers.len()
    }

    /// Wakes the task that receives from this stream.
    pub fn wake_receiver(&mut self, id: u64)
        ensures { self.new
            ≡ record self.old { receivers = remove_key (is_at (nat_cmp id)) self.old.receivers } }
    {
        self.receivers.wake(id);
    }

    /// Wakes the senders of frames that have left the core, up to the first frame that hasn't.
    pub fn wake_sent<C: StreamCore>(&mut self, alloc: Global, core: &C)
        ensures first { IfUnsent (λ ticket. C.tells_sent core.now ticket None) self.new.senders }
        ensures woken { (woken : List ℕ) × (self.old.senders ≡ woken ++ self.new.senders) }
        ensures receivers { self.new.receivers ≡ self.old.receivers }
    {
        while let Some(ticket) = self.senders.first() {
            if core.item_sent(alloc, ticket).is_none() {
                return;
            }
            self.senders.wake(ticket);
        }
    }

    /// Wakes all tasks, since the connection has failed.
    pub fn wake_all(&mut self)
        ensures { self.new ≡ nobody }
    {
        self.senders.wake_all();
        self.receivers.wake_all();
    }

    /// Steps a call that sends on a stream, on a core that is lent. Asks for the call's frame, if it hasn't yet, and then whether the frame
    /// was sent. If there is no room for the frame, or no answer yet, waits at this source.
    pub fn poll_sending_on<C: StreamCore>(
        &mut self,
        alloc: Global,
        core: &mut C,
        id: C::Id,
        room: &mut RoomWakers,
        sending: &mut Sending,
        came: &Source,
        cx: &mut Context<'_>,
    ) -> Poll<Result<()>>
        ensures polls { Polls is_new WaitsForRoom (IsStep C.sends C.refuses C.closes C.refuses_close
            C.tells_sent id) core.old sending.old result sending.new core.new }
        ensures registered { OnPending result (Covers cx.new (λ s. s ≡ came.now.id)) }
        ensures kept { Keeps cx.old cx.new }
    {
        if sending.is_new() {
            if let Some(refusal) = sending.step(alloc, core, id) {
                return Poll::Ready(refusal);
            }
            if sending.is_new() {
                let place = room.place(sending.place());
                sending.stall(place);
                return room.wait(place, came, cx);
            }
        }
        if let Some(answer) = sending.step(alloc, core, id) {
            return Poll::Ready(answer);
        }
        match sending.ticket() {
            Some(ticket) => self.senders.wait(ticket, came, cx),
            None => cx.yield_now(),
        }
    }

    /// Receives from a stream of a core that is lent. If nothing came yet, waits at this source.
    pub fn poll_receiving_on<K: Ord + Copy + Into<u64> + Drop, C: StreamCore<Id = K>>(
        &mut self,
        alloc: Global,
        core: &mut C,
        id: K,
        came: &Source,
        cx: &mut Context<'_>,
    ) -> Poll<Result<Blob>>
        ensures receives { C.receives core.old id (answer_of result) core.new }
        ensures registered { OnPending result (Covers cx.new (λ s. s ≡ came.now.id)) }
        ensures kept { Keeps cx.old cx.new }
    {
        match core.recv_item(alloc, id) {
            Some(received) => Poll::Ready(received),
            None => self.receivers.wait(id.into(), came, cx),
        }
    }
}
