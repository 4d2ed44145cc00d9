//! The state of a client core, without its connection, and its reactions to whole frames. A function without an `alloc` argument takes no
//! memory, except `admit`, `admit_stream` and `deliver`.
ghost use Rattle.std.specs.Prelude.{◌≡◌, ◌%◌, ◌+◌, ◌++◌, ◌<◌, ◌^◌, ℕ, [], true, false, option_to_list, IfErr, IfSome, IfNone, OnOk, OnErr, None, Option, Some};
ghost use Rattle.std.specs.BTreeMap.{is_at};
ghost use Rattle.std.specs.Option.{option_map};
ghost use Rattle.std.specs.Ordering.{nat_cmp};
ghost use Rattle.std.specs.Set.{remove_key};
ghost use Rattle.ttrpc_proto.specs.declared.error.Error.{Error as AnError};
ghost use Rattle.ttrpc_connection.specs.Failure.{IsTold};
ghost use Rattle.ttrpc_client.specs.State.{Client, IsClient, call_at, new_client, stream_at, waits, IsDeadline, due_at, due_ids};
ghost use Rattle.ttrpc_client.specs.Streams.{AreStreams, StreamsStay, with_delivery, with_sender, without_reader, without_sender};
ghost use Rattle.ttrpc_client.specs.Protocol.{Expires, heard_with, last_id};
ghost use Rattle.ttrpc_client.specs.Streaming.{ReceivesAt, unsendable};
ghost use Rattle.ttrpc_client.specs.Inside.{Admits, AdmitsStream, ExpiresOne, Leaves, Settles, Takes, given_of};
ghost use Rattle.ttrpc_client.specs.declared.streams.Sender.{Sender as ASender};
ghost use Rattle.ttrpc_client.specs.declared.streams.StreamState.{StreamState as AStream};

use crate::call::{CallId, CallState, waits_until};
use crate::kind::ClientKind;
use crate::landing::{CallOutcome, StreamDelivery, delivery_of, outcome_of};
use crate::pending::Pending;
use crate::streams::{StreamId, StreamState, Streams};
use std::alloc::{AllocError, Global};
use std::collections::{BTreeSet, VecDeque};
use std::marker::Model;
use ttrpc_connection::deadlines::Deadlines;
use ttrpc_connection::{Arrived, Failure, Outbox, Reacts};
use ttrpc_proto::Error;
use ttrpc_secure::OutboundTransform;
use ttrpc_wire::Blob;

/// The greatest id.
const LAST_ID: u64 = 4294967295;

/// The calls and streams of a client.
#[derive(Drop)]
pub struct ClientState {
    kind: ClientKind,
    next: u64,
    calls: Pending<CallState>,
    // The deadlines of the calls that wait.
    deadlines: Deadlines,
    // The ended calls, with room for each call that waits, too, so that a call can always end.
    ended: VecDeque<CallId>,
    streams: Streams,
    // The streams for which something came, and that weren't reported since. Each of these streams still has its receiver.
    heard: BTreeSet<StreamId>,
}

impl Model for ClientState {
    ghost use Rattle.std.specs.VecDeque.{deque_capacity, deque_len};
    ghost use Rattle.ttrpc_client.specs.State.{Client};
    ghost use Rattle.ttrpc_client.specs.Kept.{IsKept};
    ghost use Rattle.ttrpc_client.specs.Streams.{AreStreams};
    ghost use Rattle.ttrpc_client.specs.pending.Places.{entries_in};

    ghost Value = { Client };

    ghost view = { λ a. record {
      kind = a.kind;
      next = a.next;
      calls = entries_in a.calls;
      ended = a.ended.items;
      streams = a.streams;
      heard = a.heard.keys;
    } };

    ghost invariant = { λ a. IsKept a.next (entries_in a.calls) a.deadlines a.ended.items
        (deque_len a.ended) (deque_capacity a.ended)
        × AreStreams a.next (entries_in a.calls) a.streams };
}

impl ClientState {
    /// Returns a state without calls, which gives its first call this odd id. Takes no memory.
    pub(crate) fn new(alloc: Global, kind: ClientKind, id: CallId) -> Self
        requires { id % 2 ≡ 1 }
        ensures { result ≡ new_client kind id }
    {
        ClientState {
            kind,
            next: u64::from(id),
            calls: Pending::new(alloc),
            deadlines: Deadlines::new(alloc),
            ended: VecDeque::new(alloc),
            streams: Streams::new(alloc),
            heard: BTreeSet::new(alloc),
        }
    }

    /// States the properties of every client. A lemma, which does nothing when it runs.
    pub(crate) fn lemma_is_client(&self)
        ensures calls { IsClient self.now.next self.now.calls }
        ensures streams { AreStreams self.now.next self.now.calls self.now.streams }
    {
        let _next = self.next;
    }

    pub(crate) fn kind(&self) -> ClientKind
        ensures { result ≡ self.now.kind }
    {
        self.kind
    }

    /// Returns the id of the next call, if one is left.
    pub(crate) fn next_id(&self) -> Option<CallId>
        ensures some { IfSome result (λ id. id ≡ self.now.next) }
        ensures none { IfNone result (last_id < self.now.next) }
    {
        if self.next > LAST_ID {
            return None;
        }
        Some(self.next as u32)
    }

    /// Keeps a new call, which waits until this deadline if there is one. An `Err` changes nothing.
    pub(crate) fn admit(&mut self, id: CallId, deadline: Option<u128>) -> Result<(), AllocError>
        requires { id ≡ self.old.next }
        ensures ok { OnOk result (Admits self.old id deadline self.new) }
        ensures err { OnErr result (self.new ≡ self.old) }
    {
        self.ended.reserve(self.calls.len() + 1)?;
        self.deadlines.add(u64::from(id), deadline)?;
        if self
            .calls
            .push_last(id, CallState::Waiting(deadline))
            .is_err()
        {
            self.deadlines.take_away(u64::from(id), deadline);
            return Err(AllocError);
        }
        self.next += 2;
        Ok(())
    }

    /// Takes back the call that was admitted last.
    pub(crate) fn undo_admit(&mut self, id: CallId)
        requires last { self.old.next ≡ id + 2 }
        requires call { stream_at self.old id ≡ None }
        ensures { (old : Client) → (deadline : Option ℕ)
            → Admits old id deadline self.old → self.new ≡ old }
    {
        let _ = self.forget(id);
        self.next -= 2;
    }

    /// Forgets a call, and returns the state that was kept of it.
    pub(crate) fn forget(&mut self, id: CallId) -> Option<CallState>
        ensures was { result ≡ call_at self.old id }
        ensures leaves { Leaves self.old id self.new }
    {
        let call = self.calls.remove(id);
        self.deadlines.take_away(u64::from(id), waits_until(&call));
        if self.calls.is_empty() {
            self.ended.clear();
        }
        call
    }

    /// Takes out the call of this id if its outcome can be given: the call has ended, or it waits and the connection has failed.
    pub(crate) fn take(&mut self, id: CallId, failed: bool) -> Option<CallState>
        ensures given { result ≡ given_of failed (call_at self.old id) }
        ensures takes { Takes failed self.old id self.new }
    {
        match self.calls.get(id) {
            None => None,
            Some(CallState::Waiting(_)) if !failed => None,
            Some(CallState::Waiting(_) | CallState::Expired | CallState::Ended(_)) => self.forget(
                id,
            ),
        }
    }

    /// Returns whether a call of this id is due at this moment.
    pub(crate) fn is_due(&self, id: u64, now: u64) -> bool
        ensures { result ≡ due_at now (call_at self.now id) }
    {
        let calls = &self.calls;
        match u32::try_from(id) {
            Ok(id) => calls.get(id).is_some_and(|call| call.is_due(now)),
            Err(_) => false,
        }
    }

    /// Expires the calls that are due at this moment.
    pub(crate) fn expire(&mut self, now: u64)
        ensures { Expires self.old now self.new }
    {
        while let Some(_) = self.expire_first(now) {}
    }

    /// Expires the first of the calls that are due at this moment, and returns its id.
    fn expire_first(&mut self, now: u64) -> Option<CallId>
        ensures some { IfSome result (λ id. ExpiresOne self.old now id self.new) }
        ensures none { IfNone result ((self.new ≡ self.old) × (due_ids now self.old.calls ≡ [])) }
    {
        let (deadline, id) = self.deadlines.first()?;
        if deadline > u128::from(now) {
            return None;
        }
        let id = id as u32;
        self.settle(id, CallState::Expired);
        Some(id)
    }

    /// Returns the least moment at which a call expires, if there is one.
    pub(crate) fn next_deadline(&self) -> Option<u64>
        ensures some { IfSome result (IsDeadline self.now.calls) }
        ensures none { IfNone result ((now : ℕ) → now < 2 ^ 64 → due_ids now self.now.calls ≡ []) }
    {
        let (deadline, _) = self.deadlines.first()?;
        u64::try_from(deadline).ok()
    }

    /// Takes the first of the calls that ended and weren't reported yet. There is none if no call is kept.
    pub(crate) fn next_ended(&mut self) -> Option<CallId>
        ensures first { self.old.ended ≡ option_to_list result ++ self.new.ended }
        ensures none { IfNone result (self.old.ended ≡ []) }
        ensures let_go { self.old.calls ≡ [] → self.old.ended ≡ [] }
        ensures same { self.new ≡ record self.old { ended = self.new.ended } }
    {
        self.ended.pop_front()
    }

    /// Returns whether a call of this id waits.
    fn waits(&self, id: CallId) -> bool
        ensures { result ≡ waits (call_at self.now id) }
    {
        matches!(self.calls.get(id), Some(CallState::Waiting(_)))
    }

    /// Ends a waiting call in this way, and lists it as ended.
    fn settle(&mut self, id: CallId, call: CallState)
        requires waited { waits (call_at self.old id) ≡ true }
        requires ended { waits (Some call) ≡ false }
        ensures { Settles self.old id call self.new }
    {
        let was = self.calls.replace(id, call);
        self.deadlines.take_away(u64::from(id), waits_until(&was));
        match self.ended.push_back(id) {
            Ok(()) => {}
            Err(_) => unreachable!(),
        }
    }
}

/// The calls on streams.
impl ClientState {
    /// Keeps a new stream. An `Err` changes nothing.
    pub(crate) fn admit_stream(
        &mut self,
        id: StreamId,
        stream: StreamState,
    ) -> Result<(), AllocError>
        requires { id ≡ self.old.next }
        ensures ok { OnOk result (AdmitsStream self.old id stream self.new) }
        ensures err { OnErr result (self.new ≡ self.old) }
    {
        self.streams.open(id, stream)?;
        self.next += 2;
        Ok(())
    }

    /// Takes back the stream that was admitted last.
    pub(crate) fn undo_admit_stream(&mut self, id: StreamId)
        requires last { self.old.next ≡ id + 2 }
        requires stream { call_at self.old id ≡ None }
        ensures { (old : Client) → (stream : AStream)
            → AdmitsStream old id stream self.old → self.new ≡ old }
    {
        self.streams.forget(id);
        self.next -= 2;
    }

    /// Returns `Ok` if items may be sent on a stream, or else the error why not.
    pub(crate) fn check_sendable(&self, alloc: Global, id: StreamId) -> Result<(), Error>
        ensures ok { OnOk result (unsendable (stream_at self.now id) ≡ None) }
        ensures err { IfErr result (λ told. (error : AnError)
            × (unsendable (stream_at self.now id) ≡ Some error) × IsTold error told) }
    {
        self.streams.check_sendable(alloc, id)
    }

    /// Marks the sender of a stream as closed.
    pub(crate) fn close(&mut self, id: StreamId)
        ensures own { stream_at self.new id ≡ with_sender ASender.Closed (stream_at self.old id) }
        ensures others { StreamsStay self.old.streams id self.new.streams }
        ensures same { self.new ≡ record self.old { streams = self.new.streams } }
    {
        self.streams.close(id);
    }

    /// Takes the next item of a stream, or returns why there is none.
    pub(crate) fn recv(
        &mut self,
        alloc: Global,
        id: StreamId,
        failure: &Option<Failure>,
    ) -> Option<Result<Blob, Error>>
        ensures own { ReceivesAt failure.now (stream_at self.old id) result
            (stream_at self.new id) }
        ensures others { StreamsStay self.old.streams id self.new.streams }
        ensures same { self.new ≡ record self.old { streams = self.new.streams } }
    {
        self.streams.recv(alloc, id, failure)
    }

    /// Drops the receiver of a stream.
    pub(crate) fn drop_receiver(&mut self, id: StreamId)
        ensures own { stream_at self.new id ≡ without_reader (stream_at self.old id) }
        ensures others { StreamsStay self.old.streams id self.new.streams }
        ensures same { self.new
            ≡ record self.old { streams = self.new.streams; heard = remove_key (is_at (nat_cmp id)) self.old.heard } }
    {
        self.streams.drop_receiver(id);
        self.heard.remove(&id);
    }

    /// Drops the sender of a stream.
    pub(crate) fn drop_sender(&mut self, id: StreamId)
        ensures own { stream_at self.new id ≡ without_sender (stream_at self.old id) }
        ensures others { StreamsStay self.old.streams id self.new.streams }
        ensures same { self.new ≡ record self.old { streams = self.new.streams } }
    {
        self.streams.drop_sender(id);
    }

    /// Takes the first of the streams for which something came, and that weren't reported since.
    pub(crate) fn next_heard(&mut self) -> Option<StreamId>
        ensures first { self.old.heard ≡ option_to_list result ++ self.new.heard }
        ensures none { IfNone result (self.old.heard ≡ []) }
        ensures same { self.new ≡ record self.old { heard = self.new.heard } }
    {
        self.heard.pop_first()
    }

    /// Puts a thing into the mailbox of a stream, and lists the stream as one for which something came, if its receiver gets it. An `Err`
    /// changes nothing.
    fn deliver(&mut self, id: StreamId, delivery: StreamDelivery) -> Result<(), AllocError>
        ensures own { OnOk result (stream_at self.new id
            ≡ option_map (with_delivery delivery.thing delivery.ends) (stream_at self.old id)) }
        ensures others { OnOk result (StreamsStay self.old.streams id self.new.streams) }
        ensures same { OnOk result (self.new
            ≡ record self.old { streams = self.new.streams; heard = heard_with (stream_at self.old id) id self.old.heard }) }
        ensures err { OnErr result (self.new ≡ self.old) }
    {
        if !self.streams.hears(id) {
            return self.streams.put(id, delivery.thing, delivery.ends);
        }
        let is_new = self.heard.insert(id)?;
        let put = self.streams.put(id, delivery.thing, delivery.ends);
        if put.is_err() && is_new {
            self.heard.remove(&id);
        }
        put
    }
}

impl<O: OutboundTransform> Reacts<O> for ClientState {
    ghost use Rattle.ttrpc_client.specs.Inside.{fails_not, lands_once, takes_always};

    ghost reacts = { lands_once };

    ghost fails = { fails_not };

    ghost takes = { takes_always };

    const ROOM: usize = 0;

    ghost ROOM = { 0 };

    fn takes(&self) -> bool {
        true
    }

    fn react(
        &mut self,
        alloc: Global,
        _outbox: &mut Outbox<O>,
        arrived: Arrived,
    ) -> Result<(), Failure> {
        let header = arrived.header;
        let id = header.stream_id;
        if self.waits(id) {
            let outcome = outcome_of(alloc, &header, arrived.opening)?;
            self.settle(id, CallState::Ended(outcome));
        } else if let Some(streaming_server) = self.streams.entered(id) {
            let delivery = delivery_of(alloc, &header, arrived.opening, streaming_server)?;
            self.deliver(id, delivery)?;
        }
        Ok(())
    }
}
