//! The core of a client: calls and frames go in, and requests and outcomes come out. A call without an `alloc` argument takes no memory.
ghost use Rattle.std.specs.Prelude.{◌≡◌, ◌≢◌, ◌⊎◌, ◌<◌, ◌≤◌, ◌%◌, ◌^◌, ◌+◌, ◌++◌, ◌↔◌, ℕ, List, [], length, is_some, true, option_to_list, IfOk, IfErr, OnOk, OnErr, IfSome, IfNone, Some, None};
ghost use Rattle.ttrpc_proto.specs.declared.error.Error.{Error as AnError};
ghost use Rattle.ttrpc_proto.specs.Framing.Frames.{Holds, nothing};
ghost use Rattle.ttrpc_proto.specs.Framing.Queue.{free, unsent};
ghost use Rattle.ttrpc_secure.specs.Hooks.Facts.{facts_of};
ghost use Rattle.ttrpc_secure.specs.Sends.{joined, needed};
ghost use Rattle.ttrpc_connection.specs.declared.failure.Failure.{Failure as AFailure};
ghost use Rattle.ttrpc_connection.specs.Feeds.{IsFailed};
ghost use Rattle.ttrpc_connection.specs.OneEnd.{Ends, Lends, Takes, failing, lendable, lending, reporting};
ghost use Rattle.ttrpc_connection.specs.Frames.{safe_limit};
ghost use Rattle.ttrpc_client.specs.State.{IsClient, throws, IsDeadline, due_ids};
ghost use Rattle.ttrpc_client.specs.Protocol.{Forgets, Requests, TakesOutcome, Ticks, new_core, taken_back, IsRequestFrame, IsSendable, IsTooLong, RefusesRequest, request_size};
ghost use Rattle.ttrpc_client.specs.Inside.{calling, Begins, IsUnwritten, IsWritten, MayRefuse};
ghost use Rattle.ttrpc_client.specs.Streams.{AreStreams};

use crate::call::{CallId, CallState};
use crate::errors::{above_limit_error, deadline_error, used_up_error};
use crate::kind::ClientKind;
use crate::landing::CallOutcome;
use crate::state::ClientState;
use std::alloc::Global;
use std::io::ErrorKind;
use ttrpc_connection::deadlines::deadline_of;
use ttrpc_connection::items::unsent_error;
use ttrpc_connection::parts::parts_of;
use ttrpc_connection::{Connection, Failure, Outbox};
use ttrpc_proto::framing::header::oversize::oversize_error;
use ttrpc_proto::framing::owners::Owners;
use ttrpc_proto::{Error, GenMessage, MESSAGE_LENGTH_MAX, MessageHeader, Queued, Request};
use ttrpc_secure::context::errors::or_no_memory;
use ttrpc_secure::sending::{DataParts, SendError};
use ttrpc_secure::{
    ConnectionContext, ConnectionData, InboundTransform, OutboundTransform, TransformError,
};
use ttrpc_wire::codec::in_place::{Around, encode_around};
use ttrpc_wire::{Blob, Codec, CodecError};

/// The core of a client, over its connection's two halves.
pub struct ClientCore<O, I> {
    pub(crate) state: ClientState,
    pub(crate) connection: Connection<O, I>,
}

/// The method is written out, so that a crate above proves nothing about the parts that are dropped here.
impl<O: Drop, I: Drop> Drop for ClientCore<O, I> {
    fn drop(self) {
        let ClientCore {
            state: _,
            connection: _,
        } = self;
    }
}

impl<O: OutboundTransform + Drop, I: InboundTransform + Drop> ClientCore<O, I> {
    /// Returns a core without calls, which gives its first call id 1. Returns `NoMemory` if the memory for the frames that are to wait was
    /// refused.
    pub fn new(
        alloc: Global,
        kind: ClientKind,
        context: ConnectionContext<O, I>,
    ) -> Result<Self, Error>
        ensures ok { IfOk result (λ core. core ≡ new_core kind 1
            (facts_of context.connection_data.entries) context.outbound context.inbound) }
        ensures only_memory { IfErr result (λ e. e ≡ AnError.NoMemory) }
    {
        ClientCore::starting_at(alloc, kind, context, 1)
    }

    /// Returns a core without calls, as `new` does, which gives its first call this odd id.
    pub fn starting_at(
        alloc: Global,
        kind: ClientKind,
        context: ConnectionContext<O, I>,
        id: CallId,
    ) -> Result<Self, Error>
        requires { id % 2 ≡ 1 }
        ensures ok { IfOk result (λ core. core ≡ new_core kind id
            (facts_of context.connection_data.entries) context.outbound context.inbound) }
        ensures only_memory { IfErr result (λ e. e ≡ AnError.NoMemory) }
    {
        let connection = Connection::new(alloc, context)?;
        Ok(ClientCore {
            state: ClientState::new(alloc, kind, id),
            connection,
        })
    }

    /// Returns the facts known about the connection, as its context had them.
    pub fn connection_data(&self) -> &ConnectionData
        ensures { facts_of result.now.entries ≡ self.now.connection.known }
    {
        self.connection.connection_data()
    }

    /// Makes a call: seals and queues its request under the next id, and returns the id. A refusal changes nothing, and it is `NoRoom` if
    /// fewer bytes are free than the request's frame may need. The call's deadline is `now`, in nanoseconds, plus the request's timeout.
    pub fn request(&mut self, alloc: Global, request: &Request, now: u64) -> Result<CallId, Error>
        ensures ok { IfOk result
            (λ id. Requests O.OutboundTransform self.old request.now now id self.new) }
        ensures refused { IfErr result (RefusesRequest O.OutboundTransform self.old request.now) }
        ensures err { OnErr result (self.new ≡ self.old) }
    {
        let size = self.check_request(alloc, request)?;
        let (id, around) = self.write_request(alloc, request, size)?;
        let deadline = deadline_of(now, request.timeout_nano);
        match self.begin(alloc, id, parts_of(request, &around), deadline) {
            Ok(()) => Ok(id),
            Err(refused) => Err(unsent_error(alloc, &refused)),
        }
    }

    /// Returns the size of a request, or an error if the connection has failed or the request is longer than a message may be.
    pub(crate) fn check_request(&self, alloc: Global, request: &Request) -> Result<usize, Error>
        ensures size { IfOk result (λ size. size ≡ request_size request.now) }
        ensures ok { OnOk result (IsSendable self.now request.now) }
        ensures err { IfErr result (λ told. IsFailed self.now.connection.failure told
            ⊎ IsTooLong self.now request.now told) }
    {
        self.connection.check_alive(alloc)?;
        let size = request.size() as usize;
        if size > MESSAGE_LENGTH_MAX {
            return Err(or_no_memory(oversize_error(alloc, size, false)));
        }
        Ok(size)
    }

    /// Returns the next id, and the bytes around the payload of a request of this size, which is no longer than a message may be.
    pub(crate) fn write_request(
        &self,
        alloc: Global,
        request: &Request,
        size: usize,
    ) -> Result<(CallId, Around), Error>
        requires size { size ≡ request_size request.now }
        requires sendable { IsSendable self.now request.now }
        ensures ok { IfOk result (λ written. IsWritten O.OutboundTransform self.now request.now
            written.0 (written.1.before ++ (request.now.payload ++ written.1.after))) }
        ensures err { IfErr result (IsUnwritten O.OutboundTransform self.now request.now) }
    {
        let Some(id) = self.state.next_id() else {
            return Err(used_up_error(alloc));
        };
        let limit = self.connection.outbox.limit();
        if size > limit {
            return Err(above_limit_error(alloc, self.state.kind(), size, limit));
        }
        if !self.connection.outbox.has_room(size) {
            return Err(Error::NoRoom);
        }
        let room = size.saturating_sub(request.payload.len());
        match encode_around(alloc, request, room) {
            Ok(around) => Ok((id, around)),
            Err(CodecError::NoMemory) => Err(Error::NoMemory),
            Err(_) => unreachable!(),
        }
    }

    /// Keeps a new call, and seals and queues its request, which is no longer than the limit. An `Err` changes nothing.
    fn begin(
        &mut self,
        alloc: Global,
        id: CallId,
        parts: DataParts<'_>,
        deadline: Option<u128>,
    ) -> Result<(), TransformError>
        // The id is the next one, and the request fits, also into the queue.
        requires next { id ≡ self.old.state.next }
        requires fits { length (joined parts)
            ≤ safe_limit O.OutboundTransform self.old.connection.outbox.half }
        requires room { needed O.OutboundTransform self.old.connection.outbox.half (joined parts)
            ≤ free self.old.connection.outbox.queue }
        // The call waits, and its request is queued. Or memory was refused, or the half refused the request, and nothing changed.
        ensures ok { OnOk result
            (Begins O.OutboundTransform self.old id (joined parts.entry) deadline self.new) }
        ensures refused { IfErr result
            (MayRefuse O.OutboundTransform self.old (IsRequestFrame id) (joined parts.entry)) }
        ensures err { OnErr result (self.new ≡ self.old) }
    {
        if self.state.admit(id, deadline).is_err() {
            return Err(TransformError::NoMemory);
        }
        let frame = request_frame(alloc, id);
        match self.connection.outbox.send(alloc, frame, parts) {
            Ok(()) => Ok(()),
            Err(SendError::Failed(error)) => {
                self.state.undo_admit(id);
                Err(error)
            }
            Err(SendError::TooLong | SendError::NoRoom) => unreachable!(),
        }
    }

    /// Forgets a call. If the call still waits and its request may be thrown away, the request is thrown away. If the request has begun to
    /// leave, the connection fails instead. After a failure of the connection, the call is only forgotten.
    pub fn drop_call(&mut self, id: CallId)
        ensures { Forgets O.SEALS self.old id self.new }
    {
        let waited = matches!(self.state.forget(id), Some(CallState::Waiting(_)));
        if !waited || self.connection.has_failed() || !self.throws() {
            return;
        }
        take_back(
            &mut self.connection,
            &u64::from(id),
            Failure::CancelledDuringWrite,
        );
    }

    /// Reports that this moment, in nanoseconds, has come. The calls with a deadline at or before it expire. If requests may be thrown
    /// away, the requests of these calls are, and the connection fails if one of them has begun to leave. After a failure of the
    /// connection, nothing changes.
    pub fn tick(&mut self, now: u64)
        ensures failed { (f : AFailure)
            → self.old.connection.failure ≡ Some f → self.new ≡ self.old }
        ensures alive { self.old.connection.failure ≡ None → Ticks O.SEALS self.old now self.new }
    {
        if self.connection.has_failed() {
            return;
        }
        self.connection.outbox.lemma_is_queue();
        let Some(soonest) = self.state.next_deadline() else {
            return;
        };
        if now < soonest {
            return;
        }
        if self.throws() {
            let due = DueCalls {
                state: &self.state,
                moment: now,
            };
            take_back(&mut self.connection, &due, Failure::DeadlineDuringWrite);
        }
        self.state.expire(now);
    }

    /// Returns the least moment at which `tick` would expire a call, or none if it never would.
    pub fn next_deadline(&self) -> Option<u64>
        ensures some { IfSome result
            (λ at. (self.now.connection.failure ≡ None) × IsDeadline self.now.state.calls at) }
        ensures none { IfNone result (self.now.connection.failure ≡ None
            → (now : ℕ) → now < 2 ^ 64 → due_ids now self.now.state.calls ≡ []) }
    {
        if self.connection.has_failed() {
            return None;
        }
        self.state.next_deadline()
    }

    /// Returns whether requests may be thrown away before they begin to leave.
    fn throws(&self) -> bool
        ensures { result ≡ throws self.now.state.kind O.SEALS }
    {
        self.state.kind() == ClientKind::Async && !O::SEALS
    }

    /// Takes a piece of input whole, and returns its length. Each frame that is whole with it acts, in order. The connection fails if
    /// memory for a frame is refused. Then and from then on the call returns that failure.
    pub fn feed(&mut self, alloc: Global, piece: &[u8]) -> Result<usize, Error>
        ensures whole { IfOk result (λ n. n ≡ length piece.now) }
        ensures takes { Takes (calling O.OutboundTransform I.InboundTransform) self.old.state
            self.old.connection piece.now 0 result self.new.state self.new.connection }
    {
        // A client's rules don't use the moment at which a frame came.
        self.connection.feed(alloc, &mut self.state, piece, 0)
    }

    /// Returns whether the input so far ends with a whole frame, or is empty.
    pub fn at_boundary(&self) -> bool
        ensures nothing { (result ≡ true) ↔ (self.now.connection.decoder ≡ nothing) }
        ensures held { (rest : List ℕ) × Holds self.now.connection.decoder rest }
    {
        self.connection.at_boundary()
    }

    /// Takes the outcome of a call, once, or returns none if there is no such call or no outcome yet. If memory for the text of the outcome
    /// was refused, the outcome is `NoMemory`.
    pub fn take_outcome(&mut self, alloc: Global, id: CallId) -> Option<CallOutcome>
        ensures { TakesOutcome self.old id result self.new }
    {
        let failed = self.connection.has_failed();
        match self.state.take(id, failed)? {
            CallState::Ended(outcome) => Some(outcome),
            CallState::Expired => Some(Err(deadline_error(alloc))),
            CallState::Waiting(_) => match self.connection.failure(alloc) {
                Some(error) => Some(Err(error)),
                None => unreachable!(),
            },
        }
    }

    /// Takes the first of the calls that ended, by a frame or their deadline, and weren't reported by this call yet. The id of each call
    /// that ended is kept until this call returns it, also after its outcome was taken, or until no call is kept at all. So if a caller
    /// never asks, while at least one call is always kept, ever more ids are kept.
    pub fn next_ended(&mut self) -> Option<CallId>
        ensures first { self.old.state.ended ≡ option_to_list result ++ self.new.state.ended }
        ensures none { IfNone result (self.old.state.ended ≡ []) }
        ensures let_go { self.old.state.calls ≡ [] → self.old.state.ended ≡ [] }
        ensures same { self.new
            ≡ record self.old { state = record self.old.state { ended = self.new.state.ended } } }
    {
        self.state.next_ended()
    }

    /// States that a client's ids are odd, and that it keeps calls and streams only under ids below the next one, never both under one id.
    /// A lemma, which does nothing when it runs.
    pub fn lemma_is_client(&self)
        ensures calls { IsClient self.now.state.next self.now.state.calls }
        ensures streams { AreStreams self.now.state.next
            self.now.state.calls self.now.state.streams }
    {
        self.state.lemma_is_client();
    }

    /// Reports that the input ended. The connection fails, if it hasn't failed.
    pub fn end_of_input(&mut self)
        ensures ends { Ends self.old.connection self.new.connection }
        ensures same { self.new ≡ record self.old { connection = self.new.connection } }
    {
        self.connection.end_of_input();
    }

    /// Fails the connection with this error, if it hasn't failed. The failure is then the outcome of each call that waits.
    pub fn fail(&mut self, error: Error)
        ensures { self.new
            ≡ record self.old { connection = failing self.old.connection (Failure.Told error) } }
    {
        self.connection.fail(Failure::Told(error));
    }

    /// Fails the connection, if it hasn't failed, because its reader or writer broke with an error of this kind. The failure is reported as
    /// `Socket` with the text of the kind, which is made when it is reported.
    pub fn broke(&mut self, kind: ErrorKind)
        ensures { self.new
            ≡ record self.old { connection = failing self.old.connection (Failure.Broke kind) } }
    {
        self.connection.fail(Failure::Broke(kind));
    }

    /// Returns whether the connection has failed.
    pub fn has_failed(&self) -> bool
        ensures { result ≡ is_some self.now.connection.failure }
    {
        self.connection.has_failed()
    }

    /// Returns the error of the failure, if the connection has failed, or `NoMemory` if memory for its text was refused.
    pub fn failure(&self, alloc: Global) -> Option<Error>
        ensures none { IfNone result (self.now.connection.failure ≡ None) }
        ensures told { IfSome result (IsFailed self.now.connection.failure) }
    {
        self.connection.failure(alloc)
    }

    /// Copies the first bytes of the rest of the first unfinished frame, as many as fit, and returns how many. Returns 0 only if none fit,
    /// nothing is left to be written, or the connection has failed.
    pub fn lend(&mut self, buffer: &mut [u8]) -> usize
        ensures lends { Lends self.old.connection buffer.old result buffer.new }
        ensures lent { self.new
            ≡ record self.old { connection = lending self.old.connection result } }
    {
        self.connection.lend(buffer)
    }

    /// Reports this many of the lent bytes as written.
    pub fn wrote(&mut self, n: usize)
        requires { n ≤ self.old.connection.outbox.queue.lent }
        ensures { self.new ≡ record self.old { connection = reporting self.old.connection n } }
    {
        self.connection.wrote(n)
    }

    /// Returns how many bytes a `lend` copies if all fit.
    pub fn lendable(&self) -> usize
        ensures { result ≡ lendable self.now.connection }
    {
        self.connection.lendable()
    }

    /// Returns whether anything is left to be written. After a failure the rest is never lent.
    pub fn has_unsent(&self) -> bool
        ensures { (result ≡ true) ↔ (unsent self.now.connection.outbox.queue ≢ []) }
    {
        self.connection.has_unsent()
    }

    /// Returns how many bytes the last `lend` since the last report gave.
    pub fn lent(&self) -> usize
        ensures { result ≡ self.now.connection.outbox.queue.lent }
    {
        self.connection.lent()
    }
}

/// The calls of a client that are due at a moment.
#[derive(Drop)]
struct DueCalls<'a> {
    state: &'a ClientState,
    moment: u64,
}

impl Owners for DueCalls<'_> {
    ghost use Rattle.ttrpc_client.specs.State.{call_at, due_at};

    ghost has = { λ due id. due_at due.moment (call_at due.state.now id) };

    fn has(&self, owner: u64) -> bool {
        self.state.is_due(owner, self.moment)
    }
}

/// Takes back the requests of these calls. The requests that haven't begun to leave are thrown away, and the connection fails for this
/// reason if one has.
fn take_back<O: OutboundTransform + Drop, I: InboundTransform + Drop, W: Owners>(
    connection: &mut Connection<O, I>,
    calls: &W,
    why: Failure,
)
    ensures { connection.new ≡ taken_back connection.old (W.has calls.now) why }
{
    let has_begun = connection.outbox.has_begun(calls);
    connection.outbox.throw_away(calls);
    if has_begun {
        connection.fail(why);
    }
}

/// Returns the frame for the request of a call, without its payload.
fn request_frame(alloc: Global, id: CallId) -> Queued
    ensures { IsRequestFrame id result }
{
    Queued {
        message: GenMessage {
            header: MessageHeader::new_request(id, 0),
            payload: Blob::new(alloc),
        },
        ticket: None,
        is_unary_request: true,
        owner: u64::from(id),
    }
}
