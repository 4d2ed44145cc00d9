//! The state that the threads of a client's connection share.
ghost use Rattle.std.specs.Prelude.{◌≡◌, length, min, nat_eq, None, Some, IfOk, IfErr, IfSome, OnErr, false};
ghost use Rattle.std.specs.Option.{option_map};
ghost use Rattle.ttrpc_connection.specs.declared.failure.Failure.{Failure as AFailure};
ghost use Rattle.ttrpc_connection.specs.OneEnd.{Ends, Lends, Takes, failing, lendable, lending, reporting};
ghost use Rattle.ttrpc_client.specs.Inside.{calling};
ghost use Rattle.ttrpc_client.specs.State.{IsClient};
ghost use Rattle.ttrpc_client.specs.Protocol.{Forgets, Requests, TakesOutcome, Ticks, RefusesRequest};
ghost use Rattle.ttrpc_proto.specs.declared.error.Error.{Error as AnError};
ghost use Rattle.ttrpc_sync.specs.Turns.{given_back, next_of, turn_after, turn_waking, wakes_behind, wakes_writer};
ghost use Rattle.ttrpc_sync_client.specs.Held.{IsFed, TakesPiece, TellsEnded, has_bytes, is_alive, place_of};
ghost use Rattle.ttrpc_sync_client.specs.ReadTurns.{new_turn};

use crate::ports::read_turn::ReadTurn;
use std::alloc::Global;
use std::hint::spin_loop;
use std::io::ErrorKind;
use std::sync::{Condvar, Mutex, Wait};
use ttrpc_client::{CallId, ClientCore};
use ttrpc_proto::{Error, Request, Response, Result};
use ttrpc_secure::{InboundTransform, OutboundTransform};
use ttrpc_sync::{
    ConnectionLock, Loan, LockedState, Next, ReadEnd, Taken, WriteEnd, WriteTurn, lock_soon,
    wait_soon,
};

/// The number of places at which callers wait. The id of a call decides its caller's place.
const PLACES: usize = 16;

/// The places at which a call has ended, one bit each.
pub type EndedPlaces = u32;

/// The threads to wake for a piece.
#[derive(Clone, Copy, Debug)]
pub struct ClientWakeSet {
    /// The callers at these places, since calls have ended there.
    pub callers: EndedPlaces,
    /// True for the reader thread.
    pub reader: bool,
}

/// The port of one reader of a client. It wakes the callers of the calls that have ended.
pub type ClientRead<'a, X, O, I> = ReadEnd<'a, X, ClientLock<O, I>>;

/// The port of one writer of a client.
pub type ClientWrite<'a, X, O, I> = WriteEnd<'a, X, ClientLock<O, I>>;

/// The state under the lock of a client's connection. All ids that its core keeps are odd, and below the next id.
#[derive(Drop)]
pub struct ClientHeld<O, I> {
    pub core: ClientCore<O, I>,
    pub turn: WriteTurn,
    pub reading: ReadTurn,
    ghost pending: { IsClient core.state.next core.state.calls },
}

impl<O: OutboundTransform + Drop, I: InboundTransform + Drop> ClientHeld<O, I> {
    /// Makes the state of this core. No thread has the turn to write or to read.
    pub fn new(core: ClientCore<O, I>) -> Self
        ensures core { result.core ≡ core }
        ensures turn { result.turn ≡ record { is_taken = false; sleeps = false } }
        ensures reading { result.reading ≡ new_turn }
    {
        core.lemma_is_client();
        ClientHeld {
            core,
            turn: WriteTurn::new(),
            reading: ReadTurn::new(),
        }
    }

    /// Makes a call at the moment `now`, in nanoseconds.
    pub fn request(&mut self, alloc: Global, request: &Request, now: u64) -> Result<CallId>
        ensures ok { IfOk result
            (λ id. Requests O.OutboundTransform self.old.core request.now now id self.new.core) }
        ensures refused { IfErr result
            (RefusesRequest O.OutboundTransform self.old.core request.now) }
        ensures err { OnErr result (self.new.core ≡ self.old.core) }
        ensures turns { (self.new.turn ≡ self.old.turn) × (self.new.reading ≡ self.old.reading) }
    {
        let asked = self.core.request(alloc, request, now);
        self.core.lemma_is_client();
        asked
    }

    /// Returns the outcome of a call, once. Returns `None` if there is no outcome yet.
    pub fn take_outcome(&mut self, alloc: Global, id: CallId) -> Option<Result<Response>>
        ensures given { TakesOutcome self.old.core id result self.new.core }
        ensures turns { (self.new.turn ≡ self.old.turn) × (self.new.reading ≡ self.old.reading) }
    {
        let outcome = self.core.take_outcome(alloc, id);
        self.core.lemma_is_client();
        outcome
    }

    /// Reports that the moment `now`, in nanoseconds, has come. Calls with a deadline at or before this moment expire.
    pub fn tick(&mut self, now: u64)
        ensures failed { (f : AFailure) → self.old.core.connection.failure ≡ Some f
            → self.new.core ≡ self.old.core }
        ensures alive { self.old.core.connection.failure ≡ None
            → Ticks O.SEALS self.old.core now self.new.core }
        ensures turns { (self.new.turn ≡ self.old.turn) × (self.new.reading ≡ self.old.reading) }
    {
        self.core.tick(now);
        self.core.lemma_is_client();
    }

    /// Forgets a call.
    pub fn drop_call(&mut self, id: CallId)
        ensures forgotten { Forgets O.SEALS self.old.core id self.new.core }
        ensures turns { (self.new.turn ≡ self.old.turn) × (self.new.reading ≡ self.old.reading) }
    {
        self.core.drop_call(id);
        self.core.lemma_is_client();
    }

    /// Reports the calls that have ended to the turn to read. Returns the places at which their callers wait.
    pub fn note_ended(&mut self) -> EndedPlaces
        ensures told { TellsEnded self.old.core self.old.reading result
            self.new.core self.new.reading }
        ensures turn { self.new.turn ≡ self.old.turn }
    {
        ended_places(&mut self.core, &mut self.reading)
    }

    /// Fails the connection, if it hasn't failed, since no client is left. Takes no memory.
    pub fn abandon(&mut self)
        ensures failed { self.new.core
            ≡ record self.old.core { connection = failing self.old.core.connection (AFailure.Told AnError.LocalClosed) } }
        ensures turns { (self.new.turn ≡ self.old.turn) × (self.new.reading ≡ self.old.reading) }
    {
        self.core.fail(Error::LocalClosed);
    }
}

/// The calls of `ClientRead` and `ClientWrite` on a core that is lent to them under the lock. Each makes one call of the core.
impl<O: OutboundTransform + Drop, I: InboundTransform + Drop> ClientHeld<O, I> {
    /// Feeds a piece to the core, as `take` of a reader's port does. Returns how many bytes the core took.
    pub fn take_on(core: &mut ClientCore<O, I>, alloc: Global, piece: &[u8]) -> Result<usize>
        ensures whole { IfOk result (λ n. n ≡ length piece.now) }
        ensures fed { Takes (calling O.OutboundTransform I.InboundTransform) core.old.state
            core.old.connection piece.now 0 result core.new.state core.new.connection }
    {
        core.feed(alloc, piece)
    }

    /// Reports the end of the input to the core, as `ended` of a reader's port does.
    pub fn ended_on(core: &mut ClientCore<O, I>)
        ensures ends { Ends core.old.connection core.new.connection }
        ensures same { core.new ≡ record core.old { connection = core.new.connection } }
    {
        core.end_of_input();
    }

    /// Fails the connection with an error of this kind, as `broke` of a port does.
    pub fn broke_on(core: &mut ClientCore<O, I>, kind: ErrorKind)
        ensures { core.new
            ≡ record core.old { connection = failing core.old.connection (AFailure.Broke kind) } }
    {
        core.broke(kind);
    }

    /// Lends bytes of the first unsent frame, as `lend` of a writer's port does. Returns how many.
    pub fn lend_on(core: &mut ClientCore<O, I>, buffer: &mut [u8]) -> usize
        ensures lends { Lends core.old.connection buffer.old result buffer.new }
        ensures lent { core.new
            ≡ record core.old { connection = lending core.old.connection result } }
    {
        core.lend(buffer)
    }

    /// Reports `count` bytes of the last loan as written, at most all of them, as `wrote` of a writer's port does.
    pub fn wrote_on(core: &mut ClientCore<O, I>, count: usize)
        ensures { core.new
            ≡ record core.old { connection = reporting core.old.connection (min count core.old.connection.outbox.queue.lent) } }
    {
        let lent = core.lent();
        core.wrote(count.min(lent));
    }
}

impl<O: OutboundTransform + Drop, I: InboundTransform + Drop> LockedState for ClientHeld<O, I> {
    type Woken = ClientWakeSet;

    fn take(&mut self, alloc: Global, piece: &[u8]) -> Option<Taken<ClientWakeSet>>
        ensures whole { IfSome result (λ taken. taken.count ≡ length piece.now) }
        ensures taken { TakesPiece O.OutboundTransform I.InboundTransform self.old.core
            self.old.reading piece.now result self.new.core self.new.reading }
        ensures turn { self.new.turn ≡ self.old.turn }
    {
        let (count, callers) = feed_piece(&mut self.core, &mut self.reading, alloc, piece)?;
        let reader_next = self.reading.reader_next();
        Some(Taken {
            count,
            reads_on: reader_next.reads_on(),
            woken: ClientWakeSet {
                callers,
                reader: reader_next.hands_over(),
            },
        })
    }

    fn ended(&mut self)
        ensures ends { Ends self.old.core.connection self.new.core.connection }
        ensures same { self.new.core
            ≡ record self.old.core { connection = self.new.core.connection } }
        ensures turns { (self.new.turn ≡ self.old.turn) × (self.new.reading ≡ self.old.reading) }
    {
        ClientHeld::ended_on(&mut self.core);
    }

    fn wrote(&mut self, count: usize)
        ensures reported { self.new.core ≡ record self.old.core {
          connection = reporting self.old.core.connection
              (min count self.old.core.connection.outbox.queue.lent);
        } }
        ensures turns { (self.new.turn ≡ self.old.turn) × (self.new.reading ≡ self.old.reading) }
    {
        ClientHeld::wrote_on(&mut self.core, count);
    }

    fn lend(&mut self, buffer: &mut [u8]) -> Loan
        ensures lends { Lends self.old.core.connection buffer.old result.count buffer.new }
        ensures lent { self.new.core
            ≡ record self.old.core { connection = lending self.old.core.connection result.count } }
        ensures frame { result.ends_frame
            ≡ nat_eq result.count (lendable self.old.core.connection) }
        ensures turns { (self.new.turn ≡ self.old.turn) × (self.new.reading ≡ self.old.reading) }
    {
        let open = self.core.lendable();
        let count = ClientHeld::lend_on(&mut self.core, buffer);
        Loan {
            count,
            ends_frame: count == open,
        }
    }

    fn broke(&mut self, kind: ErrorKind)
        ensures failed { self.new.core
            ≡ record self.old.core { connection = failing self.old.core.connection (AFailure.Broke kind) } }
        ensures turns { (self.new.turn ≡ self.old.turn) × (self.new.reading ≡ self.old.reading) }
    {
        ClientHeld::broke_on(&mut self.core, kind);
    }

    fn next(&mut self, has_turn: bool) -> Next
        ensures result { result ≡ next_of self.old.turn.is_taken has_turn (is_alive self.old.core)
            (has_bytes self.old.core) }
        ensures turn { self.new.turn
            ≡ turn_after self.old.turn has_turn (is_alive self.old.core) (has_bytes self.old.core) }
        ensures rest { (self.new.core ≡ self.old.core) × (self.new.reading ≡ self.old.reading) }
    {
        let bytes_wait = self.core.lendable() > 0;
        let stays = !self.core.has_failed();
        self.turn.next(has_turn, stays, bytes_wait)
    }

    fn give_back(&mut self) -> bool
        ensures result { result ≡ wakes_behind self.old.turn (has_bytes self.old.core) }
        ensures turn { self.new.turn ≡ given_back self.old.turn (has_bytes self.old.core) }
        ensures rest { (self.new.core ≡ self.old.core) × (self.new.reading ≡ self.old.reading) }
    {
        let bytes_wait = self.core.lendable() > 0;
        self.turn.give_back(bytes_wait)
    }

    fn wakes_writer(&mut self) -> bool
        ensures result { result ≡ wakes_writer self.old.turn (has_bytes self.old.core) }
        ensures turn { self.new.turn ≡ turn_waking self.old.turn (has_bytes self.old.core) }
        ensures rest { (self.new.core ≡ self.old.core) × (self.new.reading ≡ self.old.reading) }
    {
        self.core.lendable() > 0 && self.turn.wakes()
    }
}

/// Takes a piece, and returns how many bytes it took and at which places calls have ended. Returns `None` if the connection has failed.
fn feed_piece<O: OutboundTransform + Drop, I: InboundTransform + Drop>(
    core: &mut ClientCore<O, I>,
    reading: &mut ReadTurn,
    alloc: Global,
    piece: &[u8],
) -> Option<(usize, EndedPlaces)>
    ensures pending { IsClient core.new.state.next core.new.state.calls }
    ensures whole { IfSome result (λ taken. taken.0 ≡ length piece.now) }
    ensures fed { IsFed O.OutboundTransform I.InboundTransform core.old reading.old piece.now
        (option_map (λ taken. taken.1) result) core.new reading.new }
{
    let taken = ClientHeld::take_on(core, alloc, piece);
    let ended = ended_places(core, reading);
    match taken {
        Ok(count) => Some((count, ended)),
        Err(_) => None,
    }
}

/// Returns the places at which calls have ended that weren't reported yet.
fn ended_places<O: OutboundTransform + Drop, I: InboundTransform + Drop>(
    core: &mut ClientCore<O, I>,
    reading: &mut ReadTurn,
) -> EndedPlaces
    ensures told { TellsEnded core.old reading.old result core.new reading.new }
    ensures pending { IsClient core.new.state.next core.new.state.calls }
{
    let mut places = 0;
    while let Some(id) = core.next_ended() {
        reading.end_call(id);
        places |= 1 << place_of(id);
    }
    core.lemma_is_client();
    places
}

/// Returns the place of a caller.
fn place_of(id: CallId) -> usize
    ensures { result ≡ place_of id }
{
    ((id / 2) % 16) as usize
}

/// The state that the threads of a client's connection share. No thread reads or writes a socket while it holds the lock.
#[derive(Drop)]
pub struct ClientLock<O, I> {
    held: Mutex<ClientHeld<O, I>>,
    to_write: Condvar,
    to_read: Condvar,
    to_room: Condvar,
    callers: [Condvar; PLACES],
}

impl<O: OutboundTransform + Drop, I: InboundTransform + Drop> ClientLock<O, I> {
    /// Makes the shared state of this core.
    pub fn new(core: ClientCore<O, I>) -> Self {
        ClientLock {
            held: Mutex::new(ClientHeld::new(core)),
            to_write: Condvar::new(),
            to_read: Condvar::new(),
            to_room: Condvar::new(),
            callers: [
                Condvar::new(),
                Condvar::new(),
                Condvar::new(),
                Condvar::new(),
                Condvar::new(),
                Condvar::new(),
                Condvar::new(),
                Condvar::new(),
                Condvar::new(),
                Condvar::new(),
                Condvar::new(),
                Condvar::new(),
                Condvar::new(),
                Condvar::new(),
                Condvar::new(),
                Condvar::new(),
            ],
        }
    }

    /// Returns the condition on which a caller waits for the outcome of its call.
    pub fn caller(&self, id: CallId) -> &Condvar {
        let callers = &self.callers[..];
        &callers[place_of(id)]
    }

    /// Waits until the reader thread has the turn. Returns false if the connection has failed.
    pub fn wait_to_read<X: Wait>(&self, rt: &X) -> bool {
        let mut guard = lock_soon(rt, &self.held);
        for _ in rt.forever() {
            if guard.core.has_failed() {
                return false;
            }
            if guard.reading.thread_takes() {
                return true;
            }
            guard = wait_soon(rt, &self.to_read, guard);
        }
        unreachable!()
    }

    /// Wakes the reader thread.
    pub fn wake_reader(&self) {
        self.to_read.notify_one();
    }

    /// Fails the connection, since no client is left to call, and wakes its threads. The threads hold the lock only for a moment, and no
    /// caller holds it. So this call waits for the lock without a handle for waiting.
    pub fn abandon(&self) {
        for _ in 0..u64::MAX {
            if let Some(mut guard) = self.held.try_lock() {
                guard.abandon();
                break;
            }
            spin_loop();
        }
        self.wake_all();
    }
}

impl<O: OutboundTransform + Drop, I: InboundTransform + Drop> ConnectionLock for ClientLock<O, I> {
    type Held = ClientHeld<O, I>;

    fn held(&self) -> &Mutex<ClientHeld<O, I>> {
        &self.held
    }

    fn to_write(&self) -> &Condvar {
        &self.to_write
    }

    fn to_room(&self) -> &Condvar {
        &self.to_room
    }

    fn wake(&self, woken: ClientWakeSet) {
        let mut rest = woken.callers;
        for caller in self.callers.iter() {
            if rest == 0 {
                break;
            }
            if rest % 2 == 1 {
                caller.notify_all();
            }
            rest /= 2;
        }
        if woken.reader {
            self.wake_reader();
        }
    }

    fn wake_all(&self) {
        self.to_write.notify_all();
        self.to_read.notify_all();
        self.to_room.notify_all();
        for caller in self.callers.iter() {
            caller.notify_all();
        }
    }
}
