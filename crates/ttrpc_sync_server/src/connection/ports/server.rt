//! The state that the threads of a server's connection share.
ghost use Rattle.std.specs.Prelude.{◌≡◌, ◌↔◌, ◌+◌, ◌-◌, ◌^◌, ◌<◌, ◌≤◌, ◌||◌, min, length, if◌then◌else◌, is_some, false, nat_eq, true, IfNone, IfSome, IsFalse, IsTrue, MatchOption, IfOk};
ghost use Rattle.std.specs.Option.{option_map};
ghost use Rattle.ttrpc_connection.specs.OneEnd.{Ends, Lends, TakesOrDrains, failing, lending, reporting};
ghost use Rattle.ttrpc_connection.specs.declared.failure.Failure.{Failure as AFailure};
ghost use Rattle.ttrpc_server.specs.Protocol.{drained, serving};
ghost use Rattle.ttrpc_sync_server.specs.Connection.Held.{IsFed, IsInsideFrame, IsQuiet, LendsFrame, MayTellEnd, asleep, calls_for_next, calls_worker, has_bytes, is_alive, is_answered, keeps_jobs, on_their_way, reads_on, read_turn_behind, reported_to, waiting_of, woken_for};
ghost use Rattle.ttrpc_sync_server.specs.Connection.Backlogs.{calls_reader, is_full, with_begun, with_piece, with_reader};
ghost use Rattle.ttrpc_sync_server.specs.Connection.ReadTurns.{new_read_turn};
ghost use Rattle.ttrpc_sync.specs.Pool.{with_waiting};
ghost use Rattle.ttrpc_sync.specs.Turns.{given_back, next_of, turn_after, turn_waking, wakes_behind, wakes_writer};

use crate::connection::ports::backlog::Backlog;
use crate::connection::ports::read_turn::{AtTurn, ServerReadTurn};
use std::alloc::Global;
use std::io::ErrorKind;
use std::sync::{Condvar, Mutex, Wait};
use std::time::{Clock, Duration};
use ttrpc_proto::Error;
use ttrpc_secure::{InboundTransform, OutboundTransform};
use ttrpc_server::{Job, ServerCore};
use ttrpc_sync::{
    ConnectionLock, Loan, LockedState, Next, PoolCore, ReadEnd, Taken, WriteEnd, WriteTurn,
    lock_soon, wait_soon,
};

/// The pause in microseconds between two checks by the waiting reader. It doubles, up to `LONGEST_PAUSE`, whenever the other reader has
/// read on meanwhile.
const PAUSE: u64 = 100;

/// The longest pause in microseconds between two checks. So a job waits for another job's handler for at most twice as long.
const LONGEST_PAUSE: u64 = 1600;

/// The port of a server's reader. It wakes a worker, the writer and the other reader.
pub type ServerRead<'a, X, O, I> = ReadEnd<'a, X, ServerLock<O, I>>;

/// The port of one of a server's writers.
pub type ServerWrite<'a, X, O, I> = WriteEnd<'a, X, ServerLock<O, I>>;

/// The threads to wake for a piece.
#[derive(Clone, Copy, Debug)]
pub struct ServerWakeSet {
    /// True for one of the workers that sleep.
    pub worker: bool,
    /// True for the writer thread.
    pub writer: bool,
    /// True for the reader that waits for the turn.
    pub reader: bool,
}

/// The state under the lock of a server's connection. At most as many workers wait as its pool lets in.
#[derive(Drop)]
pub struct ServerHeld<O, I> {
    pub core: ServerCore<O, I>,
    pub turn: WriteTurn,
    pub pool: PoolCore,
    /// The number of workers that were started, and haven't come to wait yet.
    pub starting: usize,
    // The number of workers that sleep, and weren't woken yet.
    sleeping: u64,
    // The number of workers that were woken, and haven't looked for a job since.
    coming: u64,
    /// The turn to read.
    pub read_turn: ServerReadTurn,
    /// The input that waits to be handled.
    pub backlog: Backlog,
    /// True if the reader is at its end. The core learns this only after all jobs have ended and all answers have left.
    pub has_ended: bool,
    /// True if a handler's thread has the turn to write, for its own answer.
    pub handler_writes: bool,
}

impl<O: OutboundTransform + Drop, I: InboundTransform + Drop> ServerHeld<O, I> {
    /// Makes the state of this core, this pool and this backlog. No thread has the turn to write.
    pub fn new(core: ServerCore<O, I>, pool: PoolCore, backlog: Backlog) -> Self
        // The core is this one, and no thread has the turn to write.
        ensures core { result.core ≡ core }
        ensures turn { result.turn ≡ record { is_taken = false; sleeps = false } }
        // The pool is this one, and no worker starts, sleeps or is on its way.
        ensures pool { result.pool ≡ pool }
        ensures starting { result.starting ≡ 0 }
        ensures sleeping { result.sleeping ≡ 0 }
        ensures coming { result.coming ≡ 0 }
        // No reader has the turn to read or waits for it. The backlog is this one.
        ensures read_turn { result.read_turn ≡ new_read_turn }
        ensures backlog { result.backlog ≡ backlog }
        // The input hasn't ended, and no handler writes.
        ensures has_ended { result.has_ended ≡ false }
        ensures handler_writes { result.handler_writes ≡ false }
    {
        ServerHeld {
            core,
            turn: WriteTurn::new(),
            pool,
            starting: 0,
            sleeping: 0,
            coming: 0,
            read_turn: ServerReadTurn::new(),
            backlog,
            has_ended: false,
            handler_writes: false,
        }
    }

    /// Counts a job that was taken out of the backlog.
    pub(crate) fn begun(&mut self, job: &Job)
        ensures { self.new
            ≡ record self.old { backlog = with_begun self.old.backlog job.now.header.length (waiting_of self.old.core) } }
    {
        self.backlog
            .begun(job.header.length, self.core.jobs_waiting());
    }

    /// Returns whether too much input waits for more to be read.
    fn is_full(&self) -> bool
        ensures { result ≡ is_full self.now.backlog (waiting_of self.now.core) }
    {
        self.backlog.is_full(self.core.jobs_waiting())
    }

    /// Returns how many pieces have come, if the last one ended inside a frame and more is read.
    pub(crate) fn pieces_inside_frame(&self) -> Option<u64>
        ensures some { IfSome result (λ count. (count ≡ self.now.backlog.pieces)
            × IsInsideFrame self.now.core self.now.has_ended self.now.backlog) }
        ensures none { IfNone result
            (¬ (IsInsideFrame self.now.core self.now.has_ended self.now.backlog)) }
    {
        if self.has_ended || self.is_full() || self.core.at_boundary() {
            return None;
        }
        Some(self.backlog.pieces)
    }

    /// Returns whether the reader that has the turn waits for room.
    pub(crate) fn waits_to_read_on(&mut self) -> bool
        ensures result { result ≡ is_full self.old.backlog (waiting_of self.old.core) }
        ensures rest { self.new
            ≡ record self.old { backlog = with_reader self.old.backlog result } }
    {
        let waits = self.is_full();
        self.backlog.reader_waits = waits;
        waits
    }

    /// Returns whether a reader that waits for room is to be woken.
    pub(crate) fn calls_reader(&mut self) -> bool
        ensures result { result ≡ calls_reader self.old.backlog (waiting_of self.old.core) }
        ensures rest { self.new
            ≡ record self.old { backlog = with_reader self.old.backlog (if result then false else self.old.backlog.reader_waits) } }
    {
        let calls = self.backlog.reader_waits && !self.is_full();
        if calls {
            self.backlog.reader_waits = false;
        }
        calls
    }

    /// Returns whether a worker is to be woken for a job that still waits. None is woken while another is on its way. Each worker that
    /// comes wakes the next, so no job waits for another job's handler while a worker sleeps. Fast handlers leave no jobs to most workers,
    /// which sleep on.
    pub(crate) fn calls_worker(&mut self) -> bool
        ensures result { result ≡ calls_worker self.old.core self.old.sleeping self.old.coming }
        ensures rest { self.new
            ≡ record self.old { sleeping = asleep result self.old.sleeping; coming = on_their_way result self.old.coming } }
    {
        let calls = self.core.jobs_waiting() > 0 && self.sleeping > 0 && self.coming == 0;
        if calls {
            self.sleeping -= 1;
            self.coming = 1;
        }
        calls
    }

    /// Counts a worker that slept and now looks for a job: the one that was woken, or one that woke by itself.
    pub(crate) fn count_awake(&mut self)
        ensures { self.new
            ≡ (if nat_eq self.old.coming 0 then record self.old { sleeping = self.old.sleeping - 1 }
            else record self.old { coming = self.old.coming - 1 }) }
    {
        if self.coming == 0 {
            self.sleeping = self.sleeping.saturating_sub(1);
        } else {
            self.coming -= 1;
        }
    }

    /// Counts a worker that goes to sleep.
    pub(crate) fn sleep(&mut self)
        ensures { self.new
            ≡ record self.old { sleeping = min (self.old.sleeping + 1) (2 ^ 64 - 1) } }
    {
        self.sleeping = self.sleeping.saturating_add(1);
    }

    /// Returns whether the writer thread is to be woken after a job has ended. This may be the last job of an input that has ended.
    pub(crate) fn wakes_behind_job(&mut self) -> bool
        ensures wakes { result ≡ wakes_writer self.old.turn self.old.has_ended }
        ensures rest { self.new
            ≡ record self.old { turn = turn_waking self.old.turn self.old.has_ended } }
    {
        self.has_ended && self.turn.wakes()
    }

    /// Takes no more input, as after its end. The jobs that came go on.
    pub(crate) fn drain(&mut self)
        ensures { self.new ≡ record self.old { core = drained self.old.core; has_ended = true } }
    {
        self.core.drain();
        self.ended();
    }

    /// Returns whether each request is answered and no more come: no job waits, and none is under way except the job of a handler that
    /// writes its own answer.
    pub(crate) fn is_answered(&self) -> bool
        ensures { result ≡ is_answered self.now.core self.now.has_ended self.now.handler_writes }
    {
        let writing = if self.handler_writes { 1 } else { 0 };
        self.has_ended && self.core.jobs_waiting() == 0 && self.core.jobs_taken() <= writing
    }

    #[tactic(auto, using(ttrpc_server::proofs::Keyed::filter_fewer))]
    // Returns whether no job is under way, and all queued bytes were written.
    fn is_quiet(&self) -> bool
        ensures { IsTrue result ↔ IsQuiet self.now.core }
    {
        self.core.jobs_taken() == 0 && self.core.jobs_waiting() == 0 && self.core.lendable() == 0
    }

    // Reports the end of the input to the core, if it has come, the connection is quiet and no other thread writes. Then all written bytes
    // are flushed, too.
    fn tell_end(&mut self, has_turn: bool)
        ensures told { MayTellEnd self.old.has_ended self.old.core self.new.core }
        ensures tells { self.old.has_ended ≡ true
            → (self.old.turn.is_taken ≡ true → has_turn ≡ true) → IsQuiet self.old.core
            → Ends self.old.core.connection self.new.core.connection }
        ensures rest { self.new ≡ record self.old { core = self.new.core } }
    {
        let others_write = self.turn.is_taken && !has_turn;
        if self.has_ended && !others_write && self.is_quiet() {
            ServerHeld::ended_on(&mut self.core);
        }
    }

    /// Returns how many workers are to be started: the number that the pool asks for, less the workers that were started already and
    /// haven't come to wait yet.
    pub fn to_start(&self) -> usize
        ensures few { self.now.pool.waiting < self.now.pool.min
            → result ≡ (self.now.pool.default - self.now.pool.waiting) - self.now.starting }
        ensures enough { self.now.pool.min ≤ self.now.pool.waiting → result ≡ 0 }
    {
        self.pool.to_start().saturating_sub(self.starting)
    }

    /// Counts `count` workers that are started.
    pub fn add_starting(&mut self, count: usize)
        ensures { self.new
            ≡ record self.old { starting = min (self.old.starting + count) (2 ^ 64 - 1) } }
    {
        self.starting = self.starting.saturating_add(count);
    }

    /// Counts out `count` workers that were to be started, and don't come.
    pub fn remove_starting(&mut self, count: usize)
        ensures { self.new ≡ record self.old { starting = self.old.starting - count } }
    {
        self.starting = self.starting.saturating_sub(count);
    }

    /// Asks to wait for a job. `is_new` says that the worker asks for the first time. Returns false if enough workers wait.
    pub fn enter(&mut self, is_new: bool) -> bool
        // The result is true exactly if fewer workers wait than may. Then one more waits, and otherwise the pool is as it was.
        ensures room { IsTrue result ↔ (self.old.pool.waiting < self.old.pool.max) }
        ensures entered { IsTrue result
            → self.new.pool ≡ with_waiting self.old.pool (self.old.pool.waiting + 1) }
        ensures refused { IsFalse result → self.new.pool ≡ self.old.pool }
        // A new worker no longer counts as starting, and nothing else changed.
        ensures starting { self.new.starting ≡ self.old.starting - (if is_new then 1 else 0) }
        ensures rest { self.new
            ≡ record self.old { pool = self.new.pool; starting = self.new.starting } }
    {
        if is_new {
            self.remove_starting(1);
        }
        self.pool.enter()
    }

    /// Reports that a worker waits for a job no longer. Returns true if fewer workers than the least count still wait. If no worker waits,
    /// nothing happens.
    pub fn leave(&mut self) -> bool
        ensures few { 0 < self.old.pool.waiting
            → (IsTrue result ↔ (self.new.pool.waiting < self.old.pool.min)) }
        ensures left { 0 < self.old.pool.waiting
            → self.new.pool ≡ with_waiting self.old.pool (self.old.pool.waiting - 1) }
        ensures nobody { self.old.pool.waiting ≡ 0
            → (IsFalse result × (self.new.pool ≡ self.old.pool)) }
        ensures rest { self.new ≡ record self.old { pool = self.new.pool } }
    {
        if self.pool.waiting() == 0 {
            return false;
        }
        self.pool.leave()
    }

    /// Returns whether a worker is to be woken for the next job, after this reader or a worker has taken one. A reader that has the turn
    /// wakes none: it takes the next job itself, while the other reader checks.
    pub(crate) fn calls_for_next(&mut self, reader: Option<u32>) -> bool
        ensures result { result
            ≡ calls_for_next self.old.core self.old.read_turn reader self.old.sleeping self.old.coming }
        ensures rest { self.new
            ≡ record self.old { sleeping = asleep result self.old.sleeping; coming = on_their_way result self.old.coming } }
    {
        match reader {
            Some(reader) if self.read_turn.has_turn(reader) => false,
            _ => self.calls_worker(),
        }
    }

    /// Returns whether the reader of a piece handles its jobs itself. `is_whole` says that the piece was taken whole.
    fn keeps_jobs(&self, is_whole: bool) -> bool
        ensures { result ≡ keeps_jobs is_whole self.now.core self.now.read_turn }
    {
        is_whole && self.core.jobs_waiting() > 0 && self.read_turn.other_waits
    }

    /// Returns whether the reader of a piece reads on: it has a rest to hand over, or handles no jobs, and not too much waits.
    fn reads_on(&self, is_whole: bool) -> bool
        ensures { result ≡ reads_on is_whole self.now.core self.now.read_turn self.now.backlog }
    {
        !is_whole || (!self.keeps_jobs(true) && !self.is_full())
    }

    /// Returns the threads to wake for a piece. `keeps` says that its reader handles its jobs itself.
    fn wake_set(&mut self, keeps: bool) -> ServerWakeSet
        ensures woken { result ≡ woken_for self.old.core keeps self.old.sleeping self.old.coming
            self.old.turn self.old.read_turn }
        ensures rest { self.new ≡ record self.old {
          turn = turn_waking self.old.turn (has_bytes self.old.core);
          sleeping = asleep result.worker self.old.sleeping;
          coming = on_their_way result.worker self.old.coming;
          read_turn = read_turn_behind keeps self.old.read_turn;
        } }
    {
        let worker = !keeps && self.calls_worker();
        let writer = self.core.lendable() > 0 && self.turn.wakes();
        let reader = keeps && self.read_turn.begin_round();
        ServerWakeSet {
            worker,
            writer,
            reader,
        }
    }
}

/// The calls of `ServerRead` and `ServerWrite` on a core that is lent to them under the lock. Each makes one call of the core.
impl<O: OutboundTransform + Drop, I: InboundTransform + Drop> ServerHeld<O, I> {
    /// Feeds a piece to the core, as `take` of a reader's port does. Returns how many bytes the core took. Under sync rules the moment
    /// doesn't matter.
    pub fn take_on(core: &mut ServerCore<O, I>, alloc: Global, piece: &[u8]) -> Result<usize, Error>
        ensures bound { IfOk result (λ n. n ≤ length piece.now) }
        ensures fed { TakesOrDrains (serving O.OutboundTransform I.InboundTransform) core.old.state
            core.old.connection piece.now 0 result core.new.state core.new.connection }
    {
        core.feed(alloc, piece, 0)
    }

    /// Reports the end of the input to the core. `ended` of a reader's port only notes the end; the core learns it after the last job has
    /// ended and all answers have left.
    pub fn ended_on(core: &mut ServerCore<O, I>)
        ensures ends { Ends core.old.connection core.new.connection }
        ensures same { core.new ≡ record core.old { connection = core.new.connection } }
    {
        core.end_of_input();
    }

    /// Fails the connection with an error of this kind, as `broke` of a port does.
    pub fn broke_on(core: &mut ServerCore<O, I>, kind: ErrorKind)
        ensures { core.new
            ≡ record core.old { connection = failing core.old.connection (AFailure.Broke kind) } }
    {
        core.broke(kind);
    }

    /// Lends bytes of the first unsent frame, as `lend` of a writer's port does. Returns how many.
    pub fn lend_on(core: &mut ServerCore<O, I>, buffer: &mut [u8]) -> usize
        ensures lends { Lends core.old.connection buffer.old result buffer.new }
        ensures lent { core.new
            ≡ record core.old { connection = lending core.old.connection result } }
    {
        core.lend(buffer)
    }

    /// Reports `count` bytes of the last loan as written, at most all of them, as `wrote` of a writer's port does.
    pub fn wrote_on(core: &mut ServerCore<O, I>, count: usize)
        ensures { core.new
            ≡ record core.old { connection = reporting core.old.connection (min count core.old.connection.outbox.queue.lent) } }
    {
        let lent = core.lent();
        core.wrote(count.min(lent));
    }
}

impl<O: OutboundTransform + Drop, I: InboundTransform + Drop> LockedState for ServerHeld<O, I> {
    type Woken = ServerWakeSet;

    // After the end of the input nothing is taken.
    fn take(&mut self, alloc: Global, piece: &[u8]) -> Option<Taken<ServerWakeSet>>
        // The piece was fed to the core, and this number of its bytes was taken, at most its length.
        ensures bound { IfSome result (λ taken. taken.count ≤ length piece.now) }
        ensures fed { IsFed O.OutboundTransform I.InboundTransform self.old.core piece.now
            self.old.has_ended (option_map (λ taken. taken.count) result) self.new.core }
        // The result states if the reader reads on, and which threads are woken.
        ensures reads_on { IfSome result (λ taken. taken.reads_on ≡ reads_on (nat_eq taken.count
            (length piece.now)) self.new.core self.old.read_turn self.new.backlog) }
        ensures woken { IfSome result (λ taken. taken.woken ≡ woken_for self.new.core
            (keeps_jobs (nat_eq taken.count (length piece.now)) self.new.core self.old.read_turn)
            self.old.sleeping self.old.coming self.old.turn self.old.read_turn) }
        // At `None` only the core changed. Otherwise the turn, the counts of workers, the relay and the backlog did, too.
        ensures rest { MatchOption result (self.new ≡ record self.old { core = self.new.core })
            (λ taken. self.new ≡ record self.old {
              core = self.new.core;
              turn = turn_waking self.old.turn (has_bytes self.new.core);
              sleeping = asleep taken.woken.worker self.old.sleeping;
              coming = on_their_way taken.woken.worker self.old.coming;
              read_turn = read_turn_behind (keeps_jobs (nat_eq taken.count (length piece.now))
                  self.new.core self.old.read_turn) self.old.read_turn;
              backlog = with_piece self.old.backlog taken.count;
            }) }
    {
        let has_ended = self.has_ended;
        match ServerHeld::take_on(&mut self.core, alloc, piece) {
            Ok(count) if !has_ended => {
                self.backlog.came(count);
                let is_whole = count == piece.len();
                let reads_on = self.reads_on(is_whole);
                let keeps = self.keeps_jobs(is_whole);
                Some(Taken {
                    count,
                    reads_on,
                    woken: self.wake_set(keeps),
                })
            }
            _ => None,
        }
    }

    fn ended(&mut self)
        ensures { self.new ≡ record self.old { has_ended = true } }
    {
        self.has_ended = true;
    }

    fn wrote(&mut self, count: usize)
        ensures { self.new ≡ record self.old { core = reported_to self.old.core count } }
    {
        ServerHeld::wrote_on(&mut self.core, count);
    }

    fn lend(&mut self, buffer: &mut [u8]) -> Loan
        ensures lent { LendsFrame self.old.core buffer.old result.count result.ends_frame
            buffer.new self.new.core }
        ensures rest { self.new ≡ record self.old { core = self.new.core } }
    {
        let open = self.core.lendable();
        let count = ServerHeld::lend_on(&mut self.core, buffer);
        Loan {
            count,
            ends_frame: count == open,
        }
    }

    fn broke(&mut self, kind: ErrorKind)
        ensures { self.new ≡ record self.old {
          core = record self.old.core {
            connection = failing self.old.core.connection (AFailure.Broke kind);
          };
        } }
    {
        ServerHeld::broke_on(&mut self.core, kind);
    }

    fn next(&mut self, has_turn: bool) -> Next
        // Only the end of the input may be reported to the core. It is, if the core is quiet and no other thread has the turn.
        ensures told { MayTellEnd self.old.has_ended self.old.core self.new.core }
        ensures tells { self.old.has_ended ≡ true
            → (self.old.turn.is_taken ≡ true → has_turn ≡ true) → IsQuiet self.old.core
            → Ends self.old.core.connection self.new.core.connection }
        // The next action and the turn depend on the turn before, on a failure and on bytes that wait.
        ensures result { result ≡ next_of self.old.turn.is_taken has_turn (is_alive self.new.core)
            (has_bytes self.new.core) }
        ensures turn { self.new.turn
            ≡ turn_after self.old.turn has_turn (is_alive self.new.core) (has_bytes self.new.core) }
        // Nothing else changed.
        ensures rest { self.new ≡ record self.old { core = self.new.core; turn = self.new.turn } }
    {
        self.tell_end(has_turn);
        let bytes_wait = self.core.lendable() > 0;
        let stays = !self.core.has_failed();
        self.turn.next(has_turn, stays, bytes_wait)
    }

    fn give_back(&mut self) -> bool
        ensures result { result
            ≡ wakes_behind self.old.turn (has_bytes self.old.core || self.old.has_ended) }
        ensures turn { self.new.turn
            ≡ given_back self.old.turn (has_bytes self.old.core || self.old.has_ended) }
        ensures rest { self.new ≡ record self.old { turn = self.new.turn; handler_writes = false } }
    {
        self.handler_writes = false;
        let bytes_wait = self.core.lendable() > 0;
        self.turn.give_back(bytes_wait || self.has_ended)
    }

    fn wakes_writer(&mut self) -> bool
        ensures result { result ≡ wakes_writer self.old.turn (has_bytes self.old.core) }
        ensures rest { self.new
            ≡ record self.old { turn = turn_waking self.old.turn (has_bytes self.old.core) } }
    {
        self.core.lendable() > 0 && self.turn.wakes()
    }
}

/// The state that the threads of a server's connection share. No thread reads or writes a socket while it holds the lock.
#[derive(Drop)]
pub struct ServerLock<O, I> {
    held: Mutex<ServerHeld<O, I>>,
    to_write: Condvar,
    to_work: Condvar,
    to_read: Condvar,
    to_read_on: Condvar,
    to_room: Condvar,
}

impl<O: OutboundTransform + Drop, I: InboundTransform + Drop> ServerLock<O, I> {
    /// Makes the shared state of this core, this pool and this backlog.
    pub fn new(core: ServerCore<O, I>, pool: PoolCore, backlog: Backlog) -> Self {
        ServerLock {
            held: Mutex::new(ServerHeld::new(core, pool, backlog)),
            to_write: Condvar::new(),
            to_work: Condvar::new(),
            to_read: Condvar::new(),
            to_read_on: Condvar::new(),
            to_room: Condvar::new(),
        }
    }

    /// Fails the connection, if it hasn't failed, and wakes its threads.
    pub(crate) fn end<X: Wait>(&self, rt: &X) {
        self.held.lock(rt).core.fail(Error::LocalClosed);
        self.wake_all();
    }

    /// Takes no more input, and wakes the threads.
    pub(crate) fn drain<X: Wait>(&self, rt: &X) {
        self.held.lock(rt).drain();
        self.wake_all();
    }

    /// Waits until this reader has the turn to read, and there is room. If it takes the turn from a reader that still handles jobs, a
    /// worker is woken for the jobs that are left. Returns false if nothing more is read: the input has ended or the connection has
    /// failed.
    pub fn wait_to_read<X: Wait + Clock>(&self, rt: &X, reader: u32) -> bool {
        let (mut seen, mut pause) = (None, PAUSE);
        let mut guard = lock_soon(rt, &self.held);
        for _ in rt.forever() {
            if guard.has_ended || guard.core.has_failed() {
                return false;
            }
            match guard.read_turn.wants(reader, seen) {
                AtTurn::Reads => {
                    let calls = guard.calls_worker();
                    let is_full = guard.is_full();
                    drop(guard);
                    if calls {
                        self.to_work.notify_one();
                    }
                    return !is_full || self.wait_to_read_on(rt);
                }
                AtTurn::LooksAgain(rounds) => {
                    if seen.is_some() {
                        pause = pause.saturating_mul(2).min(LONGEST_PAUSE);
                    }
                    seen = Some(rounds);
                    guard = self
                        .to_read
                        .wait_timeout(rt, guard, Duration::from_micros(pause))
                        .0;
                }
                AtTurn::Sleeps => {
                    (seen, pause) = (None, PAUSE);
                    guard = wait_soon(rt, &self.to_read, guard);
                }
            }
        }
        unreachable!()
    }

    /// Waits until there is room for more input. Returns false if nothing more is read.
    fn wait_to_read_on<X: Wait>(&self, rt: &X) -> bool {
        let mut guard = lock_soon(rt, &self.held);
        for _ in rt.forever() {
            if guard.has_ended || guard.core.has_failed() {
                return false;
            }
            if !guard.waits_to_read_on() {
                return true;
            }
            guard = wait_soon(rt, &self.to_read_on, guard);
        }
        unreachable!()
    }

    /// Returns the condition on which workers wait for a job.
    pub(crate) fn to_work(&self) -> &Condvar {
        &self.to_work
    }

    /// Returns the condition on which the reader that has the turn waits for room.
    pub(crate) fn to_read_on(&self) -> &Condvar {
        &self.to_read_on
    }
}

impl<O: OutboundTransform + Drop, I: InboundTransform + Drop> ConnectionLock for ServerLock<O, I> {
    type Held = ServerHeld<O, I>;

    fn held(&self) -> &Mutex<ServerHeld<O, I>> {
        &self.held
    }

    fn to_write(&self) -> &Condvar {
        &self.to_write
    }

    fn to_room(&self) -> &Condvar {
        &self.to_room
    }

    fn wake(&self, woken: ServerWakeSet) {
        if woken.worker {
            self.to_work.notify_one();
        }
        if woken.writer {
            self.to_write.notify_one();
        }
        if woken.reader {
            self.to_read.notify_one();
        }
    }

    fn wake_all(&self) {
        self.to_write.notify_all();
        self.to_work.notify_all();
        self.to_read.notify_all();
        self.to_read_on.notify_all();
        self.to_room.notify_all();
    }
}
