//! The port from which a connection's bytes are written.
ghost use Rattle.std.specs.Prelude.{◌≡◌, ◌≤◌, ◌&&◌, nat_eq, true, false, if◌then◌else◌, MatchBool};
ghost use Rattle.ttrpc_sync.specs.Batches.{is_due, with_loan};
ghost use Rattle.ttrpc_sync.specs.declared.ports.PortState.{PortState};

use crate::ends::batch::{BATCH_LOANS, Batch};
use crate::ends::connected::{ConnectionLock, Loan, LockedState};
use crate::ends::turn::Next;
use crate::{PortState, WritePort, lock_soon, wait_soon};
use std::io;
use std::sync::Wait;

/// An empty loan.
const NOTHING: Loan = Loan {
    count: 0,
    ends_frame: false,
};

/// The port of a writer. It reports written bytes together with the next loan, under one lock. If a batch is due, it lends nothing, so that
/// the bytes written so far leave first, whatever else waits.
#[derive(Drop)]
pub struct WriteEnd<'a, X: Wait, S: ConnectionLock> {
    rt: &'a X,
    shared: &'a S,
    loan: Loan,
    written: usize,
    batch: Batch,
    has_turn: bool,
    stays: bool,
    state: PortState,
}

impl<X: Wait, S: ConnectionLock> WriteEnd<'_, X, S> {
    /// Makes the port of the writer thread. It sleeps while there is nothing to write, or another thread has the turn. A batch leaves at
    /// the end of a frame once it has `BATCH_BYTES` bytes or `BATCH_LOANS` loans.
    pub fn staying<'a>(rt: &'a X, shared: &'a S) -> WriteEnd<'a, X, S>
        ensures { (result.stays ≡ true) × (result.has_turn ≡ false) }
    {
        WriteEnd::new(rt, shared, true)
    }

    /// Makes the port of a thread that took the turn to write the frame it queued, when nothing else waited. The thread writes one frame.
    /// Then it gives the turn back, and wakes the writer thread if other threads have queued more.
    pub fn leaving<'a>(rt: &'a X, shared: &'a S) -> WriteEnd<'a, X, S>
        ensures { (result.stays ≡ false) × (result.has_turn ≡ true) }
    {
        WriteEnd::new(rt, shared, false)
    }

    fn new<'a>(rt: &'a X, shared: &'a S, stays: bool) -> WriteEnd<'a, X, S>
        ensures { (result.stays ≡ stays) × (result.has_turn ≡ (if stays then false else true)) }
    {
        WriteEnd {
            rt,
            shared,
            loan: NOTHING,
            written: 0,
            batch: Batch::new(),
            has_turn: !stays,
            stays,
            state: PortState::Open,
        }
    }

    // Returns whether the bytes written so far are to leave before more is lent.
    fn is_due(&self) -> bool
        ensures { result ≡ is_due self.now.batch (if self.now.stays then BATCH_LOANS else 1) }
    {
        self.batch.is_due(if self.stays { BATCH_LOANS } else { 1 })
    }

    // Wakes the threads that wait for room, after bytes were reported.
    fn reported(&mut self)
        ensures { self.new ≡ record self.old { written = 0 } }
    {
        if self.written > 0 {
            self.shared.to_room().notify_all();
        }
        self.written = 0;
    }

    // Gives the turn back.
    fn give_back(&mut self)
        ensures { self.new ≡ record self.old { written = 0 } }
    {
        let mut guard = lock_soon(self.rt, self.shared.held());
        guard.wrote(self.written);
        let wakes = guard.give_back();
        drop(guard);
        self.reported();
        if wakes {
            self.shared.to_write().notify_one();
        }
    }

    // Waits until the thread has the turn and bytes wait. Returns false if the thread is to end; then it no longer has the turn.
    fn wait_for_bytes(&mut self) -> bool
        ensures { self.new ≡ record self.old { written = 0 } }
    {
        let mut guard = lock_soon(self.rt, self.shared.held());
        let mut has_turn = self.has_turn;
        // Without the turn, the lent bytes are another thread's.
        if has_turn {
            guard.wrote(self.written);
        }
        self.reported();
        for _ in self.rt.forever() {
            match guard.next(has_turn) {
                Next::Writes => return true,
                Next::Leaves => return false,
                Next::Sleeps => {
                    has_turn = false;
                    guard = wait_soon(self.rt, self.shared.to_write(), guard);
                }
            }
        }
        unreachable!()
    }
}

impl<X: Wait, S: ConnectionLock> WritePort for WriteEnd<'_, X, S> {
    ghost lent = { λ p. p.loan.count };

    ghost state = { λ p. p.state };

    fn begin(&mut self) {
        self.state = PortState::Open;
    }

    fn lend(&mut self, buffer: &mut [u8]) -> usize {
        if !self.has_turn || self.is_due() {
            self.loan = NOTHING;
            return 0;
        }
        let mut guard = lock_soon(self.rt, self.shared.held());
        guard.wrote(self.written);
        let loan = guard.lend(buffer);
        drop(guard);
        self.reported();
        self.loan = loan;
        loan.count
    }

    fn wrote(&mut self, count: usize)
        requires state { self.old.state ≡ PortState.Open }
        requires lent { count ≤ self.old.loan.count }
        // The bytes are in the batch, and are reported under the next lock.
        ensures { self.new ≡ record self.old {
          batch = with_loan self.old.batch count
              (self.old.loan.ends_frame && nat_eq count self.old.loan.count);
          written = count;
        } }
    {
        let ends_frame = self.loan.ends_frame && count == self.loan.count;
        self.batch.add(count, ends_frame);
        self.written = count;
    }

    fn broke(&mut self, error: io::Error) {
        let kind = error.kind();
        lock_soon(self.rt, self.shared.held()).broke(kind);
        self.shared.wake_all();
        self.state = PortState::Broke(kind);
    }

    fn more(&mut self) -> bool
        requires { self.old.state ≡ PortState.Open }
        // The loop goes on if the port returns true.
        ensures state { MatchBool result (self.new.state ≡ PortState.Open)
            (self.new.state ≡ PortState.Stopped) }
        // All bytes written so far have left, so a new batch begins.
        ensures batch { self.new.batch ≡ record { bytes = 0; loans = 0; ends_frame = false } }
        // A thread that ends no longer has the turn.
        ensures turn { result ≡ false → self.new.has_turn ≡ false }
    {
        let is_due = self.is_due();
        self.batch = Batch::new();
        if self.stays && is_due {
            return true;
        }
        if !self.stays {
            self.give_back();
        } else if self.wait_for_bytes() {
            self.has_turn = true;
            return true;
        }
        self.has_turn = false;
        self.state = PortState::Stopped;
        false
    }
}
