//! The port to which a connection's reader hands the bytes that it read.
ghost use Rattle.std.specs.Prelude.{◌≡◌, ◌≤◌, ◌<◌, length, true, IfNone, IfSome, MatchBool};
ghost use Rattle.ttrpc_sync.specs.declared.ports.PortState.{PortState};

use crate::ends::connected::{ConnectionLock, LockedState, wait_for_room};
use crate::{PortState, ReadPort, lock_soon};
use std::alloc::Global;
use std::io;
use std::sync::Wait;

/// The port of a reader. It wakes the threads that a piece concerns after it has released the lock.
#[derive(Drop)]
pub struct ReadEnd<'a, X: Wait, S: ConnectionLock> {
    rt: &'a X,
    alloc: Global,
    shared: &'a S,
    has_turn: bool,
    state: PortState,
}

impl<X: Wait, S: ConnectionLock> ReadEnd<'_, X, S> {
    /// Returns whether the port's thread still has the turn to read. It has lost the turn if the last piece ended its
    /// reading.
    pub fn has_turn(&self) -> bool
        ensures { result ≡ self.now.has_turn }
    {
        self.has_turn
    }

    /// Makes the port for the thread that has the turn to read when a loop begins.
    pub fn new<'a>(rt: &'a X, alloc: Global, shared: &'a S) -> ReadEnd<'a, X, S>
        ensures { result.has_turn ≡ true }
    {
        ReadEnd {
            rt,
            alloc,
            shared,
            has_turn: true,
            state: PortState::Open,
        }
    }
}

impl<X: Wait, S: ConnectionLock> ReadPort for ReadEnd<'_, X, S> {
    ghost state = { λ p. p.state };

    fn begin(&mut self) {
        self.has_turn = true;
        self.state = PortState::Open;
    }

    fn wants(&mut self) -> bool
        requires { self.old.state ≡ PortState.Open }
        ensures state { MatchBool result (self.new.state ≡ PortState.Open)
            (self.new.state ≡ PortState.Stopped) }
        ensures turn { (result ≡ self.old.has_turn) × (self.new.has_turn ≡ self.old.has_turn) }
    {
        if !self.has_turn {
            self.state = PortState::Stopped;
        }
        self.has_turn
    }

    fn take(&mut self, piece: &[u8]) -> Option<usize>
        requires { self.old.state ≡ PortState.Open }
        // The connection takes at least one byte, after waiting for room if there is none, or it has failed.
        ensures some { IfSome result
            (λ n. (0 < n) × (n ≤ length piece.now) × (self.new.state ≡ PortState.Open)) }
        ensures failed { IfNone result (self.new.state ≡ PortState.Stopped) }
    {
        let mut guard = lock_soon(self.rt, self.shared.held());
        for _ in self.rt.forever() {
            let Some(taken) = guard.take(self.alloc, piece) else {
                drop(guard);
                self.shared.wake_all();
                self.state = PortState::Stopped;
                return None;
            };
            if taken.count > 0 {
                drop(guard);
                self.has_turn = taken.reads_on;
                self.shared.wake(taken.woken);
                return Some(taken.count);
            }
            guard = wait_for_room(self.rt, self.shared, guard);
        }
        unreachable!()
    }

    fn ended(&mut self) {
        lock_soon(self.rt, self.shared.held()).ended();
        self.shared.wake_all();
        self.state = PortState::Ended;
    }

    fn broke(&mut self, error: io::Error) {
        let kind = error.kind();
        lock_soon(self.rt, self.shared.held()).broke(kind);
        self.shared.wake_all();
        self.state = PortState::Broke(kind);
    }
}
