//! The state and the calls that the two ends have in common under their locks.
ghost use Rattle.std.specs.Prelude.{◌≤◌, length, IfSome};

use crate::ends::turn::Next;
use crate::wait_soon;
use std::alloc::Global;
use std::io::ErrorKind;
use std::sync::{Condvar, Mutex, MutexGuard, Wait};

/// The result of taking a piece.
#[derive(Clone, Copy, Debug)]
pub struct Taken<W> {
    /// The number of bytes that were taken.
    pub count: usize,
    /// True if the reader goes on reading.
    pub reads_on: bool,
    /// The threads to wake after the lock is released.
    pub woken: W,
}

/// A loan of bytes.
#[derive(Clone, Copy, Debug)]
pub struct Loan {
    /// The number of bytes.
    pub count: usize,
    /// True if the bytes end a frame.
    pub ends_frame: bool,
}

/// The state under the lock of a connection, as its reader and its writers use it.
pub trait LockedState: Drop {
    /// The threads to wake for a piece.
    type Woken: Drop;

    /// Takes the first bytes of a piece. Takes none while the connection lacks room for its own answers. Returns `None` if the connection
    /// has failed, or takes no more.
    fn take(&mut self, alloc: Global, piece: &[u8]) -> Option<Taken<Self::Woken>>
        ensures { IfSome result (λ taken. taken.count ≤ length piece.now) };

    /// Reports that the reader is at its end.
    fn ended(&mut self);

    /// Reports that a reader or a writer failed, with an error of this kind.
    fn broke(&mut self, kind: ErrorKind);

    /// Reports that `count` bytes of the last loan were written.
    fn wrote(&mut self, count: usize);

    /// Lends bytes of the first frame that waits.
    fn lend(&mut self, buffer: &mut [u8]) -> Loan
        ensures { result.count ≤ length buffer.new };

    /// Returns the next action of the writer thread. Called when nothing is lent and all that it wrote is flushed.
    fn next(&mut self, has_turn: bool) -> Next;

    /// Gives the turn back, for a thread that wrote its own frame. Returns whether the writer thread is to be woken.
    fn give_back(&mut self) -> bool;

    /// Returns whether the writer thread is to be woken, before a thread waits for bytes to be reported.
    fn wakes_writer(&mut self) -> bool;
}

/// The state that the threads of a connection share.
pub trait ConnectionLock: Drop {
    /// The state under the lock.
    type Held: LockedState;

    fn held(&self) -> &Mutex<Self::Held>;

    /// Returns the condition on which the writer thread waits.
    fn to_write(&self) -> &Condvar;

    /// Returns the condition on which threads wait for room, that is until bytes are reported.
    fn to_room(&self) -> &Condvar;

    /// Wakes these threads after a piece was taken.
    fn wake(&self, woken: <Self::Held as LockedState>::Woken);

    /// Wakes every thread after the connection has failed.
    fn wake_all(&self);
}

/// Releases the lock, waits until bytes were reported as written or the connection has failed, and locks again. The thread may also wake by
/// itself.
pub fn wait_for_room<'a, X: Wait, S: ConnectionLock>(
    rt: &X,
    shared: &'a S,
    mut guard: MutexGuard<'a, S::Held>,
) -> MutexGuard<'a, S::Held> {
    if guard.wakes_writer() {
        shared.to_write().notify_one();
    }
    wait_soon(rt, shared.to_room(), guard)
}
