//! The state under the lock of a polled connection, which the connection's future drives.
ghost use Rattle.std.specs.Prelude.{◌≡◌, ◌≤◌, length, IfSome};

use futures::task::{Source, Waker};
use std::alloc::Global;
use std::io::ErrorKind;
use std::sync::Mutex;

/// The state under the lock of a polled connection: a core, and the wakers of the tasks that wait for it. Each call makes one call of the
/// core, as the members of this trait say, and wakes the tasks that the call concerns.
pub trait PolledState: Drop {
    ghost use Rattle.std.specs.Prelude.{ℕ, List, Option, Bool};
    ghost use Rattle.std.specs.declared.io.ErrorKind.{ErrorKind};

    // This many bytes of a piece were taken at a moment. Or none could be, since the connection has failed or takes no more.
    ghost takes: { Self → List ℕ → ℕ → Option ℕ → Self → Type 0 };

    // The input ended.
    ghost ends: { Self → Self → Type 0 };

    // A reader or a writer failed with an error of this kind.
    ghost breaks: { Self → ErrorKind → Self → Type 0 };

    // This many bytes were lent into a buffer that held other bytes, and reported as written.
    ghost lends: { Self → List ℕ → ℕ → List ℕ → Self → Type 0 };

    // The number of bytes that would be lent into a buffer that has room.
    ghost lendable: { Self → ℕ };

    // A moment came.
    ghost ticks: { Self → ℕ → Self → Type 0 };

    // This is the least moment at which a tick would change something, or there is none.
    ghost expires: { Self → Option ℕ → Type 0 };

    // True if the connection has failed.
    ghost failed: { Self → Bool };

    // The number of tasks that wait for frames of streams to be sent.
    ghost senders: { Self → ℕ };

    // True if more input is wanted.
    ghost wants: { Self → Bool };

    /// Takes the first bytes of a piece at this moment, in nanoseconds, and returns how many. Takes none while there is no room for the
    /// core's answers. Returns `None` if the connection has failed, or takes no more.
    fn take(&mut self, alloc: Global, piece: &[u8], now: u64) -> Option<usize>
        ensures bound { IfSome result (λ n. n ≤ length piece.now) }
        ensures takes { takes self.old piece.now now result self.new };

    /// Reports that the reader is at its end.
    fn ended(&mut self)
        ensures { ends self.old self.new };

    /// Reports that the reader or the writer failed, with an error of this kind.
    fn broke(&mut self, kind: ErrorKind)
        ensures { breaks self.old kind self.new };

    /// Returns how many bytes a loan has that finds room.
    fn lendable(&self) -> usize
        ensures { result ≡ lendable self.now };

    /// Lends bytes of the first frame that waits, and reports them as written: they are the caller's from now on. Wakes the tasks that wait
    /// for room.
    fn lend(&mut self, buffer: &mut [u8]) -> usize
        ensures bound { result ≤ length buffer.new }
        ensures lends { lends self.old buffer.old result buffer.new self.new };

    /// Reports that a moment has come, in nanoseconds.
    fn tick(&mut self, now: u64)
        ensures { ticks self.old now self.new };

    /// Returns the least moment at which a tick would change something.
    fn next_deadline(&self) -> Option<u64>
        ensures { expires self.now result };

    /// Returns whether the connection has failed.
    fn has_failed(&self) -> bool
        ensures { result ≡ failed self.now };

    /// Returns how many tasks wait for frames of streams to be sent. These tasks may have more to send after the frames are lent.
    fn senders(&self) -> usize
        ensures { result ≡ senders self.now };

    /// Returns whether more input is wanted, before the tasks that work on earlier input have gone on.
    fn wants_input(&self) -> bool
        ensures { result ≡ wants self.now };

    /// Returns the waker of the connection's future. Dropping this waker wakes the future.
    fn driver(&mut self) -> &mut Option<Waker>;
}

/// The state that a connection's future shares with the users of the connection.
pub trait SharedConnection: Drop {
    ghost use Rattle.std.specs.Prelude.{ℕ};

    /// The state under the lock.
    type Held: PolledState;

    // The source at which the connection's future waits for something to write.
    ghost asked: { Self → ℕ };

    fn held(&self) -> &Mutex<Self::Held>;

    /// Returns the source at which the connection's future waits for something to write.
    fn asked(&self) -> &Source
        ensures { result.now.id ≡ asked self.now };
}
