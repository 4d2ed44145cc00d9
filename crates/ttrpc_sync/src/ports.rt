//! The ports, which take bytes from a loop or give bytes to it.
ghost use Rattle.std.specs.Prelude.{◌≡◌, ◌≢◌, ◌<◌, ◌≤◌, ℕ, List, Option, None, length, take, IfSome, IfNone, MatchBool};
ghost use Rattle.std.specs.Io.KnownBytes.{Appends, Keeps};
ghost use Rattle.std.specs.IoError.{error_kind};

use std::io::{self, ErrorKind};

/// The last thing that a port and its loop reported to each other.
#[derive(Clone, Copy, Debug, PartialEq, Eq)]
pub enum PortState {
    /// Nothing: the loop goes on.
    Open,
    /// The loop reported the end.
    Ended,
    /// The loop reported a break of this kind.
    Broke(ErrorKind),
    /// The port wants no more.
    Stopped,
}

/// A port that takes the bytes that were read.
pub trait ReadPort {
    ghost use Rattle.std.specs.Prelude.{◌≡◌, Bool, true};
    ghost use Rattle.std.specs.declared.io.ErrorKind.{ErrorKind};
    ghost use Rattle.ttrpc_sync.specs.declared.ports.PortState.{PortState};
    ghost use Rattle.ttrpc_sync.specs.Loops.{IsSameCount, IsOneMore};

    // All bytes that the port took, if it records them.
    ghost taken: { Self → Option (List ℕ) } = { λ _. None };

    // The last report.
    ghost state: { Self → PortState };

    // True if the port has answered that it wants more, and nothing else was reported since.
    ghost wants_more: { Self → Bool } = { λ _. true };

    // The number of loops that have begun, if the port counts them.
    ghost begun: { Self → Option ℕ } = { λ _. None };

    /// Begins a loop: nothing has been reported yet.
    fn begin(&mut self)
        ensures taken { Keeps (taken self.old) (taken self.new) }
        ensures state { state self.new ≡ PortState.Open }
        ensures begun { IsOneMore (begun self.old) (begun self.new) };

    /// Returns whether the loop is to read on. The loop asks before each read, and the call may wait. False means that
    /// the port wants no more.
    fn wants(&mut self) -> bool
        // The loop is under way.
        requires { state self.old ≡ PortState.Open }
        // No bytes are taken.
        ensures taken { Keeps (taken self.old) (taken self.new) }
        // At true the port is open, and has answered that it wants more. At false it has stopped.
        ensures state { MatchBool result (state self.new ≡ PortState.Open)
            (state self.new ≡ PortState.Stopped) }
        ensures asked { result ≡ true → wants_more self.new ≡ true }
        // No loop begins.
        ensures begun { IsSameCount (begun self.old) (begun self.new) };

    /// Takes the first bytes of the piece, and returns how many. Returns `None` if the port wants no more; then it took
    /// none of these bytes.
    fn take(&mut self, piece: &[u8]) -> Option<usize>
        // The loop is under way, and has bytes.
        requires state { state self.old ≡ PortState.Open }
        requires some { 0 < length piece.now }
        // The port takes the first bytes and stays open, or takes none and stops.
        ensures bound { IfSome result (λ n. n ≤ length piece.now) }
        ensures taken { IfSome result
            (λ n. Appends (taken self.old) (taken self.new) (take n piece.now)) }
        ensures state { IfSome result (λ _. state self.new ≡ PortState.Open) }
        ensures stopped { IfNone result
            (Keeps (taken self.old) (taken self.new) × (state self.new ≡ PortState.Stopped)) }
        // It is the same loop.
        ensures begun { IsSameCount (begun self.old) (begun self.new) };

    /// Reports that the reader is at its end.
    fn ended(&mut self)
        requires { state self.old ≡ PortState.Open }
        ensures taken { Keeps (taken self.old) (taken self.new) }
        ensures state { state self.new ≡ PortState.Ended }
        ensures begun { IsSameCount (begun self.old) (begun self.new) };

    /// Reports that the reader failed with this error, which is no interruption.
    fn broke(&mut self, error: io::Error)
        // The loop is under way.
        requires state { state self.old ≡ PortState.Open }
        requires kind { error_kind error ≢ ErrorKind.Interrupted }
        // The port takes nothing, and knows the error's kind.
        ensures taken { Keeps (taken self.old) (taken self.new) }
        ensures state { state self.new ≡ PortState.Broke (error_kind error) }
        ensures begun { IsSameCount (begun self.old) (begun self.new) };
}

/// A port that gives the bytes that are to be written.
pub trait WritePort {
    ghost use Rattle.std.specs.declared.io.ErrorKind.{ErrorKind};
    ghost use Rattle.ttrpc_sync.specs.declared.ports.PortState.{PortState};
    ghost use Rattle.ttrpc_sync.specs.Loops.{IsSameCount, IsOneMore, Told, reported, waiting};

    // All bytes that were reported, and the bytes that wait, if the port records them.
    ghost told: { Self → Option Told } = { λ _. None };

    // The number of bytes that are lent.
    ghost lent: { Self → ℕ };

    // The last report.
    ghost state: { Self → PortState };

    // The number of loops that have begun, if the port counts them.
    ghost begun: { Self → Option ℕ } = { λ _. None };

    /// Begins a loop: nothing has been reported yet.
    fn begin(&mut self)
        ensures reported { Keeps (reported (told self.old)) (reported (told self.new)) }
        ensures state { state self.new ≡ PortState.Open }
        ensures begun { IsOneMore (begun self.old) (begun self.new) };

    /// Copies the first of the waiting bytes to the front of the buffer, and returns how many. The bytes are lent from
    /// now on, and they wait until they are reported. Returns 0 if no bytes wait, or if the bytes written before are to
    /// leave first.
    fn lend(&mut self, buffer: &mut [u8]) -> usize
        // The loop is under way, and there is room.
        requires state { state self.old ≡ PortState.Open }
        requires room { 0 < length buffer.old }
        // The first `result` bytes of the buffer are the first of the bytes that wait.
        ensures bound { result ≤ length buffer.new }
        ensures lent { lent self.new ≡ result }
        ensures bytes { IfSome (told self.new)
            (λ t. take result buffer.new ≡ take result t.waiting) }
        // The call reports nothing, and the loop goes on.
        ensures reported { Keeps (reported (told self.old)) (reported (told self.new)) }
        ensures state { state self.new ≡ PortState.Open }
        ensures begun { IsSameCount (begun self.old) (begun self.new) };

    /// Reports that the writer took `count` of the lent bytes.
    fn wrote(&mut self, count: usize)
        // The loop is under way, and at least `count` bytes are lent.
        requires state { state self.old ≡ PortState.Open }
        requires some { 0 < count }
        requires lent { count ≤ lent self.old }
        // The bytes are reported, and the loop goes on.
        ensures reported { Appends (reported (told self.old)) (reported (told self.new))
            (take count (waiting (told self.old))) }
        ensures state { state self.new ≡ PortState.Open }
        ensures begun { IsSameCount (begun self.old) (begun self.new) };

    /// Reports that the writer failed with this error, which is no interruption, or that it took nothing.
    fn broke(&mut self, error: io::Error)
        // The loop is under way.
        requires state { state self.old ≡ PortState.Open }
        requires kind { error_kind error ≢ ErrorKind.Interrupted }
        // The call reports no bytes, and the port knows the error's kind.
        ensures reported { Keeps (reported (told self.old)) (reported (told self.new)) }
        ensures state { state self.new ≡ PortState.Broke (error_kind error) }
        ensures begun { IsSameCount (begun self.old) (begun self.new) };

    /// Waits until there may be bytes. Returns false if the port wants to end.
    fn more(&mut self) -> bool
        // The loop is under way, and nothing is lent.
        requires state { state self.old ≡ PortState.Open }
        requires nothing { lent self.old ≡ 0 }
        // The call reports no bytes, and the loop goes on if the port returns true.
        ensures reported { Keeps (reported (told self.old)) (reported (told self.new)) }
        ensures state { MatchBool result (state self.new ≡ PortState.Open)
            (state self.new ≡ PortState.Stopped) }
        ensures begun { IsSameCount (begun self.old) (begun self.new) };
}
