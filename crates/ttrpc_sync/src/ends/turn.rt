//! The turn to write.
ghost use Rattle.std.specs.Prelude.{◌≡◌, true, false, if◌then◌else◌};
ghost use Rattle.ttrpc_sync.specs.Turns.{given_back, next_of, turn_after, wakes_behind};

/// The turn to write, which at most one thread of a connection has. It lies under the connection's lock, so the thread that has the turn is
/// the only writer.
#[derive(Debug, Drop)]
pub struct WriteTurn {
    /// True if a thread has the turn.
    pub is_taken: bool,
    /// True if the writer thread sleeps and hasn't been woken yet.
    pub sleeps: bool,
}

/// The next action of a writer when nothing is lent.
#[derive(Clone, Copy, Debug, PartialEq, Eq)]
pub enum Next {
    /// The writer writes: it has the turn, and bytes wait.
    Writes,
    /// The writer ends, and no longer has the turn.
    Leaves,
    /// The writer waits to be woken, and no longer has the turn.
    Sleeps,
}

impl WriteTurn {
    /// Makes a turn that no thread has.
    pub fn new() -> WriteTurn
        ensures { result ≡ record { is_taken = false; sleeps = false } }
    {
        WriteTurn {
            is_taken: false,
            sleeps: false,
        }
    }

    /// Takes the turn if it is free, and returns whether it was.
    pub fn take(&mut self) -> bool
        ensures result { result ≡ (if self.old.is_taken then false else true) }
        ensures taken { self.new ≡ record self.old { is_taken = true } }
    {
        if self.is_taken {
            return false;
        }
        self.is_taken = true;
        true
    }

    /// Decides the next action of a writer when nothing is lent. `has_turn` says whether this writer has the turn. It writes if bytes wait
    /// and no other thread has the turn. Otherwise it gives the turn back, and sleeps if it is to stay.
    pub fn next(&mut self, has_turn: bool, stays: bool, bytes_wait: bool) -> Next
        ensures result { result ≡ next_of self.old.is_taken has_turn stays bytes_wait }
        ensures turn { self.new ≡ turn_after self.old has_turn stays bytes_wait }
    {
        if bytes_wait && (has_turn || !self.is_taken) {
            self.is_taken = true;
            return Next::Writes;
        }
        if has_turn {
            self.is_taken = false;
        }
        if !stays {
            return Next::Leaves;
        }
        self.sleeps = true;
        Next::Sleeps
    }

    /// Gives the turn back, for a thread that wrote its own frame. Returns true if the writer thread is to be woken to write the rest.
    pub fn give_back(&mut self, bytes_wait: bool) -> bool
        ensures result { result ≡ wakes_behind self.old bytes_wait }
        ensures turn { self.new ≡ given_back self.old bytes_wait }
    {
        self.is_taken = false;
        bytes_wait && self.wakes()
    }

    /// Reports that something was queued. Returns true if the writer thread is to be woken, at most once for each sleep. A thread that has
    /// the turn looks again before it gives the turn back, so no thread is woken then.
    pub fn wakes(&mut self) -> bool
        ensures result { result ≡ (if self.old.is_taken then false else self.old.sleeps) }
        ensures told { self.new
            ≡ record self.old { sleeps = if self.old.is_taken then self.old.sleeps else false } }
    {
        if self.is_taken || !self.sleeps {
            return false;
        }
        self.sleeps = false;
        true
    }
}
