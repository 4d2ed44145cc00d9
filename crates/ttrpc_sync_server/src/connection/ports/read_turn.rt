//! The turn to read, which a server's two readers share, and when one reader takes it from the other.
ghost use Rattle.std.specs.Prelude.{◌≡◌};
ghost use Rattle.ttrpc_sync_server.specs.Connection.ReadTurns.{at_turn, has_turn, may_handle, new_read_turn, read_turn_begun, read_turn_wanted};

/// The next action of a reader that wants the turn.
#[derive(Clone, Copy, Debug, PartialEq, Eq)]
pub enum AtTurn {
    /// The reader reads: it has the turn.
    Reads,
    /// The reader looks again after a while. It has seen that this many rounds of jobs were begun.
    LooksAgain(u64),
    /// The reader sleeps until it is woken.
    Sleeps,
}

/// The turn to read a server's connection, which two readers share. The reader that has the turn also handles the jobs of its input, while
/// the other reader checks from time to time whether it still does. If so, the other reader takes the turn, and workers take the jobs that
/// are left. The connection's lock guards the turn.
#[derive(Debug, Drop)]
pub struct ServerReadTurn {
    /// The number of the reader that has the turn.
    pub reader: Option<u32>,
    /// True while the reader with the turn handles jobs of its input.
    pub handles: bool,
    /// The number of times that a reader began to handle jobs.
    pub rounds: u64,
    /// True if the other reader waits for the turn.
    pub other_waits: bool,
    /// True if the other reader sleeps, and hasn't been woken yet.
    pub other_sleeps: bool,
}

impl ServerReadTurn {
    /// Makes a turn that no reader has, and for which none waits.
    pub fn new() -> ServerReadTurn
        ensures { result ≡ new_read_turn }
    {
        ServerReadTurn {
            reader: None,
            handles: false,
            rounds: 0,
            other_waits: false,
            other_sleeps: false,
        }
    }

    /// Asks for the turn, for a reader that saw `seen` rounds at its last look. Grants the turn if this reader holds it, if nobody does, or
    /// if the other reader is still handling the round seen at the last look.
    pub fn wants(&mut self, reader: u32, seen: Option<u64>) -> AtTurn
        ensures result { result ≡ at_turn self.old reader seen }
        ensures read_turn { self.new ≡ read_turn_wanted self.old reader seen }
    {
        if self.has_turn(reader) {
            self.handles = false;
            return AtTurn::Reads;
        }
        let is_same_round = seen == Some(self.rounds);
        if self.reader.is_none() || (self.handles && is_same_round) {
            self.reader = Some(reader);
            self.handles = false;
            self.other_waits = false;
            self.other_sleeps = false;
            return AtTurn::Reads;
        }
        self.other_waits = true;
        self.other_sleeps = !self.handles && (seen.is_none() || is_same_round);
        if self.other_sleeps {
            AtTurn::Sleeps
        } else {
            AtTurn::LooksAgain(self.rounds)
        }
    }

    /// Begins a round: the reader that has the turn handles jobs of its input. Returns true if the other reader is to be woken, so that it
    /// checks whether that takes long.
    pub fn begin_round(&mut self) -> bool
        ensures result { result ≡ self.old.other_sleeps }
        ensures read_turn { self.new ≡ read_turn_begun self.old }
    {
        let wakes = self.other_sleeps;
        self.handles = true;
        self.rounds = self.rounds.saturating_add(1);
        self.other_sleeps = false;
        wakes
    }

    /// Returns whether this reader may take a job, or a worker if there is no reader. A reader that has the turn may do so only after it
    /// has begun a round of jobs; before, it reads or waits for room.
    pub fn may_handle(&self, reader: Option<u32>) -> bool
        ensures { result ≡ may_handle self.now reader }
    {
        match reader {
            Some(reader) => self.handles || !self.has_turn(reader),
            None => true,
        }
    }

    /// Returns whether this reader has the turn.
    pub fn has_turn(&self, reader: u32) -> bool
        ensures { result ≡ has_turn self.now reader }
    {
        self.reader == Some(reader)
    }
}
