//! The pause of a peer inside a frame.
ghost use Rattle.std.specs.Prelude.{◌≡◌, None};
ghost use Rattle.ttrpc_sync_server.specs.Connection.Pauses.{lasts, paused, seen_behind};

/// The pause of a peer inside a frame. The keeper of its connection measures it by looking from time to time.
#[derive(Clone, Copy, Debug)]
pub struct Pause {
    /// The number of pieces that had come at the last look, if the peer was inside a frame.
    pub pieces: Option<u64>,
    /// The moment of the first look that saw this number of pieces, in nanoseconds.
    pub since: u64,
}

impl Pause {
    /// Makes the state before the first look.
    pub fn new() -> Pause
        ensures { result ≡ record { pieces = None; since = 0 } }
    {
        Pause {
            pieces: None,
            since: 0,
        }
    }

    /// Looks at the moment `now`, in nanoseconds. `pieces` is the number of pieces that have come, if the peer is inside a frame. Returns
    /// the nanoseconds since the first look that saw this number of pieces, or 0 if this look is the first or the peer isn't inside a
    /// frame.
    pub fn look(&mut self, now: u64, pieces: Option<u64>) -> u64
        ensures result { result ≡ paused self.old now pieces }
        ensures seen { self.new ≡ seen_behind self.old now pieces }
    {
        if self.lasts(pieces) {
            return now.saturating_sub(self.since);
        }
        self.pieces = pieces;
        self.since = now;
        0
    }

    /// Returns whether the peer is inside a frame and no piece has come since the last look.
    fn lasts(&self, pieces: Option<u64>) -> bool
        ensures { result ≡ lasts self.now pieces }
    {
        match pieces {
            Some(count) => self.pieces == Some(count),
            None => false,
        }
    }
}
