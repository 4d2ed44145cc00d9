//! Random numbers, ids and sides.
ghost use Rattle.std.specs.Prelude.{◌<◌};

use ttrpc_world::{Side, StreamEnd};

/// Random numbers, by shifts and exclusive ors.
#[derive(Drop)]
pub struct Chance {
    pub state: u64,
}

impl Chance {
    /// Returns a number below `n`, or 0 if `n` is 0.
    pub fn below(&mut self, n: u64) -> u64
        ensures { 0 < n → result < n }
    {
        self.state ^= self.state << 13;
        self.state ^= self.state >> 7;
        self.state ^= self.state << 17;
        if n == 0 {
            return 0;
        }
        self.state % n
    }

    /// Returns an odd id of one of the first calls.
    pub fn id(&mut self) -> u32 {
        (self.below(4) as u32).saturating_mul(2).saturating_add(1)
    }

    pub fn job(&mut self) -> u64 {
        self.below(4).saturating_add(1)
    }

    /// Returns the client's end of one of the first streams, or the server's.
    pub fn end(&mut self) -> StreamEnd {
        if self.below(2) == 0 {
            StreamEnd::Client(self.id())
        } else {
            StreamEnd::Server(self.job())
        }
    }

    pub fn count(&mut self) -> usize {
        self.below(96) as usize
    }

    pub fn side(&mut self) -> Side {
        if self.below(2) == 0 {
            Side::Client
        } else {
            Side::Server
        }
    }
}
