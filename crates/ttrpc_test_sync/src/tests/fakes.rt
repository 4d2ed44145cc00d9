//! Ports in memory, and bytes for them.
ghost use Rattle.std.specs.Prelude.{◌≡◌, ◌+◌, ◌≤◌, length, take, drop, Some};
ghost use Rattle.ttrpc_sync.specs.Loops.{IsOneMore};

use std::alloc::Global;
use std::cell::Cell;
use std::cmp::min;
use std::io;
use std::test::Fail;
use ttrpc_bench::ROOM;
use ttrpc_sync::{PortState, ReadPort, WritePort};

/// Twenty different bytes.
pub const BYTES: &[u8] = b"ABCDEFGHIJKLMNOPQRST";

/// Returns more bytes than two pieces have: 0 to 250, again and again.
pub fn long_bytes(alloc: Global) -> Result<Vec<u8>, Fail> {
    let mut bytes = Vec::with_capacity(alloc, ROOM)?;
    for at in 0..10000u32 {
        bytes.push((at % 251) as u8)?;
    }
    Ok(bytes)
}

/// Returns the count with one more loop, or `None` if there is no such count.
pub fn one_more(count: Option<u32>) -> Option<u32>
    ensures { IsOneMore count result }
{
    count?.checked_add(1)
}

/// A port that takes at most `step` bytes of a piece. It wants no more after it has taken `room` bytes, or if memory is
/// refused. If it rests, it takes nothing at each second offer.
#[derive(Drop)]
pub struct Taker {
    pub taken: Vec<u8>,
    pub state: PortState,
    pub begun: Option<u32>,
    /// The number of reads that it wants.
    pub reads: usize,
    step: usize,
    room: usize,
    rests: bool,
    rested: bool,
}

impl Taker {
    pub fn new(taken: Vec<u8>, step: usize, room: usize, rests: bool) -> Taker {
        Taker {
            taken,
            state: PortState::Open,
            begun: Some(0),
            reads: usize::MAX,
            step,
            room,
            rests,
            rested: false,
        }
    }
}

impl ReadPort for Taker {
    ghost taken = { λ p. Some p.taken.items };

    ghost state = { λ p. p.state };

    ghost begun = { λ p. p.begun };

    fn begin(&mut self) {
        self.state = PortState::Open;
        self.begun = one_more(self.begun);
    }

    fn wants(&mut self) -> bool {
        if self.reads == 0 {
            self.state = PortState::Stopped;
            return false;
        }
        self.reads -= 1;
        true
    }

    fn take(&mut self, piece: &[u8]) -> Option<usize> {
        if self.rests && !self.rested {
            self.rested = true;
            return Some(0);
        }
        self.rested = false;
        let count = min(self.step, min(self.room, piece.len()));
        if self.room == 0 || self.taken.extend_from_slice(&piece[..count]).is_err() {
            self.state = PortState::Stopped;
            return None;
        }
        self.room -= count;
        Some(count)
    }

    fn ended(&mut self) {
        self.state = PortState::Ended;
    }

    fn broke(&mut self, error: io::Error) {
        self.state = PortState::Broke(error.kind());
    }
}

/// A port that lends these bytes, at most `step` at a time. They come `batch` at a time, each time that it is asked for
/// more. It wants to end if it is asked when all have come. If it is given the number of bytes that have gone through
/// to the other side, it counts how often it was asked for more too early: before all reported bytes had gone through.
#[derive(Drop)]
pub struct Lender<'a> {
    bytes: &'a [u8],
    pub through: Option<&'a Cell<usize>>,
    pub early: usize,
    step: usize,
    batch: usize,
    come: usize,
    lent: usize,
    pub at: usize,
    pub asked: usize,
    pub state: PortState,
    pub begun: Option<u32>,
    ghost lent_has_come: { at + lent ≤ come },
    ghost come_is_there: { come ≤ length bytes.now },
}

impl Lender<'_> {
    pub fn new(bytes: &[u8], step: usize, batch: usize) -> Lender<'_>
        ensures { result.at ≡ 0 }
    {
        Lender {
            bytes,
            through: None,
            early: 0,
            step,
            batch,
            come: 0,
            lent: 0,
            at: 0,
            asked: 0,
            state: PortState::Open,
            begun: Some(0),
        }
    }
}

impl Lender<'_> {
    /// Returns whether some reported bytes have not gone through.
    fn is_early(&self) -> bool {
        match self.through {
            Some(through) => through.get() != self.at,
            None => false,
        }
    }
}

impl WritePort for Lender<'_> {
    ghost told = { λ p. Some (record {
      reported = take p.at p.bytes.now;
      waiting = drop p.at p.bytes.now;
    }) };

    ghost lent = { λ p. p.lent };

    ghost state = { λ p. p.state };

    ghost begun = { λ p. p.begun };

    fn begin(&mut self) {
        self.state = PortState::Open;
        self.begun = one_more(self.begun);
    }

    fn lend(&mut self, buffer: &mut [u8]) -> usize {
        let count = min(self.step, min(self.come - self.at, buffer.len()));
        buffer[..count].copy_from_slice(&self.bytes[self.at..self.at + count]);
        self.lent = count;
        count
    }

    fn wrote(&mut self, count: usize) {
        self.lent -= count;
        self.at += count;
    }

    fn broke(&mut self, error: io::Error) {
        self.state = PortState::Broke(error.kind());
    }

    fn more(&mut self) -> bool {
        self.asked = self.asked.saturating_add(1);
        self.early = self.early.saturating_add(self.is_early() as usize);
        if self.come == self.bytes.len() {
            self.state = PortState::Stopped;
            return false;
        }
        self.come += min(self.batch, self.bytes.len() - self.come);
        true
    }
}
