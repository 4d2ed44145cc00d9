//! The results that the tasks of one event loop share.
use std::alloc::{AllocError, Global};
use std::cell::Cell;
use ttrpc_proto::{Error, Result};

/// The results of the tasks: the time of each exchange, in nanoseconds, and the first fault.
#[derive(Drop)]
pub struct Tally {
    alloc: Global,
    times: Cell<Vec<u64>>,
    fault: Cell<Option<Error>>,
}

impl Tally {
    /// Returns a tally with room for `count` times. The pages of the room are touched, so that memory doesn't grow
    /// during the exchanges.
    pub fn new(alloc: Global, count: usize) -> std::result::Result<Tally, AllocError> {
        let mut times = Vec::from_elem(alloc, u64::MAX, count)?;
        times.clear();
        Ok(Tally {
            alloc,
            times: Cell::new(times),
            fault: Cell::new(None),
        })
    }

    /// Keeps the time of an exchange.
    pub fn add(&self, time: u64) -> Result<()> {
        let mut times = self.times.replace(Vec::new(self.alloc));
        let kept = times.push(time);
        self.times.set(times);
        Ok(kept?)
    }

    /// Keeps a fault, if it is the first.
    pub fn fail(&self, error: Error) {
        let before = self.fault.replace(None);
        self.fault.set(Some(before.unwrap_or(error)));
    }

    /// Takes the times. Returns the fault instead if there is one.
    pub fn taken(&self) -> Result<Vec<u64>> {
        match self.fault.replace(None) {
            Some(error) => Err(error),
            None => Ok(self.times.replace(Vec::new(self.alloc))),
        }
    }
}
