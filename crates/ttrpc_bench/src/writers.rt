//! A writer that moves few bytes a call, can be interrupted, fail or take no more at each place, and keeps the result
//! of its last call.
ghost use Rattle.std.specs.Prelude.{◌≡◌, [], IfOk, Ok, OnOk, Some};
ghost use Rattle.std.specs.Io.{WritesAtMost};
ghost use Rattle.std.specs.Io.KnownBytes.{WriteAppends};
ghost use Rattle.ttrpc_proto.specs.Framing.Streams.{answered_kind};

use crate::manners::{Manner, NO_CALL, interrupt};
use std::alloc::{AllocError, Global};
use std::io::{self, ErrorKind, Write};
use ttrpc_proto::Sink;

/// The number of bytes, and of offers, that a writer has memory for from the start.
pub const ROOM: usize = 10000;

/// Takes bytes, and keeps the number of bytes that each call offered.
#[derive(Drop)]
pub struct Receiver {
    pub taken: Vec<u8>,
    pub offers: Vec<usize>,
    /// The number of flushes, and the number of bytes that it had taken at the last one.
    pub flushes: usize,
    pub flushed: usize,
    manner: Manner,
    interrupted: bool,
    /// The result of the last call.
    pub last: Result<usize, ErrorKind>,
}

impl Receiver {
    /// Returns a writer that has taken nothing.
    pub fn new(alloc: Global, manner: Manner) -> Result<Receiver, AllocError>
        ensures { IfOk result (λ r. r.taken.items ≡ []) }
    {
        Ok(Receiver {
            taken: Vec::with_capacity(alloc, ROOM)?,
            offers: Vec::with_capacity(alloc, ROOM)?,
            flushes: 0,
            flushed: 0,
            manner,
            interrupted: false,
            last: NO_CALL,
        })
    }

    /// Takes some of the bytes, and returns how many.
    pub fn take(&mut self, bytes: &[u8]) -> Result<usize, ErrorKind>
        ensures bound { WritesAtMost result bytes.now }
        ensures bytes { WriteAppends
            (Some self.old.taken.items) (Some self.new.taken.items) result bytes.now }
    {
        if self.offers.push(bytes.len()).is_err() {
            return Err(ErrorKind::OutOfMemory);
        }
        interrupt(self.manner.interrupts, &mut self.interrupted)?;
        let count = self.manner.count(self.taken.len(), bytes.len())?;
        if self.taken.extend_from_slice(&bytes[..count]).is_err() {
            return Err(ErrorKind::OutOfMemory);
        }
        Ok(count)
    }

    /// Flushes, and moves nothing.
    fn let_go(&mut self) -> Result<usize, ErrorKind>
        ensures moved { OnOk result (result ≡ Ok 0) }
        ensures bytes { self.new.taken ≡ self.old.taken }
    {
        interrupt(self.manner.interrupts_flushes, &mut self.interrupted)?;
        match self.manner.behind {
            Some(kind) if self.flushes >= self.manner.flushes => Err(kind),
            _ => {
                self.flushes = self.flushes.saturating_add(1);
                self.flushed = self.taken.len();
                Ok(0)
            }
        }
    }
}

impl Sink for Receiver {
    ghost contents = { λ r. Some r.taken.items };

    ghost last = { λ r. Some (answered_kind r.last) };

    fn write(&mut self, bytes: &[u8]) -> io::Result<usize> {
        self.last = self.take(bytes);
        Ok(self.last?)
    }

    fn flush(&mut self) -> io::Result<()> {
        self.last = self.let_go();
        self.last?;
        Ok(())
    }
}

/// The same, as a writer of std.
#[derive(Drop)]
pub struct StdWriter {
    pub receiver: Receiver,
}

impl StdWriter {
    /// Returns a writer that has taken nothing.
    pub fn new(alloc: Global, manner: Manner) -> Result<StdWriter, AllocError>
        ensures { IfOk result (λ w. w.receiver.taken.items ≡ []) }
    {
        let receiver = Receiver::new(alloc, manner)?;
        Ok(StdWriter { receiver })
    }
}

impl Write for StdWriter {
    fn write(&mut self, bytes: &[u8]) -> io::Result<usize> {
        Sink::write(&mut self.receiver, bytes)
    }

    fn flush(&mut self) -> io::Result<()> {
        Sink::flush(&mut self.receiver)
    }
}
