//! A reader that moves few bytes a call, can be interrupted and fail at each place, and keeps the result of its last
//! call.
ghost use Rattle.std.specs.Prelude.{◌≡◌, ◌≤◌, length, Some};
ghost use Rattle.std.specs.Io.{ReadsAtMost};
ghost use Rattle.ttrpc_proto.specs.Framing.Streams.{answered_kind};

use crate::manners::{Manner, NO_CALL, interrupt};
use std::cmp::min;
use std::io::{self, ErrorKind, Read};
use ttrpc_proto::Source;

/// Gives the bytes of a head, then zeros, then the bytes of a tail.
#[derive(Drop)]
pub struct Giver<'a> {
    manner: Manner,
    interrupted: bool,
    head: &'a [u8],
    zeros: usize,
    tail: &'a [u8],
    given: usize,
    /// The result of the last call.
    pub last: Result<usize, ErrorKind>,
}

impl Giver<'_> {
    /// Returns a reader of these bytes.
    pub fn new(bytes: &[u8], manner: Manner) -> Giver<'_>
        ensures { result.last ≡ NO_CALL }
    {
        Giver::with_zeros(bytes, 0, b"", manner)
    }

    /// Returns a reader of a head, of `zeros` zeros and of a tail.
    pub fn with_zeros<'a>(head: &'a [u8], zeros: usize, tail: &'a [u8], manner: Manner) -> Giver<'a>
        ensures { result.last ≡ NO_CALL }
    {
        Giver {
            manner,
            interrupted: false,
            head,
            zeros,
            tail,
            given: 0,
            last: NO_CALL,
        }
    }

    /// Returns the number of bytes that weren't read.
    pub fn left(&self) -> usize {
        self.head
            .len()
            .saturating_add(self.zeros)
            .saturating_add(self.tail.len())
    }

    fn give(&mut self, buffer: &mut [u8]) -> Result<usize, ErrorKind>
        ensures { ReadsAtMost result buffer.new }
    {
        interrupt(self.manner.interrupts, &mut self.interrupted)?;
        let most = min(self.left(), buffer.len());
        let most = self.manner.count(self.given, most)?;
        let count = self.copy(&mut buffer[..most]);
        self.given = self.given.saturating_add(count);
        Ok(count)
    }

    /// Copies the next bytes, and returns how many.
    fn copy(&mut self, buffer: &mut [u8]) -> usize
        ensures { result ≤ length buffer.new }
    {
        if self.head.is_empty() && self.zeros > 0 {
            let count = min(buffer.len(), self.zeros);
            buffer[..count].fill(0);
            self.zeros -= count;
            return count;
        }
        let next = if self.head.is_empty() {
            &mut self.tail
        } else {
            &mut self.head
        };
        let count = min(buffer.len(), next.len());
        buffer[..count].copy_from_slice(&next[..count]);
        *next = &next[count..];
        count
    }
}

impl Source for Giver<'_> {
    ghost last = { λ g. Some (answered_kind g.last) };

    fn read(&mut self, buffer: &mut [u8]) -> io::Result<usize> {
        self.last = self.give(buffer);
        Ok(self.last?)
    }
}

/// The same, as a reader of std.
#[derive(Drop)]
pub struct StdReader<'a> {
    pub giver: Giver<'a>,
}

impl StdReader<'_> {
    /// Returns a reader of these bytes.
    pub fn new(bytes: &[u8], manner: Manner) -> StdReader<'_>
        ensures { result.giver.last ≡ NO_CALL }
    {
        StdReader {
            giver: Giver::new(bytes, manner),
        }
    }
}

impl Read for StdReader<'_> {
    fn read(&mut self, buffer: &mut [u8]) -> io::Result<usize> {
        Source::read(&mut self.giver, buffer)
    }
}
