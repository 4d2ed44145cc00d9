//! Bytes on their way, in order.
ghost use Rattle.std.specs.Prelude.{◌≡◌, ◌≢◌, ◌+◌, ◌≤◌, [], length, take, drop, true, false, IfOk, Ok};
ghost use Rattle.futures.specs.Task.{Covers, Keeps};
ghost use Rattle.futures.specs.Poll.{OnPending};
ghost use Rattle.tokio.specs.Io.Moved.{IfReadyErr, count_moved};
ghost use Rattle.ttrpc_polled.specs.Passing.{TakesLoan};

use crate::held::PolledState;
use futures::task::{Context, Poll};
use std::alloc::{AllocError, Global};
use std::io;
use std::marker::Model;
use tokio::io::AsyncRead;

/// Bytes that wait to be taken, with room for more after them.
#[derive(Drop)]
pub struct Piece {
    bytes: Vec<u8>,
    from: usize,
    to: usize,
}

impl Model for Piece {
    ghost use Rattle.std.specs.Prelude.{ℕ, List, ◌<◌, ◌≤◌, take, drop, vec_len};

    ghost Value = { List ℕ };

    ghost view = { λ p. drop p.from (take p.to p.bytes.items) };

    ghost invariant = { λ p. (p.from ≤ p.to) × (p.to ≤ vec_len p.bytes) × (0 < vec_len p.bytes) };
}

impl Piece {
    /// Makes an empty piece with room for `room` bytes, and at least one. Memory for it may be
    /// refused.
    pub fn new(alloc: Global, room: usize) -> Result<Piece, AllocError>
        ensures { IfOk result (λ piece. piece ≡ []) }
    {
        Ok(Piece {
            bytes: vec![in alloc; 0; room.max(1)]?,
            from: 0,
            to: 0,
        })
    }

    /// Returns the bytes.
    pub fn bytes(&self) -> &[u8]
        ensures { result.now ≡ self.now }
    {
        &self.bytes.as_slice()[..self.to][self.from..]
    }

    /// Returns whether there are no bytes.
    pub fn is_empty(&self) -> bool
        ensures yes { result ≡ true → self.now ≡ [] }
        ensures no { result ≡ false → self.now ≢ [] }
    {
        self.from == self.to
    }

    /// Returns whether none of the bytes were taken yet.
    pub(crate) fn is_whole(&self) -> bool {
        self.from == 0
    }

    /// Returns how many more bytes there is room for.
    pub(crate) fn room(&self) -> usize {
        self.bytes.len() - self.to
    }

    /// Removes the first `count` bytes, which were taken.
    pub(crate) fn took(&mut self, count: usize)
        requires { count ≤ length self.old }
        ensures { self.new ≡ drop count self.old }
    {
        self.from += count;
        if self.from == self.to {
            self.from = 0;
            self.to = 0;
        }
    }

    /// Makes room for `count` more bytes, if memory is found.
    pub(crate) fn make_room(&mut self, count: usize)
        ensures { self.new ≡ self.old }
    {
        if count > self.room() {
            let _ = self.bytes.resize(self.to.saturating_add(count), 0);
        }
    }

    /// Releases the room above `room` bytes, and above at least one, if the piece is empty.
    pub(crate) fn let_go(&mut self, room: usize)
        ensures { self.new ≡ self.old }
    {
        if self.from == self.to && room < self.bytes.len() {
            self.from = 0;
            self.to = 0;
            self.bytes.truncate(room.max(1));
            self.bytes.shrink_to_fit();
        }
    }

    /// Takes a loan, of a whole frame if there is memory for it, and returns how many bytes it has.
    pub(crate) fn take_loan<H: PolledState>(&mut self, held: &mut H) -> usize
        ensures loan { TakesLoan H.lends held.old result self.old held.new self.new }
        ensures count { length self.new ≡ length self.old + result }
    {
        self.make_room(held.lendable());
        let count = lend_at(held, self.bytes.as_mut_slice(), self.to);
        self.to += count;
        count
    }

    /// Reads as many bytes as there is room for, and returns how many.
    pub(crate) fn poll_read<S: AsyncRead>(
        &mut self,
        reader: &mut S,
        cx: &mut Context<'_>,
    ) -> Poll<io::Result<usize>>
        // The piece is empty.
        requires { self.old ≡ [] }
        // The bytes that were read are the piece, and the result counts them. After a count of 0 the reader is at its end.
        ensures reads { S.reads reader.old self.new reader.new }
        ensures count { length self.new ≡ count_moved result }
        ensures end { result ≡ Poll.Ready (Ok 0) → S.is_at_end reader.new }
        // An error is the reader's. A pending poll has registered with the reader, and earlier registrations are kept.
        ensures failed { IfReadyErr result (S.fails reader.new) }
        ensures registered { OnPending result (Covers cx.new (S.needs reader.new)) }
        ensures kept { Keeps cx.old cx.new }
    {
        self.from = 0;
        self.to = 0;
        let polled = reader.poll_read(cx, self.bytes.as_mut_slice());
        if let Poll::Ready(Ok(count)) = &polled {
            self.to = *count;
        }
        polled
    }
}

/// Takes a loan into this buffer, after its first `at` bytes.
fn lend_at<H: PolledState>(held: &mut H, buffer: &mut [u8], at: usize) -> usize
    requires { at ≤ length buffer.old }
    ensures bound { at + result ≤ length buffer.new }
    ensures loan { TakesLoan H.lends held.old result (take at buffer.old) held.new
        (take (at + result) buffer.new) }
{
    held.lend(&mut buffer[at..])
}
