//! Bytes that a core lent, on their way to a writer.
ghost use Rattle.std.specs.Prelude.{◌≡◌, ◌≢◌, ◌<◌, ◌++◌, [], List, ℕ, length, IfOk, Ok, true, false};
ghost use Rattle.futures.specs.Task.{Covers, Keeps};
ghost use Rattle.futures.specs.Poll.{OnPending};
ghost use Rattle.tokio.specs.Io.Moved.{IfReadyErr};
ghost use Rattle.ttrpc_polled.specs.Passing.{Gathers, LendsNone, Writes};

use crate::held::PolledState;
use crate::piece::Piece;
use futures::task::{Context, Poll};
use std::alloc::{AllocError, Global};
use std::io::{self, ErrorKind};
use tokio::io::AsyncWrite;

/// The room of a connection that has nothing to write.
pub const WRITE_BUFFER_AT_REST: usize = 512;

/// The number of kept bytes from which no further frame is added to them.
pub const WRITE_BUFFER_LIMIT: usize = 65536;

/// The number of kept bytes below which more are gathered for the same write, if a task may have more to send.
pub const WRITE_BUFFER_BATCH: usize = 32768;

/// The most loans that are taken at once, so that the lock is released in between.
const LOANS: u32 = 64;

/// A writer, and the lent bytes that it hasn't taken yet.
#[derive(Drop)]
pub struct WriteBuffer<W> {
    pub writer: W,
    pub kept: Piece,
}

impl<W: AsyncWrite> WriteBuffer<W> {
    /// Makes the write buffer to this writer, which keeps nothing yet. Memory for the room at rest may be refused.
    pub fn new(alloc: Global, writer: W) -> Result<WriteBuffer<W>, AllocError>
        ensures { IfOk result (λ write_buffer. (write_buffer.writer ≡ writer) × (write_buffer.kept ≡ [])) }
    {
        Ok(WriteBuffer {
            writer,
            kept: Piece::new(alloc, WRITE_BUFFER_AT_REST)?,
        })
    }

    /// Returns whether more is to be gathered for the same write: none of the kept bytes is written yet, and they are few.
    pub(crate) fn has_room(&self) -> bool {
        self.kept.is_whole() && self.kept.bytes().len() < WRITE_BUFFER_BATCH
    }

    /// Takes loans, until nothing is lent or enough is kept. If nothing is kept then, nothing was lent, and the room above that at rest is
    /// released.
    pub fn gather<H: PolledState>(&mut self, held: &mut H)
        ensures gathers { (bytes : List ℕ) × Gathers H.lends held.old bytes held.new
            × (self.new.kept ≡ self.old.kept ++ bytes) }
        ensures none { self.new.kept ≡ [] → LendsNone H.lends held.new }
        ensures some { self.old.kept ≢ [] → self.new.kept ≢ [] }
        ensures writer { self.new.writer ≡ self.old.writer }
    {
        self.take_loans(held);
        self.kept.let_go(WRITE_BUFFER_AT_REST);
    }

    /// Takes loans, until nothing is lent or enough is kept.
    #[tactic(auto, using(crate::proofs::Gathering::gathers_more))]
    fn take_loans<H: PolledState>(&mut self, held: &mut H)
        ensures gathers { (bytes : List ℕ) × Gathers H.lends held.old bytes held.new
            × (self.new.kept ≡ self.old.kept ++ bytes) }
        ensures none { self.new.kept ≡ [] → LendsNone H.lends held.new }
        ensures writer { self.new.writer ≡ self.old.writer }
    {
        for _ in 0..LOANS {
            if self.kept.bytes().len() >= WRITE_BUFFER_LIMIT {
                return;
            }
            if self.kept.take_loan(held) == 0 {
                return;
            }
        }
    }

    /// Writes the kept bytes. Ready with whether the writer took some of them; a writer that is full takes none.
    pub fn poll_rest(&mut self, cx: &mut Context<'_>) -> Poll<io::Result<bool>>
        // The writer took the first of the kept bytes, and an error is the writer's.
        ensures writes { Writes W.writes self.old.writer self.old.kept
            self.new.writer self.new.kept }
        ensures failed { IfReadyErr result (W.fails self.new.writer) }
        // A pending poll has registered with the writer.
        ensures registered { OnPending result (Covers cx.new (W.needs self.new.writer)) }
        // At true the writer took some bytes. Otherwise it took none, and at false it is full if some were kept.
        ensures full { result ≡ Poll.Ready (Ok false) → self.old.kept ≢ []
            → W.is_full self.new.writer }
        ensures some { result ≡ Poll.Ready (Ok true) → length self.new.kept < length self.old.kept }
        ensures others { result ≢ Poll.Ready (Ok true) → self.new.kept ≡ self.old.kept }
        // Earlier registrations are kept.
        ensures kept { Keeps cx.old cx.new }
    {
        match self.writer.poll_write(cx, self.kept.bytes()) {
            Poll::Ready(Ok(count)) => {
                self.kept.took(count);
                Poll::Ready(Ok(count > 0))
            }
            Poll::Ready(Err(error)) if error.kind() == ErrorKind::Interrupted => cx.yield_now(),
            Poll::Ready(Err(error)) => Poll::Ready(Err(error)),
            Poll::Pending => Poll::Pending,
        }
    }
}
