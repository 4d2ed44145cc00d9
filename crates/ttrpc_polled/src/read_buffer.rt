//! Bytes from a reader, on their way to a core.
ghost use Rattle.std.specs.Prelude.{◌≡◌, [], IfOk};
ghost use Rattle.futures.specs.Task.{Covers, Keeps};
ghost use Rattle.futures.specs.Poll.{OnPending};
ghost use Rattle.tokio.specs.Io.Moved.{IfReadyErr};
ghost use Rattle.ttrpc_polled.specs.Passing.{AsksPiece};

use crate::piece::Piece;
use futures::task::{Context, Poll};
use std::alloc::{AllocError, Global};
use std::io::{self, ErrorKind};
use tokio::io::AsyncRead;

/// The room for a piece while a connection waits for one.
pub const READ_BUFFER_AT_REST: usize = 1024;

/// The room for a piece after one that filled all the room, if memory is found.
pub const READ_BUFFER_AT_WORK: usize = 65536;

/// A reader, and the part of its last piece that a core hasn't taken yet.
#[derive(Drop)]
pub struct ReadBuffer<S> {
    pub reader: S,
    pub piece: Piece,
    was_full: bool,
}

impl<S: AsyncRead> ReadBuffer<S> {
    /// Makes the read buffer of this reader, without a piece. Memory for the room at rest may be refused.
    pub fn new(alloc: Global, reader: S) -> Result<ReadBuffer<S>, AllocError>
        ensures { IfOk result (λ read_buffer. (read_buffer.reader ≡ reader) × (read_buffer.piece ≡ [])) }
    {
        Ok(ReadBuffer {
            reader,
            piece: Piece::new(alloc, READ_BUFFER_AT_REST)?,
            was_full: false,
        })
    }

    /// Asks for a piece: the rest of the last one, or a new one. Ready with whether there is a piece; at the end of the input there is
    /// none.
    pub fn poll_piece(&mut self, cx: &mut Context<'_>) -> Poll<io::Result<bool>>
        ensures asks { AsksPiece S.reads S.is_at_end self.old.reader self.old.piece result
            self.new.reader self.new.piece }
        ensures failed { IfReadyErr result (S.fails self.new.reader) }
        ensures registered { OnPending result (Covers cx.new (S.needs self.new.reader)) }
        ensures kept { Keeps cx.old cx.new }
    {
        if !self.piece.is_empty() {
            return Poll::Ready(Ok(true));
        }
        if self.was_full {
            self.piece.make_room(READ_BUFFER_AT_WORK);
        }
        match self.piece.poll_read(&mut self.reader, cx) {
            Poll::Ready(Ok(count)) => {
                self.was_full = self.piece.room() == 0;
                Poll::Ready(Ok(count > 0))
            }
            Poll::Ready(Err(error)) if error.kind() == ErrorKind::Interrupted => cx.yield_now(),
            Poll::Ready(Err(error)) => Poll::Ready(Err(error)),
            Poll::Pending => {
                self.was_full = false;
                self.piece.let_go(READ_BUFFER_AT_REST);
                Poll::Pending
            }
        }
    }
}
