//! One frame from a reader that is polled.
ghost use Rattle.std.specs.Prelude.{◌≡◌, ◌<◌, ◌≤◌, ℕ, List, ◌++◌, length, IfNone, IfSome};
ghost use Rattle.futures.specs.Poll.{IfReady, OnPending};
ghost use Rattle.futures.specs.Task.{Covers, Keeps};
ghost use Rattle.ttrpc_proto.specs.Framing.Frames.{Holds, nothing, wanted};
ghost use Rattle.ttrpc_polled_frames.specs.Reading.{Continues, Makes, Takes};

use futures::task::{Context, Poll};
use std::alloc::Global;
use std::io::ErrorKind;
use std::result;
use tokio::io::AsyncRead;
use ttrpc_proto::framing::failure::StreamFailure;
use ttrpc_proto::framing::reading::Found;
use ttrpc_proto::{DEFAULT_PAGE_SIZE, FrameDecoder};
use ttrpc_wire::values::slices::front;

/// The number of reads of one poll, before it lets other tasks go on.
const READS: u32 = 64;

/// A reader, and the part of a frame that was read from it.
#[derive(Drop)]
pub struct Taking<S> {
    pub reader: S,
    pub decoder: FrameDecoder,
}

/// The frame or the end that was found, or the failure.
pub type Took = result::Result<Found, StreamFailure>;

impl<S: AsyncRead> Taking<S> {
    /// Returns a `Taking` that has read nothing yet. Takes no memory.
    pub fn new(alloc: Global, reader: S) -> Taking<S>
        ensures { (result.reader ≡ reader) × (result.decoder ≡ nothing) }
    {
        Taking {
            reader,
            decoder: FrameDecoder::new(alloc),
        }
    }

    /// Reads on, and reads nothing that follows the frame. Ready with the result when the frame is whole, or when the
    /// reader ends or fails, or when memory is refused. Room for a body grows as its bytes come, and the body of a
    /// frame that is too long is thrown away.
    pub fn poll_take(&mut self, alloc: Global, cx: &mut Context<'_>) -> Poll<Took>
        ensures took { IfReady result (λ took. Takes S.reads S.is_at_end S.fails self.old.reader
            self.old.decoder took self.new.reader) }
        ensures goes_on { OnPending result
            (Continues S.reads self.old.reader self.old.decoder self.new.reader self.new.decoder) }
        ensures registered { OnPending result (Covers cx.new (S.needs self.new.reader)) }
        ensures kept { Keeps cx.old cx.new }
    {
        for _ in 0..READS {
            match self.poll_piece(alloc, cx) {
                Poll::Pending => return Poll::Pending,
                Poll::Ready(Some(took)) => return Poll::Ready(took),
                Poll::Ready(None) => {}
            }
        }
        cx.yield_now()
    }

    /// Makes one read, of no more bytes than are wanted. Ready with `None` means that more is wanted.
    fn poll_piece(&mut self, alloc: Global, cx: &mut Context<'_>) -> Poll<Option<Took>>
        // At `Some` the rest of the frame was read, as far as the reader has it.
        ensures took { IfReady result (λ r. IfSome r (λ took. Takes S.reads S.is_at_end S.fails
            self.old.reader self.old.decoder took self.new.reader)) }
        // At `None`, and if the poll is pending, the frame isn't whole with the bytes that were read.
        ensures none { IfReady result (λ r. IfNone r
            (Continues S.reads self.old.reader self.old.decoder self.new.reader self.new.decoder)) }
        ensures goes_on { OnPending result
            (Continues S.reads self.old.reader self.old.decoder self.new.reader self.new.decoder) }
        // A pending poll has registered with the reader, and earlier registrations are kept.
        ensures registered { OnPending result (Covers cx.new (S.needs self.new.reader)) }
        ensures kept { Keeps cx.old cx.new }
    {
        let mut page = [0u8; DEFAULT_PAGE_SIZE];
        let wanted = self.decoder.wanted().min(DEFAULT_PAGE_SIZE);
        self.poll_into(alloc, cx, &mut page[..wanted])
    }

    /// Does the same, and reads into this room, which is for some of the wanted bytes.
    fn poll_into(
        &mut self,
        alloc: Global,
        cx: &mut Context<'_>,
        room: &mut [u8],
    ) -> Poll<Option<Took>>
        // The room is for some bytes, and for no more than are wanted.
        requires some { 0 < length room.old }
        requires wanted { length room.old ≤ wanted self.old.decoder }
        // The result is as that of `poll_piece`.
        ensures took { IfReady result (λ r. IfSome r (λ took. Takes S.reads S.is_at_end S.fails
            self.old.reader self.old.decoder took self.new.reader)) }
        ensures none { IfReady result (λ r. IfNone r
            (Continues S.reads self.old.reader self.old.decoder self.new.reader self.new.decoder)) }
        ensures goes_on { OnPending result
            (Continues S.reads self.old.reader self.old.decoder self.new.reader self.new.decoder) }
        ensures registered { OnPending result (Covers cx.new (S.needs self.new.reader)) }
        ensures kept { Keeps cx.old cx.new }
    {
        match self.reader.poll_read(cx, room) {
            Poll::Pending => Poll::Pending,
            Poll::Ready(Ok(0)) => Poll::Ready(Some(Ok(self.decoder.cut()))),
            Poll::Ready(Ok(count)) => {
                Poll::Ready(feed(alloc, &mut self.decoder, front(room, count)))
            }
            Poll::Ready(Err(error)) if error.kind() == ErrorKind::Interrupted => cx.yield_now(),
            Poll::Ready(Err(error)) => Poll::Ready(Some(Err(StreamFailure::Io(error)))),
        }
    }
}

/// Takes a piece of a frame, which has no more bytes than are wanted. Returns `None` if more is wanted.
fn feed(alloc: Global, decoder: &mut FrameDecoder, piece: &[u8]) -> Option<Took>
    requires { length piece.now ≤ wanted decoder.old }
    ensures more { IfNone result
        ((before : List ℕ) → Holds decoder.old before → Holds decoder.new (before ++ piece.now)) }
    ensures took { IfSome result
        (λ took. (before : List ℕ) → Holds decoder.old before → Makes took (before ++ piece.now)) }
{
    match decoder.feed(alloc, piece) {
        Ok((_, Some(incoming))) => Some(Ok(Found::Whole(incoming))),
        Ok((_, None)) => None,
        Err(_) => Some(Err(StreamFailure::NoMemory)),
    }
}
