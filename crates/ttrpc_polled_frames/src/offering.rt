//! The rest of a frame, on its way to a writer that is polled.
ghost use Rattle.std.specs.Prelude.{◌≡◌, ℕ, List, [], ◌++◌, drop, IfOk};
ghost use Rattle.futures.specs.Poll.{OnPending};
ghost use Rattle.futures.specs.Task.{Covers, Keeps};
ghost use Rattle.tokio.specs.Io.Moved.{IfReadyErr, OnReadyOk, TakesWritten};
ghost use Rattle.ttrpc_proto.specs.Framing.Header.{header_bytes};
ghost use Rattle.ttrpc_polled_frames.specs.Writing.{BreaksOff, FailsToFlush, left_of};

use futures::task::{Context, Poll};
use std::alloc::{AllocError, Global};
use std::io::{self, ErrorKind};
use tokio::io::AsyncWrite;
use ttrpc_proto::MessageHeader;
use ttrpc_proto::framing::writing::PREFIX_PAYLOAD;
use ttrpc_wire::values::slices::{behind, front};

/// The number of writes of one poll, before it lets other tasks go on.
const WRITES: u32 = 64;

/// Something with bytes that are to be written.
pub trait HasBytes: Drop {
    // these bytes
    ghost bytes: { Self → List ℕ };

    /// Returns these bytes.
    fn bytes(&self) -> &[u8]
        ensures { result.now ≡ bytes self.now };
}

impl HasBytes for &[u8] {
    ghost bytes = { λ s. s.now };

    fn bytes(&self) -> &[u8] {
        self
    }
}

impl HasBytes for Vec<u8> {
    ghost bytes = { λ v. v.items };

    fn bytes(&self) -> &[u8] {
        self.as_slice()
    }
}

impl HasBytes for [u8; 10] {
    ghost bytes = { λ ten. ten };

    fn bytes(&self) -> &[u8] {
        self
    }
}

/// A writer, and two parts that are offered to it, each from its own position on.
#[derive(Drop)]
pub struct Offering<W, P> {
    pub writer: W,
    first: Vec<u8>,
    at: usize,
    payload: P,
    payload_at: usize,
}

impl<W: AsyncWrite, P: HasBytes> Offering<W, P> {
    /// Returns an `Offering` of a frame: first the header as it is with the payload's first bytes, in no more than a
    /// page, and then the rest of the payload.
    pub fn of_frame(
        alloc: Global,
        writer: W,
        header: &MessageHeader,
        payload: P,
    ) -> Result<Offering<W, P>, AllocError>
        ensures { IfOk result (λ f. (f.writer ≡ writer)
            × (left_of P.bytes f ≡ header_bytes header.now ++ P.bytes payload)) }
    {
        let first = first_of(alloc, header, front(payload.bytes(), PREFIX_PAYLOAD))?;
        Ok(Offering {
            writer,
            first,
            at: 0,
            payload,
            payload_at: PREFIX_PAYLOAD,
        })
    }

    /// Returns an `Offering` of these bytes alone. Takes no memory.
    pub fn of_bytes(alloc: Global, writer: W, payload: P) -> Offering<W, P>
        ensures { (result.writer ≡ writer) × (left_of P.bytes result ≡ P.bytes payload) }
    {
        Offering {
            writer,
            first: Vec::new(alloc),
            at: 0,
            payload,
            payload_at: 0,
        }
    }

    /// Offers the rest. Ready when the writer took all of it, or failed, or took nothing.
    pub fn poll_offer(&mut self, cx: &mut Context<'_>) -> Poll<io::Result<()>>
        // The writer took all of the rest, or a front, and the error is the reason why it took no more.
        ensures writes { TakesWritten W.writes self.old.writer self.new.writer
            (left_of P.bytes self.old) (left_of P.bytes self.new) }
        ensures all { OnReadyOk result (left_of P.bytes self.new ≡ []) }
        ensures failed { IfReadyErr result
            (BreaksOff W.fails W.is_full (left_of P.bytes self.new) self.new.writer) }
        // A pending poll has registered with the writer.
        ensures registered { OnPending result (Covers cx.new (W.needs self.new.writer)) }
        ensures kept { Keeps cx.old cx.new }
    {
        match poll_behind(&mut self.writer, cx, self.first.as_slice(), &mut self.at) {
            Poll::Ready(Ok(())) => {}
            polled => return polled,
        }
        poll_behind(
            &mut self.writer,
            cx,
            self.payload.bytes(),
            &mut self.payload_at,
        )
    }

    /// Offers the rest, and then flushes. Ready when both are done, or when the writer failed or took nothing.
    pub fn poll_flushed(&mut self, cx: &mut Context<'_>) -> Poll<io::Result<()>>
        // The writer took all of the rest and was flushed, or the error is the reason why not.
        ensures writes { TakesWritten W.writes self.old.writer self.new.writer
            (left_of P.bytes self.old) (left_of P.bytes self.new) }
        ensures all { OnReadyOk result
            ((left_of P.bytes self.new ≡ []) × W.is_flushed self.new.writer) }
        ensures failed { IfReadyErr result
            (FailsToFlush W.fails W.is_full (left_of P.bytes self.new) self.new.writer) }
        // A pending poll has registered with the writer.
        ensures registered { OnPending result (Covers cx.new (W.needs self.new.writer)) }
        ensures kept { Keeps cx.old cx.new }
    {
        match self.poll_offer(cx) {
            Poll::Ready(Ok(())) => self.writer.poll_flush(cx),
            polled => polled,
        }
    }
}

/// Offers the bytes from the position on, and moves the position by the count that the writer takes. Ready when the
/// writer took all of them, or failed, or took nothing.
fn poll_behind<W: AsyncWrite>(
    writer: &mut W,
    cx: &mut Context<'_>,
    bytes: &[u8],
    at: &mut usize,
) -> Poll<io::Result<()>>
    // The writer took all of the rest, or a front, and the error is the reason why it took no more.
    ensures writes { TakesWritten W.writes writer.old writer.new
        (drop at.old bytes.now) (drop at.new bytes.now) }
    ensures all { OnReadyOk result (drop at.new bytes.now ≡ []) }
    ensures failed { IfReadyErr result
        (BreaksOff W.fails W.is_full (drop at.new bytes.now) writer.new) }
    // A pending poll has registered with the writer.
    ensures registered { OnPending result (Covers cx.new (W.needs writer.new)) }
    ensures kept { Keeps cx.old cx.new }
{
    for _ in 0..WRITES {
        let part = behind(bytes, *at);
        if part.is_empty() {
            return Poll::Ready(Ok(()));
        }
        match writer.poll_write(cx, part) {
            Poll::Pending => return Poll::Pending,
            Poll::Ready(Ok(0)) => return Poll::Ready(Err(ErrorKind::WriteZero.into())),
            Poll::Ready(Ok(taken)) => *at = bytes.len() - (part.len() - taken),
            Poll::Ready(Err(error)) if error.kind() == ErrorKind::Interrupted => {
                return cx.yield_now();
            }
            Poll::Ready(Err(error)) => return Poll::Ready(Err(error)),
        }
    }
    cx.yield_now()
}

/// Returns the header and the first bytes of a payload.
fn first_of(alloc: Global, header: &MessageHeader, payload: &[u8]) -> Result<Vec<u8>, AllocError>
    ensures { IfOk result (λ first. first.items ≡ header_bytes header.now ++ payload.now) }
{
    let mut first = Vec::new(alloc);
    first.extend_from_slice(&header.to_bytes())?;
    first.extend_from_slice(payload)?;
    Ok(first)
}
