//! The futures of a header alone.
ghost use Rattle.std.specs.Prelude.{◌≡◌, ◌≤◌, ◌<◌, ◌+◌, length, Ok};
ghost use Rattle.futures.specs.Poll.{OnPending};
ghost use Rattle.futures.specs.Task.{Covers, Keeps};
ghost use Rattle.tokio.specs.Io.Moved.{IfReadyErr, count_moved};
ghost use Rattle.ttrpc_proto.specs.Framing.Header.{header_bytes};
ghost use Rattle.ttrpc_polled_frames.specs.Writing.{left_of};

use crate::offering::Offering;
use futures::Future;
use futures::task::{Context, Poll};
use std::alloc::Global;
use std::io::{self, ErrorKind};
use tokio::io::{AsyncRead, AsyncWrite};
use ttrpc_proto::MessageHeader;

/// The future that reads a header as `MessageHeader::read_from` does: it reads ten bytes, and none after them. If the
/// reader ends before them, the error is `UnexpectedEof`.
#[derive(Drop)]
pub struct ReadHeader<S> {
    reader: S,
    bytes: [u8; 10],
    filled: usize,
    ghost ten: { length bytes ≡ 10 },
    ghost in_range: { filled ≤ 10 },
}

impl<S: AsyncRead> ReadHeader<S> {
    ghost use Rattle.ttrpc_polled_frames.specs.Heading.{FillsHeader};

    /// Returns the future of this reader's next header. Takes no memory.
    pub fn new(reader: S) -> ReadHeader<S>
        ensures { (result.reader ≡ reader) × (result.filled ≡ 0) }
    {
        ReadHeader {
            reader,
            bytes: [0; 10],
            filled: 0,
        }
    }

    /// Makes one read of the rest of the header.
    fn poll_more(&mut self, cx: &mut Context<'_>) -> Poll<io::Result<usize>>
        // The bytes that were read follow the others, and are counted. After a count of 0 the reader is at its end, or the header was full.
        ensures fills { FillsHeader S.reads self.old self.new }
        ensures count { self.new.filled ≡ self.old.filled + count_moved result }
        ensures end { result ≡ Poll.Ready (Ok 0) → self.old.filled < 10
            → S.is_at_end self.new.reader }
        // An error is the reader's. A pending poll has registered with the reader, and earlier registrations are kept.
        ensures failed { IfReadyErr result (S.fails self.new.reader) }
        ensures registered { OnPending result (Covers cx.new (S.needs self.new.reader)) }
        ensures kept { Keeps cx.old cx.new }
    {
        let filled = self.filled;
        let polled = self.reader.poll_read(cx, &mut self.bytes[filled..]);
        if let Poll::Ready(Ok(count)) = &polled {
            self.filled = filled + *count;
        }
        polled
    }
}

impl<S: AsyncRead> Future for ReadHeader<S> {
    ghost use Rattle.ttrpc_polled_frames.specs.Heading.{WillHead};

    type Output = io::Result<MessageHeader>;

    ghost needs = { λ f source. S.needs f.reader source };

    ghost gives = { λ f r. WillHead S.reads S.is_at_end S.fails f r };

    fn poll(&mut self, cx: &mut Context<'_>) -> Poll<io::Result<MessageHeader>> {
        while self.filled < 10 {
            match self.poll_more(cx) {
                Poll::Pending => return Poll::Pending,
                Poll::Ready(Ok(0)) => return Poll::Ready(Err(ErrorKind::UnexpectedEof.into())),
                Poll::Ready(Ok(_)) => {}
                Poll::Ready(Err(error)) if error.kind() == ErrorKind::Interrupted => {
                    return cx.yield_now();
                }
                Poll::Ready(Err(error)) => return Poll::Ready(Err(error)),
            }
        }
        Poll::Ready(Ok(MessageHeader::from(&self.bytes)))
    }
}

/// The future that writes a header as `MessageHeader::write_to` does: it writes the ten bytes alone, and then flushes.
#[derive(Drop)]
pub struct WriteHeader<W> {
    offering: Offering<W, [u8; 10]>,
}

impl<W: AsyncWrite> WriteHeader<W> {
    /// Returns the future that writes this header. Takes no memory.
    pub fn new(alloc: Global, writer: W, header: &MessageHeader) -> WriteHeader<W>
        ensures { (result.offering.writer ≡ writer)
            × (left_of (λ ten. ten) result.offering ≡ header_bytes header.now) }
    {
        WriteHeader {
            offering: Offering::of_bytes(alloc, writer, header.to_bytes()),
        }
    }
}

impl<W: AsyncWrite> Future for WriteHeader<W> {
    ghost use Rattle.ttrpc_polled_frames.specs.Writing.{FailsToFlush, WillEnd, left_of};

    type Output = io::Result<()>;

    ghost needs = { λ f source. W.needs f.offering.writer source };

    ghost gives = { λ f r. WillEnd W.writes W.is_flushed
        (FailsToFlush W.fails W.is_full) f.offering.writer (left_of (λ ten. ten) f.offering) r };

    fn poll(&mut self, cx: &mut Context<'_>) -> Poll<io::Result<()>> {
        self.offering.poll_flushed(cx)
    }
}
