//! The futures that write a frame.
ghost use Rattle.std.specs.Prelude.{◌≡◌, ◌++◌, IfErr, IfOk, ⊤};
ghost use Rattle.ttrpc_proto.specs.Framing.Header.{header_bytes};
ghost use Rattle.ttrpc_message.specs.Messages.{IsUnwritten};
ghost use Rattle.ttrpc_proto.specs.declared.error.Error.TheVariants.{NoMemory};
ghost use Rattle.ttrpc_polled_frames.specs.Writing.{TellsIt, TellsOrZero, WillEnd, left_of};

use crate::offering::{HasBytes, Offering};
use futures::Future;
use futures::task::{Context, Poll};
use std::alloc::Global;
use std::fmt::Display;
use tokio::io::AsyncWrite;
use ttrpc_message::{Message, encoded, write_error};
use ttrpc_proto::framing::failure::StreamFailure;
use ttrpc_proto::{Error, GenMessage, MessageHeader, Result};
use ttrpc_wire::Codec;

/// The future that writes a header and a payload as `write_message` does: it doesn't flush.
#[derive(Drop)]
pub struct PollWrite<W, P> {
    alloc: Global,
    offering: Offering<W, P>,
}

impl<W: AsyncWrite, P: HasBytes> PollWrite<W, P> {
    /// Returns the future that writes this header and this payload. Memory for the first bytes may be refused.
    pub fn new(
        alloc: Global,
        writer: W,
        header: &MessageHeader,
        payload: P,
    ) -> Result<PollWrite<W, P>>
        ensures ok { IfOk result (λ f. (f.offering.writer ≡ writer)
            × (left_of P.bytes f.offering ≡ header_bytes header.now ++ P.bytes payload)) }
        ensures err { IfErr result (λ e. e ≡ NoMemory) }
    {
        let offering = Offering::of_frame(alloc, writer, header, payload)?;
        Ok(PollWrite { alloc, offering })
    }
}

impl<W: AsyncWrite, P: HasBytes> Future for PollWrite<W, P> {
    ghost use Rattle.std.specs.Prelude.{⊤};
    ghost use Rattle.ttrpc_polled_frames.specs.Writing.{TellsOrZero, WillEnd, left_of};

    type Output = Result<()>;

    ghost needs = { λ f source. W.needs f.offering.writer source };

    ghost gives = { λ f r. WillEnd W.writes
        (λ _. ⊤) (TellsOrZero W.fails W.is_full) f.offering.writer (left_of P.bytes f.offering) r };

    fn poll(&mut self, cx: &mut Context<'_>) -> Poll<Result<()>> {
        match self.offering.poll_offer(cx) {
            Poll::Pending => Poll::Pending,
            Poll::Ready(Ok(())) => Poll::Ready(Ok(())),
            Poll::Ready(Err(error)) => {
                Poll::Ready(Err(write_error(self.alloc, StreamFailure::Io(error))))
            }
        }
    }
}

/// The future that writes a message as `write_to` of `GenMessage` and `Message` does: it flushes once.
#[derive(Drop)]
pub struct WriteMessage<W, P> {
    alloc: Global,
    offering: Offering<W, P>,
}

impl<'a, W: AsyncWrite> WriteMessage<W, &'a [u8]> {
    /// Returns the future that writes this message. Memory for the first bytes may be refused.
    pub fn of_gen(
        alloc: Global,
        writer: W,
        message: &'a GenMessage,
    ) -> Result<WriteMessage<W, &'a [u8]>>
        ensures ok { IfOk result (λ f. (f.offering.writer ≡ writer) × (left_of
            (λ s. s.now) f.offering ≡ header_bytes message.now.header ++ message.now.payload)) }
        ensures err { IfErr result (λ e. e ≡ NoMemory) }
    {
        let payload = message.payload.as_slice();
        let offering = Offering::of_frame(alloc, writer, &message.header, payload)?;
        Ok(WriteMessage { alloc, offering })
    }
}

impl<W: AsyncWrite> WriteMessage<W, Vec<u8>> {
    /// Returns the future that writes this value's message with this header.
    pub fn of_value<C: Codec>(
        alloc: Global,
        writer: W,
        message: &Message<C>,
    ) -> Result<WriteMessage<W, Vec<u8>>>
    where
        C::E: Display + Drop,
        ensures ok { IfOk result (λ f. (f.offering.writer ≡ writer) × (left_of (λ v. v.items)
            f.offering ≡ header_bytes message.now.header ++ C.written message.now.payload)) }
        ensures err { IfErr result
            (IsUnwritten C.E.is_no_memory C.E.output (C.written message.now.payload)) }
    {
        let payload = encoded(alloc, &message.payload)?;
        match Offering::of_frame(alloc, writer, &message.header, payload) {
            Ok(offering) => Ok(WriteMessage { alloc, offering }),
            Err(_) => Err(Error::NoMemory),
        }
    }
}

impl<W: AsyncWrite, P: HasBytes> Future for WriteMessage<W, P> {
    ghost use Rattle.ttrpc_polled_frames.specs.Writing.{TellsIt, WillEnd, left_of};

    type Output = Result<()>;

    ghost needs = { λ f source. W.needs f.offering.writer source };

    ghost gives = { λ f r. WillEnd W.writes W.is_flushed
        (TellsIt W.fails W.is_full) f.offering.writer (left_of P.bytes f.offering) r };

    fn poll(&mut self, cx: &mut Context<'_>) -> Poll<Result<()>> {
        match self.offering.poll_flushed(cx) {
            Poll::Pending => Poll::Pending,
            Poll::Ready(Ok(())) => Poll::Ready(Ok(())),
            Poll::Ready(Err(error)) => {
                Poll::Ready(Err(StreamFailure::Io(error).into_error(self.alloc)))
            }
        }
    }
}
