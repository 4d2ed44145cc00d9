//! The futures that read a frame, by the form of their output.
ghost use Rattle.std.specs.Prelude.{◌≡◌, Result};
ghost use Rattle.ttrpc_proto.specs.declared.framing.failure.StreamFailure.{StreamFailure as AFailure};
ghost use Rattle.ttrpc_proto.specs.declared.framing.reading.Found.{Found as AFound};
ghost use Rattle.ttrpc_proto.specs.Framing.Frames.{nothing};
ghost use Rattle.ttrpc_proto.specs.Framing.Streaming.{IsMessageOf};
ghost use Rattle.ttrpc_message.specs.Messages.{ArePartsOf, IsValueOf};

use crate::taking::{Taking, Took};
use futures::Future;
use futures::task::{Context, Poll};
use std::alloc::Global;
use std::fmt::Display;
use std::marker::PhantomData;
use std::result;
use tokio::io::AsyncRead;
use ttrpc_message::{Message, parts_of, value_of};
use ttrpc_proto::framing::reading::message_of;
use ttrpc_proto::{GenMessage, GenMessageError, MessageHeader, Result};
use ttrpc_wire::Codec;

/// The form of the output after a frame was read.
pub trait Tells: Drop {
    /// The output.
    type Output;

    // this is the output for the found frame or the failure
    ghost tells: { Self.Output → Result AFound AFailure → Type 0 };

    /// Makes the output.
    fn tell(alloc: Global, took: Took) -> Self::Output
        ensures { tells result took };
}

/// The output is a header and its bytes, as `read_message` returns.
#[derive(Drop)]
pub struct AsParts;

/// The output is a message, as `GenMessage::read_from` returns.
#[derive(Drop)]
pub struct AsMessage;

/// The output is a value, as `Message::read_from` returns.
#[derive(Drop)]
pub struct AsValue<C> {
    value: PhantomData<C>,
}

impl Tells for AsParts {
    type Output = Result<(MessageHeader, Result<Vec<u8>>)>;

    ghost tells = { ArePartsOf };

    fn tell(alloc: Global, took: Took) -> Result<(MessageHeader, Result<Vec<u8>>)> {
        parts_of(alloc, took)
    }
}

impl Tells for AsMessage {
    type Output = result::Result<GenMessage, GenMessageError>;

    ghost tells = { IsMessageOf };

    fn tell(alloc: Global, took: Took) -> result::Result<GenMessage, GenMessageError> {
        message_of(alloc, took)
    }
}

impl<C: Codec> Tells for AsValue<C>
where
    C::E: Display + Drop,
{
    type Output = Result<Message<C>>;

    ghost tells = { IsValueOf C.meaning C.E.is_no_memory C.E.output };

    fn tell(alloc: Global, took: Took) -> Result<Message<C>> {
        value_of(alloc, took)
    }
}

/// The future of the next frame, which reads nothing that follows it.
#[derive(Drop)]
pub struct PollRead<S, T> {
    alloc: Global,
    taking: Taking<S>,
    told: PhantomData<T>,
}

impl<S: AsyncRead, T: Tells> PollRead<S, T> {
    /// Returns the future of this reader's next frame. Takes no memory before it is polled.
    pub fn new(alloc: Global, reader: S) -> PollRead<S, T>
        ensures { (result.taking.reader ≡ reader) × (result.taking.decoder ≡ nothing) }
    {
        PollRead {
            alloc,
            taking: Taking::new(alloc, reader),
            told: PhantomData,
        }
    }
}

impl<S: AsyncRead, T: Tells> Future for PollRead<S, T> {
    ghost use Rattle.ttrpc_polled_frames.specs.Reading.{WillTell};

    type Output = T::Output;

    ghost needs = { λ f source. S.needs f.taking.reader source };

    ghost gives = { λ f r. WillTell S.reads S.is_at_end S.fails T.tells
        f.taking.reader f.taking.decoder r };

    fn poll(&mut self, cx: &mut Context<'_>) -> Poll<T::Output> {
        match self.taking.poll_take(self.alloc, cx) {
            Poll::Pending => Poll::Pending,
            Poll::Ready(took) => Poll::Ready(T::tell(self.alloc, took)),
        }
    }
}
