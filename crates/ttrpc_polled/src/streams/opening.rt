//! A stream of a server that begins with a request.
ghost use Rattle.std.specs.Prelude.{◌≡◌, Some};
ghost use Rattle.ttrpc_polled.specs.Streams.Items.{TellsRequest};

use crate::streams::inner::StreamInner;
use crate::streams::items::ServerStreamSender;
use crate::streams::line::StreamLine;
use futures::Future;
use futures::task::{Context, Poll};
use std::alloc::Global;
use std::fmt::Display;
use std::marker::PhantomData;
use ttrpc_message::codec_error_of;
use ttrpc_proto::{Error, Result};
use ttrpc_wire::{Blob, Codec};

/// A stream of a server that begins with a request and goes on with the server's messages. Ready once the request is there, with its value
/// and the half by which to send.
#[derive(Drop)]
pub struct ServerStreamOpening<Q, P, L: StreamLine> {
    alloc: Global,
    stream: Option<StreamInner<L>>,
    kinds: PhantomData<(Q, P)>,
}

impl<Q: Codec, P: Codec, L: StreamLine> ServerStreamOpening<Q, P, L>
where
    Q::E: Display + Drop,
    P::E: Display + Drop,
{
    /// Makes the opening of this stream.
    pub fn new(alloc: Global, inner: StreamInner<L>) -> ServerStreamOpening<Q, P, L>
        ensures { result.stream ≡ Some inner }
    {
        ServerStreamOpening {
            alloc,
            stream: Some(inner),
            kinds: PhantomData,
        }
    }
}

impl<Q: Codec, P: Codec, L: StreamLine> Future for ServerStreamOpening<Q, P, L>
where
    Q::E: Display + Drop,
    P::E: Display + Drop,
{
    type Output = Result<(Q, ServerStreamSender<P, L>)>;

    ghost use Rattle.ttrpc_polled.specs.Streams.Items.{OpeningGives};
    ghost use Rattle.ttrpc_polled.specs.Streams.Needs.{opening_needs};

    ghost needs = { λ f. opening_needs L.came f.stream };

    ghost gives = { λ f r. OpeningGives Q.meaning f.stream r };

    fn poll(&mut self, cx: &mut Context<'_>) -> Poll<Result<(Q, ServerStreamSender<P, L>)>> {
        let Some(mut stream) = self.stream.take() else {
            return Poll::Ready(Err(Error::LocalClosed));
        };
        match stream.poll_recv(cx) {
            Poll::Pending => {
                self.stream = Some(stream);
                Poll::Pending
            }
            Poll::Ready(Ok(request)) => Poll::Ready(match request_in(self.alloc, &request) {
                Ok(request) => Ok((request, ServerStreamSender::new(stream))),
                Err(error) => Err(error),
            }),
            Poll::Ready(Err(error)) => Poll::Ready(Err(error)),
        }
    }
}

/// Decodes a request. The error is `NoMemory`, or, if the bytes mean no value, `Others` of the text that the codec's error prints.
fn request_in<Q: Codec>(alloc: Global, request: &Blob) -> Result<Q>
where
    Q::E: Display + Drop,
    ensures { TellsRequest Q.meaning Q.E.is_no_memory Q.E.output request.now result }
{
    match Q::decode(alloc, request.as_slice()) {
        Ok(value) => Ok(value),
        Err(error) => Err(codec_error_of(alloc, "", error)),
    }
}
