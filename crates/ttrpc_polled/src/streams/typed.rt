//! Streams of messages, with both their halves.
ghost use Rattle.std.specs.Prelude.{◌≡◌};
ghost use Rattle.futures.specs.Poll.{IfReady, OnPending};
ghost use Rattle.futures.specs.Task.{Covers, Keeps};
ghost use Rattle.std.specs.Arc.{arc_value};
ghost use Rattle.ttrpc_message.specs.Calls.{TellsItem};
ghost use Rattle.ttrpc_polled.specs.Streams.Closing.{IsClosingStep};
ghost use Rattle.ttrpc_polled.specs.Streams.Items.{GivesItem, IsItemSent};
ghost use Rattle.ttrpc_polled.specs.Streams.Steps.{IsStep, ReceivesAs};

use crate::streams::inner::StreamInner;
use crate::streams::items::{
    CSReceiver, CSReceiverRecv, CSSender, SSReceiver, SSReceiverRecv, SSSender, sending_of,
};
use crate::streams::line::StreamLine;
use crate::streams::sender::{StreamSenderCloseSend, StreamSenderSend};
use crate::streams::sending::Sending;
use futures::Future;
use futures::task::{Context, Poll};
use std::fmt::Display;
use std::marker::PhantomData;
use std::mem::replace;
use ttrpc_connection::StreamCore;
use ttrpc_proto::Result;
use ttrpc_wire::Codec;

/// A stream on which a client sends messages of one kind and receives those of another.
#[derive(Drop)]
pub struct ClientStream<Q, P, L: StreamLine> {
    tx: CSSender<Q, L>,
    rx: CSReceiver<P, L>,
}

impl<Q: Codec, P: Codec, L: StreamLine> ClientStream<Q, P, L>
where
    Q::E: Display + Drop,
    P::E: Display + Drop,
{
    /// Makes a stream of messages over this stream.
    pub fn new(inner: StreamInner<L>) -> ClientStream<Q, P, L>
        ensures { (result.tx.tx ≡ inner.sender) × (result.rx.rx ≡ inner.receiver) }
    {
        let (tx, rx) = inner.split();
        ClientStream {
            tx: CSSender {
                tx,
                item: PhantomData,
            },
            rx: CSReceiver {
                rx,
                item: PhantomData,
            },
        }
    }

    /// Splits the stream into its halves.
    pub fn split(self) -> (CSSender<Q, L>, CSReceiver<P, L>)
        ensures { (result.0 ≡ self.tx) × (result.1 ≡ self.rx) }
    {
        let ClientStream { tx, rx } = self;
        (tx, rx)
    }

    /// Sends a message. Ready once its frame has left the core, or with the reason why it doesn't leave.
    pub fn send(&self, req: &Q) -> StreamSenderSend<'_, L>
        ensures sender { result.sender.now ≡ self.now.tx.tx }
        ensures item { IsItemSent Q.written Q.meaning Q.E.is_no_memory Q.E.output
            req.now result.sending }
    {
        self.tx.send(req)
    }

    /// Closes the sending half: no more messages are sent.
    pub fn close_send(&self) -> StreamSenderCloseSend<'_, L>
        ensures { (result.sender.now ≡ self.now.tx.tx) × (result.sending ≡ Sending.Closes) }
    {
        self.tx.close_send()
    }

    /// Receives the next message, or the reason why there is none.
    pub fn recv(&mut self) -> CSReceiverRecv<'_, P, L>
        ensures { result.receiver.now ≡ self.old.rx }
    {
        self.rx.recv()
    }
}

/// A stream on which a server sends messages of one kind and receives those of another.
#[derive(Drop)]
pub struct ServerStream<P, Q, L: StreamLine> {
    tx: SSSender<P, L>,
    rx: SSReceiver<Q, L>,
}

impl<P: Codec, Q: Codec, L: StreamLine> ServerStream<P, Q, L>
where
    P::E: Display + Drop,
    Q::E: Display + Drop,
{
    /// Makes a stream of messages over this stream.
    pub fn new(inner: StreamInner<L>) -> ServerStream<P, Q, L>
        ensures { (result.tx.tx ≡ inner.sender) × (result.rx.rx ≡ inner.receiver) }
    {
        let (tx, rx) = inner.split();
        ServerStream {
            tx: SSSender {
                tx,
                item: PhantomData,
            },
            rx: SSReceiver {
                rx,
                item: PhantomData,
            },
        }
    }

    /// Splits the stream into its halves.
    pub fn split(self) -> (SSSender<P, L>, SSReceiver<Q, L>)
        ensures { (result.0 ≡ self.tx) × (result.1 ≡ self.rx) }
    {
        let ServerStream { tx, rx } = self;
        (tx, rx)
    }

    /// Sends a message. Ready once its frame has left the core, or with the reason why it doesn't leave.
    pub fn send(&self, resp: &P) -> StreamSenderSend<'_, L>
        ensures sender { result.sender.now ≡ self.now.tx.tx }
        ensures item { IsItemSent P.written P.meaning P.E.is_no_memory P.E.output
            resp.now result.sending }
    {
        self.tx.send(resp)
    }

    /// Receives the next message, or none if the other side closed. An error is another reason why there is none.
    pub fn recv(&mut self) -> SSReceiverRecv<'_, Q, L>
        ensures { result.receiver.now ≡ self.old.rx }
    {
        self.rx.recv()
    }
}

/// A stream on which a client sends messages, and then receives one.
#[derive(Drop)]
pub struct ClientStreamSender<Q, P, L: StreamLine> {
    tx: CSSender<Q, L>,
    rx: CSReceiver<P, L>,
}

impl<Q: Codec, P: Codec, L: StreamLine> ClientStreamSender<Q, P, L>
where
    Q::E: Display + Drop,
    P::E: Display + Drop,
{
    /// Makes a stream of messages over this stream.
    pub fn new(inner: StreamInner<L>) -> ClientStreamSender<Q, P, L>
        ensures { (result.tx.tx ≡ inner.sender) × (result.rx.rx ≡ inner.receiver) }
    {
        let (tx, rx) = ClientStream::new(inner).split();
        ClientStreamSender { tx, rx }
    }

    /// Sends a message. Ready once its frame has left the core, or with the reason why it doesn't leave.
    pub fn send(&self, req: &Q) -> StreamSenderSend<'_, L>
        ensures sender { result.sender.now ≡ self.now.tx.tx }
        ensures item { IsItemSent Q.written Q.meaning Q.E.is_no_memory Q.E.output
            req.now result.sending }
    {
        self.tx.send(req)
    }

    /// Closes the sending half, and receives the message that answers.
    pub fn close_and_recv(&mut self) -> ClientStreamSenderCloseAndRecv<'_, Q, P, L>
        ensures { (result.stream.now ≡ self.old) × (result.at ≡ Closing.Closes Sending.Closes) }
    {
        ClientStreamSenderCloseAndRecv {
            stream: self,
            at: Closing::Closes(Sending::Closes),
        }
    }
}

/// The state of a call that closes a stream and then receives.
#[derive(Debug, Drop)]
pub enum Closing {
    /// The call closes the stream.
    Closes(Sending),
    /// The call receives.
    Receives,
}

/// A stream that is closed, and the message that answers.
#[derive(Drop)]
pub struct ClientStreamSenderCloseAndRecv<'a, Q, P, L: StreamLine> {
    stream: &'a mut ClientStreamSender<Q, P, L>,
    at: Closing,
}

impl<Q: Codec, P: Codec, L: StreamLine> ClientStreamSenderCloseAndRecv<'_, Q, P, L>
where
    Q::E: Display + Drop,
    P::E: Display + Drop,
{
    /// Makes the one core call that the call's state names, on a core that is lent: one of its closing, and after that `recv`. Returns
    /// `None` if there is no answer yet.
    pub fn step<C: StreamCore<Id = L::Id>>(&mut self, core: &mut C) -> Option<Result<P>>
        ensures step { IsClosingStep (IsStep C.sends C.refuses C.closes C.refuses_close C.tells_sent
            (arc_value self.old.stream.now.tx.tx.seat).id)
            (ReceivesAs C.receives (TellsItem P.meaning P.E.is_no_memory P.E.output)
            self.old.stream.now.rx.rx.id) core.old self.old.at result self.new.at core.new }
        ensures stream { self.new.stream ≡ self.old.stream }
    {
        let Closing::Closes(mut closing) = replace(&mut self.at, Closing::Receives) else {
            return self.stream.rx.step(core);
        };
        let tx = &self.stream.tx.tx;
        match closing.step(tx.alloc(), core, tx.id()) {
            None => {
                self.at = Closing::Closes(closing);
                None
            }
            Some(Ok(())) => None,
            Some(Err(refusal)) => Some(Err(refusal)),
        }
    }
}

impl<Q: Codec, P: Codec, L: StreamLine> Future for ClientStreamSenderCloseAndRecv<'_, Q, P, L>
where
    Q::E: Display + Drop,
    P::E: Display + Drop,
{
    type Output = Result<P>;

    ghost use Rattle.std.specs.Prelude.{◌≡◌};
    ghost use Rattle.ttrpc_polled.specs.Streams.Closing.{closing_source};
    ghost use Rattle.ttrpc_polled.specs.Streams.Items.{GivesItem};

    ghost needs = { λ f s. s ≡ closing_source L.came f.stream.now f.at };

    ghost gives = { λ _ told. GivesItem P.meaning P.E.is_no_memory P.E.output told };

    fn poll(&mut self, cx: &mut Context<'_>) -> Poll<Result<P>> {
        if let Closing::Closes(mut closing) = replace(&mut self.at, Closing::Receives) {
            match self.stream.tx.tx.poll_sending(&mut closing, cx) {
                Poll::Pending => {
                    self.at = Closing::Closes(closing);
                    return Poll::Pending;
                }
                Poll::Ready(Err(refusal)) => return Poll::Ready(Err(refusal)),
                Poll::Ready(Ok(())) => {}
            }
        }
        self.stream.rx.poll_recv(cx)
    }
}
