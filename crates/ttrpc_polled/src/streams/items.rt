//! The halves of a stream of messages.
ghost use Rattle.std.specs.Prelude.{◌≡◌, IfErr, IfOk};
ghost use Rattle.std.specs.Arc.{arc_value};
ghost use Rattle.futures.specs.Poll.{IfReady, OnPending};
ghost use Rattle.futures.specs.Task.{Covers, Keeps};
ghost use Rattle.ttrpc_proto.specs.declared.error.Error.{Error as AnError};
ghost use Rattle.ttrpc_polled.specs.Streams.Items.{GivesItem, GivesItemOrEnd, IsItemSent};
ghost use Rattle.ttrpc_message.specs.Calls.{TellsItem, TellsItemOrEnd};
ghost use Rattle.ttrpc_polled.specs.Streams.Needs.{receiver_source, sender_source};
ghost use Rattle.ttrpc_polled.specs.Streams.Steps.{ReceivesAs};

use crate::streams::inner::StreamInner;
use crate::streams::line::StreamLine;
use crate::streams::receiver::StreamReceiver;
use crate::streams::sender::{StreamSender, StreamSenderCloseSend, StreamSenderSend};
use crate::streams::sending::Sending;
use futures::task::{Context, Poll};
use futures::{Future, ready};
use std::alloc::Global;
use std::fmt::Display;
use std::marker::PhantomData;
use ttrpc_connection::StreamCore;
use ttrpc_message::calls::{decode_item, decode_item_or_end, encode_item};
use ttrpc_proto::Result;
use ttrpc_wire::{Blob, Codec};

/// Makes the call that sends a message. If the message can't be encoded, the call is refused.
pub fn sending_of<M: Codec>(alloc: Global, item: &M) -> Sending
where
    M::E: Display + Drop,
    ensures { IsItemSent M.written M.meaning M.E.is_no_memory M.E.output item.now result }
{
    match encode_item(alloc, item) {
        Ok(bytes) => Sending::Sends(Blob::from_vec(bytes)),
        Err(error) => Sending::Refused(error),
    }
}

/// The half by which a client sends messages. Its clones share it.
#[derive(Drop)]
pub struct CSSender<Q, L: StreamLine> {
    pub(crate) tx: StreamSender<L>,
    pub(crate) item: PhantomData<Q>,
}

impl<Q: Codec, L: StreamLine> CSSender<Q, L>
where
    Q::E: Display + Drop,
{
    /// Sends a message. Ready once its frame has left the core, or with the reason why it doesn't leave.
    pub fn send(&self, req: &Q) -> StreamSenderSend<'_, L>
        ensures sender { result.sender.now ≡ self.now.tx }
        ensures item { IsItemSent Q.written Q.meaning Q.E.is_no_memory Q.E.output
            req.now result.sending }
    {
        self.tx.sending(sending_of(self.tx.alloc(), req))
    }

    /// Steps a call that sends, for a state that keeps this sender. `sending_of` makes the call of a message.
    pub fn poll_sending(&self, sending: &mut Sending, cx: &mut Context<'_>) -> Poll<Result<()>>
        ensures registered { OnPending result
            (Covers cx.new (λ s. s ≡ sender_source L.came self.now.tx)) }
        ensures kept { Keeps cx.old cx.new }
    {
        self.tx.poll_sending(sending, cx)
    }

    /// Closes the sending half: no more messages are sent.
    pub fn close_send(&self) -> StreamSenderCloseSend<'_, L>
        ensures { (result.sender.now ≡ self.now.tx) × (result.sending ≡ Sending.Closes) }
    {
        self.tx.close_send()
    }

    /// Makes another sender of the same stream.
    pub fn try_clone(&self) -> Result<CSSender<Q, L>>
        ensures ok { IfOk result (λ sender. arc_value sender.tx.seat ≡ arc_value self.now.tx.seat) }
        ensures err { IfErr result (λ e. e ≡ AnError.NoMemory) }
    {
        Ok(CSSender {
            tx: self.tx.try_clone()?,
            item: PhantomData,
        })
    }
}

/// The half by which a client receives messages.
#[derive(Drop)]
pub struct CSReceiver<P, L: StreamLine> {
    pub(crate) rx: StreamReceiver<L>,
    pub(crate) item: PhantomData<P>,
}

impl<P: Codec, L: StreamLine> CSReceiver<P, L>
where
    P::E: Display + Drop,
{
    /// Receives the next message, or the reason why there is none.
    pub fn recv(&mut self) -> CSReceiverRecv<'_, P, L>
        ensures { result.receiver.now ≡ self.old }
    {
        CSReceiverRecv { receiver: self }
    }

    /// Receives as `recv` does, for a state that keeps this receiver.
    pub fn poll_recv(&mut self, cx: &mut Context<'_>) -> Poll<Result<P>>
        ensures item { IfReady result (GivesItem P.meaning P.E.is_no_memory P.E.output) }
        ensures registered { OnPending result
            (Covers cx.new (λ s. s ≡ receiver_source L.came self.new.rx)) }
        ensures same { self.new ≡ self.old }
        ensures kept { Keeps cx.old cx.new }
    {
        let given = ready!(self.rx.poll_recv(cx));
        Poll::Ready(decode_item(self.rx.alloc(), given))
    }

    /// Makes the one core call, `recv`, on a core that is lent. Returns `None` if nothing came yet.
    pub(crate) fn step<C: StreamCore<Id = L::Id>>(&self, core: &mut C) -> Option<Result<P>>
        ensures { ReceivesAs C.receives (TellsItem P.meaning P.E.is_no_memory P.E.output)
            self.now.rx.id core.old result core.new }
    {
        match self.rx.step(core) {
            Some(given) => Some(decode_item(self.rx.alloc(), given)),
            None => None,
        }
    }
}

/// A message that a client receives.
#[derive(Drop)]
pub struct CSReceiverRecv<'a, P, L: StreamLine> {
    receiver: &'a mut CSReceiver<P, L>,
}

impl<P: Codec, L: StreamLine> CSReceiverRecv<'_, P, L>
where
    P::E: Display + Drop,
{
    /// Makes the one core call, `recv`, on a core that is lent. Returns `None` if nothing came yet.
    pub fn step<C: StreamCore<Id = L::Id>>(&self, core: &mut C) -> Option<Result<P>>
        ensures { ReceivesAs C.receives (TellsItem P.meaning P.E.is_no_memory P.E.output)
            self.now.receiver.now.rx.id core.old result core.new }
    {
        self.receiver.step(core)
    }
}

impl<P: Codec, L: StreamLine> Future for CSReceiverRecv<'_, P, L>
where
    P::E: Display + Drop,
{
    type Output = Result<P>;

    ghost use Rattle.ttrpc_polled.specs.Streams.Items.{GivesItem};
    ghost use Rattle.ttrpc_polled.specs.Streams.Needs.{receiver_source};

    ghost needs = { λ f s. s ≡ receiver_source L.came f.receiver.now.rx };

    ghost gives = { λ f told. GivesItem P.meaning P.E.is_no_memory P.E.output told };

    fn poll(&mut self, cx: &mut Context<'_>) -> Poll<Result<P>> {
        self.receiver.poll_recv(cx)
    }
}

/// The half by which a server sends messages. Its clones share it.
#[derive(Drop)]
pub struct SSSender<P, L: StreamLine> {
    pub(crate) tx: StreamSender<L>,
    pub(crate) item: PhantomData<P>,
}

/// A stream on which only the server sends messages.
pub type ServerStreamSender<P, L> = SSSender<P, L>;

impl<P: Codec, L: StreamLine> SSSender<P, L>
where
    P::E: Display + Drop,
{
    /// Makes the sending half of a stream, and drops the other half.
    pub fn new(inner: StreamInner<L>) -> SSSender<P, L>
        ensures { result.tx ≡ inner.sender }
    {
        let (tx, _) = inner.split();
        SSSender {
            tx,
            item: PhantomData,
        }
    }

    /// Sends a message. Ready once its frame has left the core, or with the reason why it doesn't leave.
    pub fn send(&self, resp: &P) -> StreamSenderSend<'_, L>
        ensures sender { result.sender.now ≡ self.now.tx }
        ensures item { IsItemSent P.written P.meaning P.E.is_no_memory P.E.output
            resp.now result.sending }
    {
        self.tx.sending(sending_of(self.tx.alloc(), resp))
    }

    /// Steps a call that sends, for a state that keeps this sender. `sending_of` makes the call of a message.
    pub fn poll_sending(&self, sending: &mut Sending, cx: &mut Context<'_>) -> Poll<Result<()>>
        ensures registered { OnPending result
            (Covers cx.new (λ s. s ≡ sender_source L.came self.now.tx)) }
        ensures kept { Keeps cx.old cx.new }
    {
        self.tx.poll_sending(sending, cx)
    }

    /// Makes another sender of the same stream.
    pub fn try_clone(&self) -> Result<SSSender<P, L>>
        ensures ok { IfOk result (λ sender. arc_value sender.tx.seat ≡ arc_value self.now.tx.seat) }
        ensures err { IfErr result (λ e. e ≡ AnError.NoMemory) }
    {
        Ok(SSSender {
            tx: self.tx.try_clone()?,
            item: PhantomData,
        })
    }
}

/// The half by which messages are received, until there are no more.
#[derive(Drop)]
pub struct SSReceiver<Q, L: StreamLine> {
    pub(crate) rx: StreamReceiver<L>,
    pub(crate) item: PhantomData<Q>,
}

/// A stream on which a server only receives messages.
pub type ServerStreamReceiver<Q, L> = SSReceiver<Q, L>;

impl<Q: Codec, L: StreamLine> SSReceiver<Q, L>
where
    Q::E: Display + Drop,
{
    /// Makes the receiving half of a stream, and drops the other half.
    pub fn new(inner: StreamInner<L>) -> SSReceiver<Q, L>
        ensures { result.rx ≡ inner.receiver }
    {
        let (_, rx) = inner.split();
        SSReceiver {
            rx,
            item: PhantomData,
        }
    }

    /// Receives the next message, or none if the other side closed. An error is another reason why there is none.
    pub fn recv(&mut self) -> SSReceiverRecv<'_, Q, L>
        ensures { result.receiver.now ≡ self.old }
    {
        SSReceiverRecv { receiver: self }
    }

    /// Receives as `recv` does, for a state that keeps this receiver.
    pub fn poll_recv(&mut self, cx: &mut Context<'_>) -> Poll<Result<Option<Q>>>
        ensures item { IfReady result (GivesItemOrEnd Q.meaning Q.E.is_no_memory Q.E.output) }
        ensures registered { OnPending result
            (Covers cx.new (λ s. s ≡ receiver_source L.came self.new.rx)) }
        ensures same { self.new ≡ self.old }
        ensures kept { Keeps cx.old cx.new }
    {
        let given = ready!(self.rx.poll_recv(cx));
        Poll::Ready(decode_item_or_end(self.rx.alloc(), given))
    }
}

/// A message that is received, or the end.
#[derive(Drop)]
pub struct SSReceiverRecv<'a, Q, L: StreamLine> {
    receiver: &'a mut SSReceiver<Q, L>,
}

impl<Q: Codec, L: StreamLine> SSReceiverRecv<'_, Q, L>
where
    Q::E: Display + Drop,
{
    /// Makes the one core call, `recv`, on a core that is lent. Returns `None` if nothing came yet.
    pub fn step<C: StreamCore<Id = L::Id>>(&self, core: &mut C) -> Option<Result<Option<Q>>>
        ensures { ReceivesAs C.receives (TellsItemOrEnd Q.meaning Q.E.is_no_memory Q.E.output)
            self.now.receiver.now.rx.id core.old result core.new }
    {
        let rx = &self.receiver.rx;
        match rx.step(core) {
            Some(given) => Some(decode_item_or_end(rx.alloc(), given)),
            None => None,
        }
    }
}

impl<Q: Codec, L: StreamLine> Future for SSReceiverRecv<'_, Q, L>
where
    Q::E: Display + Drop,
{
    type Output = Result<Option<Q>>;

    ghost use Rattle.ttrpc_polled.specs.Streams.Items.{GivesItemOrEnd};
    ghost use Rattle.ttrpc_polled.specs.Streams.Needs.{receiver_source};

    ghost needs = { λ f s. s ≡ receiver_source L.came f.receiver.now.rx };

    ghost gives = { λ f told. GivesItemOrEnd Q.meaning Q.E.is_no_memory Q.E.output told };

    fn poll(&mut self, cx: &mut Context<'_>) -> Poll<Result<Option<Q>>> {
        self.receiver.poll_recv(cx)
    }
}
