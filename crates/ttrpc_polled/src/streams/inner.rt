//! A stream with both its halves.
ghost use Rattle.std.specs.Prelude.{◌≡◌, IfErr, IfOk};
ghost use Rattle.std.specs.Arc.{arc_value};
ghost use Rattle.futures.specs.Poll.{OnPending};
ghost use Rattle.futures.specs.Task.{Covers, Keeps};
ghost use Rattle.ttrpc_proto.specs.declared.error.Error.{Error as AnError};
ghost use Rattle.ttrpc_polled.specs.Streams.Needs.{receiver_source};
ghost use Rattle.ttrpc_polled.specs.declared.streams.sending.Sending.{Sending};

use crate::streams::line::StreamLine;
use crate::streams::receiver::{StreamReceiver, StreamReceiverRecv};
use crate::streams::sender::{StreamSender, StreamSenderCloseSend, StreamSenderSend};
use futures::task::{Context, Poll};
use std::alloc::Global;
use std::sync::Arc;
use ttrpc_proto::Result;
use ttrpc_wire::Blob;

/// A stream with both its halves.
#[derive(Drop)]
pub struct StreamInner<L: StreamLine> {
    sender: StreamSender<L>,
    receiver: StreamReceiver<L>,
}

impl<L: StreamLine> StreamInner<L> {
    /// Makes both halves of this stream, each with its share of the line. If memory is refused, both are dropped.
    pub fn new(
        alloc: Global,
        sends: Arc<L, Global>,
        receives: Arc<L, Global>,
        id: L::Id,
    ) -> Result<StreamInner<L>>
        ensures ok { IfOk result (λ stream. ((arc_value stream.sender.seat).line ≡ sends)
            × ((arc_value stream.sender.seat).id ≡ id)
            × (stream.receiver.line ≡ receives) × (stream.receiver.id ≡ id)) }
        ensures err { IfErr result (λ e. e ≡ AnError.NoMemory) }
    {
        let receiver = StreamReceiver::new(alloc, receives, id);
        Ok(StreamInner {
            sender: StreamSender::new(alloc, sends, id)?,
            receiver,
        })
    }

    /// Splits the stream into its halves.
    pub fn split(self) -> (StreamSender<L>, StreamReceiver<L>)
        ensures { (result.0 ≡ self.sender) × (result.1 ≡ self.receiver) }
    {
        let StreamInner { sender, receiver } = self;
        (sender, receiver)
    }

    /// Returns the sending half.
    pub fn sender(&self) -> &StreamSender<L>
        ensures { result.now ≡ self.now.sender }
    {
        &self.sender
    }

    /// Sends an item. Ready once its frame has left the core, or with the reason why it doesn't leave.
    pub fn send(&self, item: Vec<u8>) -> StreamSenderSend<'_, L>
        ensures { (result.sender.now ≡ self.now.sender)
            × (result.sending ≡ Sending.Sends item.items) }
    {
        self.sender.send(item)
    }

    /// Closes the sending half: no more items are sent. Ready once that has left the core, or with the reason why it
    /// doesn't leave.
    pub fn close_send(&self) -> StreamSenderCloseSend<'_, L>
        ensures { (result.sender.now ≡ self.now.sender) × (result.sending ≡ Sending.Closes) }
    {
        self.sender.close_send()
    }

    /// Receives the next item, or the reason why there is none.
    pub fn recv(&mut self) -> StreamReceiverRecv<'_, L>
        ensures { result.receiver.now ≡ self.old.receiver }
    {
        self.receiver.recv()
    }

    /// Receives as `recv` does, for a state that keeps this stream.
    pub fn poll_recv(&mut self, cx: &mut Context<'_>) -> Poll<Result<Blob>>
        ensures registered { OnPending result
            (Covers cx.new (λ s. s ≡ receiver_source L.came self.new.receiver)) }
        ensures same { self.new ≡ self.old }
        ensures kept { Keeps cx.old cx.new }
    {
        self.receiver.poll_recv(cx)
    }
}
