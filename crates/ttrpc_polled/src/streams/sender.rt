//! The sending half of a stream.
ghost use Rattle.std.specs.Prelude.{◌≡◌, IfErr, IfOk};
ghost use Rattle.std.specs.Arc.{arc_value};
ghost use Rattle.futures.specs.Poll.{OnPending};
ghost use Rattle.futures.specs.Task.{Covers, Keeps};
ghost use Rattle.ttrpc_proto.specs.declared.error.Error.{Error as AnError};
ghost use Rattle.ttrpc_polled.specs.Streams.Steps.{IsStep};

use crate::streams::line::StreamLine;
use crate::streams::sending::Sending;
use futures::Future;
use futures::task::{Context, Poll};
use std::alloc::Global;
use std::sync::Arc;
use ttrpc_connection::StreamCore;
use ttrpc_proto::Result;
use ttrpc_wire::Blob;

/// The state that the senders of a stream share. After the last of them is dropped, no task sends on the stream any
/// more.
pub struct SenderSeat<L: StreamLine> {
    line: Arc<L, Global>,
    id: L::Id,
}

impl<L: StreamLine> Drop for SenderSeat<L> {
    fn drop(self) {
        let Self { line, id } = self;
        line.drop_sender(id);
    }
}

/// The sending half of a stream. Its clones share it.
#[derive(Drop)]
pub struct StreamSender<L: StreamLine> {
    alloc: Global,
    seat: Arc<SenderSeat<L>, Global>,
}

impl<L: StreamLine> StreamSender<L> {
    /// Makes the sending half of this stream.
    pub fn new(alloc: Global, line: Arc<L, Global>, id: L::Id) -> Result<StreamSender<L>>
        ensures ok { IfOk result
            (λ sender. ((arc_value sender.seat).line ≡ line) × ((arc_value sender.seat).id ≡ id)) }
        ensures err { IfErr result (λ e. e ≡ AnError.NoMemory) }
    {
        Ok(StreamSender {
            alloc,
            seat: Arc::new(alloc, SenderSeat { line, id })?,
        })
    }

    /// Returns the allocator of its calls.
    pub fn alloc(&self) -> Global {
        self.alloc
    }

    /// Returns the name of its stream.
    pub(crate) fn id(&self) -> L::Id
        ensures { result ≡ (arc_value self.now.seat).id }
    {
        self.seat.id
    }

    /// Makes another sender of the same stream.
    pub fn try_clone(&self) -> Result<StreamSender<L>>
        ensures ok { IfOk result (λ sender. arc_value sender.seat ≡ arc_value self.now.seat) }
        ensures err { IfErr result (λ e. e ≡ AnError.NoMemory) }
    {
        Ok(StreamSender {
            alloc: self.alloc,
            seat: Arc::try_clone(&self.seat)?,
        })
    }

    /// Sends an item. Ready once its frame has left the core, or with the reason why it doesn't leave.
    pub fn send(&self, item: Vec<u8>) -> StreamSenderSend<'_, L>
        ensures { (result.sender.now ≡ self.now) × (result.sending ≡ Sending.Sends item.items) }
    {
        self.sending(Sending::Sends(Blob::from_vec(item)))
    }

    /// Closes the sending half: no more items are sent. Ready once that has left the core, or with the reason why it
    /// doesn't leave.
    pub fn close_send(&self) -> StreamSenderCloseSend<'_, L>
        ensures { (result.sender.now ≡ self.now) × (result.sending ≡ Sending.Closes) }
    {
        self.sending(Sending::Closes)
    }

    /// Makes the call with this state.
    pub fn sending(&self, sending: Sending) -> StreamSenderSend<'_, L>
        ensures { (result.sender.now ≡ self.now) × (result.sending ≡ sending) }
    {
        StreamSenderSend {
            sender: self,
            sending,
        }
    }

    /// Steps a call that sends, for a state that keeps this sender.
    pub fn poll_sending(&self, sending: &mut Sending, cx: &mut Context<'_>) -> Poll<Result<()>>
        ensures registered { OnPending result
            (Covers cx.new (λ s. s ≡ L.came (arc_value (arc_value self.now.seat).line))) }
        ensures kept { Keeps cx.old cx.new }
    {
        let seat = &*self.seat;
        seat.line.poll_sending(self.alloc, seat.id, sending, cx)
    }
}

/// An item that is sent.
#[derive(Drop)]
pub struct StreamSenderSend<'a, L: StreamLine> {
    pub sender: &'a StreamSender<L>,
    pub sending: Sending,
}

/// The call that closes the sending half of a stream.
pub type StreamSenderCloseSend<'a, L> = StreamSenderSend<'a, L>;

impl<L: StreamLine> StreamSenderSend<'_, L> {
    /// Makes the one core call that the call's state names, on a core that is lent. Returns `None` if there is no
    /// answer yet.
    pub fn step<C: StreamCore<Id = L::Id>>(&mut self, core: &mut C) -> Option<Result<()>>
        ensures step { IsStep C.sends C.refuses C.closes C.refuses_close C.tells_sent
            (arc_value self.old.sender.now.seat).id core.old self.old.sending result
            self.new.sending core.new }
        ensures sender { self.new.sender ≡ self.old.sender }
    {
        self.sending.step(self.sender.alloc, core, self.sender.id())
    }
}

impl<L: StreamLine> Future for StreamSenderSend<'_, L> {
    type Output = Result<()>;

    ghost use Rattle.ttrpc_polled.specs.Streams.Needs.{sender_source};

    ghost needs = { λ f s. s ≡ sender_source L.came f.sender.now };

    fn poll(&mut self, cx: &mut Context<'_>) -> Poll<Result<()>> {
        self.sender.poll_sending(&mut self.sending, cx)
    }
}
