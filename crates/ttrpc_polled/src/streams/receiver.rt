//! The receiving half of a stream.
ghost use Rattle.std.specs.Prelude.{◌≡◌};
ghost use Rattle.std.specs.Arc.{arc_value};
ghost use Rattle.futures.specs.Poll.{OnPending};
ghost use Rattle.futures.specs.Task.{Covers, Keeps};

use crate::streams::line::StreamLine;
use futures::Future;
use futures::task::{Context, Poll};
use std::alloc::Global;
use std::sync::Arc;
use ttrpc_connection::StreamCore;
use ttrpc_proto::Result;
use ttrpc_wire::Blob;

/// The receiving half of a stream. After it is dropped, items that come for the stream are thrown away.
pub struct StreamReceiver<L: StreamLine> {
    alloc: Global,
    line: Arc<L, Global>,
    id: L::Id,
}

impl<L: StreamLine> StreamReceiver<L> {
    /// Makes the receiving half of this stream.
    pub fn new(alloc: Global, line: Arc<L, Global>, id: L::Id) -> StreamReceiver<L>
        ensures { (result.line ≡ line) × (result.id ≡ id) }
    {
        StreamReceiver { alloc, line, id }
    }

    /// Returns the allocator of its calls.
    pub fn alloc(&self) -> Global {
        self.alloc
    }

    /// Receives the next item. Ready once there is one, or with a reason why there is none: `Eof` if the other side closed, and
    /// `RemoteClosed` after that, or after an item that closed the stream.
    pub fn recv(&mut self) -> StreamReceiverRecv<'_, L>
        ensures { result.receiver.now ≡ self.old }
    {
        StreamReceiverRecv { receiver: self }
    }

    /// Receives as `recv` does, for a state that keeps this receiver.
    pub fn poll_recv(&mut self, cx: &mut Context<'_>) -> Poll<Result<Blob>>
        ensures registered { OnPending result
            (Covers cx.new (λ s. s ≡ L.came (arc_value self.new.line))) }
        ensures same { self.new ≡ self.old }
        ensures kept { Keeps cx.old cx.new }
    {
        self.line.poll_receiving(self.alloc, self.id, cx)
    }

    /// Makes the one core call, `recv`, on a core that is lent. Returns `None` if nothing came yet.
    pub(crate) fn step<C: StreamCore<Id = L::Id>>(&self, core: &mut C) -> Option<Result<Blob>>
        ensures { C.receives core.old self.now.id result core.new }
    {
        core.recv_item(self.alloc, self.id)
    }
}

impl<L: StreamLine> Drop for StreamReceiver<L> {
    fn drop(self) {
        let Self { alloc: _, line, id } = self;
        line.drop_receiver(id);
    }
}

/// An item that is received.
#[derive(Drop)]
pub struct StreamReceiverRecv<'a, L: StreamLine> {
    receiver: &'a mut StreamReceiver<L>,
}

impl<L: StreamLine> StreamReceiverRecv<'_, L> {
    /// Makes the one core call, `recv`, on a core that is lent. Returns `None` if nothing came yet.
    pub fn step<C: StreamCore<Id = L::Id>>(&self, core: &mut C) -> Option<Result<Blob>>
        ensures { C.receives core.old self.now.receiver.now.id result core.new }
    {
        self.receiver.step(core)
    }
}

impl<L: StreamLine> Future for StreamReceiverRecv<'_, L> {
    type Output = Result<Blob>;

    ghost use Rattle.ttrpc_polled.specs.Streams.Needs.{receiver_source};

    ghost needs = { λ f s. s ≡ receiver_source L.came f.receiver.now };

    fn poll(&mut self, cx: &mut Context<'_>) -> Poll<Result<Blob>> {
        self.receiver.poll_recv(cx)
    }
}
