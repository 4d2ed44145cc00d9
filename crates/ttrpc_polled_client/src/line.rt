//! The share of a connection that a client's clones, its calls and its streams hold.
ghost use Rattle.std.specs.Prelude.{◌≡◌};
ghost use Rattle.std.specs.Arc.{arc_value};
ghost use Rattle.futures.specs.Poll.{OnPending};
ghost use Rattle.futures.specs.Task.{Covers, Keeps};

use crate::asked::Asked;
use crate::opening::Opening;
use crate::shared::ClientShared;
use futures::spin::lock;
use futures::task::{Context, Poll};
use std::alloc::Global;
use std::sync::Arc;
use ttrpc_client::{CallId, StreamId};
use ttrpc_polled::{Kind, Sending, StreamLine};
use ttrpc_proto::{Response, Result};
use ttrpc_secure::{ConnectionData, InboundTransform, OutboundTransform};
use ttrpc_wire::Blob;

/// The share of the connection that a client's clones, its calls and its streams hold. The connection ends with the last of them.
pub struct ClientLine<O: OutboundTransform + Drop, I: InboundTransform + Drop> {
    pub shared: Arc<ClientShared<O, I>, Global>,
    pub connection_data: ConnectionData,
}

impl<O: OutboundTransform + Drop, I: InboundTransform + Drop> ClientLine<O, I> {
    /// Steps a call. If pending, the caller is woken once it has its outcome.
    pub fn poll_call(&self, asked: &mut Asked, cx: &mut Context<'_>) -> Poll<Result<Response>>
        ensures registered { OnPending result
            (Covers cx.new (λ s. s ≡ (arc_value self.now.shared).came.id)) }
        ensures kept { Keeps cx.old cx.new }
    {
        let Some(mut guard) = lock(&self.shared.held) else {
            return cx.yield_now();
        };
        let held = &mut *guard;
        let woken = if asked.is_new() {
            held.driver.take()
        } else {
            None
        };
        let polled = held.poll_call(asked, &self.shared.came, cx);
        drop(guard);
        drop(woken);
        polled
    }

    /// Opens a stream. If pending, there is no room for its request. The caller, at the place that `place` then has, is woken once bytes
    /// have left.
    pub fn poll_open(
        &self,
        opening: &Opening,
        place: &mut Option<u64>,
        cx: &mut Context<'_>,
    ) -> Poll<Result<StreamId>>
        ensures registered { OnPending result
            (Covers cx.new (λ s. s ≡ (arc_value self.now.shared).came.id)) }
        ensures kept { Keeps cx.old cx.new }
    {
        let Some(mut guard) = lock(&self.shared.held) else {
            return cx.yield_now();
        };
        let held = &mut *guard;
        let polled = held.poll_open(opening, place, &self.shared.came, cx);
        let woken = held.driver.take();
        drop(guard);
        drop(woken);
        polled
    }

    /// Forgets a call after its future was dropped.
    pub fn drop_call(&self, id: CallId) {
        if let Some(mut guard) = lock(&self.shared.held) {
            let held = &mut *guard;
            held.drop_call(id);
            let woken = held.driver.take();
            drop(guard);
            drop(woken);
        }
    }
}

impl<O: OutboundTransform + Drop, I: InboundTransform + Drop> StreamLine for ClientLine<O, I> {
    ghost use Rattle.std.specs.Arc.{arc_value};

    type Id = StreamId;

    ghost came = { λ line. (arc_value line.shared).came.id };

    fn kind(&self) -> Kind {
        Kind::Client
    }

    fn poll_sending(
        &self,
        _alloc: Global,
        id: StreamId,
        sending: &mut Sending,
        cx: &mut Context<'_>,
    ) -> Poll<Result<()>> {
        let Some(mut guard) = lock(&self.shared.held) else {
            return cx.yield_now();
        };
        let held = &mut *guard;
        let woken = if sending.is_new() {
            held.driver.take()
        } else {
            None
        };
        let polled = held.poll_sending(id, sending, &self.shared.came, cx);
        drop(guard);
        drop(woken);
        polled
    }

    fn poll_receiving(
        &self,
        _alloc: Global,
        id: StreamId,
        cx: &mut Context<'_>,
    ) -> Poll<Result<Blob>> {
        let Some(mut guard) = lock(&self.shared.held) else {
            return cx.yield_now();
        };
        let polled = (&mut *guard).poll_receiving(id, &self.shared.came, cx);
        drop(guard);
        polled
    }

    fn drop_receiver(&self, id: StreamId) {
        if let Some(mut guard) = lock(&self.shared.held) {
            (&mut *guard).drop_receiver(id);
        }
    }

    fn drop_sender(&self, id: StreamId) {
        if let Some(mut guard) = lock(&self.shared.held) {
            (&mut *guard).drop_sender(id);
        }
    }
}

impl<O: OutboundTransform + Drop, I: InboundTransform + Drop> Drop for ClientLine<O, I> {
    fn drop(self) {
        let Self {
            shared,
            connection_data: _,
        } = self;
        if let Some(mut guard) = lock(&shared.held) {
            let held = &mut *guard;
            held.abandon();
            let woken = held.driver.take();
            drop(guard);
            drop(woken);
        }
    }
}
