//! The state that the future of a server's connection and the streams of its jobs share.
ghost use Rattle.std.specs.Prelude.{◌≡◌};
ghost use Rattle.futures.specs.Poll.{OnPending};
ghost use Rattle.futures.specs.Task.{Covers, Keeps};

use crate::ended::Ended;
use crate::held::PolledServerState;
use crate::input_end::InputEnd;
use crate::settings::Settings;
use futures::spin::lock;
use futures::task::{Context, Poll, Source};
use std::alloc::Global;
use std::sync::{Arc, Mutex};
use ttrpc_polled::{Kind, Sending, SharedConnection, StreamLine};
use ttrpc_proto::Result;
use ttrpc_secure::{InboundTransform, OutboundTransform};
use ttrpc_server::{JobId, ServerCore};
use ttrpc_wire::Blob;

/// The state that the future of a server's connection and the streams of its jobs share. No task reads or writes while it holds the lock.
#[derive(Drop)]
pub struct ServerShared<O, I> {
    /// The source at which handlers wait for things that come for a stream, for frames that leave, and for the end of their time.
    pub came: Source,
    /// The source at which the connection's future waits for something to write.
    pub asked: Source,
    pub held: Mutex<PolledServerState<O, I>>,
}

impl<O: OutboundTransform + Drop, I: InboundTransform + Drop> ServerShared<O, I> {
    /// Makes the shared state of this core, with these settings. `input_end` learns when the input has ended.
    pub fn new(
        alloc: Global,
        core: ServerCore<O, I>,
        settings: Settings,
        input_end: Arc<InputEnd, Global>,
    ) -> Self {
        ServerShared {
            came: Source::new(),
            asked: Source::new(),
            held: Mutex::new(PolledServerState::new(alloc, core, settings, input_end)),
        }
    }

    /// Waits until the handler of the job of this number is to be dropped.
    pub fn poll_dropped(&self, id: JobId, cx: &mut Context<'_>) -> Poll<()>
        ensures registered { OnPending result (Covers cx.new (λ s. s ≡ self.now.came.id)) }
        ensures kept { Keeps cx.old cx.new }
    {
        let Some(mut guard) = lock(&self.held) else {
            return cx.yield_now();
        };
        let polled = (&mut *guard).poll_dropped(id, &self.came, cx);
        drop(guard);
        polled
    }
}

impl<O: OutboundTransform + Drop, I: InboundTransform + Drop> ServerShared<O, I> {
    /// Reports to the core how the handler of the job of this number ended. If pending, there is no room for the report. The caller, at the
    /// place that `place` then has, is woken once bytes have left.
    pub fn poll_end(
        &self,
        id: JobId,
        ended: &Ended,
        place: &mut Option<u64>,
        cx: &mut Context<'_>,
    ) -> Poll<()>
        ensures registered { OnPending result (Covers cx.new (λ s. s ≡ self.now.came.id)) }
        ensures kept { Keeps cx.old cx.new }
    {
        let Some(mut guard) = lock(&self.held) else {
            return cx.yield_now();
        };
        let polled = (&mut *guard).poll_end(id, ended, place, &self.came, cx);
        drop(guard);
        polled
    }
}

impl<O: OutboundTransform + Drop, I: InboundTransform + Drop> SharedConnection
    for ServerShared<O, I> {
    type Held = PolledServerState<O, I>;

    ghost asked = { λ shared. shared.asked.id };

    fn held(&self) -> &Mutex<PolledServerState<O, I>> {
        &self.held
    }

    fn asked(&self) -> &Source {
        &self.asked
    }
}

impl<O: OutboundTransform + Drop, I: InboundTransform + Drop> StreamLine for ServerShared<O, I> {
    type Id = JobId;

    ghost came = { λ shared. shared.came.id };

    fn kind(&self) -> Kind {
        Kind::Server
    }

    fn poll_sending(
        &self,
        _alloc: Global,
        id: JobId,
        sending: &mut Sending,
        cx: &mut Context<'_>,
    ) -> Poll<Result<()>> {
        let Some(mut guard) = lock(&self.held) else {
            return cx.yield_now();
        };
        let held = &mut *guard;
        let woken = if sending.is_new() {
            held.driver.take()
        } else {
            None
        };
        let polled = held.poll_sending(id, sending, &self.came, cx);
        drop(guard);
        drop(woken);
        polled
    }

    fn poll_receiving(
        &self,
        _alloc: Global,
        id: JobId,
        cx: &mut Context<'_>,
    ) -> Poll<Result<Blob>> {
        let Some(mut guard) = lock(&self.held) else {
            return cx.yield_now();
        };
        let polled = (&mut *guard).poll_receiving(id, &self.came, cx);
        drop(guard);
        polled
    }

    fn drop_receiver(&self, id: JobId) {
        if let Some(mut guard) = lock(&self.held) {
            (&mut *guard).drop_receiver(id);
        }
    }

    // A server's stream is ended by its handler's answer.
    fn drop_sender(&self, _id: JobId) {}
}
