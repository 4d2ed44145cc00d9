//! A stream that has no connection.
use futures::task::{Context, Poll};
use std::alloc::Global;
use std::cell::Cell;
use ttrpc_polled::{Kind, Sending, StreamLine};
use ttrpc_proto::Result;
use ttrpc_wire::Blob;

/// The line of one stream, which counts the reports that its halves were dropped.
#[derive(Drop)]
pub struct Lone<K> {
    id: K,
    left: Cell<(u32, u32)>,
}

impl<K: Ord + Copy + Drop> Lone<K> {
    /// Returns the line of this stream, without reports.
    pub fn new(id: K) -> Lone<K> {
        Lone {
            id,
            left: Cell::new((0, 0)),
        }
    }

    /// Returns how often the stream's receiver and its sender were reported as dropped.
    pub fn left(&self) -> (u32, u32) {
        self.left.get()
    }
}

impl<K: Ord + Copy + Drop> StreamLine for Lone<K> {
    type Id = K;

    ghost came = { λ _. 0 };

    fn kind(&self) -> Kind {
        Kind::Client
    }

    fn poll_sending(
        &self,
        _alloc: Global,
        _id: K,
        _sending: &mut Sending,
        cx: &mut Context<'_>,
    ) -> Poll<Result<()>> {
        cx.yield_now()
    }

    fn poll_receiving(&self, _alloc: Global, _id: K, cx: &mut Context<'_>) -> Poll<Result<Blob>> {
        cx.yield_now()
    }

    fn drop_receiver(&self, id: K) {
        if id == self.id {
            let (receivers, senders) = self.left.get();
            self.left.set((receivers.saturating_add(1), senders));
        }
    }

    fn drop_sender(&self, id: K) {
        if id == self.id {
            let (receivers, senders) = self.left.get();
            self.left.set((receivers, senders.saturating_add(1)));
        }
    }
}
