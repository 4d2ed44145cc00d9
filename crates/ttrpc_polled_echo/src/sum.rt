//! The stream `Sum`, which responds with the number of items, and the number of bytes in all.
use futures::Future;
use futures::task::{Context, Poll};
use std::alloc::Global;
use ttrpc_polled::{ServerStreamReceiver, StreamLine};
use ttrpc_proto::{Error, Result};
use ttrpc_wire::Blob;

/// The number of items that one poll counts, before other tasks run.
const TURNS: u32 = 64;

/// A running sum.
#[derive(Drop)]
pub struct Summing<L: StreamLine> {
    alloc: Global,
    receiver: ServerStreamReceiver<Blob, L>,
    items: u64,
    bytes: u64,
}

impl<L: StreamLine> Summing<L> {
    /// Begins a sum on this stream.
    pub fn new(alloc: Global, receiver: ServerStreamReceiver<Blob, L>) -> Summing<L> {
        Summing {
            alloc,
            receiver,
            items: 0,
            bytes: 0,
        }
    }

    /// Counts an item.
    fn add(&mut self, item: &Blob) {
        self.items = self.items.saturating_add(1);
        self.bytes = self.bytes.saturating_add(item.len() as u64);
    }

    /// Returns both numbers, each in eight bytes in big-endian order.
    fn encode_totals(&self) -> Result<Blob> {
        let mut told = Vec::with_capacity(self.alloc, 16)?;
        told.extend_from_slice(&self.items.to_be_bytes())?;
        told.extend_from_slice(&self.bytes.to_be_bytes())?;
        Ok(Blob::from_vec(told))
    }
}

impl<L: StreamLine> Future for Summing<L> {
    type Output = Result<Blob>;

    ghost use Rattle.std.specs.Prelude.{◌≡◌};
    ghost use Rattle.ttrpc_polled.specs.Streams.Needs.{receiver_source};

    ghost needs = { λ f s. s ≡ receiver_source L.came f.receiver.rx };

    fn poll(&mut self, cx: &mut Context<'_>) -> Poll<Result<Blob>> {
        for _ in 0..TURNS {
            match self.receiver.poll_recv(cx) {
                Poll::Pending => return Poll::Pending,
                Poll::Ready(Ok(Some(item))) => self.add(&item),
                Poll::Ready(Ok(None)) => return Poll::Ready(self.encode_totals()),
                // A peer may flag its last item as the last.
                Poll::Ready(Err(Error::RemoteClosed)) if self.items > 0 => {
                    return Poll::Ready(self.encode_totals());
                }
                Poll::Ready(Err(error)) => return Poll::Ready(Err(error)),
            }
        }
        cx.yield_now()
    }
}
