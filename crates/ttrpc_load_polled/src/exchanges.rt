//! The exchanges of a task, one after the other.
use crate::calls::Calls;
use crate::counts::Counts;
use crate::talks::{Talk, Talks};
use futures::Stream;
use futures::task::{Context, Poll};
use ttrpc_polled::Timed;
use ttrpc_polled_client::Client;
use ttrpc_proto::Result;
use ttrpc_secure::Plain;
use ttrpc_wire::Blob;

/// The kind of exchanges that are measured.
#[derive(Clone, Copy, Debug)]
pub enum Work {
    /// Calls of `Echo`.
    Calls,
    /// Items of `Chat` that come back.
    Chat,
    /// Items that are sent to `Sum`.
    Sum,
    /// Items that `Count` sends.
    Count,
}

/// The exchanges of one task, as a stream. Each item is true if it ends an exchange.
#[derive(Drop)]
pub enum Exchanges<R: Timed> {
    Calls(Calls<R>),
    Talks(Talks<R>),
    Counts(Counts<R>),
}

impl<R: Timed> Exchanges<R> {
    /// Prepares `count` exchanges by this client, with `bytes` bytes each.
    pub fn new(
        client: Client<R, Plain, Plain>,
        work: Work,
        count: usize,
        bytes: usize,
    ) -> Result<Exchanges<R>> {
        let alloc = client.alloc();
        let payload = Vec::from_elem(alloc, 7u8, bytes)?;
        Ok(match work {
            Work::Calls => Exchanges::Calls(Calls::new(client, payload, count)),
            Work::Chat => {
                Exchanges::Talks(Talks::new(client, Talk::Chat, Blob::from_vec(payload), count))
            }
            Work::Sum => {
                Exchanges::Talks(Talks::new(client, Talk::Sum, Blob::from_vec(payload), count))
            }
            Work::Count => {
                let request = Blob::from_slice(alloc, &(count as u64).to_be_bytes())?;
                Exchanges::Counts(Counts::new(&client, &request))
            }
        })
    }
}

impl<R: Timed> Stream for Exchanges<R> {
    type Item = Result<bool>;

    ghost use Rattle.ttrpc_load_polled.specs.Needs.{ExchangesNeed};

    ghost needs = { ExchangesNeed };

    fn poll_next(&mut self, cx: &mut Context<'_>) -> Poll<Option<Result<bool>>> {
        match self {
            Exchanges::Calls(calls) => calls.poll_next(cx),
            Exchanges::Talks(talks) => talks.poll_next(cx),
            Exchanges::Counts(counts) => counts.poll_next(cx),
        }
    }
}
