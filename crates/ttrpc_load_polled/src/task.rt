//! A task of the event loop.
use crate::exchanges::Exchanges;
use crate::tally::Tally;
use futures::task::{Context, Poll};
use futures::{Future, Stream};
use std::alloc::Global;
use std::rc::Rc;
use ttrpc_polled::{Timed, moment};
use ttrpc_proto::Result;

/// The number of items that one poll takes, before other tasks run.
const TURNS: u32 = 64;

/// A task that runs its exchanges, and keeps the time of each.
#[derive(Drop)]
pub struct Tallied<R: Timed> {
    pub rt: R,
    pub exchanges: Exchanges<R>,
    pub began: u64,
    pub tally: Rc<Tally, Global>,
}

impl<R: Timed> Tallied<R> {
    /// Keeps the time of an exchange if the item ends one.
    fn note(&mut self, came: Result<bool>) -> Result<()> {
        if came? {
            let now = moment(&self.rt)?;
            self.tally.add(now.saturating_sub(self.began))?;
            self.began = now;
        }
        Ok(())
    }

    /// Keeps the time of an exchange, or the fault that ends the task. Returns whether the task goes on.
    fn goes_on(&mut self, came: Result<bool>) -> bool {
        match self.note(came) {
            Ok(()) => true,
            Err(error) => {
                self.tally.fail(error);
                false
            }
        }
    }
}

impl<R: Timed> Future for Tallied<R> {
    type Output = ();

    ghost use Rattle.ttrpc_load_polled.specs.Needs.{ExchangesNeed};

    ghost needs = { λ t. ExchangesNeed t.exchanges };

    fn poll(&mut self, cx: &mut Context<'_>) -> Poll<()> {
        for _ in 0..TURNS {
            match self.exchanges.poll_next(cx) {
                Poll::Pending => return Poll::Pending,
                Poll::Ready(None) => return Poll::Ready(()),
                Poll::Ready(Some(came)) => {
                    if !self.goes_on(came) {
                        return Poll::Ready(());
                    }
                }
            }
        }
        cx.yield_now()
    }
}
