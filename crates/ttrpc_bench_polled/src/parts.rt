//! Parts that run side by side. Each is polled only after it was woken.
ghost use Rattle.std.specs.Prelude.{IfOk};
ghost use Rattle.futures.specs.Queued.{AllPollable, set_places};
ghost use Rattle.ttrpc_bench_polled.specs.Parts.{PartsCanPoll};

use futures::stream::FuturesUnordered;
use futures::task::{Context, Poll};
use futures::{Future, Stream};
use std::alloc::Global;
use ttrpc_proto::{Error, Result};

/// The first result that wasn't as expected: the number of an act or of a line, from 0, or the end of a server's
/// connections.
#[derive(Clone, Copy, Debug, PartialEq, Eq)]
pub enum Fault {
    Act(usize),
    Line(usize),
    Stop,
}

/// A part.
#[derive(Drop)]
pub enum Part<D, E> {
    /// Does its work, and then is ready.
    Does(D),
    /// Runs beside the work, and isn't waited for.
    Goes(E),
    /// Runs beside the work, and is waited for.
    Lasts(E),
}

/// The end of a part.
#[derive(Clone, Copy, Debug, PartialEq, Eq)]
pub enum PartEnded {
    /// The part has finished, with this fault, if there is one.
    Done(Option<Fault>),
    /// A part that isn't waited for has ended.
    Over,
}

impl<D: Future<Output = Option<Fault>>, E: Future<Output = ()>> Future for Part<D, E> {
    type Output = PartEnded;

    ghost use Rattle.ttrpc_bench_polled.specs.Parts.{PartCanPoll, PartNeeds};

    ghost can_poll = { PartCanPoll D.can_poll E.can_poll };

    ghost needs = { PartNeeds D.needs E.needs };

    fn poll(&mut self, cx: &mut Context<'_>) -> Poll<PartEnded> {
        match self {
            Part::Does(does) => match does.poll(cx) {
                Poll::Pending => Poll::Pending,
                Poll::Ready(fault) => Poll::Ready(PartEnded::Done(fault)),
            },
            Part::Goes(goes) => match goes.poll(cx) {
                Poll::Pending => Poll::Pending,
                Poll::Ready(()) => Poll::Ready(PartEnded::Over),
            },
            Part::Lasts(goes) => match goes.poll(cx) {
                Poll::Pending => Poll::Pending,
                Poll::Ready(()) => Poll::Ready(PartEnded::Done(None)),
            },
        }
    }
}

/// Parts side by side. They are ready with the first fault, or with `None` when all parts that are waited for have
/// ended.
#[derive(Drop)]
pub struct Parts<D, E> {
    set: FuturesUnordered<Part<D, E>>,
    left: usize,
}

impl<D: Future<Output = Option<Fault>>, E: Future<Output = ()>> Parts<D, E> {
    /// Returns a set without parts.
    pub fn new(alloc: Global) -> Result<Parts<D, E>>
        ensures { IfOk result (PartsCanPoll D.can_poll E.can_poll) }
    {
        Ok(Parts {
            set: FuturesUnordered::new(alloc)?,
            left: 0,
        })
    }

    /// Returns a part that is waited for, and one that runs beside it.
    pub fn beside(alloc: Global, does: D, goes: E) -> Result<Parts<D, E>>
        requires first { D.can_poll does }
        requires second { E.can_poll goes }
        ensures { IfOk result (PartsCanPoll D.can_poll E.can_poll) }
    {
        let mut parts = Parts::new(alloc)?;
        parts.does(does)?;
        parts.goes(goes)?;
        Ok(parts)
    }

    /// Returns a part that is waited for, and two that run beside it.
    pub fn beside_two(alloc: Global, does: D, first: E, second: E) -> Result<Parts<D, E>>
        requires does { D.can_poll does }
        requires first { E.can_poll first }
        requires second { E.can_poll second }
        ensures { IfOk result (PartsCanPoll D.can_poll E.can_poll) }
    {
        let mut parts = Parts::beside(alloc, does, first)?;
        parts.goes(second)?;
        Ok(parts)
    }

    /// Returns two parts that are waited for, and one that runs beside them.
    pub fn both(alloc: Global, first: D, second: D, goes: E) -> Result<Parts<D, E>>
        requires first { D.can_poll first }
        requires second { D.can_poll second }
        requires goes { E.can_poll goes }
        ensures { IfOk result (PartsCanPoll D.can_poll E.can_poll) }
    {
        let mut parts = Parts::beside(alloc, first, goes)?;
        parts.does(second)?;
        Ok(parts)
    }

    /// Returns a part that is waited for, and one that runs beside it and is waited for, too.
    pub fn lasting(alloc: Global, does: D, goes: E) -> Result<Parts<D, E>>
        requires first { D.can_poll does }
        requires second { E.can_poll goes }
        ensures { IfOk result (PartsCanPoll D.can_poll E.can_poll) }
    {
        let mut parts = Parts::new(alloc)?;
        parts.does(does)?;
        parts.lasts(goes)?;
        Ok(parts)
    }

    /// Adds a part that is waited for.
    pub fn does(&mut self, does: D) -> Result<()>
        requires all { PartsCanPoll D.can_poll E.can_poll self.old }
        requires new { D.can_poll does }
        ensures { PartsCanPoll D.can_poll E.can_poll self.new }
    {
        self.left = self.left.saturating_add(1);
        match self.set.push(Part::Does(does)) {
            Ok(()) => Ok(()),
            Err(_) => Err(Error::NoMemory),
        }
    }

    /// Adds a part that runs beside the others.
    pub fn goes(&mut self, goes: E) -> Result<()>
        requires all { PartsCanPoll D.can_poll E.can_poll self.old }
        requires new { E.can_poll goes }
        ensures { PartsCanPoll D.can_poll E.can_poll self.new }
    {
        match self.set.push(Part::Goes(goes)) {
            Ok(()) => Ok(()),
            Err(_) => Err(Error::NoMemory),
        }
    }

    /// Adds a part that runs beside the others, and is waited for.
    pub fn lasts(&mut self, goes: E) -> Result<()>
        requires all { PartsCanPoll D.can_poll E.can_poll self.old }
        requires new { E.can_poll goes }
        ensures { PartsCanPoll D.can_poll E.can_poll self.new }
    {
        self.left = self.left.saturating_add(1);
        match self.set.push(Part::Lasts(goes)) {
            Ok(()) => Ok(()),
            Err(_) => Err(Error::NoMemory),
        }
    }
}

/// The number of ended parts that are handled at most before other tasks run.
const TURNS: u32 = 64;

impl<D: Future<Output = Option<Fault>>, E: Future<Output = ()>> Future for Parts<D, E> {
    type Output = Option<Fault>;

    ghost use Rattle.ttrpc_bench_polled.specs.Parts.{PartsCanPoll};

    ghost can_poll = { PartsCanPoll D.can_poll E.can_poll };

    fn poll(&mut self, cx: &mut Context<'_>) -> Poll<Option<Fault>> {
        for _ in 0..TURNS {
            match self.set.poll_next(cx) {
                Poll::Pending => return Poll::Pending,
                Poll::Ready(None) => return Poll::Ready(None),
                Poll::Ready(Some(PartEnded::Over)) => {}
                Poll::Ready(Some(PartEnded::Done(Some(fault)))) => return Poll::Ready(Some(fault)),
                Poll::Ready(Some(PartEnded::Done(None))) => {
                    self.left = self.left.saturating_sub(1);
                    if self.left == 0 {
                        return Poll::Ready(None);
                    }
                }
            }
        }
        cx.yield_now()
    }
}
