//! A gate that handlers wait at until it is opened.
ghost use Rattle.std.specs.Prelude.{◌≡◌};
ghost use Rattle.futures.specs.Poll.{OnPending};
ghost use Rattle.futures.specs.Task.{IsArmed, Keeps};

use futures::spin::lock;
use futures::task::{Context, Poll, Source, Waker};
use std::alloc::Global;
use std::sync::Mutex;
use tokio::time::Interval;

/// A gate. One handler may wait at it, or look at it at each tick. It also has the text that the last stream's handler
/// ended with.
#[derive(Drop)]
pub struct Gate {
    source: Source,
    held: Mutex<GateHeld>,
}

#[derive(Drop)]
struct GateHeld {
    is_open: bool,
    waits: Option<Waker>,
    ticks: Option<Interval>,
    told: String,
}

impl Gate {
    /// Returns a gate that is closed.
    pub fn new(alloc: Global) -> Gate {
        Gate {
            source: Source::new(),
            held: Mutex::new(GateHeld {
                is_open: false,
                waits: None,
                ticks: None,
                told: String::new(alloc),
            }),
        }
    }

    /// Waits until it is open.
    pub fn poll_open(&self, cx: &mut Context<'_>) -> Poll<()>
        ensures registered { OnPending result (IsArmed cx.new) }
        ensures kept { Keeps cx.old cx.new }
    {
        let Some(mut guard) = lock(&self.held) else {
            return cx.yield_now();
        };
        let held = &mut *guard;
        if held.is_open {
            return Poll::Ready(());
        }
        cx.register(&self.source, &mut held.waits)
    }

    /// Returns whether it is open.
    pub fn is_open(&self) -> bool {
        match lock(&self.held) {
            Some(guard) => guard.is_open,
            None => false,
        }
    }

    /// Sets the ticks for the handler that looks at the gate.
    pub fn set_ticks(&self, ticks: Interval) {
        if let Some(mut guard) = lock(&self.held) {
            (&mut *guard).ticks = Some(ticks);
        }
    }

    /// Takes the ticks. Only the first caller gets them.
    pub fn take_ticks(&self) -> Option<Interval> {
        match lock(&self.held) {
            Some(mut guard) => (&mut *guard).ticks.take(),
            None => None,
        }
    }

    /// Opens it.
    pub fn open(&self) {
        if let Some(mut guard) = lock(&self.held) {
            let held = &mut *guard;
            held.is_open = true;
            let woken = held.waits.take();
            drop(guard);
            drop(woken);
        }
    }

    /// Keeps the text that a handler ended with.
    pub fn note(&self, told: String) {
        if let Some(mut guard) = lock(&self.held) {
            (&mut *guard).told = told;
        }
    }

    /// Returns whether the last handler that ended did so with this text.
    pub fn was_told(&self, text: &str) -> bool {
        match lock(&self.held) {
            Some(guard) => guard.told.as_str() == text,
            None => false,
        }
    }
}
