//! The end of a connection's input, as its handlers see it.
ghost use Rattle.std.specs.Prelude.{◌≡◌, IfErr, IfOk, true};
ghost use Rattle.std.specs.Arc.{arc_value};
ghost use Rattle.ttrpc_proto.specs.declared.error.Error.{Error as AnError};

use futures::Future;
use futures::spin::lock;
use futures::task::{Context, Poll, Source};
use std::alloc::Global;
use std::sync::atomic::{AtomicBool, Ordering};
use std::sync::{Arc, Mutex};
use ttrpc_polled::Wakers;
use ttrpc_proto::Result;

/// The end of a connection's input. It has come when the input has ended or the connection has failed: the client may be gone. A client
/// that only closed its sending half still reads, so a handler may go on.
#[derive(Drop)]
pub struct InputEnd {
    has_come: AtomicBool,
    source: Source,
    held: Mutex<EndWakers>,
}

/// The wakers of the tasks that wait for the end, each under a number.
#[derive(Drop)]
struct EndWakers {
    wakers: Wakers,
    next: u64,
}

impl InputEnd {
    /// Makes the end of an input that goes on.
    pub fn new(alloc: Global) -> InputEnd {
        InputEnd {
            has_come: AtomicBool::new(false),
            source: Source::new(),
            held: Mutex::new(EndWakers {
                wakers: Wakers::new(alloc),
                next: 0,
            }),
        }
    }

    /// Returns whether the end has come.
    pub fn has_come(&self) -> bool {
        self.has_come.load(Ordering::SeqCst)
    }

    /// Returns a future that is ready when the end has come.
    pub fn wait(this: &Arc<InputEnd, Global>) -> Result<InputEnded>
        ensures ok { IfOk result (λ ended. arc_value ended.end ≡ arc_value this.now) }
        ensures err { IfErr result (λ e. e ≡ AnError.NoMemory) }
    {
        Ok(InputEnded {
            end: Arc::try_clone(this)?,
            number: this.take_number(),
        })
    }

    /// Notes that the end has come, and wakes all tasks that wait for it.
    pub(crate) fn come(&self) {
        if self.has_come.swap(true, Ordering::SeqCst) {
            return;
        }
        if let Some(mut guard) = lock(&self.held) {
            (&mut *guard).wakers.wake_all();
        }
    }

    fn take_number(&self) -> u64 {
        let Some(mut guard) = lock(&self.held) else {
            return u64::MAX;
        };
        let held = &mut *guard;
        let number = held.next;
        held.next = number.saturating_add(1);
        number
    }
}

/// A future that waits for the end of a connection's input.
pub struct InputEnded {
    end: Arc<InputEnd, Global>,
    number: u64,
}

impl Future for InputEnded {
    type Output = ();

    ghost use Rattle.std.specs.Prelude.{◌≡◌};
    ghost use Rattle.std.specs.Arc.{arc_value};

    ghost needs = { λ f s. s ≡ (arc_value f.end).source.id };

    fn poll(&mut self, cx: &mut Context<'_>) -> Poll<()> {
        let Some(mut guard) = lock(&self.end.held) else {
            return cx.yield_now();
        };
        // The flag is set before the wakers are dropped, under this lock.
        if self.end.has_come() {
            return Poll::Ready(());
        }
        (&mut *guard).wakers.wait(self.number, &self.end.source, cx)
    }
}

impl Drop for InputEnded {
    fn drop(self) {
        let Self { end, number } = self;
        if let Some(mut guard) = lock(&end.held) {
            (&mut *guard).wakers.wake(number);
        }
    }
}
