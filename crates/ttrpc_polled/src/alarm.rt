//! The alarm, by which a core learns that a moment has come.
ghost use Rattle.std.specs.Prelude.{◌≡◌, ◌≤◌, ◌<◌, ◌⊎◌, None, Some, IfErr, IfOk, IfSome, IsSome, true, false};
ghost use Rattle.futures.specs.Task.{Covers, Keeps};
ghost use Rattle.futures.specs.Poll.{IfReady, OnPending};
ghost use Rattle.tokio.specs.Timers.{sleep_source};
ghost use Rattle.ttrpc_transport.specs.Sockets.{IsFault};

use futures::Future;
use futures::task::{Context, Poll};
use std::time::{Clock, Duration, Instant};
use tokio::runtime::Handle;
use tokio::time::Sleep;
use ttrpc_proto::{Error, Result};
use ttrpc_transport::moment;

/// The system calls that a polled client or server needs: the clock and memory.
pub trait Timed: Clock + AllocGlobal + Clone + Drop {}

impl<R: Clock + AllocGlobal + Clone + Drop> Timed for R {}

/// The time for which an alarm sleeps that isn't set, in seconds.
const UNSET: u64 = 3600;

/// A timer for the least moment at which something expires.
#[derive(Drop)]
pub struct Alarm {
    pub sleep: Sleep,
    pub set_for: Option<u64>,
}

impl Alarm {
    /// Makes an alarm that isn't set. The error is `Nix` if the clock can't be read, or for want of
    /// memory.
    pub fn new<R: Clock>(rt: &R, handle: &Handle) -> Result<Alarm>
        ensures ok { IfOk result (λ alarm. alarm.set_for ≡ None) }
        ensures err { IfErr result IsFault }
    {
        match handle.time().sleep(rt, Duration::from_secs(UNSET)) {
            Ok(sleep) => Ok(Alarm {
                sleep,
                set_for: None,
            }),
            Err(error) => Err(Error::Nix(error.kind())),
        }
    }

    /// Sets the alarm, unless it is set for this moment or an earlier one.
    pub fn set<R: Clock>(&mut self, rt: &R, at: u64)
        ensures sets { (self.new.set_for ≡ self.old.set_for) ⊎ (self.new.set_for ≡ Some at) }
        ensures sooner { IfSome self.old.set_for (λ was. IfSome self.new.set_for (λ is. is ≤ was)) }
        ensures stays_set { IsSome self.old.set_for → IsSome self.new.set_for }
    {
        if self.set_for.is_some_and(|set_for| set_for <= at) {
            return;
        }
        let (Ok(now), Ok(instant)) = (moment(rt), Instant::now(rt)) else {
            return;
        };
        if let Some(instant) = instant.checked_add(Duration::from_nanos(at.saturating_sub(now))) {
            self.sleep.reset(instant);
            self.set_for = Some(at);
        }
    }

    /// Returns whether the alarm is set for this moment or an earlier one.
    pub fn is_due(&self, now: u64) -> bool
        ensures yes { result ≡ true
            → IfSome self.now.set_for (λ at. at ≤ now) × IsSome self.now.set_for }
        ensures no { result ≡ false → IfSome self.now.set_for (λ at. now < at) }
    {
        self.set_for.is_some_and(|at| at <= now)
    }

    /// Clears the alarm, so that it isn't set any more.
    pub fn unset(&mut self)
        ensures { self.new ≡ record self.old { set_for = None } }
    {
        self.set_for = None;
    }

    /// Waits until the alarm rings. Ready with the moment; the alarm isn't set any more then.
    pub fn poll_ring<R: Clock>(&mut self, rt: &R, cx: &mut Context<'_>) -> Poll<u64>
        ensures rung { IfReady result (λ _. self.new.set_for ≡ None) }
        ensures set { OnPending result (self.new.set_for ≡ self.old.set_for) }
        ensures registered { OnPending result
            (Covers cx.new (λ s. s ≡ sleep_source self.new.sleep)) }
        ensures kept { Keeps cx.old cx.new }
    {
        if let Poll::Pending = self.sleep.poll(cx) {
            return Poll::Pending;
        }
        self.set_for = None;
        Poll::Ready(moment(rt).unwrap_or(0))
    }
}
