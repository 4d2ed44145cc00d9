//! The workers of one connection that wait for a job: whether one more may wait, and how many are to be started. None
//! of the calls takes memory. The pool knows no threads, locks or jobs.

ghost use Rattle.std.specs.Prelude.{◌≡◌, ◌↔◌, ◌+◌, ◌-◌, ◌<◌, ◌≤◌, IsTrue, IsFalse};
ghost use Rattle.ttrpc_sync.specs.Pool.{Pool, with_waiting};

use std::marker::Model;

/// The count of workers that wait for a job, which is at most `max`.
#[derive(Drop)]
pub struct PoolCore {
    default: usize,
    min: usize,
    max: usize,
    waiting: usize,
}

impl Model for PoolCore {
    ghost use Rattle.std.specs.Prelude.{◌≤◌};
    ghost use Rattle.ttrpc_sync.specs.Pool.{Pool};

    ghost Value = { Pool };

    ghost view = { λ p. record {
      default = p.default;
      min = p.min;
      max = p.max;
      waiting = p.waiting;
    } };

    ghost invariant = { λ p. p.waiting ≤ p.max };
}

impl PoolCore {
    /// Makes a pool in which no worker waits. If fewer than `min` workers wait, the pool is filled up to `default`. At
    /// most `max` workers may wait.
    pub fn new(default: usize, min: usize, max: usize) -> PoolCore
        ensures default { result.default ≡ default }
        ensures min { result.min ≡ min }
        ensures max { result.max ≡ max }
        ensures waiting { result.waiting ≡ 0 }
    {
        PoolCore {
            default,
            min,
            max,
            waiting: 0,
        }
    }

    /// Asks to wait for a job. Returns false if the limit is reached; then the worker isn't counted.
    pub fn enter(&mut self) -> bool
        ensures room { IsTrue result ↔ (self.old.waiting < self.old.max) }
        ensures entered { IsTrue result → self.new ≡ with_waiting self.old (self.old.waiting + 1) }
        ensures refused { IsFalse result → self.new ≡ self.old }
        ensures bound { self.new.waiting ≤ self.new.max }
    {
        if self.waiting >= self.max {
            return false;
        }
        self.waiting += 1;
        true
    }

    /// Reports that a worker waits no longer. Returns true if fewer than `min` wait now, so that more are to be
    /// started.
    pub fn leave(&mut self) -> bool
        requires { 0 < self.old.waiting }
        ensures few { IsTrue result ↔ (self.new.waiting < self.old.min) }
        ensures left { self.new ≡ with_waiting self.old (self.old.waiting - 1) }
        ensures bound { self.new.waiting ≤ self.new.max }
    {
        self.waiting -= 1;
        self.is_short()
    }

    /// Returns how many workers are to be started: the number missing to `default` if fewer than `min` wait, else none.
    pub fn to_start(&self) -> usize
        ensures few { self.now.waiting < self.now.min
            → result ≡ self.now.default - self.now.waiting }
        ensures enough { self.now.min ≤ self.now.waiting → result ≡ 0 }
    {
        if self.is_short() {
            self.default.saturating_sub(self.waiting)
        } else {
            0
        }
    }

    /// Returns how many workers wait.
    pub fn waiting(&self) -> usize
        ensures count { result ≡ self.now.waiting }
        ensures bound { result ≤ self.now.max }
    {
        self.waiting
    }
    // Returns whether fewer than `min` workers wait.
    fn is_short(&self) -> bool
        ensures { IsTrue result ↔ (self.now.waiting < self.now.min) }
    {
        self.waiting < self.min
    }
}
