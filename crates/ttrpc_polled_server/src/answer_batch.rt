//! When answers leave while others are not ready.
ghost use Rattle.std.specs.Prelude.{◌≡◌, ◌≤◌, ◌<◌, ◌+◌, ◌*◌, ◌-◌, ◌^◌, min, true, false};

/// The number of ready answers that leave before others are ready, at first.
const FIRST: u32 = 4;

/// The most answers that wait for others.
const MOST: u32 = 16;

/// The count of ready answers, which decides when they leave together: four at first, then eight, and from then on 16 at a time. So a
/// client goes on while the other answers are made, and many answers still take few writes.
#[derive(Clone, Copy, Debug)]
pub(crate) struct AnswerBatch {
    pub(crate) ready: u32,
    pub(crate) enough: u32,
}

impl AnswerBatch {
    /// Makes the batch of a connection that has no ready answer.
    pub(crate) fn new() -> AnswerBatch
        ensures { result ≡ record { ready = 0; enough = 4 } }
    {
        AnswerBatch {
            ready: 0,
            enough: FIRST,
        }
    }

    /// Notes that one more answer is ready.
    pub(crate) fn one_more(&mut self)
        ensures { self.new ≡ record self.old { ready = min (self.old.ready + 1) (2 ^ 32 - 1) } }
    {
        self.ready = self.ready.saturating_add(1);
    }

    /// Returns whether enough answers are ready, and if so counts them as left.
    pub(crate) fn leaves(&mut self) -> bool
        ensures leave { result ≡ true
            → (self.old.enough ≤ self.old.ready)
            × (self.new ≡ record { ready = 0; enough = min (self.old.enough * 2) 16 }) }
        ensures stay { result ≡ false → (self.old.ready < self.old.enough) × (self.new ≡ self.old) }
    {
        if self.ready < self.enough {
            return false;
        }
        self.ready = 0;
        self.enough = self.enough.saturating_mul(2).min(MOST);
        true
    }

    /// Returns whether any answer is ready, and if so counts them as left.
    pub(crate) fn ends(&mut self) -> bool
        ensures leave { result ≡ true
            → (0 < self.old.ready) × (self.new ≡ record self.old { ready = 0 }) }
        ensures none { result ≡ false → (self.old.ready ≡ 0) × (self.new ≡ self.old) }
    {
        let is_any = 0 < self.ready;
        self.ready = 0;
        is_any
    }
}
