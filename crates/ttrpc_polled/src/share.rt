//! The rest of one poll of a connection.
ghost use Rattle.std.specs.Prelude.{◌≡◌, ◌+◌, ◌^◌, ◌-◌, min, true, false};
ghost use Rattle.ttrpc_polled.specs.Sharing.{IsSpent, fresh};

use std::time::Clock;
use ttrpc_transport::moment;

/// The time for which a poll goes on, in nanoseconds. It still ends the work that it is doing then.
pub const POLL_TIME: u64 = 100_000;

/// The number of jobs after which a poll is over.
pub const POLL_JOBS: u32 = 16;

/// The number of moves from which on a poll reads the clock each time.
const POLL_MOVES: u32 = 4;

/// The rest of one poll of a connection, which a look at the connection returns. A poll hands on one piece at most, and is over after 16
/// jobs, or after 100 microseconds by the clock. The clock is read after each job, and each time that something moves from the fourth on.
#[derive(Debug, Drop)]
pub struct Share {
    moment: u64,
    until: u64,
    jobs: u32,
    moves: u32,
    may_hand_on: bool,
}

impl Share {
    /// Makes the share of a poll that begins at this moment.
    pub(crate) fn new(now: u64) -> Share
        ensures { result ≡ fresh now }
    {
        Share {
            moment: now,
            until: now.saturating_add(POLL_TIME),
            jobs: 0,
            moves: 0,
            may_hand_on: true,
        }
    }

    /// Returns the moment at which the clock was read last, in nanoseconds.
    pub fn now(&self) -> u64
        ensures { result ≡ self.now.moment }
    {
        self.moment
    }

    /// Returns whether the poll is over.
    pub fn is_over(&self) -> bool
        ensures yes { result ≡ true → IsSpent self.now }
        ensures no { result ≡ false → ¬ (IsSpent self.now) }
    {
        self.until <= self.moment || self.jobs >= POLL_JOBS
    }

    /// Returns whether a piece may be handed on. A poll may hand on one.
    pub(crate) fn may_hand_on(&self) -> bool
        ensures { result ≡ self.now.may_hand_on }
    {
        self.may_hand_on
    }

    /// Notes that a piece was handed on.
    pub(crate) fn handed_on(&mut self)
        ensures { self.new ≡ record self.old { may_hand_on = false } }
    {
        self.may_hand_on = false;
    }

    /// Ends the poll.
    pub(crate) fn end(&mut self)
        ensures { IsSpent self.new }
    {
        self.until = 0;
    }

    /// Notes that something was moved.
    pub(crate) fn moved<R: Clock>(&mut self, rt: &R) {
        self.moves = self.moves.saturating_add(1);
        if self.moves >= POLL_MOVES {
            self.read(rt);
        }
    }

    /// Notes that a job was begun, or has ended.
    pub fn worked<R: Clock>(&mut self, rt: &R)
        ensures { self.new.jobs ≡ min (self.old.jobs + 1) (2 ^ 32 - 1) }
    {
        self.jobs = self.jobs.saturating_add(1);
        self.read(rt);
    }

    /// Reads the clock.
    fn read<R: Clock>(&mut self, rt: &R)
        ensures { self.new ≡ record self.old { moment = self.new.moment } }
    {
        self.moment = moment(rt).unwrap_or(self.moment);
    }
}
