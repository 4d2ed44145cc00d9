//! A queue of jobs, a handler and a gate in memory, and what they see of one another.
ghost use Rattle.std.specs.Prelude.{◌≡◌, ◌++◌, [], ◌∷◌, map, Some, None, Ok, Err, nat_lt, if◌then◌else◌};
ghost use Rattle.ttrpc_sync.specs.Loops.{IsOneMore};

use crate::passes::Pass;
use crate::tests::fakes::one_more;
use std::cell::Cell;
use std::process::Abort;
use ttrpc_sync::{Gate, Handler, JobPort, PortState};

/// The observations of a worker: whether it is inside the gate, the number of jobs that it took outside, and the
/// numbers of requests that were handled, in all and inside.
#[derive(Drop)]
pub struct Seen {
    inside: Cell<bool>,
    pub taken_outside: Cell<usize>,
    pub handled: Cell<usize>,
    pub handled_inside: Cell<usize>,
}

fn count(cell: &Cell<usize>) {
    let before = cell.get();
    cell.set(before.saturating_add(1));
}

impl Seen {
    pub fn nothing() -> Seen {
        Seen {
            inside: Cell::new(false),
            taken_outside: Cell::new(0),
            handled: Cell::new(0),
            handled_inside: Cell::new(0),
        }
    }

    fn takes(&self) {
        if !self.inside.get() {
            count(&self.taken_outside);
        }
    }

    fn handles(&self) {
        count(&self.handled);
        if self.inside.get() {
            count(&self.handled_inside);
        }
    }
}

/// A handler that refuses each number from this one on, with the number itself.
#[derive(Drop)]
pub struct Refuser<'a> {
    pub seen: &'a Seen,
    pub from: u8,
}

impl Handler for Refuser<'_> {
    type Request = u8;

    type Outcome = Result<(), u8>;

    ghost gives = { λ h request outcome. outcome
        ≡ (if nat_lt request h.from then Ok tt else Err request) };

    fn handle(&self, request: u8) -> Result<(), u8> {
        self.seen.handles();
        if request < self.from {
            Ok(())
        } else {
            Err(request)
        }
    }
}

/// A queue of these requests, with the keys 1, 3, 5 and so on. It aborts the test if memory is refused.
#[derive(Drop)]
pub struct Queue<'r, 'a, X> {
    pub rt: &'r X,
    pub seen: &'a Seen,
    pub requests: &'a [u8],
    pub key: u32,
    pub taken: Vec<(u32, u8)>,
    pub reported: Vec<(u32, Result<(), u8>)>,
    pub current: Option<u32>,
    pub state: PortState,
    pub begun: Option<u32>,
}

impl<'a, X: Abort> JobPort<Refuser<'a>> for Queue<'_, 'a, X> {
    type Key = u32;

    ghost taken = { λ q. Some q.taken.items };

    ghost reported = { λ q. Some q.reported.items };

    ghost current = { λ q. q.current };

    ghost state = { λ q. q.state };

    ghost begun = { λ q. q.begun };

    fn begin(&mut self) {
        self.state = PortState::Open;
        self.current = None;
        self.begun = one_more(self.begun);
    }

    fn take(&mut self) -> Option<(u32, u8)> {
        self.seen.takes();
        let Some((request, rest)) = self.requests.split_first() else {
            self.state = PortState::Stopped;
            return None;
        };
        let job = (self.key, *request);
        self.taken.push(job).expect(self.rt, "room for a job");
        self.requests = rest;
        self.key = self.key.saturating_add(2);
        self.current = Some(job.0);
        Some(job)
    }

    fn done(&mut self, key: u32, outcome: Result<(), u8>) {
        self.reported
            .push((key, outcome))
            .expect(self.rt, "room for a report");
        self.current = None;
    }
}

/// A gate that lets a worker in this number of times. It aborts the test if memory is refused.
#[derive(Drop)]
pub struct Turnstile<'r, 'a, X> {
    pub rt: &'r X,
    pub seen: &'a Seen,
    pub turns: usize,
    pub passes: Vec<Pass>,
    pub is_shut: bool,
}

impl<X: Abort> Gate for Turnstile<'_, '_, X> {
    ghost use Rattle.ttrpc_test_sync.specs.Passes.{passage_of};

    ghost passages = { λ t. Some (map passage_of t.passes.items) };

    ghost is_shut = { λ t. t.is_shut };

    #[tactic(auto, using(std::proofs::lemmas::Grind::common_steps))]
    fn enter(&mut self) -> bool {
        self.is_shut = self.turns == 0;
        let pass = if self.is_shut {
            Pass::Refused
        } else {
            Pass::Entered
        };
        self.passes.push(pass).expect(self.rt, "room for a pass");
        self.turns = self.turns.saturating_sub(1);
        self.seen.inside.set(!self.is_shut);
        !self.is_shut
    }

    #[tactic(auto, using(std::proofs::lemmas::Grind::common_steps))]
    fn leave(&mut self) {
        self.passes
            .push(Pass::Left)
            .expect(self.rt, "room for a pass");
        self.seen.inside.set(false);
    }
}
