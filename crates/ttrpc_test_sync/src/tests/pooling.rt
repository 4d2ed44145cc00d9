//! The pool of workers, over rows of calls and their answers, and under the gate of a worker.

use crate::tests::pooling::Call::*;
use crate::tests::workers::{Queue, Refuser, Seen};
use ttrpc_bench::checks::{Tested, check, check_row};
use ttrpc_sync::{Gate, PoolCore, PortState, work_loop};

/// A call of a pool, with its expected answer.
#[derive(Clone, Copy)]
enum Call {
    Starts(usize),
    Enters(bool),
    Leaves(bool),
    Waiting(usize),
}

/// A pool with these limits, `default`, `min` and `max`, and calls of it one after the other.
struct Pooling {
    limits: (usize, usize, usize),
    calls: &'static [Call],
}

/// Makes one call, and returns whether its answer was as expected.
fn answers(pool: &mut PoolCore, call: Call) -> bool {
    match call {
        Call::Starts(count) => pool.to_start() == count,
        Call::Enters(answer) => pool.enter() == answer,
        Call::Leaves(answer) => pool.waiting() > 0 && pool.leave() == answer,
        Call::Waiting(count) => pool.waiting() == count,
    }
}

/// Returns whether a pool with the row's limits gives the expected answers.
fn pools(row: &Pooling) -> bool {
    let (default, min, max) = row.limits;
    let mut pool = PoolCore::new(default, min, max);
    let mut all = true;
    for call in row.calls {
        all = all && answers(&mut pool, *call);
    }
    all
}

const LET_IN: Call = Enters(true);

const POOLINGS: &[Pooling] = &[
    Pooling {
        limits: (3, 1, 5),
        calls: &[
            Starts(3),
            LET_IN,
            LET_IN,
            LET_IN,
            Waiting(3),
            Starts(0),
            Leaves(false),
            Leaves(false),
            Starts(0),
            Leaves(true),
            Starts(3),
        ],
    },
    Pooling {
        limits: (3, 1, 5),
        calls: &[
            LET_IN,
            LET_IN,
            LET_IN,
            LET_IN,
            LET_IN,
            Waiting(5),
            Enters(false),
            Waiting(5),
        ],
    },
    Pooling {
        limits: (2, 4, 5),
        calls: &[
            Starts(2),
            LET_IN,
            Starts(1),
            LET_IN,
            LET_IN,
            Starts(0),
            Leaves(true),
        ],
    },
    Pooling {
        limits: (3, 1, 0),
        calls: &[Starts(3), Enters(false), Waiting(0)],
    },
];

#[test]
fn workers_wait_within_limits() -> Tested {
    for (at, row) in POOLINGS.iter().enumerate() {
        check_row(at, pools(row))?;
    }
    Ok(())
}

/// The gate of a pool, which counts the workers that were to be started.
#[derive(Drop)]
struct PoolGate {
    pool: PoolCore,
    started: usize,
    is_shut: bool,
}

impl Gate for PoolGate {
    ghost is_shut = { λ g. g.is_shut };

    fn enter(&mut self) -> bool {
        self.is_shut = !self.pool.enter();
        !self.is_shut
    }

    fn leave(&mut self) {
        if self.pool.waiting() > 0 && self.pool.leave() {
            self.started = self.started.saturating_add(self.pool.to_start());
        }
    }
}

/// The one worker of a pool leaves it for each of two jobs, and when no more come. Each time no worker is left waiting.
#[test]
fn worker_leaves_its_pool_each_time(rt: HostRuntime) -> Tested {
    let seen = Seen::nothing();
    let mut queue = Queue {
        rt: &rt,
        seen: &seen,
        requests: &[1, 2],
        key: 1,
        taken: Vec::with_capacity(rt.alloc(), 9)?,
        reported: Vec::with_capacity(rt.alloc(), 9)?,
        current: None,
        state: PortState::Open,
        begun: None,
    };
    let mut gate = PoolGate {
        pool: PoolCore::new(3, 1, 5),
        started: 0,
        is_shut: false,
    };
    work_loop(
        &rt,
        &mut queue,
        &Refuser {
            seen: &seen,
            from: 7,
        },
        &mut gate,
    );
    check(
        queue.reported.as_slice() == [(1, Ok(())), (3, Ok(()))].as_slice()
            && gate.pool.waiting() == 0
            && gate.started == 9
            && !gate.is_shut,
    )
}
