//! The loop of a worker, over rows of jobs, a gate, and the results.

use crate::passes::Pass;
use crate::tests::known::jobs_are_reported;
use crate::tests::workers::{Queue, Refuser, Seen, Turnstile};
use std::alloc::Global;
use std::process::Abort;
use std::sync::Wait;
use std::test::Fail;
use ttrpc_bench::checks::{Tested, check_named};
use ttrpc_sync::PortState;

/// More room than any of the tests needs, so that no queue and no gate takes more memory.
const ROOM: usize = 100;

/// Jobs that are taken by a worker that the gate lets in `turns` times. Numbers from 7 on are refused.
struct Working {
    name: &'static str,
    requests: &'static [u8],
    turns: usize,
    /// The reports, with their keys.
    reported: &'static [(u32, Result<(), u8>)],
    passes: &'static [Pass],
    state: PortState,
    is_shut: bool,
}

const IN: Pass = Pass::Entered;

const OUT: Pass = Pass::Left;

const WORKINGS: &[Working] = &[
    Working {
        name: "no job",
        requests: &[],
        turns: 9,
        reported: &[],
        passes: &[IN, OUT],
        state: PortState::Stopped,
        is_shut: false,
    },
    Working {
        name: "each job has its own result",
        requests: &[4, 9, 4, 7],
        turns: 9,
        reported: &[(1, Ok(())), (3, Err(9)), (5, Ok(())), (7, Err(7))],
        passes: &[IN, OUT, IN, OUT, IN, OUT, IN, OUT, IN, OUT],
        state: PortState::Stopped,
        is_shut: false,
    },
    Working {
        name: "a gate that lets nobody in",
        requests: &[4],
        turns: 0,
        reported: &[],
        passes: &[Pass::Refused],
        state: PortState::Open,
        is_shut: true,
    },
    Working {
        name: "a gate that sends the worker away behind two jobs of three",
        requests: &[8, 3, 9],
        turns: 2,
        reported: &[(1, Err(8)), (3, Ok(()))],
        passes: &[IN, OUT, IN, OUT, Pass::Refused],
        state: PortState::Open,
        is_shut: true,
    },
    Working {
        name: "a gate that sends the worker away behind the last job",
        requests: &[6],
        turns: 1,
        reported: &[(1, Ok(()))],
        passes: &[IN, OUT, Pass::Refused],
        state: PortState::Open,
        is_shut: true,
    },
];

/// Returns whether each request was handled once, outside the gate, and each job was taken inside.
fn stands_outside(seen: &Seen, row: &Working) -> bool {
    seen.handled.get() == row.reported.len()
        && seen.handled_inside.get() == 0
        && seen.taken_outside.get() == 0
}

/// Returns whether the results of a worker are those of the row.
fn works<X: Wait + Abort>(rt: &X, alloc: Global, row: &Working) -> Result<bool, Fail> {
    let seen = Seen::nothing();
    let mut queue = Queue {
        rt,
        seen: &seen,
        requests: row.requests,
        key: 1,
        taken: Vec::with_capacity(alloc, ROOM)?,
        reported: Vec::with_capacity(alloc, ROOM)?,
        current: None,
        state: PortState::Stopped,
        begun: Some(0),
    };
    let mut gate = Turnstile {
        rt,
        seen: &seen,
        turns: row.turns,
        passes: Vec::with_capacity(alloc, ROOM)?,
        is_shut: false,
    };
    jobs_are_reported(
        rt,
        &mut queue,
        &Refuser {
            seen: &seen,
            from: 7,
        },
        &mut gate,
    );
    Ok(
        queue.reported.as_slice() == row.reported
            && gate.passes.as_slice() == row.passes
            && queue.state == row.state
            && gate.is_shut == row.is_shut
            && queue.begun == Some(1)
            && stands_outside(&seen, row),
    )
}

#[test]
fn each_job_is_handled_and_reported(rt: HostRuntime) -> Tested {
    for row in WORKINGS {
        check_named(row.name, works(&rt, rt.alloc(), row)?)?;
    }
    Ok(())
}
