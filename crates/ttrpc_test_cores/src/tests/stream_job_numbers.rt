//! Many streams of a server at the same time.
use crate::tests::steps::leaves;
use crate::tests::stream_job_steps::{ends, takes_stream};
use crate::tests::stream_numbers::CHAT;
use crate::tests::stream_steps::receives;
use crate::tests::under_test::{End, Met, Server};
use std::alloc::Global;

/// Returns the stream id of a job.
fn stream_of(job: u32) -> u32 {
    job.wrapping_mul(2).wrapping_sub(1)
}

/// Returns whether `count` streams work that are opened for the jobs from 1 on, and taken. An item comes for each, the
/// last first, and the events are reported by rising number. The items are received and the streams are ended, the last
/// first.
pub fn stream_jobs_last_first<S: Server>(alloc: Global, core: &mut S, count: u32) -> Met {
    Ok(
        opens_each(alloc, core, count)?
            && takes_each(core, count)
            && items_last_first(alloc, core, count)?
            && hears_each(core, count)
            && ends_last_first(alloc, core, count)?
            && closes_last_first(core, count)
            && core.jobs_taken() == 0
            && !core.has_unsent(),
    )
}

fn opens_each<S: Server>(alloc: Global, core: &mut S, count: u32) -> Met {
    for job in 1..=count {
        let [a, b, c, d] = stream_of(job).to_be_bytes();
        core.feed(alloc, &[0, 0, 0, 0x11, a, b, c, d, 1, 6])?;
        core.feed(alloc, CHAT)?;
    }
    Ok(true)
}

fn takes_each<S: Server>(core: &mut S, count: u32) -> bool {
    for job in 1..=count {
        if !takes_stream(core, u64::from(job), stream_of(job)) {
            return false;
        }
    }
    true
}

fn items_last_first<S: Server>(alloc: Global, core: &mut S, count: u32) -> Met {
    for job in (1..=count).rev() {
        let [a, b, c, d] = stream_of(job).to_be_bytes();
        core.feed(alloc, &[0, 0, 0, 1, a, b, c, d, 3, 0, d])?;
    }
    Ok(true)
}

fn hears_each<S: Server>(core: &mut S, count: u32) -> bool {
    for job in 1..=count {
        if core.next_heard() != Some(job) {
            return false;
        }
    }
    core.next_heard().is_none()
}

fn ends_last_first<S: Server>(alloc: Global, core: &mut S, count: u32) -> Met {
    for job in (1..=count).rev() {
        let [_, _, _, d] = stream_of(job).to_be_bytes();
        if !receives(alloc, core, job, &[d])? || !ends(alloc, core, u64::from(job), &Ok(None))? {
            return Ok(false);
        }
    }
    Ok(true)
}

fn closes_last_first<C: End>(core: &mut C, count: u32) -> bool {
    for job in (1..=count).rev() {
        let [a, b, c, d] = stream_of(job).to_be_bytes();
        if !leaves(core, &[0, 0, 0, 0, a, b, c, d, 3, 5]) {
            return false;
        }
    }
    true
}
