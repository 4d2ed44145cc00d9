//! Many requests of a server at the same time.
use crate::server::ASKED;
use crate::tests::server_steps::{answers, ticks};
use crate::tests::steps::leaves;
use crate::tests::under_test::{End, Met, Server};
use std::alloc::Global;
use ttrpc_proto::Error;
use ttrpc_wire::values::slices::behind;

/// Returns whether `count` requests are served that are all taken before the first is answered. They have the odd
/// stream ids from 1 on. The last is answered first, with the lowest byte of its stream id, and the answers are written
/// in that order.
pub fn serves_last_first<S: Server>(alloc: Global, core: &mut S, count: u32) -> Met {
    Ok(
        asks_each(alloc, core, count)?
            && core.jobs_waiting() == u64::from(count)
            && takes(core, count)
            && core.jobs_taken() == u64::from(count)
            && answers_last_first(alloc, core, count)?
            && core.jobs_taken() == 0
            && writes_last_first(core, count)
            && !core.has_unsent(),
    )
}

/// Returns whether `count` requests with a timeout expire at one tick. They come a nanosecond apart, each with a
/// request without a timeout after it, and have the odd stream ids from 1 on. The first is taken. All that have a
/// timeout expire, and are answered in their order.
pub fn jobs_expire_at_once<S: Server>(alloc: Global, core: &mut S, count: u32) -> Met {
    if !asks_in_pairs(alloc, core, count)? || core.take_job().is_none() {
        return Ok(false);
    }
    Ok(
        ticks(alloc, core, u64::from(count).wrapping_add(10))?
            && core.jobs_waiting() == u64::from(count)
            && core.next_expired() == Some(1)
            && core.next_expired().is_none()
            && first_ones_time_out(core, count)
            && !core.has_unsent(),
    )
}

/// Returns whether `count` requests with a timeout expire one after the other. They come a nanosecond apart, with the
/// odd stream ids from 1 on, and are taken. Each expires at its own tick, is reported, and is answered.
pub fn jobs_expire_in_turn<S: Server>(alloc: Global, core: &mut S, count: u32) -> Met {
    for job in 1..=count {
        asks_in_time(alloc, core, stream_of(job), u64::from(job))?;
    }
    Ok(
        takes(core, count)
            && expire_in_turn(alloc, core, count)?
            && core.jobs_taken() == 0
            && core.next_deadline().is_none(),
    )
}

fn expire_in_turn<S: Server>(alloc: Global, core: &mut S, count: u32) -> Met {
    for job in 1..=count {
        let due = u64::from(job).wrapping_add(10);
        let has_expired = core.next_deadline() == Some(due)
            && ticks(alloc, core, due)?
            && core.next_expired() == Some(u64::from(job))
            && core.next_expired().is_none()
            && times_out(core, stream_of(job))
            && !core.has_unsent();
        if !has_expired {
            return Ok(false);
        }
    }
    Ok(true)
}

/// Returns the stream id of the job with this number, from 1.
fn stream_of(job: u32) -> u32 {
    job.wrapping_mul(2).wrapping_sub(1)
}

/// Feeds the usual request of this stream.
fn asks<S: Server>(alloc: Global, core: &mut S, stream: u32) -> Result<usize, Error> {
    let [a, b, c, d] = stream.to_be_bytes();
    core.feed(alloc, &[0, 0, 0, 0x14, a, b, c, d, 1, 0])?;
    core.feed(alloc, behind(ASKED, 10))
}

/// Feeds the same with a timeout of ten nanoseconds, at this moment.
fn asks_in_time<S: Server>(
    alloc: Global,
    core: &mut S,
    stream: u32,
    now: u64,
) -> Result<usize, Error> {
    let [a, b, c, d] = stream.to_be_bytes();
    core.feed_at(alloc, &[0, 0, 0, 0x16, a, b, c, d, 1, 0], now)?;
    core.feed_at(alloc, behind(ASKED, 10), now)?;
    core.feed_at(alloc, &[0x20, 10], now)
}

/// Returns whether the answer to a job that expired leaves.
fn times_out<C: End>(core: &mut C, stream: u32) -> bool {
    let [a, b, c, d] = stream.to_be_bytes();
    leaves(core, &[0, 0, 0, 0x0d, a, b, c, d, 2, 0])
        && leaves(core, b"\x0a\x0b\x08\x04\x12\x07timeout")
}

/// Feeds pairs of requests: one with a timeout, and one without.
fn asks_in_pairs<S: Server>(alloc: Global, core: &mut S, count: u32) -> Met {
    for number in 0..count {
        let job = number.wrapping_mul(2).wrapping_add(1);
        asks_in_time(alloc, core, stream_of(job), u64::from(number))?;
        asks(alloc, core, stream_of(job.wrapping_add(1)))?;
    }
    Ok(true)
}

/// Returns whether the first of each pair is answered as expired.
fn first_ones_time_out<C: End>(core: &mut C, count: u32) -> bool {
    for number in 0..count {
        let job = number.wrapping_mul(2).wrapping_add(1);
        if !times_out(core, stream_of(job)) {
            return false;
        }
    }
    true
}

/// Feeds the usual request of the stream of each job.
fn asks_each<S: Server>(alloc: Global, core: &mut S, count: u32) -> Met {
    for job in 1..=count {
        asks(alloc, core, stream_of(job))?;
    }
    Ok(true)
}

fn takes<S: Server>(core: &mut S, count: u32) -> bool {
    for number in 1..=count {
        match core.take_job() {
            Some(job) if job.header.stream_id == stream_of(number) && job.id == u64::from(number) =>
                {}
            _ => return false,
        }
    }
    true
}

fn answers_last_first<S: Server>(alloc: Global, core: &mut S, count: u32) -> Met {
    for job in (1..=count).rev() {
        let [_, _, _, d] = stream_of(job).to_be_bytes();
        answers(alloc, core, u64::from(job), &[d])?;
    }
    Ok(true)
}

fn writes_last_first<C: End>(core: &mut C, count: u32) -> bool {
    for job in (1..=count).rev() {
        let [a, b, c, d] = stream_of(job).to_be_bytes();
        let answer = [0, 0, 0, 5, a, b, c, d, 2, 0, 0x0a, 0, 0x12, 1, d];
        if !leaves(core, &answer) {
            return false;
        }
    }
    true
}
