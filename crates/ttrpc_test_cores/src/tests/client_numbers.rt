//! Many calls of a client at the same time.
use crate::tests::client::ASKED;
use crate::tests::client_steps::{ends, gives, usual_request};
use crate::tests::steps::leaves;
use crate::tests::under_test::{Client, End, Met};
use std::alloc::Global;
use ttrpc_bench::vectors::Told;
use ttrpc_proto::Request;
use ttrpc_wire::values::slices::{behind, front};

/// Returns whether `count` calls work that are all made and written before the first answer. The last call is answered
/// first, with the lowest byte of its id as the payload. The ended calls are reported in that order, and each has its
/// own outcome.
pub fn calls_last_first<C: Client>(alloc: Global, core: &mut C, count: u32) -> Met {
    let request = usual_request(alloc, 10)?;
    Ok(
        calls(alloc, core, &request, count)?
            && requests_leave(core, count, 0, 0x18, behind(ASKED, 10))
            && answers_last_first(alloc, core, count)?
            && tells_last_first(core, count)
            && gives_each(alloc, core, count)?,
    )
}

/// Returns whether `count` calls without a deadline work if every second one is dropped. Answers to all of them come,
/// the last first. The calls that are left are reported in that order, and each has its own outcome. The other answers
/// change nothing.
pub fn calls_half_dropped<C: Client>(alloc: Global, core: &mut C, count: u32) -> Met {
    let request = usual_request(alloc, 0)?;
    let message = front(behind(ASKED, 10), 22);
    if !calls(alloc, core, &request, count)? || !requests_leave(core, count, 0, 0x16, message) {
        return Ok(false);
    }
    drops_half(core, count);
    Ok(
        answers_last_first(alloc, core, count)?
            && tells_half(core, count)
            && gives_half(alloc, core, count)?
            && core.failure(alloc).is_none(),
    )
}

/// Returns whether `count` calls expire at the tick at which the last is due, if each is due a nanosecond after the one
/// before. Each is reported and has its outcome, and no request leaves.
pub fn calls_expire_at_once<C: Client>(alloc: Global, core: &mut C, count: u32) -> Met {
    let request = usual_request(alloc, 10)?;
    if !calls(alloc, core, &request, count)? {
        return Ok(false);
    }
    core.tick(u64::from(count).wrapping_add(9));
    Ok(leaves(core, b"") && tells_all(core, count) && expires_each(alloc, core, count)?)
}

/// Returns the id of the call or the stream with this number, from 0.
pub fn id_of(number: u32) -> u32 {
    number.wrapping_mul(2).wrapping_add(1)
}

/// Makes the calls, each a nanosecond after the one before. Returns whether their ids are right.
fn calls<C: Client>(alloc: Global, core: &mut C, request: &Request, count: u32) -> Met {
    for number in 0..count {
        if core.request(alloc, request, u64::from(number))? != id_of(number) {
            return Ok(false);
        }
    }
    Ok(true)
}

/// Returns whether a request with these flags, this length and this message leaves with each id.
pub fn requests_leave<C: End>(
    core: &mut C,
    count: u32,
    flags: u8,
    length: u8,
    message: &[u8],
) -> bool {
    for number in 0..count {
        let [a, b, c, d] = id_of(number).to_be_bytes();
        let has_left = leaves(core, &[0, 0, 0, length, a, b, c, d, 1, flags])
            && leaves(core, message);
        if !has_left {
            return false;
        }
    }
    true
}

fn answers_last_first<C: End>(alloc: Global, core: &mut C, count: u32) -> Met {
    for number in (0..count).rev() {
        let [a, b, c, d] = id_of(number).to_be_bytes();
        core.feed(alloc, &[0, 0, 0, 5, a, b, c, d, 2, 0, 0x0a, 0, 0x12, 1, d])?;
    }
    Ok(true)
}

fn tells_last_first<C: Client>(core: &mut C, count: u32) -> bool {
    for number in (0..count).rev() {
        if core.next_ended() != Some(id_of(number)) {
            return false;
        }
    }
    core.next_ended().is_none()
}

fn gives_each<C: Client>(alloc: Global, core: &mut C, count: u32) -> Met {
    for number in 0..count {
        let id = id_of(number);
        let [_, _, _, d] = id.to_be_bytes();
        if !gives(alloc, core, id, true, &[d])? {
            return Ok(false);
        }
    }
    Ok(true)
}

/// Returns whether the call with this number, from 0, is dropped: every second one is.
fn is_dropped(number: u32) -> bool {
    number % 2 == 1
}

fn drops_half<C: Client>(core: &mut C, count: u32) {
    for number in 0..count {
        if is_dropped(number) {
            core.drop_call(id_of(number));
        }
    }
}

/// Returns whether the calls that are left are reported, the last first, and no others.
fn tells_half<C: Client>(core: &mut C, count: u32) -> bool {
    for number in (0..count).rev() {
        if !is_dropped(number) && core.next_ended() != Some(id_of(number)) {
            return false;
        }
    }
    core.next_ended().is_none()
}

/// Returns whether the calls that are left have their own outcomes, and no others have one.
fn gives_half<C: Client>(alloc: Global, core: &mut C, count: u32) -> Met {
    for number in 0..count {
        let id = id_of(number);
        let [_, _, _, d] = id.to_be_bytes();
        let is_met = if is_dropped(number) {
            core.take_outcome(alloc, id).is_none()
        } else {
            gives(alloc, core, id, true, &[d])?
        };
        if !is_met {
            return Ok(false);
        }
    }
    Ok(true)
}

fn tells_all<C: Client>(core: &mut C, count: u32) -> bool {
    for _ in 0..count {
        if core.next_ended().is_none() {
            return false;
        }
    }
    core.next_ended().is_none()
}

fn expires_each<C: Client>(alloc: Global, core: &mut C, count: u32) -> Met {
    for number in 0..count {
        if !ends(
            alloc,
            core,
            id_of(number),
            Told::Others("Request deadline elapsed"),
        )? {
            return Ok(false);
        }
    }
    Ok(true)
}
