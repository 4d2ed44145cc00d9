//! Many items and frames of a stream, and many streams of a client, at the same time.
use crate::tests::client_numbers::{id_of, requests_leave};
use crate::tests::client_steps::stream_request;
use crate::tests::steps::leaves;
use crate::tests::stream_steps::receives;
use crate::tests::under_test::{Items, Met, Streaming};
use std::alloc::Global;

/// The payload of the request that opens a stream.
pub const CHAT: &[u8] = b"\x0a\x09demo.Echo\x12\x04Chat";

/// Feeds `count` items for the stream with this id, each of one byte, which rises and starts again. None is received.
pub fn items_come<C: Items>(alloc: Global, core: &mut C, id: u32, count: u32) -> Met {
    let [a, b, c, d] = id.to_be_bytes();
    for number in 0..count {
        let [_, _, _, item] = number.to_be_bytes();
        core.feed(alloc, &[0, 0, 0, 1, a, b, c, d, 3, 0, item])?;
    }
    Ok(true)
}

/// Returns whether `count` of the items that came are received, in order.
pub fn receives_each<C: Items>(alloc: Global, core: &mut C, id: u32, count: u32) -> Met {
    for number in 0..count {
        let [_, _, _, item] = number.to_be_bytes();
        if !receives(alloc, core, id, &[item])? {
            return Ok(false);
        }
    }
    Ok(true)
}

/// Returns whether `count` streams work that are opened, with their requests written. An item comes for each, the last
/// first, and the events are reported. The items are received, the last first.
pub fn streams_last_first<C: Streaming>(alloc: Global, core: &mut C, count: u32) -> Met {
    Ok(
        opens_each(alloc, core, count)?
            && requests_leave(core, count, 6, 0x11, CHAT)
            && answers_last_first(alloc, core, count)?
            && hears_each(core, count)
            && receives_last_first(alloc, core, count)?,
    )
}

fn opens_each<C: Streaming>(alloc: Global, core: &mut C, count: u32) -> Met {
    let request = stream_request(alloc, b"")?;
    for number in 0..count {
        if core.new_stream(alloc, &request, true, true)? != id_of(number) {
            return Ok(false);
        }
    }
    Ok(true)
}

fn answers_last_first<C: Streaming>(alloc: Global, core: &mut C, count: u32) -> Met {
    for number in (0..count).rev() {
        let [a, b, c, d] = id_of(number).to_be_bytes();
        core.feed(alloc, &[0, 0, 0, 1, a, b, c, d, 3, 0, d])?;
    }
    Ok(true)
}

/// Returns whether the events are reported by rising id.
fn hears_each<C: Streaming>(core: &mut C, count: u32) -> bool {
    for number in 0..count {
        if core.next_heard() != Some(id_of(number)) {
            return false;
        }
    }
    core.next_heard().is_none()
}

fn receives_last_first<C: Streaming>(alloc: Global, core: &mut C, count: u32) -> Met {
    for number in (0..count).rev() {
        let id = id_of(number);
        let [_, _, _, d] = id.to_be_bytes();
        if !receives(alloc, core, id, &[d])? {
            return Ok(false);
        }
    }
    Ok(true)
}

/// Returns whether `count` items are sent on the stream with this id, as the first ones of its connection. Each item's
/// ticket is checked before all of them leave, and as it leaves.
pub fn sends_each<C: Items>(alloc: Global, core: &mut C, id: u32, count: u32) -> Met {
    Ok(queues_each(alloc, core, id, count)? && sent_each(alloc, core, id, count))
}

fn queues_each<C: Items>(alloc: Global, core: &mut C, id: u32, count: u32) -> Met {
    for number in 1..=count {
        let ticket = core.send(alloc, id, b"i")?;
        if ticket != u64::from(number) || core.sent(alloc, ticket).is_some() {
            return Ok(false);
        }
    }
    Ok(true)
}

fn sent_each<C: Items>(alloc: Global, core: &mut C, id: u32, count: u32) -> bool {
    let [a, b, c, d] = id.to_be_bytes();
    for number in 1..=count {
        let ticket = u64::from(number);
        let is_sent = leaves(core, &[0, 0, 0, 1, a, b, c, d, 3, 0])
            && core.sent(alloc, ticket).is_none()
            && leaves(core, b"i")
            && matches!(core.sent(alloc, ticket), Some(Ok(())));
        if !is_sent {
            return false;
        }
    }
    true
}
