//! The steps of either core.
use crate::tests::script::Step;
use crate::tests::stamps::{Stamps, stamped, stamped_part};
use crate::tests::under_test::{Core, End, Met};
use std::alloc::Global;
use ttrpc_bench::vectors::Told;
use ttrpc_proto::{Error, Response};
use ttrpc_wire::values::slices::{behind, front};
use ttrpc_wire::{Codec, Text};

/// Does the step. Returns whether it is met.
pub fn act<C: Core>(alloc: Global, core: &mut C, step: &Step, cut: usize) -> Met {
    match *step {
        Step::Feed(bytes) => feeds(alloc, core, bytes, cut),
        Step::FeedSevens(length) => feeds_sevens(alloc, core, length, cut.max(length / 4096)),
        Step::FeedSingly(length) => feeds_sevens(alloc, core, length, 1),
        Step::FeedToCut(bytes) => feeds(alloc, core, front(bytes, cut), usize::MAX),
        Step::FeedFromCut(bytes) => feeds(alloc, core, behind(bytes, cut), usize::MAX),
        Step::Writes(expected) => Ok(writes(core, expected)),
        Step::WritesStatus(code, begins) => writes_status(alloc, core, code, begins, b""),
        Step::WritesBehind(expected, n) => Ok(writes(core, behind(expected, n))),
        Step::Lends(room, bytes, from, to) => Ok(lends(core, room, behind(front(bytes, to), from))),
        Step::Lent(count) => Ok(core.lent() == count),
        Step::Leaves(bytes, from, to) => Ok(leaves(core, behind(front(bytes, to), from))),
        Step::Departs(count) => departs(alloc, core, count),
        Step::Repeats(bytes, expected, count) => repeats(alloc, core, bytes, expected, count),
        Step::FailsBy(text) => fails_by(alloc, core, text),
        Step::IsAlive => Ok(core.failure(alloc).is_none()),
        Step::AtBoundary(at_boundary) => Ok(core.at_boundary() == at_boundary),
        Step::HasFailed(text) => has_failed(alloc, core, text),
        Step::Reports => {
            core.report();
            Ok(true)
        }
        Step::EndsInput => {
            core.end_of_input();
            Ok(true)
        }
        _ => core.own_step(alloc, step, cut),
    }
}

/// Does the same over halves that stamp: frames come and leave with their stamps. If a frame comes in two pieces, the
/// cut is before its stamp.
pub fn act_stamped<C: Core>(
    alloc: Global,
    core: &mut C,
    step: &Step,
    cut: usize,
    stamps: &mut Stamps,
) -> Met {
    match *step {
        Step::Feed(frames) => {
            let bytes = stamped(alloc, frames, &mut stamps.comes)?;
            feeds(alloc, core, bytes.as_slice(), cut)
        }
        Step::FeedAt(frames, now) => {
            let bytes = stamped(alloc, frames, &mut stamps.comes)?;
            core.feeds_at(alloc, bytes.as_slice(), now, cut)
        }
        Step::FeedToCut(frame) => {
            let mut next = stamps.comes;
            let bytes = stamped(alloc, frame, &mut next)?;
            feeds(alloc, core, front(bytes.as_slice(), cut), usize::MAX)
        }
        Step::FeedFromCut(frame) => {
            let bytes = stamped(alloc, frame, &mut stamps.comes)?;
            feeds(alloc, core, behind(bytes.as_slice(), cut), usize::MAX)
        }
        Step::Serves(frames, answers) => {
            let bytes = stamped(alloc, frames, &mut stamps.comes)?;
            let expected = stamped(alloc, answers, &mut stamps.leaves)?;
            core.serves(alloc, bytes.as_slice(), cut, expected.as_slice())
        }
        _ => act_leaving(alloc, core, step, cut, &mut stamps.leaves),
    }
}

/// Does the same for frames that leave, with stamps from `next` on.
fn act_leaving<C: Core>(
    alloc: Global,
    core: &mut C,
    step: &Step,
    cut: usize,
    next: &mut u8,
) -> Met {
    match *step {
        Step::Writes(frames) => {
            let bytes = stamped(alloc, frames, next)?;
            Ok(writes(core, bytes.as_slice()))
        }
        Step::WritesStatus(code, begins) => {
            let stamp = [*next];
            *next = next.wrapping_add(1);
            writes_status(alloc, core, code, begins, &stamp)
        }
        Step::Leaves(frames, from, to) => {
            let bytes = stamped_part(alloc, frames, from, to, next)?;
            Ok(leaves(core, bytes.as_slice()))
        }
        _ => act(alloc, core, step, cut),
    }
}

/// Returns whether the bytes are taken whole, in pieces of this size.
pub fn feeds<C: End>(alloc: Global, core: &mut C, bytes: &[u8], size: usize) -> Met {
    for piece in bytes.chunks(size.max(1)) {
        if core.feed(alloc, piece)? != piece.len() {
            return Ok(false);
        }
    }
    Ok(true)
}

/// Returns whether `length` bytes 7 are taken, in pieces of this size.
pub fn feeds_sevens<C: End>(alloc: Global, core: &mut C, length: usize, size: usize) -> Met {
    let sevens = vec![in alloc; 7; length]?;
    feeds(alloc, core, sevens.as_slice(), size)
}

/// Returns the expected bytes after all those that the core has to write, or `None` if it has other bytes to write.
pub fn drained<'a, C: End>(core: &mut C, expected: &'a [u8]) -> Option<&'a [u8]> {
    let mut buffer = [0; 64];
    let mut rest = expected;
    for _ in 0..=expected.len() {
        let count = core.lend(&mut buffer);
        if count == 0 {
            break;
        }
        if front(&buffer, count) != front(rest, count) {
            return None;
        }
        rest = behind(rest, count);
        core.report();
    }
    Some(rest)
}

/// Returns whether all unsent bytes are these.
pub fn writes<C: End>(core: &mut C, expected: &[u8]) -> bool {
    match drained(core, expected) {
        Some(rest) => rest.is_empty(),
        None => false,
    }
}

/// Returns whether all unsent bytes are a response of stream 1 with this code and a message that begins with this text,
/// and these bytes after it.
fn writes_status<C: End>(
    alloc: Global,
    core: &mut C,
    code: i32,
    begins: &str,
    stamp: &[u8],
) -> Met {
    let mut buffer = [0; 256];
    let count = core.lend(&mut buffer);
    core.report();
    let whole = front(&buffer, count);
    let length = count.saturating_sub(stamp.len());
    Ok(
        behind(whole, length) == stamp
            && answers(alloc, front(whole, length), code, begins)?
            && writes(core, b""),
    )
}

/// Returns whether the frame is a response of stream 1, with this code and a message that begins with this text.
fn answers(alloc: Global, frame: &[u8], code: i32, begins: &str) -> Met {
    let [_, _, _, _, 0, 0, 0, 1, 2, 0, payload @ ..] = frame else {
        return Ok(false);
    };
    let response = Response::decode(alloc, payload)?;
    Ok(match &response.status {
        Some(status) => status.code == code && status.message.as_str().starts_with(begins),
        None => false,
    })
}

/// Feeds the first bytes `count` times. Returns whether all unsent bytes are the second bytes after each time.
fn repeats<C: End>(alloc: Global, core: &mut C, bytes: &[u8], expected: &[u8], count: u32) -> Met {
    for _ in 0..count {
        if core.feed(alloc, bytes)? != bytes.len() || !writes(core, expected) {
            return Ok(false);
        }
    }
    Ok(true)
}

/// Returns whether a buffer with this room gets these bytes.
pub fn lends<C: End>(core: &mut C, room: usize, expected: &[u8]) -> bool {
    let mut buffer = [0; 64];
    let room = room.min(buffer.len());
    let count = core.lend(&mut buffer[..room]);
    count == expected.len() && front(&buffer, count) == expected
}

/// Returns whether these bytes leave.
pub fn leaves<C: End>(core: &mut C, expected: &[u8]) -> bool {
    let lent = lends(core, expected.len(), expected);
    core.report();
    lent
}

/// Returns whether this number of bytes leaves.
fn departs<C: End>(alloc: Global, core: &mut C, count: usize) -> Met {
    let mut buffer = vec![in alloc; 0; 65536]?;
    let mut left = count;
    for _ in 0..=count {
        let lent = lends_some(core, buffer.as_mut_slice(), left);
        if lent == 0 {
            break;
        }
        left = left.saturating_sub(lent);
    }
    Ok(left == 0)
}

/// Lends and reports at most `most` bytes, and returns how many.
fn lends_some<C: End>(core: &mut C, buffer: &mut [u8], most: usize) -> usize {
    let room = most.min(buffer.len());
    let lent = core.lend(&mut buffer[..room]);
    core.report();
    lent
}

fn fails_by<C: End>(alloc: Global, core: &mut C, text: &str) -> Met {
    core.fail(Error::Socket(Text::from_str(alloc, text)?));
    Ok(true)
}

/// Returns whether the core reports its failure, takes nothing, lends nothing, and refuses all use.
fn has_failed<C: Core>(alloc: Global, core: &mut C, text: &'static str) -> Met {
    let why = Told::Socket(text);
    Ok(
        tells(core.failure(alloc), why)?
            && tells(core.feed(alloc, &[]).err(), why)?
            && tells(core.refusal(alloc)?, why)?
            && lends(core, 8, &[])
            && core.lent() == 0,
    )
}

/// Returns whether there is an error, and it is the expected one. If memory for it was refused, returns that as the
/// test's error.
pub fn tells(error: Option<Error>, why: Told) -> Met {
    match error {
        Some(error) => is_told(error, why),
        None => Ok(false),
    }
}

fn is_told(error: Error, why: Told) -> Met {
    if error == Error::NoMemory {
        return Err(error.into());
    }
    Ok(is(&error, why))
}

fn is(error: &Error, why: Told) -> bool {
    match why {
        Told::Others(told) => matches!(error, Error::Others(text) if text.as_str() == told),
        Told::Begins(told) => {
            matches!(error, Error::Others(text) if text.as_str().starts_with(told))
        }
        Told::Socket(told) => matches!(error, Error::Socket(text) if text.as_str() == told),
        Told::Status(code, told) => is_status(error, code, told),
        Told::LocalClosed => matches!(error, Error::LocalClosed),
        Told::RemoteClosed => matches!(error, Error::RemoteClosed),
        Told::Eof => matches!(error, Error::Eof),
        Told::NoRoom => matches!(error, Error::NoRoom),
    }
}

fn is_status(error: &Error, code: i32, message: &str) -> bool {
    match error {
        Error::RpcStatus(status) => status.code == code && status.message.as_str() == message,
        _ => false,
    }
}
