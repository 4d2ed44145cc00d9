//! Frames in a ring that wraps round its end, that never gets empty, from which some are thrown away, and that is full.
//! All bytes of short frames are written by hand.
use crate::tests::rows::{FrameRow, queued_of};
use std::alloc::Global;
use std::test::Fail;
use ttrpc_bench::checks::{Tested, check, check_row};
use ttrpc_proto::framing::owners::Owners;
use ttrpc_proto::{Error, MESSAGE_LENGTH_MAX, OUTGOING_LENGTH_MAX, Outgoing};
use ttrpc_wire::values::slices::{behind, front};

/// A frame of stream 1. Its payload is still to come.
const EMPTY: FrameRow = FrameRow(0, 1, 3, 0, b"");

/// The payload of a short frame, and the frame.
const LETTERS: &[u8] = b"abcdefghij";

const LETTERED: &[u8] = b"\0\0\0\x0a\0\0\0\x01\x03\0abcdefghij";

/// Queues a frame with this payload, and returns whether there was room for it.
fn places(alloc: Global, queue: &mut Outgoing, payload: &[u8]) -> Result<bool, Fail> {
    match queue.place(queued_of(alloc, &EMPTY, None)?, payload.len()) {
        Ok(()) => {
            queue.fill(b"", payload, b"");
            Ok(true)
        }
        Err(Error::NoRoom) => Ok(false),
        Err(error) => Err(error.into()),
    }
}

/// Takes the first frame from the queue, as a whole.
fn taken(alloc: Global, queue: &mut Outgoing) -> Result<Vec<u8>, Fail> {
    let mut bytes = vec![in alloc; 0; queue.open_len()]?;
    let count = queue.lend(bytes.as_mut_slice());
    queue.wrote(count);
    Ok(bytes)
}

/// Returns a payload of the greatest length.
fn greatest(alloc: Global) -> Result<Vec<u8>, Fail> {
    Ok(vec![in alloc; 7; MESSAGE_LENGTH_MAX]?)
}

/// Returns whether a frame leaves as it came if the end of the ring's memory lies `at` bytes after the frame's start.
fn wraps(alloc: Global, payload: &[u8], at: usize) -> Result<bool, Fail> {
    let mut queue = Outgoing::new(alloc)?;
    let shorter = behind(payload, at);
    let fit = places(alloc, &mut queue, payload)? && places(alloc, &mut queue, shorter)?;
    taken(alloc, &mut queue)?;
    let fits = places(alloc, &mut queue, LETTERS)?;
    taken(alloc, &mut queue)?;
    let last = taken(alloc, &mut queue)?;
    Ok(fit && fits && last.as_slice() == LETTERED && queue.is_empty())
}

/// The ring's end lies at each place of a header and of a payload, and after both.
#[test]
fn frames_wrap_round_the_end(rt: HostRuntime) -> Tested {
    let payload = greatest(rt.alloc())?;
    for at in 0..21 {
        check_row(at, wraps(rt.alloc(), &payload, at)?)?;
    }
    Ok(())
}

/// Returns the payload of the frame with this number. Its length and its bytes change with the number.
fn payload_of(bytes: &[u8], number: u32) -> &[u8] {
    let start = (number % 251) as usize;
    let length = (number % 1901) as usize;
    front(behind(bytes, start), length)
}

/// Returns whether the first frame has this payload, and takes it from the queue.
fn leaves(alloc: Global, queue: &mut Outgoing, payload: &[u8]) -> Result<bool, Fail> {
    let bytes = taken(alloc, queue)?;
    Ok(bytes.get(10..) == Some(payload))
}

/// Returns whether 100,000 frames leave as they came while `waiting` others wait.
fn goes_round(alloc: Global, bytes: &[u8], waiting: u32) -> Result<bool, Fail> {
    let mut queue = Outgoing::new(alloc)?;
    let mut all = true;
    for number in 0..waiting {
        all = all && places(alloc, &mut queue, payload_of(bytes, number))?;
    }
    for number in 0..100_000 {
        let next = payload_of(bytes, waiting.wrapping_add(number));
        all = all && places(alloc, &mut queue, next)?;
        all = all && leaves(alloc, &mut queue, payload_of(bytes, number))? && !queue.is_empty();
    }
    Ok(all)
}

/// If few bytes wait, the ring begins at its start again. If many wait, it goes round.
#[test]
fn a_queue_is_never_empty(rt: HostRuntime) -> Tested {
    let mut bytes = Vec::new(rt.alloc());
    for at in 0..4096u32 {
        bytes.push((at % 251) as u8)?;
    }
    for (at, waiting) in [1, 40].iter().enumerate() {
        check_row(at, goes_round(rt.alloc(), &bytes, *waiting)?)?;
    }
    Ok(())
}

/// The owners from the first number to the second.
#[derive(Clone, Copy, Debug)]
struct Between(u64, u64);

impl Owners for Between {
    ghost use Rattle.std.specs.Prelude.{nat_le, ◌&&◌};

    ghost has = { λ owners owner. nat_le owners.0 owner && nat_le owner owners.1 };

    fn has(&self, owner: u64) -> bool {
        self.0 <= owner && owner <= self.1
    }
}

/// A throw: whether the first frame has begun, the owners of the requests that are thrown away, the number of bytes
/// that are held then, and the bytes that leave after it.
#[derive(Clone, Copy, Debug)]
struct Throw(bool, Between, usize, &'static [u8]);

/// Unary requests, each after its owner.
const ASKING: &[(u64, FrameRow)] = &[
    (1, FrameRow(1, 1, 1, 0, b"a")),
    (2, FrameRow(2, 1, 1, 0, b"bb")),
    (3, FrameRow(3, 1, 1, 0, b"ccc")),
];

const THROWS: &[Throw] = &[
    // none
    Throw(
        false,
        Between(4, 9),
        36,
        b"\0\0\0\x01\0\0\0\x01\x01\0a\0\0\0\x02\0\0\0\x01\x01\0bb\0\0\0\x03\0\0\0\x01\x01\0ccc",
    ),
    // the first, which frees its bytes at once
    Throw(
        false,
        Between(1, 1),
        25,
        b"\0\0\0\x02\0\0\0\x01\x01\0bb\0\0\0\x03\0\0\0\x01\x01\0ccc",
    ),
    // one after another, which holds its bytes until that one leaves
    Throw(
        false,
        Between(2, 2),
        36,
        b"\0\0\0\x01\0\0\0\x01\x01\0a\0\0\0\x03\0\0\0\x01\x01\0ccc",
    ),
    // the last
    Throw(
        false,
        Between(3, 3),
        36,
        b"\0\0\0\x01\0\0\0\x01\x01\0a\0\0\0\x02\0\0\0\x01\x01\0bb",
    ),
    // the first two, the last two, and all
    Throw(false, Between(1, 2), 13, b"\0\0\0\x03\0\0\0\x01\x01\0ccc"),
    Throw(false, Between(2, 3), 36, b"\0\0\0\x01\0\0\0\x01\x01\0a"),
    Throw(false, Between(1, 3), 0, b""),
    // the first has begun, and stays
    Throw(
        true,
        Between(1, 1),
        36,
        b"\0\0\0\x01\0\0\0\x01\x01\0a\0\0\0\x02\0\0\0\x01\x01\0bb\0\0\0\x03\0\0\0\x01\x01\0ccc",
    ),
    Throw(
        true,
        Between(1, 2),
        36,
        b"\0\0\0\x01\0\0\0\x01\x01\0a\0\0\0\x03\0\0\0\x01\x01\0ccc",
    ),
    Throw(true, Between(1, 3), 36, b"\0\0\0\x01\0\0\0\x01\x01\0a"),
];

/// Returns whether a throw holds this number of bytes, and the expected bytes leave after it.
fn throws(alloc: Global, throw: Throw) -> Result<bool, Fail> {
    let Throw(begun, owners, held, expected) = throw;
    let mut queue = Outgoing::new(alloc)?;
    for (owner, row) in ASKING {
        queue.place(queued_of(alloc, row, Some(*owner))?, 0)?;
    }
    if begun {
        queue.lend(&mut [0; 1]);
    }
    queue.throw_away(&owners);
    let holds = OUTGOING_LENGTH_MAX - queue.free() == held;
    let mut bytes = Vec::new(alloc);
    for _ in 0..3 {
        let frame = taken(alloc, &mut queue)?;
        bytes.extend_from_slice(&frame)?;
    }
    let is_free = queue.free() == OUTGOING_LENGTH_MAX;
    Ok(holds && is_free && bytes.as_slice() == expected)
}

#[test]
fn requests_are_thrown_away(rt: HostRuntime) -> Tested {
    for (at, throw) in THROWS.iter().enumerate() {
        check_row(at, throws(rt.alloc(), *throw)?)?;
    }
    Ok(())
}

/// The number of bytes that a second frame of the greatest length lacks, the number of bytes of the first that are
/// reported, a payload, and whether it is queued then.
#[derive(Clone, Copy, Debug)]
struct Full(usize, usize, &'static [u8], bool);

const FULL: &[Full] = &[
    Full(0, 0, b"", false),
    Full(0, 9, b"", false),
    Full(0, 10, b"", true),
    Full(0, 10, b"a", false),
    Full(9, 0, b"", false),
    Full(10, 0, b"", true),
    Full(10, 0, b"a", false),
    Full(20, 0, LETTERS, true),
    Full(19, 0, LETTERS, false),
];

/// Returns whether a ring that two frames fill, except for `lacking` bytes, has room for a third frame as expected.
fn fills(alloc: Global, payload: &[u8], row: Full) -> Result<bool, Fail> {
    let Full(lacking, reported, third, fits) = row;
    let mut queue = Outgoing::new(alloc)?;
    let shorter = behind(payload, lacking);
    let fit = places(alloc, &mut queue, payload)? && places(alloc, &mut queue, shorter)?;
    let mut buffer = [0; 16];
    let count = queue.lend(&mut buffer[..reported.min(16)]);
    queue.wrote(count);
    let is_left = queue.free() == lacking.saturating_add(reported);
    Ok(fit && is_left && places(alloc, &mut queue, third)? == fits)
}

#[test]
fn a_ring_is_filled_to_its_last_byte(rt: HostRuntime) -> Tested {
    let payload = greatest(rt.alloc())?;
    for (at, row) in FULL.iter().enumerate() {
        check_row(at, fills(rt.alloc(), &payload, *row)?)?;
    }
    Ok(())
}

/// A frame with one byte more than the ring isn't queued, and a frame with all of its bytes is.
#[test]
fn one_frame_fills_a_ring(rt: HostRuntime) -> Tested {
    let alloc = rt.alloc();
    let payload = vec![in alloc; 7; OUTGOING_LENGTH_MAX - 9]?;
    let mut queue = Outgoing::new(alloc)?;
    let is_refused = !places(alloc, &mut queue, &payload)?;
    let is_queued = places(alloc, &mut queue, behind(&payload, 1))?;
    check(is_refused && is_queued && queue.free() == 0)
}

/// If the memory for a ring was refused, the error says so, and the next ring may be made.
#[test]
fn a_refused_ring_is_told(rt: HostRuntime) -> Tested {
    let is_told = match Outgoing::new(rt.alloc()) {
        Ok(queue) => queue.is_empty(),
        Err(error) => error == Error::NoMemory && Outgoing::new(rt.alloc())?.is_empty(),
    };
    check(is_told)
}
