//! Frames that leave in pieces, frames that are thrown away, and a last frame that is filled or taken back. All bytes
//! are written by hand.
use crate::tests::rows::{FrameRow, queued_of};
use std::alloc::Global;
use std::test::Fail;
use ttrpc_bench::checks::{Tested, check, check_row};
use ttrpc_proto::framing::owners::Owners;
use ttrpc_proto::{Error, Outgoing};
use ttrpc_wire::Blob;

/// A call of a queue, with its expected answer.
#[derive(Clone, Copy, Debug)]
enum Act {
    Place(FrameRow),
    /// A unary request of this owner.
    PlaceOf(FrameRow, u64),
    Fill(&'static [u8]),
    Withdraw,
    ThrowAway(u64),
    /// Throws away the requests of all owners up to this one.
    ThrowAwayUpTo(u64),
    /// Room for this number of bytes is offered, and these bytes are lent.
    Lend(usize, &'static [u8]),
    Wrote(usize),
    Lent(usize),
    HasBegun(u64, bool),
    IsEmpty(bool),
}

/// The owners up to this one.
#[derive(Drop)]
struct UpTo {
    last: u64,
}

impl Owners for UpTo {
    ghost use Rattle.std.specs.Prelude.{nat_le};

    ghost has = { λ owners owner. nat_le owner owners.last };

    fn has(&self, owner: u64) -> bool {
        owner <= self.last
    }
}

/// A request of stream 1 with the payload "abc", and its bytes.
const ASKING: FrameRow = FrameRow(3, 1, 1, 0, b"abc");

const ASKED: &[u8] = b"\0\0\0\x03\0\0\0\x01\x01\0abc";

/// Data of stream 258 with two bytes. The length in its header is 16909060.
const SAYING: FrameRow = FrameRow(16909060, 258, 3, 6, b"\xff\x00");

const SAID: &[u8] = b"\x01\x02\x03\x04\0\0\x01\x02\x03\x06\xff\x00";

/// A response of stream 5 without a payload.
const ANSWERING: FrameRow = FrameRow(0, 5, 2, 0, b"");

const ANSWERED: &[u8] = b"\0\0\0\0\0\0\0\x05\x02\0";

/// Scripts, each with the bytes that the queue gives after it.
const SCRIPTS: &[(&[Act], &[u8])] = &[
    // frames leave in order
    (
        &[
            Act::IsEmpty(true),
            Act::PlaceOf(ASKING, 1),
            Act::Place(SAYING),
            Act::Place(ANSWERING),
            Act::IsEmpty(false),
        ],
        b"\0\0\0\x03\0\0\0\x01\x01\0abc\x01\x02\x03\x04\0\0\x01\x02\x03\x06\xff\x00\0\0\0\0\0\0\0\x05\x02\0",
    ),
    // fewer bytes are reported than lent, and nothing of the next frame is lent with the first
    (
        &[
            Act::Place(SAYING),
            Act::Place(ANSWERING),
            Act::Lend(11, b"\x01\x02\x03\x04\0\0\x01\x02\x03\x06\xff"),
            Act::Lent(11),
            Act::Wrote(4),
            Act::Lent(0),
            Act::Lend(11, b"\0\0\x01\x02\x03\x06\xff\x00"),
            Act::Lend(2, b"\0\0"),
            Act::Wrote(0),
            Act::Lend(11, b"\0\0\x01\x02\x03\x06\xff\x00"),
            Act::Wrote(8),
        ],
        ANSWERED,
    ),
    // a frame is thrown away before it begins
    (
        &[
            Act::PlaceOf(ASKING, 7),
            Act::Place(SAYING),
            Act::HasBegun(7, false),
            Act::ThrowAway(8),
            Act::ThrowAway(0),
            Act::ThrowAway(7),
            Act::ThrowAway(7),
        ],
        SAID,
    ),
    // requests of several owners are thrown away in one call, and the other frames keep their order
    (
        &[
            Act::PlaceOf(ASKING, 1),
            Act::Place(SAYING),
            Act::PlaceOf(ASKING, 3),
            Act::PlaceOf(ASKING, 5),
            Act::PlaceOf(ASKING, 2),
            Act::Place(ANSWERING),
            Act::ThrowAwayUpTo(3),
        ],
        b"\x01\x02\x03\x04\0\0\x01\x02\x03\x06\xff\x00\0\0\0\x03\0\0\0\x01\x01\0abc\0\0\0\0\0\0\0\x05\x02\0",
    ),
    // a frame that has begun stays: it begins with its first lent byte
    (
        &[
            Act::PlaceOf(ASKING, 7),
            Act::PlaceOf(ASKING, 7),
            Act::Lend(0, b""),
            Act::HasBegun(7, false),
            Act::Lend(1, b"\0"),
            Act::HasBegun(7, true),
            Act::HasBegun(8, false),
            Act::ThrowAway(7),
            Act::ThrowAway(7),
        ],
        ASKED,
    ),
    // after a whole frame the next one hasn't begun
    (
        &[
            Act::Place(ANSWERING),
            Act::PlaceOf(ASKING, 7),
            Act::Lend(10, ANSWERED),
            Act::Wrote(10),
            Act::HasBegun(7, false),
            Act::ThrowAway(7),
        ],
        b"",
    ),
    // the last frame is filled, unless it has begun or there is none
    (
        &[
            Act::Fill(b"none"),
            Act::IsEmpty(true),
            Act::Place(ANSWERING),
            Act::Place(FrameRow(0, 1, 1, 0, b"")),
            Act::Fill(b"abc"),
            Act::Lend(1, b"\0"),
            Act::Lend(10, ANSWERED),
            Act::Wrote(10),
            Act::Lend(1, b"\0"),
            Act::Fill(b"too late"),
        ],
        ASKED,
    ),
    // the last frame is taken back, unless it has begun or there is none
    (
        &[
            Act::Withdraw,
            Act::Place(SAYING),
            Act::Withdraw,
            Act::IsEmpty(true),
            Act::Place(SAYING),
            Act::Place(ANSWERING),
            Act::Lend(1, b"\x01"),
            Act::Withdraw,
            Act::Withdraw,
        ],
        SAID,
    ),
];

/// Returns whether these bytes are lent if room for `size` bytes is offered.
fn lends(queue: &mut Outgoing, size: usize, expected: &[u8]) -> bool {
    let mut buffer = [0xee; 16];
    let room = &mut buffer[..size.min(16)];
    let count = queue.lend(room);
    &room[..count] == expected && room[count..].iter().all(|byte| *byte == 0xee)
}

/// Makes one call, and returns whether its answer was as expected.
fn does(alloc: Global, queue: &mut Outgoing, act: Act) -> Result<bool, Fail> {
    match act {
        Act::Place(row) => queue.place(queued_of(alloc, &row, None)?, 0)?,
        Act::PlaceOf(row, owner) => queue.place(queued_of(alloc, &row, Some(owner))?, 0)?,
        Act::Fill(payload) => queue.fill(b"", payload, b""),
        Act::Withdraw => queue.withdraw(),
        Act::ThrowAway(owner) => queue.throw_away(&owner),
        Act::ThrowAwayUpTo(last) => queue.throw_away(&UpTo { last }),
        Act::Lend(size, expected) => return Ok(lends(queue, size, expected)),
        Act::Wrote(count) => queue.wrote(count.min(queue.lent())),
        Act::Lent(count) => return Ok(queue.lent() == count),
        Act::HasBegun(owner, begun) => return Ok(queue.has_begun(&owner) == begun),
        Act::IsEmpty(empty) => return Ok(queue.is_empty() == empty),
    }
    Ok(true)
}

/// Returns all bytes that a queue gives, in pieces of this size.
fn drained(alloc: Global, queue: &mut Outgoing, size: usize) -> Result<Vec<u8>, Fail> {
    let mut bytes = Vec::new(alloc);
    for _ in 0..100 {
        let mut piece = [0xee; 16];
        let count = queue.lend(&mut piece[..size.min(16)]);
        bytes.extend_from_slice(&piece[..count])?;
        queue.wrote(count);
    }
    Ok(bytes)
}

/// Returns whether the queue does what the script says, and gives these bytes after it.
fn runs(alloc: Global, script: &[Act], expected: &[u8], size: usize) -> Result<bool, Fail> {
    let mut queue = Outgoing::new(alloc)?;
    let mut all = true;
    for act in script {
        all = all && does(alloc, &mut queue, *act)?;
    }
    let bytes = drained(alloc, &mut queue, size)?;
    Ok(all && bytes.as_slice() == expected && queue.is_empty())
}

#[test]
fn scripts_of_a_queue(rt: HostRuntime) -> Tested {
    for (at, (script, expected)) in SCRIPTS.iter().enumerate() {
        for size in [1, 3, 16] {
            check_row(at, runs(rt.alloc(), script, expected, size)?)?;
        }
    }
    Ok(())
}

/// If memory for a frame was refused, nothing is queued, and the next frame may be.
#[test]
fn a_refused_frame_is_not_queued(rt: HostRuntime) -> Tested {
    let alloc = rt.alloc();
    let mut queue = Outgoing::new(alloc)?;
    let mut is_unchanged = true;
    if queue.place(queued_of(alloc, &ANSWERING, None)?, 0) == Err(Error::NoMemory) {
        is_unchanged = queue.is_empty();
        queue.place(queued_of(alloc, &ANSWERING, None)?, 0)?;
    }
    let bytes = drained(alloc, &mut queue, 16)?;
    check(is_unchanged && bytes.as_slice() == ANSWERED)
}
