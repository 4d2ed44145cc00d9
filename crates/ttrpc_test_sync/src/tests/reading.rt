//! The loop that reads, over rows of a reader, a port, and the results.

use crate::tests::fakes::{BYTES, Taker, long_bytes};
use crate::tests::known::reader_had_it;
use std::alloc::Global;
use std::io::ErrorKind;
use std::sync::Wait;
use std::test::Fail;
use ttrpc_bench::checks::{Tested, check_named};
use ttrpc_bench::{AT_ONCE, Giver, Manner, ROOM};
use ttrpc_sync::PortState;
use ttrpc_wire::values::slices::front;

/// Readers of these bytes that give one of these numbers a call, and ports that take one of these numbers of a piece.
/// Each reader is read to each port.
#[derive(Clone, Copy)]
struct Reading<'a> {
    name: &'static str,
    bytes: &'a [u8],
    given: &'static [usize],
    manner: Manner,
    wanted: &'static [usize],
    rests: bool,
    /// The number of bytes that a port wants, and the number of reads.
    room: usize,
    reads: usize,
    /// The number of bytes that it took, and the number that weren't read.
    taken: usize,
    left: usize,
    state: PortState,
}

/// All twenty bytes are read and taken.
const ALL: Reading<'static> = Reading {
    name: "twenty bytes",
    bytes: BYTES,
    given: &[4096, 1],
    manner: AT_ONCE,
    wanted: &[4096, 1],
    rests: false,
    room: ROOM,
    reads: usize::MAX,
    taken: 20,
    left: 0,
    state: PortState::Ended,
};

/// Eight bytes are read at once by a port that wants no more before their end.
const STOPPED: Reading<'static> = Reading {
    name: "a port that wants no more",
    given: &[8],
    wanted: &[3],
    state: PortState::Stopped,
    ..ALL
};

/// Reads one reader to one port, and returns whether the result is that of the row.
fn reads_once<X: Wait>(
    rt: &X,
    alloc: Global,
    row: &Reading<'_>,
    given: usize,
    wanted: usize,
) -> Result<bool, Fail> {
    let taken = Vec::with_capacity(alloc, ROOM)?;
    let mut port = Taker::new(taken, wanted, row.room, row.rests);
    port.reads = row.reads;
    let manner = Manner {
        step: given,
        ..row.manner
    };
    let mut reader = Giver::new(row.bytes, manner);
    reader_had_it(rt, &mut reader, &mut port);
    Ok(
        port.taken.as_slice() == front(row.bytes, row.taken)
            && reader.left() == row.left
            && port.state == row.state,
    )
}

/// Reads each reader of each row to each of the row's ports, and checks the result.
fn check_reads<X: Wait>(rt: &X, alloc: Global, rows: &[Reading<'_>]) -> Tested {
    for row in rows {
        for given in row.given {
            for wanted in row.wanted {
                check_named(row.name, reads_once(rt, alloc, row, *given, *wanted)?)?;
            }
        }
    }
    Ok(())
}

const READINGS: &[Reading<'static>] = &[
    ALL,
    Reading {
        name: "one byte",
        bytes: b"A",
        taken: 1,
        ..ALL
    },
    Reading {
        name: "an empty input",
        bytes: b"",
        taken: 0,
        ..ALL
    },
    Reading {
        name: "interrupted reads are tried again",
        given: &[4096, 7, 1],
        manner: Manner {
            interrupts: true,
            ..AT_ONCE
        },
        wanted: &[3],
        ..ALL
    },
    Reading {
        name: "a port takes nothing at times",
        given: &[7],
        wanted: &[4096, 3, 1],
        rests: true,
        ..ALL
    },
    Reading {
        name: "a port that wanted just what there was is told the end",
        given: &[8],
        wanted: &[3],
        room: 20,
        ..ALL
    },
    Reading {
        room: 0,
        taken: 0,
        left: 12,
        ..STOPPED
    },
    Reading {
        room: 7,
        taken: 7,
        left: 12,
        ..STOPPED
    },
    Reading {
        room: 8,
        taken: 8,
        left: 4,
        ..STOPPED
    },
    Reading {
        room: 9,
        taken: 9,
        left: 4,
        ..STOPPED
    },
    Reading {
        room: 15,
        taken: 15,
        left: 4,
        ..STOPPED
    },
    Reading {
        room: 16,
        taken: 16,
        left: 0,
        ..STOPPED
    },
    Reading {
        room: 19,
        taken: 19,
        left: 0,
        ..STOPPED
    },
    Reading {
        name: "a port that wants no read",
        reads: 0,
        taken: 0,
        left: 20,
        ..STOPPED
    },
    Reading {
        name: "a port that wants two reads",
        reads: 2,
        taken: 16,
        left: 4,
        ..STOPPED
    },
];

#[test]
fn what_was_read_is_handed_on(rt: HostRuntime) -> Tested {
    check_reads(&rt, rt.alloc(), READINGS)
}

#[test]
fn more_than_a_piece_is_handed_on(rt: HostRuntime) -> Tested {
    let bytes = long_bytes(rt.alloc())?;
    let row = Reading {
        name: "more than a piece",
        bytes: bytes.as_slice(),
        taken: ROOM,
        ..ALL
    };
    check_reads(&rt, rt.alloc(), &[row])
}

/// The reader fails after each front of the bytes.
#[test]
fn a_failing_read_is_a_break(rt: HostRuntime) -> Tested {
    for count in 0..21 {
        let row = Reading {
            name: "a reader that fails",
            bytes: front(BYTES, count),
            manner: Manner {
                behind: Some(ErrorKind::ConnectionReset),
                ..AT_ONCE
            },
            wanted: &[3],
            taken: count,
            state: PortState::Broke(ErrorKind::ConnectionReset),
            ..ALL
        };
        check_reads(&rt, rt.alloc(), &[row])?;
    }
    Ok(())
}
