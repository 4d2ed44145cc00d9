//! The loop that writes, over rows of a port, a writer, and the results.

use crate::tests::fakes::{BYTES, Lender, long_bytes};
use crate::tests::known::writer_had_it;
use std::alloc::Global;
use std::io::ErrorKind;
use std::sync::Wait;
use std::test::Fail;
use ttrpc_bench::checks::{Tested, check_named};
use ttrpc_bench::{AT_ONCE, Manner, ROOM, Receiver};
use ttrpc_sync::PortState;
use ttrpc_wire::values::slices::front;

/// Ports that lend one of these numbers of bytes at a time, and writers that take one of these numbers a call. Each
/// writer writes for each port.
#[derive(Clone, Copy)]
struct Writing<'a> {
    name: &'static str,
    bytes: &'a [u8],
    lent: &'static [usize],
    /// The number of bytes that come at a time.
    batch: usize,
    taken: &'static [usize],
    manner: Manner,
    /// The number of bytes that were written, and the number of times that the port was asked for more.
    written: usize,
    asked: usize,
    state: PortState,
}

/// All twenty bytes come at once, and are written.
const ALL: Writing<'static> = Writing {
    name: "twenty bytes",
    bytes: BYTES,
    lent: &[4096, 1],
    batch: ROOM,
    taken: &[4096, 1],
    manner: AT_ONCE,
    written: 20,
    asked: 2,
    state: PortState::Stopped,
};

/// The bytes come in four batches, and the fifth call reports that there are no more.
const IN_BATCHES: Writing<'static> = Writing {
    batch: 6,
    asked: 5,
    ..ALL
};

/// Writes with one writer for one port, and returns whether the result is that of the row.
fn writes_once<X: Wait>(
    rt: &X,
    alloc: Global,
    row: &Writing<'_>,
    lent: usize,
    taken: usize,
) -> Result<bool, Fail> {
    let mut port = Lender::new(row.bytes, lent, row.batch);
    let manner = Manner {
        step: taken,
        ..row.manner
    };
    let mut writer = Receiver::new(alloc, manner)?;
    writer_had_it(rt, &mut writer, &mut port);
    Ok(
        writer.taken.as_slice() == front(row.bytes, row.written)
            && port.at == row.written
            && port.asked == row.asked
            && port.state == row.state,
    )
}

/// Writes with each writer of each row for each of the row's ports, and checks the result.
fn check_writes<X: Wait>(rt: &X, alloc: Global, rows: &[Writing<'_>]) -> Tested {
    for row in rows {
        for lent in row.lent {
            for taken in row.taken {
                check_named(row.name, writes_once(rt, alloc, row, *lent, *taken)?)?;
            }
        }
    }
    Ok(())
}

const WRITINGS: &[Writing<'static>] = &[
    ALL,
    Writing {
        name: "one byte",
        bytes: b"A",
        written: 1,
        ..ALL
    },
    Writing {
        name: "nothing to lend",
        bytes: b"",
        written: 0,
        asked: 1,
        ..ALL
    },
    Writing {
        name: "more is asked where nothing is lent",
        lent: &[4096, 4, 1],
        taken: &[5],
        ..IN_BATCHES
    },
    Writing {
        name: "interrupted writes and flushes are tried again",
        lent: &[9],
        taken: &[4096, 7, 1],
        manner: Manner {
            interrupts: true,
            interrupts_flushes: true,
            ..AT_ONCE
        },
        ..IN_BATCHES
    },
];

#[test]
fn what_is_lent_is_written(rt: HostRuntime) -> Tested {
    check_writes(&rt, rt.alloc(), WRITINGS)
}

#[test]
fn more_than_a_piece_is_written(rt: HostRuntime) -> Tested {
    let bytes = long_bytes(rt.alloc())?;
    let row = Writing {
        name: "more than a piece",
        bytes: bytes.as_slice(),
        written: ROOM,
        ..ALL
    };
    check_writes(&rt, rt.alloc(), &[row])
}

/// Checks that a writer that fails or takes no more after `count` bytes has written and reported those.
fn check_break<X: Wait>(rt: &X, alloc: Global, count: usize, behind: Option<ErrorKind>) -> Tested {
    let row = Writing {
        name: "a writer that fails",
        lent: &[9],
        manner: AT_ONCE.ending(count, behind),
        written: count,
        asked: (count / 6).saturating_add(1),
        state: PortState::Broke(behind.unwrap_or(ErrorKind::WriteZero)),
        ..IN_BATCHES
    };
    check_writes(rt, alloc, &[row])
}

#[test]
fn a_failing_write_is_a_break(rt: HostRuntime) -> Tested {
    for count in 0..20 {
        check_break(&rt, rt.alloc(), count, Some(ErrorKind::BrokenPipe))?;
        check_break(&rt, rt.alloc(), count, None)?;
    }
    Ok(())
}

/// The bytes come by four calls for more, and the fifth ends the loop. There is a flush before each of the five.
#[test]
fn a_failing_flush_is_a_break(rt: HostRuntime) -> Tested {
    for (flushes, written) in [(0, 0), (1, 6), (2, 12), (3, 18), (4, 20)] {
        let row = Writing {
            name: "a writer whose flush fails",
            manner: Manner {
                flushes,
                behind: Some(ErrorKind::StorageFull),
                ..AT_ONCE
            },
            written,
            asked: flushes,
            state: PortState::Broke(ErrorKind::StorageFull),
            ..IN_BATCHES
        };
        check_writes(&rt, rt.alloc(), &[row])?;
    }
    Ok(())
}
