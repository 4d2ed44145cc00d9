//! Writers that gather, under the loop that writes and alone: whole frames go out, in time, and nothing is lost.

use crate::tests::fakes::{BYTES, Lender};
use std::alloc::{AllocError, Global};
use std::cell::Cell;
use std::io::{self, ErrorKind};
use std::sync::Wait;
use std::test::Fail;
use ttrpc_bench::checks::{Tested, check, check_row};
use ttrpc_bench::{AT_ONCE, Manner, Receiver};
use ttrpc_proto::Sink;
use ttrpc_sync::{GATHER_LIMIT, Gather, PART_LIMIT, PortState, WritePort, write_loop};
use ttrpc_wire::values::slices::{behind, front};

/// A writer that lets all bytes through, and counts the bytes and the calls.
#[derive(Drop)]
struct Through {
    bytes: Cell<usize>,
    calls: Cell<usize>,
}

impl Through {
    fn none() -> Through {
        Through {
            bytes: Cell::new(0),
            calls: Cell::new(0),
        }
    }
}

impl Sink for &Through {
    fn write(&mut self, bytes: &[u8]) -> io::Result<usize> {
        let before = self.bytes.get();
        self.bytes.set(before.saturating_add(bytes.len()));
        let calls = self.calls.get();
        self.calls.set(calls.saturating_add(1));
        Ok(bytes.len())
    }

    fn flush(&mut self) -> io::Result<()> {
        Ok(())
    }
}

/// Writes with one loop for one port, through a writer that gathers. Returns whether each batch went through in one
/// call, and before the port was asked for more.
fn batch_goes_out_whole<X: Wait>(
    rt: &X,
    alloc: Global,
    lent: usize,
    batch: usize,
    calls: usize,
) -> Result<bool, Fail> {
    let through = Through::none();
    let mut port = Lender::new(BYTES, lent, batch);
    port.through = Some(&through.bytes);
    let mut writer = Gather::new(alloc, &through);
    write_loop(rt, &mut writer, &mut port);
    let is_through = port.state == PortState::Stopped
        && port.early == 0
        && through.bytes.get() == 20;
    if is_through && through.calls.get() != calls {
        return Err(AllocError.into());
    }
    Ok(is_through)
}

/// If memory is refused, the bytes go through uncut all the same, and the test ends with that error.
#[test]
fn what_was_written_is_there_before_more_is_asked(rt: HostRuntime) -> Tested {
    for lent in [1, 7, 4096] {
        for (batch, calls) in [(1, 20), (6, 4), (20, 1), (99, 1)] {
            let is_whole = batch_goes_out_whole(&rt, rt.alloc(), lent, batch, calls)?;
            check_row(batch, is_whole)?;
        }
    }
    Ok(())
}

/// Fails if another number of bytes is kept: then memory was refused.
fn check_kept<W>(gather: &Gather<W>, count: usize) -> Tested {
    if gather.kept().len() != count {
        return Err(AllocError.into());
    }
    Ok(())
}

/// Returns whether this number of calls went through, with this number of bytes.
fn went(through: &Through, calls: usize, bytes: usize) -> bool {
    through.calls.get() == calls && through.bytes.get() == bytes
}

/// Returns whether `pieces` pieces of 4096 bytes are taken.
fn takes(gather: &mut Gather<&Through>, pieces: u32) -> bool {
    let mut all = true;
    for _ in 0..pieces {
        all = all && matches!(gather.write(&[7; 4096]), Ok(4096));
    }
    all
}

/// Fails if bytes are kept after a flush.
fn check_flush(gather: &mut Gather<&Through>) -> Tested {
    check(gather.flush().is_ok())?;
    check_kept(gather, 0)
}

#[test]
fn a_frame_of_the_greatest_length_is_kept_whole(rt: HostRuntime) -> Tested {
    let through = Through::none();
    let mut gather = Gather::new(rt.alloc(), &through);
    check(takes(&mut gather, 1024) && matches!(gather.write(&[7; 10]), Ok(10)))?;
    check_kept(&gather, 4194314)?;
    let is_kept = through.calls.get() == 0;
    let is_taken = matches!(gather.write(b"A"), Ok(1));
    check(is_kept && is_taken && went(&through, 1, 4194314))?;
    check_flush(&mut gather)?;
    check(went(&through, 2, 4194315))
}

/// With a lower limit the front of a long frame leaves before its end is there. Eight pages fit into a part of 33,792
/// bytes, and the rest after the last page leaves with it.
#[test]
fn a_long_frame_leaves_in_parts(rt: HostRuntime) -> Tested {
    let through = Through::none();
    let mut gather = Gather::with_limit(rt.alloc(), &through, PART_LIMIT);
    check(takes(&mut gather, 16))?;
    check_kept(&gather, 32768)?;
    check(went(&through, 1, 32768) && matches!(gather.write(&[7; 1024]), Ok(1024)))?;
    check_kept(&gather, 33792)?;
    check_flush(&mut gather)?;
    check(went(&through, 2, 66560))
}

/// A write of more bytes than a frame may have goes through at once.
#[test]
fn more_than_a_frame_goes_through_at_once(rt: HostRuntime) -> Tested {
    let through = Through::none();
    let mut long = Vec::new(rt.alloc());
    long.resize(GATHER_LIMIT + 1, 7)?;
    let mut gather = Gather::new(rt.alloc(), &through);
    check(matches!(gather.write(b"A"), Ok(1)))?;
    check_kept(&gather, 1)?;
    let is_taken = matches!(gather.write(long.as_slice()), Ok(4194315));
    check(is_taken && went(&through, 2, 4194316))?;
    check_kept(&gather, 0)
}

/// Returns whether twenty bytes that are written in two parts are gathered.
fn gathers(gather: &mut Gather<Receiver>) -> Result<bool, Fail> {
    let first = gather.write(front(BYTES, 9));
    check_kept(gather, 9)?;
    let second = gather.write(&BYTES[9..]);
    check_kept(gather, 20)?;
    Ok(matches!(first, Ok(9)) && matches!(second, Ok(11)))
}

/// Writes twenty bytes in two parts, and flushes until that isn't interrupted. Returns whether the bytes that the
/// writer took and those that are kept are the twenty bytes.
fn nothing_is_lost(alloc: Global, manner: Manner, error: Option<ErrorKind>) -> Result<bool, Fail> {
    let mut gather = Gather::new(alloc, Receiver::new(alloc, manner)?);
    let are_gathered = gathers(&mut gather)?;
    let has_failed_so = flush_again(&mut gather) == error;
    let taken = gather.writer().taken.as_slice();
    Ok(
        are_gathered
            && has_failed_so
            && taken == front(BYTES, manner.room)
            && gather.kept() == behind(BYTES, manner.room),
    )
}

/// Flushes until that isn't interrupted, and returns how it failed.
fn flush_again(gather: &mut Gather<Receiver>) -> Option<ErrorKind> {
    for _ in 0..100 {
        match gather.flush() {
            Ok(()) => return None,
            Err(error) => {
                if error.kind() != ErrorKind::Interrupted {
                    return Some(error.kind());
                }
            }
        }
    }
    Some(ErrorKind::Interrupted)
}

#[test]
fn what_a_failing_writer_leaves_is_kept(rt: HostRuntime) -> Tested {
    let in_threes = Manner {
        step: 3,
        behind: Some(ErrorKind::BrokenPipe),
        interrupts: true,
        interrupts_flushes: true,
        ..AT_ONCE
    };
    for room in 0..20 {
        let ending = Manner { room, ..AT_ONCE };
        let ends = nothing_is_lost(rt.alloc(), ending, Some(ErrorKind::WriteZero))?;
        let failing = Manner { room, ..in_threes };
        let fails = nothing_is_lost(rt.alloc(), failing, Some(ErrorKind::BrokenPipe))?;
        check_row(room, ends && fails)?;
    }
    let at_once = nothing_is_lost(rt.alloc(), AT_ONCE, None)?;
    check(at_once && nothing_is_lost(rt.alloc(), in_threes, None)?)
}
