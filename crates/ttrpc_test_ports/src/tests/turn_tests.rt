//! Turns, and the port of a writer that has no turn.
use crate::tests::ends::{Tested, calling_client, client_failure, is_socket};
use std::io::{self, ErrorKind};
use ttrpc_sync::{ConnectionLock, Next, WritePort, WriteTurn};
use ttrpc_sync_client::{CallShape, ClientWrite, ReadTurn, ReaderNext};
use ttrpc_test_cores::server::ASKED;
use ttrpc_wire::values::slices::{behind, front};

/// Returns whether a new turn goes from one thread to another, and the sleeping thread is woken once.
fn is_taken_by_one(turn: &mut WriteTurn) -> bool {
    !turn.wakes()
        && turn.take()
        && !turn.take()
        && turn.next(false, true, true) == Next::Sleeps
        && !turn.wakes()
        && turn.next(true, true, true) == Next::Writes
        && turn.next(true, false, false) == Next::Leaves
        && turn.wakes()
        && !turn.wakes()
        && turn.next(false, false, true) == Next::Writes
}

/// One thread at a time has the turn, and the sleeping thread is woken once.
#[test]
fn one_thread_has_the_turn(rt: HostRuntime) -> Tested {
    assert!(rt; is_taken_by_one(&mut WriteTurn::new()));
    Ok(())
}

/// Returns whether a new turn that is given back wakes the thread that sleeps, once, and only if bytes wait.
fn wakes_as_it_is_left(turn: &mut WriteTurn) -> bool {
    turn.take()
        && !turn.give_back(true)
        && turn.take()
        && turn.next(false, true, true) == Next::Sleeps
        && !turn.give_back(false)
        && turn.take()
        && turn.give_back(true)
        && turn.take()
        && !turn.give_back(true)
        && !turn.is_taken
}

/// A thread that gives the turn back wakes the sleeping thread, once, and only if bytes wait.
#[test]
fn who_leaves_wakes_the_writer(rt: HostRuntime) -> Tested {
    assert!(rt; wakes_as_it_is_left(&mut WriteTurn::new()));
    Ok(())
}

/// A call that is short and never expires.
const SHORT: CallShape = CallShape {
    has_deadline: false,
    is_next: true,
    is_short: true,
};

/// A call that may expire, and a long one.
const LIMITED: CallShape = CallShape {
    has_deadline: true,
    ..SHORT
};

const LONG: CallShape = CallShape {
    is_short: false,
    ..SHORT
};

/// A call with other frames before its own.
const BEHIND: CallShape = CallShape {
    is_next: false,
    ..SHORT
};

/// Ends the call, which was answered or not.
fn end(turn: &mut ReadTurn, call: u32, is_answered: bool) {
    turn.end_call(call);
    turn.finish_call(call, is_answered);
}

/// Begins a call that is then answered. Returns whether it isn't alone.
fn is_not_alone(turn: &mut ReadTurn, call: u32, shape: CallShape) -> bool {
    let is_alone = turn.begin_call(call, shape);
    end(turn, call, true);
    !is_alone
}

/// Returns whether one caller takes the turn, alone, and neither another caller nor the thread takes it meanwhile.
fn is_read_by_one(turn: &mut ReadTurn) -> bool {
    !turn.wakes()
        && turn.begin_call(1, SHORT)
        && turn.take(1)
        && !turn.take(1)
        && !turn.thread_takes()
        && !turn.begin_call(3, SHORT)
        && !turn.wakes()
        && turn.reader_next() == ReaderNext::Reads
}

/// Returns whether the caller hands the turn over after its call has ended, and the thread reads on.
fn is_handed_over(turn: &mut ReadTurn) -> bool {
    turn.end_call(1);
    let hands_over = !turn.take(1) && turn.reader_next() == ReaderNext::HandsOver;
    turn.finish_call(1, true);
    let takes = turn.thread_takes();
    turn.end_call(3);
    let reads = turn.reader_next() == ReaderNext::Reads;
    turn.finish_call(3, true);
    hands_over && takes && reads
}

/// One thread at a time reads. Callers that are alone read for themselves. For the others the thread is woken once.
#[test]
fn one_thread_reads(rt: HostRuntime) -> Tested {
    let mut turn = ReadTurn::new();
    assert!(rt; is_read_by_one(&mut turn) && is_handed_over(&mut turn));
    Ok(())
}

/// Returns whether the thread reads on before a call and while it is running. The call is answered.
fn is_read_beside(turn: &mut ReadTurn, call: u32) -> bool {
    let reads = turn.reader_next() == ReaderNext::Reads
        && turn.begin_call(call, SHORT)
        && turn.reader_next() == ReaderNext::Reads;
    end(turn, call, true);
    reads
}

/// Returns whether the thread leaves the turn to the next caller, and goes on to rest after that call.
fn rests(turn: &mut ReadTurn) -> bool {
    let leaves = turn.reader_next() == ReaderNext::Leaves
        && !turn.thread_takes()
        && turn.begin_call(99, SHORT)
        && turn.take(99);
    turn.end_call(99);
    leaves && turn.reader_next() == ReaderNext::Leaves
}

/// The thread rests after eight calls in a row that were alone, and not before the last one has ended.
#[test]
fn the_reader_rests_behind_lone_calls(rt: HostRuntime) -> Tested {
    let mut turn = ReadTurn::new();
    assert!(rt; is_not_alone(&mut turn, 1, LIMITED) && turn.thread_takes());
    for call in 0..8 {
        assert!(rt; is_read_beside(&mut turn, call));
    }
    assert!(rt; rests(&mut turn));
    Ok(())
}

/// Returns whether a call is alone after a long one that was answered, and not after one that wasn't.
fn is_alone_once_answered(turn: &mut ReadTurn) -> bool {
    let after_a_long_one = is_not_alone(turn, 1, LONG) && turn.begin_call(3, SHORT);
    end(turn, 3, false);
    after_a_long_one && is_not_alone(turn, 5, SHORT) && turn.begin_call(7, SHORT)
}

/// A long call isn't alone, and neither is a call after one that the peer hasn't answered: the peer may not have read
/// that one. The caller still writes its request, unless it has a timeout, or other frames wait before it.
#[test]
fn a_call_that_may_wait_is_not_alone(rt: HostRuntime) -> Tested {
    assert!(rt; LONG.may_write() && !LIMITED.may_write() && !BEHIND.may_write());
    assert!(rt; is_alone_once_answered(&mut ReadTurn::new()));
    Ok(())
}

/// Without the turn nothing is lent. With it a report is made at the next loan. Each assertion has the result that the
/// next call needs.
// Should fail if a writer's port reports nothing.
#[test]
fn a_writer_waits_for_its_turn(rt: HostRuntime) -> Tested {
    let shared = calling_client(&rt, rt.alloc())?;
    let mut port = ClientWrite::staying(&rt, &*shared);
    let mut buffer = [0; 64];
    port.begin();
    assert_eq!(rt; port.lend(&mut buffer), 0);
    assert!(rt; port.more());
    assert_eq!(rt; port.lend(&mut buffer), 30);
    assert!(rt; front(&buffer, 30) == ASKED);
    port.wrote(12);
    assert_eq!(rt; port.lend(&mut buffer), 18);
    assert!(rt; front(&buffer, 18) == behind(ASKED, 12));
    Ok(())
}

/// A writer that broke fails the connection, and then a port wants no more.
#[test]
fn a_broken_writer_fails_the_client(rt: HostRuntime) -> Tested {
    let shared = calling_client(&rt, rt.alloc())?;
    let mut port = ClientWrite::staying(&rt, &*shared);
    port.begin();
    port.broke(io::Error::from(ErrorKind::BrokenPipe));
    let failure = client_failure(&rt, rt.alloc(), &shared);
    let is_told = is_socket(&failure, "broken pipe");
    port.begin();
    let mut buffer = [0; 64];
    assert!(rt; is_told && port.lend(&mut buffer) == 0 && !port.more());
    Ok(())
}
