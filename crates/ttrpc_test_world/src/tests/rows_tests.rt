//! Scripts with their replies, over plain halves and over halves that stamp.
use crate::tests::plainly::{Finding, read_headline};
use crate::tests::script::Act::*;
use crate::tests::script::Said::*;
use crate::tests::script::{Over, Rows, Ways, first_fault, had_memory, run_script};
use std::alloc::Global;
use std::process::Abort;
use std::test::Fail;
use ttrpc_client::ClientKind;
use ttrpc_server::Rules;
use ttrpc_world::Entry;

pub type Tested = Result<(), Fail>;

/// Both kinds of client, to a server with sync rules.
#[rattlefmt::skip]
pub const SYNC: [Ways; 2] = [
    Ways { kind: ClientKind::Sync, rules: Rules::Sync },
    Ways { kind: ClientKind::Async, rules: Rules::Sync },
];

/// Both kinds of client, to a server with async rules.
#[rattlefmt::skip]
pub const ASYNC: [Ways; 2] = [
    Ways { kind: ClientKind::Sync, rules: Rules::Async },
    Ways { kind: ClientKind::Async, rules: Rules::Async },
];

/// Both kinds of client, to a server with either rules.
#[rattlefmt::skip]
pub const ALL: [Ways; 4] = [
    Ways { kind: ClientKind::Sync, rules: Rules::Sync },
    Ways { kind: ClientKind::Async, rules: Rules::Sync },
    Ways { kind: ClientKind::Sync, rules: Rules::Async },
    Ways { kind: ClientKind::Async, rules: Rules::Async },
];

/// The async client, to a server with sync rules and to one with async rules.
#[rattlefmt::skip]
const ASYNC_CLIENT: [Ways; 2] = [
    Ways { kind: ClientKind::Async, rules: Rules::Sync },
    Ways { kind: ClientKind::Async, rules: Rules::Async },
];

/// One call, carried and delivered whole. The request's frame has 30 bytes, the response's 15.
pub const ONE_CALL: Rows = &[
    (Call(b"\x2a", 0), Named(1)),
    (CarryUp(30), Count(30)),
    (DeliverUp(30), Count(30)),
    (Take, Job(1, 1, b"\x2a")),
    (Answer(1, b"\x2a"), Done),
    (CarryDown(15), Count(15)),
    (DeliverDown(15), Count(15)),
    (Outcome(1), Payload(b"\x2a")),
    (Take, NoJob),
    (CarryUp(1), Count(0)),
    (CarryDown(1), Count(0)),
    (DeliverUp(1), Count(0)),
    (DeliverDown(1), Count(0)),
];

/// The same, with a stamp of one byte on each frame.
pub const ONE_STAMPED_CALL: Rows = &[
    (Call(b"\x2a", 0), Named(1)),
    (CarryUp(64), Count(31)),
    (DeliverUp(64), Count(31)),
    (Take, Job(1, 1, b"\x2a")),
    (Answer(1, b"\x2a"), Done),
    (CarryDown(64), Count(16)),
    (DeliverDown(64), Count(16)),
    (Outcome(1), Payload(b"\x2a")),
    (Take, NoJob),
    (CarryUp(1), Count(0)),
    (CarryDown(1), Count(0)),
    (DeliverUp(1), Count(0)),
    (DeliverDown(1), Count(0)),
];

/// A response takes the place of an answer. A second response is no step, and neither is an answer, before and after
/// the job ends.
pub const ONE_RESPONSE: Rows = &[
    (Call(b"\x2a", 0), Named(1)),
    (CarryUp(30), Count(30)),
    (DeliverUp(30), Count(30)),
    (Take, Job(1, 1, b"\x2a")),
    (Respond(1, b"\x2a"), Done),
    (Respond(1, b"\x2a"), NoStep),
    (Finish(1), Done),
    (Answer(1, b"\x2a"), NoStep),
    (CarryDown(15), Count(15)),
    (DeliverDown(15), Count(15)),
    (Outcome(1), Payload(b"\x2a")),
    (Take, NoJob),
    (CarryUp(1), Count(0)),
    (CarryDown(1), Count(0)),
    (DeliverUp(1), Count(0)),
    (DeliverDown(1), Count(0)),
];

/// The same with stamps. The job goes on until its call has its outcome.
const ONE_STAMPED_RESPONSE: Rows = &[
    (Call(b"\x2a", 0), Named(1)),
    (CarryUp(64), Count(31)),
    (DeliverUp(64), Count(31)),
    (Respond(1, b"\x2a"), NoStep),
    (Finish(1), NoStep),
    (Take, Job(1, 1, b"\x2a")),
    (Respond(1, b"\x2a"), Done),
    (CarryDown(64), Count(16)),
    (DeliverDown(64), Count(16)),
    (Answer(1, b"\x2b"), NoStep),
    (Break(1), NoStep),
    (Outcome(1), Payload(b"\x2a")),
    (Finish(1), Done),
    (Finish(1), NoStep),
    (CarryDown(1), Count(0)),
    (Outcome(1), Waits),
];

/// A job that ends without a response leaves its call without an outcome.
const NO_RESPONSE: Rows = &[
    (Call(b"\x2a", 0), Named(1)),
    (CarryUp(30), Count(30)),
    (DeliverUp(30), Count(30)),
    (Take, Job(1, 1, b"\x2a")),
    (Finish(1), Done),
    (Respond(1, b"\x2a"), NoStep),
    (Answer(1, b"\x2a"), NoStep),
    (CarryDown(64), Count(0)),
    (Outcome(1), Waits),
    (FailServer, Done),
    (Respond(1, b"\x2a"), Socket("failed")),
    (Finish(1), Socket("failed")),
];

/// The pipe to the server is cut inside the request's frame.
const CUT_INSIDE: Rows = &[
    (Call(b"\x2a", 0), Named(1)),
    (CarryUp(64), Count(30)),
    (CutUp(12), Done),
    (DeliverUp(30), Count(12)),
    (Take, NoJob),
    (DeliverUp(1), Socket("socket disconnected inside a frame")),
];

/// The pipe is cut before any bytes are in flight, and bytes that are carried later are lost.
const CUT_BEFORE: Rows = &[
    (CutUp(0), Done),
    (DeliverUp(1), Socket("socket disconnected")),
    (Call(b"\x2a", 0), Named(1)),
    (CarryUp(20), Count(20)),
    (CutDown(5), Done),
    (Outcome(1), Socket("socket disconnected")),
    (Outcome(1), Waits),
];

/// A call expires while its job runs. Its answer finds no call, and the next call gets its own answer.
const LATE_ANSWER: Rows = &[
    (Call(b"\x2a", 10), Named(1)),
    (CarryUp(4096), Count(32)),
    (DeliverUp(4096), Count(32)),
    (Take, Job(1, 1, b"\x2a")),
    (Tick(9), Done),
    (Outcome(1), Waits),
    (Tick(10), Done),
    (Outcome(1), Others("Request deadline elapsed")),
    (Answer(1, b"\x2a"), Done),
    (CarryDown(4096), Count(15)),
    (DeliverDown(4096), Count(15)),
    (Outcome(1), Waits),
    (Call(b"\x2b", 0), Named(3)),
    (CarryUp(4096), Count(30)),
    (DeliverUp(4096), Count(30)),
    (Take, Job(2, 3, b"\x2b")),
    (Answer(2, b"\x2b"), Done),
    (CarryDown(4096), Count(15)),
    (DeliverDown(4096), Count(15)),
    (Outcome(3), Payload(b"\x2b")),
];

/// The same with stamps.
const LATE_STAMPED_ANSWER: Rows = &[
    (Call(b"\x2a", 10), Named(1)),
    (CarryUp(4096), Count(33)),
    (DeliverUp(4096), Count(33)),
    (Take, Job(1, 1, b"\x2a")),
    (Tick(10), Done),
    (Outcome(1), Others("Request deadline elapsed")),
    (Answer(1, b"\x2a"), Done),
    (CarryDown(4096), Count(16)),
    (DeliverDown(4096), Count(16)),
    (Outcome(1), Waits),
    (Call(b"\x2b", 0), Named(3)),
    (CarryUp(4096), Count(31)),
    (DeliverUp(4096), Count(31)),
    (Take, Job(2, 3, b"\x2b")),
    (Answer(2, b"\x2b"), Done),
    (CarryDown(4096), Count(16)),
    (DeliverDown(4096), Count(16)),
    (Outcome(3), Payload(b"\x2b")),
];

/// A request of 34 bytes expires after 12 of them have left, and the connection fails.
#[rattlefmt::skip]
const EXPIRES_INSIDE: Rows = &[
    (Call(b"\x01\x02\x03", 10), Named(1)),
    (CarryUp(12), Count(12)),
    (Tick(10), Done),
    (Outcome(1), Others("Request deadline elapsed")),
    (Call(b"\x2a", 0), Socket("connection closed after a request deadline elapsed during write")),
    (CarryUp(64), Count(0)),
    (DeliverUp(64), Count(12)),
];

/// A request that is sealed goes out whole, and the connection lives.
const SEALED_EXPIRES_INSIDE: Rows = &[
    (Call(b"\x01\x02\x03", 10), Named(1)),
    (CarryUp(12), Count(12)),
    (Tick(10), Done),
    (Outcome(1), Others("Request deadline elapsed")),
    (CarryUp(64), Count(23)),
    (DeliverUp(64), Count(35)),
    (Take, Job(1, 1, b"\x01\x02\x03")),
    (Call(b"\x2a", 0), Named(3)),
];

/// A request that hasn't begun is thrown away with its call, and never runs.
const DROPPED_BEFORE: Rows = &[
    (Call(b"\x2a", 0), Named(1)),
    (Call(b"\x2b", 0), Named(3)),
    (DropCall(1), Done),
    (CarryUp(64), Count(30)),
    (CarryUp(64), Count(0)),
    (DeliverUp(64), Count(30)),
    (Take, Job(1, 3, b"\x2b")),
    (Outcome(1), Waits),
];

/// An event that can't happen is no step, and a handler's error fails the server.
#[rattlefmt::skip]
const NO_STEPS: Rows = &[
    (Answer(1, b"\x2a"), NoStep),
    (Tick(5), Done),
    (Tick(4), NoStep),
    (Call(b"\x2a", 0), Named(1)),
    (CarryUp(64), Count(30)),
    (DeliverUp(64), Count(30)),
    (Answer(1, b"\x2a"), NoStep),
    (Take, Job(1, 1, b"\x2a")),
    (Break(1), Done),
    (Answer(1, b"\x2a"), Socket("connection closed after a handler error")),
    (DeliverUp(1), Socket("connection closed after a handler error")),
];

/// Sides that are failed.
const FAILED: Rows = &[
    (Call(b"\x2a", 0), Named(1)),
    (FailClient, Done),
    (CarryUp(64), Count(0)),
    (Call(b"\x2a", 0), Socket("failed")),
    (Outcome(1), Socket("failed")),
    (FailServer, Done),
    (Take, NoJob),
    (DeliverUp(1), Socket("failed")),
    (DeliverDown(1), Socket("failed")),
];

/// A call's deadline comes while its job runs. Both sides give the call up, and the next call gets its own answer.
const JOB_EXPIRES: Rows = &[
    (Call(b"\x2a", 10), Named(1)),
    (CarryUp(4096), Count(32)),
    (DeliverUp(4096), Count(32)),
    (Take, Job(1, 1, b"\x2a")),
    (Tick(10), Done),
    (Outcome(1), Others("Request deadline elapsed")),
    (Answer(1, b"\x2a"), NoStep),
    (CarryDown(4096), Count(23)),
    (DeliverDown(4096), Count(23)),
    (Outcome(1), Waits),
    (Call(b"\x2b", 0), Named(3)),
    (CarryUp(4096), Count(30)),
    (DeliverUp(4096), Count(30)),
    (Take, Job(2, 3, b"\x2b")),
    (Answer(2, b"\x2b"), Done),
    (CarryDown(4096), Count(15)),
    (DeliverDown(4096), Count(15)),
    (Outcome(3), Payload(b"\x2b")),
];

/// The same with stamps.
const STAMPED_JOB_EXPIRES: Rows = &[
    (Call(b"\x2a", 10), Named(1)),
    (CarryUp(4096), Count(33)),
    (DeliverUp(4096), Count(33)),
    (Take, Job(1, 1, b"\x2a")),
    (Tick(10), Done),
    (Outcome(1), Others("Request deadline elapsed")),
    (Answer(1, b"\x2a"), NoStep),
    (CarryDown(4096), Count(24)),
    (DeliverDown(4096), Count(24)),
    (Outcome(1), Waits),
    (Call(b"\x2b", 0), Named(3)),
    (CarryUp(4096), Count(31)),
    (DeliverUp(4096), Count(31)),
    (Take, Job(2, 3, b"\x2b")),
    (Answer(2, b"\x2b"), Done),
    (CarryDown(4096), Count(16)),
    (DeliverDown(4096), Count(16)),
    (Outcome(3), Payload(b"\x2b")),
];

/// A job that expires before it is handed out never is. The client gets no tick of its own in between.
const UNTAKEN_EXPIRES: Rows = &[
    (Call(b"\x2a", 10), Named(1)),
    (CarryUp(4096), Count(32)),
    (DeliverUp(4096), Count(32)),
    (Tick(10), Done),
    (Take, NoJob),
    (CarryDown(4096), Count(23)),
    (DeliverDown(4096), Count(23)),
    (Outcome(1), Others("Request deadline elapsed")),
];

/// Events of async rules are no step under sync rules, and neither is the receiving of an item at a failed side.
const SYNC_NO_STEPS: Rows = &[
    (RecvUp(1), NoStep),
    (SendDown(1, b"a"), NoStep),
    (DropReceiverUp(1), NoStep),
    (End(1), NoStep),
    (Respond(1, b"\x2a"), NoStep),
    (Finish(1), NoStep),
    (Call(b"\x2a", 0), Named(1)),
    (CarryUp(64), Count(30)),
    (DeliverUp(64), Count(30)),
    (Take, Job(1, 1, b"\x2a")),
    (RecvUp(1), NoStep),
    (SendDown(1, b"a"), NoStep),
    (DropReceiverUp(1), NoStep),
    (EndWith(1, b"\x2a"), NoStep),
    (FailServer, Done),
    (RecvUp(1), NoStep),
    (DropReceiverUp(1), NoStep),
    (SendDown(1, b"a"), Socket("failed")),
    (End(1), Socket("failed")),
];

/// Events of sync rules are no step under async rules, and neither is the end of a stream's job that wasn't taken.
const ASYNC_NO_STEPS: Rows = &[
    (Respond(1, b"\x2a"), NoStep),
    (Finish(1), NoStep),
    (End(1), NoStep),
    (Answer(1, b"\x2a"), NoStep),
    (Call(b"\x2a", 0), Named(1)),
    (CarryUp(64), Count(30)),
    (DeliverUp(64), Count(30)),
    (Answer(1, b"\x2a"), NoStep),
    (End(1), NoStep),
    (Take, Job(1, 1, b"\x2a")),
    (Respond(1, b"\x2a"), NoStep),
    (Finish(1), NoStep),
    (End(1), Others("unknown job")),
    (Break(1), Done),
    (Answer(1, b"\x2a"), NoStep),
    (CarryDown(64), Count(19)),
    (DeliverDown(64), Count(19)),
    (Outcome(1), Status(2, "eof")),
    (FailServer, Done),
    (Respond(1, b"\x2a"), Socket("failed")),
    (Finish(1), Socket("failed")),
    (End(1), Socket("failed")),
    (Answer(1, b"\x2a"), Socket("failed")),
];

/// A server that drains takes none of the bytes in its pipe, and answers the requests that it has taken.
const DRAINED: Rows = &[
    (Call(b"\x2a", 0), Named(1)),
    (Call(b"\x2b", 0), Named(3)),
    (CarryUp(64), Count(30)),
    (DeliverUp(64), Count(30)),
    (CarryUp(64), Count(30)),
    (Drain, Done),
    (DeliverUp(64), Count(0)),
    (Take, Job(1, 1, b"\x2a")),
    (Take, NoJob),
    (Answer(1, b"\x2a"), Done),
    (CarryDown(64), Count(15)),
    (DeliverDown(64), Count(15)),
    (Outcome(1), Payload(b"\x2a")),
    (Outcome(3), Waits),
    (CutUp(0), Done),
    (DeliverUp(1), Socket("socket disconnected")),
];

// ---- tables of scripts

/// Scripts, each with the halves that it runs over, and the ways that each is run in.
pub type Table = (&'static [Ways], &'static [Script]);

/// A script and its halves. Its rows follow one another.
pub type Script = (Over, &'static [Rows]);

/// Checks that this is found in the trace.
pub fn has_finding(rt: &impl Abort, trace: &[Entry], finding: Finding) {
    assert!(rt; read_headline(trace) == finding);
}

/// Checks that each reply is the one of the script.
pub fn has_replies(rt: &impl Abort, trace: &[Entry], script: &[Rows]) {
    assert_eq!(rt; first_fault(trace, script), None);
}

/// Returns whether the headline holds for the trace.
fn is_whole(trace: &[Entry]) -> bool {
    matches!(read_headline(trace), Finding::Whole(_))
}

/// Checks that the headline holds for the trace, and that each reply is the one of the script.
fn is_told(rt: &impl Abort, trace: &[Entry], script: &[Rows]) -> Tested {
    assert!(rt; is_whole(trace));
    had_memory(trace)?;
    has_replies(rt, trace, script);
    Ok(())
}

pub fn is_told_so(rt: &impl Abort, alloc: Global, ways: Ways, script: &Script) -> Tested {
    let (over, rows) = *script;
    let trace = run_script(alloc, over, ways, rows)?;
    is_told(rt, trace.as_slice(), rows)
}

fn are_told_so(rt: &impl Abort, alloc: Global, ways: Ways, scripts: &[Script]) -> Tested {
    for script in scripts {
        is_told_so(rt, alloc, ways, script)?;
    }
    Ok(())
}

fn is_told_in_all(rt: &impl Abort, alloc: Global, table: &Table) -> Tested {
    let (all, scripts) = *table;
    for ways in all {
        are_told_so(rt, alloc, *ways, scripts)?;
    }
    Ok(())
}

/// Checks the replies of each script of these tables, in each way.
pub fn are_told(rt: &impl Abort, alloc: Global, tables: &[Table]) -> Tested {
    for table in tables {
        is_told_in_all(rt, alloc, table)?;
    }
    Ok(())
}

const CALLS: &[Script] = &[
    (Over::Plain, &[ONE_CALL]),
    (Over::Stamps, &[ONE_STAMPED_CALL]),
];

#[test]
fn a_call_is_answered(rt: HostRuntime) -> Tested {
    are_told(&rt, rt.alloc(), &[(&ALL, CALLS)])
}

const RESPONSES: &[Script] = &[
    (Over::Plain, &[ONE_RESPONSE]),
    (Over::Stamps, &[ONE_STAMPED_RESPONSE]),
    (Over::Plain, &[NO_RESPONSE]),
];

#[test]
fn a_response_stands_for_an_answer(rt: HostRuntime) -> Tested {
    are_told(&rt, rt.alloc(), &[(&SYNC, RESPONSES)])
}

const CUTS: &[Script] = &[(Over::Plain, &[CUT_INSIDE]), (Over::Plain, &[CUT_BEFORE])];

#[test]
fn pipes_are_cut(rt: HostRuntime) -> Tested {
    are_told(&rt, rt.alloc(), &[(&ALL, CUTS)])
}

const LATE_ANSWERS: &[Script] = &[
    (Over::Plain, &[LATE_ANSWER]),
    (Over::Stamps, &[LATE_STAMPED_ANSWER]),
];

#[test]
fn a_late_answer_finds_no_call(rt: HostRuntime) -> Tested {
    are_told(&rt, rt.alloc(), &[(&SYNC, LATE_ANSWERS)])
}

const EXPIRED_JOBS: &[Script] = &[
    (Over::Plain, &[JOB_EXPIRES]),
    (Over::Stamps, &[STAMPED_JOB_EXPIRES]),
    (Over::Plain, &[UNTAKEN_EXPIRES]),
];

#[test]
fn a_job_expires(rt: HostRuntime) -> Tested {
    are_told(&rt, rt.alloc(), &[(&ASYNC, EXPIRED_JOBS)])
}

const EXPIRED_REQUESTS: &[Script] = &[(Over::Plain, &[EXPIRES_INSIDE])];

const SEALED_REQUESTS: &[Script] = &[(Over::Stamps, &[SEALED_EXPIRES_INSIDE])];

const EXPIRED_TABLES: &[Table] = &[(&ASYNC_CLIENT, EXPIRED_REQUESTS), (&ALL, SEALED_REQUESTS)];

#[test]
fn a_request_expires_inside_its_frame(rt: HostRuntime) -> Tested {
    are_told(&rt, rt.alloc(), EXPIRED_TABLES)
}

const DROPPED: &[Script] = &[(Over::Plain, &[DROPPED_BEFORE])];

#[test]
fn a_request_that_has_not_begun_is_thrown_away(rt: HostRuntime) -> Tested {
    are_told(&rt, rt.alloc(), &[(&ASYNC_CLIENT, DROPPED)])
}

#[rattlefmt::skip]
const NO_STEP_TABLES: &[Table] = &[
    (&SYNC, &[(Over::Plain, &[NO_STEPS]), (Over::Plain, &[SYNC_NO_STEPS])]),
    (&ASYNC, &[(Over::Plain, &[ASYNC_NO_STEPS])]),
    (&ALL, &[(Over::Plain, &[FAILED])]),
];

#[test]
fn what_cannot_happen_is_no_step(rt: HostRuntime) -> Tested {
    are_told(&rt, rt.alloc(), NO_STEP_TABLES)
}

const DRAINS: &[Script] = &[(Over::Plain, &[DRAINED])];

#[test]
fn a_server_drains(rt: HostRuntime) -> Tested {
    are_told(&rt, rt.alloc(), &[(&ALL, DRAINS)])
}

/// A server with a full queue refuses an answer. It takes no request until the longest frame has room.
const FULL_QUEUE: Rows = &[
    (Call(b"\x2a", 0), Named(1)),
    (Call(b"\x2b", 0), Named(3)),
    (Call(b"\x2c", 0), Named(5)),
    (CarryUp(30), Count(30)),
    (CarryUp(30), Count(30)),
    (CarryUp(30), Count(30)),
    (DeliverUp(90), Count(90)),
    (Take, Job(1, 1, b"\x2a")),
    (Take, Job(2, 3, b"\x2b")),
    (Take, Job(3, 5, b"\x2c")),
    (AnswerSevens(1, 4194297), Done),
    (AnswerSevens(2, 4194297), Done),
    (Answer(3, b"\x2c"), NoRoom),
    (Call(b"\x2d", 0), Named(7)),
    (CarryUp(30), Count(30)),
    (DeliverUp(30), Count(0)),
    (CarryDown(4194313), Count(4194313)),
    (DeliverUp(30), Count(0)),
    (CarryDown(1), Count(1)),
    (DeliverUp(30), Count(30)),
    (Take, Job(4, 7, b"\x2d")),
    (Answer(3, b"\x2c"), Done),
    (CarryDown(4194314), Count(4194314)),
    (CarryDown(64), Count(15)),
];

const FULL_QUEUES: &[Script] = &[(Over::Plain, &[FULL_QUEUE])];

#[test]
fn a_full_queue_refuses_until_a_frame_has_left(rt: HostRuntime) -> Tested {
    are_told(&rt, rt.alloc(), &[(&SYNC, FULL_QUEUES)])
}

/// A call with bytes that are carried and delivered one by one, with one try more than there are bytes.
const BYTE_BY_BYTE: Rows = &[
    (Call(b"\x2a", 0), Named(1)),
    (BytesUp(30), Count(1)),
    (BytesUp(1), Count(0)),
    (Take, Job(1, 1, b"\x2a")),
    (Answer(1, b"\x2a"), Done),
    (BytesDown(15), Count(1)),
    (BytesDown(1), Count(0)),
    (Outcome(1), Payload(b"\x2a")),
];

/// The same with stamps, with exactly as many tries as there are bytes.
const STAMPED_BYTE_BY_BYTE: Rows = &[
    (Call(b"\x2a", 0), Named(1)),
    (BytesUp(31), Count(1)),
    (Take, Job(1, 1, b"\x2a")),
    (Answer(1, b"\x2a"), Done),
    (BytesDown(16), Count(1)),
    (Outcome(1), Payload(b"\x2a")),
];

const BYTES: &[Script] = &[
    (Over::Plain, &[BYTE_BY_BYTE]),
    (Over::Stamps, &[STAMPED_BYTE_BY_BYTE]),
];

/// Checks that one call was answered.
fn ends_well(rt: &impl Abort, trace: &[Entry]) -> Tested {
    had_memory(trace)?;
    has_finding(rt, trace, Finding::Whole(1));
    Ok(())
}

/// Checks that a script answers one call, and that each reply is as expected.
fn answers_one(rt: &impl Abort, alloc: Global, ways: Ways, script: &Script) -> Tested {
    let (over, rows) = *script;
    let trace = run_script(alloc, over, ways, rows)?;
    ends_well(rt, trace.as_slice())?;
    is_told(rt, trace.as_slice(), rows)
}

fn each_answers_one(rt: &impl Abort, alloc: Global, ways: Ways) -> Tested {
    for script in BYTES {
        answers_one(rt, alloc, ways, script)?;
    }
    Ok(())
}

#[test]
fn a_call_is_answered_byte_by_byte(rt: HostRuntime) -> Tested {
    each_answers_one(&rt, rt.alloc(), SYNC[0])?;
    each_answers_one(&rt, rt.alloc(), ASYNC[1])
}

const WHOLE: &[Script] = &[(Over::Plain, &[ONE_CALL])];

/// `tools/refuse-memory --named` refuses each allocation of this test.
#[test]
fn refused_memory_is_named_by_a_call(rt: HostRuntime) -> Tested {
    is_told_so(&rt, rt.alloc(), SYNC[0], &WHOLE[0])
}
