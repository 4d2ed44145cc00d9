//! Runs that are clean, quiet and whole, runs about which nothing is said, and traces from which something is kept
//! back.

use crate::tests::lists::{Counts, Order};
use crate::tests::lists_tests::has_order;
use crate::tests::made::reply_of;
use crate::tests::rows_tests::{
    ALL as ALL_WAYS, ASYNC, ONE_CALL, ONE_RESPONSE, ONE_STAMPED_CALL, SYNC, Tested, has_replies,
};
use crate::tests::script::Act::{self, *};
use crate::tests::script::Said::{self, *};
use crate::tests::script::{Over, Rows, Ways, had_memory, run_script};
use crate::tests::streams_tests::{MOVED, QUEUED, RECEIVED, STAMPED_MOVED};
use crate::tests::told::{Terms, terms_of};
use crate::tests::whole::{Rest, is_clean, is_quiet, read_rest};
use std::alloc::Global;
use std::mem;
use std::process::Abort;
use std::test::Fail;
use ttrpc_world::{Entry, Reply, Trace};

/// Enough bytes for any frame here but the longest.
const ALL: usize = 4096;

/// No more bytes are there to be moved.
const AT_REST: Rows = &[
    (CarryUp(1), Count(0)),
    (CarryDown(1), Count(0)),
    (DeliverUp(1), Count(0)),
    (DeliverDown(1), Count(0)),
];

/// The same, in another order.
const AT_REST_TOO: Rows = &[
    (CarryDown(9), Count(0)),
    (CarryUp(8), Count(0)),
    (DeliverDown(7), Count(0)),
    (DeliverUp(6), Count(0)),
];

/// A call is answered.
const ANSWERED: Rows = &[
    (Call(b"\x2a", 0), Named(1)),
    (CarryUp(ALL), Moved),
    (DeliverUp(ALL), Moved),
    (Take, Job(1, 1, b"\x2a")),
    (Take, NoJob),
    (Answer(1, b"\x2b"), Done),
    (CarryDown(ALL), Moved),
    (DeliverDown(ALL), Moved),
    (Outcome(1), Payload(b"\x2b")),
];

/// The same, without the last take.
const UNTAKEN: Rows = &[
    (Call(b"\x2a", 0), Named(1)),
    (CarryUp(ALL), Moved),
    (DeliverUp(ALL), Moved),
    (Take, Job(1, 1, b"\x2a")),
    (Answer(1, b"\x2b"), Done),
    (CarryDown(ALL), Moved),
    (DeliverDown(ALL), Moved),
    (Outcome(1), Payload(b"\x2b")),
];

/// The same, without an answer, too.
const UNANSWERED: Rows = &[
    (Call(b"\x2a", 0), Named(1)),
    (CarryUp(ALL), Moved),
    (DeliverUp(ALL), Moved),
    (Take, Job(1, 1, b"\x2a")),
    (Take, NoJob),
];

/// A call is answered with a response, under sync rules.
const RESPONDED: Rows = &[
    (Call(b"\x2a", 0), Named(1)),
    (CarryUp(ALL), Moved),
    (DeliverUp(ALL), Moved),
    (Take, Job(1, 1, b"\x2a")),
    (Respond(1, b"\x2a"), Done),
    (Respond(1, b"\x2a"), NoStep),
    (Finish(1), Done),
    (Answer(1, b"\x2a"), NoStep),
    (CarryDown(ALL), Moved),
    (DeliverDown(ALL), Moved),
    (Outcome(1), Payload(b"\x2a")),
    (Take, NoJob),
];

/// The outcome is requested before it is there, and not again: nothing is said about the call.
const ASKED_EARLY: Rows = &[
    (Call(b"\x2a", 0), Named(1)),
    (CarryUp(ALL), Moved),
    (DeliverUp(ALL), Moved),
    (Take, Job(1, 1, b"\x2a")),
    (Take, NoJob),
    (Answer(1, b"\x2b"), Done),
    (CarryDown(ALL), Moved),
    (Outcome(1), Waits),
    (DeliverDown(ALL), Moved),
];

/// A handler returns an error.
const BROKEN_HANDLER: Rows = &[
    (Call(b"\x2a", 0), Named(1)),
    (CarryUp(ALL), Moved),
    (DeliverUp(ALL), Moved),
    (Take, Job(1, 1, b"\x2a")),
    (Take, NoJob),
    (Break(1), Done),
    (CarryDown(ALL), Moved),
    (DeliverDown(ALL), Moved),
    (Outcome(1), Status(2, "eof")),
];

/// A timeout is kept, and passes after the outcome was given. A timeout of -1 isn't reached.
const KEPT_TIMEOUT: Rows = &[
    (Call(b"\x2a", 10), Named(1)),
    (Call(b"\x2c", -1), Named(3)),
    (Tick(4), Done),
    (CarryUp(ALL), Moved),
    (CarryUp(ALL), Moved),
    (DeliverUp(ALL), Moved),
    (Take, Job(1, 1, b"\x2a")),
    (Take, Job(2, 3, b"\x2c")),
    (Take, NoJob),
    (Tick(9), Done),
    (Answer(1, b"\x2b"), Done),
    (CarryDown(ALL), Moved),
    (DeliverDown(ALL), Moved),
    (Outcome(1), Payload(b"\x2b")),
    (Tick(40), Done),
    (Answer(2, b"\x2d"), Done),
    (CarryDown(ALL), Moved),
    (DeliverDown(ALL), Moved),
    (Outcome(3), Payload(b"\x2d")),
];

/// A timeout passes before the outcome is requested: nothing is said about the run, though the outcome had come.
const LATE: Rows = &[
    (Call(b"\x2a", 10), Named(1)),
    (CarryUp(ALL), Moved),
    (DeliverUp(ALL), Moved),
    (Take, Job(1, 1, b"\x2a")),
    (Take, NoJob),
    (Answer(1, b"\x2b"), Done),
    (CarryDown(ALL), Moved),
    (DeliverDown(ALL), Moved),
    (Tick(10), Done),
    (Outcome(1), Payload(b"\x2b")),
];

/// A stream that meets a method gets its response.
const OPEN_MEETS_METHOD: Rows = &[
    (Ask("Echo", b"a"), Named(1)),
    (CarryUp(ALL), Moved),
    (DeliverUp(ALL), Moved),
    (Take, Job(1, 1, b"a")),
    (Take, NoJob),
    (Answer(1, b"b"), Done),
    (CarryDown(ALL), Moved),
    (DeliverDown(ALL), Moved),
    (Recv(1), Payload(b"b")),
    (Recv(1), RemoteClosed),
];

/// Items go both ways, and their ends.
const ITEMS: Rows = &[
    (Open("Chat"), Named(1)),
    (Send(1, b"a"), Ticket(1)),
    (Send(1, b""), Ticket(2)),
    (Send(1, b"b"), Ticket(3)),
    (Close(1), Ticket(4)),
    (CarryUp(ALL), Moved),
    (CarryUp(ALL), Moved),
    (CarryUp(ALL), Moved),
    (CarryUp(ALL), Moved),
    (CarryUp(ALL), Moved),
    (DeliverUp(41), Count(41)),
    (Take, StreamJob(1, 1)),
    (RecvUp(1), Payload(b"a")),
    (RecvUp(1), Waits),
    (DeliverUp(ALL), Moved),
    (RecvUp(1), Payload(b"")),
    (RecvUp(1), Payload(b"b")),
    (RecvUp(1), Eof),
    (RecvUp(1), RemoteClosed),
    (SendDown(1, b"c"), Ticket(1)),
    (EndWith(1, b"d"), Done),
    (CarryDown(ALL), Moved),
    (CarryDown(ALL), Moved),
    (DeliverDown(ALL), Moved),
    (Recv(1), Payload(b"c")),
    (Recv(1), Payload(b"d")),
    (Recv(1), RemoteClosed),
    (Take, NoJob),
];

/// The client doesn't close, and the server receives until there is nothing yet. No item comes down.
const UNCLOSED: Rows = &[
    (Open("Chat"), Named(1)),
    (Send(1, b"a"), Ticket(1)),
    (CarryUp(ALL), Moved),
    (CarryUp(ALL), Moved),
    (DeliverUp(ALL), Moved),
    (Take, StreamJob(1, 1)),
    (Take, NoJob),
    (RecvUp(1), Payload(b"a")),
    (RecvUp(1), Waits),
    (End(1), Done),
    (CarryDown(ALL), Moved),
    (DeliverDown(ALL), Moved),
    (Recv(1), Eof),
];

/// The server receives before the item is there, and not again: nothing is said about its receiver.
const UNASKED: Rows = &[
    (Open("Chat"), Named(1)),
    (Send(1, b"a"), Ticket(1)),
    (CarryUp(ALL), Moved),
    (CarryUp(ALL), Moved),
    (DeliverUp(30), Count(30)),
    (RecvUp(1), Waits),
    (DeliverUp(ALL), Moved),
    (Take, StreamJob(1, 1)),
    (Take, NoJob),
    (End(1), Done),
    (CarryDown(ALL), Moved),
    (DeliverDown(ALL), Moved),
    (Recv(1), Eof),
];

/// A stream's job ends, and its client receives the end.
const ENDED: Rows = &[
    (Take, StreamJob(1, 1)),
    (Take, NoJob),
    (End(1), Done),
    (CarryDown(ALL), Moved),
    (DeliverDown(ALL), Moved),
    (Recv(1), Eof),
];

// ---- the results of runs

/// A script, and the result of its trace after no more bytes are moved.
type Run = (Rows, Rest);

/// A script that itself ends with bytes at rest, the halves that it runs over, and the result of its trace.
type Whole = (Over, Rows, Rest);

/// Checks that this is read from a trace.
fn is_rest(rt: &impl Abort, alloc: Global, terms: Terms, trace: &[Entry], rest: Rest) -> Tested {
    let read = read_rest(alloc, terms, trace)?;
    assert!(rt; read == rest);
    Ok(())
}

/// Checks that each reply is the one of the script, and that this is read from the trace.
fn reads(
    rt: &impl Abort,
    alloc: Global,
    terms: Terms,
    trace: &[Entry],
    script: &[Rows],
    rest: Rest,
) -> Tested {
    had_memory(trace)?;
    has_replies(rt, trace, script);
    is_rest(rt, alloc, terms, trace, rest)
}

/// Checks the same for a run over these halves.
fn rests_over(
    rt: &impl Abort,
    alloc: Global,
    over: Over,
    ways: Ways,
    script: &[Rows],
    rest: Rest,
) -> Tested {
    let trace = run_script(alloc, over, ways, script)?;
    let terms = terms_of(over, ways.rules);
    reads(rt, alloc, terms, trace.as_slice(), script, rest)
}

/// Checks the same for two scripts, one after the other, over both halves, after no more bytes are moved.
fn rests_behind(
    rt: &impl Abort,
    alloc: Global,
    ways: Ways,
    first: Rows,
    then: Rows,
    rest: Rest,
) -> Tested {
    let script = [first, then, AT_REST];
    rests_over(rt, alloc, Over::Plain, ways, &script, rest)?;
    let script = [first, then, AT_REST_TOO];
    rests_over(rt, alloc, Over::Stamps, ways, &script, rest)
}

/// Checks the same for each of these runs.
fn rests_in(rt: &impl Abort, alloc: Global, ways: Ways, runs: &[Run]) -> Tested {
    for (rows, rest) in runs {
        rests_behind(rt, alloc, ways, rows, &[], *rest)?;
    }
    Ok(())
}

/// Checks the same in each of these ways.
fn rests(rt: &impl Abort, alloc: Global, all: &[Ways], runs: &[Run]) -> Tested {
    for ways in all {
        rests_in(rt, alloc, *ways, runs)?;
    }
    Ok(())
}

/// Checks that each of these scripts comes to rest by itself.
fn rests_itself_in(rt: &impl Abort, alloc: Global, ways: Ways, runs: &[Whole]) -> Tested {
    for (over, rows, rest) in runs {
        rests_over(rt, alloc, *over, ways, &[*rows], *rest)?;
    }
    Ok(())
}

/// Checks the same in each of these ways.
fn rests_itself(rt: &impl Abort, alloc: Global, all: &[Ways], runs: &[Whole]) -> Tested {
    for ways in all {
        rests_itself_in(rt, alloc, *ways, runs)?;
    }
    Ok(())
}

const WHOLE_CALLS: &[Whole] = &[
    (Over::Plain, ONE_CALL, Rest::Whole(1, 0)),
    (Over::Stamps, ONE_STAMPED_CALL, Rest::Whole(1, 0)),
];

const CALLS: &[Run] = &[
    (ANSWERED, Rest::Whole(1, 0)),
    (KEPT_TIMEOUT, Rest::Whole(2, 0)),
    (ASKED_EARLY, Rest::Whole(0, 0)),
    (LATE, Rest::Unsaid),
];

#[test]
fn a_call_comes_to_rest(rt: HostRuntime) -> Tested {
    rests_itself(&rt, rt.alloc(), &ALL_WAYS, WHOLE_CALLS)?;
    rests(&rt, rt.alloc(), &ALL_WAYS, CALLS)
}

const WHOLE_RESPONSES: &[Whole] = &[(Over::Plain, ONE_RESPONSE, Rest::Whole(1, 0))];

#[test]
fn a_response_comes_to_rest(rt: HostRuntime) -> Tested {
    rests_itself(&rt, rt.alloc(), &SYNC, WHOLE_RESPONSES)?;
    rests(&rt, rt.alloc(), &SYNC, &[(RESPONDED, Rest::Whole(1, 0))])
}

/// Checks that nothing is said about this run under sync rules.
fn is_unsaid_under_sync_rules(rt: &impl Abort, alloc: Global, script: &[Rows]) -> Tested {
    let trace = run_script(alloc, Over::Plain, ASYNC[0], script)?;
    let terms = terms_of(Over::Plain, SYNC[0].rules);
    reads(rt, alloc, terms, trace.as_slice(), script, Rest::Unsaid)
}

/// Under sync rules nothing is said about a run if a handler returns an error.
#[test]
fn an_error_comes_to_rest_under_async_rules(rt: HostRuntime) -> Tested {
    rests(
        &rt,
        rt.alloc(),
        &ASYNC,
        &[(BROKEN_HANDLER, Rest::Whole(1, 0))],
    )?;
    is_unsaid_under_sync_rules(&rt, rt.alloc(), &[BROKEN_HANDLER, AT_REST])
}

const STREAMS: &[Run] = &[
    (ITEMS, Rest::Whole(0, 2)),
    (UNCLOSED, Rest::Whole(0, 2)),
    (UNASKED, Rest::Whole(0, 1)),
];

const MEETINGS: &[Run] = &[(OPEN_MEETS_METHOD, Rest::Whole(0, 1))];

#[test]
fn streams_come_to_rest(rt: HostRuntime) -> Tested {
    rests(&rt, rt.alloc(), &ASYNC, STREAMS)?;
    rests(&rt, rt.alloc(), &ALL_WAYS, MEETINGS)
}

/// Nothing is said about a run with one of these acts, though its call is answered, and no bytes are moved in the end.
const UNSAID: &[Rows] = &[
    &[(DropCall(1), Done)],
    &[(Drain, Done)],
    &[(Send(1, b"a"), Others("unknown stream"))],
    &[(Recv(1), Others("unknown stream"))],
];

/// Checks that nothing is said about a run with an answered call and one of these acts.
fn are_unsaid(rt: &impl Abort, alloc: Global, acts: &[Rows]) -> Tested {
    for act in acts {
        rests_behind(rt, alloc, ASYNC[0], ANSWERED, act, Rest::Unsaid)?;
    }
    Ok(())
}

/// Nothing is said about a run without the last take, or without an answer.
const UNDONE: &[Run] = &[(UNTAKEN, Rest::Unsaid), (UNANSWERED, Rest::Unsaid)];

/// Nothing is said about a run that doesn't end with bytes at rest.
const RESTLESS: &[Whole] = &[(Over::Plain, ANSWERED, Rest::Unsaid)];

#[test]
fn nothing_is_said_of_other_runs(rt: HostRuntime) -> Tested {
    are_unsaid(&rt, rt.alloc(), UNSAID)?;
    rests_in(&rt, rt.alloc(), ASYNC[0], UNDONE)?;
    rests_itself_in(&rt, rt.alloc(), ASYNC[0], RESTLESS)
}

/// Items are moved up byte by byte, their stream ends, and no more bytes are moved.
#[rattlefmt::skip]
const MOVED_TO_REST: &[(Over, &[Rows])] = &[
    (Over::Plain, &[QUEUED, MOVED, RECEIVED, ENDED, AT_REST]),
    (Over::Stamps, &[QUEUED, STAMPED_MOVED, RECEIVED, ENDED, AT_REST]),
];

/// Three items were received at the server.
const THREE_ITEMS: Counts = Counts {
    items_up: 3,
    ends_up: 2,
    items_down: 0,
    ends_down: 1,
};

/// Checks that three items were received at the server, and everything that was sent.
fn is_given(rt: &impl Abort, alloc: Global, ways: Ways, over: Over, script: &[Rows]) -> Tested {
    let trace = run_script(alloc, over, ways, script)?;
    let terms = terms_of(over, ways.rules);
    reads(
        rt,
        alloc,
        terms,
        trace.as_slice(),
        script,
        Rest::Whole(0, 2),
    )?;
    has_order(rt, trace.as_slice(), Order::Kept(THREE_ITEMS));
    Ok(())
}

fn are_given(rt: &impl Abort, alloc: Global, ways: Ways) -> Tested {
    for (over, script) in MOVED_TO_REST {
        is_given(rt, alloc, ways, *over, script)?;
    }
    Ok(())
}

#[test]
fn items_come_to_rest_byte_by_byte(rt: HostRuntime) -> Tested {
    are_given(&rt, rt.alloc(), ASYNC[0])?;
    are_given(&rt, rt.alloc(), ASYNC[1])
}

// ---- responses that are too long

/// The message that replaces a response with one byte more than a message may have.
const ABOVE_MESSAGE: &str = "message length 4194305 exceed maximum message size of 4194304";

/// The message that replaces a response with one byte more than a half that stamps may seal.
const ABOVE_LIMIT: &str =
    "response payload 4194304 bytes exceeds safe limit 4194303 bytes (after transform overhead)";

/// The call's response has a status that is present and empty, and a payload that is too long. Its call gets this
/// message instead.
const TOO_LONG: Rows = &[
    (AnswerSevens(1, 4194298), Done),
    (CarryDown(ALL), Moved),
    (DeliverDown(ALL), Moved),
    (Outcome(1), Status(3, ABOVE_MESSAGE)),
];

const STAMPED_TOO_LONG: Rows = &[
    (AnswerSevens(1, 4194297), Done),
    (CarryDown(ALL), Moved),
    (DeliverDown(ALL), Moved),
    (Outcome(1), Status(3, ABOVE_LIMIT)),
];

/// Checks that the run is whole.
fn is_replaced(rt: &impl Abort, alloc: Global, over: Over, ways: Ways, answer: Rows) -> Tested {
    let script = [UNANSWERED, answer, AT_REST];
    rests_over(rt, alloc, over, ways, &script, Rest::Whole(1, 0))
}

#[test]
fn a_response_too_long_comes_to_rest(rt: HostRuntime) -> Tested {
    is_replaced(&rt, rt.alloc(), Over::Plain, ASYNC[0], TOO_LONG)?;
    is_replaced(&rt, rt.alloc(), Over::Stamps, SYNC[0], STAMPED_TOO_LONG)
}

/// A delivery takes the first of two requests, since the answer to it leaves too little room for the second. The second
/// is delivered after the long response has left.
const TAKEN_IN_PART: Rows = &[
    (Call(b"\x2a", 0), Named(1)),
    (CarryUp(30), Count(30)),
    (DeliverUp(30), Count(30)),
    (Take, Job(1, 1, b"\x2a")),
    (AnswerSevens(1, 4194297), Done),
    (CallOf("Nope", b"\x2a"), Named(3)),
    (Call(b"\x2b", 0), Named(5)),
    (CarryUp(30), Count(30)),
    (CarryUp(30), Count(30)),
    (DeliverUp(60), Count(30)),
    (DeliverUp(60), Count(0)),
    (CarryDown(4194314), Count(4194314)),
    (DeliverUp(60), Count(30)),
    (Take, Job(2, 5, b"\x2b")),
    (Take, NoJob),
    (Answer(2, b"\x2b"), Done),
    (CarryDown(ALL), Moved),
    (CarryDown(ALL), Moved),
    (DeliverDown(5000000), Moved),
    (Outcome(1), Sevens(4194297)),
    (Outcome(3), Status(3, "/demo.Echo/Nope does not exist")),
    (Outcome(5), Payload(b"\x2b")),
];

#[test]
fn a_delivery_that_takes_a_front_comes_to_rest(rt: HostRuntime) -> Tested {
    let script = [TAKEN_IN_PART, AT_REST];
    rests_over(
        &rt,
        rt.alloc(),
        Over::Plain,
        SYNC[0],
        &script,
        Rest::Whole(2, 0),
    )
}

// ---- traces from which something is kept back

/// A place of a trace, the act with another reply, and that reply.
type Other = (usize, Act, Said);

/// A script, the changes to its trace, and the result of each.
type Fault = (Rows, &'static [&'static [Other]], Rest);

/// Sets another reply for an entry. The first one is dropped by a call, so that the proof needn't read how.
fn put_reply(entry: &mut Entry, reply: Reply) {
    mem::drop(mem::replace(&mut entry.reply, reply));
}

/// Sets another reply at a place.
fn tamper(alloc: Global, trace: &mut Trace, other: Other) -> Tested {
    let (at, act, said) = other;
    let Some(entry) = trace.get_mut(at) else {
        return Err("no such entry".into());
    };
    put_reply(entry, reply_of(alloc, act, said)?);
    Ok(())
}

fn tamper_all(alloc: Global, trace: &mut Trace, others: &[Other]) -> Tested {
    for other in others {
        tamper(alloc, trace, *other)?;
    }
    Ok(())
}

/// Checks that such a trace is clean and quiet, and has this fault.
fn is_found(rt: &impl Abort, alloc: Global, trace: &[Entry], rest: Rest) -> Tested {
    let terms = terms_of(Over::Plain, ASYNC[0].rules);
    assert!(rt; is_clean(terms.rules, trace));
    assert!(rt; is_quiet(trace));
    is_rest(rt, alloc, terms, trace, rest)
}

/// Checks that the fault of the changed trace is found.
fn finds(rt: &impl Abort, alloc: Global, rows: Rows, others: &[Other], rest: Rest) -> Tested {
    let mut trace = run_script(alloc, Over::Plain, ASYNC[0], &[rows, AT_REST])?;
    had_memory(trace.as_slice())?;
    tamper_all(alloc, &mut trace, others)?;
    is_found(rt, alloc, trace.as_slice(), rest)
}

/// Checks that the fault is found for each change.
fn finds_each(rt: &impl Abort, alloc: Global, fault: &Fault) -> Tested {
    let (rows, each, rest) = *fault;
    for others in each {
        finds(rt, alloc, rows, others, rest)?;
    }
    Ok(())
}

fn finds_all(rt: &impl Abort, alloc: Global, faults: &[Fault]) -> Tested {
    for fault in faults {
        finds_each(rt, alloc, fault)?;
    }
    Ok(())
}

/// A response is kept back, or another outcome is given.
#[rattlefmt::skip]
const BROKEN_CALLS: &[Fault] = &[
    (ANSWERED, &[&[(8, Outcome(1), Waits)], &[(8, Outcome(1), Payload(b"c"))], &[(8, Outcome(1), Status(2, "eof"))]], Rest::BrokenCall),
    (BROKEN_HANDLER, &[&[(8, Outcome(1), Status(2, ""))], &[(8, Outcome(1), Status(3, "eof"))], &[(8, Outcome(1), Payload(b"\x2a"))]], Rest::BrokenCall),
];

#[test]
fn calls_that_are_not_whole_are_found(rt: HostRuntime) -> Tested {
    finds_all(&rt, rt.alloc(), BROKEN_CALLS)
}

/// A server runs no handler, and answers with a status.
const UNRUN_CALL: &[Other] = &[
    (3, Take, NoJob),
    (5, Answer(1, b"\x2b"), NoStep),
    (8, Outcome(1), Status(3, "no")),
];

#[test]
fn a_call_that_is_not_run_is_found(rt: HostRuntime) -> Tested {
    finds(&rt, rt.alloc(), ANSWERED, UNRUN_CALL, Rest::BrokenCall)
}

/// An item is kept back, or another one is given.
#[rattlefmt::skip]
const BROKEN_STREAMS: &[Fault] = &[
    (ITEMS, &[&[(12, RecvUp(1), Waits)], &[(12, RecvUp(1), Payload(b"e"))], &[(15, RecvUp(1), Waits)], &[(15, RecvUp(1), Payload(b"e"))], &[(16, RecvUp(1), Waits)], &[(16, RecvUp(1), Payload(b"e"))], &[(24, Recv(1), Waits)], &[(24, Recv(1), Payload(b"e"))], &[(25, Recv(1), Waits)], &[(25, Recv(1), Payload(b"e"))]], Rest::BrokenStream),
    (UNCLOSED, &[&[(7, RecvUp(1), Waits)]], Rest::BrokenStream),
    (OPEN_MEETS_METHOD, &[&[(8, Recv(1), Waits)]], Rest::BrokenStream),
];

#[test]
fn streams_that_are_not_whole_are_found(rt: HostRuntime) -> Tested {
    finds_all(&rt, rt.alloc(), BROKEN_STREAMS)
}
