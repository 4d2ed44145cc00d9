//! Random lists of events, from fixed seeds. The headline holds for each trace, as the plain program reads it.
use crate::tests::chance::Chance;
use crate::tests::gentle::gentle_by;
use crate::tests::lists::{Counts, NONE, Order, has_unknown_sender, read_lists};
use crate::tests::made::trace_of;
use crate::tests::plainly::{Finding, read_headline};
use crate::tests::rows_tests::has_finding;
use crate::tests::script::{
    Act, Events, Over, Rows, Said, Ways, answer, call, end_with, had_memory, open, put, put_made,
    put_times, respond, run_over, send,
};
use crate::tests::told::{Terms, terms_of};
use crate::tests::whole::{Rest, read_rest};
use std::alloc::{AllocError, Global};
use std::process::Abort;
use std::test::Fail;
use ttrpc_client::ClientKind;
use ttrpc_proto::{Error, Response, Status};
use ttrpc_server::Rules;
use ttrpc_wire::{Blob, Sequence, Text};
use ttrpc_world::{Entry, Event, Side, StreamEnd, Trace};

type Tested = Result<(), Fail>;

/// The seed of the first of the four tests. Each test has its own.
const SEED: u64 = 20260101;

/// The number of lists that each of the four tests runs.
const LISTS: usize = 1250;

const EVENTS: usize = 64;

/// Returns a status that isn't OK.
fn bad_status(alloc: Global) -> Status {
    Status {
        code: 5,
        message: Text::new(alloc),
        details: Sequence::new(alloc),
    }
}

/// Returns an answer without a status, or with a status that isn't OK.
fn odd_answer(alloc: Global, job: u64, bad: bool, payload: &[u8]) -> Result<Event, AllocError> {
    let payload = Blob::from_slice(alloc, payload)?;
    let status = if bad { Some(bad_status(alloc)) } else { None };
    Ok(Event::Answer(job, Ok(Response { status, payload })))
}

/// Returns a handler's answer: mostly a response that is OK.
pub fn answer_by(alloc: Global, chance: &mut Chance, job: u64) -> Result<Event, AllocError> {
    let payload = [chance.below(256) as u8];
    match chance.below(40) {
        0 => Ok(Event::Answer(job, Err(Error::Eof))),
        1 => odd_answer(alloc, job, false, &payload),
        2 => odd_answer(alloc, job, true, &payload),
        _ => answer(alloc, job, &payload),
    }
}

/// Returns a call of a method that exists, or at random of a stream, or of a method that doesn't exist.
fn call_by(alloc: Global, chance: &mut Chance) -> Result<Event, AllocError> {
    let payload = [chance.below(256) as u8];
    let timeout = if chance.below(4) == 0 { 20 } else { 0 };
    match chance.below(10) {
        0 => call(alloc, "Nope", &payload, 0),
        1 | 2 => call(alloc, "Chat", &payload, 0),
        _ => call(alloc, "Echo", &payload, timeout),
    }
}

/// Returns the name of a stream, mostly of one that exists.
fn name_by(chance: &mut Chance) -> &'static str {
    match chance.below(8) {
        0 => "Nope",
        1 | 2 => "Echo",
        _ => "Chat",
    }
}

fn open_by(alloc: Global, chance: &mut Chance) -> Result<Event, AllocError> {
    let method = name_by(chance);
    let up = chance.below(2) == 0;
    let payload: &[u8] = if up || chance.below(2) == 0 {
        b""
    } else {
        b"a"
    };
    open(alloc, method, payload, up, chance.below(4) > 0)
}

fn item_by(chance: &mut Chance) -> &'static [u8] {
    match chance.below(3) {
        0 => b"",
        1 => b"a",
        _ => b"ab",
    }
}

/// Returns an item that is sent on this end.
pub fn send_by(alloc: Global, chance: &mut Chance, end: StreamEnd) -> Result<Event, AllocError> {
    send(alloc, end, item_by(chance))
}

/// Returns an event of a stream.
fn of_stream(alloc: Global, chance: &mut Chance) -> Result<Event, AllocError> {
    match chance.below(24) {
        0..5 => open_by(alloc, chance),
        5..10 => {
            let end = chance.end();
            send_by(alloc, chance, end)
        }
        10..16 => Ok(Event::Recv(chance.end())),
        16..18 => Ok(Event::Close(chance.id())),
        18 => Ok(Event::DropReceiver(chance.end())),
        19 => Ok(Event::DropSender(chance.id())),
        _ => {
            let job = chance.job();
            end_by(alloc, chance, job)
        }
    }
}

/// Returns an event with which a handler ends a stream.
pub fn end_by(alloc: Global, chance: &mut Chance, job: u64) -> Result<Event, AllocError> {
    let payload = [chance.below(256) as u8];
    match chance.below(8) {
        0 => Ok(Event::EndStream(job, Err(Error::Eof))),
        1 | 2 => Ok(Event::EndStream(job, Ok(None))),
        _ => end_with(alloc, job, &payload),
    }
}

/// Returns an event that ends something. Such events are rare, so that most lists come far.
fn ending(chance: &mut Chance) -> Event {
    match chance.below(64) {
        0 | 1 => Event::Cut(chance.side(), chance.count()),
        2 => Event::Fail(chance.side()),
        3 => Event::Drain,
        4 => Event::DropCall(chance.id()),
        5..9 => Event::Tick(chance.below(40)),
        _ => Event::Outcome(chance.id()),
    }
}

/// Returns a response to a job, or at random the end of a job.
fn responding(alloc: Global, chance: &mut Chance) -> Result<Event, AllocError> {
    let payload = [chance.below(256) as u8];
    if chance.below(4) == 0 {
        return Ok(Event::Finish(chance.job()));
    }
    respond(alloc, chance.job(), &payload)
}

fn answering(alloc: Global, chance: &mut Chance) -> Result<Event, AllocError> {
    let job = chance.job();
    answer_by(alloc, chance, job)
}

fn event_by(alloc: Global, chance: &mut Chance) -> Result<Event, AllocError> {
    match chance.below(20) {
        0 => call_by(alloc, chance),
        1..4 => Ok(Event::Carry(Side::Client, chance.count())),
        4..6 => Ok(Event::Deliver(Side::Server, chance.count())),
        6 | 7 => Ok(Event::Take),
        8 | 9 => answering(alloc, chance),
        10 => responding(alloc, chance),
        11 | 12 => Ok(Event::Carry(Side::Server, chance.count())),
        13 | 14 => Ok(Event::Deliver(Side::Client, chance.count())),
        15..19 => of_stream(alloc, chance),
        _ => Ok(ending(chance)),
    }
}

/// The ids of the first calls and streams.
const IDS: [u32; 4] = [1, 3, 5, 7];

/// Adds an item that is sent on each of the first streams, and the close of one.
fn settle_items(alloc: Global, events: &mut Events, chance: &mut Chance) {
    for id in IDS {
        put_made(events, send_by(alloc, chance, StreamEnd::Client(id)));
    }
    put(events, Event::Close(chance.id()))
}

/// Adds a response to a job at random, or else its end.
fn settle_response(alloc: Global, events: &mut Events, chance: &mut Chance, job: u64) {
    if chance.below(4) == 0 {
        put_made(events, respond(alloc, job, b"a"));
        return put(events, Event::Finish(job));
    }
}

/// Adds the take of a job, and its answer or its end.
fn settle_job(alloc: Global, events: &mut Events, chance: &mut Chance, job: u64) {
    put(events, Event::Take);
    put_times(events, Act::RecvUp(job), 3);
    put_made(events, send_by(alloc, chance, StreamEnd::Server(job)));
    settle_response(alloc, events, chance, job);
    put_made(events, answer_by(alloc, chance, job));
    put_made(events, end_by(alloc, chance, job));
    put_times(events, Act::CarryDown(4096), 4)
}

fn settle_jobs(alloc: Global, events: &mut Events, chance: &mut Chance) {
    for job in 1..5 {
        settle_job(alloc, events, chance, job);
    }
}

/// Adds the requests for the outcome of each of the first calls, and for three items of each stream.
fn settle_outcomes(events: &mut Events) {
    for id in IDS {
        put(events, Event::Outcome(id));
        put_times(events, Act::Recv(id), 3);
    }
}

/// Adds the events that bring all running work to its end.
fn settle(alloc: Global, events: &mut Events, chance: &mut Chance) {
    settle_items(alloc, events, chance);
    put_times(events, Act::CarryUp(4096), 16);
    put(events, Event::Deliver(Side::Server, 4096));
    settle_jobs(alloc, events, chance);
    put(events, Event::Deliver(Side::Client, 4096));
    settle_outcomes(events)
}

/// Adds random events. In every second list all running work is then brought to its end.
fn put_by_chance(alloc: Global, events: &mut Events, chance: &mut Chance) {
    for _ in 0..EVENTS {
        put_made(events, event_by(alloc, chance));
    }
    if chance.below(2) == 0 {
        return settle(alloc, events, chance);
    }
}

/// Returns random events. One list in eight is a gentle one.
fn events_by(alloc: Global, chance: &mut Chance, rules: Rules) -> Result<Vec<Event>, Fail> {
    if chance.below(8) == 0 {
        return gentle_by(alloc, chance, rules);
    }
    let mut events = Events::new(alloc);
    put_by_chance(alloc, &mut events, chance);
    Ok(events.list()?)
}

/// Returns a random client kind and random rules.
fn ways_by(chance: &mut Chance) -> Ways {
    let kind = match chance.below(2) {
        0 => ClientKind::Sync,
        _ => ClientKind::Async,
    };
    let rules = match chance.below(3) {
        0 => Rules::Sync,
        _ => Rules::Async,
    };
    Ways { kind, rules }
}

/// Returns a random trace, with the terms of its server.
fn trace_by(alloc: Global, chance: &mut Chance) -> Result<(Terms, Trace), Fail> {
    let ways = ways_by(chance);
    let events = events_by(alloc, chance, ways.rules)?;
    let over = match chance.below(2) {
        0 => Over::Plain,
        _ => Over::Stamps,
    };
    let trace = run_over(alloc, over, ways, events)?;
    Ok((terms_of(over, ways.rules), trace))
}

/// The number of traces that are clean and quiet, and the number of calls and receivers that are whole in them.
#[derive(Clone, Copy)]
struct Rests {
    traces: usize,
    calls: usize,
    receivers: usize,
}

/// Counts one more trace. If it is clean and quiet, it must be whole.
fn rested(alloc: Global, rests: Rests, terms: Terms, trace: &[Entry]) -> Result<Rests, Fail> {
    match read_rest(alloc, terms, trace)? {
        Rest::Unsaid => Ok(rests),
        Rest::Whole(calls, receivers) => Ok(Rests {
            traces: rests.traces.saturating_add(1),
            calls: rests.calls.saturating_add(calls),
            receivers: rests.receivers.saturating_add(receivers),
        }),
        _ => Err("a clean quiet run isn't whole".into()),
    }
}

/// Returns the number of items and ends that the receivers of a trace got. They must be in order.
fn read_in_order(trace: &[Entry]) -> Result<Counts, Fail> {
    if has_unknown_sender(trace) {
        return Ok(NONE);
    }
    match read_lists(trace) {
        Order::Kept(counts) => Ok(counts),
        _ => Err("the items aren't in order".into()),
    }
}

/// Returns the sums of both.
fn both(one: Counts, other: Counts) -> Counts {
    Counts {
        items_up: one.items_up.saturating_add(other.items_up),
        ends_up: one.ends_up.saturating_add(other.ends_up),
        items_down: one.items_down.saturating_add(other.items_down),
        ends_down: one.ends_down.saturating_add(other.ends_down),
    }
}

/// The sums over lists: the calls that end well, the items and ends that were received, and the clean quiet traces.
#[derive(Clone, Copy)]
struct Sums {
    good: usize,
    counts: Counts,
    rests: Rests,
}

/// Nothing was counted yet.
const NOTHING: Sums = Sums {
    good: 0,
    counts: NONE,
    rests: Rests {
        traces: 0,
        calls: 0,
        receivers: 0,
    },
};

/// Returns the number of calls of a trace that end well. The headline must hold.
fn good_calls(trace: &[Entry]) -> Result<usize, Fail> {
    match read_headline(trace) {
        Finding::Whole(good) => Ok(good),
        _ => Err("the headline doesn't hold".into()),
    }
}

/// Returns the sums with one more trace.
fn with_trace(alloc: Global, sums: Sums, terms: Terms, trace: &[Entry]) -> Result<Sums, Fail> {
    let good = sums.good.saturating_add(good_calls(trace)?);
    let counts = both(sums.counts, read_in_order(trace)?);
    let rests = rested(alloc, sums.rests, terms, trace)?;
    Ok(Sums {
        good,
        counts,
        rests,
    })
}

/// Returns the sums with one more random trace. No memory was refused in it, since there was enough.
fn with_chance(alloc: Global, sums: Sums, chance: &mut Chance) -> Result<Sums, Fail> {
    let (terms, trace) = trace_by(alloc, chance)?;
    had_memory(trace.as_slice())?;
    with_trace(alloc, sums, terms, trace.as_slice())
}

/// Returns whether the sums are large enough: hundreds of calls end well, hundreds of items and ends are received each
/// way, and more than one trace in twenty is clean and quiet.
fn are_enough(sums: Sums) -> bool {
    let (rests, counts) = (sums.rests, sums.counts);
    rests.traces > LISTS / 20
        && rests.calls > 100
        && rests.receivers > 200
        && sums.good > 200
        && counts.items_up > 450
        && counts.items_down > 450
        && counts.ends_up > 450
        && counts.ends_down > 450
}

/// Checks that the headline holds over 1250 lists from this seed, and that the sums are large enough. Each clean quiet
/// run is whole.
fn holds_by_chance(rt: &impl Abort, alloc: Global, seed: u64) -> Tested {
    let mut chance = Chance { state: seed };
    let mut sums = NOTHING;
    for _ in 0..LISTS {
        sums = with_chance(alloc, sums, &mut chance)?;
    }
    assert!(rt; are_enough(sums));
    Ok(())
}

#[test]
fn the_headline_holds_by_chance(rt: HostRuntime) -> Tested {
    holds_by_chance(&rt, rt.alloc(), SEED)
}

#[test]
fn the_headline_holds_by_another_chance(rt: HostRuntime) -> Tested {
    holds_by_chance(&rt, rt.alloc(), SEED + 1)
}

#[test]
fn the_headline_holds_by_a_third_chance(rt: HostRuntime) -> Tested {
    holds_by_chance(&rt, rt.alloc(), SEED + 2)
}

#[test]
fn the_headline_holds_by_a_fourth_chance(rt: HostRuntime) -> Tested {
    holds_by_chance(&rt, rt.alloc(), SEED + 3)
}

/// Each fault, and a trace with it, of the call, stream or job 1.
const FAULTS: &[(Finding, Rows)] = &[
    (Finding::IdUsedTwice, &[CALLED, CALLED]),
    (Finding::IdUsedTwice, &[CALLED, OPENED]),
    (Finding::RunOutOfPlace, &[RUN]),
    (Finding::RunOutOfPlace, &[CALLED, RUN, RUN]),
    (Finding::AnsweredTwice, &[BROKEN, BROKEN]),
    (Finding::AnsweredTwice, &[BROKEN, ENDED]),
    (Finding::OutcomeOutOfPlace, &[GIVEN]),
    (Finding::OutcomeOutOfPlace, &[OPENED, GIVEN]),
    (Finding::OutcomeOutOfPlace, &[CALLED, FAILED, FAILED]),
    (Finding::OtherAnswer, &[CALLED, GIVEN]),
    (Finding::OtherAnswer, &[CALLED, STREAM_RUN, ENDED, GIVEN]),
];

const CALLED: (Act, Said) = (Act::Call(b"a", 0), Said::Named(1));

/// A stream was opened with the same id.
const OPENED: (Act, Said) = (Act::Open("Echo"), Said::Named(1));

/// A job of call 1 was handed out.
const RUN: (Act, Said) = (Act::Take, Said::Job(1, 1, b"a"));

/// A stream's job, with the payload of its request still in it.
const STREAM_RUN: (Act, Said) = (Act::Take, Said::FullStreamJob(1, 1, b"a"));

const BROKEN: (Act, Said) = (Act::Break(1), Said::Done);

/// The job is answered with a stream's end.
const ENDED: (Act, Said) = (Act::EndWith(1, b"a"), Said::Done);

const GIVEN: (Act, Said) = (Act::Outcome(1), Said::Payload(b"a"));

/// The call failed with a status.
const FAILED: (Act, Said) = (Act::Outcome(1), Said::Status(2, "eof"));

/// Checks that the plain program finds this fault in such a trace.
fn is_found(rt: &impl Abort, alloc: Global, finding: Finding, rows: Rows) -> Tested {
    let trace = trace_of(alloc, rows)?;
    has_finding(rt, trace.as_slice(), finding);
    Ok(())
}

/// The plain program finds each fault.
#[test]
fn faults_are_found(rt: HostRuntime) -> Tested {
    for (finding, rows) in FAULTS {
        is_found(&rt, rt.alloc(), *finding, rows)?;
    }
    Ok(())
}
