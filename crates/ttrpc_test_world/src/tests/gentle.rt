//! Random lists of events that refuse, lose and delay nothing, and that all come to rest, so that many traces are clean
//! and quiet.

use crate::tests::chance::Chance;
use crate::tests::random_tests::{answer_by, end_by, send_by};
use crate::tests::script::{Act, Events, put, put_made, put_times, request_of, respond};
use std::alloc::{AllocError, Global};
use std::test::Fail;
use ttrpc_server::Rules;
use ttrpc_world::{Event, Side, StreamEnd};

/// The kind of a call or a stream at both sides.
#[derive(Clone, Copy)]
struct Kind {
    /// True if it is a call.
    call: bool,
    /// True if its job is a stream's.
    stream: bool,
}

/// Returns the id of the call or the stream with this number, from 0. Its job is the next number.
fn id_of(number: u64) -> u32 {
    (number.min(8) as u32).saturating_mul(2).saturating_add(1)
}

/// The beginning of a call or a stream: its name, whether it is a call, and whether the client sends items.
#[derive(Clone, Copy)]
struct Asked {
    method: &'static str,
    call: bool,
    up: bool,
}

/// Returns a call or the opening of a stream, at random. Each names a method or a stream that exists under these rules.
fn asked_by(chance: &mut Chance, rules: Rules) -> Asked {
    let streams = matches!(rules, Rules::Async);
    let (method, call, up) = match chance.below(6) {
        0 | 1 if streams => ("Chat", false, true),
        2 if streams => ("Chat", false, false),
        3 if streams => ("Chat", true, false),
        4 => ("Echo", false, false),
        _ => ("Echo", true, false),
    };
    Asked { method, call, up }
}

/// Returns its event, at random with a timeout that is kept.
fn event_by(
    alloc: Global,
    chance: &mut Chance,
    asked: Asked,
    payload: &[u8],
) -> Result<Event, AllocError> {
    let timeout = if chance.below(2) == 0 { 20 } else { 0 };
    let request = request_of(alloc, asked.method, payload, timeout)?;
    Ok(if asked.call {
        Event::Call(request)
    } else {
        Event::Open(request, asked.up, true)
    })
}

/// Adds the beginning of a call or a stream, and returns its kind.
fn begin(alloc: Global, events: &mut Events, chance: &mut Chance, rules: Rules, id: u32) -> Kind {
    let payload = [chance.below(256) as u8];
    let asked = asked_by(chance, rules);
    let payload: &[u8] = if asked.up { b"" } else { &payload };
    put_made(events, event_by(alloc, chance, asked, payload));
    if asked.up {
        send_up(alloc, events, chance, id);
    }
    Kind {
        call: asked.call,
        stream: asked.method == "Chat",
    }
}

/// Adds `count` items that are sent on an end.
fn send_items(alloc: Global, events: &mut Events, chance: &mut Chance, end: StreamEnd, count: u64) {
    for _ in 0..count {
        put_made(events, send_by(alloc, chance, end));
    }
}

/// Adds items that are sent, and at random the close.
fn send_up(alloc: Global, events: &mut Events, chance: &mut Chance, id: u32) {
    let count = chance.below(4);
    send_items(alloc, events, chance, StreamEnd::Client(id), count);
    if chance.below(3) > 0 {
        return put(events, Event::Close(id));
    }
}

/// Adds some bytes that are carried from one side and delivered to the other.
fn move_some(events: &mut Events, chance: &mut Chance, from: Side, to: Side) {
    put(events, Event::Carry(from, chance.count()));
    put(events, Event::Carry(from, chance.count()));
    put(events, Event::Deliver(to, chance.count()))
}

/// Adds the moving of all bytes, by these acts.
fn move_all(events: &mut Events, carry: Act, deliver: Act) {
    put_times(events, carry, 28);
    put_times(events, deliver, 1)
}

/// Adds the work of a stream's job.
fn do_stream(alloc: Global, events: &mut Events, chance: &mut Chance, job: u64) {
    put_times(events, Act::RecvUp(job), 5);
    let count = chance.below(3);
    send_items(alloc, events, chance, StreamEnd::Server(job), count);
    put_made(events, end_by(alloc, chance, job))
}

/// Adds the work of a call's job. Under sync rules it may be a response and an end.
fn do_call(alloc: Global, events: &mut Events, chance: &mut Chance, rules: Rules, job: u64) {
    if matches!(rules, Rules::Sync) && chance.below(2) == 0 {
        put_made(events, respond(alloc, job, b"a"));
        return put(events, Event::Finish(job));
    }
    put_made(events, answer_by(alloc, chance, job))
}

/// Adds the work of the job with this number.
fn do_job(
    alloc: Global,
    events: &mut Events,
    chance: &mut Chance,
    rules: Rules,
    job: u64,
    kind: Kind,
) {
    if kind.stream {
        do_stream(alloc, events, chance, job)
    } else {
        do_call(alloc, events, chance, rules, job)
    }
}

/// Adds the requests for the results of a call or a stream.
fn ask(events: &mut Events, id: u32, kind: Kind) {
    if kind.call {
        return put(events, Event::Outcome(id));
    }
    put_times(events, Act::Recv(id), 5)
}

/// Adds a carry of `n` bytes from both sides and a delivery to both, which find no bytes.
fn try_both(events: &mut Events, first: Side, second: Side, n: usize) {
    put(events, Event::Carry(first, n));
    put(events, Event::Carry(second, n));
    put(events, Event::Deliver(second, n));
    put(events, Event::Deliver(first, n))
}

/// Adds the passing of time, and carries and deliveries that find no bytes.
fn rest(events: &mut Events, chance: &mut Chance) {
    put(events, Event::Tick(chance.below(80)));
    let n = chance.count().saturating_add(1);
    if chance.below(2) == 0 {
        try_both(events, Side::Client, Side::Server, n)
    } else {
        try_both(events, Side::Server, Side::Client, n)
    }
}

/// Adds the beginning of the call or the stream with this number, some bytes that are moved up, and at random the
/// passing of time.
fn begin_and_move(
    alloc: Global,
    events: &mut Events,
    chance: &mut Chance,
    rules: Rules,
    number: u64,
) -> Kind {
    let kind = begin(alloc, events, chance, rules, id_of(number));
    move_some(events, chance, Side::Client, Side::Server);
    put(events, Event::Tick(chance.below(5)));
    kind
}

/// Adds the beginnings of up to four calls and streams.
fn begin_all(
    alloc: Global,
    events: &mut Events,
    chance: &mut Chance,
    rules: Rules,
) -> Result<Vec<Kind>, Fail> {
    let mut kinds = Vec::new(alloc);
    for number in 0..chance.below(4).saturating_add(1) {
        kinds.push(begin_and_move(alloc, events, chance, rules, number))?;
    }
    Ok(kinds)
}

/// Adds the moving of all other bytes up, and a take for each job, and one more.
fn take_all(events: &mut Events, count: usize) {
    move_all(events, Act::CarryUp(4096), Act::DeliverUp(4096));
    put_times(events, Act::Take, count.saturating_add(1));
}

/// Adds the work of each job, some bytes that are moved down after each, and all bytes after the last one.
fn do_all(alloc: Global, events: &mut Events, chance: &mut Chance, rules: Rules, kinds: &[Kind]) {
    for (number, kind) in kinds.iter().enumerate() {
        let job = (number as u64).saturating_add(1);
        do_job(alloc, events, chance, rules, job, *kind);
        move_some(events, chance, Side::Server, Side::Client);
    }
    move_all(events, Act::CarryDown(4096), Act::DeliverDown(4096));
}

/// Adds the requests for the results of each call and stream.
fn ask_all(events: &mut Events, kinds: &[Kind]) {
    for (number, kind) in kinds.iter().enumerate() {
        ask(events, id_of(number as u64), *kind);
    }
}

/// Adds the work and the requests for results, and then carries and deliveries that find no bytes.
fn end_all(alloc: Global, events: &mut Events, chance: &mut Chance, rules: Rules, kinds: &[Kind]) {
    take_all(events, kinds.len());
    do_all(alloc, events, chance, rules, kinds);
    ask_all(events, kinds);
    rest(events, chance);
}

/// Returns a list of up to four calls and streams, which all come to their ends.
pub fn gentle_by(alloc: Global, chance: &mut Chance, rules: Rules) -> Result<Vec<Event>, Fail> {
    let mut events = Events::new(alloc);
    let kinds = begin_all(alloc, &mut events, chance, rules)?;
    end_all(alloc, &mut events, chance, rules, kinds.as_slice());
    Ok(events.list()?)
}
