//! The frames of a server to a client that sends line by line. The frames are written by hand.
use crate::tests::gate::Gate;
use crate::tests::runs::{Bench, System, make_bench, run_beside, run_lines, speaker};
use crate::tests::sites::Behind;
use futures::Future;
use futures::task::{Context, Poll};
use std::alloc::Global;
use std::sync::Arc;
use std::test::Fail;
use ttrpc_bench::checks::{check_named, check_named_row};
use ttrpc_bench_polled::lines::Line::{self, *};
use ttrpc_bench_polled::parts::Fault;
use ttrpc_bench_polled::recorded::{Said, served_to_go, served_to_go_bare, served_to_rust};

/// A request of `Echo` with the payload 2a, and its answer.
const ASKED: &[u8] = b"\0\0\0\x14\0\0\0\x01\x01\0\x0a\x09demo.Echo\x12\x04Echo\x1a\x01\x2a";

const ECHOED: &[u8] = b"\0\0\0\x05\0\0\0\x01\x02\0\x0a\0\x12\x01\x2a";

/// A request with an even id, and its answer.
const EVEN: &[u8] = b"\0\0\0\x06\0\0\0\x02\x01\0\x0a\x01x\x12\x01y";

const ANSWER_TO_EVEN: &[u8] = b"\
    \0\0\0\x1b\0\0\0\x02\x02\0\x0a\x19\x08\x03\x12\x15stream id must be odd";

/// A request for an unknown method, and its answer.
const NO_METHOD: &[u8] = b"\0\0\0\x11\0\0\0\x01\x01\0\x0a\x09demo.Echo\x12\x04Nope";

const ANSWER_TO_NO_METHOD: &[u8] = b"\0\0\0\x11\0\0\0\x01\x02\0\x0a\x0f\x08\x0c\x12\x0bNope method";

/// The first request twice, in one write, and the answer to the second.
const TWICE: &[u8] = b"\
    \0\0\0\x14\0\0\0\x01\x01\0\x0a\x09demo.Echo\x12\x04Echo\x1a\x01\x2a\
    \0\0\0\x14\0\0\0\x01\x01\0\x0a\x09demo.Echo\x12\x04Echo\x1a\x01\x2a";

const IN_USE: &[u8] = b"\0\0\0\x1b\0\0\0\x01\x02\0\x0a\x19\x08\x03\x12\x15stream id 1 is in use";

/// Data with the id of no stream, and its answer.
const DATA: &[u8] = b"\0\0\0\x01\0\0\0\x03\x03\0\x7a";

const ANSWER_TO_DATA: &[u8] = b"\
    \0\0\0\x20\0\0\0\x03\x02\0\x0a\x1e\x08\x03\x12\x1aStream is no longer active";

/// A request of a handler that never ends, with a timeout of 20 ms, and its answer.
const LIMITED: &[u8] = b"\
    \0\0\0\x1b\0\0\0\x01\x01\0\x0a\x09demo.Echo\x12\x09NeverEnds\x20\x80\xda\xc4\x09";

const EXPIRED: &[u8] = b"\0\0\0\x0d\0\0\0\x01\x02\0\x0a\x0b\x08\x04\x12\x07timeout";

/// A stream that the client closes, with its items, and the frames that come back.
const STREAM: &[u8] = b"\
    \0\0\0\x11\0\0\0\x01\x01\x06\x0a\x09demo.Echo\x12\x04Chat\
    \0\0\0\x01\0\0\0\x01\x03\0a\
    \0\0\0\0\0\0\0\x01\x03\0\
    \0\0\0\x01\0\0\0\x01\x03\0b\
    \0\0\0\0\0\0\0\x01\x03\x05";

const STREAM_BACK: &[u8] = b"\
    \0\0\0\x01\0\0\0\x01\x03\0a\
    \0\0\0\0\0\0\0\x01\x03\0\
    \0\0\0\x01\0\0\0\x01\x03\0b\
    \0\0\0\0\0\0\0\x01\x03\x05";

/// A stream, and three items of it: `a`, an empty one, and `b`; and its close.
const OPENS: &[u8] = b"\0\0\0\x11\0\0\0\x01\x01\x06\x0a\x09demo.Echo\x12\x04Chat";

const ITEMS: &[u8] = b"\
    \0\0\0\x01\0\0\0\x01\x03\0a\
    \0\0\0\0\0\0\0\x01\x03\0\
    \0\0\0\x01\0\0\0\x01\x03\0b";

const CLOSES: &[u8] = b"\0\0\0\0\0\0\0\x01\x03\x05";

/// Returns the frames with this number, from 0, with their answer.
fn row(number: u8) -> Option<(&'static [u8], &'static [u8])> {
    Some(match number {
        0 => (ASKED, ECHOED),
        1 => (EVEN, ANSWER_TO_EVEN),
        2 => (NO_METHOD, ANSWER_TO_NO_METHOD),
        3 => (DATA, ANSWER_TO_DATA),
        4 => (LIMITED, EXPIRED),
        5 => (STREAM, STREAM_BACK),
        _ => return None,
    })
}

#[test]
fn frames_have_their_answers(rt: HostRuntime) -> Result<(), Fail> {
    let gate = Arc::new(rt.alloc(), Gate::new(rt.alloc()))?;
    for number in 0..100u8 {
        if let Some((frames, answers)) = row(number) {
            let lines = [Up(frames), Down(answers), UpEnds, DownEnds];
            for room in [1, 4096] {
                let fault = run_lines(&rt, &gate, room, false, &lines)?;
                check_named_row("a row", usize::from(number), fault.is_none())?;
            }
        }
    }
    Ok(())
}

/// Frames in one write, and their answers after the end of the input. A stream that waits in vain has no answer.
const AT_ONCE: &[Line<'static>] = &[Up(TWICE), UpEnds, Down(IN_USE), Down(ECHOED), DownEnds];

const IN_VAIN: &[Line<'static>] = &[Up(OPENS), UpEnds, DownEnds];

// Should fail if the end of input is reported to the core while handlers run.
#[test]
fn answers_come_behind_the_end_of_input(rt: HostRuntime) -> Result<(), Fail> {
    let gate = Arc::new(rt.alloc(), Gate::new(rt.alloc()))?;
    let is_so = run_lines(&rt, &gate, 4096, false, AT_ONCE)?.is_none()
        && run_lines(&rt, &gate, 4096, false, IN_VAIN)?.is_none();
    check_named("a line comes otherwise", is_so)
}

/// A call with a handler that waits, one with a handler that lets it go on, and two calls after them, in one write.
const WAITS_AND_OPENS: &[u8] = b"\
    \0\0\0\x15\0\0\0\x01\x01\0\x0a\x09demo.Echo\x12\x05Waits\x1a\x01\x31\
    \0\0\0\x15\0\0\0\x03\x01\0\x0a\x09demo.Echo\x12\x05Opens\x1a\x01\x32";

const CALLS_BEHIND: &[u8] = b"\
    \0\0\0\x14\0\0\0\x05\x01\0\x0a\x09demo.Echo\x12\x04Echo\x1a\x01\x33\
    \0\0\0\x14\0\0\0\x07\x01\0\x0a\x09demo.Echo\x12\x04Echo\x1a\x01\x34";

/// The answers: that of the handler that was woken comes before those of the later calls.
const WOKEN_FIRST: &[u8] = b"\
    \0\0\0\x05\0\0\0\x03\x02\0\x0a\0\x12\x01\x32\
    \0\0\0\x05\0\0\0\x01\x02\0\x0a\0\x12\x01\x31";

const CALLS_THEN: &[u8] = b"\
    \0\0\0\x05\0\0\0\x05\x02\0\x0a\0\x12\x01\x33\
    \0\0\0\x05\0\0\0\x07\x02\0\x0a\0\x12\x01\x34";

const WAKES: &[Line<'static>] = &[
    Up(WAITS_AND_OPENS),
    Up(CALLS_BEHIND),
    UpEnds,
    Down(WOKEN_FIRST),
    Down(CALLS_THEN),
    DownEnds,
];

// Seen to fail if calls that wait go before a handler that was woken.
#[test]
fn a_woken_handler_goes_before_calls_that_wait(rt: HostRuntime) -> Result<(), Fail> {
    let gate = Arc::new(rt.alloc(), Gate::new(rt.alloc()))?;
    let fault = run_lines(&rt, &gate, 4096, false, WAKES)?;
    check_named("a line comes otherwise", fault.is_none())
}

/// Fails unless this conversation goes as expected.
fn hold<R: System>(rt: &R, gate: &Arc<Gate, Global>, bare: bool, said: Said) -> Result<(), Fail> {
    let (name, lines) = said;
    let fault = run_lines(rt, gate, 4096, bare, lines)?;
    check_named(name, fault.is_none())
}

// Seen to fail if a receiver of a stream isn't woken when something comes.
#[test]
fn recorded_clients_are_answered(rt: HostRuntime) -> Result<(), Fail> {
    let gate = Arc::new(rt.alloc(), Gate::new(rt.alloc()))?;
    for number in 0..100 {
        if let Some(said) = served_to_rust(number) {
            hold(&rt, &gate, false, said)?;
            hold(&rt, &gate, true, said)?;
        }
        if let Some(said) = served_to_go(number) {
            hold(&rt, &gate, false, said)?;
        }
        if let Some(said) = served_to_go_bare(number) {
            hold(&rt, &gate, true, said)?;
        }
    }
    Ok(())
}

/// Adds the frame with the id of this number. If a byte is given, it replaces the last byte.
fn put(frames: &mut Vec<u8>, frame: &[u8], number: u32, last: Option<u8>) -> Result<(), Fail> {
    let id = number.saturating_mul(2).saturating_add(1).to_be_bytes();
    let [a, b, c, d, _, _, _, _, rest @ ..] = frame else {
        return Err("a frame has a header".into());
    };
    frames.extend_from_slice(&[*a, *b, *c, *d])?;
    frames.extend_from_slice(&id)?;
    frames.extend_from_slice(rest)?;
    if let (Some(byte), Some(end)) = (last, frames.last_mut()) {
        *end = byte;
    }
    Ok(())
}

#[test]
fn all_calls_are_answered_behind_the_end_of_input(rt: HostRuntime) -> Result<(), Fail> {
    let gate = Arc::new(rt.alloc(), Gate::new(rt.alloc()))?;
    let (mut asked, mut echoed) = (Vec::new(rt.alloc()), Vec::new(rt.alloc()));
    for number in 0..200u8 {
        put(&mut asked, ASKED, u32::from(number), Some(number))?;
        put(&mut echoed, ECHOED, u32::from(number), Some(number))?;
    }
    let fault = answer_behind(&rt, &gate, asked.as_slice(), echoed.as_slice())?;
    check_named("a line comes otherwise", fault.is_none())
}

/// Sends these frames to a server, which answers with `echoed` after the end of the input.
fn answer_behind<'a, R: System>(
    rt: &R,
    gate: &Arc<Gate, Global>,
    asked: &'a [u8],
    echoed: &'a [u8],
) -> Result<Option<Fault>, Fail> {
    let lines = [Up(asked), UpEnds, Down(echoed), DownEnds];
    run_lines(rt, gate, 50, false, &lines)
}

/// A client that goes away in the middle of a stream, while the handler waits for an item.
const LEAVES: &[Line<'static>] = &[Up(OPENS), Up(ITEMS), Down(ITEMS), UpEnds, DownEnds];

/// A client that goes away without reading.
const LEAVES_UNREAD: &[Line<'static>] = &[Up(OPENS), Up(ITEMS), Up(ITEMS)];

/// Returns whether these lines go as expected, and no handler is left after them.
fn leaves_nothing<R: System>(
    rt: &R,
    gate: &Arc<Gate, Global>,
    room: usize,
    lines: &[Line<'_>],
) -> Result<bool, Fail> {
    Ok(run_lines(rt, gate, room, false, lines)?.is_none() && Arc::strong_count(gate) == 1)
}

// Should fail if the end of input is never reported to the core.
#[test]
fn a_handler_is_told_that_its_client_went_away(rt: HostRuntime) -> Result<(), Fail> {
    let gate = Arc::new(rt.alloc(), Gate::new(rt.alloc()))?;
    let is_told = leaves_nothing(&rt, &gate, 4096, LEAVES)?
        && gate.was_told("socket err: socket disconnected");
    gate.note(String::new(rt.alloc()));
    let is_told_unread = leaves_nothing(&rt, &gate, 4, LEAVES_UNREAD)? && !gate.was_told("");
    check_named("a handler stays, or isn't told", is_told && is_told_unread)
}

/// A request of a handler that never ends, without a timeout, and one that is answered after it.
const UNLIMITED: &[u8] = b"\0\0\0\x16\0\0\0\x01\x01\0\x0a\x09demo.Echo\x12\x09NeverEnds";

const ASKED_BEHIND: &[u8] = b"\0\0\0\x14\0\0\0\x03\x01\0\x0a\x09demo.Echo\x12\x04Echo\x1a\x01\x2a";

const ECHOED_BEHIND: &[u8] = b"\0\0\0\x05\0\0\0\x03\x02\0\x0a\0\x12\x01\x2a";

const IS_OVER: &[Line<'static>] = &[Up(LIMITED), Down(EXPIRED)];

const GOES_ON: &[Line<'static>] = &[Up(UNLIMITED), Up(ASKED_BEHIND), Down(ECHOED_BEHIND)];

/// Checks that a gate has this number of users. It is ready at its first poll.
#[derive(Drop)]
struct Users {
    gate: Arc<Gate, Global>,
    count: usize,
}

impl Future for Users {
    type Output = Option<Fault>;

    fn poll(&mut self, _cx: &mut Context<'_>) -> Poll<Option<Fault>> {
        if Arc::strong_count(&self.gate) == self.count {
            Poll::Ready(None)
        } else {
            Poll::Ready(Some(Fault::Stop))
        }
    }
}

/// Sends a client's part of these lines. After them, while the connection lives, there must be this number of handlers.
fn count_handlers<R: System>(
    rt: &R,
    handlers: usize,
    lines: &[Line<'_>],
) -> Result<Option<Fault>, Fail> {
    let gate = Arc::new(rt.alloc(), Gate::new(rt.alloc()))?;
    let Bench {
        mut runtime,
        mut server,
        near,
        far,
    } = make_bench(rt, &gate, 4096)?;
    let count = Arc::strong_count(&gate).saturating_add(handlers);
    let both = Behind {
        first: Some(speaker(lines, near)),
        second: Users { gate, count },
    };
    run_beside(rt, &mut runtime, &mut server, far, both)
}

// Should fail if a handler stays after its time is over.
#[test]
fn a_handler_whose_time_is_over_is_dropped(rt: HostRuntime) -> Result<(), Fail> {
    let is_so = count_handlers(&rt, 1, GOES_ON)?.is_none()
        && count_handlers(&rt, 0, IS_OVER)?.is_none();
    check_named("other handlers are there", is_so)
}

/// A stream, and its answer: 250 items came, all of them in order.
const ORDERS: &[u8] = b"\0\0\0\x12\0\0\0\x01\x01\x06\x0a\x09demo.Echo\x12\x05Order";

const ITEM: &[u8] = b"\0\0\0\x01\0\0\0\x01\x03\0a";

const ALL_IN_ORDER: &[u8] = b"\
    \0\0\0\x14\0\0\0\x01\x02\0\x0a\0\x12\x10\0\0\0\0\0\0\0\xfa\0\0\0\0\0\0\0\xfa";

/// Returns 250 items of the stream with this number, and its close.
fn items_of(alloc: Global, number: u32) -> Result<Vec<u8>, Fail> {
    let mut frames = Vec::new(alloc);
    put(&mut frames, ORDERS, number, None)?;
    for item in 0..250u8 {
        put(&mut frames, ITEM, number, Some(item))?;
    }
    put(&mut frames, CLOSES, number, None)?;
    Ok(frames)
}

/// Returns the frames of 1,000 streams of one connection, and the answer to each.
fn thousand_streams(alloc: Global) -> Result<(Vec<Vec<u8>>, Vec<Vec<u8>>), Fail> {
    let (mut ups, mut downs) = (Vec::new(alloc), Vec::new(alloc));
    for number in 0..1000u32 {
        ups.push(items_of(alloc, number)?)?;
        downs.push(answer_of(alloc, number)?)?;
    }
    Ok((ups, downs))
}

/// Returns the answer to the stream with this number.
fn answer_of(alloc: Global, number: u32) -> Result<Vec<u8>, Fail> {
    let mut answer = Vec::new(alloc);
    put(&mut answer, ALL_IN_ORDER, number, None)?;
    Ok(answer)
}

#[test]
fn items_and_a_close_in_one_write_keep_their_order(rt: HostRuntime) -> Result<(), Fail> {
    let gate = Arc::new(rt.alloc(), Gate::new(rt.alloc()))?;
    let (ups, downs) = thousand_streams(rt.alloc())?;
    let mut lines = Vec::new(rt.alloc());
    for (up, down) in ups.iter().zip(downs.iter()) {
        lines.push(Up(up.as_slice()))?;
        lines.push(Down(down.as_slice()))?;
    }
    lines.push(UpEnds)?;
    lines.push(DownEnds)?;
    let fault = run_lines(&rt, &gate, 16384, false, lines.as_slice())?;
    check_named("a line comes otherwise", fault.is_none())
}
