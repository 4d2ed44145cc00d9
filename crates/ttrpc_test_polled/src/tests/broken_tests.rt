//! Connections that break: cut at each byte, and with a writer that fails after each byte.
ghost use Rattle.std.specs.Prelude.{⊤};

use crate::tests::conversation_tests::speak;
use crate::tests::sites::{System, Wired, client_over, make_wired};
use futures::Future;
use futures::future::Either;
use futures::task::{Context, Poll, Source, Waker};
use std::alloc::Global;
use std::io::{self, ErrorKind};
use std::test::Fail;
use tokio::io::{AsyncRead, AsyncWrite, DuplexStream};
use tokio::runtime::LocalRuntime;
use ttrpc_bench::checks::{check_named, check_named_row};
use ttrpc_bench_polled::acts::{Act, Script};
use ttrpc_bench_polled::lines::{Line, Side, Speaker};
use ttrpc_bench_polled::parts::{Fault, Parts};

/// Two streams, and the frames of a server on them: an item of each, and the close of each.
const TWO_STREAMS: &[u8] =
    b"\0\0\0\x11\0\0\0\x01\x01\x06\x0a\x09demo.Echo\x12\x04Chat\0\0\0\x11\0\0\0\x03\x01\x06\x0a\x09demo.Echo\x12\x04Chat";

const SAID: &[u8] =
    b"\0\0\0\x01\0\0\0\x01\x03\0a\0\0\0\x01\0\0\0\x03\x03\0b\0\0\0\0\0\0\0\x01\x03\x05\0\0\0\0\0\0\0\x03\x03\x05";
/// The ends of these frames.
const ENDS: [usize; 4] = [11, 22, 32, 42];

const CUT_BETWEEN: Act = Act::Receives(0, Err("socket err: socket disconnected"));

const CUT_INSIDE: Act = Act::Receives(0, Err("socket err: socket disconnected inside a frame"));

const OVER: Act = Act::Receives(0, Err("ttrpc err: Receive packet from Receiver error"));

const CLOSED: Act = Act::Receives(0, Err("eof"));

const REMOTE_CLOSED: Act = Act::Receives(0, Err("ttrpc err: remote stream closed"));

/// Adds the receipts from a stream. They depend on whether its item is whole, whether its close is whole, and whether
/// the cut is between two frames.
fn receipts(
    acts: &mut Vec<Act>,
    stream: usize,
    item: Option<&'static [u8]>,
    is_closed: bool,
    is_between: bool,
) -> Result<(), Fail> {
    if let Some(item) = item {
        acts.push(Act::Receives(stream, Ok(item)))?;
    }
    let ends = match (is_closed, is_between) {
        (true, _) => [CLOSED, REMOTE_CLOSED],
        (false, true) => [CUT_BETWEEN, OVER],
        (false, false) => [CUT_INSIDE, OVER],
    };
    for end in ends {
        acts.push(of_stream(end, stream))?;
    }
    Ok(())
}

/// Returns the same receipt from the stream with this number.
fn of_stream(act: Act, stream: usize) -> Act {
    match act {
        Act::Receives(_, outcome) => Act::Receives(stream, outcome),
        other => other,
    }
}

/// Returns the item, if the cut is after its end.
fn item_before(cut: usize, end: usize, item: &'static [u8]) -> Option<&'static [u8]> {
    if cut >= end { Some(item) } else { None }
}

/// Returns acts that open two streams, and receive their results if the connection is cut after `cut` bytes.
fn cut_acts(alloc: Global, cut: usize) -> Result<Vec<Act>, Fail> {
    let is_between = cut == 0 || ENDS.contains(&cut);
    let mut acts = Vec::new(alloc);
    acts.push(Act::Opens("Chat", b"", true, true))?;
    acts.push(Act::Opens("Chat", b"", true, true))?;
    let (first, second) = (item_before(cut, 11, b"a"), item_before(cut, 22, b"b"));
    receipts(&mut acts, 0, first, cut >= 32, is_between)?;
    receipts(&mut acts, 1, second, cut >= 42, is_between)?;
    Ok(acts)
}

/// Returns whether each stream gets the right results if the connection is cut after `cut` bytes.
fn is_told_of_a_cut<R: System>(rt: &R, cut: usize) -> Result<bool, Fail> {
    let acts = cut_acts(rt.alloc(), cut)?;
    let said = SAID.get(..cut).unwrap_or(&[]);
    let lines = [
        Line::Up(TWO_STREAMS),
        Line::Down(said),
        Line::DownEnds,
        Line::UpEnds,
    ];
    Ok(speak(rt, 4096, acts.as_slice(), &lines)?.is_none())
}

#[test]
fn each_stream_is_told_once_that_its_connection_was_cut(rt: HostRuntime) -> Result<(), Fail> {
    for cut in 0..=SAID.len() {
        check_named_row("behind so many bytes", cut, is_told_of_a_cut(&rt, cut)?)?;
    }
    Ok(())
}

/// A side of a conversation that stays after its last line, and reads no more.
#[derive(Drop)]
struct Stays<'a> {
    speaker: Option<Speaker<'a, DuplexStream, DuplexStream>>,
    finished: Option<Speaker<'a, DuplexStream, DuplexStream>>,
    never: Source,
    slot: Option<Waker>,
}

impl Future for Stays<'_> {
    type Output = ();

    fn poll(&mut self, cx: &mut Context<'_>) -> Poll<()> {
        if let Some(mut speaker) = self.speaker.take() {
            if speaker.poll(cx).is_pending() {
                self.speaker = Some(speaker);
                return Poll::Pending;
            }
            self.finished = Some(speaker);
        }
        cx.register(&self.never, &mut self.slot)
    }
}

impl<'a> Stays<'a> {
    /// Returns this side before its first line.
    fn new(speaker: Speaker<'a, DuplexStream, DuplexStream>) -> Stays<'a> {
        Stays {
            speaker: Some(speaker),
            finished: None,
            never: Source::new(),
            slot: None,
        }
    }
}

/// Does these acts beside a server that sends its part of these lines, and then reads nothing.
fn run_beside_unread<R: System>(
    rt: &R,
    acts: &[Act],
    lines: &[Line<'_>],
) -> Result<Option<Fault>, Fail> {
    let mut runtime = LocalRuntime::new(rt)?;
    let Wired {
        client,
        connection,
        reader,
        writer,
    } = make_wired(rt, runtime.handle(), 100)?;
    let stays = Either::Right(Stays::new(Speaker::new(Side::Server, lines, reader, writer)));
    let script = Script::new(client, acts);
    let parts = Parts::beside_two(rt.alloc(), script, Either::Left(connection), stays)?;
    Ok(runtime.block_on(rt, parts)?)
}

/// The results of two streams while the bytes of a call are never read.
const BESIDE_UNREAD: &[Act] = &[
    Act::Opens("Chat", b"", true, true),
    Act::Opens("Chat", b"", true, true),
    Act::CallsLong(250_000),
    Act::Begins(0),
    Act::Yields(100),
    Act::Receives(1, Ok(b"b")),
    Act::Receives(0, Ok(b"a")),
    CLOSED,
    REMOTE_CLOSED,
];

#[test]
fn streams_receive_beside_bytes_that_are_never_read(rt: HostRuntime) -> Result<(), Fail> {
    let lines = [Line::Up(TWO_STREAMS), Line::Down(SAID)];
    let fault = run_beside_unread(&rt, BESIDE_UNREAD, &lines)?;
    check_named("an act or a line comes otherwise", fault.is_none())
}

/// A reader that gives nothing.
#[derive(Drop)]
pub struct Silent {
    source: Source,
    slot: Option<Waker>,
}

impl Silent {
    /// Returns a reader that wasn't polled yet.
    pub fn new() -> Silent {
        Silent {
            source: Source::new(),
            slot: None,
        }
    }
}

impl AsyncRead for Silent {
    ghost use Rattle.std.specs.Prelude.{◌≡◌};

    ghost needs = { λ s source. source ≡ s.source.id };

    ghost reads = { λ _ _ _. ⊤ };

    ghost is_at_end = { λ _. ⊤ };

    ghost reads_nothing = { λ _. tt };

    ghost reads_in_order = { λ _ _ _ _ _ _ _. tt };

    fn poll_read(&mut self, cx: &mut Context<'_>, _buf: &mut [u8]) -> Poll<io::Result<usize>> {
        cx.register(&self.source, &mut self.slot)
    }
}

/// A writer that takes `left` bytes, and then fails.
#[derive(Drop)]
struct Failing {
    left: usize,
}

impl AsyncWrite for Failing {
    ghost writes = { λ _ _ _. ⊤ };

    ghost writes_nothing = { λ _. tt };

    ghost writes_in_order = { λ _ _ _ _ _ _ _. tt };

    fn poll_write(&mut self, _cx: &mut Context<'_>, buf: &[u8]) -> Poll<io::Result<usize>> {
        if self.left == 0 {
            return Poll::Ready(Err(io::Error::from(ErrorKind::BrokenPipe)));
        }
        let count = self.left.min(buf.len());
        self.left -= count;
        Poll::Ready(Ok(count))
    }

    fn poll_flush(&mut self, _cx: &mut Context<'_>) -> Poll<io::Result<()>> {
        Poll::Ready(Ok(()))
    }

    fn poll_shutdown(&mut self, _cx: &mut Context<'_>) -> Poll<io::Result<()>> {
        Poll::Ready(Ok(()))
    }
}

/// A request of 38 bytes, with the writer's failure as its outcome, and a later request, with the same outcome.
const FAILED: &[Act] = &[
    Act::Calls("Echo", b"\x01\x02\x03", 10_000_000_000),
    Act::Ends(0, Err("socket err: broken pipe")),
    Act::Calls("Echo", b"", 0),
    Act::Ends(1, Err("socket err: broken pipe")),
];

/// Does these acts over a writer that fails after `left` bytes.
fn run_failing<R: System>(rt: &R, left: usize, acts: &[Act]) -> Result<Option<Fault>, Fail> {
    let mut runtime = LocalRuntime::new(rt)?;
    let (client, connection) = client_over(rt, runtime.handle(), Silent::new(), Failing { left })?;
    let parts = Parts::lasting(rt.alloc(), Script::new(client, acts), connection)?;
    Ok(runtime.block_on(rt, parts)?)
}

#[test]
fn a_failing_writer_ends_all_calls(rt: HostRuntime) -> Result<(), Fail> {
    for left in 0..38 {
        let fault = run_failing(&rt, left, FAILED)?;
        check_named_row("behind so many bytes", left, fault.is_none())?;
    }
    Ok(())
}
