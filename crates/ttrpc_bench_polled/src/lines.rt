//! A conversation over a connection, line by line, and either side of it.
ghost use Rattle.futures.specs.Poll.{OnPending};
ghost use Rattle.futures.specs.Task.{IsArmed, Keeps};

use crate::parts::Fault;
use futures::Future;
use futures::task::{Context, Poll};
use tokio::io::{AsyncRead, AsyncWrite};

/// A line of a conversation.
#[derive(Clone, Copy, Debug)]
pub enum Line<'a> {
    /// The client sends these bytes.
    Up(&'a [u8]),
    /// The server sends these bytes.
    Down(&'a [u8]),
    /// The client closes its direction.
    UpEnds,
    /// The server closes its direction.
    DownEnds,
}

/// A side of a conversation.
#[derive(Clone, Copy, Debug, PartialEq, Eq)]
pub enum Side {
    Client,
    Server,
}

/// One side of a conversation: it sends its own lines, and checks those of the other side. Ready with the first fault,
/// or with `None` after the last line.
#[derive(Drop)]
pub struct Speaker<'a, S, W> {
    side: Side,
    lines: &'a [Line<'a>],
    at: usize,
    done: usize,
    reader: S,
    writer: Option<W>,
}

impl<'a, S: AsyncRead, W: AsyncWrite> Speaker<'a, S, W> {
    /// Returns this side of these lines.
    pub fn new(side: Side, lines: &'a [Line<'a>], reader: S, writer: W) -> Speaker<'a, S, W> {
        Speaker {
            side,
            lines,
            at: 0,
            done: 0,
            reader,
            writer: Some(writer),
        }
    }

    /// Goes on with a line. Ready with true if the line is as expected.
    fn poll_line(&mut self, line: Line<'_>, cx: &mut Context<'_>) -> Poll<bool>
        ensures registered { OnPending result (IsArmed cx.new) }
        ensures kept { Keeps cx.old cx.new }
    {
        let (is_own, bytes) = match line {
            Line::Up(bytes) => (self.side == Side::Client, Some(bytes)),
            Line::Down(bytes) => (self.side == Side::Server, Some(bytes)),
            Line::UpEnds => (self.side == Side::Client, None),
            Line::DownEnds => (self.side == Side::Server, None),
        };
        match (is_own, bytes) {
            (true, Some(bytes)) => self.poll_saying(bytes, cx),
            (true, None) => {
                self.writer = None;
                Poll::Ready(true)
            }
            (false, Some(bytes)) => self.poll_hearing(bytes, cx),
            (false, None) => self.poll_end(cx),
        }
    }

    fn poll_saying(&mut self, bytes: &[u8], cx: &mut Context<'_>) -> Poll<bool>
        ensures registered { OnPending result (IsArmed cx.new) }
        ensures kept { Keeps cx.old cx.new }
    {
        let Some(writer) = &mut self.writer else {
            return Poll::Ready(false);
        };
        for _ in 0..bytes.len() {
            let Some(rest) = bytes.get(self.done..) else {
                return Poll::Ready(false);
            };
            if rest.is_empty() {
                break;
            }
            match writer.poll_write(cx, rest) {
                Poll::Pending => return Poll::Pending,
                Poll::Ready(Ok(count)) => self.done = self.done.saturating_add(count),
                Poll::Ready(Err(_)) => return Poll::Ready(false),
            }
        }
        self.done = 0;
        Poll::Ready(true)
    }

    fn poll_hearing(&mut self, bytes: &[u8], cx: &mut Context<'_>) -> Poll<bool>
        ensures registered { OnPending result (IsArmed cx.new) }
        ensures kept { Keeps cx.old cx.new }
    {
        let mut heard = [0u8; 512];
        for _ in 0..bytes.len() {
            let rest = bytes.get(self.done..).unwrap_or(&[]);
            let room = heard.len().min(rest.len());
            if room == 0 {
                break;
            }
            match self.reader.poll_read(cx, &mut heard[..room]) {
                Poll::Pending => return Poll::Pending,
                Poll::Ready(Ok(count)) if count > 0 && heard.get(..count) == rest.get(..count) => {
                    self.done = self.done.saturating_add(count);
                }
                Poll::Ready(_) => return Poll::Ready(false),
            }
        }
        self.done = 0;
        Poll::Ready(true)
    }

    /// Polls for the end of the other side's lines. Ready with true if the reader is at its end.
    fn poll_end(&mut self, cx: &mut Context<'_>) -> Poll<bool>
        ensures registered { OnPending result (IsArmed cx.new) }
        ensures kept { Keeps cx.old cx.new }
    {
        let mut heard = [0u8; 1];
        match self.reader.poll_read(cx, &mut heard) {
            Poll::Pending => Poll::Pending,
            Poll::Ready(Ok(count)) => Poll::Ready(count == 0),
            Poll::Ready(Err(_)) => Poll::Ready(false),
        }
    }
}

/// The number of lines that are handled at most before other parts go on.
const TURNS: u32 = 64;

impl<S: AsyncRead, W: AsyncWrite> Future for Speaker<'_, S, W> {
    type Output = Option<Fault>;

    fn poll(&mut self, cx: &mut Context<'_>) -> Poll<Option<Fault>> {
        for _ in 0..TURNS {
            let Some(line) = self.lines.get(self.at) else {
                return Poll::Ready(None);
            };
            let line = *line;
            match self.poll_line(line, cx) {
                Poll::Pending => return Poll::Pending,
                Poll::Ready(true) => self.at = self.at.saturating_add(1),
                Poll::Ready(false) => return Poll::Ready(Some(Fault::Line(self.at))),
            }
        }
        cx.yield_now()
    }
}
