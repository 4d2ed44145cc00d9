//! The streams of the tests' service `demo.Echo`.
ghost use Rattle.std.specs.Prelude.{⊤};
ghost use Rattle.futures.specs.Poll.{OnPending};
ghost use Rattle.futures.specs.Task.{IsArmed, Keeps};

use crate::tests::gate::Gate;
use crate::tests::handlers::{Shared, answer, failure};
use futures::Future;
use futures::task::{Context, Poll};
use std::alloc::{AllocError, Global};
use std::mem::replace;
use std::sync::Arc;
use ttrpc_polled::{Sending, StreamInner};
use ttrpc_polled_server::{StreamHandler, TtrpcContext};
use ttrpc_proto::{Error, Response, Result};
use ttrpc_wire::Blob;

/// The behaviour of a stream.
#[derive(Clone, Copy, Debug, PartialEq, Eq)]
pub enum Streams {
    /// Sends each item back, and then closes.
    Chat,
    /// Sends each item back, and then ends with a message.
    Last,
    /// Sends each item back, and then the item `eof`. After that it ends with the next result that it receives.
    Hears,
    /// Ends with the number of items, and the number of bytes in all.
    Sum,
    /// Ends with the number of items, and the number of those that ended with their own number, from 0.
    Order,
    /// Sends the number of items that its first one states, and then closes.
    Count,
    /// Fails with the status in its first item.
    Fail,
    /// Closes at once.
    Early,
    /// Sends three items, with some polls before each, while it receives.
    Beats,
}

/// A stream.
#[derive(Drop)]
pub struct Streaming {
    pub does: Streams,
    pub gate: Arc<Gate, Global>,
}

/// The state of a stream's handler.
#[derive(Drop)]
enum Turn {
    /// Waits for an item.
    Receives,
    /// Sends an item.
    Sends(Sending),
    /// The handler has ended.
    Done,
}

/// A stream that is being handled.
#[derive(Drop)]
pub struct StreamingCall {
    alloc: Global,
    does: Streams,
    stream: StreamInner<Shared>,
    gate: Option<Arc<Gate, Global>>,
    turn: Turn,
    items: u64,
    bytes: u64,
    left: u64,
}

impl StreamHandler<Shared> for Streaming {
    type Call = StreamingCall;

    fn handler(&self, ctx: TtrpcContext, stream: StreamInner<Shared>) -> StreamingCall
        ensures { ⊤ }
    {
        StreamingCall {
            alloc: ctx.alloc(),
            does: self.does,
            stream,
            gate: Arc::try_clone(&self.gate).ok(),
            turn: Turn::Receives,
            items: 0,
            bytes: 0,
            left: if self.does == Streams::Beats {
                PAUSE
            } else {
                0
            },
        }
    }
}

/// The number of polls between two items of a beat.
const PAUSE: u64 = 20;

/// The result of a turn: the end of the stream, or `None`.
type Turned = Option<Result<Option<Response>>>;

impl StreamingCall {
    /// Goes on by one turn.
    fn poll_turn(&mut self, cx: &mut Context<'_>) -> Poll<Turned>
        ensures registered { OnPending result (IsArmed cx.new) }
        ensures kept { Keeps cx.old cx.new }
    {
        if self.does == Streams::Early {
            return Poll::Ready(Some(Ok(None)));
        }
        match replace(&mut self.turn, Turn::Done) {
            Turn::Receives if self.does == Streams::Beats => self.poll_beat(cx),
            Turn::Receives => self.poll_item(cx),
            Turn::Sends(sending) => self.poll_sending(sending, cx),
            Turn::Done => Poll::Ready(Some(Err(Error::LocalClosed))),
        }
    }

    /// Receives, and goes on to the next beat after a pause.
    fn poll_beat(&mut self, cx: &mut Context<'_>) -> Poll<Turned>
        ensures registered { OnPending result (IsArmed cx.new) }
        ensures kept { Keeps cx.old cx.new }
    {
        let _ = self.stream.poll_recv(cx);
        if self.left > 0 {
            self.left -= 1;
            self.turn = Turn::Receives;
            return cx.yield_now();
        }
        self.left = PAUSE;
        Poll::Ready(self.next_beat())
    }

    /// Begins to send the next of three items, or closes.
    fn next_beat(&mut self) -> Turned {
        if self.items == 3 {
            return Some(Ok(None));
        }
        self.items = self.items.saturating_add(1);
        match Blob::from_slice(self.alloc, b"b") {
            Ok(item) => {
                self.turn = Turn::Sends(Sending::Sends(item));
                None
            }
            Err(_) => Some(Err(Error::NoMemory)),
        }
    }

    fn poll_item(&mut self, cx: &mut Context<'_>) -> Poll<Turned>
        ensures registered { OnPending result (IsArmed cx.new) }
        ensures kept { Keeps cx.old cx.new }
    {
        match self.stream.poll_recv(cx) {
            Poll::Pending => {
                self.turn = Turn::Receives;
                Poll::Pending
            }
            Poll::Ready(Ok(item)) => Poll::Ready(self.on_item(item)),
            Poll::Ready(Err(Error::Eof)) => Poll::Ready(self.on_end()),
            Poll::Ready(Err(error)) => {
                self.note(&error);
                Poll::Ready(Some(Err(error)))
            }
        }
    }

    fn poll_sending(&mut self, sending: Sending, cx: &mut Context<'_>) -> Poll<Turned>
        ensures registered { OnPending result (IsArmed cx.new) }
        ensures kept { Keeps cx.old cx.new }
    {
        let mut sending = sending;
        match self.stream.sender().poll_sending(&mut sending, cx) {
            Poll::Pending => {
                self.turn = Turn::Sends(sending);
                Poll::Pending
            }
            Poll::Ready(Ok(())) => Poll::Ready(self.on_sent()),
            Poll::Ready(Err(error)) => {
                self.note(&error);
                Poll::Ready(Some(Err(error)))
            }
        }
    }

    fn on_item(&mut self, item: Blob) -> Turned {
        match self.does {
            Streams::Chat | Streams::Last | Streams::Hears => {
                self.turn = Turn::Sends(Sending::Sends(item));
                None
            }
            Streams::Sum | Streams::Order => {
                self.add(&item);
                None
            }
            Streams::Count => {
                self.left = number_in(&item).unwrap_or(0);
                self.send_next()
            }
            Streams::Fail => Some(Ok(Some(failure(self.alloc, Some(item))))),
            Streams::Early | Streams::Beats => Some(Ok(None)),
        }
    }

    /// Adds an item to both sums, and waits for the next.
    fn add(&mut self, item: &Blob) {
        let more = if self.does == Streams::Sum {
            item.len() as u64
        } else {
            u64::from(number_in(item) == Some(self.items))
        };
        self.bytes = self.bytes.saturating_add(more);
        self.items = self.items.saturating_add(1);
        self.turn = Turn::Receives;
    }

    fn on_end(&mut self) -> Turned {
        if self.does != Streams::Hears {
            return Some(self.at_end());
        }
        match Blob::from_slice(self.alloc, b"eof") {
            Ok(item) => {
                self.turn = Turn::Sends(Sending::Sends(item));
                None
            }
            Err(_) => Some(Err(Error::NoMemory)),
        }
    }

    fn on_sent(&mut self) -> Turned {
        if self.does == Streams::Count {
            return self.send_next();
        }
        self.turn = Turn::Receives;
        None
    }

    /// Begins to send the next of the counted items, or closes.
    fn send_next(&mut self) -> Turned {
        if self.left == 0 {
            return Some(Ok(None));
        }
        let number = u32::try_from(self.items).unwrap_or(u32::MAX);
        let item = match Blob::from_slice(self.alloc, &number.to_be_bytes()) {
            Ok(item) => item,
            Err(_) => return Some(Err(Error::NoMemory)),
        };
        self.items = self.items.saturating_add(1);
        self.left -= 1;
        self.turn = Turn::Sends(Sending::Sends(item));
        None
    }

    /// Returns the stream's end after the client has closed.
    fn at_end(&self) -> Result<Option<Response>> {
        match self.does {
            Streams::Last => Ok(Some(answer(
                self.alloc,
                Some(Blob::from_slice(self.alloc, b"\xff")?),
            ))),
            Streams::Sum | Streams::Order => Ok(Some(answer(self.alloc, Some(self.sums()?)))),
            Streams::Chat
            | Streams::Hears
            | Streams::Count
            | Streams::Fail
            | Streams::Early
            | Streams::Beats => Ok(None),
        }
    }

    /// Returns both sums, each in eight bytes in big-endian order.
    fn sums(&self) -> std::result::Result<Blob, AllocError> {
        let mut told = Vec::with_capacity(self.alloc, 16)?;
        told.extend_from_slice(&self.items.to_be_bytes())?;
        told.extend_from_slice(&self.bytes.to_be_bytes())?;
        Ok(Blob::from_vec(told))
    }

    fn note(&self, error: &Error) {
        if let (Some(gate), Ok(text)) = (&self.gate, format!(in self.alloc; "{error}")) {
            gate.note(text);
        }
    }
}

/// Returns the number that an item ends with.
fn number_in(item: &Blob) -> Option<u64> {
    match item.as_slice().last() {
        Some(byte) => Some(u64::from(*byte)),
        None => None,
    }
}

/// The number of turns of one poll, before other tasks go on.
const TURNS: u32 = 64;

impl Future for StreamingCall {
    type Output = Result<Option<Response>>;

    fn poll(&mut self, cx: &mut Context<'_>) -> Poll<Result<Option<Response>>> {
        for _ in 0..TURNS {
            match self.poll_turn(cx) {
                Poll::Pending => return Poll::Pending,
                Poll::Ready(Some(ended)) => return Poll::Ready(ended),
                Poll::Ready(None) => {}
            }
        }
        cx.yield_now()
    }
}
