//! Streams on which a client sends items.
ghost use Rattle.futures.specs.Poll.{OnPending};
ghost use Rattle.futures.specs.Task.{Covers, Keeps};
ghost use Rattle.ttrpc_load_polled.specs.Needs.{TalkNeeds};

use crate::calling::same;
use futures::task::{Context, Poll};
use futures::{Future, Stream};
use std::mem::replace;
use ttrpc_message::Context as CallContext;
use ttrpc_polled::{CSReceiver, CSSender, ClientStream, Sending, Timed, sending_of};
use ttrpc_polled_client::{Client, ClientLine, ClientOpening, open_of};
use ttrpc_proto::Result;
use ttrpc_secure::Plain;
use ttrpc_wire::Blob;

/// The line that the streams share.
pub type LoadLine = ClientLine<Plain, Plain>;

/// The kind of a talk on a stream.
#[derive(Clone, Copy, Debug, PartialEq, Eq)]
pub enum Talk {
    /// Each item comes back before the next is sent.
    Chat,
    /// All items are sent, and then one message comes.
    Sum,
}

impl Talk {
    /// Returns the name of the stream of `demo.Echo`.
    fn name(self) -> &'static str {
        match self {
            Talk::Chat => "Chat",
            Talk::Sum => "Sum",
        }
    }
}

/// Both halves of an open stream.
#[derive(Drop)]
pub struct Halves {
    tx: CSSender<Blob, LoadLine>,
    rx: CSReceiver<Blob, LoadLine>,
}

/// A stream that is being opened.
type OpeningTalk<R> = ClientOpening<ClientStream<Blob, Blob, LoadLine>, R, Plain, Plain>;

/// The state of a talk.
#[derive(Drop)]
pub enum TalkAt<R: Timed> {
    /// The stream is being opened.
    Opens(OpeningTalk<R>),
    /// An item or the close is being sent.
    Sends(Halves, Sending),
    /// The next item is awaited.
    Receives(Halves),
    /// The talk has ended.
    Done,
}

/// A stream on which a number of items is sent.
#[derive(Drop)]
pub struct Talks<R: Timed> {
    client: Client<R, Plain, Plain>,
    talk: Talk,
    item: Blob,
    left: usize,
    at: TalkAt<R>,
}

impl<R: Timed> Talks<R> {
    /// Prepares a talk of this kind with `left` items, by this client.
    pub fn new(client: Client<R, Plain, Plain>, talk: Talk, item: Blob, left: usize) -> Talks<R> {
        let context = CallContext::new(client.alloc());
        let answered = talk == Talk::Chat;
        let opens = open_of(&client, "demo.Echo", talk.name(), context, answered);
        Talks {
            client,
            talk,
            item,
            left,
            at: TalkAt::Opens(opens),
        }
    }

    /// Begins to send the next item, or the close if there are no more.
    fn send_next(&mut self, halves: Halves) {
        let sending = if self.left == 0 {
            Sending::Closes
        } else {
            sending_of(self.client.alloc(), &self.item)
        };
        self.at = TalkAt::Sends(halves, sending);
    }

    /// Goes on after a frame has left. Returns whether that ends an exchange.
    fn sent(&mut self, halves: Halves) -> bool {
        if self.talk == Talk::Chat || self.left == 0 {
            self.at = TalkAt::Receives(halves);
            return false;
        }
        self.left = self.left.saturating_sub(1);
        self.send_next(halves);
        true
    }

    /// Goes on after an item came. Returns whether that ends an exchange.
    fn received(&mut self, halves: Halves, item: &Blob) -> Result<bool> {
        if self.talk == Talk::Sum {
            return Ok(false);
        }
        same(self.client.alloc(), item.as_slice(), self.item.as_slice())?;
        self.left = self.left.saturating_sub(1);
        if self.left > 0 {
            self.send_next(halves);
        }
        Ok(true)
    }

    /// Polls the opening of the stream. Ready with false if the stream is open, since that ends no exchange, or with
    /// the error.
    fn poll_opening(
        &mut self,
        opening: OpeningTalk<R>,
        cx: &mut Context<'_>,
    ) -> Poll<Option<Result<bool>>>
        ensures registered { OnPending result (Covers cx.new (TalkNeeds self.new.at)) }
        ensures kept { Keeps cx.old cx.new }
    {
        let mut opening = opening;
        match opening.poll(cx) {
            Poll::Pending => {
                self.at = TalkAt::Opens(opening);
                Poll::Pending
            }
            Poll::Ready(Ok(stream)) => {
                let (tx, rx) = stream.split();
                self.send_next(Halves { tx, rx });
                Poll::Ready(Some(Ok(false)))
            }
            Poll::Ready(Err(error)) => Poll::Ready(Some(Err(error))),
        }
    }

    /// Polls the sending of a frame. Ready with true if that ends an exchange, with false if it doesn't, or with the
    /// error.
    fn poll_sending(
        &mut self,
        halves: Halves,
        sending: Sending,
        cx: &mut Context<'_>,
    ) -> Poll<Option<Result<bool>>>
        ensures registered { OnPending result (Covers cx.new (TalkNeeds self.new.at)) }
        ensures kept { Keeps cx.old cx.new }
    {
        let mut sending = sending;
        match halves.tx.poll_sending(&mut sending, cx) {
            Poll::Pending => {
                self.at = TalkAt::Sends(halves, sending);
                Poll::Pending
            }
            Poll::Ready(Ok(())) => Poll::Ready(Some(Ok(self.sent(halves)))),
            Poll::Ready(Err(error)) => Poll::Ready(Some(Err(error))),
        }
    }

    /// Polls for an item. Ready with true if that ends an exchange, with false if it doesn't, or with the error.
    fn poll_item(&mut self, halves: Halves, cx: &mut Context<'_>) -> Poll<Option<Result<bool>>>
        ensures registered { OnPending result (Covers cx.new (TalkNeeds self.new.at)) }
        ensures kept { Keeps cx.old cx.new }
    {
        let mut halves = halves;
        match halves.rx.poll_recv(cx) {
            Poll::Pending => {
                self.at = TalkAt::Receives(halves);
                Poll::Pending
            }
            Poll::Ready(Ok(item)) => Poll::Ready(Some(self.received(halves, &item))),
            Poll::Ready(Err(error)) => Poll::Ready(Some(Err(error))),
        }
    }
}

impl<R: Timed> Stream for Talks<R> {
    type Item = Result<bool>;

    ghost use Rattle.ttrpc_load_polled.specs.Needs.{TalkNeeds};

    ghost needs = { λ t. TalkNeeds t.at };

    fn poll_next(&mut self, cx: &mut Context<'_>) -> Poll<Option<Result<bool>>> {
        match replace(&mut self.at, TalkAt::Done) {
            TalkAt::Opens(opening) => self.poll_opening(opening, cx),
            TalkAt::Sends(halves, sending) => self.poll_sending(halves, sending, cx),
            TalkAt::Receives(halves) => self.poll_item(halves, cx),
            TalkAt::Done => Poll::Ready(None),
        }
    }
}
