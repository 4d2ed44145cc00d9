//! The stream `Chat`, which sends each item back.
ghost use Rattle.futures.specs.Poll.{OnPending};
ghost use Rattle.futures.specs.Task.{Covers, Keeps};
ghost use Rattle.ttrpc_polled_echo.specs.Needs.{ChattingNeeds};

use futures::Future;
use futures::task::{Context, Poll};
use std::mem::replace;
use ttrpc_polled::{SSReceiver, SSSender, Sending, ServerStream, StreamLine};
use ttrpc_proto::{Error, Result};
use ttrpc_wire::Blob;

/// The number of turns of one poll, before other tasks run.
const TURNS: u32 = 64;

/// The state of a chat.
#[derive(Drop)]
enum ChatState {
    /// The chat waits for an item.
    Receives,
    /// The chat sends an item back.
    Sends(Sending),
    /// The chat has ended.
    Done,
}

/// A running chat.
#[derive(Drop)]
pub struct Chatting<L: StreamLine> {
    sender: SSSender<Blob, L>,
    receiver: SSReceiver<Blob, L>,
    turn: ChatState,
    has_item: bool,
}

impl<L: StreamLine> Chatting<L> {
    /// Begins a chat on this stream.
    pub fn new(stream: ServerStream<Blob, Blob, L>) -> Chatting<L> {
        let (sender, receiver) = stream.split();
        Chatting {
            sender,
            receiver,
            turn: ChatState::Receives,
            has_item: false,
        }
    }

    /// Polls for an item. Ready with `None` if an item came, which is then sent back, or with the result of the chat. A
    /// peer may flag its last item as the last, so after an item `RemoteClosed` is the normal end.
    fn poll_item(&mut self, cx: &mut Context<'_>) -> Poll<Option<Result<()>>>
        ensures registered { OnPending result (Covers cx.new (ChattingNeeds L.came self.new)) }
        ensures kept { Keeps cx.old cx.new }
    {
        match self.receiver.poll_recv(cx) {
            Poll::Pending => {
                self.turn = ChatState::Receives;
                Poll::Pending
            }
            Poll::Ready(Ok(Some(item))) => {
                self.turn = ChatState::Sends(Sending::Sends(item));
                self.has_item = true;
                Poll::Ready(None)
            }
            Poll::Ready(Ok(None)) => Poll::Ready(Some(Ok(()))),
            Poll::Ready(Err(Error::RemoteClosed)) if self.has_item => Poll::Ready(Some(Ok(()))),
            Poll::Ready(Err(error)) => Poll::Ready(Some(Err(error))),
        }
    }

    /// Polls the sending of an item. Ready with `None` if the item has left, or with the result of the chat.
    fn poll_sending(&mut self, sending: Sending, cx: &mut Context<'_>) -> Poll<Option<Result<()>>>
        ensures registered { OnPending result (Covers cx.new (ChattingNeeds L.came self.new)) }
        ensures kept { Keeps cx.old cx.new }
    {
        let mut sending = sending;
        match self.sender.poll_sending(&mut sending, cx) {
            Poll::Pending => {
                self.turn = ChatState::Sends(sending);
                Poll::Pending
            }
            Poll::Ready(Ok(())) => {
                self.turn = ChatState::Receives;
                Poll::Ready(None)
            }
            Poll::Ready(Err(error)) => Poll::Ready(Some(Err(error))),
        }
    }

    /// Goes on by one turn. Ready with `None` if the chat goes on, or with its result.
    fn poll_turn(&mut self, cx: &mut Context<'_>) -> Poll<Option<Result<()>>>
        ensures registered { OnPending result (Covers cx.new (ChattingNeeds L.came self.new)) }
        ensures kept { Keeps cx.old cx.new }
    {
        match replace(&mut self.turn, ChatState::Done) {
            ChatState::Receives => self.poll_item(cx),
            ChatState::Sends(sending) => self.poll_sending(sending, cx),
            ChatState::Done => Poll::Ready(Some(Err(Error::LocalClosed))),
        }
    }
}

impl<L: StreamLine> Future for Chatting<L> {
    type Output = Result<()>;

    ghost use Rattle.ttrpc_polled_echo.specs.Needs.{ChattingNeeds};

    ghost needs = { ChattingNeeds L.came };

    fn poll(&mut self, cx: &mut Context<'_>) -> Poll<Result<()>> {
        for _ in 0..TURNS {
            match self.poll_turn(cx) {
                Poll::Pending => return Poll::Pending,
                Poll::Ready(Some(ended)) => return Poll::Ready(ended),
                Poll::Ready(None) => {}
            }
        }
        cx.yield_now()
    }
}
