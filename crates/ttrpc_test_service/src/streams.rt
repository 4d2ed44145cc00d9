//! The streams of the tests' service.
use crate::messages::{Count, Item};
use futures::Future;
use futures::task::{Context, Poll};
use std::alloc::{AllocError, Global};
use std::mem::replace;
use ttrpc::asynchronous::{
    SSReceiver, SSSender, Sending, ServerShared, ServerStream, ServerStreamOpening,
    ServerStreamReceiver, ServerStreamSender, sending_of,
};
use ttrpc::proto::{Blob, Text};
use ttrpc::security_extension::Plain;
use ttrpc::{Error, Result};

type Line = ServerShared<Plain, Plain>;

/// Returns an item with `count` bytes.
fn item_of(alloc: Global, count: u64) -> std::result::Result<Item, AllocError> {
    let content = Vec::from_elem(alloc, 0u8, count as usize)?;
    Ok(Item {
        name: Text::new(alloc),
        content: Blob::from_vec(content),
    })
}

/// The state of a list with one item.
#[derive(Drop)]
enum Listed {
    /// Waits for its request.
    Opens(ServerStreamOpening<Count, Item, Line>),
    /// Sends its item.
    Sends(ServerStreamSender<Item, Line>, Sending),
    /// The list has ended.
    Done,
}

/// A list of one item. The request gives the number of its bytes.
#[derive(Drop)]
pub struct Listing {
    alloc: Global,
    at: Listed,
}

impl Listing {
    pub fn new(alloc: Global, opening: ServerStreamOpening<Count, Item, Line>) -> Listing {
        let at = Listed::Opens(opening);
        Listing { alloc, at }
    }
}

impl Future for Listing {
    type Output = Result<()>;

    fn poll(&mut self, cx: &mut Context<'_>) -> Poll<Result<()>> {
        match replace(&mut self.at, Listed::Done) {
            Listed::Opens(mut opening) => match opening.poll(cx) {
                Poll::Pending => {
                    self.at = Listed::Opens(opening);
                    Poll::Pending
                }
                Poll::Ready(Ok((request, sender))) => {
                    let sending = match item_of(self.alloc, request.count) {
                        Ok(item) => sending_of(self.alloc, &item),
                        Err(refused) => return Poll::Ready(Err(refused.into())),
                    };
                    self.at = Listed::Sends(sender, sending);
                    cx.yield_now()
                }
                Poll::Ready(Err(error)) => Poll::Ready(Err(error)),
            },
            Listed::Sends(sender, mut sending) => {
                let sent = sender.poll_sending(&mut sending, cx);
                if sent.is_pending() {
                    self.at = Listed::Sends(sender, sending);
                }
                sent
            }
            Listed::Done => Poll::Ready(Err(Error::LocalClosed)),
        }
    }
}

/// Counts the bytes of the items' contents.
#[derive(Drop)]
pub struct Loading {
    pub receiver: ServerStreamReceiver<Item, Line>,
    pub count: u64,
}

impl Future for Loading {
    type Output = Result<Count>;

    fn poll(&mut self, cx: &mut Context<'_>) -> Poll<Result<Count>> {
        match self.receiver.poll_recv(cx) {
            Poll::Pending => Poll::Pending,
            Poll::Ready(Ok(Some(item))) => {
                self.count = self.count.saturating_add(item.content.len() as u64);
                cx.yield_now()
            }
            Poll::Ready(Ok(None)) => Poll::Ready(Ok(Count { count: self.count })),
            Poll::Ready(Err(error)) => Poll::Ready(Err(error)),
        }
    }
}

/// Sends each item back.
#[derive(Drop)]
pub struct Talking {
    alloc: Global,
    sender: SSSender<Item, Line>,
    receiver: SSReceiver<Item, Line>,
    sending: Option<Sending>,
}

impl Talking {
    pub fn new(alloc: Global, stream: ServerStream<Item, Item, Line>) -> Talking {
        let (sender, receiver) = stream.split();
        Talking {
            alloc,
            sender,
            receiver,
            sending: None,
        }
    }
}

impl Future for Talking {
    type Output = Result<()>;

    fn poll(&mut self, cx: &mut Context<'_>) -> Poll<Result<()>> {
        if let Some(mut sending) = self.sending.take() {
            match self.sender.poll_sending(&mut sending, cx) {
                Poll::Pending => {
                    self.sending = Some(sending);
                    return Poll::Pending;
                }
                Poll::Ready(Ok(())) => {}
                Poll::Ready(Err(error)) => return Poll::Ready(Err(error)),
            }
        }
        match self.receiver.poll_recv(cx) {
            Poll::Pending => Poll::Pending,
            Poll::Ready(Ok(Some(item))) => {
                self.sending = Some(sending_of(self.alloc, &item));
                cx.yield_now()
            }
            Poll::Ready(Ok(None)) => Poll::Ready(Ok(())),
            Poll::Ready(Err(error)) => Poll::Ready(Err(error)),
        }
    }
}
