//! The future of a client's connection.
ghost use Rattle.std.specs.Prelude.{◌≡◌};

use crate::shared::ClientShared;
use futures::Future;
use futures::spin::lock;
use futures::task::{Context, Poll};
use std::time::Clock;
use tokio::io::{AsyncRead, AsyncWrite};
use tokio::net::OwnedWriteHalf;
use ttrpc_polled::{ConnectionDriver, SocketReader, Step};
use ttrpc_secure::{InboundTransform, OutboundTransform};

/// The most turns of one poll, before it lets other tasks run.
const TURNS: u8 = 64;

/// The future of a client's connection: while it is polled, calls and streams go on. It is ready once the connection is over. If it is
/// dropped, the connection fails, so that no task waits for it.
///
/// A poll first reports the moment to the core, if a call has expired by then. It hands on at most one piece and goes on for some 100
/// microseconds; then it lets other tasks run.
pub struct ClientConnection<
    R: Clock + AllocGlobal + Drop,
    S: AsyncRead,
    W: AsyncWrite,
    O: OutboundTransform + Drop,
    I: InboundTransform + Drop,
> {
    link: ConnectionDriver<R, S, W, ClientShared<O, I>>,
    gives_way: bool,
}

/// The future of a client's connection over TCP.
pub type TcpConnection<R, O, I> = ClientConnection<R, SocketReader, OwnedWriteHalf, O, I>;

impl<
    R: Clock + AllocGlobal + Drop,
    S: AsyncRead,
    W: AsyncWrite,
    O: OutboundTransform + Drop,
    I: InboundTransform + Drop,
> ClientConnection<R, S, W, O, I> {
    /// Makes the future over this link.
    pub(crate) fn new(link: ConnectionDriver<R, S, W, ClientShared<O, I>>) -> Self
        ensures { result.link ≡ link }
    {
        ClientConnection {
            link,
            gives_way: false,
        }
    }
}

impl<
    R: Clock + AllocGlobal + Drop,
    S: AsyncRead,
    W: AsyncWrite,
    O: OutboundTransform + Drop,
    I: InboundTransform + Drop,
> Future for ClientConnection<R, S, W, O, I> {
    type Output = ();

    ghost use Rattle.ttrpc_polled.specs.Needs.{LinkNeeds};
    ghost use Rattle.ttrpc_polled_client.specs.Needs.{asked_source};

    ghost needs = { λ c. LinkNeeds S.AsyncRead.needs W.AsyncWrite.needs asked_source c.link };

    fn poll(&mut self, cx: &mut Context<'_>) -> Poll<()> {
        if self.gives_way {
            self.gives_way = false;
            return cx.yield_now();
        }
        let mut share = self.link.look();
        for _ in 0..TURNS {
            match self.link.turn(&mut share, cx) {
                Step::Moved => {
                    if share.is_over() {
                        return cx.yield_now();
                    }
                }
                // The tasks that waited for the lent bytes come first, so that more goes out by one write. An event loop may take them in
                // after the tasks that yielded meanwhile, so this gives way twice.
                Step::Gathered => {
                    self.gives_way = true;
                    return cx.yield_now();
                }
                Step::Waits => return Poll::Pending,
                Step::Over => return Poll::Ready(()),
            }
        }
        cx.yield_now()
    }
}

impl<
    R: Clock + AllocGlobal + Drop,
    S: AsyncRead,
    W: AsyncWrite,
    O: OutboundTransform + Drop,
    I: InboundTransform + Drop,
> Drop for ClientConnection<R, S, W, O, I> {
    fn drop(self) {
        let Self { link, gives_way: _ } = self;
        if let Some(mut held) = lock(&link.shared().held) {
            (&mut *held).abandon();
        }
    }
}
