//! A server that is shut down after some time.
ghost use Rattle.futures.specs.Poll.{OnPending};
ghost use Rattle.futures.specs.Task.{IsArmed, Keeps};

use crate::program::ChatServer;
use crate::service::{EchoMethod, EchoStream};
use crate::system::ChatSystem;
use futures::task::{Context, Poll};
use futures::{Future, Stream};
use tokio::time::Sleep;
use ttrpc_polled_server::{NoHook, Serving, Shutdown, TcpServerConnection};
use ttrpc_secure::Plain;

/// A connection of the program's server.
pub type EchoConnection<R> = TcpServerConnection<R, EchoMethod, EchoStream, Plain, Plain>;

/// Accepts the connections of a server until a time is over, and then shuts the server down. The stream ends after the
/// shutdown.
#[derive(Drop)]
pub struct ServesFor<R: ChatSystem> {
    server: ChatServer<R>,
    serving: Option<Serving<R, EchoMethod, EchoStream, NoHook>>,
    until: Until,
}

/// The event that the end of the stream waits for.
#[derive(Drop)]
enum Until {
    /// The time is over.
    Time(Sleep),
    /// The server is shut down.
    Shutdown(Shutdown),
}

impl<R: ChatSystem> ServesFor<R> {
    /// Returns the stream of the server's connections, which shuts the server down when the time is over.
    pub fn new(
        server: ChatServer<R>,
        serving: Serving<R, EchoMethod, EchoStream, NoHook>,
        time: Sleep,
    ) -> ServesFor<R> {
        ServesFor {
            server,
            serving: Some(serving),
            until: Until::Time(time),
        }
    }

    /// Shuts the server down when the time is over. Ready when the server is shut down, or can't be.
    fn poll_end(&mut self, cx: &mut Context<'_>) -> Poll<()>
        ensures registered { OnPending result (IsArmed cx.new) }
        ensures kept { Keeps cx.old cx.new }
    {
        match &mut self.until {
            Until::Time(time) => {
                if time.poll(cx).is_pending() {
                    return Poll::Pending;
                }
            }
            Until::Shutdown(shutdown) => {
                return match shutdown.poll(cx) {
                    Poll::Pending => Poll::Pending,
                    Poll::Ready(_) => Poll::Ready(()),
                };
            }
        }
        match self.server.shutdown() {
            Ok(shutdown) => {
                self.until = Until::Shutdown(shutdown);
                cx.yield_now()
            }
            Err(_) => Poll::Ready(()),
        }
    }
}

impl<R: ChatSystem> Stream for ServesFor<R> {
    type Item = EchoConnection<R>;

    ghost use Rattle.std.specs.Prelude.{IfSome};
    ghost use Rattle.ttrpc_polled_server.specs.Needs.{CanPoll};
    ghost use Rattle.ttrpc_polled_echo.specs.Needs.{MethodCallCanPoll, StreamCallCanPoll};

    ghost yields = { λ _ _ last. IfSome last (CanPoll MethodCallCanPoll StreamCallCanPoll) };

    fn poll_next(&mut self, cx: &mut Context<'_>) -> Poll<Option<EchoConnection<R>>> {
        if self.poll_end(cx).is_ready() {
            return Poll::Ready(None);
        }
        let Some(serving) = &mut self.serving else {
            return Poll::Pending;
        };
        match serving.poll_next(cx) {
            Poll::Ready(None) => {
                self.serving = None;
                cx.yield_now()
            }
            polled => polled,
        }
    }
}
