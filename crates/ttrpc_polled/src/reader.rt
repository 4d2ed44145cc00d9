//! The reading half of a polled socket.
ghost use Rattle.std.specs.Prelude.{◌≡◌};

use futures::task::{Context, Poll};
use std::io::{self, ErrorKind};
use tokio::io::AsyncRead;
use tokio::net::OwnedReadHalf;

/// The reading half of a socket. Until a read has once been answered with "would block", each read asks the system, whatever is known of
/// the socket. An event that came before the event loop had taken in its task is lost there. A task that waited for such an event would
/// wait without an end.
#[derive(Drop)]
pub struct SocketReader {
    half: OwnedReadHalf,
    has_blocked: bool,
}

impl SocketReader {
    /// Makes a reader of this half.
    pub fn new(half: OwnedReadHalf) -> SocketReader
        ensures { result.half ≡ half }
    {
        SocketReader {
            half,
            has_blocked: false,
        }
    }
}

impl AsyncRead for SocketReader {
    ghost use Rattle.std.specs.Prelude.{◌≡◌, ⊤};
    ghost use Rattle.std.specs.Arc.{arc_value};
    ghost use Rattle.tokio.specs.Net.{read_source};

    ghost needs = { λ s source. source ≡ read_source (arc_value s.half.io) };

    ghost reads = { λ _ _ _. ⊤ };

    ghost is_at_end = { λ _. ⊤ };

    ghost reads_nothing = { λ _. tt };

    ghost reads_in_order = { λ _ _ _ _ _ _ _. tt };

    fn poll_read(&mut self, cx: &mut Context<'_>, buf: &mut [u8]) -> Poll<io::Result<usize>> {
        if !self.has_blocked {
            match self.half.try_read(buf) {
                Err(error) if error.kind() == ErrorKind::WouldBlock => self.has_blocked = true,
                done => return Poll::Ready(done),
            }
        }
        self.half.poll_read(cx, buf)
    }
}
