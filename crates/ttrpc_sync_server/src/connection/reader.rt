//! A reader: one of two threads that read a connection in turn.
use crate::connection::conn::Conn;
use crate::connection::context::MethodHandler;
use crate::connection::ports::ServerRead;
use crate::connection::serving::WatchedHandlers;
use crate::connection::worker::Dispatch;
use std::alloc::Global;
use std::sync::{Arc, Wait};
use ttrpc_secure::{InboundTransform, OutboundTransform};
use ttrpc_sync::Host;
use ttrpc_transport::Watch;

/// Reads until the client sends nothing more, or the connection has failed. Requests that were read are still answered. While the other
/// reader waits for the turn, this reader handles the jobs of its input itself, since waking a worker takes longer than most jobs do.
/// `reader` is the number by which it has the turn.
pub fn read<R, O, I, H, W>(
    conn: &Arc<Conn<R, O, I>, Global>,
    serving: &WatchedHandlers<H, W>,
    reader: u32,
)
where
    R: Host,
    O: OutboundTransform + Drop,
    I: InboundTransform + Drop,
    H: MethodHandler<R, O, I> + Drop,
    W: Watch + Drop,
{
    let (rt, link) = (conn.rt(), conn.link());
    let shared = link.shared();
    let dispatch = Dispatch::new(conn, serving);
    let mut port = ServerRead::new(rt, rt.alloc(), shared);
    for _ in rt.forever() {
        if !shared.wait_to_read(rt, reader) {
            return;
        }
        link.run_reader(rt, &mut port);
        // If the loop ended with the turn, nothing more is read, and the other reader waits for the end. Otherwise this reader
        // handles jobs or waits for room.
        if port.has_turn() || dispatch.handle_waiting(reader) {
            return;
        }
    }
    unreachable!()
}
