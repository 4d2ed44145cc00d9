//! Callers, and the time of each of their calls.
ghost use Rattle.std.specs.Prelude.{◌≡◌, length, IfOk};

use std::alloc::Global;
use std::net::{Net, TcpStream};
use std::sync::Arc;
use std::sync::atomic::{AtomicU64, Ordering};
use ttrpc_load_polled::{request_of, same};
use ttrpc_proto::Result;
use ttrpc_secure::Plain;
use ttrpc_sync::{Host, Runtime, moment};
use ttrpc_sync_client::Client;
use ttrpc_transport::PipeConnection;

/// A peer that answers a payload with the same bytes.
pub trait Echoes<R: Host> {
    /// Sends the payload, and waits for its answer. Any other answer is an error.
    fn echo(&self, rt: &R, payload: &[u8]) -> Result<()>;
}

/// A client of a server's `Echo`.
#[derive(Drop)]
pub struct EchoCaller<R: Host> {
    pub client: Client<R, Plain, Plain>,
}

impl<R: Host> Echoes<R> for EchoCaller<R> {
    fn echo(&self, rt: &R, payload: &[u8]) -> Result<()> {
        let response = self.client.request(request_of(rt.alloc(), payload)?)?;
        same(rt.alloc(), response.payload.as_slice(), payload)
    }
}

/// Makes `count` calls, and returns the time of each, in nanoseconds. Each answered call is counted in `done`.
pub fn times_of<R: Host, E: Echoes<R>>(
    rt: &R,
    echo: &E,
    count: usize,
    bytes: usize,
    done: &AtomicU64,
) -> Result<Vec<u64>>
    ensures { IfOk result (λ times. length times.items ≡ count) }
{
    let payload = Vec::from_elem(rt.alloc(), 7u8, bytes)?;
    // All pages of the times are touched first, so that memory doesn't grow during the calls.
    let mut times = Vec::from_elem(rt.alloc(), u64::MAX, count)?;
    for time in times.iter_mut() {
        let start = moment(rt)?;
        echo.echo(rt, payload.as_slice())?;
        *time = moment(rt)?.saturating_sub(start);
        done.fetch_add(1, Ordering::Relaxed);
    }
    Ok(times)
}
