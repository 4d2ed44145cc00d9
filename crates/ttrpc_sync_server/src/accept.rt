//! How a server accepts its connections.
ghost use Rattle.std.specs.Prelude.{◌↔◌, IsTrue};
ghost use Rattle.ttrpc_sync_server.specs.Accepting.{IsRetriedAtOnce};

use std::io::{self, ErrorKind};
use std::sync::{Condvar, Mutex, Wait};
use std::time::{Clock, Duration};
use ttrpc_proto::Error;
use ttrpc_transport::{PipeConnection, PipeListener, Watch};

/// A source of connections.
pub trait Accepts {
    /// Waits for a connection. Returns `None` if no more come.
    fn accept(&self) -> io::Result<Option<PipeConnection>>;
}

impl Accepts for PipeListener {
    fn accept(&self) -> io::Result<Option<PipeConnection>> {
        PipeListener::accept(self)
    }
}

/// The state by which a server is asked to stop. A server that waits to accept again learns from it that it is to listen no more, or that
/// one of its connections has ended, so that a descriptor is free. The server's owner waits on it for the request to shut the server down.
#[derive(Drop)]
pub struct StopSignal {
    requests: Mutex<StopRequests>,
    changed: Condvar,
}

#[derive(Drop)]
struct StopRequests {
    stops: bool,
    // The number of connections that have ended.
    ends: u64,
    // True if the server is to be shut down.
    shuts_down: bool,
}

impl StopSignal {
    /// Makes the state of a server that isn't asked to stop, and has no ended connections.
    pub fn new() -> StopSignal {
        StopSignal {
            requests: Mutex::new(StopRequests {
                stops: false,
                ends: 0,
                shuts_down: false,
            }),
            changed: Condvar::new(),
        }
    }

    /// Begins to listen: withdraws an earlier request to stop.
    pub fn begin<X: Wait>(&self, rt: &X) {
        self.requests.lock(rt).stops = false;
    }

    /// Asks the server to stop.
    pub fn ask<X: Wait>(&self, rt: &X) {
        self.requests.lock(rt).stops = true;
        self.changed.notify_all();
    }

    /// Asks the server's owner to shut it down.
    pub fn ask_to_shut_down<X: Wait>(&self, rt: &X) {
        self.requests.lock(rt).shuts_down = true;
        self.changed.notify_all();
    }

    /// Waits until the server's owner was asked to shut it down.
    pub fn wait_to_shut_down<X: Wait>(&self, rt: &X) {
        let requests = self.requests.lock(rt);
        let _ = self
            .changed
            .wait_while(rt, requests, |requests| !requests.shuts_down);
    }

    /// Reports that a connection of the server has ended.
    pub fn note_end<X: Wait>(&self, rt: &X) {
        let mut requests = self.requests.lock(rt);
        requests.ends = requests.ends.wrapping_add(1);
        drop(requests);
        self.changed.notify_all();
    }

    /// Returns how many connections have ended.
    pub fn ends<X: Wait>(&self, rt: &X) -> u64 {
        self.requests.lock(rt).ends
    }

    /// Waits until the limit has passed, another connection than the first `ends` has ended, or the server is asked to stop. Returns
    /// whether it was asked to stop.
    pub fn wait<X: Wait + Clock>(&self, rt: &X, ends: u64, limit: Duration) -> bool {
        let requests = self.requests.lock(rt);
        let (requests, _) = self
            .changed
            .wait_timeout_while(rt, requests, limit, |requests| {
                !requests.stops && requests.ends == ends
            });
        requests.stops
    }
}

/// Returns the next connection. If the system gives none, reports that to the watch, and tries again after the interval, or as soon as a
/// connection of the server has ended. Tries again at once if only a signal came, or the other side went away. Returns `None` if the server
/// listens no more.
pub fn next_connection<X: Wait + Clock, L: Accepts, W: Watch>(
    rt: &X,
    listener: &L,
    stop: &StopSignal,
    watch: &W,
    interval: Duration,
) -> Option<PipeConnection> {
    for _ in rt.forever() {
        let ends = stop.ends(rt);
        match listener.accept() {
            Ok(accepted) => return accepted,
            Err(error) if is_passing(error.kind()) => {}
            Err(error) => {
                watch.accept_failed(&Error::Nix(error.kind()));
                if stop.wait(rt, ends, interval) {
                    return None;
                }
            }
        }
    }
    unreachable!()
}

/// Returns whether only a signal came, or the other side went away.
fn is_passing(kind: ErrorKind) -> bool
    ensures { IsTrue result ↔ IsRetriedAtOnce kind }
{
    matches!(
        kind,
        ErrorKind::Interrupted | ErrorKind::ConnectionAborted | ErrorKind::ConnectionReset
    )
}
