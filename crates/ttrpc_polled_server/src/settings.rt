//! The settings of a server.
ghost use Rattle.std.specs.Prelude.{◌≡◌, IfErr, OnOk, false, true};
ghost use Rattle.ttrpc_polled_server.specs.Built.{IsFixed, IsNewSettings, IsToldBy, IsUnbound, has_room, within};

use std::alloc::Global;
use std::time::Duration;
use ttrpc_proto::{Error, Result, Text};

/// The time that a connection that ends waits for its handlers, in seconds.
const CONNECTION_SECONDS: u64 = 5;

/// The time that a server that disconnects waits for its connections, in seconds.
const SERVER_SECONDS: u64 = 10;

/// The time that a server waits before it accepts again after a fault, in seconds.
const ACCEPT_SECONDS: u64 = 10;

/// The time for which the handlers of requests go on after the input has ended, in seconds.
const HALF_CLOSE_SECONDS: u64 = 5;

/// The most jobs of a connection that wait to be begun while the connection is read.
const WAITING_JOBS: u64 = 4096;

/// The most bytes of jobs that wait to be begun while their connection is read.
const WAITING_BYTES: u64 = 8_388_608;

/// The settings of a server, and the state of its calls.
#[derive(Clone, Copy, Debug, PartialEq, Eq)]
pub struct Settings {
    /// The time that a connection that ends waits for its handlers: 5 seconds by default.
    pub connection_limit: Duration,
    /// The time that a server that disconnects waits for its connections: 10 seconds by default.
    pub disconnect_limit: Duration,
    /// The time that a server waits before it accepts again, after the system gave no connection: 10 seconds by default.
    pub accept_retry_interval: Duration,
    /// True if a stream that is opened without a payload begins without an item, as peers written in Go mean it. False by default.
    pub bare_openings: bool,
    /// The time for which the handlers of requests go on after the input of their connection has ended; `None` is no limit. 5 seconds by
    /// default.
    pub half_close_limit: Option<Duration>,
    /// The longest time that a peer may pause inside a frame; `None`, the default, is no limit.
    pub frame_limit: Option<Duration>,
    /// The most jobs of a connection that wait to be begun while the connection is read; `None` is no limit. 4,096 by default.
    pub waiting_jobs: Option<u64>,
    /// The most bytes of such jobs; `None` is no limit. 8 MiB by default.
    pub waiting_bytes: Option<u64>,
    /// True if the server accepts connections.
    pub is_listening: bool,
    /// True if the server's services are fixed.
    pub is_fixed: bool,
}

impl Settings {
    /// Makes the settings of a server for which nothing is set.
    pub fn new() -> Settings
        ensures { IsNewSettings result }
    {
        Settings {
            connection_limit: Duration::from_secs(CONNECTION_SECONDS),
            disconnect_limit: Duration::from_secs(SERVER_SECONDS),
            accept_retry_interval: Duration::from_secs(ACCEPT_SECONDS),
            bare_openings: false,
            half_close_limit: Some(Duration::from_secs(HALF_CLOSE_SECONDS)),
            frame_limit: None,
            waiting_jobs: Some(WAITING_JOBS),
            waiting_bytes: Some(WAITING_BYTES),
            is_listening: false,
            is_fixed: false,
        }
    }

    /// Returns whether a connection is read while `jobs` jobs and `bytes` bytes wait.
    pub fn has_room(&self, jobs: u64, bytes: u64) -> bool
        ensures { result ≡ has_room self.now jobs bytes }
    {
        is_within(self.waiting_jobs, jobs) && is_within(self.waiting_bytes, bytes)
    }

    /// Checks that services may be registered, which is refused after the server has started.
    pub fn check_register(&self, alloc: Global) -> Result<()>
        ensures ok { OnOk result (self.now.is_fixed ≡ false) }
        ensures err { IfErr result (λ e. (self.now.is_fixed ≡ true) × IsFixed e) }
    {
        if !self.is_fixed {
            return Ok(());
        }
        Err(refusal_error(alloc, "services are fixed after start"))
    }
}

/// Returns whether `count` is within the limit, if there is one.
fn is_within(limit: Option<u64>, count: u64) -> bool
    ensures { result ≡ within limit count }
{
    match limit {
        Some(most) => count <= most,
        None => true,
    }
}

/// Makes the error of a server that has no listener to start with.
pub(crate) fn unbound_error(alloc: Global) -> Error
    ensures { IsUnbound result }
{
    refusal_error(alloc, "ttrpc-rust server started with no bound listener")
}

/// Makes the error with this text, or `NoMemory` if memory for the text was refused.
fn refusal_error(alloc: Global, text: &str) -> Error
    ensures { IsToldBy text.now result }
{
    match Text::from_str(alloc, text) {
        Ok(text) => Error::Others(text),
        Err(_) => Error::NoMemory,
    }
}
