//! The settings of a server: their values, how each call changes them, and which calls the server refuses by them.

mod refusal;

ghost use Rattle.std.specs.Prelude.{◌≡◌, None, Some, IfErr, OnOk};
ghost use Rattle.ttrpc_sync_server.specs.Settings.{IsNew, IsRefused, bind_refusal, listen_refusal, register_refusal, start_refusal};

pub use self::refusal::Refusal;
use std::alloc::Global;
use std::time::Duration;
use ttrpc_proto::Result;

/// The settings of a server.
#[derive(Clone, Copy, Debug)]
pub struct Settings {
    /// The number of workers that a connection starts with, and is filled up to.
    pub thread_count_default: usize,
    /// The number of waiting workers below which a connection is filled up.
    pub thread_count_min: usize,
    /// The most workers of a connection that may wait for a job.
    pub thread_count_max: usize,
    /// The time that the server waits before it accepts again, after the system had no room for a connection.
    pub accept_retry_interval: Duration,
    /// The most jobs of a connection that may wait to be begun while the connection is read; `None` is no limit.
    pub waiting_jobs: Option<u64>,
    /// The most bytes of such jobs; `None` is no limit.
    pub waiting_bytes: Option<u64>,
    /// The longest time that a peer may pause inside a frame; `None` is no limit.
    pub frame_limit: Option<Duration>,
    /// The longest time that a connection which ends stays open after its last answer, if its peer doesn't read. `None` waits until the
    /// peer has read all.
    pub close_limit: Option<Duration>,
    /// True if the server has an address.
    pub is_bound: bool,
    /// True if the server listens.
    pub is_listening: bool,
    /// True if the server has started, so that its services are fixed.
    pub is_fixed: bool,
}

impl Settings {
    /// Makes the settings of a server for which nothing is set: 3 workers, and at least 1 and at most 5 that wait; 10 seconds to accept
    /// again. 4,096 jobs and 8 MiB may wait. Pauses have no limit, closing takes at most 5 seconds, and there is no address.
    pub fn new() -> Settings
        ensures { IsNew result }
    {
        Settings {
            thread_count_default: 3,
            thread_count_min: 1,
            thread_count_max: 5,
            accept_retry_interval: Duration::from_secs(10),
            waiting_jobs: Some(4096),
            waiting_bytes: Some(8388608),
            frame_limit: None,
            close_limit: Some(Duration::from_secs(5)),
            is_bound: false,
            is_listening: false,
            is_fixed: false,
        }
    }

    /// Checks that the server may get an address: it must have none.
    pub fn check_bind(&self, alloc: Global) -> Result<()>
        ensures ok { OnOk result (bind_refusal self.now ≡ None) }
        ensures refused { IfErr result (IsRefused (bind_refusal self.now)) }
    {
        if self.is_bound {
            return Err(Refusal::SecondAddress.error(alloc));
        }
        Ok(())
    }

    /// Checks that the server may get services: it must not have started.
    pub fn check_register(&self, alloc: Global) -> Result<()>
        ensures ok { OnOk result (register_refusal self.now ≡ None) }
        ensures refused { IfErr result (IsRefused (register_refusal self.now)) }
    {
        if self.is_fixed {
            return Err(Refusal::Started.error(alloc));
        }
        Ok(())
    }

    /// Checks that the server may listen: it must have an address, and not listen yet.
    pub fn check_listen(&self, alloc: Global) -> Result<()>
        ensures ok { OnOk result (listen_refusal self.now ≡ None) }
        ensures refused { IfErr result (IsRefused (listen_refusal self.now)) }
    {
        if !self.is_bound {
            return Err(Refusal::NotBound.error(alloc));
        }
        if self.is_listening {
            return Err(Refusal::Listening.error(alloc));
        }
        Ok(())
    }

    /// Checks that the server may start: its counts must be in order, and it must be able to listen.
    pub fn check_start(&self, alloc: Global) -> Result<()>
        ensures ok { OnOk result (start_refusal self.now ≡ None) }
        ensures refused { IfErr result (IsRefused (start_refusal self.now)) }
    {
        if self.thread_count_default >= self.thread_count_max {
            return Err(Refusal::NotBelowMax.error(alloc));
        }
        if self.thread_count_default <= self.thread_count_min {
            return Err(Refusal::NotAboveMin.error(alloc));
        }
        self.check_listen(alloc)
    }
}
