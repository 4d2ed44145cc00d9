//! A clock with moments that are set, and an acceptor that fails a set number of times.
use std::io::{self, ErrorKind};
use std::sync::atomic::{AtomicU64, Ordering};
use std::time::{Clock, Duration};
use ttrpc_sync_server::accept::Accepts;
use ttrpc_transport::PipeConnection;

/// A clock that gives the moment `first` once, and then always `second`.
#[derive(Drop)]
pub struct Moments {
    pub first: AtomicU64,
    pub second: u64,
}

impl Clock for Moments {
    fn monotonic(&self) -> io::Result<Duration> {
        Ok(Duration::from_nanos(self.first.swap(self.second, Ordering::SeqCst)))
    }

    fn since_1970(&self) -> io::Result<Duration> {
        self.monotonic()
    }
}

/// An acceptor that fails `left` times with this kind, and then reports that no more connections come.
#[derive(Drop)]
pub struct Failing {
    pub kind: ErrorKind,
    pub left: AtomicU64,
}

impl Accepts for Failing {
    fn accept(&self) -> io::Result<Option<PipeConnection>> {
        if self.left.load(Ordering::SeqCst) == 0 {
            return Ok(None);
        }
        self.left.fetch_sub(1, Ordering::SeqCst);
        Err(io::Error::from(self.kind))
    }
}
