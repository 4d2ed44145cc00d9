//! The input of a connection that waits to be handled, and its limits.
ghost use Rattle.std.specs.Prelude.{◌≡◌, false};
ghost use Rattle.ttrpc_sync_server.specs.Connection.Backlogs.{is_above, is_full, with_begun, with_piece};

use ttrpc_proto::MESSAGE_HEADER_LENGTH;

/// The input of a connection that waits to be handled, with its limits. While more waits, the reader that has the turn reads nothing. The
/// connection's lock guards the backlog.
#[derive(Debug, Drop)]
pub struct Backlog {
    /// The most jobs that may wait, if there is a limit.
    pub max_jobs: Option<u64>,
    /// The most bytes that may wait, if there is a limit.
    pub max_bytes: Option<u64>,
    /// The number of bytes that wait: the bytes that came since no job waited, less the frames of the jobs that have begun since.
    pub bytes: u64,
    /// The number of pieces that have come.
    pub pieces: u64,
    /// True if the reader that has the turn waits for room.
    pub reader_waits: bool,
}

impl Backlog {
    /// Makes the backlog of a connection from which nothing has come, with these limits.
    pub fn new(max_jobs: Option<u64>, max_bytes: Option<u64>) -> Backlog
        ensures { result
            ≡ record { max_jobs = max_jobs; max_bytes = max_bytes; bytes = 0; pieces = 0; reader_waits = false } }
    {
        Backlog {
            max_jobs,
            max_bytes,
            bytes: 0,
            pieces: 0,
            reader_waits: false,
        }
    }

    /// Counts `length` bytes of a piece that have come, if any have.
    pub fn came(&mut self, length: usize)
        ensures { self.new ≡ with_piece self.old length }
    {
        if length == 0 {
            return;
        }
        self.bytes = self.bytes.saturating_add(length as u64);
        self.pieces = self.pieces.saturating_add(1);
    }

    /// Counts out a job that has begun. `length` is the length of its frame's payload, and `waiting` is the number of jobs that still wait.
    pub fn begun(&mut self, length: u32, waiting: u64)
        ensures { self.new ≡ with_begun self.old length waiting }
    {
        let frame = u64::from(length) + MESSAGE_HEADER_LENGTH as u64;
        self.bytes = if waiting == 0 {
            0
        } else {
            self.bytes.saturating_sub(frame)
        };
    }

    /// Returns whether too much waits, if `waiting` jobs wait.
    pub fn is_full(&self, waiting: u64) -> bool
        ensures { result ≡ is_full self.now waiting }
    {
        is_above(waiting, self.max_jobs) || (waiting > 0 && is_above(self.bytes, self.max_bytes))
    }
}

/// Returns whether a count is above the limit, if there is one.
fn is_above(count: u64, limit: Option<u64>) -> bool
    ensures { result ≡ is_above limit count }
{
    match limit {
        Some(limit) => count > limit,
        None => false,
    }
}
