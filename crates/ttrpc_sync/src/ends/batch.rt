//! When the bytes that were written are to leave.
ghost use Rattle.std.specs.Prelude.{◌≡◌, ◌+◌, ◌-◌, ◌^◌, min, false};
ghost use Rattle.ttrpc_sync.specs.Batches.{is_due, with_loan};

/// The number of bytes from which a batch leaves at the next end of a frame.
pub const BATCH_BYTES: usize = 32768;

/// The number of loans from which a batch of the writer thread leaves at the next end of a frame.
pub const BATCH_LOANS: u32 = 64;

/// The bytes that were written since the writer was flushed last.
#[derive(Clone, Copy, Debug)]
pub struct Batch {
    /// The number of bytes.
    pub bytes: usize,
    /// The number of loans they came from.
    pub loans: u32,
    /// True if the bytes end with a frame.
    pub ends_frame: bool,
}

impl Batch {
    /// Makes an empty batch.
    pub fn new() -> Batch
        ensures { result ≡ record { bytes = 0; loans = 0; ends_frame = false } }
    {
        Batch {
            bytes: 0,
            loans: 0,
            ends_frame: false,
        }
    }

    /// Adds `count` bytes of a loan, which end a frame if `ends_frame` is set.
    pub fn add(&mut self, count: usize, ends_frame: bool)
        ensures { self.new ≡ with_loan self.old count ends_frame }
    {
        self.bytes = self.bytes.saturating_add(count);
        self.loans = self.loans.saturating_add(1);
        self.ends_frame = ends_frame;
    }

    /// Returns whether the batch leaves now: it ends with a frame, and has at least `BATCH_BYTES`
    /// bytes or at least `loans` loans.
    pub fn is_due(&self, loans: u32) -> bool
        ensures { result ≡ is_due self.now loans }
    {
        self.ends_frame && (self.bytes >= BATCH_BYTES || self.loans >= loans)
    }
}
