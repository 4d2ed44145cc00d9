//! The reported bytes of the first frame, which only contracts read.
ghost use Rattle.std.specs.Prelude.{◌≡◌, ℕ, List, [], ◌++◌};
ghost use Rattle.std.specs.Borrow.{ftrue};

use std::fmt::{self, Debug, Formatter, Write};
use std::marker::{Model, PhantomData};

/// Reported bytes, which are no longer kept. The type takes no memory, and its methods do nothing when they run.
#[derive(Drop)]
pub struct ReportedBytes {
    marker: PhantomData<u8>,
    pub ghost bytes: { List ℕ },
}

impl Model for ReportedBytes {
    ghost also_owns = { λ _. ftrue };
}

// A struct with `also_owns` is neither `Send` nor `Sync` by itself. This struct owns nothing.
unsafe impl Send for ReportedBytes {}

unsafe impl Sync for ReportedBytes {}

impl Debug for ReportedBytes {
    fn fmt<W: Write>(&self, f: &mut Formatter<W>) -> fmt::Result {
        f.write_str("ReportedBytes")
    }
}

impl ReportedBytes {
    /// Returns no bytes.
    pub(crate) fn new() -> ReportedBytes
        ensures { result.bytes ≡ [] }
    {
        ReportedBytes {
            marker: PhantomData,
        }
    }

    /// Appends these bytes.
    pub(crate) fn add(&mut self, _bytes: &[u8])
        ensures { self.new.bytes ≡ self.old.bytes ++ _bytes.now }
    {}
}
