//! A count of the ids that were looked at, which only contracts see.
ghost use Rattle.std.specs.Prelude.{◌≡◌, ◌+◌, ℕ};

use std::marker::{Model, PhantomData};

/// A count of looks at ids, for contracts alone. A count takes no memory, and its methods do nothing at run time.
#[derive(Drop)]
pub struct Looks {
    marker: PhantomData<u8>,
    pub ghost count: { ℕ },
}

impl Model for Looks {
    ghost use Rattle.std.specs.Borrow.{ftrue};

    ghost also_owns = { λ _. ftrue };
}

impl Looks {
    /// Returns a count of no looks.
    pub fn new() -> Looks
        ensures { result.count ≡ 0 }
    {
        Looks {
            marker: PhantomData,
        }
    }

    /// Adds one look.
    pub(super) fn add_one(&mut self)
        ensures { self.new.count ≡ self.old.count + 1 }
    {}
}
