//! The id of a pending call, which can only be compared. Each comparison is counted.
ghost use Rattle.std.specs.Prelude.{◌≡◌, ◌+◌};
ghost use Rattle.std.specs.Ordering.{nat_cmp};

use super::looks::Looks;
use std::cmp::Ordering;
use std::marker::Model;

/// The id of a pending call. Contracts see its number.
#[derive(Drop)]
pub struct PendingId {
    number: u32,
}

impl Model for PendingId {
    ghost use Rattle.std.specs.Prelude.{ℕ};

    ghost Value = { ℕ };

    ghost view = { λ i. i.number };
}

impl PendingId {
    /// Returns the id of this number.
    pub fn new(number: u32) -> Self
        ensures { result ≡ number }
    {
        PendingId { number }
    }

    /// Compares two ids, which is one look.
    pub fn compare(&self, other: &PendingId, looks: &mut Looks) -> Ordering
        ensures order { result ≡ nat_cmp self.now other.now }
        ensures look { looks.new.count ≡ looks.old.count + 1 }
    {
        looks.add_one();
        self.number.cmp(&other.number)
    }
}
