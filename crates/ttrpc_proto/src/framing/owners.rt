//! The owners of requests.
ghost use Rattle.std.specs.Prelude.{◌≡◌, ℕ, Bool};

/// A set of owners of requests.
pub trait Owners {
    // True for the owners in the set.
    ghost has: { Self → ℕ → Bool };

    /// Returns true if this owner is in the set. Takes no memory.
    fn has(&self, owner: u64) -> bool
        ensures { result ≡ has self.now owner };
}

/// The set of one owner.
impl Owners for u64 {
    ghost use Rattle.std.specs.Prelude.{nat_eq};

    ghost has = { λ one owner. nat_eq owner one };

    fn has(&self, owner: u64) -> bool {
        owner == *self
    }
}
