//! Copies of values that hold memory.
ghost use Rattle.std.specs.Prelude.{◌≡◌, IfOk};

use std::alloc::AllocError;

/// A value that can be copied, unless memory is refused. Unlike std's `Clone`, this trait states that the copy is equal
/// to its source.
pub trait TryClone: Sized + Drop {
    /// Returns a copy.
    fn try_clone(&self) -> Result<Self, AllocError>
        ensures { IfOk result (λ copy. copy ≡ self.now) };
}

impl TryClone for bool {
    fn try_clone(&self) -> Result<bool, AllocError> {
        Ok(*self)
    }
}

impl TryClone for i32 {
    fn try_clone(&self) -> Result<i32, AllocError> {
        Ok(*self)
    }
}

impl TryClone for i64 {
    fn try_clone(&self) -> Result<i64, AllocError> {
        Ok(*self)
    }
}

impl TryClone for u32 {
    fn try_clone(&self) -> Result<u32, AllocError> {
        Ok(*self)
    }
}

impl TryClone for u64 {
    fn try_clone(&self) -> Result<u64, AllocError> {
        Ok(*self)
    }
}
