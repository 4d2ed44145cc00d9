ghost use Rattle.std.specs.Prelude.{◌≡◌, ◌↔◌, ◌<◌, ◌^◌, ℕ, [], length, take, drop, IfOk, IsTrue};
ghost use Rattle.std.specs.Iterator.Adapters.{IterYieldsInOrder};
ghost use Rattle.std.specs.Slice.Iter.{iter_rest};

use crate::values::clones::TryClone;
use std::alloc::{AllocError, Global};
use std::marker::Model;
use std::ops::DerefSlice;
use std::slice::Iter;

/// Bytes, which contracts see as their list. The bytes are a part of a vector, so that they can stay at their place in
/// a longer one.
#[derive(Debug, Drop)]
pub struct Blob {
    bytes: Vec<u8>,
    /// The index of the part's first byte.
    start: usize,
    /// The number of bytes in the part.
    count: usize,
}

impl Model for Blob {
    ghost use Rattle.std.specs.Prelude.{ℕ, List, length, take, drop, ◌+◌, ◌≤◌};

    ghost Value = { List ℕ };

    ghost view = { λ blob. take blob.count (drop blob.start blob.bytes.items) };

    ghost invariant = { λ blob. blob.start + blob.count ≤ length blob.bytes.items };
}

impl Blob {
    /// Returns a blob of no bytes. Takes no memory.
    pub fn new(alloc: Global) -> Blob
        ensures { result ≡ [] }
    {
        Blob::from_vec(Vec::new(alloc))
    }

    /// Returns a copy of the bytes.
    pub fn from_slice(alloc: Global, bytes: &[u8]) -> Result<Blob, AllocError>
        ensures { IfOk result (λ blob. blob ≡ bytes.now) }
    {
        Ok(Blob::from_vec(Vec::from_slice(alloc, bytes)?))
    }

    /// Converts a vector into a blob. Takes no memory.
    pub fn from_vec(bytes: Vec<u8>) -> Blob
        ensures { result ≡ bytes.items }
    {
        let count = bytes.len();
        Blob {
            bytes,
            start: 0,
            count,
        }
    }

    /// Returns a blob of the vector's bytes from `start` on: `count` of them, or all if there are fewer. The blob takes
    /// the vector over, and nothing is copied.
    pub fn from_part(bytes: Vec<u8>, start: usize, count: usize) -> Blob
        ensures { result ≡ take count (drop start bytes.items) }
    {
        let start = start.min(bytes.len());
        let count = count.min(bytes.len() - start);
        Blob {
            bytes,
            start,
            count,
        }
    }

    /// Converts the blob into a vector of its bytes. Takes no memory. Bytes that aren't at the front of their vector
    /// are moved there.
    pub fn into_vec(self) -> Vec<u8>
        ensures { result.items ≡ self }
    {
        let Blob {
            mut bytes,
            start,
            count,
        } = self;
        if start > 0 {
            bytes.as_mut_slice().rotate_left(start);
        }
        bytes.truncate(count);
        bytes
    }

    /// Returns the number of bytes.
    pub fn len(&self) -> usize
        ensures { result ≡ length self.now }
    {
        self.count
    }

    /// Returns true if there are no bytes.
    pub fn is_empty(&self) -> bool
        ensures { IsTrue result ↔ (self.now ≡ []) }
    {
        self.as_slice().is_empty()
    }

    /// Returns an iterator that lends each byte, in order.
    pub fn iter(&self) -> Iter<'_, u8>
        ensures rest { iter_rest result ≡ self.now }
        ensures bound { length (iter_rest result) < 2 ^ 64 }
        ensures runs { IterYieldsInOrder ℕ }
    {
        self.as_slice().iter()
    }

    /// Returns true if these are the blob's bytes. std's `==` compares values of one type alone.
    pub fn is_equal(&self, bytes: &[u8]) -> bool
        ensures { IsTrue result ↔ (self.now ≡ bytes.now) }
    {
        self.as_slice() == bytes
    }

    /// Returns the bytes.
    pub fn as_slice(&self) -> &[u8]
        ensures { result.now ≡ self.now }
    {
        &self.bytes[self.start..self.start + self.count]
    }
}

/// A blob reads as a slice of its bytes.
impl DerefSlice for Blob {
    type Elem = u8;

    ghost deref_gives = { λ blob bytes. bytes ≡ blob };

    fn deref(&self) -> &[u8] {
        self.as_slice()
    }
}

impl TryClone for Blob {
    fn try_clone(&self) -> Result<Blob, AllocError> {
        Blob::from_slice(*self.bytes.allocator(), self.as_slice())
    }
}

impl PartialEq for Blob {
    ghost use Rattle.std.specs.Prelude.{nat_eq};
    ghost use Rattle.std.specs.Cmp.Lexicographic.{pointwise};
    ghost use Rattle.std.proofs.lemmas.Cmp.{nat_list_eq_equiv};
    ghost use Rattle.std.specs.Cmp.{partial_equiv_from_equiv};

    ghost eq = { pointwise nat_eq };

    ghost laws = { partial_equiv_from_equiv nat_list_eq_equiv };

    fn eq(&self, other: &Blob) -> bool {
        self.as_slice() == other.as_slice()
    }
}

impl Eq for Blob {
    ghost use Rattle.std.proofs.lemmas.Cmp.{nat_list_eq_equiv};

    ghost laws = { nat_list_eq_equiv };
}
