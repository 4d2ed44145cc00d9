ghost use Rattle.std.specs.Prelude.{◌≡◌, ◌↔◌, ◌<◌, ◌^◌, List, [], ◌∷◌, ◌++◌, length, IfOk, OnOk, OnErr, IsTrue};
ghost use Rattle.std.specs.Cmp.Lexicographic.{pointwise};
ghost use Rattle.std.specs.Iterator.Adapters.{IterYieldsInOrder};
ghost use Rattle.std.specs.Slice.Iter.{iter_rest};

use crate::values::clones::TryClone;
use std::alloc::{AllocError, Global};
use std::marker::Model;
use std::ops::DerefSlice;
use std::slice::Iter;

/// Items in order, which contracts see as their list.
#[derive(Debug, Drop)]
pub struct Sequence<T> {
    items: Vec<T>,
}

impl<T> Model for Sequence<T> {
    ghost Value = { List T };

    ghost view = { λ sequence. sequence.items.items };
}

impl<T> Sequence<T> {
    /// Returns a sequence of no items. Takes no memory.
    pub fn new(alloc: Global) -> Sequence<T>
        ensures { result ≡ [] }
    {
        Sequence {
            items: Vec::new(alloc),
        }
    }

    /// Converts a vector into a sequence. Takes no memory.
    pub fn from_vec(items: Vec<T>) -> Sequence<T>
        ensures { result ≡ items.items }
    {
        Sequence { items }
    }

    /// Converts the sequence into a vector of its items. Takes no memory.
    pub fn into_vec(self) -> Vec<T>
        ensures { result.items ≡ self }
    {
        let Sequence { items } = self;
        items
    }

    /// Returns the number of items.
    pub fn len(&self) -> usize
        ensures { result ≡ length self.now }
    {
        self.items.len()
    }

    /// Returns true if there are no items.
    pub fn is_empty(&self) -> bool
        ensures { IsTrue result ↔ (self.now ≡ []) }
    {
        self.items.is_empty()
    }

    /// Returns an iterator that lends each item, in order.
    pub fn iter(&self) -> Iter<'_, T>
        ensures rest { iter_rest result ≡ self.now }
        ensures bound { length (iter_rest result) < 2 ^ 64 }
        ensures runs { IterYieldsInOrder T }
    {
        self.items.as_slice().iter()
    }

    /// Returns the items.
    pub fn as_slice(&self) -> &[T]
        ensures { result.now ≡ self.now }
    {
        self.items.as_slice()
    }
}

/// A sequence reads as a slice of its items.
impl<T> DerefSlice for Sequence<T> {
    type Elem = T;

    ghost deref_gives = { λ sequence items. items ≡ sequence };

    fn deref(&self) -> &[T] {
        self.as_slice()
    }
}

impl<T: Drop> Sequence<T> {
    /// Appends an item. After an error nothing has changed, and the item is gone.
    pub fn push(&mut self, item: T) -> Result<(), AllocError>
        ensures ok { OnOk result (self.new ≡ self.old ++ item ∷ []) }
        ensures err { OnErr result (self.new ≡ self.old) }
    {
        self.items.push(item)?;
        Ok(())
    }
}

impl<T: PartialEq> Sequence<T> {
    /// Returns true if these are the sequence's items, each compared by its own `==`. std's `==` compares values of one
    /// type alone.
    pub fn is_equal(&self, items: &[T]) -> bool
        ensures { result ≡ pointwise T.eq self.now items.now }
    {
        self.as_slice() == items
    }
}

impl<T: TryClone> TryClone for Sequence<T> {
    fn try_clone(&self) -> Result<Sequence<T>, AllocError> {
        let items = cloned(*self.items.allocator(), self.as_slice())?;
        Ok(Sequence::from_vec(items))
    }
}

fn cloned<T: TryClone>(alloc: Global, items: &[T]) -> Result<Vec<T>, AllocError>
    ensures { IfOk result (λ copies. copies.items ≡ items.now) }
{
    let mut copies = Vec::with_capacity(alloc, items.len())?;
    for item in items {
        copies.push(item.try_clone()?)?;
    }
    Ok(copies)
}

impl<T: PartialEq> PartialEq for Sequence<T> {
    ghost use Rattle.std.specs.Cmp.Lexicographic.{pointwise, lists_per};

    ghost eq = { pointwise T.eq };

    ghost laws = { lists_per T.laws };

    fn eq(&self, other: &Sequence<T>) -> bool {
        self.items == other.items
    }
}

impl<T: Eq> Eq for Sequence<T> {
    ghost use Rattle.std.specs.Cmp.Lexicographic.{lists_equiv};

    ghost laws = { lists_equiv T.Eq.laws };
}
