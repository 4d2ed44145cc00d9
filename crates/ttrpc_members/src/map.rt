//! Maps: entries under keys, in the keys' order.
ghost use Rattle.std.specs.Prelude.{◌≡◌, ◌≢◌, ◌↔◌, ℕ, ◌+◌, ◌-◌, ◌<◌, ◌≤◌, ◌^◌, ◌++◌, List, [], ◌∷◌, length, Option, Some, None, IfOk, OnOk, OnErr, IfErr, IsTrue, min, string_bytes};
ghost use Rattle.std.specs.Borrow.{sem};
ghost use Rattle.std.specs.BTreeMap.{insert_entry, is_at};
ghost use Rattle.std.specs.Map.{lookup, remove_entry};
ghost use Rattle.std.specs.Option.{option_copied_mut};
ghost use Rattle.ttrpc_members.specs.Lent.{LendsValue};

use std::alloc::{AllocError, Global};
use std::collections::BTreeMap;
use std::marker::Model;
use ttrpc_wire::TryClone;

/// Values under keys, which contracts see as the list of their entries, in the keys' order.
#[derive(Drop)]
pub struct Map<K: Ord, V> {
    entries: BTreeMap<K, V>,
    alloc: Global,
}

impl<K: Ord, V> Model for Map<K, V> {
    ghost use Rattle.std.specs.Prelude.{List};

    ghost Value = { List (K × V) };

    ghost view = { λ map. map.entries.entries };
}

impl<K: Ord, V> Map<K, V> {
    /// Makes a map without entries. Takes no memory.
    pub fn new(alloc: Global) -> Map<K, V>
        ensures { result ≡ [] }
    {
        Map {
            entries: BTreeMap::new(alloc),
            alloc,
        }
    }

    /// Returns how many entries there are.
    pub fn len(&self) -> usize
        ensures { result ≡ length self.now }
    {
        self.entries.len()
    }

    /// Returns whether there are no entries.
    pub fn is_empty(&self) -> bool
        ensures { IsTrue result ↔ (self.now ≡ []) }
    {
        self.entries.is_empty()
    }

    /// Returns the allocator of the entries.
    pub fn allocator(&self) -> Global {
        self.alloc
    }

    /// Returns the entries.
    pub fn as_map(&self) -> &BTreeMap<K, V>
        ensures { result.now.entries ≡ self.now }
    {
        &self.entries
    }

    /// Makes a map of the entries of std's map. Takes no memory.
    pub fn from_map(alloc: Global, entries: BTreeMap<K, V>) -> Map<K, V>
        ensures { result ≡ entries.entries }
    {
        Map { entries, alloc }
    }

    /// Returns the entries as a map of std. Takes no memory.
    pub fn into_map(self) -> BTreeMap<K, V>
        ensures { result.entries ≡ self }
    {
        let Map { entries, .. } = self;
        entries
    }

    /// Lends the value under a key, to be changed in place.
    pub fn get_mut(&mut self, key: &K) -> Option<&mut V>
        ensures* writes_back { sem 𝓛 (LendsValue K.row V.row K.Ord self.entry key.now result) }
        ensures value { option_copied_mut result ≡ lookup (is_at (K.cmp key.now)) self.old }
    {
        self.entries.get_mut(key)
    }
}

impl<K: Ord + Drop, V: Drop> Map<K, V> {
    /// Puts a value under a key, in place of an earlier one. After an error nothing has changed, and both are dropped.
    pub fn insert(&mut self, key: K, value: V) -> Result<(), AllocError>
        ensures ok { OnOk result (self.new ≡ insert_entry K.cmp self.old key value) }
        ensures err { OnErr result (self.new ≡ self.old) }
    {
        self.entries.insert(key, value)?;
        Ok(())
    }

    /// Removes the entry of a key, if there is one, and returns its value. Takes no memory.
    pub fn remove(&mut self, key: &K) -> Option<V>
        ensures value { result ≡ lookup (is_at (K.cmp key.now)) self.old }
        ensures others { self.new ≡ remove_entry (is_at (K.cmp key.now)) self.old }
    {
        self.entries.remove(key)
    }

    /// Removes all entries.
    pub fn clear(&mut self)
        ensures { self.new ≡ [] }
    {
        self.entries.clear();
    }
}
