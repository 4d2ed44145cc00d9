//! A map from numbers that mostly rise, as those of calls and jobs do, to values.
//! Nearly each new number is above all numbers in the map, and removed entries are mostly among the newest. So the newest entries are kept
//! in a short row, in which both cost little. Only entries that outlast the row go to an ordered map.
#![tactic(auto)]

ghost use Rattle.std.specs.Prelude.{◌≡◌, ◌↔◌, ◌+◌, ◌<◌, ◌≤◌, ◌^◌, [], ◌∷◌, IfNone, IfSome, IsTrue, ◌++◌, length, All, IfOk, OnOk, OnErr, Err, None, false, insert, option_copied, remove, slice_get, true};
ghost use Rattle.std.specs.Borrow.{sem};
ghost use Rattle.std.specs.List.Sorted.{IsStrictlySortedBy};
ghost use Rattle.std.specs.Map.{keys_of};
ghost use Rattle.std.specs.Option.{option_copied_mut};
ghost use Rattle.std.specs.Ordering.{nat_cmp};
ghost use Rattle.ttrpc_table.specs.Kept.{Ages, IsKept, IsPlace, entries_of};
ghost use Rattle.ttrpc_table.specs.Table.{Rise, at, first, lends_at, with_entry, without};

#[cfg(test)]
mod tests;

use std::alloc::{AllocError, Global};
use std::collections::{BTreeMap, VecDeque};
use std::marker::Model;
use std::mem::replace;

// The most entries of the row: few enough to be searched one by one.
const ROW: usize = 16;

// The most entries of a table, so that their number stays below 2^63 as that of each collection does.
const MOST: usize = isize::MAX as usize;

/// Values under numbers, which contracts see by rising number.
#[derive(Drop)]
pub struct Table<V: Drop> {
    // The entries below all entries of the row.
    older: BTreeMap<u64, V>,
    // The newest entries: their keys, which rise, and their values, in the same order.
    keys: VecDeque<u64>,
    values: VecDeque<V>,
}

impl<V: Drop> Model for Table<V> {
    ghost use Rattle.std.specs.Prelude.{List, ℕ, length};
    ghost use Rattle.std.specs.Map.{keys_of};
    ghost use Rattle.ttrpc_table.specs.Kept.{IsKept, entries_of};

    ghost Value = { List (ℕ × V) };

    ghost view = { λ t. entries_of t.older.entries t.keys.items t.values.items };

    ghost invariant = { λ t. IsKept (keys_of t.older.entries) t.keys.items
        (length t.values.items) };
}

impl<V: Drop> Table<V> {
    /// Makes a table without entries. Takes no memory.
    pub fn new(alloc: Global) -> Table<V>
        ensures { result ≡ [] }
    {
        Table {
            older: BTreeMap::new(alloc),
            keys: VecDeque::new(alloc),
            values: VecDeque::new(alloc),
        }
    }

    /// Returns how many entries there are. Takes no memory.
    pub fn len(&self) -> usize
        ensures count { result ≡ length self.now }
        ensures small { result < 2 ^ 63 }
        ensures rise { Rise self.now }
    {
        self.older.len() + self.keys.len()
    }

    /// Returns whether there are no entries. Takes no memory.
    pub fn is_empty(&self) -> bool
        ensures { IsTrue result ↔ (length self.now ≡ 0) }
    {
        self.len() == 0
    }

    /// Returns the value under a number, if there is one. Takes no memory.
    pub fn get(&self, key: u64) -> Option<&V>
        ensures { option_copied result ≡ at self.now key }
    {
        match place(&self.keys, key) {
            Ok(i) => self.values.get(i),
            Err(_) => self.older.get(&key),
        }
    }

    /// Lends the value under a number, if there is one. Takes no memory.
    pub fn get_mut(&mut self, key: u64) -> Option<&mut V>
        ensures* writes_back { sem 𝓛 (lends_at V.row self.entry key result) }
        ensures value { option_copied_mut result ≡ at self.old key }
    {
        match place(&self.keys, key) {
            Ok(i) => self.values.get_mut(i),
            Err(_) => self.older.get_mut(&key),
        }
    }

    /// Puts a value under a number, and returns the value that was there. An `Err` changes nothing, and comes only if no value was there.
    pub fn insert(&mut self, key: u64, value: V) -> Result<Option<V>, AllocError>
        // At an `Ok` the value is under its number, and the one that was there is returned.
        ensures was { IfOk result (λ was. was ≡ at self.old key) }
        ensures entries { OnOk result (self.new ≡ with_entry self.old key value) }
        // An error comes only if no value was there, and changes nothing.
        ensures absent { OnErr result (at self.old key ≡ None) }
        ensures err { OnErr result (self.new ≡ self.old) }
        // Before, each number came once, and the numbers rose.
        ensures rise { Rise self.old }
    {
        if self.len() == MOST {
            return self.replace(key, value);
        }
        match place(&self.keys, key) {
            Ok(i) => Ok(Some(replace(&mut self.values[i], value))),
            Err(i) if goes_to_row(&self.older, &self.keys, i, key) => {
                add(
                    &mut self.older,
                    &mut self.keys,
                    &mut self.values,
                    i,
                    key,
                    value,
                )?;
                Ok(None)
            }
            Err(_) => Ok(self.older.insert(key, value)?),
        }
    }

    // Puts a value as `insert` does, if no more entries fit.
    fn replace(&mut self, key: u64, value: V) -> Result<Option<V>, AllocError>
        // Each number comes once, and the numbers rise.
        requires { Rise self.old }
        // At an `Ok` the value is under its number, and the one that was there is returned.
        ensures was { IfOk result (λ was. was ≡ at self.old key) }
        ensures entries { OnOk result (self.new ≡ with_entry self.old key value) }
        // An error comes only if no value was there, and changes nothing.
        ensures absent { OnErr result (at self.old key ≡ None) }
        ensures err { OnErr result (self.new ≡ self.old) }
    {
        match self.get_mut(key) {
            Some(slot) => Ok(Some(replace(slot, value))),
            None => Err(AllocError),
        }
    }

    /// Removes the value under a number, if there is one, and returns it. Takes no memory.
    pub fn remove(&mut self, key: u64) -> Option<V>
        ensures value { result ≡ at self.old key }
        ensures entries { self.new ≡ without self.old key }
        ensures rise { Rise self.old }
    {
        match place(&self.keys, key) {
            Ok(i) => take(&mut self.keys, &mut self.values, i),
            Err(_) => self.older.remove(&key),
        }
    }

    /// Removes the entry with the least number, if there is one, and returns it. Takes no memory.
    pub fn pop_first(&mut self) -> Option<(u64, V)>
        ensures some { IfSome result (λ entry. self.old ≡ entry ∷ self.new) }
        ensures none { IfNone result ((self.old ≡ []) × (self.new ≡ [])) }
    {
        let key = self.first()?;
        let value = self.remove(key)?;
        Some((key, value))
    }

    /// Removes all entries. Takes no memory.
    pub fn clear(&mut self)
        ensures { self.new ≡ [] }
    {
        self.older.clear();
        self.keys.clear();
        self.values.clear();
    }

    /// Returns the least number that has a value. Takes no memory.
    pub fn first(&self) -> Option<u64>
        ensures { result ≡ first self.now }
    {
        match self.older.first_key_value() {
            Some((key, _)) => Some(*key),
            None => self.keys.front().copied(),
        }
    }
}

// Returns the place of a key in the row, or else how many keys of the row are below it.
fn place(keys: &VecDeque<u64>, key: u64) -> Result<usize, usize>
    requires { IsStrictlySortedBy nat_cmp keys.now.items }
    ensures { IsPlace keys.now.items key result }
{
    let Some(last) = keys.back() else {
        return Err(0);
    };
    // Nearly each new key is above all others.
    if *last < key {
        return Err(keys.len());
    }
    for (i, other) in keys.iter().enumerate() {
        if key <= *other {
            return if key == *other { Ok(i) } else { Err(i) };
        }
    }
    Err(keys.len())
}

// Returns whether a new key goes to the row, if `i` keys of the row are below it. It does if some are, or if it begins a row above all
// older keys.
fn goes_to_row<V: Drop>(older: &BTreeMap<u64, V>, keys: &VecDeque<u64>, i: usize, key: u64) -> bool
    requires rise { IsStrictlySortedBy nat_cmp (keys_of older.now.entries ++ keys.now.items) }
    requires place { IsPlace keys.now.items key (Err i) }
    ensures yes { result ≡ true → All (λ x. x < key) (keys_of older.now.entries) }
    ensures no { result ≡ false → i ≡ 0 }
{
    if i > 0 {
        return true;
    }
    if !keys.is_empty() {
        return false;
    }
    match older.last_key_value() {
        Some((last, _)) => *last < key,
        None => true,
    }
}

// Puts a new entry after `i` keys of the row. If the row is full, its first entry moves to the older ones before.
fn add<V: Drop>(
    older: &mut BTreeMap<u64, V>,
    keys: &mut VecDeque<u64>,
    values: &mut VecDeque<V>,
    i: usize,
    key: u64,
    value: V,
) -> Result<(), AllocError>
    // The entries are valid. The key comes after `i` keys of the row and after all older ones, and one more entry fits.
    requires kept { IsKept (keys_of older.old.entries) keys.old.items (length values.old.items) }
    requires place { IsPlace keys.old.items key (Err i) }
    requires newer { All (λ x. x < key) (keys_of older.old.entries) }
    requires room { length older.old.entries + length keys.old.items + 1 < 2 ^ 63 }
    // The entries are valid again.
    ensures kept { IsKept (keys_of older.new.entries) keys.new.items (length values.new.items) }
    // At an `Ok` there is the new entry with the others. An error changes no entry.
    ensures ok { OnOk result (entries_of older.new.entries keys.new.items values.new.items
        ≡ with_entry (entries_of older.old.entries keys.old.items values.old.items) key value) }
    ensures err { OnErr result (entries_of older.new.entries keys.new.items values.new.items
        ≡ entries_of older.old.entries keys.old.items values.old.items) }
{
    if i == 0 || keys.len() < ROW {
        return put(keys, values, i, key, value);
    }
    age(older, keys, values)?;
    put(keys, values, i - 1, key, value)
}

// Moves the first entry of the row after the older ones.
fn age<V: Drop>(
    older: &mut BTreeMap<u64, V>,
    keys: &mut VecDeque<u64>,
    values: &mut VecDeque<V>,
) -> Result<(), AllocError>
    // The entries are valid, and the row has some.
    requires kept { IsKept (keys_of older.old.entries) keys.old.items (length values.old.items) }
    requires some { 0 < length keys.old.items }
    // At an `Ok` the first entry of the row is the last of the older ones.
    ensures ok { OnOk result (Ages older.old.entries keys.old.items values.old.items
        older.new.entries keys.new.items values.new.items) }
    // An error changes nothing.
    ensures older { OnErr result (older.new.entries ≡ older.old.entries) }
    ensures keys { OnErr result (keys.new.items ≡ keys.old.items) }
    ensures values { OnErr result (values.new.items ≡ values.old.items) }
{
    let (Some(key), Some(value)) = (keys.pop_front(), values.pop_front()) else {
        return Err(AllocError);
    };
    let Err(failed) = older.insert(key, value) else {
        return Ok(());
    };
    // The entry goes back to its place, which is still free.
    let (key, value) = failed.value;
    keys.push_front_reserved(key);
    values.push_front_reserved(value);
    Err(AllocError)
}

// Puts an entry at place `i` of the row.
fn put<V: Drop>(
    keys: &mut VecDeque<u64>,
    values: &mut VecDeque<V>,
    i: usize,
    key: u64,
    value: V,
) -> Result<(), AllocError>
    // The place is at most the row's length, and the row has a value for each key.
    requires within { i ≤ length keys.old.items }
    requires even { length keys.old.items ≡ length values.old.items }
    // At an `Ok` the key and the value are at this place, between the others.
    ensures ok_keys { OnOk result (keys.new.items ≡ insert keys.old.items i key) }
    ensures ok_values { OnOk result (values.new.items ≡ insert values.old.items i value) }
    // An error changes nothing.
    ensures err_keys { OnErr result (keys.new.items ≡ keys.old.items) }
    ensures err_values { OnErr result (values.new.items ≡ values.old.items) }
{
    // After there is room for the key, only the value can fail, so no key stays without a value.
    keys.reserve(1)?;
    if i == keys.len() {
        values.push_back(value)?;
        keys.push_back_reserved(key);
        return Ok(());
    }
    values.insert(i, value)?;
    keys.insert(i, key)?;
    Ok(())
}

// Removes the entry at place `i` of the row, and returns its value.
fn take<V: Drop>(keys: &mut VecDeque<u64>, values: &mut VecDeque<V>, i: usize) -> Option<V>
    // The place is in the row, and the row has a value for each key.
    requires within { i < length keys.old.items }
    requires even { length keys.old.items ≡ length values.old.items }
    // The value at this place is returned.
    ensures value { result ≡ slice_get values.old.items i }
    // The entry at this place is gone, and the others are as they were.
    ensures keys { keys.new.items ≡ remove keys.old.items i }
    ensures values { values.new.items ≡ remove values.old.items i }
{
    if i == 0 {
        let _ = keys.pop_front();
        return values.pop_front();
    }
    let _ = keys.remove(i);
    values.remove(i)
}
