//! The calls that are pending, by rising id, and how many ids a search among them looks at. The places of ended calls stay, empty, until
//! more than half of all are empty. So a call is removed in about the time of a search, in whatever order calls end.
ghost use Rattle.std.specs.Prelude.{◌≡◌, ◌↔◌, ◌<◌, ◌≤◌, ◌+◌, ◌*◌, ◌^◌, ℕ, [], ◌∷◌, ◌++◌, length, IsTrue, IfSome, IfNone, IfErr, OnOk, OnErr, option_copied, Some, None, filter};
ghost use Rattle.std.specs.BTreeMap.{is_at, insert_entry};
ghost use Rattle.std.specs.Map.{remove_entry};
ghost use Rattle.std.specs.Ordering.{nat_cmp};
ghost use Rattle.ttrpc_proto.specs.declared.error.Error.TheVariants as Error;
ghost use Rattle.ttrpc_client.specs.pending.Places.{ArePlaces, IsPlaceOf, IsTrimmed, Rise, call_of, call_there, ends_empty, entries_in};

mod id;
mod looks;

pub use id::PendingId;
pub use looks::Looks;
use std::alloc::Global;
use std::cmp::Ordering;
use std::marker::Model;
use std::mem::replace;
use ttrpc_proto::Result;

/// The states of pending calls, by rising id. Contracts see the places, and some of them are empty. Only `push_last` takes memory.
#[derive(Drop)]
pub struct Pending<T> {
    places: Vec<(PendingId, Option<T>)>,
    // The number of places that aren't empty.
    taken: usize,
}

impl<T> Model for Pending<T> {
    ghost use Rattle.std.specs.Prelude.{◌≡◌, ℕ, List, Option, length};
    ghost use Rattle.std.specs.Coded.{coded_list, coded×, coded_ℕ, coded_option};
    ghost use Rattle.ttrpc_client.specs.pending.Places.{ArePlaces, entries_in};

    ghost Value = { List (ℕ × Option T) };

    ghost coded = { coded_list (coded× coded_ℕ (coded_option T.code)) };

    ghost view = { λ p. p.places.items };

    ghost invariant = { λ p. ArePlaces p.places.items
        × (p.taken ≡ length (entries_in p.places.items)) };
}

impl<T> Pending<T> {
    /// Returns a `Pending` without entries.
    pub fn new(alloc: Global) -> Self
        ensures { result ≡ [] }
    {
        Pending {
            places: Vec::new(alloc),
            taken: 0,
        }
    }

    /// Returns how many entries there are.
    pub fn len(&self) -> usize
        ensures count { result ≡ length (entries_in self.now) }
        ensures small { result < 2 ^ 63 }
        ensures places { ArePlaces self.now }
    {
        self.taken
    }

    /// Returns whether there are no entries.
    pub fn is_empty(&self) -> bool
        ensures { IsTrue result ↔ (length (entries_in self.now) ≡ 0) }
    {
        self.taken == 0
    }

    /// Finds the place of an id's entry, with at most as many looks as the number of places has binary digits.
    pub fn find(&self, id: u32, looks: &mut Looks) -> Option<usize>
        ensures some { IfSome result (IsPlaceOf self.now id) }
        ensures none { IfNone result (call_of self.now id ≡ None) }
        ensures looks { (digits : ℕ) → length self.now < 2 ^ digits
            → looks.new.count ≤ looks.old.count + digits }
    {
        let wanted = PendingId::new(id);
        let mut low = 0;
        let mut high = self.places.len();
        while low < high {
            let middle = low + (high - low) / 2;
            let (here, call) = &self.places[middle];
            match wanted.compare(here, looks) {
                Ordering::Less => high = middle,
                Ordering::Greater => low = middle + 1,
                Ordering::Equal if call.is_some() => return Some(middle),
                Ordering::Equal => return None,
            }
        }
        None
    }

    /// Lends the call at a place, if there is one.
    pub fn at(&self, place: usize) -> Option<&T>
        ensures { option_copied result ≡ call_there self.now place }
    {
        match self.places.get(place) {
            Some((_, Some(call))) => Some(call),
            _ => None,
        }
    }

    /// Lends the call of an id, if there is one.
    pub fn get(&self, id: u32) -> Option<&T>
        ensures { option_copied result ≡ call_of self.now id }
    {
        let place = self.find(id, &mut Looks::new())?;
        self.at(place)
    }

    /// Adds an entry after all others, which have lower ids. An `Err` changes nothing.
    pub fn push_last(&mut self, id: u32, call: T) -> Result<()>
    where
        T: Drop,
        requires { (k : ℕ) → id ≤ k → call_of self.old k ≡ None }

        // The entry has the last place, and the greatest id.
        ensures ok { OnOk result (self.new ≡ self.old ++ (id, Some call) ∷ []) }
        ensures entries { OnOk result
            (entries_in self.new ≡ insert_entry nat_cmp (entries_in self.old) id call) }
        ensures rise { Rise (entries_in self.new) }

        // An `Err` changes nothing.
        ensures err { OnErr result (self.new ≡ self.old) }
        ensures only_memory { IfErr result (λ e. e ≡ Error.NoMemory) }
    {
        self.places.push((PendingId::new(id), Some(call)))?;
        self.taken += 1;
        Ok(())
    }

    /// Replaces the call of an id, and returns the old one. If there is no entry, nothing changes.
    pub fn replace(&mut self, id: u32, call: T) -> Option<T>
    where
        T: Drop,
        ensures was { result ≡ call_of self.old id }
        ensures entries { IfSome result
            (λ _. entries_in self.new ≡ insert_entry nat_cmp (entries_in self.old) id call) }
        ensures none { IfNone result (self.new ≡ self.old) }
        ensures rise { Rise (entries_in self.new) }
    {
        let place = self.find(id, &mut Looks::new())?;
        let (_, was) = replace(&mut self.places[place], (PendingId::new(id), Some(call)));
        was
    }

    /// Removes the entry of an id, and returns its call.
    pub fn remove(&mut self, id: u32) -> Option<T>
    where
        T: Drop,
        ensures value { result ≡ call_of self.old id }
        ensures entries { entries_in self.new
            ≡ remove_entry (is_at (nat_cmp id)) (entries_in self.old) }
        ensures rise { Rise (entries_in self.new) }
    {
        let place = self.find(id, &mut Looks::new())?;
        let (_, was) = replace(&mut self.places[place], (PendingId::new(id), None));
        self.taken -= 1;
        tidy(&mut self.places, self.taken);
        was
    }
}

// Takes out the empty places if they are more than half, and else only those after the last entry.
fn tidy<T: Drop>(places: &mut Vec<(PendingId, Option<T>)>, taken: usize)
    ensures trimmed { IsTrimmed places.old.items places.new.items }
    ensures few { taken ≡ length (entries_in places.old.items)
        → length places.new.items ≤ 2 * taken }
{
    let empty = places.len().saturating_sub(taken);
    if empty > taken {
        places.retain(|place| place.1.is_some());
    } else {
        trim(places);
    }
}

// Takes out the empty places after the last entry.
fn trim<T: Drop>(places: &mut Vec<(PendingId, Option<T>)>)
    ensures { IsTrimmed places.old.items places.new.items }
{
    while ends_empty(places) {
        let _ = places.pop();
    }
}

// Returns whether the last place is empty.
fn ends_empty<T>(places: &Vec<(PendingId, Option<T>)>) -> bool
    ensures { result ≡ ends_empty places.now.items }
{
    match places.last() {
        Some(place) => place.1.is_none(),
        None => false,
    }
}
