//! Deadlines, soonest first.
ghost use Rattle.std.specs.Prelude.{◌≡◌, ◌≤◌, ℕ, [], true, false, length, vec_capacity, IfSome, IfNone, OnOk, OnErr};
ghost use Rattle.std.specs.List.Sorted.{IsStrictlySortedBy};
ghost use Rattle.ttrpc_connection.specs.Deadlines.{ChangesTo, deadline_of, due_ids, has_deadline, sooner};

use std::alloc::{AllocError, Global};
use std::collections::BTreeSet;
use std::marker::Model;
use ttrpc_wire::int64_to_varint;

/// Moments, in nanoseconds, each with the id of what waits until that moment.
#[derive(Drop)]
pub struct Deadlines {
    pairs: BTreeSet<(u128, u64)>,
}

impl Model for Deadlines {
    ghost use Rattle.std.specs.Prelude.{ℕ, List};

    ghost Value = { List (ℕ × ℕ) };

    ghost view = { λ a. a.pairs.keys };
}

impl Deadlines {
    /// Returns a `Deadlines` without any. Takes no memory.
    pub fn new(alloc: Global) -> Self
        ensures { result ≡ [] }
    {
        Deadlines {
            pairs: BTreeSet::new(alloc),
        }
    }

    /// Adds the deadline of this id, if it has one. An `Err` changes nothing.
    pub fn add(&mut self, id: u64, deadline: Option<u128>) -> Result<(), AllocError>
        ensures ok { OnOk result (ChangesTo true self.old id deadline self.new) }
        ensures err { OnErr result (self.new ≡ self.old) }
    {
        if let Some(deadline) = deadline {
            self.pairs.insert((deadline, id))?;
        }
        Ok(())
    }

    /// Removes the deadline of this id, if it has one. Takes no memory.
    pub fn take_away(&mut self, id: u64, deadline: Option<u128>)
        ensures { ChangesTo false self.old id deadline self.new }
    {
        if let Some(deadline) = deadline {
            self.pairs.remove(&(deadline, id));
        }
    }

    /// Returns the soonest deadline, with the least id that has it. Takes no memory.
    pub fn first(&self) -> Option<(u128, u64)>
        ensures some { IfSome result (λ p. has_deadline self.now p.0 p.1 ≡ true) }
        ensures least { IfSome result
            (λ p. (at id : ℕ) → has_deadline self.now at id ≡ true → p.0 ≤ at) }
        ensures least_id { IfSome result
            (λ p. (id : ℕ) → has_deadline self.now p.0 id ≡ true → p.1 ≤ id) }
        ensures none { IfNone result ((at id : ℕ) → has_deadline self.now at id ≡ false) }
    {
        self.pairs.first().copied()
    }

    /// States that each deadline is there once, by rising moment and then by rising id. A lemma, which does nothing when it runs.
    pub fn lemma_ordered(&self)
        ensures { IsStrictlySortedBy sooner self.now }
    {
        let _ = self.pairs.len();
    }

    /// Puts the ids with a deadline at or before this moment into `due`, soonest first, in place of its old items. Takes no memory, as
    /// `due` has room for them.
    pub fn due(&self, now: u64, due: &mut Vec<u64>)
        requires { length (due_ids now self.now) ≤ vec_capacity due.old }
        ensures are { due.new.items ≡ due_ids now self.now }
        ensures room { vec_capacity due.old ≤ vec_capacity due.new }
    {
        due.clear();
        for pair in self.pairs.iter() {
            let (deadline, id) = *pair;
            if deadline > u128::from(now) {
                break;
            }
            if due.push(id).is_err() {
                unreachable!();
            }
        }
    }
}

/// Returns the moment by which something that begins now must have ended, or none if its timeout is 0. The timeout is in nanoseconds, and a
/// negative one is read as the `u64` of the same bits.
pub fn deadline_of(now: u64, timeout_nano: i64) -> Option<u128>
    ensures { result ≡ deadline_of now timeout_nano }
{
    if timeout_nano == 0 {
        return None;
    }
    Some(u128::from(now) + u128::from(int64_to_varint(timeout_nano)))
}
