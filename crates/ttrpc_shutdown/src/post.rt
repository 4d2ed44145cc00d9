//! A holder's seat at the table of its shutdown, and the steps that the holder takes.
ghost use Rattle.std.specs.Prelude.{◌≡◌, ◌==◌, true, false, IfOk, None, Some};
ghost use Rattle.ttrpc_shutdown.specs.Holding.{MayLeave, having_read, place};
ghost use Rattle.ttrpc_shutdown.specs.Rule.{holder, the_notifier};

use crate::rule::{
    COUNT, Counting, FLAG, Holder, Leaving, Looking, Parting, Setting, Sharing, Words,
};
use atomic_table::Seat;
use std::alloc::{AllocError, Global};
use std::marker::Model;
use std::sync::{Arc, Wait};
use std::time::Duration;

/// A seat at a table. It isn't dropped by itself, but is given up by `leave`. Its holder must have no share then and,
/// if it is the notifier, must have set the flag.
pub(crate) struct Post {
    table: Arc<Words, Global>,
    seat: Seat<(), Holder>,
}

impl Model for Post {
    ghost use Rattle.std.specs.Prelude.{◌≡◌, []};
    ghost use Rattle.std.specs.Arc.{arc_value};
    ghost use Rattle.ttrpc_shutdown.specs.Holding.{Place, place};

    ghost Value = { Place };

    ghost view = { λ p. place p.seat.table_id p.seat.me.0 };

    ghost invariant = { λ p. ((arc_value p.table).shared.table_id.words ≡ 2)
        × (p.seat.table_id ≡ (arc_value p.table).shared.table_id)
        × (p.seat.me.1 ≡ []) };
}

impl Post {
    /// Makes the notifier's seat at a new table, with a flag that isn't set and a count of 0.
    pub(crate) fn first(alloc: Global) -> Result<Post, AllocError>
        ensures { IfOk result (λ p. p.holder ≡ the_notifier) }
    {
        let (table, seat) = Words::of_words(alloc, &[0, 0], &())?;
        let table = Arc::new(alloc, table)?;
        Ok(Post { table, seat })
    }

    /// Makes a waiter's seat beside this one, with a share. Its holder knows what this seat's holder knows.
    pub(crate) fn beside(&mut self) -> Result<Post, AllocError>
        ensures waiter { IfOk result
            (λ p. p ≡ place self.old.table (holder false true self.old.holder.knows None)) }
        ensures same { self.new ≡ self.old }
    {
        let table = Arc::try_clone(&self.table)?;
        let mut seat = table.shared.split_seat::<Parting>(&mut self.seat);
        let _before = table.shared.fetch_add::<Sharing>(&mut seat, COUNT, 1);
        Ok(Post { table, seat })
    }

    /// Returns whether the flag is set.
    pub(crate) fn is_set(&mut self) -> bool
        ensures answer { self.new ≡ place self.old.table
            (holder self.old.holder.notifies self.old.holder.shares result self.old.holder.saw) }
        ensures again { self.old.holder.knows ≡ true → result ≡ true }
        ensures notifier { self.old.holder.notifies ≡ true → result ≡ self.old.holder.knows }
    {
        self.table.shared.load::<Looking>(&mut self.seat, FLAG) == 1
    }

    /// Returns the number of shares. From now on the seat says that its holder has read this number.
    pub(crate) fn count(&mut self) -> u64
        ensures { self.new ≡ having_read self.old (Some result) }
    {
        self.table.shared.load::<Counting>(&mut self.seat, COUNT)
    }

    /// Sets the flag, as the notifier. Threads that sleep until it is set wake.
    pub(crate) fn set(&mut self)
        requires { self.old.holder.notifies ≡ true }
        ensures { self.new
            ≡ place self.old.table (holder true self.old.holder.shares true self.old.holder.saw) }
    {
        let words = &self.table.shared;
        if words.swap::<Setting>(&mut self.seat, FLAG, 1) == 0 {
            words.wake_all(FLAG);
        }
    }

    /// Gives back a waiter's share. If it was the last one, threads that sleep until none is left wake.
    pub(crate) fn give_back(&mut self)
        requires { (self.old.holder.notifies ≡ false) × (self.old.holder.shares ≡ true) }
        ensures { self.new
            ≡ place self.old.table (holder false false self.old.holder.knows self.old.holder.saw) }
    {
        let words = &self.table.shared;
        if words.fetch_sub::<Leaving>(&mut self.seat, COUNT, 1) == 1 {
            words.wake_all(COUNT);
        }
    }

    /// Gives up the seat.
    pub(crate) fn leave(self)
        requires { MayLeave self.holder }
    {
        let Post { table: _, seat: _ } = self;
    }

    /// Sleeps while the flag isn't set. The call may also return for no reason.
    pub(crate) fn sleep_until_set<X: Wait>(&self, rt: &X) {
        self.table.shared.park(rt, FLAG, 0);
    }

    /// Sleeps while the count is this number, and until it is 0. The call may also return for no reason.
    pub(crate) fn sleep_at<X: Wait>(&self, rt: &X, count: u64) {
        self.table.shared.park(rt, COUNT, low_half(count));
    }

    /// Sleeps as `sleep_at` does, for no longer than `limit`.
    pub(crate) fn sleep_at_for<X: Wait>(&self, rt: &X, count: u64, limit: Duration) {
        self.table
            .shared
            .park_timeout(rt, COUNT, low_half(count), limit);
    }
}

// A sleep compares only the lower half of a word.
fn low_half(word: u64) -> u32 {
    (word & 0xffff_ffff) as u32
}
