//! The consequences of the table's rule for a shutdown between any two steps of its holders, and the changes that one
//! step may make.
ghost use Rattle.std.specs.Prelude.{◌≡◌, ◌+◌, ℕ, ⊤, true};
ghost use Rattle.atomic_table.specs.Table.{Step};
ghost use Rattle.ttrpc_shutdown.specs.Rule.{Counted, Follows, IsStep, Seated};
ghost use Rattle.ttrpc_shutdown.specs.ShutdownWords.{IsFlagSet, ShutdownWords, one_if, shares_of};

use crate::rule::{Counters, Holder};
use atomic_table::TableRule;

/// States that between any two steps, of whatever threads and in whatever order, the words are those of a shutdown.
pub fn words_between_any_two_steps()
    ensures { (s : Counted) → ⟦<Counters as TableRule<(), Holder, ()>>⟧.holds tt s
        → ShutdownWords s.words s.views }
{}

/// States that a holder keeps its knowledge, whatever step it takes, and stays the notifier or a waiter.
pub fn knowledge_lasts()
    ensures knows { (step : Step ⊤) (me after : Seated) (n : ℕ) → IsStep step me n after
        → me.0.knows ≡ true → after.0.knows ≡ true }
    ensures role { (step : Step ⊤) (me after : Seated) (n : ℕ) → IsStep step me n after
        → after.0.notifies ≡ me.0.notifies }
{}

/// States that a flag that is set stays set, whatever step follows. A step that sets the flag is the notifier's.
pub fn flag_lasts()
    ensures stays { (s t : Counted) (me after : Seated) → Follows s me after t
        → ⟦<Counters as TableRule<(), Holder, ()>>⟧.holds tt s
        → ⟦<Counters as TableRule<(), Holder, ()>>⟧.holds tt t
        → IsFlagSet s.words → IsFlagSet t.words }
    ensures notifier { (s t : Counted) (me after : Seated) → Follows s me after t
        → ⟦<Counters as TableRule<(), Holder, ()>>⟧.holds tt s
        → ⟦<Counters as TableRule<(), Holder, ()>>⟧.holds tt t
        → (IsFlagSet s.words → ⊥) → IsFlagSet t.words → me.0.notifies ≡ true }
{}

/// States that a step changes the sum of the shares by its own holder's share.
pub fn sum_changes_by_own_share()
    ensures { (s t : Counted) (me after : Seated) → Follows s me after t
        → shares_of t.views + one_if me.0.shares ≡ shares_of s.views + one_if after.0.shares }
{}
