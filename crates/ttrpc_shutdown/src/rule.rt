//! The rule of the table, and the knowledge that its steps give to their holder.
use atomic_table::{Play, Split, Table, TableRule};
use std::alloc::Global;

/// The state of a holder, as its seat records it. The type is only for contracts: no value of it is
/// made.
pub struct Holder {
    /// True for the notifier, and false for a waiter.
    pub notifies: bool,
    /// True if the holder has a share in the count.
    pub shares: bool,
    /// True if the holder knows that the flag is set.
    pub knows: bool,
    /// The count read last, if any.
    pub saw: Option<u64>,
}

/// The rule: the words are those of a shutdown with these holders.
pub struct Counters;

impl TableRule<(), Holder, ()> for Counters {
    ghost use Rattle.ttrpc_shutdown.specs.Rule.{IsKept, the_notifier};

    ghost holds = { λ _ s. IsKept s.words s.views };

    ghost first = { λ _. the_notifier };
}

/// The table of a shutdown.
pub(crate) type Words = Table<(), Holder, (), Counters, Global>;

/// The word that is 1 if the flag is set, and 0 if it isn't.
pub(crate) const FLAG: usize = 0;

/// The word with the number of shares.
pub(crate) const COUNT: usize = 1;

/// The step of a new waiter that takes a share.
pub(crate) struct Sharing;

impl Play<(), Holder> for Sharing {
    ghost use Rattle.ttrpc_shutdown.specs.Rule.{Shares};

    ghost then = { Shares };
}

/// The step of a waiter that gives its share back.
pub(crate) struct Leaving;

impl Play<(), Holder> for Leaving {
    ghost use Rattle.ttrpc_shutdown.specs.Rule.{Leaves};

    ghost then = { Leaves };
}

/// The step of the notifier that sets the flag.
pub(crate) struct Setting;

impl Play<(), Holder> for Setting {
    ghost use Rattle.ttrpc_shutdown.specs.Rule.{Sets};

    ghost then = { Sets };
}

/// The step of a holder that looks at the flag.
pub(crate) struct Looking;

impl Play<(), Holder> for Looking {
    ghost use Rattle.ttrpc_shutdown.specs.Rule.{Looks};

    ghost then = { Looks };
}

/// The step of a holder that looks at the count.
pub(crate) struct Counting;

impl Play<(), Holder> for Counting {
    ghost use Rattle.ttrpc_shutdown.specs.Rule.{Counts};

    ghost then = { Counts };
}

/// The split that makes a new seat: that of a waiter without a share, which knows what its parent
/// knows.
pub(crate) struct Parting;

impl Split<Holder> for Parting {
    ghost use Rattle.ttrpc_shutdown.specs.Rule.{newcomer};

    ghost left = { λ h. h };

    ghost right = { newcomer };
}
