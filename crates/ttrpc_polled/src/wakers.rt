//! The wakers of tasks that wait for a core.
ghost use Rattle.std.specs.Prelude.{◌≡◌, [], length, IfSome, IfNone};
ghost use Rattle.std.specs.BTreeMap.{is_at};
ghost use Rattle.std.specs.Ordering.{nat_cmp};
ghost use Rattle.std.specs.Set.{remove_key};
ghost use Rattle.futures.specs.Task.{Covers, Keeps};
ghost use Rattle.ttrpc_polled.specs.Waiting.{IsFirst};

use futures::task::{Context, Poll, Source, Waker};
use std::alloc::Global;
use std::marker::Model;
use ttrpc_table::Table;

/// The wakers of waiting tasks, each under the number of the thing that the task waits for. Contracts see the wakers as these numbers, in
/// order. A waker wakes its task when it is dropped.
#[derive(Drop)]
pub struct Wakers {
    slots: Table<Option<Waker>>,
}

impl Model for Wakers {
    ghost use Rattle.std.specs.Prelude.{List, ℕ};
    ghost use Rattle.std.specs.Map.{keys_of};

    ghost Value = { List ℕ };

    ghost view = { λ w. keys_of w.slots };
}

impl Wakers {
    /// Makes an empty collection of wakers.
    pub fn new(alloc: Global) -> Wakers
        ensures { result ≡ [] }
    {
        Wakers {
            slots: Table::new(alloc),
        }
    }

    /// Waits under this number, at this source. If there is no memory for that, the task is polled again at once.
    pub fn wait<T>(&mut self, key: u64, source: &Source, cx: &mut Context<'_>) -> Poll<T>
        ensures pending { result ≡ Poll.Pending }
        ensures registered { Covers cx.new (λ s. s ≡ source.now.id) }
        ensures kept { Keeps cx.old cx.new }
    {
        if let Some(slot) = self.slots.get_mut(key) {
            return cx.register(source, slot);
        }
        let mut slot = None;
        let pending = cx.register(source, &mut slot);
        // A waker that finds no place is dropped, and so wakes its task.
        let _ = self.slots.insert(key, slot);
        pending
    }

    /// Wakes the task that waits under this number.
    pub fn wake(&mut self, key: u64)
        ensures { self.new ≡ remove_key (is_at (nat_cmp key)) self.old }
    {
        if self.slots.is_empty() {
            return;
        }
        let _ = self.slots.remove(key);
    }

    /// Wakes all tasks.
    pub fn wake_all(&mut self)
        ensures { self.new ≡ [] }
    {
        // Mostly no task waits, and clearing a table writes each place of it.
        if self.slots.is_empty() {
            return;
        }
        self.slots.clear();
    }

    /// Returns how many tasks wait.
    pub fn len(&self) -> usize
        ensures { result ≡ length self.now }
    {
        self.slots.len()
    }

    /// Returns the least number under which a task waits.
    pub fn first(&self) -> Option<u64>
        ensures some { IfSome result (IsFirst self.now) }
        ensures none { IfNone result (self.now ≡ []) }
    {
        self.slots.first()
    }
}
