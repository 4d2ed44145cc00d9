//! The number of waiters, and the knowledge of each, in one thread.

use crate::tests::checks::{Tested, check};
use crate::{new, with_timeout};
use std::time::Duration;

/// A waiter counts from when it is made until it is dropped. Each waiter learns of a drop of the notifier.
#[test]
fn each_waiter_counts_until_its_drop(rt: HostRuntime) -> Tested {
    let (mut notifier, mut first) = new(rt.alloc())?;
    let is_one = notifier.waiters() == 1;
    let clone = first.clone()?;
    let are_two = notifier.waiters() == 2;
    let mut subscribed = notifier.subscribe()?;
    let are_three = notifier.waiters() == 3;
    drop(clone);
    let are_counted = is_one && are_two && are_three && notifier.waiters() == 2;
    let is_open = !notifier.is_shutdown() && !first.is_shutdown() && !subscribed.is_shutdown();
    drop(notifier);
    check(are_counted && is_open && first.is_shutdown() && subscribed.is_shutdown())
}

/// After a shutdown each waiter knows of it, even a new one.
#[test]
fn a_new_waiter_knows_of_a_shutdown(rt: HostRuntime) -> Tested {
    let (mut notifier, mut first) = with_timeout(rt.alloc(), Duration::from_millis(1))?;
    let is_open = !first.is_shutdown();
    notifier.shutdown();
    let is_told = notifier.is_shutdown() && first.is_shutdown();
    let mut subscribed = notifier.subscribe()?;
    let is_new_told = subscribed.is_shutdown();
    let mut clone = subscribed.clone()?;
    let is_clone_told = clone.is_shutdown();
    notifier.shutdown();
    let is_still_told = notifier.is_shutdown() && first.is_shutdown() && notifier.waiters() == 3;
    check(is_open && is_told && is_new_told && is_clone_told && is_still_told)
}
