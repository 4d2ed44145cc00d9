//! A notifier that takes its waiters back.

use crate::new;
use crate::tests::checks::{Tested, check};

/// Some of the waiters aren't gathered. The waiters that are given back can be gathered again,
/// together with the others.
#[test]
fn all_waiters_that_are_left_are_gathered(rt: HostRuntime) -> Tested {
    let (mut notifier, mut first) = new(rt.alloc())?;
    let clone = first.clone()?;
    let subscribed = notifier.subscribe()?;
    drop(clone);
    let mut waiters = Vec::with_capacity(rt.alloc(), 2)?;
    waiters.push(first)?;
    let Err((count, notifier, mut waiters)) = notifier.gather(waiters) else {
        return Err("one of two waiters is not all".into());
    };
    let are_not_all = count == 2 && waiters.len() == 1;
    waiters.push(subscribed)?;
    let Ok(gathered) = notifier.gather(waiters) else {
        return Err("two of two waiters are all".into());
    };
    check(are_not_all && gathered == (2, false))
}

/// No waiter is gathered if none is left. The result says that the flag is set.
#[test]
fn no_waiter_is_gathered_where_none_is_left(rt: HostRuntime) -> Tested {
    let (mut notifier, first) = new(rt.alloc())?;
    notifier.shutdown();
    let Err((count, notifier, waiters)) = notifier.gather(Vec::new(rt.alloc())) else {
        return Err("a waiter is left".into());
    };
    let is_not_all = count == 1 && waiters.is_empty();
    drop(first);
    let Ok(gathered) = notifier.gather(waiters) else {
        return Err("no waiter is left".into());
    };
    check(is_not_all && gathered == (0, true))
}
