//! Threads that wait for the flag, or for all waiters to go.

use crate::tests::checks::{Tested, check};
use crate::{new, with_timeout};
use std::thread;
use std::time::{Duration, Instant};
use ttrpc_proto::Error;

fn a_while() -> Duration {
    Duration::from_millis(20)
}

/// A thread that waits for the flag wakes at `shutdown` and at the notifier's drop.
#[test]
fn a_shutdown_wakes_who_waits_for_it(rt: HostRuntime) -> Tested {
    for by_drop in [false, true] {
        let (mut notifier, mut waiter) = new(rt.alloc())?;
        let (told, _left) = thread::join(
            &rt,
            move || {
                waiter.wait_shutdown(&rt);
                waiter.is_shutdown()
            },
            move || {
                thread::sleep(&rt, a_while());
                if by_drop {
                    return None;
                }
                notifier.shutdown();
                Some(notifier)
            },
        );
        check(told)?;
    }
    Ok(())
}

/// A thread that waits for all waiters to go wakes at the drop of the last one.
#[test]
fn the_last_drop_wakes_who_waits_for_all(rt: HostRuntime) -> Tested {
    let (mut notifier, mut first) = new(rt.alloc())?;
    let second = first.clone()?;
    let ((waited, left), _) = thread::join(
        &rt,
        move || (notifier.wait_all_exit(&rt, rt.alloc()), notifier.waiters()),
        move || {
            thread::sleep(&rt, a_while());
            drop(first);
            thread::sleep(&rt, a_while());
            drop(second);
        },
    );
    waited?;
    check(left == 0)
}

/// A wait with a limit fails after the limit with a text of its own, and ends as soon as no waiter is left.
#[test]
fn a_wait_has_its_limit(rt: HostRuntime) -> Tested {
    let (mut notifier, waiter) = with_timeout(rt.alloc(), a_while())?;
    notifier.shutdown();
    let start = Instant::now(&rt)?;
    let refused = notifier.wait_all_exit(&rt, rt.alloc());
    let is_late = start.elapsed(&rt)? >= a_while();
    let text = match refused {
        Err(Error::Others(text)) => text,
        Err(other) => return Err(other.into()),
        Ok(()) => return Err("a waiter is left".into()),
    };
    let is_told = text.as_str() == "waiters are left" && notifier.waiters() == 1;
    drop(waiter);
    notifier.wait_all_exit(&rt, rt.alloc())?;
    check(is_late && is_told)
}
