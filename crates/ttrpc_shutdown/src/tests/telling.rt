//! Threads that inform one another of shutdowns.

use crate::tests::checks::{Tested, check};
use crate::{Waiter, new};
use std::thread;
use std::time::{Clock, Duration};

/// Looks for the flag at most 10000 times, and sleeps for 1 ms after each look.
fn finds<X: Clock>(rt: &X, waiter: &mut Waiter) -> bool {
    for _ in 0..10_000u32 {
        if waiter.is_shutdown() {
            return true;
        }
        thread::sleep(rt, Duration::from_millis(1));
    }
    false
}

/// One thread shuts the first notifier down and looks for the second's flag. The other thread looks for the first's
/// flag, and then shuts the second down.
#[test]
fn threads_tell_each_other(rt: HostRuntime) -> Tested {
    let (mut first, mut of_first) = new(rt.alloc())?;
    let (mut second, mut of_second) = new(rt.alloc())?;
    let (one, other) = thread::join(
        &rt,
        move || {
            first.shutdown();
            finds(&rt, &mut of_second)
        },
        move || {
            let found = finds(&rt, &mut of_first);
            second.shutdown();
            found
        },
    );
    check(one && other)
}
