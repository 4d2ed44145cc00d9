//! How a thread takes the lock of a connection. Each thread holds this lock only for a moment. A thread that finds it taken tries again
//! several times before it sleeps, since waking a thread takes longer than any thread holds the lock.

use std::hint::spin_loop;
use std::sync::{Condvar, Mutex, MutexGuard, Wait};
use std::thread::yield_now;
use std::time::Duration;

/// The number of attempts in a row, without a yield between them.
const LOOKS: u32 = 100;

/// The number of attempts after that, each after a yield to other threads that are ready to run.
const YIELDS: u32 = 50;

/// The longest sleep of a waiting thread, in seconds. A thread may also wake by itself.
const SLEEP: u64 = 86400;

/// Locks `mutex`.
pub fn lock_soon<'a, X: Wait, T: Drop>(rt: &X, mutex: &'a Mutex<T>) -> MutexGuard<'a, T> {
    for _ in 0..LOOKS {
        if let Some(guard) = mutex.try_lock() {
            return guard;
        }
        spin_loop();
    }
    for _ in 0..YIELDS {
        yield_now();
        if let Some(guard) = mutex.try_lock() {
            return guard;
        }
    }
    mutex.lock(rt)
}

/// Releases the lock, sleeps until the condition is notified, and locks again. The thread may also wake by itself.
pub fn wait_soon<'a, X: Wait, T: Drop>(
    rt: &X,
    condvar: &Condvar,
    guard: MutexGuard<'a, T>,
) -> MutexGuard<'a, T> {
    let seen = condvar.notifications();
    let mutex = MutexGuard::unlock(guard);
    condvar.sleep(rt, seen, Duration::from_secs(SLEEP));
    lock_soon(rt, mutex)
}
