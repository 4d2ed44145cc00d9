//! The side that shuts down.
ghost use Rattle.std.specs.Prelude.{◌≡◌, ◌≢◌, true, false, vec_len, All, IfOk, IfErr, MatchBool, OnErr, OnOk, Err, Some, None};
ghost use Rattle.ttrpc_proto.specs.declared.error.Error.{Error};
ghost use Rattle.ttrpc_shutdown.specs.Holding.{IsOver, IsWaitFailure, SawWaiters, TellsWait, having_read};

use crate::post::Post;
use crate::waiter::Waiter;
use std::alloc::Global;
use std::io;
use std::marker::Model;
use std::sync::Wait;
use std::time::{Clock, Duration};
use ttrpc_proto::{Error, Result};
use ttrpc_wire::Text;

/// The side that sets the flag, by `shutdown` or when it is dropped, and counts the waiters. Nothing else sets the
/// flag, and nothing clears it.
pub struct Notifier {
    post: Post,
    wait_time: Option<Duration>,
}

impl Model for Notifier {
    ghost use Rattle.std.specs.Prelude.{◌≡◌, true, false};
    ghost use Rattle.ttrpc_shutdown.specs.Holding.{Notifying};

    ghost Value = { Notifying };

    ghost view = { λ n.
        record { table = n.post.table; knows = n.post.holder.knows; wait_time = n.wait_time; saw = n.post.holder.saw } };

    ghost invariant = { λ n. (n.post.holder.notifies ≡ true) × (n.post.holder.shares ≡ false) };
}

/// Makes a notifier and its first waiter. The notifier waits for its waiters without limit. The only error is
/// `NoMemory`.
pub fn new(alloc: Global) -> Result<(Notifier, Waiter)>
    ensures table { IfOk result (λ r. r.1.table ≡ r.0.table) }
    ensures knows { IfOk result (λ r. (r.0.knows ≡ false) × (r.1.knows ≡ false)) }
    ensures wait_time { IfOk result (λ r. r.0.wait_time ≡ None) }
    ensures only_memory { IfErr result (λ e. e ≡ Error.NoMemory) }
{
    pair(alloc, None)
}

/// Makes a notifier that waits for its waiters no longer than `wait_time`, and its first waiter. The only error is
/// `NoMemory`.
pub fn with_timeout(alloc: Global, wait_time: Duration) -> Result<(Notifier, Waiter)>
    ensures table { IfOk result (λ r. r.1.table ≡ r.0.table) }
    ensures knows { IfOk result (λ r. (r.0.knows ≡ false) × (r.1.knows ≡ false)) }
    ensures wait_time { IfOk result (λ r. r.0.wait_time ≡ Some wait_time) }
    ensures only_memory { IfErr result (λ e. e ≡ Error.NoMemory) }
{
    pair(alloc, Some(wait_time))
}

fn pair(alloc: Global, wait_time: Option<Duration>) -> Result<(Notifier, Waiter)>
    ensures table { IfOk result (λ r. r.1.table ≡ r.0.table) }
    ensures knows { IfOk result (λ r. (r.0.knows ≡ false) × (r.1.knows ≡ false)) }
    ensures wait_time { IfOk result (λ r. r.0.wait_time ≡ wait_time) }
    ensures only_memory { IfErr result (λ e. e ≡ Error.NoMemory) }
{
    let post = Post::first(alloc)?;
    let mut notifier = Notifier { post, wait_time };
    let waiter = notifier.subscribe()?;
    Ok((notifier, waiter))
}

impl Notifier {
    /// Returns whether the flag is set, that is whether `shutdown` was called.
    pub fn is_shutdown(&mut self) -> bool
        ensures answer { result ≡ self.old.knows }
        ensures same { self.new ≡ self.old }
    {
        self.post.is_set()
    }

    /// Sets the flag, and wakes the waiters that wait for it.
    pub fn shutdown(&mut self)
        ensures { self.new ≡ record self.old { knows = true } }
    {
        self.post.set();
    }

    /// Returns the number of waiters at this moment. It is exact below 2^64 waiters.
    pub fn waiters(&mut self) -> u64
        ensures { self.new ≡ record self.old { saw = Some result } }
    {
        self.post.count()
    }

    /// Makes one more waiter, which knows of the shutdown if this notifier does. The only error is `NoMemory`, and it
    /// changes nothing.
    pub fn subscribe(&mut self) -> Result<Waiter>
        ensures waiter { IfOk result
            (λ w. (w.table ≡ self.old.table) × (w.knows ≡ self.old.knows)) }
        ensures same { self.new ≡ self.old }
        ensures only_memory { IfErr result (λ e. e ≡ Error.NoMemory) }
    {
        Ok(Waiter::at(self.post.beside()?))
    }

    /// Waits until no waiter is left. If the notifier was made with a time limit, waits no longer than that, and then
    /// returns `Others("waiters are left")`. Other errors are that of a clock that can't be read, and `NoMemory` if
    /// memory for that text was refused.
    pub fn wait_all_exit<X: Wait + Clock>(&mut self, rt: &X, alloc: Global) -> Result<()>
        // The count that was read last decides: no waiter, or waiters that are left.
        ensures ok { OnOk result (self.new.saw ≡ Some 0) }
        ensures err { IfErr result (λ e. IsWaitFailure self.old.wait_time self.new.saw e) }
        ensures rest { self.new ≡ record self.old { saw = self.new.saw } }
    {
        let Some(limit) = self.wait_time else {
            wait_for_ever(rt, &mut self.post);
            return Ok(());
        };
        wait_within(rt, alloc, || rt.monotonic(), &mut self.post, limit)
    }

    /// Ends a shutdown that took its waiters back: reads the count once. If the count is the number of these waiters,
    /// `Ok` has the count, and whether the flag is set. Otherwise all are given back with the count that was read. The
    /// waiters must be this notifier's.
    pub fn gather(
        mut self,
        waiters: Vec<Waiter>,
    ) -> std::result::Result<(u64, bool), (u64, Notifier, Vec<Waiter>)>
        requires theirs { All (λ w. w.table ≡ self.table) waiters.items }
        ensures ok { IfOk result (λ r. (r.0 ≡ vec_len waiters) × (r.1 ≡ self.knows)) }
        ensures err { IfErr result (λ r. (r.0 ≢ vec_len waiters)
            × (r.1 ≡ record self { saw = Some r.0 }) × (r.2 ≡ waiters)) }
    {
        let count = self.waiters();
        if count == waiters.len() as u64 {
            let knows = self.is_shutdown();
            return Ok((count, knows));
        }
        Err((count, self, waiters))
    }
}

impl Drop for Notifier {
    fn drop(self) {
        let Self {
            mut post,
            wait_time: _,
        } = self;
        post.set();
        post.leave();
    }
}

// Waits until the count is 0.
fn wait_for_ever<X: Wait>(rt: &X, post: &mut Post)
    ensures { post.new ≡ having_read post.old (Some 0) }
{
    for _ in rt.forever() {
        let count = post.count();
        if count == 0 {
            return;
        }
        post.sleep_at(rt, count);
    }
    unreachable!()
}

// Waits until the count is 0, for no longer than `limit` by the clock that `read` reads.
fn wait_within<X: Wait, F: Fn() -> io::Result<Duration>>(
    rt: &X,
    alloc: Global,
    read: F,
    post: &mut Post,
    limit: Duration,
) -> Result<()>
    requires { F.IsAlwaysCallable read }
    ensures ok { OnOk result (post.new.holder.saw ≡ Some 0) }
    ensures err { IfErr result
        (λ e. TellsWait (λ reading. F.post read reading) limit post.new.holder.saw e) }
    ensures rest { post.new ≡ having_read post.old post.new.holder.saw }
{
    match wait_for(rt, read, post, limit) {
        Ok(true) => Ok(()),
        Ok(false) => Err(Error::Others(Text::from_str(alloc, "waiters are left")?)),
        Err(refused) => Err(Error::Nix(refused.kind())),
    }
}

// Waits as `wait_within` does. Returns whether the count was 0 when it was read last.
fn wait_for<X: Wait, F: Fn() -> io::Result<Duration>>(
    rt: &X,
    read: F,
    post: &mut Post,
    limit: Duration,
) -> io::Result<bool>
    requires { F.IsAlwaysCallable read }
    ensures saw { IfOk result (λ none_left. MatchBool none_left
        (post.new.holder.saw ≡ Some 0)
        (SawWaiters post.new.holder.saw × IsOver (λ reading. F.post read reading) limit)) }
    ensures clock { IfErr result (λ error. F.post read (Err error)) }
    ensures rest { post.new ≡ having_read post.old post.new.holder.saw }
{
    let start = read()?;
    for _ in rt.forever() {
        let count = post.count();
        if count == 0 {
            return Ok(true);
        }
        match limit.checked_sub(read()?.saturating_sub(start)) {
            Some(left) if left != Duration::ZERO => post.sleep_at_for(rt, count, left),
            _ => return Ok(false),
        }
    }
    unreachable!()
}
