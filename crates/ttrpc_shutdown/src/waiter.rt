//! The side that learns of a shutdown.
ghost use Rattle.std.specs.Prelude.{◌≡◌, true, false, IfOk, IfErr};
ghost use Rattle.ttrpc_proto.specs.declared.error.Error.{Error};
ghost use Rattle.ttrpc_shutdown.specs.Rule.{holder};

use crate::post::Post;
use std::marker::Model;
use std::sync::Wait;
use ttrpc_proto::Result;

/// The side that looks at the flag. It has a share in the count from when it is made until it is dropped.
pub struct Waiter {
    post: Post,
}

impl Model for Waiter {
    ghost use Rattle.std.specs.Prelude.{◌≡◌, true, false};
    ghost use Rattle.ttrpc_shutdown.specs.Holding.{Waiting};

    ghost Value = { Waiting };

    ghost view = { λ w. record { table = w.post.table; knows = w.post.holder.knows } };

    ghost invariant = { λ w. (w.post.holder.notifies ≡ false) × (w.post.holder.shares ≡ true) };
}

impl Waiter {
    // Makes the waiter in a seat with a share.
    pub(crate) fn at(post: Post) -> Waiter
        requires { (post.holder.notifies ≡ false) × (post.holder.shares ≡ true) }
        ensures { result ≡ record { table = post.table; knows = post.holder.knows } }
    {
        Waiter { post }
    }

    /// Returns whether the flag is set. From then on the waiter knows the answer. A waiter that knows of a shutdown
    /// goes on knowing of it.
    pub fn is_shutdown(&mut self) -> bool
        ensures answer { self.new ≡ record { table = self.old.table; knows = result } }
        ensures again { self.old.knows ≡ true → result ≡ true }
    {
        self.post.is_set()
    }

    /// Waits until the flag is set.
    pub fn wait_shutdown<X: Wait>(&mut self, rt: &X)
        ensures { self.new ≡ record { table = self.old.table; knows = true } }
    {
        for _ in rt.forever() {
            if self.is_shutdown() {
                return;
            }
            self.post.sleep_until_set(rt);
        }
        unreachable!()
    }

    /// Makes one more waiter, which knows what this waiter knows. The only error is `NoMemory`, and it changes nothing.
    pub fn clone(&mut self) -> Result<Waiter>
        ensures ok { IfOk result (λ w. w ≡ self.old) }
        ensures same { self.new ≡ self.old }
        ensures only_memory { IfErr result (λ e. e ≡ Error.NoMemory) }
    {
        Ok(Waiter::at(self.post.beside()?))
    }
}

impl Drop for Waiter {
    fn drop(self) {
        let Self { mut post } = self;
        post.give_back();
        post.leave();
    }
}

#[cfg(test)]
mod tests {
    use crate::new;
    use std::test::Fail;

    /// The count stays after the notifier is gone. Only a seat can still read it.
    #[test]
    fn the_count_outlives_the_notifier(rt: HostRuntime) -> Result<(), Fail> {
        let (mut notifier, mut first) = new(rt.alloc())?;
        let clone = first.clone()?;
        let _subscribed = notifier.subscribe()?;
        drop(clone);
        drop(notifier);
        assert!(rt; first.is_shutdown());
        assert_eq!(rt; first.post.count(), 2);
        Ok(())
    }
}
