//! A future that is polled together with a connection.
use futures::Future;
use futures::task::{Context, Poll};

/// A step, and a connection that is polled together with it until it ends. Ready when the step is.
#[derive(Drop)]
pub struct Beside<'a, F, C> {
    pub step: F,
    pub connection: &'a mut Option<C>,
}

impl<F: Future, C: Future<Output = ()>> Future for Beside<'_, F, C> {
    type Output = F::Output;

    ghost use Rattle.std.specs.Prelude.{◌⊎◌, IfSome, IsSomeAnd};

    ghost can_poll = { λ b. F.can_poll b.step × IfSome b.connection.now C.can_poll };

    ghost needs = { λ b s. F.needs b.step s ⊎ IsSomeAnd b.connection.now (λ c. C.needs c s) };

    fn poll(&mut self, cx: &mut Context<'_>) -> Poll<F::Output> {
        if let Some(mut connection) = self.connection.take() {
            if connection.poll(cx).is_pending() {
                *self.connection = Some(connection);
            }
        }
        self.step.poll(cx)
    }
}
