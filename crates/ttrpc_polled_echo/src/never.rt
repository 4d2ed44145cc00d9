//! The method `Never`.
use futures::Future;
use futures::task::{Context, Poll, Source, Waker};
use ttrpc_proto::Result;
use ttrpc_wire::Blob;

/// A call without a response.
#[derive(Drop)]
pub struct UnansweredCall {
    never: Source,
    slot: Option<Waker>,
}

impl UnansweredCall {
    /// Returns a future that is never ready.
    pub fn new() -> UnansweredCall {
        UnansweredCall {
            never: Source::new(),
            slot: None,
        }
    }
}

impl Future for UnansweredCall {
    type Output = Result<Blob>;

    fn poll(&mut self, cx: &mut Context<'_>) -> Poll<Result<Blob>> {
        cx.register(&self.never, &mut self.slot)
    }
}
