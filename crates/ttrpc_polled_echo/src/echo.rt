//! The method `Echo`.
use futures::Future;
use futures::task::{Context, Poll};
use ttrpc_proto::{Error, Result};
use ttrpc_wire::Blob;

/// The response to a request, with the request's item.
#[derive(Drop)]
pub struct Echoing {
    pub item: Option<Blob>,
}

impl Future for Echoing {
    type Output = Result<Blob>;

    fn poll(&mut self, _cx: &mut Context<'_>) -> Poll<Result<Blob>> {
        Poll::Ready(self.item.take().ok_or(Error::LocalClosed))
    }
}
