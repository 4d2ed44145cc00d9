//! Calls that are polled, one after the other.
ghost use Rattle.futures.specs.Poll.{OnPending};
ghost use Rattle.futures.specs.Task.{Covers, Keeps};
ghost use Rattle.ttrpc_load_polled.specs.Needs.{CallNeeds};

use crate::calling::{request_of, same};
use futures::task::{Context, Poll};
use futures::{Future, Stream};
use ttrpc_polled::Timed;
use ttrpc_polled_client::{Client, ClientRequest};
use ttrpc_proto::{Response, Result};
use ttrpc_secure::Plain;

/// A number of calls of `Echo`, each made after the one before was answered.
#[derive(Drop)]
pub struct Calls<R: Timed> {
    client: Client<R, Plain, Plain>,
    payload: Vec<u8>,
    left: usize,
    call: Option<ClientRequest<Plain, Plain>>,
}

impl<R: Timed> Calls<R> {
    /// Prepares `left` calls by this client, with this payload.
    pub fn new(client: Client<R, Plain, Plain>, payload: Vec<u8>, left: usize) -> Calls<R> {
        Calls {
            client,
            payload,
            left,
            call: None,
        }
    }

    /// Takes the running call, or makes the next.
    fn current(&mut self) -> Result<ClientRequest<Plain, Plain>> {
        if let Some(call) = self.call.take() {
            return Ok(call);
        }
        let request = request_of(self.client.alloc(), self.payload.as_slice())?;
        self.client.request(request)
    }

    /// Counts an answered call. Returns an error if the response differs from the payload.
    fn answered(&mut self, response: &Response) -> Result<bool> {
        self.left = self.left.saturating_sub(1);
        let payload = self.payload.as_slice();
        same(self.client.alloc(), response.payload.as_slice(), payload)?;
        Ok(true)
    }

    /// Polls a call. Ready with true if the response was right, or with the error.
    fn poll_call(
        &mut self,
        call: ClientRequest<Plain, Plain>,
        cx: &mut Context<'_>,
    ) -> Poll<Option<Result<bool>>>
        ensures registered { OnPending result (Covers cx.new (CallNeeds self.new.call)) }
        ensures kept { Keeps cx.old cx.new }
    {
        let mut call = call;
        match call.poll(cx) {
            Poll::Pending => {
                self.call = Some(call);
                Poll::Pending
            }
            Poll::Ready(Ok(response)) => Poll::Ready(Some(self.answered(&response))),
            Poll::Ready(Err(error)) => Poll::Ready(Some(Err(error))),
        }
    }
}

impl<R: Timed> Stream for Calls<R> {
    type Item = Result<bool>;

    ghost use Rattle.ttrpc_load_polled.specs.Needs.{CallNeeds};

    ghost needs = { λ c. CallNeeds c.call };

    fn poll_next(&mut self, cx: &mut Context<'_>) -> Poll<Option<Result<bool>>> {
        if self.left == 0 {
            return Poll::Ready(None);
        }
        match self.current() {
            Ok(call) => self.poll_call(call, cx),
            Err(error) => Poll::Ready(Some(Err(error))),
        }
    }
}
