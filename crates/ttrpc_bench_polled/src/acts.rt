//! The acts of a client, one after the other, and the result of each.
ghost use Rattle.futures.specs.Poll.{OnPending};
ghost use Rattle.futures.specs.Task.{IsArmed, Keeps};

use crate::parts::Fault;
use futures::Future;
use futures::task::{Context, Poll};
use std::alloc::Global;
use ttrpc_polled::{Sending, StreamInner, Timed};
use ttrpc_polled_client::{Client, ClientLine, ClientRequest};
use ttrpc_proto::{Request, RequestInit, Result};
use ttrpc_secure::Plain;
use ttrpc_wire::Blob;

/// The expected result of a call or a receipt: its bytes, or the text of its error.
pub type Outcome = std::result::Result<&'static [u8], &'static str>;

/// An act of a client. Its calls and its streams have numbers from 0, in the order of their creation.
#[derive(Clone, Copy, Debug)]
pub enum Act {
    /// Makes a call of this method, with this payload and this timeout in nanoseconds.
    Calls(&'static str, &'static [u8], i64),
    /// Makes a call of `Echo` with this number of bytes 7.
    CallsLong(usize),
    /// The call with this number ends with that number of bytes 7.
    EndsLong(usize, usize),
    /// The call with this number begins, and doesn't end at once.
    Begins(usize),
    /// The call with this number ends with this outcome.
    Ends(usize, Outcome),
    /// Drops the call with this number.
    Forgets(usize),
    /// Opens a stream with this name and this payload. The first flag is true if the client sends on it, and the second
    /// is true if the server does.
    Opens(&'static str, &'static [u8], bool, bool),
    /// Sends this item on the stream with this number. If a text is given, that is refused with it.
    Sends(usize, &'static [u8], Option<&'static str>),
    /// Closes the stream with this number. If a text is given, that is refused with it.
    Closes(usize, Option<&'static str>),
    /// Receives this outcome from the stream with this number.
    Receives(usize, Outcome),
    /// Polls once for an item of the stream with this number, gets none, and drops the future.
    Asks(usize),
    /// Drops the stream with this number.
    Leaves(usize),
    /// Lets the other parts go on this number of times.
    Yields(u32),
}

/// A client that does its acts. Ready with the first fault, or with `None` when all acts are done.
#[derive(Drop)]
pub struct Script<'a, R: Timed> {
    client: Client<R, Plain, Plain>,
    acts: &'a [Act],
    at: usize,
    calls: Vec<Option<ClientRequest<Plain, Plain>>>,
    streams: Vec<Option<StreamInner<ClientLine<Plain, Plain>>>>,
    sending: Option<Sending>,
    yielded: u32,
}

impl<'a, R: Timed> Script<'a, R> {
    /// Returns the script of this client's acts.
    pub fn new(client: Client<R, Plain, Plain>, acts: &'a [Act]) -> Script<'a, R> {
        let alloc = client.alloc();
        Script {
            client,
            acts,
            at: 0,
            calls: Vec::new(alloc),
            streams: Vec::new(alloc),
            sending: None,
            yielded: 0,
        }
    }

    /// Goes on with these acts.
    pub fn go_on(&mut self, acts: &'a [Act]) {
        self.acts = acts;
        self.at = 0;
    }

    /// Goes on with an act. Ready with true if the act came out as expected.
    fn poll_act(&mut self, act: Act, cx: &mut Context<'_>) -> Poll<bool>
        ensures registered { OnPending result (IsArmed cx.new) }
        ensures kept { Keeps cx.old cx.new }
    {
        match act {
            Act::Calls(method, payload, limit) => Poll::Ready(self.add_call(
                method, payload, limit,
            )),
            Act::CallsLong(length) => Poll::Ready(self.add_long_call(length)),
            Act::EndsLong(number, length) => self.poll_long_end(number, length, cx),
            Act::Begins(number) => Poll::Ready(self.begin(number, cx)),
            Act::Ends(number, outcome) => self.poll_end(number, outcome, cx),
            Act::Forgets(number) => Poll::Ready(self.forget(number)),
            Act::Opens(name, payload, sends, receives) => {
                self.poll_opening(name, payload, sends, receives, cx)
            }
            Act::Sends(number, item, refusal) => {
                if self.sending.is_none() {
                    self.sending = sending_of(self.client.alloc(), item);
                }
                self.poll_sending(number, refusal, cx)
            }
            Act::Closes(number, refusal) => {
                if self.sending.is_none() {
                    self.sending = Some(Sending::Closes);
                }
                self.poll_sending(number, refusal, cx)
            }
            Act::Receives(number, outcome) => self.poll_receipt(number, outcome, cx),
            Act::Asks(number) => Poll::Ready(self.ask(number, cx)),
            Act::Leaves(number) => Poll::Ready(self.leave(number)),
            Act::Yields(times) => self.poll_yields(times, cx),
        }
    }

    fn add_call(&mut self, method: &str, payload: &[u8], limit: i64) -> bool {
        match self.call(method, payload, limit) {
            Ok(call) => self.calls.push(Some(call)).is_ok(),
            Err(_) => false,
        }
    }

    fn call(
        &self,
        method: &str,
        payload: &[u8],
        limit: i64,
    ) -> Result<ClientRequest<Plain, Plain>> {
        self.client
            .request(request(self.client.alloc(), method, payload, limit)?)
    }

    fn add_long_call(&mut self, length: usize) -> bool {
        match Vec::from_elem(self.client.alloc(), 7u8, length) {
            Ok(payload) => self.add_call("Echo", payload.as_slice(), 0),
            Err(_) => false,
        }
    }

    fn begin(&mut self, number: usize, cx: &mut Context<'_>) -> bool
        ensures kept { Keeps cx.old cx.new }
    {
        match self.calls.get_mut(number) {
            Some(Some(call)) => call.poll(cx).is_pending(),
            _ => false,
        }
    }

    fn poll_long_end(&mut self, number: usize, length: usize, cx: &mut Context<'_>) -> Poll<bool>
        ensures registered { OnPending result (IsArmed cx.new) }
        ensures kept { Keeps cx.old cx.new }
    {
        match self.calls.get_mut(number) {
            Some(Some(call)) => match call.poll(cx) {
                Poll::Pending => Poll::Pending,
                Poll::Ready(Ok(response)) => Poll::Ready(is_long(&response.payload, length)),
                Poll::Ready(Err(_)) => Poll::Ready(false),
            },
            _ => Poll::Ready(false),
        }
    }

    fn poll_end(&mut self, number: usize, expected: Outcome, cx: &mut Context<'_>) -> Poll<bool>
        ensures registered { OnPending result (IsArmed cx.new) }
        ensures kept { Keeps cx.old cx.new }
    {
        let alloc = self.client.alloc();
        match self.calls.get_mut(number) {
            Some(Some(call)) => match call.poll(cx) {
                Poll::Pending => Poll::Pending,
                Poll::Ready(Ok(response)) => {
                    Poll::Ready(is_so(alloc, Ok(response.payload), expected))
                }
                Poll::Ready(Err(error)) => Poll::Ready(is_so(alloc, Err(error), expected)),
            },
            _ => Poll::Ready(false),
        }
    }

    fn forget(&mut self, number: usize) -> bool {
        match self.calls.get_mut(number) {
            Some(call) => call.take().is_some(),
            None => false,
        }
    }

    fn poll_opening(
        &mut self,
        name: &str,
        payload: &[u8],
        sends: bool,
        receives: bool,
        cx: &mut Context<'_>,
    ) -> Poll<bool>
        ensures registered { OnPending result (IsArmed cx.new) }
        ensures kept { Keeps cx.old cx.new }
    {
        let Ok(request) = request(self.client.alloc(), name, payload, 0) else {
            return Poll::Ready(false);
        };
        let Ok(mut opening) = self.client.new_stream(request, sends, receives) else {
            return Poll::Ready(false);
        };
        match opening.poll(cx) {
            Poll::Pending => Poll::Pending,
            Poll::Ready(Ok(stream)) => Poll::Ready(self.streams.push(Some(stream)).is_ok()),
            Poll::Ready(Err(_)) => Poll::Ready(false),
        }
    }

    fn poll_sending(
        &mut self,
        number: usize,
        refusal: Option<&'static str>,
        cx: &mut Context<'_>,
    ) -> Poll<bool>
        ensures registered { OnPending result (IsArmed cx.new) }
        ensures kept { Keeps cx.old cx.new }
    {
        let alloc = self.client.alloc();
        let Some(mut sending) = self.sending.take() else {
            return Poll::Ready(false);
        };
        let Some(Some(stream)) = self.streams.get(number) else {
            return Poll::Ready(false);
        };
        match stream.sender().poll_sending(&mut sending, cx) {
            Poll::Pending => {
                self.sending = Some(sending);
                Poll::Pending
            }
            Poll::Ready(sent) => Poll::Ready(is_sent(alloc, sent, refusal)),
        }
    }

    fn poll_receipt(&mut self, number: usize, expected: Outcome, cx: &mut Context<'_>) -> Poll<bool>
        ensures registered { OnPending result (IsArmed cx.new) }
        ensures kept { Keeps cx.old cx.new }
    {
        let alloc = self.client.alloc();
        match self.streams.get_mut(number) {
            Some(Some(stream)) => match stream.poll_recv(cx) {
                Poll::Pending => Poll::Pending,
                Poll::Ready(given) => Poll::Ready(is_so(alloc, given, expected)),
            },
            _ => Poll::Ready(false),
        }
    }

    fn ask(&mut self, number: usize, cx: &mut Context<'_>) -> bool
        ensures kept { Keeps cx.old cx.new }
    {
        match self.streams.get_mut(number) {
            Some(Some(stream)) => {
                let mut asked = stream.recv();
                asked.poll(cx).is_pending()
            }
            _ => false,
        }
    }

    fn leave(&mut self, number: usize) -> bool {
        match self.streams.get_mut(number) {
            Some(stream) => stream.take().is_some(),
            None => false,
        }
    }

    fn poll_yields(&mut self, times: u32, cx: &mut Context<'_>) -> Poll<bool>
        ensures registered { OnPending result (IsArmed cx.new) }
        ensures kept { Keeps cx.old cx.new }
    {
        if self.yielded >= times {
            self.yielded = 0;
            return Poll::Ready(true);
        }
        self.yielded = self.yielded.saturating_add(1);
        cx.yield_now()
    }
}

/// The number of acts that are done at most before other parts go on.
const TURNS: u32 = 64;

impl<R: Timed> Future for Script<'_, R> {
    type Output = Option<Fault>;

    fn poll(&mut self, cx: &mut Context<'_>) -> Poll<Option<Fault>> {
        for _ in 0..TURNS {
            let Some(act) = self.acts.get(self.at) else {
                return Poll::Ready(None);
            };
            let act = *act;
            match self.poll_act(act, cx) {
                Poll::Pending => return Poll::Pending,
                Poll::Ready(true) => self.at = self.at.saturating_add(1),
                Poll::Ready(false) => return Poll::Ready(Some(Fault::Act(self.at))),
            }
        }
        cx.yield_now()
    }
}

/// Returns a request of `demo.Echo` for this name, with this payload and this timeout in nanoseconds.
pub fn request(alloc: Global, name: &str, payload: &[u8], limit: i64) -> Result<Request> {
    let service = String::from_str(alloc, "demo.Echo")?;
    let name = String::from_str(alloc, name)?;
    let mut request = Request::init_request(alloc, service, name, limit, Vec::new(alloc));
    request.set_payload(Vec::from_slice(alloc, payload)?);
    Ok(request)
}

/// Returns the state of sending this item, or `None` if memory is refused.
fn sending_of(alloc: Global, item: &[u8]) -> Option<Sending> {
    match Blob::from_slice(alloc, item) {
        Ok(item) => Some(Sending::Sends(item)),
        Err(_) => None,
    }
}

/// Returns whether the result is the expected bytes, or an error with the expected text.
pub fn is_so(alloc: Global, given: Result<Blob>, expected: Outcome) -> bool {
    match (given, expected) {
        (Ok(given), Ok(bytes)) => given.as_slice() == bytes,
        (Err(error), Err(text)) => match format!(in alloc; "{error}") {
            Ok(told) => told.as_str() == text,
            Err(_) => false,
        },
        _ => false,
    }
}

/// Returns whether the payload is `length` bytes 7.
fn is_long(payload: &Blob, length: usize) -> bool {
    payload.len() == length && payload.as_slice().iter().all(|byte| *byte == 7)
}

/// Returns whether sending succeeded, or was refused with this text if one is given.
fn is_sent(alloc: Global, sent: Result<()>, refusal: Option<&'static str>) -> bool {
    match (sent, refusal) {
        (Ok(()), None) => true,
        (Err(error), Some(text)) => is_so(alloc, Err(error), Err(text)),
        _ => false,
    }
}
