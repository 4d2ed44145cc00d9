//! The methods of the tests' service `demo.Echo`.
ghost use Rattle.futures.specs.Poll.{OnPending};
ghost use Rattle.futures.specs.Task.{IsArmed, Keeps};

use crate::tests::gate::Gate;
use futures::Future;
use futures::task::{Context, Poll, Source, Waker};
use std::alloc::{AllocError, Global};
use std::sync::Arc;
use tokio::time::Interval;
use ttrpc_polled_server::{InputEnd, InputEnded, MethodHandler, ServerShared, TtrpcContext};
use ttrpc_proto::{Error, Request, Response, ResponseInit, Result, Status, get_status};
use ttrpc_secure::Plain;
use ttrpc_wire::{Blob, Code, Sequence, Text};

/// The connection of a test.
pub type Shared = ServerShared<Plain, Plain>;

/// The behaviour of a method.
#[derive(Clone, Copy, Debug, PartialEq, Eq)]
pub enum Does {
    /// Responds with the payload.
    Answers,
    /// Responds with the other parts of its request.
    Tells,
    /// Fails with `Eof`.
    Ends,
    /// Fails with the status in its payload: a code, and a message.
    Fails,
    /// Responds with the payload when the gate is open.
    Waits,
    /// Looks at each tick whether the gate is open, and then responds with the payload. After 10,000 looks it fails.
    Looks,
    /// Opens the gate, and responds with the payload.
    Opens,
    /// Never ends.
    NeverEnds,
    /// Responds with the payload after its input has ended.
    AtEnd,
}

/// A method.
#[derive(Drop)]
pub struct Method {
    pub does: Does,
    pub gate: Arc<Gate, Global>,
}

/// A request that is being handled.
#[derive(Drop)]
pub struct MethodCall {
    alloc: Global,
    does: Does,
    payload: Option<Blob>,
    gate: Option<Arc<Gate, Global>>,
    ticks: Option<Interval>,
    looks: u32,
    input_end: Arc<InputEnd, Global>,
    ended: Option<InputEnded>,
    never: Source,
    slot: Option<Waker>,
}

impl MethodHandler for Method {
    type Call = MethodCall;

    fn handler(&self, ctx: TtrpcContext, req: Request) -> MethodCall {
        let payload = match self.does {
            Does::Tells => handed(&ctx, &req).ok(),
            _ => Some(req.payload),
        };
        let ticks = match self.does {
            Does::Looks => self.gate.take_ticks(),
            _ => None,
        };
        MethodCall {
            alloc: ctx.alloc(),
            does: self.does,
            payload,
            gate: Arc::try_clone(&self.gate).ok(),
            ticks,
            looks: 0,
            ended: InputEnd::wait(&ctx.input_end).ok(),
            input_end: ctx.input_end,
            never: Source::new(),
            slot: None,
        }
    }
}

/// The number of times that a handler looks at most.
const LOOKS: u32 = 10_000;

impl MethodCall {
    /// Waits until the gate is open, and then responds with the payload.
    fn poll_waiting(&mut self, cx: &mut Context<'_>) -> Poll<Result<Response>>
        ensures registered { OnPending result (IsArmed cx.new) }
        ensures kept { Keeps cx.old cx.new }
    {
        if let Some(gate) = &self.gate {
            if gate.poll_open(cx).is_pending() {
                return Poll::Pending;
            }
        }
        Poll::Ready(Ok(answer(self.alloc, self.payload.take())))
    }

    /// Ends a call that waits for nothing.
    fn end(&mut self) -> Result<Response> {
        match self.does {
            Does::Ends => Err(Error::Eof),
            Does::Fails => Ok(failure(self.alloc, self.payload.take())),
            Does::Opens => {
                self.open();
                Ok(answer(self.alloc, self.payload.take()))
            }
            _ => Ok(answer(self.alloc, self.payload.take())),
        }
    }

    fn open(&self) {
        if let Some(gate) = &self.gate {
            gate.open();
        }
    }

    /// Looks at a tick whether the gate is open, and then lets others go on.
    fn poll_look(&mut self, cx: &mut Context<'_>) -> Poll<Result<Response>>
        ensures registered { OnPending result (IsArmed cx.new) }
        ensures kept { Keeps cx.old cx.new }
    {
        let Some(ticks) = &mut self.ticks else {
            return Poll::Ready(Err(Error::LocalClosed));
        };
        if ticks.poll_tick(cx).is_pending() {
            return Poll::Pending;
        }
        if self.is_open() {
            return Poll::Ready(Ok(answer(self.alloc, self.payload.take())));
        }
        if self.looks >= LOOKS {
            return Poll::Ready(Err(Error::LocalClosed));
        }
        self.looks = self.looks.saturating_add(1);
        cx.yield_now()
    }

    /// Waits until the input has ended, and then responds with the payload.
    fn poll_ended(&mut self, cx: &mut Context<'_>) -> Poll<Result<Response>>
        ensures registered { OnPending result (IsArmed cx.new) }
        ensures kept { Keeps cx.old cx.new }
    {
        if let Some(ended) = &mut self.ended {
            if ended.poll(cx).is_pending() {
                return Poll::Pending;
            }
        }
        if self.input_end.has_come() {
            Poll::Ready(Ok(answer(self.alloc, self.payload.take())))
        } else {
            Poll::Ready(Err(Error::LocalClosed))
        }
    }

    fn is_open(&self) -> bool {
        match &self.gate {
            Some(gate) => gate.is_open(),
            None => false,
        }
    }
}

impl Future for MethodCall {
    type Output = Result<Response>;

    fn poll(&mut self, cx: &mut Context<'_>) -> Poll<Result<Response>> {
        match self.does {
            Does::NeverEnds => cx.register(&self.never, &mut self.slot),
            Does::Looks => self.poll_look(cx),
            Does::AtEnd => self.poll_ended(cx),
            Does::Waits => self.poll_waiting(cx),
            Does::Answers | Does::Tells | Does::Ends | Does::Fails | Does::Opens => Poll::Ready(
                self.end(),
            ),
        }
    }
}

/// Returns the text of the stream's id, the timeout in nanoseconds, the number of keys in the metadata, and the method.
fn handed(ctx: &TtrpcContext, req: &Request) -> std::result::Result<Blob, AllocError> {
    let (id, limit, keys) = (ctx.mh.stream_id, ctx.timeout_nano, ctx.metadata.len());
    let told = format!(in ctx.alloc(); "{id} {limit} {keys} {}", req.method)?;
    Blob::from_slice(ctx.alloc(), told.as_bytes())
}

/// Returns the response with an OK status and this payload.
pub fn answer(alloc: Global, payload: Option<Blob>) -> Response {
    let status = get_status(Code::OK, String::new(alloc));
    let mut response = Response::init_status(alloc, status);
    if let Some(payload) = payload {
        response.set_payload(payload.into_vec());
    }
    response
}

/// Returns the response with a status. Its code is the first byte of the payload, and its message is the rest. An empty
/// payload gives that of a plain error.
pub fn failure(alloc: Global, payload: Option<Blob>) -> Response {
    failure_of(alloc, payload).into_response(alloc)
}

fn failure_of(alloc: Global, payload: Option<Blob>) -> Error {
    let Some(payload) = payload else {
        return Error::LocalClosed;
    };
    let [code, message @ ..] = payload.as_slice() else {
        return match Text::from_str(alloc, "plain error") {
            Ok(text) => Error::Others(text),
            Err(_) => Error::NoMemory,
        };
    };
    match Text::from_utf8(alloc, message) {
        Ok(message) => Error::RpcStatus(Status {
            code: i32::from(*code),
            message,
            details: Sequence::new(alloc),
        }),
        Err(_) => Error::NoMemory,
    }
}
