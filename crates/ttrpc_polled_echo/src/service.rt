//! The service `demo.Echo` and its handlers.
ghost use Rattle.ttrpc_polled_echo.specs.Needs.{MethodCallCanPoll, StreamCallCanPoll};

use crate::chat::Chatting;
use crate::count::RunningCount;
use crate::echo::Echoing;
use crate::never::UnansweredCall;
use crate::sum::Summing;
use futures::Future;
use futures::task::{Context, Poll};
use std::alloc::{AllocError, Global};
use std::collections::BTreeMap;
use ttrpc_polled::{
    Closes, EndsBy, Handling, Responds, ServerStream, ServerStreamOpening, ServerStreamReceiver,
    StreamInner, StreamLine,
};
use ttrpc_polled_server::{
    MethodHandler, Service, StreamHandler, TtrpcContext, async_client_streamimg_handler,
    async_duplex_streamimg_handler, async_request_handler, async_server_streamimg_handler,
};
use ttrpc_proto::{Request, Response, Result};
use ttrpc_wire::Blob;

/// The service `demo.Echo`.
#[derive(Clone, Copy, Debug)]
pub struct EchoService {}

impl EchoService {
    /// Responds with the request's item.
    fn echo(&self, _ctx: &TtrpcContext, item: Blob) -> Echoing {
        Echoing { item: Some(item) }
    }

    /// Never responds.
    fn never(&self, _ctx: &TtrpcContext, _item: Blob) -> UnansweredCall {
        UnansweredCall::new()
    }

    /// Sends each item back.
    fn chat<L: StreamLine>(
        &self,
        _ctx: &TtrpcContext,
        stream: ServerStream<Blob, Blob, L>,
    ) -> Chatting<L> {
        Chatting::new(stream)
    }

    /// Responds with the number of items, and the number of bytes in all.
    fn sum<L: StreamLine>(
        &self,
        ctx: &TtrpcContext,
        stream: ServerStreamReceiver<Blob, L>,
    ) -> Summing<L> {
        Summing::new(ctx.alloc(), stream)
    }

    /// Sends the number of items that the request asks for.
    fn count<L: StreamLine>(
        &self,
        ctx: &TtrpcContext,
        opening: ServerStreamOpening<Blob, Blob, L>,
    ) -> RunningCount<L> {
        RunningCount::new(ctx.alloc(), opening)
    }
}

/// The handlers of the methods.
#[derive(Clone, Copy, Debug)]
pub struct EchoMethod {
    service: EchoService,
    kind: MethodKind,
}

/// The methods of the service.
#[derive(Clone, Copy, Debug, PartialEq, Eq)]
enum MethodKind {
    Echo,
    Never,
}

/// A call of a method.
#[derive(Drop)]
pub enum MethodCall {
    /// A call of `Echo`.
    Echoes(Handling<Echoing, Responds<Blob>>),
    /// A call of `Never`.
    Waits(Handling<UnansweredCall, Responds<Blob>>),
}

impl Future for MethodCall {
    type Output = Result<Response>;

    ghost use Rattle.ttrpc_polled_echo.specs.Needs.{MethodCallCanPoll};

    ghost can_poll = { MethodCallCanPoll };

    fn poll(&mut self, cx: &mut Context<'_>) -> Poll<Result<Response>> {
        match self {
            MethodCall::Echoes(call) => call.poll(cx),
            MethodCall::Waits(call) => call.poll(cx),
        }
    }
}

impl MethodHandler for EchoMethod {
    type Call = MethodCall;

    fn handler(&self, ctx: TtrpcContext, req: Request) -> MethodCall
        ensures { MethodCallCanPoll result }
    {
        match self.kind {
            MethodKind::Echo => {
                MethodCall::Echoes(async_request_handler!(self, ctx, req, Blob, echo))
            }
            MethodKind::Never => {
                MethodCall::Waits(async_request_handler!(self, ctx, req, Blob, never))
            }
        }
    }
}

/// The handlers of the streams.
#[derive(Clone, Copy, Debug)]
pub struct EchoStream {
    service: EchoService,
    kind: StreamKind,
}

/// The streams of the service.
#[derive(Clone, Copy, Debug, PartialEq, Eq)]
enum StreamKind {
    Chat,
    Sum,
    Count,
}

/// A call of a stream.
#[derive(Drop)]
pub enum StreamCall<L: StreamLine> {
    /// A call of `Chat`.
    Chats(Handling<Chatting<L>, Closes>),
    /// A call of `Sum`.
    Sums(Handling<Summing<L>, EndsBy<Blob>>),
    /// A call of `Count`.
    Counts(Handling<RunningCount<L>, Closes>),
}

impl<L: StreamLine> Future for StreamCall<L> {
    type Output = Result<Option<Response>>;

    ghost use Rattle.ttrpc_polled_echo.specs.Needs.{StreamCallCanPoll, StreamCallNeeds};

    ghost can_poll = { StreamCallCanPoll };

    ghost needs = { StreamCallNeeds L.came };

    fn poll(&mut self, cx: &mut Context<'_>) -> Poll<Result<Option<Response>>> {
        match self {
            StreamCall::Chats(call) => call.poll(cx),
            StreamCall::Sums(call) => call.poll(cx),
            StreamCall::Counts(call) => call.poll(cx),
        }
    }
}

impl<L: StreamLine> StreamHandler<L> for EchoStream {
    type Call = StreamCall<L>;

    fn handler(&self, ctx: TtrpcContext, inner: StreamInner<L>) -> StreamCall<L>
        ensures { StreamCallCanPoll result }
    {
        match self.kind {
            StreamKind::Chat => {
                StreamCall::Chats(async_duplex_streamimg_handler!(self, ctx, inner, chat))
            }
            StreamKind::Sum => {
                StreamCall::Sums(async_client_streamimg_handler!(self, ctx, inner, sum))
            }
            StreamKind::Count => {
                StreamCall::Counts(async_server_streamimg_handler!(self, ctx, inner, Blob, count))
            }
        }
    }
}

/// Returns the services of the program, each with its name.
pub fn services(
    alloc: Global,
) -> std::result::Result<BTreeMap<String, Service<EchoMethod, EchoStream>>, AllocError> {
    let mut service = Service::new(alloc);
    for (name, kind) in [("Echo", MethodKind::Echo), ("Never", MethodKind::Never)] {
        let method = EchoMethod {
            service: EchoService {},
            kind,
        };
        service
            .methods
            .insert(String::from_str(alloc, name)?, method)?;
    }
    for (name, kind) in [
        ("Chat", StreamKind::Chat),
        ("Sum", StreamKind::Sum),
        ("Count", StreamKind::Count),
    ] {
        let stream = EchoStream {
            service: EchoService {},
            kind,
        };
        service
            .streams
            .insert(String::from_str(alloc, name)?, stream)?;
    }
    let mut services = BTreeMap::new(alloc);
    services.insert(String::from_str(alloc, "demo.Echo")?, service)?;
    Ok(services)
}
