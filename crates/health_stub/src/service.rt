//! The service `demo.Health` over polled ends.
ghost use Rattle.std.specs.Prelude.{◌≡◌, ⊤, codes, IfErr, IfOk, IsSome, IsSomeAnd, Some};
ghost use Rattle.std.specs.Arc.{arc_value};
ghost use Rattle.std.specs.BTreeMap.{get_by_text};
ghost use Rattle.ttrpc_proto.specs.declared.error.Error.{Error as AnError};
ghost use Rattle.health_stub.specs.Health.{check_of};

use crate::answers::{check, watch};
use crate::messages::HealthCheckResponse;
use crate::table::HealthTable;
use futures::future::{Ready, ready};
use futures::task::{Context, Poll};
use futures::{Future, ready};
use std::alloc::Global;
use std::collections::BTreeMap;
use std::sync::Arc;
use ttrpc::asynchronous::{
    Closes, Handling, MethodHandler, Sending, ServerStreamOpening, ServerStreamSender, Service,
    StreamHandler, StreamInner, StreamLine, TtrpcContext, sending_of,
};
use ttrpc::proto::Blob;
use ttrpc::{Error, Request, Response, Result};

/// The handler of `Check`, which answers as `check` does, and of `Watch`, which sends each status of a name, in order, and closes.
#[derive(Drop)]
pub struct HealthHandler {
    pub table: Arc<HealthTable, Global>,
}

impl MethodHandler for HealthHandler {
    type Call = Ready<Result<Response>>;

    fn handler(&self, _ctx: TtrpcContext, req: Request) -> Ready<Result<Response>>
        ensures can { IsSome result.0 }
        ensures checks { IsSomeAnd result.0
            (λ given. IfOk given (λ response. response ≡ check_of (arc_value self.now.table) req)) }
    {
        ready(check(&self.table, &req))
    }
}

impl<L: StreamLine> StreamHandler<L> for HealthHandler {
    type Call = Handling<Watching<L>, Closes>;

    fn handler(&self, ctx: TtrpcContext, stream: StreamInner<L>) -> Handling<Watching<L>, Closes>
        // A watch may be polled whatever state it is in.
        ensures can { ⊤ }
    {
        let alloc = ctx.alloc();
        match Arc::try_clone(&self.table) {
            Ok(table) => Handling::runs(alloc, Watching::new(alloc, table, stream)),
            Err(_) => Handling::refused(alloc, Error::NoMemory),
        }
    }
}

/// The half by which statuses are sent.
type Sender<L> = ServerStreamSender<HealthCheckResponse, L>;

/// A call of `Watch`, which goes on until each status is sent.
#[derive(Drop)]
pub struct Watching<L: StreamLine> {
    table: Arc<HealthTable, Global>,
    opening: ServerStreamOpening<Blob, HealthCheckResponse, L>,
    /// The sender, if the request has come.
    sender: Option<Sender<L>>,
    /// The status that is under way, if one is.
    sending: Option<Sending>,
    /// The statuses that are still to be sent, the last of them first.
    left: Vec<i32>,
}

impl<L: StreamLine> Watching<L> {
    /// Begins the watch of this stream.
    fn new(alloc: Global, table: Arc<HealthTable, Global>, stream: StreamInner<L>) -> Watching<L> {
        Watching {
            table,
            opening: ServerStreamOpening::new(alloc, stream),
            sender: None,
            sending: None,
            left: Vec::new(alloc),
        }
    }

    /// Looks up what the request asks for.
    fn begin(&mut self, opened: Result<(Blob, Sender<L>)>) -> Result<()> {
        let (request, sender) = opened?;
        let list = watch(&self.table, request.as_slice())?;
        self.left = Vec::from_slice(self.table.alloc, list)?;
        self.left.reverse();
        self.sender = Some(sender);
        Ok(())
    }
}

impl<L: StreamLine> Future for Watching<L> {
    type Output = Result<()>;

    fn poll(&mut self, cx: &mut Context<'_>) -> Poll<Result<()>> {
        let turn = match (&self.sender, &mut self.sending) {
            (Some(sender), Some(sending)) => ready!(sender.poll_sending(sending, cx)),
            _ => {
                let opened = ready!(self.opening.poll(cx));
                self.begin(opened)
            }
        };
        match (turn, self.left.pop()) {
            (Ok(()), Some(status)) => {
                let response = HealthCheckResponse { status };
                self.sending = Some(sending_of(self.table.alloc, &response));
                cx.yield_now()
            }
            (turn, _) => Poll::Ready(turn),
        }
    }
}

/// Returns the service `demo.Health` with its method and its stream, each over this table, for `Server::register_service`. The only
/// error is `NoMemory`.
pub fn health_services(
    alloc: Global,
    table: HealthTable,
) -> Result<BTreeMap<String, Service<HealthHandler, HealthHandler>>>
    ensures ok { IfOk result (λ services. IsSomeAnd (get_by_text services (codes "demo.Health"))
        (λ service. IsSomeAnd (get_by_text service.methods (codes "Check"))
        (λ handler. arc_value handler.table ≡ table)
        × IsSomeAnd (get_by_text service.streams (codes "Watch"))
        (λ handler. arc_value handler.table ≡ table))) }
    ensures refused { IfErr result (λ error. error ≡ AnError.NoMemory) }
{
    let table = Arc::new(alloc, table)?;
    let other = Arc::try_clone(&table)?;
    let methods = named(alloc, "Check", HealthHandler { table: other })?;
    let streams = named(alloc, "Watch", HealthHandler { table })?;
    named(alloc, "demo.Health", Service { methods, streams })
}

/// Returns a map with this value alone. The only error is `NoMemory`.
fn named<V: Drop>(alloc: Global, name: &str, value: V) -> Result<BTreeMap<String, V>>
    ensures ok { IfOk result (λ map. get_by_text map name.now ≡ Some value) }
    ensures refused { IfErr result (λ error. error ≡ AnError.NoMemory) }
{
    let mut map = BTreeMap::new(alloc);
    map.insert(String::from_str(alloc, name)?, value)?;
    Ok(map)
}
