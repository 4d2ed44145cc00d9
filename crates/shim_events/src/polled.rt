//! The services of events.proto for polled ends: for each a trait, the handlers of its methods and streams, and a client.
//! Written by tools/messages --each -I ../../tools/trees/containerd/src -I ../../tools/trees/containerd/gogo from ../../tools/trees/containerd/src/github.com/containerd/containerd/api/services/ttrpc/events/v1/events.proto: change that, and run the tool.

use crate::messages::ForwardRequest;
use futures::Future;
use std::alloc::Global;
use std::collections::BTreeMap;
use std::sync::Arc;
use ttrpc::asynchronous::{
    Client, ClientCall, Handling, MethodHandler, NoStreams, Responds, Service, Timed, TtrpcContext,
    async_client_request, async_request_handler,
};
use ttrpc::context::Context;
use ttrpc::proto::WireMessage;
use ttrpc::security_extension::Plain;
use ttrpc::{Request, Result};
use ttrpc_well_known::messages::Empty;

/// A call of a client.
type Calling<P> = ClientCall<Plain, Plain, P>;

/// The service `containerd.services.events.ttrpc.v1.Events`.
pub trait Events: Drop {
    /// A call of `Forward`.
    type Forward: Future<Output = Result<Empty>>;

    /// Answers `Forward`.
    fn forward(&self, ctx: &TtrpcContext, request: ForwardRequest) -> Self::Forward
        ensures { Self.Forward.can_poll result };
}

/// Which method of `containerd.services.events.ttrpc.v1.Events` is called.
#[derive(Clone, Copy)]
enum EventsCall {
    Forward,
}

/// The handler of a method of `containerd.services.events.ttrpc.v1.Events`.
#[derive(Drop)]
pub struct EventsMethod<S: Drop> {
    service: Arc<S, Global>,
    call: EventsCall,
}

/// A request of `containerd.services.events.ttrpc.v1.Events` that is handled.
pub type EventsAnswer<S> = Handling<<S as Events>::Forward, Responds<Empty>>;

impl<S: Events> MethodHandler for EventsMethod<S> {
    type Call = EventsAnswer<S>;

    fn handler(&self, ctx: TtrpcContext, req: Request) -> EventsAnswer<S> {
        match self.call {
            EventsCall::Forward => async_request_handler!(self, ctx, req, ForwardRequest, forward),
        }
    }
}

/// The name of each method of `containerd.services.events.ttrpc.v1.Events`.
const EVENTS_METHODS: &[(&str, EventsCall)] = &[("Forward", EventsCall::Forward)];

/// The methods and streams of `containerd.services.events.ttrpc.v1.Events`, for `Server::register_service`.
pub fn events_service<S: Drop>(
    alloc: Global,
    service: S,
) -> Result<BTreeMap<String, Service<EventsMethod<S>, NoStreams>>> {
    let whole = Arc::new(alloc, service)?;
    let mut named = Service::new(alloc);
    for (name, call) in EVENTS_METHODS {
        let (service, call) = (Arc::try_clone(&whole)?, *call);
        let name = String::from_str(alloc, name)?;
        let method = EventsMethod { service, call };
        named.methods.insert(name, method)?;
    }
    let mut services = BTreeMap::new(alloc);
    services.insert(
        String::from_str(alloc, "containerd.services.events.ttrpc.v1.Events")?,
        named,
    )?;
    Ok(services)
}

/// A client of `containerd.services.events.ttrpc.v1.Events`.
#[derive(Drop)]
pub struct EventsClient<R: Timed> {
    pub client: Client<R, Plain, Plain>,
}

impl<R: Timed> EventsClient<R> {
    /// Calls `Forward`.
    pub fn forward(&self, ctx: Context, request: &ForwardRequest) -> Calling<Empty> {
        let reply = Empty::new(self.client.alloc());
        async_client_request!(
            self,
            ctx,
            request,
            "containerd.services.events.ttrpc.v1.Events",
            "Forward",
            reply
        )
    }

    /// Another client of the same connection.
    pub fn try_clone(&self) -> Result<EventsClient<R>> {
        let client = self.client.try_clone()?;
        Ok(EventsClient { client })
    }
}
