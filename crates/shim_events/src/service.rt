//! The services of events.proto: for each a trait, the handlers of its methods, and a client.
//! Written by tools/messages --each -I ../../tools/trees/containerd/src -I ../../tools/trees/containerd/gogo from ../../tools/trees/containerd/src/github.com/containerd/containerd/api/services/ttrpc/events/v1/events.proto: change that, and run the tool.

use crate::messages::ForwardRequest;
use std::alloc::Global;
use std::collections::BTreeMap;
use std::sync::Arc;
use ttrpc::context::Context;
use ttrpc::proto::WireMessage;
use ttrpc::security_extension::Plain;
use ttrpc::sync::Host;
use ttrpc::{
    Client, MethodHandler, Request, Result, TtrpcContext, client_request, request_handler,
};
use ttrpc_well_known::messages::Empty;

/// The service `containerd.services.events.ttrpc.v1.Events`.
pub trait Events<R: Host>: Drop {
    /// Answers `Forward`.
    fn forward(
        &self,
        ctx: &TtrpcContext<R, Plain, Plain>,
        request: ForwardRequest,
    ) -> Result<Empty>;
}

/// Which method of `containerd.services.events.ttrpc.v1.Events` is called.
#[derive(Clone, Copy)]
enum EventsCall {
    Forward,
}

/// The handler of a method of `containerd.services.events.ttrpc.v1.Events`.
#[derive(Drop)]
pub struct EventsMethod<S: Drop> {
    service: Arc<S, Global>,
    call: EventsCall,
}

impl<R: Host, S: Events<R>> MethodHandler<R, Plain, Plain> for EventsMethod<S> {
    fn handler(&self, ctx: TtrpcContext<R, Plain, Plain>, req: Request) -> Result<()> {
        match self.call {
            EventsCall::Forward => {
                request_handler!(self, ctx, req, ForwardRequest, forward);
            }
        }
        Ok(())
    }
}

/// The path of each method of `containerd.services.events.ttrpc.v1.Events`.
const EVENTS_PATHS: &[(&str, EventsCall)] = &[(
    "/containerd.services.events.ttrpc.v1.Events/Forward",
    EventsCall::Forward,
)];

/// The methods of `containerd.services.events.ttrpc.v1.Events`, each under its path, for `Server::register_service`.
pub fn events_methods<S: Drop>(
    alloc: Global,
    service: S,
) -> Result<BTreeMap<String, EventsMethod<S>>> {
    let whole = Arc::new(alloc, service)?;
    let mut methods = BTreeMap::new(alloc);
    for (path, call) in EVENTS_PATHS {
        let (service, call) = (Arc::try_clone(&whole)?, *call);
        let path = String::from_str(alloc, path)?;
        methods.insert(path, EventsMethod { service, call })?;
    }
    Ok(methods)
}

/// A client of `containerd.services.events.ttrpc.v1.Events`.
#[derive(Drop)]
pub struct EventsClient<R: Host> {
    pub client: Client<R, Plain, Plain>,
}

impl<R: Host> EventsClient<R> {
    /// Calls `Forward`, and waits for its response.
    pub fn forward(&self, ctx: Context, request: &ForwardRequest) -> Result<Empty> {
        let mut reply = Empty::new(self.client.alloc());
        client_request!(
            self,
            ctx,
            request,
            "containerd.services.events.ttrpc.v1.Events",
            "Forward",
            reply
        );
        Ok(reply)
    }

    /// Another client of the same connection, for another thread.
    pub fn try_clone(&self) -> Result<EventsClient<R>> {
        let client = self.client.try_clone()?;
        Ok(EventsClient { client })
    }
}
