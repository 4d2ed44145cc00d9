//! A client of `demo.Health` with calls that are polled.
use crate::messages::{HealthCheckRequest, HealthCheckResponse};
use ttrpc::asynchronous::{
    Client, ClientCall, ClientOpening, ClientStreamReceiver, Timed, call_of, open_with,
};
use ttrpc::context::Context;
use ttrpc::proto::WireMessage;
use ttrpc::security_extension::Plain;

/// A call that brings the last status of a name.
type Calling = ClientCall<Plain, Plain, HealthCheckResponse>;

/// A stream that brings each status of a name, in order.
type Statuses<R> = ClientStreamReceiver<HealthCheckResponse, R, Plain, Plain>;

/// A stream that is opened.
type Opening<R> = ClientOpening<Statuses<R>, R, Plain, Plain>;

/// A client of `demo.Health`.
#[derive(Drop)]
pub struct HealthClient<R: Timed> {
    pub client: Client<R, Plain, Plain>,
}

impl<R: Timed> HealthClient<R> {
    /// Calls `Check`.
    pub fn check(&self, ctx: Context, request: &HealthCheckRequest) -> Calling {
        let reply = HealthCheckResponse::new(self.client.alloc());
        call_of(&self.client, "demo.Health", "Check", ctx, request, reply)
    }

    /// Opens `Watch`.
    pub fn watch(&self, ctx: Context, request: &HealthCheckRequest) -> Opening<R> {
        open_with(&self.client, "demo.Health", "Watch", ctx, request)
    }
}
