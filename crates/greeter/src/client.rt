//! A client of the service.

use crate::messages::{HelloReply, HelloRequest};
use crate::visits::{VisitsReply, VisitsRequest};
use ttrpc::context::Context;
use ttrpc::proto::WireMessage;
use ttrpc::security_extension::Plain;
use ttrpc::sync::Host;
use ttrpc::{Client, Result, client_request};

/// A client of the service `example.Greeter`.
#[derive(Drop)]
pub struct GreeterClient<R: Host> {
    pub client: Client<R, Plain, Plain>,
}

impl<R: Host> GreeterClient<R> {
    /// Calls `Hello`, and waits for its response.
    pub fn hello(&self, ctx: Context, request: &HelloRequest) -> Result<HelloReply> {
        let mut reply = HelloReply::new(self.client.alloc());
        client_request!(self, ctx, request, "example.Greeter", "Hello", reply);
        Ok(reply)
    }

    /// Calls `Visits`, and waits for its response.
    pub fn visits(&self, ctx: Context, request: &VisitsRequest) -> Result<VisitsReply> {
        let mut reply = VisitsReply::new(self.client.alloc());
        client_request!(self, ctx, request, "example.Greeter", "Visits", reply);
        Ok(reply)
    }

    /// Returns another client of the same connection, for another thread.
    pub fn try_clone(&self) -> Result<GreeterClient<R>> {
        let client = self.client.try_clone()?;
        Ok(GreeterClient { client })
    }
}
