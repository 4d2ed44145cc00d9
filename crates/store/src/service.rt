//! The services of store.proto: for each a trait, the handlers of its methods, and a client.
//! Written by tools/messages from store.proto: change that, and run the tool.

use crate::messages::{Entry, GetRequest, GetResponse, PutResponse};
use std::alloc::Global;
use std::collections::BTreeMap;
use std::sync::Arc;
use ttrpc::context::Context;
use ttrpc::proto::WireMessage;
use ttrpc::security_extension::Plain;
use ttrpc::sync::Host;
use ttrpc::{
    Client, MethodHandler, Request, Result, TtrpcContext, client_request, request_handler,
};

/// Keeps values under keys.
pub trait Store<R: Host>: Drop {
    /// The value under a key.
    fn get(&self, ctx: &TtrpcContext<R, Plain, Plain>, request: GetRequest) -> Result<GetResponse>;

    /// Puts a value under a key, in the place of an earlier one.
    fn put(&self, ctx: &TtrpcContext<R, Plain, Plain>, request: Entry) -> Result<PutResponse>;
}

/// Which method of `example.Store` is called.
#[derive(Clone, Copy)]
enum StoreCall {
    Get,
    Put,
}

/// The handler of a method of `example.Store`.
#[derive(Drop)]
pub struct StoreMethod<S: Drop> {
    service: Arc<S, Global>,
    call: StoreCall,
}

impl<R: Host, S: Store<R>> MethodHandler<R, Plain, Plain> for StoreMethod<S> {
    fn handler(&self, ctx: TtrpcContext<R, Plain, Plain>, req: Request) -> Result<()> {
        match self.call {
            StoreCall::Get => {
                request_handler!(self, ctx, req, GetRequest, get);
            }
            StoreCall::Put => {
                request_handler!(self, ctx, req, Entry, put);
            }
        }
        Ok(())
    }
}

/// The path of each method of `example.Store`.
const STORE_PATHS: &[(&str, StoreCall)] = &[
    ("/example.Store/Get", StoreCall::Get),
    ("/example.Store/Put", StoreCall::Put),
];

/// The methods of `example.Store`, each under its path, for `Server::register_service`.
pub fn store_methods<S: Drop>(
    alloc: Global,
    service: S,
) -> Result<BTreeMap<String, StoreMethod<S>>> {
    let whole = Arc::new(alloc, service)?;
    let mut methods = BTreeMap::new(alloc);
    for (path, call) in STORE_PATHS {
        let (service, call) = (Arc::try_clone(&whole)?, *call);
        let path = String::from_str(alloc, path)?;
        methods.insert(path, StoreMethod { service, call })?;
    }
    Ok(methods)
}

/// A client of `example.Store`.
#[derive(Drop)]
pub struct StoreClient<R: Host> {
    pub client: Client<R, Plain, Plain>,
}

impl<R: Host> StoreClient<R> {
    /// Calls `Get`, and waits for its response.
    pub fn get(&self, ctx: Context, request: &GetRequest) -> Result<GetResponse> {
        let mut reply = GetResponse::new(self.client.alloc());
        client_request!(self, ctx, request, "example.Store", "Get", reply);
        Ok(reply)
    }

    /// Calls `Put`, and waits for its response.
    pub fn put(&self, ctx: Context, request: &Entry) -> Result<PutResponse> {
        let mut reply = PutResponse::new(self.client.alloc());
        client_request!(self, ctx, request, "example.Store", "Put", reply);
        Ok(reply)
    }

    /// Another client of the same connection, for another thread.
    pub fn try_clone(&self) -> Result<StoreClient<R>> {
        let client = self.client.try_clone()?;
        Ok(StoreClient { client })
    }
}
