//! The service: its methods, and the handlers that call them.

use crate::messages::{HelloReply, HelloRequest};
use crate::visits::{VisitsReply, VisitsRequest};
use std::alloc::Global;
use std::collections::BTreeMap;
use std::sync::{Arc, Mutex};
use ttrpc::error::get_rpc_status;
use ttrpc::proto::{Blob, KeyValue, Text, TryClone, WireMessage};
use ttrpc::security_extension::Plain;
use ttrpc::sync::Host;
use ttrpc::{Code, MethodHandler, Request, Result, TtrpcContext, request_handler};

/// The service `example.Greeter`.
#[derive(Drop)]
struct Greeter {
    /// The greetings so far.
    visits: Mutex<VisitsReply>,
}

impl Greeter {
    /// Returns a greeting with the name. It is in German if the metadata has a `language`. An empty name is refused.
    fn hello<R: Host>(
        &self,
        ctx: &TtrpcContext<R, Plain, Plain>,
        request: HelloRequest,
    ) -> Result<HelloReply> {
        let alloc = ctx.alloc();
        if request.name.is_empty() {
            let message = String::from_str(alloc, "no name")?;
            return Err(get_rpc_status(Code::INVALID_ARGUMENT, message));
        }
        let (language, word) = if ctx.metadata.contains_key("language") {
            ("de", "Hallo")
        } else {
            ("en", "Hello")
        };
        let greeting = format!(in alloc; "{word}, {}!", request.name)?;
        self.note(ctx.rt(), request.name, language)?;
        Ok(HelloReply {
            greeting: Text::from_string(greeting),
        })
    }

    /// Notes a greeted name and its language. After an error nothing has changed.
    fn note<R: Host>(&self, rt: &R, name: Text, language: &str) -> Result<()> {
        let language = Text::from_str(rt.alloc(), language)?;
        let mut visits = self.visits.lock(rt);
        let count = visits.count.saturating_add(1);
        let token = Blob::from_slice(rt.alloc(), &count.to_be_bytes())?;
        visits.languages.push(KeyValue {
            key: name,
            value: language,
        })?;
        visits.count = count;
        visits.token = token;
        Ok(())
    }

    /// Returns the greetings so far.
    fn visits<R: Host>(
        &self,
        ctx: &TtrpcContext<R, Plain, Plain>,
        _request: VisitsRequest,
    ) -> Result<VisitsReply> {
        Ok(self.visits.lock(ctx.rt()).try_clone()?)
    }
}

/// A method of the service.
#[derive(Clone, Copy)]
enum Method {
    Hello,
    Visits,
}

/// The handler of a method of the service.
#[derive(Drop)]
pub struct GreeterMethod {
    service: Arc<Greeter, Global>,
    method: Method,
}

impl<R: Host> MethodHandler<R, Plain, Plain> for GreeterMethod {
    fn handler(&self, ctx: TtrpcContext<R, Plain, Plain>, req: Request) -> Result<()> {
        match self.method {
            Method::Hello => {
                request_handler!(self, ctx, req, messages, HelloRequest, hello);
            }
            Method::Visits => {
                request_handler!(self, ctx, req, visits, VisitsRequest, visits);
            }
        }
        Ok(())
    }
}

/// The path of each method.
const PATHS: &[(&str, Method)] = &[
    ("/example.Greeter/Hello", Method::Hello),
    ("/example.Greeter/Visits", Method::Visits),
];

/// Returns the handlers of the service, each with its path.
pub fn methods(alloc: Global) -> Result<BTreeMap<String, GreeterMethod>> {
    let visits = Mutex::new(VisitsReply::new(alloc));
    let greeter = Arc::new(alloc, Greeter { visits })?;
    let mut methods = BTreeMap::new(alloc);
    for (path, method) in PATHS {
        let (service, method) = (Arc::try_clone(&greeter)?, *method);
        let path = String::from_str(alloc, path)?;
        methods.insert(path, GreeterMethod { service, method })?;
    }
    Ok(methods)
}
