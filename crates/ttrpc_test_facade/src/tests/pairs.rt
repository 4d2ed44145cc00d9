//! A service with two methods over pairs of a key and a value, and its client.

use std::alloc::Global;
use std::collections::BTreeMap;
use std::sync::Arc;
use ttrpc::context::Context;
use ttrpc::proto::{Codec, KeyValue, Text};
use ttrpc::security_extension::Plain;
use ttrpc::sync::Host;
use ttrpc::{
    Client, Code, Error, MethodHandler, Request, Result, TtrpcContext, checked_request_handler,
    client_request, get_status, request_handler,
};

/// The context of a request without transforms.
type PlainContext<R> = TtrpcContext<R, Plain, Plain>;

/// The service: it swaps pairs, and finds metadata of a request.
#[derive(Drop)]
struct Pairs {}

impl Pairs {
    /// Returns the pair with key and value swapped. A pair without a key isn't found, and one without a value fails.
    fn turn<R: Host>(&self, ctx: &PlainContext<R>, pair: KeyValue) -> Result<KeyValue> {
        let KeyValue { key, value } = pair;
        let alloc = ctx.alloc();
        if key.is_empty() {
            let message = String::from_str(alloc, "no key")?;
            return Err(Error::RpcStatus(get_status(Code::NOT_FOUND, message)));
        }
        if value.is_empty() {
            return Err(Error::Others(Text::from_str(alloc, "no value")?));
        }
        Ok(KeyValue {
            key: value,
            value: key,
        })
    }

    /// Returns the pair with the first text for its key in the request's metadata as its value.
    fn find<R: Host>(&self, ctx: &PlainContext<R>, pair: KeyValue) -> Result<KeyValue> {
        let KeyValue { key, value } = pair;
        let value = match ctx.metadata.get(key.as_str()) {
            Some(texts) => match texts.first() {
                Some(text) => Text::from_str(ctx.alloc(), text.as_str())?,
                None => value,
            },
            None => value,
        };
        Ok(KeyValue { key, value })
    }
}

/// A method of the service.
#[derive(Clone, Copy)]
enum Method {
    Turn,
    Find,
    /// The same as `Turn`, but a payload that is no pair is refused.
    Checked,
}

/// The handler of a method of the service.
#[derive(Drop)]
pub struct Handler {
    service: Arc<Pairs, Global>,
    method: Method,
}

impl<R: Host> MethodHandler<R, Plain, Plain> for Handler {
    fn handler(&self, ctx: PlainContext<R>, req: Request) -> Result<()> {
        match self.method {
            Method::Turn => {
                request_handler!(self, ctx, req, ttrpc::proto::KeyValue, turn);
            }
            Method::Find => {
                request_handler!(self, ctx, req, messages, KeyValue, find);
            }
            Method::Checked => {
                checked_request_handler!(self, ctx, req, messages, KeyValue, turn);
            }
        }
        Ok(())
    }
}

/// Returns the methods of the service, each with its path.
pub fn methods(alloc: Global) -> Result<BTreeMap<String, Handler>> {
    let service = Arc::new(alloc, Pairs {})?;
    let mut methods = BTreeMap::new(alloc);
    for (path, method) in [
        ("/test.Pairs/Turn", Method::Turn),
        ("/test.Pairs/Find", Method::Find),
        ("/test.Pairs/Checked", Method::Checked),
    ] {
        let handler = Handler {
            service: Arc::try_clone(&service)?,
            method,
        };
        methods.insert(String::from_str(alloc, path)?, handler)?;
    }
    Ok(methods)
}

/// A client of the service.
#[derive(Drop)]
pub struct PairsClient<R: Host> {
    pub client: Client<R, Plain, Plain>,
}

impl<R: Host> PairsClient<R> {
    pub fn turn(&self, ctx: Context, req: &KeyValue) -> Result<KeyValue> {
        let mut res = nothing(self.client.alloc());
        client_request!(self, ctx, req, "test.Pairs", "Turn", res);
        Ok(res)
    }

    pub fn checked(&self, ctx: Context, req: &KeyValue) -> Result<KeyValue> {
        let mut res = nothing(self.client.alloc());
        client_request!(self, ctx, req, "test.Pairs", "Checked", res);
        Ok(res)
    }

    pub fn find(&self, ctx: Context, req: &KeyValue) -> Result<KeyValue> {
        let mut res = nothing(self.client.alloc());
        client_request!(self, ctx, req, "test.Pairs", "Find", res);
        Ok(res)
    }
}

/// Returns the pair without texts.
pub fn nothing(alloc: Global) -> KeyValue {
    KeyValue {
        key: Text::new(alloc),
        value: Text::new(alloc),
    }
}
