//! A client together with a server of any services, in one event loop.
ghost use Rattle.std.specs.Prelude.{IfSome};
ghost use Rattle.futures.specs.Task.{Keeps};

use crate::messages::Item;
use futures::Future;
use futures::task::{Context, Poll};
use std::alloc::Global;
use std::collections::BTreeMap;
use std::marker::Model;
use std::net::Net;
use std::random::RandomSource;
use std::sync::Wait;
use std::test::Fail;
use tokio::io::{DuplexStream, duplex};
use tokio::runtime::{Handle, LocalRuntime};
use ttrpc::Error;
use ttrpc::asynchronous::{
    Client, ClientConnection, MethodHandler, Server, ServerConnection, ServerShared, Service,
    StreamHandler, Timed,
};
use ttrpc::proto::{Blob, Text};
use ttrpc::security_extension::{HookOutput, Plain};

/// The parts of the system that a test uses.
pub trait System: Timed + Wait + Net + RandomSource {}

impl<R: Timed + Wait + Net + RandomSource> System for R {}

/// The client's end.
type Near<R> = ClientConnection<R, DuplexStream, DuplexStream, Plain, Plain>;

/// The server's end.
type Far<R, M, T> = ServerConnection<R, M, T, DuplexStream, DuplexStream, Plain, Plain>;

/// A step, and both ends of a connection that are polled together with it, each until it ends. Ready with the step's
/// output and the ends.
#[derive(Drop)]
struct Beside<F, A, B> {
    step: F,
    near: Option<A>,
    far: Option<B>,
}

/// Polls an end, if there is one, and keeps it if it is pending.
fn poll_end<E: Future<Output = ()>>(end: &mut Option<E>, cx: &mut Context<'_>)
    requires { IfSome end.old E.can_poll }
    ensures again { IfSome end.new E.can_poll }
    ensures kept { Keeps cx.old cx.new }
{
    if let Some(mut going) = end.take() {
        if going.poll(cx).is_pending() {
            *end = Some(going);
        }
    }
}

impl<F: Future, A: Future<Output = ()>, B: Future<Output = ()>> Future for Beside<F, A, B> {
    type Output = (F::Output, Option<A>, Option<B>);

    ghost use Rattle.std.specs.Prelude.{IfSome};

    ghost can_poll = { λ b. F.can_poll b.step × IfSome b.near A.can_poll
        × IfSome b.far B.can_poll };

    ghost needs = { λ b. F.needs b.step };

    ghost gives = { λ b r. IfSome r.1 A.can_poll × IfSome r.2 B.can_poll };

    fn poll(&mut self, cx: &mut Context<'_>) -> Poll<(F::Output, Option<A>, Option<B>)> {
        poll_end(&mut self.near, cx);
        poll_end(&mut self.far, cx);
        match self.step.poll(cx) {
            Poll::Pending => Poll::Pending,
            Poll::Ready(output) => Poll::Ready((output, self.near.take(), self.far.take())),
        }
    }
}

/// Both ends of a connection, which are polled while a test does its steps.
#[derive(Drop)]
pub struct Ends<A: Future<Output = ()>, B: Future<Output = ()>> {
    runtime: LocalRuntime,
    near: Option<A>,
    far: Option<B>,
}

impl<A: Future<Output = ()>, B: Future<Output = ()>> Model for Ends<A, B> {
    ghost use Rattle.std.specs.Prelude.{IfSome, Option};

    ghost Value = { Option A × Option B };

    ghost view = { λ ends. (ends.near, ends.far) };

    ghost invariant = { λ ends. IfSome ends.near A.can_poll × IfSome ends.far B.can_poll };
}

impl<A: Future<Output = ()>, B: Future<Output = ()>> Ends<A, B> {
    fn new(runtime: LocalRuntime, near: A, far: B) -> Ends<A, B>
        requires near { A.can_poll near }
        requires far { B.can_poll far }
    {
        Ends {
            runtime,
            near: Some(near),
            far: Some(far),
        }
    }

    /// Does this step, and polls both ends meanwhile.
    pub fn done<R: System, F: Future>(&mut self, rt: &R, step: F) -> Result<F::Output, Fail>
    where
        F::Output: Drop,
        requires { F.can_poll step }
    {
        let near = self.near.take();
        let far = self.far.take();
        let beside = Beside { step, near, far };
        let (output, near, far) = self.runtime.block_on(rt, beside)?;
        self.near = near;
        self.far = far;
        Ok(output)
    }
}

/// Returns a server of these services.
fn make_server<R: System, M: MethodHandler, T: StreamHandler<ServerShared<Plain, Plain>>>(
    rt: &R,
    handle: &Handle,
    services: BTreeMap<String, Service<M, T>>,
) -> Result<Server<R, M, T>, Fail> {
    Ok(Server::new(rt.clone()?, handle)?.register_service(services)?)
}

/// A client, its server, and the ends of their connection.
#[derive(Drop)]
pub struct Site<R: Timed, M: MethodHandler, T: StreamHandler<ServerShared<Plain, Plain>>> {
    pub client: Client<R, Plain, Plain>,
    pub server: Server<R, M, T>,
    pub ends: Ends<Near<R>, Far<R, M, T>>,
}

impl<R: System, M: MethodHandler, T: StreamHandler<ServerShared<Plain, Plain>>> Site<R, M, T> {
    /// Returns a client and a server of these services, over bytes in memory.
    pub fn new(rt: &R, services: BTreeMap<String, Service<M, T>>) -> Result<Site<R, M, T>, Fail> {
        let runtime = LocalRuntime::new(rt)?;
        let mut server = make_server(rt, runtime.handle(), services)?;
        let (up, up_far) = duplex(rt.alloc(), 64)?;
        let (down, down_far) = duplex(rt.alloc(), 64)?;
        let far = server.over(up_far, down, plain(rt))?;
        let (client, near) = Client::over(rt.clone()?, runtime.handle(), down_far, up, plain(rt))?;
        let ends = Ends::new(runtime, near, far);
        Ok(Site {
            client,
            server,
            ends,
        })
    }
}

/// Returns the output of a hook for halves that change nothing.
fn plain<R: System>(rt: &R) -> HookOutput<Plain, Plain> {
    HookOutput::of_halves(rt.alloc(), Plain {}, Plain {})
}

/// Fails with this text, unless this holds.
pub fn holds(fact: bool, text: &str) -> Result<(), Fail> {
    if fact { Ok(()) } else { Err(text.into()) }
}

/// Returns an item with a name of three bytes and a content of two.
pub fn item(alloc: Global) -> Result<Item, Fail> {
    Ok(Item {
        name: Text::from_str(alloc, "one")?,
        content: Blob::from_slice(alloc, b"ab")?,
    })
}

/// Returns whether it is that item.
pub fn is_item(item: &Item) -> bool {
    item.name.as_str() == "one" && item.content.as_slice() == b"ab".as_slice()
}

/// Returns whether it is a handler's error with this text.
pub fn is_told(error: &Error, text: &str) -> bool {
    match error {
        Error::RpcStatus(status) => status.code == 2 && status.message.as_str() == text,
        _ => false,
    }
}
