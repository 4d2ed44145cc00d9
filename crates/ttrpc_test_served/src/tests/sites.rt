//! The server of the tests, and both ends of a connection.
ghost use Rattle.std.specs.Prelude.{◌≡◌, IfSome, Some};
ghost use Rattle.futures.specs.Poll.{OnPending};
ghost use Rattle.futures.specs.Task.{IsArmed, Keeps};

use crate::tests::gate::Gate;
use crate::tests::handlers::{Does, Method};
use crate::tests::streams::{Streaming, Streams};
use futures::Future;
use futures::task::{Context, Poll};
use std::alloc::{AllocError, Global};
use std::collections::BTreeMap;
use std::sync::Arc;
use std::time::Duration;
use tokio::io::DuplexStream;
use tokio::runtime::Handle;
use ttrpc_bench_polled::parts::Fault;
use ttrpc_polled::Timed;
use ttrpc_polled_client::ClientConnection;
use ttrpc_polled_server::{Server, ServerConnection, Service};
use ttrpc_proto::Result;
use ttrpc_secure::Plain;

/// The server of the tests.
pub type TestServer<R> = Server<R, Method, Streaming>;

/// The connection of a client.
pub type Near<R> = ClientConnection<R, DuplexStream, DuplexStream, Plain, Plain>;

/// The connection of a server.
pub type Far<R> = ServerConnection<R, Method, Streaming, DuplexStream, DuplexStream, Plain, Plain>;

/// Both ends of a connection, each until it has ended.
#[derive(Drop)]
pub struct Ends<A, B> {
    near: Option<A>,
    far: Option<B>,
}

impl<A: Future<Output = ()>, B: Future<Output = ()>> Ends<A, B> {
    /// Joins these ends.
    pub fn new(near: A, far: B) -> Ends<A, B>
        ensures { (result.near ≡ Some near) × (result.far ≡ Some far) }
    {
        Ends {
            near: Some(near),
            far: Some(far),
        }
    }

    fn poll_near(&mut self, cx: &mut Context<'_>) -> Poll<()>
        requires { IfSome self.old.near A.can_poll }
        ensures again { IfSome self.new.near A.can_poll }
        ensures far { self.new.far ≡ self.old.far }
        ensures registered { OnPending result (IsArmed cx.new) }
        ensures kept { Keeps cx.old cx.new }
    {
        let Some(mut near) = self.near.take() else {
            return Poll::Ready(());
        };
        match near.poll(cx) {
            Poll::Pending => {
                self.near = Some(near);
                Poll::Pending
            }
            Poll::Ready(()) => Poll::Ready(()),
        }
    }

    fn poll_far(&mut self, cx: &mut Context<'_>) -> Poll<()>
        requires { IfSome self.old.far B.can_poll }
        ensures again { IfSome self.new.far B.can_poll }
        ensures near { self.new.near ≡ self.old.near }
        ensures registered { OnPending result (IsArmed cx.new) }
        ensures kept { Keeps cx.old cx.new }
    {
        let Some(mut far) = self.far.take() else {
            return Poll::Ready(());
        };
        match far.poll(cx) {
            Poll::Pending => {
                self.far = Some(far);
                Poll::Pending
            }
            Poll::Ready(()) => Poll::Ready(()),
        }
    }
}

impl<A: Future<Output = ()>, B: Future<Output = ()>> Future for Ends<A, B> {
    type Output = ();

    ghost use Rattle.std.specs.Prelude.{IfSome};

    ghost can_poll = { λ e. IfSome e.near A.can_poll × IfSome e.far B.can_poll };

    fn poll(&mut self, cx: &mut Context<'_>) -> Poll<()> {
        let near = self.poll_near(cx);
        let far = self.poll_far(cx);
        match (near, far) {
            (Poll::Ready(()), Poll::Ready(())) => Poll::Ready(()),
            (Poll::Pending, _) => Poll::Pending,
            (Poll::Ready(()), Poll::Pending) => Poll::Pending,
        }
    }
}

/// A future that is polled first, and one that is polled after it.
#[derive(Drop)]
pub struct Behind<A, B> {
    pub first: Option<A>,
    pub second: B,
}

impl<A: Future<Output = Option<Fault>>, B: Future<Output = Option<Fault>>> Future for Behind<A, B> {
    type Output = Option<Fault>;

    ghost use Rattle.std.specs.Prelude.{IfSome};

    ghost can_poll = { λ b. IfSome b.first A.can_poll × B.can_poll b.second };

    fn poll(&mut self, cx: &mut Context<'_>) -> Poll<Option<Fault>> {
        if let Some(mut first) = self.first.take() {
            match first.poll(cx) {
                Poll::Pending => {
                    self.first = Some(first);
                    return Poll::Pending;
                }
                Poll::Ready(Some(fault)) => return Poll::Ready(Some(fault)),
                Poll::Ready(None) => {}
            }
        }
        self.second.poll(cx)
    }
}

/// Returns the server of the tests, which waits shortly for the rest when it ends.
pub fn make_server<R: Timed>(
    rt: &R,
    handle: &Handle,
    gate: &Arc<Gate, Global>,
) -> Result<TestServer<R>> {
    Ok(
        Server::new(rt.clone()?, handle)?
            .register_service(services(rt.alloc(), gate)?)?
            .set_connection_limit(Duration::from_millis(100))
            .set_disconnect_limit(Duration::from_millis(400)),
    )
}

const METHODS: [(&str, Does); 9] = [
    ("Echo", Does::Answers),
    ("Tells", Does::Tells),
    ("Ends", Does::Ends),
    ("Fail", Does::Fails),
    ("Waits", Does::Waits),
    ("Looks", Does::Looks),
    ("Opens", Does::Opens),
    ("NeverEnds", Does::NeverEnds),
    ("AtEnd", Does::AtEnd),
];

const STREAMS: [(&str, Streams); 10] = [
    ("Chat", Streams::Chat),
    ("Last", Streams::Last),
    ("Hears", Streams::Hears),
    ("Sum", Streams::Sum),
    ("Order", Streams::Order),
    ("Count", Streams::Count),
    ("ChatFail", Streams::Fail),
    ("SumFail", Streams::Fail),
    ("Early", Streams::Early),
    ("Beats", Streams::Beats),
];

/// Returns the service `demo.Echo`.
pub fn services(
    alloc: Global,
    gate: &Arc<Gate, Global>,
) -> std::result::Result<BTreeMap<String, Service<Method, Streaming>>, AllocError> {
    let mut service = Service::new(alloc);
    for (name, does) in METHODS {
        let gate = Arc::try_clone(gate)?;
        let name = String::from_str(alloc, name)?;
        service.methods.insert(name, Method { does, gate })?;
    }
    for (name, does) in STREAMS {
        let gate = Arc::try_clone(gate)?;
        let name = String::from_str(alloc, name)?;
        service.streams.insert(name, Streaming { does, gate })?;
    }
    let mut services = BTreeMap::new(alloc);
    services.insert(String::from_str(alloc, "demo.Echo")?, service)?;
    Ok(services)
}
