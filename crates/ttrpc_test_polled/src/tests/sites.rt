//! A client and its peer, in one event loop.
ghost use Rattle.std.specs.Prelude.{⊤};

use crate::tests::peer::{Manners, Peer, PeerHeld, PeerShared};
use futures::Future;
use futures::future::{Either, select};
use futures::task::{Context, Poll, Source};
use std::alloc::Global;
use std::net::Net;
use std::random::RandomSource;
use std::sync::{Arc, Wait};
use std::test::Fail;
use tokio::io::{AsyncRead, AsyncWrite, DuplexStream, duplex};
use tokio::runtime::{Handle, LocalRuntime};
use ttrpc_bench_polled::registry::registry;
use ttrpc_polled::{ConnectionDriver, Timed};
use ttrpc_polled_client::{Client, ClientConnection};
use ttrpc_proto::{Request, RequestInit, Response, Result as RpcResult};
use ttrpc_secure::{ConnectionContext, HookOutput, Plain};
use ttrpc_server::{Rules, ServerCore};
use ttrpc_wire::Blob;

/// The parts of the system that a test uses.
pub trait System: Timed + Wait + Net + RandomSource {}

impl<R: Timed + Wait + Net + RandomSource> System for R {}

/// Both ends, which go on while this is polled. A peer that has ended drops its ends of the pipes.
#[derive(Drop)]
pub struct Ends<R: Timed> {
    connection: ClientConnection<R, DuplexStream, DuplexStream, Plain, Plain>,
    peer: Option<Peer<R>>,
}

impl<R: Timed> Future for Ends<R> {
    type Output = ();

    fn poll(&mut self, cx: &mut Context<'_>) -> Poll<()> {
        let connection = self.connection.poll(cx);
        let peer = match &mut self.peer {
            Some(peer) => peer.poll(cx),
            None => Poll::Ready(()),
        };
        if peer.is_ready() {
            self.peer = None;
        }
        match (connection, peer) {
            (Poll::Ready(()), Poll::Ready(())) => Poll::Ready(()),
            (Poll::Pending, _) => Poll::Pending,
            (Poll::Ready(()), Poll::Pending) => Poll::Pending,
        }
    }
}

/// A client over bytes in memory, and the far ends of both pipes.
#[derive(Drop)]
pub struct Wired<R: Timed> {
    pub client: Client<R, Plain, Plain>,
    pub connection: ClientConnection<R, DuplexStream, DuplexStream, Plain, Plain>,
    pub reader: DuplexStream,
    pub writer: DuplexStream,
}

/// Returns a client without transforms that uses this reader and this writer.
pub fn client_over<R: System, S: AsyncRead, W: AsyncWrite>(
    rt: &R,
    handle: &Handle,
    reader: S,
    writer: W,
) -> Result<
    (
        Client<R, Plain, Plain>,
        ClientConnection<R, S, W, Plain, Plain>,
    ),
    Fail,
> {
    let output = HookOutput::of_halves(rt.alloc(), Plain {}, Plain {});
    Ok(Client::over(rt.clone()?, handle, reader, writer, output)?)
}

/// Returns a client over bytes in memory. At most `room` bytes are under way in each direction.
pub fn make_wired<R: System>(rt: &R, handle: &Handle, room: usize) -> Result<Wired<R>, Fail> {
    let (up, up_far) = duplex(rt.alloc(), room.max(1))?;
    let (down, down_far) = duplex(rt.alloc(), room.max(1))?;
    let (client, connection) = client_over(rt, handle, down_far, up)?;
    Ok(Wired {
        client,
        connection,
        reader: up_far,
        writer: down,
    })
}

/// Returns the shared part of a peer with this behaviour.
fn peer_shared(alloc: Global, manners: Manners) -> Result<Arc<PeerShared, Global>, Fail> {
    let registry = registry(alloc)?;
    let context = ConnectionContext::of_halves(alloc, Plain {}, Plain {});
    let core = ServerCore::new(alloc, Rules::Async, registry, context)?;
    let held = PeerHeld::new(alloc, core, manners);
    Ok(Arc::new(alloc, PeerShared::new(held))?)
}

/// Returns a peer with this behaviour that uses this reader and this writer.
fn make_peer<R: System>(
    rt: &R,
    handle: &Handle,
    manners: Manners,
    reader: DuplexStream,
    writer: DuplexStream,
) -> Result<Peer<R>, Fail> {
    let shared = peer_shared(rt.alloc(), manners)?;
    let link = ConnectionDriver::new(rt.clone()?, handle, shared, reader, writer)?;
    Ok(Peer {
        link,
        reads: manners != Manners::ReadsNothing,
        never: Source::new(),
        slot: None,
    })
}

/// A client, its peer, and the event loop.
#[derive(Drop)]
pub struct Site<R: Timed> {
    pub runtime: LocalRuntime,
    pub client: Client<R, Plain, Plain>,
    pub ends: Ends<R>,
}

/// Returns a client over bytes in memory, with a peer with this behaviour. At most `room` bytes are under way in each
/// direction.
pub fn make_site<R: System>(rt: &R, room: usize, manners: Manners) -> Result<Site<R>, Fail> {
    let runtime = LocalRuntime::new(rt)?;
    let Wired {
        client,
        connection,
        reader,
        writer,
    } = make_wired(rt, runtime.handle(), room)?;
    let peer = make_peer(rt, runtime.handle(), manners, reader, writer)?;
    Ok(Site {
        runtime,
        client,
        ends: Ends {
            connection,
            peer: Some(peer),
        },
    })
}

/// Polls the future together with both ends, until the future is ready.
pub fn done<R: System, F: Future>(
    rt: &R,
    runtime: &mut LocalRuntime,
    ends: Ends<R>,
    future: F,
) -> Result<(F::Output, Ends<R>), Fail>
where
    F::Output: Drop,
    requires { F.can_poll future }
{
    match runtime.block_on(rt, select(future, ends))? {
        Either::Left((output, ends)) => Ok((output, ends)),
        Either::Right(_) => Err("both ends are over first".into()),
    }
}

/// Returns whether the outcome of a call has this payload.
pub fn is_answered(outcome: &RpcResult<Response>, payload: &[u8]) -> bool {
    match outcome {
        Ok(response) => response.payload.as_slice() == payload,
        Err(_) => false,
    }
}

/// Returns whether this item came.
pub fn is_item(outcome: &RpcResult<Blob>, item: &[u8]) -> bool {
    match outcome {
        Ok(came) => came.as_slice() == item,
        Err(_) => false,
    }
}

/// Returns a request of `demo.Echo` for this name, with this payload and this timeout in nanoseconds.
pub fn request(
    alloc: Global,
    method: &str,
    payload: &[u8],
    timeout_nano: i64,
) -> Result<Request, Fail> {
    let mut request = empty_request(alloc, method, timeout_nano)?;
    request.set_payload(Vec::from_slice(alloc, payload)?);
    Ok(request)
}

/// Returns the same without a payload.
fn empty_request(alloc: Global, method: &str, timeout_nano: i64) -> Result<Request, Fail> {
    let service = String::from_str(alloc, "demo.Echo")?;
    let method = String::from_str(alloc, method)?;
    Ok(Request::init_request(alloc, service, method, timeout_nano, Vec::new(alloc)))
}
