//! Polled sockets of this machine: two that write to each other, and clients that connect, or that are made from a
//! socket.
ghost use Rattle.futures.specs.Poll.{OnPending};
ghost use Rattle.futures.specs.Task.{IsArmed, Keeps};

use crate::tests::sites::System;
use futures::executor::TaskSet;
use futures::future::{Either, Ready, join};
use futures::task::{Context, Poll};
use futures::{Future, StreamExt};
use std::net::SocketAddr;
use std::test::Fail;
use tokio::runtime::LocalRuntime;
use ttrpc_bench::checks::check_named;
use ttrpc_bench::{Rejects, Stamps};
use ttrpc_bench_polled::acts::{Act, Script};
use ttrpc_bench_polled::lines::{Line, Side, Speaker};
use ttrpc_bench_polled::parts::{Fault, Parts};
use ttrpc_polled::{Listener, Socket};
use ttrpc_polled_client::{Client, TcpConnection};
use ttrpc_proto::Error;
use ttrpc_secure::{ConnectionDataExt, Plain};

/// A socket that writes some bytes, and then reads others. Ready with true if both succeeded.
#[derive(Drop)]
struct Talk<'a> {
    socket: &'a mut Socket,
    says: &'static [u8],
    is_flushed: bool,
    hears: &'static [u8],
}

impl<'a> Talk<'a> {
    /// Returns a talk before its first byte.
    fn new(socket: &'a mut Socket, says: &'static [u8], hears: &'static [u8]) -> Talk<'a> {
        Talk {
            socket,
            says,
            is_flushed: false,
            hears,
        }
    }

    /// Goes on by one poll of the socket. Ready with `None` if the talk goes on, or with whether it succeeded.
    fn poll_turn(&mut self, cx: &mut Context<'_>) -> Poll<Option<bool>>
        ensures registered { OnPending result (IsArmed cx.new) }
        ensures kept { Keeps cx.old cx.new }
    {
        if !self.says.is_empty() {
            return self.poll_saying(cx);
        }
        if self.is_flushed {
            return self.poll_hearing(cx);
        }
        match self.socket.poll_flush(cx) {
            Poll::Pending => Poll::Pending,
            Poll::Ready(Ok(())) => {
                self.is_flushed = true;
                Poll::Ready(None)
            }
            Poll::Ready(Err(_)) => Poll::Ready(Some(false)),
        }
    }

    fn poll_saying(&mut self, cx: &mut Context<'_>) -> Poll<Option<bool>>
        ensures registered { OnPending result (IsArmed cx.new) }
        ensures kept { Keeps cx.old cx.new }
    {
        match self.socket.poll_write(cx, self.says) {
            Poll::Pending => Poll::Pending,
            Poll::Ready(Ok(count)) => {
                self.says = self.says.get(count..).unwrap_or(&[]);
                Poll::Ready(None)
            }
            Poll::Ready(Err(_)) => Poll::Ready(Some(false)),
        }
    }

    fn poll_hearing(&mut self, cx: &mut Context<'_>) -> Poll<Option<bool>>
        ensures registered { OnPending result (IsArmed cx.new) }
        ensures kept { Keeps cx.old cx.new }
    {
        let mut heard = [0u8; 1];
        let Some((first, rest)) = self.hears.split_first() else {
            return Poll::Ready(Some(true));
        };
        match self.socket.poll_read(cx, &mut heard) {
            Poll::Pending => Poll::Pending,
            Poll::Ready(Ok(1)) if heard[0] == *first => {
                self.hears = rest;
                Poll::Ready(None)
            }
            Poll::Ready(_) => Poll::Ready(Some(false)),
        }
    }
}

impl Future for Talk<'_> {
    type Output = bool;

    fn poll(&mut self, cx: &mut Context<'_>) -> Poll<bool> {
        match self.poll_turn(cx) {
            Poll::Pending => Poll::Pending,
            Poll::Ready(Some(did)) => Poll::Ready(did),
            Poll::Ready(None) => cx.yield_now(),
        }
    }
}

/// Connects a socket to this address. With `nodelay`, its writes go out at once.
fn connected<R: System>(
    rt: &R,
    runtime: &mut LocalRuntime,
    address: SocketAddr,
    nodelay: bool,
) -> Result<Socket, Fail> {
    let connecting = Socket::connect_tcp(rt, runtime.handle().reactor(), address, nodelay);
    Ok(runtime.block_on(rt, connecting)??)
}

/// Accepts the next socket of a listener.
fn accepted<R: System>(
    rt: &R,
    runtime: &mut LocalRuntime,
    listener: &mut Listener,
) -> Result<Socket, Fail> {
    let Some(far) = runtime.block_on(rt, listener.next())? else {
        return Err("nothing was accepted".into());
    };
    Ok(far?)
}

/// Returns both ends of a connection to a listener.
fn both_ends<R: System>(
    rt: &R,
    runtime: &mut LocalRuntime,
    listener: &mut Listener,
    nodelay: bool,
) -> Result<(Socket, Socket), Fail> {
    let address = listener.local_addr()?;
    let near = connected(rt, runtime, address, nodelay)?;
    let far = accepted(rt, runtime, listener)?;
    Ok((near, far))
}

/// Returns a listener at a free port. With `nodelay`, the writes of its sockets go out at once.
fn listening<R: System>(rt: &R, runtime: &LocalRuntime, nodelay: bool) -> Result<Listener, Fail> {
    let reactor = runtime.handle().reactor();
    Ok(Listener::bind(rt, rt.alloc(), reactor, "tcp://127.0.0.1:0", nodelay)?)
}

/// Returns both ends of a connection, and the loop that polls them. The flags say whether the writes of each end go out
/// at once.
fn connection<R: System>(
    rt: &R,
    near: bool,
    far: bool,
) -> Result<(LocalRuntime, Socket, Socket), Fail> {
    let mut runtime = LocalRuntime::new(rt)?;
    let mut listener = listening(rt, &runtime, far)?;
    let (near, far) = both_ends(rt, &mut runtime, &mut listener, near)?;
    Ok((runtime, near, far))
}

/// Returns whether both ends write and read the expected bytes.
fn both_talk<R: System>(
    rt: &R,
    runtime: &mut LocalRuntime,
    near: &mut Socket,
    far: &mut Socket,
) -> Result<bool, Fail> {
    let asks = Talk::new(near, b"asked", b"told");
    let tells = Talk::new(far, b"told", b"asked");
    let (asked, told) = runtime.block_on(rt, join(asks, tells))?;
    Ok(asked && told)
}

/// The bytes that are left in a socket. Ready with true if there are none.
#[derive(Drop)]
struct Rest {
    socket: Socket,
}

impl Future for Rest {
    type Output = bool;

    fn poll(&mut self, cx: &mut Context<'_>) -> Poll<bool> {
        let mut heard = [0u8; 1];
        match self.socket.poll_read(cx, &mut heard) {
            Poll::Pending => Poll::Pending,
            Poll::Ready(Ok(count)) => Poll::Ready(count == 0),
            Poll::Ready(Err(_)) => Poll::Ready(false),
        }
    }
}

/// Returns whether both ends talk, and the end that stays reads nothing more when the other one is dropped.
fn talk_to_the_end<R: System>(rt: &R, near_stays: bool) -> Result<bool, Fail> {
    let (mut runtime, mut near, mut far) = connection(rt, true, true)?;
    let talked = both_talk(rt, &mut runtime, &mut near, &mut far)?;
    let (stays, ends) = if near_stays { (near, far) } else { (far, near) };
    drop(ends);
    let is_over = runtime.block_on(rt, Rest { socket: stays })?;
    Ok(talked && is_over)
}

// Seen to fail if a socket writes twice. Should fail if a listener accepts twice; a socket reads twice, or writes nothing.
#[test]
fn sockets_talk_by_polls_to_the_end(rt: HostRuntime) -> Result<(), Fail> {
    let is_so = talk_to_the_end(&rt, true)? && talk_to_the_end(&rt, false)?;
    check_named("something else is heard", is_so)
}

/// Returns whether the writes of both ends go out at once exactly if their flags say so. The far end gets its flag from
/// the listener.
fn is_told_of_delay<R: System>(rt: &R, near: bool, far: bool) -> Result<bool, Fail> {
    let (_runtime, near_end, far_end) = connection(rt, near, far)?;
    Ok(near_end.nodelay()? == near && far_end.nodelay()? == far)
}

// Seen to fail if a socket reports the other setting of TCP's delay.
#[test]
fn delay_is_off_where_it_is_told(rt: HostRuntime) -> Result<(), Fail> {
    let is_so = is_told_of_delay(&rt, true, false)? && is_told_of_delay(&rt, false, true)?;
    check_named("an end has the other setting", is_so)
}

/// A call and its response.
const LINES: &[Line<'static>] = &[
    Line::Up(b"\0\0\0\x14\0\0\0\x01\x01\0\x0a\x09demo.Echo\x12\x04Echo\x1a\x01\x31"),
    Line::Down(b"\0\0\0\x05\0\0\0\x01\x02\0\x0a\0\x12\x01\x31"),
];

const ACTS: &[Act] = &[Act::Calls("Echo", b"1", 0), Act::Ends(0, Ok(b"1"))];

/// A client without transforms, and its connection.
type PlainClient<R> = Client<R, Plain, Plain>;

type Tcp<R> = TcpConnection<R, Plain, Plain>;

/// Returns the text of this address for a client.
fn named<R: System>(rt: &R, address: SocketAddr) -> Result<String, Fail> {
    Ok(format!(in rt.alloc(); "tcp://{address}")?)
}

/// Connects a client to this address.
fn client_at<R: System>(
    rt: &R,
    runtime: &mut LocalRuntime,
    address: &str,
    nodelay: bool,
) -> Result<(PlainClient<R>, Tcp<R>), Fail> {
    let connecting = Client::connect(rt.clone()?, runtime.handle(), address, nodelay)?;
    Ok(runtime.block_on(rt, connecting)??)
}

/// Makes a call over this connection. A recorded server responds at its far end.
fn exchange<R: System>(
    rt: &R,
    runtime: &mut LocalRuntime,
    client: PlainClient<R>,
    connection: Tcp<R>,
    far: Socket,
) -> Result<Option<Fault>, Fail> {
    let (reader, writer) = far.into_split()?;
    let script = Either::Left(Script::new(client, ACTS));
    let speaker = Either::Right(Speaker::new(Side::Server, LINES, reader, writer));
    let parts = Parts::both(rt.alloc(), script, speaker, connection)?;
    Ok(runtime.block_on(rt, parts)?)
}

/// Connects a client, and makes a call to the server that it reaches.
fn call<R: System>(rt: &R, nodelay: bool) -> Result<Option<Fault>, Fail> {
    let mut runtime = LocalRuntime::new(rt)?;
    let mut listener = listening(rt, &runtime, true)?;
    let address = named(rt, listener.local_addr()?)?;
    let (client, connection) = client_at(rt, &mut runtime, address.as_str(), nodelay)?;
    let far = accepted(rt, &mut runtime, &mut listener)?;
    exchange(rt, &mut runtime, client, connection, far)
}

// Seen to fail if no socket connects.
#[test]
fn a_client_connects_and_calls(rt: HostRuntime) -> Result<(), Fail> {
    let is_so = call(&rt, true)?.is_none() && call(&rt, false)?.is_none();
    check_named("an act or a line comes otherwise", is_so)
}

/// Returns whether a client fails with its hook's text if the hook rejects the socket.
fn is_refused<R: System>(rt: &R) -> Result<bool, Fail> {
    let (runtime, near, _far) = connection(rt, true, true)?;
    match Client::with_hook(rt.clone()?, runtime.handle(), near, &Rejects {}) {
        Err(Error::Others(text)) => {
            Ok(text.as_str() == "client connect hook failed: connection rejected: no")
        }
        _ => Ok(false),
    }
}

/// Returns whether a client has the datum that its hook gave for the connection.
fn is_known<R: System>(rt: &R) -> Result<bool, Fail> {
    let (runtime, near, _far) = connection(rt, true, true)?;
    let stamps = Stamps { name: "the client" };
    let (client, _connection) = Client::with_hook(rt.clone()?, runtime.handle(), near, &stamps)?;
    let name: Option<&String> = client.connection_data().get_typed("name");
    Ok(name.is_some_and(|name| name.as_str() == "the client"))
}

#[test]
fn a_hook_looks_at_the_socket(rt: HostRuntime) -> Result<(), Fail> {
    check_named("a hook isn't asked", is_refused(&rt)? && is_known(&rt)?)
}

/// Makes a call over a connection that is one of these tasks.
fn exchange_beside<R: System>(
    rt: &R,
    runtime: &mut LocalRuntime,
    tasks: &TaskSet<Tcp<R>>,
    client: PlainClient<R>,
    far: Socket,
) -> Result<Option<Fault>, Fail> {
    let (reader, writer) = far.into_split()?;
    let mut parts: Parts<_, Ready<()>> = Parts::new(rt.alloc())?;
    parts.does(Either::Left(Script::new(client, ACTS)))?;
    parts.does(Either::Right(Speaker::new(Side::Server, LINES, reader, writer)))?;
    Ok(runtime.block_on_with(rt, tasks, parts)?)
}

/// Makes a call of a client with a connection that is a task.
fn call_spawned<R: System>(rt: &R) -> Result<Option<Fault>, Fail> {
    let (mut runtime, near, far) = connection(rt, true, true)?;
    let tasks = runtime.task_set(rt)?;
    let client = Client::spawned(rt.clone()?, runtime.handle(), near, &tasks)?;
    exchange_beside(rt, &mut runtime, &tasks, client, far)
}

// Should fail if a set doesn't poll a connection that is spawned.
#[test]
fn a_spawned_connection_is_polled(rt: HostRuntime) -> Result<(), Fail> {
    check_named(
        "an act or a line comes otherwise",
        call_spawned(&rt)?.is_none(),
    )
}
