//! The starts and stops of a polled server.
use crate::tests::peers::{Connects, SERVED, calls};
use crate::tests::polled::server_of;
use futures::future::select;
use futures::task::{Context, Poll};
use futures::{Future, Stream, StreamExt};
use std::net::{SocketAddr, TcpListener, TcpStream};
use std::test::Fail;
use std::thread::{Builder, Threads};
use std::time::Duration;
use tokio::runtime::LocalRuntime;
use ttrpc_bench::checks::check_named;
use ttrpc_polled_echo::{ChatServer, ChatSystem, EchoMethod, EchoStream, services};
use ttrpc_polled_server::Server;
use ttrpc_proto::Error;

#[test]
fn a_server_without_a_listener_does_not_start(rt: HostRuntime) -> Result<(), Fail> {
    let runtime = LocalRuntime::new(&rt)?;
    let mut server: Server<_, EchoMethod, EchoStream> = Server::new(rt.clone()?, runtime.handle())?;
    match server.start() {
        Err(Error::Others(text)) => {
            let expected = "ttrpc-rust server started with no bound listener";
            assert_eq!(rt; text.as_str(), expected);
            Ok(())
        }
        _ => Err("it started".into()),
    }
}

/// Returns a server at a free port.
fn listening<R: ChatSystem>(
    rt: &R,
    runtime: &LocalRuntime,
) -> Result<(ChatServer<R>, SocketAddr), Fail> {
    let listener = TcpListener::bind(rt, "127.0.0.1:0")?;
    let address = listener.local_addr()?;
    Ok((server_of(rt, runtime.handle(), listener)?, address))
}

#[test]
fn services_are_fixed_once_a_server_has_started(rt: HostRuntime) -> Result<(), Fail> {
    let runtime = LocalRuntime::new(&rt)?;
    let (mut server, _) = listening(&rt, &runtime)?;
    let _serving = server.start()?;
    match server.register_service(services(rt.alloc())?) {
        Err(Error::Others(text)) => {
            assert_eq!(rt; text.as_str(), "services are fixed after start");
            Ok(())
        }
        _ => Err("they were added".into()),
    }
}

/// Stops a server that listens, and then one that doesn't, which stops at once.
fn stop_twice<R: ChatSystem>(
    rt: &R,
    runtime: &mut LocalRuntime,
    server: &mut ChatServer<R>,
) -> Result<(), Fail> {
    let serving = server.start()?;
    let stopped = server.stop_listen()?;
    runtime.run_all(rt, serving)?;
    runtime.block_on(rt, stopped)?;
    runtime.block_on(rt, server.stop_listen()?)?;
    Ok(())
}

/// Serves one connection, of a client that calls from another thread. Returns whether the client is answered.
fn serve_one<R: ChatSystem + Connects + Threads + Send + 'static>(
    rt: &R,
    runtime: &mut LocalRuntime,
    server: &mut ChatServer<R>,
    address: SocketAddr,
) -> Result<bool, Fail> {
    let mine = rt.clone()?;
    let caller = Builder::new().spawn(rt, move || calls(&mine, address, SERVED))?;
    let serving = server.start()?;
    runtime.run_all(rt, serving.take(1))?;
    Ok(caller.join(rt)?)
}

// Should fail if a server that listens reports that it has stopped.
#[test]
fn a_server_starts_again_behind_a_stop(rt: HostRuntime) -> Result<(), Fail> {
    let mut runtime = LocalRuntime::new(&rt)?;
    let (mut server, address) = listening(&rt, &runtime)?;
    stop_twice(&rt, &mut runtime, &mut server)?;
    assert!(rt; serve_one(&rt, &mut runtime, &mut server, address)?);
    Ok(())
}

/// Starts a server, and shuts it down at once.
fn start_and_end<R: ChatSystem>(
    rt: &R,
    runtime: &mut LocalRuntime,
    server: &mut ChatServer<R>,
) -> Result<(), Fail> {
    let serving = server.start()?;
    let shut_down = server.shutdown()?;
    runtime.run_all(rt, serving)?;
    runtime.block_on(rt, shut_down)??;
    Ok(())
}

#[test]
fn a_server_that_is_shut_down_closes_its_listener(rt: HostRuntime) -> Result<(), Fail> {
    let mut runtime = LocalRuntime::new(&rt)?;
    let (mut server, address) = listening(&rt, &runtime)?;
    start_and_end(&rt, &mut runtime, &mut server)?;
    assert!(rt; TcpStream::connect(&rt, address).is_err());
    Ok(())
}

/// Returns whether a server that shuts down reports within two seconds that waiters are left.
fn leaves_something<R: ChatSystem>(
    rt: &R,
    runtime: &mut LocalRuntime,
    server: &mut ChatServer<R>,
) -> Result<bool, Fail> {
    let limit = Duration::from_secs(2);
    let shut_down = server.shutdown()?;
    let timed = runtime.handle().time().timeout(rt, limit, shut_down)?;
    match runtime.block_on(rt, timed)? {
        Ok(Err(Error::Others(text))) => Ok(text.as_str() == "waiters are left"),
        _ => Ok(false),
    }
}

// Should fail if a task that still accepts is waited for.
#[test]
fn a_shutdown_has_its_limit_while_who_accepts_stays(rt: HostRuntime) -> Result<(), Fail> {
    let mut runtime = LocalRuntime::new(&rt)?;
    let (server, _) = listening(&rt, &runtime)?;
    let mut server = server.set_disconnect_limit(Duration::from_millis(50));
    let _serving = server.start()?;
    check_named(
        "it has none",
        leaves_something(&rt, &mut runtime, &mut server)?,
    )
}

/// A stream of accepted connections, which is kept after its end.
#[derive(Drop)]
struct Kept<S> {
    serving: S,
    is_over: bool,
}

impl<S: Stream> Future for Kept<S>
where
    S::Item: Drop,
{
    type Output = ();

    ghost use Rattle.std.specs.Prelude.{◌≡◌, false};

    ghost can_poll = { λ k. k.is_over ≡ false → S.can_poll k.serving };

    fn poll(&mut self, cx: &mut Context<'_>) -> Poll<()> {
        if !self.is_over && matches!(self.serving.poll_next(cx), Poll::Ready(None)) {
            self.is_over = true;
        }
        cx.yield_now()
    }
}

/// Returns whether stopping to listen ends within two seconds, while the accepting stream is kept.
fn stops_beside<R: ChatSystem>(
    rt: &R,
    runtime: &mut LocalRuntime,
    server: &mut ChatServer<R>,
) -> Result<bool, Fail> {
    let kept = Kept {
        serving: server.start()?,
        is_over: false,
    };
    let stopped = select(server.stop_listen()?, kept);
    let limit = Duration::from_secs(2);
    let timed = runtime.handle().time().timeout(rt, limit, stopped)?;
    Ok(runtime.block_on(rt, timed)?.is_ok())
}

// Should fail if a task that accepts no more keeps its listener.
#[test]
fn who_accepts_no_more_gives_its_listener_back(rt: HostRuntime) -> Result<(), Fail> {
    // The borrow check covers a call over sockets only if this function names their types, too.
    let _sockets: Option<(TcpListener, TcpStream)> = None;
    let mut runtime = LocalRuntime::new(&rt)?;
    let (mut server, _) = listening(&rt, &runtime)?;
    check_named("it keeps it", stops_beside(&rt, &mut runtime, &mut server)?)
}
