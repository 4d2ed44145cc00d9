//! Polled servers, each in its own thread.
use futures::StreamExt;
use std::net::{SocketAddr, TcpListener};
use std::test::Fail;
use std::thread::{Builder, JoinHandle, Threads};
use std::time::Duration;
use tokio::net::TcpListener as PolledListener;
use tokio::runtime::{Handle, LocalRuntime};
use ttrpc_polled::{Listener, Timed};
use ttrpc_polled_echo::{ChatServer, ChatSystem, nix, services};
use ttrpc_polled_server::Server;
use ttrpc_proto::Result;

/// A server's address, and its thread, which ends after it has served its number of connections.
#[derive(Drop)]
pub struct Served {
    pub address: SocketAddr,
    pub thread: JoinHandle<Result<()>>,
}

/// Starts a server of `count` connections at a free port.
pub fn start_polled<R: ChatSystem + Threads + Send + 'static>(
    rt: &R,
    count: usize,
) -> std::result::Result<Served, Fail> {
    let listener = TcpListener::bind(rt, "127.0.0.1:0")?;
    let address = listener.local_addr()?;
    let mine = rt.clone()?;
    let thread = Builder::new().spawn(rt, move || serve(&mine, listener, count))?;
    Ok(Served { address, thread })
}

fn serve<R: ChatSystem>(rt: &R, listener: TcpListener, count: usize) -> Result<()> {
    let mut runtime = nix(LocalRuntime::new(rt))?;
    // Connections that don't end are dropped then.
    runtime.set_shutdown_timeout(Some(Duration::from_secs(60)));
    let mut server = server_of(rt, runtime.handle(), listener)?;
    let serving = server.start()?;
    nix(runtime.run_all(rt, serving.take(count)))
}

/// Returns the server of `ttrpc-chat` at this listener. It soon tries again if it can't accept.
pub fn server_of<R: Timed>(
    rt: &R,
    handle: &Handle,
    listener: TcpListener,
) -> Result<ChatServer<R>> {
    let listener = nix(PolledListener::from_std(listener, handle.reactor()))?;
    Ok(
        Server::new(rt.clone()?, handle)?
            .register_service(services(rt.alloc())?)?
            .set_accept_retry_interval(Duration::from_millis(20))
            .add_listener(Listener::new(listener, true)),
    )
}
