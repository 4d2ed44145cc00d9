//! A server in its own thread.
use crate::program::HealthServer;
use crate::system::{HealthSystem, nix};
use futures::StreamExt;
use health_stub::{HealthTable, health_services};
use std::net::{SocketAddr, TcpListener};
use std::thread::{Builder, JoinHandle, Threads};
use std::time::Duration;
use tokio::net::TcpListener as PolledListener;
use tokio::runtime::{Handle, LocalRuntime};
use ttrpc_polled::Listener;
use ttrpc_polled_server::Server;
use ttrpc_proto::Result;

/// A server's address, and its thread, which ends after it has served its number of connections.
#[derive(Drop)]
pub struct Served {
    pub address: SocketAddr,
    pub thread: JoinHandle<Result<()>>,
}

/// Starts a server of a table at a free port of this machine, which serves `count` connections.
pub fn serve_apart<R: HealthSystem + Threads + Send + 'static>(
    rt: &R,
    table: HealthTable,
    nodelay: bool,
    count: usize,
) -> Result<Served> {
    let listener = nix(TcpListener::bind(rt, "127.0.0.1:0"))?;
    let address = nix(listener.local_addr())?;
    let mine = rt.clone()?;
    let served = move || serve(&mine, listener, table, nodelay, count);
    let thread = nix(Builder::new().spawn(rt, served))?;
    Ok(Served { address, thread })
}

fn serve<R: HealthSystem>(
    rt: &R,
    listener: TcpListener,
    table: HealthTable,
    nodelay: bool,
    count: usize,
) -> Result<()> {
    let mut runtime = nix(LocalRuntime::new(rt))?;
    // Connections that don't end are dropped then.
    runtime.set_shutdown_timeout(Some(Duration::from_secs(5)));
    let mut server = server_of(rt, runtime.handle(), listener, table, nodelay)?;
    let serving = server.start()?;
    nix(runtime.run_all(rt, serving.take(count)))
}

fn server_of<R: HealthSystem>(
    rt: &R,
    handle: &Handle,
    listener: TcpListener,
    table: HealthTable,
    nodelay: bool,
) -> Result<HealthServer<R>> {
    let listener = nix(PolledListener::from_std(listener, handle.reactor()))?;
    Ok(
        Server::new(rt.clone()?, handle)?
            .register_service(health_services(rt.alloc(), table)?)?
            .add_listener(Listener::new(listener, nodelay)),
    )
}
