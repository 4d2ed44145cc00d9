//! Connections at rest, for measuring their memory from outside.
use crate::looped::{Looped, connect, nix};
use futures::executor::TaskSet;
use tokio::io::{DuplexStream, duplex};
use tokio::runtime::{Handle, LocalRuntime};
use ttrpc_polled_client::{Client, ClientConnection, Spawns, TcpConnection};
use ttrpc_proto::{Error, Result};
use ttrpc_secure::{HookOutput, Plain};

/// A connection over a reader that gives nothing and a writer that takes nothing.
type Resting<R> = ClientConnection<R, DuplexStream, DuplexStream, Plain, Plain>;

/// The parts that keep such a connection open: its client, and the other ends of its reader and its writer.
#[derive(Drop)]
struct Kept<R: Looped> {
    _client: Client<R, Plain, Plain>,
    _giver: DuplexStream,
    _taker: DuplexStream,
}

/// Holds `count` clients with their connections, but at least one, on one event loop. It doesn't end by itself.
pub fn rest<R: Looped>(rt: &R, count: usize) -> Result<()> {
    let mut runtime = nix(LocalRuntime::new(rt))?;
    let tasks = nix(runtime.task_set(rt))?;
    let mut kept = Vec::new(rt.alloc());
    for _ in 1..count {
        rest_one(rt, runtime.handle(), &tasks, &mut kept)?;
    }
    let (_kept, last) = resting(rt, runtime.handle())?;
    nix(runtime.block_on_with(rt, &tasks, last))
}

/// Adds one more client and its connection.
fn rest_one<R: Looped>(
    rt: &R,
    handle: &Handle,
    tasks: &TaskSet<Resting<R>>,
    kept: &mut Vec<Kept<R>>,
) -> Result<()> {
    let (one, connection) = resting(rt, handle)?;
    kept.push(one)?;
    match tasks.spawn(connection) {
        Ok(()) => Ok(()),
        Err(_) => Err(Error::NoMemory),
    }
}

fn resting<R: Looped>(rt: &R, handle: &Handle) -> Result<(Kept<R>, Resting<R>)> {
    let alloc = rt.alloc();
    let (reader, giver) = duplex(alloc, 1)?;
    let (writer, taker) = duplex(alloc, 1)?;
    let halves = HookOutput::of_halves(alloc, Plain {}, Plain {});
    let (client, connection) = Client::over(rt.clone()?, handle, reader, writer, halves)?;
    let kept = Kept {
        _client: client,
        _giver: giver,
        _taker: taker,
    };
    Ok((kept, connection))
}

/// Holds `count` clients, but at least one, that are connected to the server at this address. It doesn't end by itself.
pub fn rest_at<R: Looped>(rt: &R, address: &str, count: usize, nodelay: bool) -> Result<()> {
    let mut runtime = nix(LocalRuntime::new(rt))?;
    let tasks = nix(runtime.task_set(rt))?;
    let mut clients = Vec::new(rt.alloc());
    for _ in 1..count {
        connect_one(rt, &mut runtime, &tasks, address, nodelay, &mut clients)?;
    }
    let (_client, last) = connect(rt, &mut runtime, address, nodelay)?;
    nix(runtime.block_on_with(rt, &tasks, last))
}

/// Connects one more client.
fn connect_one<R: Looped>(
    rt: &R,
    runtime: &mut LocalRuntime,
    tasks: &TaskSet<TcpConnection<R, Plain, Plain>>,
    address: &str,
    nodelay: bool,
    clients: &mut Vec<Client<R, Plain, Plain>>,
) -> Result<()> {
    let (client, connection) = connect(rt, runtime, address, nodelay)?;
    clients.push(client)?;
    Spawns::spawn(tasks, connection)
}
