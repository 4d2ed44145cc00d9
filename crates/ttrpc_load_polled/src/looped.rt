//! The measurement of a client on one event loop, with calls and streams that are polled.
use crate::exchanges::{Exchanges, Work};
use crate::load::{Load, share};
use crate::tally::Tally;
use crate::task::Tallied;
use futures::executor::TaskSet;
use std::alloc::Global;
use std::io;
use std::net::{Net, TcpListener, TcpStream};
use std::random::RandomSource;
use std::rc::Rc;
use std::sync::Wait;
use tokio::runtime::LocalRuntime;
use ttrpc_polled::{Timed, moment};
use ttrpc_polled_client::{Client, TcpConnection};
use ttrpc_proto::{Error, Result};
use ttrpc_secure::Plain;

/// The parts of the system that an event loop uses.
pub trait Looped: Timed + Wait + RandomSource + Net<Listener = TcpListener, Stream = TcpStream> {}

impl<R: Timed + Wait + RandomSource + Net<Listener = TcpListener, Stream = TcpStream>> Looped
    for R {}

/// The time of all exchanges, and the time of each of them, in nanoseconds.
#[derive(Drop)]
pub struct Ran {
    pub elapsed: u64,
    pub times: Vec<u64>,
}

/// Makes the exchanges of the load over one client and on one event loop. Each caller makes its exchanges one after the
/// other.
pub fn run_polled<R: Looped>(
    rt: &R,
    address: &str,
    work: Work,
    load: Load,
    nodelay: bool,
) -> Result<Ran> {
    let mut runtime = nix(LocalRuntime::new(rt))?;
    let (client, connection) = connect(rt, &mut runtime, address, nodelay)?;
    let tally = Rc::new(rt.alloc(), Tally::new(rt.alloc(), load.calls)?)?;
    let elapsed = run_callers(rt, &mut runtime, client, connection, work, load, &tally)?;
    Ok(Ran {
        elapsed,
        times: tally.taken()?,
    })
}

/// Runs the callers of a client while its connection is polled, and returns the time that they took, in nanoseconds.
fn run_callers<R: Looped>(
    rt: &R,
    runtime: &mut LocalRuntime,
    client: Client<R, Plain, Plain>,
    connection: TcpConnection<R, Plain, Plain>,
    work: Work,
    load: Load,
    tally: &Rc<Tally, Global>,
) -> Result<u64> {
    let tasks = nix(runtime.task_set(rt))?;
    let start = moment(rt)?;
    // The connection ends after the last caller.
    spawn_all(rt, &tasks, client, work, load, start, tally)?;
    nix(runtime.block_on_with(rt, &tasks, connection))?;
    Ok(moment(rt)?.saturating_sub(start))
}

/// Connects a client, and returns it with its connection.
pub(crate) fn connect<R: Looped>(
    rt: &R,
    runtime: &mut LocalRuntime,
    address: &str,
    nodelay: bool,
) -> Result<(Client<R, Plain, Plain>, TcpConnection<R, Plain, Plain>)> {
    let connecting = Client::connect(rt.clone()?, runtime.handle(), address, nodelay)?;
    nix(runtime.block_on(rt, connecting))?
}

/// Starts the callers of a client, and drops the client.
fn spawn_all<R: Looped>(
    rt: &R,
    tasks: &TaskSet<Tallied<R>>,
    client: Client<R, Plain, Plain>,
    work: Work,
    load: Load,
    began: u64,
    tally: &Rc<Tally, Global>,
) -> Result<()> {
    for caller in 0..load.callers {
        let count = share(load, caller);
        let exchanges = Exchanges::new(client.try_clone()?, work, count, load.bytes)?;
        spawn(rt, tasks, exchanges, began, tally)?;
    }
    Ok(())
}

/// Starts a caller in its own task.
fn spawn<R: Looped>(
    rt: &R,
    tasks: &TaskSet<Tallied<R>>,
    exchanges: Exchanges<R>,
    began: u64,
    tally: &Rc<Tally, Global>,
) -> Result<()> {
    let tallied = Tallied {
        rt: rt.clone()?,
        exchanges,
        began,
        tally: tally.clone()?,
    };
    match tasks.spawn(tallied) {
        Ok(()) => Ok(()),
        Err(_) => Err(Error::NoMemory),
    }
}

/// Turns a fault of the system into an error of a call.
pub(crate) fn nix<T>(res: io::Result<T>) -> Result<T> {
    match res {
        Ok(value) => Ok(value),
        Err(error) => Err(Error::Nix(error.kind())),
    }
}
