//! Serving at an address, until the program is killed.
ghost use Rattle.ttrpc_echo.specs.Program.Runs.{IsFailed};

use crate::program::faults::{FaultKeeper, Faults};
use crate::program::outcome::ProgramOutcome;
use crate::program::service::{DemoSystem, EchoServer, start_server};
use std::alloc::Global;
use std::io::{self, Write};
use std::sync::{Arc, Wait};
use ttrpc_proto::{Error, Result};

/// A server with a watch that keeps its faults.
pub type WatchedServer<R> = EchoServer<R, FaultKeeper<R>>;

/// Serves at this address until the program is killed. It reports on `errors` where it listens, and then each of its
/// faults. It returns only if it can't begin.
pub fn serve<R: DemoSystem + 'static, X: Write>(
    rt: R,
    address: &str,
    nodelay: bool,
    errors: &mut X,
) -> ProgramOutcome
    ensures { IsFailed result }
{
    let (waiter, faults, server) = match begin(rt, address, nodelay, errors) {
        Ok(begun) => begun,
        Err(error) => return ProgramOutcome::Failed(error),
    };
    for _ in waiter.forever() {
        tell_next(&waiter, &*faults, errors);
    }
    drop(server);
    unreachable!()
}

/// Waits for the next of these faults, and reports it in a line. If the line can't be written, the server still serves.
pub fn tell_next<R: Wait, X: Write>(rt: &R, faults: &Faults, errors: &mut X) {
    let fault = faults.next(rt);
    let _ = writeln!(errors, "ttrpc-demo: {fault}");
}

/// Starts the server and reports on `errors` where it listens. Returns a runtime to wait with, the server's faults, and
/// the server.
pub fn begin<R: DemoSystem + 'static, X: Write>(
    rt: R,
    address: &str,
    nodelay: bool,
    errors: &mut X,
) -> Result<(R, Arc<Faults, Global>, WatchedServer<R>)> {
    let waiter = rt.clone()?;
    let faults = Arc::new(rt.alloc(), Faults::new(rt.alloc()))?;
    let watch = FaultKeeper::new(&rt, &faults)?;
    let server = start_server(rt, address, nodelay, watch)?;
    tell_address(&server, address, errors)?;
    Ok((waiter, faults, server))
}

/// Reports in a line where the server listens: at the address of its socket, with the port that the system chose if the
/// port was 0. If the server has no such address, the line has `address` instead.
pub fn tell_address<R: DemoSystem, W: Drop, X: Write>(
    server: &EchoServer<R, W>,
    address: &str,
    errors: &mut X,
) -> Result<()> {
    let told = match server.local_addr()? {
        Some(place) => writeln!(errors, "ttrpc-demo: listening at tcp://{place}"),
        None => writeln!(errors, "ttrpc-demo: listening at {address}"),
    };
    told.map_err(fault)
}

fn fault(error: io::Error) -> Error {
    Error::Nix(error.kind())
}
