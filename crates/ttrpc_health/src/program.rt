//! The program's commands.
use crate::apart::{Served, serve_apart};
use crate::site::Site;
use crate::system::{HealthSystem, nix};
use crate::words::{HealthCommand, read_words};
use health_stub::{HealthHandler, HealthTable, health_services};
use std::io::Write;
use std::thread::Threads;
use tokio::runtime::{Handle, LocalRuntime};
use ttrpc_polled_server::Server;
use ttrpc_proto::Result;

const USAGE: &str =
    "usage: ttrpc-health serve ADDR NAME=STATUS[,STATUS..] .. | check ADDR NAME | watch ADDR NAME | loop NAME NAME=STATUS[,STATUS..] ..";

/// The server of the program.
pub type HealthServer<R> = Server<R, HealthHandler, HealthHandler>;

/// Runs the command that the words give, and reports failures on `errors`. With `nodelay`, each write goes out at once.
/// Returns the status: 0, or 1 at a failure or a refused call, or 2 if the words are wrong.
pub fn run<R: HealthSystem + Threads + Send + 'static, W: Write, X: Write>(
    rt: R,
    words: &[String],
    nodelay: bool,
    output: &mut W,
    errors: &mut X,
) -> u8 {
    match perform(rt, words, nodelay, output, errors) {
        Ok(status) => status,
        Err(error) => {
            let _ = writeln!(errors, "ttrpc-health: {error}");
            1
        }
    }
}

fn perform<R: HealthSystem + Threads + Send + 'static, W: Write, X: Write>(
    rt: R,
    words: &[String],
    nodelay: bool,
    output: &mut W,
    errors: &mut X,
) -> Result<u8> {
    match read_words(rt.alloc(), words)? {
        HealthCommand::Serves(address, table) => serve(rt, address, nodelay, table, errors),
        HealthCommand::Checks(address, name) => Site::connect(rt, address, nodelay)?.check(
            name, output,
        ),
        HealthCommand::Watches(address, name) => Site::connect(rt, address, nodelay)?.watch(
            name, output,
        ),
        HealthCommand::Loops(name, table) => call_own(rt, name, nodelay, table, output),
        HealthCommand::Wrong => tell_usage(errors),
    }
}

fn tell_usage<X: Write>(errors: &mut X) -> Result<u8> {
    nix(writeln!(errors, "{USAGE}"))?;
    Ok(2)
}

/// Checks and then watches a name at the program's own server.
fn call_own<R: HealthSystem + Threads + Send + 'static, W: Write>(
    rt: R,
    name: &str,
    nodelay: bool,
    table: HealthTable,
    output: &mut W,
) -> Result<u8> {
    let Served { address, thread } = serve_apart(&rt, table, nodelay, 1)?;
    let address = format!(in rt.alloc(); "tcp://{address}")?;
    let status = call_both(rt.clone()?, name, address.as_str(), nodelay, output)?;
    thread.join(&rt)?;
    Ok(status)
}

/// Checks and then watches a name at an address. Returns the status of the first call that was refused, if one was.
fn call_both<R: HealthSystem, W: Write>(
    rt: R,
    name: &str,
    address: &str,
    nodelay: bool,
    output: &mut W,
) -> Result<u8> {
    let mut site = Site::connect(rt, address, nodelay)?;
    match site.check(name, output)? {
        0 => site.watch(name, output),
        status => Ok(status),
    }
}

/// Returns a server at an address, with the service over this table.
pub fn server_at<R: HealthSystem>(
    rt: &R,
    handle: &Handle,
    address: &str,
    nodelay: bool,
    table: HealthTable,
) -> Result<HealthServer<R>> {
    let services = health_services(rt.alloc(), table)?;
    let server = Server::new(rt.clone()?, handle)?.bind(address, nodelay)?;
    server.register_service(services)
}

/// Serves until the program is killed, and writes the address to `errors`.
fn serve<R: HealthSystem, X: Write>(
    rt: R,
    address: &str,
    nodelay: bool,
    table: HealthTable,
    errors: &mut X,
) -> Result<u8> {
    let mut runtime = nix(LocalRuntime::new(&rt))?;
    let mut server = server_at(&rt, runtime.handle(), address, nodelay, table)?;
    tell_address(&server, errors)?;
    let serving = server.start()?;
    nix(runtime.run_all(&rt, serving))?;
    Ok(0)
}

/// Writes the address where a server listens.
pub fn tell_address<R: HealthSystem, X: Write>(
    server: &HealthServer<R>,
    errors: &mut X,
) -> Result<()> {
    if let Some(address) = server.local_addr()? {
        nix(writeln!(errors, "ttrpc-health: listens at tcp://{address}"))?;
    }
    Ok(())
}
