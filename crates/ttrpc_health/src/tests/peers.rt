//! Servers, each in its own thread.
use crate::apart::{Served, serve_apart};
use crate::system::{HealthSystem, nix};
use health_stub::HealthTable;
use std::alloc::Global;
use std::io::{Read, Write};
use std::net::{SocketAddr, TcpListener};
use std::test::Fail;
use std::thread::{Builder, Threads};
use ttrpc_proto::Result;

/// Returns an address in the form of the program's words.
pub fn word_of(alloc: Global, address: SocketAddr) -> std::result::Result<String, Fail> {
    Ok(format!(in alloc; "tcp://{address}")?)
}

/// Starts a server of `count` connections at a free port, with `a` at 2 and then 1.
pub fn health_server<R: HealthSystem + Threads + Send + 'static>(
    rt: &R,
    count: usize,
) -> std::result::Result<Served, Fail> {
    let mut table = HealthTable::new(rt.alloc());
    table.set("a", &[2, 1])?;
    Ok(serve_apart(rt, table, true, count)?)
}

/// The first status of a watch of `a`.
const CUT: &[u8] = b"\0\0\0\x02\0\0\0\x01\x03\0\x08\x02";

/// Starts a server of one connection at a free port. It reads a request of `Watch` for `a`, and ends after the first
/// status.
pub fn cut_server<R: HealthSystem + Threads + Send + 'static>(
    rt: &R,
) -> std::result::Result<Served, Fail> {
    let listener = TcpListener::bind(rt, "127.0.0.1:0")?;
    let address = listener.local_addr()?;
    let thread = Builder::new().spawn(rt, move || cut(&listener))?;
    Ok(Served { address, thread })
}

fn cut(listener: &TcpListener) -> Result<()> {
    let (mut stream, _) = nix(listener.accept())?;
    let mut heard = [0u8; 35];
    nix(stream.read_exact(&mut heard))?;
    nix(stream.write_all(CUT))
}
