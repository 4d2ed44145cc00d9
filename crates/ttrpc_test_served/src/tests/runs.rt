//! The runs of the tests: the acts of a client with a server, and the lines of a client to a server.
use crate::tests::gate::Gate;
use crate::tests::sites::{Ends, Near, TestServer, make_server};
use futures::Future;
use std::alloc::{AllocError, Global};
use std::net::Net;
use std::random::RandomSource;
use std::sync::{Arc, Wait};
use std::test::Fail;
use tokio::io::{DuplexStream, duplex};
use tokio::runtime::{Handle, LocalRuntime};
use ttrpc_bench_polled::acts::{Act, Script};
use ttrpc_bench_polled::lines::{Line, Side, Speaker};
use ttrpc_bench_polled::parts::{Fault, Parts};
use ttrpc_polled::Timed;
use ttrpc_polled_client::Client;
use ttrpc_secure::{HookOutput, Plain};

/// The parts of the system that a test uses.
pub trait System: Timed + Wait + Net + RandomSource {}

impl<R: Timed + Wait + Net + RandomSource> System for R {}

/// One side's ends of bytes in memory.
#[derive(Drop)]
pub struct Pipe {
    pub reader: DuplexStream,
    pub writer: DuplexStream,
}

/// Returns the client's ends and the server's. At most `room` bytes are under way in each direction.
pub fn pipes(alloc: Global, room: usize) -> Result<(Pipe, Pipe), AllocError> {
    let (up, up_far) = duplex(alloc, room.max(1))?;
    let (down, down_far) = duplex(alloc, room.max(1))?;
    let near = Pipe {
        reader: down_far,
        writer: up,
    };
    let far = Pipe {
        reader: up_far,
        writer: down,
    };
    Ok((near, far))
}

/// An event loop with a server of the tests, and both sides' ends of bytes in memory.
#[derive(Drop)]
pub struct Bench<R: System> {
    pub runtime: LocalRuntime,
    pub server: TestServer<R>,
    pub near: Pipe,
    pub far: Pipe,
}

/// Returns a server with handlers that have this gate. At most `room` bytes are under way in each direction.
pub fn make_bench<R: System>(
    rt: &R,
    gate: &Arc<Gate, Global>,
    room: usize,
) -> Result<Bench<R>, Fail> {
    let runtime = LocalRuntime::new(rt)?;
    let server = make_server(rt, runtime.handle(), gate)?;
    let (near, far) = pipes(rt.alloc(), room)?;
    Ok(Bench {
        runtime,
        server,
        near,
        far,
    })
}

/// Does these acts of a client with a server. At most `room` bytes are under way in each direction.
pub fn run_acts<R: System>(rt: &R, room: usize, acts: &[Act]) -> Result<Option<Fault>, Fail> {
    let gate = Arc::new(rt.alloc(), Gate::new(rt.alloc()))?;
    let Bench {
        mut runtime,
        mut server,
        near,
        far,
    } = make_bench(rt, &gate, room)?;
    let (client, connection) = client_of(rt, runtime.handle(), near)?;
    let script = Script::new(client, acts);
    run_beside_client(rt, &mut runtime, &mut server, far, connection, script)
}

/// Returns a client that uses this pipe, and its connection.
pub fn client_of<R: System>(
    rt: &R,
    handle: &Handle,
    pipe: Pipe,
) -> Result<(Client<R, Plain, Plain>, Near<R>), Fail> {
    let Pipe { reader, writer } = pipe;
    let output = HookOutput::of_halves(rt.alloc(), Plain {}, Plain {});
    Ok(Client::over(rt.clone()?, handle, reader, writer, output)?)
}

/// Polls `does` with the connection of its client and one of the server, until it is done.
pub fn run_beside_client<R: System, D: Future<Output = Option<Fault>>>(
    rt: &R,
    runtime: &mut LocalRuntime,
    server: &mut TestServer<R>,
    pipe: Pipe,
    near: Near<R>,
    does: D,
) -> Result<Option<Fault>, Fail>
    requires { D.can_poll does }
{
    let Pipe { reader, writer } = pipe;
    let output = HookOutput::of_halves(rt.alloc(), Plain {}, Plain {});
    let far = server.over(reader, writer, output)?;
    let parts = Parts::beside(rt.alloc(), does, Ends::new(near, far))?;
    Ok(runtime.block_on(rt, parts)?)
}

/// Polls `does` together with a connection of the server, until it is done.
pub fn run_beside<R: System, D: Future<Output = Option<Fault>>>(
    rt: &R,
    runtime: &mut LocalRuntime,
    server: &mut TestServer<R>,
    pipe: Pipe,
    does: D,
) -> Result<Option<Fault>, Fail>
    requires { D.can_poll does }
{
    let Pipe { reader, writer } = pipe;
    let output = HookOutput::of_halves(rt.alloc(), Plain {}, Plain {});
    let far = server.over(reader, writer, output)?;
    let parts = Parts::beside(rt.alloc(), does, far)?;
    Ok(runtime.block_on(rt, parts)?)
}

/// Sends a client's part of these lines to a server, until both are done. At most `room` bytes are under way in each
/// direction. Streams begin bare, or with an item.
pub fn run_lines<R: System>(
    rt: &R,
    gate: &Arc<Gate, Global>,
    room: usize,
    bare: bool,
    lines: &[Line<'_>],
) -> Result<Option<Fault>, Fail> {
    let Bench {
        mut runtime,
        server,
        near,
        far,
    } = make_bench(rt, gate, room)?;
    let mut server = server.set_bare_openings(bare);
    let Pipe { reader, writer } = far;
    let output = HookOutput::of_halves(rt.alloc(), Plain {}, Plain {});
    let served = server.over(reader, writer, output)?;
    let parts = Parts::lasting(rt.alloc(), speaker(lines, near), served)?;
    Ok(runtime.block_on(rt, parts)?)
}

/// Returns the speaker of a client's part of these lines.
pub fn speaker<'a>(lines: &'a [Line<'a>], pipe: Pipe) -> Speaker<'a, DuplexStream, DuplexStream> {
    let Pipe { reader, writer } = pipe;
    Speaker::new(Side::Client, lines, reader, writer)
}
