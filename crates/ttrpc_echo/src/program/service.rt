//! The server of the service `demo.Echo`.
use crate::echo;
use std::collections::BTreeMap;
use std::net::{Net, TcpListener, TcpStream};
use std::rt::Files;
use ttrpc_proto::{Request, Result};
use ttrpc_secure::{InboundTransform, OutboundTransform};
use ttrpc_sync::{Host, Runtime};
use ttrpc_sync_server::{MethodHandler, NoHook, Server, SharedWatch, TtrpcContext};

/// The parts of the system that the program uses.
pub trait DemoSystem: Runtime + Files + Net<Listener = TcpListener, Stream = TcpStream> {}

impl<R: Runtime + Files + Net<Listener = TcpListener, Stream = TcpStream>> DemoSystem for R {}

/// The method `Echo`, which answers with the request's payload and an OK status that is present and empty.
#[derive(Clone, Copy, Debug)]
pub struct EchoHandler {}

impl<R, O, I> MethodHandler<R, O, I> for EchoHandler
where
    R: Host,
    O: OutboundTransform + Drop,
    I: InboundTransform + Drop,
{
    fn handler(&self, ctx: TtrpcContext<R, O, I>, req: Request) -> Result<()> {
        ctx.respond(ctx.mh.stream_id, echo(ctx.alloc(), req))
    }
}

/// A server of the one method `Echo` of `demo.Echo`, and its watch.
pub type EchoServer<R, W> = Server<R, EchoHandler, NoHook, W>;

/// Starts the server, which listens at this address. With `nodelay`, each write by TCP goes out at once.
pub fn start_server<R: DemoSystem + 'static, W: SharedWatch>(
    rt: R,
    address: &str,
    nodelay: bool,
    watch: W,
) -> Result<EchoServer<R, W>> {
    let alloc = rt.alloc();
    let mut methods = BTreeMap::new(alloc);
    methods.insert(String::from_str(alloc, "/demo.Echo/Echo")?, EchoHandler {})?;
    let mut server = Server::new(rt)?
        .set_watch(watch)?
        .register_service(methods)?
        .bind(address, nodelay)?;
    server.start()?;
    Ok(server)
}
