//! The client.
ghost use Rattle.std.specs.Prelude.{◌≡◌, ◌⊎◌, [], Err, IfErr, IfOk, Ok, OnOk};
ghost use Rattle.std.specs.IoError.{error_kind};
ghost use Rattle.ttrpc_client.specs.Protocol.{new_core};
ghost use Rattle.ttrpc_proto.specs.declared.error.Error.{Error as AnError};
ghost use Rattle.ttrpc_secure.specs.Hooks.Facts.{facts_of};
ghost use Rattle.ttrpc_secure.specs.declared.hooks.HookOutput.{HookOutput as AnOutput};
ghost use Rattle.ttrpc_sync_client.specs.Making.{IsNotConnected, IsNotMade, IsRefusedByHook, NamesPlace};

use crate::connection::ClientConn;
use crate::ports::{ClientLock, ClientRead};
use std::alloc::Global;
use std::io;
use std::marker::Model;
use std::net::{Net, TcpStream};
use std::sync::Arc;
use std::thread::Builder;
use ttrpc_client::{ClientCore, ClientKind};
use ttrpc_proto::error::causes::others_of;
use ttrpc_proto::{Error, Request, Response, Result};
use ttrpc_secure::{
    ConnectHook, ConnectionContext, ConnectionData, HookOutput, InboundTransform,
    OutboundTransform, Plain, SendInbound, SendOutbound,
};
use ttrpc_sync::{Host, Link, Runtime};
use ttrpc_transport::{ClientConnection, PipeConnection};

/// A client of one connection. Contracts see it as the connection's data. Its clones share the connection, and threads may call through
/// each clone at the same time. When the last clone is dropped, the connection is closed, and its threads end.
#[derive(Drop)]
pub struct Client<R: Host, O: OutboundTransform + Drop, I: InboundTransform + Drop> {
    rt: R,
    connection: Arc<ClientConn<O, I>, Global>,
}

impl<R: Host, O: OutboundTransform + Drop, I: InboundTransform + Drop> Model for Client<R, O, I> {
    ghost use Rattle.std.specs.Arc.{arc_value};
    ghost use Rattle.ttrpc_secure.specs.Hooks.Facts.{Facts};

    ghost Value = { Facts };

    ghost view = { λ client. arc_value client.connection };
}

impl<R: Runtime> Client<R, Plain, Plain> {
    /// Connects to an address, `unix://PATH` or `tcp://IP:PORT`. With `nodelay`, each write by TCP goes out at once. The error is `Others`
    /// if the address names no place, and `Nix` if the system reports a fault.
    pub fn connect(rt: R, sockaddr: &str, nodelay: bool) -> Result<Client<R, Plain, Plain>>
    where
        R: Net<Stream = TcpStream>,
        ensures named { OnOk result (NamesPlace sockaddr.now) }
        ensures known { IfOk result (λ client. client ≡ []) }
        ensures err { IfErr result (IsNotConnected sockaddr.now) }
    {
        let connection = ClientConnection::client_connect(&rt, rt.alloc(), sockaddr, nodelay)?;
        Client::new(rt, connection.get_pipe_connection()?)
    }

    /// Makes a client of this connection. The error is `Nix` if a thread can't be started.
    pub fn new(rt: R, stream: PipeConnection) -> Result<Client<R, Plain, Plain>>
        ensures known { IfOk result (λ client. client ≡ []) }
        ensures err { IfErr result IsNotMade }
    {
        let alloc = rt.alloc();
        start(rt, stream, HookOutput::of_halves(alloc, Plain {}, Plain {}))
    }
}

impl<R, O, I> Client<R, O, I>
where
    R: Runtime,
    O: SendOutbound,
    I: SendInbound,
{
    /// Makes a client of this connection after the hook has looked at it, with the halves that the hook gave. A refusal by the hook is
    /// `Others`: `client connect hook failed: ` and the text that its error prints. The error is `Nix` if a thread can't be started.
    pub fn with_hook<H>(rt: R, stream: PipeConnection, hook: &H) -> Result<Client<R, O, I>>
    where
        H: ConnectHook<PipeConnection, Outbound = O, Inbound = I>,
        ensures known { IfOk result
            (λ client. (output : AnOutput O I) × H.gives hook.now stream (Ok output)
            × (client ≡ facts_of output.connection_data.entries)) }
        ensures err { IfErr result
            (λ e. IsRefusedByHook (λ why. H.gives hook.now stream (Err why)) e ⊎ IsNotMade e) }
    {
        let alloc = rt.alloc();
        match hook.on_connect(alloc, &stream) {
            Ok(output) => start(rt, stream, output),
            Err(error) => Err(others_of(alloc, "client connect hook failed: ", &error)),
        }
    }
}

impl<R: Host, O: OutboundTransform + Drop, I: InboundTransform + Drop> Client<R, O, I> {
    /// Returns the data of the connection, as its hook reported it.
    pub fn connection_data(&self) -> &ConnectionData
        ensures { facts_of result.now.entries ≡ self.now }
    {
        self.connection.connection_data()
    }

    /// Returns the allocator of the client's calls.
    pub fn alloc(&self) -> Global {
        self.rt.alloc()
    }

    /// Makes a call, and waits for the response. The error is the response's status if its code isn't 0 (`RpcStatus`), a refusal of the
    /// request, its deadline (`Others`), or the error that broke the connection. The request's `timeout_nano`, in nanoseconds, counts from
    /// here on; 0 is no limit.
    pub fn request(&self, req: Request) -> Result<Response> {
        self.connection.call(&self.rt, &req)
    }

    /// Makes another client of the same connection.
    pub fn try_clone(&self) -> Result<Client<R, O, I>>
        ensures ok { IfOk result (λ client. client ≡ self.now) }
        ensures err { IfErr result (λ e. e ≡ AnError.NoMemory) }
    {
        Ok(Client {
            rt: self.rt.clone()?,
            connection: Arc::try_clone(&self.connection)?,
        })
    }
}

/// Starts the threads of a client's connection.
fn start<R, O, I>(
    rt: R,
    stream: PipeConnection,
    output: HookOutput<O, I>,
) -> Result<Client<R, O, I>>
where
    R: Runtime,
    O: SendOutbound,
    I: SendInbound,
    ensures known { IfOk result (λ client. client ≡ facts_of output.connection_data.entries) }
    ensures err { IfErr result IsNotMade }
{
    let alloc = rt.alloc();
    let HookOutput {
        connection_data,
        outbound,
        inbound,
    } = output;
    let shared = ClientLock::new(core_of(alloc, outbound, inbound)?);
    let stream = Arc::new(alloc, stream)?;
    let link = Arc::new(alloc, Link::new(alloc, shared, stream)?)?;
    let connection = ClientConn::new(Arc::try_clone(&link)?, connection_data);
    let client = Client {
        rt: rt.clone()?,
        connection: Arc::new(alloc, connection)?,
    };
    start_reader(&rt, Arc::try_clone(&link)?)?;
    start_writer(&rt, link)?;
    Ok(client)
}

/// Makes the core of a client with threads, with these halves for its bytes. Its first call has the id 1. The connection's data lies beside
/// the lock, and not in the core.
fn core_of<O, I>(alloc: Global, outbound: O, inbound: I) -> Result<ClientCore<O, I>>
where
    O: OutboundTransform + Drop,
    I: InboundTransform + Drop,
    ensures ok { IfOk result (λ core. core ≡ new_core ClientKind.Sync 1 [] outbound inbound) }
    ensures err { IfErr result (λ e. e ≡ AnError.NoMemory) }
{
    let context = ConnectionContext::of_halves(alloc, outbound, inbound);
    let core = ClientCore::new(alloc, ClientKind::Sync, context)?;
    Ok(core)
}

/// Converts the error of a thread that the system refused.
fn fault(error: io::Error) -> Error
    ensures { result ≡ AnError.Nix (error_kind error) }
{
    Error::Nix(error.kind())
}

fn start_reader<R, O, I>(rt: &R, link: Arc<Link<ClientLock<O, I>>, Global>) -> Result<()>
where
    R: Runtime,
    O: SendOutbound,
    I: SendInbound,
    ensures { IfErr result IsNotMade }
{
    let mine = rt.clone()?;
    let reader = move || {
        read_for_callers(&mine, &link);
        link.close();
    };
    Builder::new().spawn(rt, reader).map_err(fault)?;
    Ok(())
}

/// Reads for callers that don't read themselves, until the connection has failed.
fn read_for_callers<R, O, I>(rt: &R, link: &Link<ClientLock<O, I>>)
where
    R: Host,
    O: OutboundTransform + Drop,
    I: InboundTransform + Drop,
{
    let shared = link.shared();
    let mut port = ClientRead::new(rt, rt.alloc(), shared);
    for _ in rt.forever() {
        if !shared.wait_to_read(rt) {
            return;
        }
        link.run_reader(rt, &mut port);
    }
    unreachable!()
}

fn start_writer<R, O, I>(rt: &R, link: Arc<Link<ClientLock<O, I>>, Global>) -> Result<()>
where
    R: Runtime,
    O: SendOutbound,
    I: SendInbound,
    ensures { IfErr result IsNotMade }
{
    let mine = rt.clone()?;
    let alloc = rt.alloc();
    let writer = move || {
        if link.write(&mine, alloc).is_err() {
            link.close();
        }
    };
    Builder::new().spawn(rt, writer).map_err(fault)?;
    Ok(())
}
