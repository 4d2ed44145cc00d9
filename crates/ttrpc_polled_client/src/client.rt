//! The client.
ghost use Rattle.std.specs.Prelude.{◌≡◌, ◌⊎◌, ℕ, [], Err, Ok, IfErr, IfOk, IsSomeAnd};
ghost use Rattle.std.specs.Arc.{arc_value};
ghost use Rattle.ttrpc_proto.specs.declared.error.Error.{Error as AnError};
ghost use Rattle.ttrpc_secure.specs.Hooks.Facts.{facts_of};
ghost use Rattle.ttrpc_secure.specs.declared.hooks.HookOutput.{HookOutput as AnOutput};
ghost use Rattle.ttrpc_polled.specs.Connecting.{RefusesAddress};
ghost use Rattle.ttrpc_polled.specs.Sockets.{IsNotMade};
ghost use Rattle.ttrpc_polled_client.specs.Making.{IsMadeOver, IsRefusedByHook};

use crate::asked::Asked;
use crate::connect::{ClientConnect, Spawns};
use crate::connection::{ClientConnection, TcpConnection};
use crate::line::ClientLine;
use crate::opening::{ClientNewStream, Opening, Prepared};
use crate::request::ClientRequest;
use crate::shared::ClientShared;
use std::alloc::Global;
use std::net::Net;
use std::sync::Arc;
use tokio::io::{AsyncRead, AsyncWrite};
use tokio::runtime::Handle;
use ttrpc_client::{ClientCore, ClientKind};
use ttrpc_polled::{ConnectionDriver, Socket, Timed, moment};
use ttrpc_proto::error::causes::others_of;
use ttrpc_proto::{Request, Result};
use ttrpc_secure::{
    ConnectHook, ConnectionContext, ConnectionData, HookOutput, InboundTransform,
    OutboundTransform, Plain,
};

/// A client of one connection. Its clones share the connection, which ends with the last of its clones, calls and streams.
#[derive(Drop)]
pub struct Client<R: Timed, O: OutboundTransform + Drop, I: InboundTransform + Drop> {
    rt: R,
    line: Arc<ClientLine<O, I>, Global>,
}

impl<R: Timed> Client<R, Plain, Plain> {
    /// Makes a client of the connection of this socket, and the future of the connection, which is to be polled beside the client's calls.
    /// A fault of the system is `Nix`.
    pub fn new(
        rt: R,
        handle: &Handle,
        socket: Socket,
    ) -> Result<(Client<R, Plain, Plain>, TcpConnection<R, Plain, Plain>)>
        ensures shared { IfOk result
            (λ made. arc_value made.1.link.shared ≡ arc_value (arc_value made.0.line).shared) }
        ensures known { IfOk result
            (λ made. facts_of (arc_value made.0.line).connection_data.entries ≡ []) }
        ensures err { IfErr result IsNotMade }
    {
        let alloc = rt.alloc();
        let output = HookOutput::of_halves(alloc, Plain {}, Plain {});
        let (reader, writer) = socket.into_split()?;
        Client::over(rt, handle, reader, writer, output)
    }

    /// Makes a client as `new` does, and has `tasks` poll the future of its connection. If the future can't be polled, there is no client.
    pub fn spawned<P: Spawns<TcpConnection<R, Plain, Plain>>>(
        rt: R,
        handle: &Handle,
        socket: Socket,
        tasks: &P,
    ) -> Result<Client<R, Plain, Plain>>
        ensures known { IfOk result
            (λ client. facts_of (arc_value client.line).connection_data.entries ≡ []) }
        ensures err { IfErr result IsNotMade }
    {
        let (client, connection) = Client::new(rt, handle, socket)?;
        tasks.spawn(connection)?;
        Ok(client)
    }

    /// Connects to an address, `tcp://IP:PORT`. With `nodelay`, each write goes out at once. The error is `Others` if the address names no
    /// place of TCP, and `Nix` if the system reports a fault.
    pub fn connect(
        rt: R,
        handle: &Handle,
        sockaddr: &str,
        nodelay: bool,
    ) -> Result<ClientConnect<R>>
    where
        R: Net,
        ensures ok { IfOk result (λ connect. RefusesAddress sockaddr.now connect.connecting.state
            × (connect.connecting.nodelay ≡ nodelay)) }
        ensures err { IfErr result (λ e. e ≡ AnError.NoMemory) }
    {
        let connecting = Socket::connect(&rt, rt.alloc(), handle.reactor(), sockaddr, nodelay);
        ClientConnect::new(rt, handle, connecting)
    }
}

impl<R: Timed, O: OutboundTransform + Drop, I: InboundTransform + Drop> Client<R, O, I> {
    /// Makes a client as `new` does, after the hook has looked at the socket, with the halves that the hook gave. A refusal by the hook is
    /// `Others`: `client connect hook failed: ` and the text that its error prints.
    pub fn with_hook<H>(
        rt: R,
        handle: &Handle,
        socket: Socket,
        hook: &H,
    ) -> Result<(Client<R, O, I>, TcpConnection<R, O, I>)>
    where
        H: ConnectHook<Socket, Outbound = O, Inbound = I>,
        ensures shared { IfOk result
            (λ made. arc_value made.1.link.shared ≡ arc_value (arc_value made.0.line).shared) }
        ensures known { IfOk result
            (λ made. (output : AnOutput O I) × H.gives hook.now socket (Ok output)
            × (facts_of (arc_value made.0.line).connection_data.entries
            ≡ facts_of output.connection_data.entries)) }
        ensures err { IfErr result
            (λ e. IsRefusedByHook (λ why. H.gives hook.now socket (Err why)) e ⊎ IsNotMade e) }
    {
        let alloc = rt.alloc();
        let output = match hook.on_connect(alloc, &socket) {
            Ok(output) => output,
            Err(error) => return Err(others_of(alloc, "client connect hook failed: ", &error)),
        };
        let (reader, writer) = socket.into_split()?;
        Client::over(rt, handle, reader, writer, output)
    }

    /// Makes a client as `new` does, over any reader and writer, with a hook's output.
    pub fn over<S: AsyncRead, W: AsyncWrite>(
        rt: R,
        handle: &Handle,
        reader: S,
        writer: W,
        output: HookOutput<O, I>,
    ) -> Result<(Client<R, O, I>, ClientConnection<R, S, W, O, I>)>
        ensures ok { IfOk result (λ made. IsMadeOver reader writer
            (facts_of output.connection_data.entries) (arc_value made.0.line) made.1.link) }
        ensures err { IfErr result IsNotMade }
    {
        let alloc = rt.alloc();
        let HookOutput {
            connection_data,
            outbound,
            inbound,
        } = output;
        let context = ConnectionContext::of_halves(alloc, outbound, inbound);
        let core = ClientCore::new(alloc, ClientKind::Async, context)?;
        let shared = Arc::new(alloc, ClientShared::new(alloc, core))?;
        let link = ConnectionDriver::new(
            rt.clone()?,
            handle,
            Arc::try_clone(&shared)?,
            reader,
            writer,
        )?;
        let line = ClientLine {
            shared,
            connection_data,
        };
        let client = Client {
            rt,
            line: Arc::new(alloc, line)?,
        };
        Ok((client, ClientConnection::new(link)))
    }

    /// Returns the data of the connection, as its hook reported it.
    pub fn connection_data(&self) -> &ConnectionData
        ensures { result.now ≡ (arc_value self.now.line).connection_data }
    {
        &self.line.connection_data
    }

    /// Returns the allocator of the client's calls.
    pub fn alloc(&self) -> Global {
        self.rt.alloc()
    }

    /// Makes another client of the same connection.
    pub fn try_clone(&self) -> Result<Client<R, O, I>>
        ensures ok { IfOk result (λ client. arc_value client.line ≡ arc_value self.now.line) }
        ensures err { IfErr result (λ e. e ≡ AnError.NoMemory) }
    {
        Ok(Client {
            rt: self.rt.clone()?,
            line: Arc::try_clone(&self.line)?,
        })
    }

    /// Returns a call, which is made when it is first polled. The call is ready with the response, or with an error. The error is the
    /// response's status if its code isn't 0 (`RpcStatus`), a refusal of the request, its deadline (`Others`), or the error that broke the
    /// connection. The request's `timeout_nano`, in nanoseconds, counts from here on; 0 is no limit.
    pub fn request(&self, req: Request) -> Result<ClientRequest<O, I>>
        ensures ok { IfOk result (λ call. (arc_value call.line ≡ arc_value self.now.line)
            × ((now : ℕ) × (call.asked ≡ Asked.Asks req now))) }
        ensures err { IfErr result IsNotMade }
    {
        let now = moment(&self.rt)?;
        let line = Arc::try_clone(&self.line)?;
        Ok(ClientRequest::new(self.alloc(), line, Asked::Asks(req, now)))
    }

    /// Returns a stream, which is opened when this future is first polled, to send items, to receive them, or both. If the stream sends,
    /// the request has no payload; otherwise its payload is the one item.
    pub fn new_stream(
        &self,
        req: Request,
        streaming_client: bool,
        streaming_server: bool,
    ) -> Result<ClientNewStream<O, I>>
        ensures ok { IfOk result (λ stream. IsSomeAnd stream.prepared (λ p. (p.opening
            ≡ record { request = req; streaming_client = streaming_client; streaming_server = streaming_server })
            × (arc_value p.sends ≡ arc_value self.now.line)
            × (arc_value p.receives ≡ arc_value self.now.line))) }
        ensures err { IfErr result (λ e. e ≡ AnError.NoMemory) }
    {
        let prepared = Prepared {
            opening: Opening {
                request: req,
                streaming_client,
                streaming_server,
            },
            sends: Arc::try_clone(&self.line)?,
            receives: Arc::try_clone(&self.line)?,
        };
        Ok(ClientNewStream::new(self.alloc(), prepared))
    }
}
