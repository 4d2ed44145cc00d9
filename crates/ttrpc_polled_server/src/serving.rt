//! The connections of a server, one after another.
ghost use Rattle.std.specs.Prelude.{◌≡◌, ◌↔◌, [], true, false, IfErr, IfOk, IfSome, IsTrue, None, Some};
ghost use Rattle.std.specs.Arc.{arc_value};
ghost use Rattle.futures.specs.Poll.{OnPending, IfReady};
ghost use Rattle.futures.specs.Task.{Covers, Keeps};
ghost use Rattle.ttrpc_proto.specs.declared.error.Error.{Error as AnError};
ghost use Rattle.ttrpc_secure.specs.Hooks.Facts.{facts_of};
ghost use Rattle.ttrpc_polled.specs.Sockets.{IsNotMade};
ghost use Rattle.ttrpc_polled_server.specs.Needs.{AcceptNeeds, CanPoll, ServingNeeds};
ghost use Rattle.ttrpc_polled_server.specs.Opened.{IsAccepted, IsNotOpened, IsOpened, IsPassing};

use crate::connection::{ConnectionParts, ServerConnection};
use crate::handler::{MethodHandler, StreamHandler};
use crate::input_end::InputEnd;
use crate::services::Services;
use crate::settings::Settings;
use crate::shared::ServerShared;
use crate::stop::StopState;
use futures::task::{Context, Poll};
use futures::{Stream, ready};
use std::alloc::Global;
use std::io::ErrorKind;
use std::sync::Arc;
use std::time::Clock;
use tokio::io::{AsyncRead, AsyncWrite};
use tokio::net::OwnedWriteHalf;
use tokio::runtime::Handle;
use ttrpc_polled::{Alarm, ConnectionDriver, Listener, Socket, SocketReader, Timed, moment};
use ttrpc_proto::error::causes::others_of;
use ttrpc_proto::{Error, Result};
use ttrpc_secure::{
    AcceptHook, ConnectionContext, ConnectionData, HookOutput, InboundTransform, OutboundTransform,
    admit,
};
use ttrpc_server::{Registry, Rules, ServerCore};
use ttrpc_transport::{NoWatch, Watch};

/// The future of a server's connection over TCP.
pub type TcpServerConnection<R, M, T, O, I> = ServerConnection<
    R,
    M,
    T,
    SocketReader,
    OwnedWriteHalf,
    O,
    I,
>;

/// The parts with which a server serves its connections.
#[derive(Drop)]
pub(crate) struct ConnectionMaker<R, M: Drop, T: Drop, A, V> {
    pub(crate) rt: R,
    pub(crate) handle: Handle,
    pub(crate) services: Arc<Services<M, T>, Global>,
    pub(crate) hook: Arc<A, Global>,
    pub(crate) watch: Arc<V, Global>,
    pub(crate) stop: Arc<StopState, Global>,
    pub(crate) settings: Settings,
}

impl<R: Timed, M: MethodHandler, T: Drop, A, V> ConnectionMaker<R, M, T, A, V> {
    /// Makes a connection over this reader and this writer, with a hook's output.
    pub(crate) fn open<S, W, O, I>(
        &self,
        reader: S,
        writer: W,
        output: HookOutput<O, I>,
    ) -> Result<ServerConnection<R, M, T, S, W, O, I>>
    where
        S: AsyncRead,
        W: AsyncWrite,
        O: OutboundTransform + Drop,
        I: InboundTransform + Drop,
        T: StreamHandler<ServerShared<O, I>>,
        ensures can { IfOk result (CanPoll M.Call.Future.can_poll T.Call.Future.can_poll) }
        ensures opened { IfOk result
            (IsOpened reader writer (facts_of output.connection_data.entries)
            (arc_value self.now.services) self.now.settings (arc_value self.now.stop)) }
        ensures err { IfErr result IsNotOpened }
    {
        let HookOutput {
            connection_data,
            outbound,
            inbound,
        } = output;
        let input_end = Arc::new(self.rt.alloc(), InputEnd::new(self.rt.alloc()))?;
        let shared = self.shared(outbound, inbound, &input_end)?;
        let link = self.link(&shared, reader, writer)?;
        let parts = self.parts(shared, input_end, connection_data)?;
        ServerConnection::new(self.rt.clone()?, link, parts)
    }

    /// Makes a core between these halves, to be shared.
    fn shared<O, I>(
        &self,
        outbound: O,
        inbound: I,
        input_end: &Arc<InputEnd, Global>,
    ) -> Result<Arc<ServerShared<O, I>, Global>>
    where
        O: OutboundTransform + Drop,
        I: InboundTransform + Drop,
        ensures { IfErr result (λ e. e ≡ AnError.NoMemory) }
    {
        let alloc = self.rt.alloc();
        let context = ConnectionContext::of_halves(alloc, outbound, inbound);
        let core = ServerCore::new(alloc, Rules::Async, self.registry(alloc)?, context)?;
        let end = Arc::try_clone(input_end)?;
        let shared = ServerShared::new(alloc, core, self.settings, end);
        Ok(Arc::new(alloc, shared)?)
    }

    /// Makes the link that reads and writes for a core.
    fn link<S, W, O, I>(
        &self,
        shared: &Arc<ServerShared<O, I>, Global>,
        reader: S,
        writer: W,
    ) -> Result<ConnectionDriver<R, S, W, ServerShared<O, I>>>
    where
        S: AsyncRead,
        W: AsyncWrite,
        O: OutboundTransform + Drop,
        I: InboundTransform + Drop,
        ensures ok { IfOk result (λ link. (arc_value link.shared ≡ arc_value shared.now)
            × (link.read_buffer.reader ≡ reader) × (link.read_buffer.piece ≡ []) × (link.is_reading ≡ true)
            × (link.write_buffer.writer ≡ writer) × (link.write_buffer.kept ≡ [])
            × (link.alarm.set_for ≡ None)) }
        ensures err { IfErr result IsNotMade }
    {
        let line = Arc::try_clone(shared)?;
        ConnectionDriver::new(self.rt.clone()?, &self.handle, line, reader, writer)
    }

    /// Makes the other parts of a connection.
    fn parts<O, I>(
        &self,
        shared: Arc<ServerShared<O, I>, Global>,
        input_end: Arc<InputEnd, Global>,
        connection_data: ConnectionData,
    ) -> Result<ConnectionParts<M, T, O, I>>
    where
        O: OutboundTransform + Drop,
        I: InboundTransform + Drop,
        ensures ok { IfOk result (λ parts. (parts.shared ≡ shared)
            × (arc_value parts.services ≡ arc_value self.now.services)
            × (arc_value parts.connection_data ≡ connection_data)
            × (arc_value parts.connection_slot.stop ≡ arc_value self.now.stop)
            × (parts.limit ≡ self.now.settings.connection_limit)
            × (parts.half_close ≡ self.now.settings.half_close_limit)) }
        ensures err { IfErr result IsNotOpened }
    {
        Ok(ConnectionParts {
            shared,
            services: Arc::try_clone(&self.services)?,
            connection_data: Arc::new(self.rt.alloc(), connection_data)?,
            connection_slot: StopState::connection_slot(&self.stop)?,
            grace: Alarm::new(&self.rt, &self.handle)?,
            limit: self.settings.connection_limit,
            half_close: self.settings.half_close_limit,
            input_end,
        })
    }

    /// Returns the names of everything that is served, for a core.
    fn registry(&self, alloc: Global) -> Result<Registry>
        ensures { IfErr result (λ e. e ≡ AnError.NoMemory) }
    {
        let mut registry = self.services.registry(alloc)?;
        registry.set_bare_openings(self.settings.bare_openings);
        Ok(registry)
    }
}

/// The connections that a server accepts, each as a future that is to be polled, until the server listens no more.
pub struct Serving<R: Timed, M: Drop, T: Drop, A: Drop, V: Watch + Drop = NoWatch> {
    with: ConnectionMaker<R, M, T, A, V>,
    // `None` after it was given back, because no more connections are to be accepted.
    listener: Option<Listener>,
    number: u64,
    rests: bool,
    ended: u64,
    rest: Alarm,
}

impl<R: Timed, M: Drop, T: Drop, A: Drop, V: Watch + Drop> Serving<R, M, T, A, V> {
    /// Makes the connections of this listener.
    pub(crate) fn new(with: ConnectionMaker<R, M, T, A, V>, listener: Listener, rest: Alarm) -> Self
        ensures { (result.with ≡ with) × (result.listener ≡ Some listener)
            × (result.rests ≡ false) }
    {
        Serving {
            number: with.stop.take_number(),
            with,
            listener: Some(listener),
            rests: false,
            ended: 0,
            rest,
        }
    }

    /// Returns the next socket, and none once the server listens no more. After a fault of the system the server rests, until its interval
    /// is over or a connection has ended, so that a descriptor is free.
    fn poll_socket(&mut self, cx: &mut Context<'_>) -> Poll<Option<Socket>>
        ensures registered { OnPending result (Covers cx.new (ServingNeeds self.new)) }
        ensures kept { Keeps cx.old cx.new }
    {
        if self.with.stop.is_deaf(self.number, cx) {
            self.give_back();
            return Poll::Ready(None);
        }
        ready!(self.poll_rest(cx));
        self.poll_accept(cx)
    }

    /// Waits until a rest is over: its time has passed, or a connection has ended.
    fn poll_rest(&mut self, cx: &mut Context<'_>) -> Poll<()>
        ensures over { IfReady result (λ _. self.new.rests ≡ false) }
        ensures registered { OnPending result (Covers cx.new (AcceptNeeds self.new)) }
        ensures rest { (self.new.with ≡ self.old.with) × (self.new.listener ≡ self.old.listener) }
        ensures kept { Keeps cx.old cx.new }
    {
        if !self.rests {
            return Poll::Ready(());
        }
        if !self.with.stop.has_ended(self.ended, self.number, cx) {
            ready!(self.rest.poll_ring(&self.with.rt, cx));
        }
        self.rests = false;
        Poll::Ready(())
    }

    /// Accepts a connection. After a passing fault the server tries again at once; after any other it rests first.
    fn poll_accept(&mut self, cx: &mut Context<'_>) -> Poll<Option<Socket>>
        requires { self.old.rests ≡ false }
        ensures registered { OnPending result (Covers cx.new (AcceptNeeds self.new)) }
        ensures stop { self.new.with ≡ self.old.with }
        ensures kept { Keeps cx.old cx.new }
    {
        let Some(listener) = &mut self.listener else {
            return Poll::Ready(None);
        };
        match listener.poll_accept(cx) {
            Poll::Pending => Poll::Pending,
            Poll::Ready(Ok(socket)) => Poll::Ready(Some(socket)),
            Poll::Ready(Err(fault)) => {
                if !is_passing(&fault) {
                    self.with.watch.accept_failed(&fault);
                    self.begin_rest();
                }
                cx.yield_now()
            }
        }
    }

    /// Gives the listener back, if it is still here.
    fn give_back(&mut self)
        ensures { self.new ≡ record self.old { listener = None } }
    {
        if let Some(listener) = self.listener.take() {
            self.with.stop.give_back(listener);
        }
    }

    /// Begins a rest, since the system gave no connection.
    fn begin_rest(&mut self)
        ensures { (self.new.with ≡ self.old.with) × (self.new.listener ≡ self.old.listener) }
    {
        let interval = self.with.settings.accept_retry_interval;
        let interval = u64::try_from(interval.as_nanos()).unwrap_or(u64::MAX);
        let now = moment(&self.with.rt).unwrap_or(0);
        self.rest.set(&self.with.rt, now.saturating_add(interval));
        self.ended = self.with.stop.ended();
        self.rests = true;
    }
}

impl<R: Timed, M, T, A, V: Watch + Drop, O, I> Serving<R, M, T, A, V>
where
    A: AcceptHook<Socket, Outbound = O, Inbound = I> + Drop,
    O: OutboundTransform + Drop,
    I: InboundTransform + Drop,
    M: MethodHandler,
    T: StreamHandler<ServerShared<O, I>>,
{
    /// Begins the connection of an accepted socket. If the hook refuses it, the watch learns of that.
    fn begin(&self, socket: Socket) -> Result<TcpServerConnection<R, M, T, O, I>>
        ensures can { IfOk result (CanPoll M.Call.Future.can_poll T.Call.Future.can_poll) }
        ensures accepted { IfOk result (IsAccepted (A.gives (arc_value self.now.with.hook) socket)
            (arc_value self.now.with.services) self.now.with.settings
            (arc_value self.now.with.stop)) }
    {
        let with = &self.with;
        let alloc = with.rt.alloc();
        let output = match admit(|| with.rt.monotonic(), alloc, &*with.hook, &socket) {
            Ok(output) => output,
            Err(error) => {
                let refusal = others_of(alloc, "accept hook failed: ", &error);
                with.watch.hook_refused(&refusal);
                return Err(refusal);
            }
        };
        self.open(socket, output)
    }

    /// Opens the connection of an accepted socket. If the system or memory refuses, the watch learns of that.
    fn open(
        &self,
        socket: Socket,
        output: HookOutput<O, I>,
    ) -> Result<TcpServerConnection<R, M, T, O, I>>
        ensures can { IfOk result (CanPoll M.Call.Future.can_poll T.Call.Future.can_poll) }
        ensures opened { IfOk result (λ c. (reader : _) × (writer : _) × IsOpened reader writer
            (facts_of output.connection_data.entries) (arc_value self.now.with.services)
            self.now.with.settings (arc_value self.now.with.stop) c) }
    {
        match self.open_split(socket, output) {
            Ok(connection) => Ok(connection),
            Err(error) => {
                self.with.watch.connection_dropped(&error);
                Err(error)
            }
        }
    }

    /// Opens the connection of a socket over its two halves.
    fn open_split(
        &self,
        socket: Socket,
        output: HookOutput<O, I>,
    ) -> Result<TcpServerConnection<R, M, T, O, I>>
        ensures can { IfOk result (CanPoll M.Call.Future.can_poll T.Call.Future.can_poll) }
        ensures opened { IfOk result (λ c. (reader : _) × (writer : _) × IsOpened reader writer
            (facts_of output.connection_data.entries) (arc_value self.now.with.services)
            self.now.with.settings (arc_value self.now.with.stop) c) }
    {
        let (reader, writer) = socket.into_split()?;
        self.with.open(reader, writer, output)
    }
}

impl<R: Timed, M, T, A, V: Watch + Drop, O, I> Stream for Serving<R, M, T, A, V>
where
    A: AcceptHook<Socket, Outbound = O, Inbound = I> + Drop,
    O: OutboundTransform + Drop,
    I: InboundTransform + Drop,
    M: MethodHandler,
    T: StreamHandler<ServerShared<O, I>>,
{
    type Item = TcpServerConnection<R, M, T, O, I>;

    ghost use Rattle.std.specs.Prelude.{IfSome};
    ghost use Rattle.ttrpc_polled_server.specs.Needs.{CanPoll, ServingNeeds};

    ghost needs = { ServingNeeds };

    ghost yields = { λ _ _ last. IfSome last
        (CanPoll M.Call.Future.can_poll T.Call.Future.can_poll) };

    fn poll_next(
        &mut self,
        cx: &mut Context<'_>,
    ) -> Poll<Option<TcpServerConnection<R, M, T, O, I>>> {
        let Some(socket) = ready!(self.poll_socket(cx)) else {
            return Poll::Ready(None);
        };
        match self.begin(socket) {
            Ok(connection) => Poll::Ready(Some(connection)),
            // The socket is closed.
            Err(_) => cx.yield_now(),
        }
    }
}

impl<R: Timed, M: Drop, T: Drop, A: Drop, V: Watch + Drop> Drop for Serving<R, M, T, A, V> {
    fn drop(self) {
        let Self {
            with,
            listener,
            number: _,
            rests: _,
            ended: _,
            rest: _,
        } = self;
        if let Some(listener) = listener {
            with.stop.give_back(listener);
        }
    }
}

/// Returns whether a fault of `accept` passes by itself: a signal came, the other side went away, or the network is out of reach.
fn is_passing(fault: &Error) -> bool
    ensures { IsTrue result ↔ IsPassing fault.now }
{
    matches!(
        fault,
        Error::Nix(
            ErrorKind::Interrupted
                | ErrorKind::ConnectionAborted
                | ErrorKind::ConnectionReset
                | ErrorKind::NetworkDown
                | ErrorKind::NetworkUnreachable
                | ErrorKind::HostUnreachable
        )
    )
}
