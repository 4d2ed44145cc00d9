//! The server.
ghost use Rattle.std.specs.Prelude.{◌≡◌, ◌⊎◌, ◌↔◌, IfErr, IfOk, IfSome, IsSome, OnErr, OnOk, Ok, None, Some, true};
ghost use Rattle.std.specs.Arc.{arc_value};
ghost use Rattle.ttrpc_polled.specs.Sockets.{IsNoTcp};
ghost use Rattle.ttrpc_polled.specs.declared.listener.Listener.{Listener as AListener};
ghost use Rattle.ttrpc_polled_server.specs.Built.{Adds, IsLack, IsNewServer, IsNotAdded, IsNotStarted, listening, silent, with_listener};
ghost use Rattle.ttrpc_polled_server.specs.Needs.{CanPoll};
ghost use Rattle.ttrpc_polled_server.specs.Opened.{IsNotOpened, IsOpened};
ghost use Rattle.ttrpc_polled_server.specs.Stopping.{EndsConnections, IsShutdown, StopsListening};
ghost use Rattle.ttrpc_proto.specs.declared.error.Error.TheVariants.{NoMemory};
ghost use Rattle.ttrpc_secure.specs.Hooks.Facts.{facts_of};
ghost use Rattle.ttrpc_transport.specs.Sockets.{IsFault};

use crate::connection::ServerConnection;
use crate::handler::{MethodHandler, StreamHandler};
use crate::services::{Service, Services};
use crate::serving::{ConnectionMaker as Served, Serving};
use crate::settings::{Settings, unbound_error};
use crate::shared::ServerShared;
use crate::stop::{Disconnect, Shutdown, StopListen, StopState};
use std::alloc::Global;
use std::collections::BTreeMap;
use std::marker::Model;
use std::net::{Net, SocketAddr};
use std::sync::Arc;
use std::time::Duration;
use tokio::io::{AsyncRead, AsyncWrite};
use tokio::runtime::Handle;
use ttrpc_polled::{Alarm, Listener, Timed};
use ttrpc_proto::{Error, Result};
use ttrpc_secure::{HookOutput, InboundTransform, NoHook, OutboundTransform};
use ttrpc_transport::{NoWatch, Watch};

/// A server with polled connections. Contracts see it as the parts it was built with: its settings, its listener, its services, its hook,
/// its watch, and the state by which its connections stop.
#[derive(Drop)]
pub struct Server<R: Timed, M: Drop, T: Drop, A: Drop = NoHook, V: Watch + Drop = NoWatch> {
    rt: R,
    handle: Handle,
    settings: Settings,
    listener: Option<Listener>,
    services: Arc<Services<M, T>, Global>,
    hook: Arc<A, Global>,
    watch: Arc<V, Global>,
    stop: Arc<StopState, Global>,
}

impl<R: Timed, M: Drop, T: Drop, A: Drop, V: Watch + Drop> Model for Server<R, M, T, A, V> {
    ghost use Rattle.std.specs.Arc.{arc_value};
    ghost use Rattle.ttrpc_polled_server.specs.Built.{Built};

    ghost Value = { Built M T A V };

    ghost view = { λ server. record {
      settings = server.settings;
      listener = server.listener;
      services = arc_value server.services;
      hook = arc_value server.hook;
      watch = arc_value server.watch;
      stop = arc_value server.stop;
    } };
}

impl<R: Timed, M: Drop, T: Drop> Server<R, M, T, NoHook, NoWatch> {
    /// Makes a server without services and without a listener, with the sockets and timers of this runtime.
    pub fn new(rt: R, handle: &Handle) -> Result<Server<R, M, T, NoHook, NoWatch>>
        ensures new { IfOk result IsNewServer }
        ensures err { IfErr result (λ e. e ≡ NoMemory) }
    {
        let alloc = rt.alloc();
        Ok(Server {
            handle: handle.clone()?,
            settings: Settings::new(),
            listener: None,
            services: Arc::new(alloc, Services::new(alloc))?,
            hook: Arc::new(alloc, NoHook {})?,
            watch: Arc::new(alloc, NoWatch {})?,
            stop: Arc::new(alloc, StopState::new(alloc)?)?,
            rt,
        })
    }
}

impl<R: Timed, M: MethodHandler, T: Drop, A: Drop, V: Watch + Drop> Server<R, M, T, A, V> {
    /// Makes a connection over any reader and writer, with a hook's output: a future that is to be polled. The connection ends with the
    /// others of this server. From here on the services are fixed.
    pub fn over<S, W, O, I>(
        &mut self,
        reader: S,
        writer: W,
        output: HookOutput<O, I>,
    ) -> Result<ServerConnection<R, M, T, S, W, O, I>>
    where
        S: AsyncRead,
        W: AsyncWrite,
        O: OutboundTransform + Drop,
        I: InboundTransform + Drop,
        T: StreamHandler<ServerShared<O, I>>,
        ensures can { IfOk result (CanPoll M.Call.Future.can_poll T.Call.Future.can_poll) }
        ensures opened { IfOk result
            (IsOpened reader writer (facts_of output.connection_data.entries) self.old.services
            self.old.settings self.old.stop) }
        ensures err { IfErr result IsNotOpened }
        ensures fixed { self.new
            ≡ record self.old { settings = record self.old.settings { is_fixed = true } } }
    {
        self.settings.is_fixed = true;
        self.served()?.open(reader, writer, output)
    }
}

impl<R: Timed, M: Drop, T: Drop, A: Drop, V: Watch + Drop> Server<R, M, T, A, V> {
    /// Returns the server's settings.
    pub fn settings(&self) -> &Settings
        ensures { result.now ≡ self.now.settings }
    {
        &self.settings
    }

    /// Binds the server to an address, `tcp://IP:PORT`, in place of an earlier one. With `nodelay`, each write goes out at once. The error
    /// is `Others` if the address names no place of TCP, and `Nix` if the system reports a fault.
    pub fn bind(self, sockaddr: &str, nodelay: bool) -> Result<Server<R, M, T, A, V>>
    where
        R: Net,
        ensures ok { IfOk result (λ server. (listener : AListener) × (listener.nodelay ≡ nodelay)
            × (server ≡ with_listener self listener)) }
        ensures err { IfErr result (λ e. IsNoTcp sockaddr.now e ⊎ IsFault e) }
    {
        let reactor = self.handle.reactor();
        match Listener::bind(&self.rt, self.rt.alloc(), reactor, sockaddr, nodelay) {
            Ok(listener) => Ok(self.add_listener(listener)),
            Err(refusal) => Err(refusal),
        }
    }

    /// Sets the listener by which the server accepts connections, in place of an earlier one.
    pub fn add_listener(mut self, listener: Listener) -> Server<R, M, T, A, V>
        ensures { result ≡ with_listener self listener }
    {
        self.listener = Some(listener);
        self
    }

    /// Returns the address at which the server will listen. Returns `None` without a listener or after it has started. A fault of the
    /// system is `Nix`.
    pub fn local_addr(&self) -> Result<Option<SocketAddr>>
        ensures ok { IfOk result (λ address. IsSome address ↔ IsSome self.now.listener) }
        ensures none { self.now.listener ≡ None → result ≡ Ok None }
        ensures err { IfErr result IsFault }
    {
        match &self.listener {
            Some(listener) => Ok(Some(listener.local_addr()?)),
            None => Ok(None),
        }
    }

    /// Adds these services to the server, each under its name. A method or a stream takes the place of an earlier one of its name in
    /// its service. After the server has started its services are fixed, and more are refused.
    pub fn register_service(
        mut self,
        services: BTreeMap<String, Service<M, T>>,
    ) -> Result<Server<R, M, T, A, V>>
        ensures ok { IfOk result (Adds self services.entries) }
        ensures refused { IfErr result (IsNotAdded self.settings) }
    {
        let alloc = self.rt.alloc();
        self.settings.check_register(alloc)?;
        // No other owner shares the services before the first start.
        let Some(open) = Arc::get_mut(&mut self.services) else {
            return Err(Error::NoMemory);
        };
        open.add_all(alloc, services)?;
        Ok(self)
    }

    /// Sets a hook that looks at each connection first. If the hook returns after more than 30 seconds, it is too late, and the connection
    /// is closed. While the hook looks, nothing else of its thread goes on: a hook that never returns holds the thread forever.
    pub fn set_accept_hook<B: Drop>(self, hook: B) -> Result<Server<R, M, T, B, V>>
        ensures ok { IfOk result (λ server. server
            ≡ record { settings = self.settings; listener = self.listener; services = self.services; hook = hook; watch = self.watch; stop = self.stop }) }
        ensures err { IfErr result (λ e. e ≡ NoMemory) }
    {
        let Server {
            rt,
            handle,
            settings,
            listener,
            services,
            hook: _,
            watch,
            stop,
        } = self;
        Ok(Server {
            hook: Arc::new(rt.alloc(), hook)?,
            rt,
            handle,
            settings,
            listener,
            services,
            watch,
            stop,
        })
    }

    /// Sets the watch that receives faults that callers can't see: a failed accept, a refusal by the hook, a connection without memory.
    pub fn set_watch<W: Watch + Drop>(self, watch: W) -> Result<Server<R, M, T, A, W>>
        ensures ok { IfOk result (λ server. server
            ≡ record { settings = self.settings; listener = self.listener; services = self.services; hook = self.hook; watch = watch; stop = self.stop }) }
        ensures err { IfErr result (λ e. e ≡ NoMemory) }
    {
        let Server {
            rt,
            handle,
            settings,
            listener,
            services,
            hook,
            watch: _,
            stop,
        } = self;
        Ok(Server {
            watch: Arc::new(rt.alloc(), watch)?,
            rt,
            handle,
            settings,
            listener,
            services,
            hook,
            stop,
        })
    }

    /// Sets how long a connection that ends waits for its handlers.
    pub fn set_connection_limit(mut self, limit: Duration) -> Server<R, M, T, A, V>
        ensures { result
            ≡ record self { settings = record self.settings { connection_limit = limit } } }
    {
        self.settings.connection_limit = limit;
        self
    }

    /// Sets how long `disconnect` waits for the connections.
    pub fn set_disconnect_limit(mut self, limit: Duration) -> Server<R, M, T, A, V>
        ensures { result
            ≡ record self { settings = record self.settings { disconnect_limit = limit } } }
    {
        self.settings.disconnect_limit = limit;
        self
    }

    /// Sets how long the server waits before it accepts again, after the system gave no connection.
    pub fn set_accept_retry_interval(mut self, interval: Duration) -> Server<R, M, T, A, V>
        ensures { result
            ≡ record self { settings = record self.settings { accept_retry_interval = interval } } }
    {
        self.settings.accept_retry_interval = interval;
        self
    }

    /// Sets whether a stream that is opened without a payload begins without an item, as peers written in Go mean it.
    pub fn set_bare_openings(mut self, bare: bool) -> Server<R, M, T, A, V>
        ensures { result
            ≡ record self { settings = record self.settings { bare_openings = bare } } }
    {
        self.settings.bare_openings = bare;
        self
    }

    /// Sets for how long the handlers of requests go on after the input of their connection has ended. After that they are dropped. A
    /// client that only closed its sending half is answered until then. `None` sets no limit.
    pub fn set_half_close_limit(mut self, limit: Option<Duration>) -> Server<R, M, T, A, V>
        ensures { result
            ≡ record self { settings = record self.settings { half_close_limit = limit } } }
    {
        self.settings.half_close_limit = limit;
        self
    }

    /// Sets for how long a peer may pause inside a frame before its connection fails. `None` sets no limit.
    pub fn set_frame_limit(mut self, limit: Option<Duration>) -> Server<R, M, T, A, V>
        ensures { result ≡ record self { settings = record self.settings { frame_limit = limit } } }
    {
        self.settings.frame_limit = limit;
        self
    }

    /// Sets how many jobs of a connection may wait to be begun. While more wait, the connection isn't read. `None` sets no limit.
    pub fn set_waiting_jobs(mut self, most: Option<u64>) -> Server<R, M, T, A, V>
        ensures { result ≡ record self { settings = record self.settings { waiting_jobs = most } } }
    {
        self.settings.waiting_jobs = most;
        self
    }

    /// Sets how many bytes of jobs may wait to be begun. While more wait, their connection isn't read. `None` sets no limit.
    pub fn set_waiting_bytes(mut self, most: Option<u64>) -> Server<R, M, T, A, V>
        ensures { result
            ≡ record self { settings = record self.settings { waiting_bytes = most } } }
    {
        self.settings.waiting_bytes = most;
        self
    }

    /// Begins to accept. Returns the connections, one after another, each a future that is to be polled. From here on the services are
    /// fixed. Refused without a listener, as for a server that has started and hasn't stopped listening since.
    pub fn start(&mut self) -> Result<Serving<R, M, T, A, V>>
        ensures ok { OnOk result (self.new ≡ listening self.old) }
        ensures listener { IfOk result
            (λ serving. IfSome self.old.listener (λ listener. serving.listener ≡ Some listener)) }
        ensures served { IfOk result (λ serving. (serving.with.settings ≡ self.old.settings)
            × (arc_value serving.with.services ≡ self.old.services)
            × (arc_value serving.with.hook ≡ self.old.hook)
            × (arc_value serving.with.watch ≡ self.old.watch)
            × (arc_value serving.with.stop ≡ self.old.stop)) }
        ensures refused { IfErr result (IsNotStarted self.old.listener) }
    {
        self.restore_listener();
        let Some(_) = &self.listener else {
            return Err(unbound_error(self.rt.alloc()));
        };
        let with = self.served()?;
        let rest = Alarm::new(&self.rt, &self.handle)?;
        let Some(listener) = self.listener.take() else {
            unreachable!();
        };
        let serving = Serving::new(with, listener, rest);
        self.stop.listen();
        self.settings.is_listening = true;
        self.settings.is_fixed = true;
        Ok(serving)
    }

    /// Makes the service for each connection, of all parts that the server was built with.
    fn served(&self) -> Result<Served<R, M, T, A, V>>
        // the server's settings, its services, its hook, its watch, and the state by which its connections stop
        ensures settings { IfOk result (λ with. with.settings ≡ self.now.settings) }
        ensures services { IfOk result (λ with. arc_value with.services ≡ self.now.services) }
        ensures hook { IfOk result (λ with. arc_value with.hook ≡ self.now.hook) }
        ensures watch { IfOk result (λ with. arc_value with.watch ≡ self.now.watch) }
        ensures stop { IfOk result (λ with. arc_value with.stop ≡ self.now.stop) }
        // An error means that memory was refused.
        ensures err { IfErr result (λ e. e ≡ NoMemory) }
    {
        Ok(Served {
            rt: self.rt.clone()?,
            handle: self.handle.clone()?,
            services: Arc::try_clone(&self.services)?,
            hook: Arc::try_clone(&self.hook)?,
            watch: Arc::try_clone(&self.watch)?,
            stop: Arc::try_clone(&self.stop)?,
            settings: self.settings,
        })
    }

    /// Takes the listener that came back when the server stopped listening, if there is no other.
    fn restore_listener(&mut self)
        ensures listener { IsSome self.old.listener → self.new ≡ self.old }
        ensures rest { self.new ≡ record self.old { listener = self.new.listener } }
    {
        if self.listener.is_none() {
            self.listener = self.stop.take_listener();
        }
    }

    /// Stops accepting connections, and goes on with those that are open. Ready once the listener is back, with which the server may start
    /// again. If the server doesn't listen, nothing happens.
    pub fn stop_listen(&mut self) -> Result<StopListen>
        ensures ok { OnOk result (self.new ≡ silent self.old) }
        ensures stops { IfOk result (StopsListening self.old.stop self.old.settings.is_listening) }
        ensures err { OnErr result (self.new ≡ self.old) }
        ensures only_memory { IfErr result (λ e. e ≡ NoMemory) }
    {
        let stop = Arc::try_clone(&self.stop)?;
        let is_listening = self.settings.is_listening;
        self.settings.is_listening = false;
        if is_listening {
            self.stop.stop_listen();
        }
        Ok(StopListen::new(stop, is_listening))
    }

    /// Ends all connections: each takes no more requests, and waits for its handlers for a limited time. Ready once they have ended, or
    /// with `Others("waiters are left")` after its own limit.
    pub fn disconnect(&mut self) -> Result<Disconnect>
        ensures same { self.new ≡ self.old }
        ensures ends { IfOk result
            (EndsConnections self.old.stop self.old.settings.disconnect_limit) }
        ensures err { IfErr result IsLack }
    {
        let limit = self.settings.disconnect_limit;
        let sleep = match self.handle.time().sleep(&self.rt, limit) {
            Ok(sleep) => sleep,
            Err(error) => return Err(Error::Nix(error.kind())),
        };
        let stop = Arc::try_clone(&self.stop)?;
        Ok(Disconnect::new(self.rt.alloc(), stop, sleep))
    }

    /// Stops listening, closes the listener, and ends all connections.
    pub fn shutdown(&mut self) -> Result<Shutdown>
        ensures ok { OnOk result (self.new ≡ record (silent self.old) { listener = None }) }
        ensures stops { IfOk result (IsShutdown self.old.stop
            self.old.settings.is_listening self.old.settings.disconnect_limit) }
        ensures err { IfErr result IsLack }
    {
        let connections = self.disconnect()?;
        let stop = Arc::try_clone(&self.stop)?;
        let listener = self.stop_listen()?;
        self.listener = None;
        Ok(Shutdown::new(stop, listener, connections))
    }
}
