//! The server.
ghost use Rattle.std.specs.Prelude.{◌≡◌, ◌↔◌, IfErr, IfOk, IsNone, IsSome, OnErr, OnOk, None, Some};
ghost use Rattle.std.specs.Arc.{arc_value};
ghost use Rattle.ttrpc_proto.specs.declared.error.Error.TheVariants.{NoMemory};
ghost use Rattle.ttrpc_sync_server.specs.Built.{IsNewServer, IsNotBound, IsNotRegistered, IsNotStarted, Registers, bound, domain_of, started, stopped};
ghost use Rattle.ttrpc_sync_server.specs.Settings.{Refuses, bind_refusal, listen_refusal, register_refusal, start_refusal};
ghost use Rattle.ttrpc_transport.specs.Listeners.{Listens};
ghost use Rattle.ttrpc_transport.specs.Opened.{IsOpenedAt};
ghost use Rattle.ttrpc_transport.specs.Sockets.{IsFault};
ghost use Rattle.ttrpc_transport.specs.declared.address.domain.Domain.{Domain as ADomain};

use crate::accept::{StopSignal, next_connection};
use crate::connection::{SharedHandler, SharedWatch, WatchedHandlers};
use crate::connections::Connections;
use crate::hook::SharedHook;
use crate::service::{ConnectionConfig, serve};
use crate::settings::Settings;
use crate::stopper::Stopper;
use std::alloc::Global;
use std::collections::BTreeMap;
use std::marker::Model;
use std::net::{Net, SocketAddr, TcpListener, TcpStream};
use std::rt::Files;
use std::sync::Arc;
use std::thread::{Builder, JoinHandle, Threads};
use std::time::Duration;
use ttrpc_proto::{Error, Result};
use ttrpc_secure::{NoHook, SendInbound, SendOutbound};
use ttrpc_server::Methods;
use ttrpc_sync::{Host, Runtime};
use ttrpc_transport::{NoWatch, PipeConnection, PipeListener};

/// A server with threads. Contracts see it as the parts it was built with: its settings, its listener, its handlers, its hook and its
/// watch. After it has started it serves the methods that are registered, at one address.
#[derive(Drop)]
pub struct Server<R: Host, H: Drop, A: Drop, W: Drop = NoWatch> {
    rt: R,
    settings: Settings,
    listener: Option<Arc<PipeListener, Global>>,
    methods: Arc<Methods<H>, Global>,
    hook: Arc<A, Global>,
    watch: Arc<W, Global>,
    connections: Arc<Connections, Global>,
    stop: Arc<StopSignal, Global>,
    listening: Option<JoinHandle<()>>,
}

impl<R: Host, H: Drop, A: Drop, W: Drop> Model for Server<R, H, A, W> {
    ghost use Rattle.std.specs.Arc.{arc_value};
    ghost use Rattle.std.specs.Prelude.{◌≡◌, ◌↔◌, IsSome, option_map, true};
    ghost use Rattle.ttrpc_sync_server.specs.Built.{Built};

    ghost Value = { Built H A W };

    ghost view = { λ server. record {
      settings = server.settings;
      listener = option_map arc_value server.listener;
      handlers = arc_value server.methods;
      hook = arc_value server.hook;
      watch = arc_value server.watch;
    } };

    // The server has a listener exactly if it is bound, and a thread that accepts connections exactly if it listens.
    ghost invariant = { λ server. (IsSome server.listener ↔ (server.settings.is_bound ≡ true))
        × (IsSome server.listening ↔ (server.settings.is_listening ≡ true)) };
}

impl<R: Host, H: Drop> Server<R, H, NoHook, NoWatch> {
    /// Makes a server without services and without an address.
    pub fn new(rt: R) -> Result<Server<R, H, NoHook, NoWatch>>
        ensures new { IfOk result IsNewServer }
        ensures err { IfErr result (λ e. e ≡ NoMemory) }
    {
        let alloc = rt.alloc();
        Ok(Server {
            settings: Settings::new(),
            listener: None,
            methods: Arc::new(alloc, Methods::new(alloc))?,
            hook: Arc::new(alloc, NoHook {})?,
            watch: Arc::new(alloc, NoWatch {})?,
            connections: Arc::new(alloc, Connections::new(alloc))?,
            stop: Arc::new(alloc, StopSignal::new())?,
            listening: None,
            rt,
        })
    }
}

impl<R: Host, H: Drop, A: Drop, W: Drop> Server<R, H, A, W> {
    /// Returns the server's settings.
    pub fn settings(&self) -> &Settings
        ensures { result.now ≡ self.now.settings }
    {
        &self.settings
    }

    /// Binds the server to an address, `unix://PATH` or `tcp://IP:PORT`. With `nodelay`, each write by TCP goes out at once. Refuses a
    /// second address. The error is `Others` if the address names no place, and `Nix` if the system reports a fault.
    pub fn bind(self, sockaddr: &str, nodelay: bool) -> Result<Server<R, H, A, W>>
    where
        R: Files + Net<Listener = TcpListener, Stream = TcpStream>,
        ensures ok { IfOk result
            (λ server. (listener : Listens) × IsOpenedAt sockaddr.now listener.domain
            × (listener.nodelay ≡ nodelay) × (server ≡ bound self listener)) }
        ensures refused { Refuses (bind_refusal self.settings) (IsNotBound sockaddr.now) result }
    {
        self.settings.check_bind(self.rt.alloc())?;
        let listener = PipeListener::new(&self.rt, self.rt.alloc(), sockaddr, nodelay)?;
        self.add_listener(listener)
    }

    /// Sets the listener by which the server accepts connections. Refuses a second one.
    pub fn add_listener(mut self, listener: PipeListener) -> Result<Server<R, H, A, W>>
        ensures ok { IfOk result (λ server. server ≡ bound self listener) }
        ensures refused { Refuses (bind_refusal self.settings) (λ e. e ≡ NoMemory) result }
    {
        let alloc = self.rt.alloc();
        self.settings.check_bind(alloc)?;
        self.listener = Some(Arc::new(alloc, listener)?);
        self.settings.is_bound = true;
        Ok(self)
    }

    /// Returns the server's address by TCP, and `None` if it is bound to a path or has no address. A fault of the system is `Nix`.
    pub fn local_addr(&self) -> Result<Option<SocketAddr>>
        ensures ok { IfOk result
            (λ address. IsSome address ↔ (domain_of self.now ≡ Some ADomain.Tcp)) }
        ensures err { IfErr result IsFault }
    {
        match &self.listener {
            Some(listener) => listener.local_addr(),
            None => Ok(None),
        }
    }

    /// Adds these methods to the server, each under its path, `/SERVICE/METHOD`. Refuses a text that is no path, as `Methods::add` does.
    /// After the server has started its services are fixed, and more are refused.
    pub fn register_service(mut self, methods: BTreeMap<String, H>) -> Result<Server<R, H, A, W>>
        ensures ok { IfOk result (Registers self methods.entries) }
        ensures refused { Refuses (register_refusal self.settings)
            (IsNotRegistered methods.entries) result }
    {
        let alloc = self.rt.alloc();
        self.settings.check_register(alloc)?;
        // No other owner shares the methods before the first start.
        let Some(open) = Arc::get_mut(&mut self.methods) else {
            return Err(Error::NoMemory);
        };
        open.add_all(alloc, methods)?;
        Ok(self)
    }

    /// Sets how many workers a connection starts with, and is filled up to. The default is 3.
    pub fn set_thread_count_default(mut self, count: usize) -> Server<R, H, A, W>
        ensures { result
            ≡ record self { settings = record self.settings { thread_count_default = count } } }
    {
        self.settings.thread_count_default = count;
        self
    }

    /// Sets the number of waiting workers below which a connection is filled up. The default is 1.
    pub fn set_thread_count_min(mut self, count: usize) -> Server<R, H, A, W>
        ensures { result
            ≡ record self { settings = record self.settings { thread_count_min = count } } }
    {
        self.settings.thread_count_min = count;
        self
    }

    /// Sets how many workers of a connection may wait for a job. The default is 5.
    pub fn set_thread_count_max(mut self, count: usize) -> Server<R, H, A, W>
        ensures { result
            ≡ record self { settings = record self.settings { thread_count_max = count } } }
    {
        self.settings.thread_count_max = count;
        self
    }

    /// Sets how long the server waits before it accepts again, after the system gave no connection. The default is 10 seconds.
    pub fn set_accept_retry_interval(mut self, interval: Duration) -> Server<R, H, A, W>
        ensures { result
            ≡ record self { settings = record self.settings { accept_retry_interval = interval } } }
    {
        self.settings.accept_retry_interval = interval;
        self
    }

    /// Sets how many jobs of a connection may wait to be begun. While more wait, the connection isn't read. `None` sets no limit.
    pub fn set_waiting_jobs(mut self, count: Option<u64>) -> Server<R, H, A, W>
        ensures { result
            ≡ record self { settings = record self.settings { waiting_jobs = count } } }
    {
        self.settings.waiting_jobs = count;
        self
    }

    /// Sets how many bytes of jobs may wait to be begun. While more wait, their connection isn't read. The bytes are those of the frames
    /// that came since no job waited, less the frames of the jobs that have begun since. `None` sets no limit.
    pub fn set_waiting_bytes(mut self, count: Option<u64>) -> Server<R, H, A, W>
        ensures { result
            ≡ record self { settings = record self.settings { waiting_bytes = count } } }
    {
        self.settings.waiting_bytes = count;
        self
    }

    /// Sets for how long a peer may pause inside a frame. Its connection fails after the limit, a quarter of it later at most. `None`
    /// sets no limit.
    pub fn set_frame_limit(mut self, limit: Option<Duration>) -> Server<R, H, A, W>
        ensures { result ≡ record self { settings = record self.settings { frame_limit = limit } } }
    {
        self.settings.frame_limit = limit;
        self
    }

    /// Sets for how long a connection that ends stays open after its last answer, if its peer doesn't read. `None` waits until the peer
    /// has read all.
    pub fn set_close_limit(mut self, limit: Option<Duration>) -> Server<R, H, A, W>
        ensures { result ≡ record self { settings = record self.settings { close_limit = limit } } }
    {
        self.settings.close_limit = limit;
        self
    }

    /// Sets a hook that looks at each connection first. If the hook returns after more than 30 seconds, it is too late, and the connection
    /// is closed. A hook that never returns holds its connection, and `disconnect`, forever.
    pub fn set_accept_hook<B: Drop>(self, hook: B) -> Result<Server<R, H, B, W>>
        ensures ok { IfOk result (λ server. server
            ≡ record { settings = self.settings; listener = self.listener; handlers = self.handlers; hook = hook; watch = self.watch }) }
        ensures err { IfErr result (λ e. e ≡ NoMemory) }
    {
        let Server {
            rt,
            settings,
            listener,
            methods,
            hook: _,
            watch,
            connections,
            stop,
            listening,
        } = self;
        Ok(Server {
            hook: Arc::new(rt.alloc(), hook)?,
            rt,
            settings,
            listener,
            methods,
            watch,
            connections,
            stop,
            listening,
        })
    }

    /// Sets the watch that learns of faults that callers can't see. It watches the connections that are accepted from the next start on.
    pub fn set_watch<B: Drop>(self, watch: B) -> Result<Server<R, H, A, B>>
        ensures ok { IfOk result (λ server. server
            ≡ record { settings = self.settings; listener = self.listener; handlers = self.handlers; hook = self.hook; watch = watch }) }
        ensures err { IfErr result (λ e. e ≡ NoMemory) }
    {
        let Server {
            rt,
            settings,
            listener,
            methods,
            hook,
            watch: _,
            connections,
            stop,
            listening,
        } = self;
        Ok(Server {
            watch: Arc::new(rt.alloc(), watch)?,
            rt,
            settings,
            listener,
            methods,
            hook,
            connections,
            stop,
            listening,
        })
    }

    /// Returns how many connections the server has open.
    pub fn connection_count(&self) -> usize {
        self.connections.count(&self.rt)
    }

    /// Waits until a `Stopper` of this server has asked. A program that serves until then shuts the server down afterwards.
    pub fn wait(&self) {
        self.stop.wait_to_shut_down(&self.rt);
    }

    /// Makes a `Stopper` that ends the server's `wait`, for another thread or a handler.
    pub fn stopper(&self) -> Result<Stopper<R>>
        ensures err { IfErr result (λ e. e ≡ NoMemory) }
    {
        Stopper::new(&self.rt, &self.stop)
    }

    /// Makes the service for each connection, of all parts that the server was built with.
    fn service(&self) -> Result<ConnectionConfig<H, A, W>>
        // the server's settings, its handlers, its hook and its watch
        ensures settings { IfOk result (λ service. service.settings ≡ self.now.settings) }
        ensures handlers { IfOk result
            (λ service. arc_value service.serving.methods ≡ self.now.handlers) }
        ensures hook { IfOk result (λ service. arc_value service.hook ≡ self.now.hook) }
        ensures watch { IfOk result (λ service. arc_value service.serving.watch ≡ self.now.watch) }
        // An error means that memory was refused.
        ensures err { IfErr result (λ e. e ≡ NoMemory) }
    {
        let serving = WatchedHandlers {
            methods: Arc::try_clone(&self.methods)?,
            watch: Arc::try_clone(&self.watch)?,
        };
        Ok(ConnectionConfig {
            serving,
            hook: Arc::try_clone(&self.hook)?,
            connections: Arc::try_clone(&self.connections)?,
            stop: Arc::try_clone(&self.stop)?,
            settings: self.settings,
        })
    }
}

impl<R: Host + Threads, H: Drop, A: Drop, W: Drop> Server<R, H, A, W> {
    /// Stops accepting connections, and goes on serving open ones. The server then has no address. If it doesn't listen, nothing happens.
    pub fn stop_listen(mut self) -> Server<R, H, A, W>
        ensures { result ≡ stopped self }
    {
        let Some(thread) = self.listening.take() else {
            return self;
        };
        self.stop.ask(&self.rt);
        if let Some(listener) = self.listener.take() {
            let _ = listener.close();
        }
        thread.join(&self.rt);
        self.settings.is_listening = false;
        self.settings.is_bound = false;
        self
    }

    /// Ends all connections: reads no more requests, answers the requests that were read, and then closes each connection. A peer that
    /// doesn't read its answers delays this by the close limit at most. Waits for the threads that serve the connections, and so for
    /// their handlers and hooks: one that never returns holds the server for ever. A server that listens stops listening first.
    pub fn disconnect(self) {
        let server = self.stop_listen();
        server.connections.finish_all(&server.rt);
    }

    /// Stops listening, and ends all connections as `disconnect` does.
    pub fn shutdown(self) {
        self.stop_listen().disconnect();
    }
}

impl<R, O, I, H, A, W> Server<R, H, A, W>
where
    R: Runtime,
    O: SendOutbound,
    I: SendInbound,
    A: SharedHook<Outbound = O, Inbound = I>,
    H: SharedHandler<R, O, I>,
    W: SharedWatch,
{
    /// Begins to listen, if the counts of workers are in order: the default must be below the greatest and above the least. From here on
    /// the services are fixed.
    pub fn start(&mut self) -> Result<()>
        ensures ok { OnOk result (self.new ≡ started self.old) }
        ensures refused { Refuses (start_refusal self.old.settings) IsNotStarted result }
        ensures err { OnErr result (self.new ≡ self.old) }
    {
        self.settings.check_start(self.rt.alloc())?;
        self.start_listen()
    }

    /// Begins to listen. Refused if the server has no address, or listens already. From here on the services are fixed.
    pub fn start_listen(&mut self) -> Result<()>
        ensures ok { OnOk result (self.new ≡ started self.old) }
        ensures refused { Refuses (listen_refusal self.old.settings) IsNotStarted result }
        ensures err { OnErr result (self.new ≡ self.old) }
    {
        let alloc = self.rt.alloc();
        self.settings.check_listen(alloc)?;
        let Some(bound) = &self.listener else {
            unreachable!();
        };
        let listener = Arc::try_clone(bound)?;
        let service = Arc::new(alloc, self.service()?)?;
        self.stop.begin(&self.rt);
        self.listening = Some(start_thread(&self.rt, listener, service)?);
        self.settings.is_listening = true;
        self.settings.is_fixed = true;
        Ok(())
    }
}

/// Starts the thread that accepts connections.
fn start_thread<R, O, I, H, A, W>(
    rt: &R,
    listener: Arc<PipeListener, Global>,
    service: Arc<ConnectionConfig<H, A, W>, Global>,
) -> Result<JoinHandle<()>>
where
    R: Runtime,
    O: SendOutbound,
    I: SendInbound,
    A: SharedHook<Outbound = O, Inbound = I>,
    H: SharedHandler<R, O, I>,
    W: SharedWatch,
    ensures { IfErr result IsNotStarted }
{
    let mine = rt.clone()?;
    match Builder::new().spawn(rt, move || listen(&mine, &listener, &service)) {
        Ok(thread) => Ok(thread),
        Err(error) => Err(Error::Nix(error.kind())),
    }
}

/// Serves each accepted connection, until the server is to listen no more.
fn listen<R, O, I, H, A, W>(
    rt: &R,
    listener: &Arc<PipeListener, Global>,
    service: &Arc<ConnectionConfig<H, A, W>, Global>,
)
where
    R: Runtime,
    O: SendOutbound,
    I: SendInbound,
    A: SharedHook<Outbound = O, Inbound = I>,
    H: SharedHandler<R, O, I>,
    W: SharedWatch,
{
    let interval = service.settings.accept_retry_interval;
    for _ in rt.forever() {
        let watch = &*service.serving.watch;
        let next = next_connection(rt, &**listener, &*service.stop, watch, interval);
        let Some(stream) = next else {
            return;
        };
        // If there is no memory or no thread for a connection, it is closed.
        if let Err(error) = serve(rt, service, stream) {
            watch.connection_dropped(&error);
        }
    }
    unreachable!()
}
