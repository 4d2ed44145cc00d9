//! A hook that answers at its time limit, of a polled server and of one with threads.
use crate::tests::peers::{SERVED, calls, hears_end};
use crate::tests::polled::{Served, server_of};
use futures::StreamExt;
use std::alloc::{AllocError, Global};
use std::collections::BTreeMap;
use std::io;
use std::net::{SocketAddr, TcpListener, TcpStream};
use std::sync::atomic::{AtomicU64, Ordering};
use std::sync::{Arc, Wait};
use std::test::Fail;
use std::thread::{Builder, Threads};
use std::time::{Clock, Duration};
use tokio::runtime::LocalRuntime;
use ttrpc_bench::checks::check_named;
use ttrpc_echo::EchoHandler;
use ttrpc_polled_echo::{ChatSystem, nix};
use ttrpc_polled_server::Watch;
use ttrpc_proto::{Error, Result};
use ttrpc_secure::{AcceptHook, HookError, HookOutput, Plain};
use ttrpc_sync::Runtime;
use ttrpc_sync_server::Server as ThreadedServer;
use ttrpc_transport::PipeListener;

/// A clock that a test advances.
#[derive(Drop)]
struct Shifted<C> {
    clock: C,
    nanoseconds: Arc<AtomicU64, Global>,
}

impl<C: Clock> Clock for Shifted<C> {
    fn monotonic(&self) -> io::Result<Duration> {
        let shift = Duration::from_nanos(self.nanoseconds.load(Ordering::SeqCst));
        Ok(self.clock.monotonic()?.saturating_add(shift))
    }

    fn since_1970(&self) -> io::Result<Duration> {
        self.clock.since_1970()
    }
}

impl<C: Clone> Clone for Shifted<C> {
    fn clone(&self) -> std::result::Result<Shifted<C>, AllocError> {
        Ok(Shifted {
            clock: self.clock.clone()?,
            nanoseconds: Arc::try_clone(&self.nanoseconds)?,
        })
    }
}

impl<C: Wait> Wait for Shifted<C> {}

impl<C: Threads> Threads for Shifted<C> {}

/// A hook that takes 30 seconds for the first connection.
#[derive(Drop)]
struct Slow {
    nanoseconds: Arc<AtomicU64, Global>,
    asked: AtomicU64,
}

impl<S> AcceptHook<S> for Slow {
    ghost use Rattle.std.specs.Prelude.{⊤};

    type Outbound = Plain;

    type Inbound = Plain;

    ghost gives = { λ _ _ _. ⊤ };

    fn on_accept(
        &self,
        alloc: Global,
        _stream: &S,
    ) -> std::result::Result<HookOutput<Plain, Plain>, HookError> {
        if self.asked.fetch_add(1, Ordering::SeqCst) == 0 {
            self.nanoseconds.fetch_add(30_000_000_000, Ordering::SeqCst);
        }
        Ok(HookOutput::of_halves(alloc, Plain {}, Plain {}))
    }
}

/// A watch that counts the refusals of hooks.
#[derive(Drop)]
struct Refusals {
    count: Arc<AtomicU64, Global>,
}

impl Watch for Refusals {
    fn hook_refused(&self, error: &Error) {
        if let Error::Others(text) = error {
            if text.as_str().starts_with("accept hook failed: ") {
                self.count.fetch_add(1, Ordering::SeqCst);
            }
        }
    }
}

/// Returns a clock, and a hook that advances it.
fn make_shifted<R: Clock + Clone + AllocGlobal>(rt: &R) -> Result<(Shifted<R>, Slow)> {
    let nanoseconds = Arc::new(rt.alloc(), AtomicU64::new(0))?;
    let clock = Shifted {
        clock: rt.clone()?,
        nanoseconds: Arc::try_clone(&nanoseconds)?,
    };
    let hook = Slow {
        nanoseconds,
        asked: AtomicU64::new(0),
    };
    Ok((clock, hook))
}

/// Serves one connection with that hook, and counts its refusals.
fn serve_slowly<R: ChatSystem>(
    rt: &R,
    listener: TcpListener,
    count: Arc<AtomicU64, Global>,
) -> Result<()> {
    let mut runtime = nix(LocalRuntime::new(rt))?;
    let (clock, hook) = make_shifted(rt)?;
    let late = (clock, rt.alloc());
    let mut server = server_of(&late, runtime.handle(), listener)?
        .set_accept_hook(hook)?
        .set_watch(Refusals { count })?;
    let serving = server.start()?;
    nix(runtime.run_all(rt, serving.take(1)))
}

/// Starts that server at a free port.
fn start_slow<R: ChatSystem + Threads + Send + 'static>(
    rt: &R,
    count: Arc<AtomicU64, Global>,
) -> std::result::Result<Served, Fail> {
    let listener = TcpListener::bind(rt, "127.0.0.1:0")?;
    let address = listener.local_addr()?;
    let mine = rt.clone()?;
    let thread = Builder::new().spawn(rt, move || serve_slowly(&mine, listener, count))?;
    Ok(Served { address, thread })
}

// Should fail if each hook is late.
#[test]
fn a_hook_that_answers_at_its_limit_comes_too_late(
    rt: HostRuntime,
) -> std::result::Result<(), Fail> {
    let count = Arc::new(rt.alloc(), AtomicU64::new(0))?;
    let served = start_slow(&rt, Arc::try_clone(&count)?)?;
    let mut first = TcpStream::connect(&rt, served.address)?;
    assert!(rt; hears_end(&mut first)? && calls(&rt, served.address, SERVED)?);
    served.thread.join(&rt)?;
    check_named("its refusal isn't told", count.load(Ordering::SeqCst) == 1)
}

/// The system of the server with threads: that clock, and memory.
type Late<R> = (Shifted<R>, Global);

/// The server with threads and that hook, and its address.
type Threaded<R> = (
    ThreadedServer<Late<R>, EchoHandler, Slow, Refusals>,
    SocketAddr,
);

/// Starts a server with threads and that hook at a free port, and counts its refusals.
fn start_threaded<R: Runtime>(
    rt: &R,
    listener: TcpListener,
    count: Arc<AtomicU64, Global>,
) -> Result<Threaded<R>> {
    let alloc = rt.alloc();
    let address = nix(listener.local_addr())?;
    let (clock, hook) = make_shifted(rt)?;
    let mut methods = BTreeMap::new(alloc);
    methods.insert(String::from_str(alloc, "/demo.Echo/Echo")?, EchoHandler {})?;
    let mut server = ThreadedServer::new((clock, alloc))?
        .register_service(methods)?
        .set_accept_hook(hook)?
        .set_watch(Refusals { count })?
        .add_listener(PipeListener::from_tcp(listener)?)?;
    server.start()?;
    Ok((server, address))
}

#[test]
fn a_hook_of_a_server_with_threads_comes_too_late_at_its_limit(
    rt: HostRuntime,
) -> std::result::Result<(), Fail> {
    let count = Arc::new(rt.alloc(), AtomicU64::new(0))?;
    let listener = TcpListener::bind(&rt, "127.0.0.1:0")?;
    let (server, address) = start_threaded(&rt, listener, Arc::try_clone(&count)?)?;
    let mut first = TcpStream::connect(&rt, address)?;
    assert!(rt; hears_end(&mut first)? && calls(&rt, address, SERVED)?);
    server.shutdown();
    check_named("its refusal isn't told", count.load(Ordering::SeqCst) == 1)
}
