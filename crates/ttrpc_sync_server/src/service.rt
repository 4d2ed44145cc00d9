//! The parts of a server that each connection uses.
ghost use Rattle.std.specs.Prelude.{◌≡◌, IfErr, IfOk, false};
ghost use Rattle.std.specs.Arc.{arc_value};
ghost use Rattle.ttrpc_proto.specs.declared.error.Error.TheVariants.{NoMemory};
ghost use Rattle.ttrpc_sync_server.specs.Accepting.{IsCoreFor};
ghost use Rattle.ttrpc_sync_server.specs.Built.{IsNotStarted};

use crate::accept::StopSignal;
use crate::connection::{
    Backlog, Conn, ServerLock, SharedHandler, SharedWatch, ThreadCount, WatchedHandlers,
    run_connection,
};
use crate::connections::{Connections, OpenConnection};
use crate::hook::SharedHook;
use crate::settings::Settings;
use std::alloc::Global;
use std::sync::Arc;
use std::thread::Builder;
use std::time::Clock;
use ttrpc_proto::error::causes::others_of;
use ttrpc_proto::{Error, Result};
use ttrpc_secure::{
    ConnectionContext, HookOutput, InboundTransform, OutboundTransform, SendInbound, SendOutbound,
    admit,
};
use ttrpc_server::{Methods, Rules, ServerCore};
use ttrpc_sync::{Host, Link, PoolCore, Runtime};
use ttrpc_transport::{PipeConnection, Watch};

/// The parts of a server that each connection uses.
#[derive(Drop)]
pub struct ConnectionConfig<H: Drop, A: Drop, W: Drop> {
    pub serving: WatchedHandlers<H, W>,
    pub hook: Arc<A, Global>,
    pub connections: Arc<Connections, Global>,
    pub stop: Arc<StopSignal, Global>,
    pub settings: Settings,
}

impl<H: Drop, A: Drop, W: Drop> ConnectionConfig<H, A, W> {
    /// Removes the connection of this number after it has ended. Its descriptor is free then.
    fn remove<R: Host>(&self, rt: &R, number: u64) {
        self.connections.remove(rt, number);
        self.stop.note_end(rt);
    }
}

/// A connection to be served, under its number.
#[derive(Drop)]
struct Numbered {
    number: u64,
    stream: Arc<PipeConnection, Global>,
    thread_count: Arc<ThreadCount, Global>,
}

/// Serves this connection, in threads of its own.
pub fn serve<R, O, I, H, A, W>(
    rt: &R,
    service: &Arc<ConnectionConfig<H, A, W>, Global>,
    stream: PipeConnection,
) -> Result<()>
where
    R: Runtime,
    O: SendOutbound,
    I: SendInbound,
    A: SharedHook<Outbound = O, Inbound = I>,
    H: SharedHandler<R, O, I>,
    W: SharedWatch,
    ensures { IfErr result IsNotStarted }
{
    let (mine, theirs) = (rt.clone()?, Arc::try_clone(service)?);
    let numbered = add(rt, &*service.connections, stream)?;
    let number = numbered.number;
    match Builder::new().spawn(rt, move || serve_connection(&mine, &theirs, numbered)) {
        Ok(_) => Ok(()),
        Err(error) => {
            service.remove(rt, number);
            Err(Error::Nix(error.kind()))
        }
    }
}

/// Adds this connection, which has no threads yet, to the open connections.
fn add<R: Host>(rt: &R, connections: &Connections, stream: PipeConnection) -> Result<Numbered>
    ensures { IfErr result (λ e. e ≡ NoMemory) }
{
    let alloc = rt.alloc();
    let stream = Arc::new(alloc, stream)?;
    let thread_count = Arc::new(alloc, ThreadCount::new())?;
    let open = OpenConnection {
        stream: Arc::try_clone(&stream)?,
        thread_count: Arc::try_clone(&thread_count)?,
    };
    Ok(Numbered {
        number: connections.add(rt, open)?,
        stream,
        thread_count,
    })
}

/// Serves this connection until it has ended.
fn serve_connection<R, O, I, H, A, W>(
    rt: &R,
    service: &Arc<ConnectionConfig<H, A, W>, Global>,
    numbered: Numbered,
)
where
    R: Runtime,
    O: SendOutbound,
    I: SendInbound,
    A: SharedHook<Outbound = O, Inbound = I>,
    H: SharedHandler<R, O, I>,
    W: SharedWatch,
{
    let Numbered {
        number,
        stream,
        thread_count,
    } = numbered;
    admit_and_serve(rt, service, &stream, thread_count);
    let _ = stream.close();
    drop(stream);
    service.remove(rt, number);
}

/// Serves this connection if the hook accepts it and memory is found.
fn admit_and_serve<R, O, I, H, A, W>(
    rt: &R,
    service: &Arc<ConnectionConfig<H, A, W>, Global>,
    stream: &Arc<PipeConnection, Global>,
    thread_count: Arc<ThreadCount, Global>,
)
where
    R: Runtime,
    O: SendOutbound,
    I: SendInbound,
    A: SharedHook<Outbound = O, Inbound = I>,
    H: SharedHandler<R, O, I>,
    W: SharedWatch,
{
    let alloc = rt.alloc();
    let serving = &service.serving;
    let output = match admit(|| rt.monotonic(), alloc, &*service.hook, &**stream) {
        Ok(output) => output,
        Err(error) => {
            let told = others_of(alloc, "accept hook failed: ", &error);
            serving.watch.hook_refused(&told);
            return;
        }
    };
    match open(rt, service, stream, thread_count, output) {
        Ok(conn) => run_connection(&conn, serving, &service.settings),
        Err(error) => serving.watch.connection_dropped(&error),
    }
}

/// Opens a connection that its hook accepted, with the hook's output.
fn open<R, O, I, H, A, W>(
    rt: &R,
    service: &ConnectionConfig<H, A, W>,
    stream: &Arc<PipeConnection, Global>,
    thread_count: Arc<ThreadCount, Global>,
    output: HookOutput<O, I>,
) -> Result<Arc<Conn<R, O, I>, Global>>
where
    R: Host,
    O: OutboundTransform + Drop,
    I: InboundTransform + Drop,
    H: Drop,
    A: Drop,
    W: Drop,
    ensures known { IfOk result (λ conn. (arc_value conn).known ≡ output.connection_data) }
    ensures err { IfErr result (λ e. e ≡ NoMemory) }
{
    let alloc = rt.alloc();
    let HookOutput {
        connection_data,
        outbound,
        inbound,
    } = output;
    let core = core_of(alloc, &service.serving.methods, outbound, inbound)?;
    let settings = &service.settings;
    let shared = ServerLock::new(core, pool_of(settings), backlog_of(settings));
    let link = Link::new(alloc, shared, Arc::try_clone(stream)?)?;
    let conn = Conn::new(rt.clone()?, link, connection_data, thread_count)?;
    Ok(Arc::new(alloc, conn)?)
}

/// Makes the core of a connection that is served by these methods, with these halves for its bytes. The connection's data lies beside the
/// lock, and not in the core.
fn core_of<H, O, I>(
    alloc: Global,
    methods: &Methods<H>,
    outbound: O,
    inbound: I,
) -> Result<ServerCore<O, I>>
where
    H: Drop,
    O: OutboundTransform + Drop,
    I: InboundTransform + Drop,
    ensures ok { IfOk result (IsCoreFor methods.now outbound inbound) }
    ensures err { IfErr result (λ e. e ≡ NoMemory) }
{
    let registry = methods.registry(alloc)?;
    let context = ConnectionContext::of_halves(alloc, outbound, inbound);
    let core = ServerCore::new(alloc, Rules::Sync, registry, context)?;
    Ok(core)
}

/// Makes the backlog of a new connection, with the server's two limits.
fn backlog_of(settings: &Settings) -> Backlog
    ensures { result ≡ record {
      max_jobs = settings.now.waiting_jobs;
      max_bytes = settings.now.waiting_bytes;
      bytes = 0;
      pieces = 0;
      reader_waits = false;
    } }
{
    Backlog::new(settings.waiting_jobs, settings.waiting_bytes)
}

/// Makes the pool of a connection's workers, with the server's three counts. None of them waits yet.
fn pool_of(settings: &Settings) -> PoolCore
    ensures { result ≡ record {
      default = settings.now.thread_count_default;
      min = settings.now.thread_count_min;
      max = settings.now.thread_count_max;
      waiting = 0;
    } }
{
    PoolCore::new(
        settings.thread_count_default,
        settings.thread_count_min,
        settings.thread_count_max,
    )
}
