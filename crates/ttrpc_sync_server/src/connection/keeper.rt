//! The threads of one connection, from its first to its last.
use crate::connection::conn::Conn;
use crate::connection::context::MethodHandler;
use crate::connection::pause::Pause;
use crate::connection::reader::read;
use crate::connection::serving::WatchedHandlers;
use crate::connection::shared::SharedHandler;
use crate::connection::thread_count::{Order, ThreadCount};
use crate::connection::watch::SharedWatch;
use crate::connection::worker::work;
use crate::settings::Settings;
use std::alloc::Global;
use std::io;
use std::sync::Arc;
use std::thread::Builder;
use std::time::Duration;
use ttrpc_proto::{Error, Result};
use ttrpc_secure::{InboundTransform, OutboundTransform, SendInbound, SendOutbound};
use ttrpc_sync::{ConnectionLock, Host, Runtime, lock_soon, moment};
use ttrpc_transport::Watch;

/// The number of threads that read a connection in turn.
const READERS: u32 = 2;

/// The frame limit below which the keeper looks no more often, in milliseconds.
const SHORTEST_LIMIT: u64 = 4;

/// Serves the connection until it ends: starts its readers, its writer and its first workers, starts more workers when too few wait, and
/// then waits until all threads have ended.
/// When the server ends its connections, this one takes no more requests. It closes after the answers to the requests that came have left,
/// or when the server's close limit has passed since the last answer. If the peer pauses inside a frame for longer than the server's frame
/// limit, the connection fails.
pub fn run_connection<R, O, I, H, W>(
    conn: &Arc<Conn<R, O, I>, Global>,
    serving: &WatchedHandlers<H, W>,
    settings: &Settings,
)
where
    R: Runtime,
    O: SendOutbound,
    I: SendInbound,
    H: SharedHandler<R, O, I>,
    W: SharedWatch,
{
    let rt = conn.rt();
    if let Err(error) = start_all(conn, serving, settings.thread_count_default) {
        serving.watch.connection_dropped(&error);
        conn.end();
    }
    let mut pause = Pause::new();
    for _ in rt.forever() {
        match conn
            .thread_count()
            .next_order(rt, rest_between_looks(settings))
        {
            Order::Fill => fill(conn, serving),
            Order::Drain => conn.drain(),
            Order::Flush => {
                conn.thread_count().wait_for_end(rt, settings.close_limit);
                break;
            }
            Order::Look => {}
            Order::End => break,
        }
        if pauses_too_long(&**conn, &mut pause, settings.frame_limit) {
            break;
        }
    }
    conn.end();
    conn.thread_count().wait_for_all(rt);
}

/// Returns how long the keeper waits between two looks, if the peer's pauses are limited: a quarter of the limit.
fn rest_between_looks(settings: &Settings) -> Option<Duration> {
    let limit = settings.frame_limit?;
    Some(limit.max(Duration::from_millis(SHORTEST_LIMIT)) / 4)
}

/// Returns whether the peer has paused inside a frame for longer than it may.
fn pauses_too_long<R, O, I>(
    conn: &Conn<R, O, I>,
    pause: &mut Pause,
    limit: Option<Duration>,
) -> bool
where
    R: Host,
    O: OutboundTransform + Drop,
    I: InboundTransform + Drop,
{
    let Some(limit) = limit else {
        return false;
    };
    let Ok(now) = moment(conn.rt()) else {
        return false;
    };
    let held = conn.link().shared().held();
    let pieces = lock_soon(conn.rt(), held).pieces_inside_frame();
    u128::from(pause.look(now, pieces)) > limit.as_nanos()
}

/// Starts the missing workers. If the system has no more threads, the present workers go on.
fn fill<R, O, I, H, W>(conn: &Arc<Conn<R, O, I>, Global>, serving: &WatchedHandlers<H, W>)
where
    R: Runtime,
    O: SendOutbound,
    I: SendInbound,
    H: SharedHandler<R, O, I>,
    W: SharedWatch,
{
    let missing = conn.link().shared().held().lock(conn.rt()).to_start();
    if let Err(error) = start_workers(conn, serving, missing) {
        serving.watch.worker_missing(&error);
    }
}

/// The parts that a thread of a connection holds: the connection, and the count of threads, which has the thread until it has released the connection.
#[derive(Drop)]
struct ThreadShare<R: Host, O: OutboundTransform + Drop, I: InboundTransform + Drop> {
    conn: Arc<Conn<R, O, I>, Global>,
    thread_count: Arc<ThreadCount, Global>,
    rt: R,
}

impl<R: Host, O: OutboundTransform + Drop, I: InboundTransform + Drop> ThreadShare<R, O, I> {
    fn new(conn: &Arc<Conn<R, O, I>, Global>) -> Result<ThreadShare<R, O, I>> {
        Ok(ThreadShare {
            conn: Arc::try_clone(conn)?,
            thread_count: Arc::try_clone(conn.thread_count())?,
            rt: conn.rt().clone()?,
        })
    }

    // Reports that the thread has done its work, after it has released the connection. So the descriptor is free once all threads have
    // left.
    fn leave(self) {
        let ThreadShare {
            conn,
            thread_count,
            rt,
        } = self;
        drop(conn);
        thread_count.leaves(&rt);
    }
}

fn start_all<R, O, I, H, W>(
    conn: &Arc<Conn<R, O, I>, Global>,
    serving: &WatchedHandlers<H, W>,
    workers: usize,
) -> Result<()>
where
    R: Runtime,
    O: SendOutbound,
    I: SendInbound,
    H: SharedHandler<R, O, I>,
    W: SharedWatch,
{
    for reader in 0..READERS {
        start_reader(conn, serving, reader)?;
    }
    start_writer(conn)?;
    start_workers(conn, serving, workers)
}

/// Passes on the result of a start, and counts the thread out if the start failed.
fn check_spawned<R, O, I, T>(conn: &Conn<R, O, I>, thread: io::Result<T>) -> Result<()>
where
    R: Host,
    O: OutboundTransform + Drop,
    I: InboundTransform + Drop,
    T: Drop,
{
    match thread {
        Ok(_) => Ok(()),
        Err(error) => {
            conn.thread_count().leaves(conn.rt());
            Err(Error::Nix(error.kind()))
        }
    }
}

fn start_reader<R, O, I, H, W>(
    conn: &Arc<Conn<R, O, I>, Global>,
    serving: &WatchedHandlers<H, W>,
    reader: u32,
) -> Result<()>
where
    R: Runtime,
    O: SendOutbound,
    I: SendInbound,
    H: SharedHandler<R, O, I>,
    W: SharedWatch,
{
    let thread_share = ThreadShare::new(conn)?;
    let serving = serving.try_clone()?;
    conn.thread_count().joins(conn.rt());
    check_spawned(
        &**conn,
        Builder::new().spawn(conn.rt(), move || {
            run_reader(&thread_share.conn, &serving, reader);
            drop(serving);
            thread_share.leave();
        }),
    )
}

fn start_writer<R, O, I>(conn: &Arc<Conn<R, O, I>, Global>) -> Result<()>
where
    R: Runtime,
    O: SendOutbound,
    I: SendInbound,
{
    let thread_share = ThreadShare::new(conn)?;
    conn.thread_count().joins(conn.rt());
    check_spawned(
        &**conn,
        Builder::new().spawn(conn.rt(), move || {
            write(&*thread_share.conn);
            thread_share.leave();
        }),
    )
}

/// Starts `count` workers, or as many as can be started.
fn start_workers<R, O, I, H, W>(
    conn: &Arc<Conn<R, O, I>, Global>,
    serving: &WatchedHandlers<H, W>,
    count: usize,
) -> Result<()>
where
    R: Runtime,
    O: SendOutbound,
    I: SendInbound,
    H: SharedHandler<R, O, I>,
    W: SharedWatch,
{
    let shared = conn.link().shared();
    shared.held().lock(conn.rt()).add_starting(count);
    for begun in 0..count {
        let worker = start_worker(conn, serving);
        if worker.is_err() {
            shared.held().lock(conn.rt()).remove_starting(count - begun);
            return worker;
        }
    }
    Ok(())
}

fn start_worker<R, O, I, H, W>(
    conn: &Arc<Conn<R, O, I>, Global>,
    serving: &WatchedHandlers<H, W>,
) -> Result<()>
where
    R: Runtime,
    O: SendOutbound,
    I: SendInbound,
    H: SharedHandler<R, O, I>,
    W: SharedWatch,
{
    let thread_share = ThreadShare::new(conn)?;
    let serving = serving.try_clone()?;
    conn.thread_count().joins(conn.rt());
    check_spawned(
        &**conn,
        Builder::new().spawn(conn.rt(), move || {
            work_on(&thread_share.conn, &serving);
            drop(serving);
            thread_share.leave();
        }),
    )
}

fn run_reader<R, O, I, H, W>(
    conn: &Arc<Conn<R, O, I>, Global>,
    serving: &WatchedHandlers<H, W>,
    reader: u32,
)
where
    R: Host,
    O: OutboundTransform + Drop,
    I: InboundTransform + Drop,
    H: MethodHandler<R, O, I> + Drop,
    W: Watch + Drop,
{
    read(conn, serving, reader);
    conn.cancel();
    conn.look();
}

fn write<R, O, I>(conn: &Conn<R, O, I>)
where
    R: Host,
    O: OutboundTransform + Drop,
    I: InboundTransform + Drop,
{
    let rt = conn.rt();
    // The writer ends by itself only once the connection has failed.
    let _ = conn.link().write(rt, rt.alloc());
    conn.end();
}

fn work_on<R, O, I, H, W>(conn: &Arc<Conn<R, O, I>, Global>, serving: &WatchedHandlers<H, W>)
where
    R: Host,
    O: OutboundTransform + Drop,
    I: InboundTransform + Drop,
    H: MethodHandler<R, O, I> + Drop,
    W: Watch + Drop,
{
    work(conn, serving);
    conn.look();
}
