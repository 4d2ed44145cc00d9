//! Threads that wait, and are woken.

use crate::tests::pairs::{
    Pair, Site, a_while, address_of, clean_behind, connect, is_ended, join, listen, passes,
};
use std::alloc::Global;
use std::net::{Net, TcpListener, TcpStream};
use std::os::unix::net::UnixListener;
use std::rt::Files;
use std::test::Fail;
use std::thread::Threads;
use std::time::Clock;
use std::{fs, io, thread};
use ttrpc_bench::checks::{Tested, check};
use ttrpc_transport::{PipeConnection, PipeListener};

/// Returns whether a thread that reads gets the end after another thread closes the connection, or ends its reads.
fn reader_wakes<R>(rt: &R, reader: &PipeConnection, by_close: bool) -> Result<bool, Fail>
where
    R: Threads + Clock + Sync,
{
    let (read, ended) = thread::join(
        rt,
        || reader.read(&mut [0u8; 8]),
        || {
            thread::sleep(rt, a_while());
            if by_close {
                reader.close()
            } else {
                reader.shutdown()
            }
        },
    );
    ended?;
    Ok(read? == 0)
}

/// Closes all ends of the pair, even one that is closed.
fn close_all(pair: &Pair) -> Tested {
    pair.connection.close()?;
    pair.client.close()?;
    Ok(pair.accepted.close()?)
}

/// Returns whether a close wakes the thread that reads. Closing either end again does nothing.
fn close_wakes<R>(rt: &R, alloc: Global, site: Site) -> Result<bool, Fail>
where
    R: Files + Net<Listener = TcpListener, Stream = TcpStream> + Threads + Clock + Sync,
{
    let pair = connect(rt, alloc, site)?;
    let wakes = reader_wakes(rt, &pair.connection, true)? && is_ended(&pair.accepted)?;
    close_all(&pair)?;
    Ok(wakes)
}

#[test]
fn close_wakes_who_reads(rt: HostRuntime) -> Tested {
    let at_port = close_wakes(&rt, rt.alloc(), Site::Port)?;
    check(at_port && close_wakes(&rt, rt.alloc(), Site::Path("reads.sock"))?)
}

/// Returns whether an end of reads wakes the thread that reads, and the other side still gets the bytes that are
/// written.
fn shutdown_wakes<R>(rt: &R, alloc: Global, site: Site) -> Result<bool, Fail>
where
    R: Files + Net<Listener = TcpListener, Stream = TcpStream> + Threads + Clock + Sync,
{
    let pair = connect(rt, alloc, site)?;
    let wakes = reader_wakes(rt, &pair.connection, false)?;
    Ok(wakes && passes(&pair.connection, &pair.accepted, b"last")?)
}

#[test]
fn shutdown_ends_reads_alone(rt: HostRuntime) -> Tested {
    let at_port = shutdown_wakes(&rt, rt.alloc(), Site::Port)?;
    check(at_port && shutdown_wakes(&rt, rt.alloc(), Site::Path("shutdown.sock"))?)
}

fn has_none(listener: &PipeListener) -> io::Result<bool> {
    Ok(listener.accept()?.is_none())
}

/// Returns whether a thread that waits for a connection gets none after another thread closes the listener, and no
/// connection comes afterwards.
fn acceptor_wakes<R>(rt: &R, listener: &PipeListener) -> Result<bool, Fail>
where
    R: Threads + Clock + Sync,
{
    let (accepted, closed) = thread::join(
        rt,
        || has_none(listener),
        || {
            thread::sleep(rt, a_while());
            listener.close()
        },
    );
    closed?;
    let wakes = accepted? && has_none(listener)?;
    listener.close()?;
    Ok(wakes)
}

fn accepting_ends<R>(rt: &R, alloc: Global, site: Site) -> Result<bool, Fail>
where
    R: Files + Net<Listener = TcpListener, Stream = TcpStream> + Threads + Clock + Sync,
{
    let listening = listen(rt, alloc, site)?;
    clean_behind(rt, site, acceptor_wakes(rt, &listening.listener))
}

#[test]
fn close_wakes_who_accepts(rt: HostRuntime) -> Tested {
    let at_port = accepting_ends(&rt, rt.alloc(), Site::Port)?;
    check(at_port && accepting_ends(&rt, rt.alloc(), Site::Path("accepts.sock"))?)
}

/// A listener that was bound by std is taken over.
#[test]
fn listeners_of_std_are_taken_over(rt: HostRuntime) -> Tested {
    let listener = PipeListener::from_tcp(TcpListener::bind(&rt, "127.0.0.1:0")?)?;
    let address = address_of(rt.alloc(), &listener)?;
    let pair = join(&rt, rt.alloc(), &listener, address.as_str())?;
    check(passes(&pair.accepted, &pair.connection, b"hello")?)
}

/// The same at a path.
#[test]
fn listeners_of_std_at_a_path_are_taken_over(rt: HostRuntime) -> Tested {
    let path = "handed.sock";
    let _ = fs::remove_file(&rt, path);
    let listener = PipeListener::from_unix(UnixListener::bind(&rt, path)?)?;
    let has_no_port = listener.local_addr()?.is_none();
    let joined = join(&rt, rt.alloc(), &listener, "unix://handed.sock");
    let pair = clean_behind(&rt, Site::Path(path), joined)?;
    check(has_no_port && passes(&pair.accepted, &pair.connection, b"hello")?)
}
