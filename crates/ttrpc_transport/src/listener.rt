//! The listener, which accepts connections.
ghost use Rattle.std.specs.Prelude.{◌≡◌, ◌↔◌, IfErr, IfOk, IfSome, IsSome, false};
ghost use Rattle.ttrpc_transport.specs.declared.address.domain.Domain.{Domain};
ghost use Rattle.ttrpc_transport.specs.Listeners.{listens};
ghost use Rattle.ttrpc_transport.specs.Sockets.{IsFault};
ghost use Rattle.ttrpc_transport.specs.Opened.{IsOpenedAt, IsNotOpened, place_domain};

use crate::address::{Place, socket_of};
use crate::connection::PipeConnection;
use crate::stream::{Stream, fault};
use std::alloc::Global;
use std::io;
use std::marker::Model;
use std::net::{Net, SocketAddr, TcpListener, TcpStream};
use std::os::fd::OwnedFd;
use std::os::unix::net::{UnixListener, UnixStream};
use std::rt::Files;
use std::sync::atomic::{AtomicBool, Ordering};
use ttrpc_proto::Result;

/// A listener, which accepts connections. Contracts see it as its domain and its setting of delays. Threads may share it: each call takes
/// it by reference.
#[derive(Drop)]
pub struct PipeListener {
    socket: Listening,
    // The same socket as a stream, which can be shut down. A shutdown wakes a thread that waits for a connection.
    waker: Stream,
    is_closed: AtomicBool,
    // True if each write of its connections by TCP is to go out at once.
    nodelay: bool,
}

// A socket that listens.
#[derive(Drop)]
enum Listening {
    Tcp(TcpListener),
    Unix(UnixListener),
}

impl Model for PipeListener {
    ghost use Rattle.ttrpc_transport.specs.Listeners.{Listens, listening_domain, listens};

    ghost Value = { Listens };

    ghost view = { λ listener. listens (listening_domain listener.socket) listener.nodelay };
}

impl PipeListener {
    /// Listens at the address. With `nodelay`, each write of its connections by TCP goes out at once. The error is `Others` if the address
    /// names no place, and `Nix` if the system reports a fault. If a path has a file already, that fault is `AddrInUse`. The file that is
    /// made at a path stays.
    pub fn new<R>(rt: &R, alloc: Global, sockaddr: &str, nodelay: bool) -> Result<PipeListener>
    where
        R: Files + Net<Listener = TcpListener, Stream = TcpStream>,
        ensures ok { IfOk result (λ made. IsOpenedAt sockaddr.now made.domain) }
        ensures nodelay { IfOk result (λ made. made.nodelay ≡ nodelay) }
        ensures err { IfErr result (IsNotOpened sockaddr.now) }
    {
        let place = socket_of(alloc, sockaddr)?;
        listen(rt, place, nodelay)
    }

    /// Listens on a socket that a caller has bound by TCP. The system decides whether its connections' writes go out at once. A fault of
    /// the system is `Nix`.
    pub fn from_tcp(listener: TcpListener) -> Result<PipeListener>
        ensures ok { IfOk result (λ made. made ≡ listens Domain.Tcp false) }
        ensures err { IfErr result IsFault }
    {
        by_tcp(listener, false)
    }

    /// Listens on a socket that a caller has bound at a path, for example one that the caller was handed. A fault of the system is `Nix`.
    pub fn from_unix(listener: UnixListener) -> Result<PipeListener>
        ensures ok { IfOk result (λ made. made ≡ listens Domain.Unix false) }
        ensures err { IfErr result IsFault }
    {
        at_path(listener, false)
    }

    /// Returns the IP address and port of a listener by TCP, and `None` for one at a path. A fault of the system is `Nix`.
    pub fn local_addr(&self) -> Result<Option<SocketAddr>>
        ensures ok { IfOk result (λ address. IsSome address ↔ (self.now.domain ≡ Domain.Tcp)) }
        ensures err { IfErr result IsFault }
    {
        match &self.socket {
            Listening::Tcp(listener) => Ok(Some(listener.local_addr().map_err(fault)?)),
            Listening::Unix(_) => Ok(None),
        }
    }

    /// Waits for a connection. Returns `None` if the listener was closed.
    pub fn accept(&self) -> io::Result<Option<PipeConnection>>
        ensures { IfOk result
            (λ accepted. IfSome accepted (λ connection. connection ≡ self.now.domain)) }
    {
        let accepted = self.accept_next();
        if self.is_closed.load(Ordering::SeqCst) {
            return Ok(None);
        }
        Ok(Some(accepted?))
    }

    fn accept_next(&self) -> io::Result<PipeConnection>
        ensures { IfOk result (λ connection. connection ≡ self.now.domain) }
    {
        match &self.socket {
            Listening::Tcp(listener) => {
                let (stream, _) = listener.accept()?;
                if self.nodelay {
                    stream.set_nodelay(true)?;
                }
                Ok(PipeConnection::new(Stream::Tcp(stream)))
            }
            Listening::Unix(listener) => {
                let (stream, _) = listener.accept()?;
                Ok(PipeConnection::new(Stream::Unix(stream)))
            }
        }
    }

    /// Stops accepting, and wakes each thread that waits for a connection. A file that was made at a path stays. A fault of the system is
    /// `Nix`. Closing the listener again does nothing.
    pub fn close(&self) -> Result<()>
        ensures { IfErr result IsFault }
    {
        self.is_closed.store(true, Ordering::SeqCst);
        self.waker.close()
    }
}

fn listen<R>(rt: &R, place: Place<'_>, nodelay: bool) -> Result<PipeListener>
where
    R: Files + Net<Listener = TcpListener, Stream = TcpStream>,
    ensures ok { IfOk result (λ made. made ≡ listens (place_domain place.entry) nodelay) }
    ensures err { IfErr result IsFault }
{
    match place {
        Place::Tcp(address) => {
            let listener = TcpListener::bind(rt, address).map_err(fault)?;
            by_tcp(listener, nodelay)
        }
        Place::Unix(path) => {
            let listener = UnixListener::bind(rt, path).map_err(fault)?;
            at_path(listener, nodelay)
        }
    }
}

fn by_tcp(listener: TcpListener, nodelay: bool) -> Result<PipeListener>
    ensures ok { IfOk result (λ made. made ≡ listens Domain.Tcp nodelay) }
    ensures err { IfErr result IsFault }
{
    let descriptor = OwnedFd::from(listener.try_clone().map_err(fault)?);
    Ok(PipeListener {
        socket: Listening::Tcp(listener),
        waker: Stream::Tcp(TcpStream::from(descriptor)),
        is_closed: AtomicBool::new(false),
        nodelay,
    })
}

fn at_path(listener: UnixListener, nodelay: bool) -> Result<PipeListener>
    ensures ok { IfOk result (λ made. made ≡ listens Domain.Unix nodelay) }
    ensures err { IfErr result IsFault }
{
    let descriptor = OwnedFd::from(listener.try_clone().map_err(fault)?);
    Ok(PipeListener {
        socket: Listening::Unix(listener),
        waker: Stream::Unix(UnixStream::from(descriptor)),
        is_closed: AtomicBool::new(false),
        nodelay,
    })
}
