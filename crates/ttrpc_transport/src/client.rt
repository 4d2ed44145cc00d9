//! A client's connection.
ghost use Rattle.std.specs.Prelude.{◌≡◌, IfErr, IfOk, Ok};
ghost use Rattle.std.specs.IoError.{error_kind};
ghost use Rattle.ttrpc_proto.specs.Framing.Streams.{IsPassing};
ghost use Rattle.ttrpc_transport.specs.Sockets.{IsFault, domain_of};
ghost use Rattle.ttrpc_transport.specs.Opened.{IsOpenedAt, IsNotOpened, place_domain};

use crate::address::{Place, socket_of};
use crate::connection::PipeConnection;
use crate::stream::{Stream, fault};
use std::alloc::Global;
use std::hint::spin_loop;
use std::io::{self, ErrorKind};
use std::marker::Model;
use std::net::{Net, TcpStream};
use std::os::fd::OwnedFd;
use std::os::unix::net::UnixStream;
use std::sync::Mutex;
use std::sync::atomic::{AtomicBool, Ordering};
use std::time::Duration;
use ttrpc_proto::{Passing, Result};

/// The longest wait of `ready`, in milliseconds.
const READY_TIME: u64 = 10;

/// A client's connection, which contracts see as its domain. Threads may share it: each call takes it by reference.
#[derive(Drop)]
pub struct ClientConnection {
    stream: Stream,
    // The same stream, as a handle by which a thread looks at the next bytes without taking them. std allows that only for TCP, and the
    // system for any stream. One thread looks at a time, since the limit of a wait applies to every look.
    probe: Mutex<TcpStream>,
    is_closed: AtomicBool,
}

impl Model for ClientConnection {
    ghost use Rattle.ttrpc_transport.specs.declared.address.domain.Domain.{Domain};
    ghost use Rattle.ttrpc_transport.specs.Sockets.{domain_of};

    ghost Value = { Domain };

    ghost view = { λ connection. domain_of connection.stream };
}

impl ClientConnection {
    /// Connects to the address. With `nodelay`, each write by TCP goes out at once. The error is `Others` if the address names no place,
    /// and `Nix` if the system reports a fault.
    pub fn client_connect<R>(
        rt: &R,
        alloc: Global,
        sockaddr: &str,
        nodelay: bool,
    ) -> Result<ClientConnection>
    where
        R: Net<Stream = TcpStream>,
        ensures ok { IfOk result (IsOpenedAt sockaddr.now) }
        ensures err { IfErr result (IsNotOpened sockaddr.now) }
    {
        let place = socket_of(alloc, sockaddr)?;
        ClientConnection::new(connect(rt, place, nodelay)?)
    }

    /// Makes the client's connection of this stream. A fault of the system is `Nix`.
    pub fn new(stream: Stream) -> Result<ClientConnection>
        ensures ok { IfOk result (λ made. made ≡ domain_of stream) }
        ensures err { IfErr result IsFault }
    {
        let probe = match &stream {
            Stream::Tcp(stream) => stream.try_clone().map_err(fault)?,
            Stream::Unix(stream) => {
                TcpStream::from(OwnedFd::from(stream.try_clone().map_err(fault)?))
            }
        };
        Ok(ClientConnection {
            stream,
            probe: Mutex::new(probe),
            is_closed: AtomicBool::new(false),
        })
    }

    /// Waits for bytes, or for the other side to end: at most 10 milliseconds, counted from when no other thread waits here. Returns `None`
    /// if nothing came, or if the wait was interrupted. After the connection or its receiver is closed, the error is `pipe closed`.
    pub fn ready(&self) -> io::Result<Option<()>>
        ensures { IfErr result (λ e. ¬ (IsPassing Passing.InterruptedOrBlocked (error_kind e))) }
    {
        let came = self.wait_for_bytes();
        if self.is_closed.load(Ordering::SeqCst) {
            return Err(io::Error::other("pipe closed"));
        }
        match came {
            Ok(_) => Ok(Some(())),
            Err(error) if Passing::InterruptedOrBlocked.includes(error.kind()) => Ok(None),
            Err(error) => Err(error),
        }
    }

    // A thread that looks beside another waits for it, without a handle for waiting. This wait takes at most 10 milliseconds.
    fn wait_for_bytes(&self) -> io::Result<usize> {
        for _ in 0..u64::MAX {
            if let Some(probe) = self.probe.try_lock() {
                return look(&probe);
            }
            spin_loop();
        }
        Err(ErrorKind::WouldBlock.into())
    }

    /// Returns the connection to be read and written, which shares the stream. A fault of the system is `Nix`.
    pub fn get_pipe_connection(&self) -> Result<PipeConnection>
        ensures ok { IfOk result (λ connection. connection ≡ self.now) }
        ensures err { IfErr result IsFault }
    {
        let stream = self.stream.try_clone().map_err(fault)?;
        Ok(PipeConnection::new(stream))
    }

    /// Closes the receiver: from here on `ready` reports that the connection is closed. The connection can still be read and written.
    pub fn close_receiver(&self) -> Result<()>
        ensures { result ≡ Ok tt }
    {
        self.is_closed.store(true, Ordering::SeqCst);
        Ok(())
    }

    /// Ends the connection for both sides, and wakes each thread that reads it or writes to it. The descriptor is closed when the last
    /// handle of the stream is dropped. A fault of the system is `Nix`. Closing the connection again does nothing.
    pub fn close(&self) -> Result<()>
        ensures { IfErr result IsFault }
    {
        self.is_closed.store(true, Ordering::SeqCst);
        self.stream.close()
    }
}

// Waits for bytes. The limit is set only for this wait, since otherwise each read of the connection would have it.
fn look(probe: &TcpStream) -> io::Result<usize> {
    probe.set_read_timeout(Some(Duration::from_millis(READY_TIME)))?;
    let peeked = probe.peek(&mut [0u8; 1]);
    probe.set_read_timeout(None)?;
    peeked
}

fn connect<R>(rt: &R, place: Place<'_>, nodelay: bool) -> Result<Stream>
where
    R: Net<Stream = TcpStream>,
    ensures ok { IfOk result (λ stream. domain_of stream ≡ place_domain place.entry) }
    ensures err { IfErr result IsFault }
{
    match place {
        Place::Tcp(address) => {
            let stream = TcpStream::connect(rt, address).map_err(fault)?;
            if nodelay {
                stream.set_nodelay(true).map_err(fault)?;
            }
            Ok(Stream::Tcp(stream))
        }
        Place::Unix(path) => {
            let stream = UnixStream::connect(rt, path).map_err(fault)?;
            Ok(Stream::Unix(stream))
        }
    }
}
