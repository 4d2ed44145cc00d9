//! A stream of bytes by TCP or at a path, and the refusals of the system.
ghost use Rattle.std.specs.Prelude.{◌≡◌, IfErr, IfOk};
ghost use Rattle.std.specs.Io.{ReadsAtMost, WritesAtMost};
ghost use Rattle.std.specs.IoError.{error_kind};
ghost use Rattle.ttrpc_proto.specs.Framing.Streams.{IsPassing};
ghost use Rattle.ttrpc_proto.specs.declared.error.Error.{Error};
ghost use Rattle.ttrpc_transport.specs.Sockets.{IsFault, domain_of};

use std::io::{self, ErrorKind, Read, Write};
use std::net::{Shutdown, TcpStream};
use std::os::unix::net::UnixStream;
use ttrpc_proto::{Error, Passing, Result, read_again, write_again};

// The failures that pass at a socket: the call is tried again.
const PASSING: Passing = Passing::InterruptedOrBlocked;

/// A stream of bytes, by TCP or at a path.
#[derive(Debug, Drop)]
pub enum Stream {
    Tcp(TcpStream),
    Unix(UnixStream),
}

// Converts an error of the system.
pub(crate) fn fault(error: io::Error) -> Error
    ensures { result ≡ Error.Nix (error_kind error) }
{
    Error::Nix(error.kind())
}

impl Stream {
    // Makes another handle of the same stream.
    pub(crate) fn try_clone(&self) -> io::Result<Stream>
        ensures { IfOk result (λ clone. domain_of clone ≡ domain_of self.now) }
    {
        match self {
            Stream::Tcp(stream) => Ok(Stream::Tcp(stream.try_clone()?)),
            Stream::Unix(stream) => Ok(Stream::Unix(stream.try_clone()?)),
        }
    }

    // Reads some bytes. A read that was interrupted or would block is tried again.
    pub(crate) fn receive(&self, buf: &mut [u8]) -> io::Result<usize>
        ensures bound { ReadsAtMost result buf.new }
        ensures err { IfErr result
            (λ e. ¬ (IsPassing Passing.InterruptedOrBlocked (error_kind e))) }
    {
        match self {
            Stream::Tcp(stream) => {
                let mut stream: &TcpStream = stream;
                read_again(&mut stream, buf, PASSING)
            }
            Stream::Unix(stream) => {
                let mut stream: &UnixStream = stream;
                read_again(&mut stream, buf, PASSING)
            }
        }
    }

    // Writes some bytes. A write that was interrupted or would block is tried again.
    pub(crate) fn send(&self, buf: &[u8]) -> io::Result<usize>
        ensures bound { WritesAtMost result buf.now }
        ensures err { IfErr result
            (λ e. ¬ (IsPassing Passing.InterruptedOrBlocked (error_kind e))) }
    {
        match self {
            Stream::Tcp(stream) => {
                let mut stream: &TcpStream = stream;
                write_again(&mut stream, buf, PASSING)
            }
            Stream::Unix(stream) => {
                let mut stream: &UnixStream = stream;
                write_again(&mut stream, buf, PASSING)
            }
        }
    }

    // Returns whether each write goes out at once. At a path it always does.
    pub(crate) fn nodelay(&self) -> io::Result<bool> {
        match self {
            Stream::Tcp(stream) => stream.nodelay(),
            Stream::Unix(_) => Ok(true),
        }
    }

    // Ends the halves of the stream that are named, on each of its handles. Threads that wait there wake.
    pub(crate) fn shutdown(&self, how: Shutdown) -> io::Result<()> {
        match self {
            Stream::Tcp(stream) => stream.shutdown(how),
            Stream::Unix(stream) => stream.shutdown(how),
        }
    }

    // Ends both halves. If the other side, or an earlier call, has ended them, there is nothing left to do.
    pub(crate) fn close(&self) -> Result<()>
        ensures { IfErr result IsFault }
    {
        match self.shutdown(Shutdown::Both) {
            Err(error) if error.kind() != ErrorKind::NotConnected => Err(fault(error)),
            _ => Ok(()),
        }
    }
}

/// Reads, and tries again if the read was interrupted or would block.
impl Read for &Stream {
    fn read(&mut self, buf: &mut [u8]) -> io::Result<usize> {
        self.receive(buf)
    }
}

/// Writes, and tries again if the write was interrupted or would block.
impl Write for &Stream {
    fn write(&mut self, buf: &[u8]) -> io::Result<usize> {
        self.send(buf)
    }

    fn flush(&mut self) -> io::Result<()> {
        Ok(())
    }
}
