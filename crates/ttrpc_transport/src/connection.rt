//! One connection.
ghost use Rattle.std.specs.Prelude.{◌≡◌, IfErr};
ghost use Rattle.std.specs.Io.{ReadsAtMost, WritesAtMost};
ghost use Rattle.ttrpc_transport.specs.Sockets.{IsFault, IsLastingFault, domain_of};

use crate::stream::{Stream, fault};
use std::io::{self, Read, Write};
use std::marker::Model;
use std::net::Shutdown;
use ttrpc_proto::Result;

/// One connection, which contracts see as its domain. Threads may share it: each call takes it by reference.
#[derive(Debug, Drop)]
pub struct PipeConnection {
    stream: Stream,
}

impl Model for PipeConnection {
    ghost use Rattle.ttrpc_transport.specs.declared.address.domain.Domain.{Domain};
    ghost use Rattle.ttrpc_transport.specs.Sockets.{domain_of};

    ghost Value = { Domain };

    ghost view = { λ connection. domain_of connection.stream };
}

impl PipeConnection {
    /// Makes the connection of this stream.
    pub fn new(stream: Stream) -> PipeConnection
        ensures { result ≡ domain_of stream }
    {
        PipeConnection { stream }
    }

    /// Returns the stream of the connection.
    pub fn into_stream(self) -> Stream
        ensures { domain_of result ≡ self }
    {
        let PipeConnection { stream } = self;
        stream
    }

    /// Reads some bytes, at least one unless the buffer is empty or the other side sends no more. A read that was
    /// interrupted or would block is tried again. A fault of the system is `Nix`.
    pub fn read(&self, buf: &mut [u8]) -> Result<usize>
        ensures bound { ReadsAtMost result buf.new }
        ensures err { IfErr result IsLastingFault }
    {
        self.stream.receive(buf).map_err(fault)
    }

    /// Writes some of the buffer's bytes, from its front. A write that was interrupted or would block is tried again. A fault of the system
    /// is `Nix`.
    pub fn write(&self, buf: &[u8]) -> Result<usize>
        ensures bound { WritesAtMost result buf.now }
        ensures err { IfErr result IsLastingFault }
    {
        self.stream.send(buf).map_err(fault)
    }

    /// Returns whether each write goes out at once: by TCP as it was set, and at a path always. A fault of the system is `Nix`.
    pub fn nodelay(&self) -> Result<bool>
        ensures { IfErr result IsFault }
    {
        self.stream.nodelay().map_err(fault)
    }

    /// Ends the connection for both sides, and wakes each thread that reads it or writes to it. The descriptor is closed when the
    /// connection is dropped. Closing the connection again does nothing.
    pub fn close(&self) -> Result<()>
        ensures { IfErr result IsFault }
    {
        self.stream.close()
    }

    /// Stops reading from the connection, and wakes each thread that reads. Bytes that are written still go out.
    pub fn shutdown(&self) -> Result<()>
        ensures { IfErr result IsFault }
    {
        self.stream.shutdown(Shutdown::Read).map_err(fault)
    }
}

/// Reads as `PipeConnection::read` does.
impl Read for &PipeConnection {
    fn read(&mut self, buf: &mut [u8]) -> io::Result<usize> {
        let connection: &PipeConnection = self;
        connection.stream.receive(buf)
    }
}

/// Writes as `PipeConnection::write` does.
impl Write for &PipeConnection {
    fn write(&mut self, buf: &[u8]) -> io::Result<usize> {
        let connection: &PipeConnection = self;
        connection.stream.send(buf)
    }

    fn flush(&mut self) -> io::Result<()> {
        Ok(())
    }
}
