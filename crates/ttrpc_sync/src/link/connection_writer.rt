//! The side of a connection to which bytes are written.
ghost use Rattle.std.specs.Prelude.{◌<◌, length};

use crate::loops::write_pieces;
use crate::{Gather, PART_LIMIT, WritePort};
use std::alloc::{AllocError, Global};
use std::io::{self, Write};
use std::sync::{Arc, Wait};
use ttrpc_transport::PipeConnection;

/// Writes to a connection, and closes it if a write fails, so that the thread that reads the connection ends, too.
#[derive(Drop)]
pub struct ConnectionWriter {
    stream: Arc<PipeConnection, Global>,
}

impl ConnectionWriter {
    /// Makes the connection writer to this connection.
    pub fn new(stream: Arc<PipeConnection, Global>) -> ConnectionWriter {
        ConnectionWriter { stream }
    }
}

impl Write for ConnectionWriter {
    fn write(&mut self, buf: &[u8]) -> io::Result<usize> {
        let mut stream = &*self.stream;
        let written = Write::write(&mut stream, buf);
        if written.is_err() {
            let _ = self.stream.close();
        }
        written
    }

    fn flush(&mut self) -> io::Result<()> {
        Ok(())
    }
}

/// A gathering writer in front of a connection writer, and the room for one loan.
#[derive(Drop)]
pub struct LoanWriter {
    gather: Gather<ConnectionWriter>,
    loan: Vec<u8>,
    ghost room: { 0 < length loan.items },
}

impl LoanWriter {
    /// Makes the loan writer to this connection writer, which keeps at most `limit` bytes.
    pub fn new(
        alloc: Global,
        connection_writer: ConnectionWriter,
        limit: usize,
    ) -> Result<LoanWriter, AllocError> {
        Ok(LoanWriter {
            gather: Gather::with_limit(alloc, connection_writer, limit),
            loan: Vec::from_elem(alloc, 0u8, PART_LIMIT)?,
        })
    }

    /// Writes the bytes that the port lends, as long as the port has the turn.
    pub fn run_writer<X: Wait, P: WritePort>(&mut self, rt: &X, port: &mut P) {
        write_pieces(rt, &mut self.gather, port, self.loan.as_mut_slice());
    }
}
