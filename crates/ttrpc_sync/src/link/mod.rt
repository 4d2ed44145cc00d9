//! A connection over a socket, as the threads of a client or a server share it: which thread reads it, which thread writes to it, and how
//! all of them end. The ports say how the threads change its core.

mod connection_reader;
mod connection_writer;
mod queuing;
mod runtime;

pub use self::connection_writer::ConnectionWriter;
pub use self::queuing::{AfterQueuing, after_queuing};
pub use self::runtime::{Host, Runtime};
use crate::ends::{ConnectionLock, WriteEnd};
use crate::link::connection_reader::{ConnectionReader, PieceReader};
use crate::link::connection_writer::LoanWriter;
use crate::{GATHER_LIMIT, Gather, PART_LIMIT, ReadPort, SHORT_LIMIT, write_loop};
use std::alloc::{AllocError, Global};
use std::sync::{Arc, Mutex, Wait};
use ttrpc_transport::PipeConnection;

/// A connection over a socket, with the state that its threads share. Each frame goes out by one write, or a batch of short frames does, if
/// memory for that is found. No thread reads or writes while it holds the lock of the core.
#[derive(Drop)]
pub struct Link<S: ConnectionLock> {
    shared: S,
    stream: Arc<PipeConnection, Global>,
    // The loan writer by which threads write the frames that they queued. Only the thread with the turn to write locks it.
    loan_writer: Mutex<LoanWriter>,
    // The piece reader to which bytes are read. Only the thread with the turn to read locks it.
    piece_reader: Mutex<PieceReader>,
}

// Returns how many bytes are kept before they leave: a whole frame, unless each write goes out at once.
fn kept_of(stream: &PipeConnection, at_once: usize) -> usize {
    match stream.nodelay() {
        Ok(true) => at_once,
        _ => GATHER_LIMIT,
    }
}

impl<S: ConnectionLock> Link<S> {
    /// Wraps `stream`; its threads share `shared`.
    pub fn new(
        alloc: Global,
        shared: S,
        stream: Arc<PipeConnection, Global>,
    ) -> Result<Link<S>, AllocError> {
        let connection_writer = ConnectionWriter::new(Arc::try_clone(&stream)?);
        let piece_reader = PieceReader::new(
            alloc,
            ConnectionReader::new(Arc::try_clone(&stream)?),
        )?;
        let loan_writer = LoanWriter::new(alloc, connection_writer, kept_of(&stream, SHORT_LIMIT))?;
        Ok(Link {
            shared,
            stream,
            loan_writer: Mutex::new(loan_writer),
            piece_reader: Mutex::new(piece_reader),
        })
    }

    /// Returns the state that the threads of the connection share.
    pub fn shared(&self) -> &S {
        &self.shared
    }

    /// Ends the connection for both sides, and wakes each thread that reads it or writes to it.
    pub fn close(&self) {
        let _ = self.stream.close();
    }

    /// Reads the connection as long as the port wants more, and hands the bytes to the port. The connection stays open.
    pub fn run_reader<X: Wait, P: ReadPort>(&self, rt: &X, port: &mut P) {
        self.piece_reader.lock(rt).run_reader(rt, port);
    }

    /// Writes queued bytes until the connection has failed. Waits while nothing is queued, or another thread writes.
    pub fn write<X: Wait>(&self, rt: &X, alloc: Global) -> Result<(), AllocError> {
        let connection_writer = ConnectionWriter::new(Arc::try_clone(&self.stream)?);
        let mut gather = Gather::with_limit(
            alloc,
            connection_writer,
            kept_of(&self.stream, PART_LIMIT),
        );
        let mut port = WriteEnd::staying(rt, &self.shared);
        write_loop(rt, &mut gather, &mut port);
        Ok(())
    }

    /// Writes the frame that was queued, or wakes the writer thread. Call it without the lock.
    pub fn write_or_wake<X: Wait>(&self, rt: &X, queued: AfterQueuing) {
        match queued {
            AfterQueuing::Write => {
                let mut port = WriteEnd::leaving(rt, &self.shared);
                self.loan_writer.lock(rt).run_writer(rt, &mut port);
            }
            AfterQueuing::Wake => self.shared.to_write().notify_one(),
            AfterQueuing::Leave => {}
        }
    }
}
