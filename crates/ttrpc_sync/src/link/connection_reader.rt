//! The side of a connection from which bytes are read.
ghost use Rattle.std.specs.Prelude.{◌<◌, length};

use crate::loops::read_pieces;
use crate::{PART_LIMIT, ReadPort};
use std::alloc::{AllocError, Global};
use std::io::{self, Read};
use std::sync::{Arc, Wait};
use ttrpc_transport::PipeConnection;

/// The most bytes that are read at once: a part of a frame as the other side writes it.
const PIECE: usize = PART_LIMIT;

/// Reads from a connection.
#[derive(Drop)]
pub struct ConnectionReader {
    stream: Arc<PipeConnection, Global>,
}

impl ConnectionReader {
    /// Makes the connection reader of this connection.
    pub fn new(stream: Arc<PipeConnection, Global>) -> ConnectionReader {
        ConnectionReader { stream }
    }
}

impl Read for ConnectionReader {
    fn read(&mut self, buf: &mut [u8]) -> io::Result<usize> {
        let mut stream = &*self.stream;
        Read::read(&mut stream, buf)
    }
}

/// A connection reader, and the room for one piece.
#[derive(Drop)]
pub struct PieceReader {
    connection_reader: ConnectionReader,
    piece: Vec<u8>,
    ghost room: { 0 < length piece.items },
}

impl PieceReader {
    /// Makes the piece reader of this connection reader.
    pub fn new(
        alloc: Global,
        connection_reader: ConnectionReader,
    ) -> Result<PieceReader, AllocError> {
        Ok(PieceReader {
            connection_reader,
            piece: Vec::from_elem(alloc, 0u8, PIECE)?,
        })
    }

    /// Reads as long as the port wants more.
    pub fn run_reader<X: Wait, P: ReadPort>(&mut self, rt: &X, port: &mut P) {
        read_pieces(
            rt,
            &mut self.connection_reader,
            port,
            self.piece.as_mut_slice(),
        );
    }
}
