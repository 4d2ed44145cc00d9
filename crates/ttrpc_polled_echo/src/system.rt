//! The parts of the system that the program uses, and its faults.
use std::io;
use std::net::{Net, TcpListener, TcpStream};
use std::random::RandomSource;
use std::sync::Wait;
use ttrpc_polled::Timed;
use ttrpc_proto::{Error, Result};

/// The parts of the system that the program uses.
pub trait ChatSystem: Timed
    + Wait
    + RandomSource
    + Net<Listener = TcpListener, Stream = TcpStream> {}

impl<R: Timed + Wait + RandomSource + Net<Listener = TcpListener, Stream = TcpStream>> ChatSystem
    for R {}

/// Turns a fault of the system into an error of this crate.
pub fn nix<T>(res: io::Result<T>) -> Result<T> {
    match res {
        Ok(value) => Ok(value),
        Err(error) => Err(Error::Nix(error.kind())),
    }
}
