//! Clients that write and read bytes by hand.
use std::io::{self, Read, Write};
use std::net::{Net, Shutdown, SocketAddr, TcpListener, TcpStream};

/// A request of `Echo` with the payload 2a, and its answer.
pub const ASKED: &[u8] = b"\0\0\0\x14\0\0\0\x01\x01\0\x0a\x09demo.Echo\x12\x04Echo\x1a\x01\x2a";

pub const ECHOED: &[u8] = b"\0\0\0\x05\0\0\0\x01\x02\0\x0a\0\x12\x01\x2a";

/// The bytes that are written, and those that are read then.
pub type Exchange = (&'static [u8], &'static [u8]);

/// The exchange of that request and its answer.
pub const SERVED: &[Exchange] = &[(ASKED, ECHOED)];

/// A system that connects by TCP.
pub trait Connects: Net<Listener = TcpListener, Stream = TcpStream> {}

impl<R: Net<Listener = TcpListener, Stream = TcpStream>> Connects for R {}

/// Returns whether these bytes come next.
fn hears(stream: &mut TcpStream, expected: &[u8]) -> io::Result<bool> {
    let mut heard = [0u8; 64];
    let room = heard.len().min(expected.len());
    stream.read_exact(&mut heard[..room])?;
    Ok(heard.get(..room) == Some(expected))
}

/// Returns whether no more bytes come.
pub fn hears_end(stream: &mut TcpStream) -> io::Result<bool> {
    let mut heard = [0u8; 1];
    Ok(stream.read(&mut heard)? == 0)
}

/// Returns whether each answer comes, and no more bytes come after the client has closed its half.
pub fn talks(stream: &mut TcpStream, exchanges: &[Exchange]) -> io::Result<bool> {
    for (said, answer) in exchanges {
        stream.write_all(said)?;
        if !hears(stream, answer)? {
            return Ok(false);
        }
    }
    stream.shutdown(Shutdown::Write)?;
    hears_end(stream)
}

/// Returns the same for a client that connects there.
pub fn calls<R: Connects>(rt: &R, address: SocketAddr, exchanges: &[Exchange]) -> io::Result<bool> {
    let mut stream = TcpStream::connect(rt, address)?;
    talks(&mut stream, exchanges)
}
