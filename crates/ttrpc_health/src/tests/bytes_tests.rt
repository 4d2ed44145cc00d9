//! The answers of the program's server, byte by byte.
use crate::tests::peers::health_server;
use std::io::{self, Read, Write};
use std::net::{Shutdown, TcpListener, TcpStream};
use std::test::Fail;

/// The bytes that are written, and those that are read then.
type Exchange = (&'static [u8], &'static [u8]);

/// A request with the id 1, and the frames of its answer.
const EXCHANGES: &[Exchange] = &[
    // `Check` of `a`, and of `b`.
    (
        b"\0\0\0\x19\0\0\0\x01\x01\0\x0a\x0bdemo.Health\x12\x05Check\x1a\x03\x0a\x01a",
        b"\0\0\0\x06\0\0\0\x01\x02\0\x0a\0\x12\x02\x08\x01",
    ),
    (
        b"\0\0\0\x19\0\0\0\x01\x01\0\x0a\x0bdemo.Health\x12\x05Check\x1a\x03\x0a\x01b",
        b"\0\0\0\x1a\0\0\0\x01\x02\0\x0a\x18\x08\x05\x12\x14service b is unknown",
    ),
    // A payload that is no request.
    (
        b"\0\0\0\x19\0\0\0\x01\x01\0\x0a\x0bdemo.Health\x12\x05Check\x1a\x03\x0a\x01\xff",
        b"\0\0\0\x18\0\0\0\x01\x02\0\x0a\x16\x08\x02\x12\x12unreadable request",
    ),
    // `Watch` of `a`.
    (
        b"\0\0\0\x19\0\0\0\x01\x01\x01\x0a\x0bdemo.Health\x12\x05Watch\x1a\x03\x0a\x01a",
        b"\0\0\0\x02\0\0\0\x01\x03\0\x08\x02\0\0\0\x02\0\0\0\x01\x03\0\x08\x01\0\0\0\0\0\0\0\x01\x03\x05",
    ),
    // `Watch` of `b`, and of a payload that is no request.
    (
        b"\0\0\0\x19\0\0\0\x01\x01\x01\x0a\x0bdemo.Health\x12\x05Watch\x1a\x03\x0a\x01b",
        b"\0\0\0\x1a\0\0\0\x01\x02\0\x0a\x18\x08\x05\x12\x14service b is unknown",
    ),
    (
        b"\0\0\0\x19\0\0\0\x01\x01\x01\x0a\x0bdemo.Health\x12\x05Watch\x1a\x03\x0a\x01\xff",
        b"\0\0\0\x18\0\0\0\x01\x02\0\x0a\x16\x08\x02\x12\x12unreadable request",
    ),
];

/// Returns whether these bytes come next.
fn hears(stream: &mut TcpStream, expected: &[u8]) -> io::Result<bool> {
    let mut heard = [0u8; 64];
    let room = heard.len().min(expected.len());
    stream.read_exact(&mut heard[..room])?;
    Ok(heard.get(..room) == Some(expected))
}

/// Returns whether the answer comes, and no more bytes come after the client has closed its half.
fn talks(stream: &mut TcpStream, exchange: &Exchange) -> io::Result<bool> {
    let (said, answer) = exchange;
    stream.write_all(said)?;
    if !hears(stream, answer)? {
        return Ok(false);
    }
    stream.shutdown(Shutdown::Write)?;
    let mut heard = [0u8; 1];
    Ok(stream.read(&mut heard)? == 0)
}

#[test]
fn bytes_have_their_answers(rt: HostRuntime) -> Result<(), Fail> {
    // The borrow check covers a call over sockets only if this function names their types, too.
    let _sockets: Option<(TcpListener, TcpStream)> = None;
    let server = health_server(&rt, EXCHANGES.len())?;
    for exchange in EXCHANGES {
        let mut stream = TcpStream::connect(&rt, server.address)?;
        assert!(rt; talks(&mut stream, exchange)?);
    }
    server.thread.join(&rt)?;
    Ok(())
}
