//! A peer that sends long requests and reads none of the answers at first. Both servers wait until there is room for
//! the answers.
use crate::tests::peers::Connects;
use crate::tests::polled::start_polled;
use std::alloc::Global;
use std::collections::BTreeSet;
use std::io::{self, Read, Write};
use std::net::{Shutdown, SocketAddr, TcpListener, TcpStream};
use std::test::Fail;
use std::thread::{self, Builder, Threads};
use std::time::Duration;
use ttrpc_echo::start_server;
use ttrpc_polled_echo::ChatSystem;
use ttrpc_sync_server::NoWatch;

/// The number of requests, and the number of bytes of each that are echoed. All answers together are more than the
/// server's queue and the system hold.
const COUNT: u32 = 16;

const LENGTH: usize = 1_000_000;

/// The bytes before the payload in a request of stream 1, and in its answer.
const ASKED: &[u8] = b"\0\x0f\x42\x55\0\0\0\x01\x01\0\x0a\x09demo.Echo\x12\x04Echo\x1a\xc0\x84\x3d";

const ECHOED: &[u8] = b"\0\x0f\x42\x46\0\0\0\x01\x02\0\x0a\0\x12\xc0\x84\x3d";

/// The place of the last byte of a stream id in a frame.
const ID_AT: usize = 7;

/// Sends the requests with the ids 1, 3 and so on.
fn send_all(alloc: Global, stream: &mut TcpStream) -> Result<(), io::Error> {
    let mut frame = Vec::from_slice(alloc, ASKED)?;
    frame.resize(ASKED.len() + LENGTH, 7)?;
    for number in 0..COUNT {
        frame[ID_AT] = (2 * number + 1) as u8;
        stream.write_all(frame.as_slice())?;
    }
    Ok(())
}

/// Reads one answer, and returns the last byte of its id.
fn hear_one(stream: &mut TcpStream, payload: &mut Vec<u8>) -> Result<u8, Fail> {
    let mut head = [0u8; ECHOED.len()];
    stream.read_exact(&mut head)?;
    let id = head[ID_AT];
    head[ID_AT] = ECHOED[ID_AT];
    stream.read_exact(payload.as_mut_slice())?;
    if head.as_slice() != ECHOED || payload.iter().any(|byte| *byte != 7) {
        return Err("it is no answer".into());
    }
    Ok(id)
}

/// Reads the answers, and returns the number of their different ids.
fn hear_all(alloc: Global, stream: &mut TcpStream) -> Result<usize, Fail> {
    let mut payload = Vec::new(alloc);
    payload.resize(LENGTH, 0)?;
    let mut ids = BTreeSet::new(alloc);
    for _ in 0..COUNT {
        ids.insert(hear_one(stream, &mut payload)?)?;
    }
    Ok(ids.len())
}

/// Sends all requests, and reads the answers after the server can take no more. After that it closes its half.
fn sends_first<R: ChatSystem + Connects + Threads + Send + 'static>(
    rt: &R,
    address: SocketAddr,
) -> Result<usize, Fail> {
    let alloc = rt.alloc();
    let mut stream = TcpStream::connect(rt, address)?;
    let mut sender = stream.try_clone()?;
    let thread = Builder::new().spawn(rt, move || send_all(alloc, &mut sender))?;
    thread::sleep(rt, Duration::from_millis(300));
    let heard = hear_all(alloc, &mut stream)?;
    thread.join(rt)?;
    stream.shutdown(Shutdown::Write)?;
    Ok(heard)
}

#[test]
fn a_server_with_threads_waits_for_room(rt: HostRuntime) -> Result<(), Fail> {
    // The borrow check covers a call over sockets only if this function names their types, too.
    let _sockets: Option<(TcpListener, TcpStream)> = None;
    let server = start_server(rt.clone()?, "tcp://127.0.0.1:0", true, NoWatch {})?;
    let Some(address) = server.local_addr()? else {
        return Err("it has no address".into());
    };
    assert_eq!(rt; sends_first(&rt, address)?, COUNT as usize);
    server.shutdown();
    Ok(())
}

#[test]
fn a_polled_server_waits_for_room(rt: HostRuntime) -> Result<(), Fail> {
    // The borrow check covers a call over sockets only if this function names their types, too.
    let _sockets: Option<(TcpListener, TcpStream)> = None;
    let served = start_polled(&rt, 1)?;
    assert_eq!(rt; sends_first(&rt, served.address)?, COUNT as usize);
    served.thread.join(&rt)?;
    Ok(())
}
