//! A polled server's connections over loopback, with clients that write and read by hand.
use crate::tests::peers::{ASKED, Connects, Exchange, SERVED, calls, talks};
use crate::tests::polled::start_polled;
use std::alloc::AllocGlobal;
use std::fs::File;
use std::io::{self, Write};
use std::net::{SocketAddr, TcpListener, TcpStream};
use std::rt::Files;
use std::test::Fail;
use std::thread;
use std::time::{Duration, Instant};
use ttrpc_bench::checks::check_named;

/// A request for an unknown method, and its answer.
const NO_METHOD: &[u8] = b"\0\0\0\x11\0\0\0\x01\x01\0\x0a\x09demo.Echo\x12\x04Nope";

const ANSWER_TO_NO_METHOD: &[u8] = b"\0\0\0\x11\0\0\0\x01\x02\0\x0a\x0f\x08\x0c\x12\x0bNope method";

/// A request of stream 3 twice, and the answers: to the second, and to the first.
const TWICE: &[u8] = b"\
    \0\0\0\x14\0\0\0\x03\x01\0\x0a\x09demo.Echo\x12\x04Echo\x1a\x01\x2a\
    \0\0\0\x14\0\0\0\x03\x01\0\x0a\x09demo.Echo\x12\x04Echo\x1a\x01\x2a";

const IN_USE: &[u8] = b"\0\0\0\x1b\0\0\0\x03\x02\0\x0a\x19\x08\x03\x12\x15stream id 3 is in use";

const ECHOED_THIRD: &[u8] = b"\0\0\0\x05\0\0\0\x03\x02\0\x0a\0\x12\x01\x2a";

/// A stream with one item that is flagged as the last, and its answer: the item, and a close. Then the same for a sum.
const LAST_ITEM: &[u8] = b"\
    \0\0\0\x11\0\0\0\x05\x01\x06\x0a\x09demo.Echo\x12\x04Chat\
    \0\0\0\x01\0\0\0\x05\x03\x01a";

const ITEM_AND_CLOSE: &[u8] = b"\0\0\0\x01\0\0\0\x05\x03\0a\0\0\0\0\0\0\0\x05\x03\x05";

const LAST_OF_SUM: &[u8] = b"\
    \0\0\0\x10\0\0\0\x07\x01\x06\x0a\x09demo.Echo\x12\x03Sum\
    \0\0\0\x01\0\0\0\x07\x03\x01a";

const SUM: &[u8] = b"\
    \0\0\0\x14\0\0\0\x07\x02\0\x0a\0\x12\x10\0\0\0\0\0\0\0\x01\0\0\0\0\0\0\0\x01";

const EXCHANGES: &[Exchange] = &[
    (NO_METHOD, ANSWER_TO_NO_METHOD),
    (TWICE, IN_USE),
    (b"", ECHOED_THIRD),
    (LAST_ITEM, ITEM_AND_CLOSE),
    (LAST_OF_SUM, SUM),
];

// Should fail if a listener never returns a connection.
#[test]
fn bytes_have_their_answers_over_loopback(rt: HostRuntime) -> Result<(), Fail> {
    // The borrow check covers a call over sockets only if this function names their types, too.
    let _sockets: Option<(TcpListener, TcpStream)> = None;
    let served = start_polled(&rt, 1)?;
    assert!(rt; calls(&rt, served.address, EXCHANGES)?);
    served.thread.join(&rt)?;
    Ok(())
}

/// Opens `count` connections, makes a call on each, and closes it with the answer unread.
fn reset<R: Connects>(rt: &R, address: SocketAddr, count: usize) -> io::Result<()> {
    for _ in 0..count {
        let mut stream = TcpStream::connect(rt, address)?;
        stream.write_all(ASKED)?;
    }
    Ok(())
}

/// The number of connections that are reset.
const RESETS: usize = 1000;

#[test]
fn who_calls_behind_resets_is_answered(rt: HostRuntime) -> Result<(), Fail> {
    // The borrow check covers a call over sockets only if this function names their types, too.
    let _sockets: Option<(TcpListener, TcpStream)> = None;
    let served = start_polled(&rt, RESETS + 1)?;
    reset(&rt, served.address, RESETS)?;
    assert!(rt; calls(&rt, served.address, SERVED)?);
    served.thread.join(&rt)?;
    Ok(())
}

/// Opens files until no descriptor is left, and then closes one.
fn hoard<R: Files + AllocGlobal>(rt: &R) -> Result<Vec<R::File>, Fail> {
    let mut files = Vec::new(rt.alloc());
    for _ in 0..2_000_000u32 {
        match File::open(rt, "/dev/null") {
            Ok(file) => files.push(file)?,
            Err(_) => {
                let _ = files.pop();
                return Ok(files);
            }
        }
    }
    Err("there is no end to descriptors".into())
}

#[test]
fn a_failed_accept_is_tried_again(rt: HostRuntime) -> Result<(), Fail> {
    let served = start_polled(&rt, 2)?;
    assert!(rt; calls(&rt, served.address, SERVED)?);
    let files = hoard(&rt)?;
    let mut stream = TcpStream::connect(&rt, served.address)?;
    thread::sleep(&rt, Duration::from_millis(60));
    drop(files);
    assert!(rt; talks(&mut stream, SERVED)?);
    served.thread.join(&rt)?;
    Ok(())
}

/// The front of a header.
const HALF: &[u8] = b"\0\0\0\x14\0";

/// Opens `count` connections, writes half a header on each, and closes it at once.
fn leave<R: Connects>(rt: &R, address: SocketAddr, count: usize) -> io::Result<()> {
    for _ in 0..count {
        let mut stream = TcpStream::connect(rt, address)?;
        stream.write_all(HALF)?;
    }
    Ok(())
}

/// The number of connections that are left at once.
const LEFT: usize = 600;

// Should fail if a lost event is waited for.
#[test]
fn who_leaves_at_once_is_let_go(rt: HostRuntime) -> Result<(), Fail> {
    // The borrow check covers a call over sockets only if this function names their types, too.
    let _sockets: Option<(TcpListener, TcpStream)> = None;
    let served = start_polled(&rt, LEFT)?;
    leave(&rt, served.address, LEFT)?;
    let began = Instant::now(&rt)?;
    served.thread.join(&rt)?;
    check_named("some stay", began.elapsed(&rt)? < Duration::from_secs(4))
}
