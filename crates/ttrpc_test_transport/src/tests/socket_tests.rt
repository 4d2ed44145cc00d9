//! Bytes between the two ends of a connection.

use crate::tests::pairs::{Pair, Site, a_while, connect, is_ended, passes};
use std::alloc::Global;
use std::net::{Net, TcpListener, TcpStream};
use std::os::unix::net::UnixStream;
use std::rt::Files;
use std::test::Fail;
use std::thread::{self, Threads};
use std::time::{Clock, Duration, Instant};
use ttrpc_bench::checks::{Tested, check};
use ttrpc_proto::{Error, Result as Answer, fill, write_part};
use ttrpc_transport::{ClientConnection, PipeConnection, Stream};

/// Returns whether bytes pass both ways, and one end is at its end after the other is closed.
fn bytes_pass<R>(rt: &R, alloc: Global, site: Site) -> Result<bool, Fail>
where
    R: Files + Net<Listener = TcpListener, Stream = TcpStream>,
{
    let pair = connect(rt, alloc, site)?;
    let there = passes(&pair.connection, &pair.accepted, b"ping")?;
    let back = passes(&pair.accepted, &pair.connection, b"answer")?;
    pair.client.close()?;
    Ok(there && back && is_ended(&pair.accepted)?)
}

#[test]
fn bytes_pass_both_ways(rt: HostRuntime) -> Tested {
    let at_port = bytes_pass(&rt, rt.alloc(), Site::Port)?;
    check(at_port && bytes_pass(&rt, rt.alloc(), Site::Path("both_ways.sock"))?)
}

/// Returns two ends without an address. The first one doesn't wait: if a call would block, it fails at once.
fn hasty<R: Net>(rt: &R) -> Result<(PipeConnection, PipeConnection), Fail> {
    let (one, other) = UnixStream::pair(rt)?;
    one.set_nonblocking(true)?;
    Ok((
        PipeConnection::new(Stream::Unix(one)),
        PipeConnection::new(Stream::Unix(other)),
    ))
}

/// A read without bytes is tried again, even if the connection is used as any reader.
#[test]
fn reads_that_would_block_are_tried_again(rt: HostRuntime) -> Tested {
    let ends = hasty(&rt)?;
    let mut buffer = [0u8; 4];
    let (read, wrote) = thread::join(
        &rt,
        || fill(&mut &ends.0, &mut buffer),
        || {
            thread::sleep(&rt, a_while());
            ends.1.write(b"late")
        },
    );
    let written = wrote?;
    read.1?;
    check(written == 4 && &buffer == b"late")
}

/// The same for writes, with more bytes than the socket holds.
#[test]
fn writes_that_would_block_are_tried_again(rt: HostRuntime) -> Tested {
    let ends = hasty(&rt)?;
    let (wrote, read) = thread::join(
        &rt,
        || write_part(&mut &ends.0, &[7u8; 400_000]),
        || {
            thread::sleep(&rt, a_while());
            count_of(&ends.1, 7, 400_000)
        },
    );
    wrote?;
    check(read? == 400_000)
}

/// Returns how many of the next bytes are this one. It stops after `all` of them.
fn count_of(reader: &PipeConnection, byte: u8, all: usize) -> Answer<usize> {
    let mut count = 0usize;
    let mut buffer = [0u8; 4096];
    for _ in 0..all {
        if count >= all {
            break;
        }
        let read = reader.read(&mut buffer)?;
        let found = buffer[..read].iter().filter(|b| **b == byte).count();
        count = count.saturating_add(found);
    }
    Ok(count)
}

/// Returns whether the end sends its writes at once, if it is one by TCP.
fn sends_at_once(end: PipeConnection) -> Result<bool, Fail> {
    match end.into_stream() {
        Stream::Tcp(stream) => Ok(stream.nodelay()?),
        Stream::Unix(_) => Ok(true),
    }
}

/// Each end by TCP sends its writes at once if it is set to.
#[test]
fn delay_is_off_where_it_is_told(rt: HostRuntime) -> Tested {
    let Pair {
        client: _client,
        connection,
        accepted,
    } = connect(&rt, rt.alloc(), Site::Port)?;
    let at_once = sends_at_once(connection)?;
    check(sends_at_once(accepted)? && at_once)
}

/// Returns whether there is something to be read: before bytes came, after they came, and after they were read.
fn readiness(rt: &impl Clock, pair: &Pair) -> Answer<[bool; 3]> {
    let before = is_ready(&pair.client)?;
    pair.accepted.write(b"ping")?;
    thread::sleep(rt, a_while());
    let then = is_ready(&pair.client)?;
    pair.connection.read(&mut [0u8; 8])?;
    Ok([before, then, is_ready(&pair.client)?])
}

fn is_ready(client: &ClientConnection) -> Answer<bool> {
    match client.ready() {
        Ok(came) => Ok(came.is_some()),
        Err(error) => Err(Error::Nix(error.kind())),
    }
}

/// Returns whether the client is ready exactly when bytes are there. Its receiver is closed then, which ends nothing
/// else.
fn ready_tells<R>(rt: &R, alloc: Global, site: Site) -> Result<bool, Fail>
where
    R: Files + Net<Listener = TcpListener, Stream = TcpStream> + Clock,
{
    let pair = connect(rt, alloc, site)?;
    let is_told = readiness(rt, &pair)? == [false, true, false];
    pair.client.close_receiver()?;
    let is_closed = is_closed(alloc, &pair.client)?;
    Ok(is_told && is_closed && passes(&pair.connection, &pair.accepted, b"pong")?)
}

#[test]
fn ready_tells_what_came(rt: HostRuntime) -> Tested {
    let at_port = ready_tells(&rt, rt.alloc(), Site::Port)?;
    check(at_port && ready_tells(&rt, rt.alloc(), Site::Path("ready.sock"))?)
}

/// Returns whether the client's receiver is closed.
fn is_closed(alloc: Global, client: &ClientConnection) -> Result<bool, Fail> {
    match client.ready() {
        Err(error) => {
            let text = error.to_string(alloc)?;
            Ok(text.as_str() == "pipe closed")
        }
        Ok(_) => Ok(false),
    }
}

/// The other side's end is reported as something to be read.
#[test]
fn ready_tells_the_end(rt: HostRuntime) -> Tested {
    let (one, other) = UnixStream::pair(&rt)?;
    let client = ClientConnection::new(Stream::Unix(one))?;
    let before = is_ready(&client)?;
    drop(other);
    let after = is_ready(&client)?;
    client.close()?;
    check(!before && after && is_closed(rt.alloc(), &client)?)
}
