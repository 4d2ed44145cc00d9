//! Writers while other threads queue frames: a caller writes its own frame and no more, and frames that are ready leave
//! in time.
use crate::tests::ends::{Client, Server, Tested, call, client, request, server};
use crate::tests::server_tests::feed;
use std::alloc::Global;
use std::io::{self, ErrorKind, Write};
use std::sync::{Arc, Wait};
use std::test::Fail;
use std::thread;
use std::time::{Clock, Duration};
use ttrpc_proto::Request;
use ttrpc_sync::{ConnectionLock, Gather, LockedState, Next, WriteEnd, write_loop};
use ttrpc_test_cores::server::{ASKED, NO_METHOD};

/// A writer that keeps the bytes that it takes. Before it takes any, another caller queues a request.
#[derive(Drop)]
struct Crowded<'a, X: Wait> {
    rt: &'a X,
    alloc: Global,
    client: &'a Client,
    request: &'a Request,
    taken: Vec<u8>,
}

impl<X: Wait> Crowded<'_, X> {
    // Queues a request as another caller.
    fn is_joined(&self) -> bool {
        let mut held = self.client.held().lock(self.rt);
        held.core.request(self.alloc, self.request, 0).is_ok()
    }
}

impl<X: Wait> Write for Crowded<'_, X> {
    fn write(&mut self, buf: &[u8]) -> io::Result<usize> {
        if self.taken.is_empty() && !self.is_joined() {
            return Err(ErrorKind::OutOfMemory.into());
        }
        match self.taken.extend_from_slice(buf) {
            Ok(()) => Ok(buf.len()),
            Err(_) => Err(ErrorKind::OutOfMemory.into()),
        }
    }

    fn flush(&mut self) -> io::Result<()> {
        Ok(())
    }
}

/// Returns whether a caller of this client takes the turn, while nobody else writes.
fn takes_the_turn<X: Wait>(rt: &X, alloc: Global, client: &Client) -> Result<bool, Fail> {
    let next = client.held().lock(rt).next(false);
    call(rt, alloc, client)?;
    let took = client.held().lock(rt).turn.take();
    Ok(next == Next::Sleeps && took)
}

/// Returns the bytes that the thread with the turn writes, while another caller queues a request.
fn written_beside<X: Wait>(rt: &X, alloc: Global, client: &Client) -> Result<Vec<u8>, Fail> {
    let request = request(alloc, 0)?;
    let mut crowded = Crowded {
        rt,
        alloc,
        client,
        request: &request,
        taken: Vec::new(alloc),
    };
    let mut port = WriteEnd::leaving(rt, &**client);
    write_loop(rt, &mut crowded, &mut port);
    Ok(crowded.taken)
}

/// Returns whether the turn was given back, and the writer thread is to write a request.
fn is_left_to_the_writer<X: Wait>(rt: &X, client: &Client) -> bool {
    let held = client.held().lock(rt);
    held.core.lendable() == 30 && !held.turn.is_taken && !held.turn.sleeps
}

/// A caller that writes itself stops after its own frame, and leaves the frames that others queued meanwhile to the
/// writer thread.
// Seen to fail if a caller that writes its own frame writes on while others queue.
#[test]
fn a_caller_writes_its_own_frame_alone(rt: HostRuntime) -> Tested {
    let shared = client(rt.alloc())?;
    let took = takes_the_turn(&rt, rt.alloc(), &shared)?;
    let taken = written_beside(&rt, rt.alloc(), &shared)?;
    assert!(rt; took && taken.as_slice() == ASKED && is_left_to_the_writer(&rt, &shared));
    Ok(())
}

/// A writer that takes all bytes, each time after a while.
#[derive(Drop)]
struct Slow<'a, X> {
    clock: &'a X,
}

impl<X: Clock> Write for Slow<'_, X> {
    fn write(&mut self, buf: &[u8]) -> io::Result<usize> {
        thread::sleep(self.clock, Duration::from_millis(20));
        Ok(buf.len())
    }

    fn flush(&mut self) -> io::Result<()> {
        Ok(())
    }
}

/// Writes as a writer without the turn, until the connection has failed. Returns the number of bytes that it wrote.
fn writes_beside<X: Wait>(rt: &X, alloc: Global, client: &Client) -> usize {
    let mut bytes = Vec::new(alloc);
    let mut port = WriteEnd::staying(rt, &**client);
    write_loop(rt, &mut bytes, &mut port);
    bytes.len()
}

/// Writes a frame slowly, ends the connection, and returns the number of bytes that were left.
fn writes_slowly<X: Wait + Clock>(rt: &X, client: &Client) -> usize {
    let mut port = WriteEnd::leaving(rt, &**client);
    write_loop(rt, &mut Slow { clock: rt }, &mut port);
    let left = client.held().lock(rt).core.lendable();
    client.abandon();
    left
}

/// A writer that waits for its turn doesn't touch the bytes that another one has on loan: no byte is written twice.
// Seen to fail if a writer that waits for its turn reports for the thread that has the turn, so that bytes leave twice.
#[test]
fn a_writer_without_the_turn_reports_nothing(rt: HostRuntime) -> Tested {
    let waiting = client(rt.alloc())?;
    call(&rt, rt.alloc(), &waiting)?;
    let took = waiting.held().lock(&rt).turn.take();
    let writing = Arc::try_clone(&waiting)?;
    let written = thread::join(
        &rt,
        move || writes_beside(&rt, rt.alloc(), &waiting),
        move || writes_slowly(&rt, &writing),
    );
    assert!(rt; took && written == (0, 0));
    Ok(())
}

/// A writer that takes `room` bytes, counts its calls, and then breaks. It keeps the length of the first part that it
/// took.
#[derive(Drop)]
struct Counting {
    room: usize,
    first: usize,
    calls: usize,
}

impl Write for Counting {
    fn write(&mut self, buf: &[u8]) -> io::Result<usize> {
        if self.room == 0 {
            return Err(ErrorKind::BrokenPipe.into());
        }
        let count = buf.len().min(self.room);
        if self.calls == 0 {
            self.first = count;
        }
        self.room -= count;
        self.calls = self.calls.saturating_add(1);
        Ok(count)
    }

    fn flush(&mut self) -> io::Result<()> {
        Ok(())
    }
}

/// Feeds `count` requests that the core answers itself, each with 46 bytes.
fn ask_often<X: Wait>(rt: &X, alloc: Global, server: &Server, count: usize) {
    for _ in 0..count {
        let _ = feed(rt, alloc, server, NO_METHOD);
    }
}

/// If a thousand answers wait, they leave in batches, each after 64 loans of one answer, and not all at the end.
// Seen to fail if ready answers leave only if no job waits.
#[test]
fn ready_answers_leave_in_batches(rt: HostRuntime) -> Tested {
    let shared = server(rt.alloc())?;
    ask_often(&rt, rt.alloc(), &shared, 1000);
    let counting = Counting {
        room: 45000,
        first: 0,
        calls: 0,
    };
    let mut gather = Gather::new(rt.alloc(), counting);
    let mut port = WriteEnd::staying(&rt, &*shared);
    write_loop(&rt, &mut gather, &mut port);
    assert!(rt; gather.writer().first == 2944 && gather.writer().calls == 16);
    Ok(())
}
