//! Ports of one connection in two threads.
use crate::tests::ends::{Client, Server, Tested, client, client_failure, limited_server, server};
use crate::tests::server_tests::Echo;
use std::alloc::Global;
use std::sync::{Arc, Wait};
use std::test::Fail;
use std::thread;
use std::time::{Clock, Duration};
use ttrpc_proto::Error;
use ttrpc_server::JobId;
use ttrpc_sync::{ConnectionLock, JobPort, ReadPort};
use ttrpc_sync_client::{CALLS_TO_REST, CallShape};
use ttrpc_sync_server::{ServerJobs, ServerRead};
use ttrpc_test_cores::server::ASKED;

fn a_while() -> Duration {
    Duration::from_millis(20)
}

/// Waits for a job as a worker, and returns its id.
fn waited_for<X: Wait + Drop>(rt: &X, alloc: Global, shared: &Server) -> Option<JobId> {
    let mut port = ServerJobs::new(rt, alloc, &**shared);
    JobPort::<Echo<X>>::begin(&mut port);
    match JobPort::<Echo<X>>::take(&mut port) {
        Some((id, _)) => Some(id),
        None => None,
    }
}

/// Feeds these bytes to the server, after a while.
fn fed<X: Wait + Clock>(rt: &X, alloc: Global, shared: &Server, bytes: &[u8]) -> Option<usize> {
    thread::sleep(rt, a_while());
    let mut port = ServerRead::new(rt, alloc, &**shared);
    port.begin();
    if bytes.is_empty() {
        return None;
    }
    port.take(bytes)
}

/// Makes calls, each alone, and ends them, so that the thread that only reads comes to rest.
fn make_lone_calls(rt: &impl Wait, shared: &Client) {
    let mut held = shared.held().lock(rt);
    for id in 0..CALLS_TO_REST {
        let short = CallShape {
            has_deadline: false,
            is_next: true,
            is_short: true,
        };
        let _ = held.reading.begin_call(id, short);
        held.reading.end_call(id);
        held.reading.finish_call(id, true);
    }
}

/// Begins a call with a deadline, after a while.
fn call_later<X: Wait + Clock>(rt: &X, shared: &Client) -> bool {
    thread::sleep(rt, a_while());
    let mut held = shared.held().lock(rt);
    let limited = CallShape {
        has_deadline: true,
        is_next: true,
        is_short: true,
    };
    let is_alone = held.reading.begin_call(99, limited);
    let wakes = held.reading.wakes();
    drop(held);
    shared.wake_reader();
    wakes && !is_alone
}

/// Abandons the client, after a while.
fn abandon_later<X: Wait + Clock>(rt: &X, shared: &Client) {
    thread::sleep(rt, a_while());
    shared.abandon();
}

/// The thread that rests is woken by a call with a caller that doesn't read.
// Should fail if the reader thread never reads.
#[test]
fn a_call_wakes_the_reader(rt: HostRuntime) -> Tested {
    let shared = client(rt.alloc())?;
    make_lone_calls(&rt, &shared);
    let (reader, caller) = (Arc::try_clone(&shared)?, shared);
    let (reads, wakes) = thread::join(
        &rt,
        move || reader.wait_to_read(&rt),
        move || call_later(&rt, &caller),
    );
    assert!(rt; reads && wakes);
    Ok(())
}

/// The thread that rests ends after the last client is gone.
// Should fail if the reader thread reads without the turn.
#[test]
fn the_reader_ends_with_its_client(rt: HostRuntime) -> Tested {
    let shared = client(rt.alloc())?;
    make_lone_calls(&rt, &shared);
    let (reader, last) = (Arc::try_clone(&shared)?, Arc::try_clone(&shared)?);
    let (reads, _) = thread::join(
        &rt,
        move || reader.wait_to_read(&rt),
        move || abandon_later(&rt, &last),
    );
    let failure = client_failure(&rt, rt.alloc(), &shared);
    assert!(rt; !reads && matches!(failure, Some(Error::LocalClosed)));
    Ok(())
}

/// Returns a server with room for one waiting job and with two of them. Its first reader has the turn.
fn full_server(rt: &impl Wait, alloc: Global) -> Result<Server, Fail> {
    let shared = limited_server(alloc, Some(1), None)?;
    shared.held().lock(rt).read_turn.wants(0, None);
    let mut port = ServerRead::new(rt, alloc, &*shared);
    for _ in 0..2 {
        port.begin();
        port.take(ASKED);
    }
    Ok(shared)
}

/// Waits to read on. Returns whether a job has begun then, so that the other one may wait.
fn reads_behind_a_job<X: Wait + Clock>(rt: &X, shared: &Server) -> bool {
    shared.wait_to_read(rt, 0) && shared.held().lock(rt).core.jobs_waiting() == 1
}

/// Takes a job as a worker, after a while.
fn take_later<X: Wait + Clock + Drop>(rt: &X, alloc: Global, shared: &Server) -> Option<JobId> {
    thread::sleep(rt, a_while());
    waited_for(rt, alloc, shared)
}

/// A reader that waits because too much waits is woken when less waits.
// Seen to fail if a reader reads on whatever waits; a reader isn't woken once fewer bytes wait.
#[test]
fn a_job_that_begins_lets_a_reader_read_on(rt: HostRuntime) -> Tested {
    let shared = full_server(&rt, rt.alloc())?;
    let (worker, reader) = (Arc::try_clone(&shared)?, shared);
    let (reads, id) = thread::join(
        &rt,
        move || reads_behind_a_job(&rt, &reader),
        move || take_later(&rt, rt.alloc(), &worker),
    );
    assert!(rt; reads && id == Some(1));
    Ok(())
}

/// A worker that sleeps is woken by a request.
#[test]
fn a_request_wakes_a_worker(rt: HostRuntime) -> Tested {
    let shared = server(rt.alloc())?;
    let (worker, reader) = (Arc::try_clone(&shared)?, shared);
    let (id, count) = thread::join(
        &rt,
        move || waited_for(&rt, rt.alloc(), &worker),
        move || fed(&rt, rt.alloc(), &reader, ASKED),
    );
    assert!(rt; id == Some(1) && count == Some(30));
    Ok(())
}
