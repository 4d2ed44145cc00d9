//! A client with a writer that fails, and one with refused memory, in one thread.
use crate::tests::ends::{Client, Tested, client};
use std::alloc::Global;
use std::io::ErrorKind;
use std::sync::Wait;
use ttrpc_bench::{AT_ONCE, Receiver};
use ttrpc_client::CallId;
use ttrpc_proto::{Error, Request};
use ttrpc_sync::{ConnectionLock, LockedState, ReadPort, WriteEnd, write_loop};
use ttrpc_sync_client::ClientRead;
use ttrpc_test_cores::server::ECHOED;
use ttrpc_wire::values::slices::front;
use ttrpc_wire::{Blob, Sequence, Text};

/// The frame of a request to `Echo` with the payload 01 02 03 and a timeout of 10.
const ASKED: &[u8] = b"\
    \0\0\0\x18\0\0\0\x01\x01\0\x0a\x09demo.Echo\x12\x04Echo\x1a\x03\x01\x02\x03\x20\x0a";

/// Returns that request.
fn request(alloc: Global) -> Result<Request, Error> {
    Ok(Request {
        service: Text::from_str(alloc, "demo.Echo")?,
        method: Text::from_str(alloc, "Echo")?,
        payload: Blob::from_slice(alloc, &[1, 2, 3])?,
        timeout_nano: 10,
        metadata: Sequence::new(alloc),
    })
}

/// Makes such a call.
fn call<X: Wait>(rt: &X, alloc: Global, client: &Client) -> Result<CallId, Error> {
    let request = request(alloc)?;
    let mut held = client.held().lock(rt);
    held.core.request(alloc, &request, 0)
}

/// Returns whether this is the error of such a writer.
fn is_broken(error: &Error) -> bool {
    matches!(error, Error::Socket(text) if text.as_str() == "broken pipe")
}

/// Returns whether the call has that failure as its outcome, each later call is refused with it, and nothing is lent.
fn is_over<X: Wait>(rt: &X, alloc: Global, client: &Client, id: CallId) -> Result<bool, Error> {
    let outcome = client.held().lock(rt).core.take_outcome(alloc, id);
    let has_ended = match &outcome {
        Some(Err(error)) => is_broken(error),
        _ => false,
    };
    let refusal = call(rt, alloc, client);
    let is_refused = match &refusal {
        Err(error) => is_broken(error),
        Ok(_) => false,
    };
    let mut buffer = [0; 64];
    let loan = client.held().lock(rt).lend(&mut buffer);
    Ok(has_ended && is_refused && loan.count == 0)
}

/// Returns whether a writer that takes `count` bytes, and then fails, has taken them, and the connection has failed.
fn fails_behind<X: Wait>(
    rt: &X,
    alloc: Global,
    client: &Client,
    count: usize,
) -> Result<bool, Error> {
    let id = call(rt, alloc, client)?;
    client.held().lock(rt).turn.take();
    let failing = AT_ONCE.ending(count, Some(ErrorKind::BrokenPipe));
    let mut writer = Receiver::new(alloc, failing)?;
    write_loop(rt, &mut writer, &mut WriteEnd::leaving(rt, &**client));
    let is_front = writer.taken.as_slice() == front(ASKED, count);
    Ok(is_front && is_over(rt, alloc, client, id)?)
}

#[test]
fn a_failing_writer_is_the_outcome(rt: HostRuntime) -> Tested {
    for count in 0..ASKED.len() {
        let shared = client(rt.alloc())?;
        assert!(rt; fails_behind(&rt, rt.alloc(), &shared, count)?);
    }
    Ok(())
}

/// Reads a response. Returns whether all of it is taken. If memory was refused, the connection has failed with that
/// error, which is returned.
fn reads<X: Wait>(rt: &X, alloc: Global, client: &Client, response: &[u8]) -> Result<bool, Error> {
    let mut port = ClientRead::new(rt, alloc, &**client);
    port.begin();
    match (
        port.take(response),
        client.held().lock(rt).core.failure(alloc),
    ) {
        (Some(count), None) => Ok(count == response.len()),
        (None, Some(failure)) => Err(failure),
        _ => Ok(false),
    }
}

/// Returns whether a call leaves as its frame, and gets its answer. The error of refused memory is returned.
fn is_answered<X: Wait>(rt: &X, alloc: Global, client: &Client) -> Result<bool, Error> {
    let id = call(rt, alloc, client)?;
    client.held().lock(rt).turn.take();
    let mut writer = Receiver::new(alloc, AT_ONCE)?;
    write_loop(rt, &mut writer, &mut WriteEnd::leaving(rt, &**client));
    if writer.taken.as_slice() != ASKED || !reads(rt, alloc, client, ECHOED)? {
        return Ok(false);
    }
    match client.held().lock(rt).core.take_outcome(alloc, id) {
        Some(Ok(response)) => Ok(response.payload.as_slice() == b"\x2a".as_slice()),
        Some(Err(error)) => Err(error),
        None => Ok(false),
    }
}

/// `tools/refuse-memory --named` refuses each allocation of this test.
#[test]
fn refused_memory_is_named_by_ports(rt: HostRuntime) -> Tested {
    let shared = client(rt.alloc())?;
    assert!(rt; is_answered(&rt, rt.alloc(), &shared)?);
    Ok(())
}
