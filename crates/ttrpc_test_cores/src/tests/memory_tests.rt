//! A client with refused memory: each error says so by its name.
use crate::tests::client::{ANSWERED, ASKED};
use crate::tests::kinds::PlainClient;
use crate::tests::steps::writes;
use crate::tests::under_test::Tested;
use std::alloc::Global;
use ttrpc_bench::checks::check;
use ttrpc_client::{ClientCore, ClientKind};
use ttrpc_proto::{Error, Request};
use ttrpc_secure::plain_context;
use ttrpc_wire::{Blob, Sequence, Text};

/// Returns a request to `Echo` of `demo.Echo` with the payload 01 02 03 and a timeout of 10.
fn request(alloc: Global) -> Result<Request, Error> {
    Ok(Request {
        service: Text::from_str(alloc, "demo.Echo")?,
        method: Text::from_str(alloc, "Echo")?,
        payload: Blob::from_slice(alloc, &[1, 2, 3])?,
        timeout_nano: 10,
        metadata: Sequence::new(alloc),
    })
}

/// Takes a frame. Returns whether all of it is taken. If memory was refused, the connection has failed with that error,
/// which is returned.
fn takes(alloc: Global, core: &mut PlainClient, frame: &[u8]) -> Result<bool, Error> {
    match (core.feed(alloc, frame), core.failure(alloc)) {
        (Ok(count), None) => Ok(count == frame.len()),
        (Err(_), Some(failure)) => Err(failure),
        _ => Ok(false),
    }
}

/// Returns whether a call leaves as its frame, and gets its answer.
fn is_answered(alloc: Global, core: &mut PlainClient) -> Result<bool, Error> {
    let request = request(alloc)?;
    let id = core.request(alloc, &request, 0)?;
    if !writes(core, ASKED) || !takes(alloc, core, ANSWERED)? {
        return Ok(false);
    }
    match core.take_outcome(alloc, id) {
        Some(Ok(response)) => Ok(response.payload.as_slice() == b"\x2a".as_slice()),
        Some(Err(error)) => Err(error),
        None => Ok(false),
    }
}

/// `tools/refuse-memory --named` refuses each allocation of this test.
#[test]
fn refused_memory_is_named_by_a_client(rt: HostRuntime) -> Tested {
    let alloc = rt.alloc();
    let mut core = ClientCore::new(alloc, ClientKind::Sync, plain_context(alloc))?;
    check(is_answered(alloc, &mut core)?)
}
