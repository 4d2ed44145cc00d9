//! A client and a server with cores that threads share.
use std::alloc::Global;
use std::sync::{Arc, Wait};
use std::test::Fail;
use ttrpc_client::{CallId, ClientCore, ClientKind};
use ttrpc_proto::{Error, Request, Response, Status};
use ttrpc_secure::{Plain, plain_context};
use ttrpc_server::{Rules, ServerCore};
use ttrpc_sync::{ConnectionLock, PoolCore, WriteEnd, write_loop};
use ttrpc_sync_client::ClientLock;
use ttrpc_sync_server::{Backlog, ServerLock};
use ttrpc_test_cores::server::registry;
use ttrpc_wire::codec::message::WireMessage;
use ttrpc_wire::{Blob, Text};

pub type Tested = Result<(), Fail>;

pub type Client = Arc<ClientLock<Plain, Plain>, Global>;

pub type Server = Arc<ServerLock<Plain, Plain>, Global>;

/// Returns a client without calls.
pub fn client(alloc: Global) -> Result<Client, Error> {
    let core = ClientCore::new(alloc, ClientKind::Sync, plain_context(alloc))?;
    Ok(Arc::new(alloc, ClientLock::new(core))?)
}

/// Returns a server of `demo.Echo` without limits on waiting jobs.
pub fn server(alloc: Global) -> Result<Server, Fail> {
    limited_server(alloc, None, None)
}

/// Returns the same, with these limits on waiting jobs and bytes.
pub fn limited_server(
    alloc: Global,
    max_jobs: Option<u64>,
    max_bytes: Option<u64>,
) -> Result<Server, Fail> {
    let registry = registry(alloc)?;
    let core = ServerCore::new(alloc, Rules::Sync, registry, plain_context(alloc))?;
    let pool = PoolCore::new(1, 0, 1);
    let backlog = Backlog::new(max_jobs, max_bytes);
    Ok(Arc::new(alloc, ServerLock::new(core, pool, backlog))?)
}

/// Calls `Echo` with the payload 2a.
pub fn call(rt: &impl Wait, alloc: Global, client: &Client) -> Result<CallId, Fail> {
    limited_call(rt, alloc, client, 0)
}

/// Does the same with a timeout in nanoseconds. 0 is no timeout.
pub fn limited_call(
    rt: &impl Wait,
    alloc: Global,
    client: &Client,
    timeout_nano: i64,
) -> Result<CallId, Fail> {
    let request = request(alloc, timeout_nano)?;
    let mut held = client.held().lock(rt);
    Ok(held.core.request(alloc, &request, 0)?)
}

/// Returns a client that has made one such call.
pub fn calling_client(rt: &impl Wait, alloc: Global) -> Result<Client, Fail> {
    let client = client(alloc)?;
    call(rt, alloc, &client)?;
    Ok(client)
}

/// Returns the request of such a call.
pub fn request(alloc: Global, timeout_nano: i64) -> Result<Request, Fail> {
    let mut request = Request::new(alloc);
    request.service = Text::from_str(alloc, "demo.Echo")?;
    request.method = Text::from_str(alloc, "Echo")?;
    request.payload = Blob::from_slice(alloc, b"\x2a")?;
    request.timeout_nano = timeout_nano;
    Ok(request)
}

/// Returns a response with an OK status and the payload 2a.
pub fn echo(alloc: Global) -> Result<Response, Error> {
    Ok(Response {
        status: Some(Status::new(alloc)),
        payload: Blob::from_slice(alloc, b"\x2a")?,
    })
}

/// Returns whether the outcome of the call is that response.
pub fn has_outcome(rt: &impl Wait, alloc: Global, client: &Client, id: CallId) -> bool {
    match client.held().lock(rt).core.take_outcome(alloc, id) {
        Some(Ok(response)) => response.payload.as_slice() == b"\x2a".as_slice(),
        _ => false,
    }
}

/// Returns the failure of the client's connection.
pub fn client_failure(rt: &impl Wait, alloc: Global, client: &Client) -> Option<Error> {
    client.held().lock(rt).core.failure(alloc)
}

/// Returns the failure of the server's connection.
pub fn server_failure(rt: &impl Wait, alloc: Global, server: &Server) -> Option<Error> {
    server.held().lock(rt).core.failure(alloc)
}

/// Returns whether this is a socket's error with this text.
pub fn is_socket(failure: &Option<Error>, text: &str) -> bool {
    match failure {
        Some(Error::Socket(told)) => told.as_str() == text,
        _ => false,
    }
}

/// Returns the bytes that a thread writes after it took the turn.
pub fn written<X: Wait, S: ConnectionLock>(rt: &X, alloc: Global, shared: &S) -> Vec<u8> {
    let mut bytes = Vec::new(alloc);
    let mut port = WriteEnd::leaving(rt, shared);
    write_loop(rt, &mut bytes, &mut port);
    bytes
}
