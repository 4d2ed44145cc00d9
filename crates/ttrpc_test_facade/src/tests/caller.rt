//! A caller that makes one call by `Client::request`.
use std::net::{Net, TcpListener, TcpStream};
use std::rt::Files;
use std::test::Fail;
use ttrpc::proto::{Blob, Sequence, Text};
use ttrpc::sync::{NoWatch, Runtime};
use ttrpc::{Client, Request, Result};
use ttrpc_echo::start_server;

/// Returns the payload that the server at the address answers to `Echo` of `demo.Echo` within five seconds.
fn echo<R>(rt: R, address: &str, bytes: &[u8]) -> Result<Blob>
where
    R: Runtime + Files + Net<Listener = TcpListener, Stream = TcpStream>,
{
    let alloc = rt.alloc();
    let client = Client::connect(rt, address, true)?;
    let response = client.request(Request {
        service: Text::from_str(alloc, "demo.Echo")?,
        method: Text::from_str(alloc, "Echo")?,
        payload: Blob::from_slice(alloc, bytes)?,
        timeout_nano: 5_000_000_000,
        metadata: Sequence::new(alloc),
    })?;
    Ok(response.payload)
}

#[test]
fn the_caller_gets_its_bytes(rt: HostRuntime) -> std::result::Result<(), Fail> {
    let server = start_server(rt, "tcp://127.0.0.1:0", true, NoWatch {})?;
    let place = server.local_addr()?.ok_or("no port")?;
    let address = format!(in rt.alloc(); "tcp://{place}")?;
    let answer = echo(rt, address.as_str(), b"2a")?;
    assert!(rt; answer.as_slice() == b"2a".as_slice());
    server.shutdown();
    Ok(())
}
