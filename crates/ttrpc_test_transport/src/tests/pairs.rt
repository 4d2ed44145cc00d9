//! Listeners of this machine, and pairs of connections.

use std::alloc::Global;
use std::fs;
use std::net::{Net, TcpListener, TcpStream};
use std::rt::Files;
use std::test::Fail;
use std::time::Duration;
use ttrpc_transport::{ClientConnection, PipeConnection, PipeListener};

/// The place where a test listens: at a free port, or at this path.
#[derive(Clone, Copy)]
pub enum Site {
    Port,
    Path(&'static str),
}

/// A listener, and its address.
#[derive(Drop)]
pub struct Listening {
    pub listener: PipeListener,
    pub address: String,
}

/// A client's connection, the pipe to read and write it, and the other side's end.
#[derive(Drop)]
pub struct Pair {
    pub client: ClientConnection,
    pub connection: PipeConnection,
    pub accepted: PipeConnection,
}

/// Returns a duration in which another thread comes to wait.
pub fn a_while() -> Duration {
    Duration::from_millis(20)
}

/// Returns the address of a listener by TCP.
pub fn address_of(alloc: Global, listener: &PipeListener) -> Result<String, Fail> {
    let address = listener.local_addr()?.ok_or("no port")?;
    Ok(format!(in alloc; "tcp://{address}")?)
}

/// Returns a listener at the site. Its connections send their writes at once.
pub fn listen<R>(rt: &R, alloc: Global, site: Site) -> Result<Listening, Fail>
where
    R: Files + Net<Listener = TcpListener, Stream = TcpStream>,
{
    match site {
        Site::Port => {
            let listener = PipeListener::new(rt, alloc, "tcp://127.0.0.1:0", true)?;
            let address = address_of(alloc, &listener)?;
            Ok(Listening { listener, address })
        }
        Site::Path(path) => {
            let _ = fs::remove_file(rt, path);
            let address = format!(in alloc; "unix://{path}")?;
            let listener = PipeListener::new(rt, alloc, address.as_str(), true)?;
            Ok(Listening { listener, address })
        }
    }
}

/// Connects to the listener, and returns both ends.
pub fn join<R>(rt: &R, alloc: Global, listener: &PipeListener, address: &str) -> Result<Pair, Fail>
where
    R: Net<Stream = TcpStream>,
{
    let client = ClientConnection::client_connect(rt, alloc, address, true)?;
    let connection = client.get_pipe_connection()?;
    let accepted = listener.accept()?.ok_or("closed")?;
    Ok(Pair {
        client,
        connection,
        accepted,
    })
}

/// Connects to a listener at the site, and returns both ends. If a file was made, it is removed again.
pub fn connect<R>(rt: &R, alloc: Global, site: Site) -> Result<Pair, Fail>
where
    R: Files + Net<Listener = TcpListener, Stream = TcpStream>,
{
    let listening = listen(rt, alloc, site)?;
    clean_behind(
        rt,
        site,
        join(rt, alloc, &listening.listener, listening.address.as_str()),
    )
}

/// Removes the file at the site, and returns the result.
pub fn clean_behind<R: Files, T: Drop>(
    rt: &R,
    site: Site,
    done: Result<T, Fail>,
) -> Result<T, Fail> {
    if let Site::Path(path) = site {
        let _ = fs::remove_file(rt, path);
    }
    done
}

/// Writes a text of at most eight bytes at one end, and returns whether it is read at the other.
pub fn passes(from: &PipeConnection, to: &PipeConnection, text: &[u8]) -> Result<bool, Fail> {
    let written = from.write(text)?;
    let mut buffer = [0u8; 8];
    let count = to.read(&mut buffer)?;
    Ok(written == text.len() && &buffer[..count] == text)
}

/// Returns whether the connection is at its end.
pub fn is_ended(connection: &PipeConnection) -> Result<bool, Fail> {
    Ok(connection.read(&mut [0u8; 8])? == 0)
}
