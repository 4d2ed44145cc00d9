//! A bare echo over loopback: each byte is written back as it comes.
use crate::calling::Echoes;
use std::alloc::Global;
use std::net::{Net, TcpListener, TcpStream};
use std::rt::Files;
use std::sync::Arc;
use std::thread::Builder;
use ttrpc_load_polled::same;
use ttrpc_proto::{Error, Result};
use ttrpc_sync::{Host, Runtime};
use ttrpc_transport::{ClientConnection, PipeConnection, PipeListener};
use ttrpc_wire::Text;
use ttrpc_wire::values::slices::behind;

/// A connection to a bare echo.
#[derive(Drop)]
pub struct RawEcho {
    pub stream: PipeConnection,
}

impl<R: Host> Echoes<R> for RawEcho {
    fn echo(&self, rt: &R, payload: &[u8]) -> Result<()> {
        write_all(&self.stream, payload)?;
        let mut answer = Vec::from_elem(rt.alloc(), 0u8, payload.len())?;
        read_all(rt.alloc(), &self.stream, answer.as_mut_slice())?;
        same(rt.alloc(), answer.as_slice(), payload)
    }
}

/// Writes all bytes.
pub fn write_all(stream: &PipeConnection, bytes: &[u8]) -> Result<()> {
    let mut rest = bytes;
    for _ in 0..bytes.len() {
        if rest.is_empty() {
            break;
        }
        rest = behind(rest, stream.write(rest)?);
    }
    Ok(())
}

fn read_all(alloc: Global, stream: &PipeConnection, buffer: &mut [u8]) -> Result<()> {
    let mut filled = 0;
    for _ in 0..buffer.len() {
        if filled >= buffer.len() {
            break;
        }
        let count = stream.read(&mut buffer[filled..])?;
        if count == 0 {
            return Err(Error::Others(Text::from_str(alloc, "the echo has ended")?));
        }
        filled = filled.saturating_add(count);
    }
    Ok(())
}

/// Starts a bare echo at a free port, and returns its address. The echo ends with the process.
pub fn start_raw<R>(rt: &R, nodelay: bool) -> Result<String>
where
    R: Runtime + Files + Net<Listener = TcpListener, Stream = TcpStream> + 'static,
{
    let listener = PipeListener::new(rt, rt.alloc(), "tcp://127.0.0.1:0", nodelay)?;
    let Some(address) = listener.local_addr()? else {
        return Err(Error::LocalClosed);
    };
    let mine = rt.clone()?;
    match Builder::new().spawn(rt, move || accept_all(&mine, &listener)) {
        Ok(_) => Ok(format!(in rt.alloc(); "tcp://{address}")?),
        Err(error) => Err(Error::Nix(error.kind())),
    }
}

fn accept_all<R: Runtime + 'static>(rt: &R, listener: &PipeListener) {
    for _ in rt.forever() {
        let Ok(Some(stream)) = listener.accept() else {
            return;
        };
        let mine = match rt.clone() {
            Ok(mine) => mine,
            Err(_) => return,
        };
        if Builder::new()
            .spawn(rt, move || echo_all(&mine, &stream))
            .is_err()
        {
            return;
        }
    }
    unreachable!()
}

fn echo_all<R: Host>(rt: &R, stream: &PipeConnection) {
    let mut buffer = [0u8; 65536];
    for _ in rt.forever() {
        match stream.read(&mut buffer) {
            Ok(0) | Err(_) => return,
            Ok(count) => {
                if write_all(stream, &buffer[..count]).is_err() {
                    return;
                }
            }
        }
    }
    unreachable!()
}

/// Connects to the echo at this address.
pub fn connect_raw<R: Net<Stream = TcpStream>>(
    rt: &R,
    alloc: Global,
    address: &str,
    nodelay: bool,
) -> Result<RawEcho> {
    let connected = ClientConnection::client_connect(rt, alloc, address, nodelay)?;
    Ok(RawEcho {
        stream: connected.get_pipe_connection()?,
    })
}
