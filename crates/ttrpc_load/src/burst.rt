//! Many calls in one write, and the times of their answers.
use crate::figures::{Moments, percentile};
use crate::measuring::Measured;
use crate::raw::write_all;
use std::alloc::Global;
use std::io::BufReader;
use std::sync::Arc;
use std::thread::{Builder, JoinHandle};
use ttrpc_load_polled::{Load, request_of};
use ttrpc_proto::{Error, GenMessage, GenMessageError, MessageHeader, Result};
use ttrpc_sync::{Runtime, moment};
use ttrpc_transport::{ClientConnection, PipeConnection};
use ttrpc_wire::codec::message::encode;

/// Writes all calls of the load at once, on one connection, and returns the times of the answers, from the first write
/// on. One call is made before, so that the server's threads have started.
pub fn burst<R: Measured + 'static>(
    rt: &R,
    address: &str,
    load: Load,
    nodelay: bool,
) -> Result<Moments> {
    let client = ClientConnection::client_connect(rt, rt.alloc(), address, nodelay)?;
    let connection = Arc::new(rt.alloc(), client.get_pipe_connection()?)?;
    call_alone(rt, &connection, load)?;
    let requests = requests_of(rt.alloc(), load)?;
    let start = moment(rt)?;
    let writer = start_writer(rt, Arc::try_clone(&connection)?, requests)?;
    let times = times_of_answers(rt, &connection, load.calls, start)?;
    writer.join(rt)?;
    Ok(moments_of(times.as_slice()))
}

/// Makes one call of the load, and waits for its answer.
fn call_alone<R: Measured + 'static>(
    rt: &R,
    connection: &Arc<PipeConnection, Global>,
    load: Load,
) -> Result<()> {
    let alone = Load { calls: 1, ..load };
    write_all(connection, requests_of(rt.alloc(), alone)?.as_slice())?;
    let _ = times_of_answers(rt, connection, 1, 0)?;
    Ok(())
}

/// Returns the requests of the load, each in its frame, one after the other.
fn requests_of(alloc: Global, load: Load) -> Result<Vec<u8>> {
    let payload = Vec::from_elem(alloc, 7u8, load.bytes)?;
    // Encoding this request can fail only if memory is refused.
    let Ok(request) = encode(alloc, &request_of(alloc, payload.as_slice())?) else {
        return Err(Error::NoMemory);
    };
    let mut requests = Vec::new(alloc);
    let mut id: u32 = 1;
    for _ in 0..load.calls {
        let header = MessageHeader::new_request(id, request.len() as u32);
        requests.extend_from_slice(&header.to_bytes())?;
        requests.extend_from_slice(request.as_slice())?;
        id = id.wrapping_add(2);
    }
    Ok(requests)
}

fn start_writer<R: Runtime>(
    rt: &R,
    connection: Arc<PipeConnection, Global>,
    requests: Vec<u8>,
) -> Result<JoinHandle<Result<()>>> {
    let writes = move || write_all(&connection, requests.as_slice());
    match Builder::new().spawn(rt, writes) {
        Ok(thread) => Ok(thread),
        Err(error) => Err(Error::Nix(error.kind())),
    }
}

/// Returns the time from the start to each of `count` answers, in nanoseconds.
fn times_of_answers<R: Measured>(
    rt: &R,
    connection: &PipeConnection,
    count: usize,
    start: u64,
) -> Result<Vec<u64>> {
    let mut reader = match BufReader::new(rt.alloc(), connection) {
        Ok(reader) => reader,
        Err(error) => return Err(Error::Nix(error.kind())),
    };
    let mut times = Vec::from_elem(rt.alloc(), u64::MAX, count)?;
    for time in times.iter_mut() {
        match GenMessage::read_from(rt.alloc(), &mut reader) {
            Ok(_) => *time = moment(rt)?.saturating_sub(start),
            Err(GenMessageError::InternalError(error) | GenMessageError::ReturnError(_, error)) => {
                return Err(error);
            }
        }
    }
    Ok(times)
}

fn moments_of(times: &[u64]) -> Moments {
    let at = |percent| percentile(times, percent).unwrap_or(0);
    Moments {
        first: times.first().copied().unwrap_or(0),
        tenth: at(10),
        half: at(50),
        ninety: at(90),
        last: at(100),
    }
}
