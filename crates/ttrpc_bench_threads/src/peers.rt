//! Peers that read and write frames one after the other, as a test asks.
ghost use Rattle.std.specs.Prelude.{◌<◌, ◌^◌, length, IfOk};

use crate::handlers::response_of_length;
use crate::sites::request;
use std::alloc::Global;
use std::io::{Read, Write};
use ttrpc_proto::{Error, GenMessage, GenMessageError, MessageHeader, Result as Answered};
use ttrpc_transport::PipeConnection;
use ttrpc_wire::Blob;
use ttrpc_wire::codec::message::{WireMessage, encode};
use ttrpc_wire::values::slices::behind;

/// Writes all bytes.
pub fn write_all(connection: &PipeConnection, bytes: &[u8]) -> Answered<()> {
    let mut rest = bytes;
    for _ in 0..bytes.len() {
        if rest.is_empty() {
            return Ok(());
        }
        rest = behind(rest, connection.write(rest)?);
    }
    Ok(())
}

/// Reads a frame.
pub fn read_frame<R: Read>(alloc: Global, reader: &mut R) -> Answered<GenMessage> {
    match GenMessage::read_from(alloc, reader) {
        Ok(message) => Ok(message),
        Err(GenMessageError::InternalError(error) | GenMessageError::ReturnError(_, error)) => {
            Err(error)
        }
    }
}

/// Counts the frames that come until the end.
pub fn frames_until_the_end<R: Read>(alloc: Global, reader: &mut R) -> usize {
    let mut count: usize = 0;
    for _ in 0..1000000 {
        if read_frame(alloc, reader).is_err() {
            break;
        }
        count = count.saturating_add(1);
    }
    count
}

/// Reads a frame, and returns its stream id.
pub fn next_id(alloc: Global, connection: &PipeConnection) -> Answered<u32> {
    let mut reader = connection;
    Ok(read_frame(alloc, &mut reader)?.header.stream_id)
}

/// Returns the bytes of a message, which can fail only if memory is refused.
fn encoded<M: WireMessage>(alloc: Global, message: &M) -> Answered<Vec<u8>>
    ensures { IfOk result (λ bytes. length bytes.items < 2 ^ 32) }
{
    match encode(alloc, message) {
        Ok(bytes) => Ok(bytes),
        Err(_) => Err(Error::NoMemory),
    }
}

/// Responds to a call with `length` bytes.
pub fn answer<W: Write>(alloc: Global, writer: &mut W, id: u32, length: usize) -> Answered<()> {
    let payload = encoded(alloc, &response_of_length(alloc, length)?)?;
    let message = GenMessage {
        header: MessageHeader::new_response(id, payload.len() as u32),
        payload: Blob::from_vec(payload),
    };
    message.write_to(alloc, writer)
}

/// Returns the bytes of `count` requests of a method of `demo.Echo` without a payload, with the odd ids from 1 on.
pub fn requests(alloc: Global, method: &str, count: u32) -> Answered<Vec<u8>> {
    requests_with(alloc, method, b"", count)
}

/// Returns the bytes of `count` such requests with this payload.
pub fn requests_with(alloc: Global, method: &str, payload: &[u8], count: u32) -> Answered<Vec<u8>> {
    let payload = encoded(alloc, &request(alloc, method, payload, 0)?)?;
    let mut bytes = Vec::new(alloc);
    let mut id: u32 = 1;
    for _ in 0..count {
        let header = MessageHeader::new_request(id, payload.len() as u32);
        bytes.extend_from_slice(&header.to_bytes())?;
        bytes.extend_from_slice(payload.as_slice())?;
        id = id.wrapping_add(2);
    }
    Ok(bytes)
}
