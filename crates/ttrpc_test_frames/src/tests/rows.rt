//! Frames as data.
use std::alloc::Global;
use std::test::Fail;
use ttrpc_proto::{GenMessage, MessageHeader, Queued};
use ttrpc_wire::Blob;

/// A frame: its header's length, stream id, type and flags, and its payload.
#[derive(Clone, Copy, Debug)]
pub struct FrameRow(pub u32, pub u32, pub u8, pub u8, pub &'static [u8]);

pub fn header_of(row: &FrameRow) -> MessageHeader {
    MessageHeader {
        length: row.0,
        stream_id: row.1,
        type_: row.2,
        flags: row.3,
    }
}

pub fn message_of(alloc: Global, row: &FrameRow) -> Result<GenMessage, Fail> {
    Ok(GenMessage {
        header: header_of(row),
        payload: Blob::from_slice(alloc, row.4)?,
    })
}

/// Returns a frame to be written. It is a unary request of this owner if there is one.
pub fn queued_of(alloc: Global, row: &FrameRow, asks: Option<u64>) -> Result<Queued, Fail> {
    Ok(Queued {
        message: message_of(alloc, row)?,
        ticket: None,
        is_unary_request: asks.is_some(),
        owner: asks.unwrap_or(0),
    })
}
