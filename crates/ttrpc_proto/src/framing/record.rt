//! The record of a frame that has its bytes in the ring.
ghost use Rattle.std.specs.Prelude.{◌≡◌, ◌<◌, ◌^◌};
ghost use Rattle.ttrpc_proto.specs.Framing.Laid.{is_record_of, span};

use crate::framing::header::{MESSAGE_HEADER_LENGTH, MessageHeader};
use crate::framing::owners::Owners;

/// A frame with its header and payload in the ring.
#[derive(Debug, Drop)]
pub struct Record {
    pub header: MessageHeader,
    pub ticket: Option<u64>,
    pub is_unary_request: bool,
    pub owner: u64,
    /// The number of bytes in the payload.
    pub payload: usize,
    /// The number of bytes of frames that were thrown away, and are held directly after this frame.
    pub gone: usize,
}

impl Record {
    /// Returns the number of the record's bytes in the ring: the bytes of its frame, and the bytes that are held after
    /// the frame.
    pub fn span(&self) -> usize
        requires { span self.now < 2 ^ 64 }
        ensures { result ≡ span self.now }
    {
        MESSAGE_HEADER_LENGTH + self.payload + self.gone
    }

    /// Returns true if the frame is a unary request of one of these owners.
    pub fn is_request_of<W: Owners>(&self, owners: &W) -> bool
        ensures { result ≡ is_record_of (W.has owners.now) self.now }
    {
        self.is_unary_request && owners.has(self.owner)
    }
}
