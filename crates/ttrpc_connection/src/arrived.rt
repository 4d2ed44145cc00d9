//! A whole frame, after it passed the inbound half.
ghost use Rattle.std.specs.Prelude.{◌≡◌, IfOk, OnErr};
ghost use Rattle.ttrpc_connection.specs.Frames.{Opens, header_of_frame};

use std::alloc::{AllocError, Global};
use ttrpc_proto::{Incoming, MessageHeader};
use ttrpc_secure::sending::associated_bytes;
use ttrpc_secure::{InboundTransform, TransformError};
use ttrpc_wire::{Blob, Text};

/// The result of passing a frame's payload through the inbound half.
#[derive(Debug, Drop, PartialEq, Eq)]
pub enum InboundResult {
    /// The payload is longer than a message may be. Such a payload isn't kept, and doesn't pass the half.
    TooLong,
    /// The half opened the payload to these bytes.
    Opened(Blob),
    /// The half refused the payload, for this reason.
    Refused(Text),
}

/// A whole frame, as a core gets it.
#[derive(Debug, Drop, PartialEq, Eq)]
pub struct Arrived {
    pub header: MessageHeader,
    pub opening: InboundResult,
    /// The moment of the call that brought the frame's last byte, in nanoseconds.
    pub now: u64,
}

/// Passes a frame through the inbound half, unless the frame is too long. An `Err` means that memory was refused, and changes nothing.
pub fn open<I: InboundTransform>(
    alloc: Global,
    half: &mut I,
    incoming: Incoming,
    now: u64,
) -> Result<Arrived, AllocError>
    ensures ok { IfOk result
        (λ arrived. Opens I.InboundTransform half.old incoming arrived.opening half.new) }
    ensures header { IfOk result (λ arrived. arrived.header ≡ header_of_frame incoming) }
    ensures at { IfOk result (λ arrived. arrived.now ≡ now) }
    ensures err { OnErr result (half.new ≡ half.old) }
{
    match incoming {
        Incoming::Oversize(header) => Ok(Arrived {
            header,
            opening: InboundResult::TooLong,
            now,
        }),
        Incoming::Frame(message) => {
            let header = message.header;
            let associated = associated_bytes(&header);
            match half.transform_inbound_vec(alloc, message.payload.into_vec(), &associated) {
                Ok(plain) => Ok(Arrived {
                    header,
                    opening: InboundResult::Opened(Blob::from_vec(plain)),
                    now,
                }),
                Err(TransformError::Refused(why)) => Ok(Arrived {
                    header,
                    opening: InboundResult::Refused(why),
                    now,
                }),
                Err(TransformError::NoMemory) => Err(AllocError),
            }
        }
    }
}
