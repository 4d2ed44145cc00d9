//! A message as it is in a frame, before it is decoded.
ghost use Rattle.std.specs.Prelude.{◌≡◌, ◌≢◌, ◌≤◌, ◌↔◌, [], true, IsOk, IfErr};
ghost use Rattle.ttrpc_proto.specs.Framing.Header.Oversize.{oversize_error};

use crate::framing::header::oversize::check_oversize;
use crate::framing::header::{MESSAGE_LENGTH_MAX, MessageHeader};
use crate::{Error, Result};
use std::alloc::{AllocError, Global};
use ttrpc_wire::{Blob, TryClone};

/// A header, and the bytes of its message.
#[derive(Debug, Drop, PartialEq, Eq)]
pub struct GenMessage {
    pub header: MessageHeader,
    pub payload: Blob,
}

/// The reason why no message could be taken from a connection.
#[derive(Debug, Drop, PartialEq)]
pub enum GenMessageError {
    /// The connection can't go on.
    InternalError(Error),
    /// The message can't be taken, and its sender is to get this error. The header is the message's.
    ReturnError(MessageHeader, Error),
}

impl From<Error> for GenMessageError {
    ghost use Rattle.ttrpc_proto.specs.declared.framing.gen_message.GenMessageError.TheVariants.{InternalError};

    ghost from_gives = { λ error e. e ≡ InternalError error };

    fn from(error: Error) -> GenMessageError {
        GenMessageError::InternalError(error)
    }
}

impl TryClone for GenMessage {
    fn try_clone(&self) -> std::result::Result<GenMessage, AllocError> {
        Ok(GenMessage {
            header: self.header,
            payload: self.payload.try_clone()?,
        })
    }
}

impl GenMessage {
    /// Returns a message with a header of zeros and no payload. Takes no memory.
    pub fn new(alloc: Global) -> GenMessage
        ensures { result ≡ record {
          header = record { length = 0; stream_id = 0; type_ = 0; flags = 0 };
          payload = [];
        } }
    {
        GenMessage {
            header: MessageHeader::default(),
            payload: Blob::new(alloc),
        }
    }

    /// Returns an error if the header states more bytes than a message may have.
    pub fn check(&self, alloc: Global) -> Result<()>
        ensures ok { IsOk result ↔ (self.now.header.length ≤ MESSAGE_LENGTH_MAX) }
        ensures err { IfErr result (λ e. e ≢ Error.NoMemory
            → e ≡ oversize_error true self.now.header.length) }
    {
        check_oversize(alloc, self.header.length as usize, true)
    }
}
