//! The reason why a stream moved no whole frame.
ghost use Rattle.std.specs.Prelude.{◌≡◌};
ghost use Rattle.ttrpc_proto.specs.Framing.Streaming.{TellsFailure};
ghost use Rattle.ttrpc_proto.specs.declared.framing.failure.StreamFailure.TheVariants.{Io, NoMemory as ANoMemory};

use crate::Error;
use crate::error::causes::socket_of;
use std::alloc::{AllocError, Global};
use std::io;

/// The reason why a stream moved no whole frame.
#[derive(Debug, Drop)]
pub enum StreamFailure {
    /// The reader or the writer failed.
    Io(io::Error),
    /// The allocator refused memory.
    NoMemory,
}

impl From<io::Error> for StreamFailure {
    ghost from_gives = { λ error failure. failure ≡ Io error };

    fn from(error: io::Error) -> StreamFailure {
        StreamFailure::Io(error)
    }
}

impl From<AllocError> for StreamFailure {
    ghost from_gives = { λ _ failure. failure ≡ ANoMemory };

    fn from(_refused: AllocError) -> StreamFailure {
        StreamFailure::NoMemory
    }
}

impl StreamFailure {
    /// Returns the error that reports the failure: `Socket` with the printed text of the stream's own error, or
    /// `NoMemory`.
    pub fn into_error(self, alloc: Global) -> Error
        ensures { TellsFailure self result }
    {
        match self {
            StreamFailure::Io(error) => socket_of(alloc, &error),
            StreamFailure::NoMemory => Error::NoMemory,
        }
    }
}
