ghost use Rattle.std.specs.Prelude.{◌≡◌, ◌↔◌, true};
ghost use Rattle.ttrpc_wire.specs.declared.values.codec_error.CodecError.TheVariants.{NoMemory, TooLong};

use std::alloc::{AllocError, AllocFailed};
use thiserror::Error;

/// The reason why a value wasn't read or has no written form.
pub trait CodecFailure {
    // Holds if the error reports that memory was refused.
    ghost is_no_memory: { Self → Type 0 };

    // Holds if the error reports that a written form is too long.
    ghost is_too_long: { Self → Type 0 };

    /// Returns true if memory was refused.
    fn is_no_memory(&self) -> bool
        ensures { (result ≡ true) ↔ is_no_memory self.now };
}

/// The reason why bytes don't read as a message, or why a message has no written form. Or memory was refused.
#[derive(Clone, Copy, Debug, PartialEq, Eq, Error)]
pub enum CodecError {
    /// The bytes end inside a varint or before the end of a value.
    #[error("the bytes end inside a field")]
    Truncated,
    /// A varint has more than 64 bits.
    #[error("a varint is longer than 64 bits")]
    BadVarint,
    /// A tag's number is 0, or the tag is 2^32 or more.
    #[error("a field has no number from 1 to 536870911")]
    BadTag,
    /// The wire type is 3, 4, 6 or 7.
    #[error("a field has a wire type other than 0, 1, 2 and 5")]
    BadWireType,
    /// A text isn't UTF-8.
    #[error("a text is not UTF-8")]
    BadUtf8,
    /// The written form has 2^32 bytes or more.
    #[error("a message is longer than 4294967295 bytes")]
    TooLong,
    /// A message that may contain itself is nested too deep.
    #[error("a message is nested deeper than 100 levels")]
    TooDeep,
    /// The allocator refused memory.
    #[error("out of memory")]
    NoMemory,
}

impl From<AllocError> for CodecError {
    ghost from_gives = { λ _ e. e ≡ NoMemory };

    fn from(_refused: AllocError) -> CodecError {
        CodecError::NoMemory
    }
}

impl<T: Drop> From<AllocFailed<T>> for CodecError {
    ghost from_gives = { λ _ e. e ≡ NoMemory };

    fn from(_refused: AllocFailed<T>) -> CodecError {
        CodecError::NoMemory
    }
}

impl CodecFailure for CodecError {
    ghost is_no_memory = { λ e. e ≡ NoMemory };

    ghost is_too_long = { λ e. e ≡ TooLong };

    fn is_no_memory(&self) -> bool {
        *self == CodecError::NoMemory
    }
}
