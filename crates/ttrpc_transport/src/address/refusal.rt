//! The error that refuses an address.
ghost use Rattle.std.specs.Prelude.{◌≡◌, string_bytes, MatchResult};

use std::alloc::AllocError;
use ttrpc_proto::{Error, Text};

// Makes the error with this text, or `NoMemory` if memory for the text was refused.
pub(crate) fn refusal(text: Result<String, AllocError>) -> Error
    ensures { MatchResult text (λ made. result ≡ Error.Others (string_bytes made))
        (λ _. result ≡ Error.NoMemory) }
{
    match text {
        Ok(text) => Error::Others(Text::from_string(text)),
        Err(refused) => refused.into(),
    }
}
