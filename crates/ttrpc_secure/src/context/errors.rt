//! The errors for payloads that aren't sealed or opened. If memory for an error's text is refused, the error is
//! `NoMemory`.
ghost use Rattle.std.specs.Prelude.{◌≡◌, string_bytes, IfOk, MatchResult};
ghost use Rattle.ttrpc_secure.specs.Context.Told.{IsTold};
ghost use Rattle.ttrpc_secure.specs.Context.Texts.{unsafe_payload_text, unsealed_text, unopened_text};

use std::alloc::{AllocError, Global};
use ttrpc_proto::{Error, Text};

/// Returns the error for a payload of this many bytes, which is above the safe limit. The text ends with the advice,
/// which may be empty.
pub fn unsafe_payload_error(alloc: Global, length: usize, limit: usize, advice: &str) -> Error
    ensures { IsTold (Error.Others (unsafe_payload_text length limit advice.now)) result }
{
    others_error(format!(in alloc;
        "payload {length} bytes exceeds safe limit {limit} bytes (MESSAGE_LENGTH_MAX - transform overhead){advice}"
    ))
}

/// Returns the error for a payload that the outbound half didn't seal, for this reason.
pub fn unsealed_error(alloc: Global, why: &Text) -> Error
    ensures { IsTold (Error.Others (unsealed_text why.now)) result }
{
    others_error(format!(in alloc; "transform_outbound failed: {}", why.as_str()))
}

/// Returns the error for a payload that the inbound half didn't open, for this reason.
pub fn unopened_error(alloc: Global, why: &Text) -> Result<Error, AllocError>
    ensures { IfOk result (λ error. error ≡ Error.Others (unopened_text why.now)) }
{
    let text = format!(in alloc; "transform_inbound failed: {}", why.as_str())?;
    Ok(Error::Others(Text::from_string(text)))
}

/// Returns the error with this text, or `NoMemory` if memory for the text was refused.
pub fn others_error(text: Result<String, AllocError>) -> Error
    ensures { MatchResult text (λ made. result ≡ Error.Others (string_bytes made))
        (λ _. result ≡ Error.NoMemory) }
{
    match text {
        Ok(text) => Error::Others(Text::from_string(text)),
        Err(refused) => refused.into(),
    }
}

/// Returns the error, or `NoMemory` if memory for its text was refused.
pub fn or_no_memory(made: Result<Error, AllocError>) -> Error
    ensures { MatchResult made (λ error. result ≡ error) (λ _. result ≡ Error.NoMemory) }
{
    match made {
        Ok(error) => error,
        Err(refused) => refused.into(),
    }
}
