//! The request that the words ask for.
ghost use Rattle.std.specs.Prelude.{◌≡◌, ◌≢◌, ℤ, List, ℕ, Ok, [], IfOk, IfErr, IfSome, IfNone};
ghost use Rattle.hex.specs.Hex.{decode_of};
ghost use Rattle.ttrpc_echo.specs.Program.Words.{IsHex, IsTimeout};
ghost use Rattle.ttrpc_echo.specs.Program.Runs.{IsMisread};

use crate::program::outcome::ProgramOutcome;
use hex::FromHexError;
use std::alloc::{AllocError, Global};
use ttrpc_proto::{Error, Request};
use ttrpc_wire::{Blob, Sequence, Text};

/// Returns the bytes that these hex digits encode.
pub fn payload_of(alloc: Global, digits: &str) -> Result<Vec<u8>, ProgramOutcome>
    ensures ok { IfOk result (λ payload. decode_of digits.now ≡ Ok payload.items) }
    ensures err { IfErr result (IsMisread (IsHex digits.now)) }
{
    match hex::decode(alloc, digits) {
        Ok(payload) => Ok(payload),
        Err(FromHexError::OutOfMemory) => Err(ProgramOutcome::Failed(Error::NoMemory)),
        Err(_) => Err(ProgramOutcome::WrongWords),
    }
}

/// Returns the number of nanoseconds that this text writes.
pub fn timeout_of(text: &str) -> Option<i64>
    ensures some { IfSome result (IsTimeout text.now) }
    ensures none { IfNone result ((n : ℤ) → ¬ (IsTimeout text.now n)) }
{
    text.parse::<i64>().ok()
}

/// Returns the request of a method with this payload, without metadata.
pub fn request_of(
    alloc: Global,
    service: &str,
    method: &str,
    payload: Vec<u8>,
    timeout_nano: i64,
) -> Result<Request, AllocError>
    ensures { IfOk result (λ request. request ≡ record {
      service = service.now;
      method = method.now;
      payload = payload.items;
      timeout_nano = timeout_nano;
      metadata = [];
    }) }
{
    Ok(Request {
        service: Text::from_str(alloc, service)?,
        method: Text::from_str(alloc, method)?,
        payload: Blob::from_vec(payload),
        timeout_nano,
        metadata: Sequence::new(alloc),
    })
}
