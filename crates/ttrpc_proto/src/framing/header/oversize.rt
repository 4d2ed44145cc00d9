//! The error for a message that is longer than a message may be.
ghost use Rattle.std.specs.Prelude.{◌≡◌, ◌≢◌, ◌≤◌, ◌↔◌, string_bytes, IsOk, IfOk, IfErr};
ghost use Rattle.ttrpc_proto.specs.Framing.Header.Oversize.{oversize_error, oversize_text};

use crate::framing::header::MESSAGE_LENGTH_MAX;
use crate::{Error, Result, get_rpc_status};
use std::alloc::{AllocError, Global};
use ttrpc_wire::{Code, Text};

/// Returns an error if a message of this length is longer than a message may be. The error is a status if
/// `return_rpc_error` is true, or `NoMemory` if memory for the error's text was refused.
pub fn check_oversize(alloc: Global, length: usize, return_rpc_error: bool) -> Result<()>
    ensures ok { IsOk result ↔ (length ≤ MESSAGE_LENGTH_MAX) }
    ensures err { IfErr result (λ e. e ≢ Error.NoMemory
        → e ≡ oversize_error return_rpc_error length) }
{
    if length <= MESSAGE_LENGTH_MAX {
        return Ok(());
    }
    Err(oversize_error(alloc, length, return_rpc_error)?)
}

/// Returns the error for a message of this length, which is longer than a message may be. The error is a status if
/// `return_rpc_error` is true.
pub fn oversize_error(
    alloc: Global,
    length: usize,
    return_rpc_error: bool,
) -> std::result::Result<Error, AllocError>
    ensures { IfOk result (λ error. error ≡ oversize_error return_rpc_error length) }
{
    let text = oversize_message(alloc, length)?;
    if return_rpc_error {
        Ok(get_rpc_status(Code::INVALID_ARGUMENT, text))
    } else {
        Ok(Error::Others(Text::from_string(text)))
    }
}

/// Returns the error text for a message of this length, which is longer than a message may be.
pub fn oversize_message(alloc: Global, length: usize) -> std::result::Result<String, AllocError>
    ensures { IfOk result (λ text. string_bytes text ≡ oversize_text length) }
{
    format!(in alloc; "message length {length} exceed maximum message size of 4194304")
}
