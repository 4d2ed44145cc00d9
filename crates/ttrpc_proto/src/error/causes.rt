//! Errors with the printed text of another error.
ghost use Rattle.std.specs.Prelude.{IfOk, string_bytes};
ghost use Rattle.ttrpc_proto.specs.ErrorText.{IsOthers, IsSocket};

use crate::error::Error;
use std::alloc::{AllocError, Global};
use std::fmt;
use ttrpc_wire::Text;

/// Returns `Others` with a prefix and the printed text of another error, or `NoMemory` if memory for that text was
/// refused.
pub fn others_of<D: fmt::Display>(alloc: Global, prefix: &str, cause: &D) -> Error
    ensures { IsOthers prefix.now (D.output cause.now) result }
{
    match prefixed(alloc, prefix, cause) {
        Ok(text) => Error::Others(Text::from_string(text)),
        Err(_) => Error::NoMemory,
    }
}

/// Returns `Socket` with the printed text of another error, or `NoMemory` if memory for that text was refused.
pub fn socket_of<D: fmt::Display>(alloc: Global, cause: &D) -> Error
    ensures { IsSocket (D.output cause.now) result }
{
    match cause.to_string(alloc) {
        Ok(text) => Error::Socket(Text::from_string(text)),
        Err(_) => Error::NoMemory,
    }
}

// Returns a prefix and the printed text of another error. The text is printed by itself, so that the prefix is known
// whatever the error prints.
fn prefixed<D: fmt::Display>(
    alloc: Global,
    prefix: &str,
    cause: &D,
) -> std::result::Result<String, AllocError>
    ensures { IfOk result
        (λ text. IsOthers prefix.now (D.output cause.now) (Error.Others (string_bytes text))) }
{
    let cause = cause.to_string(alloc)?;
    format!(in alloc; "{prefix}{cause}")
}

/// The closure that makes `Others` of a prefix and another error, as in `call().map_err(err_to_others!(alloc, e,
/// "calling: "))`.
#[macro_export]
macro_rules! err_to_others {
    ($alloc:expr, $e:ident, $prefix:expr) => {
        |$e| $crate::error::causes::others_of($alloc, $prefix, &$e)
    };
}
