//! The texts of a hook's errors.
ghost use Rattle.std.specs.Prelude.{IfErr};
ghost use Rattle.ttrpc_secure.specs.Hooks.{IsRefusedMemory};

use std::alloc::{AllocError, Global};
use std::io::{self, ErrorKind};
use std::test::Fail;
use ttrpc_bench::checks::{Tested, check, check_row};
use ttrpc_secure::HookError;
use ttrpc_wire::Text;

/// Errors of hooks.
enum Row {
    Rejected(&'static str),
    Timeout,
    Other(&'static str),
}

fn error_of(alloc: Global, row: &Row) -> Result<HookError, AllocError> {
    Ok(match row {
        Row::Rejected(reason) => HookError::Rejected(Text::from_str(alloc, reason)?),
        Row::Timeout => HookError::Timeout,
        Row::Other(text) => HookError::Other(Text::from_str(alloc, text)?),
    })
}

/// Errors, each with its texts for `{}` and `{:?}`.
const ERRORS: &[(Row, &str, &str)] = &[
    (
        Row::Rejected("bad cid"),
        "connection rejected: bad cid",
        "Rejected(bad cid)",
    ),
    (
        Row::Rejected("a \"b\"\n"),
        "connection rejected: a \"b\"\n",
        "Rejected(a \"b\"\n)",
    ),
    (Row::Timeout, "handshake timeout", "Timeout"),
    (Row::Other("misc"), "misc", "Other(misc)"),
    (Row::Other(""), "", "Other()"),
];

/// Returns whether `{}` writes this text for the error.
fn is_printed(alloc: Global, error: &HookError, printed: &str) -> Result<bool, Fail> {
    let text = error.to_string(alloc)?;
    Ok(text.as_str() == printed)
}

/// Returns whether `{}` and `{:?}` write these texts for the error of this row.
fn prints(alloc: Global, row: &Row, printed: &str, debugged: &str) -> Result<bool, Fail> {
    let error = error_of(alloc, row)?;
    let text = format!(in alloc; "{error:?}")?;
    Ok(text.as_str() == debugged && is_printed(alloc, &error, printed)?)
}

#[test]
fn errors_print_their_texts(rt: HostRuntime) -> Tested {
    for (at, (row, printed, debugged)) in ERRORS.iter().enumerate() {
        check_row(at, prints(rt.alloc(), row, printed, debugged)?)?;
    }
    Ok(())
}

/// The rest is the text of the standard library.
#[test]
fn failed_reads_print_their_cause(rt: HostRuntime) -> Tested {
    let alloc = rt.alloc();
    let error = HookError::Io(io::Error::from(ErrorKind::BrokenPipe));
    let debugged = format!(in alloc; "{error:?}")?;
    let other = HookError::Io(io::Error::other("no such peer"));
    check(
        debugged.as_str().starts_with("Io(")
            && is_printed(alloc, &error, "I/O error: broken pipe")?
            && is_printed(alloc, &other, "I/O error: no such peer")?,
    )
}

// Returns the result of a hook that asks for memory with `?`.
fn reserved(alloc: Global, room: usize) -> Result<Vec<u8>, HookError>
    ensures { IfErr result IsRefusedMemory }
{
    let mut out = Vec::new(alloc);
    out.reserve(room)?;
    out.push(7)?;
    Ok(out)
}

/// Returns whether memory was refused, as an error of that kind.
fn is_refused(outcome: &Result<Vec<u8>, HookError>) -> bool {
    match outcome {
        Err(HookError::Io(cause)) => cause.kind() == ErrorKind::OutOfMemory,
        _ => false,
    }
}

#[test]
fn refused_memory_is_a_failure_of_that_kind(rt: HostRuntime) -> Tested {
    let one = reserved(rt.alloc(), 1)?;
    let refused = reserved(rt.alloc(), usize::MAX);
    check(one.len() == 1 && is_refused(&refused))
}
