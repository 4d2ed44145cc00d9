//! The program's output.
use crate::system::nix;
use std::io::Write;
use ttrpc_proto::{Error, Result};
use ttrpc_wire::Blob;

/// Writes `ok` and the response's digits, or the error. Returns the status.
pub fn tell_outcome<W: Write>(outcome: Result<Blob>, output: &mut W) -> Result<u8> {
    match outcome {
        Ok(answer) => {
            tell(output, "ok", &answer)?;
            Ok(0)
        }
        Err(error) => {
            nix(writeln!(output, "error: {error}"))?;
            Ok(1)
        }
    }
}

/// Writes `item` and its digits.
pub fn tell_item<W: Write>(item: &Blob, output: &mut W) -> Result<()> {
    tell(output, "item", item)
}

/// Writes how a stream ended: `eof` if it was closed, or else the error. Returns the status, which is 0 if it was
/// closed.
pub fn tell_end<W: Write>(error: Error, output: &mut W) -> Result<u8> {
    match error {
        Error::Eof => {
            nix(writeln!(output, "eof"))?;
            Ok(0)
        }
        error => {
            nix(writeln!(output, "error: {error}"))?;
            Ok(1)
        }
    }
}

/// Writes a word, and a space and the digits of the bytes, if there are any.
fn tell<W: Write>(output: &mut W, word: &str, bytes: &Blob) -> Result<()> {
    nix(write!(output, "{word}"))?;
    if !bytes.is_empty() {
        nix(write!(output, " "))?;
    }
    for byte in bytes.as_slice() {
        nix(write!(output, "{byte:02x}"))?;
    }
    nix(writeln!(output, ""))
}
