//! The program's output.
use crate::system::nix;
use std::io::Write;
use ttrpc_proto::{Error, Result};

/// Writes a status in its own line.
pub fn tell_status<W: Write>(status: i32, output: &mut W) -> Result<()> {
    nix(writeln!(output, "{status}"))
}

/// Writes the error in place of a status. Returns the program's status.
pub fn tell_error<W: Write>(error: Error, output: &mut W) -> Result<u8> {
    nix(writeln!(output, "error: {error}"))?;
    Ok(1)
}
