//! The line that reports the result of a call.
ghost use Rattle.std.specs.Prelude.{◌≡◌, IsOk, OnOk, IfErr, IfSome};
ghost use Rattle.std.specs.Io.KnownBytes.{Appends, Keeps};
ghost use Rattle.ttrpc_echo.specs.Program.Telling.{error_line, ok_line, IsUntold, TellsCall};

use crate::program::outcome::ProgramOutcome;
use crate::{broken, flush};
use std::alloc::Global;
use std::io;
use std::io::Write;
use ttrpc_proto::{Error, Response};

/// Writes the result of a call in a line of the output.
pub fn tell_call<W: Write>(
    alloc: Global,
    called: Result<Response, Error>,
    output: &mut W,
) -> ProgramOutcome
    ensures { TellsCall called (W.contents output.old) (W.contents output.new) result }
{
    match called {
        Ok(response) => match tell_payload(alloc, response.payload.as_slice(), output) {
            Ok(()) => ProgramOutcome::Done,
            Err(error) => ProgramOutcome::Failed(error),
        },
        Err(refusal) => match tell_refusal(alloc, &refusal, output) {
            Ok(()) => ProgramOutcome::Refused,
            Err(error) => ProgramOutcome::Failed(error),
        },
    }
}

/// Writes the payload of a response in a line.
fn tell_payload<W: Write>(alloc: Global, payload: &[u8], output: &mut W) -> Result<(), Error>
    ensures ok { OnOk result
        (Appends (W.contents output.old) (W.contents output.new) (ok_line payload.now)) }
    ensures err { IfErr result IsUntold }
{
    if payload.is_empty() {
        return end_line(alloc, writeln!(output, "ok"), output);
    }
    let digits = hex::encode(alloc, payload)?;
    end_line(alloc, writeln!(output, "ok {}", digits.as_str()), output)
}

/// Writes the error of a refused call in a line.
fn tell_refusal<W: Write>(alloc: Global, refusal: &Error, output: &mut W) -> Result<(), Error>
    ensures ok { OnOk result (IfSome (error_line refusal.now)
        (Appends (W.contents output.old) (W.contents output.new))) }
    ensures err { IfErr result IsUntold }
{
    end_line(alloc, writeln!(output, "error: {refusal}"), output)
}

/// Flushes the writer after a line was written. Returns the error if the line couldn't be written.
fn end_line<W: Write>(alloc: Global, written: io::Result<()>, output: &mut W) -> Result<(), Error>
    ensures ok { OnOk result (IsOk written) }
    ensures kept { Keeps (W.contents output.old) (W.contents output.new) }
    ensures err { IfErr result IsUntold }
{
    match written {
        Ok(()) => flush(alloc, output),
        Err(error) => Err(broken(alloc, &error)),
    }
}
