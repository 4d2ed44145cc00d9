//! How a run of the program ended.
ghost use Rattle.std.specs.Prelude.{◌≡◌, IfSome, OnOk};
ghost use Rattle.std.specs.Io.KnownBytes.{Appends};
ghost use Rattle.ttrpc_echo.specs.Program.Outcomes.{report_of, status_of};

use std::io;
use std::io::Write;
use ttrpc_proto::Error;

const USAGE: &str =
    "usage: ttrpc-demo answer | serve ADDR | call ADDR SERVICE METHOD HEX TIMEOUT | loop HEX";

/// How a run of the program ended.
#[derive(Drop)]
pub enum ProgramOutcome {
    /// The command succeeded.
    Done,
    /// The call was refused, and its error was written to the output.
    Refused,
    /// The words give no command, or can't be read.
    WrongWords,
    Failed(Error),
}

impl ProgramOutcome {
    /// Returns the status that the program ends with.
    fn status(&self) -> u8
        ensures { result ≡ status_of self.now }
    {
        match self {
            ProgramOutcome::Done => 0,
            ProgramOutcome::Refused | ProgramOutcome::Failed(_) => 1,
            ProgramOutcome::WrongWords => 2,
        }
    }

    /// Reports a failure in a line.
    fn report<X: Write>(&self, errors: &mut X) -> io::Result<()>
        ensures { OnOk result (IfSome (report_of self.now)
            (Appends (X.contents errors.old) (X.contents errors.new))) }
    {
        match self {
            ProgramOutcome::Done | ProgramOutcome::Refused => Ok(()),
            ProgramOutcome::Failed(error) => writeln!(errors, "ttrpc-demo: {error}"),
            ProgramOutcome::WrongWords => writeln!(errors, "{USAGE}"),
        }
    }
}

/// Reports a failure, and returns the status.
pub fn tell<X: Write>(outcome: &ProgramOutcome, errors: &mut X) -> u8
    ensures { result ≡ status_of outcome.now }
{
    let _ = outcome.report(errors);
    outcome.status()
}
