//! The commands of the program `ttrpc-demo`, over any reader and writers: it answers the frames of an input, serves
//! `demo.Echo` at an address, calls a method of a server, or calls its own server.

mod asked;
mod calls;
mod faults;
mod outcome;
mod service;
mod serving;
mod telling;
mod words;

ghost use Rattle.std.specs.Prelude.{◌≡◌, map, string_bytes};
ghost use Rattle.ttrpc_echo.specs.declared.program.outcome.ProgramOutcome.{ProgramOutcome as AnOutcome};
ghost use Rattle.ttrpc_echo.specs.Program.Outcomes.{status_of};
ghost use Rattle.ttrpc_echo.specs.Program.Runs.{Answers, Performs};

pub use self::calls::{call_at, call_own};
pub use self::faults::{FaultKeeper, Faults};
pub use self::outcome::{ProgramOutcome, tell};
pub use self::service::{DemoSystem, EchoHandler, EchoServer, start_server};
pub use self::serving::{WatchedServer, begin, tell_address, tell_next};
use crate::answer;
use crate::program::calls::{call, call_own_with};
use crate::program::serving::serve;
use crate::program::words::{are_answer, call_words, word_behind};
use std::alloc::Global;
use std::io::{Read, Write};

/// Runs the command that the words give, and reports failures on `errors`. With `nodelay`, each write by TCP goes out
/// at once. Returns the status: 0, or 1 at a failure or a refused call, or 2 if the words are wrong.
pub fn run<S: DemoSystem + 'static, R: Read, W: Write, X: Write>(
    rt: S,
    words: &[String],
    nodelay: bool,
    input: &mut R,
    output: &mut W,
    errors: &mut X,
) -> u8
    ensures { (outcome : AnOutcome) × (result ≡ status_of outcome)
        × Performs (map string_bytes words.now) (R.remaining input.old) (R.remaining input.new)
        (W.contents output.old) (W.contents output.new) outcome }
{
    tell(&perform(rt, words, nodelay, input, output, errors), errors)
}

/// Runs the command that the words give.
fn perform<S: DemoSystem + 'static, R: Read, W: Write, X: Write>(
    rt: S,
    words: &[String],
    nodelay: bool,
    input: &mut R,
    output: &mut W,
    errors: &mut X,
) -> ProgramOutcome
    ensures { Performs (map string_bytes words.now) (R.remaining input.old) (R.remaining input.new)
        (W.contents output.old) (W.contents output.new) result }
{
    if are_answer(words) {
        return answer_input(rt.alloc(), input, output);
    }
    if let Some(digits) = word_behind(words, "loop") {
        return call_own_with(rt, digits, output);
    }
    if let Some(address) = word_behind(words, "serve") {
        return serve(rt, address, nodelay, errors);
    }
    match call_words(words) {
        Some(words) => call(rt, words, nodelay, output),
        None => ProgramOutcome::WrongWords,
    }
}

/// Answers the frames of the input.
fn answer_input<R: Read, W: Write>(alloc: Global, input: &mut R, output: &mut W) -> ProgramOutcome
    ensures { Answers (R.remaining input.old) (R.remaining input.new)
        (W.contents output.old) (W.contents output.new) result }
{
    match answer(alloc, input, output) {
        Ok(()) => ProgramOutcome::Done,
        Err(error) => ProgramOutcome::Failed(error),
    }
}
