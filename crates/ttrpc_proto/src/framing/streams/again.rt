//! Reads and writes that are tried again while they fail in a way that passes, at most 2^64 - 1 times. No handle for
//! waiting is needed. Such a failure is never returned: if all tries are used up, the error is `TimedOut`.
ghost use Rattle.std.specs.Prelude.{◌↔◌, IfErr, IfSome, IsTrue};
ghost use Rattle.std.specs.Io.{ReadsAtMost, WritesAtMost};
ghost use Rattle.std.specs.Io.KnownBytes.{ReadConsumes, WriteAppends};
ghost use Rattle.std.specs.IoError.{error_kind};
ghost use Rattle.ttrpc_proto.specs.Framing.Streams.{IsPassing, IsOutcome, Makes, SpendsTries, Tries, answered};

use crate::framing::streams::{Sink, Source};
use std::io::{self, ErrorKind};

/// The failures of a call that pass, so that its next try may succeed.
#[derive(Debug, Clone, Copy, PartialEq, Eq)]
pub enum Passing {
    /// The call was interrupted.
    Interrupted,
    /// The call was interrupted, or would block.
    InterruptedOrBlocked,
}

impl Passing {
    /// Returns true if a failure of this kind passes.
    pub fn includes(self, kind: ErrorKind) -> bool
        ensures { IsTrue result ↔ IsPassing self kind }
    {
        match self {
            Passing::Interrupted => kind == ErrorKind::Interrupted,
            Passing::InterruptedOrBlocked => {
                matches!(kind, ErrorKind::Interrupted | ErrorKind::WouldBlock)
            }
        }
    }
}

#[tactic(auto, using(crate::proofs::Calls::counts_none, crate::proofs::Calls::counts_more, crate::proofs::Calls::spends_all))]
/// Reads once, and tries again while the read fails in a way that passes.
pub fn read_again<R: Source>(
    reader: &mut R,
    buffer: &mut [u8],
    passing: Passing,
) -> io::Result<usize>
    // This many bytes were read, and are in the buffer. At an error none were.
    ensures bound { ReadsAtMost result buffer.new }
    ensures bytes { ReadConsumes
        (R.remaining reader.old) (R.remaining reader.new) result buffer.new }
    // The result is the last try's, or `TimedOut` after 2^64 - 1 tries or more.
    ensures last { IfSome (R.last reader.new) (λ a. IsOutcome passing a (answered result)) }
    ensures spent { SpendsTries passing (R.reads reader.old) (R.reads reader.new)
        (R.last reader.new) }
    // An error isn't a failure that passes.
    ensures err { IfErr result (λ e. ¬ (IsPassing passing (error_kind e))) }
{
    for _tries in 0..u64::MAX {
        match reader.read(buffer) {
            Ok(count) => return Ok(count),
            Err(error) => {
                if !passing.includes(error.kind()) {
                    return Err(error);
                }
            }
        }
    }
    Err(ErrorKind::TimedOut.into())
}

/// Writes once, and tries again while the write fails in a way that passes.
pub fn write_again<W: Sink>(writer: &mut W, bytes: &[u8], passing: Passing) -> io::Result<usize>
    // The writer took the first of the bytes, and none of them if there is an error.
    ensures bound { WritesAtMost result bytes.now }
    ensures bytes { WriteAppends (W.contents writer.old) (W.contents writer.new) result bytes.now }
    // The answer is the last call's, or `TimedOut` after the last try. All calls before failed in a way that passes.
    ensures last { IfSome (W.last writer.new) (λ a. IsOutcome passing a (answered result)) }
    ensures calls { Makes (W.calls writer.old) (W.calls writer.new)
        (λ calls. Tries passing bytes.now calls (answered result)) }
    // An error isn't a failure that passes.
    ensures err { IfErr result (λ e. ¬ (IsPassing passing (error_kind e))) }
{
    for _tries in 0..u64::MAX {
        match writer.write(bytes) {
            Err(error) if passing.includes(error.kind()) => {}
            answer => return answer,
        }
    }
    Err(ErrorKind::TimedOut.into())
}
