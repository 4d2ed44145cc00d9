//! Filling a buffer, and writing a whole part, however few bytes a call moves. Interrupted calls are tried again.
ghost use Rattle.std.specs.Prelude.{◌≢◌, ◌++◌, ◌<◌, ◌≤◌, length, take, IfErr, OnErr, OnOk};
ghost use Rattle.std.specs.Io.KnownBytes.{Appends, Consumes};
ghost use Rattle.std.specs.IoError.{error_kind};
ghost use Rattle.ttrpc_proto.specs.Framing.Streams.{AppendsFront, IsFailure, IsOver, Makes, SpendsTries, Then, Writes, failure};

use crate::framing::streams::{Passing, Sink, Source, read_again, write_again};
use std::io::{self, ErrorKind};

#[tactic(auto, using(crate::proofs::Calls::counts_none))]
/// Reads until the buffer is full, the reader is at its end, or the reader failed. Returns the number of bytes that
/// came.
pub fn fill<R: Source>(reader: &mut R, buffer: &mut [u8]) -> (usize, io::Result<()>)
    // This many bytes came, and are in the buffer.
    ensures bound { result.0 ≤ length buffer.new }
    ensures bytes { Consumes (R.remaining reader.old) (R.remaining reader.new)
        (take result.0 buffer.new) }
    // If they are fewer than fit, the reader is at its end, or failed.
    ensures end { OnOk result.1
        (result.0 < length buffer.new → IsOver (R.remaining reader.new) (R.last reader.new)) }
    ensures err { IfErr result.1 (λ e. IsFailure (R.last reader.new) (error_kind e)) }
    ensures spent { IfErr result.1 (λ _. SpendsTries Passing.Interrupted
        (R.reads reader.old) (R.reads reader.new) (R.last reader.new)) }
    ensures short { OnErr result.1 (result.0 < length buffer.new) }
{
    let mut at = 0;
    while at < buffer.len() {
        match read_again(reader, &mut buffer[at..], Passing::Interrupted) {
            Ok(0) => return (at, Ok(())),
            Ok(n) => at += n,
            Err(error) => return (at, Err(error)),
        }
    }
    (at, Ok(()))
}

/// Writes the part, and then the bytes that are left of it, until all were taken. The error is `WriteZero` if the
/// writer takes nothing.
pub fn write_part<W: Sink>(writer: &mut W, part: &[u8]) -> io::Result<()>
    ensures ok { OnOk result (Appends (W.contents writer.old) (W.contents writer.new) part.now) }
    ensures err { OnErr result
        (AppendsFront (W.contents writer.old) (W.contents writer.new) part.now) }
    ensures calls { Makes (W.calls writer.old) (W.calls writer.new)
        (λ calls. Writes part.now calls (failure result)) }
    ensures lasting { IfErr result (λ e. error_kind e ≢ ErrorKind.Interrupted) }
{
    let mut at = 0;
    while at < part.len() {
        match write_again(writer, &part[at..], Passing::Interrupted) {
            Ok(0) => return Err(ErrorKind::WriteZero.into()),
            Ok(taken) => at += taken,
            Err(error) => return Err(error),
        }
    }
    Ok(())
}

/// Writes one part, and then the other.
pub fn write_both<W: Sink>(writer: &mut W, first: &[u8], second: &[u8]) -> io::Result<()>
    ensures ok { OnOk result
        (Appends (W.contents writer.old) (W.contents writer.new) (first.now ++ second.now)) }
    ensures err { OnErr result
        (AppendsFront (W.contents writer.old) (W.contents writer.new) (first.now ++ second.now)) }
    ensures calls { Makes (W.calls writer.old) (W.calls writer.new)
        (λ calls. Then (Writes first.now) (Writes second.now) calls (failure result)) }
    ensures lasting { IfErr result (λ e. error_kind e ≢ ErrorKind.Interrupted) }
{
    if let Err(error) = write_part(writer, first) {
        return Err(error);
    }
    write_part(writer, second)
}
