//! The two loops, for any reader, any writer and any port.
ghost use Rattle.std.specs.Prelude.{◌≡◌, ◌≢◌, ◌⊎◌, ◌<◌, ℕ, true, length, take, IfSome, MatchBool};
ghost use Rattle.std.specs.Io.{ReadsAtMost};
ghost use Rattle.std.specs.Io.KnownBytes.{Appends, IsAtEnd, ReadConsumes};
ghost use Rattle.std.specs.declared.io.ErrorKind.{ErrorKind};
ghost use Rattle.ttrpc_sync.specs.declared.ports.PortState.{PortState};
ghost use Rattle.ttrpc_sync.specs.Loops.{EndsReading, EndsWriting, Handed, HandedAll, IsOneMore, IsSameCount, WritesUntil, Written, reported};
ghost use Rattle.ttrpc_proto.specs.Framing.Streams.{Makes, answered};

use crate::ports::{ReadPort, WritePort};
use std::io::{self, ErrorKind};
use std::sync::Wait;
use ttrpc_proto::{DEFAULT_PAGE_SIZE, Sink, Source};

#[tactic(auto, using(crate::proofs::Handing::handed_within))]
/// Reads pieces of at most `DEFAULT_PAGE_SIZE` bytes and hands each to the port. The loop ends after it has reported an end or a break of
/// the reader, or when the port wants no more. It asks the port before each read. A rest that the port doesn't take is offered again. An
/// interrupted read is tried again if the port still wants more.
pub fn read_loop<X: Wait, R: Source, P: ReadPort>(rt: &X, reader: &mut R, port: &mut P)
    // The bytes that the port took were read, in this order. Unless the port stopped, it took all bytes that were read.
    ensures handed { Handed DEFAULT_PAGE_SIZE (R.remaining reader.old) (R.remaining reader.new)
        (P.taken port.old) (P.taken port.new) }
    ensures all { P.state port.new ≢ PortState.Stopped
        → HandedAll (R.remaining reader.old) (R.remaining reader.new)
        (P.taken port.old) (P.taken port.new) }
    // The loop reports an end to the port when the reader is at its end, and a break when the reader failed.
    ensures end { P.state port.new ≡ PortState.Ended → IsAtEnd (R.remaining reader.new) }
    ensures last { IfSome (R.last reader.new) (λ a. EndsReading a (P.state port.new)) }
    // It was one loop, and it has ended.
    ensures once { IsOneMore (P.begun port.old) (P.begun port.new) }
    ensures over { P.state port.new ≢ PortState.Open }
{
    let mut buffer = [0u8; DEFAULT_PAGE_SIZE];
    read_pieces(rt, reader, port, &mut buffer);
}

#[tactic(auto, using(crate::proofs::Handing::handed_nothing, crate::proofs::Handing::handed_still, crate::proofs::Handing::handed_no_more, crate::proofs::Handing::handed_more, crate::proofs::Handing::handed_all, crate::proofs::Counting::one_more_still))]
/// Reads as `read_loop` does, with pieces of at most the length of `buffer`.
pub(crate) fn read_pieces<X: Wait, R: Source, P: ReadPort>(
    rt: &X,
    reader: &mut R,
    port: &mut P,
    buffer: &mut [u8],
)
    // There is room for a piece.
    requires room { 0 < length buffer.old }
    // The bytes that the port took were read, in this order. Unless the port stopped, it took all bytes that were read.
    ensures handed { Handed (length buffer.old) (R.remaining reader.old) (R.remaining reader.new)
        (P.taken port.old) (P.taken port.new) }
    ensures all { P.state port.new ≢ PortState.Stopped
        → HandedAll (R.remaining reader.old) (R.remaining reader.new)
        (P.taken port.old) (P.taken port.new) }
    // The loop reports an end to the port when the reader is at its end, and a break when the reader failed.
    ensures end { P.state port.new ≡ PortState.Ended → IsAtEnd (R.remaining reader.new) }
    ensures last { IfSome (R.last reader.new) (λ a. EndsReading a (P.state port.new)) }
    // It was one loop, and it has ended.
    ensures once { IsOneMore (P.begun port.old) (P.begun port.new) }
    ensures over { P.state port.new ≢ PortState.Open }
{
    port.begin();
    for _ in rt.forever() {
        if !port.wants() {
            return;
        }
        match read_wanted(reader, port, buffer) {
            Ok(0) => {
                port.ended();
                return;
            }
            Ok(n) => {
                if !offer(rt, port, &buffer[..n]) {
                    return;
                }
            }
            Err(error) => {
                if error.kind() != ErrorKind::Interrupted {
                    port.broke(error);
                    return;
                }
            }
        }
    }
    unreachable!()
}

/// Reads for a port that has answered that it wants more.
fn read_wanted<R: Source, P: ReadPort>(
    reader: &mut R,
    _port: &P,
    buffer: &mut [u8],
) -> io::Result<usize>
    requires { P.wants_more _port.now ≡ true }
    ensures bound { ReadsAtMost result buffer.new }
    ensures bytes { ReadConsumes
        (R.remaining reader.old) (R.remaining reader.new) result buffer.new }
    ensures last { IfSome (R.last reader.new) (λ a. a ≡ answered result) }
{
    reader.read(buffer)
}

#[tactic(auto, using(crate::proofs::Handing::taken_in_part, crate::proofs::Handing::taken_further, crate::proofs::Handing::taken_fits, crate::proofs::Counting::same_count, crate::proofs::Counting::same_count_again))]
/// Offers the piece, and each rest that is left of it, until the port has taken all. Returns false if the port wants no more.
fn offer<X: Wait, P: ReadPort>(rt: &X, port: &mut P, piece: &[u8]) -> bool
    requires { P.state port.old ≡ PortState.Open }
    ensures begun { IsSameCount (P.begun port.old) (P.begun port.new) }
    ensures taken { MatchBool result (Appends (P.taken port.old) (P.taken port.new) piece.now
        × (P.state port.new ≡ PortState.Open))
        (((n : ℕ) × Appends (P.taken port.old) (P.taken port.new) (take n piece.now))
        × (P.state port.new ≡ PortState.Stopped)) }
{
    let mut at = 0;
    for _ in rt.forever() {
        if at == piece.len() {
            return true;
        }
        match port.take(&piece[at..]) {
            Some(n) => at += n,
            None => return false,
        }
    }
    unreachable!()
}

/// Writes the bytes that the port lends, and reports how many the writer took. The loop ends after it has reported a break, or when the
/// port wants to end. A writer that takes nothing counts as broken. After an interrupted write the loop asks the port for a new loan and
/// writes that.
/// If the port lends nothing, the loop flushes the writer, and then asks the port for more. An interrupted flush is tried again, unless the
/// port lends something by then.
pub fn write_loop<X: Wait, W: Sink, P: WritePort>(rt: &X, writer: &mut W, port: &mut P)
    // The bytes that were reported were written, in this order.
    ensures written { Written (W.contents writer.old) (W.contents writer.new)
        (reported (P.told port.old)) (reported (P.told port.new)) }
    // The loop reports a break to the port when the writer failed or took nothing.
    ensures last { IfSome (W.last writer.new) (λ a. EndsWriting a (P.state port.new)) }
    ensures calls { Makes (W.calls writer.old) (W.calls writer.new)
        (WritesUntil (P.state port.new)) }
    // It was one loop, and it has ended.
    ensures once { IsOneMore (P.begun port.old) (P.begun port.new) }
    ensures over { (P.state port.new ≡ PortState.Stopped)
        ⊎ ((k : ErrorKind) × (P.state port.new ≡ PortState.Broke k)) }
{
    let mut buffer = [0u8; DEFAULT_PAGE_SIZE];
    write_pieces(rt, writer, port, &mut buffer);
}

/// Writes as `write_loop` does, with loans of at most the length of `buffer`.
pub(crate) fn write_pieces<X: Wait, W: Sink, P: WritePort>(
    rt: &X,
    writer: &mut W,
    port: &mut P,
    buffer: &mut [u8],
)
    // There is room for a loan.
    requires room { 0 < length buffer.old }
    // The bytes that were reported were written, in this order.
    ensures written { Written (W.contents writer.old) (W.contents writer.new)
        (reported (P.told port.old)) (reported (P.told port.new)) }
    // The loop reports a break to the port when the writer failed or took nothing.
    ensures last { IfSome (W.last writer.new) (λ a. EndsWriting a (P.state port.new)) }
    ensures calls { Makes (W.calls writer.old) (W.calls writer.new)
        (WritesUntil (P.state port.new)) }
    // It was one loop, and it has ended.
    ensures once { IsOneMore (P.begun port.old) (P.begun port.new) }
    ensures over { (P.state port.new ≡ PortState.Stopped)
        ⊎ ((k : ErrorKind) × (P.state port.new ≡ PortState.Broke k)) }
{
    port.begin();
    for _ in rt.forever() {
        let lent = port.lend(buffer);
        if lent == 0 {
            match writer.flush() {
                Ok(()) => {
                    if !port.more() {
                        return;
                    }
                }
                Err(error) => {
                    if error.kind() != ErrorKind::Interrupted {
                        port.broke(error);
                        return;
                    }
                }
            }
        } else {
            match writer.write(&buffer[..lent]) {
                Ok(0) => {
                    port.broke(ErrorKind::WriteZero.into());
                    return;
                }
                Ok(n) => port.wrote(n),
                Err(error) => {
                    if error.kind() != ErrorKind::Interrupted {
                        port.broke(error);
                        return;
                    }
                }
            }
        }
    }
    unreachable!()
}
