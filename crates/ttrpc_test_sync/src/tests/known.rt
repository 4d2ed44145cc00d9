//! The contracts of the loops for known readers, writers and ports.
ghost use Rattle.std.specs.Prelude.{◌≡◌, ◌⊎◌, ◌++◌, [], map, take, OnOk, Ok, Err};
ghost use Rattle.std.specs.declared.io.ErrorKind.{ErrorKind as AKind};
ghost use Rattle.ttrpc_sync.specs.declared.ports.PortState.{PortState as AWord};

use crate::tests::fakes::{BYTES, Lender, Taker};
use crate::tests::workers::{Queue, Refuser, Turnstile};
use std::io;
use std::process::Abort;
use std::sync::Wait;
use ttrpc_bench::checks::{Tested, check};
use ttrpc_bench::{Giver, ROOM, Receiver};
use ttrpc_proto::{Sink, write_part};
use ttrpc_sync::{Gather, PortState, read_loop, work_loop, write_loop};

/// Reads a slice. If it is read to its end, it was taken whole.
fn slice_is_taken<X: Wait>(rt: &X, bytes: &[u8], port: &mut Taker)
    ensures { port.new.state ≡ AWord.Ended
        → port.new.taken.items ≡ port.old.taken.items ++ bytes.now }
{
    let mut reader = bytes;
    read_loop(rt, &mut reader, port);
}

/// Writes to a vector. The vector then holds exactly the bytes that were reported, which are a beginning of the lent
/// bytes.
fn vector_is_written<X: Wait>(rt: &X, writer: &mut Vec<u8>, port: &mut Lender<'_>)
    requires at { port.old.at ≡ 0 }
    requires empty { writer.old.items ≡ [] }
    ensures { writer.new.items ≡ take port.new.at port.new.bytes.now }
{
    write_loop(rt, writer, port);
}

#[tactic(auto, using(crate::proofs::Answering::moved_alone, crate::proofs::Answering::failed_alone))]
/// Reads. A reported end is the answer of the reader's last call, and so is a reported break.
pub fn reader_had_it<X: Wait>(rt: &X, reader: &mut Giver<'_>, port: &mut Taker)
    ensures end { port.new.state ≡ AWord.Ended → reader.new.last ≡ Ok 0 }
    ensures broken { (k : AKind) → port.new.state ≡ AWord.Broke k → reader.new.last ≡ Err k }
{
    read_loop(rt, reader, port);
}

#[tactic(auto, using(crate::proofs::Answering::moved_alone, crate::proofs::Answering::failed_alone))]
/// Writes. A reported break is the answer of the writer's last call, or that call took nothing.
pub fn writer_had_it<X: Wait>(rt: &X, writer: &mut Receiver, port: &mut Lender<'_>)
    ensures { (k : AKind) → port.new.state ≡ AWord.Broke k
        → (writer.new.last ≡ Err k) ⊎ ((writer.new.last ≡ Ok 0) × (k ≡ AKind.WriteZero)) }
{
    write_loop(rt, writer, port);
}

/// Writes to a gathering writer, and flushes. The bytes are then at the end of its vector, after those that it had and
/// those that were kept.
fn vector_gathers(gather: &mut Gather<Vec<u8>>, bytes: &[u8]) -> io::Result<()>
    ensures { OnOk result
        (gather.new.writer.items ≡ (gather.old.writer.items ++ gather.old.kept) ++ bytes.now) }
{
    write_part(gather, bytes)?;
    gather.flush()
}

/// Works. The reports have the keys of the jobs that were taken, in order.
pub fn jobs_are_reported<'r, 'a, X: Wait + Abort>(
    rt: &X,
    queue: &mut Queue<'r, 'a, X>,
    handler: &Refuser<'a>,
    gate: &mut Turnstile<'r, 'a, X>,
)
    requires taken { queue.old.taken.items ≡ [] }
    requires reported { queue.old.reported.items ≡ [] }
    ensures { map (λ report. report.0) queue.new.reported.items
        ≡ map (λ job. job.0) queue.new.taken.items }
{
    work_loop(rt, queue, handler, gate);
}

#[test]
fn a_vector_gathers(rt: HostRuntime) -> Tested {
    let mut gather = Gather::new(rt.alloc(), Vec::with_capacity(rt.alloc(), ROOM)?);
    vector_gathers(&mut gather, BYTES)?;
    check(gather.writer().as_slice() == BYTES)
}

#[test]
fn slices_and_vectors_are_readers_and_writers(rt: HostRuntime) -> Tested {
    let mut taker = Taker::new(Vec::with_capacity(rt.alloc(), ROOM)?, 7, ROOM, false);
    slice_is_taken(&rt, BYTES, &mut taker);
    let is_taken = taker.taken.as_slice() == BYTES && taker.state == PortState::Ended;
    let mut written = Vec::with_capacity(rt.alloc(), ROOM)?;
    let mut lender = Lender::new(BYTES, 7, 20);
    vector_is_written(&rt, &mut written, &mut lender);
    check(is_taken && written.as_slice() == BYTES && lender.state == PortState::Stopped)
}
