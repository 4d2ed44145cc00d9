//! A writer that buffers bytes, so that a whole frame, or a batch of short frames, goes out by one write.
ghost use Rattle.std.specs.Prelude.{◌≡◌, ◌+◌, ◌-◌, ◌^◌, ◌≤◌, ◌⊎◌, [], length, take, drop, min, IfErr, OnOk};
ghost use Rattle.std.specs.Io.{WritesAtMost};
ghost use Rattle.std.specs.Io.KnownBytes.{Appends, Keeps, WriteAppends, append_known};
ghost use Rattle.std.specs.IoError.{error_kind};
ghost use Rattle.ttrpc_sync.specs.Gathered.{IsFlushOf, IsGathered, IsNewGather, IsWriterFailure};

use std::alloc::Global;
use std::io::{self, ErrorKind};
use std::marker::Model;
use ttrpc_proto::{MESSAGE_HEADER_LENGTH, MESSAGE_LENGTH_MAX, Sink};

/// The most bytes that a gathering writer keeps: one frame of the greatest length, with its header.
pub const GATHER_LIMIT: usize = MESSAGE_HEADER_LENGTH + MESSAGE_LENGTH_MAX;

/// The most bytes that are kept when each write goes out at once. A longer frame leaves in parts, and the other side reads one part while
/// the next is copied. The limit is half of 64 KiB, plus room for a header and names. So a payload of 64 KiB leaves in two parts, without a
/// third part of a few bytes.
pub const PART_LIMIT: usize = 33792;

/// The most bytes kept by a thread that writes its own frame, when each write goes out at once. A longer loan goes to the writer directly,
/// so its bytes are copied once less.
pub const SHORT_LIMIT: usize = 16384;

/// The most room that is kept after a flush, in bytes, so that an idle connection doesn't hold the room of its longest frame.
pub const ROOM_AT_REST: usize = 65536;

/// Keeps the bytes that are written to it, and writes them to its writer at a flush, or when there is no room for more. Bytes that the
/// writer doesn't take are still kept. If memory for bytes is refused, they are offered to the writer directly after it has taken all bytes
/// that were kept. So nothing is lost or overtaken. Bytes that are kept when the `Gather` is dropped are lost.
#[derive(Drop)]
pub struct Gather<W> {
    alloc: Global,
    writer: W,
    kept: Vec<u8>,
    limit: usize,
    refusals: u64,
}

impl<W> Model for Gather<W> {
    ghost use Rattle.std.specs.Prelude.{◌≤◌, length, vec_capacity};
    ghost use Rattle.ttrpc_sync.specs.Gathered.{Gathered};

    ghost Value = { Gathered W };

    ghost view = { λ g. record {
      writer = g.writer;
      kept = g.kept.items;
      room = vec_capacity g.kept;
      limit = g.limit;
      refusals = g.refusals;
    } };

    ghost invariant = { λ g. length g.kept.items ≤ g.limit };
}

impl<W> Gather<W> {
    /// Makes a gathering writer in front of `writer`. It keeps nothing yet, and at most a whole frame. Takes no memory.
    pub fn new(alloc: Global, writer: W) -> Gather<W>
        ensures { IsNewGather GATHER_LIMIT writer result }
    {
        Gather::with_limit(alloc, writer, GATHER_LIMIT)
    }

    /// Makes a gathering writer in front of `writer` that keeps at most `limit` bytes. Takes no memory.
    pub fn with_limit(alloc: Global, writer: W, limit: usize) -> Gather<W>
        ensures { IsNewGather limit writer result }
    {
        Gather {
            alloc,
            writer,
            kept: Vec::new(alloc),
            limit,
            refusals: 0,
        }
    }

    /// Returns the writer to which bytes are handed on.
    pub fn writer(&self) -> &W
        ensures { result.now ≡ self.now.writer }
    {
        &self.writer
    }

    /// Returns the bytes that are kept.
    pub fn kept(&self) -> &[u8]
        ensures bytes { result.now ≡ self.now.kept }
        ensures bound { length result.now ≤ self.now.limit }
    {
        self.kept.as_slice()
    }

    /// Returns how often memory for bytes was refused, so that they were offered to the writer directly.
    pub fn refusals(&self) -> u64
        ensures { result ≡ self.now.refusals }
    {
        self.refusals
    }
}

impl<W: Sink> Gather<W> {
    // Writes the kept bytes until the writer has taken all of them, or fails.
    fn hand_on(&mut self) -> io::Result<()>
        // The bytes written and kept are the same as before. At an `Ok` none are kept.
        ensures bytes { Keeps (append_known (W.contents self.old.writer) self.old.kept)
            (append_known (W.contents self.new.writer) self.new.kept) }
        ensures ok { OnOk result (self.new.kept ≡ []) }
        // An error is the writer's, or reports that the writer took nothing.
        ensures err { IfErr result (λ e. IsWriterFailure (W.last self.new.writer) (error_kind e)) }
        // The count of refusals and the limit are as they were.
        ensures refusals { self.new.refusals ≡ self.old.refusals }
        ensures limit { self.new.limit ≡ self.old.limit }
    {
        let (taken, answer) = write_front(&mut self.writer, self.kept.as_slice());
        remove_front(&mut self.kept, taken);
        answer
    }
}

impl<W: Sink> Sink for Gather<W> {
    ghost use Rattle.std.specs.Io.KnownBytes.{append_known};

    ghost contents = { λ g. append_known (W.contents g.writer) g.kept };

    /// Keeps the bytes. An error is the writer's, or `WriteZero` if the writer took nothing; after an error none of the bytes is kept.
    fn write(&mut self, bytes: &[u8]) -> io::Result<usize>
        // This many of the bytes follow those written and kept before. At an error none do.
        ensures bound { WritesAtMost result bytes.now }
        ensures bytes { WriteAppends (append_known (W.contents self.old.writer) self.old.kept)
            (append_known (W.contents self.new.writer) self.new.kept) result bytes.now }
        // At an `Ok` the bytes are kept, or nothing is if they can't be. An error is the writer's, or reports that it took nothing.
        ensures whole { OnOk result (IsGathered self.old self.new bytes.now) }
        ensures err { IfErr result (λ e. IsWriterFailure (W.last self.new.writer) (error_kind e)) }
        // At most one more refusal is counted, and the limit is as it was.
        ensures refusals { (self.new.refusals ≡ self.old.refusals)
            ⊎ (self.new.refusals ≡ min (self.old.refusals + 1) (2 ^ 64 - 1)) }
        ensures limit { self.new.limit ≡ self.old.limit }
    {
        if bytes.len() > self.limit - self.kept.len() {
            self.hand_on()?;
        }
        if bytes.len() <= self.limit {
            if self.kept.extend_from_slice(bytes).is_ok() {
                return Ok(bytes.len());
            }
            self.refusals = self.refusals.saturating_add(1);
        }
        self.hand_on()?;
        self.writer.write(bytes)
    }

    /// Writes the kept bytes, and flushes the writer. After an error, bytes that weren't written are still kept. Releases memory above
    /// `ROOM_AT_REST`.
    fn flush(&mut self) -> io::Result<()>
        // The bytes written and kept are the same as before. At an `Ok` none are kept, and the room is at most `ROOM_AT_REST`.
        ensures bytes { Keeps (append_known (W.contents self.old.writer) self.old.kept)
            (append_known (W.contents self.new.writer) self.new.kept) }
        ensures kept { OnOk result (self.new.kept ≡ []) }
        ensures room { OnOk result (self.new.room ≤ ROOM_AT_REST) }
        // The count of refusals and the limit are as they were.
        ensures refusals { self.new.refusals ≡ self.old.refusals }
        ensures limit { self.new.limit ≡ self.old.limit }
        // By its last answer the writer was flushed, or failed with this error.
        ensures answer { IsFlushOf (W.last self.new.writer) result }
    {
        self.hand_on()?;
        if self.kept.capacity() > ROOM_AT_REST {
            self.kept = Vec::new(self.alloc);
        }
        self.writer.flush()
    }
}

#[tactic(auto, using(crate::proofs::Handing::taken_further, crate::proofs::Handing::taken_fits))]
// Writes bytes until all are taken, or the writer fails or takes nothing. Returns how many it took.
fn write_front<W: Sink>(writer: &mut W, bytes: &[u8]) -> (usize, io::Result<()>)
    ensures bound { result.0 ≤ length bytes.now }
    ensures bytes { Appends (W.contents writer.old) (W.contents writer.new)
        (take result.0 bytes.now) }
    ensures ok { OnOk result.1 (result.0 ≡ length bytes.now) }
    ensures err { IfErr result.1 (λ e. IsWriterFailure (W.last writer.new) (error_kind e)) }
{
    let mut at = 0;
    while at < bytes.len() {
        match writer.write(&bytes[at..]) {
            Ok(0) => return (at, Err(ErrorKind::WriteZero.into())),
            Ok(taken) => at += taken,
            Err(error) => return (at, Err(error)),
        }
    }
    (at, Ok(()))
}

// Removes the first `count` bytes.
fn remove_front(kept: &mut Vec<u8>, count: usize)
    requires { count ≤ length kept.old.items }
    ensures { kept.new.items ≡ drop count kept.old.items }
{
    let len = kept.len();
    kept.as_mut_slice().copy_within(count..len, 0);
    kept.truncate(len - count);
}
