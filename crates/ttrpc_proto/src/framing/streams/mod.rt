//! Readers and writers of std, and others that also report the answer of their last call, or all calls that were made
//! of them. `again` tries a call again, and `moving` fills a buffer and writes a whole part.

mod again;
mod moving;

ghost use Rattle.std.specs.Prelude.{◌≡◌, ℕ, List, [], ◌∷◌, Option, None, IfSome};
ghost use Rattle.std.specs.Io.{ReadsAtMost, WritesAtMost};
ghost use Rattle.std.specs.Io.KnownBytes.{Keeps, ReadConsumes, WriteAppends};
ghost use Rattle.ttrpc_proto.specs.Framing.Streams.{Answered, Called, Counts, Flushes, Makes, Offered, answered, failure, flush_answer};

pub use self::again::{Passing, read_again, write_again};
pub use self::moving::{fill, write_both, write_part};
use std::io::{self, Read, Write};

/// A source of bytes.
pub trait Source {
    // The bytes that later reads will give, if they are known.
    ghost remaining: { Self → Option (List ℕ) } = { λ _. None };

    // The answer of the last call, if the source reports it.
    ghost last: { Self → Option Answered } = { λ _. None };

    // The number of reads that were made, if the source counts them.
    ghost reads: { Self → Option ℕ } = { λ _. None };

    /// Reads bytes into the buffer, as `read` of std's `Read` does.
    fn read(&mut self, buffer: &mut [u8]) -> io::Result<usize>
        ensures bound { ReadsAtMost result buffer.new }
        ensures bytes { ReadConsumes (remaining self.old) (remaining self.new) result buffer.new }
        ensures last { IfSome (last self.new) (λ a. a ≡ answered result) }
        ensures reads { Counts (reads self.old) (reads self.new) 1 };
}

/// A sink for bytes.
pub trait Sink {
    // The bytes that the sink holds, if they are known.
    ghost contents: { Self → Option (List ℕ) } = { λ _. None };

    // The answer of the last call, if the sink reports it.
    ghost last: { Self → Option Answered } = { λ _. None };

    // All calls that were made of the sink, if it reports them.
    ghost calls: { Self → Option (List Called) } = { λ _. None };

    /// Writes bytes, as `write` of std's `Write` does.
    fn write(&mut self, bytes: &[u8]) -> io::Result<usize>
        ensures bound { WritesAtMost result bytes.now }
        ensures bytes { WriteAppends (contents self.old) (contents self.new) result bytes.now }
        ensures last { IfSome (last self.new) (λ a. a ≡ answered result) }
        ensures calls { Makes (calls self.old) (calls self.new)
            (λ cs. cs ≡ Offered bytes.now (answered result) ∷ []) };

    /// Flushes the sink, as `flush` of std's `Write` does.
    fn flush(&mut self) -> io::Result<()>
        ensures bytes { Keeps (contents self.old) (contents self.new) }
        ensures last { IfSome (last self.new) (λ a. a ≡ flush_answer (failure result)) }
        ensures calls { Makes (calls self.old) (calls self.new)
            (λ cs. Flushes cs (failure result)) };
}

impl<R: Read> Source for R {
    ghost remaining = { R.remaining };

    fn read(&mut self, buffer: &mut [u8]) -> io::Result<usize> {
        Read::read(self, buffer)
    }
}

impl<W: Write> Sink for W {
    ghost contents = { W.contents };

    fn write(&mut self, bytes: &[u8]) -> io::Result<usize> {
        Write::write(self, bytes)
    }

    fn flush(&mut self) -> io::Result<()> {
        Write::flush(self)
    }
}
