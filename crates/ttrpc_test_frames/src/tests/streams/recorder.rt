//! A writer that records each call with its answer, and the contracts of the writers over it.
ghost use Rattle.std.specs.Prelude.{◌≡◌, ◌++◌, [], ◌∷◌, map, Some};
ghost use Rattle.std.specs.Option.{option_map_or};
ghost use Rattle.ttrpc_proto.specs.Framing.Streams.{Flushed, Offered, answered_kind};

use std::alloc::Global;
use std::io::{self, ErrorKind};
use std::process::Abort;
use ttrpc_bench::Receiver;
use ttrpc_proto::Sink;
use ttrpc_wire::Blob;

/// The offered bytes, or `None` for a flush, and the answer.
pub type Kept = (Option<Blob>, Result<usize, ErrorKind>);

/// A writer that takes bytes as a `Receiver` does. If there is no memory to record a call, it aborts the test.
#[derive(Drop)]
pub struct Recorder<'a, X> {
    pub rt: &'a X,
    pub alloc: Global,
    pub receiver: Receiver,
    pub kept: Vec<Kept>,
}

impl<X: Abort> Recorder<'_, X> {
    fn keep(&mut self, call: Kept)
        ensures { self.new.kept.items ≡ self.old.kept.items ++ call ∷ [] }
    {
        self.kept.push(call).expect(self.rt, "room for a call");
    }
}

impl<X: Abort> Sink for Recorder<'_, X> {
    ghost calls = { λ r. Some (map (λ call. option_map_or (λ bytes. Offered bytes
        (answered_kind call.1)) call.0 (Flushed (answered_kind call.1))) r.kept.items) };

    #[tactic(auto, using(std::proofs::lemmas::Grind::common_steps))]
    fn write(&mut self, bytes: &[u8]) -> io::Result<usize> {
        let answer = self.receiver.take(bytes);
        let offered = Blob::from_slice(self.alloc, bytes).expect(self.rt, "room for bytes");
        self.keep((Some(offered), answer));
        Ok(answer?)
    }

    fn flush(&mut self) -> io::Result<()> {
        self.keep((None, Ok(0)));
        Ok(())
    }
}
