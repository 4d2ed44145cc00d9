//! A law of the failures in every run, and two laws of clean drained runs, over the definitions.
ghost use Rattle.std.specs.Prelude.{◌≡◌, ◌++◌, ℕ, List};
ghost use Rattle.ttrpc_world.specs.Headline.Words.{Entry as AnEntry, IsFresh, Net, Runs, halves};
ghost use Rattle.ttrpc_world.specs.Headline.Living.{IsEmpty, IsOpen, Lives};
ghost use Rattle.ttrpc_world_trace.specs.Clean.{IsClean, IsDrained};

use ttrpc_secure::{InboundTransform, OutboundTransform};

/// States that no run clears a failure: if neither side has failed after the run, neither had failed before it.
pub fn a_failure_is_kept<
    CO: OutboundTransform,
    CI: InboundTransform,
    SO: OutboundTransform,
    SI: InboundTransform,
>()
    ensures { (old new : Net CO CI SO SI) (trace : List AnEntry)
        → Runs (halves CO.OutboundTransform CI.InboundTransform)
        (halves SO.OutboundTransform SI.InboundTransform) CO.SEALS old trace new
        → Lives new → Lives old }
{}

/// States that at each place of a clean drained run neither side has failed, no pipe is cut, and the server isn't draining. The
/// last carries and deliveries of a drained run moved nothing.
pub fn clean_drained_runs_live<
    CO: OutboundTransform,
    CI: InboundTransform,
    SO: OutboundTransform,
    SI: InboundTransform,
>()
    ensures { let c = halves CO.OutboundTransform CI.InboundTransform in
        let s = halves SO.OutboundTransform SI.InboundTransform in
        (old mid new : Net CO CI SO SI) (front back : List AnEntry) (stream_of : ℕ → ℕ)
        → IsFresh c s old
        → Runs c s CO.SEALS old front mid → Runs c s CO.SEALS mid back new
        → IsClean old.server.state.rules stream_of (front ++ back) → IsDrained (front ++ back)
        → Lives mid × IsOpen mid }
{}

/// States that at the end of a clean drained run nothing is queued, and nothing is in a pipe.
pub fn clean_drained_runs_end_empty<
    CO: OutboundTransform,
    CI: InboundTransform,
    SO: OutboundTransform,
    SI: InboundTransform,
>()
    ensures { let c = halves CO.OutboundTransform CI.InboundTransform in
        let s = halves SO.OutboundTransform SI.InboundTransform in
        (old new : Net CO CI SO SI) (trace : List AnEntry) (stream_of : ℕ → ℕ)
        → IsFresh c s old → Runs c s CO.SEALS old trace new
        → IsClean old.server.state.rules stream_of trace → IsDrained trace → IsEmpty new }
{}
