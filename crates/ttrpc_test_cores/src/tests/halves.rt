//! How the halves of a connection start.
use crate::tests::script::Start;
use std::alloc::Global;
use ttrpc_bench::{Sealed, StampIn, StampOut, Swelling, Transformed};
use ttrpc_secure::{OutboundTransform, Plain, TransformError};
use ttrpc_wire::Text;

/// A half that scripts run over.
pub trait Half {
    fn start(start: Start) -> Self;
}

impl Half for Plain {
    fn start(_start: Start) -> Plain {
        Plain {}
    }
}

impl Half for StampOut {
    fn start(_start: Start) -> StampOut {
        StampOut::new()
    }
}

impl Half for StampIn {
    fn start(_start: Start) -> StampIn {
        StampIn::new()
    }
}

impl Half for Swelling {
    fn start(_start: Start) -> Swelling {
        Swelling {}
    }
}

impl Half for Sealed {
    fn start(start: Start) -> Sealed {
        let room = match start {
            Start::Room(room) => room,
            Start::Fresh | Start::AtLastId | Start::BareOpenings => 0,
        };
        Sealed { room }
    }
}

/// The length of the request that opens the stream `Chat` of `demo.Echo`.
const OPENING: usize = 17;

/// The overhead that leaves room for that length alone.
const OVERHEAD: usize = 4194304 - OPENING;

/// A half that leaves data of that length as they are, refuses all others, and has no room for more.
#[derive(Debug, Drop)]
pub struct OpensOnly {}

impl OutboundTransform for OpensOnly {
    ghost use Rattle.std.specs.Prelude.{false, refl, ◌-◌};
    ghost use Rattle.std.proofs.Common.{arith};
    ghost use Rattle.ttrpc_secure.specs.Plain.{Keeps};
    ghost use Rattle.ttrpc_bench.specs.Others.{RefusesAll};

    const SEALS: bool = false;

    ghost SEALS = { false };

    ghost overhead = { λ _. 4194304 - 17 };

    ghost seals = { Keeps };

    ghost refuses = { RefusesAll };

    fn transform_outbound(&mut self, alloc: Global, data: &[u8], _aad: &[u8]) -> Transformed {
        if data.len() != OPENING {
            return Err(TransformError::Refused(Text::from_str(alloc, "sealed up")?));
        }
        let sealed = Vec::from_slice(alloc, data)?;
        Ok(sealed)
    }

    fn max_overhead(&self) -> usize {
        OVERHEAD
    }

    ghost lawful = { record {
      longer = λ s t plain aad sealed h. Prim.rw h.0 (Prim.omega arith);
      fixed = λ s t plain aad sealed h. refl;
      small = λ s. Prim.omega arith;
      still = λ e s t plain aad sealed h. h.1;
    } };
}

impl Half for OpensOnly {
    fn start(_start: Start) -> OpensOnly {
        OpensOnly {}
    }
}
