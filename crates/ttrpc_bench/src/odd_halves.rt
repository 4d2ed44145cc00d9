//! A half that refuses, and one that opens payloads to more than a message may have.
ghost use Rattle.std.specs.Prelude.{◌≡◌, ◌≢◌, IfOk, IfErr, OnErr};

use crate::stamp::Transformed;
use std::alloc::Global;
use ttrpc_proto::MESSAGE_LENGTH_MAX;
use ttrpc_secure::{InboundTransform, OutboundTransform, TransformError};
use ttrpc_wire::Text;

/// An inbound half that opens any payload to one byte more than a message may have.
#[derive(Debug, Drop)]
pub struct Swelling {}

impl InboundTransform for Swelling {
    ghost use Rattle.ttrpc_secure.specs.Halves.{RefusesNothing};
    ghost use Rattle.ttrpc_bench.specs.Others.{Swells};

    ghost opens = { Swells };

    ghost refuses = { RefusesNothing };

    fn transform_inbound(&mut self, alloc: Global, _data: &[u8], _aad: &[u8]) -> Transformed {
        Ok(vec![in alloc; 7; MESSAGE_LENGTH_MAX + 1]?)
    }
}

/// An outbound half that refuses to seal. Its overhead leaves room for `room` bytes.
#[derive(Debug, Drop)]
pub struct Sealed {
    pub room: usize,
}

impl OutboundTransform for Sealed {
    ghost use Rattle.std.specs.Prelude.{false, refl, min, ◌-◌};
    ghost use Rattle.std.proofs.Common.{arith};
    ghost use Rattle.ttrpc_proto.specs.declared.framing.header.TheConstants.{MESSAGE_LENGTH_MAX};
    ghost use Rattle.ttrpc_bench.specs.Others.{SealsNothing, RefusesAll};
    ghost use Rattle.ttrpc_bench.specs.declared.odd_halves.Sealed.{Sealed as ASealed};

    const SEALS: bool = false;

    ghost SEALS = { false };

    ghost overhead = { λ (s : ASealed). MESSAGE_LENGTH_MAX - s.room };

    ghost seals = { SealsNothing };

    ghost refuses = { RefusesAll };

    fn transform_outbound(&mut self, alloc: Global, _data: &[u8], _aad: &[u8]) -> Transformed {
        Err(TransformError::Refused(Text::from_str(alloc, "sealed up")?))
    }

    fn max_overhead(&self) -> usize {
        MESSAGE_LENGTH_MAX.saturating_sub(self.room)
    }

    ghost lawful = { record {
      longer = λ s t plain aad sealed h. absurd h;
      fixed = λ s t plain aad sealed h. absurd h;
      small = λ s. Prim.omega arith;
      still = λ e s t plain aad sealed h. absurd h;
    } };
}
