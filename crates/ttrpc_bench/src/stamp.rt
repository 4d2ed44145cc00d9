//! Halves that count: sealing appends a stamp, which is the number of frames sealed before, modulo 256.
ghost use Rattle.std.specs.Prelude.{◌≡◌, ◌≢◌, ℕ, codes, IfOk, IfErr, OnErr};
ghost use Rattle.ttrpc_secure.specs.Halves.{IsPaired};
ghost use Rattle.ttrpc_bench.specs.Stamp.{TakesStampOff, HasWrongStamp};

use std::alloc::Global;
use std::marker::Model;
use ttrpc_secure::{InboundTransform, OutboundTransform, TransformError};
use ttrpc_wire::Text;

/// The result of a half's transform.
pub type Transformed = Result<Vec<u8>, TransformError>;

/// The half that appends stamps. Contracts see it as its next stamp.
#[derive(Debug, Default, Drop)]
pub struct StampOut {
    count: u8,
}

impl Model for StampOut {
    ghost Value = { ℕ };

    ghost view = { λ half. half.count };
}

impl StampOut {
    /// Returns a half that has sealed nothing.
    pub fn new() -> StampOut
        ensures { result ≡ 0 }
    {
        StampOut { count: 0 }
    }
}

impl OutboundTransform for StampOut {
    ghost use Rattle.std.specs.Prelude.{true, refl};
    ghost use Rattle.std.proofs.Common.{arith, length-append};
    ghost use Rattle.ttrpc_secure.specs.Halves.{RefusesNothing};
    ghost use Rattle.ttrpc_bench.specs.Stamp.{AppendsStamp};

    const SEALS: bool = true;

    ghost SEALS = { true };

    ghost overhead = { λ _. 1 };

    ghost seals = { AppendsStamp };

    ghost refuses = { RefusesNothing };

    fn transform_outbound(&mut self, alloc: Global, data: &[u8], _aad: &[u8]) -> Transformed {
        let mut sealed = Vec::with_capacity(alloc, data.len().saturating_add(1))?;
        sealed.extend_from_slice(data)?;
        sealed.push(self.count)?;
        self.count = self.count.wrapping_add(1);
        Ok(sealed)
    }

    fn max_overhead(&self) -> usize {
        1
    }

    ghost lawful = { record {
      longer = λ s t plain aad sealed h. Prim.rw (h.0, length-append) (Prim.omega arith);
      fixed = λ s t plain aad sealed h. refl;
      small = λ s. Prim.omega arith;
      still = λ e s t plain aad sealed h. Prim.cc;
    } };
}

/// The half that removes stamps. Contracts see it as the stamp that it expects next.
#[derive(Debug, Default, Drop)]
pub struct StampIn {
    count: u8,
}

impl Model for StampIn {
    ghost Value = { ℕ };

    ghost view = { λ half. half.count };
}

impl StampIn {
    /// Returns a half that has opened nothing.
    pub fn new() -> StampIn
        ensures { result ≡ 0 }
    {
        StampIn { count: 0 }
    }
}

impl InboundTransform for StampIn {
    ghost opens = { TakesStampOff };

    ghost refuses = { HasWrongStamp };

    fn transform_inbound(&mut self, alloc: Global, data: &[u8], _aad: &[u8]) -> Transformed {
        match data {
            [opened @ .., stamp] if *stamp == self.count => {
                let opened = Vec::from_slice(alloc, opened)?;
                self.count = self.count.wrapping_add(1);
                Ok(opened)
            }
            _ => Err(TransformError::Refused(Text::from_str(alloc, "bad stamp")?)),
        }
    }
}

/// Returns a half that has sealed nothing, and one that has opened nothing. They are paired.
pub fn stamps() -> (StampOut, StampIn)
    ensures fresh { (result.0 ≡ 0) × (result.1 ≡ 0) }
    ensures paired { IsPaired ⟦<StampOut as OutboundTransform>⟧.seals
        ⟦<StampIn as InboundTransform>⟧.opens ⟦<StampIn as InboundTransform>⟧.refuses
        result.0 result.1 }
{
    (StampOut::new(), StampIn::new())
}
