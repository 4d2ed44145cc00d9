//! The halves that leave data as they are.
ghost use Rattle.ttrpc_secure.specs.Halves.{IsPaired};

use crate::transform::{InboundTransform, OutboundTransform, TransformError};
use std::alloc::Global;

/// Both halves of the transform that leaves data as they are.
#[derive(Clone, Copy, Debug, Default, PartialEq, Eq)]
pub struct Plain {}

impl OutboundTransform for Plain {
    ghost use Rattle.std.specs.Prelude.{false, refl};
    ghost use Rattle.std.proofs.Common.{arith};
    ghost use Rattle.ttrpc_secure.specs.Halves.{RefusesNothing};
    ghost use Rattle.ttrpc_secure.specs.Plain.{Keeps};

    const SEALS: bool = false;

    ghost SEALS = { false };

    ghost overhead = { λ _. 0 };

    ghost seals = { Keeps };

    ghost refuses = { RefusesNothing };

    fn transform_outbound(
        &mut self,
        alloc: Global,
        data: &[u8],
        _aad: &[u8],
    ) -> Result<Vec<u8>, TransformError> {
        let sealed = Vec::from_slice(alloc, data)?;
        Ok(sealed)
    }

    fn transform_outbound_vec(
        &mut self,
        _alloc: Global,
        plain: Vec<u8>,
        _aad: &[u8],
    ) -> Result<Vec<u8>, TransformError> {
        Ok(plain)
    }

    fn max_overhead(&self) -> usize {
        0
    }

    fn leaves_as_is(&self) -> bool {
        true
    }

    ghost lawful = { record {
      longer = λ s t plain aad sealed h. Prim.rw h.0 (Prim.omega arith);
      fixed = λ s t plain aad sealed h. refl;
      small = λ s. Prim.omega arith;
      still = λ e s t plain aad sealed h. h.1;
    } };
}

impl InboundTransform for Plain {
    ghost use Rattle.ttrpc_secure.specs.Halves.{RefusesNothing};
    ghost use Rattle.ttrpc_secure.specs.Plain.{Keeps};

    ghost opens = { Keeps };

    ghost refuses = { RefusesNothing };

    fn transform_inbound(
        &mut self,
        alloc: Global,
        data: &[u8],
        _aad: &[u8],
    ) -> Result<Vec<u8>, TransformError> {
        let opened = Vec::from_slice(alloc, data)?;
        Ok(opened)
    }

    fn transform_inbound_vec(
        &mut self,
        _alloc: Global,
        data: Vec<u8>,
        _aad: &[u8],
    ) -> Result<Vec<u8>, TransformError> {
        Ok(data)
    }
}

/// States that any two plain halves are paired.
pub fn plain_is_paired()
    ensures { (s t : Plain) → IsPaired ⟦<Plain as OutboundTransform>⟧.seals
        ⟦<Plain as InboundTransform>⟧.opens ⟦<Plain as InboundTransform>⟧.refuses s t }
{}
