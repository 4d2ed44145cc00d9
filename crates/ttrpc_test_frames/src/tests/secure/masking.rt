//! Halves that mask data. If they bind the data as well, they put a tag of the bound bytes into the head, and mask with
//! a key that depends on those bytes.
ghost use Rattle.std.specs.Prelude.{◌≡◌, IfOk, IfErr, OnErr};

use crate::tests::secure::packet::{
    ALGORITHM, KEY, check_algorithm, data_of, packet_of, too_short,
};
use std::alloc::Global;
use ttrpc_bench::Transformed;
use ttrpc_secure::{ConnectionContext, InboundTransform, OutboundTransform, TransformError};
use ttrpc_wire::Text;

/// Both halves. Their heads have the algorithm's number and the length, with the tag between them if they bind. No call
/// changes them.
#[derive(Drop)]
pub struct Masking {
    pub binds: bool,
}

/// Returns the context of a connection with such halves.
pub fn masking_context(alloc: Global, binds: bool) -> ConnectionContext<Masking, Masking> {
    ConnectionContext::of_halves(alloc, Masking { binds }, Masking { binds })
}

/// Returns the tag of bytes. Its upper byte is the exclusive or of the first byte, the third and so on, and its lower
/// byte is that of the others.
fn tag_of(aad: &[u8]) -> u16 {
    let mut tag = [0; 2];
    for (place, byte) in aad.iter().enumerate() {
        tag[place % 2] ^= *byte;
    }
    u16::from_be_bytes(tag)
}

fn check_tag(alloc: Global, stored: u16, expected: u16) -> Result<(), TransformError> {
    if stored != expected {
        let why = format!(in alloc;
            "xor: AAD mismatch (stored=0x{stored:04X}, expected=0x{expected:04X}) — header tampered"
        )?;
        return Err(TransformError::Refused(Text::from_string(why)));
    }
    Ok(())
}

/// Returns the data of a packet of a half that only masks.
fn unmasked(alloc: Global, packet: &[u8]) -> Transformed {
    let [a, b, c, d, e, f, masked @ ..] = packet else {
        return Err(too_short(alloc, packet.len(), 6)?);
    };
    check_algorithm(alloc, u16::from_be_bytes([*a, *b]))?;
    data_of(alloc, masked, u32::from_be_bytes([*c, *d, *e, *f]), KEY)
}

/// Returns the data of a packet of a half that binds them to these bytes.
fn unbound(alloc: Global, packet: &[u8], aad: &[u8]) -> Transformed {
    let [a, b, c, d, e, f, g, h, masked @ ..] = packet else {
        return Err(too_short(alloc, packet.len(), 8)?);
    };
    check_algorithm(alloc, u16::from_be_bytes([*a, *b]))?;
    let tag = tag_of(aad);
    check_tag(alloc, u16::from_be_bytes([*c, *d]), tag)?;
    let length = u32::from_be_bytes([*e, *f, *g, *h]);
    data_of(alloc, masked, length, KEY ^ tag)
}

impl OutboundTransform for Masking {
    ghost use Rattle.std.specs.Prelude.{◌≤◌, true, false};
    ghost use Rattle.std.proofs.Common.{ap, arith};
    ghost use Rattle.ttrpc_test_frames.specs.Masking.{Lengthens, RefusesAnything, overhead_of};
    ghost use Rattle.ttrpc_test_frames.specs.declared.tests.secure.masking.Masking.{Masking as AMasking};

    const SEALS: bool = true;

    ghost SEALS = { true };

    ghost overhead = { λ (s : AMasking). overhead_of s.binds };

    ghost seals = { λ (s : AMasking). Lengthens (overhead_of s.binds) s };

    ghost refuses = { RefusesAnything };

    fn transform_outbound(&mut self, alloc: Global, data: &[u8], aad: &[u8]) -> Transformed {
        let [a, b] = ALGORITHM.to_be_bytes();
        if !self.binds {
            return packet_of(alloc, &[a, b], data, KEY);
        }
        let tag = tag_of(aad);
        let [c, d] = tag.to_be_bytes();
        packet_of(alloc, &[a, b, c, d], data, KEY ^ tag)
    }

    fn max_overhead(&self) -> usize {
        if self.binds { 9 } else { 7 }
    }

    ghost lawful = { record {
      longer = λ s t plain aad sealed h. h.0;
      fixed = λ s t plain aad sealed h. ap (λ (m : AMasking). overhead_of m.binds) h.1;
      small = λ (s : AMasking). elim s.binds as (λ b. overhead_of b ≤ 4194304) [ true ↦ Prim.omega arith | false ↦ Prim.omega arith ];
      still = λ e s t plain aad sealed h. h.1;
    } };
}

impl InboundTransform for Masking {
    ghost use Rattle.ttrpc_test_frames.specs.Masking.{Stays, RefusesAnything};

    ghost opens = { Stays };

    ghost refuses = { RefusesAnything };

    fn transform_inbound(&mut self, alloc: Global, data: &[u8], aad: &[u8]) -> Transformed {
        if self.binds {
            unbound(alloc, data, aad)
        } else {
            unmasked(alloc, data)
        }
    }
}
