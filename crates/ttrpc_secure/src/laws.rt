//! A law of paired halves.
ghost use Rattle.std.specs.Prelude.{◌≡◌, ℕ, List};
ghost use Rattle.ttrpc_secure.specs.Halves.{IsPaired};

use crate::transform::{InboundTransform, OutboundTransform};

/// States that paired halves agree: the inbound half doesn't refuse sealed data, and opens them to the data that were
/// sealed. The halves are paired again after that.
pub fn paired_halves_agree<O: OutboundTransform, I: InboundTransform>()
    ensures not_refused { (s : O) (t : I) (plain aad sealed : List ℕ) (s_after : O)
        → IsPaired O.seals I.opens I.refuses s t → O.seals s plain aad sealed s_after
        → (why : List ℕ) → I.refuses t sealed aad why → ⊥ }
    ensures same { (s : O) (t : I) (plain aad sealed opened : List ℕ) (s_after : O) (t_after : I)
        → IsPaired O.seals I.opens I.refuses s t → O.seals s plain aad sealed s_after
        → I.opens t sealed aad opened t_after → opened ≡ plain }
    ensures paired_again { (s : O) (t : I) (plain aad sealed opened : List ℕ) (s_after : O)
        (t_after : I)
        → IsPaired O.seals I.opens I.refuses s t → O.seals s plain aad sealed s_after
        → I.opens t sealed aad opened t_after
        → IsPaired O.seals I.opens I.refuses s_after t_after }
{}
