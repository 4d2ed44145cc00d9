//! A choice of members: at most one of them is set.
ghost use Rattle.std.specs.Prelude.{◌≡◌, ◌≢◌, ℕ, ◌-◌, ◌≤◌, ◌^◌, ◌++◌, length, Option, IfOk, OnOk, IfErr, min};
ghost use Rattle.ttrpc_wire.specs.Field.{fields_bytes};
ghost use Rattle.ttrpc_wire.specs.Seen.{seen};
ghost use Rattle.ttrpc_wire.specs.Fold.{Gives};
ghost use Rattle.ttrpc_members.specs.Schema.{Part};

use std::alloc::{AllocError, Global};
use ttrpc_wire::{CodecError, Field};

/// A choice of several members, each with a number: at most one of them is set. The last member that was set wins.
pub trait Choice: Sized + Drop {
    /// How the set member, or none, is written and read.
    ghost part: { Part (Option Self) };

    /// Offers a field to the members. After an error some member is set, or none.
    fn put(choice: &mut Option<Self>, alloc: Global, field: Field<'_>) -> Result<(), CodecError>
        ensures { Gives (λ _. choice.new) result (part.step choice.old (seen field.entry)) };

    /// Returns the length of the set member's field; at most the greatest `u64`.
    fn length(choice: &Option<Self>) -> u64
        ensures { result ≡ min (length (fields_bytes (part.fields choice.now))) (2 ^ 64 - 1) };

    /// Writes the set member's field. The error is `TooLong` if the field is 2^32 bytes or longer. After an error a part of it may have
    /// been written.
    fn write(choice: &Option<Self>, out: &mut Vec<u8>) -> Result<(), CodecError>
        ensures ok { OnOk result
            (out.new.items ≡ out.old.items ++ fields_bytes (part.fields choice.now)) }
        ensures too_long { IfErr result (λ e. e ≢ CodecError.NoMemory → (e ≡ CodecError.TooLong)
            × (2 ^ 32 ≤ length (fields_bytes (part.fields choice.now)))) };

    /// Makes a copy.
    fn try_clone(choice: &Option<Self>) -> Result<Option<Self>, AllocError>
        ensures { IfOk result (λ copy. copy ≡ choice.now) };

    /// A lemma, which does nothing when it runs: the set member is a value of its kind.
    fn lemma_is_value(choice: &Option<Self>)
        ensures { part.is_value choice.now };
}
