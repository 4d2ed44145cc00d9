//! The traits of the two halves, and their errors.
ghost use Rattle.std.specs.Prelude.{◌≡◌, ℕ, List, Bool, true, IfOk, IfErr, OnErr};
ghost use Rattle.ttrpc_secure.specs.Halves.{Moves, Refusals, MayFail, IsLawful};

use std::alloc::{AllocError, AllocFailed, Global};
use ttrpc_proto::Text;

/// The reason why a half returned no data.
#[derive(Debug, Drop, PartialEq, Eq)]
pub enum TransformError {
    /// The half refuses these bytes, for this reason.
    Refused(Text),
    /// The allocator refused memory.
    NoMemory,
}

impl From<AllocError> for TransformError {
    ghost use Rattle.ttrpc_secure.specs.declared.transform.TransformError.TheVariants.{NoMemory};

    ghost from_gives = { λ _ e. e ≡ NoMemory };

    fn from(_refused: AllocError) -> TransformError {
        TransformError::NoMemory
    }
}

impl<T: Drop> From<AllocFailed<T>> for TransformError {
    ghost use Rattle.ttrpc_secure.specs.declared.transform.TransformError.TheVariants.{NoMemory};

    ghost from_gives = { λ _ e. e ≡ NoMemory };

    fn from(_refused: AllocFailed<T>) -> TransformError {
        TransformError::NoMemory
    }
}

/// The half that seals data on their way out, in the order of the calls.
pub trait OutboundTransform {
    /// True if sealing may change the half. If it is false, sealed data need not be sent.
    const SEALS: bool;

    ghost SEALS: { Bool };

    // A bound on the number of bytes that sealing adds.
    ghost overhead: { Self → ℕ };

    // The possible calls that seal data.
    ghost seals: { Moves Self };

    // The possible refusals to seal data.
    ghost refuses: { Refusals Self };

    /// Seals the data under these associated bytes, which the other half has to be given unchanged.
    fn transform_outbound(
        &mut self,
        alloc: Global,
        data: &[u8],
        aad: &[u8],
    ) -> Result<Vec<u8>, TransformError>
        ensures ok { IfOk result
            (λ sealed. seals self.old «data».now aad.now sealed.items self.new) }
        ensures refused { IfErr result (MayFail refuses self.old «data».now aad.now) }
        ensures err { OnErr result (self.new ≡ self.old) };

    /// Seals data that the half may keep, as it seals other data. A half that adds nothing returns the vector.
    fn transform_outbound_vec(
        &mut self,
        alloc: Global,
        data: Vec<u8>,
        aad: &[u8],
    ) -> Result<Vec<u8>, TransformError>
        ensures ok { IfOk result
            (λ sealed. seals self.old «data».items aad.now sealed.items self.new) }
        ensures refused { IfErr result (MayFail refuses self.old «data».items aad.now) }
        ensures err { OnErr result (self.new ≡ self.old) }
    {
        self.transform_outbound(alloc, data.as_slice(), aad)
    }

    /// Returns a bound on the number of bytes that sealing adds.
    fn max_overhead(&self) -> usize
        ensures { result ≡ overhead self.now };

    /// Returns true only if the half leaves data as they are. Then any data, under any associated bytes, may be sealed
    /// to exactly these data, and the half doesn't change. Such a half isn't asked to seal. Takes no memory.
    fn leaves_as_is(&self) -> bool
        ensures { result ≡ true → (plain aad : List ℕ) → seals self.now plain aad plain self.now }
    {
        false
    }

    ghost lawful: { IsLawful SEALS overhead seals };
}

/// The half that opens data on their way in, in the order in which they were sealed.
pub trait InboundTransform {
    // The possible calls that open data.
    ghost opens: { Moves Self };

    // The possible refusals to open data.
    ghost refuses: { Refusals Self };

    /// Opens data that were sealed under these associated bytes.
    fn transform_inbound(
        &mut self,
        alloc: Global,
        data: &[u8],
        aad: &[u8],
    ) -> Result<Vec<u8>, TransformError>
        ensures ok { IfOk result
            (λ opened. opens self.old «data».now aad.now opened.items self.new) }
        ensures refused { IfErr result (MayFail refuses self.old «data».now aad.now) }
        ensures err { OnErr result (self.new ≡ self.old) };

    /// Opens data that the half may keep, as it opens other data. A half that removes nothing returns the vector.
    fn transform_inbound_vec(
        &mut self,
        alloc: Global,
        data: Vec<u8>,
        aad: &[u8],
    ) -> Result<Vec<u8>, TransformError>
        ensures ok { IfOk result
            (λ opened. opens self.old «data».items aad.now opened.items self.new) }
        ensures refused { IfErr result (MayFail refuses self.old «data».items aad.now) }
        ensures err { OnErr result (self.new ≡ self.old) }
    {
        self.transform_inbound(alloc, data.as_slice(), aad)
    }
}
