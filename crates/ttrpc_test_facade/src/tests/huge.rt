//! A value that may be too long to be written.
ghost use Rattle.std.specs.Prelude.{None};
ghost use Rattle.ttrpc_test_facade.specs.Huge.{zeros};

use std::alloc::Global;
use ttrpc::proto::Codec;
use ttrpc::wire::CodecError;

/// A value that is written as `count` bytes 0. No bytes are read as such a value, and no memory is found to write one.
#[derive(Debug, Drop, PartialEq, Eq)]
pub struct Huge {
    pub count: u64,
}

/// A value that is too long to be written.
pub const HUGE: Huge = Huge { count: 4294967296 };

impl Codec for Huge {
    type E = CodecError;

    ghost written = { λ huge. zeros huge.count };

    ghost meaning = { λ _. None };

    #[tactic(auto, using(crate::proofs::Long::short_size, crate::proofs::Long::long_size))]
    fn size(&self) -> u32 {
        match u32::try_from(self.count) {
            Ok(count) => count,
            Err(_) => u32::MAX,
        }
    }

    #[tactic(auto, using(crate::proofs::Long::long_form))]
    fn encode(&self, _alloc: Global) -> Result<Vec<u8>, CodecError> {
        if self.count < 4294967296 {
            return Err(CodecError::NoMemory);
        }
        Err(CodecError::TooLong)
    }

    fn decode(_alloc: Global, _bytes: &[u8]) -> Result<Huge, CodecError> {
        Err(CodecError::BadTag)
    }

    fn merge(&mut self, _alloc: Global, _bytes: &[u8]) -> Result<(), CodecError> {
        Err(CodecError::BadTag)
    }
}
