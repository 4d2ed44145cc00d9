//! The error that is made of a codec's error.
ghost use Rattle.std.specs.Prelude.{◌≡◌, ◌≢◌, None};
ghost use Rattle.ttrpc_proto.specs.ErrorText.{IsOthers};

use std::alloc::Global;
use std::fmt::Display;
use ttrpc_proto::Error;
use ttrpc_proto::error::causes::others_of;
use ttrpc_wire::values::codec_error::CodecFailure;

/// Converts a codec's error: to `NoMemory` if memory was refused, also for the text, and else to `Others` with a prefix and the text that
/// the codec's error prints.
pub fn codec_error_of<E: CodecFailure + Display + Drop>(
    alloc: Global,
    prefix: &str,
    error: E,
) -> Error
    ensures text { IsOthers prefix.now (E.output error) result }
    ensures begins { IsOthers prefix.now None result }
    ensures memory { result ≢ Error.NoMemory → ¬ (E.is_no_memory error) }
{
    if error.is_no_memory() {
        return Error::NoMemory;
    }
    others_of(alloc, prefix, &error)
}
