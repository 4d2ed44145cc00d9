ghost use Rattle.std.specs.Prelude.{IfErr};
ghost use Rattle.ttrpc_transport.specs.Sockets.{IsFault};

use std::time::Clock;
use ttrpc_proto::{Error, Result};

/// Returns the current time, in nanoseconds since a start that is the same for all moments. A clock that can't be read
/// is `Nix`.
pub fn moment<R: Clock>(rt: &R) -> Result<u64>
    ensures { IfErr result IsFault }
{
    match rt.monotonic() {
        Ok(time) => Ok(u64::try_from(time.as_nanos()).unwrap_or(u64::MAX)),
        Err(error) => Err(Error::Nix(error.kind())),
    }
}
