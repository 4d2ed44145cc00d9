//! How a server asks a hook about a connection, and the time limit.
ghost use Rattle.std.specs.Prelude.{◌≡◌, ◌-◌, ◌^◌, min};
ghost use Rattle.std.specs.Duration.{as_nanos};
ghost use Rattle.ttrpc_secure.specs.Hooks.Admission.{IsAdmission, admitted};

use crate::hooks::{AcceptHook, HookError, HookOutput, hook_result};
use crate::plain::Plain;
use std::alloc::Global;
use std::io;
use std::time::Duration;

/// The hook of a server that has none: it accepts every connection, and leaves its payloads as they are.
#[derive(Clone, Copy, Debug)]
pub struct NoHook {}

impl<S> AcceptHook<S> for NoHook {
    ghost use Rattle.std.specs.Prelude.{◌≡◌, []};
    ghost use Rattle.std.specs.Result.{IsOkAnd};

    type Outbound = Plain;

    type Inbound = Plain;

    ghost gives = { λ _ _ result. IsOkAnd result (λ output. output.connection_data.entries ≡ []) };

    fn on_accept(&self, alloc: Global, _stream: &S) -> Result<HookOutput<Plain, Plain>, HookError> {
        Ok(HookOutput::of_halves(alloc, Plain {}, Plain {}))
    }
}

/// Asks the hook about a connection, and returns the hook's result, or `Timeout` if its time was up. `read` reads the
/// clock before and after the hook. If a reading fails, the first such failure is returned as `Io`.
pub fn admit<F: Fn() -> io::Result<Duration>, S, A: AcceptHook<S>>(
    read: F,
    alloc: Global,
    hook: &A,
    stream: &S,
) -> Result<HookOutput<A::Outbound, A::Inbound>, HookError>
    requires { F.IsAlwaysCallable read }
    ensures { IsAdmission (λ reading. F.post read reading)
        (λ hooked. A.gives hook.now stream.now hooked) result }
{
    let started = read();
    let hooked = hook.on_accept(alloc, stream);
    admission(started, read(), hooked)
}

/// Returns a hook's result between these two readings of a clock, or `Timeout` if its time was up. If a reading failed,
/// the first such failure is returned as `Io`.
fn admission<O: Drop, I: Drop>(
    started: io::Result<Duration>,
    ended: io::Result<Duration>,
    hooked: Result<HookOutput<O, I>, HookError>,
) -> Result<HookOutput<O, I>, HookError>
    ensures { result ≡ admitted started ended hooked }
{
    let started = match started {
        Ok(started) => started,
        Err(error) => return Err(HookError::Io(error)),
    };
    match ended {
        Ok(ended) => hook_result(nanoseconds(started), nanoseconds(ended), hooked),
        Err(error) => Err(HookError::Io(error)),
    }
}

/// Returns the number of nanoseconds in a time, at most 2^64 - 1.
fn nanoseconds(time: Duration) -> u64
    ensures { result ≡ min (as_nanos time) (2 ^ 64 - 1) }
{
    u64::try_from(time.as_nanos()).unwrap_or(u64::MAX)
}
