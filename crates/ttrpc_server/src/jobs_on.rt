//! The effect that the calls of a server's port of jobs have on its core, under the lock.
ghost use Rattle.std.specs.Prelude.{◌≡◌, ◌⊎◌, IfErr, IfSome, IfNone, OnOk, OnErr, Ok, Err, None};
ghost use Rattle.ttrpc_proto.specs.declared.error.Error.{Error as AnError};
ghost use Rattle.ttrpc_server.specs.Protocol.{AnswersError, Finishes, Hands, RefusesAnswer, RefusesFinish};
ghost use Rattle.ttrpc_server.specs.State.{NoneWaits};

use crate::job::JobId;
use crate::server::ServerCore;
use std::alloc::Global;
use ttrpc_proto::Error;
use ttrpc_secure::{InboundTransform, OutboundTransform};

/// Ends a unary job that was handled, and queues nothing if its handler succeeded. If the handler failed, the error is passed to `answer`:
/// under sync rules it fails the connection, and under async rules it is answered.
pub fn done_on<O: OutboundTransform + Drop, I: InboundTransform + Drop>(
    core: &mut ServerCore<O, I>,
    alloc: Global,
    id: JobId,
    outcome: Result<(), Error>,
) -> Result<(), Error>
    // At an `Ok` the job has ended, if its handler succeeded, or the handler's error was answered.
    ensures finished { outcome ≡ Ok tt → OnOk result (Finishes core.old id core.new) }
    ensures failed { (e : AnError) → outcome ≡ Err e
        → OnOk result
        (AnswersError O.OutboundTransform core.old.state.rules core.old id e core.new) }
    // An error is one with which the end or the answer may be refused, and changes nothing.
    ensures refused { outcome ≡ Ok tt → IfErr result (RefusesFinish core.old id) }
    ensures unsent { (e : AnError) → outcome ≡ Err e
        → IfErr result (RefusesAnswer O.OutboundTransform core.old id (Err e)) }
    ensures err { OnErr result (core.new ≡ core.old) }
{
    match outcome {
        Ok(()) => core.finish(alloc, id),
        Err(error) => core.answer(alloc, id, &Err(error)),
    }
}
