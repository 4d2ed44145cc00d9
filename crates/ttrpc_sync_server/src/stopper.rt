//! How a program that serves is asked to end.
ghost use Rattle.std.specs.Prelude.{◌≡◌, IfErr};
ghost use Rattle.ttrpc_proto.specs.declared.error.Error.TheVariants.{NoMemory};

use crate::accept::StopSignal;
use std::alloc::Global;
use std::sync::Arc;
use ttrpc_proto::Result;
use ttrpc_sync::Host;

/// A handle that ends the `wait` of a server. Another thread may have it, or a handler.
#[derive(Drop)]
pub struct Stopper<R: Host> {
    rt: R,
    stop: Arc<StopSignal, Global>,
}

impl<R: Host> Stopper<R> {
    pub(crate) fn new(rt: &R, stop: &Arc<StopSignal, Global>) -> Result<Stopper<R>>
        ensures err { IfErr result (λ e. e ≡ NoMemory) }
    {
        Ok(Stopper {
            rt: rt.clone()?,
            stop: Arc::try_clone(stop)?,
        })
    }

    /// Makes `wait` return, now and whenever it is called. The server goes on until its owner shuts it down.
    pub fn stop(&self) {
        self.stop.ask_to_shut_down(&self.rt);
    }
}
