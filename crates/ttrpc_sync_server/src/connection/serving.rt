//! The parts by which a connection is served.
ghost use Rattle.std.specs.Prelude.{◌≡◌, IfErr, IfOk};
ghost use Rattle.std.specs.Arc.{arc_value};
ghost use Rattle.ttrpc_proto.specs.declared.error.Error.TheVariants.{NoMemory};

use std::alloc::Global;
use std::sync::Arc;
use ttrpc_proto::Result;
use ttrpc_server::Methods;

/// The parts by which a connection is served: the handlers of its methods, and the watch that
/// learns of its faults.
#[derive(Drop)]
pub struct WatchedHandlers<H: Drop, W: Drop> {
    pub methods: Arc<Methods<H>, Global>,
    pub watch: Arc<W, Global>,
}

impl<H: Drop, W: Drop> WatchedHandlers<H, W> {
    /// Returns the same handlers and the same watch, for another thread.
    pub fn try_clone(&self) -> Result<WatchedHandlers<H, W>>
        ensures methods { IfOk result
            (λ serving. arc_value serving.methods ≡ arc_value self.now.methods) }
        ensures watch { IfOk result
            (λ serving. arc_value serving.watch ≡ arc_value self.now.watch) }
        ensures err { IfErr result (λ e. e ≡ NoMemory) }
    {
        Ok(WatchedHandlers {
            methods: Arc::try_clone(&self.methods)?,
            watch: Arc::try_clone(&self.watch)?,
        })
    }
}
