//! The state that a client's callers and its connection's future share.
ghost use Rattle.std.specs.Prelude.{◌≡◌};

use crate::held::PolledClientState;
use futures::task::Source;
use std::alloc::Global;
use std::sync::Mutex;
use ttrpc_client::ClientCore;
use ttrpc_polled::SharedConnection;
use ttrpc_secure::{InboundTransform, OutboundTransform};

/// The state that a client's callers and its connection's future share. No task reads or writes while it holds the
/// lock.
#[derive(Drop)]
pub struct ClientShared<O, I> {
    /// The source at which callers wait for the end of a call, for things that come for a stream, and for frames that
    /// leave.
    pub came: Source,
    /// The source at which the connection's future waits for something to write.
    pub asked: Source,
    pub held: Mutex<PolledClientState<O, I>>,
}

impl<O: OutboundTransform + Drop, I: InboundTransform + Drop> ClientShared<O, I> {
    /// Makes the shared state of this core.
    pub fn new(alloc: Global, core: ClientCore<O, I>) -> Self {
        ClientShared {
            came: Source::new(),
            asked: Source::new(),
            held: Mutex::new(PolledClientState::new(alloc, core)),
        }
    }
}

impl<O: OutboundTransform + Drop, I: InboundTransform + Drop> SharedConnection
    for ClientShared<O, I> {
    type Held = PolledClientState<O, I>;

    ghost asked = { λ shared. shared.asked.id };

    fn held(&self) -> &Mutex<PolledClientState<O, I>> {
        &self.held
    }

    fn asked(&self) -> &Source {
        &self.asked
    }
}
