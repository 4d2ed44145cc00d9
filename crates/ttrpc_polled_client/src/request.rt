//! A call as a future.
ghost use Rattle.std.specs.Prelude.{◌≡◌};
ghost use Rattle.ttrpc_polled_client.specs.Steps.{IsStep};

use crate::asked::Asked;
use crate::line::ClientLine;
use futures::Future;
use futures::task::{Context, Poll};
use std::alloc::Global;
use std::sync::Arc;
use ttrpc_client::ClientCore;
use ttrpc_proto::{Response, Result};
use ttrpc_secure::{InboundTransform, OutboundTransform};

/// A call that waits for its response. It is made when it is first polled. If it is dropped before it is ready, it is
/// forgotten.
pub struct ClientRequest<O: OutboundTransform + Drop, I: InboundTransform + Drop> {
    alloc: Global,
    line: Arc<ClientLine<O, I>, Global>,
    pub asked: Asked,
}

impl<O: OutboundTransform + Drop, I: InboundTransform + Drop> ClientRequest<O, I> {
    /// Makes a call in this state.
    pub(crate) fn new(alloc: Global, line: Arc<ClientLine<O, I>, Global>, asked: Asked) -> Self
        ensures { (result.line ≡ line) × (result.asked ≡ asked) }
    {
        ClientRequest { alloc, line, asked }
    }

    /// Makes the one core call that the call's state names, on a core that is lent. Returns `None` if there is no
    /// outcome yet.
    pub fn step(&mut self, core: &mut ClientCore<O, I>) -> Option<Result<Response>>
        ensures step { IsStep O.OutboundTransform core.old self.old.asked result
            self.new.asked core.new }
        ensures line { self.new.line ≡ self.old.line }
    {
        self.asked.step(self.alloc, core)
    }
}

impl<O: OutboundTransform + Drop, I: InboundTransform + Drop> Future for ClientRequest<O, I> {
    type Output = Result<Response>;

    ghost use Rattle.std.specs.Prelude.{◌≡◌};
    ghost use Rattle.std.specs.Arc.{arc_value};
    ghost use Rattle.ttrpc_polled_client.specs.Needs.{line_source};

    ghost needs = { λ f s. s ≡ line_source (arc_value f.line) };

    fn poll(&mut self, cx: &mut Context<'_>) -> Poll<Result<Response>> {
        self.line.poll_call(&mut self.asked, cx)
    }
}

impl<O: OutboundTransform + Drop, I: InboundTransform + Drop> Drop for ClientRequest<O, I> {
    fn drop(self) {
        let Self {
            alloc: _,
            line,
            asked,
        } = self;
        if let Some(id) = asked.id() {
            line.drop_call(id);
        }
    }
}
