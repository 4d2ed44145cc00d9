//! A job with a running handler.
ghost use Rattle.std.specs.Prelude.{◌≡◌, None};

use crate::ended::Ended;
use crate::shared::ServerShared;
use futures::task::{Context, Poll};
use futures::{Future, ready};
use std::alloc::Global;
use std::sync::Arc;
use ttrpc_proto::{Response, Result};
use ttrpc_secure::{InboundTransform, OutboundTransform};
use ttrpc_server::JobId;

/// The handler that runs for a job.
#[derive(Drop)]
pub enum Handled<F, G> {
    /// The handler of a method.
    Method(F),
    /// The handler of a stream.
    Stream(G),
}

impl<F, G> Future for Handled<F, G>
where
    F: Future<Output = Result<Response>>,
    G: Future<Output = Result<Option<Response>>>,
{
    type Output = Ended;

    ghost use Rattle.ttrpc_polled_server.specs.Handling.{HandledCanPoll, HandledNeeds, HandledGives};

    ghost can_poll = { HandledCanPoll F.can_poll G.can_poll };

    ghost needs = { HandledNeeds F.needs G.needs };

    ghost gives = { HandledGives F.gives G.gives };

    fn poll(&mut self, cx: &mut Context<'_>) -> Poll<Ended> {
        match self {
            Handled::Method(call) => {
                let answer = ready!(call.poll(cx));
                Poll::Ready(Ended::Answers(answer))
            }
            Handled::Stream(call) => {
                let end = ready!(call.poll(cx));
                Poll::Ready(Ended::Ends(end))
            }
        }
    }
}

/// A job with a running handler. Its output is the job's number, and how the handler ended. If the handler may be dropped, it is dropped
/// when its job has expired, its connection has failed, or its input ended too long ago.
#[derive(Drop)]
pub struct Running<F, G, O, I> {
    pub shared: Arc<ServerShared<O, I>, Global>,
    pub id: JobId,
    pub may_be_dropped: bool,
    pub handled: Handled<F, G>,
}

impl<F, G, O, I> Future for Running<F, G, O, I>
where
    F: Future<Output = Result<Response>>,
    G: Future<Output = Result<Option<Response>>>,
    O: OutboundTransform + Drop,
    I: InboundTransform + Drop,
{
    type Output = (JobId, Ended);

    ghost use Rattle.std.specs.Arc.{arc_value};
    ghost use Rattle.ttrpc_polled_server.specs.Handling.{HandledCanPoll, RunningGives, RunningNeeds};

    ghost can_poll = { λ r. HandledCanPoll F.can_poll G.can_poll r.handled };

    ghost needs = { λ r. RunningNeeds F.needs G.needs r.handled r.may_be_dropped
        (arc_value r.shared).came.id };

    ghost gives = { λ r given. RunningGives F.gives G.gives r.id r.may_be_dropped r.handled given };

    fn poll(&mut self, cx: &mut Context<'_>) -> Poll<(JobId, Ended)> {
        if let Poll::Ready(ended) = self.handled.poll(cx) {
            return Poll::Ready((self.id, ended));
        }
        if !self.may_be_dropped {
            return Poll::Pending;
        }
        ready!(self.shared.poll_dropped(self.id, cx));
        Poll::Ready((self.id, Ended::Dropped))
    }
}

/// A job with a running handler, and the handler's end while there is no room to report it. It is ready once the core knows the end.
#[derive(Drop)]
pub struct Finishing<F, G, O, I> {
    pub running: Running<F, G, O, I>,
    pub ended: Option<Ended>,
    pub place: Option<u64>,
}

impl<F, G, O, I> Finishing<F, G, O, I> {
    /// Makes the job of this running handler.
    pub fn new(running: Running<F, G, O, I>) -> Finishing<F, G, O, I>
        ensures { result ≡ record { running = running; ended = None; place = None } }
    {
        Finishing {
            running,
            ended: None,
            place: None,
        }
    }
}

impl<F, G, O, I> Future for Finishing<F, G, O, I>
where
    F: Future<Output = Result<Response>>,
    G: Future<Output = Result<Option<Response>>>,
    O: OutboundTransform + Drop,
    I: InboundTransform + Drop,
{
    type Output = ();

    ghost use Rattle.std.specs.Prelude.{◌≡◌, None};
    ghost use Rattle.std.specs.Arc.{arc_value};
    ghost use Rattle.ttrpc_polled_server.specs.Handling.{FinishingNeeds, HandledCanPoll, RunningNeeds};

    ghost can_poll = { λ f. f.ended ≡ None
        → HandledCanPoll F.can_poll G.can_poll f.running.handled };

    ghost needs = { λ f. FinishingNeeds f.ended
        (RunningNeeds F.needs G.needs f.running.handled f.running.may_be_dropped
        (arc_value f.running.shared).came.id) (arc_value f.running.shared).came.id };

    fn poll(&mut self, cx: &mut Context<'_>) -> Poll<()> {
        let id = self.running.id;
        if let Some(ended) = &self.ended {
            let shared = &self.running.shared;
            return shared.poll_end(id, ended, &mut self.place, cx);
        }
        let (_, ended) = ready!(self.running.poll(cx));
        let shared = &self.running.shared;
        if shared.poll_end(id, &ended, &mut self.place, cx).is_ready() {
            return Poll::Ready(());
        }
        self.ended = Some(ended);
        Poll::Pending
    }
}
