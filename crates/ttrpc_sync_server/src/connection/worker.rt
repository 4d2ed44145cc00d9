//! The handler of a connection's jobs; and a worker, with the gate at which it waits.
ghost use Rattle.std.specs.Prelude.{◌≡◌, ⊤};

use crate::connection::conn::Conn;
use crate::connection::context::{
    MethodHandler, TtrpcContext, response_error_to_channel, send_response,
};
use crate::connection::ports::{ServerJobs, report, waiting_job};
use crate::connection::serving::WatchedHandlers;
use std::alloc::Global;
use std::sync::Arc;
use ttrpc_proto::Result;
use ttrpc_secure::{InboundTransform, OutboundTransform};
use ttrpc_server::Job;
use ttrpc_server::responses::path_response;
use ttrpc_sync::{ConnectionLock, Gate, Handler, Host, lock_soon, work_loop};
use ttrpc_transport::Watch;

/// A handler that hands each request to the handler of its method.
#[derive(Drop)]
pub struct Dispatch<
    'a,
    R: Host,
    O: OutboundTransform + Drop,
    I: InboundTransform + Drop,
    H: Drop,
    W: Drop,
> {
    conn: &'a Arc<Conn<R, O, I>, Global>,
    serving: &'a WatchedHandlers<H, W>,
}

impl<R, O, I, H, W> Handler for Dispatch<'_, R, O, I, H, W>
where
    R: Host,
    O: OutboundTransform + Drop,
    I: InboundTransform + Drop,
    H: MethodHandler<R, O, I> + Drop,
    W: Watch + Drop,
{
    type Request = Job;

    type Outcome = Result<()>;

    ghost gives = { λ _ _ _. ⊤ };

    fn handle(&self, job: Job) -> Result<()> {
        let Job {
            id: _,
            header,
            stream: _,
            request,
        } = job;
        let found = self
            .serving
            .methods
            .get(request.service.as_str(), request.method.as_str());
        let Some(handler) = found else {
            let alloc = self.conn.alloc();
            let unknown = path_response(alloc, &request.service, &request.method)?;
            return send_response(header.stream_id, unknown, &**self.conn);
        };
        let ctx = match TtrpcContext::new(self.conn, header, &request) {
            Ok(ctx) => ctx,
            Err(error) => {
                return response_error_to_channel(header.stream_id, error, &**self.conn);
            }
        };
        let handled = handler.handler(ctx, request);
        if let Err(error) = &handled {
            self.serving.watch.handler_failed(error);
        }
        handled
    }
}

impl<R, O, I, H, W> Dispatch<'_, R, O, I, H, W>
where
    R: Host,
    O: OutboundTransform + Drop,
    I: InboundTransform + Drop,
    H: MethodHandler<R, O, I> + Drop,
    W: Watch + Drop,
{
    /// Makes the handler of this connection's jobs.
    pub fn new<'a>(
        conn: &'a Arc<Conn<R, O, I>, Global>,
        serving: &'a WatchedHandlers<H, W>,
    ) -> Dispatch<'a, R, O, I, H, W>
        ensures { (result.conn.now ≡ conn.now) × (result.serving.now ≡ serving.now) }
    {
        Dispatch { conn, serving }
    }

    /// Handles the waiting jobs in the thread of this reader, if it may. Returns whether the connection has failed.
    pub fn handle_waiting(&self, reader: u32) -> bool {
        let (rt, shared) = (self.conn.rt(), self.conn.link().shared());
        for _ in rt.forever() {
            let Some(job) = waiting_job(rt, shared, Some(reader)) else {
                return false;
            };
            let id = job.id;
            let outcome = self.handle(job);
            if report(rt, self.conn.alloc(), shared, id, outcome) {
                return true;
            }
        }
        unreachable!()
    }
}

/// A gate that lets workers wait as far as the pool allows, and reports when too few wait.
#[derive(Drop)]
struct PoolGate<'a, R: Host, O: OutboundTransform + Drop, I: InboundTransform + Drop> {
    conn: &'a Conn<R, O, I>,
    is_new: bool,
    is_shut: bool,
}

impl<R: Host, O: OutboundTransform + Drop, I: InboundTransform + Drop> Gate
    for PoolGate<'_, R, O, I> {
    ghost is_shut = { λ g. g.is_shut };

    fn enter(&mut self) -> bool {
        let shared = self.conn.link().shared();
        let mut guard = lock_soon(self.conn.rt(), shared.held());
        let entered = guard.enter(self.is_new);
        let is_answered = guard.is_answered();
        drop(guard);
        if is_answered {
            self.conn.thread_count().report_answered(self.conn.rt());
        }
        self.is_new = false;
        self.is_shut = !entered;
        entered
    }

    fn leave(&mut self) {
        let shared = self.conn.link().shared();
        let is_short = lock_soon(self.conn.rt(), shared.held()).leave();
        if is_short {
            self.conn.thread_count().report_shortage(self.conn.rt());
        }
    }
}

/// Handles the connection's jobs, until the gate sends the worker away or the connection has failed.
pub fn work<R, O, I, H, W>(conn: &Arc<Conn<R, O, I>, Global>, serving: &WatchedHandlers<H, W>)
where
    R: Host,
    O: OutboundTransform + Drop,
    I: InboundTransform + Drop,
    H: MethodHandler<R, O, I> + Drop,
    W: Watch + Drop,
{
    let rt = conn.rt();
    let dispatch = Dispatch::new(conn, serving);
    let mut gate = PoolGate {
        conn: &**conn,
        is_new: true,
        is_shut: false,
    };
    let mut port = ServerJobs::new(rt, rt.alloc(), conn.link().shared());
    work_loop(rt, &mut port, &dispatch, &mut gate);
}
