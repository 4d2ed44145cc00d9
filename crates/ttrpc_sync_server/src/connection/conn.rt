//! A server's connection, as its handlers see it.
ghost use Rattle.std.specs.Prelude.{◌≡◌, IfErr, IfOk, OnErr, OnOk};
ghost use Rattle.ttrpc_proto.specs.declared.error.Error.TheVariants.{NoMemory};
ghost use Rattle.ttrpc_server.specs.Protocol.{QueuesResponse, RefusesResponse};
ghost use Rattle.ttrpc_sync.specs.Queuing.{queuing_of, turn_after_queuing};
ghost use Rattle.ttrpc_sync_server.specs.Connection.Held.{is_lone_answer, writes_behind};

use crate::connection::ports::{ServerHeld, ServerLock};
use crate::connection::thread_count::ThreadCount;
use std::alloc::Global;
use std::sync::Arc;
use std::sync::atomic::{AtomicBool, Ordering};
use ttrpc_proto::{Error, Response, Result};
use ttrpc_secure::{ConnectionData, InboundTransform, OutboundTransform};
use ttrpc_sync::{
    AfterQueuing, ConnectionLock, Host, Link, after_queuing, lock_soon, wait_for_room,
};

/// A server's connection: its core under a lock, its data, and the threads that serve it.
pub struct Conn<R: Host, O: OutboundTransform + Drop, I: InboundTransform + Drop> {
    rt: R,
    link: Link<ServerLock<O, I>>,
    known: ConnectionData,
    cancelled: Arc<AtomicBool, Global>,
    thread_count: Arc<ThreadCount, Global>,
}

/// Written out so that a crate above proves nothing about the parts that are dropped here.
impl<R: Host, O: OutboundTransform + Drop, I: InboundTransform + Drop> Drop for Conn<R, O, I> {
    fn drop(self) {
        let Conn {
            rt: _,
            link: _,
            known: _,
            cancelled: _,
            thread_count: _,
        } = self;
    }
}

impl<R: Host, O: OutboundTransform + Drop, I: InboundTransform + Drop> Conn<R, O, I> {
    /// Makes a connection over `link`, with its data, and the count of the threads that are to serve it.
    pub fn new(
        rt: R,
        link: Link<ServerLock<O, I>>,
        known: ConnectionData,
        thread_count: Arc<ThreadCount, Global>,
    ) -> Result<Conn<R, O, I>>
        ensures known { IfOk result (λ conn. conn.known ≡ known) }
        ensures err { IfErr result (λ e. e ≡ NoMemory) }
    {
        let cancelled = Arc::new(rt.alloc(), AtomicBool::new(false))?;
        Ok(Conn {
            rt,
            link,
            known,
            cancelled,
            thread_count,
        })
    }

    /// Returns the data of the connection, as its hook reported it.
    pub fn connection_data(&self) -> &ConnectionData
        ensures { result.now ≡ self.now.known }
    {
        &self.known
    }

    /// Returns the allocator of handlers.
    pub fn alloc(&self) -> Global {
        self.rt.alloc()
    }

    pub(crate) fn rt(&self) -> &R {
        &self.rt
    }

    pub(crate) fn link(&self) -> &Link<ServerLock<O, I>> {
        &self.link
    }

    pub(crate) fn cancelled(&self) -> &Arc<AtomicBool, Global> {
        &self.cancelled
    }

    pub(crate) fn thread_count(&self) -> &Arc<ThreadCount, Global> {
        &self.thread_count
    }

    /// Sets the flag by which handlers may give up: nothing comes from the client any more.
    pub(crate) fn cancel(&self) {
        self.cancelled.store(true, Ordering::SeqCst);
    }

    /// Ends the connection, after it has failed or when it is to end. Each of its threads ends.
    pub(crate) fn end(&self) {
        self.cancel();
        self.link.shared().end(&self.rt);
        self.link.close();
        self.thread_count.end(&self.rt);
    }

    /// Takes no more requests. After the requests that came are answered, the writer thread ends the connection.
    pub(crate) fn drain(&self) {
        self.cancel();
        self.link.shared().drain(&self.rt);
        self.look();
    }

    /// Ends the connection if it has failed. Reports to the thread count if each request is answered and no more come.
    pub(crate) fn look(&self) {
        let guard = lock_soon(&self.rt, self.link.shared().held());
        let has_failed = guard.core.has_failed();
        let is_answered = guard.is_answered();
        drop(guard);
        if has_failed {
            self.end();
        } else if is_answered {
            self.thread_count.report_answered(&self.rt);
        }
    }

    /// Queues a response under a stream's id as soon as there is room, and makes sure that it is written.
    pub(crate) fn respond(&self, stream_id: u32, response: &Response) -> Result<()> {
        let shared = self.link.shared();
        let mut guard = lock_soon(&self.rt, shared.held());
        for _ in self.rt.forever() {
            match queue_response(&mut guard, self.rt.alloc(), stream_id, response) {
                Ok(next) => {
                    drop(guard);
                    self.link.write_or_wake(&self.rt, next);
                    return Ok(());
                }
                Err(Error::NoRoom) => guard = wait_for_room(&self.rt, shared, guard),
                Err(error) => return Err(error),
            }
        }
        unreachable!()
    }
}

/// Queues a response, and returns the next action of its thread. The thread writes the response itself if nothing else waits to be written,
/// no other job is under way or waits, and more requests may come. While a connection ends, no handler waits for its own answer to be
/// written.
fn queue_response<O: OutboundTransform + Drop, I: InboundTransform + Drop>(
    held: &mut ServerHeld<O, I>,
    alloc: Global,
    stream_id: u32,
    response: &Response,
) -> Result<AfterQueuing>
    // The response is queued, and written at once if its thread may.
    ensures queued { OnOk result
        (QueuesResponse O.OutboundTransform held.old.core stream_id response.now held.new.core) }
    ensures next { IfOk result (λ next. next ≡ queuing_of held.old.turn
        (is_lone_answer held.old.has_ended held.old.core held.new.core)) }
    ensures turn { OnOk result (held.new.turn ≡ turn_after_queuing held.old.turn
        (is_lone_answer held.old.has_ended held.old.core held.new.core)) }
    ensures writes { IfOk result
        (λ next. held.new.handler_writes ≡ writes_behind next held.old.handler_writes) }
    ensures rest { held.new
        ≡ record held.old { core = held.new.core; turn = held.new.turn; handler_writes = held.new.handler_writes } }
    // Or the response is refused, and nothing changed.
    ensures refused { IfErr result
        (RefusesResponse O.OutboundTransform held.old.core stream_id response.now) }
    ensures err { OnErr result (held.new ≡ held.old) }
{
    let is_first = !held.has_ended && held.core.lendable() == 0;
    held.core.respond(alloc, stream_id, response)?;
    let is_alone = held.core.jobs_taken() < 2 && held.core.jobs_waiting() == 0;
    let next = after_queuing(&mut held.turn, is_first && is_alone);
    if matches!(next, AfterQueuing::Write) {
        held.handler_writes = true;
    }
    Ok(next)
}
