//! The port from which a server's workers take jobs, and how any thread takes a job and reports its outcome.
ghost use Rattle.std.specs.Prelude.{◌≡◌, Err, IfErr, IfNone, IfSome, None, Ok, OnErr, OnOk, Some};
ghost use Rattle.ttrpc_proto.specs.declared.error.Error.{Error as AnError};
ghost use Rattle.ttrpc_server.specs.Protocol.{AnswersError, Finishes, Hands, RefusesAnswer, RefusesFinish};
ghost use Rattle.ttrpc_server.specs.State.{NoneWaits};
ghost use Rattle.ttrpc_sync.specs.declared.ports.PortState.{PortState};

use crate::connection::ports::server::ServerLock;
use std::alloc::Global;
use std::sync::Wait;
use ttrpc_proto::Error;
use ttrpc_secure::{InboundTransform, OutboundTransform};
use ttrpc_server::{Job, JobId, ServerCore, jobs_on};
use ttrpc_sync::{ConnectionLock, Handler, JobPort, PortState, lock_soon, wait_soon};

/// The port of one worker of a server.
#[derive(Drop)]
pub struct ServerJobs<'a, X: Wait, O: OutboundTransform + Drop, I: InboundTransform + Drop> {
    rt: &'a X,
    alloc: Global,
    shared: &'a ServerLock<O, I>,
    current: Option<JobId>,
    state: PortState,
}

impl<X: Wait, O: OutboundTransform + Drop, I: InboundTransform + Drop> ServerJobs<'_, X, O, I> {
    /// Makes the port of this connection.
    pub fn new<'a>(
        rt: &'a X,
        alloc: Global,
        shared: &'a ServerLock<O, I>,
    ) -> ServerJobs<'a, X, O, I> {
        ServerJobs {
            rt,
            alloc,
            shared,
            current: None,
            state: PortState::Open,
        }
    }

    /// Takes the job that has waited longest from a core that is lent under the lock, as `take` does.
    pub fn take_on(core: &mut ServerCore<O, I>) -> Option<Job>
        ensures handed { IfSome result (λ job. Hands core.old job core.new) }
        ensures none { IfNone result ((core.new ≡ core.old)
            × (core.old.connection.failure ≡ None → NoneWaits core.old.state.jobs.list)) }
    {
        core.take_job()
    }

    /// Ends a job after its handler has ended, as `done` does, on a core that is lent under the lock. Finishes the job, or answers it with
    /// the handler's error, by which the connection fails.
    pub fn done_on(
        core: &mut ServerCore<O, I>,
        alloc: Global,
        id: JobId,
        outcome: Result<(), Error>,
    ) -> Result<(), Error>
        // At an `Ok` the job has ended, if its handler succeeded, or the handler's error was answered.
        ensures finished { outcome ≡ Ok tt → OnOk result (Finishes core.old id core.new) }
        ensures failed { (e : AnError) → outcome ≡ Err e
            → OnOk result
            (AnswersError O.OutboundTransform core.old.state.rules core.old id e core.new) }
        // An error is one with which the end or the answer may be refused, and changes nothing.
        ensures refused { outcome ≡ Ok tt → IfErr result (RefusesFinish core.old id) }
        ensures unsent { (e : AnError) → outcome ≡ Err e
            → IfErr result (RefusesAnswer O.OutboundTransform core.old id (Err e)) }
        ensures err { OnErr result (core.new ≡ core.old) }
    {
        jobs_on::done_on(core, alloc, id, outcome)
    }
}

impl<
    X: Wait,
    O: OutboundTransform + Drop,
    I: InboundTransform + Drop,
    H: Handler<Request = Job, Outcome = Result<(), Error>>,
> JobPort<H> for ServerJobs<'_, X, O, I> {
    type Key = JobId;

    ghost current = { λ p. p.current };

    ghost state = { λ p. p.state };

    fn begin(&mut self) {
        self.current = None;
        self.state = PortState::Open;
    }

    fn take(&mut self) -> Option<(JobId, Job)> {
        match wait_for_job(self.rt, self.shared) {
            Some(job) => {
                let id = job.id;
                self.current = Some(id);
                Some((id, job))
            }
            None => {
                self.state = PortState::Stopped;
                None
            }
        }
    }

    fn done(&mut self, key: JobId, outcome: Result<(), Error>) {
        report(self.rt, self.alloc, self.shared, key, outcome);
        self.current = None;
    }
}

/// Reports the outcome of a job. Returns whether the connection has failed.
pub(crate) fn report<X: Wait, O: OutboundTransform + Drop, I: InboundTransform + Drop>(
    rt: &X,
    alloc: Global,
    shared: &ServerLock<O, I>,
    id: JobId,
    outcome: Result<(), Error>,
) -> bool {
    let mut guard = lock_soon(rt, shared.held());
    // If the connection has failed, nothing needs to be done.
    let _ = ServerJobs::<X, O, I>::done_on(&mut guard.core, alloc, id, outcome);
    let wakes = guard.wakes_behind_job();
    let has_failed = guard.core.has_failed();
    drop(guard);
    if has_failed {
        shared.wake_all();
    } else if wakes {
        shared.to_write().notify_one();
    }
    has_failed
}

/// Takes the job that waits longest, if there is one, for this reader or a worker. If another job waits after it, a worker is woken, unless
/// the reader has the turn and so takes that job, too. A reader that has the turn gets no job while it reads or waits for room. A reader
/// that waits for room is woken when there is some.
pub(crate) fn waiting_job<X: Wait, O: OutboundTransform + Drop, I: InboundTransform + Drop>(
    rt: &X,
    shared: &ServerLock<O, I>,
    reader: Option<u32>,
) -> Option<Job> {
    let mut guard = lock_soon(rt, shared.held());
    if !guard.read_turn.may_handle(reader) {
        return None;
    }
    let job = ServerJobs::<X, O, I>::take_on(&mut guard.core)?;
    guard.begun(&job);
    let calls = guard.calls_for_next(reader);
    let has_room = guard.calls_reader();
    drop(guard);
    if calls {
        shared.to_work().notify_one();
    }
    if has_room {
        shared.to_read_on().notify_one();
    }
    Some(job)
}

/// Waits until there is a job. Returns `None` if the connection has failed.
fn wait_for_job<X: Wait, O: OutboundTransform + Drop, I: InboundTransform + Drop>(
    rt: &X,
    shared: &ServerLock<O, I>,
) -> Option<Job> {
    for _ in rt.forever() {
        if let Some(job) = waiting_job(rt, shared, None) {
            return Some(job);
        }
        if !sleep_for_job(rt, shared) {
            return None;
        }
    }
    unreachable!()
}

/// Sleeps until a job may wait. Returns false if the connection has failed.
fn sleep_for_job<X: Wait, O: OutboundTransform + Drop, I: InboundTransform + Drop>(
    rt: &X,
    shared: &ServerLock<O, I>,
) -> bool {
    let mut guard = lock_soon(rt, shared.held());
    if guard.core.has_failed() {
        return false;
    }
    if guard.core.jobs_waiting() == 0 {
        guard.sleep();
        guard = wait_soon(rt, shared.to_work(), guard);
        guard.count_awake();
    }
    true
}
