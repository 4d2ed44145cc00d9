//! A client's connection, which lives as long as any client of it.
ghost use Rattle.std.specs.Prelude.{◌≡◌, IfErr, IfOk, OnErr, OnOk, false};
ghost use Rattle.ttrpc_client.specs.Protocol.{Forgets, RefusesRequest, TakesOutcome};
ghost use Rattle.ttrpc_connection.specs.Deadlines.{deadline_of};
ghost use Rattle.ttrpc_secure.specs.Hooks.Facts.{facts_of};
ghost use Rattle.ttrpc_sync_client.specs.Asking.{Asks};
ghost use Rattle.ttrpc_sync_client.specs.Held.{HasTicked};
ghost use Rattle.ttrpc_sync_client.specs.ReadTurns.{finished, is_answer, turn_asked};
ghost use Rattle.ttrpc_transport.specs.Sockets.{IsFault};

use crate::ports::{CallShape, ClientHeld, ClientLock, ClientRead, LONE_FRAME};
use std::alloc::Global;
use std::marker::Model;
use std::sync::{Arc, Condvar, MutexGuard};
use std::time::Duration;
use ttrpc_client::CallId;
use ttrpc_client::errors::deadline_error;
use ttrpc_connection::deadlines::deadline_of;
use ttrpc_proto::{Error, Request, Response, Result};
use ttrpc_secure::{ConnectionData, InboundTransform, OutboundTransform};
use ttrpc_sync::{
    AfterQueuing, ConnectionLock, Host, Link, LockedState, after_queuing, lock_soon, moment,
    wait_soon,
};

/// A client's connection. Contracts see it as the connection's data. It is closed when its last client is dropped.
pub struct ClientConn<O: OutboundTransform + Drop, I: InboundTransform + Drop> {
    link: Arc<Link<ClientLock<O, I>>, Global>,
    known: ConnectionData,
}

impl<O: OutboundTransform + Drop, I: InboundTransform + Drop> Model for ClientConn<O, I> {
    ghost use Rattle.ttrpc_secure.specs.Hooks.Facts.{Facts, facts_of};

    ghost Value = { Facts };

    ghost view = { λ connection. facts_of connection.known.entries };
}

impl<O: OutboundTransform + Drop, I: InboundTransform + Drop> Drop for ClientConn<O, I> {
    fn drop(self) {
        let ClientConn { link, known: _ } = self;
        link.close();
        link.shared().abandon();
    }
}

/// A call that waits for its outcome.
#[derive(Clone, Copy)]
struct WaitingCall {
    id: CallId,
    /// The moment at which the call expires, in nanoseconds.
    deadline: Option<u128>,
    /// True if the caller may read for itself.
    is_alone: bool,
}

/// A call after its request was queued and the lock was released.
#[derive(Clone, Copy)]
struct QueuedCall {
    waiting: WaitingCall,
    queued: AfterQueuing,
    /// True if the reader thread is to be woken.
    wakes: bool,
}

impl<O: OutboundTransform + Drop, I: InboundTransform + Drop> ClientConn<O, I> {
    /// Makes a connection over `link`, with its data.
    pub fn new(link: Arc<Link<ClientLock<O, I>>, Global>, known: ConnectionData) -> ClientConn<O, I>
        ensures { result ≡ facts_of known.entries }
    {
        ClientConn { link, known }
    }

    /// Returns the data of the connection.
    pub fn connection_data(&self) -> &ConnectionData
        ensures { facts_of result.now.entries ≡ self.now }
    {
        &self.known
    }

    /// Makes a call, and waits for its outcome.
    pub fn call<R: Host>(&self, rt: &R, request: &Request) -> Result<Response> {
        let waiting = self.ask(rt, request, moment(rt)?)?;
        if waiting.is_alone {
            self.read_for(rt, waiting.id);
        }
        self.wait(rt, waiting)
    }

    /// Queues the request of a call as soon as there is room, and makes sure that a thread writes it and a thread reads. If the call's
    /// deadline comes before there is room, the call has expired.
    fn ask<R: Host>(&self, rt: &R, request: &Request, now: u64) -> Result<WaitingCall>
        ensures { IfOk result
            (λ waiting. waiting.deadline ≡ deadline_of now request.now.timeout_nano) }
    {
        let shared = self.link.shared();
        let deadline = deadline_of(now, request.timeout_nano);
        let mut guard = lock_soon(rt, shared.held());
        for _ in rt.forever() {
            match queue_request(&mut guard, rt.alloc(), request, now) {
                Ok(asked) => {
                    drop(guard);
                    return Ok(self.write_queued(rt, asked));
                }
                Err(Error::NoRoom) => {
                    if deadline.is_some_and(|at| at <= u128::from(moment(rt).unwrap_or(0))) {
                        return Err(deadline_error(rt.alloc()));
                    }
                    guard = self.wait_for_room(rt, guard, deadline);
                }
                Err(error) => return Err(error),
            }
        }
        unreachable!()
    }

    /// Makes sure that the request of a call is written, and that a thread reads.
    fn write_queued<R: Host>(&self, rt: &R, asked: QueuedCall) -> WaitingCall
        ensures { result ≡ asked.waiting }
    {
        // The reader comes first: otherwise a peer that writes before it reads would block the thread that writes a long frame.
        if asked.wakes {
            self.link.shared().wake_reader();
        }
        self.link.write_or_wake(rt, asked.queued);
        asked.waiting
    }

    /// Waits until bytes were reported as written, or this deadline has come. Meanwhile the reader thread reads: a server that lacks room
    /// itself goes on only when its answers are read.
    fn wait_for_room<'a, R: Host>(
        &self,
        rt: &R,
        mut guard: MutexGuard<'a, ClientHeld<O, I>>,
        deadline: Option<u128>,
    ) -> MutexGuard<'a, ClientHeld<O, I>> {
        let shared = self.link.shared();
        if guard.reading.wakes() {
            shared.wake_reader();
        }
        if guard.wakes_writer() {
            shared.to_write().notify_one();
        }
        sleep_until(rt, shared.to_room(), guard, deadline)
    }

    /// Reads until this call has ended, if no other thread reads.
    fn read_for<R: Host>(&self, rt: &R, id: CallId) {
        let shared = self.link.shared();
        let may_read = lock_soon(rt, shared.held()).reading.take(id);
        if may_read {
            let mut port = ClientRead::new(rt, rt.alloc(), shared);
            self.link.run_reader(rt, &mut port);
        }
    }

    /// Waits for the outcome of a call. Reports the time to the core after each time it wakes.
    fn wait<R: Host>(&self, rt: &R, waiting: WaitingCall) -> Result<Response> {
        let shared = self.link.shared();
        let mut guard = lock_soon(rt, shared.held());
        for _ in rt.forever() {
            if let Some(outcome) = outcome_of(&mut guard, rt.alloc(), waiting.id) {
                return outcome;
            }
            guard = self.sleep(rt, guard, waiting);
            let has_ticked = tick_if_due(rt, &mut guard);
            if let Err(error) = has_ticked {
                give_up(&mut guard, waiting.id);
                return Err(error);
            }
        }
        unreachable!()
    }

    /// Waits until something happens to the call, or its deadline has come.
    fn sleep<'a, R: Host>(
        &self,
        rt: &R,
        guard: MutexGuard<'a, ClientHeld<O, I>>,
        waiting: WaitingCall,
    ) -> MutexGuard<'a, ClientHeld<O, I>> {
        let caller = self.link.shared().caller(waiting.id);
        sleep_until(rt, caller, guard, waiting.deadline)
    }
}

/// Releases the lock, sleeps until the condition is notified or this deadline has come, and locks again.
fn sleep_until<'a, R: Host, T: Drop>(
    rt: &R,
    condvar: &Condvar,
    guard: MutexGuard<'a, T>,
    deadline: Option<u128>,
) -> MutexGuard<'a, T> {
    match deadline {
        None => wait_soon(rt, condvar, guard),
        Some(deadline) => {
            let now = u128::from(moment(rt).unwrap_or(u64::MAX));
            let left = u64::try_from(deadline.saturating_sub(now)).unwrap_or(u64::MAX);
            condvar
                .wait_timeout(rt, guard, Duration::from_nanos(left))
                .0
        }
    }
}

/// Takes the outcome of a call, and reports to the turn to read that its caller has it. Returns `None` if there is no outcome yet.
fn outcome_of<O: OutboundTransform + Drop, I: InboundTransform + Drop>(
    held: &mut ClientHeld<O, I>,
    alloc: Global,
    id: CallId,
) -> Option<Result<Response>>
    ensures given { TakesOutcome held.old.core id result held.new.core }
    ensures reading { held.new.reading ≡ turn_asked held.old.reading id result }
    ensures turn { held.new.turn ≡ held.old.turn }
{
    let outcome = held.take_outcome(alloc, id)?;
    held.reading.finish_call(id, is_answer(&outcome));
    Some(outcome)
}

/// Forgets a call that has no outcome, since its caller waits no longer.
fn give_up<O: OutboundTransform + Drop, I: InboundTransform + Drop>(
    held: &mut ClientHeld<O, I>,
    id: CallId,
)
    ensures forgotten { Forgets O.SEALS held.old.core id held.new.core }
    ensures reading { held.new.reading ≡ finished held.old.reading id false }
    ensures turn { held.new.turn ≡ held.old.turn }
{
    held.drop_call(id);
    held.reading.finish_call(id, false);
}

/// Returns whether the peer has answered the call, and so has read its request.
fn is_answer(outcome: &Result<Response>) -> bool
    ensures { result ≡ is_answer outcome.now }
{
    matches!(outcome, Ok(_) | Err(Error::RpcStatus(_)))
}

/// Queues the request of a call, and returns how its caller goes on. The caller writes for itself if nothing waits before its frame and it
/// has no deadline. A peer that reads nothing could hold a caller past its deadline. The caller reads for itself, too, if no other call is
/// under way and the socket surely has room for its frame. Otherwise a peer that writes before it reads could block it.
fn queue_request<O: OutboundTransform + Drop, I: InboundTransform + Drop>(
    held: &mut ClientHeld<O, I>,
    alloc: Global,
    request: &Request,
    now: u64,
) -> Result<QueuedCall>
    ensures ok { IfOk result
        (λ asked. Asks O.OutboundTransform held.old request.now now asked held.new) }
    ensures refused { IfErr result (RefusesRequest O.OutboundTransform held.old.core request.now) }
    ensures err { OnErr result ((held.new.core ≡ held.old.core) × (held.new.turn ≡ held.old.turn)
        × (held.new.reading ≡ held.old.reading)) }
{
    let deadline = deadline_of(now, request.timeout_nano);
    let nothing_waits = held.core.lendable() == 0;
    let id = held.request(alloc, request, now)?;
    let shape = CallShape {
        has_deadline: deadline.is_some(),
        is_next: nothing_waits,
        is_short: held.core.lendable() <= LONE_FRAME,
    };
    let is_alone = held.reading.begin_call(id, shape);
    let queued = after_queuing(&mut held.turn, shape.may_write());
    let wakes = !is_alone && held.reading.wakes();
    Ok(QueuedCall {
        waiting: WaitingCall {
            id,
            deadline,
            is_alone,
        },
        queued,
        wakes,
    })
}

/// Reports the current moment to the core, if a call may expire.
fn tick_if_due<R: Host, O: OutboundTransform + Drop, I: InboundTransform + Drop>(
    rt: &R,
    held: &mut ClientHeld<O, I>,
) -> Result<()>
    ensures ok { OnOk result
        (HasTicked O.SEALS held.old.core held.old.reading held.new.core held.new.reading) }
    ensures fault { IfErr result IsFault }
    ensures err { OnErr result
        ((held.new.core ≡ held.old.core) × (held.new.reading ≡ held.old.reading)) }
    ensures turn { held.new.turn ≡ held.old.turn }
{
    if held.core.next_deadline().is_none() {
        return Ok(());
    }
    held.tick(moment(rt)?);
    // The callers of expired calls wake by themselves.
    let _ = held.note_ended();
    Ok(())
}
