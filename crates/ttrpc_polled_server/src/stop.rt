//! How a server is stopped, and how its connections learn of it.
ghost use Rattle.std.specs.Prelude.{◌≡◌, ◌⊎◌, IsFalse, IfErr, IfOk};
ghost use Rattle.std.specs.Arc.{arc_value};
ghost use Rattle.futures.specs.Task.{Hears, IsArmed, Keeps};
ghost use Rattle.futures.specs.Task.{Covers};
ghost use Rattle.futures.specs.Poll.{IfReady, OnPending};
ghost use Rattle.tokio.specs.Timers.{sleep_source};
ghost use Rattle.ttrpc_proto.specs.declared.error.Error.{Error as AnError};
ghost use Rattle.ttrpc_polled_server.specs.Stopping.{IsLeftOver, StoppingNeeds};
ghost use Rattle.ttrpc_polled_server.specs.declared.stop.Disconnect.{Disconnect as ADisconnect};

use futures::Future;
use futures::spin::lock;
use futures::task::{Context, Poll, Source, Waker};
use std::alloc::Global;
use std::collections::BTreeMap;
use std::mem::replace;
use std::sync::{Arc, Mutex};
use tokio::time::Sleep;
use ttrpc_polled::{Listener, Wakers};
use ttrpc_proto::{Error, Result, Text};
use ttrpc_shutdown::{Notifier, Waiter, new};

/// The state that a server, its connections and the tasks that stop it share.
#[derive(Drop)]
pub struct StopState {
    /// The source at which the connections, and the task that accepts them, wait for the request to stop.
    pub told: Source,
    /// The source at which tasks wait for the end of a connection or for the return of the listener.
    pub left: Source,
    held: Mutex<Places>,
}

/// The waiting tasks, and the counters of connections.
#[derive(Drop)]
struct Places {
    /// `None` once all connections have ended after a `disconnect`.
    notifier: Option<Notifier>,
    seats: BTreeMap<u64, Option<Waker>>,
    next: u64,
    ended: u64,
    is_deaf: bool,
    // The wakers of waiting tasks, each under a number.
    accepts: Wakers,
    rests: Wakers,
    stops: Wakers,
    returned: Option<Listener>,
}

/// A connection's place. The connection counts until its place is dropped.
pub struct ConnectionSlot {
    stop: Arc<StopState, Global>,
    number: u64,
    waiter: Option<Waiter>,
}

impl StopState {
    /// Makes the state of a server that isn't stopped, and has no connections.
    pub fn new(alloc: Global) -> Result<StopState>
        ensures err { IfErr result (λ e. e ≡ AnError.NoMemory) }
    {
        let (notifier, waiter) = new(alloc)?;
        drop(waiter);
        Ok(StopState {
            told: Source::new(),
            left: Source::new(),
            held: Mutex::new(Places {
                notifier: Some(notifier),
                seats: BTreeMap::new(alloc),
                next: 0,
                ended: 0,
                is_deaf: false,
                accepts: Wakers::new(alloc),
                rests: Wakers::new(alloc),
                stops: Wakers::new(alloc),
                returned: None,
            }),
        })
    }

    /// Makes a place for a connection. The error is `LocalClosed` once all connections have ended after a `disconnect`.
    pub fn connection_slot(this: &Arc<StopState, Global>) -> Result<ConnectionSlot>
        ensures ok { IfOk result (λ connection_slot. arc_value connection_slot.stop ≡ arc_value this.now) }
        ensures err { IfErr result (λ e. (e ≡ AnError.NoMemory) ⊎ (e ≡ AnError.LocalClosed)) }
    {
        let stop = Arc::try_clone(this)?;
        let Some(mut guard) = lock(&this.held) else {
            return Err(Error::LocalClosed);
        };
        let places = &mut *guard;
        let Some(notifier) = &mut places.notifier else {
            return Err(Error::LocalClosed);
        };
        let waiter = notifier.subscribe()?;
        let number = places.next;
        places.seats.insert(number, None)?;
        places.next = number.saturating_add(1);
        Ok(ConnectionSlot {
            stop,
            number,
            waiter: Some(waiter),
        })
    }

    /// Returns a number under which no task waits yet.
    pub fn take_number(&self) -> u64 {
        let Some(mut guard) = lock(&self.held) else {
            return u64::MAX;
        };
        let places = &mut *guard;
        let number = places.next;
        places.next = number.saturating_add(1);
        number
    }

    /// Allows connections to be accepted from now on.
    pub fn listen(&self) {
        if let Some(mut guard) = lock(&self.held) {
            (&mut *guard).is_deaf = false;
        }
    }

    /// Stops connections from being accepted.
    pub fn stop_listen(&self) {
        if let Some(mut guard) = lock(&self.held) {
            let places = &mut *guard;
            places.is_deaf = true;
            places.accepts.wake_all();
        }
    }

    /// Asks all connections to end.
    pub fn tell(&self) {
        if let Some(mut guard) = lock(&self.held) {
            let places = &mut *guard;
            if let Some(notifier) = &mut places.notifier {
                notifier.shutdown();
            }
            for (_, slot) in places.seats.iter_mut() {
                *slot = None;
            }
        }
    }

    /// Gives back the listener of a server that accepts no more.
    pub fn give_back(&self, listener: Listener) {
        if let Some(mut guard) = lock(&self.held) {
            let places = &mut *guard;
            places.returned = Some(listener);
            places.stops.wake_all();
        }
    }

    /// Takes the listener that was given back.
    pub fn take_listener(&self) -> Option<Listener> {
        let mut guard = lock(&self.held)?;
        (&mut *guard).returned.take()
    }

    /// Returns whether no more connections are to be accepted. If not, the task is woken when that changes; it waits under `number`.
    pub fn is_deaf(&self, number: u64, cx: &mut Context<'_>) -> bool
        ensures waits { IsFalse result → IsArmed cx.new × Hears cx.new self.now.told.id }
        ensures kept { Keeps cx.old cx.new }
    {
        let Some(mut guard) = lock(&self.held) else {
            let _: Poll<()> = cx.yield_now();
            return false;
        };
        let places = &mut *guard;
        if places.is_deaf {
            return true;
        }
        let _: Poll<()> = places.accepts.wait(number, &self.told, cx);
        false
    }

    /// Returns how many connections have ended.
    pub fn ended(&self) -> u64 {
        match lock(&self.held) {
            Some(guard) => guard.ended,
            None => 0,
        }
    }

    /// Returns whether more connections have ended than `since`. If not, the task is woken when one ends; it waits under `number`.
    pub fn has_ended(&self, since: u64, number: u64, cx: &mut Context<'_>) -> bool
        ensures waits { IsFalse result → IsArmed cx.new × Hears cx.new self.now.left.id }
        ensures kept { Keeps cx.old cx.new }
    {
        let Some(mut guard) = lock(&self.held) else {
            let _: Poll<()> = cx.yield_now();
            return false;
        };
        let places = &mut *guard;
        if places.ended != since {
            return true;
        }
        let _: Poll<()> = places.rests.wait(number, &self.left, cx);
        false
    }

    /// Returns whether the listener was given back. If not, the task is woken when it is; it waits under `number`.
    fn is_back(&self, number: u64, cx: &mut Context<'_>) -> bool
        ensures waits { IsFalse result → IsArmed cx.new × Hears cx.new self.now.left.id }
        ensures kept { Keeps cx.old cx.new }
    {
        let Some(mut guard) = lock(&self.held) else {
            let _: Poll<()> = cx.yield_now();
            return false;
        };
        let places = &mut *guard;
        if places.returned.is_some() {
            return true;
        }
        let _: Poll<()> = places.stops.wait(number, &self.left, cx);
        false
    }

    /// Returns whether all connections have ended, by the count of the notifier, which isn't needed any more then. If not, the task is
    /// woken when one more has; it waits under `number`.
    fn have_all_ended(&self, alloc: Global, number: u64, cx: &mut Context<'_>) -> bool
        ensures waits { IsFalse result → IsArmed cx.new × Hears cx.new self.now.left.id }
        ensures kept { Keeps cx.old cx.new }
    {
        let Some(mut guard) = lock(&self.held) else {
            let _: Poll<()> = cx.yield_now();
            return false;
        };
        let places = &mut *guard;
        let Some(notifier) = places.notifier.take() else {
            return true;
        };
        match notifier.gather(Vec::new(alloc)) {
            Ok(_) => true,
            Err((_, notifier, _)) => {
                places.notifier = Some(notifier);
                let _: Poll<()> = places.stops.wait(number, &self.left, cx);
                false
            }
        }
    }
}

impl ConnectionSlot {
    /// Returns whether the connection is to end. If not, its task is woken once it is.
    pub fn is_told(&mut self, cx: &mut Context<'_>) -> bool
        ensures waits { IsFalse result
            → IsArmed cx.new × Hears cx.new (arc_value self.new.stop).told.id }
        ensures stop { self.new.stop ≡ self.old.stop }
        ensures kept { Keeps cx.old cx.new }
    {
        let Some(mut guard) = lock(&self.stop.held) else {
            let _: Poll<()> = cx.yield_now();
            return false;
        };
        let places = &mut *guard;
        match places.seats.get_mut(&self.number) {
            Some(slot) => {
                let _: Poll<()> = cx.register(&self.stop.told, slot);
            }
            None => {
                let _: Poll<()> = cx.yield_now();
            }
        }
        // The flag is set before the wakers are dropped.
        match &mut self.waiter {
            Some(waiter) => waiter.is_shutdown(),
            None => true,
        }
    }
}

impl Drop for ConnectionSlot {
    fn drop(self) {
        let Self {
            stop,
            number,
            waiter,
        } = self;
        drop(waiter);
        if let Some(mut guard) = lock(&stop.held) {
            let places = &mut *guard;
            let _ = places.seats.remove(&number);
            places.ended = places.ended.wrapping_add(1);
            places.stops.wake_all();
            places.rests.wake_all();
        }
    }
}

/// The listener of a server, on its way back. Ready once no more connections are accepted.
#[derive(Drop)]
pub struct StopListen {
    stop: Arc<StopState, Global>,
    number: u64,
    is_listening: bool,
}

impl StopListen {
    /// Makes the future for a server that listens, or doesn't.
    pub(crate) fn new(stop: Arc<StopState, Global>, is_listening: bool) -> StopListen
        ensures { (result.stop ≡ stop) × (result.is_listening ≡ is_listening) }
    {
        StopListen {
            number: stop.take_number(),
            stop,
            is_listening,
        }
    }
}

impl Future for StopListen {
    type Output = ();

    ghost use Rattle.std.specs.Prelude.{◌≡◌};
    ghost use Rattle.std.specs.Arc.{arc_value};

    ghost needs = { λ f s. s ≡ (arc_value f.stop).left.id };

    fn poll(&mut self, cx: &mut Context<'_>) -> Poll<()> {
        if !self.is_listening || self.stop.is_back(self.number, cx) {
            return Poll::Ready(());
        }
        Poll::Pending
    }
}

/// The end of all connections of a server. Ready once they have ended, or with `Others("waiters are left")` after its limit.
#[derive(Drop)]
pub struct Disconnect {
    alloc: Global,
    stop: Arc<StopState, Global>,
    number: u64,
    limit: Sleep,
}

impl Disconnect {
    /// Makes the end of the connections that stop by this state, within this time.
    pub(crate) fn new(alloc: Global, stop: Arc<StopState, Global>, limit: Sleep) -> Disconnect
        ensures { (result.stop ≡ stop) × (result.limit ≡ limit) }
    {
        Disconnect {
            alloc,
            number: stop.take_number(),
            stop,
            limit,
        }
    }

    /// Waits until the limit has passed, and then asks all connections to end. Some of them may be left.
    fn poll_limit(&mut self, cx: &mut Context<'_>) -> Poll<Result<()>>
        ensures left { IfReady result (λ ended. IfErr ended IsLeftOver) }
        ensures stop { self.new.stop ≡ self.old.stop }
        ensures registered { OnPending result
            (Covers cx.new (λ s. s ≡ sleep_source self.new.limit)) }
        ensures kept { Keeps cx.old cx.new }
    {
        if self.limit.poll(cx).is_pending() {
            return Poll::Pending;
        }
        self.stop.tell();
        Poll::Ready(Err(left_over(self.alloc)))
    }
}

impl Future for Disconnect {
    type Output = Result<()>;

    ghost use Rattle.std.specs.Prelude.{◌≡◌, ◌⊎◌, IfErr};
    ghost use Rattle.std.specs.Arc.{arc_value};
    ghost use Rattle.tokio.specs.Timers.{sleep_source};
    ghost use Rattle.ttrpc_polled_server.specs.Stopping.{IsLeftOver};

    ghost needs = { λ d s. (s ≡ (arc_value d.stop).left.id) ⊎ (s ≡ sleep_source d.limit) };

    ghost gives = { λ _ r. IfErr r IsLeftOver };

    fn poll(&mut self, cx: &mut Context<'_>) -> Poll<Result<()>> {
        self.stop.tell();
        if self.stop.have_all_ended(self.alloc, self.number, cx) {
            return Poll::Ready(Ok(()));
        }
        self.poll_limit(cx)
    }
}

/// Makes the error for connections that are left, or `NoMemory` if memory for its text was refused.
fn left_over(alloc: Global) -> Error
    ensures { IsLeftOver result }
{
    match Text::from_str(alloc, "waiters are left") {
        Ok(text) => Error::Others(text),
        Err(_) => Error::NoMemory,
    }
}

/// The state of a shutdown.
#[derive(Drop)]
enum Stopping {
    /// The listener is on its way back, and the connections go on.
    Listens(StopListen, Disconnect),
    /// The connections are to end.
    Disconnects(Disconnect),
    /// All is done.
    Done,
}

/// The end of a server: its listener is closed, and then its connections end, as by `Disconnect`. One limit holds for both.
#[derive(Drop)]
pub struct Shutdown {
    stop: Arc<StopState, Global>,
    at: Stopping,
}

impl Shutdown {
    /// Makes the shutdown of a server that stops by these.
    pub(crate) fn new(
        stop: Arc<StopState, Global>,
        listener: StopListen,
        connections: Disconnect,
    ) -> Shutdown
        ensures { (result.stop ≡ stop) × (result.at ≡ Stopping.Listens listener connections) }
    {
        Shutdown {
            stop,
            at: Stopping::Listens(listener, connections),
        }
    }
}

impl Future for Shutdown {
    type Output = Result<()>;

    ghost use Rattle.ttrpc_polled_server.specs.Stopping.{StoppingGives, StoppingNeeds};

    ghost needs = { λ f. StoppingNeeds f.at };

    ghost gives = { λ f r. StoppingGives f.at r };

    fn poll(&mut self, cx: &mut Context<'_>) -> Poll<Result<()>> {
        match replace(&mut self.at, Stopping::Done) {
            Stopping::Listens(mut listener, connections) => match listener.poll(cx) {
                Poll::Pending => self.poll_limit(listener, connections, cx),
                Poll::Ready(()) => {
                    drop(self.stop.take_listener());
                    self.poll_connections(connections, cx)
                }
            },
            Stopping::Disconnects(connections) => self.poll_connections(connections, cx),
            Stopping::Done => Poll::Ready(Err(Error::LocalClosed)),
        }
    }
}

impl Shutdown {
    /// Waits for the listener, until the limit has passed.
    fn poll_limit(
        &mut self,
        listener: StopListen,
        mut connections: Disconnect,
        cx: &mut Context<'_>,
    ) -> Poll<Result<()>>
        ensures ended { IfReady result (λ ended. IfErr ended IsLeftOver) }
        ensures waits { OnPending result
            ((limit : ADisconnect) × (self.new.at ≡ Stopping.Listens listener limit)
            × Covers cx.new (λ s. s ≡ sleep_source limit.limit)) }
        ensures kept { Keeps cx.old cx.new }
    {
        match connections.poll_limit(cx) {
            Poll::Pending => {
                self.at = Stopping::Listens(listener, connections);
                Poll::Pending
            }
            Poll::Ready(ended) => {
                self.at = Stopping::Done;
                Poll::Ready(ended)
            }
        }
    }

    /// Waits for the connections.
    fn poll_connections(
        &mut self,
        mut connections: Disconnect,
        cx: &mut Context<'_>,
    ) -> Poll<Result<()>>
        ensures ended { IfReady result (λ ended. IfErr ended IsLeftOver) }
        ensures goes_on { OnPending result
            ((left : ADisconnect) × (self.new.at ≡ Stopping.Disconnects left)) }
        ensures registered { OnPending result (Covers cx.new (StoppingNeeds self.new.at)) }
        ensures kept { Keeps cx.old cx.new }
    {
        match connections.poll(cx) {
            Poll::Pending => {
                self.at = Stopping::Disconnects(connections);
                Poll::Pending
            }
            Poll::Ready(ended) => {
                self.at = Stopping::Done;
                Poll::Ready(ended)
            }
        }
    }
}
