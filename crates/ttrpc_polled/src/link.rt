//! The future that reads, writes and ticks for one connection.
ghost use Rattle.std.specs.Prelude.{◌≡◌, ◌≢◌, ℕ, [], IfErr, IsSome, Ok, true, false, IfOk, None};
ghost use Rattle.std.specs.Arc.{arc_value};
ghost use Rattle.std.specs.IoError.{error_kind};
ghost use Rattle.futures.specs.Task.{Covers, Hears, IsArmed, Keeps};
ghost use Rattle.tokio.specs.Timers.{sleep_source};
ghost use Rattle.ttrpc_polled.specs.Needs.{IsOver, LinkNeeds, OutNeeds};
ghost use Rattle.ttrpc_polled.specs.Passing.{IsHandedOn, TellsMoment};
ghost use Rattle.ttrpc_polled.specs.Sharing.{fresh};
ghost use Rattle.ttrpc_polled.specs.Sockets.{IsNotMade};

use crate::alarm::Alarm;
use crate::held::{PolledState, SharedConnection};
use crate::piece::Piece;
use crate::read_buffer::ReadBuffer;
use crate::share::Share;
use crate::write_buffer::WriteBuffer;
use futures::spin::lock;
use futures::task::{Context, Poll, Source};
use std::alloc::Global;
use std::io::{self, ErrorKind};
use std::sync::Arc;
use std::time::Clock;
use tokio::io::{AsyncRead, AsyncWrite};
use tokio::runtime::Handle;
use ttrpc_proto::Result;
use ttrpc_transport::moment;

/// The result of one look at everything that a connection waits for.
#[derive(Clone, Copy, Debug, PartialEq, Eq)]
pub enum Step {
    /// Something was done: look again.
    Moved,
    /// Something was lent that isn't written yet. The tasks that waited for this may send more for the same write.
    Gathered,
    /// There is nothing to do, and the task waits at each source of something.
    Waits,
    /// The connection is over.
    Over,
}

/// The time for which a failed connection goes on writing bytes that were lent before, in nanoseconds, if its peer takes none of them.
const LAST_WRITES: u64 = 5_000_000_000;

/// The two ends of a connection, its shared state, and its alarm.
#[derive(Drop)]
pub struct ConnectionDriver<R: Clock + AllocGlobal + Drop, S, W, C> {
    rt: R,
    shared: Arc<C, Global>,
    read_buffer: ReadBuffer<S>,
    is_reading: bool,
    is_full: bool,
    ends_at: Option<u64>,
    is_late: bool,
    write_buffer: WriteBuffer<W>,
    alarm: Alarm,
}

impl<
    R: Clock + AllocGlobal + Drop,
    S: AsyncRead,
    W: AsyncWrite,
    C: SharedConnection,
> ConnectionDriver<R, S, W, C> {
    /// Makes the link over this reader and this writer. Want of memory for their rooms at rest is `NoMemory`.
    pub fn new(rt: R, handle: &Handle, shared: Arc<C, Global>, reader: S, writer: W) -> Result<Self>
        ensures ok { IfOk result (λ link. (link.shared ≡ shared) × (link.read_buffer.reader ≡ reader)
            × (link.read_buffer.piece ≡ []) × (link.is_reading ≡ true) × (link.write_buffer.writer ≡ writer)
            × (link.write_buffer.kept ≡ []) × (link.alarm.set_for ≡ None)) }
        ensures err { IfErr result IsNotMade }
    {
        let alloc = rt.alloc();
        Ok(ConnectionDriver {
            shared,
            read_buffer: ReadBuffer::new(alloc, reader)?,
            is_reading: true,
            is_full: false,
            ends_at: None,
            is_late: false,
            write_buffer: WriteBuffer::new(alloc, writer)?,
            alarm: Alarm::new(&rt, handle)?,
            rt,
        })
    }

    /// Returns the shared state.
    pub fn shared(&self) -> &C
        ensures { result.now ≡ arc_value self.now.shared }
    {
        &self.shared
    }

    /// Returns whether the input goes on: it has neither ended nor failed.
    pub fn is_reading(&self) -> bool
        ensures { result ≡ self.now.is_reading }
    {
        self.is_reading
    }

    /// Begins a poll: reads the clock and, before the poll does anything else, reports the moment to the core if something has expired by
    /// then.
    pub fn look(&self) -> Share
        ensures { (now : ℕ) × (result ≡ fresh now) }
    {
        let now = moment(&self.rt).unwrap_or(0);
        if let Some(mut held) = lock(self.shared.held()) {
            tell_moment(&mut *held, now);
        }
        Share::new(now)
    }

    /// Returns whether the link keeps no bytes that are to be written.
    pub fn keeps_nothing(&self) -> bool
        ensures yes { result ≡ true → self.now.write_buffer.kept ≡ [] }
        ensures no { result ≡ false → self.now.write_buffer.kept ≢ [] }
    {
        self.write_buffer.kept.is_empty()
    }

    /// Looks once at everything that the link waits for, and does what there is to do. The link writes and reads, and if there was nothing
    /// of either it looks at its alarm. The link is over once the connection has failed and all lent bytes are written, or 5 seconds after
    /// the failure if the writer takes none of them.
    pub fn turn(&mut self, share: &mut Share, cx: &mut Context<'_>) -> Step
        ensures waits { result ≡ Step.Waits
            → Covers cx.new (LinkNeeds S.AsyncRead.needs W.AsyncWrite.needs C.asked self.new) }
        ensures over { result ≡ Step.Over
            → IsOver W.AsyncWrite.fails W.AsyncWrite.is_full self.new }
        ensures kept { Keeps cx.old cx.new }
    {
        match self.poll_out(share.now(), cx) {
            Step::Moved => {
                let _ = self.poll_in(share, cx);
                share.moved(&self.rt);
                Step::Moved
            }
            Step::Waits => match self.poll_in(share, cx) {
                Step::Waits => self.poll_alarm(cx),
                step => {
                    share.moved(&self.rt);
                    step
                }
            },
            step => step,
        }
    }

    /// Writes the queued bytes, and reads if this poll may still hand on a piece. Returns true if the connection is over.
    pub fn flush(&mut self, share: &mut Share, cx: &mut Context<'_>) -> bool
        ensures over { result ≡ true → IsOver W.AsyncWrite.fails W.AsyncWrite.is_full self.new }
        ensures kept { Keeps cx.old cx.new }
    {
        if let Step::Over = self.poll_out(share.now(), cx) {
            return true;
        }
        if share.may_hand_on() {
            let _ = self.poll_in(share, cx);
        }
        share.moved(&self.rt);
        false
    }

    /// Gathers queued bytes if none are kept, and writes the kept bytes. While the writer takes nothing, the link still learns of new
    /// deadlines.
    fn poll_out(&mut self, now: u64, cx: &mut Context<'_>) -> Step
        ensures waits { result ≡ Step.Waits
            → Covers cx.new (OutNeeds W.AsyncWrite.needs C.asked self.new) }
        ensures over { result ≡ Step.Over
            → IsOver W.AsyncWrite.fails W.AsyncWrite.is_full self.new }
        ensures read_buffer { (self.new.read_buffer ≡ self.old.read_buffer)
            × (self.new.is_reading ≡ self.old.is_reading) }
        ensures kept { Keeps cx.old cx.new }
    {
        if self.write_buffer.kept.is_empty() {
            match self.poll_queued(cx) {
                Step::Moved => {}
                step => return step,
            }
            if self.write_buffer.kept.is_empty() {
                return Step::Moved;
            }
        } else if self.gathers_more() {
            return Step::Gathered;
        }
        match self.write_buffer.poll_rest(cx) {
            Poll::Pending => self.poll_asked(now, cx),
            Poll::Ready(Ok(true)) => Step::Moved,
            Poll::Ready(Ok(false)) => self.broke(ErrorKind::WriteZero),
            Poll::Ready(Err(error)) => self.broke(error.kind()),
        }
    }

    /// Appends frames that waiting senders have queued since, so that they share the write. Returns whether there were any.
    fn gathers_more(&mut self) -> bool
        ensures kept { self.old.write_buffer.kept ≢ [] → self.new.write_buffer.kept ≢ [] }
        ensures rest { (self.new.read_buffer ≡ self.old.read_buffer)
            × (self.new.is_reading ≡ self.old.is_reading) }
    {
        if !self.write_buffer.has_room() {
            return false;
        }
        let Some(mut held) = lock(self.shared.held()) else {
            return false;
        };
        if held.has_failed() || held.senders() == 0 {
            return false;
        }
        let before = self.write_buffer.kept.bytes().len();
        self.write_buffer.gather(&mut *held);
        before < self.write_buffer.kept.bytes().len()
    }

    /// Reports that the writer failed.
    fn broke(&self, kind: ErrorKind) -> Step
        ensures { result ≡ Step.Over }
    {
        if let Some(mut held) = lock(self.shared.held()) {
            held.broke(kind);
        }
        Step::Over
    }

    /// Gathers queued bytes, or waits for some. If the lock isn't free, the result is `Moved`, too.
    fn poll_queued(&mut self, cx: &mut Context<'_>) -> Step
        // No gathered bytes are kept.
        requires { self.old.write_buffer.kept ≡ [] }
        // After `Waits` or `Over` no bytes are kept. After `Waits` the poll has registered for bytes to write.
        ensures waits { result ≡ Step.Waits
            → (self.new.write_buffer.kept ≡ []) × IsArmed cx.new
            × Hears cx.new (C.asked (arc_value self.new.shared)) }
        ensures over { result ≡ Step.Over → self.new.write_buffer.kept ≡ [] }
        // The reading side is as it was. Earlier registrations are kept.
        ensures read_buffer { (self.new.read_buffer ≡ self.old.read_buffer)
            × (self.new.is_reading ≡ self.old.is_reading) }
        ensures kept { Keeps cx.old cx.new }
    {
        let Some(mut held) = lock(self.shared.held()) else {
            let _: Poll<()> = cx.yield_now();
            return Step::Moved;
        };
        if held.has_failed() {
            return Step::Over;
        }
        let senders = held.senders();
        self.write_buffer.gather(&mut *held);
        if !self.write_buffer.kept.is_empty() {
            return if senders > 0 {
                Step::Gathered
            } else {
                Step::Moved
            };
        }
        wait_at(
            &self.rt,
            &mut self.alarm,
            self.shared.asked(),
            &mut *held,
            cx,
        );
        Step::Waits
    }

    /// Waits for new calls and deadlines, while the writer takes nothing. After the connection has failed this wait has a limit.
    fn poll_asked(&mut self, now: u64, cx: &mut Context<'_>) -> Step
        ensures waits { result ≡ Step.Waits
            → IsArmed cx.new × Hears cx.new (C.asked (arc_value self.new.shared)) }
        ensures over { result ≡ Step.Over → self.new.is_late ≡ true }
        ensures rest { (self.new.read_buffer ≡ self.old.read_buffer)
            × (self.new.is_reading ≡ self.old.is_reading) × (self.new.write_buffer ≡ self.old.write_buffer)
            × (self.new.shared ≡ self.old.shared) }
        ensures kept { Keeps cx.old cx.new }
    {
        let Some(mut held) = lock(self.shared.held()) else {
            let _: Poll<()> = cx.yield_now();
            return Step::Moved;
        };
        if held.has_failed() {
            let at = self.ends_at.unwrap_or(now.saturating_add(LAST_WRITES));
            self.ends_at = Some(at);
            self.is_late = at <= now;
            if self.is_late {
                return Step::Over;
            }
            self.alarm.set(&self.rt, at);
        }
        wait_at(
            &self.rt,
            &mut self.alarm,
            self.shared.asked(),
            &mut *held,
            cx,
        );
        Step::Waits
    }

    /// Reads a piece, and hands it to the core. While the core wants no more input, nothing is read and the task is polled again. If a
    /// piece was handed on before in this poll, the next one is kept for the next poll, and this poll is over.
    fn poll_in(&mut self, share: &mut Share, cx: &mut Context<'_>) -> Step
        ensures waits { result ≡ Step.Waits → self.new.is_reading ≡ true → self.new.read_buffer.piece ≡ []
            → Covers cx.new (S.AsyncRead.needs self.new.read_buffer.reader) }
        ensures goes_on { result ≢ Step.Over }
        ensures write_buffer { (self.new.write_buffer ≡ self.old.write_buffer) × (self.new.shared ≡ self.old.shared)
            × (self.new.alarm ≡ self.old.alarm) }
        ensures kept { Keeps cx.old cx.new }
    {
        if !self.is_reading {
            return Step::Waits;
        }
        if self.is_full && !self.finds_room() {
            let _: Poll<()> = cx.yield_now();
            return Step::Moved;
        }
        let polled = self.read_buffer.poll_piece(cx);
        let Poll::Ready(given) = polled else {
            return Step::Waits;
        };
        if !share.may_hand_on() && is_piece(&given) {
            share.end();
            return Step::Moved;
        }
        self.hand_in(given, share, cx)
    }

    /// Returns whether the core wants input again.
    fn finds_room(&mut self) -> bool
        ensures { self.new ≡ record self.old { is_full = self.new.is_full } }
    {
        let Some(held) = lock(self.shared.held()) else {
            return false;
        };
        self.is_full = !held.wants_input();
        !self.is_full
    }

    /// Hands on the reader's result, at the moment of this poll. If the core lacks room for its answers, it takes nothing of a piece. The
    /// connection then waits until more of the queued bytes have left, and hands the rest on again.
    fn hand_in(&mut self, given: io::Result<bool>, share: &mut Share, cx: &mut Context<'_>) -> Step
        ensures waits { result ≡ Step.Waits → self.new.read_buffer.piece ≢ [] }
        ensures goes_on { result ≢ Step.Over }
        ensures write_buffer { (self.new.write_buffer ≡ self.old.write_buffer) × (self.new.shared ≡ self.old.shared)
            × (self.new.alarm ≡ self.old.alarm) }
        ensures kept { Keeps cx.old cx.new }
    {
        let Some(mut held) = lock(self.shared.held()) else {
            let _: Poll<()> = cx.yield_now();
            return Step::Moved;
        };
        let piece = &mut self.read_buffer.piece;
        let before = piece.bytes().len();
        self.is_reading = hand_on(self.rt.alloc(), &mut *held, piece, given, share.now());
        self.is_full = !held.wants_input();
        if self.is_reading && !piece.is_empty() && piece.bytes().len() == before {
            return Step::Waits;
        }
        share.handed_on();
        Step::Moved
    }

    /// Looks at the alarm, if it is set.
    fn poll_alarm(&mut self, cx: &mut Context<'_>) -> Step
        ensures waits { result ≡ Step.Waits → IsSome self.new.alarm.set_for
            → Covers cx.new (λ s. s ≡ sleep_source self.new.alarm.sleep) }
        ensures goes_on { result ≢ Step.Over }
        ensures rest { (self.new.read_buffer ≡ self.old.read_buffer)
            × (self.new.is_reading ≡ self.old.is_reading) × (self.new.write_buffer ≡ self.old.write_buffer)
            × (self.new.shared ≡ self.old.shared) }
        ensures kept { Keeps cx.old cx.new }
    {
        if self.alarm.set_for.is_none() {
            return Step::Waits;
        }
        let Poll::Ready(now) = self.alarm.poll_ring(&self.rt, cx) else {
            return Step::Waits;
        };
        if let Some(mut held) = lock(self.shared.held()) {
            held.tick(now);
        }
        Step::Moved
    }
}

/// Returns whether the reader gave a piece.
fn is_piece(given: &io::Result<bool>) -> bool
    ensures { result ≡ true → given.now ≡ Ok true }
{
    matches!(given, Ok(true))
}

/// Reports this moment to a core, if something has expired by then.
fn tell_moment<H: PolledState>(held: &mut H, now: u64)
    ensures { TellsMoment H.expires H.ticks held.old now held.new }
{
    if held.next_deadline().is_some_and(|at| at <= now) {
        held.tick(now);
    }
}

/// Sets the alarm for the soonest deadline, and waits at this source for something new.
fn wait_at<R: Clock, H: PolledState>(
    rt: &R,
    alarm: &mut Alarm,
    asked: &Source,
    held: &mut H,
    cx: &mut Context<'_>,
)
    ensures armed { IsArmed cx.new }
    ensures heard { Hears cx.new asked.now.id }
    ensures kept { Keeps cx.old cx.new }
{
    if let Some(at) = held.next_deadline() {
        alarm.set(rt, at);
    }
    let _: Poll<()> = cx.register(asked, held.driver());
}

/// Hands on the reader's result at this moment: a piece, the end, or an error. Before a piece the moment is reported to the core. Returns
/// true if the reader is to be asked for more, since the core takes more, now or once there is room.
fn hand_on<H: PolledState>(
    alloc: Global,
    held: &mut H,
    piece: &mut Piece,
    given: io::Result<bool>,
    now: u64,
) -> bool
    ensures piece { given ≡ Ok true
        → (told : H) × TellsMoment H.expires H.ticks held.old now told
        × IsHandedOn H.takes told piece.old now result held.new piece.new }
    ensures end { given ≡ Ok false
        → H.ends held.old held.new × (piece.new ≡ piece.old) × (result ≡ false) }
    ensures broke { IfErr given (λ e. H.breaks held.old (error_kind e) held.new
        × (piece.new ≡ piece.old) × (result ≡ false)) }
{
    match given {
        Ok(true) => {
            tell_moment(held, now);
            match held.take(alloc, piece.bytes(), now) {
                Some(count) => {
                    piece.took(count);
                    true
                }
                None => false,
            }
        }
        Ok(false) => {
            held.ended();
            false
        }
        Err(error) => {
            held.broke(error.kind());
            false
        }
    }
}
