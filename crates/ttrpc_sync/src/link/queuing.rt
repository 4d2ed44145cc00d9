//! The next action of a thread that has queued a frame.
ghost use Rattle.std.specs.Prelude.{◌≡◌};
ghost use Rattle.ttrpc_sync.specs.Queuing.{queuing_of, turn_after_queuing};

use crate::ends::WriteTurn;

/// The next action of a thread that has queued a frame, after it has released the lock.
#[derive(Clone, Copy, Debug, PartialEq, Eq)]
pub enum AfterQueuing {
    /// The thread writes the frame that is queued: it has the turn.
    Write,
    /// The thread wakes the writer thread.
    Wake,
    /// The thread does nothing: the thread that has the turn, or was woken, looks again.
    Leave,
}

/// Decides, under the lock, what the thread does next. It writes its frame itself if it may and no other thread has the
/// turn.
pub fn after_queuing(turn: &mut WriteTurn, may_write: bool) -> AfterQueuing
    ensures result { result ≡ queuing_of turn.old may_write }
    ensures turn { turn.new ≡ turn_after_queuing turn.old may_write }
{
    if may_write && turn.take() {
        return AfterQueuing::Write;
    }
    if turn.wakes() {
        AfterQueuing::Wake
    } else {
        AfterQueuing::Leave
    }
}
