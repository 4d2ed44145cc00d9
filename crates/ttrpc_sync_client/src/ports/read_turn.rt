//! The turn to read.
ghost use Rattle.std.specs.Prelude.{◌≡◌, true, false, if◌then◌else◌};
ghost use Rattle.ttrpc_sync_client.specs.ReadTurns.{begun, ended, finished, hands_over, is_alone, is_free, may_rest, may_take, may_write, new_turn, reader_next_of, reads_on, turn_reader_next, turn_waking, wakes_thread};

use ttrpc_client::CallId;

/// The longest frame that a caller writes before it reads for itself. Each socket's buffer has room for such a frame, so the write doesn't
/// wait for a peer that writes before it reads.
pub const LONE_FRAME: usize = 4096;

/// The number of lone calls in a row after which the reader thread rests. Then callers read for themselves, which saves a switch of threads
/// for each call.
pub const CALLS_TO_REST: u32 = 8;

/// The reader of a client's connection.
#[derive(Clone, Copy, Debug, PartialEq, Eq)]
pub enum CurrentReader {
    /// No thread.
    Nobody,
    /// The reader thread.
    Thread,
    /// The caller of this call, until it has ended.
    Caller(CallId),
}

/// The next action of a reader after a piece.
#[derive(Clone, Copy, Debug, PartialEq, Eq)]
pub enum ReaderNext {
    /// The reader reads on.
    Reads,
    /// The reader stops reading.
    Leaves,
    /// The reader stops reading, and the reader thread is to be woken, since other callers wait.
    HandsOver,
}

impl ReaderNext {
    /// Returns whether the reader reads on.
    pub fn reads_on(self) -> bool
        ensures { result ≡ reads_on self }
    {
        matches!(self, ReaderNext::Reads)
    }

    /// Returns whether the reader thread is to be woken.
    pub fn hands_over(self) -> bool
        ensures { result ≡ hands_over self }
    {
        matches!(self, ReaderNext::HandsOver)
    }
}

/// The turn to read, which at most one thread of a client's connection has. It lies under the connection's lock, so the thread that has the
/// turn is the only reader.
#[derive(Debug, Drop)]
pub struct ReadTurn {
    /// The thread that has the turn.
    pub reader: CurrentReader,
    /// True if the reader thread sleeps, and hasn't been woken yet.
    pub sleeps: bool,
    /// The number of calls under way. A call counts until its caller has the outcome.
    pub callers: u64,
    /// The number of the last calls that were alone, in a row, counted up to `CALLS_TO_REST`.
    pub alone: u32,
    /// The call that began last, until it has ended.
    pub last: Option<CallId>,
    /// The call that began last, until it was answered. While there is one, the peer may not have read all bytes that were written.
    pub unread: Option<CallId>,
}

/// The shape of a call, which decides how the call is made.
#[derive(Clone, Copy, Debug, PartialEq, Eq)]
pub struct CallShape {
    /// True if the call may expire.
    pub has_deadline: bool,
    /// True if nothing waits to be written before the call's frame.
    pub is_next: bool,
    /// True if the call's frame is at most `LONE_FRAME` bytes long.
    pub is_short: bool,
}

impl CallShape {
    /// Returns whether the caller may write for itself: it has no deadline, and nothing waits before its frame. If the caller isn't alone,
    /// another thread reads meanwhile, so a peer that writes before it reads blocks no thread.
    pub fn may_write(self) -> bool
        ensures { result ≡ may_write self }
    {
        self.is_next && !self.has_deadline
    }
}

impl ReadTurn {
    /// Makes a turn that no thread has, without a call under way.
    pub fn new() -> ReadTurn
        ensures { result ≡ new_turn }
    {
        ReadTurn {
            reader: CurrentReader::Nobody,
            sleeps: false,
            callers: 0,
            alone: 0,
            last: None,
            unread: None,
        }
    }

    /// Begins a call. Returns whether its caller is alone, and so may write and read for itself. Neither can block the caller. The peer has
    /// read all bytes written before, so the socket has room for the call's short frame, and the call has no deadline.
    pub fn begin_call(&mut self, id: CallId, shape: CallShape) -> bool
        ensures result { result ≡ is_alone self.old shape }
        ensures turn { self.new ≡ begun self.old id (is_alone self.old shape) }
    {
        let is_first = self.unread.is_none() && self.callers == 0;
        let is_alone = shape.is_short && is_first && shape.may_write();
        self.callers = self.callers.saturating_add(1);
        self.alone = if is_alone {
            self.alone.saturating_add(1).min(CALLS_TO_REST)
        } else {
            0
        };
        self.last = Some(id);
        self.unread = Some(id);
        is_alone
    }

    /// Reports that a call has ended.
    pub fn end_call(&mut self, id: CallId)
        ensures { self.new ≡ ended self.old id }
    {
        if self.reader == CurrentReader::Caller(id) {
            self.reader = CurrentReader::Nobody;
        }
        if self.last == Some(id) {
            self.last = None;
        }
    }

    /// Reports that the caller of this call has its outcome. `is_answered` says that the outcome is the peer's answer.
    pub fn finish_call(&mut self, id: CallId, is_answered: bool)
        ensures { self.new ≡ finished self.old id is_answered }
    {
        self.callers = self.callers.saturating_sub(1);
        if is_answered && self.unread == Some(id) {
            self.unread = None;
        }
    }

    /// Asks for the turn, for the caller of this call, which was alone. Returns false if another thread has the turn, the call has ended,
    /// or another call has begun since.
    pub fn take(&mut self, id: CallId) -> bool
        ensures result { result ≡ may_take self.old id }
        ensures turn { self.new ≡ (if may_take self.old id
            then record self.old { reader = CurrentReader.Caller id } else self.old) }
    {
        if self.reader != CurrentReader::Nobody || self.last != Some(id) {
            return false;
        }
        self.reader = CurrentReader::Caller(id);
        true
    }

    /// Asks for the turn, for the reader thread. Returns false if the thread is to sleep, since a caller has the turn, or since the thread
    /// may rest.
    pub fn thread_takes(&mut self) -> bool
        ensures result { result ≡ (if may_rest self.old then false else is_free self.old.reader) }
        ensures turn { self.new ≡ (if may_rest self.old then record self.old { sleeps = true }
            else (if is_free self.old.reader then record self.old { reader = CurrentReader.Thread }
            else record self.old { sleeps = true })) }
    {
        if self.may_rest() || self.reader != CurrentReader::Nobody {
            self.sleeps = true;
            return false;
        }
        self.reader = CurrentReader::Thread;
        true
    }

    /// Returns the next action of the reader after a piece, which may have ended calls.
    pub fn reader_next(&mut self) -> ReaderNext
        ensures result { result ≡ reader_next_of self.old.reader self.old }
        ensures turn { self.new ≡ turn_reader_next (reader_next_of self.old.reader self.old) self.old }
    {
        match self.reader {
            CurrentReader::Caller(_) => ReaderNext::Reads,
            CurrentReader::Thread if !self.may_rest() => ReaderNext::Reads,
            CurrentReader::Nobody if self.sleeps && self.callers > 1 => {
                self.sleeps = false;
                ReaderNext::HandsOver
            }
            CurrentReader::Thread | CurrentReader::Nobody => {
                self.reader = CurrentReader::Nobody;
                ReaderNext::Leaves
            }
        }
    }

    /// Reports that a caller waits that doesn't read. Returns true if the reader thread is to be woken, at most once for each sleep. If
    /// another caller reads, that caller hands over the turn.
    pub fn wakes(&mut self) -> bool
        ensures result { result ≡ wakes_thread self.old }
        ensures turn { self.new ≡ turn_waking self.old }
    {
        if self.reader != CurrentReader::Nobody || !self.sleeps {
            return false;
        }
        self.sleeps = false;
        true
    }

    // Returns whether the reader thread may rest.
    fn may_rest(&self) -> bool
        ensures { result ≡ may_rest self.now }
    {
        self.last.is_none() && self.alone >= CALLS_TO_REST
    }
}
