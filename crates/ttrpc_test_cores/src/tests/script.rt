//! The steps and the rows of scripts.
use ttrpc_bench::vectors::Told;

/// An action on a core, or a check of it. A step that a core doesn't have isn't met.
#[derive(Clone, Copy)]
pub enum Step {
    // ---- of either core
    /// Takes these bytes, in the run's pieces.
    Feed(&'static [u8]),
    /// Takes this number of bytes 7, in pieces of the run's size, but of at least a 4,096th of them.
    FeedSevens(usize),
    /// Takes this number of bytes 7, one at a time.
    FeedSingly(usize),
    /// Takes the front of these bytes up to the run's cut, as one piece.
    FeedToCut(&'static [u8]),
    /// Takes the bytes after the run's cut, as one piece.
    FeedFromCut(&'static [u8]),
    /// Checks whether no frame has begun.
    AtBoundary(bool),
    /// All unsent bytes are these, and they leave.
    Writes(&'static [u8]),
    /// All unsent bytes are a response of stream 1 with this code, and with a message that begins with this text.
    WritesStatus(i32, &'static str),
    /// All unsent bytes are these after the first `usize` of them, and they leave.
    WritesBehind(&'static [u8], usize),
    /// A buffer of this size, at most 64, gets the bytes from the first position up to the second.
    Lends(usize, &'static [u8], usize, usize),
    /// This number of bytes is lent.
    Lent(usize),
    /// The lent bytes are reported as written.
    Reports,
    /// The bytes from the first position up to the second leave.
    Leaves(&'static [u8], usize, usize),
    /// This number of bytes leaves, whatever they are.
    Departs(usize),
    /// The first bytes come this number of times, each time whole. After each time all unsent bytes are the second
    /// bytes, which leave.
    Repeats(&'static [u8], &'static [u8], u32),
    /// The input ends.
    EndsInput,
    /// The connection is failed with a socket's error with this text.
    FailsBy(&'static str),
    /// The clock moves to this moment.
    Ticks(u64),
    /// The next deadline is this one.
    NextDeadline(Option<u64>),
    /// The connection hasn't failed.
    IsAlive,
    /// The connection has failed with this text: nothing is taken, lent or accepted any more.
    HasFailed(&'static str),

    // ---- of a server
    /// Takes the first bytes, in the run's pieces. After each piece each job is answered with its own payload, and the
    /// second bytes are written then.
    Serves(&'static [u8], &'static [u8]),
    /// Takes these bytes at this moment, in the run's pieces.
    FeedAt(&'static [u8], u64),
    /// One front of these bytes has this length.
    Front(&'static [u8], usize),
    /// A frame ends after this number of bytes, if fronts are taken of the bytes from the position on.
    Frame(&'static [u8], usize, usize),
    /// Fronts of these bytes up to the run's cut take all of them.
    FrameToCut(&'static [u8]),
    /// Fronts of the bytes after the run's cut take all of them.
    FrameFromCut(&'static [u8]),
    /// A front of the bytes from the position on is refused with this error.
    RefusesFront(&'static [u8], usize, Told),
    /// The job that is handed out has this id, this stream and this payload.
    Takes(u64, u32, &'static [u8]),
    /// No job is handed out.
    TakesNone,
    /// The job of this id is answered with this payload.
    Answers(u64, &'static [u8]),
    /// The same with this number of bytes 7.
    AnswersSevens(u64, usize),
    /// An answer to the first job is refused with this error, twice, and the same answer is given to the second.
    AnswersAgain(u64, Told, u64, &'static [u8]),
    /// An answer to the job with this id is refused with this error, twice.
    RefusesAnswer(u64, Told),
    /// The handler of the job with this id failed.
    Breaks(u64),
    /// The same with a status with this code and message.
    BreaksBy(u64, i32, &'static str),
    /// A response with this payload is queued with this stream id.
    Responds(u32, &'static [u8]),
    /// The same with this number of bytes 7.
    RespondsSevens(u32, usize),
    /// A response without a status and a payload is queued with this stream id.
    RespondsBare(u32),
    /// A response with this stream id is refused with this error, twice.
    RefusesResponse(u32, Told),
    /// The job with this id is ended.
    Finishes(u64),
    /// The end of the job with this id is refused with this error, twice.
    RefusesFinish(u64, Told),
    /// The stream of the job with this id, if it was taken and hasn't ended.
    StreamOf(u64, Option<u32>),
    /// The next taken job that expired is this one.
    NextExpired(Option<u64>),
    /// The number of jobs that wait, and the number that were taken and haven't ended.
    Jobs(u64, u64),
    /// From now on no input is taken.
    Drains,
    /// None of these bytes are taken, whole or as a front.
    TakesNothing(&'static [u8]),
    /// Checks whether there are unsent bytes.
    HasUnsent(bool),
    /// This number of requests waits, each of its own stream, and they are answered, the last first.
    ServesLastFirst(u32),
    /// This number of requests waits, each of its own stream, and all expire at one tick, while the same number of
    /// others stays.
    JobsExpireAtOnce(u32),
    /// This number of requests waits, each of its own stream. They are taken, and expire one after the other, each at
    /// its own tick.
    JobsExpireInTurn(u32),

    // ---- of a server's streams
    /// The job that is handed out is a stream's, has no payload, and has this id and this stream.
    TakesStream(u64, u32),
    /// The stream of the job with this id is ended with a frame that closes it.
    EndsStream(u64),
    /// The same with a response with this payload.
    EndsWith(u64, &'static [u8]),
    /// The same with a response with this number of bytes 7.
    EndsWithSevens(u64, usize),
    /// The same with a response with a status with this code and message.
    EndsBy(u64, i32, &'static str),
    /// The same with an error.
    EndsByError(u64),
    /// The end of the stream of the job with this id is refused with this error, twice.
    RefusesEnd(u64, Told),
    /// This number of streams is opened, and an item comes for each. The items are received and the streams are ended,
    /// the last first.
    StreamJobsLastFirst(u32),

    // ---- of a client
    /// A call with the payload 01 02 03 and this timeout gets this id. It is made at this moment.
    Calls(i64, u64, u32),
    /// A call with this number of bytes 7 gets this id.
    CallsSevens(usize, u32),
    /// A call with an empty request gets this id.
    CallsBare(u32),
    /// Such a call is refused with this error, twice.
    RefusesBare(Told),
    /// A call is refused with this error, twice.
    RefusesCall(Told),
    /// A call with this number of bytes 7 is refused with this error, twice.
    RefusesSevens(usize, Told),
    /// The first call is refused with this error, twice: it uses no id and queues nothing, and the connection lives.
    RefusesFirstCall(Told),
    /// There is no outcome with this id.
    Waits(u32),
    /// The first call has no outcome any more, and no frame finds it again.
    IsGone,
    /// The outcome with this id is a response with this payload. If the flag is set, it has an OK status.
    Gives(u32, bool, &'static [u8]),
    /// The outcome with this id is this error.
    Ends(u32, Told),
    /// The call with this id is dropped.
    DropsCall(u32),
    /// The next call that ended is this one.
    NextEnded(Option<u32>),
    /// This number of calls is made and answered, the last first.
    CallsLastFirst(u32),
    /// This number of calls is made, every second one is dropped, and answers to all of them come, the last first.
    CallsHalfDropped(u32),
    /// This number of calls is made, and all expire at one tick.
    CallsExpireAtOnce(u32),

    // ---- of streams
    /// A stream is opened with this payload, and gets this id. The flags say whether it sends items and whether it
    /// receives them.
    Opens(bool, bool, &'static [u8], u32),
    /// A stream that sends items, or not, with this payload is refused with this error, twice.
    RefusesStream(bool, &'static [u8], Told),
    /// A stream that sends no items, with this number of bytes 7, is refused with this error, twice.
    RefusesStreamOfSevens(usize, Told),
    /// An item is sent on the stream with this id, and gets this ticket.
    Sends(u32, &'static [u8], u64),
    /// An item of this number of bytes 7 is sent on the stream with this id, and gets this ticket.
    SendsSevens(u32, usize, u64),
    /// The stream with this id is closed, with a frame with this ticket.
    Closes(u32, u64),
    /// Sending an item on the stream with this id, and closing the stream, is refused with this error, twice.
    RefusesSending(u32, Told),
    /// Sending an item is refused with this error, twice.
    RefusesItem(u32, Told),
    /// Sending an item of this number of bytes 7 is refused with this error, twice.
    RefusesSevensOn(u32, usize, Told),
    /// The next item of the stream with this id is this one.
    Receives(u32, &'static [u8]),
    /// No item of this stream has come yet.
    ReceivesNone(u32),
    /// This error comes instead of an item.
    ReceivesError(u32, Told),
    /// The receiver of the stream with this id is dropped.
    DropsReceiver(u32),
    /// The sender of the stream with this id is dropped.
    DropsSender(u32),
    /// The frame with this ticket was sent.
    IsSent(u64),
    /// The frame with this ticket wasn't sent yet.
    IsUnsent(u64),
    /// The frame with this ticket wasn't sent and never will be, for this reason.
    IsNeverSent(u64, Told),
    /// The next stream with an event is this one.
    NextHeard(Option<u32>),
    /// This number of items comes for the stream with this id, and none is received.
    ItemsCome(u32, u32),
    /// These items are received.
    ReceivesEach(u32, u32),
    /// This number of streams is opened, and an item comes for each. They are received, the last first.
    StreamsLastFirst(u32),
    /// This number of items is sent on the stream with this id, as the first ones of its connection. Each item's ticket
    /// is checked before all of them leave, and as it leaves.
    SendsEach(u32, u32),
}

/// The start of a core.
#[derive(Clone, Copy)]
pub enum Start {
    /// A new core.
    Fresh,
    /// The first call gets the last id.
    AtLastId,
    /// Requests that open streams may be bare.
    BareOpenings,
    /// An outbound half that seals nothing leaves room for this number of bytes.
    Room(usize),
}

/// How the pieces of a script are cut.
#[derive(Clone, Copy)]
pub enum Cuts {
    /// Once whole.
    Whole,
    /// Once whole, and once one byte at a time.
    WholeAndBytes,
    /// At each place inside a frame of this length, in turn.
    Inside(usize),
}

/// A script. It runs on a new core for each way of cutting.
#[derive(Clone, Copy)]
pub struct Row {
    /// The behaviour that it shows.
    pub name: &'static str,
    pub start: Start,
    pub cuts: Cuts,
    pub steps: &'static [Step],
}

/// The defaults of a row.
pub const FRESH: Row = Row {
    name: "",
    start: Start::Fresh,
    cuts: Cuts::WholeAndBytes,
    steps: &[],
};
