//! The events that may happen to a client and a server over two pipes, and the replies to them.

use ttrpc_client::CallId;
use ttrpc_proto::{Error, Request, Response};
use ttrpc_server::{Job, JobId};
use ttrpc_wire::Blob;

/// One of the two sides.
#[derive(Clone, Copy, Debug, PartialEq, Eq)]
pub enum Side {
    Client,
    Server,
}

/// One end of a stream: the client's by the stream id, the server's by the id of its job.
#[derive(Clone, Copy, Debug, PartialEq, Eq)]
pub enum StreamEnd {
    Client(CallId),
    Server(JobId),
}

/// An event that may happen.
#[derive(Debug, Drop)]
pub enum Event {
    /// The client makes a call with this request, at the last moment.
    Call(Request),
    /// The client opens a stream with this request. The first flag is true if the client sends items, the second if the
    /// server does.
    Open(Request, bool, bool),
    /// The client asks for the outcome of a call.
    Outcome(CallId),
    /// A side asks for the next item of a stream.
    Recv(StreamEnd),
    /// A side sends an item on a stream.
    Send(StreamEnd, Blob),
    /// The client closes its half of a stream.
    Close(CallId),
    /// The client forgets a call.
    DropCall(CallId),
    /// A side drops a stream's receiver.
    DropReceiver(StreamEnd),
    /// The client drops a stream's sender.
    DropSender(CallId),
    /// The server is asked for a job.
    Take,
    /// The server answers a job that was taken with its handler's result.
    Answer(JobId, Result<Response, Error>),
    /// The server responds to a job that was taken, and the job goes on. A job has at most one response or answer.
    Respond(JobId, Response),
    /// The server ends a job that was taken, and sends nothing.
    Finish(JobId),
    /// The server ends a stream's job with its handler's result.
    EndStream(JobId, Result<Option<Response>, Error>),
    /// The server takes no more input.
    Drain,
    /// This moment, in nanoseconds, has come.
    Tick(u64),
    /// A side lends at most this many bytes. They move into the pipe to the other side, and are reported as written.
    Carry(Side, usize),
    /// At most this many of the bytes in the pipe to a side are fed to it.
    Deliver(Side, usize),
    /// The pipe to a side is cut: its first bytes, at most this many, are kept, and the others and all later ones are
    /// lost. After the kept bytes are delivered, the side's input ends.
    Cut(Side, usize),
    /// A side's connection is failed.
    Fail(Side),
}

/// The reply to an event.
#[derive(Debug, Drop)]
pub enum Reply {
    /// The id of the call or the stream.
    Named(CallId),
    /// The ticket of the frame that was sent.
    Ticket(u64),
    /// The outcome, if there is one.
    Outcome(Option<Result<Response, Error>>),
    /// The item or the error for the receiver, if there is one.
    Item(Option<Result<Blob, Error>>),
    /// The job, if one waited.
    Handed(Option<Job>),
    /// The event was done.
    Done,
    /// The number of bytes that were moved.
    Count(usize),
    /// The event was refused and nothing changed, or the connection failed at the delivered bytes.
    Refused(Error),
    /// Memory for the event itself was refused, and nothing was done.
    NoMemory,
    /// An event of this kind can't happen here, and nothing was done.
    NoStep,
}

/// An event and its reply.
#[derive(Debug, Drop)]
pub struct Entry {
    pub event: Event,
    pub reply: Reply,
}

/// The events that happened with their replies, in order.
pub type Trace = Vec<Entry>;
