//! The context that a handler gets with the request, and the calls by which it answers.
ghost use Rattle.std.specs.Prelude.{◌≡◌, ◌⊎◌, ℕ, List, [], IfErr, IfOk, IsSomeAnd};
ghost use Rattle.std.specs.Arc.{arc_value};
ghost use Rattle.ttrpc_proto.specs.ErrorText.{StandsFor, Tells};
ghost use Rattle.ttrpc_message.specs.Metadata.{seen, some_texts, texts_of, values_at};

use crate::connection::conn::Conn;
use std::alloc::Global;
use std::collections::BTreeMap;
use std::fmt;
use std::sync::Arc;
use std::sync::atomic::AtomicBool;
use ttrpc_message::from_pb;
use ttrpc_proto::{Error, MessageHeader, Request, Response, Result};
use ttrpc_secure::{InboundTransform, OutboundTransform};
use ttrpc_sync::Host;

/// The context that a handler gets with the request.
#[derive(Drop)]
pub struct TtrpcContext<R: Host, O: OutboundTransform + Drop, I: InboundTransform + Drop> {
    /// The connection by which the request came.
    pub conn: Arc<Conn<R, O, I>, Global>,
    /// The flag that is set once the client sends nothing more, or the connection has failed. Then perhaps nobody waits for the response
    /// any more.
    pub cancelled: Arc<AtomicBool, Global>,
    /// The header of the request's frame.
    pub mh: MessageHeader,
    /// The metadata of the request: texts under keys.
    pub metadata: BTreeMap<String, Vec<String>>,
    /// The time that the client waits for the response, in nanoseconds; 0 for no limit.
    pub timeout_nano: i64,
}

impl<R: Host, O: OutboundTransform + Drop, I: InboundTransform + Drop> TtrpcContext<R, O, I> {
    /// Makes the context of a request that came by this connection, with this header.
    pub(crate) fn new(
        conn: &Arc<Conn<R, O, I>, Global>,
        mh: MessageHeader,
        request: &Request,
    ) -> Result<TtrpcContext<R, O, I>>
        // The context has the connection, the header and the request's data.
        ensures conn { IfOk result (λ context. arc_value context.conn ≡ arc_value conn.now) }
        // No clause can say that the flag is the connection's own, since contracts see all flags as equal.
        ensures header { IfOk result (λ context. context.mh ≡ mh) }
        ensures metadata { IfOk result (λ context. (key : List ℕ)
            → texts_of (seen context.metadata.entries) key
            ≡ some_texts (values_at request.now.metadata key)) }
        ensures timeout { IfOk result (λ context. context.timeout_nano ≡ request.now.timeout_nano) }
        // An error means that memory was refused.
        ensures only_memory { IfErr result (λ e. e ≡ Error.NoMemory) }
    {
        Ok(TtrpcContext {
            conn: Arc::try_clone(conn)?,
            cancelled: Arc::try_clone(conn.cancelled())?,
            mh,
            metadata: from_pb(conn.alloc(), request.metadata.as_slice())?,
            timeout_nano: request.timeout_nano,
        })
    }

    /// Returns the allocator of handlers.
    pub fn alloc(&self) -> Global {
        self.conn.alloc()
    }

    /// Returns the system as handlers use it: its locks, its clock and its threads.
    pub fn rt(&self) -> &R {
        self.conn.rt()
    }

    /// Answers the request of this stream's id, as `send_response` does.
    pub fn respond(&self, stream_id: u32, res: Response) -> Result<()> {
        send_response(stream_id, res, &*self.conn)
    }
}

/// Shows the request's data, but not its connection.
impl<R: Host, O: OutboundTransform + Drop, I: InboundTransform + Drop> fmt::Debug
    for TtrpcContext<R, O, I> {
    fn fmt<W: fmt::Write>(&self, f: &mut fmt::Formatter<W>) -> fmt::Result {
        f.debug_struct("TtrpcContext")
            .field("mh", &self.mh)
            .field("metadata", &self.metadata)
            .field("timeout_nano", &self.timeout_nano)
            .finish_non_exhaustive()
    }
}

/// A handler for the requests of a method.
pub trait MethodHandler<R: Host, O: OutboundTransform + Drop, I: InboundTransform + Drop> {
    /// Handles a request, and answers it by `respond`. An error ends the connection.
    fn handler(&self, ctx: TtrpcContext<R, O, I>, req: Request) -> Result<()>;
}

/// Queues a response under a stream's id. A response that is too long for the connection is replaced by a status that says so. Refused if
/// the connection has failed, if its half doesn't seal the response, or for want of memory.
pub fn send_response<R: Host, O: OutboundTransform + Drop, I: InboundTransform + Drop>(
    stream_id: u32,
    res: Response,
    conn: &Conn<R, O, I>,
) -> Result<()> {
    conn.respond(stream_id, &res)
}

/// Queues the response for an error: the status that the error carries, or `UNKNOWN` with its text. If memory for that is refused, the
/// response reports this instead.
pub fn response_error_to_channel<R: Host, O: OutboundTransform + Drop, I: InboundTransform + Drop>(
    stream_id: u32,
    e: Error,
    conn: &Conn<R, O, I>,
) -> Result<()> {
    send_response(stream_id, response_of(conn.alloc(), e), conn)
}

/// Converts an error to a response; falls back to `NoMemory`.
fn response_of(alloc: Global, e: Error) -> Response
    ensures status { IsSomeAnd result.status (Tells e)
        ⊎ IsSomeAnd result.status (StandsFor Error.NoMemory) }
    ensures payload { result.payload ≡ [] }
{
    match e.try_into_response(alloc) {
        Ok(told) => told,
        Err(_) => Error::NoMemory.into_response(alloc),
    }
}
