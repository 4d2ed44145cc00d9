//! The handlers of requests and streams.
ghost use Rattle.std.specs.Prelude.{◌≡◌, ℕ, List, IfErr, IfOk, IsSome, Some, None, Ok, Err};
ghost use Rattle.std.specs.Arc.{arc_value};
ghost use Rattle.ttrpc_message.specs.Metadata.{seen, some_texts, texts_of, values_at};

use crate::input_end::InputEnd;
use futures::Future;
use futures::future::{Ready, ready};
use std::alloc::Global;
use std::collections::BTreeMap;
use std::fmt;
use std::sync::Arc;
use ttrpc_message::from_pb;
use ttrpc_polled::{StreamInner, StreamLine};
use ttrpc_proto::{Error, MessageHeader, Request, Response, Result};
use ttrpc_secure::ConnectionData;

/// The context that a handler gets beside the request or the stream.
#[derive(Drop)]
pub struct TtrpcContext {
    alloc: Global,
    /// The header of the request's frame.
    pub mh: MessageHeader,
    /// The metadata of the request: texts under keys.
    pub metadata: BTreeMap<String, Vec<String>>,
    /// The time that the client waits for the response, in nanoseconds; 0 for no limit.
    pub timeout_nano: i64,
    /// The data of the connection.
    pub connection_data: Arc<ConnectionData, Global>,
    /// The end of the connection's input. When it has come, the client may be gone. `InputEnd::wait` waits for it.
    pub input_end: Arc<InputEnd, Global>,
}

impl TtrpcContext {
    /// Makes the context of a request with this header, on a connection with this data.
    pub(crate) fn new(
        alloc: Global,
        mh: MessageHeader,
        request: &Request,
        known: &Arc<ConnectionData, Global>,
        input_end: &Arc<InputEnd, Global>,
    ) -> Result<TtrpcContext>
        // The context has the header, the request's data and the connection's data.
        ensures header { IfOk result (λ context. context.mh ≡ mh) }
        ensures metadata { IfOk result (λ context. (key : List ℕ)
            → texts_of (seen context.metadata.entries) key
            ≡ some_texts (values_at request.now.metadata key)) }
        ensures timeout { IfOk result (λ context. context.timeout_nano ≡ request.now.timeout_nano) }
        ensures known { IfOk result
            (λ context. arc_value context.connection_data ≡ arc_value known.now) }
        ensures input_end { IfOk result
            (λ context. arc_value context.input_end ≡ arc_value input_end.now) }
        // An error means that memory was refused.
        ensures only_memory { IfErr result (λ e. e ≡ Error.NoMemory) }
    {
        Ok(TtrpcContext {
            alloc,
            mh,
            metadata: from_pb(alloc, request.metadata.as_slice())?,
            timeout_nano: request.timeout_nano,
            connection_data: Arc::try_clone(known)?,
            input_end: Arc::try_clone(input_end)?,
        })
    }

    /// Returns the allocator of handlers.
    pub fn alloc(&self) -> Global {
        self.alloc
    }
}

/// Shows the request's data, but not the connection.
impl fmt::Debug for TtrpcContext {
    fn fmt<W: fmt::Write>(&self, f: &mut fmt::Formatter<W>) -> fmt::Result {
        f.debug_struct("TtrpcContext")
            .field("mh", &self.mh)
            .field("metadata", &self.metadata)
            .field("timeout_nano", &self.timeout_nano)
            .finish_non_exhaustive()
    }
}

/// A handler for the requests of a method.
pub trait MethodHandler: Drop {
    /// A request that is being handled. Its result is the response, or an error. The client gets an error as a status of code UNKNOWN with
    /// the error's text. The call is dropped when the request's deadline has passed, when the connection has failed, and a limited time
    /// after the connection's input has ended.
    type Call: Future<Output = Result<Response>>;

    /// Begins to handle a request. All work before this call returns holds up the whole connection.
    fn handler(&self, ctx: TtrpcContext, req: Request) -> Self::Call
        ensures { Self.Call.can_poll result };
}

/// A handler for the streams of a name.
pub trait StreamHandler<L: StreamLine>: Drop {
    /// A stream that is being handled. Its result ends the stream: a response, `None` for a frame that closes it, or an error. The client
    /// gets an error as a status of code UNKNOWN with the error's text.
    type Call: Future<Output = Result<Option<Response>>>;

    /// Begins to handle a stream.
    fn handler(&self, ctx: TtrpcContext, stream: StreamInner<L>) -> Self::Call
        ensures { Self.Call.can_poll result };
}

/// The methods of a service that has none. Under a name it would answer with `LocalClosed`.
#[derive(Clone, Copy, Debug)]
pub struct NoMethods {}

impl MethodHandler for NoMethods {
    type Call = Ready<Result<Response>>;

    fn handler(&self, _ctx: TtrpcContext, _req: Request) -> Ready<Result<Response>>
        ensures can { IsSome result.0 }
        ensures closed { result.0 ≡ Some (Err Error.LocalClosed) }
    {
        ready(Err(Error::LocalClosed))
    }
}

/// The streams of a service that has none. Under a name it would close each at once.
#[derive(Clone, Copy, Debug)]
pub struct NoStreams {}

impl<L: StreamLine> StreamHandler<L> for NoStreams {
    type Call = Ready<Result<Option<Response>>>;

    fn handler(
        &self,
        _ctx: TtrpcContext,
        _stream: StreamInner<L>,
    ) -> Ready<Result<Option<Response>>>
        ensures can { IsSome result.0 }
        ensures closes { result.0 ≡ Some (Ok None) }
    {
        ready(Ok(None))
    }
}
