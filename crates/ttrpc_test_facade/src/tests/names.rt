//! The names of the facade, each item with its path. The test is that this compiles. The crate of an item doesn't
//! matter to a user, so each has its path below `ttrpc` alone.

/// The root.
pub mod root {
    pub use ttrpc::{
        AcceptHook, Client, Code, ConnectHook, ConnectionContext, ConnectionData,
        ConnectionDataExt, Error, HookError, HookOutput, InboundTransform, MessageHeader,
        MethodHandler, OutboundTransform, Request, Response, Result, Server, Status, TtrpcContext,
        calls, checked_request_handler, client_request, err_to_others, get_status, request_handler,
        send_response,
    };
}

/// Values, and their messages.
pub mod values {
    pub use ttrpc::error::{
        Error, Result, err_to_others, get_rpc_status, get_status, sock_error_msg,
    };
    pub use ttrpc::proto::{
        Any, Blob, Code, Codec, CodecFailure, DEFAULT_PAGE_SIZE, FLAG_NO_DATA, FLAG_REMOTE_CLOSED,
        FLAG_REMOTE_OPEN, GenMessage, GenMessageError, KeyValue, MESSAGE_HEADER_LENGTH,
        MESSAGE_LENGTH_MAX, MESSAGE_TYPE_DATA, MESSAGE_TYPE_REQUEST, MESSAGE_TYPE_RESPONSE,
        Message, MessageHeader, Request, RequestInit, Response, ResponseInit, Sequence, Status,
        Text, TryClone, WireMessage, members,
    };
    pub use ttrpc::wire::{
        CodecError, Field, FieldNumber, Reader, Tag, Value, WireType, field_len, int32_to_varint,
        int64_to_varint, put_field, put_tag, put_varint, tag_len, varint_len, varint_to_int32,
        varint_to_int64,
    };
}

/// Frames, and the parts of a request besides its payload.
pub mod requests {
    pub use ttrpc::context::{Context, from_pb, to_pb, with_duration, with_metadata, with_timeout};
    pub use ttrpc::frame::{
        FrameDecoder, Incoming, Outgoing, PollRead, PollWrite, Queued, Sink, Source, read_message,
        write_message,
    };
}

/// The transforms and hooks of a connection.
pub mod security {
    pub use ttrpc::security_extension::{
        ACCEPT_HOOK_TIMEOUT, AcceptHook, ConnectHook, ConnectionContext, ConnectionData,
        ConnectionDataExt, Datum, HookError, HookOutput, InboundTransform, Kind, OutboundTransform,
        Plain, SendInbound, SendOutbound, TransformError, hook_result, plain_context,
    };
}

/// The cores.
pub mod cores {
    pub use ttrpc::cores::client::{CallId, ClientCore, ClientKind, StreamId, Ticket};
    pub use ttrpc::cores::pool::PoolCore;
    pub use ttrpc::cores::server::{
        Job, JobId, Registry, Rules, ServerCore, Ticket as ServerTicket,
    };
    pub use ttrpc::cores::world::{Entry, Event, Reply, Side, StreamEnd, Trace, World};
}

/// Client and server with threads, addresses and sockets, and a shutdown that threads share.
pub mod drivers {
    pub use ttrpc::asynchronous::shutdown::{Notifier, Waiter, new, with_timeout};
    pub use ttrpc::sync::{
        Client, ClientHeld, ClientRead, ClientWrite, Conn, Gate, Handler, Host, JobPort,
        MethodHandler, NoHook, NoWatch, PortState, ReadPort, Refusal, Runtime, Server, ServerHeld,
        ServerJobs, ServerRead, ServerWrite, Settings, SharedHandler, SharedHook, SharedWatch,
        Stopper, TtrpcContext, Watch, WritePort, read_loop, response_error_to_channel,
        send_response, work_loop, write_loop,
    };
    pub use ttrpc::transport::{
        ClientConnection, Domain, PipeConnection, PipeListener, Stream, nodelay_from,
        parse_sockaddr, parse_vsock,
    };
}

/// Client, server and streams that are polled.
pub mod polled {
    pub use ttrpc::asynchronous::proto::{
        AsMessage, AsParts, AsValue, PollRead, PollWrite, ReadHeader, Tells, WriteHeader,
        WriteMessage,
    };
    pub use ttrpc::asynchronous::transport::{Listener, Socket, SocketConnect};
    pub use ttrpc::asynchronous::{
        Asked, CSReceiver, CSReceiverRecv, CSSender, Client, ClientCall, ClientConnect,
        ClientConnection, ClientLine, ClientNewStream, ClientOpening, ClientRequest, ClientStream,
        ClientStreamReceiver, ClientStreamSender, ClientStreamSenderCloseAndRecv, Closes,
        Disconnect, Ended, EndsBy, Handling, Kind, MethodHandler, NoHook, NoMethods, NoStreams,
        OfStream, Opening, Responds, SSReceiver, SSReceiverRecv, SSSender, Sending, Server,
        ServerConnection, ServerShared, ServerStream, ServerStreamOpening, ServerStreamReceiver,
        ServerStreamSender, Service, Serving, Settings, Shutdown, Spawns, StopListen,
        StreamHandler, StreamInner, StreamLine, StreamReceiver, StreamReceiverRecv, StreamSender,
        StreamSenderCloseSend, StreamSenderSend, TcpConnection, TcpServerConnection, Telling,
        Timed, TtrpcContext, call_of, open_of, open_with, sending_of,
    };
    pub use ttrpc::{
        async_client_request, async_client_stream, async_client_stream_receive,
        async_client_stream_send, async_client_streamimg_handler, async_duplex_streamimg_handler,
        async_request_handler, async_server_streamimg_handler,
    };
}

/// Streams that are polled.
pub mod streams {
    pub use ttrpc::asynchronous::stream::{
        CSReceiver, CSSender, ClientStream, ClientStreamReceiver, ClientStreamSender, Kind,
        SSReceiver, SSSender, ServerStream, ServerStreamReceiver, ServerStreamSender, StreamInner,
        StreamReceiver, StreamSender,
    };
}
