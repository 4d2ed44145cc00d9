//! Client, server and streams that are polled, without threads of their own: each call, each stream and each connection is a
//! future.
pub use ttrpc_polled::{
    CSReceiver, CSReceiverRecv, CSSender, ClientStream, ClientStreamSender,
    ClientStreamSenderCloseAndRecv, Closes, EndsBy, Handling, Kind, Responds, SSReceiver,
    SSReceiverRecv, SSSender, Sending, ServerStream, ServerStreamOpening, ServerStreamReceiver,
    ServerStreamSender, StreamInner, StreamLine, StreamReceiver, StreamReceiverRecv, StreamSender,
    StreamSenderCloseSend, StreamSenderSend, Telling, Timed, sending_of,
};
pub use ttrpc_polled_client::{
    Asked, Client, ClientCall, ClientConnect, ClientConnection, ClientLine, ClientNewStream,
    ClientOpening, ClientRequest, ClientStreamReceiver, OfStream, Opening, Spawns, TcpConnection,
    async_client_request, async_client_stream, async_client_stream_receive,
    async_client_stream_send, call_of, open_of, open_with,
};
pub use ttrpc_polled_server::{
    Disconnect, Ended, InputEnd, InputEnded, MethodHandler, NoHook, NoMethods, NoStreams, NoWatch,
    Server, ServerConnection, ServerShared, Service, Serving, Settings, Shutdown, StopListen,
    StreamHandler, TcpServerConnection, TtrpcContext, Watch, async_client_streamimg_handler,
    async_duplex_streamimg_handler, async_request_handler, async_server_streamimg_handler,
};

/// The parts and kinds of streams.
pub mod stream {
    pub use ttrpc_polled::{
        CSReceiver, CSSender, ClientStream, ClientStreamSender, Kind, SSReceiver, SSSender,
        ServerStream, ServerStreamReceiver, ServerStreamSender, StreamInner, StreamReceiver,
        StreamSender,
    };
    pub use ttrpc_polled_client::ClientStreamReceiver;
}

/// Frames from a reader and to a writer that are polled.
pub mod proto {
    pub use ttrpc_polled_frames::{
        AsMessage, AsParts, AsValue, PollRead, PollWrite, ReadHeader, Tells, WriteHeader,
        WriteMessage,
    };
}

/// Sockets of TCP that are polled.
pub mod transport {
    pub use ttrpc_polled::{Listener, Socket, SocketConnect};
}

/// A shutdown that threads share: who asks for it, who waits for it, and how many are left that wait.
pub mod shutdown {
    pub use ttrpc_shutdown::{Notifier, Waiter, new, with_timeout};
}
