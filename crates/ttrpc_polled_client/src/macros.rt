//! The macros of clients with polled calls.

/// Makes the call of a method by `self.client`, with the value that is lent as `$req`. The result is a `ClientCall`, which takes the
/// payload of its response into the value `$cres`. The context is used up.
#[macro_export]
macro_rules! async_client_request {
    ($self:ident, $ctx:ident, $req:ident, $server:expr, $method:expr, $cres:ident) => {
        $crate::call_of(&$self.client, $server, $method, $ctx, $req, $cres)
    };
}

/// Opens a stream of both sides by `self.client`: a `ClientOpening`, which is ready with a `ClientStream`.
#[macro_export]
macro_rules! async_client_stream {
    ($self:ident, $ctx:ident, $server:expr, $method:expr) => {
        $crate::open_of(&$self.client, $server, $method, $ctx, true)
    };
}

/// Opens a stream of the client by `self.client`: a `ClientOpening`, which is ready with a `ClientStreamSender`.
#[macro_export]
macro_rules! async_client_stream_send {
    ($self:ident, $ctx:ident, $server:expr, $method:expr) => {
        $crate::open_of(&$self.client, $server, $method, $ctx, false)
    };
}

/// Opens a stream of the server by `self.client`, with the value that is lent as `$req`: a `ClientOpening`, which is ready with
/// a `ClientStreamReceiver`.
#[macro_export]
macro_rules! async_client_stream_receive {
    ($self:ident, $ctx:ident, $req:ident, $server:expr, $method:expr) => {
        $crate::open_with(&$self.client, $server, $method, $ctx, $req)
    };
}
