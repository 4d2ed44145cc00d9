//! The macros of services with polled handlers.

/// Handles a request in `MethodHandler::handler`: decodes it, and calls the method of `self.service` with the context and the value. The
/// method returns a future of the answer. The macro makes the handler's call, of type `Handling<F, Responds<P>>`. The request's type is a
/// path, or a module beside this one and a name in it.
#[macro_export]
macro_rules! async_request_handler {
    ($class:ident, $ctx:ident, $req:ident, $req_type:path, $req_fn:ident) => {
        match $crate::decode_request::<$req_type>($ctx.alloc(), $req.payload.as_slice()) {
            Ok(message) => $crate::Handling::runs(
                $ctx.alloc(),
                $class.service.$req_fn(&$ctx, message),
            ),
            Err(error) => $crate::Handling::refused($ctx.alloc(), error),
        }
    };
    ($class:ident, $ctx:ident, $req:ident, $server:ident, $req_type:ident, $req_fn:ident) => {
        $crate::async_request_handler!($class, $ctx, $req, super::$server::$req_type, $req_fn)
    };
}

/// Handles a stream of a client in `StreamHandler::handler`: calls the method of `self.service` with the context and a
/// `ServerStreamReceiver`. The method returns a future of the answer. The macro makes the handler's call, of type `Handling<F, EndsBy<P>>`.
#[macro_export]
macro_rules! async_client_streamimg_handler {
    ($class:ident, $ctx:ident, $inner:ident, $req_fn:ident) => {
        $crate::Handling::runs(
            $ctx.alloc(),
            $class.service.$req_fn(
                &$ctx,
                $crate::ServerStreamReceiver::new($inner),
            ),
        )
    };
}

/// Handles a stream of a server in `StreamHandler::handler`: calls the method of `self.service` with the context and a
/// `ServerStreamOpening`. The opening is ready with the request and the half by which to send. The macro makes the handler's call, of type
/// `Handling<F, Closes>`. The request's type is a path, or a module beside this one and a name in it.
#[macro_export]
macro_rules! async_server_streamimg_handler {
    ($class:ident, $ctx:ident, $inner:ident, $req_type:path, $req_fn:ident) => {
        $crate::Handling::runs(
            $ctx.alloc(),
            $class.service.$req_fn(
                &$ctx,
                $crate::ServerStreamOpening::<$req_type, _, _>::new(
                    $ctx.alloc(),
                    $inner,
                ),
            ),
        )
    };
    ($class:ident, $ctx:ident, $inner:ident, $server:ident, $req_type:ident, $req_fn:ident) => {
        $crate::async_server_streamimg_handler!(
            $class,
            $ctx,
            $inner,
            super::$server::$req_type,
            $req_fn
        )
    };
}

/// Handles a stream of both sides in `StreamHandler::handler`: calls the method of `self.service` with the context and a `ServerStream`.
/// The macro makes the handler's call, of type `Handling<F, Closes>`.
#[macro_export]
macro_rules! async_duplex_streamimg_handler {
    ($class:ident, $ctx:ident, $inner:ident, $req_fn:ident) => {
        $crate::Handling::runs(
            $ctx.alloc(),
            $class
                .service
                .$req_fn(&$ctx, $crate::ServerStream::new($inner)),
        )
    };
}
