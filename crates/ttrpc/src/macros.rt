//! The macros of services and of their clients.

/// Handles a request in `MethodHandler::handler`: decodes it, calls the method of `self.service` with the context and the
/// value, and responds. The request's type is a path, or a module beside this one and a name in it.
#[macro_export]
macro_rules! request_handler {
    ($class:ident, $ctx:ident, $req:ident, $req_type:path, $req_fn:ident) => {
        let alloc = $ctx.alloc();
        let message = $crate::calls::decode_request::<$req_type>(alloc, $req.payload.as_slice())?;
        let answer = $class.service.$req_fn(&$ctx, message);
        $ctx.respond(
            $ctx.mh.stream_id,
            $crate::calls::response_of(alloc, answer)?,
        )?
    };
    ($class:ident, $ctx:ident, $req:ident, $server:ident, $req_type:ident, $req_fn:ident) => {
        $crate::request_handler!($class, $ctx, $req, super::$server::$req_type, $req_fn)
    };
}

/// Handles a request as `request_handler!` does, but answers a payload that means no value with the status
/// INVALID_ARGUMENT, so that the connection goes on.
#[macro_export]
macro_rules! checked_request_handler {
    ($class:ident, $ctx:ident, $req:ident, $req_type:path, $req_fn:ident) => {
        let alloc = $ctx.alloc();
        let payload = $req.payload.as_slice();
        let answer = match $crate::calls::checked_request::<$req_type>(alloc, payload) {
            Ok(message) => $class.service.$req_fn(&$ctx, message),
            Err(error) => Err(error),
        };
        $ctx.respond(
            $ctx.mh.stream_id,
            $crate::calls::response_of(alloc, answer)?,
        )?
    };
    ($class:ident, $ctx:ident, $req:ident, $server:ident, $req_type:ident, $req_fn:ident) => {
        $crate::checked_request_handler!($class, $ctx, $req, super::$server::$req_type, $req_fn)
    };
}

/// Makes a request of `self.client` with the value that is lent as `$req`, and takes the payload of its response into the
/// value `$cres`. The context is used up.
#[macro_export]
macro_rules! client_request {
    ($self:ident, $ctx:ident, $req:ident, $server:expr, $method:expr, $cres:ident) => {
        let alloc = $self.client.alloc();
        let request = $crate::calls::request_of(alloc, $server, $method, $ctx, $req)?;
        let response = $self.client.request(request)?;
        $crate::calls::merge_reply(alloc, &mut $cres, response.payload.as_slice())?;
    };
}
