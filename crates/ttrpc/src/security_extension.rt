//! What a connection goes through: the halves that seal and open payloads, the hooks that give them, and what is known of it.
pub use ttrpc_secure::{
    ACCEPT_HOOK_TIMEOUT, AcceptHook, ConnectHook, ConnectionContext, ConnectionData,
    ConnectionDataExt, Datum, HookError, HookOutput, InboundTransform, Kind, OutboundTransform,
    Plain, SendInbound, SendOutbound, TransformError, hook_result, plain_context,
};
