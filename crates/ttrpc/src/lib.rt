//! ttrpc, client and server: the paths under which the other crates' items are named, and the macros of services.
//!
//! The root names what services and their callers need. Client and server at the root are those with threads.
#![tactic(auto)]

pub mod asynchronous;
pub mod context;
pub mod cores;
pub mod error;
pub mod frame;
mod macros;
pub mod proto;
pub mod security_extension;
pub mod sync;
pub mod transport;
pub mod wire;

pub use asynchronous::{
    async_client_request, async_client_stream, async_client_stream_receive,
    async_client_stream_send, async_client_streamimg_handler, async_duplex_streamimg_handler,
    async_request_handler, async_server_streamimg_handler,
};
pub use error::{Error, Result, err_to_others, get_status};
pub use proto::{Code, MessageHeader, Request, Response, Status};
pub use security_extension::{
    AcceptHook, ConnectHook, ConnectionContext, ConnectionData, ConnectionDataExt, HookError,
    HookOutput, InboundTransform, OutboundTransform,
};
pub use sync::{Client, MethodHandler, Server, TtrpcContext, send_response};
pub use ttrpc_message::calls;
