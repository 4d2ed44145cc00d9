//! Handlers that the threads of a connection share.
use crate::connection::context::MethodHandler;
use ttrpc_secure::{InboundTransform, OutboundTransform};
use ttrpc_sync::Host;

/// A handler of methods that the threads of a connection share.
pub trait SharedHandler<
    R: Host,
    O: OutboundTransform + Drop,
    I: InboundTransform + Drop,
>: MethodHandler<R, O, I>
    + Send
    + Sync
    + Drop
    + 'static {}

impl<R, O, I, H> SharedHandler<R, O, I> for H
where
    R: Host,
    O: OutboundTransform + Drop,
    I: InboundTransform + Drop,
    H: MethodHandler<R, O, I> + Send + Sync + Drop + 'static,
{}
