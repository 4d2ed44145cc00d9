//! The hooks of a server.
use ttrpc_secure::AcceptHook;
use ttrpc_transport::PipeConnection;

/// A hook that the threads of a server share.
pub trait SharedHook: AcceptHook<PipeConnection> + Send + Sync + Drop + 'static {}

impl<A: AcceptHook<PipeConnection> + Send + Sync + Drop + 'static> SharedHook for A {}
