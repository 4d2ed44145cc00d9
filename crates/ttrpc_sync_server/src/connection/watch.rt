//! A watch that the threads of a server share.
use ttrpc_transport::Watch;

/// A watch that the threads of a server share.
pub trait SharedWatch: Watch + Send + Sync + Drop + 'static {}

impl<W: Watch + Send + Sync + Drop + 'static> SharedWatch for W {}
