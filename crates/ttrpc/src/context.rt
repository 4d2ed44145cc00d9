//! What goes with a request beside its payload: metadata, and how long it may take.
pub use ttrpc_message::{Context, from_pb, to_pb, with_duration, with_metadata, with_timeout};
