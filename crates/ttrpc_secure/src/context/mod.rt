//! The context of a connection: the data that are known of it, and the halves that its payloads go through.

mod connection_context;
pub mod errors;

pub use self::connection_context::{ConnectionContext, plain_context};
