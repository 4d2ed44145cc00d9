//! The messages of the service.
pub use ttrpc::proto::KeyValue;
