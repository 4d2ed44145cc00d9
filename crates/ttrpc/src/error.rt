//! Why a call failed, and the statuses and errors that are made of a code, a message or another error.
pub use ttrpc_proto::{Error, Result, err_to_others, get_rpc_status, get_status, sock_error_msg};
