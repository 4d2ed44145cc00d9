//! Client and server with threads, and the loops that they are made of.
pub use ttrpc_sync::{
    Gate, Handler, Host, JobPort, PortState, ReadPort, Runtime, WritePort, read_loop, work_loop,
    write_loop,
};
pub use ttrpc_sync_client::{Client, ClientHeld, ClientRead, ClientWrite};
pub use ttrpc_sync_server::{
    Conn, MethodHandler, NoHook, NoWatch, Refusal, Server, ServerHeld, ServerJobs, ServerRead,
    ServerWrite, Settings, SharedHandler, SharedHook, SharedWatch, Stopper, TtrpcContext, Watch,
    response_error_to_channel, send_response,
};
