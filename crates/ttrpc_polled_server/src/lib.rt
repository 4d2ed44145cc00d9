//! The server with polled connections and handlers.
#![tactic(auto)]

mod answer_batch;
mod connection;
mod ended;
mod handler;
mod held;
mod input_end;
mod macros;
mod running;
mod server;
mod services;
mod serving;
mod settings;
mod shared;
mod stop;

pub use connection::ServerConnection;
pub use ended::Ended;
pub use handler::{MethodHandler, NoMethods, NoStreams, StreamHandler, TtrpcContext};
pub use held::PolledServerState;
pub use input_end::{InputEnd, InputEnded};
pub use running::{Handled, Running};
pub use server::Server;
pub use services::{Service, Services};
pub use serving::{Serving, TcpServerConnection};
pub use settings::Settings;
pub use shared::ServerShared;
pub use stop::{ConnectionSlot, Disconnect, Shutdown, StopListen, StopState};
pub use ttrpc_message::decode_request;
pub use ttrpc_polled::{Handling, ServerStream, ServerStreamOpening, ServerStreamReceiver};
pub use ttrpc_secure::NoHook;
pub use ttrpc_transport::{NoWatch, Watch};
