//! One client and one server over two byte pipes, and the effect of each event on them.
#![tactic(auto)]

mod pair;
mod pipe;

pub use pair::Pair;
pub use ttrpc_client::ClientCore;
pub use ttrpc_server::ServerCore;
