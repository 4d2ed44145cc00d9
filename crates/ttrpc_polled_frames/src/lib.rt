//! Frames from a reader and to a writer that are polled. The futures do the same as the blocking forms. `taking` reads
//! a part of a frame, and `offering` writes a part of one. `reads`, `writes` and `headers` have the futures that use
//! them.
#![tactic(auto)]

pub mod headers;
pub mod offering;
pub mod reads;
pub mod taking;
pub mod writes;

pub use headers::{ReadHeader, WriteHeader};
pub use reads::{AsMessage, AsParts, AsValue, PollRead, Tells};
pub use writes::{PollWrite, WriteMessage};
