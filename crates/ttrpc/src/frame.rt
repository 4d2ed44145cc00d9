//! Frames: out of bytes, in the queue of those that are still to be written, from a reader and to a writer, also by polls.
pub use ttrpc_message::{read_message, write_message};
pub use ttrpc_polled_frames::{PollRead, PollWrite};
pub use ttrpc_proto::{FrameDecoder, Incoming, Outgoing, Queued, Sink, Source};
