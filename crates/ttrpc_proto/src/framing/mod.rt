//! Frames from a stream of bytes or a reader, frames to a writer, and the queue of the frames that are still to be
//! written. `header` has the ten bytes before each frame, and `streams` reads and writes bytes.

mod bytes;
pub mod failure;
pub mod frame;
mod gen_message;
pub mod header;
pub mod outgoing;
pub mod owners;
pub mod reading;
mod record;
pub mod streams;
mod told;
pub mod writing;

pub use self::frame::{FrameDecoder, Incoming};
pub use self::gen_message::{GenMessage, GenMessageError};
pub use self::header::{
    DEFAULT_PAGE_SIZE, FLAG_NO_DATA, FLAG_REMOTE_CLOSED, FLAG_REMOTE_OPEN, MESSAGE_HEADER_LENGTH,
    MESSAGE_LENGTH_MAX, MESSAGE_TYPE_DATA, MESSAGE_TYPE_REQUEST, MESSAGE_TYPE_RESPONSE,
    MessageHeader,
};
pub use self::outgoing::{OUTGOING_LENGTH_MAX, Outgoing, Queued};
pub use self::streams::{
    Passing, Sink, Source, fill, read_again, write_again, write_both, write_part,
};
