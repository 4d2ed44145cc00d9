//! The parts of a polled connection that know neither core: the two ends for bytes in and out, the alarm for deadlines, and the link. The
//! link moves bytes between the ends and the state under the connection's lock. The module `streams` has the streams of such a connection,
//! over the calls that either core has for a stream.
#![tactic(auto)]

mod alarm;
mod held;
mod link;
mod listener;
mod piece;
mod read_buffer;
mod reader;
mod room;
mod share;
mod socket;
pub mod streams;
mod wakers;
mod write_buffer;

pub use alarm::{Alarm, Timed};
pub use held::{PolledState, SharedConnection};
pub use link::{ConnectionDriver, Step};
pub use listener::Listener;
pub use piece::Piece;
pub use read_buffer::{READ_BUFFER_AT_REST, READ_BUFFER_AT_WORK, ReadBuffer};
pub use reader::SocketReader;
pub use room::{RoomWakers, sooner};
pub use share::{POLL_JOBS, POLL_TIME, Share};
pub use socket::{Connecting, Socket, SocketConnect};
pub use streams::{
    CSReceiver, CSReceiverRecv, CSSender, ClientStream, ClientStreamSender,
    ClientStreamSenderCloseAndRecv, Closes, Closing, EndsBy, Handling, HandlingAt, Kind, Responds,
    SSReceiver, SSReceiverRecv, SSSender, SenderSeat, Sending, ServerStream, ServerStreamOpening,
    ServerStreamReceiver, ServerStreamSender, StreamInner, StreamLine, StreamReceiver,
    StreamReceiverRecv, StreamSender, StreamSenderCloseSend, StreamSenderSend, StreamWakers,
    Telling, sending_of,
};
pub use ttrpc_transport::moment;
pub use wakers::Wakers;
pub use write_buffer::{WRITE_BUFFER_AT_REST, WRITE_BUFFER_LIMIT, WriteBuffer};
