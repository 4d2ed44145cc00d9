//! Streams as values that are polled, over the calls that either core has for a stream.

mod handling;
mod inner;
mod items;
mod line;
mod opening;
mod receiver;
mod sender;
mod sending;
mod typed;

pub use self::handling::{Closes, EndsBy, Handling, HandlingAt, Responds, Telling};
pub use self::inner::StreamInner;
pub use self::items::{
    CSReceiver, CSReceiverRecv, CSSender, SSReceiver, SSReceiverRecv, SSSender,
    ServerStreamReceiver, ServerStreamSender, sending_of,
};
pub use self::line::{Kind, StreamLine, StreamWakers};
pub use self::opening::ServerStreamOpening;
pub use self::receiver::{StreamReceiver, StreamReceiverRecv};
pub use self::sender::{SenderSeat, StreamSender, StreamSenderCloseSend, StreamSenderSend};
pub use self::sending::Sending;
pub use self::typed::{
    ClientStream, ClientStreamSender, ClientStreamSenderCloseAndRecv, Closing, ServerStream,
};
