//! The results that a receiver gets for each event that comes first in its mailbox, and at each next call.
use crate::vectors::Given::{self, *};
use crate::vectors::Told::*;
use crate::vectors::{DISCONNECTED, PAST};

/// An event in a mailbox.
#[derive(Clone, Copy, Debug, PartialEq, Eq)]
pub enum Thing {
    /// Data without the flag of the last item.
    Item,
    /// Data with that flag, and without the flag that it is no item.
    LastItem,
    /// The payload of a request with the flag of the last item, which opens a stream of a server.
    OnlyItem,
    /// Data with both flags, and no payload.
    Close,
    /// Data with both flags, and a payload.
    CloseWithData,
    /// Data for a stream that a client has opened to receive no items.
    UnaskedData,
    /// A response with an OK status, to a client.
    OkResponse,
    /// A response with another status.
    RefusedResponse,
    /// A response that can't be read.
    UnreadableResponse,
    /// An error.
    Error,
}

use Thing::*;

/// The events that come to a client.
#[rattlefmt::skip]
pub const CLIENT_THINGS: &[Thing] = &[
    Item, LastItem, Close, CloseWithData, UnaskedData, OkResponse, RefusedResponse, UnreadableResponse, Error,
];

/// The events that come to a server.
pub const SERVER_THINGS: &[Thing] = &[Item, LastItem, OnlyItem, Close, CloseWithData, Error];

/// How the stream is opened.
#[derive(Clone, Copy, Debug, PartialEq, Eq)]
pub enum Opening {
    /// By a client, to receive items.
    ToReceive,
    /// By a client, to receive none.
    ToSend,
    /// By the first of the frames, at a server.
    ByFrame,
}

use Opening::*;

/// An event, and the results that the receiver of stream 1 gets for it.
#[derive(Clone, Copy)]
pub struct MailboxVector {
    pub thing: Thing,
    pub opening: Opening,
    pub bytes: &'static [u8],
    /// If true, the input ends after the frames.
    pub ends: bool,
    /// The results in turn. The last one is repeated.
    pub gives: &'static [Given],
}

/// The defaults of a client's vector.
const HEARD: MailboxVector = MailboxVector {
    thing: Item,
    opening: ToReceive,
    bytes: b"",
    ends: false,
    gives: &[],
};

/// The defaults of a server's vector.
const SERVED: MailboxVector = MailboxVector {
    opening: ByFrame,
    ..HEARD
};

/// The vectors of a client: at least one for each event.
#[rattlefmt::skip]
pub const CLIENT_MAILBOX: &[MailboxVector] = &[
    MailboxVector { thing: Item, bytes: b"\0\0\0\x01\0\0\0\x01\x03\0a\0\0\0\0\0\0\0\x01\x03\x02\0\0\0\x01\0\0\0\x01\x03\x04b", gives: &[Payload(b"a"), Payload(b""), Payload(b"b"), Nothing], ..HEARD },
    MailboxVector { thing: LastItem, bytes: b"\0\0\0\x01\0\0\0\x01\x03\x01z", gives: &[Payload(b"z"), Refusal(RemoteClosed)], ..HEARD },
    MailboxVector { thing: LastItem, bytes: b"\0\0\0\0\0\0\0\x01\x03\x01", gives: &[Payload(b""), Refusal(RemoteClosed)], ..HEARD },
    MailboxVector { thing: Close, bytes: b"\0\0\0\0\0\0\0\x01\x03\x05", gives: &[Refusal(Eof), Refusal(RemoteClosed)], ..HEARD },
    MailboxVector { thing: CloseWithData, bytes: b"\0\0\0\x01\0\0\0\x01\x03\x05z", gives: &[Refusal(Others("stream 1: close message cannot include data")), Refusal(RemoteClosed)], ..HEARD },
    MailboxVector { thing: UnaskedData, opening: ToSend, bytes: b"\0\0\0\x01\0\0\0\x01\x03\0z", gives: &[Refusal(Others("received data from non-streaming server.")), Refusal(RemoteClosed)], ..HEARD },
    MailboxVector { thing: UnaskedData, opening: ToSend, bytes: b"\0\0\0\x01\0\0\0\x01\x03\x01z", gives: &[Refusal(Others("received data from non-streaming server.")), Refusal(RemoteClosed)], ..HEARD },
    MailboxVector { thing: UnaskedData, opening: ToSend, bytes: b"\0\0\0\0\0\0\0\x01\x03\x05", gives: &[Refusal(Others("received data from non-streaming server.")), Refusal(RemoteClosed)], ..HEARD },
    MailboxVector { thing: UnaskedData, opening: ToSend, bytes: b"\0\0\0\x01\0\0\0\x01\x03\x05z", gives: &[Refusal(Others("received data from non-streaming server.")), Refusal(RemoteClosed)], ..HEARD },
    MailboxVector { thing: OkResponse, bytes: b"\0\0\0\x05\0\0\0\x01\x02\xef\x0a\0\x12\x01\x2a", gives: &[Payload(b"\x2a"), Refusal(RemoteClosed)], ..HEARD },
    MailboxVector { thing: OkResponse, opening: ToSend, bytes: b"\0\0\0\x05\0\0\0\x01\x02\0\x0a\0\x12\x01\x2a", gives: &[Payload(b"\x2a"), Refusal(RemoteClosed)], ..HEARD },
    MailboxVector { thing: RefusedResponse, bytes: b"\0\0\0\x0a\0\0\0\x01\x02\0\x0a\x08\x08\x05\x12\x04gone", gives: &[Refusal(Status(5, "gone")), Refusal(RemoteClosed)], ..HEARD },
    MailboxVector { thing: UnreadableResponse, bytes: b"\0\0\0\x03\0\0\0\x01\x02\0\x0a\x05a", gives: &[Refusal(Begins("Decode message failed.")), Refusal(RemoteClosed)], ..HEARD },
    MailboxVector { thing: Error, bytes: b"\0\0\0\0\0\0\0\x01\0\0", gives: &[Refusal(Others("Receiver got malformed packet: type 0, flags 0, stream 1")), Refusal(PAST)], ..HEARD },
    MailboxVector { thing: Error, bytes: b"\0\0\0\x01\0\0\0\x01\x03\0z", ends: true, gives: &[Payload(b"z"), Refusal(DISCONNECTED), Refusal(PAST)], ..HEARD },
];

/// The same for a server with async rules.
#[rattlefmt::skip]
pub const SERVER_MAILBOX: &[MailboxVector] = &[
    MailboxVector { thing: Item, bytes: b"\0\0\0\x11\0\0\0\x01\x01\x06\x0a\x09demo.Echo\x12\x04Chat\0\0\0\x01\0\0\0\x01\x03\0a\0\0\0\0\0\0\0\x01\x03\x04", gives: &[Payload(b"a"), Payload(b""), Nothing], ..SERVED },
    MailboxVector { thing: LastItem, bytes: b"\0\0\0\x11\0\0\0\x01\x01\x06\x0a\x09demo.Echo\x12\x04Chat\0\0\0\x01\0\0\0\x01\x03\x01z", gives: &[Payload(b"z"), Refusal(RemoteClosed)], ..SERVED },
    MailboxVector { thing: OnlyItem, bytes: b"\0\0\0\x14\0\0\0\x01\x01\x01\x0a\x09demo.Echo\x12\x04Chat\x1a\x01\x2a", gives: &[Payload(b"\x2a"), Refusal(RemoteClosed)], ..SERVED },
    MailboxVector { thing: OnlyItem, bytes: b"\0\0\0\x11\0\0\0\x01\x01\x01\x0a\x09demo.Echo\x12\x04Chat", gives: &[Payload(b""), Refusal(RemoteClosed)], ..SERVED },
    MailboxVector { thing: Close, bytes: b"\0\0\0\x11\0\0\0\x01\x01\x06\x0a\x09demo.Echo\x12\x04Chat\0\0\0\0\0\0\0\x01\x03\x05", gives: &[Refusal(Eof), Refusal(RemoteClosed)], ..SERVED },
    MailboxVector { thing: CloseWithData, bytes: b"\0\0\0\x11\0\0\0\x01\x01\x06\x0a\x09demo.Echo\x12\x04Chat\0\0\0\x01\0\0\0\x01\x03\x05z", gives: &[Refusal(Others("stream 1: close message cannot include data")), Refusal(RemoteClosed)], ..SERVED },
    MailboxVector { thing: Error, bytes: b"\0\0\0\x11\0\0\0\x01\x01\x06\x0a\x09demo.Echo\x12\x04Chat\0\0\0\x01\0\0\0\x01\x03\0z", ends: true, gives: &[Payload(b"z"), Refusal(DISCONNECTED), Refusal(PAST)], ..SERVED },
];
