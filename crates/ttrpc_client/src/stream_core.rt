//! A client's core as a `StreamCore`.
use crate::client::ClientCore;
use crate::streams::StreamId;
use std::alloc::Global;
use ttrpc_connection::{StreamCore, Ticket};
use ttrpc_proto::Result;
use ttrpc_secure::{InboundTransform, OutboundTransform};
use ttrpc_wire::Blob;

impl<O: OutboundTransform + Drop, I: InboundTransform + Drop> StreamCore for ClientCore<O, I> {
    ghost use Rattle.std.specs.Prelude.{[]};
    ghost use Rattle.ttrpc_connection.specs.Items.{close_flags};
    ghost use Rattle.ttrpc_connection.specs.Failure.{TellsSent};
    ghost use Rattle.ttrpc_connection.specs.Outbox.{is_sent};
    ghost use Rattle.ttrpc_client.specs.Streaming.{DropsReceiver, DropsSender, ReceivesOne, RefusesSending, SendsOn};
    ghost use Rattle.ttrpc_client.specs.Types.{Closed, Open};

    type Id = StreamId;

    ghost sends = { λ old id item ticket new. SendsOn O.OutboundTransform old id
        0 item Open ticket new };

    ghost refuses = { λ old id item told. RefusesSending O.OutboundTransform old id 0 item told };

    ghost closes = { λ old id ticket new. SendsOn O.OutboundTransform old id
        close_flags [] Closed ticket new };

    ghost refuses_close = { λ old id told. RefusesSending O.OutboundTransform old
        id close_flags [] told };

    ghost stops_sending = { λ old id new. DropsSender old id new };

    ghost receives = { λ old id given new. ReceivesOne old id given new };

    ghost tells_sent = { λ c ticket told. TellsSent (is_sent c.connection.outbox.queue ticket)
        c.connection.failure told };

    ghost stops_receiving = { λ old id new. DropsReceiver old id new };

    fn send_item(&mut self, alloc: Global, id: StreamId, item: &[u8]) -> Result<Ticket> {
        self.send(alloc, id, item)
    }

    fn close_items(&mut self, alloc: Global, id: StreamId) -> Result<Ticket> {
        self.close_send(alloc, id)
    }

    fn stop_sending(&mut self, id: StreamId) {
        self.drop_sender(id);
    }

    fn recv_item(&mut self, alloc: Global, id: StreamId) -> Option<Result<Blob>> {
        self.recv(alloc, id)
    }

    fn item_sent(&self, alloc: Global, ticket: Ticket) -> Option<Result<()>> {
        self.sent(alloc, ticket)
    }

    fn stop_receiving(&mut self, id: StreamId) {
        self.drop_receiver(id);
    }
}
