//! A server's core as a `StreamCore`.
use crate::job::JobId;
use crate::server::ServerCore;
use std::alloc::Global;
use ttrpc_connection::{StreamCore, Ticket};
use ttrpc_proto::Result;
use ttrpc_secure::context::errors::others_error;
use ttrpc_secure::{InboundTransform, OutboundTransform};
use ttrpc_wire::Blob;

impl<O: OutboundTransform + Drop, I: InboundTransform + Drop> StreamCore for ServerCore<O, I> {
    ghost use Rattle.std.specs.Prelude.{◌≡◌, codes};
    ghost use Rattle.ttrpc_proto.specs.declared.error.Error.TheVariants.{Others};
    ghost use Rattle.ttrpc_connection.specs.Failure.{IsTold, TellsSent};
    ghost use Rattle.ttrpc_connection.specs.Outbox.{is_sent};
    ghost use Rattle.ttrpc_server.specs.Streaming.{ReceivesOne, RefusesItem, SendsItem, unheard};

    type Id = JobId;

    ghost sends = { λ old id item ticket new. SendsItem O.OutboundTransform
        old id item ticket new };

    ghost refuses = { λ old id item told. RefusesItem O.OutboundTransform old id item told };

    // A server ends a stream with its handler's answer, by `end_stream`.
    ghost closes = { λ old id ticket new. ⊥ };

    ghost refuses_close = { λ old id told.
        IsTold (Others (codes "a server closes a stream by ending it")) told };

    ghost stops_sending = { λ old id new. new ≡ old };

    ghost receives = { λ old id given new. ReceivesOne old id given new };

    ghost tells_sent = { λ c ticket told. TellsSent (is_sent c.connection.outbox.queue ticket)
        c.connection.failure told };

    ghost stops_receiving = { λ old id new. new ≡ unheard old id };

    fn send_item(&mut self, alloc: Global, id: JobId, item: &[u8]) -> Result<Ticket> {
        self.send(alloc, id, item)
    }

    fn close_items(&mut self, alloc: Global, _id: JobId) -> Result<Ticket> {
        let text = String::from_str(alloc, "a server closes a stream by ending it");
        Err(others_error(text))
    }

    fn stop_sending(&mut self, _id: JobId) {}

    fn recv_item(&mut self, alloc: Global, id: JobId) -> Option<Result<Blob>> {
        self.recv(alloc, id)
    }

    fn item_sent(&self, alloc: Global, ticket: Ticket) -> Option<Result<()>> {
        self.sent(alloc, ticket)
    }

    fn stop_receiving(&mut self, id: JobId) {
        self.drop_receiver(id);
    }
}
