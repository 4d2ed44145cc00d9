//! The calls of a client core on its streams. A call without an `alloc` argument takes no memory.
ghost use Rattle.std.specs.Prelude.{◌≡◌, ◌≤◌, ◌++◌, [], length, option_to_list, IfOk, IfErr, OnOk, OnErr, IfNone};
ghost use Rattle.ttrpc_proto.specs.Framing.Queue.{free};
ghost use Rattle.ttrpc_secure.specs.Sends.{joined, needed};
ghost use Rattle.ttrpc_connection.specs.Failure.{TellsSent};
ghost use Rattle.ttrpc_connection.specs.Frames.{safe_limit};
ghost use Rattle.ttrpc_connection.specs.Items.{close_flags};
ghost use Rattle.ttrpc_connection.specs.Outbox.{is_sent};
ghost use Rattle.ttrpc_client.specs.Streaming.{DropsReceiver, DropsSender, IsOpeningFrame, OpensStream, ReceivesOne, RefusesSending, RefusesStream, SendsOn, opening_flags};
ghost use Rattle.ttrpc_client.specs.Inside.{BeginsStream, MayRefuse};
ghost use Rattle.ttrpc_client.specs.declared.streams.Sender.{Sender as ASender};

use crate::client::ClientCore;
use crate::errors::{advice, payload_error};
use crate::streams::{StreamId, StreamState};
use std::alloc::Global;
use ttrpc_connection::Ticket;
use ttrpc_connection::items::{CLOSE_FLAGS, send_data, stream_frame, unsent_error};
use ttrpc_connection::parts::parts_of;
use ttrpc_proto::{
    Error, FLAG_NO_DATA, FLAG_REMOTE_CLOSED, FLAG_REMOTE_OPEN, MESSAGE_TYPE_REQUEST, Queued,
    Request,
};
use ttrpc_secure::sending::{DataParts, SendError};
use ttrpc_secure::{InboundTransform, OutboundTransform, TransformError};
use ttrpc_wire::Blob;

impl<O: OutboundTransform + Drop, I: InboundTransform + Drop> ClientCore<O, I> {
    /// Opens a stream, to send items, to receive them, or both: seals and queues its request under the next id, and returns the id. If the
    /// stream is to send items the request has no payload, and else the payload is the one item. A stream has no deadline. A refusal
    /// changes nothing.
    pub fn new_stream(
        &mut self,
        alloc: Global,
        request: &Request,
        streaming_client: bool,
        streaming_server: bool,
    ) -> Result<StreamId, Error>
        ensures ok { IfOk result (λ id. OpensStream O.OutboundTransform self.old request.now
            streaming_client streaming_server id self.new) }
        ensures refused { IfErr result
            (RefusesStream O.OutboundTransform self.old request.now streaming_client) }
        ensures err { OnErr result (self.new ≡ self.old) }
    {
        let size = self.check_request(alloc, request)?;
        if streaming_client && !request.payload.is_empty() {
            return Err(payload_error(alloc));
        }
        let (id, around) = self.write_request(alloc, request, size)?;
        let parts = parts_of(request, &around);
        match self.begin_stream(alloc, id, parts, streaming_client, streaming_server) {
            Ok(()) => Ok(id),
            Err(refused) => Err(unsent_error(alloc, &refused)),
        }
    }

    /// Keeps a new stream, and seals and queues its request, which is no longer than the limit. An `Err` changes nothing.
    fn begin_stream(
        &mut self,
        alloc: Global,
        id: StreamId,
        parts: DataParts<'_>,
        streaming_client: bool,
        streaming_server: bool,
    ) -> Result<(), TransformError>
        // The id is the next one, and the request fits, also into the queue.
        requires next { id ≡ self.old.state.next }
        requires fits { length (joined parts)
            ≤ safe_limit O.OutboundTransform self.old.connection.outbox.half }
        requires room { needed O.OutboundTransform self.old.connection.outbox.half (joined parts)
            ≤ free self.old.connection.outbox.queue }
        // The stream is kept, and its request is queued. Or memory was refused, or the half refused the request, and nothing changed.
        ensures ok { OnOk result (BeginsStream O.OutboundTransform self.old streaming_client
            streaming_server id (joined parts.entry) self.new) }
        ensures refused { IfErr result (MayRefuse O.OutboundTransform self.old
            (IsOpeningFrame streaming_client id) (joined parts.entry)) }
        ensures err { OnErr result (self.new ≡ self.old) }
    {
        let stream = StreamState::new(alloc, streaming_client, streaming_server);
        if self.state.admit_stream(id, stream).is_err() {
            return Err(TransformError::NoMemory);
        }
        let frame = opening_frame(alloc, id, streaming_client);
        match self.connection.outbox.send(alloc, frame, parts) {
            Ok(()) => Ok(()),
            Err(SendError::Failed(error)) => {
                self.state.undo_admit_stream(id);
                Err(error)
            }
            Err(SendError::TooLong | SendError::NoRoom) => unreachable!(),
        }
    }

    /// Seals and queues an item on a stream that was opened to send items, and returns the frame's ticket. A refusal changes nothing.
    pub fn send(&mut self, alloc: Global, id: StreamId, item: &[u8]) -> Result<Ticket, Error>
        ensures ok { IfOk result (λ ticket. SendsOn O.OutboundTransform self.old id 0 item.now
            ASender.Open ticket self.new) }
        ensures refused { IfErr result (RefusesSending O.OutboundTransform self.old id 0 item.now) }
        ensures err { OnErr result (self.new ≡ self.old) }
    {
        self.send_frame(alloc, id, 0, item)
    }

    /// Closes the sending half of a stream: seals and queues a frame that no more items come, and returns its ticket. A refusal changes
    /// nothing.
    pub fn close_send(&mut self, alloc: Global, id: StreamId) -> Result<Ticket, Error>
        ensures ok { IfOk result (λ ticket. SendsOn O.OutboundTransform self.old id close_flags []
            ASender.Closed ticket self.new) }
        ensures refused { IfErr result
            (RefusesSending O.OutboundTransform self.old id close_flags []) }
        ensures err { OnErr result (self.new ≡ self.old) }
    {
        let ticket = self.send_frame(alloc, id, CLOSE_FLAGS, &[])?;
        self.state.close(id);
        Ok(ticket)
    }

    /// Seals and queues data in a frame of these flags, and returns its ticket. A refusal changes nothing.
    fn send_frame(
        &mut self,
        alloc: Global,
        id: StreamId,
        flags: u8,
        plain: &[u8],
    ) -> Result<Ticket, Error>
        ensures ok { IfOk result (λ ticket. SendsOn O.OutboundTransform self.old id flags plain.now
            ASender.Open ticket self.new) }
        ensures refused { IfErr result
            (RefusesSending O.OutboundTransform self.old id flags plain.now) }
        ensures err { OnErr result (self.new ≡ self.old) }
    {
        self.connection.check_alive(alloc)?;
        self.state.check_sendable(alloc, id)?;
        let advice = advice(self.state.kind());
        send_data(alloc, &mut self.connection.outbox, advice, id, flags, plain)
    }

    /// Takes the next item of a stream, or returns the error why there is none, or `None` if none came yet. If the connection has failed,
    /// the failure comes after all things that came. If memory for an error's text was refused the call returns `NoMemory`, and changes
    /// nothing.
    pub fn recv(&mut self, alloc: Global, id: StreamId) -> Option<Result<Blob, Error>>
        ensures { ReceivesOne self.old id result self.new }
    {
        self.state.recv(alloc, id, self.connection.why())
    }

    /// Drops the receiver of a stream. The things that come for the stream are thrown away. After both halves were dropped its id is
    /// unknown.
    pub fn drop_receiver(&mut self, id: StreamId)
        ensures { DropsReceiver self.old id self.new }
    {
        self.state.drop_receiver(id);
    }

    /// Drops the sender of a stream, which sends nothing to the other side. After both halves were dropped its id is unknown.
    pub fn drop_sender(&mut self, id: StreamId)
        ensures { DropsSender self.old id self.new }
    {
        self.state.drop_sender(id);
    }

    /// Returns `Ok` after the frame of this ticket was reported whole, and until then the failure, if the connection has failed. If memory
    /// for the failure's text was refused the error is `NoMemory`. A ticket that was never given belongs to no frame.
    pub fn sent(&self, alloc: Global, ticket: Ticket) -> Option<Result<(), Error>>
        ensures { TellsSent (is_sent self.now.connection.outbox.queue ticket)
            self.now.connection.failure result }
    {
        self.connection.sent(alloc, ticket)
    }

    /// Takes the first of the streams for which something came, and that weren't reported by this call since. Streams with a dropped
    /// receiver aren't reported, and a failure isn't reported here. No more ids are kept than there are such streams.
    pub fn next_heard(&mut self) -> Option<StreamId>
        ensures first { self.old.state.heard ≡ option_to_list result ++ self.new.state.heard }
        ensures none { IfNone result (self.old.state.heard ≡ []) }
        ensures same { self.new
            ≡ record self.old { state = record self.old.state { heard = self.new.state.heard } } }
    {
        self.state.next_heard()
    }
}

/// Returns the frame for the request of a stream, without its payload.
fn opening_frame(alloc: Global, id: StreamId, streaming_client: bool) -> Queued
    ensures { IsOpeningFrame streaming_client id result }
{
    let flags = if streaming_client {
        FLAG_REMOTE_OPEN | FLAG_NO_DATA
    } else {
        FLAG_REMOTE_CLOSED
    };
    stream_frame(alloc, id, MESSAGE_TYPE_REQUEST, flags, None)
}
