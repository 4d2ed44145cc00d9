//! The streams of a client, found by their ids. A function without an `alloc` argument takes no memory, except `open` and `put`.
ghost use Rattle.std.specs.Prelude.{◌≡◌, [], IfErr, IfSome, IfNone, OnOk, OnErr, None, Some, true, false};
ghost use Rattle.std.specs.Map.{remove_entry};
ghost use Rattle.std.specs.BTreeMap.{insert_entry, is_at};
ghost use Rattle.std.specs.Option.{option_map};
ghost use Rattle.std.specs.Ordering.{nat_cmp};
ghost use Rattle.ttrpc_proto.specs.declared.error.Error.{Error as AnError};
ghost use Rattle.ttrpc_connection.specs.Failure.{IsTold};
ghost use Rattle.ttrpc_client.specs.Streams.{StreamsStay, hears, is_entered, new_stream, stream_in, with_delivery, with_sender, without_reader, without_sender};
ghost use Rattle.ttrpc_client.specs.Streaming.{ReceivesAt, unsendable};

use crate::errors::{unknown_error, unsendable_error};
use std::alloc::{AllocError, Global};
use std::collections::BTreeMap;
use std::marker::Model;
use ttrpc_connection::{Failure, Mailbox, MailboxEntry, Receiver};
use ttrpc_proto::Error;
use ttrpc_wire::Blob;

/// The id of a stream. Ids are odd, and calls and streams get rising ids together.
pub type StreamId = u32;

/// The state of a stream's sender.
#[derive(Clone, Copy, Debug, Drop, PartialEq, Eq)]
pub enum Sender {
    /// The sender may send items, if the stream was opened to send them.
    Open,
    /// The sender has closed, and sends nothing more.
    Closed,
    /// The sender was dropped, and sends nothing more.
    Dropped,
}

/// The state that is kept of a stream.
#[derive(Debug, Drop)]
pub struct StreamState {
    /// True if the stream was opened to send items.
    pub streaming_client: bool,
    /// True if the stream was opened to receive items.
    pub streaming_server: bool,
    /// The state of the sender.
    pub sender: Sender,
    /// The things that came for the receiver.
    pub mailbox: Mailbox,
}

impl StreamState {
    /// Returns a stream that was just opened. Takes no memory.
    pub fn new(alloc: Global, streaming_client: bool, streaming_server: bool) -> Self
        ensures { result ≡ new_stream streaming_client streaming_server }
    {
        StreamState {
            streaming_client,
            streaming_server,
            sender: Sender::Open,
            mailbox: Mailbox::new(alloc),
        }
    }
}

/// The streams of a client, without those that have both halves dropped.
#[derive(Drop)]
pub struct Streams {
    streams: BTreeMap<StreamId, StreamState>,
}

impl Model for Streams {
    ghost use Rattle.std.specs.Prelude.{ℕ, List};
    ghost use Rattle.ttrpc_client.specs.Types.{StreamState};

    ghost Value = { List (ℕ × StreamState) };

    ghost view = { λ a. a.streams.entries };
}

impl Streams {
    /// Returns an empty map of streams. Takes no memory.
    pub fn new(alloc: Global) -> Self
        ensures { result ≡ [] }
    {
        Streams {
            streams: BTreeMap::new(alloc),
        }
    }

    /// Keeps a stream. An `Err` changes nothing.
    pub fn open(&mut self, id: StreamId, stream: StreamState) -> Result<(), AllocError>
        ensures own { OnOk result (stream_in self.new id ≡ Some stream) }
        ensures others { StreamsStay self.old id self.new }
        ensures entries { OnOk result (self.new ≡ insert_entry nat_cmp self.old id stream) }
        ensures err { OnErr result (self.new ≡ self.old) }
    {
        if self.streams.insert(id, stream).is_err() {
            return Err(AllocError);
        }
        Ok(())
    }

    /// Forgets a stream.
    pub fn forget(&mut self, id: StreamId)
        ensures entries { self.new ≡ remove_entry (is_at (nat_cmp id)) self.old }
        ensures own { stream_in self.new id ≡ None }
        ensures others { StreamsStay self.old id self.new }
    {
        let _ = self.streams.remove(&id);
    }

    /// Returns whether the stream of this id was opened to receive items. Returns none if there is no stream, or a frame has ended it.
    pub fn entered(&self, id: StreamId) -> Option<bool>
        ensures some { IfSome result
            (λ streaming_server. is_entered (stream_in self.now id) ≡ true) }
        ensures is { IfSome result (λ streaming_server. IfSome (stream_in self.now id)
            (λ s. s.streaming_server ≡ streaming_server)) }
        ensures none { IfNone result (is_entered (stream_in self.now id) ≡ false) }
    {
        let stream = self.streams.get(&id)?;
        if stream.mailbox.is_ended() {
            return None;
        }
        Some(stream.streaming_server)
    }

    /// Returns whether a frame under this id brings the stream's receiver something.
    pub fn hears(&self, id: StreamId) -> bool
        ensures { result ≡ hears (stream_in self.now id) }
    {
        match self.streams.get(&id) {
            Some(stream) => {
                !stream.mailbox.is_ended() && stream.mailbox.receiver() == Receiver::Open
            }
            None => false,
        }
    }

    /// Returns `Ok` if items may be sent on the stream of this id, or else the error why not. The error is `NoMemory` if memory for its
    /// text was refused.
    pub fn check_sendable(&self, alloc: Global, id: StreamId) -> Result<(), Error>
        ensures ok { OnOk result (unsendable (stream_in self.now id) ≡ None) }
        ensures err { IfErr result (λ told. (error : AnError)
            × (unsendable (stream_in self.now id) ≡ Some error) × IsTold error told) }
    {
        let Some(stream) = self.streams.get(&id) else {
            return Err(unknown_error(alloc));
        };
        if !stream.streaming_client {
            return Err(unsendable_error(alloc));
        }
        match stream.sender {
            Sender::Open => Ok(()),
            Sender::Closed | Sender::Dropped => Err(Error::LocalClosed),
        }
    }

    /// Puts a thing into the mailbox of a stream. If `ends` is true it is the last. An `Err` changes nothing.
    pub fn put(&mut self, id: StreamId, thing: MailboxEntry, ends: bool) -> Result<(), AllocError>
        ensures own { OnOk result
            (stream_in self.new id ≡ option_map (with_delivery thing ends) (stream_in self.old id)) }
        ensures others { StreamsStay self.old id self.new }
        ensures err { OnErr result (self.new ≡ self.old) }
    {
        let Some(stream) = self.streams.get_mut(&id) else {
            return Ok(());
        };
        stream.mailbox.put(thing, ends)
    }

    /// Takes the next item of a stream, or returns why there is none.
    pub fn recv(
        &mut self,
        alloc: Global,
        id: StreamId,
        failure: &Option<Failure>,
    ) -> Option<Result<Blob, Error>>
        ensures own { ReceivesAt failure.now (stream_in self.old id) result
            (stream_in self.new id) }
        ensures others { StreamsStay self.old id self.new }
    {
        match self.streams.get_mut(&id) {
            Some(stream) => stream.mailbox.recv(alloc, failure),
            None => Some(Err(unknown_error(alloc))),
        }
    }

    /// Marks the sender as closed.
    pub fn close(&mut self, id: StreamId)
        ensures own { stream_in self.new id ≡ with_sender Sender.Closed (stream_in self.old id) }
        ensures others { StreamsStay self.old id self.new }
    {
        if let Some(stream) = self.streams.get_mut(&id) {
            stream.sender = Sender::Closed;
        }
    }

    /// Drops the receiver. If the sender was dropped, too, the stream is forgotten.
    pub fn drop_receiver(&mut self, id: StreamId)
        ensures own { stream_in self.new id ≡ without_reader (stream_in self.old id) }
        ensures others { StreamsStay self.old id self.new }
    {
        let Some(stream) = self.streams.get_mut(&id) else {
            return;
        };
        if stream.sender == Sender::Dropped {
            let _ = self.streams.remove(&id);
            return;
        }
        stream.mailbox.drop_receiver();
    }

    /// Drops the sender. If the receiver was dropped, too, the stream is forgotten.
    pub fn drop_sender(&mut self, id: StreamId)
        ensures own { stream_in self.new id ≡ without_sender (stream_in self.old id) }
        ensures others { StreamsStay self.old id self.new }
    {
        let Some(stream) = self.streams.get_mut(&id) else {
            return;
        };
        if stream.mailbox.receiver() == Receiver::Dropped {
            let _ = self.streams.remove(&id);
            return;
        }
        stream.sender = Sender::Dropped;
    }
}
