//! The frames that go out: sealed, and waiting to be written. A call without an `alloc` argument takes no memory.
ghost use Rattle.std.specs.Prelude.{◌≡◌, ◌≢◌, ◌^◌, ◌-◌, true, ◌<◌, ◌≤◌, ◌+◌, ◌⊎◌, ◌↔◌, [], length, take, drop, min, Err, OnOk, OnErr, IfOk, IfErr, IfSome, IfNone};
ghost use Rattle.ttrpc_proto.specs.declared.error.Error.{Error as TheError};
ghost use Rattle.ttrpc_proto.specs.declared.framing.outgoing.TheConstants.{OUTGOING_LENGTH_MAX};
ghost use Rattle.ttrpc_proto.specs.Framing.Queue.{AreNumbered, free, held, IsNext, IsQueue, open_part, unsent, with_lent, after_report, empty_queue, without, has_begun};
ghost use Rattle.ttrpc_secure.specs.declared.transform.TransformError.{TransformError as AnError};
ghost use Rattle.ttrpc_secure.specs.Halves.{MayFail};
ghost use Rattle.ttrpc_secure.specs.Sends.{associated, joined, needed};
ghost use Rattle.ttrpc_connection.specs.Frames.{SendsOne, safe_limit};
ghost use Rattle.ttrpc_connection.specs.Outbox.{is_sent};

use std::alloc::Global;
use std::marker::Model;
use ttrpc_proto::framing::owners::Owners;
use ttrpc_proto::{Error, MESSAGE_HEADER_LENGTH, Outgoing, Queued};
use ttrpc_secure::OutboundTransform;
use ttrpc_secure::sending::{DataParts, SendError, limit_of, send};

/// The half that seals, and the sealed frames that wait to be written.
#[derive(Drop)]
pub struct Outbox<O> {
    half: O,
    queue: Outgoing,
    // The last ticket that was given, 0 before the first.
    tickets: u64,
}

impl<O> Model for Outbox<O> {
    ghost use Rattle.ttrpc_proto.specs.Framing.Queue.{AreNumbered};
    ghost use Rattle.ttrpc_connection.specs.Outbox.{Outbox as TheOutbox};

    ghost Value = { TheOutbox O };

    ghost view = { λ a. record { half = a.half; queue = a.queue; tickets = a.tickets } };

    ghost invariant = { λ a. AreNumbered a.queue.sent a.queue.frames a.tickets };
}

impl<O: OutboundTransform + Drop> Outbox<O> {
    /// Returns an outbox in which nothing waits, with the memory for the frames that are to wait, or `NoMemory` if that was refused.
    pub fn new(alloc: Global, half: O) -> Result<Self, Error>
        ensures ok { IfOk result
            (λ outbox. outbox ≡ record { half = half; queue = empty_queue; tickets = 0 }) }
        ensures only_memory { IfErr result (λ e. e ≡ TheError.NoMemory) }
    {
        Ok(Outbox {
            half,
            queue: Outgoing::new(alloc)?,
            tickets: 0,
        })
    }

    /// Returns the greatest length of data that surely fits into a message with the bytes that sealing adds.
    pub fn limit(&self) -> usize
        ensures { result ≡ safe_limit O.OutboundTransform self.now.half }
    {
        limit_of(&self.half)
    }

    /// Returns how many bytes are free.
    pub fn free(&self) -> usize
        ensures free { result ≡ free self.now.queue }
        ensures held { held self.now.queue ≤ OUTGOING_LENGTH_MAX }
    {
        self.queue.free()
    }

    /// Returns whether as many bytes are free as a frame with data of this length may need.
    pub fn has_room(&self, length: usize) -> bool
        ensures { (result ≡ true)
            ↔ (MESSAGE_HEADER_LENGTH + length + O.overhead self.now.half ≤ free self.now.queue) }
    {
        let added = MESSAGE_HEADER_LENGTH + self.half.max_overhead();
        let free = self.free();
        added <= free && length <= free - added
    }

    /// Returns the ticket for the next frame that gets one, if one is left.
    pub fn next_ticket(&self) -> Option<u64>
        ensures some { IfSome result (λ ticket. ticket ≡ self.now.tickets + 1) }
        ensures none { IfNone result (self.now.tickets ≡ 2 ^ 64 - 1) }
    {
        self.tickets.checked_add(1)
    }

    /// Returns whether the frame of this ticket was reported whole.
    pub fn is_sent(&self, ticket: u64) -> bool
        ensures sent { result ≡ is_sent self.now.queue ticket }
        ensures numbered { AreNumbered self.now.queue.sent self.now.queue.frames self.now.tickets }
    {
        0 < ticket && ticket <= self.queue.sent()
    }

    /// Seals the data and queues the frame, with the sealed data in place of its payload. An error changes nothing. `TooLong` is checked
    /// first, then `NoRoom`.
    pub fn send(
        &mut self,
        alloc: Global,
        frame: Queued,
        parts: DataParts<'_>,
    ) -> Result<(), SendError>
        // A frame with a ticket has the next one, and is no unary request.
        requires { IsNext frame.ticket frame.is_unary_request self.old.tickets }
        // At an `Ok` the half sealed the data, and the frame with them is queued.
        ensures ok { OnOk result
            (SendsOne O.OutboundTransform self.old frame (joined parts.entry) self.new) }
        // `TooLong` comes exactly if the data are above the safe limit, and `NoRoom` exactly if they aren't but lack room.
        ensures too_long { (result ≡ Err SendError.TooLong)
            ↔ (safe_limit O.OutboundTransform self.old.half < length (joined parts.entry)) }
        ensures no_room { (result ≡ Err SendError.NoRoom)
            ↔ ((length (joined parts.entry) ≤ safe_limit O.OutboundTransform self.old.half)
            × (free self.old.queue
            < needed O.OutboundTransform self.old.half (joined parts.entry))) }
        // A failure is one that the half may return, and any error changes nothing.
        ensures refused { (t : AnError) → result ≡ Err (SendError.Failed t)
            → MayFail O.refuses self.old.half (joined parts.entry)
            (associated frame.message.header) t }
        ensures err { OnErr result (self.new ≡ self.old) }
    {
        let ticket = frame.ticket;
        send(alloc, &mut self.half, &mut self.queue, frame, parts)?;
        self.tickets = ticket.unwrap_or(self.tickets);
        Ok(())
    }

    /// Copies the first bytes of the rest of the first frame, as many as fit, and returns how many. Returns 0 only if none fit or nothing
    /// is left to be written.
    pub(crate) fn lend(&mut self, buffer: &mut [u8]) -> usize
        // As many bytes are lent as fit.
        ensures count { result ≡ min (length buffer.old) (length (open_part self.old.queue)) }
        ensures zero { (result ≡ 0) ↔ ((length buffer.old ≡ 0) ⊎ (unsent self.old.queue ≡ [])) }
        // The lent bytes are at the front of the buffer, and the rest of the buffer is as before.
        ensures copied { take result buffer.new ≡ take result (open_part self.old.queue) }
        ensures rest { drop result buffer.new ≡ drop result buffer.old }
        // The queue keeps the number of lent bytes.
        ensures lent { self.new ≡ record self.old { queue = with_lent self.old.queue result } }
    {
        self.queue.lend(buffer)
    }

    /// Reports this many of the lent bytes as written.
    pub(crate) fn wrote(&mut self, n: usize)
        requires { n ≤ self.old.queue.lent }
        ensures { self.new ≡ record self.old { queue = after_report self.old.queue n } }
    {
        self.queue.wrote(n)
    }

    /// Returns how many bytes are left of the first frame.
    pub(crate) fn open_len(&self) -> usize
        ensures { result ≡ length (open_part self.now.queue) }
    {
        self.queue.open_len()
    }

    /// Returns whether anything is left to be written.
    pub(crate) fn has_unsent(&self) -> bool
        ensures { (result ≡ true) ↔ (unsent self.now.queue ≢ []) }
    {
        !self.queue.is_empty()
    }

    /// States that the queue has the properties of every queue. A lemma, which has no effect when it runs.
    pub fn lemma_is_queue(&self)
        ensures { IsQueue self.now.queue }
    {
        self.queue.is_empty();
    }

    /// Returns how many bytes the last `lend` since the last report gave.
    pub(crate) fn lent(&self) -> usize
        ensures { result ≡ self.now.queue.lent }
    {
        self.queue.lent()
    }

    /// Returns whether a byte of the first frame was ever lent, and it is a unary request of one of these owners.
    pub fn has_begun<W: Owners>(&self, owners: &W) -> bool
        ensures { result ≡ has_begun self.now.queue (W.has owners.now) }
    {
        self.queue.has_begun(owners)
    }

    /// Throws away the unary requests of these owners that haven't begun to leave.
    pub fn throw_away<W: Owners>(&mut self, owners: &W)
        ensures { self.new ≡ record self.old { queue = without self.old.queue (W.has owners.now) } }
    {
        self.queue.throw_away(owners)
    }
}
