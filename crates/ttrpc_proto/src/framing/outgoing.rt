//! The frames still to be written, in order, in one ring.
ghost use Rattle.std.specs.Prelude.{◌≡◌, ◌&&◌, ◌⊎◌, ℕ, nat_lt, nat_le, ◌+◌, ◌*◌, ◌-◌, ◌≤◌, ◌<◌, ◌↔◌, ◌++◌, [], List, IsTrue, IsPermutation, length, take, drop, min, if◌then◌else◌, option_to_list, Err, IfSome, OnOk, OnErr, IfOk, IfErr};
ghost use Rattle.std.specs.VecDeque.{deque_len, deque_capacity};
ghost use Rattle.std.specs.List.{AllByRecursion};
ghost use Rattle.ttrpc_proto.specs.declared.framing.outgoing.Queued.{Queued as AFrame};
ghost use Rattle.ttrpc_proto.specs.Framing.Queue.{AreNumbered, finished, has_ticket, last_ticket, Happening, Allowed, IsMerge, after_all, all_bytes_left, departing, placed, thrown, unsent, written_all};
ghost use Rattle.ttrpc_proto.specs.Framing.Laid.{entries_of, frames_of, gone_records, kept_records, numbers_of, spans};
ghost use Rattle.ttrpc_proto.specs.Framing.Header.{header_bytes};
ghost use Rattle.ttrpc_proto.specs.Framing.Queue.{Queue, IsQueue, written, first_open, open_part, empty_queue, free, held, with_frame, with_lent, after_report, first_gone, first_ticket, last_may_change, filled, withdrawn, is_request_of, has_begun, without};

use crate::framing::bytes::ByteRing;
use crate::framing::gen_message::GenMessage;
use crate::framing::header::{MESSAGE_HEADER_LENGTH, MessageHeader};
use crate::framing::owners::Owners;
use crate::framing::record::Record;
use crate::framing::told::ReportedBytes;
use crate::{Error, Result};
use std::alloc::Global;
use std::collections::VecDeque;
use std::marker::Model;

/// The greatest number of bytes that wait to be written: two frames of the greatest length.
pub const OUTGOING_LENGTH_MAX: usize = 8_388_628;

/// The number of lengths that the four bytes of a header can state.
const LENGTHS: usize = 1 << 32;

/// A frame to be written.
#[derive(Debug, Drop, PartialEq, Eq)]
pub struct Queued {
    /// The message to be sent.
    pub message: GenMessage,
    /// The number under which the sender asks if the frame was sent.
    pub ticket: Option<u64>,
    /// True for a unary request, which may be thrown away before it begins.
    pub is_unary_request: bool,
    /// The call or job that the frame belongs to.
    pub owner: u64,
}

/// The frames still to be written, in order. Their bytes are in one ring of [`OUTGOING_LENGTH_MAX`] bytes. The bytes
/// are lent piece by piece, and leave when they are reported. Only `new` and `place` take memory.
#[derive(Debug, Drop)]
pub struct Outgoing {
    ring: ByteRing,
    records: VecDeque<Record>,
    // The bytes of the first frame that were reported, which have left the ring.
    told: ReportedBytes,
    reported: usize,
    lent: usize,
    begun: bool,
    sent: u64,
}

impl Model for Outgoing {
    ghost use Rattle.std.specs.Prelude.{◌≡◌, ◌≤◌, ◌++◌, length};
    ghost use Rattle.ttrpc_proto.specs.declared.framing.outgoing.TheConstants.{OUTGOING_LENGTH_MAX};
    ghost use Rattle.ttrpc_proto.specs.Framing.Laid.{AreLaid, entries_of, of_entries};
    ghost use Rattle.ttrpc_proto.specs.Framing.Queue.{Queue, IsQueue};

    ghost Value = { Queue };

    ghost view = { λ a. of_entries (entries_of a.records.items (a.told.bytes ++ a.ring.items))
        a.reported a.lent a.begun a.sent };

    ghost invariant = { λ a. IsQueue (of_entries (entries_of a.records.items
        (a.told.bytes ++ a.ring.items)) a.reported a.lent a.begun a.sent)
        × AreLaid a.records.items (a.told.bytes ++ a.ring.items)
        × (length a.told.bytes ≡ a.reported)
        × (length a.ring.items ≤ OUTGOING_LENGTH_MAX)
        × (a.ring.capacity ≡ OUTGOING_LENGTH_MAX) };
}

impl Outgoing {
    /// Returns a queue of no frames, with the memory of its ring. The error is `NoMemory` if this memory was refused.
    pub fn new(alloc: Global) -> Result<Outgoing>
        ensures ok { IfOk result (λ queue. queue ≡ empty_queue) }
        ensures only_memory { IfErr result (λ e. e ≡ Error.NoMemory) }
    {
        Ok(Outgoing {
            ring: ByteRing::with_capacity(alloc, OUTGOING_LENGTH_MAX)?,
            records: VecDeque::new(alloc),
            told: ReportedBytes::new(),
            reported: 0,
            lent: 0,
            begun: false,
            sent: 0,
        })
    }

    /// Returns true if there are no frames.
    pub fn is_empty(&self) -> bool
        ensures none { IsTrue result ↔ (self.now.frames ≡ []) }
        ensures valid { IsQueue self.now }
    {
        self.records.is_empty()
    }

    /// Returns the number of free bytes.
    pub fn free(&self) -> usize
        ensures free { result ≡ free self.now }
        ensures held { held self.now ≤ OUTGOING_LENGTH_MAX }
    {
        self.ring.free()
    }

    /// Queues a frame after the others, if there is room for its bytes and for this many more. An error changes
    /// nothing. The error is `NoRoom` if there is no room, and `NoMemory` otherwise.
    pub fn place(&mut self, frame: Queued, room: usize) -> Result<()>
        ensures ok { OnOk result (self.new ≡ with_frame self.old frame) }
        ensures no_room { (result ≡ Err Error.NoRoom)
            ↔ (free self.old < MESSAGE_HEADER_LENGTH + length frame.message.payload + room) }
        ensures err { OnErr result (self.new ≡ self.old) }
        ensures only { IfErr result (λ e. (e ≡ Error.NoMemory) ⊎ (e ≡ Error.NoRoom)) }

        // The conditions of `placed_filled` and `placed_withdrawn`, for a caller that fills or withdraws the frame.
        ensures was { IsQueue self.old }
        ensures valid { IsQueue self.new }
    {
        let payload = frame.message.payload.as_slice();
        let length = MESSAGE_HEADER_LENGTH + payload.len();
        let free = self.free();
        if free < length || free - length < room {
            return Err(Error::NoRoom);
        }
        self.records.push_back(Record {
            header: frame.message.header,
            ticket: frame.ticket,
            is_unary_request: frame.is_unary_request,
            owner: frame.owner,
            payload: payload.len(),
            gone: 0,
        })?;
        self.ring.put(&frame.message.header.to_bytes());
        self.ring.put(payload);
        Ok(())
    }

    /// Replaces the last frame's payload by these three parts, and the length in its header by their length modulo
    /// 2^32. Does nothing if the frame has begun, the payload's bytes aren't free, or there is no frame.
    pub fn fill(&mut self, before: &[u8], payload: &[u8], after: &[u8])
        ensures filled { self.new ≡ filled self.old (before.now ++ (payload.now ++ after.now)) }
        ensures was { IsQueue self.old }
        ensures valid { IsQueue self.new }
    {
        let length = before
            .len()
            .saturating_add(payload.len())
            .saturating_add(after.len());
        if self.last_may_change()
            && length <= self.free()
            && let Some(mut record) = self.records.pop_back()
        {
            self.ring.cut(self.ring.len() - record.span());
            record.header.length = (length % LENGTHS) as u32;
            record.payload = length;
            self.ring.put(&record.header.to_bytes());
            self.ring.put(before);
            self.ring.put(payload);
            self.ring.put(after);
            self.ring.put_unread(record.gone);
            self.records.push_back_reserved(record);
        }
    }

    /// Removes the last frame, unless it has begun or there is none.
    pub fn withdraw(&mut self)
        ensures withdrawn { self.new ≡ withdrawn self.old }
        ensures was { IsQueue self.old }
        ensures valid { IsQueue self.new }
    {
        if self.last_may_change()
            && let Some(record) = self.records.pop_back()
        {
            self.ring.cut(self.ring.len() - record.span());
        }
    }

    // Returns true if there is a last frame that hasn't begun.
    fn last_may_change(&self) -> bool
        ensures { result ≡ last_may_change self.now }
    {
        usize::from(self.begun) < self.records.len()
    }

    /// Copies the first of the bytes that are left of the first frame, as many as fit, and returns their number.
    pub fn lend(&mut self, buffer: &mut [u8]) -> usize
        // As many bytes are lent as fit.
        ensures count { result ≡ min (length buffer.old) (length (open_part self.old)) }
        // They are at the front of the buffer, and the rest of the buffer is unchanged.
        ensures copied { take result buffer.new ≡ take result (open_part self.old) }
        ensures rest { drop result buffer.new ≡ drop result buffer.old }
        // The queue knows how many bytes are lent, and is a queue.
        ensures lent { self.new ≡ with_lent self.old result }
        ensures valid { IsQueue self.new }
    {
        let count = self.open_len().min(buffer.len());
        self.ring.copy_to(&mut buffer[..count]);
        self.lent = count;
        self.begun = self.begun || count > 0;
        count
    }

    /// Returns the number of bytes that are left of the first frame. A `lend` gives this many if all fit.
    pub fn open_len(&self) -> usize
        ensures { result ≡ length (open_part self.now) }
    {
        match self.records.front() {
            None => 0,
            Some(record) => MESSAGE_HEADER_LENGTH + record.payload - self.reported,
        }
    }

    /// Returns the number of bytes that the last `lend` since the last report gave, or 0 if there was none.
    pub fn lent(&self) -> usize
        ensures { result ≡ self.now.lent }
    {
        self.lent
    }

    /// Reports this many of the lent bytes as written.
    pub fn wrote(&mut self, n: usize)
        requires { n ≤ self.old.lent }
        ensures written { self.new ≡ after_report self.old n }
        ensures valid { IsQueue self.new }
    {
        let left = self.open_len() - n;
        let (front, back) = self.ring.as_slices();
        let in_front = n.min(front.len());
        self.told.add(&front[..in_front]);
        self.told.add(&back[..n - in_front]);
        self.ring.pass(n);
        self.lent = 0;
        self.reported += n;
        if left == 0 {
            let (sent, gone) = take_first(&mut self.records, self.sent);
            self.sent = sent;
            self.ring.pass(gone);
            self.told = ReportedBytes::new();
            self.reported = 0;
            self.begun = false;
        }
    }

    /// Returns the ticket of the last frame with one that was reported whole, or 0 before the first such frame.
    pub fn sent(&self) -> u64
        ensures { result ≡ self.now.sent }
    {
        self.sent
    }

    /// Returns true if the first frame is a unary request of one of these owners and has begun.
    pub fn has_begun<W: Owners>(&self, owners: &W) -> bool
        ensures { result ≡ has_begun self.now (W.has owners.now) }
    {
        self.begun
            && self
                .records
                .front()
                .is_some_and(|record| record.is_request_of(owners))
    }

    /// Throws away the unary requests of these owners that haven't begun. Their bytes are held until the frame before
    /// them leaves, if there is one.
    pub fn throw_away<W: Owners>(&mut self, owners: &W)
        ensures without { self.new ≡ without self.old (W.has owners.now) }
        ensures valid { IsQueue self.new }
    {
        let first = take_begun(&mut self.records, self.begun);
        let gone = throw_from(&mut self.records, owners);
        if let Some(mut record) = first {
            record.gone += gone;
            self.records.push_front_reserved(record);
        } else {
            self.ring.pass(gone);
        }
    }
}

/// States that the frames that depart are written in order, over any history that lends no more than there is and
/// reports no more than was lent. The bytes that left, and the bytes still to be written, are the written forms of
/// these frames. No byte is left out, comes twice, or is between the bytes of another frame. The queued frames are, in
/// order, the frames that depart and the frames that were thrown away. Only unary requests were thrown away.
pub fn departing_frames_are_written()
    ensures written { (q : Queue) (hs : List Happening) → IsQueue q → Allowed q hs
        → all_bytes_left q hs ++ unsent (after_all q hs)
        ≡ drop q.reported (written_all (departing q hs)) }
    ensures in_order { (q : Queue) (hs : List Happening)
        → (away : List AFrame) × IsMerge (departing q hs) away (q.frames ++ placed hs)
        × IsPermutation away (thrown q hs) }
    ensures only_requests { (q : Queue) (hs : List Happening)
        → AllByRecursion (λ f. IsTrue f.is_unary_request) (thrown q hs) }
{}

/// States that a ticket that was given is sent exactly if no queued frame has it any more. The condition is that the
/// tickets of the queued frames are, in order, the numbers after the last sent ticket up to the last given ticket. The
/// last sent ticket is the ticket of the last frame with one that was reported whole.
pub fn tickets_are_sent_in_order()
    ensures queued { (q : Queue) (given t : ℕ) → AreNumbered q.sent q.frames given
        → has_ticket t q.frames ≡ (nat_lt q.sent t && nat_le t given) }
    ensures finished { (q : Queue) (hs : List Happening)
        → (after_all q hs).sent ≡ last_ticket (finished q hs) q.sent }
{}

// Throws away the unary requests of these owners. Returns the number of bytes that are gone with the requests before
// the first frame that stays. The bytes of the other requests are held after the frame before them.
fn throw_from<W: Owners>(records: &mut VecDeque<Record>, owners: &W) -> usize
    // The records have at most twice the bytes of the ring.
    requires { spans records.old.items ≤ 2 * OUTGOING_LENGTH_MAX }
    // The requests are gone. Each record that stays counts the bytes gone after it, and the result counts those before the first.
    ensures kept { records.new.items ≡ kept_records (W.has owners.now) records.old.items }
    ensures gone { result ≡ gone_records (W.has owners.now) records.old.items }
    // There are no more records than before, in the same memory.
    ensures len { deque_len records.new ≤ deque_len records.old }
    ensures capacity { deque_capacity records.new ≡ deque_capacity records.old }
{
    let mut gone = 0;
    let mut left = records.len();
    while left > 0 {
        left -= 1;
        let Some(mut record) = records.pop_back() else {
            unreachable!();
        };
        if record.is_request_of(owners) {
            gone += record.span();
        } else {
            record.gone += gone;
            gone = 0;
            records.push_front_reserved(record);
        }
    }
    gone
}

// Takes the first record out, if its frame has begun.
fn take_begun(records: &mut VecDeque<Record>, begun: bool) -> Option<Record>
    ensures first { option_to_list result ≡ take (if begun then 1 else 0) records.old.items }
    ensures rest { records.new.items ≡ drop (if begun then 1 else 0) records.old.items }
    ensures place { IfSome result (λ _. deque_len records.new < deque_capacity records.new) }
{
    if !begun {
        return None;
    }
    records.pop_front()
}

// Takes the first record out, if there is one. Returns the record's ticket, or the last ticket if it has none, and the
// number of bytes that were held after its frame.
fn take_first(records: &mut VecDeque<Record>, last: u64) -> (u64, usize)
    ensures ticket { (bytes : List ℕ)
        → result.0 ≡ first_ticket (frames_of (entries_of records.old.items bytes)) last }
    ensures gone { (bytes : List ℕ)
        → result.1 ≡ first_gone (numbers_of (entries_of records.old.items bytes)) }
    ensures rest { records.new.items ≡ drop 1 records.old.items }
{
    match records.pop_front() {
        Some(record) => (record.ticket.unwrap_or(last), record.gone),
        None => (last, 0),
    }
}
