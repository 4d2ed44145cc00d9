//! Laws over the definitions: consequences of the contracts of single calls over whole runs. A run is any list of calls that were accepted,
//! one after the other, over a connection that may fail at any of them. Each run comes with its queue's history.
ghost use Rattle.std.specs.Prelude.{◌≡◌, ◌≢◌, ◌<◌, ◌≤◌, ◌++◌, ℕ, List, [], IsTrue, None, Option, Result, true, false, not, ◌&&◌, length, take, drop, filter, nat_eq, nat_le, nat_lt, IsPermutation};
ghost use Rattle.std.specs.List.{AllByRecursion, IsDistinct};
ghost use Rattle.ttrpc_proto.specs.declared.framing.outgoing.Queued.{Queued as AFrame};
ghost use Rattle.ttrpc_proto.specs.Framing.Frames.{nothing};
ghost use Rattle.ttrpc_proto.specs.Framing.Queue.{AreNumbered, Happening, IsMerge, IsQueue, all_bytes_left, begun_count, departing, finished, has_ticket, last_ticket, placed, thrown, unsent, written_all};
ghost use Rattle.ttrpc_proto.specs.declared.error.Error.{Error as AnError};
ghost use Rattle.ttrpc_connection.specs.declared.arrived.Arrived.{Arrived as AnArrival};
ghost use Rattle.ttrpc_connection.specs.declared.connection.Connection.{Connection as AConnection};
ghost use Rattle.ttrpc_connection.specs.Calls.{Call, Goes, Runs, joined};
ghost use Rattle.ttrpc_connection.specs.Frames.{Sent};
ghost use Rattle.ttrpc_connection.specs.Outbox.{is_sent};
ghost use Rattle.ttrpc_client.specs.declared.client.ClientCore.{ClientCore as ACore};
ghost use Rattle.ttrpc_client.specs.Calls.{AreQueuedOnce, Called, Causes, Does, RiseByTwo, called, ids_asked, ids_used, outcomes_of};
ghost use Rattle.ttrpc_client.specs.State.{Client, IsClient, call_at, stream_at, throws, due_at};
ghost use Rattle.ttrpc_client.specs.Protocol.{LandsOnce, Ticks};
ghost use Rattle.ttrpc_client.specs.Inside.{calling};
ghost use Rattle.ttrpc_client.specs.Streaming.{ReceivesAt, ReceivesOne};

use ttrpc_secure::{InboundTransform, OutboundTransform};

/// States that the bytes that leave are those of frames that were queued. Each call has its part in the queue's history. Over any run, also
/// after a failure, this history is allowed and leads to the queue after the run. So the bytes that left and those still to be written are
/// the written forms of the frames that depart, in order. The departing frames are those that were queued, in order, without the ones that
/// were thrown away. If requests may not be thrown away, none is.
pub fn what_leaves_was_queued<O: OutboundTransform, I: InboundTransform>()
    // Each call has its part in the queue's history. Over any run this history is allowed, and leads to the queue after it.
    ensures caused { (old new : ACore O I) (call : Called)
        → Does O.OutboundTransform O.SEALS call old new
        → (happenings : List Happening) × Causes call O.SEALS old new happenings }
    ensures goes { (s t : Client) (old new : AConnection O I) (calls : List (Call Called))
        (happenings : List Happening)
        → Runs (calling O.OutboundTransform I.InboundTransform)
        (called O.OutboundTransform O.SEALS) s old calls happenings t new
        → Goes old.outbox.queue happenings new.outbox.queue }
    // The bytes that left and the unsent ones are the written forms of the departing frames, without the bytes reported before.
    ensures written { (s t : Client) (old new : AConnection O I) (calls : List (Call Called))
        (happenings : List Happening)
        → IsQueue old.outbox.queue
        → Runs (calling O.OutboundTransform I.InboundTransform)
        (called O.OutboundTransform O.SEALS) s old calls happenings t new
        → all_bytes_left old.outbox.queue happenings ++ unsent new.outbox.queue
        ≡ drop old.outbox.queue.reported (written_all (departing old.outbox.queue happenings)) }
    // The departing frames are those that were queued, in order, without those thrown away. If none may be thrown away, none is.
    ensures in_order { (s t : Client) (old new : AConnection O I) (calls : List (Call Called))
        (happenings : List Happening)
        → Runs (calling O.OutboundTransform I.InboundTransform)
        (called O.OutboundTransform O.SEALS) s old calls happenings t new
        → (away : List AFrame) × IsMerge (departing old.outbox.queue happenings) away
        (old.outbox.queue.frames ++ placed happenings)
        × IsPermutation away (thrown old.outbox.queue happenings) }
    ensures nothing_thrown { (s t : Client) (old new : AConnection O I) (calls : List (Call Called))
        (happenings : List Happening)
        → throws s.kind O.SEALS ≡ false
        → Runs (calling O.OutboundTransform I.InboundTransform)
        (called O.OutboundTransform O.SEALS) s old calls happenings t new
        → thrown old.outbox.queue happenings ≡ [] }
{}

/// States that the cuts between pieces don't matter. Over any list of calls, also after a failure, the queue's history and the core's end
/// depend on the bytes, and not on how they were cut. Any result of one cutting is possible with any other.
pub fn cuts_do_not_matter<O: OutboundTransform, I: InboundTransform>()
    ensures { (s t : Client) (old new : AConnection O I) (calls cut : List (Call Called))
        (happenings : List Happening)
        → old.decoder ≡ nothing → joined calls ≡ joined cut
        → Runs (calling O.OutboundTransform I.InboundTransform)
        (called O.OutboundTransform O.SEALS) s old calls happenings t new
        → Runs (calling O.OutboundTransform I.InboundTransform)
        (called O.OutboundTransform O.SEALS) s old cut happenings t new }
{}

/// States that over any run the ids of the accepted requests and of the opened streams rise by two, from the next id on. None is above the
/// greatest, so no two are equal.
pub fn call_ids_rise<O: OutboundTransform, I: InboundTransform>()
    ensures rise { (s t : Client) (old new : AConnection O I) (calls : List (Call Called))
        (happenings : List Happening)
        → Runs (calling O.OutboundTransform I.InboundTransform)
        (called O.OutboundTransform O.SEALS) s old calls happenings t new
        → RiseByTwo s.next (ids_used calls) t.next }
    ensures apart { (s t : Client) (old new : AConnection O I) (calls : List (Call Called))
        (happenings : List Happening)
        → Runs (calling O.OutboundTransform I.InboundTransform)
        (called O.OutboundTransform O.SEALS) s old calls happenings t new
        → IsDistinct nat_eq (ids_used calls) }
{}

/// States that over any run at most one outcome is given for an id, however often it is asked for. None is given for an id under which
/// nothing was kept before, and that no request got. The properties of every client hold after the run.
pub fn an_outcome_is_given_once<O: OutboundTransform, I: InboundTransform>()
    ensures once { (s t : Client) (old new : AConnection O I) (calls : List (Call Called))
        (happenings : List Happening) (id : ℕ)
        → IsClient s.next s.calls
        → Runs (calling O.OutboundTransform I.InboundTransform)
        (called O.OutboundTransform O.SEALS) s old calls happenings t new
        → length (outcomes_of id calls) ≤ 1 }
    ensures never { (s t : Client) (old new : AConnection O I) (calls : List (Call Called))
        (happenings : List Happening) (id : ℕ)
        → Runs (calling O.OutboundTransform I.InboundTransform)
        (called O.OutboundTransform O.SEALS) s old calls happenings t new
        → call_at s id ≡ None → AllByRecursion (λ other. id ≢ other) (ids_asked calls)
        → outcomes_of id calls ≡ [] }
    ensures valid { (s t : Client) (old new : AConnection O I) (calls : List (Call Called))
        (happenings : List Happening)
        → IsClient s.next s.calls
        → Runs (calling O.OutboundTransform I.InboundTransform)
        (called O.OutboundTransform O.SEALS) s old calls happenings t new
        → IsClient t.next t.calls }
{}

/// States that after any run no call's request is queued twice, and none for a call that wasn't made yet, if this is so before the run.
pub fn requests_queued_once<O: OutboundTransform, I: InboundTransform>()
    ensures { (s t : Client) (old new : AConnection O I) (calls : List (Call Called))
        (happenings : List Happening)
        → AreQueuedOnce s.next old.outbox.queue.frames
        → Runs (calling O.OutboundTransform I.InboundTransform)
        (called O.OutboundTransform O.SEALS) s old calls happenings t new
        → AreQueuedOnce t.next new.outbox.queue.frames }
{}

/// States that a tick leaves no request of a call that was due, except one that has begun to leave, if requests may be thrown away. All
/// other frames are left, in their order.
pub fn a_tick_leaves_no_due_request<O: OutboundTransform, I: InboundTransform>()
    ensures { (old new : ACore O I) (now : ℕ) → throws old.state.kind O.SEALS ≡ true
        → Ticks O.SEALS old now new
        → new.connection.outbox.queue.frames
        ≡ take (begun_count old.connection.outbox.queue) old.connection.outbox.queue.frames
        ++ filter (λ f. not (f.is_unary_request && due_at now (call_at old.state f.owner)))
        (drop (begun_count old.connection.outbox.queue) old.connection.outbox.queue.frames) }
{}

/// States that each stream id is independent of the others. A frame changes the stream of its own id alone. A receiver's result, and the
/// things left for it, don't depend on whether another receiver was asked before.
pub fn streams_stand_by_themselves<O: OutboundTransform, I: InboundTransform>()
    ensures frame_elsewhere { (old new : Client) (a : AnArrival) (sent : List Sent) (k : ℕ)
        → LandsOnce old a sent new
        → k ≢ a.header.stream_id → stream_at new k ≡ stream_at old k }
    ensures received { (old mid new : ACore O I) (j k : ℕ)
        (other given : Option (Result (List ℕ) AnError)) → k ≢ j
        → ReceivesOne old j other mid → ReceivesOne mid k given new
        → ReceivesAt old.connection.failure (stream_at old.state k) given (stream_at new.state k) }
{}

/// States that over any run a ticket counts as sent after its frame, or a later one with a ticket, was reported whole, and not before. If
/// the tickets of queued frames are those after the last that was sent, a ticket that was given is sent exactly if its frame isn't queued
/// any more. No frame of a stream is thrown away.
pub fn a_ticket_is_sent_once_reported<O: OutboundTransform, I: InboundTransform>()
    ensures sent { (s t : Client) (old new : AConnection O I) (calls : List (Call Called))
        (happenings : List Happening) (ticket : ℕ)
        → Runs (calling O.OutboundTransform I.InboundTransform)
        (called O.OutboundTransform O.SEALS) s old calls happenings t new
        → is_sent new.outbox.queue ticket
        ≡ (nat_lt 0 ticket && nat_le ticket
        (last_ticket (finished old.outbox.queue happenings) old.outbox.queue.sent)) }
    ensures queued { (c : AConnection O I) (ticket : ℕ)
        → AreNumbered c.outbox.queue.sent c.outbox.queue.frames c.outbox.tickets
        → 0 < ticket → ticket ≤ c.outbox.tickets
        → is_sent c.outbox.queue ticket ≡ not (has_ticket ticket c.outbox.queue.frames) }
    ensures kept { (s t : Client) (old new : AConnection O I) (calls : List (Call Called))
        (happenings : List Happening)
        → Runs (calling O.OutboundTransform I.InboundTransform)
        (called O.OutboundTransform O.SEALS) s old calls happenings t new
        → AllByRecursion (λ f. IsTrue f.is_unary_request) (thrown old.outbox.queue happenings) }
{}
