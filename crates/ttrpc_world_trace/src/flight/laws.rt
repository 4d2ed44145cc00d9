//! Laws over the definitions: the effect on the frames in flight from one core to another of each change to the sender's
//! queue, to the pipe, and to the bytes that the receiver holds.
ghost use Rattle.std.specs.Prelude.{◌≡◌, ◌⊎◌, ◌≤◌, ◌++◌, ◌∷◌, [], ℕ, Bool, false, true, List, length, map, take};
ghost use Rattle.std.specs.List.{AllByRecursion};
ghost use Rattle.ttrpc_proto.specs.declared.framing.frame.Incoming.{Incoming as AnIncoming};
ghost use Rattle.ttrpc_proto.specs.Framing.Frames.{Held, Fed, nothing};
ghost use Rattle.ttrpc_proto.specs.Framing.Queue.{Queue, after_report, begun_count, empty_queue, open_part, with_frame, with_lent, without};
ghost use Rattle.ttrpc_secure.specs.Halves.{IsPaired};
ghost use Rattle.ttrpc_secure.specs.Sends.{associated};
ghost use Rattle.ttrpc_connection.specs.declared.arrived.InboundResult.{InboundResult};
ghost use Rattle.ttrpc_connection.specs.declared.arrived.InboundResult.TheVariants.{Opened};
ghost use Rattle.ttrpc_connection.specs.Outbox.{Outbox as AnOutbox};
ghost use Rattle.ttrpc_connection.specs.Frames.{Opens, Sent, SendsAll};
ghost use Rattle.ttrpc_connection.specs.Feeds.{ActsAll, Scene, ways};
ghost use Rattle.ttrpc_world_trace.specs.Flight.{Flying, ActsOn, AreInFlight, AreLinked, frames_of, IsOwned, IsSound, arrived, bytes_after_carry, flying_without, parcels};

use ttrpc_connection::Reacts;
use ttrpc_secure::{InboundTransform, OutboundTransform};

/// States that frames which read back come in as they were queued: in order, each once and whole. A frame that is queued comes
/// after the others in flight. Bytes that leave, into the pipe or lost by its cut, change no frame and no order. A throw
/// removes only requests that haven't begun. The frames that a core takes are the first of those in transit, for any pieces.
/// If the pipe is empty and wasn't cut, and no frame is queued, then nothing is in flight.
pub fn frames_arrive_as_they_were_queued()
    // At first nothing is in flight.
    ensures none { AreInFlight nothing [] false empty_queue [] [] }
    // A frame that is queued comes after the others in flight. Bytes that leave change no frame and no order.
    ensures placed { (held : Held) (pipe : List ℕ) (cut : Bool) (q : Queue)
        (transit queued : List Flying) (x : Flying)
        → IsSound x.frame → AreInFlight held pipe cut q transit queued
        → AreInFlight held pipe cut (with_frame q x.frame) transit (queued ++ x ∷ []) }
    ensures carried { (held : Held) (pipe : List ℕ) (cut : Bool) (q : Queue)
        (transit queued : List Flying) (n : ℕ)
        → n ≤ length (open_part q) → AreInFlight held pipe cut q transit queued
        → (t : List Flying) × (r : List Flying) × (t ++ r ≡ transit ++ queued)
        × AreInFlight held (bytes_after_carry cut pipe n q) cut
        (after_report (with_lent q n) n) t r }
    // A throw removes only queued requests that haven't begun. A cut of the pipe changes no frame and no order.
    ensures thrown { (held : Held) (pipe : List ℕ) (cut : Bool) (q : Queue)
        (transit queued : List Flying) (owners : ℕ → Bool)
        → AreInFlight held pipe cut q transit queued
        → AreInFlight held pipe cut (without q owners) transit
        (flying_without owners (begun_count q) queued) }
    ensures cut { (held : Held) (pipe : List ℕ) (cut : Bool) (q : Queue)
        (transit queued : List Flying) (keep : ℕ)
        → AreInFlight held pipe cut q transit queued
        → AreInFlight held (take keep pipe) true q transit queued }
    // The frames that a core takes are the first in transit. If the pipe is empty and uncut and no frame is queued, none is in flight.
    ensures fed { (held new : Held) (pipe taken later : List ℕ) (cut : Bool) (q : Queue)
        (transit queued : List Flying)
        (incoming : List AnIncoming) → pipe ≡ taken ++ later → Fed held taken incoming new
        → AreInFlight held pipe cut q transit queued
        → (front : List Flying) × (rest : List Flying) × (transit ≡ front ++ rest)
        × (incoming ≡ map arrived front) × AreInFlight new later cut q rest queued }
    ensures all_has_come { (held : Held) (pipe : List ℕ) (cut : Bool) (q : Queue)
        (transit queued : List Flying)
        → pipe ≡ [] → cut ≡ false → q.frames ≡ []
        → AreInFlight held pipe cut q transit queued → (transit ≡ []) × (queued ≡ []) }
{}

/// States that a frame opens to the data that were sealed, if the two halves were paired. The frames are sealed in the order in
/// which they are queued, and opened in the order in which they come in. A frame may be thrown away unopened if sealing
/// doesn't change the half.
pub fn seals_open_as_they_were_made<O: OutboundTransform, I: InboundTransform>()
    ensures none { (s : O) (t : I) → IsPaired O.seals I.opens I.refuses s t
        → AreLinked O.seals I.opens I.refuses [] s t }
    ensures more { (flights : List Flying) (x : Flying) (out later : O) (in_ : I)
        → AreLinked O.seals I.opens I.refuses flights out in_
        → O.seals out x.plain (associated x.frame.message.header) x.frame.message.payload later
        → AreLinked O.seals I.opens I.refuses (flights ++ x ∷ []) later in_ }
    ensures opened { (x : Flying) (flights : List Flying) (out : O) (in_ later : I)
        (opening : InboundResult)
        → AreLinked O.seals I.opens I.refuses (x ∷ flights) out in_
        → Opens I.InboundTransform in_ (arrived x) opening later
        → (opening ≡ Opened x.plain) × AreLinked O.seals I.opens I.refuses flights out later }
    ensures thrown { (transit queued : List Flying) (out : O) (in_ : I) (owners : ℕ → Bool) (n : ℕ)
        → O.SEALS ≡ false
        → AreLinked O.seals I.opens I.refuses (transit ++ queued) out in_
        → AreLinked O.seals I.opens I.refuses (transit ++ flying_without owners n queued) out in_ }
{}

/// States the effect of a throw on the frames in flight of one stream. If each unary request in flight is owned by its own
/// stream id, a throw leaves the frames of streams that aren't among its owners. Each unary request that is left is still
/// owned by its own stream id. If a stream has at most one frame in flight, the stream keeps this frame or has none.
pub fn a_throw_takes_requests_of_its_owners()
    ensures elsewhere { (k : ℕ) (owners : ℕ → Bool) (n : ℕ) (queued : List Flying)
        → owners k ≡ false
        → AllByRecursion IsOwned queued
        → parcels k (flying_without owners n queued) ≡ parcels k queued }
    ensures one { (k : ℕ) (owners : ℕ → Bool) (n : ℕ) (transit queued : List Flying)
        → length (parcels k (transit ++ queued)) ≤ 1
        → (parcels k (transit ++ flying_without owners n queued) ≡ parcels k (transit ++ queued))
        ⊎ (parcels k (transit ++ flying_without owners n queued) ≡ []) }
    ensures own { (owners : ℕ → Bool) (n : ℕ) (transit queued : List Flying)
        → AllByRecursion IsOwned (transit ++ queued)
        → AllByRecursion IsOwned (transit ++ flying_without owners n queued) }
{}

/// States that the frames that a connection sends are in flight, in order, and stay linked. If the frames that a core takes are
/// the first of a linked list, each acts as opened to the data that were sealed, and the others stay linked.
pub fn what_is_sent_acts_as_it_was<
    O: OutboundTransform,
    A: OutboundTransform,
    I: InboundTransform,
    R: Reacts<A>,
>()
    ensures sent { (sent : List Sent) (old new : AnOutbox O) (flights : List Flying) (in_ : I)
        → AreLinked O.seals I.opens I.refuses flights old.half in_
        → SendsAll O.OutboundTransform old sent new
        → (more : List Flying) × (map Flying.plain more ≡ map Sent.plain sent)
        × (new.queue.frames ≡ old.queue.frames ++ frames_of more)
        × AreLinked O.seals I.opens I.refuses (flights ++ more) new.half in_ }
    ensures acts { let w = ways A.OutboundTransform I.InboundTransform R.Reacts in
        (now : ℕ) (front rest : List Flying) (out : O) (old new : Scene R A I)
        → AreLinked O.seals I.opens I.refuses (front ++ rest) out old.inbound
        → ActsAll w now old (map arrived front) new
        → ActsOn w now old front new × AreLinked O.seals I.opens I.refuses rest out new.inbound }
{}
