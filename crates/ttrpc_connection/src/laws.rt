//! Laws for any core, over its actions at whole frames. A core with calls of its own cites the same proofs.
ghost use Rattle.std.specs.Prelude.{◌≡◌, ◌++◌, ℕ, List, Option, drop};
ghost use Rattle.ttrpc_proto.specs.Framing.Frames.{Holds, nothing};
ghost use Rattle.ttrpc_proto.specs.Framing.Queue.{Happening, IsQueue, all_bytes_left, departing, unsent, written_all};
ghost use Rattle.ttrpc_connection.specs.declared.connection.Connection.{Connection as AConnection};
ghost use Rattle.ttrpc_connection.specs.declared.failure.Failure.{Failure as AFailure};
ghost use Rattle.ttrpc_connection.specs.Feeds.{ways};
ghost use Rattle.ttrpc_connection.specs.Calls.{Call, Gives, Own, Runs, joined, own};
ghost use Rattle.ttrpc_connection.specs.Mail.{Mail, broken, left_by, taken};

use crate::reacts::Reacts;
use ttrpc_secure::{InboundTransform, OutboundTransform};

/// States that the cuts between pieces don't matter. A piece that is fed in two parts at one moment has the same effect as the whole piece,
/// also if the connection fails in it. The converse holds, too. This holds for any list of calls, which may go on after a failure. The
/// queue's history and the end depend on the bytes, and not on how they were cut. Any result of one cutting is possible with any other.
pub fn cuts_do_not_matter<O: OutboundTransform, I: InboundTransform, R: Reacts<O>>()
    ensures together { (s u t : R) (old mid new : AConnection O I) (p q : List ℕ) (now : ℕ)
        → Gives (ways O.OutboundTransform I.InboundTransform R.Reacts) s old p now u mid
        → Gives (ways O.OutboundTransform I.InboundTransform R.Reacts) u mid q now t new
        → Gives (ways O.OutboundTransform I.InboundTransform R.Reacts) s old (p ++ q) now t new }
    ensures apart { (s t : R) (old new : AConnection O I) (before p q : List ℕ) (now : ℕ)
        → Holds old.decoder before
        → Gives (ways O.OutboundTransform I.InboundTransform R.Reacts) s old (p ++ q) now t new
        → (u : R) × (mid : AConnection O I)
        × Gives (ways O.OutboundTransform I.InboundTransform R.Reacts) s old p now u mid
        × Gives (ways O.OutboundTransform I.InboundTransform R.Reacts) u mid q now t new }
    ensures calls { let w = ways O.OutboundTransform I.InboundTransform R.Reacts in (s t : R)
        (old new : AConnection O I) (calls cut : List (Call Own)) (happenings : List Happening)
        → old.decoder ≡ nothing → joined calls ≡ joined cut
        → Runs w (own w) s old calls happenings t new → Runs w (own w) s old cut happenings t new }
{}

/// States that the bytes that left and those still to be written are the written forms of the frames that depart, in order. This holds over
/// any list of calls, also after a failure. The frames that depart and those that were thrown away are the frames that were queued, as
/// `departing_frames_are_written` states for any history.
pub fn what_leaves_was_queued<O: OutboundTransform, I: InboundTransform, R: Reacts<O>>()
    ensures { let w = ways O.OutboundTransform I.InboundTransform R.Reacts in (s t : R)
        (old new : AConnection O I) (calls : List (Call Own)) (happenings : List Happening)
        → IsQueue old.outbox.queue → Runs w (own w) s old calls happenings t new
        → all_bytes_left old.outbox.queue happenings ++ unsent new.outbox.queue
        ≡ drop old.outbox.queue.reported (written_all (departing old.outbox.queue happenings)) }
{}

/// States that a failure is seen after the things in a mailbox. Receiving from a mailbox and then seeing the failure leaves the same as
/// receiving after the failure was seen.
pub fn a_failure_is_seen_last()
    ensures { (failure : Option AFailure) (m : Mail)
        → broken failure (taken failure m) ≡ left_by (broken failure m) }
{}
