//! Laws over the definitions: consequences of the contracts of single calls.
ghost use Rattle.std.specs.Prelude.{◌≡◌, ◌≢◌, ◌≤◌, ◌++◌, ◌⊎◌, ◌↔◌, ◌&&◌, ℕ, List, [], Option, None, Some, Result, is_some, true, drop, nat_eq, nat_le, nat_lt};
ghost use Rattle.std.specs.List.{AllByRecursion, IsDistinct};
ghost use Rattle.ttrpc_proto.specs.declared.messages.Request.{Request as ARequest};
ghost use Rattle.ttrpc_proto.specs.declared.framing.outgoing.Queued.{Queued as AQueued};
ghost use Rattle.ttrpc_proto.specs.Framing.Frames.{nothing};
ghost use Rattle.ttrpc_proto.specs.Framing.Queue.{Happening, IsQueue, all_bytes_left, departing, finished, last_ticket, placed, thrown, unsent, written_all};
ghost use Rattle.ttrpc_connection.specs.declared.arrived.Arrived.{Arrived as AFrame};
ghost use Rattle.ttrpc_connection.specs.declared.connection.Connection.{Connection as AConnection};
ghost use Rattle.ttrpc_connection.specs.Calls.{Call, Gives, Goes, Queues, Runs, joined};
ghost use Rattle.ttrpc_connection.specs.Frames.{Sent};
ghost use Rattle.ttrpc_connection.specs.Outbox.{Outbox as AnOutbox, is_sent};
ghost use Rattle.ttrpc_proto.specs.declared.error.Error.{Error as AnError};
ghost use Rattle.ttrpc_server.specs.Mailboxes.{mail_at};
ghost use Rattle.ttrpc_server.specs.Streaming.{ReceivesBy, ReceivesOne};
ghost use Rattle.ttrpc_server.specs.declared.job.ActiveJob.{ActiveJob as AJob};
ghost use Rattle.ttrpc_server.specs.declared.job.Job.{Job as AHandedJob};
ghost use Rattle.ttrpc_server.specs.declared.server.ServerCore.{ServerCore as ACore};
ghost use Rattle.ttrpc_server.specs.Calls.{AnswersPiece, Causes, Performs, Served, Took, WaitsNot, ids_given, served};
ghost use Rattle.ttrpc_server.specs.Kept.{AreSingle};
ghost use Rattle.ttrpc_server.specs.Protocol.{ExpiresOne, Ticks, case_in, serves, serving, row_of};
ghost use Rattle.ttrpc_server.specs.declared.rows.Case.{Case as ACase};
ghost use Rattle.ttrpc_server.specs.Table.{IsAbove, IsNoOlder};
ghost use Rattle.ttrpc_server.specs.State.{EndsOne, HandsOne, IsJob, NoneWaits, Rising, jobs_at, Server};
ghost use Rattle.ttrpc_server.specs.Streams.{IsAnswered, made_by};

use crate::rules::Rules;
use ttrpc_secure::{InboundTransform, OutboundTransform};

/// States that each stream id is independent of the others. A frame changes the jobs of its own id alone, adds at most the one that its row
/// makes, and sends at most one answer, under that id. A job that is handed out, is answered or expires changes the jobs of its own stream
/// id alone, as if there were no others. A job that expires is answered at most once, under that id. A receiver's result, and the things
/// left for it, don't depend on whether another receiver was asked before. Receiving doesn't change which request is the newest. Of other
/// stream ids a frame reads and changes only the newest one (`request_ids_rise`).
pub fn streams_stand_by_themselves<O: OutboundTransform, I: InboundTransform>()
    // A frame changes the jobs of its own stream id alone, as its row says, and sends at most one answer, under that id.
    ensures frame_elsewhere { (old new : Server) (o : O) (a : AFrame) (sent : List Sent) (k : ℕ)
        → serves O.OutboundTransform old o a sent new
        → k ≢ a.header.stream_id → jobs_at new.jobs.list k ≡ jobs_at old.jobs.list k }
    ensures frame { (old new : Server) (o : O) (a : AFrame) (sent : List Sent)
        → serves O.OutboundTransform old o a sent new
        → jobs_at new.jobs.list a.header.stream_id
        ≡ made_by (row_of old a) old a.header a.now (jobs_at old.jobs.list a.header.stream_id) }
    ensures own_answer { (old new : Server) (o : O) (a : AFrame) (sent : List Sent)
        → serves O.OutboundTransform old o a sent new
        → IsAnswered a.header.stream_id sent }
    // A job that is handed out or answered changes the jobs of its own stream id alone, as if there were no others.
    ensures taken_elsewhere { (old new : List AJob) (handed : AHandedJob) (k : ℕ)
        → HandsOne old handed new
        → k ≢ handed.header.stream_id → jobs_at new k ≡ jobs_at old k }
    ensures taken { (old new : List AJob) (handed : AHandedJob) → HandsOne old handed new
        → HandsOne (jobs_at old handed.header.stream_id) handed
        (jobs_at new handed.header.stream_id) }
    ensures answered_elsewhere { (old new : List AJob) (id : ℕ) (job : AJob) (k : ℕ)
        → EndsOne old id job new
        → k ≢ job.header.stream_id → jobs_at new k ≡ jobs_at old k }
    ensures answered { (old new : List AJob) (id : ℕ) (job : AJob) → EndsOne old id job new
        → EndsOne (jobs_at old job.header.stream_id) id job (jobs_at new job.header.stream_id) }
    // A job that expires changes the jobs of its own stream id alone, and sends at most one answer, under that id.
    ensures expired_elsewhere { (old new : Server) (from to : AnOutbox O) (job : AJob) (k : ℕ)
        → ExpiresOne O.OutboundTransform old from job new to
        → k ≢ job.header.stream_id → jobs_at new.jobs.list k ≡ jobs_at old.jobs.list k }
    ensures expired { (old new : Server) (from to : AnOutbox O) (job : AJob)
        → ExpiresOne O.OutboundTransform old from job new to
        → (at : IsJob (jobs_at old.jobs.list job.header.stream_id) job.id job)
        × (jobs_at new.jobs.list job.header.stream_id ≡ at.front ++ at.back) }
    ensures timed_out { (old new : Server) (from to : AnOutbox O) (job : AJob)
        → (one : ExpiresOne O.OutboundTransform old from job new to)
        → IsAnswered job.header.stream_id one.sent }
    // A receiver's result is the same if another was asked before. The newest request stays the newest.
    ensures received { (old mid new : ACore O I) (i j : ℕ)
        (other given : Option (Result (List ℕ) AnError)) → j ≢ i
        → ReceivesOne old i other mid → ReceivesOne mid j given new
        → (left : List AJob)
        × ReceivesBy old.state.rules old.connection.failure old.state j given left
        × (mail_at left j ≡ mail_at new.state.jobs.list j) }
    ensures received_newest { (old new : ACore O I) (i : ℕ)
        (given : Option (Result (List ℕ) AnError)) → ReceivesOne old i given new
        → new.state.jobs.newest ≡ old.state.jobs.newest }
{}

/// States that over any run a ticket counts as sent after its frame, or a later one with a ticket, was reported whole, and not before.
pub fn a_ticket_is_sent_once_reported<O: OutboundTransform, I: InboundTransform>()
    ensures { (s t : Server) (old new : AConnection O I) (calls : List (Call Served))
        (happenings : List Happening) (ticket : ℕ)
        → Runs (serving O.OutboundTransform I.InboundTransform)
        (served O.OutboundTransform) s old calls happenings t new
        → is_sent new.outbox.queue ticket
        ≡ (nat_lt 0 ticket && nat_le ticket
        (last_ticket (finished old.outbox.queue happenings) old.outbox.queue.sent)) }
{}

/// States that under async rules each stream id has at most one active job, over any run, also after a failure.
pub fn one_active_job_an_id<O: OutboundTransform, I: InboundTransform>()
    ensures { (s t : Server) (old new : AConnection O I) (calls : List (Call Served))
        (happenings : List Happening)
        → s.rules ≡ Rules.Async → AreSingle s.jobs.list
        → Runs (serving O.OutboundTransform I.InboundTransform)
        (served O.OutboundTransform) s old calls happenings t new
        → AreSingle t.jobs.list }
{}

/// States that over any run each job is handed out at most once, and never after it was handed out or expired. A call hands out no job
/// exactly if none waits or the connection has failed.
pub fn a_job_is_given_once<O: OutboundTransform, I: InboundTransform>()
    ensures once { (s t : Server) (old new : AConnection O I) (calls : List (Call Served))
        (happenings : List Happening)
        → Rising 0 s.jobs.list s.jobs.last
        → Runs (serving O.OutboundTransform I.InboundTransform)
        (served O.OutboundTransform) s old calls happenings t new
        → IsDistinct nat_eq (ids_given calls) }
    ensures never { (s t : Server) (old new : AConnection O I) (calls : List (Call Served))
        (happenings : List Happening) (id : ℕ)
        → id ≤ s.jobs.last → WaitsNot id s.jobs.list
        → Runs (serving O.OutboundTransform I.InboundTransform)
        (served O.OutboundTransform) s old calls happenings t new
        → AllByRecursion (λ other. id ≢ other) (ids_given calls) }
    ensures expired { (before after : ACore O I) (now : ℕ) (t : Server) (new : AConnection O I)
        (calls : List (Call Served)) (happenings : List Happening)
        → Rising 0 before.state.jobs.list before.state.jobs.last
        → (ticks : Ticks O.OutboundTransform before now after)
        → Runs (serving O.OutboundTransform I.InboundTransform)
        (served O.OutboundTransform) after.state after.connection calls happenings t new
        → AllByRecursion
        (λ (job : AJob). AllByRecursion (λ other. job.id ≢ other) (ids_given calls)) ticks.expired }
    ensures none { (old new : ACore O I) (given : Option AHandedJob)
        → Performs O.OutboundTransform (Took given) old new
        → (given ≡ None)
        ↔ ((is_some old.connection.failure ≡ true) ⊎ NoneWaits old.state.jobs.list) }
{}

/// States that the ids of jobs rise from 1 on, through every call and over any run, so that each job has its own id. The job that is handed
/// out has the least id of those that wait.
pub fn job_ids_rise<O: OutboundTransform, I: InboundTransform>()
    // Ids that rise still rise after a frame, and after a job was handed out or answered.
    ensures frames { (old new : Server) (o : O) (a : AFrame) (sent : List Sent)
        → serves O.OutboundTransform old o a sent new
        → Rising 0 old.jobs.list old.jobs.last → Rising 0 new.jobs.list new.jobs.last }
    ensures taken { (old new : List AJob) (last : ℕ) (handed : AHandedJob) → HandsOne old handed new
        → Rising 0 old last → Rising 0 new last }
    ensures answered { (old new : List AJob) (last id : ℕ) (job : AJob) → EndsOne old id job new
        → Rising 0 old last → Rising 0 new last }
    // The job that is handed out has the least id of those that wait.
    ensures least { (old new : List AJob) (handed : AHandedJob) (low high : ℕ)
        → HandsOne old handed new → Rising low old high
        → AllByRecursion
        (λ (j : AJob). (request : ARequest) → j.request ≡ Some request → handed.id ≤ j.id) old }
    // Ids that rise still rise after any run, and the last one never falls.
    ensures over_runs { (s t : Server) (old new : AConnection O I) (calls : List (Call Served))
        (happenings : List Happening)
        → Rising 0 s.jobs.list s.jobs.last
        → Runs (serving O.OutboundTransform I.InboundTransform)
        (served O.OutboundTransform) s old calls happenings t new
        → Rising 0 t.jobs.list t.jobs.last }
    ensures last { (s t : Server) (old new : AConnection O I) (calls : List (Call Served))
        (happenings : List Happening)
        → Runs (serving O.OutboundTransform I.InboundTransform)
        (served O.OutboundTransform) s old calls happenings t new
        → s.jobs.last ≤ t.jobs.last }
{}

/// States that under async rules each request that is read has an id above that of the newest request before it, and is then the newest,
/// whatever its row. No other frame and no call changes which request is the newest, and under sync rules there is none. So over any run
/// the ids of the requests that are read rise.
pub fn request_ids_rise<O: OutboundTransform, I: InboundTransform>()
    ensures read { (old new : Server) (o : O) (a : AFrame) (sent : List Sent) (plain : List ℕ)
        → serves O.OutboundTransform old o a sent new
        → old.rules ≡ Rules.Async → case_in old a ≡ ACase.Asks plain
        → IsAbove a.header.stream_id old.jobs.newest × (new.jobs.newest ≡ Some a.header.stream_id) }
    ensures others { (old new : Server) (o : O) (a : AFrame) (sent : List Sent)
        → serves O.OutboundTransform old o a sent new
        → (old.rules ≡ Rules.Async → (plain : List ℕ) → case_in old a ≢ ACase.Asks plain)
        → new.jobs.newest ≡ old.jobs.newest }
    ensures over_runs { (s t : Server) (old new : AConnection O I) (calls : List (Call Served))
        (happenings : List Happening)
        → Runs (serving O.OutboundTransform I.InboundTransform)
        (served O.OutboundTransform) s old calls happenings t new
        → IsNoOlder s.jobs.newest t.jobs.newest }
{}

/// States that the bytes that leave are those of frames that were queued. An answer, a response, an item and a stream's end each queue one
/// frame, under their stream id. A tick queues at most one frame for each job that is due, by rising id, and other calls queue none. A
/// piece that is fed queues, in order, at most one frame for each whole frame in it, under the same id. Over any run, also after a failure,
/// this history is allowed and leads to the queue after the run. So the bytes that left and those still to be written are the written forms
/// of the frames that depart, in order. The departing frames are all the frames that were queued, in order, since a server throws none
/// away.
pub fn what_leaves_was_queued<O: OutboundTransform, I: InboundTransform>()
    // Each call has its part in the queue's history. A piece that is fed queues frames for those that are whole with it.
    ensures caused { (old new : ACore O I) (call : Served)
        → Performs O.OutboundTransform call old new
        → (happenings : List Happening) × Causes call old new happenings }
    ensures caused_by_rows { (s t : Server) (old new : AConnection O I) (piece : List ℕ) (now : ℕ)
        → Gives (serving O.OutboundTransform I.InboundTransform) s old piece now t new
        → (queued : List AQueued) × Queues old queued new × AnswersPiece old piece queued new }
    // Over any run this history is allowed, and leads to the queue after it.
    ensures goes { (s t : Server) (old new : AConnection O I) (calls : List (Call Served))
        (happenings : List Happening)
        → Runs (serving O.OutboundTransform I.InboundTransform)
        (served O.OutboundTransform) s old calls happenings t new
        → Goes old.outbox.queue happenings new.outbox.queue }
    // The bytes that left and the unsent ones are the written forms of the departing frames, without the bytes reported before.
    ensures written { (s t : Server) (old new : AConnection O I) (calls : List (Call Served))
        (happenings : List Happening) → IsQueue old.outbox.queue
        → Runs (serving O.OutboundTransform I.InboundTransform)
        (served O.OutboundTransform) s old calls happenings t new
        → all_bytes_left old.outbox.queue happenings ++ unsent new.outbox.queue
        ≡ drop old.outbox.queue.reported (written_all (departing old.outbox.queue happenings)) }
    // The departing frames are all that were queued, in order, and none is thrown away.
    ensures in_order { (s t : Server) (old new : AConnection O I) (calls : List (Call Served))
        (happenings : List Happening)
        → Runs (serving O.OutboundTransform I.InboundTransform)
        (served O.OutboundTransform) s old calls happenings t new
        → departing old.outbox.queue happenings ≡ old.outbox.queue.frames ++ placed happenings }
    ensures nothing_thrown { (s t : Server) (old new : AConnection O I) (calls : List (Call Served))
        (happenings : List Happening)
        → Runs (serving O.OutboundTransform I.InboundTransform)
        (served O.OutboundTransform) s old calls happenings t new
        → thrown old.outbox.queue happenings ≡ [] }
{}

/// States that the cuts between pieces don't matter. Over any list of calls, also after a failure, the queue's history and the core's end
/// depend on the bytes, and not on how they were cut. Any result of one cutting is possible with any other.
pub fn cuts_do_not_matter<O: OutboundTransform, I: InboundTransform>()
    ensures { (s t : Server) (old new : AConnection O I) (calls cut : List (Call Served))
        (happenings : List Happening)
        → old.decoder ≡ nothing → joined calls ≡ joined cut
        → Runs (serving O.OutboundTransform I.InboundTransform)
        (served O.OutboundTransform) s old calls happenings t new
        → Runs (serving O.OutboundTransform I.InboundTransform)
        (served O.OutboundTransform) s old cut happenings t new }
{}
