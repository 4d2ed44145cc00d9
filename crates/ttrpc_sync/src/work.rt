//! The loop of a worker, for any port that gives jobs, any handler and any gate.
ghost use Rattle.std.specs.Prelude.{◌≡◌, None, true};
ghost use Rattle.ttrpc_sync.specs.Loops.{IsOneMore};
ghost use Rattle.ttrpc_sync.specs.Work.{EndsWorking, Worked, last_round};

use std::sync::Wait;

/// A handler for the requests of a worker's jobs.
pub trait Handler {
    /// The request of a job.
    type Request;
    /// The outcome of a request.
    type Outcome;

    // States that the request may have this outcome.
    ghost gives: { Self → Self.Request → Self.Outcome → Type 0 };

    /// Handles the request.
    fn handle(&self, request: Self::Request) -> Self::Outcome
        ensures { gives self.now request result };
}

/// A port that gives jobs, and takes the reports of their outcomes.
pub trait JobPort<H: Handler> {
    ghost use Rattle.std.specs.Prelude.{◌≡◌, ℕ, List, [], ◌∷◌, Option, None, Some, MatchOption};
    ghost use Rattle.ttrpc_sync.specs.declared.ports.PortState.{PortState};
    ghost use Rattle.ttrpc_sync.specs.Loops.{IsSameCount, IsOneMore};
    ghost use Rattle.ttrpc_sync.specs.Work.{Grows, Stays};

    /// The name of a job.
    type Key;

    // All jobs that the port gave, each with its key, if the port records them.
    ghost taken: { Self → Option (List (Self.Key × H.Request)) } = { λ _. None };

    // All outcomes that were reported, each with its job's key, if the port records them.
    ghost reported: { Self → Option (List (Self.Key × H.Outcome)) } = { λ _. None };

    // The job that the port gave and that hasn't been reported yet.
    ghost current: { Self → Option Self.Key };

    // The last report: `Stopped` if the port gives no more jobs.
    ghost state: { Self → PortState };

    // The number of loops that have begun, if the port counts them.
    ghost begun: { Self → Option ℕ } = { λ _. None };

    /// Begins a loop: nothing has been reported yet, and no job is under way.
    fn begin(&mut self)
        // The call takes nothing and reports nothing.
        ensures taken { Stays (taken self.old) (taken self.new) }
        ensures reported { Stays (reported self.old) (reported self.new) }
        // No job is under way, and the loop goes on.
        ensures current { current self.new ≡ None }
        ensures state { state self.new ≡ PortState.Open }
        ensures begun { IsOneMore (begun self.old) (begun self.new) };

    /// Waits for a job and returns it. Returns `None` if no more jobs come.
    fn take(&mut self) -> Option<(Self::Key, H::Request)>
        // The loop is under way, and no job is.
        requires state { state self.old ≡ PortState.Open }
        requires current { current self.old ≡ None }
        // A job is taken and is under way, or none is and the loop stops.
        ensures taken { MatchOption result (Stays (taken self.old) (taken self.new))
            (λ job. Grows (taken self.old) (taken self.new) (job ∷ [])) }
        ensures reported { Stays (reported self.old) (reported self.new) }
        ensures current { MatchOption result (current self.new ≡ None)
            (λ job. current self.new ≡ Some job.0) }
        ensures state { MatchOption result (state self.new ≡ PortState.Stopped)
            (λ _. state self.new ≡ PortState.Open) }
        // It is the same loop.
        ensures begun { IsSameCount (begun self.old) (begun self.new) };

    /// Reports that the job under this key has been handled, with its outcome.
    fn done(&mut self, key: Self::Key, outcome: H::Outcome)
        // The loop is under way, and so is this job.
        requires state { state self.old ≡ PortState.Open }
        requires current { current self.old ≡ Some key }
        // The outcome is reported, and no job is under way.
        ensures taken { Stays (taken self.old) (taken self.new) }
        ensures reported { Grows (reported self.old) (reported self.new) ((key, outcome) ∷ []) }
        ensures current { current self.new ≡ None }
        ensures state { state self.new ≡ PortState.Open }
        // It is the same loop.
        ensures begun { IsSameCount (begun self.old) (begun self.new) };
}

/// A gate that lets a worker wait for a job, or sends it away if enough workers wait.
pub trait Gate {
    ghost use Rattle.std.specs.Prelude.{◌≡◌, List, [], ◌∷◌, Option, None, Bool, true, false, if◌then◌else◌, MatchBool};
    ghost use Rattle.ttrpc_sync.specs.Work.{Passage, Entered, Left, Refused, Grows, IsInside};

    // How workers passed the gate, if it records that.
    ghost passages: { Self → Option (List Passage) } = { λ _. None };

    // True if the gate sent the last worker away.
    ghost is_shut: { Self → Bool };

    // True if the worker that was let in last has gone out again.
    ghost is_outside: { Self → Bool } = { λ _. true };

    /// Asks to wait for a job. Returns false if the worker is to end.
    fn enter(&mut self) -> bool
        ensures passages { Grows (passages self.old) (passages self.new)
            ((if result then Entered else Refused) ∷ []) }
        ensures shut { MatchBool result (is_shut self.new ≡ false) (is_shut self.new ≡ true) };

    /// Reports that the worker that was let in waits no longer.
    fn leave(&mut self)
        requires { IsInside (passages self.old) }
        ensures passages { Grows (passages self.old) (passages self.new) (Left ∷ []) }
        ensures shut { is_shut self.new ≡ is_shut self.old }
        ensures outside { is_outside self.new ≡ true };
}

/// Takes jobs, hands the request of each to the handler, and reports its outcome. The loop ends when the port gives no
/// more jobs, or when the gate sends the worker away. The worker is inside the gate while it waits for a job, and goes
/// out even if it got none.
pub fn work_loop<X: Wait, H: Handler, P: JobPort<H>, G: Gate>(
    rt: &X,
    port: &mut P,
    handler: &H,
    gate: &mut G,
)
    ensures worked { Worked (H.gives handler.now) (last_round (P.state port.new))
        (P.taken port.old) (P.taken port.new)
        (P.reported port.old) (P.reported port.new) (G.passages gate.old) (G.passages gate.new) }
    ensures all { P.current port.new ≡ None }
    ensures once { IsOneMore (P.begun port.old) (P.begun port.new) }
    ensures over { EndsWorking (P.state port.new) (G.is_shut gate.new) }
{
    port.begin();
    for _ in rt.forever() {
        if !gate.enter() {
            return;
        }
        let job = port.take();
        gate.leave();
        let Some((key, request)) = job else {
            return;
        };
        let outcome = handle_outside(handler, gate, request);
        port.done(key, outcome);
    }
    unreachable!()
}

/// Handles a request, while its worker doesn't count as waiting.
fn handle_outside<H: Handler, G: Gate>(handler: &H, _gate: &G, request: H::Request) -> H::Outcome
    requires { G.is_outside _gate.now ≡ true }
    ensures { H.gives handler.now request result }
{
    handler.handle(request)
}
