//! The world: one client and one server over two pipes, and the run of any list of events on them.
ghost use Rattle.std.specs.Prelude.{◌≡◌, ◌≤◌, [], ℕ, length, map, IfOk, IfErr};
ghost use Rattle.std.specs.Vec.{vec_capacity};
ghost use Rattle.ttrpc_proto.specs.declared.error.Error.{Error as AnError};
ghost use Rattle.ttrpc_world.specs.Headline.Words.{Entry as AnEntry, IsFresh, IsTold, Net, Runs, empty_pipe, halves};
ghost use Rattle.ttrpc_world.specs.Headline.Named.{AreNamed};
ghost use Rattle.ttrpc_secure.specs.Sends.{safe_limit};

use crate::headline::laws::runs_are_told;
use crate::{ClientCore, Entry, Event, Pair, ServerCore, Trace};
use std::alloc::Global;
use std::marker::Model;
use ttrpc_proto::Error;
use ttrpc_secure::{InboundTransform, OutboundTransform};

/// A client and a server, each over its outbound and inbound half, and the bytes in flight between them.
#[derive(Drop)]
pub struct World<CO, CI, SO, SI> {
    pair: Pair<CO, CI, SO, SI>,
}

impl<CO, CI, SO, SI> Model for World<CO, CI, SO, SI> {
    ghost use Rattle.ttrpc_world.specs.Headline.Words.{Net};

    ghost Value = { Net CO CI SO SI };

    ghost view = { λ a. a.pair };
}

impl<
    CO: OutboundTransform + Drop,
    CI: InboundTransform + Drop,
    SO: OutboundTransform + Drop,
    SI: InboundTransform + Drop,
> World<CO, CI, SO, SI> {
    /// Returns a world of these two cores, with nothing in flight, at moment 0. Takes no memory.
    pub fn new(alloc: Global, client: ClientCore<CO, CI>, server: ServerCore<SO, SI>) -> Self
        ensures { result ≡ record {
          client = client;
          server = server;
          up = empty_pipe;
          down = empty_pipe;
          moment = 0;
          responded = [];
        } }
    {
        World {
            pair: Pair::new(alloc, client, server),
        }
    }

    /// Lets these events happen, in order, and returns each with its reply. Returns `NoMemory` if room for the trace is
    /// refused, before any event happens.
    pub fn run(self, alloc: Global, events: Vec<Event>) -> Result<Trace, Error>
        requires { IsFresh
            (halves CO.OutboundTransform CI.InboundTransform)
            (halves SO.OutboundTransform SI.InboundTransform) self }
        // The trace has one entry for each event, in order.
        ensures events { IfOk result (λ trace. map AnEntry.event trace.items ≡ events.items) }
        // Each entry is a step that the cores' tables allow.
        ensures steps { IfOk result (λ trace. (last : Net _ _ _ _) × Runs
            (halves CO.OutboundTransform CI.InboundTransform)
            (halves SO.OutboundTransform SI.InboundTransform) CO.SEALS
            self trace.items last) }
        // One function gives each job its stream id, and no two jobs have the same one. No handler runs without a call or a
        // stream, twice for one of them, or with another request. Each call has at most one outcome, and an `Ok` outcome is
        // the answer of its one run. At each place of the trace, the items that a receiver was given are a beginning of the
        // items that were put in, in order. A receiver that was given an end was given all items. In a clean quiet run, a
        // call of a method of this server is whole if it was asked for. It has one run, one answer, and the outcome that this
        // answer gives. In such a run, a receiver that is asked out was given all items that were put in.
        ensures told { IfOk result (λ trace. (stream_of : ℕ → ℕ) × IsTold
            self.server.state.rules
            self.server.state.services
            (safe_limit SO.OutboundTransform self.server.connection.outbox.half)
            stream_of trace.items) }
        // A job that was handed out for a method of the server isn't a stream's job: it is answered by one response.
        ensures named { IfOk result (λ trace. AreNamed self.server.state.services trace.items) }
        ensures refused { IfErr result (λ error. error ≡ AnError.NoMemory) }
    {
        runs_are_told::<CO, CI, SO, SI>();
        let mut world = self;
        world.run_all(alloc, events)
    }

    /// Lets these events happen, and returns each with its reply. An error is returned before any event happens.
    fn run_all(&mut self, alloc: Global, events: Vec<Event>) -> Result<Trace, Error>
        ensures events { IfOk result (λ trace. map AnEntry.event trace.items ≡ events.items) }
        ensures steps { IfOk result (λ trace. Runs
            (halves CO.OutboundTransform CI.InboundTransform)
            (halves SO.OutboundTransform SI.InboundTransform) CO.SEALS
            self.old trace.items self.new) }
        ensures refused { IfErr result (λ error. error ≡ AnError.NoMemory) }
    {
        let mut trace = Vec::with_capacity(alloc, events.len())?;
        run_pair(&mut self.pair, alloc, events, &mut trace);
        Ok(trace)
    }
}

/// Lets these events happen to a pair, and pushes each with its reply onto the trace, which is empty and has room for
/// all of them.
fn run_pair<
    CO: OutboundTransform + Drop,
    CI: InboundTransform + Drop,
    SO: OutboundTransform + Drop,
    SI: InboundTransform + Drop,
>(pair: &mut Pair<CO, CI, SO, SI>, alloc: Global, events: Vec<Event>, trace: &mut Trace)
    requires room { length events.items ≤ vec_capacity trace.old }
    requires empty { trace.old.items ≡ [] }
    ensures events { map AnEntry.event trace.new.items ≡ events.items }
    ensures steps { Runs
        (halves CO.OutboundTransform CI.InboundTransform)
        (halves SO.OutboundTransform SI.InboundTransform) CO.SEALS
        pair.old trace.new.items pair.new }
{
    for event in events {
        let reply = pair.step(alloc, &event);
        trace.push_reserved(Entry { event, reply });
    }
}
