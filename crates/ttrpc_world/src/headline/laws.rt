//! The headline and two more laws of every run, over the definitions.
ghost use Rattle.std.specs.Prelude.{◌≡◌, ◌≢◌, ◌∷◌, ℕ, List, None};
ghost use Rattle.ttrpc_world.specs.Headline.Words.{Entry as AnEntry, Flying, IsFresh, IsTold, Net, NotAbove, Opened, Runs, Server, case_in, halves};
ghost use Rattle.ttrpc_world.specs.Headline.Requests.{RequestsInFlight, RequestsRise};
ghost use Rattle.ttrpc_secure.specs.Sends.{safe_limit};

use ttrpc_secure::{InboundTransform, OutboundTransform};

/// States the headline for every run of a new client and a new server over paired halves. One function gives each job its
/// stream id, and no two jobs have the same one. No handler runs without a call or a stream, twice for one of them, or with
/// another request. Each call has at most one outcome, and an `Ok` outcome is the answer of its one run. At each place of the
/// trace, the items that a receiver was given are a beginning of the items that were put in, in order. A receiver that was
/// given an end was given all items. In a clean quiet run, a call of a method of the server is whole if it was asked for. In
/// such a run, a receiver that is asked out was given all items.
pub fn runs_are_told<
    CO: OutboundTransform,
    CI: InboundTransform,
    SO: OutboundTransform,
    SI: InboundTransform,
>()
    ensures { let c = halves CO.OutboundTransform CI.InboundTransform in
        let s = halves SO.OutboundTransform SI.InboundTransform in
        (old new : Net CO CI SO SI) (trace : List AnEntry)
        → IsFresh c s old → Runs c s CO.SEALS old trace new
        → (stream_of : ℕ → ℕ) × IsTold old.server.state.rules old.server.state.services
        (safe_limit SO.OutboundTransform old.server.connection.outbox.half) stream_of trace }
{}

/// States that the ids of the requests in flight to the server rise, in every run from a fresh start, until the server fails.
/// They are above the id of the newest request that the server has seen, and below the client's next id. So the server never
/// refuses the first of these frames for an id that isn't above that of the newest request.
pub fn request_ids_rise_in_flight<
    CO: OutboundTransform,
    CI: InboundTransform,
    SO: OutboundTransform,
    SI: InboundTransform,
>()
    ensures rise { let c = halves CO.OutboundTransform CI.InboundTransform in
        let s = halves SO.OutboundTransform SI.InboundTransform in
        (old new : Net CO CI SO SI) (trace : List AnEntry)
        → IsFresh c s old → Runs c s CO.SEALS old trace new
        → new.server.connection.failure ≡ None → RequestsInFlight c s new }
    ensures none_refused { (server : Server) (x : Flying) (xs : List Flying) (next now m : ℕ)
        → RequestsRise server.jobs.newest (x ∷ xs) next
        → case_in server
        (record { header = x.frame.message.header; opening = Opened x.plain; now = now })
        ≢ NotAbove m }
{}

/// States that no run changes the server's rules, its services, or the limit of the data that its outbound half may seal.
pub fn settings_stay<
    CO: OutboundTransform,
    CI: InboundTransform,
    SO: OutboundTransform,
    SI: InboundTransform,
>()
    ensures { (old new : Net CO CI SO SI) (trace : List AnEntry)
        → Runs (halves CO.OutboundTransform CI.InboundTransform)
        (halves SO.OutboundTransform SI.InboundTransform) CO.SEALS old trace new
        → (new.server.state.rules ≡ old.server.state.rules)
        × (new.server.state.services ≡ old.server.state.services)
        × (safe_limit SO.OutboundTransform new.server.connection.outbox.half
        ≡ safe_limit SO.OutboundTransform old.server.connection.outbox.half) }
{}
