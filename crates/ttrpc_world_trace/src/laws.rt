//! A law over the definitions: the consequence of the headline for ids.
ghost use Rattle.std.specs.Prelude.{◌≤◌, List, length};
ghost use Rattle.ttrpc_world_trace.specs.Told.{IsExactlyOnce, names, runs};
ghost use Rattle.ttrpc_world_trace.specs.Trace.{Act};

/// States that ids are distinct: under each id at most one call is made or one stream is opened, and at most one job runs.
pub fn ids_are_distinct()
    ensures { (xs : List Act) → IsExactlyOnce xs
        → (length (names xs) ≤ 1) × (length (runs xs) ≤ 1) }
{}
