//! Worlds with a server that has the methods `Check` and `Other` of `demo.Health`.
ghost use Rattle.std.specs.Prelude.{◌≡◌, codes, true, IfOk};
ghost use Rattle.ttrpc_server.specs.State.{has_method};

use crate::table::HealthTable;
use crate::{Statuses, run_health};
use std::alloc::Global;
use std::test::Fail;
use ttrpc::Result;
use ttrpc::cores::client::{ClientCore, ClientKind};
use ttrpc::cores::server::{Registry, Rules, ServerCore};
use ttrpc::cores::world::{Event, World};
use ttrpc::proto::Text;
use ttrpc::security_extension::{ConnectionContext, plain_context};
use ttrpc_bench::stamps;
use ttrpc_secure::plain::plain_is_paired;

/// The report of a run.
pub type Report = Option<Statuses>;

/// The halves that a run goes over.
#[derive(Clone, Copy)]
pub enum Over {
    Plain,
    /// Halves that stamp.
    Stamps,
}

/// Makes the methods of the server.
fn registry(alloc: Global) -> Result<Registry>
    ensures { IfOk result
        (λ registry. has_method registry (codes "demo.Health") (codes "Check") ≡ true) }
{
    let mut registry = Registry::new(alloc);
    registry.add_method(
        alloc,
        Text::from_str(alloc, "demo.Health")?,
        Text::from_str(alloc, "Other")?,
    )?;
    registry.add_method(
        alloc,
        Text::from_str(alloc, "demo.Health")?,
        Text::from_str(alloc, "Check")?,
    )?;
    Ok(registry)
}

/// Runs events over plain halves.
fn over_plain(
    alloc: Global,
    rules: Rules,
    events: Vec<Event>,
    table: &HealthTable,
) -> Result<Report> {
    plain_is_paired();
    let registry = registry(alloc)?;
    let client = ClientCore::new(alloc, ClientKind::Async, plain_context(alloc))?;
    let server = ServerCore::new(alloc, rules, registry, plain_context(alloc))?;
    run_health(alloc, World::new(alloc, client, server), events, table)
}

/// Runs events over halves that stamp.
fn over_stamps(
    alloc: Global,
    rules: Rules,
    events: Vec<Event>,
    table: &HealthTable,
) -> Result<Report> {
    let registry = registry(alloc)?;
    let (up_out, up_in) = stamps();
    let (down_out, down_in) = stamps();
    let up = ConnectionContext::of_halves(alloc, up_out, down_in);
    let down = ConnectionContext::of_halves(alloc, down_out, up_in);
    let client = ClientCore::new(alloc, ClientKind::Async, up)?;
    let server = ServerCore::new(alloc, rules, registry, down)?;
    run_health(alloc, World::new(alloc, client, server), events, table)
}

/// Runs events over these halves, and returns what is reported of them.
pub fn run_over(
    alloc: Global,
    over: Over,
    rules: Rules,
    events: Vec<Event>,
    table: &HealthTable,
) -> std::result::Result<Report, Fail> {
    Ok(match over {
        Over::Plain => over_plain(alloc, rules, events, table)?,
        Over::Stamps => over_stamps(alloc, rules, events, table)?,
    })
}
