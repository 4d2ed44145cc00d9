//! The data of a connection, as both cores lend it.
use crate::server::registry;
use crate::tests::under_test::{End, Tested};
use std::alloc::Global;
use std::process::Abort;
use std::test::Fail;
use ttrpc_client::{ClientCore, ClientKind};
use ttrpc_secure::{
    ConnectionContext, ConnectionData, ConnectionDataExt, Datum, Plain, plain_context,
};
use ttrpc_server::{Rules, ServerCore};

/// Returns the context of a connection with one number as its data.
fn context(alloc: Global) -> Result<ConnectionContext<Plain, Plain>, Fail> {
    let mut context = plain_context(alloc);
    knows_seven(alloc, &mut context.connection_data)?;
    Ok(context)
}

fn knows_seven(alloc: Global, data: &mut ConnectionData) -> Tested {
    let name = String::from_str(alloc, "peer")?;
    data.insert(name, Datum::U32(7))?;
    Ok(())
}

fn is_seven(data: &ConnectionData) -> bool {
    match data.get_typed::<u32>("peer") {
        Some(number) => *number == 7,
        None => false,
    }
}

/// A core that lends the data of its connection.
trait Knows: End {
    fn known(&self) -> &ConnectionData;
}

impl Knows for ClientCore<Plain, Plain> {
    fn known(&self) -> &ConnectionData {
        self.connection_data()
    }
}

impl Knows for ServerCore<Plain, Plain> {
    fn known(&self) -> &ConnectionData {
        self.connection_data()
    }
}

/// Checks that the core lends that number, even after bytes have come.
fn lends_seven<C: Knows + Drop>(rt: &impl Abort, alloc: Global, core: C) -> Tested {
    let mut core = core;
    core.feed(alloc, &[0])?;
    assert!(rt; is_seven(core.known()));
    Ok(())
}

#[test]
fn what_a_client_knows_is_lent(rt: HostRuntime) -> Tested {
    let alloc = rt.alloc();
    let context = context(alloc)?;
    lends_seven(
        &rt,
        alloc,
        ClientCore::new(alloc, ClientKind::Sync, context)?,
    )
}

#[test]
fn what_a_server_knows_is_lent(rt: HostRuntime) -> Tested {
    let alloc = rt.alloc();
    let registry = registry(alloc)?;
    let context = context(alloc)?;
    lends_seven(
        &rt,
        alloc,
        ServerCore::new(alloc, Rules::Sync, registry, context)?,
    )
}
