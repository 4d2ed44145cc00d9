//! The data that are known of a connection, kept as they are.
ghost use Rattle.std.specs.Prelude.{◌≡◌};
ghost use Rattle.ttrpc_secure.specs.Hooks.Facts.{facts_of};

use crate::hooks::datum::ConnectionData;
use std::marker::Model;

/// The data that are known of a connection, kept as they are.
#[derive(Drop)]
pub struct ConnectionFacts {
    data: ConnectionData,
}

impl Model for ConnectionFacts {
    ghost use Rattle.ttrpc_secure.specs.Hooks.Facts.{Facts, facts_of};

    ghost Value = { Facts };

    ghost view = { λ a. facts_of a.data.entries };
}

impl ConnectionFacts {
    /// Returns facts that keep these data. Takes no memory.
    pub fn new(given: ConnectionData) -> ConnectionFacts
        ensures { result ≡ facts_of given.entries }
    {
        ConnectionFacts { data: given }
    }

    /// Returns the kept data. Takes no memory.
    pub fn data(&self) -> &ConnectionData
        ensures { facts_of result.now.entries ≡ self.now }
    {
        &self.data
    }
}
