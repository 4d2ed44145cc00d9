//! The cores that rows are run on, and their kinds.
use ttrpc_bench::{Sealed, StampIn, StampOut, Swelling};
use ttrpc_client::{ClientCore, ClientKind};
use ttrpc_secure::Plain;
use ttrpc_server::{Rules, ServerCore};

pub type PlainServer = ServerCore<Plain, Plain>;

pub type StampedServer = ServerCore<StampOut, StampIn>;

pub type SwellingServer = ServerCore<Plain, Swelling>;

pub type SealedServer = ServerCore<Sealed, Plain>;

pub type PlainClient = ClientCore<Plain, Plain>;

pub type StampedClient = ClientCore<StampOut, StampIn>;

pub type SwellingClient = ClientCore<Plain, Swelling>;

pub type SealedClient = ClientCore<Sealed, Plain>;

pub const SYNC_RULES: &[Rules] = &[Rules::Sync];

pub const ASYNC_RULES: &[Rules] = &[Rules::Async];

pub const BOTH_RULES: &[Rules] = &[Rules::Sync, Rules::Async];

pub const SYNC_KIND: &[ClientKind] = &[ClientKind::Sync];

pub const ASYNC_KIND: &[ClientKind] = &[ClientKind::Async];

pub const BOTH_KINDS: &[ClientKind] = &[ClientKind::Sync, ClientKind::Async];
