//! The loops between a stream of bytes and a port. One loop hands on the bytes that a reader gives. The other writes the bytes that a port
//! lends, and reports the bytes that the writer took. A third loop takes jobs, hands each to its handler and reports the outcome. The loops
//! add nothing, and end only for a reason that they reported or that was reported to them.
//! The module `ends` has the ports of a connection that threads share, and the turn to write. The module `link` has that connection over a
//! socket, and `pool` counts its waiting workers. This crate knows neither core.
#![tactic(auto)]

pub mod ends;
mod gather;
pub mod link;
mod locking;
mod loops;
pub mod pool;
mod ports;
mod work;

pub use ends::{
    BATCH_BYTES, BATCH_LOANS, Batch, ConnectionLock, Loan, LockedState, Next, ReadEnd, Taken,
    WriteEnd, WriteTurn, wait_for_room,
};
pub use gather::{GATHER_LIMIT, Gather, PART_LIMIT, ROOM_AT_REST, SHORT_LIMIT};
pub use link::{AfterQueuing, ConnectionWriter, Host, Link, Runtime, after_queuing};
pub use locking::{lock_soon, wait_soon};
pub use loops::{read_loop, write_loop};
pub use pool::PoolCore;
pub use ports::{PortState, ReadPort, WritePort};
pub use ttrpc_transport::moment;
pub use work::{Gate, Handler, JobPort, work_loop};
