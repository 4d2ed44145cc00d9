//! The parts that both ends of a connection share: the turn to write, and the ports of its readers and writers. Each call of a port takes
//! the connection's lock.

mod batch;
mod connected;
mod read_end;
mod turn;
mod write_end;

pub use self::batch::{BATCH_BYTES, BATCH_LOANS, Batch};
pub use self::connected::{ConnectionLock, Loan, LockedState, Taken, wait_for_room};
pub use self::read_end::ReadEnd;
pub use self::turn::{Next, WriteTurn};
pub use self::write_end::WriteEnd;
