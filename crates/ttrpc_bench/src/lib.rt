//! Parts for programs that try out and measure a connection, and for tests: halves without a cipher, hooks, readers and
//! writers. `checks` has the failures of tests, and `vectors` has frames that a peer may send.
#![tactic(auto)]

pub mod checks;
mod hooks;
mod manners;
mod odd_halves;
mod readers;
mod stamp;
pub mod vectors;
mod writers;

pub use hooks::{Rejects, Stamps, knowing, no_memory, rejected};
pub use manners::{AT_ONCE, Manner, NO_CALL};
pub use odd_halves::{Sealed, Swelling};
pub use readers::{Giver, StdReader};
pub use stamp::{StampIn, StampOut, Transformed, stamps};
pub use writers::{ROOM, Receiver, StdWriter};
