//! The exchanges of the program `ttrpc-load` that are polled on one event loop: calls, streams of each kind, and
//! clients at rest. The program's callers in threads use two of its parts, too: the request of a call, and the share of
//! calls that each caller makes.
#![tactic(auto)]

mod calling;
mod calls;
mod counts;
mod exchanges;
mod load;
mod looped;
mod resting;
mod talks;
mod tally;
mod task;

pub use calling::{request_of, same};
pub use exchanges::Work;
pub use load::{Load, share};
pub use looped::{Looped, Ran, run_polled};
pub use resting::{rest, rest_at};
