//! The steps at the beginning of most rows of clients.
use crate::tests::script::Step::{self, *};

/// The first call, without a deadline.
pub const CALLS_FIRST: Step = Calls(0, 0, 1);

/// The second call, without a deadline.
pub const CALLS_SECOND: Step = Calls(0, 0, 3);

/// The first call, which is due at 10.
pub const CALLS_FIRST_IN_TIME: Step = Calls(10, 0, 1);

/// The second call, which is due at 10, too.
pub const CALLS_SECOND_IN_TIME: Step = Calls(10, 0, 3);

/// The first stream, with items from both sides.
pub const OPENS_FIRST: Step = Opens(true, true, b"", 1);

/// The second stream, with items from both sides.
pub const OPENS_SECOND: Step = Opens(true, true, b"", 3);
