//! The number of calls, jobs, streams and items in the tests with many of them.

/// `tools/measure-cores` replaces this number.
pub const MANY: u32 = 1000;
