//! The errors of either core.
use ttrpc_bench::vectors::Told::{self, Others};

pub const UNKNOWN: Told = Others("unknown stream");

pub const UNKNOWN_JOB: Told = Others("unknown job");

pub const OTHER_RULES: Told = Others("wrong rules for this call");

pub const USED_UP: Told = Others("stream ids are used up");

pub const SEALED_UP: Told = Others("transform_outbound failed: sealed up");
