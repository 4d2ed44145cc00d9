//! The system calls that a connection's threads need.

use std::sync::Wait;
use std::thread::Threads;
use std::time::Clock;

/// The system calls that calls over a connection need: locks, the clock, and memory.
pub trait Host: Wait + Clock + AllocGlobal + Clone + Drop {}

impl<R: Wait + Clock + AllocGlobal + Clone + Drop> Host for R {}

/// The system calls that clients and servers need: those of `Host`, and threads.
pub trait Runtime: Host + Threads + Send + Sync + 'static {}

impl<R: Host + Threads + Send + Sync + 'static> Runtime for R {}
