//! The connections that a server has open.
use crate::connection::ThreadCount;
use std::alloc::{AllocError, Global};
use std::collections::BTreeMap;
use std::sync::{Arc, Condvar, Mutex, Wait};
use ttrpc_transport::PipeConnection;

/// A connection that a server has open, and the threads that serve it.
#[derive(Drop)]
pub struct OpenConnection {
    pub stream: Arc<PipeConnection, Global>,
    pub thread_count: Arc<ThreadCount, Global>,
}

impl OpenConnection {
    // Ends the connection after its answers have left, or at once if it has no threads yet.
    fn finish<X: Wait>(&self, rt: &X) {
        if self.thread_count.drain(rt) {
            let _ = self.stream.shutdown();
        } else {
            let _ = self.stream.close();
            self.thread_count.end(rt);
        }
    }
}

/// The connections that a server has open, under their numbers.
#[derive(Drop)]
pub struct Connections {
    held: Mutex<Open>,
    changed: Condvar,
}

#[derive(Drop)]
struct Open {
    connections: BTreeMap<u64, OpenConnection>,
    next: u64,
}

impl Connections {
    /// Makes an empty collection of connections. Takes no memory.
    pub fn new(alloc: Global) -> Connections {
        Connections {
            held: Mutex::new(Open {
                connections: BTreeMap::new(alloc),
                next: 0,
            }),
            changed: Condvar::new(),
        }
    }

    /// Adds a connection, and returns its number.
    pub fn add<X: Wait>(&self, rt: &X, connection: OpenConnection) -> Result<u64, AllocError> {
        let mut open = self.held.lock(rt);
        let number = open.next;
        open.connections.insert(number, connection)?;
        open.next = number.saturating_add(1);
        Ok(number)
    }

    /// Removes the connection of this number.
    pub fn remove<X: Wait>(&self, rt: &X, number: u64) {
        let mut open = self.held.lock(rt);
        let removed = open.connections.remove(&number);
        drop(open);
        drop(removed);
        self.changed.notify_all();
    }

    /// Returns how many connections are open.
    pub fn count<X: Wait>(&self, rt: &X) -> usize {
        self.held.lock(rt).connections.len()
    }

    /// Stops reading from all of them, and waits until each has ended after its answers have left.
    pub fn finish_all<X: Wait>(&self, rt: &X) {
        let mut open = self.held.lock(rt);
        for (_, connection) in open.connections.iter() {
            connection.finish(rt);
        }
        for _ in rt.forever() {
            if open.connections.is_empty() {
                return;
            }
            open = self.changed.wait(rt, open);
        }
        unreachable!()
    }
}
