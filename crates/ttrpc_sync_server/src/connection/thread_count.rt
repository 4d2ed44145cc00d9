//! The threads that serve one connection: how many there are, when more workers are started, and how all threads end.
use std::sync::{Condvar, Mutex, Wait};
use std::time::{Clock, Duration};

/// The count of a connection's threads, and what they are to do.
#[derive(Drop)]
pub struct ThreadCount {
    held: Mutex<Count>,
    changed: Condvar,
}

#[derive(Drop)]
struct Count {
    // The threads that have begun, or are about to, and haven't ended.
    threads: u64,
    // How often it was reported that too few workers wait, without an order to fill since.
    shortages: u64,
    drain: Drain,
    // True if each request is answered and no more come.
    is_answered: bool,
    is_over: bool,
}

/// The state of a connection as to new requests.
#[derive(Clone, Copy, Debug)]
enum Drain {
    /// The connection takes requests.
    No,
    /// The connection is to take no more requests, and its keeper doesn't know yet.
    Asked,
    /// The connection takes no more requests, and its keeper knows.
    Told,
}

/// An order for the keeper of a connection.
#[derive(Clone, Copy, Debug, PartialEq, Eq)]
pub enum Order {
    /// Start the missing workers.
    Fill,
    /// Take no more requests.
    Drain,
    /// Let the answers leave: each request is answered.
    Flush,
    /// Look at the connection again.
    Look,
    /// End the connection.
    End,
}

impl Count {
    // Returns the next order, if something is to be done.
    fn take_order(&mut self) -> Option<Order> {
        if self.is_over {
            return Some(Order::End);
        }
        match self.drain {
            Drain::Asked => {
                self.drain = Drain::Told;
                return Some(Order::Drain);
            }
            Drain::Told if self.is_answered => return Some(Order::Flush),
            Drain::Told | Drain::No => {}
        }
        if self.shortages == 0 {
            return None;
        }
        self.shortages -= 1;
        Some(Order::Fill)
    }
}

impl ThreadCount {
    /// Makes the count of a connection without threads.
    pub fn new() -> ThreadCount {
        ThreadCount {
            held: Mutex::new(Count {
                threads: 0,
                shortages: 0,
                drain: Drain::No,
                is_answered: false,
                is_over: false,
            }),
            changed: Condvar::new(),
        }
    }

    /// Counts a thread that is about to begin.
    pub fn joins<X: Wait>(&self, rt: &X) {
        let mut count = self.held.lock(rt);
        count.threads = count.threads.saturating_add(1);
    }

    /// Counts out a thread that has done its work, or couldn't be started.
    pub fn leaves<X: Wait>(&self, rt: &X) {
        let mut count = self.held.lock(rt);
        count.threads = count.threads.saturating_sub(1);
        drop(count);
        self.changed.notify_all();
    }

    /// Reports that too few workers wait.
    pub fn report_shortage<X: Wait>(&self, rt: &X) {
        let mut count = self.held.lock(rt);
        count.shortages = count.shortages.saturating_add(1);
        drop(count);
        self.changed.notify_all();
    }

    /// Asks the keeper of the connection to take no more requests, and to end the connection after the requests that came are
    /// answered. Returns whether the connection has threads; if it has none, nothing was asked.
    pub fn drain<X: Wait>(&self, rt: &X) -> bool {
        let mut count = self.held.lock(rt);
        if count.threads == 0 {
            return false;
        }
        if matches!(count.drain, Drain::No) {
            count.drain = Drain::Asked;
        }
        drop(count);
        self.changed.notify_all();
        true
    }

    /// Reports that each request is answered and no more come.
    pub fn report_answered<X: Wait>(&self, rt: &X) {
        self.held.lock(rt).is_answered = true;
        self.changed.notify_all();
    }

    /// Reports that the connection ends.
    pub fn end<X: Wait>(&self, rt: &X) {
        self.held.lock(rt).is_over = true;
        self.changed.notify_all();
    }

    /// Waits until there is an order, and returns it. If `rest` is given, waits at most that long, and then returns `Look`.
    pub fn next_order<X: Wait + Clock>(&self, rt: &X, rest: Option<Duration>) -> Order {
        let mut count = self.held.lock(rt);
        for _ in rt.forever() {
            if let Some(order) = count.take_order() {
                return order;
            }
            match rest {
                Some(rest) => {
                    count = self.changed.wait_timeout(rt, count, rest).0;
                    return count.take_order().unwrap_or(Order::Look);
                }
                None => count = self.changed.wait(rt, count),
            }
        }
        unreachable!()
    }

    /// Waits until the connection ends, or until the limit has passed, if there is one.
    pub fn wait_for_end<X: Wait + Clock>(&self, rt: &X, limit: Option<Duration>) {
        let count = self.held.lock(rt);
        match limit {
            Some(limit) => {
                let _ = self
                    .changed
                    .wait_timeout_while(rt, count, limit, |count| !count.is_over);
            }
            None => {
                let _ = self.changed.wait_while(rt, count, |count| !count.is_over);
            }
        }
    }

    /// Waits until all threads have done their work.
    pub fn wait_for_all<X: Wait>(&self, rt: &X) {
        let mut count = self.held.lock(rt);
        for _ in rt.forever() {
            if count.threads == 0 {
                return;
            }
            count = self.changed.wait(rt, count);
        }
        unreachable!()
    }
}
