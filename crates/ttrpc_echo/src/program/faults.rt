//! The faults of a server, which are kept until they are reported.
use std::alloc::Global;
use std::collections::VecDeque;
use std::sync::{Arc, Condvar, Mutex, Wait};
use ttrpc_proto::{Error, Result};
use ttrpc_sync::Host;
use ttrpc_sync_server::Watch;

/// The number of faults that are kept until they are reported. More are dropped, so that slow reporting doesn't hold
/// the server.
const FAULTS_KEPT: usize = 64;

/// The faults that are still to be reported, each as its text.
#[derive(Drop)]
pub struct Faults {
    texts: Mutex<VecDeque<String>>,
    came: Condvar,
}

impl Faults {
    /// Returns an empty list of faults. Takes no memory.
    pub fn new(alloc: Global) -> Faults {
        Faults {
            texts: Mutex::new(VecDeque::new(alloc)),
            came: Condvar::new(),
        }
    }

    /// Waits for the next fault, removes it and returns it.
    pub fn next<X: Wait>(&self, rt: &X) -> String {
        let mut texts = self.texts.lock(rt);
        for _ in rt.forever() {
            if let Some(text) = texts.pop_front() {
                return text;
            }
            texts = self.came.wait(rt, texts);
        }
        unreachable!()
    }

    /// Adds a fault, if fewer than `FAULTS_KEPT` are kept and there is memory for it.
    fn add<X: Wait>(&self, rt: &X, text: String) {
        let mut texts = self.texts.lock(rt);
        if texts.len() < FAULTS_KEPT {
            let _ = texts.push_back(text);
        }
        drop(texts);
        self.came.notify_one();
    }
}

/// A server's watch, which keeps each fault until it is reported.
#[derive(Drop)]
pub struct FaultKeeper<R: Host> {
    rt: R,
    faults: Arc<Faults, Global>,
}

impl<R: Host> FaultKeeper<R> {
    /// Returns a watch that keeps the faults there.
    pub fn new(rt: &R, faults: &Arc<Faults, Global>) -> Result<FaultKeeper<R>> {
        Ok(FaultKeeper {
            rt: rt.clone()?,
            faults: Arc::try_clone(faults)?,
        })
    }

    fn keep(&self, what: &str, error: &Error) {
        if let Ok(text) = format!(in self.rt.alloc(); "{what}: {error}") {
            self.faults.add(&self.rt, text);
        }
    }
}

impl<R: Host> Watch for FaultKeeper<R> {
    fn accept_failed(&self, error: &Error) {
        self.keep("no connection was accepted", error);
    }

    fn connection_dropped(&self, error: &Error) {
        self.keep("a connection was closed", error);
    }

    fn worker_missing(&self, error: &Error) {
        self.keep("a worker is missing", error);
    }

    fn handler_failed(&self, error: &Error) {
        self.keep("a handler failed", error);
    }
}
