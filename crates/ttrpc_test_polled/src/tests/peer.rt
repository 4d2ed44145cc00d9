//! A peer that answers each call with its payload, and sends each item back.
ghost use Rattle.std.specs.Prelude.{◌≡◌};

use futures::Future;
use futures::task::{Context, Poll, Source, Waker};
use std::alloc::Global;
use std::io::ErrorKind;
use std::sync::Mutex;
use std::time::Clock;
use tokio::io::DuplexStream;
use ttrpc_polled::{ConnectionDriver, PolledState, SharedConnection, Step};
use ttrpc_proto::{Error, Response, ResponseInit, Result, get_status};
use ttrpc_secure::Plain;
use ttrpc_server::{JobId, ServerCore};
use ttrpc_wire::{Blob, Code};

/// The behaviour of the peer.
#[derive(Clone, Copy, Debug, PartialEq, Eq)]
pub enum Manners {
    /// Answers each call, and echoes each stream.
    Echoes,
    /// Answers nothing.
    IsSilent,
    /// Waits for two calls, and answers the last first.
    AnswersBackwards,
    /// Reads nothing.
    ReadsNothing,
}

/// The core of a server, and its running jobs.
#[derive(Drop)]
pub struct PeerHeld {
    pub core: ServerCore<Plain, Plain>,
    manners: Manners,
    calls: Vec<(JobId, Blob)>,
    streams: Vec<JobId>,
    driver: Option<Waker>,
}

impl PeerHeld {
    pub fn new(alloc: Global, core: ServerCore<Plain, Plain>, manners: Manners) -> PeerHeld
        ensures { result.core ≡ core }
    {
        PeerHeld {
            core,
            manners,
            calls: Vec::new(alloc),
            streams: Vec::new(alloc),
            driver: None,
        }
    }

    /// Takes the new jobs, and answers them.
    fn serve(&mut self, alloc: Global) {
        for _ in 0..u64::MAX {
            let Some(job) = self.core.take_job() else {
                break;
            };
            let (id, stream) = (job.id, job.stream);
            let request = job.request;
            let is_kept = if stream {
                self.streams.push(id).is_ok()
            } else {
                self.calls.push((id, request.payload)).is_ok()
            };
            if !is_kept {
                self.core.fail(Error::NoMemory);
            }
        }
        match self.manners {
            Manners::Echoes => {
                self.answer_all(alloc);
                self.echo_all(alloc);
            }
            Manners::IsSilent | Manners::ReadsNothing => {}
            Manners::AnswersBackwards => {
                if self.calls.len() > 1 {
                    self.answer_all(alloc);
                }
            }
        }
    }

    fn answer_all(&mut self, alloc: Global) {
        for _ in 0..u64::MAX {
            let Some((id, payload)) = self.calls.pop() else {
                return;
            };
            let answered = self
                .core
                .answer(alloc, id, &Ok(response_of(alloc, payload)));
            leave_without_memory(&mut self.core, &answered);
        }
    }

    fn echo_all(&mut self, alloc: Global) {
        for id in &self.streams {
            echo(alloc, &mut self.core, *id);
        }
    }
}

/// Returns the response with an OK status and this payload.
fn response_of(alloc: Global, payload: Blob) -> Response {
    let status = get_status(Code::OK, String::new(alloc));
    let mut response = Response::init_status(alloc, status);
    response.payload = payload;
    response
}

// If memory is refused to the peer, it fails its connection, so that its client doesn't wait for it.
fn leave_without_memory<T>(core: &mut ServerCore<Plain, Plain>, done: &Result<T>) {
    if let Err(Error::NoMemory) = done {
        core.fail(Error::NoMemory);
    }
}

// Sends the received items of a stream back, and ends the stream if the other side closed it.
fn echo(alloc: Global, core: &mut ServerCore<Plain, Plain>, id: JobId) {
    for _ in 0..u64::MAX {
        match core.recv(alloc, id) {
            Some(Ok(item)) => {
                let sent = core.send(alloc, id, item.as_slice());
                leave_without_memory(core, &sent);
            }
            Some(Err(Error::Eof)) => {
                let ended = core.end_stream(alloc, id, &Ok(None));
                leave_without_memory(core, &ended);
                return;
            }
            Some(Err(_)) | None => return,
        }
    }
}

impl PolledState for PeerHeld {
    ghost use Rattle.std.specs.Prelude.{⊤, is_some, true};
    ghost use Rattle.ttrpc_connection.specs.OneEnd.{lendable};

    ghost takes = { λ _ _ _ _ _. ⊤ };

    ghost ends = { λ _ _. ⊤ };

    ghost breaks = { λ _ _ _. ⊤ };

    ghost lends = { λ _ _ _ _ _. ⊤ };

    ghost lendable = { λ held. lendable held.core.connection };

    ghost ticks = { λ _ _ _. ⊤ };

    ghost expires = { λ _ _. ⊤ };

    ghost failed = { λ held. is_some held.core.connection.failure };

    ghost senders = { λ _. 0 };

    ghost wants = { λ _. true };

    fn take(&mut self, alloc: Global, piece: &[u8], _now: u64) -> Option<usize> {
        let count = self.core.feed(alloc, piece, 0).ok()?;
        self.serve(alloc);
        Some(count.min(piece.len()))
    }

    fn ended(&mut self) {
        self.core.end_of_input();
    }

    fn broke(&mut self, kind: ErrorKind) {
        self.core.fail(Error::Nix(kind));
    }

    fn lendable(&self) -> usize {
        self.core.lendable()
    }

    fn lend(&mut self, buffer: &mut [u8]) -> usize {
        let count = self.core.lend(buffer);
        let lent = self.core.lent();
        self.core.wrote(lent);
        count.min(buffer.len())
    }

    // No request of the tests expires at the peer.
    fn tick(&mut self, _now: u64) {}

    fn next_deadline(&self) -> Option<u64> {
        None
    }

    fn has_failed(&self) -> bool {
        self.core.has_failed()
    }

    fn senders(&self) -> usize {
        0
    }

    fn wants_input(&self) -> bool {
        true
    }

    fn driver(&mut self) -> &mut Option<Waker> {
        &mut self.driver
    }
}

/// The shared part of the peer's future, which only the peer uses.
#[derive(Drop)]
pub struct PeerShared {
    asked: Source,
    held: Mutex<PeerHeld>,
}

impl PeerShared {
    pub fn new(held: PeerHeld) -> PeerShared {
        PeerShared {
            asked: Source::new(),
            held: Mutex::new(held),
        }
    }
}

impl SharedConnection for PeerShared {
    type Held = PeerHeld;

    ghost asked = { λ shared. shared.asked.id };

    fn held(&self) -> &Mutex<PeerHeld> {
        &self.held
    }

    fn asked(&self) -> &Source {
        &self.asked
    }
}

/// The peer's future.
#[derive(Drop)]
pub struct Peer<R: Clock + AllocGlobal + Drop> {
    pub link: ConnectionDriver<R, DuplexStream, DuplexStream, PeerShared>,
    pub reads: bool,
    pub never: Source,
    pub slot: Option<Waker>,
}

impl<R: Clock + AllocGlobal + Drop> Future for Peer<R> {
    type Output = ();

    fn poll(&mut self, cx: &mut Context<'_>) -> Poll<()> {
        if !self.reads {
            return cx.register(&self.never, &mut self.slot);
        }
        let mut share = self.link.look();
        for _ in 0..8 {
            match self.link.turn(&mut share, cx) {
                Step::Moved | Step::Gathered => {}
                Step::Waits => return Poll::Pending,
                Step::Over => return Poll::Ready(()),
            }
        }
        cx.yield_now()
    }
}
