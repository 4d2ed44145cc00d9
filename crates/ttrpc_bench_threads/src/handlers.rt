//! The methods of a test's server.
use std::alloc::Global;
use std::sync::atomic::{AtomicBool, AtomicU64, Ordering};
use std::sync::{Arc, Mutex};
use std::thread;
use std::time::{Clock, Duration};
use ttrpc_proto::{Error, Request, Response, Result, Status};
use ttrpc_secure::{ConnectionData, ConnectionDataExt, InboundTransform, OutboundTransform};
use ttrpc_sync::Host;
use ttrpc_sync_server::{MethodHandler, TtrpcContext, response_error_to_channel};
use ttrpc_wire::Blob;
use ttrpc_wire::codec::message::WireMessage;

/// The number of looks that a test makes at most, with a millisecond after each.
pub const TURNS: u32 = 10000;

/// Looks until the condition holds, and returns whether it held in time.
pub fn comes<C: Clock, F: Fn() -> bool>(clock: &C, is_so: F) -> bool
    requires { F.IsAlwaysCallable is_so }
{
    for _ in 0..TURNS {
        if is_so() {
            return true;
        }
        thread::sleep(clock, Duration::from_millis(1));
    }
    false
}

/// The observations of handlers, and the gate that they wait at.
#[derive(Drop)]
pub struct Board {
    /// The stream id and the payload of each request.
    pub seen: Mutex<Vec<(u32, Vec<u8>)>>,
    /// True if the gate is open.
    pub is_open: AtomicBool,
    /// The number of running handlers that wait for the end of their connection.
    pub waiting: AtomicU64,
    /// The number of these handlers that saw the end.
    pub cancelled: AtomicU64,
    /// The number of handlers that have begun to wait for the gate.
    pub gated: AtomicU64,
}

impl Board {
    pub fn new(alloc: Global) -> Board {
        Board {
            seen: Mutex::new(Vec::new(alloc)),
            is_open: AtomicBool::new(false),
            waiting: AtomicU64::new(0),
            cancelled: AtomicU64::new(0),
            gated: AtomicU64::new(0),
        }
    }

    fn note<R: Host>(&self, rt: &R, stream_id: u32, payload: &[u8]) -> Result<()> {
        let payload = Vec::from_slice(rt.alloc(), payload)?;
        Ok(self.seen.lock(rt).push((stream_id, payload))?)
    }
}

/// The behaviour of a method.
#[derive(Clone, Copy)]
pub enum Way {
    /// Notes the request, and responds with its payload.
    Echo,
    /// Waits until the gate is open, and responds `open`, or `shut` if that took too long.
    Gate,
    /// Waits for the same, and responds with `LONG` bytes.
    GateAtLength,
    /// Opens the gate, and responds with its payload.
    Opens,
    /// Waits for the end of its connection, and doesn't respond.
    Waits,
    /// Waits for the same, and responds `late` 0.4 seconds later.
    Lasts,
    /// Fails without a response.
    Fails,
    /// Responds with its connection's datum `name`.
    Name,
    /// Responds with an error.
    Tells,
}

/// A method of a test's server.
#[derive(Drop)]
pub struct Method<R: Host> {
    pub rt: R,
    pub board: Arc<Board, Global>,
    pub way: Way,
}

impl<R: Host> Method<R> {
    fn waits(&self, cancelled: &AtomicBool) {
        self.board.waiting.fetch_add(1, Ordering::SeqCst);
        if comes(&self.rt, || cancelled.load(Ordering::SeqCst)) {
            self.board.cancelled.fetch_add(1, Ordering::SeqCst);
        }
        self.board.waiting.fetch_sub(1, Ordering::SeqCst);
    }

    fn gate(&self) -> &'static [u8] {
        self.board.gated.fetch_add(1, Ordering::SeqCst);
        if comes(&self.rt, || self.board.is_open.load(Ordering::SeqCst)) {
            b"open"
        } else {
            b"shut"
        }
    }
}

/// Returns the connection's datum `name`, or nothing if there is none.
fn name_in(data: &ConnectionData) -> &[u8] {
    match data.get_typed::<String>("name") {
        Some(name) => name.as_bytes(),
        None => b"",
    }
}

/// The number of bytes of a long response. A queue has room for two such responses.
pub const LONG: usize = 4_000_000;

/// Returns a response with an OK status and `length` bytes.
pub fn response_of_length(alloc: Global, length: usize) -> Result<Response> {
    Ok(Response {
        status: Some(Status::new(alloc)),
        payload: Blob::from_vec(Vec::from_elem(alloc, 7u8, length)?),
    })
}

/// Returns a response with an OK status and this payload.
fn response_of(alloc: Global, payload: &[u8]) -> Result<Response> {
    Ok(Response {
        status: Some(Status::new(alloc)),
        payload: Blob::from_vec(Vec::from_slice(alloc, payload)?),
    })
}

impl<R, O, I> MethodHandler<R, O, I> for Method<R>
where
    R: Host,
    O: OutboundTransform + Drop,
    I: InboundTransform + Drop,
{
    fn handler(&self, ctx: TtrpcContext<R, O, I>, req: Request) -> Result<()> {
        let alloc = ctx.alloc();
        let id = ctx.mh.stream_id;
        let payload = req.payload.as_slice();
        match self.way {
            Way::Echo => {
                self.board.note(&self.rt, id, payload)?;
                ctx.respond(id, response_of(alloc, payload)?)
            }
            Way::Gate => ctx.respond(id, response_of(alloc, self.gate())?),
            Way::GateAtLength => {
                self.gate();
                ctx.respond(id, response_of_length(alloc, LONG)?)
            }
            Way::Opens => {
                self.board.is_open.store(true, Ordering::SeqCst);
                ctx.respond(id, response_of(alloc, payload)?)
            }
            Way::Waits => {
                self.waits(&*ctx.cancelled);
                Ok(())
            }
            Way::Lasts => {
                self.waits(&*ctx.cancelled);
                thread::sleep(&self.rt, Duration::from_millis(400));
                ctx.respond(id, response_of(alloc, b"late")?)
            }
            Way::Fails => Err(Error::Eof),
            Way::Name => {
                let name = name_in(ctx.conn.connection_data());
                ctx.respond(id, response_of(alloc, name)?)
            }
            Way::Tells => response_error_to_channel(id, Error::Eof, &*ctx.conn),
        }
    }
}
