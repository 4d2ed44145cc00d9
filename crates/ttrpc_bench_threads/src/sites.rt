//! Servers of a test's process, and their clients.
use crate::handlers::Way::{self, *};
use crate::handlers::{Board, Method};
use std::alloc::Global;
use std::collections::BTreeMap;
use std::net::{Net, SocketAddr, TcpListener, TcpStream};
use std::rt::Files;
use std::sync::Arc;
use std::thread;
use std::time::{Clock, Duration};
use ttrpc_proto::{Error, Request, Response, Result as Answered};
use ttrpc_secure::{InboundTransform, OutboundTransform, Plain, SendInbound, SendOutbound};
use ttrpc_sync::{Host, Runtime};
use ttrpc_sync_client::Client;
use ttrpc_sync_server::{NoHook, Server, SharedHook};
use ttrpc_transport::{ClientConnection, PipeConnection, PipeListener};
use ttrpc_wire::{Blob, Sequence, Text};

/// The parts of the system that the tests use.
pub trait Machine: Runtime + Files + Net<Listener = TcpListener, Stream = TcpStream> {}

impl<R: Runtime + Files + Net<Listener = TcpListener, Stream = TcpStream>> Machine for R {}

/// A server that listens, its address, and the board of its handlers.
#[derive(Drop)]
pub struct Site<R: Host, A: Drop> {
    pub server: Server<R, Method<R>, A>,
    pub address: String,
    pub board: Arc<Board, Global>,
}

/// A client without transforms.
pub type PlainClient<R> = Client<R, Plain, Plain>;

/// The methods of a test's server, and the behaviour of each.
const METHODS: &[(&str, Way)] = &[
    ("/demo.Echo/Echo", Echo),
    ("/demo.Echo/Gate", Gate),
    ("/demo.Echo/GateAtLength", GateAtLength),
    ("/demo.Echo/Opens", Opens),
    ("/demo.Echo/Waits", Waits),
    ("/demo.Echo/Lasts", Lasts),
    ("/demo.Echo/Fails", Fails),
    ("/demo.Echo/Name", Name),
    ("/demo.Echo/Tells", Tells),
];

/// Adds a method with this path.
pub fn add_method<R: Host>(
    rt: &R,
    board: &Arc<Board, Global>,
    methods: &mut BTreeMap<String, Method<R>>,
    path: &str,
    way: Way,
) -> Answered<()> {
    let method = Method {
        rt: rt.clone()?,
        board: Arc::try_clone(board)?,
        way,
    };
    methods.insert(String::from_str(rt.alloc(), path)?, method)?;
    Ok(())
}

fn methods<R: Host>(rt: &R, board: &Arc<Board, Global>) -> Answered<BTreeMap<String, Method<R>>> {
    let mut methods = BTreeMap::new(rt.alloc());
    for &(path, way) in METHODS {
        add_method(rt, board, &mut methods, path, way)?;
    }
    Ok(methods)
}

/// Returns an empty board.
pub fn new_board<R: Host>(rt: &R) -> Answered<Arc<Board, Global>> {
    Ok(Arc::new(rt.alloc(), Board::new(rt.alloc()))?)
}

/// Returns a server that has all of the methods, and neither an address nor a hook.
pub fn unbound<R: Host>(
    rt: &R,
    board: &Arc<Board, Global>,
) -> Answered<Server<R, Method<R>, NoHook>> {
    Ok(Server::new(rt.clone()?)?.register_service(methods(rt, board)?)?)
}

/// Starts a server that listens at a free port.
pub fn serving<R: Machine + 'static>(rt: &R) -> Answered<Site<R, NoHook>> {
    hooked(rt, NoHook {})
}

/// Does the same, with this hook for each connection.
pub fn hooked<R, O, I, A>(rt: &R, hook: A) -> Answered<Site<R, A>>
where
    R: Machine + 'static,
    O: SendOutbound,
    I: SendInbound,
    A: SharedHook<Outbound = O, Inbound = I>,
{
    hooked_at_once(rt, hook, true)
}

/// Does the same. With `nodelay`, each write of its connections goes out at once.
pub fn hooked_at_once<R, O, I, A>(rt: &R, hook: A, nodelay: bool) -> Answered<Site<R, A>>
where
    R: Machine + 'static,
    O: SendOutbound,
    I: SendInbound,
    A: SharedHook<Outbound = O, Inbound = I>,
{
    let board = new_board(rt)?;
    let server = unbound(rt, &board)?
        .set_accept_hook(hook)?
        .bind("tcp://127.0.0.1:0", nodelay)?;
    started(rt, server, board)
}

/// Starts a server that has an address and its methods.
pub fn started<R, O, I, A>(
    rt: &R,
    server: Server<R, Method<R>, A>,
    board: Arc<Board, Global>,
) -> Answered<Site<R, A>>
where
    R: Machine + 'static,
    O: SendOutbound,
    I: SendInbound,
    A: SharedHook<Outbound = O, Inbound = I>,
{
    let mut server = server;
    server.start()?;
    let address = address_in(rt.alloc(), server.local_addr()?)?;
    Ok(Site {
        server,
        address,
        board,
    })
}

/// Returns the address of this place. It is an error if there is none.
pub fn address_in(alloc: Global, place: Option<SocketAddr>) -> Answered<String> {
    match place {
        Some(place) => Ok(format!(in alloc; "tcp://{place}")?),
        None => Err(otherwise(alloc, "no port")),
    }
}

/// Connects a client to the server at this address.
pub fn client<R: Machine + 'static>(rt: &R, address: &str) -> Answered<PlainClient<R>> {
    Ok(Client::connect(rt.clone()?, address, true)?)
}

/// Connects a client to the server at this address, and makes one call that is answered.
pub fn answered_client<R: Machine + 'static>(rt: &R, address: &str) -> Answered<PlainClient<R>> {
    let client = client(rt, address)?;
    answers(rt, &client, "Echo", b"2", b"2")?;
    Ok(client)
}

/// Starts a server that listens at a free port, and connects a client to it.
pub fn serving_one<R: Machine + 'static>(rt: &R) -> Answered<(Site<R, NoHook>, PlainClient<R>)> {
    let site = serving(rt)?;
    let client = client(rt, site.address.as_str())?;
    Ok((site, client))
}

/// Does the same, and returns two handles of the client, so that two threads share its connection.
pub fn serving_two<R: Machine + 'static>(
    rt: &R,
) -> Answered<(Site<R, NoHook>, PlainClient<R>, PlainClient<R>)> {
    let (site, first) = serving_one(rt)?;
    let second = first.try_clone()?;
    Ok((site, first, second))
}

/// Returns a listener at a free port without a server, and its address.
pub fn listening<R: Machine>(rt: &R) -> Answered<(PipeListener, String)> {
    let listener = PipeListener::new(rt, rt.alloc(), "tcp://127.0.0.1:0", true)?;
    let address = address_in(rt.alloc(), listener.local_addr()?)?;
    Ok((listener, address))
}

/// Returns a bare connection to the server at this address.
pub fn connection<R: Machine>(rt: &R, address: &str) -> Answered<PipeConnection> {
    ClientConnection::client_connect(rt, rt.alloc(), address, true)?.get_pipe_connection()
}

/// Returns a request of a method of `demo.Echo`.
pub fn request(
    alloc: Global,
    method: &str,
    payload: &[u8],
    timeout_nano: i64,
) -> Answered<Request> {
    Ok(Request {
        service: Text::from_str(alloc, "demo.Echo")?,
        method: Text::from_str(alloc, method)?,
        payload: Blob::from_slice(alloc, payload)?,
        timeout_nano,
        metadata: Sequence::new(alloc),
    })
}

/// Calls a method of `demo.Echo` without a timeout.
pub fn call<R, O, I>(
    rt: &R,
    client: &Client<R, O, I>,
    method: &str,
    payload: &[u8],
) -> Answered<Response>
where
    R: Host,
    O: OutboundTransform + Drop,
    I: InboundTransform + Drop,
{
    client.request(request(rt.alloc(), method, payload, 0)?)
}

/// Calls a method of `demo.Echo`. Any other response than the expected one is an error with the name of the method.
pub fn answers<R, O, I>(
    rt: &R,
    client: &Client<R, O, I>,
    method: &str,
    payload: &[u8],
    expected: &[u8],
) -> Answered<()>
where
    R: Host,
    O: OutboundTransform + Drop,
    I: InboundTransform + Drop,
{
    let response = call(rt, client, method, payload)?;
    check(rt.alloc(), response.payload.as_slice() == expected, method)
}

/// Returns an error with this text, or the error of refused memory.
fn otherwise(alloc: Global, text: &str) -> Error {
    match Text::from_str(alloc, text) {
        Ok(text) => Error::Others(text),
        Err(_) => Error::NoMemory,
    }
}

/// Returns an error with this text if the condition doesn't hold.
pub fn check(alloc: Global, holds: bool, text: &str) -> Answered<()> {
    if holds {
        Ok(())
    } else {
        Err(otherwise(alloc, text))
    }
}

/// Returns an error if this one has another text. The error of refused memory is returned as it is.
fn check_text(alloc: Global, error: Error, expected: &str) -> Answered<()> {
    if matches!(error, Error::NoMemory) {
        return Err(error);
    }
    let text = error.to_string(alloc)?;
    check(alloc, text.as_str() == expected, text.as_str())
}

/// Returns an error if the result is `Ok`, or an error with another text. The error of refused memory is returned as it
/// is.
pub fn is_told<R: AllocGlobal, T: Drop>(rt: &R, told: Answered<T>, expected: &str) -> Answered<()> {
    match told {
        Ok(_) => Err(otherwise(rt.alloc(), expected)),
        Err(error) => check_text(rt.alloc(), error, expected),
    }
}

/// Returns an error if a call of a new client doesn't fail.
pub fn call_fails<R: Machine + 'static>(rt: &R, address: &str, method: &str) -> Answered<()> {
    let client = client(rt, address)?;
    let failed = call(rt, &client, method, b"2").is_err();
    check(rt.alloc(), failed, "a call is answered that should fail")
}

/// Calls the echo `count` times, one call after the other, and checks each response.
pub fn answers_often<R, O, I>(rt: &R, client: &Client<R, O, I>, count: u32) -> Answered<()>
where
    R: Host,
    O: OutboundTransform + Drop,
    I: InboundTransform + Drop,
{
    for _ in 0..count {
        answers(rt, client, "Echo", b"2", b"2")?;
    }
    Ok(())
}

/// Sleeps for a while in which another thread comes to wait.
pub fn a_while<C: Clock>(clock: &C) {
    thread::sleep(clock, Duration::from_millis(20));
}
