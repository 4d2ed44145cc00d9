//! Calls of a server over a socket.
ghost use Rattle.std.specs.Prelude.{⊤, IfOk, OnOk, IfErr};
ghost use Rattle.ttrpc_echo.specs.Program.Words.{IsHex, AreRight, AsksBy};
ghost use Rattle.ttrpc_echo.specs.Program.Runs.{Calls, IsMisread};

use crate::program::asked::{payload_of, request_of, timeout_of};
use crate::program::outcome::ProgramOutcome;
use crate::program::service::{DemoSystem, EchoServer, start_server};
use crate::program::telling::tell_call;
use crate::program::words::CallWords;
use std::alloc::Global;
use std::io::Write;
use ttrpc_proto::{Error, Request, Response, Result as Answered};
use ttrpc_sync_client::Client;
use ttrpc_sync_server::NoWatch;

/// Makes the call that the words give, and writes its result.
pub fn call<R: DemoSystem + 'static, W: Write>(
    rt: R,
    words: CallWords<'_>,
    nodelay: bool,
    output: &mut W,
) -> ProgramOutcome
    ensures { Calls (AreRight words.entry.digits.now words.entry.timeout.now)
        (W.contents output.old) (W.contents output.new) result }
{
    let alloc = rt.alloc();
    match request(alloc, words) {
        Ok(request) => tell_result(alloc, call_at(rt, words.address, nodelay, request), output),
        Err(outcome) => outcome,
    }
}

/// Calls `Echo` of a server of this process with the bytes of these digits, and writes the result.
pub fn call_own_with<R: DemoSystem + 'static, W: Write>(
    rt: R,
    digits: &str,
    output: &mut W,
) -> ProgramOutcome
    ensures { Calls (IsHex digits.now) (W.contents output.old) (W.contents output.new) result }
{
    let alloc = rt.alloc();
    match payload_of(alloc, digits) {
        Ok(payload) => tell_result(alloc, call_own(rt, payload), output),
        Err(outcome) => outcome,
    }
}

/// Returns the request that the words ask for.
fn request(alloc: Global, words: CallWords<'_>) -> Result<Request, ProgramOutcome>
    ensures right { OnOk result (AreRight words.entry.digits.now words.entry.timeout.now) }
    ensures ok { IfOk result (AsksBy words.entry.service.now words.entry.method.now
        words.entry.digits.now words.entry.timeout.now) }
    ensures err { IfErr result
        (IsMisread (AreRight words.entry.digits.now words.entry.timeout.now)) }
{
    let payload = payload_of(alloc, words.digits)?;
    let Some(timeout_nano) = timeout_of(words.timeout) else {
        return Err(ProgramOutcome::WrongWords);
    };
    match request_of(alloc, words.service, words.method, payload, timeout_nano) {
        Ok(request) => Ok(request),
        Err(_) => Err(ProgramOutcome::Failed(Error::NoMemory)),
    }
}

/// Writes the result of a call if the call was made. Otherwise returns the error.
fn tell_result<W: Write>(
    alloc: Global,
    called: Answered<Answered<Response>>,
    output: &mut W,
) -> ProgramOutcome
    ensures { Calls ⊤ (W.contents output.old) (W.contents output.new) result }
{
    match called {
        Ok(called) => tell_call(alloc, called, output),
        Err(error) => ProgramOutcome::Failed(error),
    }
}

/// Calls a server at an address. The outer error is that of the address or of connecting, and the inner result is the
/// call's.
pub fn call_at<R: DemoSystem + 'static>(
    rt: R,
    address: &str,
    nodelay: bool,
    request: Request,
) -> Answered<Answered<Response>> {
    let client = Client::connect(rt, address, nodelay)?;
    Ok(client.request(request))
}

/// Starts a server of this process at a free port, and calls its `Echo` with this payload.
pub fn call_own<R: DemoSystem + 'static>(rt: R, payload: Vec<u8>) -> Answered<Answered<Response>> {
    let request = request_of(rt.alloc(), "demo.Echo", "Echo", payload, 0)?;
    let server = start_server(rt.clone()?, "tcp://127.0.0.1:0", true, NoWatch {})?;
    let called = call_server(rt, &server, request);
    server.shutdown();
    called
}

fn call_server<R: DemoSystem + 'static>(
    rt: R,
    server: &EchoServer<R, NoWatch>,
    request: Request,
) -> Answered<Answered<Response>> {
    let Some(address) = server.local_addr()? else {
        return Err(Error::LocalClosed);
    };
    let address = format!(in rt.alloc(); "tcp://{address}")?;
    call_at(rt, address.as_str(), true, request)
}
