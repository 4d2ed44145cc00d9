//! The program's commands.
use crate::calls::Site;
use crate::service::{EchoMethod, EchoStream, services};
use crate::serving::ServesFor;
use crate::system::{ChatSystem, nix};
use crate::words::{ChatCommand, EchoCall, read_words};
use std::io::Write;
use std::time::Duration;
use tokio::runtime::{Handle, LocalRuntime};
use ttrpc_polled_server::Server;
use ttrpc_proto::Result;

const USAGE: &str =
    "usage: ttrpc-chat serve ADDR [SECONDS] | unary ADDR HEX | chat ADDR HEX.. | sum ADDR HEX.. | count ADDR N";

/// Runs the command that the words give, and reports failures on `errors`. With `nodelay`, each write goes out at once.
/// Returns the status: 0, or 1 at a failure or a refused call, or 2 if the words are wrong.
pub fn run<R: ChatSystem, W: Write, X: Write>(
    rt: R,
    words: &[String],
    nodelay: bool,
    output: &mut W,
    errors: &mut X,
) -> u8 {
    match perform(rt, words, nodelay, output, errors) {
        Ok(status) => status,
        Err(error) => {
            let _ = writeln!(errors, "ttrpc-chat: {error}");
            1
        }
    }
}

fn perform<R: ChatSystem, W: Write, X: Write>(
    rt: R,
    words: &[String],
    nodelay: bool,
    output: &mut W,
    errors: &mut X,
) -> Result<u8> {
    match read_words(rt.alloc(), words)? {
        ChatCommand::Serves(address, seconds) => serve(rt, address, nodelay, seconds, errors),
        ChatCommand::Calls(address, call) => call_at(rt, address, nodelay, &call, output),
        ChatCommand::Wrong => tell_usage(errors),
    }
}

fn tell_usage<X: Write>(errors: &mut X) -> Result<u8> {
    nix(writeln!(errors, "{USAGE}"))?;
    Ok(2)
}

/// Connects to an address, and makes a call.
fn call_at<R: ChatSystem, W: Write>(
    rt: R,
    address: &str,
    nodelay: bool,
    call: &EchoCall,
    output: &mut W,
) -> Result<u8> {
    let mut site = Site::connect(rt, address, nodelay)?;
    call_by(&mut site, call, output)
}

fn call_by<R: ChatSystem, W: Write>(
    site: &mut Site<R>,
    call: &EchoCall,
    output: &mut W,
) -> Result<u8> {
    match call {
        EchoCall::Unary(item) => site.call(item, output),
        EchoCall::Chat(items) => site.chat(items.as_slice(), output),
        EchoCall::Sum(items) => site.sum(items.as_slice(), output),
        EchoCall::Count(count) => site.count(*count, output),
    }
}

/// The server of the program.
pub type ChatServer<R> = Server<R, EchoMethod, EchoStream>;

/// Returns a server at an address, with the services of the program. A stream that is opened without a payload begins
/// without an item.
pub fn server_at<R: ChatSystem>(
    rt: &R,
    handle: &Handle,
    address: &str,
    nodelay: bool,
) -> Result<ChatServer<R>> {
    Ok(
        Server::new(rt.clone()?, handle)?
            .bind(address, nodelay)?
            .register_service(services(rt.alloc())?)?
            .set_bare_openings(true),
    )
}

/// Serves for a number of seconds, or until the program is killed, and writes the address to `errors`.
fn serve<R: ChatSystem, X: Write>(
    rt: R,
    address: &str,
    nodelay: bool,
    seconds: Option<u64>,
    errors: &mut X,
) -> Result<u8> {
    let mut runtime = nix(LocalRuntime::new(&rt))?;
    let mut server = server_at(&rt, runtime.handle(), address, nodelay)?;
    tell_address(&server, errors)?;
    match seconds {
        Some(seconds) => serve_for(&rt, &mut runtime, server, seconds)?,
        None => {
            let serving = server.start()?;
            nix(runtime.run_all(&rt, serving))?;
        }
    }
    Ok(0)
}

/// Serves for `seconds` seconds, and then shuts the server down.
fn serve_for<R: ChatSystem>(
    rt: &R,
    runtime: &mut LocalRuntime,
    mut server: ChatServer<R>,
    seconds: u64,
) -> Result<()> {
    let time = nix(
        runtime
            .handle()
            .time()
            .sleep(rt, Duration::from_secs(seconds)),
    )?;
    let serving = server.start()?;
    nix(runtime.run_all(rt, ServesFor::new(server, serving, time)))
}

fn tell_address<R: ChatSystem, X: Write>(server: &ChatServer<R>, errors: &mut X) -> Result<()> {
    if let Some(address) = server.local_addr()? {
        nix(writeln!(errors, "ttrpc-chat: listens at tcp://{address}"))?;
    }
    Ok(())
}
