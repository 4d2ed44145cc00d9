//! Each client with each server, through the commands of the programs.
use crate::tests::polled::start_polled;
use std::alloc::Global;
use std::net::{SocketAddr, TcpListener, TcpStream};
use std::test::Fail;
use ttrpc_bench::checks::check_named;
use ttrpc_echo::{DemoSystem as ThreadedSystem, start_server};
use ttrpc_polled_echo::ChatSystem;
use ttrpc_sync_server::NoWatch;

/// The caller: a client with threads, by the words of `ttrpc-demo`, or a polled one, by those of `ttrpc-chat`.
#[derive(Clone, Copy, Debug)]
enum Client {
    Threaded,
    Polled,
}

/// A run: the caller, the first word, the words after the address, the status, and the output.
type Run = (
    Client,
    &'static str,
    &'static [&'static str],
    u8,
    &'static [u8],
);

const AT_POLLED: &[Run] = &[
    (
        Client::Threaded,
        "call",
        &["demo.Echo", "Echo", "2a", "0"],
        0,
        b"ok 2a\n",
    ),
    (
        Client::Threaded,
        "call",
        &["x", "y", "2a", "5000000000"],
        1,
        b"error: rpc status: 3 x service does not exist\n",
    ),
    (Client::Polled, "unary", &["2a"], 0, b"ok 2a\n"),
    (Client::Polled, "unary", &[""], 0, b"ok\n"),
    (
        Client::Polled,
        "chat",
        &["61", "", "62"],
        0,
        b"item 61\nitem\nitem 62\neof\n",
    ),
    (
        Client::Polled,
        "sum",
        &["61", "6263"],
        0,
        b"ok 00000000000000020000000000000003\n",
    ),
    (
        Client::Polled,
        "count",
        &["2"],
        0,
        b"item 00000000\nitem 00000001\neof\n",
    ),
];

const AT_THREADED: &[Run] = &[
    (
        Client::Threaded,
        "call",
        &["demo.Echo", "Echo", "2a", "0"],
        0,
        b"ok 2a\n",
    ),
    (Client::Polled, "unary", &["2a"], 0, b"ok 2a\n"),
    (Client::Polled, "unary", &[""], 0, b"ok\n"),
    (
        Client::Polled,
        "chat",
        &["61"],
        1,
        b"error: rpc status: 3 /demo.Echo/Chat does not exist\n",
    ),
];

/// Returns the words, with the address after the first.
fn words_of(alloc: Global, first: &str, address: &str, rest: &[&str]) -> Result<Vec<String>, Fail> {
    let mut words = Vec::new(alloc);
    words.push(String::from_str(alloc, first)?)?;
    words.push(String::from_str(alloc, address)?)?;
    for word in rest {
        words.push(String::from_str(alloc, word)?)?;
    }
    Ok(words)
}

/// Returns whether a run has its status and output.
fn is_so<R: ThreadedSystem + ChatSystem + 'static>(
    rt: &R,
    address: &str,
    run: &Run,
) -> Result<bool, Fail> {
    let (client, first, rest, status, expected) = run;
    let words = words_of(rt.alloc(), first, address, rest)?;
    let (mut output, mut errors) = (Vec::new(rt.alloc()), Vec::new(rt.alloc()));
    let mut input: &[u8] = &[];
    let given = match client {
        Client::Threaded => ttrpc_echo::run(
            rt.clone()?,
            words.as_slice(),
            true,
            &mut input,
            &mut output,
            &mut errors,
        ),
        Client::Polled => ttrpc_polled_echo::run(
            rt.clone()?,
            words.as_slice(),
            true,
            &mut output,
            &mut errors,
        ),
    };
    Ok(given == *status && output.as_slice() == *expected && errors.is_empty())
}

fn text_of(alloc: Global, address: SocketAddr) -> Result<String, Fail> {
    Ok(format!(in alloc; "tcp://{address}")?)
}

#[test]
fn both_clients_call_a_polled_server(rt: HostRuntime) -> Result<(), Fail> {
    // The borrow check covers a call over sockets only if this function names their types, too.
    let _sockets: Option<(TcpListener, TcpStream)> = None;
    let served = start_polled(&rt, AT_POLLED.len())?;
    let address = text_of(rt.alloc(), served.address)?;
    for run in AT_POLLED {
        assert!(rt; is_so(&rt, address.as_str(), run)?, "{run:?}");
    }
    served.thread.join(&rt)?;
    Ok(())
}

#[test]
fn both_clients_call_a_server_with_threads(rt: HostRuntime) -> Result<(), Fail> {
    let server = start_server(rt.clone()?, "tcp://127.0.0.1:0", true, NoWatch {})?;
    let Some(address) = server.local_addr()? else {
        return Err("it has no address".into());
    };
    let address = text_of(rt.alloc(), address)?;
    for run in AT_THREADED {
        assert!(rt; is_so(&rt, address.as_str(), run)?, "{run:?}");
    }
    server.shutdown();
    Ok(())
}

/// Returns whether the words are refused with the usage.
fn is_refused<R: ChatSystem>(rt: &R, words: [&str; 3]) -> Result<bool, Fail> {
    let [first, address, rest] = words;
    let words = words_of(rt.alloc(), first, address, &[rest])?;
    let (mut output, mut errors) = (Vec::new(rt.alloc()), Vec::new(rt.alloc()));
    let mine = rt.clone()?;
    let status = ttrpc_polled_echo::run(mine, words.as_slice(), true, &mut output, &mut errors);
    let is_usage = errors.starts_with(b"usage: ttrpc-chat serve ADDR");
    Ok(status == 2 && output.is_empty() && is_usage)
}

#[test]
fn wrong_words_have_a_status_of_their_own(rt: HostRuntime) -> Result<(), Fail> {
    // A test must name the sockets of the system that it passes on.
    let _sockets: Option<(TcpListener, TcpStream)> = None;
    for words in [
        ["unary", "tcp://127.0.0.1:1", "2"],
        ["count", "tcp://127.0.0.1:1", "x"],
        ["talk", "tcp://127.0.0.1:1", "2a"],
        ["serve", "tcp://127.0.0.1:1", "x"],
    ] {
        assert!(rt; is_refused(&rt, words)?, "{words:?}");
    }
    Ok(())
}

/// Returns whether a server that serves for zero seconds reports its address, shuts down, and ends with status 0.
fn serves_for_no_second<R: ChatSystem>(rt: &R) -> Result<bool, Fail> {
    let words = words_of(rt.alloc(), "serve", "tcp://127.0.0.1:0", &["0"])?;
    let (mut output, mut errors) = (Vec::new(rt.alloc()), Vec::new(rt.alloc()));
    let mine = rt.clone()?;
    let status = ttrpc_polled_echo::run(mine, words.as_slice(), true, &mut output, &mut errors);
    let tells_address = errors.starts_with(b"ttrpc-chat: listens at tcp://127.0.0.1:");
    Ok(status == 0 && output.is_empty() && tells_address)
}

#[test]
fn a_server_serves_for_as_long_as_it_is_told(rt: HostRuntime) -> Result<(), Fail> {
    // A test must name the sockets of the system that it passes on.
    let _sockets: Option<(TcpListener, TcpStream)> = None;
    check_named("it fails", serves_for_no_second(&rt)?)
}
