//! The word `call`, with a server of this process.
use crate::tests::runs::{ROOM, Ran, Sockets, Tester, add_word, run_words, words_of};
use crate::tests::{Holds, Tested};
use std::alloc::Global;
use std::sync::{Arc, Wait};
use std::test::Fail;
use std::time::Duration;
use std::{fs, thread};
use ttrpc_echo::program::{begin, tell_next};
use ttrpc_echo::{EchoServer, FaultKeeper, Faults, start_server, tell_address};
use ttrpc_proto::Error;
use ttrpc_sync_server::{NoWatch, Watch};

/// A call of the server: service, method, digits and timeout, and then the status and the output.
type Call = (&'static [&'static str; 4], u8, &'static [u8]);

const CALLS: &[Call] = &[
    (&["demo.Echo", "Echo", "2a", "0"], 0, b"ok 2a\n"),
    (&["demo.Echo", "Echo", "", "0"], 0, b"ok\n"),
    (
        &["demo.Echo", "Echo", "00FF", "60000000000"],
        0,
        b"ok 00ff\n",
    ),
    (
        &["x", "y", "2a", "0"],
        1,
        b"error: rpc status: 3 /x/y does not exist\n",
    ),
    (
        &["demo.Echo", "", "", "0"],
        1,
        b"error: rpc status: 3 /demo.Echo/ does not exist\n",
    ),
];

/// Returns the word `call`, the address and these words.
fn call_words(alloc: Global, address: &str, rest: &[&str]) -> Result<Vec<String>, Fail> {
    let mut words = words_of(alloc, &["call", address])?;
    for word in rest {
        add_word(alloc, &mut words, word)?;
    }
    Ok(words)
}

/// Runs the program with such words. A run that reads its input is an error.
fn called<S: Tester + 'static>(rt: &S, address: &str, rest: &[&str]) -> Result<Ran, Fail> {
    let words = call_words(rt.alloc(), address, rest)?;
    let mut input = b"unread".as_slice();
    let ran = run_words(rt, words.as_slice(), &mut input, ROOM)?;
    if input.len() == 6 {
        Ok(ran)
    } else {
        Err("the input was read".into())
    }
}

/// Returns whether the call at this address ends as its row expects, and reports no error.
fn is_told<S: Tester + 'static>(rt: &S, address: &str, call: &Call) -> Holds {
    let (words, status, output) = call;
    let ran = called(rt, address, words.as_slice())?;
    let is_answered = ran.status == *status && ran.output.as_slice() == *output;
    Ok(is_answered && ran.errors.is_empty())
}

/// Returns the line in which a server reports its address.
fn told_line<S: Tester>(
    rt: &S,
    server: &EchoServer<S, NoWatch>,
    address: &str,
) -> Result<String, Fail> {
    let mut line = Vec::new(rt.alloc());
    tell_address(server, address, &mut line)?;
    Ok(String::from_utf8(line).map_err(|_| Fail::from("not UTF-8"))?)
}

/// A server at a path reports it in a line.
#[test]
fn a_path_is_told(rt: HostRuntime) -> Tested {
    let _ = fs::remove_file(&rt, "told.sock");
    let server = start_server(rt, "unix://told.sock", true, NoWatch {})?;
    let line = told_line(&rt, &server, "unix://told.sock")?;
    assert!(rt; line.as_str() == "ttrpc-demo: listening at unix://told.sock\n");
    server.shutdown();
    fs::remove_file(&rt, "told.sock")?;
    Ok(())
}

/// Returns the reports of a server that begins at an address, and then of a fault.
fn told_of<S: Tester + 'static>(rt: &S, address: &str) -> Result<Vec<u8>, Fail> {
    let mut errors = Vec::new(rt.alloc());
    let (waiter, faults, server) = begin(rt.clone()?, address, true, &mut errors)?;
    FaultKeeper::new(rt, &faults)?.accept_failed(&Error::Eof);
    tell_next(&waiter, &*faults, &mut errors);
    server.shutdown();
    Ok(errors)
}

/// A server reports first its address, and then its faults.
#[test]
fn a_server_tells_its_address_and_its_faults(rt: HostRuntime) -> Tested {
    let _sockets: Sockets = None;
    let _ = fs::remove_file(&rt, "begun.sock");
    let told = told_of(&rt, "unix://begun.sock")?;
    assert!(rt; told.as_slice() == TOLD);
    fs::remove_file(&rt, "begun.sock")?;
    Ok(())
}

const TOLD: &[u8] =
    b"ttrpc-demo: listening at unix://begun.sock\nttrpc-demo: no connection was accepted: eof\n";

/// Returns whether the next fault that is kept has this text.
fn next_is<X: Wait>(rt: &X, faults: &Faults, text: &str) -> bool {
    faults.next(rt).as_str() == text
}

/// Returns whether the next `count` faults are those of handlers.
fn handlers_are_next<X: Wait>(rt: &X, faults: &Faults, count: usize) -> bool {
    for _ in 0..count {
        if !next_is(
            rt,
            faults,
            "a handler failed: ttrpc err: remote stream closed",
        ) {
            return false;
        }
    }
    true
}

/// Returns whether the next faults are a failed accept, then a missing worker, and then 62 failed handlers.
fn are_kept<X: Wait>(rt: &X, faults: &Faults) -> bool {
    next_is(rt, faults, "no connection was accepted: eof")
        && next_is(
            rt,
            faults,
            "a worker is missing: ttrpc err: local stream closed",
        )
        && handlers_are_next(rt, faults, 62)
}

/// Faults are kept in order until they are reported, up to 64. A thread that reports them waits for the next.
#[test]
fn faults_are_kept_until_they_are_told(rt: HostRuntime) -> Tested {
    let faults = Arc::new(rt.alloc(), Faults::new(rt.alloc()))?;
    let keeper = FaultKeeper::new(&rt, &faults)?;
    keeper.accept_failed(&Error::Eof);
    keeper.worker_missing(&Error::LocalClosed);
    for _ in 2..70 {
        keeper.handler_failed(&Error::RemoteClosed);
    }
    assert!(rt; are_kept(&rt, &*faults));
    let (last, ()) = thread::join(
        &rt,
        || faults.next(&rt),
        || {
            thread::sleep(&rt, Duration::from_millis(20));
            keeper.connection_dropped(&Error::Eof);
        },
    );
    assert!(rt; last.as_str() == "a connection was closed: eof");
    Ok(())
}

/// Returns the address in a line.
fn address_in(line: &str) -> Result<&str, Fail> {
    let address = line
        .strip_prefix("ttrpc-demo: listening at ")
        .ok_or("no address")?;
    let address = address.strip_suffix('\n').ok_or("no line")?;
    Ok(address)
}

/// Returns whether a call to this address finds no server.
fn nobody_is_called<S: Tester + 'static>(rt: &S, address: &str) -> Holds {
    let ran = called(rt, address, &["x", "y", "2a", "0"])?;
    let is_quiet = ran.status == 1 && ran.output.is_empty();
    Ok(
        is_quiet
            && ran
                .errors
                .as_slice()
                .starts_with(b"ttrpc-demo: Nix error: "),
    )
}

/// A server with port 0 reports its address in a line, and is called there. After its shutdown no server is found
/// there.
#[test]
fn a_server_is_called(rt: HostRuntime) -> Tested {
    let free = "tcp://127.0.0.1:0";
    let server = start_server(rt, free, true, NoWatch {})?;
    let line = told_line(&rt, &server, free)?;
    let address = address_in(line.as_str())?;
    for call in CALLS {
        assert!(rt; is_told(&rt, address, call)?);
    }
    server.shutdown();
    assert!(rt; nobody_is_called(&rt, address)?);
    Ok(())
}
