//! The words of the program, with its own servers and with others.
use crate::program::{server_at, tell_address};
use crate::tests::peers::{cut_server, health_server, word_of};
use crate::tests::runs::is_so;
use health_stub::HealthTable;
use std::net::{TcpListener, TcpStream};
use std::test::Fail;
use tokio::runtime::LocalRuntime;

/// A run without faults: its words, its status, and its output.
type Run = (&'static [&'static str], u8, &'static [u8]);

const USAGE: &[u8] =
    b"usage: ttrpc-health serve ADDR NAME=STATUS[,STATUS..] .. | check ADDR NAME | watch ADDR NAME | loop NAME NAME=STATUS[,STATUS..] ..\n";

const UNKNOWN: &[u8] = b"error: rpc status: 5 service b is unknown\n";

/// Runs that serve at their own port.
const LOOPS: &[Run] = &[
    (&["loop", "a", "a=2,1"], 0, b"1\n2\n1\n"),
    (&["loop", "b", "a=1", "b=3,0"], 0, b"0\n3\n0\n"),
    // The last list of a name counts.
    (&["loop", "a", "a=2", "a=1"], 0, b"1\n1\n"),
    (&["loop", "a", "a=-1"], 0, b"-1\n-1\n"),
    (&["loop", "b", "a=1"], 1, UNKNOWN),
];

/// Runs with a server that has a table of `a` with 2 and 1.
const CALLS: &[Run] = &[
    (&["check", "@", "a"], 0, b"1\n"),
    (&["watch", "@", "a"], 0, b"2\n1\n"),
    (&["check", "@", "b"], 1, UNKNOWN),
    (&["watch", "@", "b"], 1, UNKNOWN),
];

/// Words that the program isn't called by.
const WRONG: &[&[&str]] = &[
    &[],
    &["loop"],
    &["loop", "a"],
    &["loop", "a", "a"],
    &["loop", "a", "a="],
    &["loop", "a", "a=1,"],
    &["loop", "a", "a=1,x"],
    &["loop", "a", "a=2147483648"],
    &["serve", "tcp://127.0.0.1:0"],
    &["serve", "tcp://127.0.0.1:0", "a"],
    &["check", "tcp://127.0.0.1:1"],
    &["watch", "tcp://127.0.0.1:1", "a", "b"],
    &["tell", "tcp://127.0.0.1:1", "a"],
];

#[test]
fn a_name_is_told_by_a_server_of_its_own(rt: HostRuntime) -> Result<(), Fail> {
    // The borrow check covers a call over sockets only if this function names their types, too.
    let _sockets: Option<(TcpListener, TcpStream)> = None;
    for (words, status, written) in LOOPS {
        assert!(rt; is_so(&rt, "", words, *status, written, b"")?, "{words:?}");
    }
    Ok(())
}

#[test]
fn a_name_is_told_by_another_server(rt: HostRuntime) -> Result<(), Fail> {
    // The borrow check covers a call over sockets only if this function names their types, too.
    let _sockets: Option<(TcpListener, TcpStream)> = None;
    let server = health_server(&rt, CALLS.len())?;
    let address = word_of(rt.alloc(), server.address)?;
    for (words, status, written) in CALLS {
        assert!(rt;
            is_so(&rt, address.as_str(), words, *status, written, b"")?,
            "{words:?}"
        );
    }
    server.thread.join(&rt)?;
    Ok(())
}

#[test]
fn a_watch_that_is_cut_off_tells_no_end(rt: HostRuntime) -> Result<(), Fail> {
    // The borrow check covers a call over sockets only if this function names their types, too.
    let _sockets: Option<(TcpListener, TcpStream)> = None;
    let server = cut_server(&rt)?;
    let address = word_of(rt.alloc(), server.address)?;
    let told = b"2\nerror: socket err: socket disconnected\n";
    assert!(rt; is_so(&rt, address.as_str(), &["watch", "@", "a"], 1, told, b"")?);
    server.thread.join(&rt)?;
    Ok(())
}

#[test]
fn wrong_words_have_a_status_of_their_own(rt: HostRuntime) -> Result<(), Fail> {
    // The borrow check covers a call over sockets only if this function names their types, too.
    let _sockets: Option<(TcpListener, TcpStream)> = None;
    for words in WRONG {
        assert!(rt; is_so(&rt, "", words, 2, b"", USAGE)?, "{words:?}");
    }
    Ok(())
}

#[test]
fn an_address_that_nobody_serves_is_a_fault(rt: HostRuntime) -> Result<(), Fail> {
    // The borrow check covers a call over sockets only if this function names their types, too.
    let _sockets: Option<(TcpListener, TcpStream)> = None;
    let words = ["check", "tcp://127.0.0.1:1", "a"];
    assert!(rt; is_so(&rt, "", &words, 1, b"", b"ttrpc-health: ")?);
    Ok(())
}

#[test]
fn a_server_tells_where_it_listens(rt: HostRuntime) -> Result<(), Fail> {
    // The borrow check covers a call over sockets only if this function names their types, too.
    let _sockets: Option<(TcpListener, TcpStream)> = None;
    let runtime = LocalRuntime::new(&rt)?;
    let table = HealthTable::new(rt.alloc());
    let server = server_at(&rt, runtime.handle(), "tcp://127.0.0.1:0", true, table)?;
    let mut told = Vec::new(rt.alloc());
    tell_address(&server, &mut told)?;
    let address = server.local_addr()?.ok_or("no address")?;
    let line = format!(in rt.alloc(); "ttrpc-health: listens at tcp://{address}\n")?;
    assert!(rt; told.as_slice() == line.as_bytes());
    Ok(())
}
