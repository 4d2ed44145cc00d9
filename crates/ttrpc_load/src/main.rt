//! `ttrpc-load`, which measures a server: a number of callers call `Echo` of `demo.Echo`, and the program reports how
//! many calls a second were answered, and how long one took.
#![tactic(auto)]

mod burst;
mod calling;
mod figures;
mod load;
mod measuring;
mod raw;

use crate::measuring::run;
use std::env;
use std::io::{ErrorKind, IsTerminal, Write};
use std::net::{TcpListener, TcpStream};
use std::process::ExitCode;
use std::rt::Env;
use ttrpc_transport::nodelay_from;

/// Returns the words after the program's name. Returns `None` if they can't be read, or if memory is refused.
fn given_words<R: Env + AllocGlobal>(rt: &R) -> Option<Vec<String>> {
    let mut words = Vec::new(rt.alloc());
    for word in env::args(rt).ok()?.skip(1) {
        words.push(word).ok()?;
    }
    Some(words)
}

fn main(rt: HostRuntime) -> ExitCode {
    // The borrow check covers a call with types in its bounds only if this function names the types, too.
    let _sockets: Option<(TcpListener, TcpStream)> = None;
    let words = given_words(&rt).unwrap_or(Vec::new(rt.alloc()));
    let setting = env::var(&rt, "TTRPC_TCP_NODELAY_ENABLED").ok();
    let nodelay = nodelay_from(setting.as_deref());
    let mut errors = rt.stderr();
    let shows = errors.is_terminal();
    ExitCode::from(run(
        &rt,
        words.as_slice(),
        nodelay,
        shows,
        &mut rt.stdout(),
        &mut errors,
    ))
}
