//! `ttrpc-health`, a program of the service `demo.Health`. Its commands are `serve`, which serves a table of statuses,
//! `check` and `watch`, which call one, and `loop`, which calls its own server.
#![tactic(auto)]

mod apart;
mod beside;
mod program;
mod site;
mod system;
mod telling;
#[cfg(test)]
mod tests;
mod words;

use crate::program::run;
use std::env;
use std::io::{ErrorKind, Result, Write};
use std::net::{TcpListener, TcpStream};
use std::process::ExitCode;
use std::rt::Env;
use ttrpc_transport::nodelay_from;

/// Returns the words after the program's name, or no words if one of them isn't UTF-8.
fn given_words<R: Env + AllocGlobal>(rt: &R) -> Result<Vec<String>> {
    let mut words = Vec::new(rt.alloc());
    match env::args(rt) {
        Ok(all) => {
            for word in all.skip(1) {
                words.push(word)?;
            }
            Ok(words)
        }
        Err(error) if error.kind() == ErrorKind::InvalidData => Ok(words),
        Err(error) => Err(error),
    }
}

fn main(rt: HostRuntime) -> ExitCode {
    // The borrow check covers a call with types in its bounds only if this function names the types, too.
    let _sockets: Option<(TcpListener, TcpStream)> = None;
    let (mut output, mut errors) = (rt.stdout(), rt.stderr());
    let setting = env::var(&rt, "TTRPC_TCP_NODELAY_ENABLED").ok();
    let nodelay = nodelay_from(setting.as_deref());
    match given_words(&rt) {
        Ok(words) => ExitCode::from(run(rt, words.as_slice(), nodelay, &mut output, &mut errors)),
        Err(error) => {
            let _ = writeln!(errors, "ttrpc-health: {error}");
            ExitCode::from(1)
        }
    }
}
