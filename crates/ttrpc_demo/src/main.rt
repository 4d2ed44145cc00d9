//! `ttrpc-demo`, the program of the project: a server and a client to try by hand. Its commands are `answer`, which
//! reads frames from standard input and writes their answers to standard output, `serve`, `call`, and `loop`, which
//! calls its own server.
#![tactic(auto)]

use std::env;
use std::io::{BufWriter, ErrorKind};
use std::net::{TcpListener, TcpStream};
use std::process::ExitCode;
use std::rt::Env;
use ttrpc_echo::{ProgramOutcome, run, tell};
use ttrpc_proto::{Error, MESSAGE_HEADER_LENGTH, MESSAGE_LENGTH_MAX};
use ttrpc_transport::nodelay_from;

/// Room for any frame, so that each answer leaves in one write when it is flushed. On a socket that delays small
/// writes, the rest of a frame would wait for the other side's acknowledgement.
const ROOM: usize = MESSAGE_HEADER_LENGTH + MESSAGE_LENGTH_MAX;

/// Returns the words after the program's name. If one of them isn't UTF-8, the words are wrong.
fn given_words<R: Env + AllocGlobal>(rt: &R) -> Result<Vec<String>, ProgramOutcome> {
    let all = match env::args(rt) {
        Ok(all) => all,
        Err(error) if error.kind() == ErrorKind::InvalidData => return Err(
            ProgramOutcome::WrongWords,
        ),
        Err(_) => return Err(ProgramOutcome::Failed(Error::NoMemory)),
    };
    let mut words = Vec::new(rt.alloc());
    for word in all.skip(1) {
        if words.push(word).is_err() {
            return Err(ProgramOutcome::Failed(Error::NoMemory));
        }
    }
    Ok(words)
}

fn main(rt: HostRuntime) -> ExitCode {
    // The borrow check covers a call with types in its bounds only if this function names the types, too.
    let _sockets: Option<(TcpListener, TcpStream)> = None;
    let words = match given_words(&rt) {
        Ok(words) => words,
        Err(outcome) => return ExitCode::from(tell(&outcome, &mut rt.stderr())),
    };
    let Ok(mut output) = BufWriter::with_capacity(rt.alloc(), ROOM, rt.stdout()) else {
        return ExitCode::from(tell(&ProgramOutcome::Failed(Error::NoMemory), &mut rt.stderr()));
    };
    let setting = env::var(&rt, "TTRPC_TCP_NODELAY_ENABLED").ok();
    ExitCode::from(run(
        rt,
        words.as_slice(),
        nodelay_from(setting.as_deref()),
        &mut rt.stdin(),
        &mut output,
        &mut rt.stderr(),
    ))
}
