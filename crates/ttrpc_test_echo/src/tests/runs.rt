//! One run of the program, over any reader.
use crate::tests::vectors::{NO_MEMORY_LINE, NO_MEMORY_TEXT};
use std::alloc::Global;
use std::io::Read;
use std::net::{TcpListener, TcpStream};
use std::process::Abort;
use std::test::Fail;
use ttrpc_echo::{DemoSystem, run};
use ttrpc_proto::Error;

/// The parts of the system that a test of runs uses.
pub trait Tester: DemoSystem + Abort {}

impl<R: DemoSystem + Abort> Tester for R {}

/// The borrow check covers a run over a host's sockets only if the function that calls it names their types.
pub type Sockets = Option<(TcpListener, TcpStream)>;

/// More room than any of the runs of a table uses, so that no writer takes more memory.
pub const ROOM: usize = 256;

/// The results of a run of the program.
#[derive(Drop)]
pub struct Ran {
    pub status: u8,
    pub output: Vec<u8>,
    pub errors: Vec<u8>,
}

/// Adds a word.
pub fn add_word(alloc: Global, words: &mut Vec<String>, word: &str) -> Result<(), Fail> {
    let word = String::from_str(alloc, word)?;
    words.push(word)?;
    Ok(())
}

pub fn words_of(alloc: Global, words: &[&str]) -> Result<Vec<String>, Fail> {
    let mut given = Vec::new(alloc);
    for word in words {
        add_word(alloc, &mut given, word)?;
    }
    Ok(given)
}

/// Runs the program with room for this number of bytes of output. It is an error if a run ends because memory was
/// refused.
pub fn run_words<S: DemoSystem + 'static, R: Read>(
    rt: &S,
    words: &[String],
    input: &mut R,
    room: usize,
) -> Result<Ran, Fail> {
    let mut output = Vec::with_capacity(rt.alloc(), room)?;
    let mut errors = Vec::with_capacity(rt.alloc(), ROOM)?;
    let status = run(rt.clone()?, words, true, input, &mut output, &mut errors);
    if status == 1 && (output.as_slice() == NO_MEMORY_LINE || errors.as_slice() == NO_MEMORY_TEXT) {
        return Err(Error::NoMemory.into());
    }
    Ok(Ran {
        status,
        output,
        errors,
    })
}
