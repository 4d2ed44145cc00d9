//! The words that the program is called by.
use hex::FromHexError;
use std::alloc::Global;
use ttrpc_proto::{Error, Result};
use ttrpc_wire::Blob;

/// The command that the words give.
#[derive(Drop)]
pub enum ChatCommand<'a> {
    /// Serves at an address, for this number of seconds or until the program is killed.
    Serves(&'a str, Option<u64>),
    /// Calls a server at an address.
    Calls(&'a str, EchoCall),
    /// The words give no command.
    Wrong,
}

/// A call, with its items or their count.
#[derive(Drop)]
pub enum EchoCall {
    Unary(Blob),
    Chat(Vec<Blob>),
    Sum(Vec<Blob>),
    Count(u32),
}

/// Reads the command that these words give. Returns an error only if memory is refused.
pub fn read_words(alloc: Global, words: &[String]) -> Result<ChatCommand<'_>> {
    let [first, address, rest @ ..] = words else {
        return Ok(ChatCommand::Wrong);
    };
    let address = address.as_str();
    let call = match (first.as_str(), rest) {
        ("serve", []) => return Ok(ChatCommand::Serves(address, None)),
        ("serve", [seconds]) => match seconds.as_str().parse::<u64>() {
            Ok(seconds) => return Ok(ChatCommand::Serves(address, Some(seconds))),
            Err(_) => return Ok(ChatCommand::Wrong),
        },
        ("unary", [digits]) => match bytes_of(alloc, digits.as_str())? {
            Some(item) => EchoCall::Unary(item),
            None => return Ok(ChatCommand::Wrong),
        },
        ("chat", items) => match all_bytes(alloc, items)? {
            Some(items) => EchoCall::Chat(items),
            None => return Ok(ChatCommand::Wrong),
        },
        ("sum", items) => match all_bytes(alloc, items)? {
            Some(items) => EchoCall::Sum(items),
            None => return Ok(ChatCommand::Wrong),
        },
        ("count", [number]) => match number.as_str().parse::<u32>() {
            Ok(number) => EchoCall::Count(number),
            Err(_) => return Ok(ChatCommand::Wrong),
        },
        _ => return Ok(ChatCommand::Wrong),
    };
    Ok(ChatCommand::Calls(address, call))
}

/// Reads the bytes of all these words. Returns `None` if one of them isn't an even number of hexadecimal digits.
fn all_bytes(alloc: Global, words: &[String]) -> Result<Option<Vec<Blob>>> {
    let mut items = Vec::new(alloc);
    for word in words {
        match bytes_of(alloc, word.as_str())? {
            Some(item) => items.push(item)?,
            None => return Ok(None),
        }
    }
    Ok(Some(items))
}

/// Reads the bytes of these hexadecimal digits. Returns `None` if their number isn't even, or if there is anything
/// else.
fn bytes_of(alloc: Global, digits: &str) -> Result<Option<Blob>> {
    match hex::decode(alloc, digits) {
        Ok(bytes) => Ok(Some(Blob::from_vec(bytes))),
        Err(FromHexError::OutOfMemory) => Err(Error::NoMemory),
        Err(_) => Ok(None),
    }
}
