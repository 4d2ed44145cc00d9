//! The target and the load of a measurement, as the words give them.
ghost use Rattle.std.specs.Prelude.{◌≡◌, ◌<◌, IfSome};

use ttrpc_load_polled::Load;

/// The target of the calls.
#[derive(Clone, Copy, Debug)]
pub enum Target<'a> {
    /// A bare echo of this process, with a connection for each caller: the limit of what a server can reach.
    Raw,
    /// The `Echo` of the server at this address, by one client that all callers share.
    Server(&'a str),
    /// The same, by one connection to which all calls are written at once.
    Burst(&'a str),
    /// The same, by a client that polls its calls on one event loop.
    Polled(&'a str),
    /// The streams of the server at this address, by a client that is polled on one event loop.
    Streams(&'a str),
    /// No calls are made. Polled clients rest, with a connection to the server at this address, or over readers and
    /// writers in memory. The number of calls is the number of clients.
    Rest(Option<&'a str>),
}

/// Returns the load and its target that the words give. The words are one of these:
///
/// - an address or `raw`, calls, callers and bytes.
/// - `burst`, an address, calls and bytes.
/// - `async` or `stream`, an address, calls or items, callers or streams, and bytes.
/// - `rest`, an address or none, and the number of clients.
///
/// Each number is at least one.
pub fn load_of(words: &[String]) -> Option<(Target<'_>, Load)>
    ensures { IfSome result
        (λ found. (0 < found.1.calls) × (0 < found.1.callers) × (0 < found.1.bytes)) }
{
    if let [word, address, calls, callers, bytes] = words {
        let target = match word.as_str() {
            "async" => Target::Polled(address.as_str()),
            "stream" => Target::Streams(address.as_str()),
            _ => return None,
        };
        return Some((target, load_by(calls, count_of(callers)?, bytes)?));
    }
    if let [word, clients] = words {
        return rest_of(word, None, clients);
    }
    if let [word, address, clients] = words {
        return rest_of(word, Some(address.as_str()), clients);
    }
    let [target, second, third, bytes] = words else {
        return None;
    };
    if target.as_str() == "burst" {
        return Some((Target::Burst(second.as_str()), load_by(third, 1, bytes)?));
    }
    let load = load_by(second, count_of(third)?, bytes)?;
    if target.as_str() == "raw" {
        return Some((Target::Raw, load));
    }
    Some((Target::Server(target.as_str()), load))
}

fn rest_of<'a>(
    word: &String,
    address: Option<&'a str>,
    clients: &String,
) -> Option<(Target<'a>, Load)>
    ensures { IfSome result
        (λ found. (0 < found.1.calls) × (0 < found.1.callers) × (0 < found.1.bytes)) }
{
    if word.as_str() != "rest" {
        return None;
    }
    let load = Load {
        calls: count_of(clients)?,
        callers: 1,
        bytes: 1,
    };
    Some((Target::Rest(address), load))
}

fn load_by(calls: &String, callers: usize, bytes: &String) -> Option<Load>
    ensures { IfSome result
        (λ load. (0 < load.calls) × (load.callers ≡ callers) × (0 < load.bytes)) }
{
    Some(Load {
        calls: count_of(calls)?,
        callers,
        bytes: count_of(bytes)?,
    })
}

fn count_of(word: &String) -> Option<usize>
    ensures { IfSome result (λ count. 0 < count) }
{
    match word.as_str().parse::<usize>() {
        Ok(0) | Err(_) => None,
        Ok(count) => Some(count),
    }
}
