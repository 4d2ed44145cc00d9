//! A service over a socket, by the macros.
use crate::tests::calls_tests::error_of;
use crate::tests::pairs::{Handler, PairsClient, methods};
use std::alloc::Global;
use std::fs;
use std::net::{Net, TcpListener, TcpStream};
use std::rt::Files;
use std::test::Fail;
use std::time::Duration;
use ttrpc::context::{Context, with_duration};
use ttrpc::proto::{Blob, KeyValue, Sequence, Text};
use ttrpc::sync::{Host, NoHook, Runtime};
use ttrpc::{Client, Error, Request, Result as Answer, Server};

type Tested = Result<(), Fail>;

const ADDRESS: &str = "unix://pairs.sock";

/// A pair's texts.
type Texts = (&'static str, &'static str);

/// The result of a call: a pair, or a status.
#[derive(Drop)]
enum Comes {
    Pair(Texts),
    Status(i32, &'static str),
}

/// The results of `Turn` for pairs, one call after the other.
const TURNED: &[(Texts, Comes)] = &[
    (("a", "b"), Comes::Pair(("b", "a"))),
    (("", "b"), Comes::Status(5, "no key")),
    (("a", ""), Comes::Status(2, "ttrpc err: no value")),
    (("c", "d"), Comes::Pair(("d", "c"))),
];

fn pair_of(alloc: Global, texts: Texts) -> Result<KeyValue, Fail> {
    Ok(KeyValue {
        key: Text::from_str(alloc, texts.0)?,
        value: Text::from_str(alloc, texts.1)?,
    })
}

/// True if a row holds, or the reason why a test ended.
type Holds = Result<bool, Fail>;

/// Returns whether the result is the expected one. Any other error than a status is returned as the error.
fn is_as_said(came: Answer<KeyValue>, said: &Comes) -> Holds {
    match (came, said) {
        (Ok(pair), Comes::Pair(texts)) => {
            Ok(pair.key.as_str() == texts.0 && pair.value.as_str() == texts.1)
        }
        (Err(Error::RpcStatus(status)), Comes::Status(code, message)) => {
            Ok(status.code == *code && status.message.as_str() == *message)
        }
        (Ok(_), _) => Ok(false),
        (Err(error), _) => Err(Fail::from(error)),
    }
}

/// Returns whether both handlers turn a pair as expected.
fn turns<R: Host>(client: &PairsClient<R>, alloc: Global, texts: Texts, said: &Comes) -> Holds {
    let pair = pair_of(alloc, texts)?;
    Ok(
        is_as_said(client.turn(Context::new(alloc), &pair), said)?
            && is_as_said(client.checked(Context::new(alloc), &pair), said)?,
    )
}

/// Returns whether each row holds.
fn pairs_turn<R: Host>(client: &PairsClient<R>, alloc: Global) -> Holds {
    for (texts, said) in TURNED {
        if !turns(client, alloc, *texts, said)? {
            return Ok(false);
        }
    }
    Ok(true)
}

/// Returns the context of a call with a long timeout, with the text `kind` for the key `Tone`.
fn tone(alloc: Global) -> Result<Context, Fail> {
    let mut context = with_duration(alloc, Duration::from_secs(60))?;
    let key = String::from_str(alloc, "Tone")?;
    let text = String::from_str(alloc, "kind")?;
    context.add(alloc, key, text)?;
    Ok(context)
}

/// Returns whether `Find` finds this text for the pair `tone`, `none`.
fn finds<R: Host>(
    client: &PairsClient<R>,
    alloc: Global,
    context: Context,
    text: &'static str,
) -> Holds {
    let pair = pair_of(alloc, ("tone", "none"))?;
    is_as_said(client.find(context, &pair), &Comes::Pair(("tone", text)))
}

/// Returns whether metadata comes with a call with a long timeout.
fn metadata_comes_along<R: Host>(client: &PairsClient<R>, alloc: Global) -> Holds {
    Ok(
        finds(client, alloc, tone(alloc)?, "kind")?
            && finds(client, alloc, Context::new(alloc), "none")?,
    )
}

/// Returns a request of a method with bytes that are no pair.
fn other_bytes(alloc: Global, method: &str) -> Result<Request, Fail> {
    Ok(Request {
        service: Text::from_str(alloc, "test.Pairs")?,
        method: Text::from_str(alloc, method)?,
        payload: Blob::from_slice(alloc, b"\x0a\x05a")?,
        timeout_nano: 0,
        metadata: Sequence::new(alloc),
    })
}

/// Returns whether a handler that checks them answers such bytes with a status. The connection goes on.
fn other_bytes_are_refused<R: Host>(client: &PairsClient<R>, alloc: Global) -> Holds {
    let request = other_bytes(alloc, "Checked")?;
    match error_of(client.client.request(request))? {
        Error::RpcStatus(status) => {
            let is_told = status.message.as_str().starts_with("Unpack request error ");
            Ok(status.code == 3 && is_told)
        }
        error => Err(Fail::from(error)),
    }
}

/// Returns whether bytes that are no pair are an error of the handler, which ends the connection.
fn other_bytes_end_the_connection<R: Host>(client: &PairsClient<R>, alloc: Global) -> Holds {
    let request = other_bytes(alloc, "Turn")?;
    match error_of(client.client.request(request))? {
        Error::Socket(text) => Ok(text.as_str() == "socket disconnected"),
        error => Err(Fail::from(error)),
    }
}

/// The parts of the system that the test uses.
trait Machine: Runtime + Files + Net<Listener = TcpListener, Stream = TcpStream> {}

impl<R: Runtime + Files + Net<Listener = TcpListener, Stream = TcpStream>> Machine for R {}

/// Starts the service's server.
fn start_pairs<R: Machine>(rt: &R) -> Result<Server<R, Handler, NoHook>, Fail> {
    let mut server = Server::new(rt.clone()?)?
        .bind(ADDRESS, true)?
        .register_service(methods(rt.alloc())?)?;
    server.start()?;
    Ok(server)
}

/// Connects a client of the service.
fn connect<R: Machine>(rt: &R) -> Result<PairsClient<R>, Fail> {
    let client = Client::connect(rt.clone()?, ADDRESS, true)?;
    Ok(PairsClient { client })
}

/// Returns whether all methods are called with the expected results. The last call ends the connection.
fn service_is_called<R: Host>(client: &PairsClient<R>, alloc: Global) -> Holds {
    Ok(
        other_bytes_are_refused(client, alloc)?
            && pairs_turn(client, alloc)?
            && metadata_comes_along(client, alloc)?
            && other_bytes_end_the_connection(client, alloc)?,
    )
}

#[test]
fn service_is_called_by_macros(rt: HostRuntime) -> Tested {
    let _ = fs::remove_file(&rt, "pairs.sock");
    let server = start_pairs(&rt)?;
    let client = connect(&rt)?;
    assert!(rt; service_is_called(&client, rt.alloc())?);
    server.shutdown();
    fs::remove_file(&rt, "pairs.sock")?;
    Ok(())
}
