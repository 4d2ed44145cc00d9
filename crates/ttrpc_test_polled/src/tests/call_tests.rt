use crate::tests::peer::Manners;
use crate::tests::sites::{Site, System, Wired, done, is_answered, make_site, make_wired, request};
use futures::Future;
use futures::future::{Either, join, select};
use futures::task::{Context, Poll};
use std::test::Fail;
use std::time::{Duration, Instant};
use tokio::runtime::LocalRuntime;
use ttrpc_bench::checks::check_named;
use ttrpc_polled::Timed;
use ttrpc_polled_client::{Client, ClientRequest};
use ttrpc_proto::{Error, Response, Result as RpcResult};
use ttrpc_secure::Plain;

// Returns whether a call's deadline has passed.
fn has_expired(outcome: RpcResult<Response>) -> bool {
    match outcome {
        Err(Error::Others(text)) => text.as_str() == "Request deadline elapsed",
        _ => false,
    }
}

/// A call of a client without transforms.
type Call = ClientRequest<Plain, Plain>;

/// The outcomes of two calls.
type Outcomes = (RpcResult<Response>, RpcResult<Response>);

/// Makes a call of `Echo` with this payload and timeout in nanoseconds.
fn echo<R: System>(
    rt: &R,
    client: &Client<R, Plain, Plain>,
    payload: &[u8],
    timeout_nano: i64,
) -> Result<Call, Fail> {
    let request = request(rt.alloc(), "Echo", payload, timeout_nano)?;
    Ok(client.request(request)?)
}

/// Makes two calls.
fn two_calls<R: System>(rt: &R, client: &Client<R, Plain, Plain>) -> Result<(Call, Call), Fail> {
    let first = echo(rt, client, b"1", 0)?;
    let second = echo(rt, client, b"2", 0)?;
    Ok((first, second))
}

/// Returns the outcomes of two calls of a site.
fn both_outcomes<R: System>(rt: &R, site: Site<R>, calls: (Call, Call)) -> Result<Outcomes, Fail> {
    let Site {
        mut runtime,
        client: _client,
        ends,
    } = site;
    let (outcomes, _) = done(rt, &mut runtime, ends, join(calls.0, calls.1))?;
    Ok(outcomes)
}

#[test]
fn joined_calls_get_their_own_answers(rt: HostRuntime) -> Result<(), Fail> {
    let site = make_site(&rt, 4096, Manners::AnswersBackwards)?;
    let calls = two_calls(&rt, &site.client)?;
    let (first, second) = both_outcomes(&rt, site, calls)?;
    let is_so = is_answered(&first, b"1") && is_answered(&second, b"2");
    check_named("a call has another answer", is_so)
}

/// Returns the outcome of a call of a site.
fn outcome_of<R: System>(rt: &R, site: Site<R>, call: Call) -> Result<RpcResult<Response>, Fail> {
    let Site {
        mut runtime,
        client: _client,
        ends,
    } = site;
    let (outcome, _) = done(rt, &mut runtime, ends, call)?;
    Ok(outcome)
}

#[test]
fn a_long_call_passes_a_narrow_pipe(rt: HostRuntime) -> Result<(), Fail> {
    let long = vec![in rt.alloc(); 7; 100000]?;
    let site = make_site(&rt, 100, Manners::Echoes)?;
    let call = echo(&rt, &site.client, long.as_slice(), 0)?;
    let outcome = outcome_of(&rt, site, call)?;
    check_named(
        "it has another answer",
        is_answered(&outcome, long.as_slice()),
    )
}

/// Makes a call with many bytes, and one with a timeout of 50 ms.
fn long_and_limited<R: System>(
    rt: &R,
    client: &Client<R, Plain, Plain>,
) -> Result<(Call, Call), Fail> {
    let long = vec![in rt.alloc(); 7; 250000]?;
    let other = echo(rt, client, long.as_slice(), 0)?;
    let call = echo(rt, client, b"2", 50_000_000)?;
    Ok((other, call))
}

/// Returns the outcome of the second of two calls of a site, which ends before the first.
fn second_outcome<R: System>(
    rt: &R,
    site: Site<R>,
    calls: (Call, Call),
) -> Result<RpcResult<Response>, Fail> {
    let Site {
        mut runtime,
        client: _client,
        ends,
    } = site;
    let (first, _) = done(rt, &mut runtime, ends, select(calls.0, calls.1))?;
    match first {
        Either::Right(ended) => {
            let (outcome, _) = ended;
            Ok(outcome)
        }
        Either::Left(_) => Err("the other call ended".into()),
    }
}

/// Returns whether a call with a timeout of 50 ms expires within 500 ms, after a call with bytes that are never read.
fn expires_in_time<R: System>(rt: &R) -> Result<bool, Fail> {
    let site = make_site(rt, 100, Manners::ReadsNothing)?;
    let calls = long_and_limited(rt, &site.client)?;
    let begun = Instant::now(rt)?;
    let outcome = second_outcome(rt, site, calls)?;
    let elapsed = begun.elapsed(rt)?;
    Ok(has_expired(outcome) && elapsed <= Duration::from_millis(500))
}

/// On a machine with other work one try may be late.
// Should fail if the clock never advances; an alarm is never set.
#[test]
fn a_call_expires_whose_bytes_are_never_read(rt: HostRuntime) -> Result<(), Fail> {
    for _ in 0..5u8 {
        if expires_in_time(&rt)? {
            return Ok(());
        }
    }
    Err("it comes late".into())
}

/// Returns the outcome of a call of a site if both ends are dropped.
fn dropped_outcome<R: System>(
    rt: &R,
    site: Site<R>,
    call: Call,
) -> Result<RpcResult<Response>, Fail> {
    let Site {
        mut runtime,
        client: _client,
        ends,
    } = site;
    drop(ends);
    Ok(runtime.block_on(rt, call)?)
}

#[test]
fn a_call_ends_whose_connection_is_dropped(rt: HostRuntime) -> Result<(), Fail> {
    let site = make_site(&rt, 100, Manners::IsSilent)?;
    let call = echo(&rt, &site.client, b"2", 0)?;
    let outcome = dropped_outcome(&rt, site, call)?;
    check_named(
        "it ends otherwise",
        matches!(&outcome, Err(Error::LocalClosed)),
    )
}

/// A client that is dropped when this is polled.
#[derive(Drop)]
struct Leaves<R: Timed> {
    client: Option<Client<R, Plain, Plain>>,
}

impl<R: Timed> Future for Leaves<R> {
    type Output = ();

    fn poll(&mut self, _cx: &mut Context<'_>) -> Poll<()> {
        self.client = None;
        Poll::Ready(())
    }
}

/// Polls a connection, which waits, and drops its client, while both far ends stay. The connection is woken, and ends.
fn end_behind_the_client<R: System>(
    rt: &R,
    runtime: &mut LocalRuntime,
    wired: Wired<R>,
) -> Result<(), Fail> {
    let Wired {
        client,
        connection,
        reader: _reader,
        writer: _writer,
    } = wired;
    let leaves = Leaves {
        client: Some(client),
    };
    runtime.block_on(rt, join(connection, leaves))?;
    Ok(())
}

// Seen to fail if the last client's drop ends no connection.
#[test]
fn a_connection_ends_behind_its_client(rt: HostRuntime) -> Result<(), Fail> {
    let mut runtime = LocalRuntime::new(&rt)?;
    let wired = make_wired(&rt, runtime.handle(), 100)?;
    end_behind_the_client(&rt, &mut runtime, wired)
}
