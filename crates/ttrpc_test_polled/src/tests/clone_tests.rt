//! Clones of a client and of a sender, which work after the original was dropped, and dropped parts of a stream.
use crate::tests::peer::Manners;
use crate::tests::sites::{Ends, Site, System, done, is_answered, is_item, make_site, request};
use futures::future::poll_immediate;
use std::sync::Arc;
use std::test::Fail;
use tokio::runtime::LocalRuntime;
use ttrpc_bench::checks::check_named;
use ttrpc_bench_polled::lone::Lone;
use ttrpc_polled::{StreamInner, StreamReceiver, StreamSender};
use ttrpc_polled_client::{Client, ClientLine};
use ttrpc_proto::{Response, Result as RpcResult};
use ttrpc_secure::Plain;
use ttrpc_wire::Blob;

/// Returns the outcome of a clone's call after the original was dropped.
fn clone_calls<R: System>(rt: &R) -> Result<RpcResult<Response>, Fail> {
    let Site {
        mut runtime,
        client,
        ends,
    } = make_site(rt, 4096, Manners::Echoes)?;
    let clone = client.try_clone()?;
    drop(client);
    let call = clone.request(request(rt.alloc(), "Echo", b"1", 0)?)?;
    let (outcome, _) = done(rt, &mut runtime, ends, call)?;
    Ok(outcome)
}

// Seen to fail if a client's clone fails.
#[test]
fn a_clone_calls_behind_its_original(rt: HostRuntime) -> Result<(), Fail> {
    let outcome = clone_calls(&rt)?;
    check_named("it has another answer", is_answered(&outcome, b"1"))
}

/// The line of a client without transforms.
type PlainLine = ClientLine<Plain, Plain>;

/// Returns a clone of a stream's sender, and the stream's receiver. The original sender is dropped.
fn halves<R: System>(
    rt: &R,
    runtime: &mut LocalRuntime,
    ends: Ends<R>,
    client: &Client<R, Plain, Plain>,
) -> Result<(StreamSender<PlainLine>, StreamReceiver<PlainLine>, Ends<R>), Fail> {
    let opening = client.new_stream(request(rt.alloc(), "Chat", b"", 0)?, true, true)?;
    let (stream, ends) = done(rt, runtime, ends, opening)?;
    let (sender, receiver) = stream?.split();
    let clone = sender.try_clone()?;
    drop(sender);
    Ok((clone, receiver, ends))
}

/// Sends an item, and returns the result.
fn sent<R: System>(
    rt: &R,
    runtime: &mut LocalRuntime,
    ends: Ends<R>,
    sender: &StreamSender<PlainLine>,
    item: &[u8],
) -> Result<(RpcResult<()>, Ends<R>), Fail> {
    let sending = sender.send(Vec::from_slice(rt.alloc(), item)?);
    done(rt, runtime, ends, sending)
}

/// Sends an item, and returns what comes back.
fn echoed<R: System>(
    rt: &R,
    runtime: &mut LocalRuntime,
    ends: Ends<R>,
    sender: &StreamSender<PlainLine>,
    mut receiver: StreamReceiver<PlainLine>,
) -> Result<(RpcResult<Blob>, Ends<R>), Fail> {
    let (outcome, ends) = sent(rt, runtime, ends, sender, b"a")?;
    outcome?;
    done(rt, runtime, ends, receiver.recv())
}

/// Returns the item that comes back after a clone sends one, and the result of sending another one without a receiver.
fn clone_sends<R: System>(rt: &R) -> Result<(RpcResult<Blob>, RpcResult<()>), Fail> {
    let Site {
        mut runtime,
        client,
        ends,
    } = make_site(rt, 4096, Manners::Echoes)?;
    let (sender, receiver, ends) = halves(rt, &mut runtime, ends, &client)?;
    let (item, ends) = echoed(rt, &mut runtime, ends, &sender, receiver)?;
    let (last, _) = sent(rt, &mut runtime, ends, &sender, b"b")?;
    Ok((item, last))
}

// Seen to fail if a sender's clone ends with its original.
#[test]
fn a_clone_sends_behind_its_original(rt: HostRuntime) -> Result<(), Fail> {
    let (item, last) = clone_sends(&rt)?;
    check_named("an item is lost", is_item(&item, b"a") && last.is_ok())
}

// Seen to fail if a receiver's drop isn't reported.
#[test]
fn a_dropped_receiver_tells_its_line_once(rt: HostRuntime) -> Result<(), Fail> {
    let line = Arc::new(rt.alloc(), Lone::new(7u32))?;
    let receiver = StreamReceiver::new(rt.alloc(), Arc::try_clone(&line)?, 7);
    let before = line.left();
    drop(receiver);
    check_named(
        "it tells otherwise",
        before == (0, 0) && line.left() == (1, 0),
    )
}

// Seen to fail if the last sender's drop isn't reported, or each sender's is.
#[test]
fn only_the_last_sender_tells_its_line(rt: HostRuntime) -> Result<(), Fail> {
    let line = Arc::new(rt.alloc(), Lone::new(7u32))?;
    let sender = StreamSender::new(rt.alloc(), Arc::try_clone(&line)?, 7)?;
    let clone = sender.try_clone()?;
    drop(sender);
    let before = line.left();
    drop(clone);
    check_named(
        "it tells otherwise",
        before == (0, 0) && line.left() == (0, 1),
    )
}

/// Returns whether an item waits to be sent after its future is polled once. Then the future is dropped.
fn waits_and_is_dropped<R: System>(
    rt: &R,
    runtime: &mut LocalRuntime,
    stream: &StreamInner<PlainLine>,
) -> Result<bool, Fail> {
    let sending = stream.send(Vec::from_slice(rt.alloc(), b"a")?);
    Ok(runtime.block_on(rt, poll_immediate(sending))?.is_none())
}

/// Sends an item and drops its future, and sends another item. Returns whether the first waited, and the item that
/// comes back first.
fn first_of_two<R: System>(
    rt: &R,
    runtime: &mut LocalRuntime,
    ends: Ends<R>,
    mut stream: StreamInner<PlainLine>,
) -> Result<(bool, RpcResult<Blob>), Fail> {
    let is_dropped = waits_and_is_dropped(rt, runtime, &stream)?;
    let (outcome, ends) = sent(rt, runtime, ends, stream.sender(), b"b")?;
    outcome?;
    let (item, _) = done(rt, runtime, ends, stream.recv())?;
    Ok((is_dropped, item))
}

/// Returns the same for the first stream of a client.
fn first_echo<R: System>(rt: &R) -> Result<(bool, RpcResult<Blob>), Fail> {
    let Site {
        mut runtime,
        client,
        ends,
    } = make_site(rt, 4096, Manners::Echoes)?;
    let opening = client.new_stream(request(rt.alloc(), "Chat", b"", 0)?, true, true)?;
    let (stream, ends) = done(rt, &mut runtime, ends, opening)?;
    first_of_two(rt, &mut runtime, ends, stream?)
}

// Seen to fail if a pending send that is dropped takes its item back.
#[test]
fn an_item_arrives_whose_call_is_dropped(rt: HostRuntime) -> Result<(), Fail> {
    let (is_dropped, item) = first_echo(&rt)?;
    check_named(
        "another item comes first",
        is_dropped && is_item(&item, b"a"),
    )
}
