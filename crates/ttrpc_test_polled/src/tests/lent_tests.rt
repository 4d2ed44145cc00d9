//! The futures of a stream, stepped by hand on a core that is lent.
use crate::tests::peer::Manners;
use crate::tests::sites::{Site, System, done, make_site, request};
use std::alloc::Global;
use std::test::Fail;
use ttrpc_bench::checks::check_named;
use ttrpc_client::{ClientCore, ClientKind};
use ttrpc_polled::{
    ClientStream, ClientStreamSender, SSReceiver, StreamInner, StreamReceiver, StreamSender,
};
use ttrpc_polled_client::{ClientLine, ClientNewStream, Opening};
use ttrpc_proto::{Error, Result as RpcResult};
use ttrpc_secure::{ConnectionContext, Plain};
use ttrpc_wire::Blob;

/// The line of a client without transforms.
type PlainLine = ClientLine<Plain, Plain>;

/// The core of such a client.
type Core = ClientCore<Plain, Plain>;

/// Opens the first stream of a client, which has the id 1.
fn first_stream<R: System>(rt: &R) -> Result<StreamInner<PlainLine>, Fail> {
    let Site {
        mut runtime,
        client,
        ends,
    } = make_site(rt, 4096, Manners::Echoes)?;
    let opening = client.new_stream(request(rt.alloc(), "Chat", b"", 0)?, true, true)?;
    let (stream, _) = done(rt, &mut runtime, ends, opening)?;
    Ok(stream?)
}

/// Returns another core, without a stream.
fn bare(alloc: Global) -> Result<Core, Fail> {
    let context = ConnectionContext::of_halves(alloc, Plain {}, Plain {});
    Ok(ClientCore::new(alloc, ClientKind::Async, context)?)
}

/// Returns another core with a stream with that id, which got these bytes.
fn lent(alloc: Global, came: &[u8]) -> Result<Core, Fail> {
    let mut core = bare(alloc)?;
    let opening = Opening {
        request: request(alloc, "Chat", b"", 0)?,
        streaming_client: true,
        streaming_server: true,
    };
    opening.step(alloc, &mut core)?;
    core.feed(alloc, came)?;
    Ok(core)
}

/// Writes all bytes that the core has to write.
fn write_all(core: &mut Core) {
    let mut buffer = [0u8; 64];
    for _ in 0..4u32 {
        core.lend(&mut buffer);
        let lent = core.lent();
        core.wrote(lent);
    }
}

/// An item of the server, and its end.
const ITEM: &[u8] = b"\0\0\0\x01\0\0\0\x01\x03\0\x2a";

const ITEM_AND_END: &[u8] = b"\0\0\0\x01\0\0\0\x01\x03\0\x2a\0\0\0\0\0\0\0\x01\x03\x05";

/// Returns whether sending an item is pending in two steps, and succeeds after its frame has left.
fn steps_of_sending(alloc: Global, sender: &StreamSender<PlainLine>) -> Result<bool, Fail> {
    let mut core = lent(alloc, b"")?;
    let mut sending = sender.send(Vec::from_slice(alloc, b"a")?);
    let first = sending.step(&mut core).is_none();
    let second = sending.step(&mut core).is_none();
    write_all(&mut core);
    let last = matches!(sending.step(&mut core), Some(Ok(())));
    Ok(first && second && last)
}

/// Returns whether the item came.
fn has_come(given: &Option<RpcResult<Blob>>) -> bool {
    match given {
        Some(Ok(item)) => item.as_slice() == b"\x2a".as_slice(),
        _ => false,
    }
}

/// Returns whether an item is received, and nothing more yet.
fn steps_of_receiving(
    alloc: Global,
    receiver: &mut StreamReceiver<PlainLine>,
) -> Result<bool, Fail> {
    let mut core = lent(alloc, ITEM)?;
    let receipt = receiver.recv();
    let first = receipt.step(&mut core);
    let second = receipt.step(&mut core);
    Ok(has_come(&first) && second.is_none())
}

#[test]
fn items_are_stepped(rt: HostRuntime) -> Result<(), Fail> {
    let (sender, mut receiver) = first_stream(&rt)?.split();
    let is_so = steps_of_sending(rt.alloc(), &sender)?
        && steps_of_receiving(rt.alloc(), &mut receiver)?;
    check_named("a step comes to something else", is_so)
}

/// Returns whether a message is received, and nothing more yet.
fn steps_of_messages(alloc: Global, inner: StreamInner<PlainLine>) -> Result<bool, Fail> {
    let mut core = lent(alloc, ITEM)?;
    let mut stream: ClientStream<Blob, Blob, PlainLine> = ClientStream::new(inner);
    let receipt = stream.recv();
    let first = receipt.step(&mut core);
    let second = receipt.step(&mut core);
    Ok(has_come(&first) && second.is_none())
}

/// Returns the message that came, or the error instead of it.
fn some(given: Option<RpcResult<Option<Blob>>>) -> Option<RpcResult<Blob>> {
    match given {
        Some(Ok(Some(item))) => Some(Ok(item)),
        Some(Err(error)) => Some(Err(error)),
        Some(Ok(None)) | None => None,
    }
}

/// Returns whether a message is received, and then the end.
fn steps_to_the_end(alloc: Global, inner: StreamInner<PlainLine>) -> Result<bool, Fail> {
    let mut core = lent(alloc, ITEM_AND_END)?;
    let mut receiver: SSReceiver<Blob, PlainLine> = SSReceiver::new(inner);
    let receipt = receiver.recv();
    let first = some(receipt.step(&mut core));
    let second = receipt.step(&mut core);
    let is_over = matches!(&second, Some(Ok(None)));
    Ok(has_come(&first) && is_over)
}

/// Returns whether a stream is closed, and the response is received only after that.
fn steps_of_closing(alloc: Global, inner: StreamInner<PlainLine>) -> Result<bool, Fail> {
    let mut core = lent(alloc, ITEM)?;
    let mut stream: ClientStreamSender<Blob, Blob, PlainLine> = ClientStreamSender::new(inner);
    let mut call = stream.close_and_recv();
    let asked = call.step(&mut core).is_none() && call.step(&mut core).is_none();
    write_all(&mut core);
    let closed = call.step(&mut core).is_none();
    let last = call.step(&mut core);
    Ok(asked && closed && has_come(&last))
}

#[test]
fn messages_are_stepped(rt: HostRuntime) -> Result<(), Fail> {
    let is_so = steps_of_messages(rt.alloc(), first_stream(&rt)?)?
        && steps_to_the_end(rt.alloc(), first_stream(&rt)?)?
        && steps_of_closing(rt.alloc(), first_stream(&rt)?)?;
    check_named("a step comes to something else", is_so)
}

/// Returns whether a stream is opened on such a core, but only once.
fn steps_of_opening(
    alloc: Global,
    mut opening: ClientNewStream<Plain, Plain>,
) -> Result<bool, Fail> {
    let mut core = bare(alloc)?;
    let first = opening.step(&mut core);
    let second = opening.step(&mut core);
    Ok(first.is_ok() && matches!(&second, Err(Error::LocalClosed)) && core.lendable() > 0)
}

#[test]
fn an_opening_is_stepped(rt: HostRuntime) -> Result<(), Fail> {
    let Site {
        runtime: _runtime,
        client,
        ends: _ends,
    } = make_site(&rt, 4096, Manners::Echoes)?;
    let opening = client.new_stream(request(rt.alloc(), "Chat", b"", 0)?, true, true)?;
    check_named(
        "a step comes to something else",
        steps_of_opening(rt.alloc(), opening)?,
    )
}
