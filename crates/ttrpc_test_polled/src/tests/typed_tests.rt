//! Messages that come on a stream.
ghost use Rattle.futures.specs.Poll.{OnPending};
ghost use Rattle.futures.specs.Task.{IsArmed, Keeps};

use crate::tests::sites::{System, Wired, make_wired};
use futures::Future;
use futures::future::Either;
use futures::task::{Context, Poll};
use std::test::Fail;
use tokio::runtime::LocalRuntime;
use ttrpc_bench::checks::check_named;
use ttrpc_bench_polled::acts::request;
use ttrpc_bench_polled::lines::{Line, Side, Speaker};
use ttrpc_bench_polled::parts::{Fault, Parts};
use ttrpc_polled::ServerStreamReceiver;
use ttrpc_polled_client::{Client, ClientLine, ClientNewStream};
use ttrpc_proto::{Error, KeyValue, Result as RpcResult};
use ttrpc_secure::Plain;

/// A stream that is opened, and the results of its receiver: a message, the end, and an error.
#[derive(Drop)]
struct Receipts {
    opening: ClientNewStream<Plain, Plain>,
    receiver: Option<ServerStreamReceiver<KeyValue, ClientLine<Plain, Plain>>>,
    came: usize,
}

impl Receipts {
    fn poll_opening(&mut self, cx: &mut Context<'_>) -> Poll<Option<Fault>>
        ensures registered { OnPending result (IsArmed cx.new) }
        ensures kept { Keeps cx.old cx.new }
    {
        match self.opening.poll(cx) {
            Poll::Pending => Poll::Pending,
            Poll::Ready(Ok(stream)) => {
                self.receiver = Some(ServerStreamReceiver::new(stream));
                cx.yield_now()
            }
            Poll::Ready(Err(_)) => Poll::Ready(Some(Fault::Stop)),
        }
    }

    fn poll_receipt(&mut self, cx: &mut Context<'_>) -> Poll<Option<Fault>>
        ensures registered { OnPending result (IsArmed cx.new) }
        ensures kept { Keeps cx.old cx.new }
    {
        let Some(receiver) = &mut self.receiver else {
            return Poll::Ready(Some(Fault::Stop));
        };
        match receiver.poll_recv(cx) {
            Poll::Pending => Poll::Pending,
            Poll::Ready(given) => {
                if !is_stated(self.came, &given) {
                    return Poll::Ready(Some(Fault::Act(self.came)));
                }
                if self.came == 2 {
                    return Poll::Ready(None);
                }
                self.came = self.came.saturating_add(1);
                cx.yield_now()
            }
        }
    }
}

impl Future for Receipts {
    type Output = Option<Fault>;

    fn poll(&mut self, cx: &mut Context<'_>) -> Poll<Option<Fault>> {
        if self.receiver.is_none() {
            return self.poll_opening(cx);
        }
        self.poll_receipt(cx)
    }
}

/// Returns whether this is the expected receipt with this number, from 0.
fn is_stated(number: usize, given: &RpcResult<Option<KeyValue>>) -> bool {
    match (number, given) {
        (0, Ok(Some(pair))) => pair.key.as_str() == "k" && pair.value.as_str() == "v",
        (1, Ok(None)) => true,
        (2, Err(Error::RemoteClosed)) => true,
        _ => false,
    }
}

/// A stream, a pair on it, and its close.
const LINES: &[Line<'static>] = &[
    Line::Up(b"\0\0\0\x11\0\0\0\x01\x01\x06\x0a\x09demo.Echo\x12\x04Chat"),
    Line::Down(b"\0\0\0\x06\0\0\0\x01\x03\0\x0a\x01k\x12\x01v"),
    Line::Down(b"\0\0\0\0\0\0\0\x01\x03\x05"),
];

/// Returns the receipts of a stream that this client opens.
fn make_receipts<R: System>(rt: &R, client: &Client<R, Plain, Plain>) -> Result<Receipts, Fail> {
    let request = request(rt.alloc(), "Chat", b"", 0)?;
    Ok(Receipts {
        opening: client.new_stream(request, true, true)?,
        receiver: None,
        came: 0,
    })
}

/// Receives the messages of a server that sends its part of these lines.
fn receive<R: System>(rt: &R, lines: &[Line<'_>]) -> Result<Option<Fault>, Fail> {
    let mut runtime = LocalRuntime::new(rt)?;
    let wired = make_wired(rt, runtime.handle(), 4096)?;
    let receipts = Either::Left(make_receipts(rt, &wired.client)?);
    let Wired {
        client: _client,
        connection,
        reader,
        writer,
    } = wired;
    let speaker = Either::Right(Speaker::new(Side::Server, lines, reader, writer));
    let parts = Parts::both(rt.alloc(), receipts, speaker, connection)?;
    Ok(runtime.block_on(rt, parts)?)
}

// Seen to fail if an `SSReceiver` loses an item.
#[test]
fn messages_come_until_there_are_no_more(rt: HostRuntime) -> Result<(), Fail> {
    let fault = receive(&rt, LINES)?;
    check_named("an act or a line comes otherwise", fault.is_none())
}
