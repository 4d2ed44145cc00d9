//! Calls and streams of messages.
ghost use Rattle.std.specs.Prelude.{◌≡◌, [], true, false, IfErr, IfOk, IsSomeAnd};
ghost use Rattle.std.specs.Arc.{arc_value};
ghost use Rattle.futures.specs.Poll.{IfReady, OnPending};
ghost use Rattle.futures.specs.Task.{Covers, Keeps};
ghost use Rattle.ttrpc_proto.specs.declared.error.Error.{Error as AnError};
ghost use Rattle.ttrpc_polled.specs.Streams.Items.{GivesItemOrEnd};
ghost use Rattle.ttrpc_polled_client.specs.Calling.{IsCalling, IsNotCalled, IsOpening, IsPrepared, asks_for};
ghost use Rattle.ttrpc_polled_client.specs.Needs.{line_source};
ghost use Rattle.ttrpc_polled.specs.Streams.Needs.{receiver_source};

use crate::client::Client;
use crate::line::ClientLine;
use crate::opening::ClientNewStream;
use crate::request::ClientRequest;
use futures::Future;
use futures::task::{Context, Poll};
use std::alloc::Global;
use std::fmt::Display;
use std::marker::PhantomData;
use std::mem::replace;
use ttrpc_message::calls::{merge_reply, request_of};
use ttrpc_message::{Context as CallContext, to_pb};
use ttrpc_polled::{
    ClientStream, ClientStreamSender, SSReceiver, SSReceiverRecv, StreamInner, Timed,
};
use ttrpc_proto::{Error, Request, RequestInit, Result};
use ttrpc_secure::{InboundTransform, OutboundTransform};
use ttrpc_wire::Codec;

/// The state of a call of a service's method.
#[derive(Drop)]
enum Calling<O: OutboundTransform + Drop, I: InboundTransform + Drop, P> {
    /// The call waits for its response, and takes the response's payload into this value.
    Waits(ClientRequest<O, I>, P),
    /// The call was refused before it was made.
    Refused(Error),
    /// The outcome was returned.
    Done,
}

/// A call of a service's method. It is ready with the value of its response.
#[derive(Drop)]
pub struct ClientCall<O: OutboundTransform + Drop, I: InboundTransform + Drop, P> {
    alloc: Global,
    at: Calling<O, I, P>,
}

/// Makes the call of a service's method with this value, and with the context's metadata and time limit. The payload of the response goes
/// into `reply`. If the request is refused, the refusal is the call's outcome.
pub fn call_of<R, O, I, Q, P>(
    client: &Client<R, O, I>,
    service: &str,
    method: &str,
    context: CallContext,
    message: &Q,
    reply: P,
) -> ClientCall<O, I, P>
where
    R: Timed,
    O: OutboundTransform + Drop,
    I: InboundTransform + Drop,
    Q: Codec,
    Q::E: Display + Drop,
    P: Drop,
    ensures { IsCalling (arc_value client.now.line)
        (asks_for service.now method.now context (Q.written message.now)) reply
        (IsNotCalled Q.E.is_no_memory Q.E.output (Q.written message.now)) result.at }
{
    let alloc = client.alloc();
    let made = match request_of(alloc, service, method, context, message) {
        Ok(request) => client.request(request),
        Err(error) => Err(error),
    };
    let at = match made {
        Ok(request) => Calling::Waits(request, reply),
        Err(error) => Calling::Refused(error),
    };
    ClientCall { alloc, at }
}

impl<O, I, P> Future for ClientCall<O, I, P>
where
    O: OutboundTransform + Drop,
    I: InboundTransform + Drop,
    P: Codec + Drop,
    P::E: Display + Drop,
{
    type Output = Result<P>;

    ghost use Rattle.ttrpc_polled_client.specs.Calling.{CallGives};
    ghost use Rattle.ttrpc_polled_client.specs.Needs.{calling_needs};

    ghost needs = { λ call. calling_needs call.at };

    ghost gives = { λ call r. CallGives P.written P.meaning call.at r };

    fn poll(&mut self, cx: &mut Context<'_>) -> Poll<Result<P>> {
        match replace(&mut self.at, Calling::Done) {
            Calling::Waits(mut request, mut reply) => match request.poll(cx) {
                Poll::Pending => {
                    self.at = Calling::Waits(request, reply);
                    Poll::Pending
                }
                Poll::Ready(Err(error)) => Poll::Ready(Err(error)),
                Poll::Ready(Ok(response)) => {
                    let merged = merge_reply(self.alloc, &mut reply, response.payload.as_slice());
                    Poll::Ready(match merged {
                        Ok(()) => Ok(reply),
                        Err(error) => Err(error),
                    })
                }
            },
            Calling::Refused(error) => Poll::Ready(Err(error)),
            Calling::Done => Poll::Ready(Err(Error::LocalClosed)),
        }
    }
}

/// The value that is made of an open stream.
pub trait OfStream<R: Timed, O: OutboundTransform + Drop, I: InboundTransform + Drop>: Drop {
    /// Makes the value over this stream of this client.
    fn of_stream(inner: StreamInner<ClientLine<O, I>>, client: Client<R, O, I>) -> Self;
}

impl<R, O, I, Q, P> OfStream<R, O, I> for ClientStream<Q, P, ClientLine<O, I>>
where
    R: Timed,
    O: OutboundTransform + Drop,
    I: InboundTransform + Drop,
    Q: Codec,
    P: Codec,
    Q::E: Display + Drop,
    P::E: Display + Drop,
{
    fn of_stream(inner: StreamInner<ClientLine<O, I>>, _client: Client<R, O, I>) -> Self {
        ClientStream::new(inner)
    }
}

impl<R, O, I, Q, P> OfStream<R, O, I> for ClientStreamSender<Q, P, ClientLine<O, I>>
where
    R: Timed,
    O: OutboundTransform + Drop,
    I: InboundTransform + Drop,
    Q: Codec,
    P: Codec,
    Q::E: Display + Drop,
    P::E: Display + Drop,
{
    fn of_stream(inner: StreamInner<ClientLine<O, I>>, _client: Client<R, O, I>) -> Self {
        ClientStreamSender::new(inner)
    }
}

/// A stream on which only the server sends messages. It keeps its client, and so the connection.
#[derive(Drop)]
pub struct ClientStreamReceiver<
    P,
    R: Timed,
    O: OutboundTransform + Drop,
    I: InboundTransform + Drop,
> {
    rx: SSReceiver<P, ClientLine<O, I>>,
    client: Client<R, O, I>,
}

impl<P, R, O, I> ClientStreamReceiver<P, R, O, I>
where
    R: Timed,
    O: OutboundTransform + Drop,
    I: InboundTransform + Drop,
    P: Codec,
    P::E: Display + Drop,
{
    /// Makes the receiving half of this stream of this client, and drops the other half.
    pub fn new(inner: StreamInner<ClientLine<O, I>>, client: Client<R, O, I>) -> Self
        ensures { (result.rx.rx ≡ inner.receiver) × (result.client ≡ client) }
    {
        ClientStreamReceiver {
            rx: SSReceiver::new(inner),
            client,
        }
    }

    /// Receives the next message, or none if the server closed. An error is another reason why there is none.
    pub fn recv(&mut self) -> SSReceiverRecv<'_, P, ClientLine<O, I>>
        ensures { result.receiver.now ≡ self.old.rx }
    {
        self.rx.recv()
    }

    /// Receives as `recv` does, for a state that keeps this receiver.
    pub fn poll_recv(&mut self, cx: &mut Context<'_>) -> Poll<Result<Option<P>>>
        ensures item { IfReady result (GivesItemOrEnd P.meaning P.E.is_no_memory P.E.output) }
        ensures registered { OnPending result
            (Covers cx.new (λ s. s ≡ receiver_source line_source self.new.rx.rx)) }
        ensures same { self.new ≡ self.old }
        ensures kept { Keeps cx.old cx.new }
    {
        self.rx.poll_recv(cx)
    }
}

impl<R, O, I, P> OfStream<R, O, I> for ClientStreamReceiver<P, R, O, I>
where
    R: Timed,
    O: OutboundTransform + Drop,
    I: InboundTransform + Drop,
    P: Codec,
    P::E: Display + Drop,
{
    fn of_stream(inner: StreamInner<ClientLine<O, I>>, client: Client<R, O, I>) -> Self {
        ClientStreamReceiver::new(inner, client)
    }
}

/// The state of a service's stream that is to be opened.
#[derive(Drop)]
enum OpeningAt<R: Timed, O: OutboundTransform + Drop, I: InboundTransform + Drop> {
    /// The stream is opened when it is polled.
    Opens(ClientNewStream<O, I>, Client<R, O, I>),
    /// The stream was refused before.
    Refused(Error),
    /// The stream is open.
    Done,
}

/// A stream of a service, which is opened when this future is first polled. It is ready with the stream.
#[derive(Drop)]
pub struct ClientOpening<K, R: Timed, O: OutboundTransform + Drop, I: InboundTransform + Drop> {
    at: OpeningAt<R, O, I>,
    kind: PhantomData<K>,
}

/// Makes the future that opens a service's stream of this name, without a payload.
pub fn open_of<K, R, O, I>(
    client: &Client<R, O, I>,
    service: &str,
    stream: &str,
    context: CallContext,
    streaming_server: bool,
) -> ClientOpening<K, R, O, I>
where
    R: Timed,
    O: OutboundTransform + Drop,
    I: InboundTransform + Drop,
    ensures { IsOpening (arc_value client.now.line)
        (record { request = asks_for service.now stream.now context []; streaming_client = true; streaming_server = streaming_server })
        (λ e. e ≡ AnError.NoMemory) result.at }
{
    match bare_request(client.alloc(), service, stream, context) {
        Ok(request) => opening(client, request, true, streaming_server),
        Err(error) => ClientOpening::of(OpeningAt::Refused(error)),
    }
}

/// Makes the future that opens a service's stream of this name, with this value as the client's one item.
pub fn open_with<K, R, O, I, Q>(
    client: &Client<R, O, I>,
    service: &str,
    stream: &str,
    context: CallContext,
    message: &Q,
) -> ClientOpening<K, R, O, I>
where
    R: Timed,
    O: OutboundTransform + Drop,
    I: InboundTransform + Drop,
    Q: Codec,
    Q::E: Display + Drop,
    ensures { IsOpening (arc_value client.now.line)
        (record { request = asks_for service.now stream.now context (Q.written message.now); streaming_client = false; streaming_server = true })
        (IsNotCalled Q.E.is_no_memory Q.E.output (Q.written message.now)) result.at }
{
    match request_of(client.alloc(), service, stream, context, message) {
        Ok(request) => opening(client, request, false, true),
        Err(error) => ClientOpening::of(OpeningAt::Refused(error)),
    }
}

impl<K, R, O, I> ClientOpening<K, R, O, I>
where
    R: Timed,
    O: OutboundTransform + Drop,
    I: InboundTransform + Drop,
{
    /// Makes an opening in this state.
    fn of(at: OpeningAt<R, O, I>) -> Self
        ensures { result.at ≡ at }
    {
        ClientOpening {
            at,
            kind: PhantomData,
        }
    }
}

/// Makes the future of the stream that this request opens.
fn opening<K, R, O, I>(
    client: &Client<R, O, I>,
    request: Request,
    streaming_client: bool,
    streaming_server: bool,
) -> ClientOpening<K, R, O, I>
where
    R: Timed,
    O: OutboundTransform + Drop,
    I: InboundTransform + Drop,
    ensures { IsOpening (arc_value client.now.line)
        (record { request = request; streaming_client = streaming_client; streaming_server = streaming_server })
        (λ e. e ≡ AnError.NoMemory) result.at }
{
    let opens = match client.new_stream(request, streaming_client, streaming_server) {
        Ok(opens) => opens,
        Err(error) => return ClientOpening::of(OpeningAt::Refused(error)),
    };
    ClientOpening::of(match client.try_clone() {
        Ok(client) => OpeningAt::Opens(opens, client),
        Err(error) => OpeningAt::Refused(error),
    })
}

/// Makes the request that opens a stream, without a payload.
fn bare_request(alloc: Global, service: &str, stream: &str, context: CallContext) -> Result<Request>
    ensures ok { IfOk result (λ request. request ≡ asks_for service.now stream.now context []) }
    ensures only_memory { IfErr result (λ e. e ≡ AnError.NoMemory) }
{
    let CallContext {
        metadata,
        timeout_nano,
    } = context;
    Ok(Request::init_request(
        alloc,
        String::from_str(alloc, service)?,
        String::from_str(alloc, stream)?,
        timeout_nano,
        to_pb(alloc, metadata)?,
    ))
}

impl<K, R, O, I> Future for ClientOpening<K, R, O, I>
where
    R: Timed,
    O: OutboundTransform + Drop,
    I: InboundTransform + Drop,
    K: OfStream<R, O, I>,
{
    type Output = Result<K>;

    ghost use Rattle.ttrpc_polled_client.specs.Calling.{ServiceStreamGives};
    ghost use Rattle.ttrpc_polled_client.specs.Needs.{service_opening_needs};

    ghost needs = { λ opening. service_opening_needs opening.at };

    ghost gives = { λ opening r. ServiceStreamGives opening.at r };

    fn poll(&mut self, cx: &mut Context<'_>) -> Poll<Result<K>> {
        match replace(&mut self.at, OpeningAt::Done) {
            OpeningAt::Opens(mut opens, client) => match opens.poll(cx) {
                Poll::Pending => {
                    self.at = OpeningAt::Opens(opens, client);
                    Poll::Pending
                }
                Poll::Ready(Ok(inner)) => Poll::Ready(Ok(K::of_stream(inner, client))),
                Poll::Ready(Err(error)) => Poll::Ready(Err(error)),
            },
            OpeningAt::Refused(error) => Poll::Ready(Err(error)),
            OpeningAt::Done => Poll::Ready(Err(Error::LocalClosed)),
        }
    }
}
