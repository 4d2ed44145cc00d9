//! A socket of TCP that is polled.
ghost use Rattle.std.specs.Prelude.{◌≡◌, ◌≤◌, length, IfErr, IfOk};
ghost use Rattle.futures.specs.Poll.{OnPending};
ghost use Rattle.futures.specs.Task.{Covers, Keeps};
ghost use Rattle.tokio.specs.Io.Moved.{count_moved};
ghost use Rattle.tokio.specs.Net.{stream_readable, stream_writable};
ghost use Rattle.ttrpc_polled.specs.Connecting.{IsUnderWay, RefusesAddress};
ghost use Rattle.ttrpc_polled.specs.Sockets.{IsNoTcp, IsTcp, IsUnsupported};
ghost use Rattle.ttrpc_transport.specs.Sockets.{IsFault};

use crate::reader::SocketReader;
use futures::Future;
use futures::task::{Context, Poll};
use std::alloc::Global;
use std::io;
use std::mem::replace;
use std::net::{Net, SocketAddr};
use tokio::io::{AsyncRead, AsyncWrite};
use tokio::net::{ConnectFuture, OwnedWriteHalf, TcpStream};
use tokio::reactor::Handle;
use ttrpc_proto::{Error, Result, Text};
use ttrpc_transport::{Place, socket_of};

/// A socket of TCP that is polled.
#[derive(Drop)]
pub struct Socket {
    stream: TcpStream,
}

impl Socket {
    /// Makes the socket of this stream.
    pub fn new(stream: TcpStream) -> Socket
        ensures { result.stream ≡ stream }
    {
        Socket { stream }
    }

    /// Connects to an address, `tcp://IP:PORT`. With `nodelay`, each write goes out at once. The error is `Others` if the address names no
    /// place of TCP, and `Nix` if the system reports a fault.
    pub fn connect<N: Net>(
        net: &N,
        alloc: Global,
        handle: &Handle,
        sockaddr: &str,
        nodelay: bool,
    ) -> SocketConnect
        ensures address { RefusesAddress sockaddr.now result.state }
        ensures nodelay { result.nodelay ≡ nodelay }
    {
        match tcp_of(alloc, sockaddr) {
            Ok(address) => Socket::connect_tcp(net, handle, address, nodelay),
            Err(refusal) => SocketConnect {
                state: Connecting::Refused(refusal),
                nodelay,
            },
        }
    }

    /// Connects to an IP address and port.
    pub fn connect_tcp<N: Net>(
        net: &N,
        handle: &Handle,
        address: SocketAddr,
        nodelay: bool,
    ) -> SocketConnect
        ensures begun { IsUnderWay result.state }
        ensures nodelay { result.nodelay ≡ nodelay }
    {
        SocketConnect {
            state: Connecting::Connects(TcpStream::connect(net, address, handle)),
            nodelay,
        }
    }

    /// Returns whether each write goes out at once. A fault of the system is `Nix`.
    pub fn nodelay(&self) -> Result<bool>
        ensures { IfErr result IsFault }
    {
        match self.stream.nodelay() {
            Ok(nodelay) => Ok(nodelay),
            Err(error) => Err(Error::Nix(error.kind())),
        }
    }

    /// Splits the socket into its two halves. The socket is closed once both are dropped. A fault of the system is `Nix`.
    pub fn into_split(self) -> Result<(SocketReader, OwnedWriteHalf)>
        ensures { IfErr result IsFault }
    {
        match self.stream.into_split() {
            Ok((reader, writer)) => Ok((SocketReader::new(reader), writer)),
            Err(error) => Err(Error::Nix(error.kind())),
        }
    }

    /// Reads from the socket. If pending, the task is woken once the socket can be read.
    pub fn poll_read(&mut self, cx: &mut Context<'_>, buf: &mut [u8]) -> Poll<io::Result<usize>>
        ensures bound { count_moved result ≤ length buf.new }
        ensures registered { OnPending result
            (Covers cx.new (λ s. s ≡ stream_readable self.new.stream)) }
        ensures kept { Keeps cx.old cx.new }
    {
        self.stream.poll_read(cx, buf)
    }

    /// Writes to the socket. If pending, the task is woken once the socket can be written.
    pub fn poll_write(&mut self, cx: &mut Context<'_>, buf: &[u8]) -> Poll<io::Result<usize>>
        ensures bound { count_moved result ≤ length buf.now }
        ensures registered { OnPending result
            (Covers cx.new (λ s. s ≡ stream_writable self.new.stream)) }
        ensures kept { Keeps cx.old cx.new }
    {
        self.stream.poll_write(cx, buf)
    }

    /// Flushes the socket, for which there is nothing to do.
    pub fn poll_flush(&mut self, cx: &mut Context<'_>) -> Poll<io::Result<()>>
        ensures registered { OnPending result
            (Covers cx.new (λ s. s ≡ stream_writable self.new.stream)) }
        ensures kept { Keeps cx.old cx.new }
    {
        self.stream.poll_flush(cx)
    }
}

impl From<TcpStream> for Socket {
    ghost use Rattle.std.specs.Prelude.{◌≡◌};

    ghost from_gives = { λ stream socket. socket.stream ≡ stream };

    fn from(stream: TcpStream) -> Socket {
        Socket { stream }
    }
}

/// Returns the IP address and port that an address names.
pub(crate) fn tcp_of(alloc: Global, sockaddr: &str) -> Result<SocketAddr>
    ensures ok { IfOk result (IsTcp sockaddr.now) }
    ensures err { IfErr result (IsNoTcp sockaddr.now) }
{
    match socket_of(alloc, sockaddr)? {
        Place::Tcp(address) => Ok(address),
        Place::Unix(_) => Err(unsupported(alloc)),
    }
}

/// Makes the error for the path of a Unix socket.
fn unsupported(alloc: Global) -> Error
    ensures { IsUnsupported result }
{
    match String::from_str(alloc, "async unix sockets are not supported") {
        Ok(text) => Error::Others(Text::from_string(text)),
        Err(_) => Error::NoMemory,
    }
}

/// The state of a connection that was begun.
#[derive(Drop)]
pub enum Connecting {
    /// The connection is under way.
    Connects(ConnectFuture),
    /// The address was refused.
    Refused(Error),
    /// The answer was returned.
    Done,
}

/// A connection that was begun.
#[derive(Drop)]
pub struct SocketConnect {
    state: Connecting,
    nodelay: bool,
}

impl Future for SocketConnect {
    type Output = Result<Socket>;

    ghost use Rattle.ttrpc_polled.specs.Connecting.{ConnectingGives, ConnectingNeeds};

    ghost needs = { λ f. ConnectingNeeds f.state };

    ghost gives = { λ f r. ConnectingGives f.state r };

    fn poll(&mut self, cx: &mut Context<'_>) -> Poll<Result<Socket>> {
        match replace(&mut self.state, Connecting::Done) {
            Connecting::Connects(mut connects) => match connects.poll(cx) {
                Poll::Pending => {
                    self.state = Connecting::Connects(connects);
                    Poll::Pending
                }
                Poll::Ready(Ok(stream)) => Poll::Ready(ready_stream(stream, self.nodelay)),
                Poll::Ready(Err(error)) => Poll::Ready(Err(Error::Nix(error.kind()))),
            },
            Connecting::Refused(refusal) => Poll::Ready(Err(refusal)),
            Connecting::Done => Poll::Ready(Err(Error::LocalClosed)),
        }
    }
}

/// Makes the socket of a connected stream. With `nodelay`, its writes go out at once.
pub(crate) fn ready_stream(stream: TcpStream, nodelay: bool) -> Result<Socket>
    ensures ok { IfOk result (λ socket. socket.stream ≡ stream) }
    ensures err { IfErr result IsFault }
{
    if nodelay {
        if let Err(error) = stream.set_nodelay(true) {
            return Err(Error::Nix(error.kind()));
        }
    }
    Ok(Socket { stream })
}
