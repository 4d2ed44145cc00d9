//! A listener for TCP that is polled.
ghost use Rattle.std.specs.Prelude.{◌≡◌, ◌⊎◌, IfErr, IfOk};
ghost use Rattle.futures.specs.Poll.{IfReady, OnPending};
ghost use Rattle.futures.specs.Task.{Covers, Keeps};
ghost use Rattle.tokio.specs.Net.{listener_readable};
ghost use Rattle.ttrpc_polled.specs.Sockets.{IsNoTcp};
ghost use Rattle.ttrpc_transport.specs.Sockets.{IsFault};

use crate::socket::{Socket, ready_stream, tcp_of};
use futures::Stream;
use futures::task::{Context, Poll};
use std::alloc::Global;
use std::net::{Net, SocketAddr};
use tokio::net::TcpListener;
use tokio::reactor::Handle;
use ttrpc_proto::{Error, Result};

/// A listener for TCP. As a stream it yields the sockets that it accepts.
#[derive(Drop)]
pub struct Listener {
    listener: TcpListener,
    nodelay: bool,
}

impl Listener {
    /// Makes a listener over this one. With `nodelay`, each write of its sockets goes out at once.
    pub fn new(listener: TcpListener, nodelay: bool) -> Listener
        ensures { (result.listener ≡ listener) × (result.nodelay ≡ nodelay) }
    {
        Listener { listener, nodelay }
    }

    /// Listens at an address, `tcp://IP:PORT`. The error is `Others` if the address names no place of TCP, and `Nix` if the system reports
    /// a fault.
    pub fn bind<N: Net>(
        net: &N,
        alloc: Global,
        handle: &Handle,
        sockaddr: &str,
        nodelay: bool,
    ) -> Result<Listener>
        ensures ok { IfOk result (λ listener. listener.nodelay ≡ nodelay) }
        ensures err { IfErr result (λ e. IsNoTcp sockaddr.now e ⊎ IsFault e) }
    {
        match tcp_of(alloc, sockaddr) {
            Ok(address) => Listener::bind_tcp(net, handle, address, nodelay),
            Err(refusal) => Err(refusal),
        }
    }

    /// Listens at an IP address and port. A fault of the system is `Nix`.
    pub fn bind_tcp<N: Net>(
        net: &N,
        handle: &Handle,
        address: SocketAddr,
        nodelay: bool,
    ) -> Result<Listener>
        ensures ok { IfOk result (λ listener. listener.nodelay ≡ nodelay) }
        ensures err { IfErr result IsFault }
    {
        match TcpListener::bind(net, address, handle) {
            Ok(listener) => Ok(Listener { listener, nodelay }),
            Err(error) => Err(Error::Nix(error.kind())),
        }
    }

    /// Returns the address of the listener. A fault of the system is `Nix`.
    pub fn local_addr(&self) -> Result<SocketAddr>
        ensures err { IfErr result IsFault }
    {
        match self.listener.local_addr() {
            Ok(address) => Ok(address),
            Err(error) => Err(Error::Nix(error.kind())),
        }
    }

    /// Accepts a connection. If pending, the task is woken once there is one. A fault of the system is `Nix`. If no descriptor is left,
    /// this fault comes at once.
    pub fn poll_accept(&mut self, cx: &mut Context<'_>) -> Poll<Result<Socket>>
        ensures fault { IfReady result (λ accepted. IfErr accepted IsFault) }
        ensures registered { OnPending result
            (Covers cx.new (λ s. s ≡ listener_readable self.new.listener)) }
        ensures kept { Keeps cx.old cx.new }
        ensures same { self.new ≡ self.old }
    {
        match self.listener.poll_accept(cx) {
            Poll::Pending => Poll::Pending,
            Poll::Ready(Ok((stream, _))) => Poll::Ready(ready_stream(stream, self.nodelay)),
            Poll::Ready(Err(error)) => Poll::Ready(Err(Error::Nix(error.kind()))),
        }
    }
}

/// Makes a listener without `nodelay`: the writes of its sockets wait to be gathered.
impl From<TcpListener> for Listener {
    ghost use Rattle.std.specs.Prelude.{◌≡◌, false};

    ghost from_gives = { λ given listener. (listener.listener ≡ given)
        × (listener.nodelay ≡ false) };

    fn from(listener: TcpListener) -> Listener {
        Listener {
            listener,
            nodelay: false,
        }
    }
}

impl Stream for Listener {
    type Item = Result<Socket>;

    ghost use Rattle.std.specs.Prelude.{IsSome};
    ghost use Rattle.tokio.specs.Net.{listener_readable};

    ghost needs = { λ l s. s ≡ listener_readable l.listener };

    ghost yields = { λ _ _ last. IsSome last };

    fn poll_next(&mut self, cx: &mut Context<'_>) -> Poll<Option<Result<Socket>>> {
        match self.poll_accept(cx) {
            Poll::Pending => Poll::Pending,
            Poll::Ready(accepted) => Poll::Ready(Some(accepted)),
        }
    }
}
