//! A client that connects, and connections that a set of tasks polls.
ghost use Rattle.std.specs.Prelude.{◌≡◌, IfErr, IfOk};
ghost use Rattle.std.specs.Arc.{arc_value};
ghost use Rattle.ttrpc_proto.specs.declared.error.Error.{Error as AnError};
ghost use Rattle.ttrpc_polled.specs.Sockets.{IsNotMade};

use crate::client::Client;
use crate::connection::TcpConnection;
use futures::Future;
use futures::executor::TaskSet;
use futures::task::{Context, Poll};
use tokio::runtime::Handle;
use ttrpc_polled::{Socket, SocketConnect, Timed};
use ttrpc_proto::{Error, Result};
use ttrpc_secure::{InboundTransform, OutboundTransform, Plain};

/// A client that connects. It is ready with the client, and the future of its connection, which is to be polled beside the
/// client's calls.
#[derive(Drop)]
pub struct ClientConnect<R: Timed> {
    rt: R,
    handle: Handle,
    connecting: SocketConnect,
}

impl<R: Timed> ClientConnect<R> {
    /// Makes the future over the socket that is being connected.
    pub(crate) fn new(rt: R, handle: &Handle, connecting: SocketConnect) -> Result<Self>
        ensures ok { IfOk result (λ connect. connect.connecting ≡ connecting) }
        ensures err { IfErr result (λ e. e ≡ AnError.NoMemory) }
    {
        Ok(ClientConnect {
            rt,
            handle: handle.clone()?,
            connecting,
        })
    }
}

impl<R: Timed> Future for ClientConnect<R> {
    type Output = Result<(Client<R, Plain, Plain>, TcpConnection<R, Plain, Plain>)>;

    ghost use Rattle.ttrpc_polled.specs.Connecting.{ConnectingNeeds};
    ghost use Rattle.ttrpc_polled_client.specs.Making.{ConnectGives};

    ghost needs = { λ f. ConnectingNeeds f.connecting.state };

    ghost gives = { λ f r. ConnectGives f.connecting.state r };

    fn poll(&mut self, cx: &mut Context<'_>) -> Poll<Self::Output> {
        match self.connecting.poll(cx) {
            Poll::Pending => Poll::Pending,
            Poll::Ready(Err(error)) => Poll::Ready(Err(error)),
            Poll::Ready(Ok(socket)) => Poll::Ready(self.client_of(socket)),
        }
    }
}

impl<R: Timed> ClientConnect<R> {
    /// Makes the client of this socket.
    fn client_of(
        &self,
        socket: Socket,
    ) -> Result<(Client<R, Plain, Plain>, TcpConnection<R, Plain, Plain>)>
        ensures { IfErr result IsNotMade }
    {
        Client::new(self.rt.clone()?, &self.handle, socket)
    }
}

/// A runner that polls the futures of connections. A program with an enum of tasks implements this trait for its set.
pub trait Spawns<C: Future> {
    /// Polls the future from now on. The error is want of memory, or the system's. Want of memory may also mean that nothing is polled any
    /// more. After an error the future is dropped.
    fn spawn(&self, connection: C) -> Result<()>
        requires { C.can_poll connection }
        ensures { IfErr result IsNotMade };
}

impl<C: Future<Output = ()>> Spawns<C> for TaskSet<C> {
    fn spawn(&self, connection: C) -> Result<()> {
        match TaskSet::spawn(self, connection) {
            Ok(()) => Ok(()),
            Err(_) => Err(Error::NoMemory),
        }
    }
}
