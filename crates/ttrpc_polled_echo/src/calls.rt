//! The program's calls, each over its own connection.
use crate::beside::Beside;
use crate::echo_client::{EchoClient, EchoLine};
use crate::system::{ChatSystem, nix};
use crate::telling::{tell_end, tell_item, tell_outcome};
use futures::Future;
use std::io::Write;
use tokio::runtime::LocalRuntime;
use ttrpc_polled::{ClientStream, ClientStreamSender};
use ttrpc_polled_client::{Client, ClientStreamReceiver, TcpConnection};
use ttrpc_proto::{Error, Result};
use ttrpc_secure::Plain;
use ttrpc_wire::Blob;

/// An event loop, and a connection that is polled on it until it ends.
#[derive(Drop)]
struct Driver<R: ChatSystem> {
    rt: R,
    runtime: LocalRuntime,
    connection: Option<TcpConnection<R, Plain, Plain>>,
}

/// A client, and the driver of its connection.
#[derive(Drop)]
pub struct Site<R: ChatSystem> {
    driver: Driver<R>,
    client: EchoClient<R>,
}

impl<R: ChatSystem> Site<R> {
    /// Connects to an address.
    pub fn connect(rt: R, address: &str, nodelay: bool) -> Result<Site<R>> {
        let mut runtime = nix(LocalRuntime::new(&rt))?;
        let connecting = Client::connect(rt.clone()?, runtime.handle(), address, nodelay)?;
        let (client, connection) = nix(runtime.block_on(&rt, connecting))??;
        let driver = Driver {
            rt,
            runtime,
            connection: Some(connection),
        };
        Ok(Site {
            driver,
            client: EchoClient { client },
        })
    }

    /// Calls `Echo`, and writes the result.
    pub fn call<W: Write>(&mut self, item: &Blob, output: &mut W) -> Result<u8> {
        let outcome = self.driver.done(self.client.echo(item))?;
        tell_outcome(outcome, output)
    }

    /// Sends each item to `Chat`, and writes each item that comes back.
    pub fn chat<W: Write>(&mut self, items: &[Blob], output: &mut W) -> Result<u8> {
        let mut stream = self.driver.done(self.client.chat())??;
        for item in items {
            if let Some(status) = self.driver.talk(&mut stream, item, output)? {
                return Ok(status);
            }
        }
        self.driver.end_chat(&mut stream, output)
    }

    /// Sends the items to `Sum`, and writes its response.
    pub fn sum<W: Write>(&mut self, items: &[Blob], output: &mut W) -> Result<u8> {
        let mut stream = self.driver.done(self.client.sum())??;
        for item in items {
            self.driver.send(&stream, item)?;
        }
        let answer = self.driver.done(stream.close_and_recv())?;
        tell_outcome(answer, output)
    }

    /// Requests `count` items from `Count`, and writes each.
    pub fn count<W: Write>(&mut self, count: u32, output: &mut W) -> Result<u8> {
        let request = Blob::from_slice(self.driver.rt.alloc(), &count.to_be_bytes())?;
        let mut stream = self.driver.done(self.client.count(&request))??;
        for _ in 0..u64::MAX {
            if let Some(status) = self.driver.tell_next(&mut stream, output)? {
                return Ok(status);
            }
        }
        Ok(1)
    }
}

impl<R: ChatSystem> Driver<R> {
    /// Runs this step to its end, and polls the connection meanwhile.
    fn done<F: Future>(&mut self, step: F) -> Result<F::Output>
    where
        F::Output: Drop,
        requires { F.can_poll step }
    {
        let connection = &mut self.connection;
        nix(self.runtime.block_on(&self.rt, Beside { step, connection }))
    }

    /// Sends an item, and writes the item that comes back. Returns the status if the stream ended instead.
    fn talk<W: Write>(
        &mut self,
        stream: &mut ClientStream<Blob, Blob, EchoLine>,
        item: &Blob,
        output: &mut W,
    ) -> Result<Option<u8>> {
        if let Err(error) = self.done(stream.send(item))? {
            return Ok(Some(tell_end(error, output)?));
        }
        tell_received(self.done(stream.recv())?, output)
    }

    /// Closes a chat, and writes how it ends. Returns the status.
    fn end_chat<W: Write>(
        &mut self,
        stream: &mut ClientStream<Blob, Blob, EchoLine>,
        output: &mut W,
    ) -> Result<u8> {
        self.done(stream.close_send())??;
        let told = tell_received(self.done(stream.recv())?, output)?;
        Ok(told.unwrap_or(1))
    }

    /// Sends an item.
    fn send(
        &mut self,
        stream: &ClientStreamSender<Blob, Blob, EchoLine>,
        item: &Blob,
    ) -> Result<()> {
        self.done(stream.send(item))?
    }

    /// Receives the next item, and writes it. Returns the status if there is none.
    fn tell_next<W: Write>(
        &mut self,
        stream: &mut ClientStreamReceiver<Blob, R, Plain, Plain>,
        output: &mut W,
    ) -> Result<Option<u8>> {
        let received = match self.done(stream.recv())? {
            Ok(Some(item)) => Ok(item),
            Ok(None) => Err(Error::Eof),
            Err(error) => Err(error),
        };
        tell_received(received, output)
    }
}

/// Writes a received item. Returns the status if the stream ended instead.
fn tell_received<W: Write>(received: Result<Blob>, output: &mut W) -> Result<Option<u8>> {
    match received {
        Ok(item) => {
            tell_item(&item, output)?;
            Ok(None)
        }
        Err(error) => Ok(Some(tell_end(error, output)?)),
    }
}
