//! The program's calls, over their own connection.
use crate::beside::Beside;
use crate::system::{HealthSystem, nix};
use crate::telling::{tell_error, tell_status};
use futures::Future;
use health_stub::HealthClient;
use health_stub::messages::{HealthCheckRequest, HealthCheckResponse};
use std::io::Write;
use tokio::runtime::LocalRuntime;
use ttrpc_message::Context;
use ttrpc_polled_client::{Client, ClientStreamReceiver, TcpConnection};
use ttrpc_proto::{Result, Text};
use ttrpc_secure::Plain;

/// An event loop, and a connection that is polled on it until it ends.
#[derive(Drop)]
struct Driver<R: HealthSystem> {
    rt: R,
    runtime: LocalRuntime,
    connection: Option<TcpConnection<R, Plain, Plain>>,
}

/// A client, and the driver of its connection.
#[derive(Drop)]
pub struct Site<R: HealthSystem> {
    driver: Driver<R>,
    client: HealthClient<R>,
}

impl<R: HealthSystem> Site<R> {
    /// Connects to an address.
    pub fn connect(rt: R, address: &str, nodelay: bool) -> Result<Site<R>> {
        let mut runtime = nix(LocalRuntime::new(&rt))?;
        let connecting = Client::connect(rt.clone()?, runtime.handle(), address, nodelay)?;
        let (client, connection) = nix(runtime.block_on(&rt, connecting))??;
        let driver = Driver {
            rt,
            runtime,
            connection: Some(connection),
        };
        Ok(Site {
            driver,
            client: HealthClient { client },
        })
    }

    fn request(&self, name: &str) -> Result<HealthCheckRequest> {
        let service = Text::from_str(self.driver.rt.alloc(), name)?;
        Ok(HealthCheckRequest { service })
    }

    /// Calls `Check`, and writes the status, or the error. Returns the program's status.
    pub fn check<W: Write>(&mut self, name: &str, output: &mut W) -> Result<u8> {
        let context = Context::new(self.driver.rt.alloc());
        let call = self.client.check(context, &self.request(name)?);
        match self.driver.done(call)? {
            Ok(response) => {
                tell_status(response.status, output)?;
                Ok(0)
            }
            Err(error) => tell_error(error, output),
        }
    }

    /// Opens `Watch`, and writes each status, and the error if the stream ends with one. Returns the program's status.
    pub fn watch<W: Write>(&mut self, name: &str, output: &mut W) -> Result<u8> {
        let context = Context::new(self.driver.rt.alloc());
        let opening = self.client.watch(context, &self.request(name)?);
        let mut stream = self.driver.done(opening)??;
        for _ in 0..u64::MAX {
            if let Some(status) = self.driver.tell_next(&mut stream, output)? {
                return Ok(status);
            }
        }
        Ok(1)
    }
}

impl<R: HealthSystem> Driver<R> {
    /// Runs this step to its end, and polls the connection meanwhile.
    fn done<F: Future>(&mut self, step: F) -> Result<F::Output>
    where
        F::Output: Drop,
        requires { F.can_poll step }
    {
        let connection = &mut self.connection;
        nix(self.runtime.block_on(&self.rt, Beside { step, connection }))
    }

    /// Receives the next status, and writes it. Returns the program's status if there is none.
    fn tell_next<W: Write>(
        &mut self,
        stream: &mut ClientStreamReceiver<HealthCheckResponse, R, Plain, Plain>,
        output: &mut W,
    ) -> Result<Option<u8>> {
        match self.done(stream.recv())? {
            Ok(Some(response)) => {
                tell_status(response.status, output)?;
                Ok(None)
            }
            Ok(None) => Ok(Some(0)),
            Err(error) => Ok(Some(tell_error(error, output)?)),
        }
    }
}
