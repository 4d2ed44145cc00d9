//! A client of `demo.Echo`.
use crate::system::ChatSystem;
use ttrpc_message::Context;
use ttrpc_polled::{ClientStream, ClientStreamSender};
use ttrpc_polled_client::{
    Client, ClientCall, ClientLine, ClientOpening, ClientStreamReceiver, async_client_request,
    async_client_stream, async_client_stream_receive, async_client_stream_send,
};
use ttrpc_secure::Plain;
use ttrpc_wire::Blob;

/// A client of `demo.Echo`.
#[derive(Drop)]
pub struct EchoClient<R: ChatSystem> {
    pub client: Client<R, Plain, Plain>,
}

/// The line that the program's streams share.
pub type EchoLine = ClientLine<Plain, Plain>;

/// A stream that is being opened.
type EchoOpening<K, R> = ClientOpening<K, R, Plain, Plain>;

impl<R: ChatSystem> EchoClient<R> {
    fn context(&self) -> Context {
        Context::new(self.client.alloc())
    }

    /// Calls `Echo`.
    pub fn echo(&self, req: &Blob) -> ClientCall<Plain, Plain, Blob> {
        let ctx = self.context();
        let reply = Blob::new(self.client.alloc());
        async_client_request!(self, ctx, req, "demo.Echo", "Echo", reply)
    }

    /// Opens `Chat`.
    pub fn chat(&self) -> EchoOpening<ClientStream<Blob, Blob, EchoLine>, R> {
        let ctx = self.context();
        async_client_stream!(self, ctx, "demo.Echo", "Chat")
    }

    /// Opens `Sum`.
    pub fn sum(&self) -> EchoOpening<ClientStreamSender<Blob, Blob, EchoLine>, R> {
        let ctx = self.context();
        async_client_stream_send!(self, ctx, "demo.Echo", "Sum")
    }

    /// Opens `Count` with this request.
    pub fn count(&self, req: &Blob) -> EchoOpening<ClientStreamReceiver<Blob, R, Plain, Plain>, R> {
        let ctx = self.context();
        async_client_stream_receive!(self, ctx, req, "demo.Echo", "Count")
    }
}
