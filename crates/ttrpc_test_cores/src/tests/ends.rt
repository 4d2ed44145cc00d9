//! Both cores over any halves, as scripts see them.
use crate::server::registry;
use crate::tests::client_steps::{client_refusal, client_step};
use crate::tests::halves::Half;
use crate::tests::script::{Start, Step};
use crate::tests::server_steps::{feeds_at, server_refusal, server_step, serves};
use crate::tests::under_test::{Client, Core, End, Items, Met, Opened, Server, Streaming};
use std::alloc::Global;
use std::test::Fail;
use ttrpc_client::{CallId, ClientCore, ClientKind, StreamId, Ticket};
use ttrpc_proto::{Error, Request, Response};
use ttrpc_secure::{ConnectionContext, InboundTransform, OutboundTransform};
use ttrpc_server::{Job, JobId, Rules, ServerCore};
use ttrpc_wire::Blob;

/// The last id that a call may have.
const LAST_ID: CallId = 4294967295;

impl<O: OutboundTransform + Drop, I: InboundTransform + Drop> End for ServerCore<O, I> {
    fn feed(&mut self, alloc: Global, piece: &[u8]) -> Result<usize, Error> {
        ServerCore::feed(self, alloc, piece, 0)
    }

    fn lend(&mut self, buffer: &mut [u8]) -> usize {
        ServerCore::lend(self, buffer)
    }

    fn lent(&self) -> usize {
        ServerCore::lent(self)
    }

    fn report(&mut self) {
        let lent = ServerCore::lent(self);
        self.wrote(lent);
    }

    fn end_of_input(&mut self) {
        ServerCore::end_of_input(self);
    }

    fn fail(&mut self, error: Error) {
        ServerCore::fail(self, error);
    }

    fn failure(&self, alloc: Global) -> Option<Error> {
        ServerCore::failure(self, alloc)
    }

    fn at_boundary(&self) -> bool {
        ServerCore::at_boundary(self)
    }
}

impl<O: OutboundTransform + Drop, I: InboundTransform + Drop> Items for ServerCore<O, I> {
    fn send(&mut self, alloc: Global, id: u32, item: &[u8]) -> Result<Ticket, Error> {
        ServerCore::send(self, alloc, u64::from(id), item)
    }

    fn recv(&mut self, alloc: Global, id: u32) -> Option<Result<Blob, Error>> {
        ServerCore::recv(self, alloc, u64::from(id))
    }

    fn drop_receiver(&mut self, id: u32) {
        ServerCore::drop_receiver(self, u64::from(id));
    }

    fn sent(&self, alloc: Global, ticket: Ticket) -> Option<Result<(), Error>> {
        ServerCore::sent(self, alloc, ticket)
    }

    fn next_heard(&mut self) -> Option<u32> {
        u32::try_from(ServerCore::next_heard(self)?).ok()
    }
}

impl<O: OutboundTransform + Drop, I: InboundTransform + Drop> Server for ServerCore<O, I> {
    fn feed_at(&mut self, alloc: Global, piece: &[u8], now: u64) -> Result<usize, Error> {
        ServerCore::feed(self, alloc, piece, now)
    }

    fn feed_front(&mut self, alloc: Global, piece: &[u8]) -> Result<usize, Error> {
        ServerCore::feed_front(self, alloc, piece, 0)
    }

    fn take_job(&mut self) -> Option<Job> {
        ServerCore::take_job(self)
    }

    fn answer(
        &mut self,
        alloc: Global,
        id: JobId,
        answer: &Result<Response, Error>,
    ) -> Result<(), Error> {
        ServerCore::answer(self, alloc, id, answer)
    }

    fn respond(&mut self, alloc: Global, stream_id: u32, response: &Response) -> Result<(), Error> {
        ServerCore::respond(self, alloc, stream_id, response)
    }

    fn finish(&mut self, alloc: Global, id: JobId) -> Result<(), Error> {
        ServerCore::finish(self, alloc, id)
    }

    fn end_stream(
        &mut self,
        alloc: Global,
        id: JobId,
        end: &Result<Option<Response>, Error>,
    ) -> Result<(), Error> {
        ServerCore::end_stream(self, alloc, id, end)
    }

    fn tick(&mut self, alloc: Global, now: u64) {
        ServerCore::tick(self, alloc, now);
    }

    fn next_deadline(&self) -> Option<u64> {
        ServerCore::next_deadline(self)
    }

    fn next_expired(&mut self) -> Option<JobId> {
        ServerCore::next_expired(self)
    }

    fn stream_of(&self, id: JobId) -> Option<u32> {
        ServerCore::stream_of(self, id)
    }

    fn jobs_waiting(&self) -> u64 {
        ServerCore::jobs_waiting(self)
    }

    fn jobs_taken(&self) -> u64 {
        ServerCore::jobs_taken(self)
    }

    fn has_unsent(&self) -> bool {
        ServerCore::has_unsent(self)
    }

    fn drain(&mut self) {
        ServerCore::drain(self);
    }
}

impl<O: OutboundTransform + Half + Drop, I: InboundTransform + Half + Drop> Core
    for ServerCore<O, I> {
    type Kind = Rules;

    fn start(alloc: Global, rules: Rules, start: Start) -> Result<Self, Fail> {
        let mut registry = registry(alloc)?;
        registry.set_bare_openings(matches!(start, Start::BareOpenings));
        Ok(ServerCore::new(alloc, rules, registry, context(alloc, start))?)
    }

    fn refusal(&mut self, alloc: Global) -> Result<Option<Error>, Fail> {
        Ok(server_refusal(alloc, self))
    }

    fn serves(&mut self, alloc: Global, bytes: &[u8], size: usize, expected: &[u8]) -> Met {
        serves(alloc, self, bytes, size, expected)
    }

    fn feeds_at(&mut self, alloc: Global, bytes: &[u8], now: u64, size: usize) -> Met {
        feeds_at(alloc, self, bytes, now, size)
    }

    fn own_step(&mut self, alloc: Global, step: &Step, cut: usize) -> Met {
        server_step(alloc, self, step, cut)
    }
}

impl<O: OutboundTransform + Drop, I: InboundTransform + Drop> End for ClientCore<O, I> {
    fn feed(&mut self, alloc: Global, piece: &[u8]) -> Result<usize, Error> {
        ClientCore::feed(self, alloc, piece)
    }

    fn lend(&mut self, buffer: &mut [u8]) -> usize {
        ClientCore::lend(self, buffer)
    }

    fn lent(&self) -> usize {
        ClientCore::lent(self)
    }

    fn report(&mut self) {
        let lent = ClientCore::lent(self);
        self.wrote(lent);
    }

    fn end_of_input(&mut self) {
        ClientCore::end_of_input(self);
    }

    fn fail(&mut self, error: Error) {
        ClientCore::fail(self, error);
    }

    fn failure(&self, alloc: Global) -> Option<Error> {
        ClientCore::failure(self, alloc)
    }

    fn at_boundary(&self) -> bool {
        ClientCore::at_boundary(self)
    }
}

impl<O: OutboundTransform + Drop, I: InboundTransform + Drop> Client for ClientCore<O, I> {
    fn request(&mut self, alloc: Global, request: &Request, now: u64) -> Result<CallId, Error> {
        ClientCore::request(self, alloc, request, now)
    }

    fn take_outcome(&mut self, alloc: Global, id: CallId) -> Option<Result<Response, Error>> {
        ClientCore::take_outcome(self, alloc, id)
    }

    fn drop_call(&mut self, id: CallId) {
        ClientCore::drop_call(self, id);
    }

    fn tick(&mut self, now: u64) {
        ClientCore::tick(self, now);
    }

    fn next_ended(&mut self) -> Option<CallId> {
        ClientCore::next_ended(self)
    }

    fn next_deadline(&self) -> Option<u64> {
        ClientCore::next_deadline(self)
    }
}

impl<O: OutboundTransform + Drop, I: InboundTransform + Drop> Items for ClientCore<O, I> {
    fn send(&mut self, alloc: Global, id: u32, item: &[u8]) -> Result<Ticket, Error> {
        ClientCore::send(self, alloc, id, item)
    }

    fn recv(&mut self, alloc: Global, id: u32) -> Option<Result<Blob, Error>> {
        ClientCore::recv(self, alloc, id)
    }

    fn drop_receiver(&mut self, id: u32) {
        ClientCore::drop_receiver(self, id);
    }

    fn sent(&self, alloc: Global, ticket: Ticket) -> Option<Result<(), Error>> {
        ClientCore::sent(self, alloc, ticket)
    }

    fn next_heard(&mut self) -> Option<u32> {
        ClientCore::next_heard(self)
    }
}

impl<O: OutboundTransform + Drop, I: InboundTransform + Drop> Streaming for ClientCore<O, I> {
    fn new_stream(&mut self, alloc: Global, request: &Request, sends: bool, hears: bool) -> Opened {
        ClientCore::new_stream(self, alloc, request, sends, hears)
    }

    fn close_send(&mut self, alloc: Global, id: StreamId) -> Result<Ticket, Error> {
        ClientCore::close_send(self, alloc, id)
    }

    fn drop_sender(&mut self, id: StreamId) {
        ClientCore::drop_sender(self, id);
    }
}

impl<O: OutboundTransform + Half + Drop, I: InboundTransform + Half + Drop> Core
    for ClientCore<O, I> {
    type Kind = ClientKind;

    fn start(alloc: Global, kind: ClientKind, start: Start) -> Result<Self, Fail> {
        let context = context(alloc, start);
        Ok(match start {
            Start::AtLastId => ClientCore::starting_at(alloc, kind, context, LAST_ID)?,
            Start::Fresh | Start::BareOpenings | Start::Room(_) => {
                ClientCore::new(alloc, kind, context)?
            }
        })
    }

    fn refusal(&mut self, alloc: Global) -> Result<Option<Error>, Fail> {
        client_refusal(alloc, self)
    }

    fn serves(&mut self, _alloc: Global, _bytes: &[u8], _size: usize, _expected: &[u8]) -> Met {
        Ok(false)
    }

    fn feeds_at(&mut self, _alloc: Global, _bytes: &[u8], _now: u64, _size: usize) -> Met {
        Ok(false)
    }

    fn own_step(&mut self, alloc: Global, step: &Step, _cut: usize) -> Met {
        client_step(alloc, self, step)
    }
}

/// Returns a context with halves that start like this.
fn context<O: OutboundTransform + Half, I: InboundTransform + Half>(
    alloc: Global,
    start: Start,
) -> ConnectionContext<O, I> {
    ConnectionContext::of_halves(alloc, O::start(start), I::start(start))
}
