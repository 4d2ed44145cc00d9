//! A client, a server and two pipes, and the effect of each event on them.
ghost use Rattle.std.specs.Prelude.{◌≡◌, ◌<◌, [], length, true, false, ◌⊎◌, IfOk, OnErr, IfSome, IfNone, None, Ok, Some};
ghost use Rattle.ttrpc_proto.specs.declared.messages.Response.{Response as AResponse};
ghost use Rattle.ttrpc_proto.specs.Messages.{IsResponse};
ghost use Rattle.ttrpc_server.specs.declared.job.ActiveJob.{ActiveJob as AJob};
ghost use Rattle.ttrpc_server.specs.State.{IsTaken, IsUnknown};
ghost use Rattle.ttrpc_server.specs.declared.rules.Rules.{Rules as AllRules};
ghost use Rattle.ttrpc_world_trace.specs.declared.events.Event.{Event as AnEvent};
ghost use Rattle.ttrpc_world_trace.specs.declared.events.Side.{Side as ASide};
ghost use Rattle.ttrpc_world_trace.specs.declared.events.StreamEnd.{StreamEnd as AnEnd};
ghost use Rattle.ttrpc_pair.specs.Pipes.{empty_pipe, is_over};
ghost use Rattle.ttrpc_pair.specs.Net.{Net, halves, has_response, with_client, with_server};
ghost use Rattle.ttrpc_pair.specs.Steps.{Hears, LivesBy, Steps, failed_by_hand};

use crate::pipe::Pipe;
use std::alloc::{AllocError, Global};
use std::marker::Model;
use ttrpc_client::{CallId, ClientCore, StreamId};
use ttrpc_proto::{Error, Request, Response};
use ttrpc_secure::{InboundTransform, OutboundTransform};
use ttrpc_server::{JobId, Rules, ServerCore};
use ttrpc_wire::codec::message::WireMessage;
use ttrpc_wire::values::slices::front;
use ttrpc_wire::{Blob, Text};
use ttrpc_world_trace::{Event, Reply, Side, StreamEnd};

/// A client and a server, each over its outbound and inbound half, and the bytes in flight between them.
#[derive(Drop)]
pub struct Pair<CO, CI, SO, SI> {
    client: ClientCore<CO, CI>,
    server: ServerCore<SO, SI>,
    up: Pipe,
    down: Pipe,
    moment: u64,
    responded: Vec<JobId>,
}

impl<CO, CI, SO, SI> Model for Pair<CO, CI, SO, SI> {
    ghost use Rattle.ttrpc_pair.specs.Net.{Net};

    ghost Value = { Net CO CI SO SI };

    ghost view = { λ a. record {
      client = a.client;
      server = a.server;
      up = a.up;
      down = a.down;
      moment = a.moment;
      responded = a.responded.items;
    } };
}

impl<
    CO: OutboundTransform + Drop,
    CI: InboundTransform + Drop,
    SO: OutboundTransform + Drop,
    SI: InboundTransform + Drop,
> Pair<CO, CI, SO, SI> {
    /// Returns a pair of these two cores, with nothing in flight, at moment 0. Takes no memory.
    pub fn new(alloc: Global, client: ClientCore<CO, CI>, server: ServerCore<SO, SI>) -> Self
        ensures { result ≡ record {
          client = client;
          server = server;
          up = empty_pipe;
          down = empty_pipe;
          moment = 0;
          responded = [];
        } }
    {
        Pair {
            client,
            server,
            up: Pipe::new(alloc),
            down: Pipe::new(alloc),
            moment: 0,
            responded: Vec::new(alloc),
        }
    }

    /// Lets one event happen, and returns its reply.
    pub fn step(&mut self, alloc: Global, event: &Event) -> Reply
        ensures { Steps
            (halves CO.OutboundTransform CI.InboundTransform)
            (halves SO.OutboundTransform SI.InboundTransform) CO.SEALS
            self.old event.now result self.new }
    {
        match event {
            Event::Call(request) => self.call(alloc, request),
            Event::Open(request, up, down) => self.open(alloc, request, *up, *down),
            Event::Outcome(id) => self.outcome(alloc, *id),
            Event::Recv(StreamEnd::Client(id)) => self.recv_down(alloc, *id),
            Event::Recv(StreamEnd::Server(id)) => self.recv_up(alloc, *id),
            Event::Send(StreamEnd::Client(id), item) => self.send_up(alloc, *id, item),
            Event::Send(StreamEnd::Server(id), item) => self.send_down(alloc, *id, item),
            Event::Close(id) => self.close(alloc, *id),
            Event::DropCall(id) => self.drop_call(*id),
            Event::DropReceiver(StreamEnd::Client(id)) => self.drop_receiver_down(*id),
            Event::DropReceiver(StreamEnd::Server(id)) => self.drop_receiver_up(*id),
            Event::DropSender(id) => self.drop_sender(*id),
            Event::Take => self.take(),
            Event::Answer(id, result) => self.answer(alloc, *id, result),
            Event::Respond(id, response) => self.respond(alloc, *id, response),
            Event::Finish(id) => self.finish(alloc, *id),
            Event::EndStream(id, end) => self.end_stream(alloc, *id, end),
            Event::Drain => self.drain(),
            Event::Tick(now) => self.tick(alloc, *now),
            Event::Carry(Side::Client, n) => self.carry_up(alloc, *n),
            Event::Carry(Side::Server, n) => self.carry_down(alloc, *n),
            Event::Deliver(Side::Server, n) => self.deliver_up(alloc, *n),
            Event::Deliver(Side::Client, n) => self.deliver_down(alloc, *n),
            Event::Cut(Side::Server, keep) => self.cut_up(*keep),
            Event::Cut(Side::Client, keep) => self.cut_down(*keep),
            Event::Fail(Side::Client) => self.fail_client(alloc),
            Event::Fail(Side::Server) => self.fail_server(alloc),
        }
    }

    fn call(&mut self, alloc: Global, request: &Request) -> Reply
        ensures { Steps
            (halves CO.OutboundTransform CI.InboundTransform)
            (halves SO.OutboundTransform SI.InboundTransform) CO.SEALS
            self.old (AnEvent.Call request.now) result self.new }
    {
        request.lemma_is_value();
        self.client.lemma_is_client();
        match self.client.request(alloc, request, self.moment) {
            Ok(id) => Reply::Named(id),
            Err(error) => Reply::Refused(error),
        }
    }

    fn open(&mut self, alloc: Global, request: &Request, up: bool, down: bool) -> Reply
        ensures { Steps
            (halves CO.OutboundTransform CI.InboundTransform)
            (halves SO.OutboundTransform SI.InboundTransform) CO.SEALS
            self.old (AnEvent.Open request.now up down) result self.new }
    {
        request.lemma_is_value();
        self.client.lemma_is_client();
        match self.client.new_stream(alloc, request, up, down) {
            Ok(id) => Reply::Named(id),
            Err(error) => Reply::Refused(error),
        }
    }

    fn outcome(&mut self, alloc: Global, id: CallId) -> Reply
        ensures { Steps
            (halves CO.OutboundTransform CI.InboundTransform)
            (halves SO.OutboundTransform SI.InboundTransform) CO.SEALS
            self.old (AnEvent.Outcome id) result self.new }
    {
        Reply::Outcome(self.client.take_outcome(alloc, id))
    }

    fn drop_call(&mut self, id: CallId) -> Reply
        ensures { Steps
            (halves CO.OutboundTransform CI.InboundTransform)
            (halves SO.OutboundTransform SI.InboundTransform) CO.SEALS
            self.old (AnEvent.DropCall id) result self.new }
    {
        self.client.drop_call(id);
        Reply::Done
    }

    fn recv_down(&mut self, alloc: Global, id: StreamId) -> Reply
        ensures { Steps
            (halves CO.OutboundTransform CI.InboundTransform)
            (halves SO.OutboundTransform SI.InboundTransform) CO.SEALS
            self.old (AnEvent.Recv (AnEnd.Client id)) result self.new }
    {
        Reply::Item(self.client.recv(alloc, id))
    }

    fn send_up(&mut self, alloc: Global, id: StreamId, item: &Blob) -> Reply
        ensures { Steps
            (halves CO.OutboundTransform CI.InboundTransform)
            (halves SO.OutboundTransform SI.InboundTransform) CO.SEALS
            self.old (AnEvent.Send (AnEnd.Client id) item.now) result self.new }
    {
        match self.client.send(alloc, id, item.as_slice()) {
            Ok(ticket) => Reply::Ticket(ticket),
            Err(error) => Reply::Refused(error),
        }
    }

    fn close(&mut self, alloc: Global, id: StreamId) -> Reply
        ensures { Steps
            (halves CO.OutboundTransform CI.InboundTransform)
            (halves SO.OutboundTransform SI.InboundTransform) CO.SEALS
            self.old (AnEvent.Close id) result self.new }
    {
        match self.client.close_send(alloc, id) {
            Ok(ticket) => Reply::Ticket(ticket),
            Err(error) => Reply::Refused(error),
        }
    }

    fn drop_receiver_down(&mut self, id: StreamId) -> Reply
        ensures { Steps
            (halves CO.OutboundTransform CI.InboundTransform)
            (halves SO.OutboundTransform SI.InboundTransform) CO.SEALS
            self.old (AnEvent.DropReceiver (AnEnd.Client id)) result self.new }
    {
        self.client.drop_receiver(id);
        Reply::Done
    }

    fn drop_sender(&mut self, id: StreamId) -> Reply
        ensures { Steps
            (halves CO.OutboundTransform CI.InboundTransform)
            (halves SO.OutboundTransform SI.InboundTransform) CO.SEALS
            self.old (AnEvent.DropSender id) result self.new }
    {
        self.client.drop_sender(id);
        Reply::Done
    }

    fn take(&mut self) -> Reply
        ensures { Steps
            (halves CO.OutboundTransform CI.InboundTransform)
            (halves SO.OutboundTransform SI.InboundTransform) CO.SEALS
            self.old AnEvent.Take result self.new }
    {
        Reply::Handed(self.server.take_job())
    }

    fn answer(&mut self, alloc: Global, id: JobId, given: &Result<Response, Error>) -> Reply
        ensures { Steps
            (halves CO.OutboundTransform CI.InboundTransform)
            (halves SO.OutboundTransform SI.InboundTransform) CO.SEALS
            self.old (AnEvent.Answer id given.now) result self.new }
    {
        match self.server.failure(alloc) {
            Some(why) => Reply::Refused(why),
            None => self.answer_living(alloc, id, given),
        }
    }

    /// Answers a job of a server that hasn't failed. Returns `NoStep` if the job may not be answered.
    fn answer_living(&mut self, alloc: Global, id: JobId, given: &Result<Response, Error>) -> Reply
        requires { self.old.server.connection.failure ≡ None }
        ensures { Steps
            (halves CO.OutboundTransform CI.InboundTransform)
            (halves SO.OutboundTransform SI.InboundTransform) CO.SEALS
            self.old (AnEvent.Answer id given.now) result self.new }
    {
        let Some(_) = self.awaiting(id) else {
            return Reply::NoStep;
        };
        lemma_answer_is_value(given);
        match self.server.answer(alloc, id, given) {
            Ok(()) => Reply::Done,
            Err(error) => Reply::Refused(error),
        }
    }

    fn respond(&mut self, alloc: Global, id: JobId, response: &Response) -> Reply
        ensures { Steps
            (halves CO.OutboundTransform CI.InboundTransform)
            (halves SO.OutboundTransform SI.InboundTransform) CO.SEALS
            self.old (AnEvent.Respond id response.now) result self.new }
    {
        if let Some(error) = self.server.failure(alloc) {
            return Reply::Refused(error);
        }
        match self.server.rules() {
            Rules::Async => Reply::NoStep,
            Rules::Sync => self.respond_by_rules(alloc, id, response),
        }
    }

    /// Responds to a job of a server that hasn't failed and has sync rules. The job goes on.
    fn respond_by_rules(&mut self, alloc: Global, id: JobId, response: &Response) -> Reply
        requires { LivesBy
            (halves CO.OutboundTransform CI.InboundTransform)
            (halves SO.OutboundTransform SI.InboundTransform) CO.SEALS
            AllRules.Sync self.old }
        ensures { Steps
            (halves CO.OutboundTransform CI.InboundTransform)
            (halves SO.OutboundTransform SI.InboundTransform) CO.SEALS
            self.old (AnEvent.Respond id response.now) result self.new }
    {
        let Some(stream_id) = self.awaiting(id) else {
            return Reply::NoStep;
        };
        if self.responded.reserve(1).is_err() {
            return Reply::NoMemory;
        }
        response.lemma_is_value();
        match self.server.respond(alloc, stream_id, response) {
            Ok(()) => {
                self.responded.push_reserved(id);
                Reply::Done
            }
            Err(error) => Reply::Refused(error),
        }
    }

    fn finish(&mut self, alloc: Global, id: JobId) -> Reply
        ensures { Steps
            (halves CO.OutboundTransform CI.InboundTransform)
            (halves SO.OutboundTransform SI.InboundTransform) CO.SEALS
            self.old (AnEvent.Finish id) result self.new }
    {
        if let Some(error) = self.server.failure(alloc) {
            return Reply::Refused(error);
        }
        match self.server.rules() {
            Rules::Async => Reply::NoStep,
            Rules::Sync => self.finish_by_rules(alloc, id),
        }
    }

    /// Finishes a job of a server that hasn't failed and has sync rules.
    fn finish_by_rules(&mut self, alloc: Global, id: JobId) -> Reply
        requires { LivesBy
            (halves CO.OutboundTransform CI.InboundTransform)
            (halves SO.OutboundTransform SI.InboundTransform) CO.SEALS
            AllRules.Sync self.old }
        ensures { Steps
            (halves CO.OutboundTransform CI.InboundTransform)
            (halves SO.OutboundTransform SI.InboundTransform) CO.SEALS
            self.old (AnEvent.Finish id) result self.new }
    {
        let Some(_) = self.server.stream_of(id) else {
            return Reply::NoStep;
        };
        match self.server.finish(alloc, id) {
            Ok(()) => Reply::Done,
            Err(error) => Reply::Refused(error),
        }
    }

    fn drain(&mut self) -> Reply
        ensures { Steps
            (halves CO.OutboundTransform CI.InboundTransform)
            (halves SO.OutboundTransform SI.InboundTransform) CO.SEALS
            self.old AnEvent.Drain result self.new }
    {
        self.server.drain();
        Reply::Done
    }

    fn recv_up(&mut self, alloc: Global, id: JobId) -> Reply
        ensures { Steps
            (halves CO.OutboundTransform CI.InboundTransform)
            (halves SO.OutboundTransform SI.InboundTransform) CO.SEALS
            self.old (AnEvent.Recv (AnEnd.Server id)) result self.new }
    {
        let rules = self.server.rules();
        match rules {
            Rules::Sync => Reply::NoStep,
            Rules::Async => Reply::Item(self.server.recv(alloc, id)),
        }
    }

    fn send_down(&mut self, alloc: Global, id: JobId, item: &Blob) -> Reply
        ensures { Steps
            (halves CO.OutboundTransform CI.InboundTransform)
            (halves SO.OutboundTransform SI.InboundTransform) CO.SEALS
            self.old (AnEvent.Send (AnEnd.Server id) item.now) result self.new }
    {
        if let Some(error) = self.server.failure(alloc) {
            return Reply::Refused(error);
        }
        match self.server.rules() {
            Rules::Sync => Reply::NoStep,
            Rules::Async => match self.server.send(alloc, id, item.as_slice()) {
                Ok(ticket) => Reply::Ticket(ticket),
                Err(error) => Reply::Refused(error),
            },
        }
    }

    fn drop_receiver_up(&mut self, id: JobId) -> Reply
        ensures { Steps
            (halves CO.OutboundTransform CI.InboundTransform)
            (halves SO.OutboundTransform SI.InboundTransform) CO.SEALS
            self.old (AnEvent.DropReceiver (AnEnd.Server id)) result self.new }
    {
        match self.server.rules() {
            Rules::Sync => Reply::NoStep,
            Rules::Async => {
                self.server.drop_receiver(id);
                Reply::Done
            }
        }
    }

    fn end_stream(
        &mut self,
        alloc: Global,
        id: JobId,
        end: &Result<Option<Response>, Error>,
    ) -> Reply
        ensures { Steps
            (halves CO.OutboundTransform CI.InboundTransform)
            (halves SO.OutboundTransform SI.InboundTransform) CO.SEALS
            self.old (AnEvent.EndStream id end.now) result self.new }
    {
        if let Some(error) = self.server.failure(alloc) {
            return Reply::Refused(error);
        }
        match self.server.rules() {
            Rules::Sync => Reply::NoStep,
            Rules::Async => self.end_by_rules(alloc, id, end),
        }
    }

    /// Ends a stream's job of a server that hasn't failed and has async rules.
    fn end_by_rules(
        &mut self,
        alloc: Global,
        id: JobId,
        end: &Result<Option<Response>, Error>,
    ) -> Reply
        requires { LivesBy
            (halves CO.OutboundTransform CI.InboundTransform)
            (halves SO.OutboundTransform SI.InboundTransform) CO.SEALS
            AllRules.Async self.old }
        ensures { Steps
            (halves CO.OutboundTransform CI.InboundTransform)
            (halves SO.OutboundTransform SI.InboundTransform) CO.SEALS
            self.old (AnEvent.EndStream id end.now) result self.new }
    {
        let Some(_) = self.server.stream_of(id) else {
            return Reply::NoStep;
        };
        lemma_end_is_value(end);
        match self.server.end_stream(alloc, id, end) {
            Ok(()) => Reply::Done,
            Err(error) => Reply::Refused(error),
        }
    }

    /// Returns the stream id of a job that may be answered. Returns `None` if the job wasn't taken, is over, or has a
    /// response already.
    fn awaiting(&self, id: JobId) -> Option<u32>
        ensures some { IfSome result (λ k. (job : AJob)
            × IsTaken self.now.server.state.jobs.list id job × (k ≡ job.header.stream_id)
            × (has_response self.now id ≡ false)) }
        ensures none { IfNone result
            (IsUnknown self.now.server.state.jobs.list id ⊎ (has_response self.now id ≡ true)) }
    {
        if self.responded.as_slice().contains(&id) {
            return None;
        }
        self.server.stream_of(id)
    }

    fn tick(&mut self, alloc: Global, now: u64) -> Reply
        ensures { Steps
            (halves CO.OutboundTransform CI.InboundTransform)
            (halves SO.OutboundTransform SI.InboundTransform) CO.SEALS
            self.old (AnEvent.Tick now) result self.new }
    {
        if now < self.moment {
            return Reply::NoStep;
        }
        self.client.tick(now);
        self.server.tick(alloc, now);
        self.moment = now;
        Reply::Done
    }

    fn carry_up(&mut self, alloc: Global, n: usize) -> Reply
        ensures { Steps
            (halves CO.OutboundTransform CI.InboundTransform)
            (halves SO.OutboundTransform SI.InboundTransform) CO.SEALS
            self.old (AnEvent.Carry ASide.Client n) result self.new }
    {
        let room = n.min(self.client.lendable());
        let Ok(mut buffer) = zeros(alloc, room) else {
            return Reply::NoMemory;
        };
        let at = self.up.as_slice().len();
        if self.up.put(buffer.as_slice()).is_err() {
            return Reply::NoMemory;
        }
        let count = self.client.lend(buffer.as_mut_slice());
        self.up.replace_from(at, front(buffer.as_slice(), count));
        self.client.wrote(count);
        Reply::Count(count)
    }

    fn carry_down(&mut self, alloc: Global, n: usize) -> Reply
        ensures { Steps
            (halves CO.OutboundTransform CI.InboundTransform)
            (halves SO.OutboundTransform SI.InboundTransform) CO.SEALS
            self.old (AnEvent.Carry ASide.Server n) result self.new }
    {
        let room = n.min(self.server.lendable());
        let Ok(mut buffer) = zeros(alloc, room) else {
            return Reply::NoMemory;
        };
        let at = self.down.as_slice().len();
        if self.down.put(buffer.as_slice()).is_err() {
            return Reply::NoMemory;
        }
        let count = self.server.lend(buffer.as_mut_slice());
        self.down.replace_from(at, front(buffer.as_slice(), count));
        self.server.wrote(count);
        Reply::Count(count)
    }

    fn deliver_up(&mut self, alloc: Global, n: usize) -> Reply
        ensures { Steps
            (halves CO.OutboundTransform CI.InboundTransform)
            (halves SO.OutboundTransform SI.InboundTransform) CO.SEALS
            self.old (AnEvent.Deliver ASide.Server n) result self.new }
    {
        let count = n.min(self.up.as_slice().len());
        match self
            .server
            .feed(alloc, front(self.up.as_slice(), count), self.moment)
        {
            Ok(taken) => {
                self.up.drop_front(taken);
                self.end_up();
                Reply::Count(taken)
            }
            Err(error) => Reply::Refused(error),
        }
    }

    fn deliver_down(&mut self, alloc: Global, n: usize) -> Reply
        ensures { Steps
            (halves CO.OutboundTransform CI.InboundTransform)
            (halves SO.OutboundTransform SI.InboundTransform) CO.SEALS
            self.old (AnEvent.Deliver ASide.Client n) result self.new }
    {
        let count = n.min(self.down.as_slice().len());
        match self.client.feed(alloc, front(self.down.as_slice(), count)) {
            Ok(taken) => {
                self.down.drop_front(taken);
                self.end_down();
                Reply::Count(taken)
            }
            Err(error) => Reply::Refused(error),
        }
    }

    fn cut_up(&mut self, keep: usize) -> Reply
        ensures { Steps
            (halves CO.OutboundTransform CI.InboundTransform)
            (halves SO.OutboundTransform SI.InboundTransform) CO.SEALS
            self.old (AnEvent.Cut ASide.Server keep) result self.new }
    {
        self.up.cut(keep);
        self.end_up();
        Reply::Done
    }

    fn cut_down(&mut self, keep: usize) -> Reply
        ensures { Steps
            (halves CO.OutboundTransform CI.InboundTransform)
            (halves SO.OutboundTransform SI.InboundTransform) CO.SEALS
            self.old (AnEvent.Cut ASide.Client keep) result self.new }
    {
        self.down.cut(keep);
        self.end_down();
        Reply::Done
    }

    /// Ends the server's input if the pipe to the server is over.
    fn end_up(&mut self)
        ensures hears { Hears (is_over self.old.up)
            self.old.server.connection self.new.server.connection }
        ensures only { self.new ≡ with_server self.old
            (record self.old.server { connection = self.new.server.connection }) }
    {
        if self.up.is_over() {
            self.server.end_of_input();
        }
    }

    /// Ends the client's input if the pipe to the client is over.
    fn end_down(&mut self)
        ensures hears { Hears (is_over self.old.down)
            self.old.client.connection self.new.client.connection }
        ensures only { self.new ≡ with_client self.old
            (record self.old.client { connection = self.new.client.connection }) }
    {
        if self.down.is_over() {
            self.client.end_of_input();
        }
    }

    fn fail_client(&mut self, alloc: Global) -> Reply
        ensures { Steps
            (halves CO.OutboundTransform CI.InboundTransform)
            (halves SO.OutboundTransform SI.InboundTransform) CO.SEALS
            self.old (AnEvent.Fail ASide.Client) result self.new }
    {
        if self.client.failure(alloc).is_some() {
            return Reply::Done;
        }
        let Ok(error) = failed_by_hand(alloc) else {
            return Reply::NoMemory;
        };
        self.client.fail(error);
        Reply::Done
    }

    fn fail_server(&mut self, alloc: Global) -> Reply
        ensures { Steps
            (halves CO.OutboundTransform CI.InboundTransform)
            (halves SO.OutboundTransform SI.InboundTransform) CO.SEALS
            self.old (AnEvent.Fail ASide.Server) result self.new }
    {
        if self.server.failure(alloc).is_some() {
            return Reply::Done;
        }
        let Ok(error) = failed_by_hand(alloc) else {
            return Reply::NoMemory;
        };
        self.server.fail(error);
        Reply::Done
    }
}

/// Returns the error with which the event `Fail` fails a connection.
fn failed_by_hand(alloc: Global) -> Result<Error, AllocError>
    ensures { IfOk result (λ e. e ≡ failed_by_hand) }
{
    Ok(Error::Socket(Text::from_string(String::from_str(alloc, "failed")?)))
}

/// Proves that the response of a handler is a value of its type. This is a lemma: it does nothing when it runs.
fn lemma_answer_is_value(given: &Result<Response, Error>)
    ensures { (r : AResponse) → given.now ≡ Ok r → IsResponse r }
{
    if let Ok(response) = given {
        response.lemma_is_value();
    }
}

/// Proves that the response with which a handler ended a stream is a value of its type. This is a lemma: it does nothing
/// when it runs.
fn lemma_end_is_value(end: &Result<Option<Response>, Error>)
    ensures { (r : AResponse) → end.now ≡ Ok (Some r) → IsResponse r }
{
    if let Ok(Some(response)) = end {
        response.lemma_is_value();
    }
}

/// Returns `n` zeros. Asks for memory only if `n` isn't 0.
fn zeros(alloc: Global, n: usize) -> Result<Vec<u8>, AllocError>
    ensures ok { IfOk result (λ bytes. length bytes.items ≡ n) }
    ensures err { OnErr result (0 < n) }
{
    if n == 0 {
        return Ok(Vec::new(alloc));
    }
    vec![in alloc; 0u8; n]
}
