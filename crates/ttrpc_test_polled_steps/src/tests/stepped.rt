//! The states of a client's calls and streams, stepped by hand on a core that is lent, with the core of a server.
use std::alloc::Global;
use std::sync::Arc;
use ttrpc_bench_polled::acts::{Outcome, request};
use ttrpc_bench_polled::lone::Lone;
use ttrpc_bench_polled::registry::registry;
use ttrpc_client::{CallId, ClientCore, ClientKind, StreamId};
use ttrpc_connection::StreamCore;
use ttrpc_polled::{Sending, StreamReceiver};
use ttrpc_polled_client::{Asked, Opening};
use ttrpc_proto::{Error, Response, ResponseInit, Result, Status};
use ttrpc_secure::{ConnectionContext, Plain};
use ttrpc_server::{JobId, Rules, ServerCore};
use ttrpc_wire::{Blob, Sequence, Text};

/// A step. Calls, streams, sends and jobs have numbers from 0, in the order of their creation.
#[derive(Clone, Copy, Debug)]
pub enum Step {
    /// Makes a call of this name with this payload.
    Asks(&'static str, &'static [u8]),
    /// Steps the call with this number: no result yet, or this outcome.
    Steps(usize, Option<Outcome>),
    /// Opens a stream of this name with this payload. The flags say whether the client sends, and whether the server
    /// does.
    Opens(&'static str, &'static [u8], bool, bool),
    /// Sends an item on the stream with this number.
    Sends(usize, &'static [u8]),
    /// Closes the stream with this number.
    Closes(usize),
    /// Steps the send or the close with this number: no result yet, or sent, or refused with this text.
    Stepped(usize, Option<std::result::Result<(), &'static str>>),
    /// Receives at the client from the stream with this number: nothing yet, or this.
    Receives(usize, Option<Outcome>),
    /// The client has exactly these bytes to write. They go to the server, with this number at a time.
    Up(&'static [u8], usize),
    /// The same for the server.
    Down(&'static [u8], usize),
    /// Bytes that aren't the server's come to the client.
    Comes(&'static [u8]),
    /// Bytes that aren't the client's come to the server.
    Strays(&'static [u8]),
    /// Takes a job at the server. The flag says whether there is one.
    Takes(bool),
    /// Receives at the server from the stream of the job with this number: nothing yet, or this.
    Hears(usize, Option<Outcome>),
    /// Sends an item on that stream at the server. If a text is given, that is refused with it.
    Says(usize, &'static [u8], Option<&'static str>),
    /// Ends that stream at the server, without a response or with a status with this code and message. If a text is
    /// given, that is refused with it.
    Finishes(usize, Option<(i32, &'static str)>, Option<&'static str>),
    /// Answers the job with this number with an OK status and this payload.
    Answers(usize, &'static [u8]),
}

/// A client's core with the states of its calls and streams, and a server's core with its jobs.
#[derive(Drop)]
pub struct Bench {
    alloc: Global,
    client: ClientCore<Plain, Plain>,
    server: ServerCore<Plain, Plain>,
    calls: Vec<Asked>,
    streams: Vec<StreamId>,
    sends: Vec<Sending>,
    senders: Vec<StreamId>,
    jobs: Vec<JobId>,
}

impl Bench {
    /// Returns a bench with both cores.
    pub fn new(alloc: Global) -> Result<Bench> {
        let near = ConnectionContext::of_halves(alloc, Plain {}, Plain {});
        let far = ConnectionContext::of_halves(alloc, Plain {}, Plain {});
        Ok(Bench {
            alloc,
            client: ClientCore::new(alloc, ClientKind::Async, near)?,
            server: ServerCore::new(alloc, Rules::Async, registry(alloc)?, far)?,
            calls: Vec::new(alloc),
            streams: Vec::new(alloc),
            sends: Vec::new(alloc),
            senders: Vec::new(alloc),
            jobs: Vec::new(alloc),
        })
    }

    /// Does a step. Returns whether the result is the expected one.
    pub fn take(&mut self, step: Step) -> Result<bool> {
        match step {
            Step::Asks(name, payload) => self.ask(name, payload),
            Step::Steps(number, expected) => self.step_call(number, expected),
            Step::Opens(name, payload, sends, receives) => {
                self.open(name, payload, sends, receives)
            }
            Step::Sends(number, item) => self.add_item(number, item),
            Step::Closes(number) => self.add_sending(number, Sending::Closes),
            Step::Stepped(number, expected) => self.step_sending(number, expected),
            Step::Receives(number, expected) => self.receive(number, expected),
            Step::Up(bytes, at_a_time) => self.pass_up(bytes, at_a_time),
            Step::Down(bytes, at_a_time) => self.pass_down(bytes, at_a_time),
            Step::Comes(bytes) => Ok(self.client.feed(self.alloc, bytes)? == bytes.len()),
            Step::Strays(bytes) => Ok(self.server.feed(self.alloc, bytes, 0)? == bytes.len()),
            Step::Takes(is_there) => self.take_job(is_there),
            Step::Hears(number, expected) => self.hear(number, expected),
            Step::Says(number, item, refusal) => self.say(number, item, refusal),
            Step::Finishes(number, status, refusal) => self.finish(number, status, refusal),
            Step::Answers(number, payload) => self.answer(number, payload),
        }
    }

    fn ask(&mut self, name: &str, payload: &[u8]) -> Result<bool> {
        let request = request(self.alloc, name, payload, 0)?;
        self.calls.push(Asked::Asks(request, 0))?;
        Ok(true)
    }

    fn step_call(&mut self, number: usize, expected: Option<Outcome>) -> Result<bool> {
        let Some(call) = self.calls.get_mut(number) else {
            return Ok(false);
        };
        match call.step(self.alloc, &mut self.client) {
            Some(given) => came_to(self.alloc, payload_of(given), expected),
            None => Ok(expected.is_none()),
        }
    }

    fn open(&mut self, name: &str, payload: &[u8], sends: bool, receives: bool) -> Result<bool> {
        let opening = Opening {
            request: request(self.alloc, name, payload, 0)?,
            streaming_client: sends,
            streaming_server: receives,
        };
        let id = opening.step(self.alloc, &mut self.client)?;
        self.streams.push(id)?;
        Ok(true)
    }

    fn add_item(&mut self, number: usize, item: &[u8]) -> Result<bool> {
        let item = Blob::from_slice(self.alloc, item)?;
        self.add_sending(number, Sending::Sends(item))
    }

    fn add_sending(&mut self, number: usize, sending: Sending) -> Result<bool> {
        let Some(id) = self.streams.get(number) else {
            return Ok(false);
        };
        let id = *id;
        self.sends.push(sending)?;
        self.senders.push(id)?;
        Ok(true)
    }

    fn step_sending(
        &mut self,
        number: usize,
        expected: Option<std::result::Result<(), &'static str>>,
    ) -> Result<bool> {
        let Some(id) = self.senders.get(number) else {
            return Ok(false);
        };
        let Some(sending) = self.sends.get_mut(number) else {
            return Ok(false);
        };
        let Some(told) = sending.step(self.alloc, &mut self.client, *id) else {
            return Ok(expected.is_none());
        };
        let told = memory_is_found(told)?;
        match expected {
            Some(expected) => is_told(self.alloc, told, expected.err()),
            None => Ok(false),
        }
    }

    fn receive(&mut self, number: usize, expected: Option<Outcome>) -> Result<bool> {
        let Some(id) = self.streams.get(number) else {
            return Ok(false);
        };
        match receipt(self.alloc, &mut self.client, *id)? {
            Some(given) => came_to(self.alloc, given, expected),
            None => Ok(expected.is_none()),
        }
    }

    fn take_job(&mut self, is_there: bool) -> Result<bool> {
        match self.server.take_job() {
            Some(job) => {
                self.jobs.push(job.id)?;
                Ok(is_there)
            }
            None => Ok(!is_there),
        }
    }

    fn hear(&mut self, number: usize, expected: Option<Outcome>) -> Result<bool> {
        let Some(id) = self.jobs.get(number) else {
            return Ok(false);
        };
        match receipt(self.alloc, &mut self.server, *id)? {
            Some(given) => came_to(self.alloc, given, expected),
            None => Ok(expected.is_none()),
        }
    }

    fn say(&mut self, number: usize, item: &[u8], refusal: Option<&'static str>) -> Result<bool> {
        let Some(id) = self.jobs.get(number) else {
            return Ok(false);
        };
        let said = self.server.send(self.alloc, *id, item);
        is_told(self.alloc, said.map(|_| ()), refusal)
    }

    fn finish(
        &mut self,
        number: usize,
        status: Option<(i32, &'static str)>,
        refusal: Option<&'static str>,
    ) -> Result<bool> {
        let Some(id) = self.jobs.get(number) else {
            return Ok(false);
        };
        let end = match status {
            Some((code, message)) => Some(response_of(self.alloc, code, message)?),
            None => None,
        };
        let ended = self.server.end_stream(self.alloc, *id, &Ok(end));
        is_told(self.alloc, ended, refusal)
    }

    fn answer(&mut self, number: usize, payload: &[u8]) -> Result<bool> {
        let Some(id) = self.jobs.get(number) else {
            return Ok(false);
        };
        let mut response = response_of(self.alloc, 0, "")?;
        response.set_payload(Vec::from_slice(self.alloc, payload)?);
        self.server.answer(self.alloc, *id, &Ok(response))?;
        Ok(true)
    }

    /// Passes the bytes that the client has to write to the server, with `at_a_time` bytes at a time. Returns whether
    /// they are these.
    fn pass_up(&mut self, bytes: &[u8], at_a_time: usize) -> Result<bool> {
        let mut passed = Vec::new(self.alloc);
        let mut buffer = vec![in self.alloc; 0u8; at_a_time.max(1)]?;
        for _ in 0..=bytes.len() {
            let count = self.client.lend(buffer.as_mut_slice());
            let lent = self.client.lent();
            self.client.wrote(lent);
            let piece = buffer.get(..count).unwrap_or(&[]);
            if piece.is_empty() {
                break;
            }
            passed.extend_from_slice(piece)?;
            self.server.feed(self.alloc, piece, 0)?;
        }
        Ok(passed.as_slice() == bytes)
    }

    /// Passes the bytes that the server has to write to the client, in the same way.
    fn pass_down(&mut self, bytes: &[u8], at_a_time: usize) -> Result<bool> {
        let mut passed = Vec::new(self.alloc);
        let mut buffer = vec![in self.alloc; 0u8; at_a_time.max(1)]?;
        for _ in 0..=bytes.len() {
            let count = self.server.lend(buffer.as_mut_slice());
            let lent = self.server.lent();
            self.server.wrote(lent);
            let piece = buffer.get(..count).unwrap_or(&[]);
            if piece.is_empty() {
                break;
            }
            passed.extend_from_slice(piece)?;
            self.client.feed(self.alloc, piece)?;
        }
        Ok(passed.as_slice() == bytes)
    }
}

/// Returns the result of a receipt from this stream on a core that is lent.
fn receipt<C: StreamCore>(alloc: Global, core: &mut C, id: C::Id) -> Result<Option<Result<Blob>>> {
    let line = Arc::new(alloc, Lone::new(id))?;
    let mut receiver = StreamReceiver::new(alloc, line, id);
    Ok(receiver.recv().step(core))
}

/// Returns the result, but ends the test with an error if memory was refused: the rest would be another story.
fn memory_is_found<T>(given: Result<T>) -> Result<Result<T>> {
    match given {
        Err(Error::NoMemory) => Err(Error::NoMemory),
        given => Ok(given),
    }
}

/// Returns whether the error has this text.
fn has_text(alloc: Global, error: &Error, text: &str) -> Result<bool> {
    match format!(in alloc; "{error}") {
        Ok(told) => Ok(told.as_str() == text),
        Err(_) => Err(Error::NoMemory),
    }
}

/// Returns whether this is the expected result.
fn came_to(alloc: Global, given: Result<Blob>, expected: Option<Outcome>) -> Result<bool> {
    match (memory_is_found(given)?, expected) {
        (Ok(given), Some(Ok(bytes))) => Ok(given.as_slice() == bytes),
        (Err(error), Some(Err(text))) => has_text(alloc, &error, text),
        _ => Ok(false),
    }
}

/// Returns whether it succeeded, or was refused with this text if one is given.
fn is_told(alloc: Global, told: Result<()>, refusal: Option<&'static str>) -> Result<bool> {
    match (memory_is_found(told)?, refusal) {
        (Ok(()), None) => Ok(true),
        (Err(error), Some(text)) => has_text(alloc, &error, text),
        _ => Ok(false),
    }
}

fn payload_of(outcome: Result<Response>) -> Result<Blob> {
    match outcome {
        Ok(response) => Ok(response.payload),
        Err(error) => Err(error),
    }
}

/// Returns the response with a status with this code and message.
fn response_of(alloc: Global, code: i32, message: &str) -> Result<Response> {
    let status = Status {
        code,
        message: Text::from_str(alloc, message)?,
        details: Sequence::new(alloc),
    };
    Ok(Response::init_status(alloc, status))
}
