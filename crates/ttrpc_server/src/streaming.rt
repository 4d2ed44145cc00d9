//! The calls of a server core on the streams of its jobs, which async rules have. A call without an `alloc` argument takes no memory.
ghost use Rattle.std.specs.Prelude.{◌≡◌, ◌⊎◌, ◌++◌, [], true, option_to_list, Ok, None, Some, IfErr, IfNone, IfOk, OnErr, OnOk};
ghost use Rattle.ttrpc_connection.specs.Failure.{IsTold, TellsSent};
ghost use Rattle.ttrpc_connection.specs.Outbox.{is_sent};
ghost use Rattle.ttrpc_server.specs.Protocol.{IsUnsent};
ghost use Rattle.ttrpc_server.specs.State.{IsTaken, is_stream};
ghost use Rattle.ttrpc_server.specs.Streaming.{EndsStream, IsNoStream, IsUnconcluded, ReceivesOne, RefusesEnd, RefusesItem, SendsEnd, SendsItem, unheard, unknown_job};
ghost use Rattle.ttrpc_server.specs.declared.job.ActiveJob.{ActiveJob as AJob};

use crate::job::JobId;
use crate::replies::{advice, send_response};
use crate::responses::{error_response, unknown_job_error};
use crate::rules::Rules;
use crate::server::ServerCore;
use std::alloc::Global;
use ttrpc_connection::items::{CLOSE_FLAGS, send_data, stream_frame, unsent_error};
use ttrpc_connection::{Outbox, Ticket};
use ttrpc_proto::{Error, MESSAGE_TYPE_DATA, Response};
use ttrpc_secure::sending::{DataParts, SendError};
use ttrpc_secure::{InboundTransform, OutboundTransform};
use ttrpc_wire::Blob;
use ttrpc_wire::codec::message::WireMessage;

impl<O: OutboundTransform + Drop, I: InboundTransform + Drop> ServerCore<O, I> {
    /// Seals and queues an item on the stream of a job, whether the job was taken or waits, and returns the frame's ticket. A refusal
    /// changes nothing.
    pub fn send(&mut self, alloc: Global, id: JobId, item: &[u8]) -> Result<Ticket, Error>
        ensures ok { IfOk result
            (λ ticket. SendsItem O.OutboundTransform self.old id item.now ticket self.new) }
        ensures refused { IfErr result (RefusesItem O.OutboundTransform self.old id item.now) }
        ensures err { OnErr result (self.new ≡ self.old) }
    {
        self.connection.check_alive(alloc)?;
        let stream_id = self.state.sendable(alloc, id)?;
        let advice = advice(Rules::Async);
        send_data(
            alloc,
            &mut self.connection.outbox,
            advice,
            stream_id,
            0,
            item,
        )
    }

    /// Takes the next item of the stream of a job, or returns the error why there is none, or `None` if none came yet. If the connection
    /// has failed, the failure comes after all things that came. If memory for an error's text was refused the call returns `NoMemory`, and
    /// changes nothing.
    pub fn recv(&mut self, alloc: Global, id: JobId) -> Option<Result<Blob, Error>>
        ensures { ReceivesOne self.old id result self.new }
    {
        self.state.recv(alloc, id, self.connection.why())
    }

    /// Drops the receiver of the stream of a job. The things that come for the stream are thrown away.
    pub fn drop_receiver(&mut self, id: JobId)
        ensures { self.new ≡ unheard self.old id }
    {
        self.state.drop_receiver(id);
    }

    /// Returns `Ok` after the frame of this ticket was reported whole, and until then the failure, if the connection has failed. If memory
    /// for the failure's text was refused the error is `NoMemory`. A ticket that was never given belongs to no frame.
    pub fn sent(&self, alloc: Global, ticket: Ticket) -> Option<Result<(), Error>>
        ensures { TellsSent (is_sent self.now.connection.outbox.queue ticket)
            self.now.connection.failure result }
    {
        self.connection.sent(alloc, ticket)
    }

    /// Ends the stream of a job that was taken, by a frame that closes it, by a response, or by a status with an error's text. The job and
    /// its receiver are gone. A refusal changes nothing, and the caller still has the response.
    pub fn end_stream(
        &mut self,
        alloc: Global,
        id: JobId,
        end: &Result<Option<Response>, Error>,
    ) -> Result<(), Error>
        ensures ended { OnOk result (EndsStream O.OutboundTransform self.old id end.now self.new) }
        ensures refused { IfErr result (RefusesEnd O.OutboundTransform self.old id end.now) }
        ensures err { OnErr result (self.new ≡ self.old) }
    {
        self.connection.check_alive(alloc)?;
        self.state.check_streams(alloc)?;
        let stream_id = self.ending(alloc, id)?;
        self.conclude(alloc, stream_id, end)?;
        self.state.end_stream(id);
        Ok(())
    }

    /// Takes the first of the streams' jobs for which something came, and that weren't reported by this call since. Jobs with a dropped
    /// receiver aren't reported, and a failure isn't reported here. No more ids are kept than there are such jobs.
    pub fn next_heard(&mut self) -> Option<JobId>
        ensures first { self.old.state.heard ≡ option_to_list result ++ self.new.state.heard }
        ensures none { IfNone result (self.old.state.heard ≡ []) }
        ensures same { self.new
            ≡ record self.old { state = record self.old.state { heard = self.new.state.heard } } }
    {
        self.state.next_heard()
    }

    /// Returns the stream id of a stream's job that was taken, or the error if there is none.
    fn ending(&self, alloc: Global, id: JobId) -> Result<u32, Error>
        ensures ok { IfOk result (λ k. (job : AJob) × IsTaken self.now.state.jobs.list id job
            × (is_stream job.body ≡ true) × (k ≡ job.header.stream_id)) }
        ensures err { IfErr result
            (λ told. IsNoStream self.now.state.jobs.list id × IsTold unknown_job told) }
    {
        match self.state.jobs().taken_at(id) {
            Some((stream_id, true)) => Ok(stream_id),
            _ => Err(unknown_job_error(alloc)),
        }
    }

    /// Queues the frame that ends a stream. An `Err` changes nothing.
    fn conclude(
        &mut self,
        alloc: Global,
        stream_id: u32,
        end: &Result<Option<Response>, Error>,
    ) -> Result<(), Error>
        ensures ok { OnOk result (SendsEnd O.OutboundTransform self.old.connection.outbox stream_id
            end.now self.new.connection.outbox) }
        ensures refused { IfErr result
            (IsUnconcluded O.OutboundTransform self.old.connection.outbox stream_id end.now) }
        ensures err { OnErr result (self.new ≡ self.old) }
        ensures same { self.new
            ≡ record self.old { connection = record self.old.connection { outbox = self.new.connection.outbox } } }
    {
        let outbox = &mut self.connection.outbox;
        match end {
            Ok(None) => send_close(alloc, outbox, stream_id),
            Ok(Some(response)) => send_end(alloc, outbox, stream_id, response),
            Err(error) => {
                let response = error_response(alloc, error)?;
                response.lemma_is_value();
                send_end(alloc, outbox, stream_id, &response)
            }
        }
    }
}

/// Queues a frame that closes a stream. An `Err` changes nothing.
fn send_close<O: OutboundTransform + Drop>(
    alloc: Global,
    outbox: &mut Outbox<O>,
    stream_id: u32,
) -> Result<(), Error>
    ensures ok { OnOk result
        (SendsEnd O.OutboundTransform outbox.old stream_id (Ok None) outbox.new) }
    ensures refused { IfErr result
        (IsUnconcluded O.OutboundTransform outbox.old stream_id (Ok None)) }
    ensures err { OnErr result (outbox.new ≡ outbox.old) }
{
    let frame = stream_frame(alloc, stream_id, MESSAGE_TYPE_DATA, CLOSE_FLAGS, None);
    match outbox.send(alloc, frame, DataParts::whole(&[])) {
        Ok(()) => Ok(()),
        Err(SendError::Failed(refused)) => Err(unsent_error(alloc, &refused)),
        Err(SendError::NoRoom) => Err(Error::NoRoom),
        Err(SendError::TooLong) => unreachable!(),
    }
}

/// Queues the response that ends a stream. An `Err` changes nothing.
fn send_end<O: OutboundTransform + Drop>(
    alloc: Global,
    outbox: &mut Outbox<O>,
    stream_id: u32,
    response: &Response,
) -> Result<(), Error>
    ensures ok { OnOk result
        (SendsEnd O.OutboundTransform outbox.old stream_id (Ok (Some response.now)) outbox.new) }
    ensures refused { IfErr result
        (IsUnsent Rules.Async O.OutboundTransform outbox.old stream_id response.now) }
    ensures err { OnErr result (outbox.new ≡ outbox.old) }
{
    match send_response(alloc, outbox, Rules::Async, stream_id, response) {
        Ok(()) => Ok(()),
        Err(unsent) => Err(unsent.error(alloc, Rules::Async, outbox.limit())),
    }
}
