//! Traces that are made by hand from acts and expected replies.

use crate::tests::script::{Act, Rows, Said, event_of, request_of, response_of};
use std::alloc::Global;
use std::mem;
use std::test::Fail;
use ttrpc_proto::{Error, MessageHeader, Status};
use ttrpc_server::Job;
use ttrpc_wire::{Blob, Sequence, Text};
use ttrpc_world::{Entry, Reply, Trace};

fn job_of(
    alloc: Global,
    id: u64,
    stream_id: u32,
    stream: bool,
    method: &str,
    payload: &[u8],
) -> Result<Reply, Fail> {
    let request = request_of(alloc, method, payload, 0)?;
    let header = MessageHeader::new_request(stream_id, 0);
    Ok(Reply::Handed(Some(Job {
        id,
        header,
        stream,
        request,
    })))
}

/// Returns an outcome that is `Ok` with this payload.
fn outcome_of(alloc: Global, payload: &[u8]) -> Result<Reply, Fail> {
    let response = response_of(alloc, payload)?;
    Ok(Reply::Outcome(Some(Ok(response))))
}

/// Returns an outcome that is a status with this code and text.
fn told_status(alloc: Global, code: i32, text: &str) -> Result<Reply, Fail> {
    let message = Text::from_str(alloc, text)?;
    let details = Sequence::new(alloc);
    Ok(Reply::Outcome(Some(Err(Error::RpcStatus(Status {
        code,
        message,
        details,
    })))))
}

fn item_of(alloc: Global, item: &[u8]) -> Result<Reply, Fail> {
    let item = Blob::from_slice(alloc, item)?;
    Ok(Reply::Item(Some(Ok(item))))
}

/// Returns an error of a socket instead of an item.
fn told_socket(alloc: Global, text: &str) -> Result<Reply, Fail> {
    let text = Text::from_str(alloc, text)?;
    Ok(Reply::Item(Some(Err(Error::Socket(text)))))
}

/// Returns the outcome of a call.
fn told_outcome(alloc: Global, said: Said) -> Result<Reply, Fail> {
    match said {
        Said::Payload(payload) => outcome_of(alloc, payload),
        Said::Status(code, text) => told_status(alloc, code, text),
        _ => Ok(Reply::Outcome(None)),
    }
}

/// Returns the result of a receiver.
fn told_item(alloc: Global, said: Said) -> Result<Reply, Fail> {
    match said {
        Said::Payload(item) => item_of(alloc, item),
        Said::Socket(text) => told_socket(alloc, text),
        Said::Eof => Ok(Reply::Item(Some(Err(Error::Eof)))),
        Said::RemoteClosed => Ok(Reply::Item(Some(Err(Error::RemoteClosed)))),
        _ => Ok(Reply::Item(None)),
    }
}

/// Returns the job that is handed out.
fn told_job(alloc: Global, said: Said) -> Result<Reply, Fail> {
    match said {
        Said::Job(id, stream_id, payload) => job_of(alloc, id, stream_id, false, "Echo", payload),
        Said::StreamJob(id, stream_id) => job_of(alloc, id, stream_id, true, "Chat", b""),
        Said::FullStreamJob(id, stream_id, payload) => {
            job_of(alloc, id, stream_id, true, "Echo", payload)
        }
        _ => Ok(Reply::Handed(None)),
    }
}

/// Returns any other reply.
fn told_plainly(said: Said) -> Reply {
    match said {
        Said::Named(id) => Reply::Named(id),
        Said::Ticket(ticket) => Reply::Ticket(ticket),
        Said::NoStep => Reply::NoStep,
        _ => Reply::Done,
    }
}

/// Returns the reply to an act.
pub fn reply_of(alloc: Global, act: Act, said: Said) -> Result<Reply, Fail> {
    match act {
        Act::Outcome(_) => told_outcome(alloc, said),
        Act::Recv(_) | Act::RecvUp(_) => told_item(alloc, said),
        Act::Take => told_job(alloc, said),
        _ => Ok(told_plainly(said)),
    }
}

/// Returns the entry of an act with its reply. A value that isn't needed is dropped by a call, so that the proof
/// needn't read how.
fn entry_of(alloc: Global, act: Act, said: Said) -> Result<Entry, Fail> {
    let reply = reply_of(alloc, act, said)?;
    match event_of(alloc, act) {
        Ok(event) => Ok(Entry { event, reply }),
        Err(error) => {
            mem::drop(reply);
            Err(error.into())
        }
    }
}

/// Adds an entry. This is a function of its own, since a value that isn't taken is dropped here.
fn push(trace: &mut Trace, entry: Entry) -> Result<(), Fail> {
    trace.push(entry)?;
    Ok(())
}

/// Adds an entry, if there was memory for it.
fn push_made(trace: &mut Trace, entry: Result<Entry, Fail>) -> Result<(), Fail> {
    push(trace, entry?)
}

fn push_rows(alloc: Global, trace: &mut Trace, rows: Rows) -> Result<(), Fail> {
    for (act, said) in rows {
        push_made(trace, entry_of(alloc, *act, *said))?;
    }
    Ok(())
}

/// Returns the trace of these rows.
pub fn trace_of(alloc: Global, rows: Rows) -> Result<Trace, Fail> {
    let mut trace = Vec::new(alloc);
    push_rows(alloc, &mut trace, rows)?;
    Ok(trace)
}
