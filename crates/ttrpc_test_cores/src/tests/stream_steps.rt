//! The steps of streams.
use crate::tests::client_steps::{request_of_sevens, stream_request};
use crate::tests::script::Step;
use crate::tests::steps::tells;
use crate::tests::stream_numbers::{items_come, receives_each, sends_each, streams_last_first};
use crate::tests::under_test::{Items, Met, Streaming};
use std::alloc::Global;
use std::test::Fail;
use ttrpc_bench::vectors::Told;
use ttrpc_client::{StreamId, Ticket};
use ttrpc_proto::Request;

/// Does a step that only a client with streams has. Returns whether it is met.
pub fn stream_step<C: Streaming>(alloc: Global, core: &mut C, step: &Step) -> Met {
    match *step {
        Step::Opens(sends, receives, payload, id) => {
            let opened = opens(alloc, core, payload, sends, receives)?;
            Ok(opened == id)
        }
        Step::RefusesStream(sends, payload, why) => {
            let request = stream_request(alloc, payload)?;
            refuses_stream(alloc, core, &request, sends, why)
        }
        Step::RefusesStreamOfSevens(length, why) => {
            let request = request_of_sevens(alloc, length)?;
            refuses_stream(alloc, core, &request, false, why)
        }
        Step::StreamsLastFirst(count) => streams_last_first(alloc, core, count),
        Step::Closes(id, ticket) => Ok(core.close_send(alloc, id)? == ticket),
        Step::RefusesSending(id, why) => refuses_sending(alloc, core, id, why),
        Step::DropsSender(id) => {
            core.drop_sender(id);
            Ok(true)
        }
        _ => item_step(alloc, core, step),
    }
}

/// Does a step of a stream at either core. Returns whether it is met.
pub fn item_step<C: Items>(alloc: Global, core: &mut C, step: &Step) -> Met {
    match *step {
        Step::NextHeard(id) => Ok(core.next_heard() == id),
        Step::DropsReceiver(id) => {
            core.drop_receiver(id);
            Ok(true)
        }
        Step::Sends(id, item, ticket) => Ok(core.send(alloc, id, item)? == ticket),
        Step::SendsSevens(id, length, ticket) => sends_sevens(alloc, core, id, length, ticket),
        Step::RefusesItem(id, why) => refuses_item(alloc, core, id, why),
        Step::RefusesSevensOn(id, length, why) => refuses_sevens_on(alloc, core, id, length, why),
        Step::IsSent(ticket) => Ok(matches!(core.sent(alloc, ticket), Some(Ok(())))),
        Step::IsUnsent(ticket) => Ok(core.sent(alloc, ticket).is_none()),
        Step::IsNeverSent(ticket, why) => is_never_sent(alloc, core, ticket, why),
        Step::SendsEach(id, count) => sends_each(alloc, core, id, count),
        _ => receive_step(alloc, core, step),
    }
}

/// Does a step that receives. Returns whether it is met.
fn receive_step<C: Items>(alloc: Global, core: &mut C, step: &Step) -> Met {
    match *step {
        Step::Receives(id, item) => receives(alloc, core, id, item),
        Step::ReceivesNone(id) => Ok(core.recv(alloc, id).is_none()),
        Step::ReceivesError(id, why) => receives_error(alloc, core, id, why),
        Step::ItemsCome(id, count) => items_come(alloc, core, id, count),
        Step::ReceivesEach(id, count) => receives_each(alloc, core, id, count),
        _ => Ok(false),
    }
}

/// Opens a stream. Returns whether its id is right.
fn opens<C: Streaming>(
    alloc: Global,
    core: &mut C,
    payload: &[u8],
    sends: bool,
    receives: bool,
) -> Result<StreamId, Fail> {
    let request = stream_request(alloc, payload)?;
    let id = core.new_stream(alloc, &request, sends, receives)?;
    Ok(id)
}

/// Returns whether the stream is refused with this error, twice.
fn refuses_stream<C: Streaming>(
    alloc: Global,
    core: &mut C,
    request: &Request,
    sends: bool,
    why: Told,
) -> Met {
    Ok(
        tells(core.new_stream(alloc, request, sends, true).err(), why)?
            && tells(core.new_stream(alloc, request, sends, true).err(), why)?,
    )
}

fn sends_sevens<C: Items>(
    alloc: Global,
    core: &mut C,
    id: u32,
    length: usize,
    ticket: Ticket,
) -> Met {
    let sevens = vec![in alloc; 7; length]?;
    Ok(core.send(alloc, id, sevens.as_slice())? == ticket)
}

/// Returns whether sending an item, and closing the stream, is refused with this error, twice.
fn refuses_sending<C: Streaming>(alloc: Global, core: &mut C, id: StreamId, why: Told) -> Met {
    Ok(
        tells(core.send(alloc, id, &[1]).err(), why)?
            && tells(core.close_send(alloc, id).err(), why)?
            && tells(core.send(alloc, id, &[1]).err(), why)?,
    )
}

/// Returns whether sending an item is refused with this error, twice.
fn refuses_item<C: Items>(alloc: Global, core: &mut C, id: u32, why: Told) -> Met {
    Ok(
        tells(core.send(alloc, id, &[1]).err(), why)?
            && tells(core.send(alloc, id, &[1]).err(), why)?,
    )
}

fn refuses_sevens_on<C: Items>(
    alloc: Global,
    core: &mut C,
    id: u32,
    length: usize,
    why: Told,
) -> Met {
    let sevens = vec![in alloc; 7; length]?;
    Ok(
        tells(core.send(alloc, id, sevens.as_slice()).err(), why)?
            && tells(core.send(alloc, id, sevens.as_slice()).err(), why)?,
    )
}

fn is_never_sent<C: Items>(alloc: Global, core: &mut C, ticket: Ticket, why: Told) -> Met {
    match core.sent(alloc, ticket) {
        None | Some(Ok(())) => Ok(false),
        Some(Err(error)) => tells(Some(error), why),
    }
}

/// Returns whether the next item is this one. If memory was refused, returns that as the test's error.
pub fn receives<C: Items>(alloc: Global, core: &mut C, id: u32, item: &[u8]) -> Met {
    match core.recv(alloc, id) {
        None => Ok(false),
        Some(Ok(received)) => Ok(received.as_slice() == item),
        Some(Err(error)) => Err(error.into()),
    }
}

/// Returns whether this error comes instead of an item.
pub fn receives_error<C: Items>(alloc: Global, core: &mut C, id: u32, why: Told) -> Met {
    match core.recv(alloc, id) {
        None | Some(Ok(_)) => Ok(false),
        Some(Err(error)) => tells(Some(error), why),
    }
}
