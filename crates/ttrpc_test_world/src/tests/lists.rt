//! The items of streams, read from a trace. The items that a receiver got are a beginning of the items that were sent,
//! in order, and an end comes after all of them. The program is slow, and written from these sentences alone.

use crate::tests::plainly::is_ok;
use ttrpc_client::CallId;
use ttrpc_proto::{Error, Response};
use ttrpc_server::JobId;
use ttrpc_wire::Blob;
use ttrpc_world::{Entry, Event, Reply, StreamEnd};

/// The items of one call or stream in one direction: to the server, or to the client.
#[derive(Clone, Copy, PartialEq, Eq)]
pub enum Way {
    Up(CallId),
    Down(CallId),
}

/// The number of items and ends that were received, at the server and at the client.
#[derive(Clone, Copy, PartialEq, Eq)]
pub struct Counts {
    pub items_up: usize,
    pub ends_up: usize,
    pub items_down: usize,
    pub ends_down: usize,
}

/// Nothing was received.
pub const NONE: Counts = Counts {
    items_up: 0,
    ends_up: 0,
    items_down: 0,
    ends_down: 0,
};

/// The result of reading a trace so far: its fault, or the number of items and ends that were received.
#[derive(Clone, Copy, PartialEq, Eq)]
pub enum Order {
    /// All items are in order.
    Kept(Counts),
    /// An item was received that isn't the next one that was sent.
    OtherItem,
    /// An end was received though nothing was closed.
    UnclosedEnd,
    /// An end was received before all items.
    EarlyEnd,
    /// Something was sent after an end was received.
    PutBehindEnd,
}

/// Returns the stream of a job, which is known from the entry that handed the job out.
pub fn stream_of(trace: &[Entry], job: JobId) -> Option<CallId> {
    for entry in trace {
        if let (Event::Take, Reply::Handed(Some(handed))) = (&entry.event, &entry.reply) {
            if handed.id == job {
                return Some(handed.header.stream_id);
            }
        }
    }
    None
}

/// Returns the way to the client of a job's stream.
fn way_down(trace: &[Entry], job: JobId) -> Option<Way> {
    match stream_of(trace, job) {
        Some(id) => Some(Way::Down(id)),
        None => None,
    }
}

/// Returns the way to the server of a job's stream.
fn way_up(trace: &[Entry], job: JobId) -> Option<Way> {
    match stream_of(trace, job) {
        Some(id) => Some(Way::Up(id)),
        None => None,
    }
}

/// Returns the way on which an entry sends something.
fn way_put(trace: &[Entry], entry: &Entry) -> Option<Way> {
    match (&entry.event, &entry.reply) {
        (Event::Call(_) | Event::Open(_, _, _), Reply::Named(id)) => Some(Way::Up(*id)),
        (Event::Send(StreamEnd::Client(id), _) | Event::Close(id), Reply::Ticket(_)) => {
            Some(Way::Up(*id))
        }
        (Event::Send(StreamEnd::Server(job), _), Reply::Ticket(_)) => { way_down(trace, *job) }
        (Event::Answer(job, _) | Event::Respond(job, _) | Event::EndStream(job, _), Reply::Done) =>
            { way_down(trace, *job) }
        _ => None,
    }
}

/// Returns the item that a response sends, if its status is OK.
fn item_of(response: &Response) -> Option<&[u8]> {
    if is_ok(response) {
        Some(response.payload.as_slice())
    } else {
        None
    }
}

/// Returns the item that an entry sends, on any way.
fn item_put(entry: &Entry) -> Option<&[u8]> {
    match &entry.event {
        Event::Call(request) | Event::Open(request, false, _) => Some(request.payload.as_slice()),
        Event::Send(_, item) => Some(item.as_slice()),
        Event::Answer(_, Ok(response)) | Event::Respond(_, response) => item_of(response),
        Event::EndStream(_, Ok(Some(response))) => item_of(response),
        _ => None,
    }
}

/// Returns whether an entry that sends something closes its way.
fn closes(entry: &Entry) -> bool {
    matches!(
        &entry.event,
        Event::Open(_, false, _)
            | Event::Close(_)
            | Event::Answer(_, _)
            | Event::Respond(_, _)
            | Event::EndStream(_, _)
    )
}

/// Returns the way with the receiver that got something.
fn way_told(trace: &[Entry], entry: &Entry) -> Option<Way> {
    match (&entry.event, &entry.reply) {
        (Event::Recv(StreamEnd::Client(id)), Reply::Item(Some(_))) => Some(Way::Down(*id)),
        (Event::Recv(StreamEnd::Server(job)), Reply::Item(Some(_))) => { way_up(trace, *job) }
        _ => None,
    }
}

/// Returns the item with this number, from 0, that was sent on a way.
fn nth_put<'a>(trace: &[Entry], before: &'a [Entry], way: Way, number: usize) -> Option<&'a [u8]> {
    let mut count = 0usize;
    for entry in before {
        if way_put(trace, entry) == Some(way) {
            if let Some(item) = item_put(entry) {
                if count == number {
                    return Some(item);
                }
                count = count.saturating_add(1);
            }
        }
    }
    None
}

/// Returns whether a way was closed.
fn is_closed(trace: &[Entry], before: &[Entry], way: Way) -> bool {
    for entry in before {
        if way_put(trace, entry) == Some(way) && closes(entry) {
            return true;
        }
    }
    false
}

/// Returns the number of items that the receiver of a way got.
fn given(trace: &[Entry], before: &[Entry], way: Way) -> usize {
    let mut count = 0usize;
    for entry in before {
        if way_told(trace, entry) == Some(way) && matches!(&entry.reply, Reply::Item(Some(Ok(_)))) {
            count = count.saturating_add(1);
        }
    }
    count
}

/// The last result of a receiver.
#[derive(Clone, Copy, PartialEq, Eq)]
enum Last {
    Item,
    End,
    Other,
}

/// Returns the receiver's last result after this reply. `RemoteClosed` is an end only directly after an item or after
/// an end.
fn told_last(last: Last, reply: &Reply) -> Last {
    match reply {
        Reply::Item(Some(Ok(_))) => Last::Item,
        Reply::Item(Some(Err(Error::Eof))) => Last::End,
        Reply::Item(Some(Err(Error::RemoteClosed))) if last != Last::Other => Last::End,
        _ => Last::Other,
    }
}

/// Returns the last result of a way's receiver, and whether one of its results was an end.
fn told_before(trace: &[Entry], before: &[Entry], way: Way) -> (Last, bool) {
    let mut last = Last::Other;
    let mut ended = false;
    for entry in before {
        if way_told(trace, entry) == Some(way) {
            last = told_last(last, &entry.reply);
            ended = ended || last == Last::End;
        }
    }
    (last, ended)
}

/// Counts one more item, or one more end.
fn counted(counts: Counts, way: Way, ends: bool) -> Counts {
    let mut counts = counts;
    match (way, ends) {
        (Way::Up(_), false) => counts.items_up = counts.items_up.saturating_add(1),
        (Way::Up(_), true) => counts.ends_up = counts.ends_up.saturating_add(1),
        (Way::Down(_), false) => counts.items_down = counts.items_down.saturating_add(1),
        (Way::Down(_), true) => counts.ends_down = counts.ends_down.saturating_add(1),
    }
    counts
}

/// Returns the effect of a received item.
fn item_step(trace: &[Entry], before: &[Entry], way: Way, item: &Blob, counts: Counts) -> Order {
    match nth_put(trace, before, way, given(trace, before, way)) {
        Some(put) if put == item.as_slice() => Order::Kept(counted(counts, way, false)),
        _ => Order::OtherItem,
    }
}

/// Returns the effect of a result that is no item.
fn end_step(trace: &[Entry], before: &[Entry], way: Way, entry: &Entry, counts: Counts) -> Order {
    let (last, _) = told_before(trace, before, way);
    if told_last(last, &entry.reply) != Last::End {
        return Order::Kept(counts);
    }
    if !is_closed(trace, before, way) {
        return Order::UnclosedEnd;
    }
    match nth_put(trace, before, way, given(trace, before, way)) {
        Some(_) => Order::EarlyEnd,
        None => Order::Kept(counted(counts, way, true)),
    }
}

/// Returns the effect of one entry after others.
fn step(trace: &[Entry], before: &[Entry], entry: &Entry, counts: Counts) -> Order {
    if let Some(way) = way_put(trace, entry) {
        let (_, ended) = told_before(trace, before, way);
        return if ended {
            Order::PutBehindEnd
        } else {
            Order::Kept(counts)
        };
    }
    match (way_told(trace, entry), &entry.reply) {
        (Some(way), Reply::Item(Some(Ok(item)))) => item_step(trace, before, way, item, counts),
        (Some(way), _) => end_step(trace, before, way, entry, counts),
        _ => Order::Kept(counts),
    }
}

/// Returns whether an item was sent on the stream of a job that is never handed out: the trace doesn't say which stream
/// that is.
pub fn has_unknown_sender(trace: &[Entry]) -> bool {
    for entry in trace {
        if let (Event::Send(StreamEnd::Server(job), _), Reply::Ticket(_)) = (
            &entry.event,
            &entry.reply,
        ) {
            if stream_of(trace, *job).is_none() {
                return true;
            }
        }
    }
    false
}

/// Returns whether the items of each receiver are in order at each place of a trace, or else the first fault.
pub fn read_lists(trace: &[Entry]) -> Order {
    let mut counts = NONE;
    for (at, entry) in trace.iter().enumerate() {
        match step(trace, &trace[..at], entry, counts) {
            Order::Kept(more) => counts = more,
            fault => return fault,
        }
    }
    Order::Kept(counts)
}

/// Returns whether the receiver of a way got an end.
pub fn was_ended(trace: &[Entry], way: Way) -> bool {
    told_before(trace, trace, way).1
}

/// Returns the item with this number, from 0, that the receiver of a way got.
fn nth_given<'a>(trace: &'a [Entry], way: Way, number: usize) -> Option<&'a [u8]> {
    let mut count = 0usize;
    for entry in trace {
        if let Reply::Item(Some(Ok(item))) = &entry.reply {
            if way_told(trace, entry) == Some(way) {
                if count == number {
                    return Some(item.as_slice());
                }
                count = count.saturating_add(1);
            }
        }
    }
    None
}

/// Returns whether the receiver of a way got exactly the items that were sent.
pub fn all_given(trace: &[Entry], way: Way) -> bool {
    for number in 0..=trace.len() {
        match (
            nth_put(trace, trace, way, number),
            nth_given(trace, way, number),
        ) {
            (None, None) => return true,
            (Some(put), Some(given)) if put == given => {}
            _ => return false,
        }
    }
    false
}
