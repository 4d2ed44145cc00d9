//! Traces made by hand, with items that are in order or aren't: the plain program finds each fault.

use crate::tests::lists::{Counts, NONE, Order, has_unknown_sender, read_lists};
use crate::tests::made::trace_of;
use crate::tests::script::Act::*;
use crate::tests::script::Rows;
use crate::tests::script::Said::*;
use std::alloc::Global;
use std::process::Abort;
use std::test::Fail;
use ttrpc_world::Entry;

type Tested = Result<(), Fail>;

/// Both receivers of a stream get all items, and their ends.
const GIVEN: Rows = &[
    (Open("Chat"), Named(1)),
    (Send(1, b"a"), Ticket(1)),
    (Send(1, b""), Ticket(2)),
    (RecvUp(1), Payload(b"a")),
    (RecvUp(1), Waits),
    (Close(1), Ticket(3)),
    (RecvUp(1), Payload(b"")),
    (RecvUp(1), Eof),
    (RecvUp(1), RemoteClosed),
    (Take, StreamJob(1, 1)),
    (SendDown(1, b"b"), Ticket(1)),
    (Recv(1), Payload(b"b")),
    (EndWith(1, b"c"), Done),
    (Recv(1), Payload(b"c")),
    (Recv(1), RemoteClosed),
];

/// The pipe breaks, which is no end. The results after it are no ends either.
const BROKEN: Rows = &[
    (Open("Chat"), Named(1)),
    (Take, StreamJob(1, 1)),
    (SendDown(1, b"a"), Ticket(1)),
    (SendDown(1, b"b"), Ticket(2)),
    (Recv(1), Payload(b"a")),
    (Recv(1), Socket("socket disconnected")),
    (Recv(1), RemoteClosed),
];

/// A first item is lost.
const LOST: Rows = &[
    (Open("Chat"), Named(1)),
    (Take, StreamJob(1, 1)),
    (Send(1, b"a"), Ticket(1)),
    (Send(1, b"b"), Ticket(2)),
    (RecvUp(1), Payload(b"b")),
];

/// An item is received twice.
const TWICE: Rows = &[
    (Open("Chat"), Named(1)),
    (Take, StreamJob(1, 1)),
    (SendDown(1, b"a"), Ticket(1)),
    (Recv(1), Payload(b"a")),
    (Recv(1), Payload(b"a")),
];

/// Two items come in another order.
const SWAPPED: Rows = &[
    (Open("Chat"), Named(1)),
    (Take, StreamJob(1, 1)),
    (SendDown(1, b"a"), Ticket(1)),
    (SendDown(1, b"b"), Ticket(2)),
    (Recv(1), Payload(b"b")),
    (Recv(1), Payload(b"a")),
];

/// An item of another stream is received.
const OTHERS: Rows = &[
    (Open("Chat"), Named(1)),
    (Open("Chat"), Named(3)),
    (Take, StreamJob(1, 1)),
    (Take, StreamJob(2, 3)),
    (Send(3, b"a"), Ticket(1)),
    (RecvUp(1), Payload(b"a")),
];

/// An item is received that isn't sent yet.
const TOO_SOON: Rows = &[
    (Open("Chat"), Named(1)),
    (Take, StreamJob(1, 1)),
    (RecvUp(1), Payload(b"a")),
    (Send(1, b"a"), Ticket(1)),
];

/// A last item is lost: the end is received before it.
const EARLY: Rows = &[
    (Open("Chat"), Named(1)),
    (Take, StreamJob(1, 1)),
    (Send(1, b"a"), Ticket(1)),
    (Close(1), Ticket(2)),
    (RecvUp(1), Eof),
];

/// The same for the payload that a job ends with.
const EARLY_DOWN: Rows = &[
    (Open("Chat"), Named(1)),
    (Take, StreamJob(1, 1)),
    (EndWith(1, b"a"), Done),
    (Recv(1), Eof),
];

/// An end is received though nothing was closed.
const UNCLOSED: Rows = &[
    (Open("Chat"), Named(1)),
    (Take, StreamJob(1, 1)),
    (Send(1, b"a"), Ticket(1)),
    (RecvUp(1), Payload(b"a")),
    (RecvUp(1), RemoteClosed),
];

/// The same when the pipe to the client breaks.
const UNCLOSED_DOWN: Rows = &[
    (Open("Chat"), Named(1)),
    (Take, StreamJob(1, 1)),
    (CutDown(0), Done),
    (Recv(1), Eof),
];

/// Something is sent after an end was received.
const BEHIND: Rows = &[
    (Open("Chat"), Named(1)),
    (Take, StreamJob(1, 1)),
    (End(1), Done),
    (Recv(1), Eof),
    (SendDown(1, b"a"), Ticket(1)),
];

/// Each fault, and a trace that has it.
const FAULTS: &[(Order, Rows)] = &[
    (Order::OtherItem, LOST),
    (Order::OtherItem, TWICE),
    (Order::OtherItem, SWAPPED),
    (Order::OtherItem, OTHERS),
    (Order::OtherItem, TOO_SOON),
    (Order::EarlyEnd, EARLY),
    (Order::EarlyEnd, EARLY_DOWN),
    (Order::UnclosedEnd, UNCLOSED),
    (Order::UnclosedEnd, UNCLOSED_DOWN),
    (Order::PutBehindEnd, BEHIND),
];

/// Traces with items in order, and the number of items and ends that were received.
#[rattlefmt::skip]
const KEPT: &[(Order, Rows)] = &[
    (Order::Kept(Counts { items_up: 2, ends_up: 2, items_down: 2, ends_down: 1 }), GIVEN),
    (Order::Kept(Counts { items_down: 1, ..NONE }), BROKEN),
];

/// Checks that this order is read from the trace.
pub fn has_order(rt: &impl Abort, trace: &[Entry], order: Order) {
    assert!(rt; read_lists(trace) == order);
}

fn is_read(rt: &impl Abort, alloc: Global, order: Order, rows: Rows) -> Tested {
    let trace = trace_of(alloc, rows)?;
    has_order(rt, trace.as_slice(), order);
    Ok(())
}

fn are_read(rt: &impl Abort, alloc: Global, orders: &[(Order, Rows)]) -> Tested {
    for (order, rows) in orders {
        is_read(rt, alloc, *order, rows)?;
    }
    Ok(())
}

#[test]
fn lists_that_are_not_in_order_are_found(rt: HostRuntime) -> Tested {
    are_read(&rt, rt.alloc(), FAULTS)
}

/// An item is sent on the stream of a job that is never handed out.
const UNTAKEN: Rows = &[(SendDown(1, b"a"), Ticket(1))];

fn has_unknown(alloc: Global, rows: Rows) -> Result<bool, Fail> {
    let trace = trace_of(alloc, rows)?;
    Ok(has_unknown_sender(trace.as_slice()))
}

#[test]
fn lists_in_order_are_counted(rt: HostRuntime) -> Tested {
    are_read(&rt, rt.alloc(), KEPT)?;
    let unknown = has_unknown(rt.alloc(), UNTAKEN)?;
    assert!(rt; unknown);
    Ok(())
}
