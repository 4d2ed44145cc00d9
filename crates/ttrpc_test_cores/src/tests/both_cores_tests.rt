//! Streams between both cores, with bytes that are carried one at a time, and as many as fit.
use crate::tests::both_cores::{Deed, Story, hold_between};
use crate::tests::kinds::{BOTH_KINDS, PlainClient, PlainServer, StampedClient, StampedServer};
use crate::tests::script::Step::*;
use crate::tests::under_test::Tested;
use ttrpc_bench::vectors::Told::{Eof, RemoteClosed, Status};
use ttrpc_server::Rules;

#[rattlefmt::skip]
const STORIES: &[Story] = &[
    Story { name: "items arrive in order, up and down, and the ends behind them", deeds: &[Deed::Client(Opens(true, true, b"", 1)), Deed::Client(Sends(1, b"a", 1)), Deed::Client(Sends(1, b"", 2)), Deed::Client(Sends(1, b"b", 3)), Deed::Client(Closes(1, 4)), Deed::CarriesUp, Deed::Server(TakesStream(1, 1)), Deed::Server(Receives(1, b"a")), Deed::Server(Receives(1, b"")), Deed::Server(Receives(1, b"b")), Deed::Server(ReceivesError(1, Eof)), Deed::Server(ReceivesError(1, RemoteClosed)), Deed::Server(Sends(1, b"x", 1)), Deed::Server(Sends(1, b"", 2)), Deed::Server(EndsBy(1, 5, "gone")), Deed::Server(IsUnsent(2)), Deed::CarriesDown, Deed::Server(IsSent(1)), Deed::Server(IsSent(2)), Deed::Client(Receives(1, b"x")), Deed::Client(Receives(1, b"")), Deed::Client(ReceivesError(1, Status(5, "gone"))), Deed::Client(ReceivesError(1, RemoteClosed))] },
    Story { name: "a stream that sends nothing has its empty payload as its one item", deeds: &[Deed::Client(Opens(false, true, b"", 1)), Deed::CarriesUp, Deed::Server(TakesStream(1, 1)), Deed::Server(Receives(1, b"")), Deed::Server(ReceivesError(1, RemoteClosed)), Deed::Server(EndsStream(1)), Deed::CarriesDown, Deed::Client(ReceivesError(1, Eof)), Deed::Client(ReceivesError(1, RemoteClosed))] },
    Story { name: "or another payload", deeds: &[Deed::Client(Opens(false, true, b"\x2a", 1)), Deed::CarriesUp, Deed::Server(TakesStream(1, 1)), Deed::Server(Receives(1, b"\x2a")), Deed::Server(ReceivesError(1, RemoteClosed)), Deed::Server(EndsStream(1)), Deed::CarriesDown, Deed::Client(ReceivesError(1, Eof)), Deed::Client(ReceivesError(1, RemoteClosed))] },
];

#[test]
fn items_arrive_in_order_and_the_end_behind_them(rt: HostRuntime) -> Tested {
    hold_between::<PlainClient, PlainServer>(&rt, rt.alloc(), BOTH_KINDS, Rules::Async, STORIES)
}

#[test]
fn stamped_items_arrive_in_order_and_the_end_behind_them(rt: HostRuntime) -> Tested {
    hold_between::<StampedClient, StampedServer>(&rt, rt.alloc(), BOTH_KINDS, Rules::Async, STORIES)
}
