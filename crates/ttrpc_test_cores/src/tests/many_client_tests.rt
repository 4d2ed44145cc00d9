//! Many calls of a client, many streams, and many items of a stream, at the same time.
use crate::tests::client::{CLOSE, DATA, FOREIGN};
use crate::tests::clients::{OPENS_FIRST, OPENS_SECOND};
use crate::tests::kinds::{ASYNC_KIND, BOTH_KINDS, PlainClient};
use crate::tests::many::MANY;
use crate::tests::script::Step::*;
use crate::tests::script::{FRESH, Row};
use crate::tests::streams::{OPENED, THREE_OF_THIRD};
use crate::tests::told::UNKNOWN;
use crate::tests::under_test::{Table, Tested, hold};
use ttrpc_bench::vectors::PAST;
use ttrpc_client::ClientKind;

const ANSWERED: &[Table<ClientKind>] = &[(
    BOTH_KINDS,
    &[Row {
        name: "calls are answered, the last first",
        steps: &[CallsLastFirst(MANY)],
        ..FRESH
    }],
)];

const HALF_DROPPED: &[Table<ClientKind>] = &[(
    BOTH_KINDS,
    &[Row {
        name: "of calls of which half are dropped each other one has its own outcome",
        steps: &[CallsHalfDropped(MANY), IsAlive],
        ..FRESH
    }],
)];

const EXPIRING: &[Table<ClientKind>] = &[(
    ASYNC_KIND,
    &[Row {
        name: "calls expire at once",
        steps: &[CallsExpireAtOnce(MANY), IsAlive],
        ..FRESH
    }],
)];

const RECEIVING: &[Table<ClientKind>] = &[(
    BOTH_KINDS,
    &[Row {
        name: "streams are received from, the last first",
        steps: &[StreamsLastFirst(MANY)],
        ..FRESH
    }],
)];

const WAITING: &[Table<ClientKind>] = &[(
    BOTH_KINDS,
    &[Row {
        name: "who isn't asked holds up nobody",
        steps: &[
            OPENS_FIRST,
            OPENS_SECOND,
            ItemsCome(1, MANY),
            Feed(THREE_OF_THIRD),
            Receives(3, b"x"),
            Receives(3, b"y"),
            Receives(3, b"z"),
            ReceivesNone(3),
            ReceivesEach(1, MANY),
            ReceivesNone(1),
        ],
        ..FRESH
    }],
)];

const SENDING: &[Table<ClientKind>] = &[(
    BOTH_KINDS,
    &[Row {
        name: "items that are sent are asked about",
        steps: &[OPENS_FIRST, Writes(OPENED), SendsEach(1, MANY)],
        ..FRESH
    }],
)];

const FOR_NOBODY: &[Table<ClientKind>] = &[(
    BOTH_KINDS,
    &[Row {
        name: "what comes for nobody isn't kept",
        steps: &[
            OPENS_FIRST,
            Writes(OPENED),
            DropsReceiver(1),
            ItemsCome(1, MANY),
            ItemsCome(9, MANY),
            Repeats(FOREIGN, b"", MANY),
            ReceivesError(1, PAST),
            ReceivesError(9, UNKNOWN),
            NextHeard(None),
            Feed(CLOSE),
            Repeats(CLOSE, b"", MANY),
            Repeats(DATA, b"", MANY),
            ReceivesError(1, PAST),
            NextHeard(None),
        ],
        ..FRESH
    }],
)];

#[test]
fn calls_are_answered(rt: HostRuntime) -> Tested {
    hold::<PlainClient>(&rt, rt.alloc(), ANSWERED)
}

#[test]
fn calls_are_dropped(rt: HostRuntime) -> Tested {
    hold::<PlainClient>(&rt, rt.alloc(), HALF_DROPPED)
}

#[test]
fn calls_expire_at_once(rt: HostRuntime) -> Tested {
    hold::<PlainClient>(&rt, rt.alloc(), EXPIRING)
}

#[test]
fn streams_receive(rt: HostRuntime) -> Tested {
    hold::<PlainClient>(&rt, rt.alloc(), RECEIVING)
}

#[test]
fn items_wait(rt: HostRuntime) -> Tested {
    hold::<PlainClient>(&rt, rt.alloc(), WAITING)
}

#[test]
fn items_are_sent(rt: HostRuntime) -> Tested {
    hold::<PlainClient>(&rt, rt.alloc(), SENDING)
}

#[test]
fn nothing_is_kept_for_nobody(rt: HostRuntime) -> Tested {
    hold::<PlainClient>(&rt, rt.alloc(), FOR_NOBODY)
}
