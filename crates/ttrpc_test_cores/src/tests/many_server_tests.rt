//! Many jobs of a server, many streams, and many items of a stream, at the same time.
use crate::tests::client::{CLOSE, DATA};
use crate::tests::kinds::{ASYNC_RULES, BOTH_RULES, PlainServer};
use crate::tests::many::MANY;
use crate::tests::script::Step::*;
use crate::tests::script::{Cuts, FRESH, Row};
use crate::tests::streams::{IN_USE, INACTIVE, OPENED, OPENED_THIRD, THREE_OF_THIRD, TWO_ITEMS};
use crate::tests::under_test::{Table, Tested, hold};
use ttrpc_bench::vectors::PAST;
use ttrpc_bench::vectors::Told::{Eof, RemoteClosed};
use ttrpc_server::Rules;

const ANSWERED: &[Table<Rules>] = &[(
    BOTH_RULES,
    &[Row {
        name: "requests are answered, the last first",
        steps: &[ServesLastFirst(MANY)],
        ..FRESH
    }],
)];

const EXPIRING_AT_ONCE: &[Table<Rules>] = &[(
    ASYNC_RULES,
    &[Row {
        name: "jobs expire by one tick, beside as many that stay",
        cuts: Cuts::Inside(2),
        steps: &[JobsExpireAtOnce(MANY), IsAlive],
        ..FRESH
    }],
)];

const EXPIRING_IN_TURN: &[Table<Rules>] = &[(
    ASYNC_RULES,
    &[Row {
        name: "jobs expire one after the other, each by a tick of its own",
        cuts: Cuts::Inside(2),
        steps: &[JobsExpireInTurn(MANY), IsAlive],
        ..FRESH
    }],
)];

const STREAMS: &[Table<Rules>] = &[(
    ASYNC_RULES,
    &[Row {
        name: "streams receive and end, the last first",
        steps: &[StreamJobsLastFirst(MANY)],
        ..FRESH
    }],
)];

const WAITING: &[Table<Rules>] = &[(
    ASYNC_RULES,
    &[
        Row {
            name: "who isn't asked holds up nobody",
            steps: &[
                Feed(OPENED),
                Feed(OPENED_THIRD),
                ItemsCome(1, MANY),
                Feed(THREE_OF_THIRD),
                Receives(2, b"x"),
                Receives(2, b"y"),
                Receives(2, b"z"),
                ReceivesNone(2),
                ItemsCome(3, MANY),
                ReceivesEach(2, MANY),
                ReceivesNone(2),
                ReceivesEach(1, MANY),
                ReceivesNone(1),
            ],
            ..FRESH
        },
        Row {
            name: "nothing is reported, and items come all the same",
            steps: &[
                Feed(OPENED),
                Sends(1, b"a", 1),
                Lends(5, TWO_ITEMS, 0, 5),
                ItemsCome(1, MANY),
                ReceivesEach(1, MANY),
                IsUnsent(1),
            ],
            ..FRESH
        },
    ],
)];

const REPEATED: &[Table<Rules>] = &[(
    ASYNC_RULES,
    &[
        Row {
            name: "behind the end a peer may repeat itself, and nothing is kept",
            steps: &[
                Feed(OPENED),
                Feed(CLOSE),
                ItemsCome(1, MANY),
                Repeats(CLOSE, b"", MANY),
                ReceivesError(1, Eof),
                ReceivesError(1, RemoteClosed),
                Writes(b""),
            ],
            ..FRESH
        },
        Row {
            name: "nor is what it sends under an id in use, or for nobody, which is answered each time",
            steps: &[
                Feed(OPENED),
                Repeats(OPENED, IN_USE, MANY),
                TakesStream(1, 1),
                TakesNone,
                DropsReceiver(1),
                Repeats(DATA, INACTIVE, MANY),
                EndsStream(1),
                Writes(CLOSE),
                Repeats(DATA, INACTIVE, MANY),
                Repeats(CLOSE, INACTIVE, MANY),
                NextHeard(None),
                ReceivesError(1, PAST),
            ],
            ..FRESH
        },
    ],
)];

const SENDING: &[Table<Rules>] = &[(
    ASYNC_RULES,
    &[Row {
        name: "items that are sent are asked about",
        steps: &[Feed(OPENED), SendsEach(1, MANY)],
        ..FRESH
    }],
)];

#[test]
fn jobs_are_answered(rt: HostRuntime) -> Tested {
    hold::<PlainServer>(&rt, rt.alloc(), ANSWERED)
}

#[test]
fn jobs_expire_at_once(rt: HostRuntime) -> Tested {
    hold::<PlainServer>(&rt, rt.alloc(), EXPIRING_AT_ONCE)
}

#[test]
fn jobs_expire_in_turn(rt: HostRuntime) -> Tested {
    hold::<PlainServer>(&rt, rt.alloc(), EXPIRING_IN_TURN)
}

#[test]
fn streams_end(rt: HostRuntime) -> Tested {
    hold::<PlainServer>(&rt, rt.alloc(), STREAMS)
}

#[test]
fn items_wait(rt: HostRuntime) -> Tested {
    hold::<PlainServer>(&rt, rt.alloc(), WAITING)
}

#[test]
fn items_are_sent(rt: HostRuntime) -> Tested {
    hold::<PlainServer>(&rt, rt.alloc(), SENDING)
}

#[test]
fn nothing_is_kept_of_what_is_repeated(rt: HostRuntime) -> Tested {
    hold::<PlainServer>(&rt, rt.alloc(), REPEATED)
}
