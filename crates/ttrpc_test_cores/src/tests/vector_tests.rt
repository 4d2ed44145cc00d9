//! Each vector of `ttrpc_bench` holds for its kinds or under its rules. Each cell of the tables has a vector.
use crate::tests::kinds::{
    ASYNC_KIND, ASYNC_RULES, BOTH_KINDS, PlainClient, PlainServer, SYNC_KIND, SYNC_RULES,
    StampedClient, StampedServer, SwellingClient, SwellingServer,
};
use crate::tests::under_test::{Form, Tested};
use crate::tests::vectors::hold_vectors;
use ttrpc_bench::checks::check;
use ttrpc_bench::vectors::Halves::{BadStamp, Swelling, Usual};
use ttrpc_bench::vectors::{
    ASYNC_PAIRS, ASYNC_VECTORS, CLIENT_MAILBOX, CLIENT_THINGS, CLIENT_VECTORS, FRAME_KINDS,
    FrameKind, ID_STATES, IdState, MailboxVector, SERVER_MAILBOX, SERVER_ROWS, SERVER_THINGS,
    SYNC_PAIRS, SYNC_VECTORS, ServerRow, ServerVector, Thing,
};

// ---- no cell is missing

/// Returns whether a client's vector is of this cell.
fn has_cell(frame: FrameKind, id: IdState) -> bool {
    for vector in CLIENT_VECTORS {
        if vector.frame == frame && vector.id == id {
            return true;
        }
    }
    false
}

/// Returns whether there is a vector for each kind of frame and each state of its id.
fn has_each_cell() -> bool {
    for frame in FRAME_KINDS {
        for id in ID_STATES {
            if !has_cell(*frame, *id) {
                return false;
            }
        }
    }
    true
}

/// Returns whether one of these vectors is of this row.
fn has_row(vectors: &[ServerVector], row: ServerRow) -> bool {
    for vector in vectors {
        if vector.row == row {
            return true;
        }
    }
    false
}

/// Returns whether one of these vectors fits both rows.
fn has_pair(vectors: &[ServerVector], upper: ServerRow, lower: ServerRow) -> bool {
    for vector in vectors {
        if vector.row == upper && vector.lower == Some(lower) {
            return true;
        }
    }
    false
}

/// Returns whether there is a vector for each row, and for each pair of neighbours.
fn has_each_row(vectors: &[ServerVector], pairs: &[(ServerRow, ServerRow)]) -> bool {
    for row in SERVER_ROWS {
        if !has_row(vectors, *row) {
            return false;
        }
    }
    for (upper, lower) in pairs {
        if !has_pair(vectors, *upper, *lower) {
            return false;
        }
    }
    true
}

/// Returns whether one of these vectors is of this event.
fn has_thing(vectors: &[MailboxVector], thing: Thing) -> bool {
    for vector in vectors {
        if vector.thing == thing {
            return true;
        }
    }
    false
}

/// Returns whether there is a vector for each of these events.
fn has_each_thing(vectors: &[MailboxVector], things: &[Thing]) -> bool {
    for thing in things {
        if !has_thing(vectors, *thing) {
            return false;
        }
    }
    true
}

#[test]
fn each_cell_has_a_vector(_rt: HostRuntime) -> Tested {
    check(
        has_each_cell()
            && has_each_row(ASYNC_VECTORS, ASYNC_PAIRS)
            && has_each_row(SYNC_VECTORS, SYNC_PAIRS)
            && has_each_thing(CLIENT_MAILBOX, CLIENT_THINGS)
            && has_each_thing(SERVER_MAILBOX, SERVER_THINGS),
    )
}

// ---- the client's table

#[test]
fn a_client_keeps_its_table(rt: HostRuntime) -> Tested {
    let (kinds, form) = (BOTH_KINDS, Form::AsTheyStand);
    hold_vectors::<PlainClient, _>(rt.alloc(), kinds, CLIENT_VECTORS, Usual, form)
}

#[test]
fn a_client_keeps_its_table_over_stamps(rt: HostRuntime) -> Tested {
    let (kinds, form) = (BOTH_KINDS, Form::Stamped);
    hold_vectors::<StampedClient, _>(rt.alloc(), kinds, CLIENT_VECTORS, Usual, form)?;
    hold_vectors::<StampedClient, _>(rt.alloc(), kinds, CLIENT_VECTORS, BadStamp, form)
}

#[test]
fn a_sync_client_keeps_its_table_where_payloads_swell(rt: HostRuntime) -> Tested {
    let (kinds, form) = (SYNC_KIND, Form::AsTheyStand);
    hold_vectors::<SwellingClient, _>(rt.alloc(), kinds, CLIENT_VECTORS, Swelling, form)
}

#[test]
fn an_async_client_keeps_its_table_where_payloads_swell(rt: HostRuntime) -> Tested {
    let (kinds, form) = (ASYNC_KIND, Form::AsTheyStand);
    hold_vectors::<SwellingClient, _>(rt.alloc(), kinds, CLIENT_VECTORS, Swelling, form)
}

// ---- the server's table

#[test]
fn a_server_keeps_its_table(rt: HostRuntime) -> Tested {
    let form = Form::AsTheyStand;
    hold_vectors::<PlainServer, _>(rt.alloc(), SYNC_RULES, SYNC_VECTORS, Usual, form)?;
    hold_vectors::<PlainServer, _>(rt.alloc(), ASYNC_RULES, ASYNC_VECTORS, Usual, form)
}

#[test]
fn a_server_keeps_its_table_over_stamps(rt: HostRuntime) -> Tested {
    let form = Form::Stamped;
    hold_vectors::<StampedServer, _>(rt.alloc(), SYNC_RULES, SYNC_VECTORS, Usual, form)?;
    hold_vectors::<StampedServer, _>(rt.alloc(), SYNC_RULES, SYNC_VECTORS, BadStamp, form)?;
    hold_vectors::<StampedServer, _>(rt.alloc(), ASYNC_RULES, ASYNC_VECTORS, Usual, form)?;
    hold_vectors::<StampedServer, _>(rt.alloc(), ASYNC_RULES, ASYNC_VECTORS, BadStamp, form)
}

#[test]
fn a_server_keeps_its_table_where_payloads_swell(rt: HostRuntime) -> Tested {
    let form = Form::AsTheyStand;
    hold_vectors::<SwellingServer, _>(rt.alloc(), SYNC_RULES, SYNC_VECTORS, Swelling, form)?;
    hold_vectors::<SwellingServer, _>(rt.alloc(), ASYNC_RULES, ASYNC_VECTORS, Swelling, form)
}

// ---- mailboxes

#[test]
fn receivers_are_given_what_comes(rt: HostRuntime) -> Tested {
    let form = Form::AsTheyStand;
    hold_vectors::<PlainClient, _>(rt.alloc(), BOTH_KINDS, CLIENT_MAILBOX, Usual, form)?;
    hold_vectors::<PlainServer, _>(rt.alloc(), ASYNC_RULES, SERVER_MAILBOX, Usual, form)
}

#[test]
fn receivers_are_given_what_comes_over_stamps(rt: HostRuntime) -> Tested {
    let form = Form::Stamped;
    hold_vectors::<StampedClient, _>(rt.alloc(), BOTH_KINDS, CLIENT_MAILBOX, Usual, form)?;
    hold_vectors::<StampedServer, _>(rt.alloc(), ASYNC_RULES, SERVER_MAILBOX, Usual, form)
}
