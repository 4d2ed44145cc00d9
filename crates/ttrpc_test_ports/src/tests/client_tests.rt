//! A client's ports in one thread.
use crate::tests::ends::{
    Client, Tested, call, calling_client, client, client_failure, has_outcome, is_socket,
    limited_call, written,
};
use std::alloc::Global;
use std::io::{self, ErrorKind};
use std::sync::Wait;
use ttrpc_client::CallId;
use ttrpc_sync::{ConnectionLock, ReadPort, read_loop};
use ttrpc_sync_client::{CallShape, ClientRead, CurrentReader};
use ttrpc_test_cores::server::{ASKED, ECHOED};

/// The request of a call is written by the thread that took the turn, and that thread gives the turn back.
// Should fail if a writer's port never ends.
#[test]
fn a_call_is_written(rt: HostRuntime) -> Tested {
    let shared = calling_client(&rt, rt.alloc())?;
    let took = shared.held().lock(&rt).turn.take();
    let bytes = written(&rt, rt.alloc(), &*shared);
    let gave_back = !shared.held().lock(&rt).turn.is_taken;
    assert!(rt; took && bytes.as_slice() == ASKED && gave_back);
    Ok(())
}

/// Returns whether the call has its answer, and the connection has failed at the end of its input.
fn has_answer_and_end(rt: &impl Wait, alloc: Global, client: &Client, id: CallId) -> bool {
    let is_answered = has_outcome(rt, alloc, client, id);
    is_answered && is_socket(&client_failure(rt, alloc, client), "socket disconnected")
}

/// A response that is read ends its call. At the end of the input the connection fails.
// Should fail if a reader's port drops a piece, or takes one byte.
#[test]
fn a_response_is_read(rt: HostRuntime) -> Tested {
    let shared = client(rt.alloc())?;
    let id = call(&rt, rt.alloc(), &shared)?;
    let mut port = ClientRead::new(&rt, rt.alloc(), &*shared);
    let mut reader = ECHOED;
    let reads = shared.wait_to_read(&rt);
    read_loop(&rt, &mut reader, &mut port);
    assert!(rt; reads && has_answer_and_end(&rt, rt.alloc(), &shared, id));
    Ok(())
}

/// Returns whether a short call begins alone, and its caller takes the turn to read.
fn takes_the_turn(rt: &impl Wait, client: &Client, id: CallId) -> bool {
    let short = CallShape {
        has_deadline: false,
        is_next: true,
        is_short: true,
    };
    let mut held = client.held().lock(rt);
    held.reading.begin_call(id, short) && held.reading.take(id)
}

/// Returns whether the call has its answer, the connection lives, and nobody reads it.
fn has_answer_alone(rt: &impl Wait, alloc: Global, client: &Client, id: CallId) -> bool {
    let is_answered = has_outcome(rt, alloc, client, id);
    let lives = client_failure(rt, alloc, client).is_none();
    let reader = client.held().lock(rt).reading.reader;
    is_answered && lives && reader == CurrentReader::Nobody
}

/// A caller that is alone reads until its call has ended, and no further.
#[test]
fn a_caller_reads_for_itself(rt: HostRuntime) -> Tested {
    let shared = client(rt.alloc())?;
    let id = call(&rt, rt.alloc(), &shared)?;
    let took = takes_the_turn(&rt, &shared, id);
    let mut port = ClientRead::new(&rt, rt.alloc(), &*shared);
    let mut reader = ECHOED;
    read_loop(&rt, &mut reader, &mut port);
    assert!(rt; took && has_answer_alone(&rt, rt.alloc(), &shared, id));
    Ok(())
}

/// A reader that broke fails the connection, and then nothing is taken.
#[test]
fn a_broken_reader_fails_the_client(rt: HostRuntime) -> Tested {
    let shared = client(rt.alloc())?;
    let mut port = ClientRead::new(&rt, rt.alloc(), &*shared);
    port.begin();
    port.broke(io::Error::from(ErrorKind::ConnectionReset));
    let failure = client_failure(&rt, rt.alloc(), &shared);
    let is_told = is_socket(&failure, "connection reset");
    port.begin();
    assert!(rt; is_told && port.take(ECHOED).is_none());
    Ok(())
}

/// A call that expires is known as ended at once, even while another one waits: nothing is kept of it until the peer
/// answers.
#[test]
fn an_expired_call_is_noted_as_ended(rt: HostRuntime) -> Tested {
    let shared = calling_client(&rt, rt.alloc())?;
    let limited = limited_call(&rt, rt.alloc(), &shared, 5)?;
    let mut held = shared.held().lock(&rt);
    held.tick(5);
    let _ = held.note_ended();
    let is_noted = held.core.next_ended().is_none();
    assert!(rt; is_noted && matches!(held.take_outcome(rt.alloc(), limited), Some(Err(_))));
    Ok(())
}
