//! Hooks of servers and clients, and accepts that fail at first.
use crate::tests::Tested;
use std::alloc::Global;
use std::io::ErrorKind;
use std::sync::Wait;
use std::sync::atomic::AtomicU64;
use std::test::Fail;
use std::thread;
use std::time::{Clock, Duration, Instant};
use ttrpc_bench::{Rejects, StampIn, StampOut, Stamps};
use ttrpc_bench_threads::fakes::{Failing, Moments};
use ttrpc_bench_threads::sites::{
    Machine, a_while, answers, answers_often, call_fails, connection, hooked, is_told,
};
use ttrpc_proto::Result as Answered;
use ttrpc_secure::{ConnectionDataExt, HookError, admit};
use ttrpc_sync::Host;
use ttrpc_sync_client::Client;
use ttrpc_sync_server::accept::{StopSignal, next_connection};
use ttrpc_sync_server::{NoHook, NoWatch};

/// The moments at which a hook begins and ends, and whether that is in time.
const MOMENTS: &[(u64, u64, bool)] = &[
    (0, 29999999999, true),
    (0, 30000000000, false),
    (1000000000, 31000000000, false),
    (1000000000, 30999999999, true),
];

fn is_timeout<T>(admitted: &Result<T, HookError>) -> bool {
    matches!(admitted, Err(HookError::Timeout))
}

/// Returns whether a hook that begins and ends at these moments is in time, or not, as the row expects.
fn is_as_stated(alloc: Global, row: &(u64, u64, bool)) -> bool {
    let &(first, second, in_time) = row;
    let clock = Moments {
        first: AtomicU64::new(first),
        second,
    };
    let admitted = admit(|| clock.monotonic(), alloc, &NoHook {}, &());
    is_timeout(&admitted) != in_time && admitted.is_ok() == in_time
}

// Should fail if each hook is late.
#[test]
fn a_hook_has_thirty_seconds(rt: HostRuntime) -> Tested {
    for row in MOMENTS {
        assert!(rt; is_as_stated(rt.alloc(), row));
    }
    Ok(())
}

/// Checks that no client is made if its hook rejects its connection to the server at this address.
fn client_refuses<R: Machine + 'static>(rt: &R, address: &str) -> Answered<()> {
    let bare = connection(rt, address)?;
    is_told(
        rt,
        Client::with_hook(rt.clone()?, bare, &Rejects {}),
        "ttrpc err: client connect hook failed: connection rejected: no",
    )
}

/// A connection that the hook rejects is closed, and a client isn't made if its hook rejects.
#[test]
fn a_refused_connection_is_closed(rt: HostRuntime) -> Tested {
    let site = hooked(&rt, Rejects {})?;
    call_fails(&rt, site.address.as_str(), "Echo")?;
    client_refuses(&rt, site.address.as_str())?;
    site.server.shutdown();
    Ok(())
}

/// Connects a client that stamps to the server at this address.
fn stamping_client<R: Machine + 'static>(
    rt: &R,
    address: &str,
) -> Answered<Client<R, StampOut, StampIn>> {
    let bare = connection(rt, address)?;
    let stamps = Stamps {
        name: "of the client",
    };
    Ok(Client::with_hook(rt.clone()?, bare, &stamps)?)
}

/// Returns whether each side has the name for its connection that its own hook gave.
fn names_are_known<R: Host>(rt: &R, client: &Client<R, StampOut, StampIn>) -> Answered<bool> {
    answers(rt, client, "Name", b"", b"of the server")?;
    let name: Option<&String> = client.connection_data().get_typed("name");
    Ok(matches!(name, Some(name) if name.as_str() == "of the client"))
}

/// Both sides stamp their payloads, and each has the name for its connection that its own hook gave.
#[test]
fn hooks_give_halves_and_names(rt: HostRuntime) -> Tested {
    let stamps = Stamps {
        name: "of the server",
    };
    let site = hooked(&rt, stamps)?;
    let client = stamping_client(&rt, site.address.as_str())?;
    answers_often(&rt, &client, 300)?;
    assert!(rt; names_are_known(&rt, &client)?);
    site.server.shutdown();
    Ok(())
}

/// The number of accepts that fail, their kind, and whether the next try comes at once.
const FAULTS: &[(u64, ErrorKind, bool)] = &[
    (3, ErrorKind::Other, false),
    (3, ErrorKind::OutOfMemory, false),
    (3, ErrorKind::ConnectionAborted, true),
    (3, ErrorKind::Interrupted, true),
];

/// Returns whether accepts that fail are tried again after the interval of 10 milliseconds, or at once, until no failure
/// is left.
fn is_tried_again<R: Clock + Wait>(rt: &R, row: &(u64, ErrorKind, bool)) -> Result<bool, Fail> {
    let &(count, kind, at_once) = row;
    let failing = Failing {
        kind,
        left: AtomicU64::new(count),
    };
    let interval = Duration::from_millis(10);
    let stop = StopSignal::new();
    // The end of an earlier connection is no reason to look sooner.
    stop.note_end(rt);
    let start = Instant::now(rt)?;
    let next = next_connection(rt, &failing, &stop, &NoWatch {}, interval);
    let passed = start.elapsed(rt)?;
    let in_time = at_once || passed >= Duration::from_millis(30);
    Ok(next.is_none() && in_time && failing.left.into_inner() == 0)
}

/// If the system gives no connection, a server tries again after its interval.
// Should fail if a failed accept ends the server, or is tried again at once.
#[test]
fn accept_is_tried_again(rt: HostRuntime) -> Tested {
    for row in FAULTS {
        assert!(rt; is_tried_again(&rt, row)?);
    }
    Ok(())
}

/// A server that is to stop doesn't wait for the end of the interval.
#[test]
fn a_stop_ends_the_wait(rt: HostRuntime) -> Tested {
    let failing = Failing {
        kind: ErrorKind::Other,
        left: AtomicU64::new(u64::MAX),
    };
    let stop = StopSignal::new();
    let interval = Duration::from_secs(50);
    let (next, ()) = thread::join(
        &rt,
        || next_connection(&rt, &failing, &stop, &NoWatch {}, interval),
        || {
            a_while(&rt);
            stop.ask(&rt);
        },
    );
    assert!(rt; next.is_none());
    Ok(())
}
