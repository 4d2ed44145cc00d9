//! The reports of a server's faults.
use crate::tests::Tested;
use std::alloc::Global;
use std::io::ErrorKind;
use std::sync::atomic::{AtomicU64, Ordering};
use std::sync::{Arc, Mutex};
use std::time::Duration;
use ttrpc_bench::Rejects;
use ttrpc_bench_threads::fakes::Failing;
use ttrpc_bench_threads::handlers::{Method, comes};
use ttrpc_bench_threads::sites::{Machine, address_in, call_fails, check, new_board, unbound};
use ttrpc_proto::{Error, Result as Answered};
use ttrpc_secure::{SendInbound, SendOutbound};
use ttrpc_sync::Host;
use ttrpc_sync_server::accept::{StopSignal, next_connection};
use ttrpc_sync_server::{NoHook, Server, SharedHook, Watch};

/// The reports to a watch: the number of failed accepts, the number of failed handlers, and the text of the last
/// rejection by a hook.
#[derive(Drop)]
struct Told {
    accepts: AtomicU64,
    handlers: AtomicU64,
    refusal: Mutex<Option<String>>,
}

/// A watch that notes its reports.
#[derive(Drop)]
struct Notes<R: Host> {
    rt: R,
    told: Arc<Told, Global>,
}

impl<R: Host> Notes<R> {
    fn new(rt: &R) -> Result<Notes<R>, Error> {
        Ok(Notes {
            rt: rt.clone()?,
            told: Arc::new(
                rt.alloc(),
                Told {
                    accepts: AtomicU64::new(0),
                    handlers: AtomicU64::new(0),
                    refusal: Mutex::new(None),
                },
            )?,
        })
    }
}

impl<R: Host> Watch for Notes<R> {
    fn accept_failed(&self, error: &Error) {
        if matches!(error, Error::Nix(ErrorKind::Other)) {
            self.told.accepts.fetch_add(1, Ordering::SeqCst);
        }
    }

    fn hook_refused(&self, error: &Error) {
        *self.told.refusal.lock(&self.rt) = error.to_string(self.rt.alloc()).ok();
    }

    fn handler_failed(&self, error: &Error) {
        if matches!(error, Error::Eof) {
            self.told.handlers.fetch_add(1, Ordering::SeqCst);
        }
    }
}

/// Returns how many of three failed accepts of this kind are reported. No connection comes after them.
fn told_accepts<R: Host>(rt: &R, kind: ErrorKind) -> Answered<u64> {
    let notes = Notes::new(rt)?;
    let failing = Failing {
        kind,
        left: AtomicU64::new(3),
    };
    let interval = Duration::from_millis(1);
    let next = next_connection(rt, &failing, &StopSignal::new(), &notes, interval);
    check(rt.alloc(), next.is_none(), "a connection came")?;
    Ok(notes.told.accepts.load(Ordering::SeqCst))
}

/// Each failed accept is reported, except those that only a signal ended.
// Seen to fail if a failed accept isn't reported.
#[test]
fn failed_accepts_are_told(rt: HostRuntime) -> Tested {
    for (kind, count) in [(ErrorKind::Other, 3), (ErrorKind::Interrupted, 0)] {
        assert!(rt; told_accepts(&rt, kind)? == count);
    }
    Ok(())
}

/// A server with a hook of this type and a watch that notes.
type Watched<R, A> = Server<R, Method<R>, A, Notes<R>>;

/// Returns a server with this hook and this watch, which doesn't listen yet.
fn bound<R, O, I, A>(rt: &R, hook: A, notes: Notes<R>) -> Answered<Watched<R, A>>
where
    R: Machine + 'static,
    O: SendOutbound,
    I: SendInbound,
    A: SharedHook<Outbound = O, Inbound = I>,
{
    let server = unbound(rt, &new_board(rt)?)?
        .set_watch(notes)?
        .set_accept_hook(hook)?
        .bind("tcp://127.0.0.1:0", true)?;
    Ok(server)
}

/// Starts such a server, and returns it with its address.
fn watched<R, O, I, A>(rt: &R, hook: A, notes: Notes<R>) -> Answered<(Watched<R, A>, String)>
where
    R: Machine + 'static,
    O: SendOutbound,
    I: SendInbound,
    A: SharedHook<Outbound = O, Inbound = I>,
{
    let mut server = bound(rt, hook, notes)?;
    server.start()?;
    let address = address_in(rt.alloc(), server.local_addr()?)?;
    Ok((server, address))
}

/// The text of a rejection by the hook.
const REFUSAL: &str = "ttrpc err: accept hook failed: connection rejected: no";

/// Returns whether the last rejection is reported, with its reason.
fn refusal_is_told<R: Host>(rt: &R, told: &Told) -> bool {
    let came = comes(rt, || told.refusal.lock(rt).is_some());
    let text = told.refusal.lock(rt).take();
    came && matches!(text, Some(text) if text.as_str() == REFUSAL)
}

/// Checks that a call of a server with this hook fails. Returns the server, with the reports to its watch.
fn failed<R, O, I, A>(rt: &R, hook: A, method: &str) -> Answered<(Watched<R, A>, Arc<Told, Global>)>
where
    R: Machine + 'static,
    O: SendOutbound,
    I: SendInbound,
    A: SharedHook<Outbound = O, Inbound = I>,
{
    let notes = Notes::new(rt)?;
    let told = Arc::try_clone(&notes.told)?;
    let (server, address) = watched(rt, hook, notes)?;
    call_fails(rt, address.as_str(), method)?;
    Ok((server, told))
}

/// A hook's rejection is reported, with its reason.
// Seen to fail if a hook's refusal isn't reported.
#[test]
fn a_refusal_is_told(rt: HostRuntime) -> Tested {
    let (server, told) = failed(&rt, Rejects {}, "Echo")?;
    assert!(rt; refusal_is_told(&rt, &*told));
    server.shutdown();
    Ok(())
}

/// A handler's failure is reported once.
// Seen to fail if a handler's failure isn't reported.
#[test]
fn a_failure_is_told(rt: HostRuntime) -> Tested {
    let (server, told) = failed(&rt, NoHook {}, "Fails")?;
    server.shutdown();
    assert!(rt; told.handlers.load(Ordering::SeqCst) == 1);
    Ok(())
}
