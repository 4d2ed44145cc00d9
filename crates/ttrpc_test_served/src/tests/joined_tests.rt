//! Two calls of one client. The first is answered after the second.
ghost use Rattle.futures.specs.Poll.{OnPending};
ghost use Rattle.futures.specs.Task.{IsArmed, Keeps};

use crate::tests::gate::Gate;
use crate::tests::runs::{Bench, System, client_of, make_bench, run_beside_client};
use futures::Future;
use futures::task::{Context, Poll};
use std::alloc::Global;
use std::sync::Arc;
use std::test::Fail;
use std::time::Duration;
use tokio::runtime::Handle;
use ttrpc_bench::checks::check_named;
use ttrpc_bench_polled::acts::{is_so, request};
use ttrpc_bench_polled::parts::Fault;
use ttrpc_polled_client::{Client, ClientRequest};
use ttrpc_proto::{Response, Result as RpcResult};
use ttrpc_secure::Plain;

/// Two calls side by side. After the second is answered, the gate is opened.
#[derive(Drop)]
struct Joined {
    alloc: Global,
    first: ClientRequest<Plain, Plain>,
    second: Option<ClientRequest<Plain, Plain>>,
    gate: Arc<Gate, Global>,
}

impl Joined {
    /// Polls the second call, and opens the gate when it is answered. Returns whether it is pending, or was answered as
    /// expected.
    fn poll_second(&mut self, cx: &mut Context<'_>) -> bool
        ensures kept { Keeps cx.old cx.new }
    {
        let Some(mut second) = self.second.take() else {
            return true;
        };
        match second.poll(cx) {
            Poll::Pending => {
                self.second = Some(second);
                true
            }
            Poll::Ready(outcome) => {
                let is_own = has(self.alloc, outcome, b"2");
                if is_own {
                    self.gate.open();
                }
                is_own
            }
        }
    }

    /// Polls the first call. Ready with a fault, unless it was answered as expected, and after the second.
    fn poll_first(&mut self, cx: &mut Context<'_>) -> Poll<Option<Fault>>
        ensures registered { OnPending result (IsArmed cx.new) }
        ensures kept { Keeps cx.old cx.new }
    {
        match self.first.poll(cx) {
            Poll::Pending => Poll::Pending,
            Poll::Ready(outcome) => {
                if has(self.alloc, outcome, b"1") && self.second.is_none() {
                    Poll::Ready(None)
                } else {
                    Poll::Ready(Some(Fault::Act(0)))
                }
            }
        }
    }
}

impl Future for Joined {
    type Output = Option<Fault>;

    fn poll(&mut self, cx: &mut Context<'_>) -> Poll<Option<Fault>> {
        if self.poll_second(cx) {
            self.poll_first(cx)
        } else {
            Poll::Ready(Some(Fault::Act(1)))
        }
    }
}

/// Returns whether it is a response with this payload.
fn has(alloc: Global, outcome: RpcResult<Response>, payload: &'static [u8]) -> bool {
    match outcome {
        Ok(response) => is_so(alloc, Ok(response.payload), Ok(payload)),
        Err(_) => false,
    }
}

/// Sets ticks of a millisecond for looking at a gate.
fn set_ticks<R: System>(rt: &R, handle: &Handle, gate: &Gate) -> Result<(), Fail> {
    gate.set_ticks(handle.time().interval(rt, Duration::from_millis(1))?);
    Ok(())
}

/// Makes two calls of this client. The handler of the first looks once a millisecond whether the second was answered.
fn make_joined<R: System>(
    alloc: Global,
    client: &Client<R, Plain, Plain>,
    gate: Arc<Gate, Global>,
) -> Result<Joined, Fail> {
    let first = client.request(request(alloc, "Looks", b"1", 0)?)?;
    let second = client.request(request(alloc, "Echo", b"2", 0)?)?;
    Ok(Joined {
        alloc,
        first,
        second: Some(second),
        gate,
    })
}

/// Makes two calls of one client at the same time.
fn join_calls<R: System>(rt: &R) -> Result<Option<Fault>, Fail> {
    let gate = Arc::new(rt.alloc(), Gate::new(rt.alloc()))?;
    let Bench {
        mut runtime,
        mut server,
        near,
        far,
    } = make_bench(rt, &gate, 4096)?;
    set_ticks(rt, runtime.handle(), &gate)?;
    let (client, connection) = client_of(rt, runtime.handle(), near)?;
    let joined = make_joined(rt.alloc(), &client, gate)?;
    run_beside_client(rt, &mut runtime, &mut server, far, connection, joined)
}

#[test]
fn a_call_waits_for_one_that_is_joined(rt: HostRuntime) -> Result<(), Fail> {
    check_named("a call has another answer", join_calls(&rt)?.is_none())
}
