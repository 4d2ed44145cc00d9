//! Services without streams, or without methods.
use crate::polled::{FlowsClient, PlainlyClient, flows_service, plainly_service};
use crate::tests::sites::{Ends, Site, System, holds, is_told, item};
use crate::told::Told;
use futures::Future;
use std::test::Fail;
use ttrpc::context::Context;

fn ask<R: System, A: Future<Output = ()>, B: Future<Output = ()>>(
    rt: &R,
    ends: &mut Ends<A, B>,
    client: &PlainlyClient<R>,
) -> Result<(), Fail> {
    let call = client.ask(Context::new(rt.alloc()), &item(rt.alloc())?);
    let answer = ends.done(rt, call)??;
    holds(answer.count == 3, "Ask counts otherwise")
}

#[test]
fn service_without_streams_answers(rt: HostRuntime) -> Result<(), Fail> {
    let Site {
        client,
        server: _server,
        mut ends,
    } = Site::new(&rt, plainly_service(rt.alloc(), Told {})?)?;
    ask(&rt, &mut ends, &PlainlyClient { client })
}

fn flow<R: System, A: Future<Output = ()>, B: Future<Output = ()>>(
    rt: &R,
    ends: &mut Ends<A, B>,
    client: &FlowsClient<R>,
) -> Result<(), Fail> {
    let mut flow = ends.done(rt, client.flow(Context::new(rt.alloc())))??;
    let given = ends.done(rt, flow.recv())?;
    let text = "ttrpc err: remote stream closed";
    holds(
        given.is_err_and(|error| is_told(&error, text)),
        "Flow tells something else",
    )
}

#[test]
fn service_without_methods_answers(rt: HostRuntime) -> Result<(), Fail> {
    let Site {
        client,
        server: _server,
        mut ends,
    } = Site::new(&rt, flows_service(rt.alloc(), Told {})?)?;
    flow(&rt, &mut ends, &FlowsClient { client })
}
