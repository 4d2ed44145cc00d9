use crate::messages::{Count, Item};
use crate::polled::{TalksClient, talks_service};
use crate::tests::sites::{Ends, Site, System, holds, is_item, is_told, item};
use crate::told::Told;
use futures::Future;
use std::test::Fail;
use ttrpc::Error;
use ttrpc::asynchronous::{ClientLine, ClientStream, ClientStreamReceiver, ClientStreamSender};
use ttrpc::context::Context;
use ttrpc::security_extension::Plain;

type Line = ClientLine<Plain, Plain>;

fn same<R: System, A: Future<Output = ()>, B: Future<Output = ()>>(
    rt: &R,
    ends: &mut Ends<A, B>,
    client: &TalksClient<R>,
) -> Result<(), Fail> {
    let call = client.same(Context::new(rt.alloc()), &item(rt.alloc())?);
    let answer = ends.done(rt, call)??;
    holds(is_item(&answer), "Same gives another item")
}

fn size<R: System, A: Future<Output = ()>, B: Future<Output = ()>>(
    rt: &R,
    ends: &mut Ends<A, B>,
    client: &TalksClient<R>,
) -> Result<(), Fail> {
    let call = client.size(Context::new(rt.alloc()), &item(rt.alloc())?);
    let answer = ends.done(rt, call)??;
    holds(answer.count == 2, "Size counts otherwise")
}

fn fail<R: System, A: Future<Output = ()>, B: Future<Output = ()>>(
    rt: &R,
    ends: &mut Ends<A, B>,
    client: &TalksClient<R>,
) -> Result<(), Fail> {
    let call = client.fail(Context::new(rt.alloc()), &item(rt.alloc())?);
    let answer = ends.done(rt, call)?;
    let is_eof = answer.is_err_and(|error| is_told(&error, "eof"));
    holds(is_eof, "Fail tells something else")
}

fn list<R: System, A: Future<Output = ()>, B: Future<Output = ()>>(
    rt: &R,
    ends: &mut Ends<A, B>,
    client: &TalksClient<R>,
) -> Result<(), Fail> {
    let opening = client.list(Context::new(rt.alloc()), &Count { count: 3 });
    let mut list = ends.done(rt, opening)??;
    listed(rt, ends, &mut list)
}

/// Receives an item of three bytes, and the end.
fn listed<R: System, A: Future<Output = ()>, B: Future<Output = ()>>(
    rt: &R,
    ends: &mut Ends<A, B>,
    list: &mut ClientStreamReceiver<Item, R, Plain, Plain>,
) -> Result<(), Fail> {
    let first = ends.done(rt, list.recv())??;
    holds(
        first.is_some_and(|item| item.content.len() == 3),
        "List gives another item",
    )?;
    let second = ends.done(rt, list.recv())??;
    holds(second.is_none(), "List goes on")
}

fn watch<R: System, A: Future<Output = ()>, B: Future<Output = ()>>(
    rt: &R,
    ends: &mut Ends<A, B>,
    client: &TalksClient<R>,
) -> Result<(), Fail> {
    let opening = client.watch(Context::new(rt.alloc()), &Count { count: 3 });
    let mut watch = ends.done(rt, opening)??;
    let given = ends.done(rt, watch.recv())?;
    let is_eof = given.is_err_and(|error| is_told(&error, "eof"));
    holds(is_eof, "Watch tells something else")
}

fn load<R: System, A: Future<Output = ()>, B: Future<Output = ()>>(
    rt: &R,
    ends: &mut Ends<A, B>,
    client: &TalksClient<R>,
) -> Result<(), Fail> {
    let mut load = ends.done(rt, client.load(Context::new(rt.alloc())))??;
    loaded(rt, ends, &mut load)
}

/// Sends two items of two bytes, and receives the count of four.
fn loaded<R: System, A: Future<Output = ()>, B: Future<Output = ()>>(
    rt: &R,
    ends: &mut Ends<A, B>,
    load: &mut ClientStreamSender<Item, Count, Line>,
) -> Result<(), Fail> {
    let item = item(rt.alloc())?;
    ends.done(rt, load.send(&item))??;
    ends.done(rt, load.send(&item))??;
    let answer = ends.done(rt, load.close_and_recv())??;
    holds(answer.count == 4, "Load counts otherwise")
}

fn talk<R: System, A: Future<Output = ()>, B: Future<Output = ()>>(
    rt: &R,
    ends: &mut Ends<A, B>,
    client: &TalksClient<R>,
) -> Result<(), Fail> {
    let mut talk = ends.done(rt, client.talk(Context::new(rt.alloc())))??;
    talked(rt, ends, &mut talk)?;
    closed(rt, ends, &mut talk)
}

/// Sends an item, and receives it back.
fn talked<R: System, A: Future<Output = ()>, B: Future<Output = ()>>(
    rt: &R,
    ends: &mut Ends<A, B>,
    talk: &mut ClientStream<Item, Item, Line>,
) -> Result<(), Fail> {
    let item = item(rt.alloc())?;
    ends.done(rt, talk.send(&item))??;
    let back = ends.done(rt, talk.recv())??;
    holds(is_item(&back), "Talk gives another item")
}

/// Closes, and receives the end.
fn closed<R: System, A: Future<Output = ()>, B: Future<Output = ()>>(
    rt: &R,
    ends: &mut Ends<A, B>,
    talk: &mut ClientStream<Item, Item, Line>,
) -> Result<(), Fail> {
    ends.done(rt, talk.close_send())??;
    let given = ends.done(rt, talk.recv())?;
    holds(matches!(given, Err(Error::Eof)), "Talk goes on")
}

fn all<R: System, A: Future<Output = ()>, B: Future<Output = ()>>(
    rt: &R,
    ends: &mut Ends<A, B>,
    client: &TalksClient<R>,
) -> Result<(), Fail> {
    same(rt, ends, client)?;
    size(rt, ends, client)?;
    fail(rt, ends, client)?;
    list(rt, ends, client)?;
    watch(rt, ends, client)?;
    load(rt, ends, client)?;
    talk(rt, ends, client)
}

// Should fail if a `CSReceiver` loses an item; a typed send, a call or a stream of a service, `close_and_recv` or an opened request always
// fails.
#[test]
fn each_kind_answers(rt: HostRuntime) -> Result<(), Fail> {
    let Site {
        client,
        server: _server,
        mut ends,
    } = Site::new(&rt, talks_service(rt.alloc(), Told {})?)?;
    all(&rt, &mut ends, &TalksClient { client })
}
