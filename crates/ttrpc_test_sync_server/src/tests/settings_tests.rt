//! The settings that a server refuses.
use crate::tests::Tested;
use std::alloc::Global;
use std::collections::BTreeMap;
use std::sync::Arc;
use ttrpc_bench_threads::handlers::{Board, Method, Way};
use ttrpc_bench_threads::sites::{
    Machine, Site, add_method, answered_client, answers, is_told, serving, started, unbound,
};
use ttrpc_proto::Result as Answered;
use ttrpc_sync::{Host, Runtime};
use ttrpc_sync_server::{NoHook, Server};

/// Counts of workers, default, least and greatest, and the error of the start of a server without an address.
const STARTS: &[(usize, usize, usize, &str)] = &[
    (
        5,
        5,
        5,
        "ttrpc err: thread_count_default should smaller than thread_count_max",
    ),
    (
        1,
        1,
        5,
        "ttrpc err: thread_count_default should bigger than thread_count_min",
    ),
    (3, 1, 5, "ttrpc err: ttrpc-rust not bind"),
];

/// Checks that the start of a server with these counts and without an address is refused with the row's text.
fn start_is_refused<R: Runtime>(
    rt: &R,
    board: &Arc<Board, Global>,
    row: &(usize, usize, usize, &str),
) -> Answered<()> {
    let &(default, min, max, text) = row;
    let mut server = unbound(rt, board)?
        .set_thread_count_default(default)
        .set_thread_count_min(min)
        .set_thread_count_max(max);
    is_told(rt, server.start(), text)
}

#[test]
fn counts_and_an_address_are_wanted(rt: HostRuntime) -> Tested {
    let board = Arc::new(rt.alloc(), Board::new(rt.alloc()))?;
    for row in STARTS {
        start_is_refused(&rt, &board, row)?;
    }
    Ok(())
}

/// A server of the tests.
type Tried<R> = Server<R, Method<R>, NoHook>;

/// Checks that a server that has started refuses another start, and returns it.
fn started_once<R: Machine + 'static>(rt: &R) -> Answered<Tried<R>> {
    let mut server = serving(rt)?.server;
    is_told(rt, server.start(), "ttrpc err: server is already listening")?;
    Ok(server)
}

/// Stops listening, and then listens at another address.
fn listening_elsewhere<R: Machine + 'static>(server: Tried<R>) -> Answered<Tried<R>> {
    let mut server = server
        .stop_listen()
        .stop_listen()
        .bind("tcp://127.0.0.1:0", true)?;
    server.start_listen()?;
    Ok(server)
}

/// After it has started, a server refuses another start. After it listens at another address, it refuses a further one.
#[test]
fn a_server_starts_once_at_a_time(rt: HostRuntime) -> Tested {
    let server = listening_elsewhere(started_once(&rt)?)?;
    Ok(is_told(
        &rt,
        server.bind("tcp://127.0.0.1:0", true),
        "ttrpc err: ttrpc-rust just support 1 sockaddr now",
    )?)
}

#[test]
fn services_are_fixed_by_a_start(rt: HostRuntime) -> Tested {
    let server = serving(&rt)?.server;
    Ok(is_told(
        &rt,
        server.register_service(BTreeMap::new(rt.alloc())),
        "ttrpc err: services are fixed after start",
    )?)
}

/// Returns a service with one method, which echoes, at this path.
fn echo_at<R: Host>(
    rt: &R,
    board: &Arc<Board, Global>,
    path: &str,
) -> Answered<BTreeMap<String, Method<R>>> {
    let mut methods = BTreeMap::new(rt.alloc());
    add_method(rt, board, &mut methods, path, Way::Echo)?;
    Ok(methods)
}

/// Returns a server that also has a service without methods and a service with another echo.
fn with_others<R: Machine + 'static>(rt: &R, board: &Arc<Board, Global>) -> Answered<Tried<R>> {
    let server = unbound(rt, board)?.register_service(BTreeMap::new(rt.alloc()))?;
    let others = echo_at(rt, board, "/demo.Echo/Other")?;
    Ok(server.register_service(others)?)
}

/// Starts such a server.
fn serving_others<R: Machine + 'static>(rt: &R) -> Answered<Site<R, NoHook>> {
    let board = Arc::new(rt.alloc(), Board::new(rt.alloc()))?;
    let server = with_others(rt, &board)?.bind("tcp://127.0.0.1:0", true)?;
    started(rt, server, board)
}

/// If services are registered twice, the server has both.
#[test]
fn a_second_service_stands_beside_the_first(rt: HostRuntime) -> Tested {
    let site = serving_others(&rt)?;
    let client = answered_client(&rt, site.address.as_str())?;
    answers(&rt, &client, "Other", b"3", b"3")?;
    site.server.shutdown();
    Ok(())
}

/// Checks that a service at this path is refused.
fn path_is_refused<R: Host>(rt: &R, board: &Arc<Board, Global>, path: &str) -> Answered<()> {
    let server: Tried<R> = unbound(rt, board)?;
    let methods = echo_at(rt, board, path)?;
    let text = format!(in rt.alloc(); "ttrpc err: method path {path} is not /SERVICE/METHOD")?;
    is_told(rt, server.register_service(methods), text.as_str())
}

/// A path without both a service and a method is refused.
#[test]
fn a_path_has_a_service_and_a_method(rt: HostRuntime) -> Tested {
    let board = Arc::new(rt.alloc(), Board::new(rt.alloc()))?;
    for path in ["", "demo.Echo/Echo", "/Echo"] {
        path_is_refused(&rt, &board, path)?;
    }
    Ok(())
}
