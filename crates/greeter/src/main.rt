//! A service with two methods, and a client that calls it. Both are in this process, with a socket at a path between
//! them.
#![tactic(auto)]

mod client;
mod messages;
mod service;
mod visits;

use crate::client::GreeterClient;
use crate::messages::{HelloReply, HelloRequest};
use crate::service::methods;
use crate::visits::VisitsRequest;
use std::alloc::Global;
use std::time::Duration;
use std::{fs, io, thread};
use ttrpc::context::{Context, with_duration};
use ttrpc::proto::Text;
use ttrpc::sync::{Host, Runtime};
use ttrpc::{Client, Error, Result, Server};

const PATH: &str = "greeter.sock";

const ADDRESS: &str = "unix://greeter.sock";

/// Returns a context with a timeout of five seconds, which asks for German.
fn german(alloc: Global) -> Result<Context> {
    let mut context = with_duration(alloc, Duration::from_secs(5))?;
    let key = String::from_str(alloc, "language")?;
    let value = String::from_str(alloc, "de")?;
    context.add(alloc, key, value)?;
    Ok(context)
}

/// Returns a request with this name.
fn request_of(alloc: Global, name: &str) -> Result<HelloRequest> {
    let name = Text::from_str(alloc, name)?;
    Ok(HelloRequest { name })
}

/// Calls `Hello` with this name, and prints the result.
fn greet<R: Host + Print>(
    rt: &R,
    client: &GreeterClient<R>,
    context: Context,
    name: &str,
) -> Result<()> {
    let request = request_of(rt.alloc(), name)?;
    tell(rt, client.hello(context, &request))
}

/// Prints the result of a call.
fn tell<R: Print>(rt: &R, answer: Result<HelloReply>) -> Result<()> {
    let printed = match answer {
        Ok(reply) => println!(rt; "{}", reply.greeting),
        Err(Error::RpcStatus(status)) => {
            let (code, message) = (status.code, status.message);
            println!(rt; "refused with {code}: {message}")
        }
        Err(error) => println!(rt; "failed: {error}"),
    };
    printed.map_err(fault)
}

/// Returns the error of output that failed.
fn fault(error: io::Error) -> Error {
    Error::Nix(error.kind())
}

/// Greets two names at the same time, in two threads, and prints the results.
fn greet_two<R: Runtime + Print>(rt: &R, client: &GreeterClient<R>) -> Result<()> {
    let alloc = rt.alloc();
    let (ada, bob) = (request_of(alloc, "Ada")?, request_of(alloc, "Bob")?);
    let other = client.try_clone()?;
    let (first, second) = thread::join(
        rt,
        || client.hello(Context::new(alloc), &ada),
        || other.hello(Context::new(alloc), &bob),
    );
    tell(rt, first)?;
    tell(rt, second)
}

/// Prints each greeted name with its language, and the number of greetings.
fn tell_visits<R: Host + Print>(rt: &R, client: &GreeterClient<R>) -> Result<()> {
    let visits = client.visits(Context::new(rt.alloc()), &VisitsRequest {})?;
    for visit in visits.languages.as_slice() {
        println!(rt; "{} in {}", visit.key, visit.value).map_err(fault)?;
    }
    println!(rt; "{} greetings", visits.count).map_err(fault)
}

fn main(rt: HostRuntime) -> Result<()> {
    let alloc = rt.alloc();
    // The file of a socket remains when its server ends.
    let _ = fs::remove_file(&rt, PATH);
    let mut server = Server::new(rt.clone()?)?
        .bind(ADDRESS, true)?
        .register_service(methods(alloc)?)?;
    server.start()?;

    let client = GreeterClient {
        client: Client::connect(rt.clone()?, ADDRESS, true)?,
    };
    greet(&rt, &client, Context::new(alloc), "world")?;
    greet(&rt, &client, german(alloc)?, "Welt")?;
    greet(&rt, &client, Context::new(alloc), "")?;
    tell_visits(&rt, &client)?;
    greet_two(&rt, &client)?;

    drop(client);
    server.shutdown();
    let _ = fs::remove_file(&rt, PATH);
    Ok(())
}
