//! A store of values under keys, and a client that calls it: both in this process, with a socket at a path between them.
#![tactic(auto)]

mod messages;
mod service;

use crate::messages::{Entry, GetRequest, GetResponse, PutResponse};
use crate::service::{Store, StoreClient, store_methods};
use std::collections::BTreeMap;
use std::fs;
use std::sync::Mutex;
use ttrpc::context::Context;
use ttrpc::proto::{Blob, Text, TryClone};
use ttrpc::security_extension::Plain;
use ttrpc::sync::Host;
use ttrpc::{Client, Error, Result, Server, TtrpcContext};

const ADDRESS: &str = "unix://store.sock";

/// The entries, each under its key.
#[derive(Drop)]
struct Shelf {
    entries: Mutex<BTreeMap<String, Entry>>,
}

impl<R: Host> Store<R> for Shelf {
    fn get(&self, ctx: &TtrpcContext<R, Plain, Plain>, request: GetRequest) -> Result<GetResponse> {
        let entry = match self.entries.lock(ctx.rt()).get(request.key.as_str()) {
            Some(entry) => Some(entry.try_clone()?),
            None => None,
        };
        Ok(GetResponse { entry })
    }

    fn put(&self, ctx: &TtrpcContext<R, Plain, Plain>, mut request: Entry) -> Result<PutResponse> {
        let key = String::from_str(ctx.alloc(), request.key.as_str())?;
        let mut entries = self.entries.lock(ctx.rt());
        let earlier = entries.get(key.as_str()).map_or(0, |entry| entry.version);
        let version = earlier.saturating_add(1);
        request.version = version;
        entries.insert(key, request)?;
        Ok(PutResponse { version })
    }
}

/// Puts a value under a key, and prints the key's version and value.
fn put<R: Host + Print>(rt: &R, client: &StoreClient<R>, key: &str, value: &[u8]) -> Result<()> {
    let alloc = rt.alloc();
    let entry = Entry {
        key: Text::from_str(alloc, key)?,
        value: Blob::from_slice(alloc, value)?,
        version: 0,
    };
    let version = client.put(Context::new(alloc), &entry)?.version;
    let key = entry.key;
    let reply = client.get(Context::new(alloc), &GetRequest { key })?;
    let len = reply.entry.map_or(0, |entry| entry.value.len());
    println!(rt; "version {version}, {len} bytes").map_err(|error| Error::Nix(error.kind()))
}

fn main(rt: HostRuntime) -> Result<()> {
    let _ = fs::remove_file(&rt, "store.sock");
    let entries = Mutex::new(BTreeMap::new(rt.alloc()));
    let mut server = Server::new(rt.clone()?)?
        .bind(ADDRESS, true)?
        .register_service(store_methods(rt.alloc(), Shelf { entries })?)?;
    server.start()?;
    let client = StoreClient {
        client: Client::connect(rt.clone()?, ADDRESS, true)?,
    };
    put(&rt, &client, "name", b"Ada")?;
    put(&rt, &client, "name", b"Grace")?;
    drop(client);
    server.shutdown();
    let _ = fs::remove_file(&rt, "store.sock");
    Ok(())
}
