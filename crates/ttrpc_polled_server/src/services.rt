//! The services of a server.
ghost use Rattle.std.specs.Prelude.{◌≡◌, ℕ, List, [], is_some, string_bytes, IfOk, OnOk};
ghost use Rattle.std.specs.Option.{option_copied};
ghost use Rattle.ttrpc_server.specs.Methods.{handler_of};
ghost use Rattle.ttrpc_server.specs.State.{has_method, has_stream};
ghost use Rattle.ttrpc_polled_server.specs.Served.{ServesAll, ServesOne};

use std::alloc::{AllocError, Global};
use std::collections::{BTreeMap, BTreeSet};
use std::marker::Model;
use ttrpc_server::{Methods, NameKind, Registry};
use ttrpc_wire::Text;

/// The methods and the streams of a service, each under its name.
#[derive(Drop)]
pub struct Service<M: Drop, T: Drop> {
    pub methods: BTreeMap<String, M>,
    pub streams: BTreeMap<String, T>,
}

impl<M: Drop, T: Drop> Service<M, T> {
    /// Makes a service without methods and streams. Takes no memory.
    pub fn new(alloc: Global) -> Service<M, T>
        ensures { (result.methods.entries ≡ []) × (result.streams.entries ≡ []) }
    {
        Service {
            methods: BTreeMap::new(alloc),
            streams: BTreeMap::new(alloc),
        }
    }
}

/// Services, each under its name. Contracts see them as the handlers of their methods and of their streams.
#[derive(Drop)]
pub struct Services<M: Drop, T: Drop> {
    names: BTreeSet<String>,
    methods: Methods<M>,
    streams: Methods<T>,
}

impl<M: Drop, T: Drop> Model for Services<M, T> {
    ghost use Rattle.ttrpc_polled_server.specs.Served.{Served};

    ghost Value = { Served M T };

    ghost view = { λ a. record { methods = a.methods; streams = a.streams } };
}

impl<M: Drop, T: Drop> Services<M, T> {
    /// Makes an empty collection of services. Takes no memory.
    pub fn new(alloc: Global) -> Services<M, T>
        ensures { result ≡ record { methods = []; streams = [] } }
    {
        Services {
            names: BTreeSet::new(alloc),
            methods: Methods::new(alloc),
            streams: Methods::new(alloc),
        }
    }

    /// Adds these services to those that there are. A method or a stream takes the place of an earlier one of its name in its service. At
    /// an `Err` some of them may have been added.
    pub fn add_all(
        &mut self,
        alloc: Global,
        services: BTreeMap<String, Service<M, T>>,
    ) -> Result<(), AllocError>
        ensures ok { OnOk result (ServesAll self.old services.entries self.new) }
    {
        for (name, service) in services {
            self.add(alloc, name, service)?;
        }
        Ok(())
    }

    /// Adds this service. At an `Err` a part of it may have been added.
    fn add(&mut self, alloc: Global, name: String, service: Service<M, T>) -> Result<(), AllocError>
        ensures ok { OnOk result (ServesOne self.old (string_bytes name) service self.new) }
    {
        let Service { methods, streams } = service;
        self.methods.put_all(alloc, name.as_str(), methods)?;
        self.streams.put_all(alloc, name.as_str(), streams)?;
        self.names.insert(name)?;
        Ok(())
    }

    /// Returns the handler of this method, if there is one. Takes no memory.
    pub fn method(&self, service: &str, method: &str) -> Option<&M>
        ensures { option_copied result ≡ handler_of self.now.methods service.now method.now }
    {
        self.methods.get(service, method)
    }

    /// Returns the handler of this stream, if there is one. Takes no memory.
    pub fn stream(&self, service: &str, stream: &str) -> Option<&T>
        ensures { option_copied result ≡ handler_of self.now.streams service.now stream.now }
    {
        self.streams.get(service, stream)
    }

    /// Returns the names of the services, of their methods and of their streams, for a core.
    pub fn registry(&self, alloc: Global) -> Result<Registry, AllocError>
        ensures methods { IfOk result (λ registry. (s m : List ℕ)
            → has_method registry s m ≡ is_some (handler_of self.now.methods s m)) }
        ensures streams { IfOk result (λ registry. (s n : List ℕ)
            → has_stream registry s n ≡ is_some (handler_of self.now.streams s n)) }
    {
        let mut registry = self.methods.registry(alloc)?;
        self.streams
            .name_in(&mut registry, alloc, NameKind::Streams)?;
        self.name_all(&mut registry, alloc)?;
        Ok(registry)
    }

    /// Adds the names of all services to the registry, even of services without methods and streams.
    fn name_all(&self, registry: &mut Registry, alloc: Global) -> Result<(), AllocError>
        ensures methods { (s m : List ℕ)
            → has_method registry.new s m ≡ has_method registry.old s m }
        ensures streams { registry.new.streams ≡ registry.old.streams }
    {
        for name in self.names.iter() {
            registry.add_service(alloc, Text::from_str(alloc, name.as_str())?)?;
        }
        Ok(())
    }
}
