//! The methods and the streams that a server has. A function without an `alloc` argument takes no memory.
ghost use Rattle.std.specs.Prelude.{◌≡◌, ℕ, List, [], string_bytes, OnOk, OnErr};
ghost use Rattle.ttrpc_server.specs.State.{AddsName, AddsService, has_method, has_name, has_service, has_stream, knows, no_services};

use std::alloc::{AllocError, Global};
use std::collections::{BTreeMap, BTreeSet};
use std::marker::Model;
use ttrpc_wire::Text;

/// The methods and the streams of a server's services, each found by ordered search. A service is there if it has a method or a stream, or
/// was added by itself.
#[derive(Drop)]
pub struct Registry {
    methods: Names,
    streams: Names,
    bare_openings: bool,
}

impl Model for Registry {
    ghost use Rattle.ttrpc_server.specs.State.{Services};

    ghost Value = { Services };

    ghost view = { λ a.
        record { methods = a.methods; streams = a.streams; bare_openings = a.bare_openings } };
}

impl Registry {
    /// Returns a registry without services. Takes no memory.
    pub fn new(alloc: Global) -> Registry
        ensures { result ≡ no_services }
    {
        Registry {
            methods: Names::new(alloc),
            streams: Names::new(alloc),
            bare_openings: false,
        }
    }

    /// Adds a service, which may stay without methods and streams. An `Err` changes nothing.
    pub fn add_service(&mut self, alloc: Global, service: Text) -> Result<(), AllocError>
        // At an `Ok` there is this service, with the others. The methods of each service are as before.
        ensures ok { OnOk result (AddsService self.old.methods service self.new.methods) }
        ensures names { (s n : List ℕ)
            → has_name self.new.methods s n ≡ has_name self.old.methods s n }
        // The streams and the setting for bare openings are as they were, and an error changes nothing.
        ensures others { self.new.streams ≡ self.old.streams }
        ensures bare { self.new.bare_openings ≡ self.old.bare_openings }
        ensures err { OnErr result (self.new ≡ self.old) }
    {
        self.methods.add_service(alloc, service.into_string())
    }

    /// Adds a method to a service. An `Err` changes nothing.
    pub fn add_method(
        &mut self,
        alloc: Global,
        service: Text,
        method: Text,
    ) -> Result<(), AllocError>
        // At an `Ok` there is this service with this method, and otherwise the same names as before.
        ensures ok { OnOk result (AddsName self.old.methods service method self.new.methods) }
        ensures service { OnOk result (AddsService self.old.methods service self.new.methods) }
        // The streams and the setting for bare openings are as they were, and an error changes nothing.
        ensures others { self.new.streams ≡ self.old.streams }
        ensures bare { self.new.bare_openings ≡ self.old.bare_openings }
        ensures err { OnErr result (self.new ≡ self.old) }
    {
        self.methods
            .add(alloc, service.into_string(), method.into_string())
    }

    /// Adds a stream to a service. An `Err` changes nothing.
    pub fn add_stream(
        &mut self,
        alloc: Global,
        service: Text,
        stream: Text,
    ) -> Result<(), AllocError>
        // At an `Ok` there is this service with this stream, and otherwise the same names as before.
        ensures ok { OnOk result (AddsName self.old.streams service stream self.new.streams) }
        ensures service { OnOk result (AddsService self.old.streams service self.new.streams) }
        // The methods and the setting for bare openings are as they were, and an error changes nothing.
        ensures others { self.new.methods ≡ self.old.methods }
        ensures bare { self.new.bare_openings ≡ self.old.bare_openings }
        ensures err { OnErr result (self.new ≡ self.old) }
    {
        self.streams
            .add(alloc, service.into_string(), stream.into_string())
    }

    /// Sets whether a bare request that opens a stream brings no item. A bare request states that items follow and has an empty payload,
    /// but lacks the flags for no data and for a close, as peers written in Go send it. By default it brings an empty item, by the letter
    /// of the protocol.
    pub fn set_bare_openings(&mut self, bare: bool)
        ensures { self.new ≡ record self.old { bare_openings = bare } }
    {
        self.bare_openings = bare;
    }

    /// Returns whether a bare request that opens a stream brings no item.
    pub(crate) fn has_bare_openings(&self) -> bool
        ensures { result ≡ self.now.bare_openings }
    {
        self.bare_openings
    }

    /// Returns whether this service has this method.
    pub fn has_method(&self, service: &Text, method: &Text) -> bool
        ensures { result ≡ has_method self.now service.now method.now }
    {
        self.methods.has(service.as_str(), method.as_str())
    }

    /// Returns whether this service is there.
    pub fn has_service(&self, service: &Text) -> bool
        ensures { result ≡ has_service self.now service.now }
    {
        self.methods.knows(service.as_str()) || self.streams.knows(service.as_str())
    }

    /// Returns whether this service has this stream.
    pub fn has_stream(&self, service: &Text, stream: &Text) -> bool
        ensures { result ≡ has_stream self.now service.now stream.now }
    {
        self.streams.has(service.as_str(), stream.as_str())
    }
}

/// Names under the names of services.
#[derive(Drop)]
struct Names {
    services: BTreeMap<String, BTreeSet<String>>,
}

impl Model for Names {
    ghost use Rattle.std.specs.Prelude.{map, string_bytes};
    ghost use Rattle.ttrpc_server.specs.State.{Names as TheNames};

    ghost Value = { TheNames };

    ghost view = { λ a. map
        (λ e. (string_bytes e.0, map string_bytes e.1.keys)) a.services.entries };
}

impl Names {
    /// Returns no names. Takes no memory.
    fn new(alloc: Global) -> Names
        ensures { result ≡ [] }
    {
        Names {
            services: BTreeMap::new(alloc),
        }
    }

    /// Adds a service without names, if it isn't there. An `Err` changes nothing.
    fn add_service(&mut self, alloc: Global, service: String) -> Result<(), AllocError>
        ensures ok { OnOk result (AddsService self.old (string_bytes service) self.new) }
        ensures names { (s n : List ℕ) → has_name self.new s n ≡ has_name self.old s n }
        ensures err { OnErr result (self.new ≡ self.old) }
    {
        if self.services.contains_key(service.as_str()) {
            return Ok(());
        }
        self.services.insert(service, BTreeSet::new(alloc))?;
        Ok(())
    }

    /// Returns whether this service is there.
    fn knows(&self, service: &str) -> bool
        ensures { result ≡ knows self.now service.now }
    {
        self.services.contains_key(service)
    }

    /// Adds a name under a service. An `Err` changes nothing.
    fn add(&mut self, alloc: Global, service: String, name: String) -> Result<(), AllocError>
        ensures ok { OnOk result
            (AddsName self.old (string_bytes service) (string_bytes name) self.new) }
        ensures service { OnOk result (AddsService self.old (string_bytes service) self.new) }
        ensures err { OnErr result (self.new ≡ self.old) }
    {
        if let Some(names) = self.services.get_mut(service.as_str()) {
            names.insert(name)?;
            return Ok(());
        }
        let mut names = BTreeSet::new(alloc);
        names.insert(name)?;
        self.services.insert(service, names)?;
        Ok(())
    }

    /// Returns whether this name is under this service.
    fn has(&self, service: &str, name: &str) -> bool
        ensures { result ≡ has_name self.now service.now name.now }
    {
        match self.services.get(service) {
            Some(names) => names.contains(name),
            None => false,
        }
    }
}
