//! The handlers of a server's methods, each under its path: the handlers themselves, and the names that a core needs. No socket and no
//! thread is in here.

ghost use Rattle.std.specs.Prelude.{◌≡◌, ◌⊎◌, ◌&&◌, ◌||◌, ℕ, List, [], codes, is_some, string_bytes, IfErr, IfOk, MatchOption, OnErr, OnOk};
ghost use Rattle.std.specs.BTreeMap.{get_by_text};
ghost use Rattle.std.specs.Option.{option_copied};
ghost use Rattle.std.specs.Str.{bytes_eq};
ghost use Rattle.ttrpc_proto.specs.declared.error.Error.{Error as AnError};
ghost use Rattle.ttrpc_server.specs.State.{AddsName, has_method, has_name};
ghost use Rattle.ttrpc_server.specs.Methods.{Adds, AddsAll, IsNoPath, IsNotAdded, IsNotAllAdded, IsPath, Puts, PutsAll, SomeFront, handler_of, names_in, no_path_text, others_in};

use crate::Registry;
use std::alloc::{AllocError, Global};
use std::collections::BTreeMap;
use std::marker::Model;
use ttrpc_proto::{Error, Result};
use ttrpc_wire::Text;

/// The handlers of methods, each under its service and its name.
#[derive(Drop)]
pub struct Methods<H: Drop> {
    services: BTreeMap<String, BTreeMap<String, H>>,
}

impl<H: Drop> Model for Methods<H> {
    ghost use Rattle.std.specs.Prelude.{map, string_bytes};
    ghost use Rattle.ttrpc_server.specs.Methods.{Handlers};

    ghost Value = { Handlers H };

    ghost view = { λ a. map (λ s.
        (string_bytes s.0, map (λ m. (string_bytes m.0, m.1)) s.1.entries)) a.services.entries };
}

impl<H: Drop> Methods<H> {
    /// Returns a `Methods` without handlers. Takes no memory.
    pub fn new(alloc: Global) -> Methods<H>
        ensures { result ≡ [] }
    {
        Methods {
            services: BTreeMap::new(alloc),
        }
    }

    /// Adds a handler under its path, `/SERVICE/METHOD`, which the last slash divides. The handler replaces an earlier one. A text that
    /// doesn't begin with a slash, or has no other, is no path and is refused as `Others`. An `Err` changes nothing.
    pub fn add(&mut self, alloc: Global, path: &str, handler: H) -> Result<()>
        ensures ok { OnOk result (Adds self.old path.now handler self.new) }
        ensures refused { IfErr result (IsNotAdded path.now) }
        ensures err { OnErr result (self.new ≡ self.old) }
    {
        let Some((service, method)) = parts_of(path) else {
            return Err(no_path_error(alloc, path));
        };
        self.put(alloc, service, method, handler)?;
        Ok(())
    }

    /// Adds these handlers, each under its path, as `add` does. At an `Err` the first of them, by rising path, have been added.
    pub fn add_all(&mut self, alloc: Global, handlers: BTreeMap<String, H>) -> Result<()>
        ensures ok { OnOk result (AddsAll self.old handlers.entries self.new) }
        ensures refused { IfErr result (IsNotAllAdded handlers.entries) }
        ensures err { OnErr result
            (SomeFront handlers.entries (λ front. AddsAll self.old front self.new)) }
    {
        for (path, handler) in handlers {
            self.add(alloc, path.as_str(), handler)?;
        }
        Ok(())
    }

    /// Adds the handlers of a service, each under its name. A handler replaces an earlier one of its name. At an `Err` the first of them,
    /// by rising name, have been added.
    pub fn put_all(
        &mut self,
        alloc: Global,
        service: &str,
        handlers: BTreeMap<String, H>,
    ) -> std::result::Result<(), AllocError>
        ensures ok { OnOk result (PutsAll self.old service.now handlers.entries self.new) }
        ensures err { OnErr result
            (SomeFront handlers.entries (λ front. PutsAll self.old service.now front self.new)) }
    {
        for (name, handler) in handlers {
            self.put(alloc, service, name.as_str(), handler)?;
        }
        Ok(())
    }

    /// Puts a handler under a service and a method. An `Err` changes nothing.
    fn put(
        &mut self,
        alloc: Global,
        service: &str,
        method: &str,
        handler: H,
    ) -> std::result::Result<(), AllocError>
        ensures ok { OnOk result (Puts self.old service.now method.now handler self.new) }
        ensures err { OnErr result (self.new ≡ self.old) }
    {
        let method = String::from_str(alloc, method)?;
        if let Some(methods) = self.services.get_mut(service) {
            methods.insert(method, handler)?;
            return Ok(());
        }
        let mut methods = BTreeMap::new(alloc);
        methods.insert(method, handler)?;
        self.services
            .insert(String::from_str(alloc, service)?, methods)?;
        Ok(())
    }

    /// Returns the handler of this method, if there is one. Takes no memory.
    pub fn get(&self, service: &str, method: &str) -> Option<&H>
        ensures { option_copied result ≡ handler_of self.now service.now method.now }
    {
        self.services.get(service)?.get(method)
    }

    /// Returns the names of the methods, for a core.
    pub fn registry(&self, alloc: Global) -> std::result::Result<Registry, AllocError>
        ensures methods { IfOk result (λ registry. (s m : List ℕ)
            → has_method registry s m ≡ is_some (handler_of self.now s m)) }
        ensures streams { IfOk result (λ registry. registry.streams ≡ []) }
    {
        let mut registry = Registry::new(alloc);
        self.name_in(&mut registry, alloc, NameKind::Methods)?;
        Ok(registry)
    }

    /// Adds these names to those that a core knows, as the names of methods or of streams. At an `Err` some of them may have been added.
    pub fn name_in(
        &self,
        registry: &mut Registry,
        alloc: Global,
        named: NameKind,
    ) -> std::result::Result<(), AllocError>
        ensures names { OnOk result ((s m : List ℕ) → has_name (names_in named registry.new) s m
            ≡ (is_some (handler_of self.now s m) || has_name (names_in named registry.old) s m)) }
        ensures others { others_in named registry.new ≡ others_in named registry.old }
    {
        for (service, methods) in self.services.iter() {
            add_names(registry, alloc, service.as_str(), methods, named)?;
        }
        Ok(())
    }
}

/// The kind of things that names are given to.
#[derive(Clone, Copy, Debug, PartialEq, Eq)]
pub enum NameKind {
    /// Methods.
    Methods,
    /// Streams.
    Streams,
}

/// Adds these names to a service of the registry. The other names stay as they are.
fn add_names<H>(
    registry: &mut Registry,
    alloc: Global,
    service: &str,
    names: &BTreeMap<String, H>,
    named: NameKind,
) -> std::result::Result<(), AllocError>
    ensures names { OnOk result ((s m : List ℕ) → has_name (names_in named registry.new) s m
        ≡ ((bytes_eq s service.now && is_some (get_by_text names.now m))
        || has_name (names_in named registry.old) s m)) }
    ensures others { others_in named registry.new ≡ others_in named registry.old }
{
    for (name, _) in names.iter() {
        let service = Text::from_str(alloc, service)?;
        add_name(
            registry,
            alloc,
            service,
            Text::from_str(alloc, name.as_str())?,
            named,
        )?;
    }
    Ok(())
}

/// Adds a name to a service of the registry. An `Err` changes nothing.
fn add_name(
    registry: &mut Registry,
    alloc: Global,
    service: Text,
    name: Text,
    named: NameKind,
) -> std::result::Result<(), AllocError>
    ensures name { OnOk result
        (AddsName (names_in named registry.old) service name (names_in named registry.new)) }
    ensures others { others_in named registry.new ≡ others_in named registry.old }
    ensures err { OnErr result (registry.new ≡ registry.old) }
{
    match named {
        NameKind::Methods => registry.add_method(alloc, service, name),
        NameKind::Streams => registry.add_stream(alloc, service, name),
    }
}

/// Returns the service and the method of a path, if the text is one. The method has no slash.
fn parts_of(path: &str) -> Option<(&str, &str)>
    ensures { MatchOption result (IsNoPath path.now)
        (λ parts. IsPath path.now parts.0.now parts.1.now) }
{
    path.strip_prefix('/')?.rsplit_once('/')
}

/// Returns the error for a text that is no path, or `NoMemory` if memory for its text was refused.
fn no_path_error(alloc: Global, path: &str) -> Error
    ensures { (result ≡ AnError.Others (no_path_text path.now)) ⊎ (result ≡ AnError.NoMemory) }
{
    match format!(in alloc; "method path {path} is not /SERVICE/METHOD") {
        Ok(text) => Error::Others(Text::from_string(text)),
        Err(_) => Error::NoMemory,
    }
}
