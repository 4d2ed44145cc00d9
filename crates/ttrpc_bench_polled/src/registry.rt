//! The registries of the tests' server cores.
use std::alloc::{AllocError, Global};
use ttrpc_server::Registry;
use ttrpc_wire::Text;

/// Returns the service `demo.Echo` with the method `Echo` and the stream `Chat`.
pub fn registry(alloc: Global) -> Result<Registry, AllocError> {
    registry_of(alloc, &[("Echo", false), ("Chat", true)])
}

/// Returns the service `demo.Echo` as the recorded servers have it.
pub fn recorded_registry(alloc: Global) -> Result<Registry, AllocError> {
    registry_of(
        alloc,
        &[
            ("Echo", false),
            ("Fail", false),
            ("Chat", true),
            ("Last", true),
            ("Sum", true),
            ("Count", true),
            ("ChatFail", true),
            ("SumFail", true),
            ("Early", true),
        ],
    )
}

/// Returns the service `demo.Echo` with these names. A name with true is a stream, and any other is a method.
fn registry_of(alloc: Global, names: &[(&str, bool)]) -> Result<Registry, AllocError> {
    let mut registry = Registry::new(alloc);
    for (name, is_stream) in names.iter() {
        let service = Text::from_str(alloc, "demo.Echo")?;
        let name = Text::from_str(alloc, name)?;
        if *is_stream {
            registry.add_stream(alloc, service, name)?;
        } else {
            registry.add_method(alloc, service, name)?;
        }
    }
    Ok(registry)
}
