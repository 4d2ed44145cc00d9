//! The services of a test's server, its requests and its answers. Each string of bytes has a name, so that a proof
//! needn't read it.
use std::alloc::{AllocError, Global};
use ttrpc_server::Registry;
use ttrpc_wire::Text;

/// Returns the registry of the services `demo.Echo` and `demo.None`. `demo.Echo` has the methods `Echo` and `Ping` and
/// the stream `Chat`, and `Echo` is the name of a stream, too. `demo.None` has neither methods nor streams.
pub fn registry(alloc: Global) -> Result<Registry, AllocError> {
    let mut registry = Registry::new(alloc);
    fill(alloc, &mut registry)?;
    Ok(registry)
}

fn fill(alloc: Global, registry: &mut Registry) -> Result<(), AllocError> {
    registry.add_method(alloc, text(alloc, "demo.Echo")?, text(alloc, "Echo")?)?;
    registry.add_method(alloc, text(alloc, "demo.Echo")?, text(alloc, "Ping")?)?;
    registry.add_stream(alloc, text(alloc, "demo.Echo")?, text(alloc, "Chat")?)?;
    registry.add_stream(alloc, text(alloc, "demo.Echo")?, text(alloc, "Echo")?)?;
    registry.add_service(alloc, text(alloc, "demo.None")?)
}

fn text(alloc: Global, name: &str) -> Result<Text, AllocError> {
    Text::from_str(alloc, name)
}

/// A request of stream 1 to `Echo` with the payload 2a.
pub const ASKED: &[u8] = b"\0\0\0\x14\0\0\0\x01\x01\0\x0a\x09demo.Echo\x12\x04Echo\x1a\x01\x2a";
/// The answer to `ASKED`: an OK status and the same payload.
pub const ECHOED: &[u8] = b"\0\0\0\x05\0\0\0\x01\x02\0\x0a\0\x12\x01\x2a";

/// A request with no payload.
pub const EMPTY: &[u8] = b"\0\0\0\x11\0\0\0\x01\x01\0\x0a\x09demo.Echo\x12\x04Echo";
/// A request with no payload, and all flags.
pub const FLAGGED: &[u8] = b"\0\0\0\x11\0\0\0\x01\x01\x07\x0a\x09demo.Echo\x12\x04Echo";
/// The answer to `EMPTY` and to `FLAGGED`: an OK status alone.
pub const EMPTY_ECHOED: &[u8] = b"\0\0\0\x02\0\0\0\x01\x02\0\x0a\0";

/// Two requests under one id.
pub const TWICE: &[u8] = b"\
    \0\0\0\x14\0\0\0\x01\x01\0\x0a\x09demo.Echo\x12\x04Echo\x1a\x01\x2a\
    \0\0\0\x14\0\0\0\x01\x01\0\x0a\x09demo.Echo\x12\x04Echo\x1a\x01\x2b";

/// A request of stream 2 to an unknown service.
pub const NO_SERVICE: &[u8] = b"\0\0\0\x06\0\0\0\x02\x01\0\x0a\x01x\x12\x01y";
/// The answer to `NO_SERVICE`.
pub const NO_SERVICE_ANSWER: &[u8] = b"\
    \0\0\0\x19\0\0\0\x02\x02\0\x0a\x17\x08\x03\x12\x13/x/y does not exist";

/// A request to an unknown method.
pub const NO_METHOD: &[u8] = b"\0\0\0\x11\0\0\0\x01\x01\0\x0a\x09demo.Echo\x12\x04Nope";
/// The answer to `NO_METHOD`.
pub const NO_METHOD_ANSWER: &[u8] = b"\
    \0\0\0\x24\0\0\0\x01\x02\0\x0a\x22\x08\x03\x12\x1e/demo.Echo/Nope does not exist";

/// The answer to a request of a stream under sync rules, which have no streams.
pub const NO_STREAM_ANSWER: &[u8] = b"\
    \0\0\0\x24\0\0\0\x01\x02\0\x0a\x22\x08\x03\x12\x1e/demo.Echo/Chat does not exist";

/// A request with a length that runs past its end.
pub const UNREADABLE: &[u8] = b"\0\0\0\x03\0\0\0\x01\x01\0\x0a\x05a";

/// The header of a frame of stream 5 that is one byte too long.
pub const OVERSIZED: &[u8] = b"\0\x40\0\x01\0\0\0\x05\x01\0";
/// The answer to `OVERSIZED`, and then the one to `ASKED`.
pub const OVERSIZED_ANSWER: &[u8] = b"\
    \0\0\0\x43\0\0\0\x05\x02\0\
    \x0a\x41\x08\x03\x12\x3dmessage length 4194305 exceed maximum message size of 4194304\
    \0\0\0\x05\0\0\0\x01\x02\0\x0a\0\x12\x01\x2a";

/// The front of the greatest response.
pub const GREATEST: &[u8] = b"\0\x40\0\0\0\0\0\x01\x02\0\x0a\0\x12\xf9\xff\xff";
