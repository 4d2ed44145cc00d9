//! A connection with bytes from its other side, and hooks that read them.
use std::alloc::Global;
use std::io;
use ttrpc_bench::{Giver, Manner, StampIn, StampOut, knowing, rejected};
use ttrpc_proto::Source;
use ttrpc_secure::{AcceptHook, ConnectHook, Datum, HookError, HookOutput, Plain};
use ttrpc_wire::Text;

/// The result of a hook.
type Hooked<O, I> = Result<HookOutput<O, I>, HookError>;

/// A connection with the bytes of its other side, and how they are read.
#[derive(Drop)]
pub struct Line(pub &'static [u8], pub Manner);

/// Returns the first bytes of the other side, at most 8.
fn heard(alloc: Global, line: &Line) -> Result<Vec<u8>, HookError> {
    let mut buffer = [0; 8];
    let mut giver = Giver::new(line.0, line.1);
    let count = giver.read(&mut buffer).map_err(HookError::Io)?;
    Ok(Vec::from_slice(alloc, &buffer[..count])?)
}

/// A hook that rejects a connection without bytes. Otherwise it stores the bytes as `said`, and leaves data as it is.
#[derive(Drop)]
pub struct Listens {}

/// A hook that stamps the payloads of a connection if the other side asks for that.
#[derive(Drop)]
pub struct Agrees {}

impl AcceptHook<Line> for Listens {
    type Outbound = Plain;

    type Inbound = Plain;

    fn on_accept(&self, alloc: Global, stream: &Line) -> Hooked<Plain, Plain> {
        let said = heard(alloc, stream)?;
        if said.is_empty() {
            return Err(rejected(alloc, "nothing said"));
        }
        knowing(alloc, "said", Datum::Bytes(said), Plain {}, Plain {})
    }
}

impl ConnectHook<Line> for Agrees {
    type Outbound = StampOut;

    type Inbound = StampIn;

    fn on_connect(&self, alloc: Global, stream: &Line) -> Hooked<StampOut, StampIn> {
        if heard(alloc, stream)?.as_slice() == b"stamp".as_slice() {
            return Ok(HookOutput::of_halves(alloc, StampOut::new(), StampIn::new()));
        }
        Err(HookError::Other(Text::from_str(alloc, "no stamps")?))
    }
}
