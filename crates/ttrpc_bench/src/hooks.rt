//! Hooks of either side, over any stream, and the functions that other hooks use.
ghost use Rattle.std.specs.Prelude.{◌≡◌, ◌⊎◌, IfOk};
ghost use Rattle.std.specs.IoError.{error_kind};
ghost use Rattle.std.specs.declared.io.Error.{Error as IoError};

use crate::stamp::{StampIn, StampOut};
use std::alloc::Global;
use std::io::{self, ErrorKind};
use ttrpc_secure::{AcceptHook, ConnectHook, Datum, HookError, HookOutput};
use ttrpc_wire::Text;

type Stamped = Result<HookOutput<StampOut, StampIn>, HookError>;

/// Returns the error of a hook that was refused memory.
pub fn no_memory<E: Drop>(_refused: E) -> HookError
    ensures { (e : IoError) × (result ≡ HookError.Io e) × (error_kind e ≡ ErrorKind.OutOfMemory) }
{
    HookError::Io(io::Error::from(ErrorKind::OutOfMemory))
}

/// Returns the error of a hook that rejects a connection for this reason, or that of refused memory.
pub fn rejected(alloc: Global, reason: &str) -> HookError
    ensures { (result ≡ HookError.Rejected reason.now)
        ⊎ ((e : IoError) × (result ≡ HookError.Io e)) }
{
    match Text::from_str(alloc, reason) {
        Ok(reason) => HookError::Rejected(reason),
        Err(error) => no_memory(error),
    }
}

/// Returns a hook's output: these halves, and this datum of the connection under this name.
pub fn knowing<O: Drop, I: Drop>(
    alloc: Global,
    name: &str,
    datum: Datum,
    outbound: O,
    inbound: I,
) -> Result<HookOutput<O, I>, HookError>
    ensures outbound { IfOk result (λ output. output.outbound ≡ outbound) }
    ensures inbound { IfOk result (λ output. output.inbound ≡ inbound) }
{
    let mut output = HookOutput::of_halves(alloc, outbound, inbound);
    let name = String::from_str(alloc, name).map_err(no_memory)?;
    output
        .connection_data
        .insert(name, datum)
        .map_err(no_memory)?;
    Ok(output)
}

/// A hook that rejects each connection.
#[derive(Drop)]
pub struct Rejects {}

impl<S> AcceptHook<S> for Rejects {
    type Outbound = StampOut;

    type Inbound = StampIn;

    fn on_accept(&self, alloc: Global, _stream: &S) -> Stamped {
        Err(rejected(alloc, "no"))
    }
}

impl<S> ConnectHook<S> for Rejects {
    type Outbound = StampOut;

    type Inbound = StampIn;

    fn on_connect(&self, alloc: Global, _stream: &S) -> Stamped {
        Err(rejected(alloc, "no"))
    }
}

/// A hook that gives a connection halves that stamp, and the datum `name`.
#[derive(Drop)]
pub struct Stamps {
    pub name: &'static str,
}

impl Stamps {
    fn output(&self, alloc: Global) -> Stamped {
        let name = String::from_str(alloc, self.name).map_err(no_memory)?;
        knowing(
            alloc,
            "name",
            Datum::Text(name),
            StampOut::new(),
            StampIn::new(),
        )
    }
}

impl<S> AcceptHook<S> for Stamps {
    type Outbound = StampOut;

    type Inbound = StampIn;

    fn on_accept(&self, alloc: Global, _stream: &S) -> Stamped {
        self.output(alloc)
    }
}

impl<S> ConnectHook<S> for Stamps {
    type Outbound = StampOut;

    type Inbound = StampIn;

    fn on_connect(&self, alloc: Global, _stream: &S) -> Stamped {
        self.output(alloc)
    }
}
