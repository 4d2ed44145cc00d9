//! The written form of a message in three parts, without a copy of the payload.
ghost use Rattle.std.specs.Prelude.{◌≡◌, ◌++◌};
ghost use Rattle.ttrpc_secure.specs.Sends.{joined};

use ttrpc_secure::sending::DataParts;
use ttrpc_wire::codec::in_place::{Around, CarriesPayload};

/// Returns the written form of a message, with its payload borrowed and the bytes written around the payload. Takes no memory.
pub fn parts_of<'a, M: CarriesPayload>(message: &'a M, around: &'a Around) -> DataParts<'a>
    ensures { joined result ≡ around.now.before ++ (M.payload_of message.now ++ around.now.after) }
{
    DataParts {
        before: around.before(),
        payload: message.payload(),
        after: around.after(),
    }
}
