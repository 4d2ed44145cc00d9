//! A call of `Echo`, and the check of its response.
ghost use Rattle.std.specs.Prelude.{◌≡◌, ◌≢◌, [], codes, pos, IfOk, OnErr, OnOk};

use std::alloc::Global;
use ttrpc_proto::{Error, Request, Result};
use ttrpc_wire::{Blob, Sequence, Text};

/// Returns a request of `Echo` with this payload.
pub fn request_of(alloc: Global, payload: &[u8]) -> Result<Request>
    ensures { IfOk result (λ request. request ≡ record {
      service = codes "demo.Echo";
      method = codes "Echo";
      payload = payload.now;
      timeout_nano = pos 0;
      metadata = [];
    }) }
{
    Ok(Request {
        service: Text::from_str(alloc, "demo.Echo")?,
        method: Text::from_str(alloc, "Echo")?,
        payload: Blob::from_slice(alloc, payload)?,
        timeout_nano: 0,
        metadata: Sequence::new(alloc),
    })
}

/// Returns an error if the answer differs from the payload.
pub fn same(alloc: Global, answer: &[u8], payload: &[u8]) -> Result<()>
    ensures ok { OnOk result (answer.now ≡ payload.now) }
    ensures err { OnErr result (answer.now ≢ payload.now) }
{
    if answer == payload {
        return Ok(());
    }
    Err(Error::Others(Text::from_str(alloc, "an answer differs from what was sent")?))
}
