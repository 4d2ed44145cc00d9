//! A client's side of a call.
ghost use Rattle.std.specs.Prelude.{◌≡◌, ◌≢◌, ◌≤◌, ◌^◌, ◌-◌, ◌++◌, ◌⊎◌, codes, length, IfErr, IfOk, None, OnErr, OnOk, Some};
ghost use Rattle.ttrpc_message.specs.Metadata.{pairs_of};
ghost use Rattle.ttrpc_message.specs.Calls.{IsUnwritten, TellsCause};

use crate::codec_error_of;
use crate::context::{Context, to_pb};
use std::alloc::Global;
use std::fmt::Display;
use ttrpc_proto::{Error, Request, RequestInit, Result};
use ttrpc_wire::Codec;

/// Makes the request that calls a service's method with this value, and with the context's metadata and time limit. The error is
/// `NoMemory`, or, if the value is too long to be written, `Others` of `Encoding request ` and the text that the codec's error prints.
pub fn request_of<M: Codec>(
    alloc: Global,
    service: &str,
    method: &str,
    context: Context,
    message: &M,
) -> Result<Request>
where
    M::E: Display + Drop,
    ensures ok { IfOk result (λ request. request ≡ record {
      service = service.now;
      method = method.now;
      payload = M.written message.now;
      timeout_nano = context.timeout_nano;
      metadata = pairs_of context.metadata;
    }) }
    ensures again { IfOk result (λ request. M.meaning request.payload ≡ Some message.now) }
    ensures err { IfErr result (IsUnwritten (codes "Encoding request ") M.E.is_no_memory M.E.output
        (M.written message.now)) }
{
    match message.encode(alloc) {
        Ok(payload) => with_payload(alloc, service, method, context, payload),
        Err(error) => Err(codec_error_of(alloc, "Encoding request ", error)),
    }
}

/// Makes the request that calls a service's method with this payload, and with the context's metadata and time limit.
fn with_payload(
    alloc: Global,
    service: &str,
    method: &str,
    context: Context,
    payload: Vec<u8>,
) -> Result<Request>
    ensures ok { IfOk result (λ request. request ≡ record {
      service = service.now;
      method = method.now;
      payload = payload.items;
      timeout_nano = context.timeout_nano;
      metadata = pairs_of context.metadata;
    }) }
    ensures only_memory { IfErr result (λ e. e ≡ Error.NoMemory) }
{
    let Context {
        metadata,
        timeout_nano,
    } = context;
    let mut request = Request::init_request(
        alloc,
        String::from_str(alloc, service)?,
        String::from_str(alloc, method)?,
        timeout_nano,
        to_pb(alloc, metadata)?,
    );
    request.set_payload(payload);
    Ok(request)
}

/// Merges the payload of a response into the value that a client has ready for it. After an error nothing has changed. The error is
/// `NoMemory`, or `Others` of `Unpack get error ` and the text that the codec's error prints. The latter means that the value's written
/// form followed by the payload means no value, or that this written form is too long by itself.
pub fn merge_reply<M: Codec>(alloc: Global, reply: &mut M, payload: &[u8]) -> Result<()>
where
    M::E: Display + Drop,
    ensures ok { OnOk result (M.meaning (M.written reply.old ++ payload.now) ≡ Some reply.new) }
    ensures refused { IfErr result (λ e. e ≢ Error.NoMemory
        → (2 ^ 64 - 1 ≤ length (M.written reply.old))
        ⊎ (M.meaning (M.written reply.old ++ payload.now) ≡ None)) }
    ensures told { IfErr result
        (TellsCause (codes "Unpack get error ") M.E.is_no_memory M.E.output) }
    ensures err { OnErr result (reply.new ≡ reply.old) }
{
    match reply.merge(alloc, payload) {
        Ok(()) => Ok(()),
        Err(error) => Err(codec_error_of(alloc, "Unpack get error ", error)),
    }
}
