//! The construction of a request by the macros.
ghost use Rattle.std.specs.Prelude.{◌≡◌, ℕ, ℤ, List, string_bytes};
ghost use Rattle.ttrpc_proto.specs.declared.messages.KeyValue.{KeyValue as APair};

use crate::messages::{KeyValue, Request};
use std::alloc::Global;
use ttrpc_wire::{Blob, Sequence, Text};

/// A type of requests that are made from their parts.
pub trait RequestInit: Sized {
    // The request with this service, method, timeout and metadata.
    ghost made: { List ℕ → List ℕ → ℤ → List APair → Self };

    // The request with another payload.
    ghost with_payload: { Self → List ℕ → Self };

    /// Returns a request with these parts and no payload. The timeout is in nanoseconds, or 0 for no limit. Takes no
    /// memory.
    fn init_request(
        alloc: Global,
        service: String,
        method: String,
        timeout_nano: i64,
        metadata: Vec<KeyValue>,
    ) -> Self
        ensures { result
            ≡ made (string_bytes service) (string_bytes method) timeout_nano metadata.items };

    /// Replaces the payload. Takes no memory.
    fn set_payload(&mut self, payload: Vec<u8>)
        ensures { self.new ≡ with_payload self.old payload.items };
}

impl RequestInit for Request {
    ghost use Rattle.ttrpc_proto.specs.Messages.{empty_request};

    ghost made = { λ service method timeout_nano metadata. record empty_request {
      service = service;
      method = method;
      timeout_nano = timeout_nano;
      metadata = metadata;
    } };

    ghost with_payload = { λ request payload. record request { payload = payload } };

    fn init_request(
        alloc: Global,
        service: String,
        method: String,
        timeout_nano: i64,
        metadata: Vec<KeyValue>,
    ) -> Request {
        Request {
            service: Text::from_string(service),
            method: Text::from_string(method),
            payload: Blob::new(alloc),
            timeout_nano,
            metadata: Sequence::from_vec(metadata),
        }
    }

    fn set_payload(&mut self, payload: Vec<u8>) {
        self.payload = Blob::from_vec(payload);
    }
}
