//! The construction of a response by the macros.
ghost use Rattle.std.specs.Prelude.{◌≡◌, ℕ, List, Option, IfOk, Some};
ghost use Rattle.ttrpc_proto.specs.declared.messages.Status.{Status as AStatus};

use crate::messages::{Response, Status};
use std::alloc::{AllocError, Global};
use ttrpc_wire::{Blob, TryClone};

/// A type of responses that are made from a status.
pub trait ResponseInit: Sized {
    // The response with this status.
    ghost made: { AStatus → Self };

    // The response with another payload.
    ghost with_payload: { Self → List ℕ → Self };

    // The response with another status.
    ghost with_status: { Self → AStatus → Self };

    // The status, if there is one and its code isn't 0.
    ghost refusal: { Self → Option AStatus };

    /// Returns a response with this status and no payload. Takes no memory.
    fn init_status(alloc: Global, status: Status) -> Self
        ensures { result ≡ made status };

    /// Replaces the payload. Takes no memory.
    fn set_payload(&mut self, payload: Vec<u8>)
        ensures { self.new ≡ with_payload self.old payload.items };

    /// Replaces the status. Takes no memory.
    fn set_status(&mut self, status: Status)
        ensures { self.new ≡ with_status self.old status };

    /// Returns a copy of the status, if there is one and its code isn't 0.
    fn non_ok(&self) -> Result<Option<Status>, AllocError>
        ensures { IfOk result (λ status. status ≡ refusal self.now) };
}

impl ResponseInit for Response {
    ghost use Rattle.ttrpc_proto.specs.Messages.{empty_response, non_ok_of};

    ghost made = { λ status. record empty_response { status = Some status } };

    ghost with_payload = { λ response payload. record response { payload = payload } };

    ghost with_status = { λ response status. record response { status = Some status } };

    ghost refusal = { λ response. non_ok_of response.status };

    fn init_status(alloc: Global, status: Status) -> Response {
        Response {
            status: Some(status),
            payload: Blob::new(alloc),
        }
    }

    fn set_payload(&mut self, payload: Vec<u8>) {
        self.payload = Blob::from_vec(payload);
    }

    fn set_status(&mut self, status: Status) {
        self.status = Some(status);
    }

    fn non_ok(&self) -> Result<Option<Status>, AllocError> {
        match &self.status {
            Some(status) if status.code != 0 => Ok(Some(status.try_clone()?)),
            _ => Ok(None),
        }
    }
}
