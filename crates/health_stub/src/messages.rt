//! The messages of health.proto.
//! Written by tools/messages from health.proto: change that, and run the tool.

use std::alloc::{AllocError, Global};
use ttrpc_members::item::{Int32, Utf8};
use ttrpc_members::kind::{MemberKind, Single};
use ttrpc_members::named::Named;
use ttrpc_wire::codec::message::WireMessage;
use ttrpc_wire::{CodecError, Field, FieldNumber, Text, TryClone};

/// Whose health is asked for.
#[derive(Drop)]
pub struct HealthCheckRequest {
    /// Field 1.
    pub service: Text,
}

const HEALTH_CHECK_REQUEST_SERVICE: FieldNumber = FieldNumber { value: 1 };

impl TryClone for HealthCheckRequest {
    fn try_clone(&self) -> Result<HealthCheckRequest, AllocError> {
        let service = Single::<Utf8>::try_clone(&self.service)?;
        Ok(HealthCheckRequest { service })
    }
}

impl WireMessage for HealthCheckRequest {
    ghost use Rattle.health_stub.specs.Messages.{health_check_request};

    ghost is_value = { health_check_request.part.is_value };

    ghost empty = { health_check_request.part.empty };

    ghost step = { health_check_request.part.step };

    ghost fields = { health_check_request.part.fields };

    fn new(alloc: Global) -> HealthCheckRequest {
        HealthCheckRequest {
            service: Single::<Utf8>::empty(alloc),
        }
    }

    fn put(&mut self, alloc: Global, field: Field<'_>) -> Result<(), CodecError> {
        match field.number.value {
            1 => Single::<Utf8>::take(&mut self.service, alloc, field.value),
            _ => Ok(()),
        }
    }

    #[tactic(auto, using(ttrpc_members::proofs::Groups::flat_measured))]
    fn length(&self) -> u64 {
        let len: u64 = 0;
        len.saturating_add(Single::<Utf8>::length(&self.service, HEALTH_CHECK_REQUEST_SERVICE))
    }

    #[tactic(auto, using(ttrpc_members::proofs::Groups::flat_written, ttrpc_members::proofs::Groups::flat_len))]
    fn write(&self, out: &mut Vec<u8>) -> Result<(), CodecError> {
        Single::<Utf8>::write(&self.service, HEALTH_CHECK_REQUEST_SERVICE, out)
    }

    fn lemma_is_value(&self) {
        Single::<Utf8>::lemma_is_value(&self.service);
    }

    ghost again = { health_check_request.laws.again health_check_request.valid };

    ghost fits = { health_check_request.laws.fits health_check_request.valid };
}

impl Named for HealthCheckRequest {
    ghost use Rattle.std.specs.Prelude.{codes};

    ghost full_name = { codes "demo.HealthCheckRequest" };

    fn full_name() -> &'static str {
        "demo.HealthCheckRequest"
    }
}

/// How a service is.
#[derive(Drop)]
pub struct HealthCheckResponse {
    /// 0 unknown, 1 serving, 2 not serving.
    pub status: i32,
}

const HEALTH_CHECK_RESPONSE_STATUS: FieldNumber = FieldNumber { value: 1 };

impl TryClone for HealthCheckResponse {
    fn try_clone(&self) -> Result<HealthCheckResponse, AllocError> {
        Ok(HealthCheckResponse {
            status: self.status,
        })
    }
}

impl WireMessage for HealthCheckResponse {
    ghost use Rattle.health_stub.specs.Messages.{health_check_response};

    ghost is_value = { health_check_response.part.is_value };

    ghost empty = { health_check_response.part.empty };

    ghost step = { health_check_response.part.step };

    ghost fields = { health_check_response.part.fields };

    fn new(alloc: Global) -> HealthCheckResponse {
        HealthCheckResponse {
            status: Single::<Int32>::empty(alloc),
        }
    }

    fn put(&mut self, alloc: Global, field: Field<'_>) -> Result<(), CodecError> {
        match field.number.value {
            1 => Single::<Int32>::take(&mut self.status, alloc, field.value),
            _ => Ok(()),
        }
    }

    #[tactic(auto, using(ttrpc_members::proofs::Groups::flat_measured))]
    fn length(&self) -> u64 {
        let len: u64 = 0;
        len.saturating_add(Single::<Int32>::length(&self.status, HEALTH_CHECK_RESPONSE_STATUS))
    }

    #[tactic(auto, using(ttrpc_members::proofs::Groups::flat_written, ttrpc_members::proofs::Groups::flat_len))]
    fn write(&self, out: &mut Vec<u8>) -> Result<(), CodecError> {
        Single::<Int32>::write(&self.status, HEALTH_CHECK_RESPONSE_STATUS, out)
    }

    fn lemma_is_value(&self) {
        Single::<Int32>::lemma_is_value(&self.status);
    }

    ghost again = { health_check_response.laws.again health_check_response.valid };

    ghost fits = { health_check_response.laws.fits health_check_response.valid };
}

impl Named for HealthCheckResponse {
    ghost use Rattle.std.specs.Prelude.{codes};

    ghost full_name = { codes "demo.HealthCheckResponse" };

    fn full_name() -> &'static str {
        "demo.HealthCheckResponse"
    }
}
