//! The messages of an envelope: the request and the response, and the messages that they have as members.
ghost use Rattle.std.specs.Prelude.{◌≡◌, ◌≢◌, ◌≤◌, ◌^◌, ◌++◌, length, OnOk, IfErr};
ghost use Rattle.ttrpc_wire.specs.Field.{fields_bytes};
ghost use Rattle.ttrpc_proto.specs.Messages.{request_before, request_head, request_tail, request_texts};

use std::alloc::{AllocError, Global};
use ttrpc_wire::codec::in_place::CarriesPayload;
use ttrpc_wire::codec::members::{
    delimited_len, lemma_are_values, number_len, part_len, parts_len, put_delimited, put_number,
    put_part, put_parts, put_payload_head, text_from,
};
use ttrpc_wire::codec::message::{WireMessage, decode, read_into};
use ttrpc_wire::{
    Blob, Code, CodecError, Field, FieldNumber, Sequence, Text, TryClone, Value, int32_to_varint,
    int64_to_varint, varint_to_int32, varint_to_int64,
};

/// The bytes of some message, under the name of its type.
#[derive(Debug, Drop, PartialEq, Eq)]
pub struct Any {
    pub type_url: Text,
    pub value: Blob,
}

const ANY_TYPE_URL: FieldNumber = FieldNumber { value: 1 };

const ANY_VALUE: FieldNumber = FieldNumber { value: 2 };

impl TryClone for Any {
    fn try_clone(&self) -> Result<Any, AllocError> {
        Ok(Any {
            type_url: self.type_url.try_clone()?,
            value: self.value.try_clone()?,
        })
    }
}

impl WireMessage for Any {
    ghost use Rattle.ttrpc_proto.specs.Messages.{IsAny, empty_any, any_step, any_fields};
    ghost use Rattle.ttrpc_proto.specs.Laws.{any_again, any_fits};

    ghost is_value = { IsAny };

    ghost empty = { empty_any };

    ghost step = { any_step };

    ghost fields = { any_fields };

    fn new(alloc: Global) -> Any {
        Any {
            type_url: Text::new(alloc),
            value: Blob::new(alloc),
        }
    }

    fn put(&mut self, alloc: Global, field: Field<'_>) -> Result<(), CodecError> {
        match (field.number.value, field.value) {
            (1, Value::LengthDelimited(bytes)) => self.type_url = text_from(alloc, bytes)?,
            (2, Value::LengthDelimited(bytes)) => self.value = Blob::from_slice(alloc, bytes)?,
            _ => {}
        }
        Ok(())
    }

    #[tactic(auto, using(ttrpc_wire::proofs::Written::fields_len))]
    fn length(&self) -> u64 {
        let type_url = delimited_len(ANY_TYPE_URL, self.type_url.as_bytes());
        type_url.saturating_add(delimited_len(ANY_VALUE, self.value.as_slice()))
    }

    #[tactic(auto, using(ttrpc_wire::proofs::Written::fields_then))]
    fn write(&self, out: &mut Vec<u8>) -> Result<(), CodecError> {
        put_delimited(out, ANY_TYPE_URL, self.type_url.as_bytes())?;
        put_delimited(out, ANY_VALUE, self.value.as_slice())?;
        Ok(())
    }

    fn lemma_is_value(&self) {
        let _ = self.type_url.as_bytes();
    }

    ghost again = { any_again };

    ghost fits = { λ m _. any_fits m };
}

/// A key and its value, in a request's metadata.
#[derive(Debug, Drop, PartialEq, Eq)]
pub struct KeyValue {
    pub key: Text,
    pub value: Text,
}

const KEY_VALUE_KEY: FieldNumber = FieldNumber { value: 1 };

const KEY_VALUE_VALUE: FieldNumber = FieldNumber { value: 2 };

impl TryClone for KeyValue {
    fn try_clone(&self) -> Result<KeyValue, AllocError> {
        Ok(KeyValue {
            key: self.key.try_clone()?,
            value: self.value.try_clone()?,
        })
    }
}

impl WireMessage for KeyValue {
    ghost use Rattle.ttrpc_proto.specs.Messages.{IsKeyValue, empty_key_value, key_value_step, key_value_fields};
    ghost use Rattle.ttrpc_proto.specs.Laws.{key_value_again, key_value_fits};

    ghost is_value = { IsKeyValue };

    ghost empty = { empty_key_value };

    ghost step = { key_value_step };

    ghost fields = { key_value_fields };

    fn new(alloc: Global) -> KeyValue {
        KeyValue {
            key: Text::new(alloc),
            value: Text::new(alloc),
        }
    }

    fn put(&mut self, alloc: Global, field: Field<'_>) -> Result<(), CodecError> {
        match (field.number.value, field.value) {
            (1, Value::LengthDelimited(bytes)) => self.key = text_from(alloc, bytes)?,
            (2, Value::LengthDelimited(bytes)) => self.value = text_from(alloc, bytes)?,
            _ => {}
        }
        Ok(())
    }

    #[tactic(auto, using(ttrpc_wire::proofs::Written::fields_len))]
    fn length(&self) -> u64 {
        delimited_len(KEY_VALUE_KEY, self.key.as_bytes()).saturating_add(delimited_len(
            KEY_VALUE_VALUE,
            self.value.as_bytes(),
        ))
    }

    #[tactic(auto, using(ttrpc_wire::proofs::Written::fields_then))]
    fn write(&self, out: &mut Vec<u8>) -> Result<(), CodecError> {
        put_delimited(out, KEY_VALUE_KEY, self.key.as_bytes())?;
        put_delimited(out, KEY_VALUE_VALUE, self.value.as_bytes())?;
        Ok(())
    }

    fn lemma_is_value(&self) {
        let _ = self.key.as_bytes();
        let _ = self.value.as_bytes();
    }

    ghost again = { key_value_again };

    ghost fits = { λ m _. key_value_fits m };
}

/// How a call ended.
#[derive(Debug, Drop, PartialEq, Eq)]
pub struct Status {
    pub code: i32,
    pub message: Text,
    pub details: Sequence<Any>,
}

const STATUS_CODE: FieldNumber = FieldNumber { value: 1 };

const STATUS_MESSAGE: FieldNumber = FieldNumber { value: 2 };

const STATUS_DETAILS: FieldNumber = FieldNumber { value: 3 };

impl Status {
    ghost use Rattle.ttrpc_wire.specs.Code.{code_of_number};

    /// Returns the code of the status's number, or `UNKNOWN` if no code has this number.
    pub fn code(&self) -> Code
        ensures { result ≡ code_of_number self.now.code }
    {
        match self.code {
            0 => Code::OK,
            1 => Code::CANCELLED,
            2 => Code::UNKNOWN,
            3 => Code::INVALID_ARGUMENT,
            4 => Code::DEADLINE_EXCEEDED,
            5 => Code::NOT_FOUND,
            6 => Code::ALREADY_EXISTS,
            7 => Code::PERMISSION_DENIED,
            8 => Code::RESOURCE_EXHAUSTED,
            9 => Code::FAILED_PRECONDITION,
            10 => Code::ABORTED,
            11 => Code::OUT_OF_RANGE,
            12 => Code::UNIMPLEMENTED,
            13 => Code::INTERNAL,
            14 => Code::UNAVAILABLE,
            15 => Code::DATA_LOSS,
            16 => Code::UNAUTHENTICATED,
            _ => Code::UNKNOWN,
        }
    }
}

impl TryClone for Status {
    fn try_clone(&self) -> Result<Status, AllocError> {
        Ok(Status {
            code: self.code,
            message: self.message.try_clone()?,
            details: self.details.try_clone()?,
        })
    }
}

impl WireMessage for Status {
    ghost use Rattle.ttrpc_proto.specs.Messages.{IsStatus, empty_status, status_step, status_fields};
    ghost use Rattle.ttrpc_proto.specs.Laws.{status_again, status_fits};

    ghost is_value = { IsStatus };

    ghost empty = { empty_status };

    ghost step = { status_step };

    ghost fields = { status_fields };

    fn new(alloc: Global) -> Status {
        Status {
            code: 0,
            message: Text::new(alloc),
            details: Sequence::new(alloc),
        }
    }

    fn put(&mut self, alloc: Global, field: Field<'_>) -> Result<(), CodecError> {
        match (field.number.value, field.value) {
            (1, Value::Varint(n)) => self.code = varint_to_int32(n),
            (2, Value::LengthDelimited(bytes)) => self.message = text_from(alloc, bytes)?,
            (3, Value::LengthDelimited(bytes)) => {
                let any: Any = decode(alloc, bytes)?;
                self.details.push(any)?;
            }
            _ => {}
        }
        Ok(())
    }

    #[tactic(auto, using(ttrpc_wire::proofs::Written::fields_len))]
    fn length(&self) -> u64 {
        number_len(STATUS_CODE, int32_to_varint(self.code))
            .saturating_add(delimited_len(STATUS_MESSAGE, self.message.as_bytes()))
            .saturating_add(parts_len(STATUS_DETAILS, self.details.as_slice()))
    }

    #[tactic(auto, using(ttrpc_wire::proofs::Written::fields_then, ttrpc_wire::proofs::Written::fields_len))]
    fn write(&self, out: &mut Vec<u8>) -> Result<(), CodecError> {
        put_number(out, STATUS_CODE, int32_to_varint(self.code))?;
        put_delimited(out, STATUS_MESSAGE, self.message.as_bytes())?;
        put_parts(out, STATUS_DETAILS, self.details.as_slice())
    }

    fn lemma_is_value(&self) {
        let _code = self.code;
        let _ = self.message.as_bytes();
        lemma_are_values(self.details.as_slice());
    }

    ghost again = { status_again };

    ghost fits = { status_fits };
}

/// A request to a service's method.
#[derive(Debug, Drop, PartialEq, Eq)]
pub struct Request {
    pub service: Text,
    pub method: Text,
    pub payload: Blob,
    /// The time that the call may take, in nanoseconds, or 0 for no limit.
    pub timeout_nano: i64,
    pub metadata: Sequence<KeyValue>,
}

const REQUEST_SERVICE: FieldNumber = FieldNumber { value: 1 };

const REQUEST_METHOD: FieldNumber = FieldNumber { value: 2 };

const REQUEST_PAYLOAD: FieldNumber = FieldNumber { value: 3 };

const REQUEST_TIMEOUT_NANO: FieldNumber = FieldNumber { value: 4 };

const REQUEST_METADATA: FieldNumber = FieldNumber { value: 5 };

impl TryClone for Request {
    fn try_clone(&self) -> Result<Request, AllocError> {
        Ok(Request {
            service: self.service.try_clone()?,
            method: self.method.try_clone()?,
            payload: self.payload.try_clone()?,
            timeout_nano: self.timeout_nano,
            metadata: self.metadata.try_clone()?,
        })
    }
}

/// Writes the service and the method.
#[tactic(auto, using(ttrpc_wire::proofs::Written::fields_then))]
fn put_texts(out: &mut Vec<u8>, request: &Request) -> Result<(), AllocError>
    ensures { OnOk result
        (out.new.items ≡ out.old.items ++ fields_bytes (request_texts request.now)) }
{
    put_delimited(out, REQUEST_SERVICE, request.service.as_bytes())?;
    put_delimited(out, REQUEST_METHOD, request.method.as_bytes())
}

/// Writes the service, the method and the payload.
#[tactic(auto, using(ttrpc_wire::proofs::Written::fields_then))]
fn put_head(out: &mut Vec<u8>, request: &Request) -> Result<(), AllocError>
    ensures { OnOk result
        (out.new.items ≡ out.old.items ++ fields_bytes (request_head request.now)) }
{
    put_texts(out, request)?;
    put_delimited(out, REQUEST_PAYLOAD, request.payload.as_slice())
}

/// Writes the service and the method, and the bytes before the payload in its field.
fn put_before(out: &mut Vec<u8>, request: &Request) -> Result<(), AllocError>
    ensures { OnOk result (out.new.items ≡ out.old.items ++ request_before request.now) }
{
    put_texts(out, request)?;
    put_payload_head(out, REQUEST_PAYLOAD, request.payload.as_slice())
}

/// Writes the timeout and the metadata.
#[tactic(auto, using(ttrpc_wire::proofs::Written::fields_then, ttrpc_wire::proofs::Written::fields_len))]
fn put_tail(out: &mut Vec<u8>, request: &Request) -> Result<(), CodecError>
    ensures ok { OnOk result
        (out.new.items ≡ out.old.items ++ fields_bytes (request_tail request.now)) }
    ensures too_long { IfErr result (λ e. e ≢ CodecError.NoMemory
        → (e ≡ CodecError.TooLong) × (2 ^ 32 ≤ length (fields_bytes (request_tail request.now)))) }
{
    put_number(
        out,
        REQUEST_TIMEOUT_NANO,
        int64_to_varint(request.timeout_nano),
    )?;
    put_parts(out, REQUEST_METADATA, request.metadata.as_slice())
}

impl WireMessage for Request {
    ghost use Rattle.ttrpc_proto.specs.Messages.{IsRequest, empty_request, request_step, request_fields};
    ghost use Rattle.ttrpc_proto.specs.Laws.{request_again, request_fits};

    ghost is_value = { IsRequest };

    ghost empty = { empty_request };

    ghost step = { request_step };

    ghost fields = { request_fields };

    fn new(alloc: Global) -> Request {
        Request {
            service: Text::new(alloc),
            method: Text::new(alloc),
            payload: Blob::new(alloc),
            timeout_nano: 0,
            metadata: Sequence::new(alloc),
        }
    }

    fn put(&mut self, alloc: Global, field: Field<'_>) -> Result<(), CodecError> {
        match (field.number.value, field.value) {
            (1, Value::LengthDelimited(bytes)) => self.service = text_from(alloc, bytes)?,
            (2, Value::LengthDelimited(bytes)) => self.method = text_from(alloc, bytes)?,
            (3, Value::LengthDelimited(bytes)) => self.payload = Blob::from_slice(alloc, bytes)?,
            (4, Value::Varint(n)) => self.timeout_nano = varint_to_int64(n),
            (5, Value::LengthDelimited(bytes)) => {
                let key_value: KeyValue = decode(alloc, bytes)?;
                self.metadata.push(key_value)?;
            }
            _ => {}
        }
        Ok(())
    }

    #[tactic(auto, using(ttrpc_wire::proofs::Written::fields_len))]
    fn length(&self) -> u64 {
        delimited_len(REQUEST_SERVICE, self.service.as_bytes())
            .saturating_add(delimited_len(REQUEST_METHOD, self.method.as_bytes()))
            .saturating_add(delimited_len(REQUEST_PAYLOAD, self.payload.as_slice()))
            .saturating_add(number_len(REQUEST_TIMEOUT_NANO, int64_to_varint(self.timeout_nano)))
            .saturating_add(parts_len(REQUEST_METADATA, self.metadata.as_slice()))
    }

    #[tactic(auto, using(ttrpc_wire::proofs::Written::fields_then, ttrpc_wire::proofs::Written::fields_len))]
    fn write(&self, out: &mut Vec<u8>) -> Result<(), CodecError> {
        put_head(out, self)?;
        put_tail(out, self)
    }

    fn lemma_is_value(&self) {
        let _ = self.service.as_bytes();
        let _ = self.method.as_bytes();
        let _timeout_nano = self.timeout_nano;
        lemma_are_values(self.metadata.as_slice());
    }

    ghost again = { request_again };

    ghost fits = { request_fits };
}

impl CarriesPayload for Request {
    ghost use Rattle.ttrpc_proto.specs.Laws.{request_carries, request_parts};
    ghost use Rattle.ttrpc_proto.specs.Messages.{request_after, request_before};

    ghost payload_field = { 3 };

    ghost with_payload = { λ request payload. record request { payload = payload } };

    fn payload_number() -> u32 {
        REQUEST_PAYLOAD.value
    }

    fn replace_payload(&mut self, payload: Blob) {
        self.payload = payload;
    }

    ghost before = { request_before };

    ghost payload_of = { λ request. request.payload };

    ghost after = { request_after };

    fn payload(&self) -> &[u8] {
        self.payload.as_slice()
    }

    fn write_before(&self, out: &mut Vec<u8>) -> Result<(), CodecError> {
        put_before(out, self)?;
        Ok(())
    }

    fn write_after(&self, out: &mut Vec<u8>) -> Result<(), CodecError> {
        put_tail(out, self)
    }

    ghost parts = { request_parts };

    ghost carries = { request_carries };
}

/// The response to a call.
#[derive(Debug, Drop, PartialEq, Eq)]
pub struct Response {
    pub status: Option<Status>,
    pub payload: Blob,
}

const RESPONSE_STATUS: FieldNumber = FieldNumber { value: 1 };

const RESPONSE_PAYLOAD: FieldNumber = FieldNumber { value: 2 };

impl TryClone for Response {
    fn try_clone(&self) -> Result<Response, AllocError> {
        let status = match &self.status {
            Some(status) => Some(status.try_clone()?),
            None => None,
        };
        Ok(Response {
            status,
            payload: self.payload.try_clone()?,
        })
    }
}

impl WireMessage for Response {
    ghost use Rattle.ttrpc_proto.specs.Messages.{IsResponse, empty_response, response_step, response_fields};
    ghost use Rattle.ttrpc_proto.specs.Laws.{response_again, response_fits};

    ghost is_value = { IsResponse };

    ghost empty = { empty_response };

    ghost step = { response_step };

    ghost fields = { response_fields };

    fn new(alloc: Global) -> Response {
        Response {
            status: None,
            payload: Blob::new(alloc),
        }
    }

    fn put(&mut self, alloc: Global, field: Field<'_>) -> Result<(), CodecError> {
        match (field.number.value, field.value) {
            (1, Value::LengthDelimited(bytes)) => match &mut self.status {
                Some(status) => read_into(alloc, status, bytes)?,
                None => self.status = Some(decode(alloc, bytes)?),
            },
            (2, Value::LengthDelimited(bytes)) => self.payload = Blob::from_slice(alloc, bytes)?,
            _ => {}
        }
        Ok(())
    }

    #[tactic(auto, using(ttrpc_wire::proofs::Written::fields_len))]
    fn length(&self) -> u64 {
        let status = match &self.status {
            Some(status) => part_len(RESPONSE_STATUS, status.length()),
            None => 0,
        };
        status.saturating_add(delimited_len(RESPONSE_PAYLOAD, self.payload.as_slice()))
    }

    #[tactic(auto, using(ttrpc_wire::proofs::Written::fields_then, ttrpc_wire::proofs::Written::fields_len))]
    fn write(&self, out: &mut Vec<u8>) -> Result<(), CodecError> {
        match &self.status {
            Some(status) => put_part(out, RESPONSE_STATUS, status)?,
            None => {}
        }
        put_delimited(out, RESPONSE_PAYLOAD, self.payload.as_slice())?;
        Ok(())
    }

    fn lemma_is_value(&self) {
        match &self.status {
            Some(status) => status.lemma_is_value(),
            None => {}
        }
    }

    ghost again = { response_again };

    ghost fits = { response_fits };
}

impl CarriesPayload for Response {
    ghost use Rattle.std.specs.Prelude.{[]};
    ghost use Rattle.ttrpc_proto.specs.Laws.{response_carries, response_parts};
    ghost use Rattle.ttrpc_proto.specs.Messages.{response_before};

    ghost payload_field = { 2 };

    ghost with_payload = { λ response payload. record response { payload = payload } };

    fn payload_number() -> u32 {
        RESPONSE_PAYLOAD.value
    }

    fn replace_payload(&mut self, payload: Blob) {
        self.payload = payload;
    }

    ghost before = { response_before };

    ghost payload_of = { λ response. response.payload };

    ghost after = { λ _. [] };

    fn payload(&self) -> &[u8] {
        self.payload.as_slice()
    }

    #[tactic(auto, using(ttrpc_wire::proofs::Written::fields_len))]
    fn write_before(&self, out: &mut Vec<u8>) -> Result<(), CodecError> {
        match &self.status {
            Some(status) => put_part(out, RESPONSE_STATUS, status)?,
            None => {}
        }
        put_payload_head(out, RESPONSE_PAYLOAD, self.payload.as_slice())?;
        Ok(())
    }

    fn write_after(&self, _out: &mut Vec<u8>) -> Result<(), CodecError> {
        Ok(())
    }

    ghost parts = { response_parts };

    ghost carries = { response_carries };
}
