//! The messages of the method `Hello`. Each has one field, a text with the number 1.

use std::alloc::{AllocError, Global};
use ttrpc::proto::members::{delimited_len, put_delimited, text_from};
use ttrpc::proto::{Text, TryClone, WireMessage};
use ttrpc::wire::{CodecError, Field, FieldNumber, Value};

/// The name that is to be greeted.
#[derive(Drop)]
pub struct HelloRequest {
    pub name: Text,
}

const NAME: FieldNumber = FieldNumber { value: 1 };

impl TryClone for HelloRequest {
    fn try_clone(&self) -> Result<HelloRequest, AllocError> {
        let name = self.name.try_clone()?;
        Ok(HelloRequest { name })
    }
}

impl WireMessage for HelloRequest {
    ghost use Rattle.greeter.specs.Messages.{IsRequest, empty_request, request_step, request_fields, request_again, request_fits};

    ghost is_value = { IsRequest };

    ghost empty = { empty_request };

    ghost step = { request_step };

    ghost fields = { request_fields };

    fn new(alloc: Global) -> HelloRequest {
        HelloRequest {
            name: Text::new(alloc),
        }
    }

    fn put(&mut self, alloc: Global, field: Field<'_>) -> Result<(), CodecError> {
        if let (1, Value::LengthDelimited(bytes)) = (field.number.value, field.value) {
            self.name = text_from(alloc, bytes)?;
        }
        Ok(())
    }

    fn length(&self) -> u64 {
        delimited_len(NAME, self.name.as_bytes())
    }

    fn write(&self, out: &mut Vec<u8>) -> Result<(), CodecError> {
        put_delimited(out, NAME, self.name.as_bytes())?;
        Ok(())
    }

    fn lemma_is_value(&self) {
        let _ = self.name.as_bytes();
    }

    ghost again = { request_again };

    ghost fits = { λ m _. request_fits m };
}

/// The greeting.
#[derive(Drop)]
pub struct HelloReply {
    pub greeting: Text,
}

const GREETING: FieldNumber = FieldNumber { value: 1 };

impl TryClone for HelloReply {
    fn try_clone(&self) -> Result<HelloReply, AllocError> {
        let greeting = self.greeting.try_clone()?;
        Ok(HelloReply { greeting })
    }
}

impl WireMessage for HelloReply {
    ghost use Rattle.greeter.specs.Messages.{IsReply, empty_reply, reply_step, reply_fields, reply_again, reply_fits};

    ghost is_value = { IsReply };

    ghost empty = { empty_reply };

    ghost step = { reply_step };

    ghost fields = { reply_fields };

    fn new(alloc: Global) -> HelloReply {
        HelloReply {
            greeting: Text::new(alloc),
        }
    }

    fn put(&mut self, alloc: Global, field: Field<'_>) -> Result<(), CodecError> {
        if let (1, Value::LengthDelimited(bytes)) = (field.number.value, field.value) {
            self.greeting = text_from(alloc, bytes)?;
        }
        Ok(())
    }

    fn length(&self) -> u64 {
        delimited_len(GREETING, self.greeting.as_bytes())
    }

    fn write(&self, out: &mut Vec<u8>) -> Result<(), CodecError> {
        put_delimited(out, GREETING, self.greeting.as_bytes())?;
        Ok(())
    }

    fn lemma_is_value(&self) {
        let _ = self.greeting.as_bytes();
    }

    ghost again = { reply_again };

    ghost fits = { λ m _. reply_fits m };
}
