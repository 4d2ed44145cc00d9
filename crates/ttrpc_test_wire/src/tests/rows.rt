//! Messages and errors as data, and the values that they give.
use std::alloc::Global;
use std::io::ErrorKind;
use std::test::Fail;
use ttrpc_proto::{Any, Error, KeyValue, Request, Response, Status};
use ttrpc_wire::{Blob, Sequence, Text};

/// An `Any`: its type and its bytes.
pub type AnyRow = (&'static str, &'static [u8]);

/// A status: its code, its message and its details.
pub type StatusRow = (i32, &'static str, &'static [AnyRow]);

/// A response: its status, if there is one, and its payload.
pub type ResponseRow = (Option<StatusRow>, &'static [u8]);

/// A request. Its metadata are pairs.
#[derive(Clone, Copy, Debug)]
pub struct RequestRow {
    pub service: &'static str,
    pub method: &'static str,
    pub payload: &'static [u8],
    pub timeout_nano: i64,
    pub metadata: &'static [(&'static str, &'static str)],
}

/// A message of one of the five types.
#[derive(Clone, Copy, Debug)]
pub enum Row {
    KeyValue(&'static str, &'static str),
    Any(&'static str, &'static [u8]),
    Status(StatusRow),
    Request(RequestRow),
    Response(ResponseRow),
}

/// An error.
#[derive(Clone, Copy, Debug)]
pub enum ErrorRow {
    Socket(&'static str),
    RpcStatus(i32, &'static str),
    Nix(ErrorKind),
    LocalClosed,
    RemoteClosed,
    Eof,
    Others(&'static str),
    NoMemory,
    NoRoom,
}

pub fn key_value_of(alloc: Global, key: &str, value: &str) -> Result<KeyValue, Fail> {
    Ok(KeyValue {
        key: Text::from_str(alloc, key)?,
        value: Text::from_str(alloc, value)?,
    })
}

pub fn any_of(alloc: Global, type_url: &str, value: &[u8]) -> Result<Any, Fail> {
    Ok(Any {
        type_url: Text::from_str(alloc, type_url)?,
        value: Blob::from_slice(alloc, value)?,
    })
}

fn details_of(alloc: Global, rows: &[AnyRow]) -> Result<Sequence<Any>, Fail> {
    let mut details = Sequence::new(alloc);
    for (type_url, value) in rows {
        details.push(any_of(alloc, type_url, value)?)?;
    }
    Ok(details)
}

pub fn status_of(alloc: Global, row: &StatusRow) -> Result<Status, Fail> {
    let (code, message, details) = row;
    Ok(Status {
        code: *code,
        message: Text::from_str(alloc, message)?,
        details: details_of(alloc, details)?,
    })
}

fn metadata_of(alloc: Global, rows: &[(&str, &str)]) -> Result<Sequence<KeyValue>, Fail> {
    let mut metadata = Sequence::new(alloc);
    for (key, value) in rows {
        metadata.push(key_value_of(alloc, key, value)?)?;
    }
    Ok(metadata)
}

pub fn request_of(alloc: Global, row: &RequestRow) -> Result<Request, Fail> {
    Ok(Request {
        service: Text::from_str(alloc, row.service)?,
        method: Text::from_str(alloc, row.method)?,
        payload: Blob::from_slice(alloc, row.payload)?,
        timeout_nano: row.timeout_nano,
        metadata: metadata_of(alloc, row.metadata)?,
    })
}

pub fn response_of(alloc: Global, row: &ResponseRow) -> Result<Response, Fail> {
    let (status, payload) = row;
    let status = match status {
        Some(row) => Some(status_of(alloc, row)?),
        None => None,
    };
    Ok(Response {
        status,
        payload: Blob::from_slice(alloc, payload)?,
    })
}

pub fn error_of(alloc: Global, row: &ErrorRow) -> Result<Error, Fail> {
    Ok(match row {
        ErrorRow::Socket(text) => Error::Socket(Text::from_str(alloc, text)?),
        ErrorRow::RpcStatus(code, message) => {
            Error::RpcStatus(status_of(alloc, &(*code, *message, &[]))?)
        }
        ErrorRow::Nix(kind) => Error::Nix(*kind),
        ErrorRow::LocalClosed => Error::LocalClosed,
        ErrorRow::RemoteClosed => Error::RemoteClosed,
        ErrorRow::Eof => Error::Eof,
        ErrorRow::Others(text) => Error::Others(Text::from_str(alloc, text)?),
        ErrorRow::NoMemory => Error::NoMemory,
        ErrorRow::NoRoom => Error::NoRoom,
    })
}
