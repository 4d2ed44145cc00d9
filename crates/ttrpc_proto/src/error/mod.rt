//! The reasons why a call failed. Errors, statuses, responses and texts are made here of a code, a message or another
//! error.

pub mod causes;
pub mod kinds;

ghost use Rattle.std.specs.Prelude.{◌≡◌, ◌≢◌, [], codes, string_bytes, IfOk, IsSomeAnd, Some};
ghost use Rattle.ttrpc_proto.specs.ErrorText.{error_text, status_of, IsTextOf, StandsFor, Tells};

use self::kinds::kind_text;
use crate::{Response, Status};
use std::alloc::{AllocError, AllocFailed, Global};
use std::fmt;
use std::io::ErrorKind;
use ttrpc_wire::{Blob, Code, Sequence, Text, TryClone};

/// The reason why a call failed.
#[derive(Debug, Drop, PartialEq)]
pub enum Error {
    /// The socket failed, or was closed.
    Socket(Text),
    /// The other side answered with this status.
    RpcStatus(Status),
    /// The system returned an error of this kind.
    Nix(ErrorKind),
    /// This side closed the stream.
    LocalClosed,
    /// The other side closed the stream.
    RemoteClosed,
    /// Nothing more comes.
    Eof,
    /// Any other reason.
    Others(Text),
    /// The allocator refused memory.
    NoMemory,
    /// The ring has less room than the frame needs.
    NoRoom,
}

/// A result with the error type `Error`.
pub type Result<T> = std::result::Result<T, Error>;

impl From<AllocError> for Error {
    ghost use Rattle.ttrpc_proto.specs.declared.error.Error.TheVariants.{NoMemory};

    ghost from_gives = { λ _ e. e ≡ NoMemory };

    fn from(_refused: AllocError) -> Error {
        Error::NoMemory
    }
}

impl<T: Drop> From<AllocFailed<T>> for Error {
    ghost use Rattle.ttrpc_proto.specs.declared.error.Error.TheVariants.{NoMemory};

    ghost from_gives = { λ _ e. e ≡ NoMemory };

    fn from(_refused: AllocFailed<T>) -> Error {
        Error::NoMemory
    }
}

impl fmt::Display for Error {
    ghost output = { error_text };

    fn fmt<W: fmt::Write>(&self, f: &mut fmt::Formatter<W>) -> fmt::Result {
        match self {
            Error::Socket(text) => write!(f, "socket err: {}", text.as_str()),
            Error::RpcStatus(status) => {
                write!(f, "rpc status: {} {}", status.code, status.message.as_str())
            }
            Error::Nix(kind) => write!(f, "Nix error: {}", kind_text(*kind)),
            Error::LocalClosed => write!(f, "ttrpc err: local stream closed"),
            Error::RemoteClosed => write!(f, "ttrpc err: remote stream closed"),
            Error::Eof => write!(f, "eof"),
            Error::Others(text) => write!(f, "ttrpc err: {}", text.as_str()),
            Error::NoMemory => write!(f, "out of memory"),
            Error::NoRoom => write!(f, "no room in the outgoing ring"),
        }
    }
}

impl std::error::Error for Error {}

impl TryClone for Error {
    fn try_clone(&self) -> std::result::Result<Error, AllocError> {
        Ok(match self {
            Error::Socket(text) => Error::Socket(text.try_clone()?),
            Error::RpcStatus(status) => Error::RpcStatus(status.try_clone()?),
            Error::Nix(kind) => Error::Nix(*kind),
            Error::LocalClosed => Error::LocalClosed,
            Error::RemoteClosed => Error::RemoteClosed,
            Error::Eof => Error::Eof,
            Error::Others(text) => Error::Others(text.try_clone()?),
            Error::NoMemory => Error::NoMemory,
            Error::NoRoom => Error::NoRoom,
        })
    }
}

impl Error {
    /// Returns the text that the error prints.
    pub fn text(&self, alloc: Global) -> std::result::Result<String, AllocError>
        ensures { IfOk result (λ text. IsTextOf self.now (string_bytes text)) }
    {
        self.to_string(alloc)
    }

    /// Returns the response that reports the error to the other side. Its message is empty if memory for the error's
    /// text was refused.
    pub fn into_response(self, alloc: Global) -> Response
        ensures status { IsSomeAnd result.status (StandsFor self) }
        ensures payload { result.payload ≡ [] }
    {
        let status = match self {
            Error::RpcStatus(status) => status,
            other => match other.text(alloc) {
                Ok(text) => get_status(Code::UNKNOWN, text),
                Err(_) => get_status(Code::UNKNOWN, String::new(alloc)),
            },
        };
        response_of(alloc, status)
    }

    /// Returns the response that reports the error with its text, or an `Err` if memory for the text was refused. This
    /// call is for a side that never leaves the text out.
    pub fn try_into_response(self, alloc: Global) -> std::result::Result<Response, AllocError>
        ensures status { IfOk result (λ response. IsSomeAnd response.status (Tells self)) }
        ensures payload { IfOk result (λ response. response.payload ≡ []) }
    {
        let status = match self {
            Error::RpcStatus(status) => status,
            other => get_status(Code::UNKNOWN, other.text(alloc)?),
        };
        Ok(response_of(alloc, status))
    }
}

// Returns a response with this status and no payload.
fn response_of(alloc: Global, status: Status) -> Response
    ensures { result ≡ record { status = Some status; payload = [] } }
{
    Response {
        status: Some(status),
        payload: Blob::new(alloc),
    }
}

/// Returns the status of this code with this message and no details. Takes no memory.
pub fn get_status(c: Code, msg: String) -> Status
    ensures { result ≡ status_of c (string_bytes msg) }
{
    let alloc = *msg.allocator();
    Status {
        code: c.number(),
        message: Text::from_string(msg),
        details: Sequence::new(alloc),
    }
}

/// Returns the error with the status of this code and this message. Takes no memory.
pub fn get_rpc_status(c: Code, msg: String) -> Error
    ensures { result ≡ Error.RpcStatus (status_of c (string_bytes msg)) }
{
    Error::RpcStatus(get_status(c, msg))
}

/// Returns the error for a read or a write that failed after this many bytes. If there were none, the other side is
/// gone, and the error is `Socket`. The error is `NoMemory` only if memory for its text was refused.
pub fn sock_error_msg(size: usize, msg: String) -> Error
    ensures gone { size ≡ 0 → result ≢ Error.NoMemory
        → result ≡ Error.Socket (codes "socket disconnected") }
    ensures failed { size ≢ 0
        → result ≡ Error.RpcStatus (status_of Code.INVALID_ARGUMENT (string_bytes msg)) }
{
    if size != 0 {
        return get_rpc_status(Code::INVALID_ARGUMENT, msg);
    }
    match Text::from_str(*msg.allocator(), "socket disconnected") {
        Ok(text) => Error::Socket(text),
        Err(_) => Error::NoMemory,
    }
}
