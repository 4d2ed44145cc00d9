//! The codes of a status, the text of each error, and the statuses, errors and responses that are made of an error.
ghost use Rattle.std.specs.Prelude.{◌≡◌, codes, MatchResult, IfErr, IsErrAnd};
ghost use Rattle.ttrpc_proto.specs.ErrorText.{error_text, IsOthers};

use crate::tests::rows::{ErrorRow, error_of, response_of, status_of};
use std::alloc::{AllocError, Global};
use std::io::ErrorKind;
use std::test::Fail;
use ttrpc_bench::checks::{Tested, check, check_row};
use ttrpc_proto::error::causes::others_of;
use ttrpc_proto::framing::header::oversize::check_oversize;
use ttrpc_proto::{
    Error, Response, Result, err_to_others, get_rpc_status, get_status, sock_error_msg,
};
use ttrpc_wire::{Code, TryClone};

/// The result of a condition, if memory isn't refused.
type Found = std::result::Result<bool, Fail>;

/// The codes, in the order of their numbers.
const CODES: [Code; 17] = [
    Code::OK,
    Code::CANCELLED,
    Code::UNKNOWN,
    Code::INVALID_ARGUMENT,
    Code::DEADLINE_EXCEEDED,
    Code::NOT_FOUND,
    Code::ALREADY_EXISTS,
    Code::PERMISSION_DENIED,
    Code::RESOURCE_EXHAUSTED,
    Code::FAILED_PRECONDITION,
    Code::ABORTED,
    Code::OUT_OF_RANGE,
    Code::UNIMPLEMENTED,
    Code::INTERNAL,
    Code::UNAVAILABLE,
    Code::DATA_LOSS,
    Code::UNAUTHENTICATED,
];

/// Numbers that are no code.
const NO_CODES: &[i32] = &[17, 258, 2147483647, -1, -2147483648];

/// Returns whether a status with this number has this code.
fn stands_for(alloc: Global, number: i32, code: Code) -> Found {
    Ok(status_of(alloc, &(number, "", &[]))?.code() == code)
}

#[test]
fn codes_have_their_numbers(rt: HostRuntime) -> Tested {
    for (at, code) in CODES.iter().enumerate() {
        let number = i32::try_from(at)?;
        let holds = stands_for(rt.alloc(), number, *code)?;
        check_row(at, holds && code.number() == number)?;
    }
    for (at, number) in NO_CODES.iter().enumerate() {
        check_row(at, stands_for(rt.alloc(), *number, Code::UNKNOWN)?)?;
    }
    Ok(())
}

/// Errors, the text of each, and the code and message of the response that it becomes.
const ERRORS: &[(ErrorRow, &str, i32, &str)] = &[
    (
        ErrorRow::Socket("broken"),
        "socket err: broken",
        2,
        "socket err: broken",
    ),
    (
        ErrorRow::RpcStatus(5, "no such task"),
        "rpc status: 5 no such task",
        5,
        "no such task",
    ),
    (ErrorRow::RpcStatus(-1, "no"), "rpc status: -1 no", -1, "no"),
    (
        ErrorRow::Nix(ErrorKind::TimedOut),
        "Nix error: timed out",
        2,
        "Nix error: timed out",
    ),
    (
        ErrorRow::LocalClosed,
        "ttrpc err: local stream closed",
        2,
        "ttrpc err: local stream closed",
    ),
    (
        ErrorRow::RemoteClosed,
        "ttrpc err: remote stream closed",
        2,
        "ttrpc err: remote stream closed",
    ),
    (ErrorRow::Eof, "eof", 2, "eof"),
    (
        ErrorRow::Others("späť"),
        "ttrpc err: späť",
        2,
        "ttrpc err: späť",
    ),
    (ErrorRow::NoMemory, "out of memory", 2, "out of memory"),
    (
        ErrorRow::NoRoom,
        "no room in the outgoing ring",
        2,
        "no room in the outgoing ring",
    ),
];

/// Returns whether a response has an empty message, as it does if memory for the text was refused.
fn has_no_message(response: &Response) -> bool {
    match &response.status {
        None => false,
        Some(status) => status.message.as_str().is_empty(),
    }
}

/// Returns whether the error has this text, its copy is equal, and it becomes this response in either conversion. If a
/// response lacks the text, memory was refused, and that is the test's error.
fn is_told(alloc: Global, row: &(ErrorRow, &'static str, i32, &'static str)) -> Found {
    let (error, printed, code, message) = row;
    let error = error_of(alloc, error)?;
    let is_printed = is_printed(alloc, &error, *printed)?;
    let told = error.try_clone()?.try_into_response(alloc)?;
    let is_told = is_response(alloc, &told, *code, *message)?;
    let response = error.into_response(alloc);
    if has_no_message(&response) {
        return Err(Error::NoMemory.into());
    }
    Ok(is_printed && is_told && is_response(alloc, &response, *code, *message)?)
}

/// Returns whether the error has this text, in either call, and its copy is equal.
fn is_printed(alloc: Global, error: &Error, printed: &str) -> Found {
    let shown = error.to_string(alloc)?;
    let text = error.text(alloc)?;
    let copy = error.try_clone()?;
    Ok(shown.as_str() == printed && text.as_str() == printed && copy == *error)
}

/// Returns whether it is a response with this status alone.
fn is_response(alloc: Global, response: &Response, code: i32, message: &'static str) -> Found {
    let expected = response_of(alloc, &(Some((code, message, &[])), b""))?;
    Ok(*response == expected)
}

#[test]
fn errors_are_told(rt: HostRuntime) -> Tested {
    for (at, row) in ERRORS.iter().enumerate() {
        check_row(at, is_told(rt.alloc(), row)?)?;
    }
    Ok(())
}

/// The kinds of the system's errors, in the order in which std declares them.
const KINDS: [ErrorKind; 42] = [
    ErrorKind::NotFound,
    ErrorKind::PermissionDenied,
    ErrorKind::ConnectionRefused,
    ErrorKind::ConnectionReset,
    ErrorKind::HostUnreachable,
    ErrorKind::NetworkUnreachable,
    ErrorKind::ConnectionAborted,
    ErrorKind::NotConnected,
    ErrorKind::AddrInUse,
    ErrorKind::AddrNotAvailable,
    ErrorKind::NetworkDown,
    ErrorKind::BrokenPipe,
    ErrorKind::AlreadyExists,
    ErrorKind::WouldBlock,
    ErrorKind::NotADirectory,
    ErrorKind::IsADirectory,
    ErrorKind::DirectoryNotEmpty,
    ErrorKind::ReadOnlyFilesystem,
    ErrorKind::FilesystemLoop,
    ErrorKind::StaleNetworkFileHandle,
    ErrorKind::InvalidInput,
    ErrorKind::InvalidData,
    ErrorKind::TimedOut,
    ErrorKind::WriteZero,
    ErrorKind::StorageFull,
    ErrorKind::NotSeekable,
    ErrorKind::QuotaExceeded,
    ErrorKind::FileTooLarge,
    ErrorKind::ResourceBusy,
    ErrorKind::ExecutableFileBusy,
    ErrorKind::Deadlock,
    ErrorKind::CrossesDevices,
    ErrorKind::TooManyLinks,
    ErrorKind::InvalidFilename,
    ErrorKind::ArgumentListTooLong,
    ErrorKind::Interrupted,
    ErrorKind::Unsupported,
    ErrorKind::UnexpectedEof,
    ErrorKind::OutOfMemory,
    ErrorKind::InProgress,
    ErrorKind::Other,
    ErrorKind::Uncategorized,
];

/// Returns whether an error of the system has the text that std gives its kind.
fn prints_as_std(alloc: Global, kind: ErrorKind) -> Found {
    let printed = Error::Nix(kind).text(alloc)?;
    let expected = format!(in alloc; "Nix error: {kind}")?;
    Ok(printed == expected)
}

#[test]
fn kinds_print_as_std_prints_them(rt: HostRuntime) -> Tested {
    for (at, kind) in KINDS.iter().enumerate() {
        check_row(at, prints_as_std(rt.alloc(), *kind)?)?;
    }
    Ok(())
}

// Refused memory is the only error here, and the clause states the error that `?` makes of it.
fn pushed(items: &mut Vec<u8>, item: u8) -> Result<()>
    ensures { IfErr result (λ e. e ≡ Error.NoMemory) }
{
    items.push(item)?;
    Ok(())
}

#[test]
fn refused_memory_is_an_error(rt: HostRuntime) -> Tested {
    let mut items = Vec::new(rt.alloc());
    pushed(&mut items, 7)?;
    let is_pushed = items.as_slice() == [7].as_slice();
    check(is_pushed && Error::from(AllocError) == Error::NoMemory)
}

/// Returns whether the error is as expected. If memory for it was refused, the test ends with that error.
fn is_error(alloc: Global, error: Error, expected: ErrorRow) -> Found {
    if error == Error::NoMemory {
        return Err(error.into());
    }
    Ok(error == error_of(alloc, &expected)?)
}

/// Returns whether the outcome is this error.
fn is_refused<T: Drop>(alloc: Global, outcome: Result<T>, expected: ErrorRow) -> Found {
    match outcome {
        Ok(_) => Ok(false),
        Err(error) => is_error(alloc, error, expected),
    }
}

#[test]
fn statuses_and_errors_are_made(rt: HostRuntime) -> Tested {
    let alloc = rt.alloc();
    let made = get_status(Code::NOT_FOUND, String::from_str(alloc, "no such task")?);
    let is_made = made == status_of(alloc, &(5, "no such task", &[]))?;
    let aborted = get_rpc_status(Code::ABORTED, String::from_str(alloc, "a")?);
    let is_aborted = is_error(alloc, aborted, ErrorRow::RpcStatus(10, "a"))?;
    check(is_made && is_aborted)
}

/// Returns whether a socket's error after `size` bytes is this one.
fn is_of_socket(alloc: Global, size: usize, expected: ErrorRow) -> Found {
    let error = sock_error_msg(size, String::from_str(alloc, "short")?);
    is_error(alloc, error, expected)
}

#[test]
fn errors_of_sockets_are_made(rt: HostRuntime) -> Tested {
    let gone = is_of_socket(rt.alloc(), 0, ErrorRow::Socket("socket disconnected"))?;
    let cut = is_of_socket(rt.alloc(), 9, ErrorRow::RpcStatus(3, "short"))?;
    check(gone && cut)
}

// The clause states the result of the closure that `err_to_others!` makes.
fn called(alloc: Global, outcome: Result<u8>) -> Result<u8>
    ensures { MatchResult outcome (λ n. result ≡ Ok n)
        (λ e. IsErrAnd result (IsOthers (codes "calling: ") (error_text e))) }
{
    outcome.map_err(err_to_others!(alloc, e, "calling: "))
}

/// Returns whether a text that is no number is refused with a text before the cause.
fn is_no_number(alloc: Global) -> Found {
    let parsed = "x"
        .parse::<u8>()
        .map_err(err_to_others!(alloc, e, "the port: "));
    let text = "the port: invalid digit found in string";
    is_refused(alloc, parsed, ErrorRow::Others(text))
}

/// Returns whether an error gets the text before it, and a number stays as it is.
fn is_called(alloc: Global) -> Found {
    let text = "calling: ttrpc err: remote stream closed";
    let error = called(alloc, Err(Error::RemoteClosed));
    let is_told = is_refused(alloc, error, ErrorRow::Others(text))?;
    Ok(is_told && called(alloc, Ok(7)) == Ok(7))
}

#[test]
fn other_errors_are_taken(rt: HostRuntime) -> Tested {
    let alloc = rt.alloc();
    let closed = others_of(alloc, "stream 3: ", &Error::Eof);
    let is_closed = is_error(alloc, closed, ErrorRow::Others("stream 3: eof"))?;
    check(is_closed && is_no_number(alloc)? && is_called(alloc)?)
}

const TOO_LONG: &str = "message length 4194305 exceed maximum message size of 4194304";

/// Returns whether a message of this length may be sent, whether its refusal would be answered or not.
fn is_fitting(alloc: Global, length: usize) -> bool {
    check_oversize(alloc, length, true).is_ok() && check_oversize(alloc, length, false).is_ok()
}

/// Returns whether a message of this length is refused with this error, by whether the refusal is answered.
fn is_too_long(alloc: Global, length: usize, answered: bool, expected: ErrorRow) -> Found {
    is_refused(alloc, check_oversize(alloc, length, answered), expected)
}

#[test]
fn long_messages_are_refused(rt: HostRuntime) -> Tested {
    let alloc = rt.alloc();
    let answered = is_too_long(alloc, 4194305, true, ErrorRow::RpcStatus(3, TOO_LONG))?;
    let kept = is_too_long(alloc, 4194305, false, ErrorRow::Others(TOO_LONG))?;
    check(is_fitting(alloc, 4194304) && answered && kept)
}
