//! Each answer that a core gives by itself, and each of its errors, with its text.
use crate::tests::steps::tells;
use crate::tests::under_test::Tested;
use std::alloc::{AllocError, Global};
use std::io::ErrorKind;
use std::process::Abort;
use std::test::Fail;
use ttrpc_bench::vectors::Told;
use ttrpc_connection::Failure;
use ttrpc_proto::{Error, Response};
use ttrpc_secure::context::errors::{unsafe_payload_error, unsealed_error};
use ttrpc_server::responses::{
    limit_response, oversize_response, path_response, unknown_job_error, unopened_response,
    unreadable_response,
};
use ttrpc_wire::{CodecError, Text};

// ---- failures

/// Checks that the error is the expected one.
fn is(rt: &impl Abort, error: Error, told: Told) -> Tested {
    let met = tells(Some(error), told)?;
    assert!(rt; met);
    Ok(())
}

/// Checks that the failure gives this error.
fn fails(rt: &impl Abort, alloc: Global, failure: Failure, told: Told) -> Tested {
    is(rt, failure.error(alloc), told)
}

const DISCONNECTED: Told = Told::Socket("socket disconnected");

const INSIDE: Told = Told::Socket("socket disconnected inside a frame");

const HANDLER: Told = Told::Socket("connection closed after a handler error");

const DEADLINE: Told = Told::Socket(
    "connection closed after a request deadline elapsed during write",
);

const CANCELLED: Told = Told::Socket(
    "connection closed after a request was cancelled during write",
);

#[test]
fn failures_have_their_texts(rt: HostRuntime) -> Tested {
    let alloc = rt.alloc();
    fails(&rt, alloc, Failure::Disconnected, DISCONNECTED)?;
    fails(&rt, alloc, Failure::DisconnectedInside, INSIDE)?;
    fails(&rt, alloc, Failure::HandlerError, HANDLER)?;
    fails(&rt, alloc, Failure::DeadlineDuringWrite, DEADLINE)?;
    fails(&rt, alloc, Failure::CancelledDuringWrite, CANCELLED)?;
    fails(
        &rt,
        alloc,
        Failure::JobIdsUsedUp,
        Told::Others("job ids are used up"),
    )?;
    assert!(rt; matches!(Failure::NoMemory.error(alloc), Error::NoMemory));
    Ok(())
}

fn text(alloc: Global, text: &str) -> Result<Text, Fail> {
    Ok(Text::from_str(alloc, text)?)
}

#[test]
fn told_errors_are_told_again(rt: HostRuntime) -> Tested {
    let alloc = rt.alloc();
    let broken = Error::Socket(text(alloc, "broken")?);
    fails(&rt, alloc, Failure::Told(broken), Told::Socket("broken"))?;
    let long = Error::Others(text(alloc, "too long")?);
    fails(&rt, alloc, Failure::Told(long), Told::Others("too long"))?;
    let pipe = Failure::Broke(ErrorKind::BrokenPipe);
    fails(&rt, alloc, pipe, Told::Socket("broken pipe"))?;
    let system = Failure::Told(Error::Nix(ErrorKind::BrokenPipe)).error(alloc);
    assert!(rt; matches!(system, Error::Nix(ErrorKind::BrokenPipe)));
    Ok(())
}

// ---- answers

/// Returns whether the response has a status with this code and message, no details, and no payload.
fn has_status(response: &Response, code: i32, message: &str) -> bool {
    match &response.status {
        Some(status) => {
            status.code == code
                && status.message.as_str() == message
                && status.details.as_slice().is_empty()
                && response.payload.as_slice().is_empty()
        }
        None => false,
    }
}

/// Checks that the response was made, and has that status.
fn answers(
    rt: &impl Abort,
    response: Result<Response, AllocError>,
    code: i32,
    message: &str,
) -> Tested {
    let response = response?;
    assert!(rt; has_status(&response, code, message));
    Ok(())
}

fn answers_path(
    rt: &impl Abort,
    alloc: Global,
    service: &Text,
    method: &Text,
    message: &str,
) -> Tested {
    answers(rt, path_response(alloc, service, method), 3, message)
}

fn answers_unopened(rt: &impl Abort, alloc: Global, why: &Text) -> Tested {
    let message = "ttrpc err: transform_inbound failed: bad stamp";
    answers(rt, unopened_response(alloc, why), 2, message)
}

#[test]
fn unknown_paths_are_answered(rt: HostRuntime) -> Tested {
    let alloc = rt.alloc();
    let service = text(alloc, "grpc.Health")?;
    let method = text(alloc, "Check")?;
    answers_path(
        &rt,
        alloc,
        &service,
        &method,
        "/grpc.Health/Check does not exist",
    )
}

const LONG: &str = "message length 4194305 exceed maximum message size of 4194304";

const LIMITED: &str =
    "response payload 4194300 bytes exceeds safe limit 4194288 bytes (after transform overhead)";

const BAD_UTF8: &str = "Unpack request error a text is not UTF-8";

#[test]
fn other_requests_are_answered(rt: HostRuntime) -> Tested {
    let alloc = rt.alloc();
    let empty = Text::new(alloc);
    answers_path(&rt, alloc, &empty, &empty, "// does not exist")?;
    answers(&rt, oversize_response(alloc, 4194305), 3, LONG)?;
    answers(&rt, limit_response(alloc, 4194300, 4194288), 3, LIMITED)?;
    answers(
        &rt,
        unreadable_response(alloc, &CodecError::BadUtf8),
        3,
        BAD_UTF8,
    )
}

#[test]
fn unopened_requests_are_answered(rt: HostRuntime) -> Tested {
    let why = text(rt.alloc(), "bad stamp")?;
    answers_unopened(&rt, rt.alloc(), &why)
}

// ---- refusals

const ABOVE_LIMIT: Told = Told::Others(
    "payload 4194300 bytes exceeds safe limit 4194288 bytes (MESSAGE_LENGTH_MAX - transform overhead)",
);

const UNSEALED: Told = Told::Others("transform_outbound failed: key used up");

#[test]
fn refused_answers_have_their_texts(rt: HostRuntime) -> Tested {
    let alloc = rt.alloc();
    is(
        &rt,
        unsafe_payload_error(alloc, 4194300, 4194288, ""),
        ABOVE_LIMIT,
    )?;
    is(&rt, unknown_job_error(alloc), Told::Others("unknown job"))?;
    let why = text(alloc, "key used up")?;
    is(&rt, unsealed_error(alloc, &why), UNSEALED)
}
