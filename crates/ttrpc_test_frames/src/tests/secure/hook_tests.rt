//! Hooks that are run, and their time limit.
use crate::tests::secure::fakes::{Agrees, Line, Listens};
use std::alloc::{AllocError, Global};
use std::io::ErrorKind;
use std::test::Fail;
use ttrpc_bench::checks::{Tested, check, check_row};
use ttrpc_bench::{AT_ONCE, Manner, StampIn, StampOut};
use ttrpc_secure::{
    ACCEPT_HOOK_TIMEOUT, AcceptHook, ConnectHook, ConnectionDataExt, HookError, HookOutput,
    InboundTransform, OutboundTransform, Plain, hook_result,
};
use ttrpc_wire::Text;

/// The moments at which a hook starts and ends, and whether it ends in time.
const MOMENTS: &[(u64, u64, bool)] = &[
    (0, 0, true),
    (0, 29999999999, true),
    (0, 30000000000, false),
    (0, 18446744073709551615, false),
    (5, 4, true),
    (5, 30000000004, true),
    (5, 30000000005, false),
    // a limit past the last moment
    (18446744043709551615, 18446744073709551614, true),
    (18446744043709551615, 18446744073709551615, false),
    (18446744043709551616, 18446744073709551615, true),
    (18446744073709551615, 18446744073709551615, true),
    (18446744073709551615, 29999999999, true),
];

type Hooked = Result<HookOutput<Plain, Plain>, HookError>;

/// Returns whether the output has two halves alone.
fn is_passed(hooked: &Hooked) -> bool {
    match hooked {
        Ok(output) => output.connection_data.is_empty(),
        Err(_) => false,
    }
}

fn is_rejected(hooked: &Hooked, expected: &str) -> bool {
    match hooked {
        Err(HookError::Rejected(reason)) => reason.as_str() == expected,
        _ => false,
    }
}

fn is_timeout(hooked: &Hooked) -> bool {
    matches!(hooked, Err(HookError::Timeout))
}

/// Returns whether a hook that passes at these moments does so in time, or too late.
fn passes_in_time(alloc: Global, started: u64, now: u64, in_time: bool) -> bool {
    let halves = HookOutput::of_halves(alloc, Plain {}, Plain {});
    let passed = hook_result(started, now, Ok(halves));
    is_passed(&passed) == in_time && is_timeout(&passed) != in_time
}

/// Returns whether a hook that rejects at these moments does so in time, or too late.
fn rejects_in_time(alloc: Global, started: u64, now: u64, in_time: bool) -> Result<bool, Fail> {
    let reason = Text::from_str(alloc, "no")?;
    let rejected: Hooked = hook_result(started, now, Err(HookError::Rejected(reason)));
    Ok(is_rejected(&rejected, "no") == in_time && is_timeout(&rejected) != in_time)
}

#[test]
fn results_come_in_time_or_late(rt: HostRuntime) -> Tested {
    let alloc = rt.alloc();
    for (at, &(started, now, in_time)) in MOMENTS.iter().enumerate() {
        let passes = passes_in_time(alloc, started, now, in_time);
        check_row(at, passes && rejects_in_time(alloc, started, now, in_time)?)?;
    }
    check(ACCEPT_HOOK_TIMEOUT == 30000000000)
}

/// Returns the result of a hook for a connection that a server has accepted. The hook started at 0 and ends at this
/// moment.
fn accepted<S, H: AcceptHook<S>>(
    alloc: Global,
    hook: &H,
    stream: &S,
    now: u64,
) -> Result<HookOutput<H::Outbound, H::Inbound>, HookError> {
    hook_result(0, now, hook.on_accept(alloc, stream))
}

/// Returns whether the error prints this text. If memory was refused, returns that as the test's error.
fn prints(alloc: Global, error: HookError, expected: &str) -> Result<bool, Fail> {
    if let HookError::Io(cause) = &error {
        if cause.kind() == ErrorKind::OutOfMemory {
            return Err(AllocError.into());
        }
    }
    let text = error.to_string(alloc)?;
    Ok(text.as_str() == expected)
}

/// A read after the bytes fails.
const BROKEN: Manner = Manner {
    behind: Some(ErrorKind::ConnectionReset),
    ..AT_ONCE
};

/// The bytes of a connection and the moment at which a hook that listens ends, and the stored bytes or the printed
/// error.
const ACCEPTED: &[(Line, u64, Result<&[u8], &str>)] = &[
    (Line(b"peer", AT_ONCE), 1, Ok(b"peer")),
    (Line(b"a long speech", AT_ONCE), 1, Ok(b"a long s")),
    (
        Line(b"", AT_ONCE),
        1,
        Err("connection rejected: nothing said"),
    ),
    (Line(b"", BROKEN), 1, Err("I/O error: connection reset")),
    (
        Line(b"peer", AT_ONCE),
        30000000000,
        Err("handshake timeout"),
    ),
    (Line(b"", AT_ONCE), 30000000000, Err("handshake timeout")),
];

/// Returns whether these bytes are stored as `said`.
fn knows(output: &HookOutput<Plain, Plain>, words: &[u8]) -> bool {
    match output.connection_data.get_typed::<Vec<u8>>("said") {
        Some(said) => said.as_slice() == words,
        None => false,
    }
}

/// Returns whether a hook that listens and ends at this moment stores these bytes, or fails with this text.
fn is_heard(
    alloc: Global,
    line: &Line,
    now: u64,
    expected: &Result<&[u8], &str>,
) -> Result<bool, Fail> {
    match (accepted(alloc, &Listens {}, line, now), expected) {
        (Ok(output), Ok(words)) => Ok(knows(&output, words)),
        (Err(error), Err(text)) => prints(alloc, error, text),
        (Err(error), Ok(_)) => prints(alloc, error, "memory was refused"),
        (Ok(_), Err(_)) => Ok(false),
    }
}

#[test]
fn a_server_listens(rt: HostRuntime) -> Tested {
    for (at, (line, now, expected)) in ACCEPTED.iter().enumerate() {
        check_row(at, is_heard(rt.alloc(), line, *now, expected)?)?;
    }
    Ok(())
}

/// Returns the result of a hook for a connection that a client has opened.
fn connected<S, H: ConnectHook<S>>(
    alloc: Global,
    hook: &H,
    stream: &S,
) -> Result<HookOutput<H::Outbound, H::Inbound>, HookError> {
    hook.on_connect(alloc, stream)
}

/// Returns whether the halves stamp, and the connection has no data.
fn stamps(alloc: Global, output: HookOutput<StampOut, StampIn>) -> Result<bool, Fail> {
    let mut output = output;
    let sealed = output.outbound.transform_outbound(alloc, b"ab", b"")?;
    let opened = output.inbound.transform_inbound(alloc, b"ab\0", b"")?;
    Ok(
        sealed.as_slice() == b"ab\0".as_slice()
            && opened.as_slice() == b"ab".as_slice()
            && output.connection_data.is_empty(),
    )
}

/// Returns whether a hook agrees on stamps with the other side that wants them.
fn is_agreed(alloc: Global) -> Result<bool, Fail> {
    match connected(alloc, &Agrees {}, &Line(b"stamp", AT_ONCE)) {
        Ok(output) => stamps(alloc, output),
        Err(error) => prints(alloc, error, "memory was refused"),
    }
}

/// Returns whether a hook fails if the other side asks for no stamps.
fn is_not_agreed(alloc: Global) -> Result<bool, Fail> {
    match connected(alloc, &Agrees {}, &Line(b"plain", AT_ONCE)) {
        Ok(_) => Ok(false),
        Err(error) => prints(alloc, error, "no stamps"),
    }
}

#[test]
fn a_client_agrees_on_stamps(rt: HostRuntime) -> Tested {
    check(is_agreed(rt.alloc())? && is_not_agreed(rt.alloc())?)
}
