//! Plain halves through their bounds, the sealing of a frame, and the errors of `?`.
ghost use Rattle.std.specs.Prelude.{◌≡◌, IfErr};

use crate::tests::rows::{FrameRow, header_of, queued_of};
use std::alloc::{AllocError, Global};
use std::test::Fail;
use ttrpc_bench::checks::{Tested, check, check_row};
use ttrpc_proto::{MESSAGE_LENGTH_MAX, Outgoing};
use ttrpc_secure::sending::{DataParts, SendError, associated_bytes, send};
use ttrpc_secure::{InboundTransform, OutboundTransform, Plain, TransformError};

/// Returns whether the one half seals the data to `expected`, and the other half opens that to `data`.
fn crosses<O: OutboundTransform, I: InboundTransform>(
    alloc: Global,
    halves: (&mut O, &mut I),
    data: &[u8],
    expected: &[u8],
) -> Result<bool, Fail> {
    let (outbound, inbound) = halves;
    let sealed = outbound.transform_outbound(alloc, data, b"header")?;
    let opened = inbound.transform_inbound(alloc, sealed.as_slice(), b"header")?;
    Ok(sealed.as_slice() == expected && opened.as_slice() == data)
}

/// Returns the same for the calls that take a vector.
fn crosses_as_it_is<O: OutboundTransform, I: InboundTransform>(
    alloc: Global,
    halves: (&mut O, &mut I),
    data: &[u8],
    expected: &[u8],
) -> Result<bool, Fail> {
    let (outbound, inbound) = halves;
    let copy = Vec::from_slice(alloc, data)?;
    let sealed = outbound.transform_outbound_vec(alloc, copy, b"header")?;
    let is_sealed = sealed.as_slice() == expected;
    let opened = inbound.transform_inbound_vec(alloc, sealed, b"header")?;
    Ok(is_sealed && opened.as_slice() == data)
}

/// Returns whether plain halves leave the data as they are, in either call.
fn stay(alloc: Global, data: &[u8]) -> Result<bool, Fail> {
    let mut outbound = Plain::default();
    let mut inbound = Plain {};
    let crosses = crosses(alloc, (&mut outbound, &mut inbound), data, data)?;
    Ok(crosses && crosses_as_it_is(alloc, (&mut outbound, &mut inbound), data, data)?)
}

/// Data that cross plain halves.
const DATA: &[&[u8]] = &[b"a payload", &[0, 255, 0], &[]];

#[test]
fn plain_halves_leave_data_as_it_is(rt: HostRuntime) -> Tested {
    for (at, data) in DATA.iter().enumerate() {
        check_row(at, stay(rt.alloc(), data)?)?;
    }
    let outbound = Plain::default();
    check(outbound.max_overhead() == 0 && <Plain as OutboundTransform>::SEALS == false)
}

// Refused memory is the only error in these two functions, and their clauses state the error that `?` makes of it.
fn pushed(items: &mut Vec<u8>, item: u8) -> Result<(), TransformError>
    ensures { IfErr result (λ e. e ≡ TransformError.NoMemory) }
{
    items.push(item)?;
    Ok(())
}

fn copied(alloc: Global, items: &[u8]) -> Result<Vec<u8>, TransformError>
    ensures { IfErr result (λ e. e ≡ TransformError.NoMemory) }
{
    Ok(Vec::from_slice(alloc, items)?)
}

#[test]
fn refused_memory_is_an_error(rt: HostRuntime) -> Tested {
    let mut items = copied(rt.alloc(), &[5, 6])?;
    pushed(&mut items, 7)?;
    let are_kept = items.as_slice() == [5, 6, 7].as_slice();
    check(are_kept && TransformError::from(AllocError) == TransformError::NoMemory)
}

#[test]
fn a_payload_is_bound_to_its_header() -> Tested {
    let header = header_of(&FrameRow(7, 16909060, 3, 5, b""));
    check(associated_bytes(&header) == [1, 2, 3, 4, 3, 5])
}

/// Sends this number of bytes as they are.
fn send_sevens(
    alloc: Global,
    outgoing: &mut Outgoing,
    length: usize,
) -> Result<Result<(), SendError>, Fail> {
    let data = vec![in alloc; 7; length]?;
    let frame = queued_of(alloc, &FrameRow(0, 1, 3, 0, b""), None)?;
    let parts = DataParts::whole(data.as_slice());
    Ok(send(alloc, &mut Plain {}, outgoing, frame, parts))
}

/// The front of a frame of the greatest length.
const GREATEST: [u8; 11] = [0, 0x40, 0, 0, 0, 0, 0, 1, 3, 0, 7];

/// The greatest payload is queued, and a payload with one byte more is refused.
#[test]
fn a_payload_too_long_is_not_queued(rt: HostRuntime) -> Tested {
    let mut outgoing = Outgoing::new(rt.alloc())?;
    let refused = send_sevens(rt.alloc(), &mut outgoing, MESSAGE_LENGTH_MAX + 1)?;
    let is_refused = refused == Err(SendError::TooLong) && outgoing.is_empty();
    let is_sent = match send_sevens(rt.alloc(), &mut outgoing, MESSAGE_LENGTH_MAX)? {
        Err(SendError::Failed(error)) => return Err(error.into()),
        sent => sent.is_ok(),
    };
    let mut buffer = [0; 11];
    let is_lent = outgoing.lend(&mut buffer) == 11 && buffer == GREATEST;
    check(is_refused && is_sent && is_lent)
}
