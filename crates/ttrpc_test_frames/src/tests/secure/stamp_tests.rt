//! Stamps that are written, refused and counted.
use std::alloc::Global;
use std::test::Fail;
use ttrpc_bench::checks::{Tested, check, check_row};
use ttrpc_bench::{StampIn, StampOut, Transformed, stamps};
use ttrpc_proto::{GenMessage, MessageHeader, Outgoing, Queued};
use ttrpc_secure::sending::{DataParts, SendError, send};
use ttrpc_secure::{InboundTransform, OutboundTransform, TransformError};
use ttrpc_wire::Blob;

/// Returns whether these bytes are the result of a half.
fn is(made: Transformed, expected: &[u8]) -> Result<bool, Fail> {
    let made = made?;
    Ok(made.as_slice() == expected)
}

/// Returns whether the half refuses the data with the reason "bad stamp".
fn refuses<I: InboundTransform>(alloc: Global, half: &mut I, data: &[u8]) -> Result<bool, Fail> {
    match half.transform_inbound(alloc, data, &[]) {
        Err(TransformError::Refused(text)) => Ok(text.as_str() == "bad stamp"),
        Err(other) => Err(other.into()),
        Ok(_) => Ok(false),
    }
}

/// Returns whether the half opens the sealed data to these.
fn opens(alloc: Global, half: &mut StampIn, sealed: &[u8], data: &[u8]) -> Result<bool, Fail> {
    is(half.transform_inbound(alloc, sealed, &[]), data)
}

/// Returns whether the data are sealed to these bytes, and these open to the data.
fn crosses(
    alloc: Global,
    halves: (&mut StampOut, &mut StampIn),
    data: &[u8],
    sealed: &[u8],
) -> Result<bool, Fail> {
    let (outbound, inbound) = halves;
    let is_sealed = is(outbound.transform_outbound(alloc, data, &[]), sealed)?;
    Ok(is_sealed && opens(alloc, inbound, sealed, data)?)
}

/// Data, and the bytes that they are sealed to one after the other.
const FRAMES: &[(&[u8], &[u8])] = &[(b"one", b"one\x00"), (b"two", b"two\x01"), (b"", b"\x02")];

#[test]
fn frames_are_stamped_in_turn(rt: HostRuntime) -> Tested {
    let (mut outbound, mut inbound) = stamps();
    for (at, (data, sealed)) in FRAMES.iter().enumerate() {
        let halves = (&mut outbound, &mut inbound);
        check_row(at, crosses(rt.alloc(), halves, data, sealed)?)?;
    }
    check(outbound.max_overhead() == 1 && <StampOut as OutboundTransform>::SEALS == true)
}

#[test]
fn a_wrong_stamp_is_refused(rt: HostRuntime) -> Tested {
    let alloc = rt.alloc();
    let mut inbound = StampIn::new();
    check(
        refuses(alloc, &mut inbound, b"frame\x01")?
            && refuses(alloc, &mut inbound, b"")?
            && opens(alloc, &mut inbound, b"frame\x00", b"frame")?
            && refuses(alloc, &mut inbound, b"frame\x00")?
            && opens(alloc, &mut inbound, b"frame\x01", b"frame")?,
    )
}

#[test]
fn stamps_wrap_around(rt: HostRuntime) -> Tested {
    let mut outbound = StampOut::new();
    let mut inbound = StampIn::new();
    for number in 0..258u16 {
        let stamp = (number % 256) as u8;
        let halves = (&mut outbound, &mut inbound);
        let crosses = crosses(rt.alloc(), halves, &[7], &[7, stamp])?;
        check_row(number as usize, crosses)?;
    }
    Ok(())
}

fn request(alloc: Global, stream_id: u32) -> Queued {
    Queued {
        message: GenMessage {
            header: MessageHeader::new_request(stream_id, 0),
            payload: Blob::new(alloc),
        },
        ticket: None,
        is_unary_request: true,
        owner: 0,
    }
}

/// Returns an error that says why a frame wasn't sent, if it wasn't.
fn sent(outcome: Result<(), SendError>) -> Tested {
    match outcome {
        Ok(()) => Ok(()),
        Err(SendError::TooLong) => Err("the payload is too long".into()),
        Err(SendError::NoRoom) => Err("there is no room".into()),
        Err(SendError::Failed(error)) => Err(error.into()),
    }
}

/// Returns whether the bytes that are lent next are these, and takes them.
fn leaves(outgoing: &mut Outgoing, expected: &[u8]) -> bool {
    let mut buffer = [0; 64];
    let count = outgoing.lend(&mut buffer);
    let is_frame = &buffer[..count] == expected;
    outgoing.wrote(count);
    is_frame
}

/// If memory was refused, nothing is queued, and the half has counted nothing.
#[test]
fn a_refused_frame_is_not_counted(rt: HostRuntime) -> Tested {
    let alloc = rt.alloc();
    let (mut half, _) = stamps();
    let mut outgoing = Outgoing::new(alloc)?;
    let data = DataParts::whole(b"\x07");
    let mut is_unchanged = true;
    if send(alloc, &mut half, &mut outgoing, request(alloc, 1), data).is_err() {
        let is_empty = outgoing.is_empty();
        let again = send(alloc, &mut half, &mut outgoing, request(alloc, 1), data);
        is_unchanged = is_empty && again.is_ok();
    }
    check(is_unchanged && leaves(&mut outgoing, &[0, 0, 0, 2, 0, 0, 0, 1, 1, 0, 7, 0]))
}

const FIRST: &[u8] =
    b"\0\0\0\x19\0\0\0\x01\x01\0\x0a\x09demo.Echo\x12\x04Echo\x1a\x03\x01\x02\x03\x20\x0a\0";

const SECOND: &[u8] =
    b"\0\0\0\x19\0\0\0\x03\x01\0\x0a\x09demo.Echo\x12\x04Echo\x1a\x03\x01\x02\x03\x20\x0a\x01";

/// Two requests with the same payload leave with the stamps 0 and 1, and the lengths in their headers include the
/// stamps.
#[test]
fn frames_are_sealed_as_they_are_queued(rt: HostRuntime) -> Tested {
    let alloc = rt.alloc();
    let data = b"\x0a\x09demo.Echo\x12\x04Echo\x1a\x03\x01\x02\x03\x20\x0a";
    let (mut half, _) = stamps();
    let mut outgoing = Outgoing::new(alloc)?;
    for stream_id in [1, 3] {
        let request = request(alloc, stream_id);
        let parts = DataParts::whole(data);
        sent(send(alloc, &mut half, &mut outgoing, request, parts))?;
    }
    check(leaves(&mut outgoing, FIRST) && leaves(&mut outgoing, SECOND))
}
