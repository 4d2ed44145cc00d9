//! The context of a connection, over halves that stamp, leave data as they are, swell, and seal nothing.
use std::alloc::Global;
use std::test::Fail;
use ttrpc_bench::checks::{Tested, check};
use ttrpc_bench::{Sealed, StampIn, StampOut, Swelling, stamps};
use ttrpc_proto::{Error, GenMessage, MESSAGE_LENGTH_MAX, MessageHeader, Outgoing, Result};
use ttrpc_secure::{ConnectionContext, Plain, plain_context};
use ttrpc_wire::Blob;

/// The result of a condition, if memory isn't refused.
type Found = std::result::Result<bool, Fail>;

const LONG: &str = "message length 4194305 exceed maximum message size of 4194304";

const ABOVE_LIMIT: &str =
    "payload 24 bytes exceeds safe limit 23 bytes (MESSAGE_LENGTH_MAX - transform overhead)";

const ABOVE_LIMIT_ADVICE: &str =
    "payload 24 bytes exceeds safe limit 23 bytes (MESSAGE_LENGTH_MAX - transform overhead); reduce payload size";

fn stamped(alloc: Global) -> ConnectionContext<StampOut, StampIn> {
    let (outbound, inbound) = stamps();
    ConnectionContext::of_halves(alloc, outbound, inbound)
}

/// Returns a data frame of stream 1 with this payload and this length.
pub fn data_frame(
    alloc: Global,
    length: u32,
    payload: &[u8],
) -> std::result::Result<GenMessage, Fail> {
    Ok(GenMessage {
        header: MessageHeader::new_data(1, length),
        payload: Blob::from_slice(alloc, payload)?,
    })
}

/// Returns whether the answer is `Others` with this text.
pub fn is_others<T>(answer: &Result<T>, expected: &str) -> Found {
    match answer {
        Err(Error::Others(text)) => Ok(text.as_str() == expected),
        Err(Error::NoMemory) => Err(Error::NoMemory.into()),
        _ => Ok(false),
    }
}

/// Returns whether the answer is a status with the code INVALID_ARGUMENT and this text.
fn is_status<T>(answer: &Result<T>, expected: &str) -> Found {
    match answer {
        Err(Error::RpcStatus(status)) => {
            Ok(status.code == 3 && status.message.as_str() == expected)
        }
        Err(Error::NoMemory) => Err(Error::NoMemory.into()),
        _ => Ok(false),
    }
}

/// Returns whether the message is the data frame with this length and payload.
fn is_frame(alloc: Global, message: &GenMessage, length: u32, payload: &[u8]) -> Found {
    let expected = data_frame(alloc, length, payload)?;
    Ok(*message == expected)
}

/// Returns whether the bytes are sealed to these, and these are opened to them, with and without binding.
fn go_and_come(
    alloc: Global,
    context: &mut ConnectionContext<StampOut, StampIn>,
    bytes: &[u8],
    sealed: &[u8],
) -> Found {
    let there = context.outbound_buf(alloc, bytes, b"bound to", true)?;
    let back = context.inbound_buf(alloc, sealed, b"bound to", true)?;
    Ok(there.as_slice() == sealed && back.as_slice() == bytes)
}

/// Returns the same for the calls that check no length.
fn go_and_come_unchecked(
    alloc: Global,
    context: &mut ConnectionContext<StampOut, StampIn>,
    bytes: &[u8],
    sealed: &[u8],
) -> Found {
    let there = context.transform_outbound(alloc, bytes, b"bound to")?;
    let back = context.transform_inbound(alloc, sealed, b"bound to")?;
    Ok(there.as_slice() == sealed && back.as_slice() == bytes)
}

#[test]
fn bytes_go_out_and_come_in(rt: HostRuntime) -> Tested {
    let alloc = rt.alloc();
    let mut context = stamped(alloc);
    check(
        context.max_raw_payload_len() == 4194303
            && go_and_come(alloc, &mut context, &[0x2a], &[0x2a, 0])?
            && go_and_come_unchecked(alloc, &mut context, &[0x2b], &[0x2b, 1])?,
    )
}

#[test]
fn contexts_print_what_is_known(rt: HostRuntime) -> Tested {
    let printed = format!(in rt.alloc(); "{:?}", stamped(rt.alloc()))?;
    check(printed.as_str() == "ConnectionContext { connection_data: {}, .. }")
}

#[test]
fn messages_are_sealed_and_opened(rt: HostRuntime) -> Tested {
    let alloc = rt.alloc();
    let mut context = stamped(alloc);
    let mut message = data_frame(alloc, 1, &[0x2a])?;
    context.outbound(alloc, &mut message, false)?;
    let is_sealed = is_frame(alloc, &message, 2, &[0x2a, 0])?;
    context.inbound(alloc, &mut message, false)?;
    check(is_sealed && is_frame(alloc, &message, 1, &[0x2a])?)
}

/// Returns whether these twelve bytes are lent next.
fn lends(outgoing: &mut Outgoing, expected: [u8; 12]) -> bool {
    let mut buffer = [0; 12];
    outgoing.lend(&mut buffer) == 12 && buffer == expected
}

#[test]
fn messages_are_queued(rt: HostRuntime) -> Tested {
    let alloc = rt.alloc();
    let mut context = stamped(alloc);
    let mut outgoing = Outgoing::new(alloc)?;
    let mut message = data_frame(alloc, 1, &[0x2a])?;
    context.transform_send(alloc, &mut message, &mut outgoing)?;
    let is_taken = message == GenMessage::new(alloc);
    let header = MessageHeader::new_response(3, 0);
    context.send_response_sync(alloc, &[0x2b], b"bound to", &mut outgoing, header)?;
    let is_first = lends(&mut outgoing, [0, 0, 0, 2, 0, 0, 0, 1, 3, 0, 0x2a, 0]);
    let lent = outgoing.lent();
    outgoing.wrote(lent);
    let is_second = lends(&mut outgoing, [0, 0, 0, 2, 0, 0, 0, 3, 2, 0, 0x2b, 1]);
    check(is_taken && lent == 12 && is_first && is_second)
}

/// Each call that seals reports a payload above the safe limit, and changes nothing.
#[test]
fn a_payload_above_the_limit_is_told(rt: HostRuntime) -> Tested {
    let alloc = rt.alloc();
    let mut context = ConnectionContext::of_halves(alloc, Sealed { room: 23 }, Plain {});
    let long = [7; 24];
    let sealed = context.outbound_buf(alloc, &long, b"", true);
    let is_told = is_others(&sealed, ABOVE_LIMIT)?;
    let mut message = data_frame(alloc, 24, &long)?;
    let sealed = context.outbound(alloc, &mut message, true);
    let is_advised = is_others(&sealed, ABOVE_LIMIT_ADVICE)?;
    check(is_told && is_advised && is_frame(alloc, &message, 24, &long)?)
}

/// The calls that queue do the same.
#[test]
fn a_payload_above_the_limit_is_not_queued(rt: HostRuntime) -> Tested {
    let alloc = rt.alloc();
    let mut context = ConnectionContext::of_halves(alloc, Sealed { room: 23 }, Plain {});
    let mut outgoing = Outgoing::new(alloc)?;
    let mut message = data_frame(alloc, 24, &[7; 24])?;
    let sent = context.transform_send(alloc, &mut message, &mut outgoing);
    let is_advised = is_others(&sent, ABOVE_LIMIT_ADVICE)?;
    let is_left = is_frame(alloc, &message, 24, &[7; 24])?;
    let header = MessageHeader::new_response(3, 0);
    let sent = context.send_response_sync(alloc, &[7; 24], b"", &mut outgoing, header);
    check(is_advised && is_left && is_others(&sent, ABOVE_LIMIT)? && outgoing.is_empty())
}

/// If the half refuses, the error has its text, and nothing is queued.
#[test]
fn what_is_not_sealed_is_told(rt: HostRuntime) -> Tested {
    let alloc = rt.alloc();
    let mut context = ConnectionContext::of_halves(alloc, Sealed { room: 23 }, Plain {});
    let mut outgoing = Outgoing::new(alloc)?;
    let unsealed = "transform_outbound failed: sealed up";
    let sealed = context.outbound_buf(alloc, &[7; 23], b"", true);
    let is_told = is_others(&sealed, unsealed)?;
    let mut message = data_frame(alloc, 23, &[7; 23])?;
    let sent = context.transform_send(alloc, &mut message, &mut outgoing);
    check(is_told && is_others(&sent, unsealed)? && outgoing.is_empty())
}

/// Returns whether bytes are refused as too long by the calls that seal and open, as an error or as a status.
fn are_too_long(
    alloc: Global,
    context: &mut ConnectionContext<Plain, Plain>,
    long: &[u8],
) -> Found {
    Ok(
        is_others(&context.outbound_buf(alloc, long, b"", false), LONG)?
            && is_status(&context.outbound_buf(alloc, long, b"", true), LONG)?
            && is_others(&context.inbound_buf(alloc, long, b"", false), LONG)?
            && is_status(&context.inbound_buf(alloc, long, b"", true), LONG)?,
    )
}

/// If sealing adds nothing, the greatest message is the limit, and its own text is reported.
#[test]
fn a_message_too_long_is_told(rt: HostRuntime) -> Tested {
    let alloc = rt.alloc();
    let mut context = plain_context(alloc);
    let is_plain = context.connection_data.is_empty() && context.max_raw_payload_len() == 4194304;
    let long = vec![in alloc; 7; MESSAGE_LENGTH_MAX + 1]?;
    check(is_plain && are_too_long(alloc, &mut context, long.as_slice())?)
}

/// A payload that opens to more than a message may have is refused, and the message stays.
#[test]
fn what_swells_is_told(rt: HostRuntime) -> Tested {
    let alloc = rt.alloc();
    let mut context = ConnectionContext::of_halves(alloc, Plain {}, Swelling {});
    let mut message = data_frame(alloc, 1, &[1])?;
    let is_status = is_status(&context.inbound(alloc, &mut message, true), LONG)?;
    let is_told = is_others(&context.inbound(alloc, &mut message, false), LONG)?;
    check(is_status && is_told && is_frame(alloc, &message, 1, &[1])?)
}

/// If a payload isn't opened, the error says why, and the half opens the next payload.
#[test]
fn what_is_not_opened_is_told(rt: HostRuntime) -> Tested {
    let alloc = rt.alloc();
    let mut context = stamped(alloc);
    let bad = "transform_inbound failed: bad stamp";
    let is_told = is_others(&context.inbound_buf(alloc, &[0x2a, 7], b"", true), bad)?;
    let mut message = data_frame(alloc, 2, &[0x2a, 0])?;
    context.inbound(alloc, &mut message, true)?;
    check(is_told && is_frame(alloc, &message, 1, &[0x2a])?)
}
