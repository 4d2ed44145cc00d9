//! Packets of halves that mask: they are written, read and refused through the context of a connection.
use crate::tests::secure::context_tests::{data_frame, is_others};
use crate::tests::secure::masking::{Masking, masking_context};
use std::alloc::Global;
use std::test::Fail;
use ttrpc_bench::checks::{Tested, check, check_row};
use ttrpc_proto::{GenMessage, MessageHeader};
use ttrpc_secure::ConnectionContext;

type Context = ConnectionContext<Masking, Masking>;

/// Data, each with its packet.
const PACKETS: &[(&[u8], &[u8])] = &[
    (b"", &[0, 1, 0, 0, 0, 0]),
    (b"hi", &[0, 1, 0, 0, 0, 2, 0xcd, 0xcc]),
    (&[0xff], &[0, 1, 0, 0, 0, 1, 0x5a, 0xa5]),
    (
        &[0xaa, 0xbb, 0xcc],
        &[0, 1, 0, 0, 0, 3, 0x0f, 0x1e, 0x69, 0xa5],
    ),
    (&[0; 4], &[0, 1, 0, 0, 0, 4, 0xa5, 0xa5, 0xa5, 0xa5]),
    (
        &[1, 2, 3, 4, 5, 6],
        &[0, 1, 0, 0, 0, 6, 0xa4, 0xa7, 0xa6, 0xa1, 0xa0, 0xa3],
    ),
    (
        &[0xde, 0xad, 0xbe, 0xef],
        &[0, 1, 0, 0, 0, 4, 0x7b, 0x08, 0x1b, 0x4a],
    ),
];

/// Packets that another half wrote, each with the data that it opens to. A length above that of the data removes
/// nothing.
const OTHER_PACKETS: &[(&[u8], &[u8])] = &[
    (&[0, 1, 0, 0, 0, 1, 0xa4, 0xff], &[1]),
    (&[0, 1, 0, 0, 0, 0, 0xa4, 0xa7], &[]),
    (&[0, 1, 0, 0, 0, 9, 0xa4, 0xa7], &[1, 2]),
    (&[0, 1, 0xff, 0xff, 0xff, 0xff], &[]),
];

/// Packets that are refused, each with its error.
const REFUSED: &[(&[u8], &str)] = &[
    (
        &[],
        "transform_inbound failed: xor: packet too short (0 < 6)",
    ),
    (
        &[0, 1],
        "transform_inbound failed: xor: packet too short (2 < 6)",
    ),
    (
        &[0, 2, 0, 0, 0],
        "transform_inbound failed: xor: packet too short (5 < 6)",
    ),
    (
        &[0, 2, 0, 0, 0, 0],
        "transform_inbound failed: xor: unknown algo 0x0002",
    ),
    (
        &[0, 0x99, 0, 0, 0, 0, 0xa5, 0xa5],
        "transform_inbound failed: xor: unknown algo 0x0099",
    ),
    (
        &[0xab, 0xcd, 0, 0, 0, 1, 0xa4],
        "transform_inbound failed: xor: unknown algo 0xABCD",
    ),
    (
        &[0, 1, 0, 0, 0, 2, 0xab, 0xcd, 0xef],
        "transform_inbound failed: xor: encrypted data has odd length",
    ),
];

/// Returns whether the packet opens to the data, by each call that opens bytes.
fn opens(alloc: Global, packet: &[u8], data: &[u8]) -> Result<bool, Fail> {
    let mut context = masking_context(alloc, false);
    let opened = context.inbound_buf(alloc, packet, b"", false)?;
    let unchecked = context.transform_inbound(alloc, packet, b"")?;
    Ok(opened.as_slice() == data && unchecked.as_slice() == data)
}

/// Returns whether the data are masked to the packet, by each call that seals bytes.
fn masks(alloc: Global, context: &mut Context, data: &[u8], packet: &[u8]) -> Result<bool, Fail> {
    let masked = context.outbound_buf(alloc, data, b"", false)?;
    let unchecked = context.transform_outbound(alloc, data, b"")?;
    Ok(masked.as_slice() == packet && unchecked.as_slice() == packet)
}

#[test]
fn data_are_masked_and_unmasked(rt: HostRuntime) -> Tested {
    let alloc = rt.alloc();
    let mut context = masking_context(alloc, false);
    for (at, (data, packet)) in PACKETS.iter().enumerate() {
        let are_masked = masks(alloc, &mut context, data, packet)?;
        check_row(at, are_masked && opens(alloc, packet, data)?)?;
    }
    for (at, (packet, data)) in OTHER_PACKETS.iter().enumerate() {
        check_row(at, opens(alloc, packet, data)?)?;
    }
    Ok(())
}

/// Returns whether it is a data frame of stream 1 with this payload, and with the payload's length in its header.
fn carries(message: &GenMessage, payload: &[u8]) -> bool {
    let header = message.header;
    header == MessageHeader::new_data(1, header.length)
        && header.length as usize == payload.len()
        && message.payload.as_slice() == payload
}

/// Returns whether a message with the data becomes one with the packet, and then one with the data again.
fn comes_back(
    alloc: Global,
    context: &mut Context,
    data: &[u8],
    packet: &[u8],
) -> Result<bool, Fail> {
    let mut message = data_frame(alloc, 0, data)?;
    context.outbound(alloc, &mut message, false)?;
    let is_masked = carries(&message, packet);
    context.inbound(alloc, &mut message, false)?;
    Ok(is_masked && carries(&message, data))
}

#[test]
fn messages_are_masked_and_unmasked(rt: HostRuntime) -> Tested {
    let alloc = rt.alloc();
    let mut context = masking_context(alloc, false);
    for (at, (data, packet)) in PACKETS.iter().enumerate() {
        check_row(at, comes_back(alloc, &mut context, data, packet)?)?;
    }
    Ok(())
}

/// 1023 bytes come back. Each number below 256 is among them.
#[test]
fn long_data_come_back(rt: HostRuntime) -> Tested {
    let alloc = rt.alloc();
    let mut context = masking_context(alloc, false);
    let mut data = Vec::new(alloc);
    for number in 0..1023u16 {
        data.push((number % 256) as u8)?;
    }
    let masked = context.outbound_buf(alloc, data.as_slice(), b"", false)?;
    let opened = context.inbound_buf(alloc, masked.as_slice(), b"", false)?;
    let head = [0, 1, 0, 0, 3, 0xff, 0xa5, 0xa4];
    check(masked.len() == 1030 && masked.as_slice().starts_with(&head) && opened == data)
}

/// Returns whether the packet is refused with this reason, and a message with it stays as it was.
fn is_refused(
    alloc: Global,
    context: &mut Context,
    packet: &[u8],
    expected: &str,
) -> Result<bool, Fail> {
    let is_told = is_others(&context.inbound_buf(alloc, packet, b"", true), expected)?;
    let mut message = data_frame(alloc, 1, packet)?;
    let is_message_told = is_others(&context.inbound(alloc, &mut message, true), expected)?;
    Ok(is_told && is_message_told && message == data_frame(alloc, 1, packet)?)
}

/// An error has the reason of the refusal, and leaves a message as it was.
#[test]
fn refusals_are_told(rt: HostRuntime) -> Tested {
    let alloc = rt.alloc();
    let mut context = masking_context(alloc, false);
    for (at, (packet, expected)) in REFUSED.iter().enumerate() {
        check_row(at, is_refused(alloc, &mut context, packet, expected)?)?;
    }
    Ok(())
}
