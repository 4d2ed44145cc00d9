//! Packets of halves that bind data to a header by a tag: they are written, read, and refused under another header.
use crate::tests::secure::context_tests::is_others;
use crate::tests::secure::masking::{Masking, masking_context};
use std::alloc::Global;
use std::test::Fail;
use ttrpc_bench::checks::{Tested, check_row};
use ttrpc_proto::{GenMessage, MessageHeader};
use ttrpc_secure::ConnectionContext;
use ttrpc_wire::Blob;

/// The part of a header that its payload is bound to: stream, type and flags.
type Head = (u32, u8, u8);

/// Data under a header with their packet, and another header with the error for the packet under it.
struct Bound {
    head: Head,
    data: &'static [u8],
    packet: &'static [u8],
    other: Head,
    told: &'static str,
}

const BOUND: &[Bound] = &[
    Bound {
        head: (1, 1, 0),
        data: b"hello world",
        packet: &[
            0, 1, 1, 1, 0, 0, 0, 11, 0xcc, 0xc1, 0xc8, 0xc8, 0xcb, 0x84, 0xd3, 0xcb, 0xd6, 0xc8,
            0xc0, 0xa4,
        ],
        other: (99, 1, 0),
        told: "transform_inbound failed: xor: AAD mismatch (stored=0x0101, expected=0x0163) — header tampered",
    },
    Bound {
        head: (3, 1, 0),
        data: &[1, 2, 3],
        packet: &[0, 1, 1, 3, 0, 0, 0, 3, 0xa5, 0xa4, 0xa7, 0xa6],
        other: (3, 2, 0),
        told: "transform_inbound failed: xor: AAD mismatch (stored=0x0103, expected=0x0203) — header tampered",
    },
    Bound {
        head: (5, 3, 0),
        data: &[0xff; 4],
        packet: &[0, 1, 3, 5, 0, 0, 0, 4, 0x59, 0x5f, 0x59, 0x5f],
        other: (5, 3, 0xff),
        told: "transform_inbound failed: xor: AAD mismatch (stored=0x0305, expected=0x03FA) — header tampered",
    },
    // A frame that ends a stream and has no data.
    Bound {
        head: (7, 3, 5),
        data: b"",
        packet: &[0, 1, 3, 2, 0, 0, 0, 0],
        other: (99, 3, 5),
        told: "transform_inbound failed: xor: AAD mismatch (stored=0x0302, expected=0x0366) — header tampered",
    },
    Bound {
        head: (0x01020304, 2, 0x80),
        data: &[0],
        packet: &[0, 1, 0, 0x86, 0, 0, 0, 1, 0xa5, 0x23],
        other: (0x02020304, 2, 0x80),
        told: "transform_inbound failed: xor: AAD mismatch (stored=0x0086, expected=0x0386) — header tampered",
    },
];

/// Packets that are refused under stream 1, type 1 and no flags, each with the error: the first thing that is wrong.
const REFUSED: &[(&[u8], &str)] = &[
    (
        &[],
        "transform_inbound failed: xor: packet too short (0 < 8)",
    ),
    (
        &[0, 2, 0, 0, 0, 0, 0],
        "transform_inbound failed: xor: packet too short (7 < 8)",
    ),
    (
        &[0, 2, 0, 0, 0, 0, 0, 0],
        "transform_inbound failed: xor: unknown algo 0x0002",
    ),
    (
        &[0, 1, 0, 0, 0, 0, 0, 1, 7],
        "transform_inbound failed: xor: AAD mismatch (stored=0x0000, expected=0x0101) — header tampered",
    ),
    (
        &[0, 1, 1, 1, 0, 0, 0, 1, 7],
        "transform_inbound failed: xor: encrypted data has odd length",
    ),
];

fn message_under(alloc: Global, head: Head, payload: &[u8]) -> Result<GenMessage, Fail> {
    let (stream_id, type_, flags) = head;
    let length = u32::try_from(payload.len())?;
    Ok(GenMessage {
        header: MessageHeader {
            length,
            stream_id,
            type_,
            flags,
        },
        payload: Blob::from_slice(alloc, payload)?,
    })
}

type Context = ConnectionContext<Masking, Masking>;

/// Returns whether the packet is refused with this text under this header, and the message stays.
fn is_refused(
    alloc: Global,
    context: &mut Context,
    head: Head,
    packet: &[u8],
    told: &str,
) -> Result<bool, Fail> {
    let mut message = message_under(alloc, head, packet)?;
    let refused = context.inbound(alloc, &mut message, true);
    let is_told = is_others(&refused, told)?;
    Ok(is_told && message == message_under(alloc, head, packet)?)
}

/// Returns whether the data are sealed to the packet, and the packet opens under its header.
fn is_sealed(alloc: Global, context: &mut Context, row: &Bound) -> Result<bool, Fail> {
    let mut message = message_under(alloc, row.head, row.data)?;
    context.outbound(alloc, &mut message, false)?;
    let is_sealed = message == message_under(alloc, row.head, row.packet)?;
    context.inbound(alloc, &mut message, false)?;
    Ok(is_sealed && message == message_under(alloc, row.head, row.data)?)
}

/// Returns whether the data are sealed to the packet, and the packet opens under its own header but not under the
/// other.
fn is_bound(alloc: Global, context: &mut Context, row: &Bound) -> Result<bool, Fail> {
    let is_sealed = is_sealed(alloc, context, row)?;
    Ok(is_sealed && is_refused(alloc, context, row.other, row.packet, row.told)?)
}

#[test]
fn packets_open_under_their_header_alone(rt: HostRuntime) -> Tested {
    let alloc = rt.alloc();
    let mut context = masking_context(alloc, true);
    for (at, row) in BOUND.iter().enumerate() {
        check_row(at, is_bound(alloc, &mut context, row)?)?;
    }
    for (at, (packet, told)) in REFUSED.iter().enumerate() {
        check_row(
            at,
            is_refused(alloc, &mut context, (1, 1, 0), packet, told)?,
        )?;
    }
    Ok(())
}
