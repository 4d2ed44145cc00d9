//! The protocol's example of a header, edge cases, and the headers that are made.
use std::alloc::Global;
use std::test::Fail;
use ttrpc_bench::checks::{Tested, check, check_row};
use ttrpc_proto::{
    FLAG_NO_DATA, FLAG_REMOTE_CLOSED, FLAG_REMOTE_OPEN, MESSAGE_TYPE_DATA, MessageHeader,
};

const fn header(length: u32, stream_id: u32, type_: u8, flags: u8) -> MessageHeader {
    MessageHeader {
        length,
        stream_id,
        type_,
        flags,
    }
}

/// Headers, each with its ten bytes.
const HEADERS: [([u8; 10], (u32, u32, u8, u8)); 3] = [
    (
        [0x10, 0x00, 0x00, 0x00, 0x00, 0x00, 0x00, 0x03, 0x02, 0xef],
        (268435456, 3, 2, 239),
    ),
    ([0x00; 10], (0, 0, 0, 0)),
    ([0xff; 10], (4294967295, 4294967295, 255, 255)),
];

/// Returns whether the header is written as these bytes, and read from them.
fn has_bytes(alloc: Global, header: MessageHeader, bytes: &[u8; 10]) -> Result<bool, Fail> {
    let written = header.to_vec(alloc)?;
    Ok(
        written.as_slice() == bytes.as_slice()
            && header.to_bytes() == *bytes
            && MessageHeader::from(bytes) == header
            && MessageHeader::try_from_slice(bytes) == Some(header),
    )
}

#[test]
fn headers_are_written_and_read(rt: HostRuntime) -> Tested {
    for (at, (bytes, row)) in HEADERS.iter().enumerate() {
        let (length, stream_id, type_, flags) = *row;
        let header = header(length, stream_id, type_, flags);
        check_row(at, has_bytes(rt.alloc(), header, bytes)?)?;
    }
    Ok(())
}

/// The first ten of eleven bytes are a header, and nine bytes and none are not.
#[test]
fn a_header_is_read_from_ten_bytes() -> Tested {
    let bytes = [0, 0, 0, 1, 0, 0, 1, 0, 3, 4, 0xaa];
    let first = header(1, 256, MESSAGE_TYPE_DATA, FLAG_NO_DATA);
    check(
        MessageHeader::try_from_slice(&bytes) == Some(first)
            && MessageHeader::try_from_slice(&bytes[..9]).is_none()
            && MessageHeader::try_from_slice(&[]).is_none(),
    )
}

/// Returns whether headers are made with their types.
fn are_made() -> bool {
    MessageHeader::new_request(7, 5) == header(5, 7, 1, 0)
        && MessageHeader::new_response(7, 5) == header(5, 7, 2, 0)
        && MessageHeader::new_data(7, 5) == header(5, 7, 3, 0)
        && MessageHeader::default().to_bytes() == [0; 10]
}

#[test]
fn headers_are_made_and_changed() -> Tested {
    let mut changed = MessageHeader::new_data(7, 5);
    changed.set_stream_id(9);
    changed.set_flags(FLAG_REMOTE_OPEN);
    changed.add_flags(FLAG_NO_DATA);
    changed.add_flags(FLAG_REMOTE_OPEN);
    let has_more_flags = changed == header(5, 9, 3, 6);
    changed.set_flags(FLAG_REMOTE_CLOSED);
    check(are_made() && has_more_flags && changed == header(5, 9, 3, 1))
}
