//! Frames from bytes that were cut in all ways.
use crate::tests::rows::{FrameRow, message_of};
use std::alloc::Global;
use std::test::Fail;
use ttrpc_bench::checks::{Tested, check, check_row};
use ttrpc_proto::{
    Error, FrameDecoder, GenMessage, GenMessageError, Incoming, MESSAGE_LENGTH_MAX, MessageHeader,
};
use ttrpc_wire::{Blob, TryClone};

/// A request of twenty bytes, a frame that closes stream 1, two bytes of data on stream 3, and the front of another
/// frame.
const STREAM: &[u8] =
    b"\0\0\0\x14\0\0\0\x01\x01\0\x0a\x09demo.Echo\x12\x04Echo\x1a\x01\x2a\0\0\0\0\0\0\0\x01\x03\x05\0\0\0\x02\0\0\0\x03\x03\0\x07\x08\0\0\0\x02\0\0\0\x03\x03\0\x09";

/// The whole frames of `STREAM`.
const FRAMES: &[FrameRow] = &[
    FrameRow(20, 1, 1, 0, b"\x0a\x09demo.Echo\x12\x04Echo\x1a\x01\x2a"),
    FrameRow(0, 1, 3, 5, b""),
    FrameRow(2, 3, 3, 0, &[7, 8]),
];

/// Returns whether these are the frames of these rows.
fn are(alloc: Global, given: &[Incoming], rows: &[FrameRow]) -> Result<bool, Fail> {
    if given.len() != rows.len() {
        return Ok(false);
    }
    let mut all = true;
    for (incoming, row) in given.iter().zip(rows) {
        let message = message_of(alloc, row)?;
        all = all && matches!(incoming, Incoming::Frame(frame) if *frame == message);
    }
    Ok(all)
}

/// Returns the frames that a decoder gives for bytes that come `step` at a time, and the number of calls that this
/// takes.
fn fed(
    alloc: Global,
    decoder: &mut FrameDecoder,
    bytes: &[u8],
    step: usize,
) -> Result<(Vec<Incoming>, usize), Fail> {
    let mut given = Vec::new(alloc);
    let mut calls: usize = 0;
    for piece in bytes.chunks(step.max(1)) {
        let mut rest = piece;
        for _ in 0..piece.len() {
            if rest.is_empty() {
                break;
            }
            let (taken, incoming) = decoder.feed(alloc, rest)?;
            rest = &rest[taken..];
            calls = calls.saturating_add(1);
            if let Some(incoming) = incoming {
                given.push(incoming)?;
            }
        }
    }
    Ok((given, calls))
}

/// Returns the header at the front of bytes, and the bytes after it.
fn header_at(bytes: &[u8]) -> Option<(MessageHeader, &[u8])> {
    let [a, b, c, d, e, f, g, h, type_, flags, body @ ..] = bytes else {
        return None;
    };
    let header = MessageHeader {
        length: u32::from_be_bytes([*a, *b, *c, *d]),
        stream_id: u32::from_be_bytes([*e, *f, *g, *h]),
        type_: *type_,
        flags: *flags,
    };
    Some((header, body))
}

/// Returns the frames at the front of bytes, and the number of bytes after them. It looks at whole lists.
fn plainly(alloc: Global, bytes: &[u8]) -> Result<(Vec<Incoming>, usize), Fail> {
    let mut given = Vec::new(alloc);
    let mut rest = bytes;
    for _ in 0..bytes.len() {
        let Some((header, body)) = header_at(rest) else {
            break;
        };
        let length = header.length as usize;
        if body.len() < length {
            break;
        }
        if length > MESSAGE_LENGTH_MAX {
            given.push(Incoming::Oversize(header))?;
        } else {
            let payload = Blob::from_slice(alloc, &body[..length])?;
            given.push(Incoming::Frame(GenMessage { header, payload }))?;
        }
        rest = &body[length..];
    }
    Ok((given, rest.len()))
}

/// Returns whether the decoder gives exactly these frames for bytes that come `step` at a time.
fn gives(
    alloc: Global,
    decoder: &mut FrameDecoder,
    bytes: &[u8],
    step: usize,
    rows: &[FrameRow],
) -> Result<bool, Fail> {
    let (given, _) = fed(alloc, decoder, bytes, step)?;
    are(alloc, given.as_slice(), rows)
}

/// Returns whether the stream in pieces of this size gives its frames, and one more byte after it gives its last frame.
fn comes_in_pieces(alloc: Global, step: usize) -> Result<bool, Fail> {
    let mut decoder = FrameDecoder::new(alloc);
    let are_frames = gives(alloc, &mut decoder, STREAM, step, FRAMES)?;
    let is_inside = !decoder.at_boundary();
    let last = FrameRow(2, 3, 3, 0, &[9, 10]);
    let is_last = gives(alloc, &mut decoder, &[10], step, &[last])?;
    Ok(are_frames && is_inside && is_last && decoder.at_boundary())
}

#[test]
fn frames_however_they_are_cut(rt: HostRuntime) -> Tested {
    let (plain, behind) = plainly(rt.alloc(), STREAM)?;
    check(behind == 11 && are(rt.alloc(), plain.as_slice(), FRAMES)?)?;
    for step in 1..STREAM.len() {
        check_row(step, comes_in_pieces(rt.alloc(), step)?)?;
    }
    Ok(())
}

/// Returns a decoder that was fed the front of a frame, and whether it gave nothing.
fn begun(alloc: Global, front: &[u8], step: usize) -> Result<(FrameDecoder, bool), Fail> {
    let mut decoder = FrameDecoder::new(alloc);
    let (none, _) = fed(alloc, &mut decoder, front, step)?;
    Ok((decoder, none.is_empty()))
}

/// Returns whether a frame comes in two pieces.
fn comes_in_two(alloc: Global, cut: usize) -> Result<bool, Fail> {
    let bytes = [0, 0, 0, 1, 0, 0, 0, 9, 3, 4, 42];
    let (front, back) = bytes.split_at(cut.min(11));
    let (mut decoder, has_begun) = begun(alloc, front, 11)?;
    let is_cut = decoder.at_boundary() == (cut == 0);
    let is_one = gives(
        alloc,
        &mut decoder,
        back,
        11,
        &[FrameRow(1, 9, 3, 4, &[42])],
    )?;
    Ok(has_begun && is_cut && is_one && decoder.at_boundary())
}

#[test]
fn header_cut_at_each_byte(rt: HostRuntime) -> Tested {
    for cut in 0..11 {
        check_row(cut, comes_in_two(rt.alloc(), cut)?)?;
    }
    Ok(())
}

/// Returns whether the decoder takes these bytes as one piece, and gives nothing.
fn takes(alloc: Global, decoder: &mut FrameDecoder, bytes: &[u8]) -> bool {
    decoder.feed(alloc, bytes) == Ok((bytes.len(), None))
}

#[test]
fn an_empty_piece_is_nothing(rt: HostRuntime) -> Tested {
    let mut decoder = FrameDecoder::new(rt.alloc());
    check(takes(rt.alloc(), &mut decoder, &[]) && decoder.at_boundary())
}

/// Returns whether the decoder takes `count` pieces of one byte, and gives nothing.
fn takes_bytes(alloc: Global, decoder: &mut FrameDecoder, count: u32) -> bool {
    let mut all = true;
    for _ in 0..count {
        all = all && takes(alloc, decoder, &[1]);
    }
    all
}

/// A frame that is too long is counted, one byte a call, and the frame after it is given.
#[test]
fn an_oversized_frame_is_counted(rt: HostRuntime) -> Tested {
    let alloc = rt.alloc();
    let (mut decoder, has_begun) = begun(alloc, &[0, 0x40, 0, 1, 0, 0, 0, 5, 1, 0], 1)?;
    let is_taken = takes_bytes(alloc, &mut decoder, 4194304);
    let header = MessageHeader::new_request(5, 4194305);
    let is_oversize = decoder.feed(alloc, &[1]) == Ok((1, Some(Incoming::Oversize(header))));
    let is_over = decoder.at_boundary();
    let closing = [0, 0, 0, 0, 0, 0, 0, 1, 3, 5];
    let is_closed = gives(
        alloc,
        &mut decoder,
        &closing,
        1,
        &[FrameRow(0, 1, 3, 5, b"")],
    )?;
    check(has_begun && is_taken && is_oversize && is_over && is_closed)
}

/// Returns whether it is a frame of the greatest length, with exactly the memory that its header states.
fn is_greatest(frame: GenMessage) -> bool {
    let has_header = frame.header == MessageHeader::new_request(5, 4194304);
    let payload = frame.payload.into_vec();
    has_header && payload.len() == 4194304 && payload.capacity() == 4194304
}

/// A frame of the greatest length is kept, with exactly the memory that its header states.
#[test]
fn the_greatest_frame_is_kept(rt: HostRuntime) -> Tested {
    let alloc = rt.alloc();
    let (mut decoder, has_begun) = begun(alloc, &[0, 0x40, 0, 0, 0, 0, 0, 5, 1, 0], 10)?;
    let is_taken = takes(alloc, &mut decoder, &[7]);
    let body = vec![in alloc; 7; 4194303]?;
    let (mut one, _) = fed(alloc, &mut decoder, body.as_slice(), 4096)?;
    let Some(Incoming::Frame(frame)) = one.pop() else {
        return Err("no frame came".into());
    };
    check(has_begun && is_taken && is_greatest(frame))
}

/// Returns the numbers of frames and of calls that a stream takes in pieces of this size.
fn counted(alloc: Global, bytes: &[u8], step: usize) -> Result<(usize, usize), Fail> {
    let mut decoder = FrameDecoder::new(alloc);
    let (given, calls) = fed(alloc, &mut decoder, bytes, step)?;
    Ok((given.len(), calls))
}

/// Returns whether these bytes are 2000 frames, and take at most two calls for each frame and one for each piece.
fn are_few_calls(alloc: Global, bytes: &[u8], step: usize) -> Result<bool, Fail> {
    let (frames, calls) = counted(alloc, bytes, step)?;
    let pieces = bytes.len() / step.max(1);
    Ok(frames == 2000 && calls <= pieces.saturating_add(4001))
}

/// Sizes of pieces.
const STEPS: &[usize] = &[1, 7, 100, 4096, 1000000];

/// The number of calls grows with the bytes: at most two for each frame, and one for each piece.
#[test]
fn calls_grow_with_the_bytes(rt: HostRuntime) -> Tested {
    let mut bytes = Vec::new(rt.alloc());
    for _ in 0..500 {
        bytes.extend_from_slice(STREAM)?;
        bytes.push(10)?;
    }
    for (at, step) in STEPS.iter().enumerate() {
        check_row(at, are_few_calls(rt.alloc(), bytes.as_slice(), *step)?)?;
    }
    Ok(())
}

/// If memory for a piece was refused, the decoder is as before, and the piece may come again.
#[test]
fn a_refused_piece_may_come_again(rt: HostRuntime) -> Tested {
    let alloc = rt.alloc();
    let (mut decoder, has_begun) = begun(alloc, &[0, 0, 0, 2, 0, 0, 0, 9, 3, 4], 10)?;
    let mut first = decoder.feed(alloc, &[42]);
    if first == Err(Error::NoMemory) {
        first = decoder.feed(alloc, &[42]);
    }
    let is_taken = first == Ok((1, None));
    let is_whole = gives(
        alloc,
        &mut decoder,
        &[43],
        1,
        &[FrameRow(2, 9, 3, 4, &[42, 43])],
    )?;
    check(has_begun && is_taken && is_whole)
}

/// Returns whether the error is the status of a message that is too long.
fn is_too_long(error: &Error) -> bool {
    let told = "message length 4194305 exceed maximum message size of 4194304";
    matches!(error, Error::RpcStatus(status) if status.code == 3 && status.message.as_str() == told)
}

/// The length in the header counts, and not the payload's.
#[test]
fn long_messages_are_refused(rt: HostRuntime) -> Tested {
    let alloc = rt.alloc();
    let greatest = message_of(alloc, &FrameRow(4194304, 1, 1, 0, b""))?;
    let longer = message_of(alloc, &FrameRow(4194305, 1, 1, 0, b""))?;
    match longer.check(alloc) {
        Err(Error::NoMemory) => Err(Error::NoMemory.into()),
        Err(error) => check(greatest.check(alloc).is_ok() && is_too_long(&error)),
        Ok(()) => Err("it wasn't refused".into()),
    }
}

#[test]
fn messages_are_copied(rt: HostRuntime) -> Tested {
    let alloc = rt.alloc();
    let empty = GenMessage::new(alloc);
    let is_empty = empty == message_of(alloc, &FrameRow(0, 0, 0, 0, b""))?;
    let message = message_of(alloc, &FrameRow(3, 258, 2, 1, b"abc"))?;
    let copy = message.try_clone()?;
    check(is_empty && copy == message && message != empty)
}

#[test]
fn errors_of_a_connection_are_its_own() -> Tested {
    let error = GenMessageError::from(Error::Eof);
    check(error == GenMessageError::InternalError(Error::Eof))
}
