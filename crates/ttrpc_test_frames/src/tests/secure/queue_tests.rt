//! Halves that seal, and the queue: payloads up to the limit and above it, and refused memory, which changes nothing.
use crate::tests::secure::context_tests::{data_frame, is_others};
use crate::tests::secure::masking::masking_context;
use std::alloc::Global;
use std::test::Fail;
use ttrpc_bench::checks::{Tested, check};
use ttrpc_bench::stamps;
use ttrpc_proto::{Error, GenMessage, MESSAGE_LENGTH_MAX, MessageHeader, Outgoing};
use ttrpc_secure::{ConnectionContext, InboundTransform, OutboundTransform};

/// The result of a condition, if memory isn't refused.
type Found = Result<bool, Fail>;

/// The bytes that the response is bound to.
const RESPONSE: &[u8] = &[0, 0, 0, 3, 2, 0];

/// Returns whether the call succeeded. It returns false only if memory was refused, and any other error ends the test.
fn is_done<T: Drop>(answer: ttrpc_proto::Result<T>) -> Result<bool, Fail> {
    match answer {
        Ok(_) => Ok(true),
        Err(Error::NoMemory) => Ok(false),
        Err(error) => Err(error.into()),
    }
}

/// Queues a message with these data, and returns whether that succeeded. If memory is refused, nothing has changed, and
/// the call is made again.
fn sends<O: OutboundTransform, I: InboundTransform>(
    alloc: Global,
    context: &mut ConnectionContext<O, I>,
    outgoing: &mut Outgoing,
    data: &[u8],
) -> Found {
    let mut message = data_frame(alloc, 0, data)?;
    let mut is_unchanged = true;
    if !is_done(context.transform_send(alloc, &mut message, outgoing))? {
        is_unchanged = message == data_frame(alloc, 0, data)? && outgoing.is_empty();
        context.transform_send(alloc, &mut message, outgoing)?;
    }
    Ok(is_unchanged && message == GenMessage::new(alloc))
}

/// Queues a response with these data. If memory is refused, the call is made again.
fn send_response<O: OutboundTransform, I: InboundTransform>(
    alloc: Global,
    context: &mut ConnectionContext<O, I>,
    outgoing: &mut Outgoing,
    data: &[u8],
) -> Tested {
    let header = MessageHeader::new_response(3, 0);
    if !is_done(context.send_response_sync(alloc, data, RESPONSE, outgoing, header))? {
        context.send_response_sync(alloc, data, RESPONSE, outgoing, header)?;
    }
    Ok(())
}

/// Returns whether this frame is the first in the queue, and takes it from the queue.
fn leaves(outgoing: &mut Outgoing, frame: &[u8]) -> bool {
    let mut buffer = [0; 64];
    let count = outgoing.lend(&mut buffer);
    let is_frame = &buffer[..count] == frame;
    outgoing.wrote(count);
    is_frame
}

/// Returns whether the queue has these frames, and no other.
fn has(outgoing: &mut Outgoing, frames: &[&[u8]]) -> bool {
    let mut all = true;
    for frame in frames {
        all = all && leaves(outgoing, frame);
    }
    all && outgoing.is_empty()
}

const MASKED: &[&[u8]] = &[
    &[0, 0, 0, 8, 0, 0, 0, 1, 3, 0, 0, 1, 0, 0, 0, 2, 0xcd, 0xcc],
    &[0, 0, 0, 8, 0, 0, 0, 3, 2, 0, 0, 1, 0, 0, 0, 2, 0xcd, 0xcc],
];

const BOUND: &[&[u8]] = &[
    &[
        0, 0, 0, 10, 0, 0, 0, 1, 3, 0, 0, 1, 3, 1, 0, 0, 0, 2, 0xce, 0xcd,
    ],
    &[
        0, 0, 0, 10, 0, 0, 0, 3, 2, 0, 0, 1, 2, 3, 0, 0, 0, 2, 0xcf, 0xcf,
    ],
];

/// Each stamp is one more than the one before.
const STAMPED: &[&[u8]] = &[
    &[0, 0, 0, 3, 0, 0, 0, 1, 3, 0, 0x68, 0x69, 0],
    &[0, 0, 0, 3, 0, 0, 0, 3, 2, 0, 0x68, 0x69, 1],
];

/// Returns whether a message and a response are queued as these frames.
fn is_queued<O: OutboundTransform, I: InboundTransform>(
    alloc: Global,
    context: &mut ConnectionContext<O, I>,
    frames: &[&[u8]],
) -> Found {
    let mut outgoing = Outgoing::new(alloc)?;
    let is_sent = sends(alloc, context, &mut outgoing, b"hi")?;
    send_response(alloc, context, &mut outgoing, b"hi")?;
    Ok(is_sent && has(&mut outgoing, frames))
}

/// Returns whether halves that mask, and bind or not, queue these frames.
fn masking_queues(alloc: Global, binds: bool, frames: &[&[u8]]) -> Found {
    let mut masking = masking_context(alloc, binds);
    is_queued(alloc, &mut masking, frames)
}

/// Returns whether halves that stamp queue these frames.
fn stamping_queues(alloc: Global, frames: &[&[u8]]) -> Found {
    let (outbound, inbound) = stamps();
    let mut stamping = ConnectionContext::of_halves(alloc, outbound, inbound);
    is_queued(alloc, &mut stamping, frames)
}

#[test]
fn sealed_frames_are_queued_in_order(rt: HostRuntime) -> Tested {
    let alloc = rt.alloc();
    check(
        masking_queues(alloc, false, MASKED)?
            && masking_queues(alloc, true, BOUND)?
            && stamping_queues(alloc, STAMPED)?,
    )
}

/// Returns whether a message that is sealed and opened comes back. If memory is refused, nothing has changed, and the
/// call is made again.
fn comes_back<O: OutboundTransform, I: InboundTransform>(
    alloc: Global,
    context: &mut ConnectionContext<O, I>,
) -> Found {
    let mut message = data_frame(alloc, 3, b"abc")?;
    let mut is_unchanged = true;
    if !is_done(context.outbound(alloc, &mut message, false))? {
        is_unchanged = message == data_frame(alloc, 3, b"abc")?;
        context.outbound(alloc, &mut message, false)?;
    }
    if !is_done(context.inbound(alloc, &mut message, false))? {
        context.inbound(alloc, &mut message, false)?;
    }
    Ok(is_unchanged && message == data_frame(alloc, 3, b"abc")?)
}

/// Returns whether a message comes back through halves that mask, and bind or not.
fn comes_back_masked(alloc: Global, binds: bool) -> Found {
    let mut masking = masking_context(alloc, binds);
    comes_back(alloc, &mut masking)
}

/// Returns whether a message comes back through halves that stamp.
fn comes_back_stamped(alloc: Global) -> Found {
    let (outbound, inbound) = stamps();
    let mut stamping = ConnectionContext::of_halves(alloc, outbound, inbound);
    comes_back(alloc, &mut stamping)
}

#[test]
fn messages_come_back(rt: HostRuntime) -> Tested {
    let alloc = rt.alloc();
    check(
        comes_back_masked(alloc, false)?
            && comes_back_masked(alloc, true)?
            && comes_back_stamped(alloc)?,
    )
}

/// Returns whether data at the limit are sealed to the longest message by each call that seals.
fn is_longest<O: OutboundTransform, I: InboundTransform>(
    alloc: Global,
    context: &mut ConnectionContext<O, I>,
    data: &[u8],
) -> Found {
    let sealed = context.outbound_buf(alloc, data, RESPONSE, true)?;
    let is_sealed = sealed.len() == MESSAGE_LENGTH_MAX;
    let mut message = data_frame(alloc, 0, data)?;
    context.outbound(alloc, &mut message, true)?;
    Ok(is_sealed && message.header.length == 4194304 && is_longest_queued(alloc, context, data)?)
}

/// Returns the same for the calls that queue.
fn is_longest_queued<O: OutboundTransform, I: InboundTransform>(
    alloc: Global,
    context: &mut ConnectionContext<O, I>,
    data: &[u8],
) -> Found {
    let mut sent = Outgoing::new(alloc)?;
    let mut message = data_frame(alloc, 0, data)?;
    context.transform_send(alloc, &mut message, &mut sent)?;
    let mut answered = Outgoing::new(alloc)?;
    let header = MessageHeader::new_response(3, 0);
    context.send_response_sync(alloc, data, RESPONSE, &mut answered, header)?;
    Ok(sent.open_len() == 4194314 && answered.open_len() == 4194314)
}

/// Returns whether data above the limit are refused by each call that seals, each with its text.
fn is_too_long<O: OutboundTransform, I: InboundTransform>(
    alloc: Global,
    context: &mut ConnectionContext<O, I>,
    data: &[u8],
    told: &str,
    advised: &str,
) -> Found {
    let is_sealed_never = is_others(&context.outbound_buf(alloc, data, RESPONSE, true), told)?;
    Ok(
        is_sealed_never
            && is_left(alloc, context, data, advised)?
            && is_not_queued(alloc, context, data, advised)?
            && is_not_answered(alloc, context, data, told)?,
    )
}

/// Returns whether a response above the limit is refused with this text, and not queued.
fn is_not_answered<O: OutboundTransform, I: InboundTransform>(
    alloc: Global,
    context: &mut ConnectionContext<O, I>,
    data: &[u8],
    told: &str,
) -> Found {
    let mut outgoing = Outgoing::new(alloc)?;
    let header = MessageHeader::new_response(3, 0);
    let refused = context.send_response_sync(alloc, data, RESPONSE, &mut outgoing, header);
    Ok(is_others(&refused, told)? && outgoing.is_empty())
}

/// Returns whether a message above the limit is refused with this text, and left as it was.
fn is_left<O: OutboundTransform, I: InboundTransform>(
    alloc: Global,
    context: &mut ConnectionContext<O, I>,
    data: &[u8],
    advised: &str,
) -> Found {
    let mut message = data_frame(alloc, 0, data)?;
    let refused = context.outbound(alloc, &mut message, true);
    let is_told = is_others(&refused, advised)?;
    Ok(is_told && message == data_frame(alloc, 0, data)?)
}

/// Returns the same for the call that queues a message.
fn is_not_queued<O: OutboundTransform, I: InboundTransform>(
    alloc: Global,
    context: &mut ConnectionContext<O, I>,
    data: &[u8],
    advised: &str,
) -> Found {
    let mut message = data_frame(alloc, 0, data)?;
    let mut outgoing = Outgoing::new(alloc)?;
    let refused = context.transform_send(alloc, &mut message, &mut outgoing);
    let is_told = is_others(&refused, advised)?;
    Ok(is_told && message == data_frame(alloc, 0, data)?)
}

const MASKED_TOLD: &str =
    "payload 4194298 bytes exceeds safe limit 4194297 bytes (MESSAGE_LENGTH_MAX - transform overhead)";

const MASKED_ADVISED: &str =
    "payload 4194298 bytes exceeds safe limit 4194297 bytes (MESSAGE_LENGTH_MAX - transform overhead); reduce payload size";

const BOUND_TOLD: &str =
    "payload 4194296 bytes exceeds safe limit 4194295 bytes (MESSAGE_LENGTH_MAX - transform overhead)";

const BOUND_ADVISED: &str =
    "payload 4194296 bytes exceeds safe limit 4194295 bytes (MESSAGE_LENGTH_MAX - transform overhead); reduce payload size";

/// Returns `length` bytes 7. The function hides the bytes from proofs, so that no proof computes a list of that length.
fn sevens(alloc: Global, length: usize) -> Result<Vec<u8>, Fail> {
    Ok(vec![in alloc; 7; length]?)
}

/// Returns whether halves that mask take at most `limit` bytes, and report one byte more.
fn has_limit(alloc: Global, binds: bool, limit: usize, told: &str, advised: &str) -> Found {
    let mut context = masking_context(alloc, binds);
    let longest = sevens(alloc, limit)?;
    let long = sevens(alloc, limit.saturating_add(1))?;
    Ok(
        context.max_raw_payload_len() == limit
            && is_longest(alloc, &mut context, &longest)?
            && is_too_long(alloc, &mut context, &long, told, advised)?,
    )
}

/// A packet fits into a message together with its head and the byte that makes its length even.
#[test]
fn room_is_left_for_the_head(rt: HostRuntime) -> Tested {
    let alloc = rt.alloc();
    check(
        has_limit(alloc, false, 4194297, MASKED_TOLD, MASKED_ADVISED)?
            && has_limit(alloc, true, 4194295, BOUND_TOLD, BOUND_ADVISED)?,
    )
}
