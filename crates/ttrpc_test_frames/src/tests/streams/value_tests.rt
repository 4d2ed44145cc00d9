//! Values that become messages, and messages that become values.
use crate::tests::streams::rows::{REQUEST, REQUEST_HEADER, REQUEST_PAYLOAD};
use std::alloc::Global;
use std::test::Fail;
use ttrpc_bench::checks::{Tested, check};
use ttrpc_bench::{AT_ONCE, Giver};
use ttrpc_message::{Message, read_message};
use ttrpc_proto::{Error, GenMessage, MessageHeader, Request};
use ttrpc_wire::{Blob, Sequence, Text, TryClone};

/// Returns whether this is `Others` with the text.
fn is_others(answer: &ttrpc_proto::Result<Message<Request>>, told: &str) -> Result<bool, Fail> {
    match answer {
        Err(Error::NoMemory) => Err(Error::NoMemory.into()),
        Err(Error::Others(text)) => Ok(text.as_str() == told),
        _ => Ok(false),
    }
}

/// Returns the request as a value.
fn request_read(alloc: Global) -> Result<Message<Request>, Fail> {
    let mut giver = Giver::new(REQUEST, AT_ONCE);
    Ok(Message::<Request>::read_from(alloc, &mut giver)?)
}

/// Returns whether the request is read as its parts.
fn are_parts_read(alloc: Global) -> Result<bool, Fail> {
    let (header, payload) = read_message(alloc, &mut Giver::new(REQUEST, AT_ONCE))?;
    let payload = payload?;
    Ok(header == REQUEST_HEADER && payload.as_slice() == REQUEST_PAYLOAD)
}

#[test]
fn a_request_goes_round(rt: HostRuntime) -> Tested {
    let alloc = rt.alloc();
    let message = request_read(alloc)?;
    let is_read = message.header == REQUEST_HEADER && message.payload.service.is_equal("demo.Echo");
    let is_made = is_made_again(alloc, message)?;
    check(is_read && is_made && are_parts_read(alloc)?)
}

/// Returns whether the request's frame has the right bytes, and makes the request again.
fn is_made_again(alloc: Global, message: Message<Request>) -> Result<bool, Fail> {
    let copy = message.try_clone()?;
    let written = message.into_gen(alloc)?;
    let is_written = written.payload.as_slice() == REQUEST_PAYLOAD;
    let again = Message::<Request>::from_gen(alloc, written)?;
    Ok(is_written && again == copy)
}

#[test]
fn a_request_has_its_length(rt: HostRuntime) -> Tested {
    let alloc = rt.alloc();
    let message = request_read(alloc)?;
    let request = Message::new_request(alloc, 7, message.payload)?;
    check(request.header == MessageHeader::new_request(7, 20))
}

fn request_of(alloc: Global, count: usize) -> Result<Request, Fail> {
    let mut payload = Vec::new(alloc);
    payload.resize(count, 7)?;
    Ok(Request {
        service: Text::new(alloc),
        method: Text::new(alloc),
        payload: Blob::from_vec(payload),
        timeout_nano: 0,
        metadata: Sequence::new(alloc),
    })
}

/// The tag and the length of the payload take five bytes.
#[test]
fn a_request_is_too_long(rt: HostRuntime) -> Tested {
    let alloc = rt.alloc();
    let greatest = Message::new_request(alloc, 1, request_of(alloc, 4194299)?)?;
    let answer = Message::new_request(alloc, 1, request_of(alloc, 4194300)?);
    let told = "message length 4194305 exceed maximum message size of 4194304";
    check(is_others(&answer, told)? && greatest.header.length == 4194304)
}

#[test]
fn a_payload_means_nothing(rt: HostRuntime) -> Tested {
    let alloc = rt.alloc();
    let message = GenMessage {
        header: MessageHeader::new_request(1, 1),
        payload: Blob::from_slice(alloc, b"\x0a")?,
    };
    let answer = Message::<Request>::from_gen(alloc, message);
    let told = "Decode payload failed.the bytes end inside a field";
    check(is_others(&answer, told)?)
}

/// The greatest message is read whole, and the bytes after it are left.
#[test]
fn a_greatest_message_is_read(rt: HostRuntime) -> Tested {
    let head = b"\0\x40\0\0\0\0\0\x05\x01\0";
    let mut giver = Giver::with_zeros(head, 4194304, b"\x01", AT_ONCE);
    let (header, payload) = read_message(rt.alloc(), &mut giver)?;
    let payload = payload?;
    check(header.length == 4194304 && payload.len() == 4194304 && giver.left() == 1)
}
