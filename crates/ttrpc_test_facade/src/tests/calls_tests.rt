//! The functions that the macros call, over values.
use crate::tests::huge::HUGE;
use crate::tests::pairs::nothing;
use std::alloc::Global;
use std::test::Fail;
use ttrpc::calls::{decode_request, merge_reply, request_of, response_of};
use ttrpc::context::Context;
use ttrpc::proto::{Codec, KeyValue, Text};
use ttrpc::{Code, Error, Result as Answer, get_status};

type Tested = Result<(), Fail>;

/// The pair `k`, `v`.
const PAIR: &[u8] = b"\x0a\x01k\x12\x01v";

/// A key that is cut.
const CUT: &[u8] = b"\x0a\x05a";

/// The request with it for the service `s` and its method `m`, with five nanoseconds and the texts `a` and `b` for the
/// key `t`.
const REQUEST: &[u8] =
    b"\x0a\x01s\x12\x01m\x1a\x06\x0a\x01k\x12\x01v\x20\x05\x2a\x06\x0a\x01t\x12\x01a\x2a\x06\x0a\x01t\x12\x01b";

/// The response with the pair and an OK status, which is present and empty.
const RESPONSE: &[u8] = b"\x0a\x00\x12\x06\x0a\x01k\x12\x01v";

/// The response of an error with a status: not found, `gone`.
const NOT_FOUND: &[u8] = b"\x0a\x08\x08\x05\x12\x04gone";

/// The response of another error: unknown, with the error's text.
const UNKNOWN: &[u8] = b"\x0a\x13\x08\x02\x12\x0fttrpc err: gone";

fn pair(alloc: Global) -> Result<KeyValue, Fail> {
    Ok(KeyValue {
        key: Text::from_str(alloc, "k")?,
        value: Text::from_str(alloc, "v")?,
    })
}

/// Returns the error. Without an error, or if memory was refused, returns a failure of the test.
pub fn error_of<T: Drop>(told: Answer<T>) -> Result<Error, Fail> {
    match told {
        Ok(_told) => Err(Fail::from("no error")),
        Err(error) => match error {
            Error::NoMemory => Err(Fail::from(Error::NoMemory)),
            error => Ok(error),
        },
    }
}

/// Returns whether the error has this text.
fn prints<T: Drop>(alloc: Global, told: Answer<T>, text: &str) -> Result<bool, Fail> {
    Ok(error_of(told)?.text(alloc)?.as_str() == text)
}

/// Returns whether the errors of values that can't be read or written have the texts of a service.
fn service_prints(alloc: Global) -> Result<bool, Fail> {
    let cut = "ttrpc err: Unpack request error the bytes end inside a field";
    let long = "ttrpc err: Encoding response a message is longer than 4294967295 bytes";
    Ok(
        prints(alloc, decode_request::<KeyValue>(alloc, CUT), cut)?
            && prints(alloc, response_of(alloc, Ok(HUGE)), long)?,
    )
}

/// Returns whether the errors of such values have the texts of a client.
fn client_prints(alloc: Global) -> Result<bool, Fail> {
    let long = "ttrpc err: Encoding request a message is longer than 4294967295 bytes";
    let cut = "ttrpc err: Unpack get error the bytes end inside a field";
    let asked = request_of(alloc, "s", "m", Context::new(alloc), &HUGE);
    Ok(
        prints(alloc, asked, long)?
            && prints(alloc, merge_reply(alloc, &mut nothing(alloc), CUT), cut)?,
    )
}

#[test]
fn errors_of_codecs_have_their_prefixes(rt: HostRuntime) -> Tested {
    assert!(rt; service_prints(rt.alloc())? && client_prints(rt.alloc())?);
    Ok(())
}

#[test]
fn values_come_through(rt: HostRuntime) -> Tested {
    let alloc = rt.alloc();
    let expected = pair(alloc)?;
    let decoded: KeyValue = decode_request(alloc, PAIR)?;
    let mut merged = nothing(alloc);
    merge_reply(alloc, &mut merged, PAIR)?;
    assert!(rt; decoded == expected && merged == expected);
    Ok(())
}

/// Adds a text for the key `t`.
fn add_text(alloc: Global, context: &mut Context, text: &str) -> Tested {
    let key = String::from_str(alloc, "t")?;
    let text = String::from_str(alloc, text)?;
    context.add(alloc, key, text)?;
    Ok(())
}

/// Returns a context with five nanoseconds and the texts `a` and `b`.
fn context_of(alloc: Global) -> Result<Context, Fail> {
    let mut context = Context::new(alloc);
    context.timeout_nano = 5;
    for text in ["a", "b"] {
        add_text(alloc, &mut context, text)?;
    }
    Ok(context)
}

#[test]
fn request_says_what_its_context_says(rt: HostRuntime) -> Tested {
    let alloc = rt.alloc();
    let pair = pair(alloc)?;
    let request = request_of(alloc, "s", "m", context_of(alloc)?, &pair)?;
    let bytes = request.encode(alloc)?;
    assert!(rt; bytes.as_slice() == REQUEST);
    Ok(())
}

/// Returns whether the response of an answer has these bytes.
fn is_answered(alloc: Global, answer: Answer<KeyValue>, bytes: &[u8]) -> Result<bool, Fail> {
    let response = response_of(alloc, answer)?;
    Ok(response.encode(alloc)?.as_slice() == bytes)
}

/// Returns whether errors are answered: an error with a status by that, and another one by its text.
fn errors_are_answered(alloc: Global) -> Result<bool, Fail> {
    let status = get_status(Code::NOT_FOUND, String::from_str(alloc, "gone")?);
    let other = Error::Others(Text::from_str(alloc, "gone")?);
    Ok(
        is_answered(alloc, Err(Error::RpcStatus(status)), NOT_FOUND)?
            && is_answered(alloc, Err(other), UNKNOWN)?,
    )
}

#[test]
fn response_tells_what_was_answered(rt: HostRuntime) -> Tested {
    let alloc = rt.alloc();
    assert!(rt; is_answered(alloc, Ok(pair(alloc)?), RESPONSE)? && errors_are_answered(alloc)?);
    Ok(())
}
