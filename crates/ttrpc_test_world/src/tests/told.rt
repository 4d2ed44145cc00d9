//! The outcome that a caller gets for a handler's answer. The program is slow, and written from these sentences alone.

use crate::tests::plainly::is_ok;
use crate::tests::script::Over;
use std::alloc::Global;
use std::test::Fail;
use ttrpc_proto::{Error, Response};
use ttrpc_server::Rules;
use ttrpc_wire::Codec;
use ttrpc_world::Event;

/// The most bytes that a message may have.
const LONGEST: usize = 4194304;

/// The terms of a server: its rules, and the number of bytes that it may seal at most.
#[derive(Clone, Copy)]
pub struct Terms {
    pub rules: Rules,
    pub limit: usize,
}

/// Returns the terms of a server over these halves. Each stamp is a byte.
pub fn terms_of(over: Over, rules: Rules) -> Terms {
    let limit = match over {
        Over::Plain => LONGEST,
        Over::Stamps => LONGEST - 1,
    };
    Terms { rules, limit }
}

/// Returns the text that replaces a response of `size` bytes, or `None` if it isn't too long.
fn too_long(alloc: Global, terms: Terms, size: usize) -> Result<Option<String>, Fail> {
    let limit = terms.limit;
    if size > LONGEST && matches!(terms.rules, Rules::Async) {
        return Ok(Some(format!(in alloc;
            "message length {size} exceed maximum message size of 4194304"
        )?));
    }
    if size > limit {
        return Ok(Some(format!(in alloc;
            "response payload {size} bytes exceeds safe limit {limit} bytes (after transform overhead)"
        )?));
    }
    Ok(None)
}

/// Returns whether an outcome is a status with this code and text, and without details.
fn is_status(outcome: &Result<Response, Error>, code: i32, text: &str) -> bool {
    match outcome {
        Err(Error::RpcStatus(status)) => {
            status.code == code && status.message.as_str() == text && status.details.is_empty()
        }
        _ => false,
    }
}

/// Returns whether this is the outcome for a response: that it is too long, or itself, or its status if that isn't OK.
fn tells_response(
    alloc: Global,
    terms: Terms,
    response: &Response,
    outcome: &Result<Response, Error>,
) -> Result<bool, Fail> {
    if let Some(text) = too_long(alloc, terms, response.size() as usize)? {
        return Ok(is_status(outcome, 3, text.as_str()));
    }
    Ok(match (outcome, &response.status) {
        (Ok(given), _) => is_ok(response) && given == response,
        (Err(Error::RpcStatus(told)), Some(status)) => !is_ok(response) && told == status,
        _ => false,
    })
}

/// Returns whether this is the outcome for an answer. A handler's error becomes the status UNKNOWN with the error's
/// text.
pub fn tells(
    alloc: Global,
    terms: Terms,
    answer: &Event,
    outcome: &Result<Response, Error>,
) -> Result<bool, Fail> {
    match answer {
        Event::Answer(_, Ok(response)) | Event::Respond(_, response) => {
            tells_response(alloc, terms, response, outcome)
        }
        Event::Answer(_, Err(error)) => Ok(is_status(outcome, 2, error.text(alloc)?.as_str())),
        _ => Ok(false),
    }
}
