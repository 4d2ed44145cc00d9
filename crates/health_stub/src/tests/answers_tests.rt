//! The statuses that a table accepts, and the answers of `check` by it. The bytes are written by hand.
use crate::check;
use crate::messages::HealthCheckRequest;
use crate::table::HealthTable;
use std::alloc::Global;
use std::test::Fail;
use ttrpc::proto::{Blob, Codec, Sequence, Text, WireMessage};
use ttrpc::{Error, Request};

/// A request of `Check` for `a`, and its answer.
const ASKED: &[u8] = b"\x0a\x0bdemo.Health\x12\x05Check\x1a\x03\x0a\x01a";

const TOLD: &[u8] = b"\x0a\0\x12\x02\x08\x01";

/// The answer to a request for `b`, which isn't there.
const UNKNOWN: &[u8] = b"\x0a\x18\x08\x05\x12\x14service b is unknown";

/// The answer to a payload that means no request.
const UNREADABLE: &[u8] = b"\x0a\x16\x08\x02\x12\x12unreadable request";

/// A payload, and the answer to it.
type Row = (&'static [u8], &'static [u8]);

const ROWS: &[Row] = &[
    (b"\x0a\x01a", TOLD),
    (b"\x0a\x01b", UNKNOWN),
    // The last of two names counts.
    (b"\x0a\x01b\x0a\x01a", TOLD),
    // A name that is cut off, and one that isn't UTF-8.
    (b"\x0a\x02a", UNREADABLE),
    (b"\x0a\x01\xff", UNREADABLE),
];

/// Makes the table of `a` with the statuses 2 and 1, and of `c` with 2.
pub fn table(alloc: Global) -> Result<HealthTable, Fail> {
    let mut table = HealthTable::new(alloc);
    table.set("a", &[2, 1])?;
    table.set("c", &[2])?;
    Ok(table)
}

/// Makes a request of `Check` with this payload.
fn request_of(alloc: Global, payload: &[u8]) -> Result<Request, Fail> {
    Ok(Request {
        service: Text::from_str(alloc, "demo.Health")?,
        method: Text::from_str(alloc, "Check")?,
        payload: Blob::from_slice(alloc, payload)?,
        timeout_nano: 0,
        metadata: Sequence::new(alloc),
    })
}

/// Returns whether `check` answers a request of this payload so.
fn is_answered(alloc: Global, table: &HealthTable, row: &Row) -> Result<bool, Fail> {
    let (payload, expected) = row;
    let response = check(table, &request_of(alloc, payload)?)?;
    Ok(response.encode(alloc)?.as_slice() == *expected)
}

#[test]
fn requests_have_their_answers(rt: HostRuntime) -> Result<(), Fail> {
    let table = table(rt.alloc())?;
    for row in ROWS {
        if !is_answered(rt.alloc(), &table, row)? {
            return Err("a request is answered otherwise".into());
        }
    }
    Ok(())
}

#[test]
fn the_request_reads_as_it_is_written(rt: HostRuntime) -> Result<(), Fail> {
    let table = table(rt.alloc())?;
    let response = check(&table, &Request::decode(rt.alloc(), ASKED)?)?;
    assert!(rt; response.encode(rt.alloc())?.as_slice() == TOLD);
    Ok(())
}

/// Returns whether an empty list is refused, and the name has what it had.
fn empty_is_refused(table: &mut HealthTable) -> Result<bool, Fail> {
    let refused = match table.set("a", &[]) {
        Err(Error::Others(text)) => text.as_str() == "a status list must not be empty",
        Err(error) => return Err(error.into()),
        Ok(()) => false,
    };
    Ok(refused && table.statuses("a") == Some([2, 1].as_slice()))
}

#[test]
fn a_table_keeps_lists_of_statuses(rt: HostRuntime) -> Result<(), Fail> {
    let mut table = table(rt.alloc())?;
    if !empty_is_refused(&mut table)? {
        return Err("an empty list isn't refused".into());
    }
    table.set("a", &[-1])?;
    assert!(rt; table.statuses("a") == Some([-1].as_slice()) && table.statuses("b").is_none());
    Ok(())
}

#[test]
fn a_request_is_one_text(rt: HostRuntime) -> Result<(), Fail> {
    let mut request = HealthCheckRequest::new(rt.alloc());
    request.service = Text::from_str(rt.alloc(), "a")?;
    assert!(rt; request.encode(rt.alloc())?.as_slice() == b"\x0a\x01a".as_slice());
    Ok(())
}
